//! Who looks on at an audit.

/// Somebody who looks on at an audit. What is lent is read alone, so no answer depends on who it is.
pub trait AuditOnlooker {
    /// This line spells an event, to which this reply is due.
    fn due(&self, line: &[u8], reply: &str);

    /// The reply that was due last doesn't follow: the journal has another line there, or ends.
    fn missed(&self);
}

/// Nobody looks on.
impl AuditOnlooker for () {
    fn due(&self, _line: &[u8], _reply: &str) {}

    fn missed(&self) {}
}
