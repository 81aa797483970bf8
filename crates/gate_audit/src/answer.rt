//! What an audit finds.

/// What an audit finds in a journal.
#[derive(Clone, Copy, PartialEq, Eq)]
pub enum Audit {
    /// The journal has this many entries, each with the reply of its step.
    Legal(u64),
    /// The number of the first entry that is wrong, from 1.
    Illegal(u64),
}
