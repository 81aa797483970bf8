//! Who looks on at `gate audit --explain`, and speaks on standard error.
use gate_audit::AuditOnlooker;
use gate_causes::{InputPosition, Quoted, ReportForm};
use std::alloc::Global;
use std::cell::Cell;

/// The event of an entry, and the reply that is due to it.
#[derive(Drop)]
struct Due {
    event: String,
    reply: String,
}

impl Due {
    /// What is due to the event on a line of a journal, if there is memory to keep it.
    fn of(alloc: Global, line: &[u8], reply: &str) -> Option<Due> {
        let text = std::str::from_utf8(line).ok()?;
        let event = String::from_str(alloc, text.strip_prefix("> ")?).ok()?;
        let reply = String::from_str(alloc, reply).ok()?;
        Some(Due { event, reply })
    }
}

/// An onlooker that says on standard error which reply is due where a journal has another one or none, with its event and the
/// number of the line that was read last. Without memory for it nothing is said, and what standard error doesn't take is lost.
#[derive(Drop)]
pub struct AuditExplaining<'a, T> {
    rt: &'a T,
    alloc: Global,
    position: &'a InputPosition,
    form: ReportForm,
    /// How many events were answered.
    entries: Cell<u64>,
    due: Cell<Option<Due>>,
}

impl<'a, T> AuditExplaining<'a, T> {
    /// An onlooker of an audit that hasn't begun.
    pub fn new(
        rt: &'a T,
        alloc: Global,
        position: &'a InputPosition,
        form: ReportForm,
    ) -> AuditExplaining<'a, T> {
        AuditExplaining {
            rt,
            alloc,
            position,
            form,
            entries: Cell::new(0),
            due: Cell::new(None),
        }
    }
}

impl<T: Eprint> AuditOnlooker for AuditExplaining<'_, T> {
    fn due(&self, line: &[u8], reply: &str) {
        self.entries.set(self.entries.get().saturating_add(1));
        self.due.set(Due::of(self.alloc, line, reply));
    }

    fn missed(&self) {
        let Some(due) = self.due.replace(None) else {
            return;
        };
        let (line, entry) = (self.position.line(), self.entries.get());
        let (event, reply) = (due.event.as_str(), due.reply.as_str());
        let _written = match self.form {
            ReportForm::Words => eprintln!(self.rt;
                "gate: line {line}: entry {entry}: the reply to \"{event}\" is \"{reply}\""
            ),
            ReportForm::Json => {
                let (event, reply) = (Quoted(event), Quoted(reply));
                eprintln!(self.rt;
                    "{{\"line\":{line},\"entry\":{entry},\"event\":{event},\"due\":{reply}}}"
                )
            }
        };
    }
}
