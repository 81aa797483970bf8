//! An entry of a journal: what it keeps of an event.
use gate_bytes::{Copied, Memory};
use gate_message::{Event, Reply};
use std::alloc::Global;

/// An event with its reply, and the number of the pass under which it was made.
#[derive(Drop)]
pub struct Entry {
    pub pass: u64,
    pub event: Event,
    pub reply: Reply,
}

impl Copied for Entry {
    fn copy(&self, alloc: Global) -> Result<Entry, Memory> {
        Ok(Entry {
            pass: self.pass,
            event: self.event.copy(alloc)?,
            reply: self.reply.copy(alloc)?,
        })
    }
}
