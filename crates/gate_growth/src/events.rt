//! The events of the input.
use crate::fault::Fault;
use gate_bytes::Memory;
use gate_core::submission;
use gate_events::event_on;
use gate_lines::{Lines, MAX_LINES, Next, Source};
use gate_message::Event;
use gate_submission::Prepared;
use std::alloc::Global;

/// The events that are made, and the questions that tell states apart.
#[derive(Drop)]
pub(crate) struct Events {
    pub(crate) made: Vec<Event>,
    pub(crate) asked: Vec<Event>,
}

impl Events {
    pub(crate) fn new(alloc: Global) -> Events {
        Events {
            made: Vec::new(alloc),
            asked: Vec::new(alloc),
        }
    }

    /// The last submission among those that are made.
    pub(crate) fn last_submission(&self) -> Option<&Prepared> {
        let mut last = None;
        for event in &self.made {
            last = submission(event).or(last);
        }
        last
    }
}

/// Adds the event that a line spells, if it spells one.
fn push_event(alloc: Global, events: &mut Vec<Event>, line: &[u8]) -> Result<(), Memory> {
    if let Some(event) = event_on(alloc, line)? {
        events.push(event)?;
    }
    Ok(())
}

/// Adds the events that the next lines spell, up to a line `---` or the end.
fn push_next<R: Source>(
    alloc: Global,
    lines: &mut Lines,
    reader: &mut R,
    events: &mut Vec<Event>,
) -> Result<(), Fault> {
    for _ in 0..MAX_LINES {
        if lines.next(reader)? != Next::Whole || lines.line() == b"---".as_slice() {
            break;
        }
        push_event(alloc, events, lines.line())?;
    }
    Ok(())
}

/// Reads the events and the questions behind an opening.
pub(crate) fn read_events<R: Source>(
    alloc: Global,
    reader: &mut R,
    events: &mut Events,
) -> Result<(), Fault> {
    let mut lines = Lines::new(alloc);
    push_next(alloc, &mut lines, reader, &mut events.made)?;
    push_next(alloc, &mut lines, reader, &mut events.asked)
}
