//! What is said of the reply to one event, as a text for whoever makes the step.
use crate::object::reply_object;
use crate::sight::Sight;
use gate_bytes::Memory;
use gate_core::State;
use gate_message::{Event, Reply};
use std::alloc::Global;
use std::hash::BuildHasher;

/// What is seen of an event and of the state before it, with the entries that a submission has to do with. What there was
/// no memory for is lacking.
#[derive(Drop)]
pub struct Seen {
    sight: Sight,
}

impl Seen {
    /// What is seen of an event before its step.
    pub fn of<S: BuildHasher + Copy + Drop>(
        alloc: Global,
        state: &State<S>,
        event: &Event,
    ) -> Seen {
        Seen {
            sight: Sight::of(alloc, state, event, true),
        }
    }
}

/// The object that `gate run --explain=json` says of a reply, without a newline: of an event on the line of this number,
/// seen before its step, which led to this state. It is `None` for a reply of which nothing is said.
pub fn explain_reply<S: BuildHasher + Copy + Drop>(
    alloc: Global,
    line: u64,
    state: &State<S>,
    seen: &Seen,
    event: &Event,
    reply: &Reply,
) -> Result<Option<String>, Memory> {
    reply_object(alloc, line, state, &seen.sight, event, reply)
}
