//! Who looks on at a run.
use gate_core::State;
use gate_message::{Event, Reply};
use std::hash::BuildHasher;

/// Somebody who looks on at a run. The states of the run are lent to be read alone, so no reply depends on who it is.
pub trait Onlooker<S: BuildHasher + Copy + Drop> {
    /// What is kept from before an event until after its reply.
    type Sight;

    /// The opening was read, and the run begins.
    fn begin(&self);

    /// This event will be answered by a step of this state.
    fn before(&self, state: &State<S>, event: &Event) -> Self::Sight;

    /// The event has this reply, and its step has led to this state. The reply is `None` if memory ran out in the step.
    fn after(&self, sight: Self::Sight, state: &State<S>, event: &Event, reply: Option<&Reply>);

    /// The run ended in this state.
    fn end(&self, state: &State<S>);
}

/// Nobody looks on.
impl<S: BuildHasher + Copy + Drop> Onlooker<S> for () {
    type Sight = ();

    fn begin(&self) {}

    fn before(&self, _state: &State<S>, _event: &Event) {}

    fn after(&self, _sight: (), _state: &State<S>, _event: &Event, _reply: Option<&Reply>) {}

    fn end(&self, _state: &State<S>) {}
}
