//! A state that tells what its last event moved.
ghost use Rattle.std.specs.Prelude.{◌≡◌, IfOk, OnErr};
ghost use Rattle.gate_core.specs.Good.{StepGives};
ghost use Rattle.gate_core.specs.Steps.{step_of};
ghost use Rattle.gate_pool.specs.Moves.{arrived, departed};

use crate::parts::StateParts;
use crate::state::{State, StepFault};
use gate_bytes::Memory;
use gate_message::{Event, Reply};
use gate_tx::Txid;
use std::alloc::Global;
use std::hash::BuildHasher;
use std::marker::Model;

/// A state, and the entries that its pool had before the last event. Those that have left are kept until the next event,
/// so that both lists of what moved are made when they are asked for, at the cost of what moved.
#[derive(Drop)]
pub struct Tracked<S: BuildHasher + Copy + Drop> {
    parts: StateParts<S>,
}

impl<S: BuildHasher + Copy + Drop> Model for Tracked<S> {
    ghost use Rattle.gate_core.specs.Planning.{world_of};
    ghost use Rattle.gate_core.specs.Spans.{Span};

    ghost Value = { Span };

    ghost view = { λ t. record { world = world_of t.parts; before = t.parts.pool.before } };
}

impl<S: BuildHasher + Copy + Drop> Tracked<S> {
    /// A state from which nothing has moved yet.
    pub fn new(state: State<S>) -> Tracked<S>
        ensures world { result.world ≡ state }
        ensures before { result.before ≡ state.pool }
    {
        let State { mut parts } = state;
        parts.pool.mark();
        Tracked { parts }
    }

    /// Makes one step, as `State::step` does. What has moved is then what this event moves. After `Memory` the state is
    /// what it was, and nothing has moved.
    pub fn step(&mut self, alloc: Global, event: &Event) -> Result<Reply, StepFault>
        ensures ok { IfOk result (λ reply. StepGives self.old.world event.now reply self.new.world) }
        ensures exact { IfOk result (λ reply. (reply, self.new.world) ≡ step_of self.old.world event.now) }
        ensures err { OnErr result (self.new.world ≡ self.old.world) }
        ensures before { self.new.before ≡ self.old.world.pool }
    {
        event.recall_spelled();
        match self.parts.apply(alloc, event) {
            Ok(reply) => Ok(reply),
            Err(Memory) => {
                self.parts.pool.mark();
                Err(StepFault::Memory)
            }
        }
    }

    /// Lets nothing have moved: what came before is answered for.
    pub fn rest(&mut self)
        ensures world { self.new.world ≡ self.old.world }
        ensures before { self.new.before ≡ self.old.world.pool }
    {
        self.parts.pool.mark();
    }

    /// The state, to be read: both types have the same one field.
    pub fn state(&self) -> &State<S>
        ensures { result.now ≡ self.now.world }
    {
        unsafe { &*(self as *const Tracked<S> as *const State<S>) }
    }

    /// The txids of the entries that the last event took out, in order of admission. One that left and came back within
    /// the event is not among them.
    pub fn departed(&self, alloc: Global) -> Result<Vec<Txid>, Memory>
        ensures { IfOk result (λ txids. txids.items ≡ departed self.now.before self.now.world.pool) }
    {
        self.parts.pool.departed(alloc)
    }

    /// The txids of the entries that the last event brought in, in order of admission. One that entered and left within
    /// the event is not among them.
    pub fn arrived(&self, alloc: Global) -> Result<Vec<Txid>, Memory>
        ensures { IfOk result (λ txids. txids.items ≡ arrived self.now.before self.now.world.pool) }
    {
        self.parts.pool.arrived(alloc)
    }

    /// A copy of the state, from which nothing has moved yet.
    pub fn copy(&self, alloc: Global) -> Result<Tracked<S>, Memory>
        ensures world { IfOk result (λ copy. copy.world ≡ self.now.world) }
        ensures before { IfOk result (λ copy. copy.before ≡ self.now.world.pool) }
    {
        let mut parts = self.parts.copy(alloc)?;
        parts.pool.mark();
        Ok(Tracked { parts })
    }
}
