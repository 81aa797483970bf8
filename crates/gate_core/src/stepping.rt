//! The step of an event: a plan and its commit, a package and its stage, or what the chain's caller asks for.
ghost use Rattle.std.specs.Prelude.{◌≡◌, IfOk, OnOk, OnErr};
ghost use Rattle.std.specs.Option.{option_copied};
ghost use Rattle.gate_core.specs.Submissions.{StandsFor, submission_of};
ghost use Rattle.gate_message.specs.Recording.{AreCopies};
ghost use Rattle.gate_core.specs.PackageSteps.{package_of, packaged_step};
ghost use Rattle.gate_core.specs.Planning.{world_of};
ghost use Rattle.gate_core.specs.Steps.{step_of};

use crate::packaging::{AskedPackage, StagedReply};
use crate::parts::StateParts;
use crate::planning::{Plan, Step};
use gate_admit::Prepared;
use gate_bytes::Memory;
use gate_message::{Event, Replies, Reply};
use std::alloc::Global;
use std::hash::BuildHasher;

impl<S: BuildHasher + Copy + Drop> StateParts<S> {
    /// The step of a package that may be submitted.
    fn step_package(&mut self, alloc: Global, asked: &AskedPackage<'_>) -> Result<Reply, Memory>
        ensures ok { IfOk result (λ reply. (reply, world_of self.new) ≡ packaged_step (world_of self.old) asked.now) }
        ensures err { OnErr result (world_of self.new ≡ world_of self.old) }
        ensures before { self.old.pool.before ≡ self.old.pool.entries → OnOk result (self.new.pool.before ≡ self.old.pool.entries) }
    {
        let StagedReply {
            reply,
            stage,
            closes,
        } = self.stage(alloc, asked)?;
        match stage {
            Some(stage) => {
                let gone = self.land(stage, asked.second(), closes);
                Ok(reply.without(gone.as_slice()))
            }
            None => Ok(reply),
        }
    }

    /// The step of a package that may be submitted, with copies of the reply, which are made before it lands: without the
    /// memory for them it is taken back.
    fn record_package(&mut self, alloc: Global, asked: &AskedPackage<'_>) -> Result<Replies, Memory>
        ensures ok { IfOk result (λ replies. (replies.reply, world_of self.new) ≡ packaged_step (world_of self.old) asked.now) }
        ensures copies { IfOk result AreCopies }
        ensures err { OnErr result (world_of self.new ≡ world_of self.old) }
    {
        let StagedReply {
            reply,
            stage,
            closes,
        } = self.stage(alloc, asked)?;
        let Some(stage) = stage else {
            return Replies::of(alloc, reply);
        };
        match Replies::of(alloc, reply) {
            Ok(replies) => {
                let gone = self.land(stage, asked.second(), closes);
                Ok(replies.without(gone.as_slice()))
            }
            Err(Memory) => {
                stage.take_back(&mut self.pool);
                Err(Memory)
            }
        }
    }

    /// Makes the step of an event. What moves in the pool is what moves from now on.
    pub(crate) fn apply(&mut self, alloc: Global, event: &Event) -> Result<Reply, Memory>
        ensures ok { IfOk result (λ reply. (reply, world_of self.new) ≡ step_of (world_of self.old) event.now) }
        ensures err { OnErr result (world_of self.new ≡ world_of self.old) }
        ensures before { OnOk result (self.new.pool.before ≡ self.old.pool.entries) }
    {
        self.pool.mark();
        if let Some(asked) = self.package_of(event) {
            return self.step_package(alloc, &asked);
        }
        match self.plan(alloc, event, None)? {
            Step::Planned(Plan { reply, change }) => {
                let denial = self.commit(change);
                Ok(reply.settled(denial))
            }
            Step::Chain(event) => {
                let outcome = self.follow(alloc, event)?;
                Ok(Reply::of_chain(outcome))
            }
        }
    }

    /// Makes the step of an event, with copies of the reply, which are made before a plan's commit. `prepared` may stand
    /// for the event's submission.
    pub(crate) fn record(
        &mut self,
        alloc: Global,
        event: &Event,
        prepared: Option<&Prepared>,
    ) -> Result<Replies, Memory>
        requires { StandsFor (option_copied prepared) (submission_of event.now) }
        ensures ok { IfOk result (λ replies. (replies.reply, world_of self.new) ≡ step_of (world_of self.old) event.now) }
        ensures copies { IfOk result AreCopies }
        ensures err { OnErr result (world_of self.new ≡ world_of self.old) }
    {
        self.pool.mark();
        if let Some(asked) = self.package_of(event) {
            return self.record_package(alloc, &asked);
        }
        match self.plan(alloc, event, prepared)? {
            Step::Planned(Plan { reply, change }) => {
                let replies = Replies::of(alloc, reply)?;
                let denial = self.commit(change);
                Ok(replies.settled(denial))
            }
            Step::Chain(event) => {
                let outcome = self.follow(alloc, event)?;
                Ok(Replies::of_chain(outcome))
            }
        }
    }
}
