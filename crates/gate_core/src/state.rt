//! The state, and the one step that changes it.
ghost use Rattle.std.specs.Prelude.{◌≡◌, [], IfOk, OnErr};
ghost use Rattle.std.specs.Option.{option_copied, option_map};
ghost use Rattle.gate_core.specs.Submissions.{StandsFor, submission_of};
ghost use Rattle.gate_chain.specs.History.{opened_from};
ghost use Rattle.gate_chain.specs.Opening.{open_fault_from, IsRefusedFor};
ghost use Rattle.gate_core.specs.World.{opened_world};
ghost use Rattle.gate_core.specs.Planning.{world_of};
ghost use Rattle.gate_message.specs.Recording.{AreCopies};
ghost use Rattle.gate_core.specs.Steps.{step_of};
ghost use Rattle.gate_core.specs.Good.{IsGoodWorld, StepGives};
ghost use Rattle.gate_core.specs.Sessions.{session_of, status_of};

use crate::opening::Opening;
use crate::parts::StateParts;
use crate::session::{Session, Sessions};
use crate::sharing::LastListing;
use crate::switches::Switches;
use gate_admit::{Chain, Floor, OpenFault, OpeningCoin, Policy, Pool, Prepared, Verdicts};
use gate_bytes::{Kept, Memory};
use gate_message::{Event, Replies, Reply};
use std::alloc::Global;
use std::hash::BuildHasher;
use std::marker::Model;
use thiserror::Error;

/// Why a step is not made.
#[derive(Clone, Copy, Debug, PartialEq, Eq, Error)]
pub enum StepFault {
    #[error("out of memory")]
    Memory,
}

impl From<Memory> for StepFault {
    fn from(_memory: Memory) -> StepFault {
        StepFault::Memory
    }
}

/// Everything that the gate knows: the chain, the pool with its floor, the sessions and the settings.
#[derive(Drop)]
pub struct State<S: BuildHasher + Copy + Drop> {
    pub(crate) parts: StateParts<S>,
}

impl<S: BuildHasher + Copy + Drop> Model for State<S> {
    ghost use Rattle.gate_core.specs.World.{World};
    ghost use Rattle.gate_core.specs.Planning.{world_of};

    ghost Value = { World };

    ghost view = { λ s. world_of s.parts };
}

/// The chain of these coins, and of these times from a height on, and an empty pool.
fn opened_ledger<S: BuildHasher + Copy + Drop>(
    alloc: Global,
    hasher: S,
    first: u32,
    coins: Kept<OpeningCoin>,
    times: Kept<u32>,
) -> Result<(Chain<S>, Pool<S>), OpenFault>
    ensures chain { IfOk result (λ ledger. ledger.0 ≡ opened_from first coins times) }
    ensures pool { IfOk result (λ ledger. ledger.1.entries ≡ []) }
    ensures fault { IsRefusedFor (open_fault_from first coins times) result }
{
    let chain = Chain::open_from(alloc, hasher, first, coins.into_vec(), times.into_vec())?;
    match Pool::new(alloc, hasher) {
        Ok(pool) => Ok((chain, pool)),
        Err(_) => {
            drop(chain);
            Err(OpenFault::Memory)
        }
    }
}

impl<S: BuildHasher + Copy + Drop> State<S> {
    fn opened(alloc: Global, hasher: S, opening: Opening<S>) -> Result<State<S>, OpenFault>
        ensures ok { IfOk result (λ state. state ≡ opened_world opening) }
        ensures fault { IsRefusedFor (open_fault_from opening.first opening.coins opening.times) result }
    {
        let Opening {
            budget,
            policy,
            first,
            coins,
            times,
            verdicts,
            whitelist,
            rpcwhitelist,
            blocksonly,
            bloom,
        } = opening;
        match opened_ledger(alloc, hasher, first, coins, times) {
            Ok((chain, pool)) => Ok(State {
                parts: StateParts {
                    chain,
                    pool,
                    floor: Floor::new(0),
                    sessions: Sessions::new(alloc),
                    budget,
                    policy,
                    verdicts,
                    whitelist,
                    rpcwhitelist,
                    blocksonly,
                    switches: Switches::opened(bloom),
                    listing: LastListing::none(),
                },
            }),
            Err(fault) => {
                drop(verdicts);
                drop(whitelist);
                drop(rpcwhitelist);
                Err(fault)
            }
        }
    }

    /// The state of an opening, with an empty pool; the hasher's state serves every map of ids and outpoints. A fault names
    /// the first coin in the list that fails.
    pub fn open(alloc: Global, hasher: S, opening: Opening<S>) -> Result<State<S>, OpenFault>
        ensures ok { IfOk result (λ state. state ≡ opened_world opening) }
        ensures good { IfOk result IsGoodWorld }
        ensures fault { IsRefusedFor (open_fault_from opening.first opening.coins opening.times) result }
    {
        opening.policy.recall_bounds();
        State::opened(alloc, hasher, opening)
    }

    /// Makes one step, and returns the reply to the event. Only running out of memory can prevent it; the state is then
    /// what it was.
    pub fn apply(&mut self, alloc: Global, event: &Event) -> Result<Reply, Memory>
        ensures ok { IfOk result (λ reply. (reply, self.new) ≡ step_of self.old event.now) }
        ensures err { OnErr result (self.new ≡ self.old) }
    {
        self.parts.apply(alloc, event)
    }

    /// Makes one step as `apply` does, and keeps a good state good. After `Memory` the state is what it was.
    pub fn step(&mut self, alloc: Global, event: &Event) -> Result<Reply, StepFault>
        ensures ok { IfOk result (λ reply. StepGives self.old event.now reply self.new) }
        ensures err { OnErr result (self.new ≡ self.old) }
        ensures exact { IfOk result (λ reply. (reply, self.new) ≡ step_of self.old event.now) }
    {
        event.recall_spelled();
        let reply = self.apply(alloc, event)?;
        Ok(reply)
    }

    /// Makes one step as `step` does, with two copies of its reply. All memory is taken before anything changes.
    ///
    /// `prepared`, which may stand for the event's submission, is the same transaction, but may have reports on its
    /// inputs: the step is that of the event, and takes less time.
    pub fn step_recorded(
        &mut self,
        alloc: Global,
        event: &Event,
        prepared: Option<&Prepared>,
    ) -> Result<Replies, Memory>
        requires { StandsFor (option_copied prepared) (submission_of event.now) }
        ensures ok { IfOk result (λ r. StepGives self.old event.now r.reply self.new) }
        ensures exact { IfOk result (λ r. (r.reply, self.new) ≡ step_of self.old event.now) }
        ensures copies { IfOk result AreCopies }
        ensures err { OnErr result (self.new ≡ self.old) }
    {
        event.recall_spelled();
        let replies = self.parts.record(alloc, event, prepared)?;
        Ok(replies)
    }

    pub fn chain(&self) -> &Chain<S>
        ensures { result.now ≡ self.now.chain }
    {
        &self.parts.chain
    }

    pub fn pool(&self) -> &Pool<S>
        ensures { result.now.entries ≡ self.now.pool }
    {
        &self.parts.pool
    }

    pub fn floor(&self) -> &Floor
        ensures { result.now ≡ self.now.floor }
    {
        &self.parts.floor
    }

    /// The session of a peer that ever entered, open or closed.
    pub fn session(&self, peer: u64) -> Option<Session>
        ensures { result ≡ option_map status_of (session_of self.now.sessions peer) }
    {
        self.parts.sessions.find(peer)
    }

    /// The most virtual bytes that the pool may hold.
    pub fn budget(&self) -> u64
        ensures { result ≡ self.now.budget }
    {
        self.parts.budget
    }

    /// The limits of families and the rule on replacements.
    pub fn policy(&self) -> &Policy
        ensures { result.now ≡ self.now.policy }
    {
        &self.parts.policy
    }

    pub fn verdicts(&self) -> &Verdicts<S>
        ensures { result.now ≡ self.now.verdicts }
    {
        &self.parts.verdicts
    }

    pub fn switches(&self) -> &Switches
        ensures { result.now ≡ self.now.switches }
    {
        &self.parts.switches
    }

    /// A copy of the state: only transactions, which never change, are shared.
    pub fn copy(&self, alloc: Global) -> Result<State<S>, Memory>
        ensures { IfOk result (λ copy. copy ≡ self.now) }
    {
        Ok(State {
            parts: self.parts.copy(alloc)?,
        })
    }
}
