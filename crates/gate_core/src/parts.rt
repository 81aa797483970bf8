//! The parts of a state, and its step in two: a plan that takes all memory and changes nothing, and its commit.
ghost use Rattle.std.specs.Prelude.{◌≡◌, None, IfOk, OnOk};
ghost use Rattle.std.specs.Option.{option_copied};
ghost use Rattle.gate_core.specs.Submissions.{StandsFor, submission_of};
ghost use Rattle.gate_message.specs.declared.reply.Reply.{Reply};
ghost use Rattle.gate_message.specs.Replies.{settled};
ghost use Rattle.gate_core.specs.PackageSteps.{package_of};
ghost use Rattle.gate_core.specs.Planning.{Fits, HasRoom, IsMadeBy, made_by, world_of};
ghost use Rattle.gate_pool.specs.Moves.{IsMarked};

use crate::planning::{Change, Plan, Step};
use crate::session::Sessions;
use crate::sharing::LastListing;
use crate::submitting::standing_for;
use crate::switches::Switches;
use gate_admit::{Chain, Floor, PlannedEntry, Policy, Pool, Prepared, Verdicts, commit_submission};
use gate_bytes::{Copied, Memory};
use gate_message::{Event, Reply};
use gate_net::Whitelist;
use gate_rpc::RpcWhitelist;
use gate_standard::Denial;
use std::alloc::Global;
use std::hash::BuildHasher;

/// The chain, the pool with its floor, the sessions and the settings.
#[derive(Drop)]
pub(crate) struct StateParts<S: BuildHasher + Copy + Drop> {
    pub(crate) chain: Chain<S>,
    pub(crate) pool: Pool<S>,
    pub(crate) floor: Floor,
    pub(crate) sessions: Sessions,
    pub(crate) budget: u64,
    pub(crate) policy: Policy,
    pub(crate) verdicts: Verdicts<S>,
    pub(crate) whitelist: Whitelist,
    pub(crate) rpcwhitelist: RpcWhitelist,
    pub(crate) blocksonly: bool,
    pub(crate) switches: Switches,
    /// No part of the state: it only saves memory.
    pub(crate) listing: LastListing,
}

impl<S: BuildHasher + Copy + Drop> StateParts<S> {
    /// How the step of an event is made that submits no package. A plan has the reply to it, and what it will change: the
    /// memory for the change is taken, and nothing changes yet. `prepared` may stand for the event's submission.
    #[tactic(auto, unfolding(crate::specs::Steps::step_of))]
    pub(crate) fn plan<'a>(
        &mut self,
        alloc: Global,
        event: &'a Event,
        prepared: Option<&Prepared>,
    ) -> Result<Step<'a>, Memory>
        requires no_package { package_of (world_of self.old) event.now ≡ None }
        requires prepared { StandsFor (option_copied prepared) (submission_of event.now) }
        ensures ok { IfOk result (IsMadeBy (world_of self.old) event.now) }
        ensures fits { IfOk result (λ step. HasRoom step self.new.sessions self.new.pool) }
        ensures same { world_of self.new ≡ world_of self.old }
        ensures marked { IsMarked self.old.pool → OnOk result (IsMarked self.new.pool) }
    {
        let plan = match event {
            Event::Enter { peer, address } => self.entering(*peer, address)?,
            Event::Leave { peer } => self.leaving(*peer),
            Event::Tx {
                peer,
                now,
                transaction,
            } => self.submission(alloc, *peer, *now, standing_for(prepared, transaction))?,
            Event::Package {
                peer,
                now,
                parent,
                child,
            } => self.refusing(*peer, *now, parent, child),
            Event::Mempool { peer } => self.listing(alloc, *peer)?,
            Event::GetBlock { peer, height } => self.giving_block(*peer, *height),
            Event::Headers { peer, height } => self.giving_headers(*peer, *height),
            Event::FeeFilter { peer, rate } => self.filtering(*peer, *rate),
            Event::Rpc(call) => self.calling(alloc, call.get(), prepared)?,
            Event::SetFloor { rate } => Plan {
                reply: Reply::Set,
                change: Change::SetFloor { rate: *rate },
            },
            Event::Set { switch, on } => Plan {
                reply: Reply::Set,
                change: Change::Turn {
                    switch: *switch,
                    on: *on,
                },
            },
            Event::Chain(event) => return Ok(Step::Chain(event)),
        };
        Ok(Step::Planned(plan))
    }

    /// Makes a change that fits, without memory. It returns the denial of a newcomer that does not stay in the pool,
    /// which takes the place of the reply that was planned.
    pub(crate) fn commit(&mut self, change: Change) -> Option<Denial>
        requires { Fits change self.old.sessions self.old.pool }
        ensures made { (reply : Reply) → (settled reply result, world_of self.new) ≡ made_by reply change (world_of self.old) }
        ensures before { self.new.pool.before ≡ self.old.pool.before }
    {
        match change {
            Change::Nothing => (),
            Change::Enter { peer, flags } => self.sessions.enter(peer, flags),
            Change::Close { peer } => self.sessions.close(peer),
            Change::SetFilter { peer, rate } => self.sessions.set_rate(peer, rate),
            Change::SetFloor { rate } => self.floor = Floor::new(rate),
            Change::Turn { switch, on } => self.switches = self.switches.set(switch, on),
            Change::Admit { coming } => return self.admit(coming.into_inner()),
        }
        None
    }

    /// Enters what was granted, and returns its denial if it does not stay in the pool.
    fn admit(&mut self, coming: PlannedEntry) -> Option<Denial>
        requires { Fits (Change.Admit coming) self.old.sessions self.old.pool }
        ensures made { (reply : Reply) → (settled reply result, world_of self.new) ≡ made_by reply (Change.Admit coming) (world_of self.old) }
        ensures before { self.new.pool.before ≡ self.old.pool.before }
    {
        match commit_submission(
            &mut self.pool,
            &mut self.floor,
            coming,
            &self.policy,
            self.budget,
        ) {
            Ok(_grant) => None,
            Err(denial) => Some(denial),
        }
    }

    /// Copies of the chain and the pool.
    fn copy_ledger(&self, alloc: Global) -> Result<(Chain<S>, Pool<S>), Memory>
        ensures chain { IfOk result (λ copies. copies.0 ≡ self.now.chain) }
        ensures pool { IfOk result (λ copies. copies.1.entries ≡ self.now.pool.entries) }
    {
        let pool = self.pool.copy(alloc)?;
        match self.chain.copy(alloc) {
            Ok(chain) => Ok((chain, pool)),
            Err(fault) => {
                drop(pool);
                Err(fault)
            }
        }
    }

    /// Copies of the lists that the operator gave.
    fn copy_lists(&self, alloc: Global) -> Result<(Whitelist, RpcWhitelist), Memory>
        ensures whitelist { IfOk result (λ copies. copies.0 ≡ self.now.whitelist) }
        ensures rpcwhitelist { IfOk result (λ copies. copies.1 ≡ self.now.rpcwhitelist) }
    {
        let whitelist = self.whitelist.copy(alloc)?;
        match self.rpcwhitelist.copy(alloc) {
            Ok(rpcwhitelist) => Ok((whitelist, rpcwhitelist)),
            Err(fault) => {
                drop(whitelist);
                Err(fault)
            }
        }
    }

    /// Copies of the verdicts and the sessions.
    fn copy_sessions(&self, alloc: Global) -> Result<(Verdicts<S>, Sessions), Memory>
        ensures verdicts { IfOk result (λ copies. copies.0 ≡ self.now.verdicts) }
        ensures sessions { IfOk result (λ copies. copies.1.all ≡ self.now.sessions.all) }
    {
        let verdicts = self.verdicts.copy(alloc)?;
        match self.sessions.copy() {
            Ok(sessions) => Ok((verdicts, sessions)),
            Err(fault) => {
                drop(verdicts);
                Err(fault)
            }
        }
    }

    /// A copy of all parts.
    pub(crate) fn copy(&self, alloc: Global) -> Result<StateParts<S>, Memory>
        ensures { IfOk result (λ copy. world_of copy ≡ world_of self.now) }
    {
        let (chain, pool) = self.copy_ledger(alloc)?;
        let Ok((verdicts, sessions)) = self.copy_sessions(alloc) else {
            drop(chain);
            drop(pool);
            return Err(Memory);
        };
        match self.copy_lists(alloc) {
            Ok((whitelist, rpcwhitelist)) => Ok(StateParts {
                chain,
                pool,
                floor: self.floor,
                sessions,
                budget: self.budget,
                policy: self.policy.copy(),
                verdicts,
                whitelist,
                rpcwhitelist,
                blocksonly: self.blocksonly,
                switches: self.switches,
                listing: LastListing::none(),
            }),
            Err(fault) => {
                drop(chain);
                drop(pool);
                drop(verdicts);
                drop(sessions);
                Err(fault)
            }
        }
    }
}
