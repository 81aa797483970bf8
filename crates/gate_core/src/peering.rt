//! The plans of peers' events.
ghost use Rattle.std.specs.Prelude.{◌≡◌, ◌<◌, ◌≤◌, ◌^◌, None, IfOk, OnOk};
ghost use Rattle.gate_chain.specs.Times.{tip_of};
ghost use Rattle.gate_bytes.specs.Order.{first_failing};
ghost use Rattle.gate_core.specs.World.{flags_at};
ghost use Rattle.gate_core.specs.Access.{listing_rules, submission_rules, block_rules, headers_rules, is_historical, seconds_at};
ghost use Rattle.gate_core.specs.PeerSteps.{entering_step, leaving_step, submission_step, submitted, listing_step, block_step, headers_step, filter_step, denied, then_for};
ghost use Rattle.gate_pool.specs.Pool.{Pooled};
ghost use Rattle.gate_core.specs.Sessions.{Seated, rate_after};
ghost use Rattle.gate_core.specs.Planning.{Fits, Plans, world_of};
ghost use Rattle.gate_pool.specs.Moves.{IsMarked};

use crate::parts::StateParts;
use crate::planning::{Change, Plan};
use gate_admit::{Conditions, Prepared, plan_submission};
use gate_bytes::{Boxed, Memory};
use gate_message::{PeerDenial, Reply, Then};
use gate_net::{Address, Permissions};
use gate_query::listing_at;
use gate_standard::{Denial, MAX_MONEY};
use std::alloc::Global;
use std::hash::BuildHasher;

/// The most headers that are given at a time (Bitcoin Core's `MAX_HEADERS_RESULTS`).
const MAX_HEADERS: u32 = 2_000;

/// Blocks that are older than the tip by more than this many seconds, a week, are historical (Bitcoin Core's
/// `HISTORICAL_BLOCK_AGE`).
const HISTORICAL_AGE: u64 = 604_800;

impl<S: BuildHasher + Copy + Drop> StateParts<S> {
    /// The flags of a peer that enters from this address.
    fn flags_at(&self, address: &Address) -> Permissions
        ensures { result ≡ flags_at (world_of self.now) address.now }
    {
        self.whitelist.flags_of(address)
    }

    /// What follows from a denial for the peer's session.
    pub(crate) fn then_for(&self, peer: u64, denial: PeerDenial) -> Then
        ensures { result ≡ then_for (world_of self.now) peer denial }
    {
        let then = Then::of(&denial, &self.sessions.flags(peer));
        match denial {
            PeerDenial::Admission(_) if self.policy.keep_invalid() => Then::Keep,
            _ => then,
        }
    }

    /// The plan of a denial to a peer, which closes the peer's session if that follows from the denial.
    #[inline(always)]
    pub(crate) fn denying(&self, peer: u64, denial: PeerDenial) -> Plan
        ensures reply { Plans (world_of self.now) (denied (world_of self.now) peer denial) result }
        ensures fits { (sessions : Seated) (pool : Pooled) → Fits result.change sessions pool }
    {
        let then = self.then_for(peer, denial);
        let reply = Reply::Denied { denial, then };
        match then {
            Then::Close => Plan {
                reply,
                change: Change::Close { peer },
            },
            Then::Keep => Plan::telling(reply),
            Then::Relay => Plan::telling(reply),
        }
    }

    pub(crate) fn entering(&mut self, peer: u64, address: &Address) -> Result<Plan, Memory>
        ensures ok { IfOk result (Plans (world_of self.old) (entering_step (world_of self.old) peer address.now)) }
        ensures fits { IfOk result (λ plan. Fits plan.change self.new.sessions self.new.pool) }
        ensures same { world_of self.new ≡ world_of self.old }
        ensures marked { IsMarked self.old.pool → OnOk result (IsMarked self.new.pool) }
    {
        if self.sessions.is_known(peer) {
            return Ok(self.denying(peer, PeerDenial::PeerKnown));
        }
        self.sessions.reserve()?;
        let flags = self.flags_at(address);
        Ok(Plan {
            reply: Reply::Entered { flags },
            change: Change::Enter { peer, flags },
        })
    }

    pub(crate) fn leaving(&self, peer: u64) -> Plan
        ensures plans { Plans (world_of self.now) (leaving_step (world_of self.now) peer) result }
        ensures fits { (sessions : Seated) (pool : Pooled) → Fits result.change sessions pool }
    {
        match self.sessions.denial(peer) {
            Some(denial) => self.denying(peer, denial),
            None => Plan {
                reply: Reply::Left,
                change: Change::Close { peer },
            },
        }
    }

    pub(crate) fn listing(&mut self, alloc: Global, peer: u64) -> Result<Plan, Memory>
        ensures ok { IfOk result (Plans (world_of self.old) (listing_step (world_of self.old) peer)) }
        ensures fits { IfOk result (λ plan. (sessions : Seated) (pool : Pooled) → Fits plan.change sessions pool) }
        ensures same { world_of self.new ≡ world_of self.old }
        ensures marked { IsMarked self.old.pool → OnOk result (IsMarked self.new.pool) }
    {
        match self.denial_of_listing(peer) {
            Some(denial) => Ok(self.denying(peer, denial)),
            None => {
                let rate = self.sessions.rate(peer);
                let txids = listing_at(alloc, &self.pool, self.policy.feerate(rate))?;
                let txids = self.listing.share(alloc, txids)?;
                Ok(Plan::telling(Reply::Listing(txids)))
            }
        }
    }

    /// The rate in force once a peer has asked for this one: a rate above all money changes nothing (BIP 133).
    fn rate_after(&self, peer: u64, rate: u64) -> u64
        ensures { result ≡ rate_after self.now.sessions.all peer rate }
    {
        if rate <= MAX_MONEY {
            rate
        } else {
            self.sessions.rate(peer)
        }
    }

    pub(crate) fn filtering(&self, peer: u64, rate: u64) -> Plan
        ensures plans { Plans (world_of self.now) (filter_step (world_of self.now) peer rate) result }
        ensures fits { (sessions : Seated) (pool : Pooled) → Fits result.change sessions pool }
    {
        let rate = self.rate_after(peer, rate);
        match self.sessions.denial(peer) {
            Some(denial) => self.denying(peer, denial),
            None => Plan {
                reply: Reply::Filter { rate },
                change: Change::SetFilter { peer, rate },
            },
        }
    }

    pub(crate) fn submission(
        &mut self,
        alloc: Global,
        peer: u64,
        now: u64,
        transaction: &Prepared,
    ) -> Result<Plan, Memory>
        ensures ok { IfOk result (Plans (world_of self.old) (submission_step (world_of self.old) peer now transaction.now)) }
        ensures fits { IfOk result (λ plan. Fits plan.change self.new.sessions self.new.pool) }
        ensures same { world_of self.new ≡ world_of self.old }
        ensures marked { IsMarked self.old.pool → OnOk result (IsMarked self.new.pool) }
    {
        match self.denial_of_submission(peer, transaction) {
            Some(denial) => Ok(self.denying(peer, denial)),
            None => self.submit(alloc, peer, now, transaction),
        }
    }

    fn denial_of_submission(&self, peer: u64, transaction: &Prepared) -> Option<PeerDenial>
        ensures { result ≡ first_failing (submission_rules (world_of self.now) peer transaction.now) }
    {
        if let Some(denial) = self.sessions.denial(peer) {
            return Some(denial);
        }
        if self.blocksonly && !self.sessions.flags(peer).relay() {
            return Some(PeerDenial::BlocksOnly);
        }
        let Some(wtxid) = transaction.wtxid() else {
            return Some(PeerDenial::Admission(Denial::Decode));
        };
        if self.pool.by_wtxid(&wtxid).is_some() {
            return Some(PeerDenial::AlreadyInMempool);
        }
        None
    }

    fn denial_of_listing(&self, peer: u64) -> Option<PeerDenial>
        ensures { result ≡ first_failing (listing_rules (world_of self.now) peer) }
    {
        if let Some(denial) = self.sessions.denial(peer) {
            return Some(denial);
        }
        let flags = self.sessions.flags(peer);
        let is_permitted = flags.mempool() || flags.bloomfilter();
        if !is_permitted && !self.switches.bloom {
            return Some(PeerDenial::MempoolNoBloom);
        }
        if self.switches.upload && !flags.mempool() {
            return Some(PeerDenial::MempoolUploadTarget);
        }
        None
    }

    #[tactic(auto, using(gate_admit::proofs::Submitting::planned_nothing))]
    fn submit(
        &mut self,
        alloc: Global,
        peer: u64,
        now: u64,
        transaction: &Prepared,
    ) -> Result<Plan, Memory>
        ensures ok { IfOk result (Plans (world_of self.old) (submitted (world_of self.old) peer now transaction.now)) }
        ensures fits { IfOk result (λ plan. Fits plan.change self.new.sessions self.new.pool) }
        ensures same { world_of self.new ≡ world_of self.old }
        ensures marked { IsMarked self.old.pool → OnOk result (IsMarked self.new.pool) }
    {
        let Some(txid) = transaction.txid() else {
            return Ok(self.denying(peer, PeerDenial::Admission(Denial::Decode)));
        };
        let under = Conditions {
            chain: &self.chain,
            floor: &self.floor,
            verdicts: &self.verdicts,
            policy: &self.policy,
            second: now,
            budget: self.budget,
        };
        let decision = plan_submission(alloc, &under, &mut self.pool, transaction)?;
        match decision {
            Ok(coming) => Ok(Plan {
                reply: Reply::Admitted {
                    txid,
                    fee: coming.grant.fee,
                    vsize: coming.grant.vsize,
                    replaced: coming.grant.replaced,
                },
                change: Change::Admit {
                    coming: Boxed::new(alloc, coming)?,
                },
            }),
            Err(denial) => Ok(self.denying(peer, PeerDenial::Admission(denial))),
        }
    }
}

impl<S: BuildHasher + Copy + Drop> StateParts<S> {
    /// The time of the block at a height up to the tip, in seconds since 1970; 0 for any other height.
    fn seconds(&self, height: u32) -> u64
        ensures value { result ≡ seconds_at self.now.chain height }
        ensures small { result < 2 ^ 32 }
    {
        match self.chain.time(height) {
            Some(time) => u64::from(time),
            None => 0,
        }
    }

    fn is_historical(&self, height: u32) -> bool
        ensures { result ≡ is_historical self.now.chain height }
    {
        self.seconds(height) + HISTORICAL_AGE < self.seconds(self.chain.tip())
    }

    fn denial_of_block(&self, peer: u64, height: u32) -> Option<PeerDenial>
        ensures { result ≡ first_failing (block_rules (world_of self.now) peer height) }
    {
        if let Some(denial) = self.sessions.denial(peer) {
            return Some(denial);
        }
        if self.chain.time(height).is_none() {
            return Some(PeerDenial::UnknownBlock);
        }
        if self.switches.historic
            && !self.sessions.flags(peer).download()
            && self.is_historical(height)
        {
            return Some(PeerDenial::HistoricalUploadTarget);
        }
        None
    }

    fn denial_of_headers(&self, peer: u64, height: u32) -> Option<PeerDenial>
        ensures first { result ≡ first_failing (headers_rules (world_of self.now) peer height) }
        ensures within { result ≡ None → height ≤ tip_of self.now.chain }
    {
        if let Some(denial) = self.sessions.denial(peer) {
            return Some(denial);
        }
        if self.switches.download && !self.sessions.flags(peer).download() {
            return Some(PeerDenial::HeadersDuringDownload);
        }
        if height > self.chain.tip() {
            return Some(PeerDenial::UnknownBlock);
        }
        None
    }

    /// The plan of a request for a block: the reply has the time of the block at this height.
    pub(crate) fn giving_block(&self, peer: u64, height: u32) -> Plan
        ensures plans { Plans (world_of self.now) (block_step (world_of self.now) peer height) result }
        ensures fits { (sessions : Seated) (pool : Pooled) → Fits result.change sessions pool }
    {
        match self.denial_of_block(peer, height) {
            Some(denial) => self.denying(peer, denial),
            None => Plan::telling(Reply::Block {
                height,
                time: self.chain.time(height).unwrap_or(0),
            }),
        }
    }

    /// The plan of a request for headers: the reply says how many follow this height.
    pub(crate) fn giving_headers(&self, peer: u64, height: u32) -> Plan
        ensures plans { Plans (world_of self.now) (headers_step (world_of self.now) peer height) result }
        ensures fits { (sessions : Seated) (pool : Pooled) → Fits result.change sessions pool }
    {
        let tip = self.chain.tip();
        match self.denial_of_headers(peer, height) {
            Some(denial) => self.denying(peer, denial),
            None => Plan::telling(Reply::Headers {
                first: height + 1,
                count: MAX_HEADERS.min(tip - height),
            }),
        }
    }
}
