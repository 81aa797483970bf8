//! A chain event as a whole: the switch of the chain, and what it does to the pool.
ghost use Rattle.std.specs.Prelude.{◌≡◌, None, Some, is_none, false, IfOk, IfErr, OnOk, OnErr, if◌then◌else◌};
ghost use Rattle.std.specs.List.{list_any};
ghost use Rattle.gate_bytes.specs.Order.{first_failing};
ghost use Rattle.gate_chain.specs.Connecting.{Tells};
ghost use Rattle.gate_rules.specs.declared.ChainDenial.TheVariants.{BlockDecode as Unreadable};
ghost use Rattle.gate_chain.specs.Times.{tip_of};
ghost use Rattle.gate_block.specs.Switching.{switched, switch_rules};
ghost use Rattle.gate_pool.specs.Moves.{IsMarked};
ghost use Rattle.gate_admit.specs.Good.{limits_for};
ghost use Rattle.gate_admit.specs.Standing.{standing};
ghost use Rattle.gate_reorg.specs.Reorganisation.{all_confirmed};
ghost use Rattle.gate_reorg.specs.Changing.{HoldsTheSame, held, left_after, moved_between, event_in, happened_in};
ghost use Rattle.gate_reorg.specs.Following.{left_by, drafted};
ghost use Rattle.gate_reorg.specs.Goodness.{IsReadyFor, StaysGood};
ghost use Rattle.gate_reorg.specs.Events.{event_rules, event_of, happening, moved_from};
ghost use Rattle.gate_submission.specs.Blocks.{present, transactions_of};

use crate::change::{ChainChange, Changing};
use crate::confirming::{confirm_all, ids_of};
use crate::moved::count_beyond;
use crate::returning::return_all;
use crate::staleness::take_premature;
use gate_admit::{Conditions, Floor, Policy, Verdicts};
use gate_block::switch;
use gate_bytes::{Copied, Memory};
use gate_chain::{Block, Chain, ChainDenial, ChainFault};
use gate_pool::Pool;
use gate_submission::Moved;
use gate_trim::{expire, trim};
use std::alloc::Global;
use std::hash::BuildHasher;

/// The blocks, shared with those that lend them, or C1 if one could not be read.
fn copies(alloc: Global, blocks: &[Option<Block>]) -> Result<Vec<Block>, ChainFault>
    ensures ok { IfOk result (λ copies. copies.items ≡ present blocks.now) }
    ensures passes { OnOk result (list_any is_none blocks.now ≡ false) }
    ensures denied { IfErr result (λ fault. Tells fault (if list_any is_none blocks.now then Some Unreadable else None)) }
{
    let mut copies = Vec::with_capacity(alloc, blocks.len())?;
    for block in blocks {
        match block {
            Some(block) => copies.push(block.copy(alloc)?)?,
            None => return Err(ChainFault::Denied(ChainDenial::BlockDecode)),
        }
    }
    Ok(copies)
}

/// The pool and the floor that a reorganisation leaves, before they take their place.
#[derive(Drop)]
struct PoolDraft<S: BuildHasher + Copy + Drop> {
    pool: Pool<S>,
    floor: Floor,
}

impl<S: BuildHasher + Copy + Drop> PoolDraft<S> {
    /// Follows a change of the chain: entries that the new blocks confirm or contradict leave, the transactions of the
    /// disconnected blocks are tried again, and then entries leave that the next block cannot have, that are too old,
    /// or that pay too little for the budget.
    #[tactic(auto, unfolding(crate::specs::Reorganisation::returned))]
    fn follow(
        &mut self,
        alloc: Global,
        under: &Conditions<'_, S>,
        change: &ChainChange<'_, '_>,
    ) -> Result<(), Memory>
        ensures left { OnOk result (left_by under.now change.now self.old.pool.entries self.old.floor ≡ drafted self.new) }
        ensures before { self.new.pool.before ≡ self.old.pool.before }
    {
        let new = ids_of(alloc, self.pool.hasher(), change.new)?;
        confirm_all(&mut self.pool, change.new);
        let returned = return_all(alloc, under, &mut self.pool, &new, change.gone);
        drop(new);
        returned?;
        take_premature(alloc, under.chain, &mut self.pool)?;
        let policy = under.policy;
        policy.recall_bounds();
        expire(&mut self.pool, policy.stay(), under.second);
        let step = policy.incremental_rate();
        trim(&mut self.pool, &mut self.floor, step, under.budget);
        Ok(())
    }

    /// Writes the draft over the pool and its floor.
    fn land(self, pool: &mut Pool<S>, floor: &mut Floor)
        ensures pool { pool.new ≡ self.pool }
        ensures floor { floor.new ≡ self.floor }
    {
        let PoolDraft {
            pool: followed,
            floor: raised,
        } = self;
        *pool = followed;
        *floor = raised;
    }
}

/// A draft of a pool and its floor over a chain that was changed: a copy of them that followed the change.
fn redraft<S: BuildHasher + Copy + Drop>(
    alloc: Global,
    under: &Conditions<'_, S>,
    change: &ChainChange<'_, '_>,
    pool: &Pool<S>,
    floor: &Floor,
) -> Result<PoolDraft<S>, Memory>
    ensures left { IfOk result (λ draft. left_by under.now change.now pool.now.entries floor.now ≡ drafted draft) }
    ensures before { IfOk result (λ draft. draft.pool.before ≡ pool.now.entries) }
{
    let mut draft = PoolDraft {
        pool: pool.copy(alloc)?,
        floor: Floor::new(floor.rate()),
    };
    match draft.follow(alloc, under, change) {
        Ok(()) => Ok(draft),
        Err(Memory) => {
            drop(draft);
            Err(Memory)
        }
    }
}

/// How many entries left and entered from one pool to another, with the height of the tip.
fn moved<S: BuildHasher + Copy + Drop>(
    alloc: Global,
    tip: u32,
    before: &Pool<S>,
    after: &Pool<S>,
) -> Result<Moved, Memory>
    ensures { IfOk result (λ moved. moved ≡ moved_from tip before.now.entries after.now.entries) }
{
    Ok(Moved {
        tip,
        removed: count_beyond(alloc, before, after)?,
        entered: count_beyond(alloc, after, before)?,
    })
}

/// The draft of a pool over a chain that was changed, and how many entries left and entered.
fn follow_up<S: BuildHasher + Copy + Drop>(
    alloc: Global,
    under: &Conditions<'_, S>,
    change: &ChainChange<'_, '_>,
    pool: &Pool<S>,
    floor: &Floor,
) -> Result<(PoolDraft<S>, Moved), Memory>
    ensures draft { IfOk result (λ found. left_by under.now change.now pool.now.entries floor.now ≡ drafted found.0) }
    ensures moved { IfOk result (λ found. found.1 ≡ moved_from (tip_of under.now.chain.now) pool.now.entries found.0.pool.entries) }
    ensures before { IfOk result (λ found. found.0.pool.before ≡ pool.now.entries) }
{
    let draft = redraft(alloc, under, change, pool, floor)?;
    match moved(alloc, under.chain.tip(), pool, &draft.pool) {
        Ok(moved) => Ok((draft, moved)),
        Err(Memory) => {
            drop(draft);
            Err(Memory)
        }
    }
}

impl<'a, S: BuildHasher + Copy + Drop> Changing<'a, S> {
    /// Connects blocks on top: what they confirm or contradict leaves the pool, and nothing else is done to it.
    fn extend(
        &mut self,
        alloc: Global,
        blocks: Vec<Block>,
        new: &[Option<Block>],
    ) -> Result<Moved, ChainFault>
        ensures same { HoldsTheSame self.old self.new }
        ensures chain { OnOk result (self.new.chain.now ≡ switched self.old.chain.now 0 blocks.items) }
        ensures entries { OnOk result (self.new.pool.now.entries ≡ all_confirmed self.old.pool.now.entries (transactions_of (present new.now))) }
        ensures floor { self.new.floor.now ≡ self.old.floor.now }
        ensures moved { IfOk result (λ moved. moved ≡ moved_between self.old self.new) }
        ensures before { IsMarked self.old.pool.now → OnOk result (self.new.pool.now.before ≡ self.old.pool.now.entries) }
        ensures chain_kept { OnErr result (self.new.chain.now ≡ self.old.chain.now) }
        ensures pool_kept { OnErr result (self.new.pool.now.entries ≡ self.old.pool.now.entries) }
        ensures passes { OnOk result (first_failing (switch_rules self.old.chain.now 0 blocks.items) ≡ None) }
        ensures denied { IfErr result (λ fault. Tells fault (first_failing (switch_rules self.old.chain.now 0 blocks.items))) }
    {
        let _way = switch(alloc, self.chain, 0, blocks)?;
        self.pool.recall_distinct();
        let before = self.pool.count();
        confirm_all(self.pool, new);
        Ok(Moved {
            tip: self.chain.tip(),
            removed: before - self.pool.count(),
            entered: 0,
        })
    }

    /// Puts blocks in the place of the last `depth` ones. The pool follows on a draft, which then takes its place; if
    /// memory runs out, the chain is switched back.
    fn reorganise(
        &mut self,
        alloc: Global,
        depth: u64,
        blocks: Vec<Block>,
        new: &[Option<Block>],
    ) -> Result<Moved, ChainFault>
        ensures same { HoldsTheSame self.old self.new }
        ensures chain { OnOk result (self.new.chain.now ≡ switched self.old.chain.now depth blocks.items) }
        ensures pool { OnOk result (left_after self.old self.new.chain.now depth (transactions_of (present new.now)) ≡ held self.new) }
        ensures moved { IfOk result (λ moved. moved ≡ moved_between self.old self.new) }
        ensures before { IsMarked self.old.pool.now → OnOk result (self.new.pool.now.before ≡ self.old.pool.now.entries) }
        ensures chain_kept { OnErr result (self.new.chain.now ≡ self.old.chain.now) }
        ensures pool_kept { OnErr result (self.new.pool.now.entries ≡ self.old.pool.now.entries) }
        ensures floor_kept { OnErr result (self.new.floor.now ≡ self.old.floor.now) }
        ensures passes { OnOk result (first_failing (switch_rules self.old.chain.now depth blocks.items) ≡ None) }
        ensures denied { IfErr result (λ fault. Tells fault (first_failing (switch_rules self.old.chain.now depth blocks.items))) }
    {
        let way = switch(alloc, self.chain, depth, blocks)?;
        let under = Conditions {
            chain: self.chain,
            floor: self.floor,
            verdicts: self.verdicts,
            policy: self.policy,
            second: self.second,
            budget: self.budget,
        };
        let change = ChainChange {
            new,
            gone: way.gone(),
        };
        match follow_up(alloc, &under, &change, self.pool, self.floor) {
            Ok((draft, moved)) => {
                drop(way);
                draft.land(self.pool, self.floor);
                Ok(moved)
            }
            Err(Memory) => {
                way.back(self.chain);
                Err(ChainFault::Memory)
            }
        }
    }

    /// Makes the event: extends the chain if no block is disconnected, else reorganises it.
    #[tactic(auto, unfolding(crate::specs::Events::event_of, crate::specs::Events::event_rules, crate::specs::Reorganisation::pool_after))]
    fn make_event(
        &mut self,
        alloc: Global,
        disconnect: u64,
        blocks: &[Option<Block>],
    ) -> Result<Moved, ChainFault>
        ensures same { HoldsTheSame self.old self.new }
        ensures ok { IfOk result (λ moved. event_in self.old disconnect (present blocks.now) ≡ happened_in self.new moved) }
        ensures before { IsMarked self.old.pool.now → OnOk result (self.new.pool.now.before ≡ self.old.pool.now.entries) }
        ensures chain_kept { OnErr result (self.new.chain.now ≡ self.old.chain.now) }
        ensures pool_kept { OnErr result (self.new.pool.now.entries ≡ self.old.pool.now.entries) }
        ensures floor_kept { OnErr result (self.new.floor.now ≡ self.old.floor.now) }
        ensures passes { OnOk result (first_failing (event_rules self.old.chain.now disconnect blocks.now) ≡ None) }
        ensures denied { IfErr result (λ fault. Tells fault (first_failing (event_rules self.old.chain.now disconnect blocks.now))) }
    {
        let copies = copies(alloc, blocks)?;
        if disconnect == 0 {
            self.extend(alloc, copies, blocks)
        } else {
            self.reorganise(alloc, disconnect, copies, blocks)
        }
    }
}

/// Disconnects the last `disconnect` blocks and connects others in their place, at the second `now` since 1970; the
/// pool and its floor follow. Entries that the new blocks confirm or contradict leave the pool. If blocks were
/// disconnected, their transactions are tried again, then entries leave that the next block cannot have, and then those
/// that are too old or pay too little for the budget, in virtual bytes. A block that could not be read is None.
///
/// A denial names the first rule that fails: C1, and then those of `switch`. If the event fails, nothing has changed.
/// If it disconnects no block, it costs what the new blocks confirm and contradict; else it works on a copy of the
/// pool. What has moved in the pool is then what this event moved.
pub fn chain_event<S: BuildHasher + Copy + Drop>(
    alloc: Global,
    chain: &mut Chain<S>,
    pool: &mut Pool<S>,
    floor: &mut Floor,
    verdicts: &Verdicts<S>,
    policy: &Policy,
    disconnect: u64,
    blocks: &[Option<Block>],
    now: u64,
    budget: u64,
) -> Result<Moved, ChainFault>
    ensures ok { let over = standing chain.old pool.old.entries floor.old verdicts.now policy.now in
        IfOk result (λ moved. event_of over disconnect (present blocks.now) now budget ≡ happening chain.new pool.new.entries floor.new moved) }
    ensures chain_kept { OnErr result (chain.new ≡ chain.old) }
    ensures pool_kept { OnErr result (pool.new.entries ≡ pool.old.entries) }
    ensures floor_kept { OnErr result (floor.new ≡ floor.old) }
    ensures before { OnOk result (pool.new.before ≡ pool.old.entries) }
    ensures passes { OnOk result (first_failing (event_rules chain.old disconnect blocks.now) ≡ None) }
    ensures denied { IfErr result (λ fault. Tells fault (first_failing (event_rules chain.old disconnect blocks.now))) }
    // If chain and pool were good and the transactions are told apart by their ids, chain and pool stay good.
    ensures good { IsReadyFor (limits_for policy.now budget) chain.old pool.old.entries (present blocks.now) →
        StaysGood (limits_for policy.now budget) chain.new pool.new.entries }
{
    pool.mark();
    let mut changing = Changing {
        chain,
        pool,
        floor,
        verdicts,
        policy,
        second: now,
        budget,
    };
    changing.make_event(alloc, disconnect, blocks)
}
