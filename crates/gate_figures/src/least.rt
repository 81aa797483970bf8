//! The least fee with which a submission would pass the rules on its fee.
ghost use Rattle.std.specs.Prelude.{◌≡◌, ◌<◌, ◌≤◌, ◌+◌, ◌^◌, ◌&&◌, ℕ, max, nat_le, nat_lt, Contains, IfOk, IfSome};
ghost use Rattle.std.specs.List.{list_any};
ghost use Rattle.gate_tx.specs.Ids.{txid_of};
ghost use Rattle.gate_tx.specs.Tx.{Tx};
ghost use Rattle.gate_standard.specs.Amounts.{feerate};
ghost use Rattle.gate_pool.specs.Pool.{Admitted};
ghost use Rattle.gate_pool.specs.Family.{OfThese};
ghost use Rattle.gate_rbf.specs.Replacing.{replacement_rules};
ghost use Rattle.gate_admit.specs.Rules.{fee_rules};
ghost use Rattle.gate_core.specs.Submissions.{submission_of};
ghost use Rattle.gate_core.specs.World.{standing_of};
ghost use Rattle.gate_figures.specs.Least.{passes, IsLeast, IsLeastFee, IsLeastFor, LeastFeeFound};
ghost use Rattle.gate_figures.specs.Figures.{vsize_at};

use crate::families::fees_gone;
use crate::fees::Price;
use crate::room::limits_denial;
use gate_admit::{Entry, Floor, Policy, Pool, Prepared, sibling};
use gate_bytes::Memory;
use gate_core::{Event, State, submission};
use gate_rbf::{ParentsOf, conflicts, judge_replacement};
use gate_standard::{Feerate, rate_of};
use gate_tx::{Identified, Transaction, Txid};
use std::alloc::Global;
use std::hash::BuildHasher;

/// The least fee, in satoshi, with which a size in virtual bytes has a feerate above this one, in satoshi per 1,000 virtual
/// bytes.
fn fee_above(rate: u128, vsize: u64) -> u128
    requires some { 0 < vsize }
    requires small { rate < 2 ^ 62 }
    ensures { (fee : ℕ) → nat_le (feerate fee vsize) rate ≡ nat_lt fee result }
{
    ((rate + 1) * u128::from(vsize)).div_ceil(1000)
}

/// The least fee with which a transaction of this size has a greater feerate than this entry.
fn fee_over(entry: &Entry, vsize: u64) -> u128
    requires { 0 < vsize }
    ensures { (fee : ℕ) → nat_le (feerate fee vsize) (feerate entry.now.fee entry.now.vsize) ≡ nat_lt fee result }
{
    fee_above(rate_of(entry.fee(), entry.vsize()), vsize)
}

/// The least fee with which a transaction of this size has a greater feerate than the entry with this id; 0 if no entry has
/// it.
fn fee_over_id<S: BuildHasher + Copy + Drop>(pool: &Pool<S>, txid: &Txid, vsize: u64) -> u128
    requires { 0 < vsize }
    ensures { (a : Admitted) → Contains pool.now.entries a → txid_of a.tx ≡ txid.now → (fee : ℕ) → nat_le (feerate fee vsize) (feerate a.fee a.vsize) ≡ nat_lt fee result }
{
    pool.recall_distinct();
    match pool.entry(txid) {
        Some(entry) => fee_over(entry, vsize),
        None => 0,
    }
}

/// The least fee with which a transaction of this size has a greater feerate than each of the entries with these ids: A38. It
/// is 0 without any.
fn fee_over_all<S: BuildHasher + Copy + Drop>(pool: &Pool<S>, ids: &[Txid], vsize: u64) -> u128
    requires { 0 < vsize }
    ensures { OfThese pool.now.entries ids.now (λ these. (fee : ℕ) → list_any (λ (c : Admitted). nat_le (feerate fee vsize) (feerate c.fee c.vsize)) these ≡ nat_lt fee result) }
{
    let mut least = 0;
    for id in ids {
        least = fee_over_id(pool, id, vsize).max(least);
    }
    least
}

/// The least fee with which a transaction of this size pays what the pool's floor and every relay ask: A34 and A35.
fn fee_to_relay(policy: &Policy, floor: &Floor, vsize: u64) -> u128
    ensures { (tx : Tx) → (fee : ℕ) → passes (fee_rules policy.now tx floor.now fee vsize) ≡ nat_le result fee }
{
    let by_floor = policy.feerate(floor.rate()).fee(vsize);
    let by_relay = policy.relay_feerate().fee(vsize);
    by_floor.max(by_relay)
}

/// The greatest of three fees, one of which is a sum. None if 64 bits don't hold it.
fn greatest(above: u128, gone: u128, own: u128, paying: u128) -> Option<u64>
    ensures some { IfSome result (λ least. least ≡ max (max above (gone + own)) paying) }
    ensures none { result ≡ None → 2 ^ 64 ≤ max (max above (gone + own)) paying }
{
    let least = above.max(gone.saturating_add(own)).max(paying);
    if least > u128::from(u64::MAX) {
        return None;
    }
    Some(least as u64)
}

/// Whether a transaction of this fee and size passes A38 to A42, where a replacement pays for its own relay at this rate, and
/// may have the parents of these entries.
fn may_replace<S: BuildHasher + Copy + Drop>(
    alloc: Global,
    pool: &Pool<S>,
    sibling: Option<Txid>,
    tx: &Transaction,
    rate: Feerate,
    parents: ParentsOf,
    fee: u64,
    vsize: u64,
) -> Result<bool, Memory>
    requires { 0 < vsize }
    ensures { IfOk result (λ may. may ≡ passes (replacement_rules rate parents pool.now.entries sibling tx.now fee vsize)) }
{
    let found = judge_replacement(alloc, pool, sibling, tx, rate, parents, fee, vsize)?;
    Ok(found.is_ok())
}

/// The least fee, from `paying` satoshi on, with which a transaction of this size passes A38 to A42, where a replacement pays
/// for its own relay at this rate, and may have the parents of these entries.
fn fee_to_replace<S: BuildHasher + Copy + Drop>(
    alloc: Global,
    pool: &Pool<S>,
    sibling: &Option<Txid>,
    tx: &Transaction,
    rate: Feerate,
    parents: ParentsOf,
    paying: u128,
    vsize: u64,
) -> Result<Option<u128>, Memory>
    requires { 0 < vsize }
    ensures { IfOk result (IsLeast (λ fee. nat_le paying fee && passes (replacement_rules rate parents pool.now.entries sibling.now tx.now fee vsize))) }
{
    let found = conflicts(alloc, pool, *sibling, tx)?;
    let ids = found.as_slice();
    if ids.is_empty() {
        return Ok(Some(paying));
    }
    let above = fee_over_all(pool, ids, vsize);
    let gone = fees_gone(alloc, pool, *sibling, tx)?;
    let own = rate.fee(vsize);
    let Some(least) = greatest(above, gone, own, paying) else {
        return Ok(None);
    };
    // With this fee the rules on what is replaced that are not about fees decide.
    let replaces = may_replace(alloc, pool, *sibling, tx, rate, parents, least, vsize)?;
    if !replaces {
        return Ok(None);
    }
    Ok(Some(u128::from(least)))
}

/// The least fee with which a transaction of this size would pass A34 to A42; `None` if no fee helps, or if it has no size.
fn least_fee_at<S: BuildHasher + Copy + Drop>(
    alloc: Global,
    policy: &Policy,
    floor: &Floor,
    pool: &Pool<S>,
    tx: &Transaction,
    vsize: Option<u64>,
) -> Result<Option<u128>, Memory>
    requires { IfSome vsize (λ vsize. 0 < vsize) }
    ensures { IfOk result (IsLeastFee policy.now floor.now pool.now.entries tx.now vsize) }
{
    let Some(vsize) = vsize else {
        return Ok(None);
    };
    let denial = limits_denial(alloc, policy, pool, tx, vsize)?;
    if denial.is_some() {
        return Ok(None);
    }
    let paying = fee_to_relay(policy, floor, vsize);
    let rate = policy.incremental_feerate();
    let sibling = sibling(alloc, policy, pool, tx)?;
    let found = fee_to_replace(
        alloc,
        pool,
        &sibling,
        tx,
        rate,
        policy.parents(),
        paying,
        vsize,
    )?;
    Ok(found)
}

/// The least fee with which a transaction would pass A34 to A42, with all else as it is.
fn least_fee_of<S: BuildHasher + Copy + Drop>(
    alloc: Global,
    state: &State<S>,
    tx: &Identified,
) -> Result<Option<u128>, Memory>
    ensures { IfOk result (IsLeastFor (standing_of state.now) (Some tx.now)) }
{
    let policy = state.policy();
    let pool = state.pool();
    let price = Price::of(alloc, state.chain(), pool, policy, tx)?;
    let transaction = tx.transaction();
    let found = least_fee_at(alloc, policy, state.floor(), pool, transaction, price.vsize)?;
    Ok(found)
}

/// The least fee, in satoshi, with which a submission would pass A34 to A42, with all else as it is. It is `None` if no fee
/// helps, for a transaction with too many signature operations (A33), and for bytes that are no transaction.
pub fn least_fee_for<S: BuildHasher + Copy + Drop>(
    alloc: Global,
    state: &State<S>,
    prepared: &Prepared,
) -> Result<Option<u128>, Memory>
    ensures { IfOk result (IsLeastFor (standing_of state.now) prepared.now) }
{
    match prepared.candidate() {
        Some(candidate) => least_fee_of(alloc, state, candidate.identified().get()),
        None => Ok(None),
    }
}

/// The least fee, in satoshi, with which the transaction that an event submits would pass A34 to A42, with all else as it
/// is. It is `None` if no fee helps, for a transaction with too many signature operations (A33), and for an event that
/// submits no transaction.
pub fn least_fee<S: BuildHasher + Copy + Drop>(
    alloc: Global,
    state: &State<S>,
    event: &Event,
) -> Result<Option<u128>, Memory>
    ensures { IfOk result (LeastFeeFound (standing_of state.now) (submission_of event.now)) }
{
    match submission(event) {
        Some(prepared) => least_fee_for(alloc, state, prepared),
        None => Ok(None),
    }
}
