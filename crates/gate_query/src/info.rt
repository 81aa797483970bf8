//! What is known of an entry, and of the pool.
ghost use Rattle.std.specs.Prelude.{◌≡◌, ◌&&◌, IfOk, Some};
ghost use Rattle.std.specs.List.{list_any};
ghost use Rattle.gate_pool.specs.Pool.{Admitted, entry_by_txid, has_txid};
ghost use Rattle.gate_pool.specs.Family.{ancestors_of, is_among};
ghost use Rattle.gate_query.specs.Answers.{info_of, info_from, is_replaceable, pool_info};

use crate::family::{children, parents, with_ancestors};
use gate_admit::{Entry, Floor, Policy, Pool};
use gate_bytes::{Kept, Memory};
use gate_rbf::signals;
use gate_rpc::{EntryInfo, RpcResult};
use gate_tx::Txid;
use std::alloc::Global;
use std::hash::BuildHasher;

/// Whether the entry of an id signals by itself that it may be replaced (BIP 125).
fn is_signalling<S: BuildHasher + Copy + Drop>(pool: &Pool<S>, txid: &Txid) -> bool
    ensures { result ≡ list_any (λ (e : Admitted). has_txid e txid.now && is_replaceable e) pool.now.entries }
{
    pool.recall_distinct();
    match pool.entry(txid) {
        Some(entry) => signals(entry.transaction()),
        None => false,
    }
}

/// Whether one of the entries with these ids signals by itself that it may be replaced (BIP 125).
fn one_signals<S: BuildHasher + Copy + Drop>(pool: &Pool<S>, txids: &[Txid]) -> bool
    ensures { result ≡ list_any (λ (e : Admitted). is_among txids.now e && is_replaceable e) pool.now.entries }
{
    txids.iter().any(|txid| is_signalling(pool, txid))
}

/// Whether the entry of an id or one above it signals that it may be replaced (BIP 125). An entry that signals by
/// itself needs no walk.
fn is_replaceable<S: BuildHasher + Copy + Drop>(
    alloc: Global,
    pool: &Pool<S>,
    txid: &Txid,
    entry: &Entry,
) -> Result<bool, Memory>
    requires { entry_by_txid pool.now.entries txid.now ≡ Some entry.now }
    ensures { IfOk result (λ is. is ≡ list_any is_replaceable (ancestors_of pool.now.entries txid.now)) }
{
    if signals(entry.transaction()) {
        return Ok(true);
    }
    pool.recall_distinct();
    let above = with_ancestors(alloc, pool, txid)?;
    Ok(one_signals(pool, above.as_slice()))
}

fn info<S: BuildHasher + Copy + Drop>(
    alloc: Global,
    pool: &Pool<S>,
    txid: &Txid,
    entry: &Entry,
) -> Result<EntryInfo, Memory>
    requires { entry_by_txid pool.now.entries txid.now ≡ Some entry.now }
    ensures { IfOk result (λ info. info ≡ info_from pool.now.entries txid.now entry.now) }
{
    let totals = pool.totals(txid).unwrap();
    let is_replaceable = is_replaceable(alloc, pool, txid, entry)?;
    let depends = Kept::from_vec(parents(alloc, pool, entry)?);
    let spent_by = Kept::from_vec(children(alloc, pool, txid)?);
    Ok(EntryInfo {
        wtxid: entry.wtxid(),
        fee: entry.fee(),
        vsize: entry.vsize(),
        weight: entry.identified().get().weight() as u64,
        time: entry.time(),
        ancestor_count: totals.above.count,
        ancestor_size: totals.above.size,
        ancestor_fees: totals.above.fees,
        descendant_count: totals.below.count,
        descendant_size: totals.below.size,
        descendant_fees: totals.below.fees,
        is_replaceable,
        depends,
        spent_by,
    })
}

/// What is known of an entry: its numbers, its parents and children, and the totals of its ancestors and descendants,
/// which the pool keeps. Fees are in satoshi, sizes in virtual bytes. None if no entry has the id.
pub fn entry_info<S: BuildHasher + Copy + Drop>(
    alloc: Global,
    pool: &Pool<S>,
    txid: &Txid,
) -> Result<Option<EntryInfo>, Memory>
    ensures { IfOk result (λ info. info ≡ info_of pool.now.entries txid.now) }
{
    match pool.entry(txid) {
        Some(entry) => Ok(Some(info(alloc, pool, txid, entry)?)),
        None => Ok(None),
    }
}

/// The number of entries, the size and the budget of the pool in virtual bytes, and the least feerates of the pool and
/// of every relay, in satoshi per 1,000 virtual bytes.
pub fn pool_info<S: BuildHasher + Copy + Drop>(
    pool: &Pool<S>,
    floor: &Floor,
    policy: &Policy,
    budget: u64,
) -> RpcResult
    ensures { result ≡ pool_info pool.now.entries floor.now policy.now budget }
{
    RpcResult::Info {
        size: pool.size(),
        budget,
        least_rate: floor.rate().max(policy.relay_rate()),
        relay_rate: policy.relay_rate(),
        count: pool.count() as u64,
    }
}
