//! What several transactions conflict with together, and what they replace.
ghost use Rattle.std.specs.Prelude.{◌≡◌, Bool, List, IfOk, OnOk, OnErr, filter, length};
ghost use Rattle.std.specs.List.{list_any};
ghost use Rattle.gate_tx.specs.Ids.{txid_of};
ghost use Rattle.gate_tx.specs.Tx.{Tx};
ghost use Rattle.gate_pool.specs.Family.{AreIdsOf, OfThese, children_of, descendants_of, parents_above, spends_one_of};
ghost use Rattle.gate_pool.specs.Pool.{Admitted, all_of, listing_of};
ghost use Rattle.gate_pool.specs.Search.{IsEntry};
ghost use Rattle.gate_rbf.specs.Gathering.{IsPut};
ghost use Rattle.gate_rivals.specs.Rivals.{has_ancestor, has_much_kin, have_ancestors, have_too_many, is_entangled, replaced_together, rivals_of, staying_beside};

use crate::inputs::bare_inputs;
use gate_bytes::Memory;
use gate_pool::{FamilyView, Lent, Pool, parents};
use gate_rbf::replaced;
use gate_submission::Candidate;
use gate_tx::{TxIn, Txid};
use std::alloc::Global;
use std::hash::BuildHasher;

/// The most descendants, themselves among them, that the entries may have with which they conflict.
const MAX_DESCENDANTS: u64 = 100;

/// Puts an id at the end of a list, unless it is there already.
fn put(ids: &mut Vec<Txid>, txid: Txid) -> Result<(), Memory>
    ensures { OnOk result (IsPut ids.old.items txid ids.new.items) }
{
    if !ids.contains(&txid) {
        ids.push(txid)?;
    }
    Ok(())
}

/// The ids of the entries that spend what one of these inputs spends, each once.
fn spenders<S: BuildHasher + Copy + Drop>(
    alloc: Global,
    pool: &Pool<S>,
    inputs: &[TxIn],
) -> Result<Vec<Txid>, Memory>
    ensures { IfOk result (λ ids. AreIdsOf ids.items (filter (spends_one_of inputs.now) pool.now.entries)) }
{
    pool.recall_distinct();
    let mut ids = Vec::new(alloc);
    for input in inputs {
        match pool.spender(&input.prevout) {
            Some(spender) => put(&mut ids, spender.txid())?,
            None => {}
        }
    }
    Ok(ids)
}

/// The ids of their direct conflicts, each once.
pub fn list_rivals<S: BuildHasher + Copy + Drop>(
    alloc: Global,
    pool: &Pool<S>,
    these: &[Candidate<'_>],
) -> Result<Vec<Txid>, Memory>
    ensures { IfOk result (λ ids. AreIdsOf ids.items (rivals_of pool.now.entries these.now)) }
{
    let inputs = bare_inputs(alloc, these)?;
    spenders(alloc, pool, inputs.as_slice())
}

/// Ids of entries, in the order of the pool.
fn in_order<S: BuildHasher + Copy + Drop>(pool: &Pool<S>, ids: Vec<Txid>) -> Vec<Txid>
    ensures { OfThese pool.now.entries ids.items (λ these. result.items ≡ listing_of these) }
{
    let mut ids = ids;
    pool.sort_by_admission(ids.as_mut_slice());
    ids
}

/// The ids of these direct conflicts and of all that is below them, in the order of the pool.
pub fn list_replaced<S: BuildHasher + Copy + Drop>(
    alloc: Global,
    pool: &Pool<S>,
    rivals: &[Txid],
) -> Result<Vec<Txid>, Memory>
    ensures { (txs : List Tx) → AreIdsOf rivals.now (rivals_of pool.now.entries txs) → IfOk result (λ ids. ids.items ≡ listing_of (replaced_together pool.now.entries txs)) }
{
    pool.recall_distinct();
    let found = replaced(alloc, pool, rivals)?;
    Ok(in_order(pool, found))
}

/// The ids of what they replace, in the order of the pool.
pub fn list_replaced_together<S: BuildHasher + Copy + Drop>(
    alloc: Global,
    pool: &Pool<S>,
    these: &[Candidate<'_>],
) -> Result<Vec<Txid>, Memory>
    ensures { IfOk result (λ ids. ids.items ≡ listing_of (replaced_together pool.now.entries these.now)) }
{
    let rivals = list_rivals(alloc, pool, these)?;
    list_replaced(alloc, pool, rivals.as_slice())
}

/// Takes out what they replace. The room that was taken in the pool stays.
pub fn take_replaced<S: BuildHasher + Copy + Drop>(
    alloc: Global,
    pool: &mut Pool<S>,
    these: &[Candidate<'_>],
) -> Result<(), Memory>
    ensures ok { OnOk result (pool.new.entries ≡ staying_beside pool.old.entries these.now) }
    ensures err { OnErr result (pool.new.entries ≡ pool.old.entries) }
    ensures before { pool.new.before ≡ pool.old.before }
    ensures room { pool.new.room ≡ pool.old.room }
    ensures left { all_of pool.new ≡ all_of pool.old }
{
    let inputs = bare_inputs(alloc, these)?;
    pool.take_spenders(inputs.as_slice());
    Ok(())
}

/// Whether a transaction has a parent in the pool.
fn has_ancestor<S: BuildHasher + Copy + Drop>(pool: &Pool<S>, tx: &Candidate<'_>) -> bool
    ensures { result ≡ has_ancestor pool.now.entries tx.now }
{
    tx.transaction()
        .inputs()
        .iter()
        .any(|input| pool.entry(&input.prevout.txid).is_some())
}

/// Whether one of them has an ancestor in the pool.
pub fn have_ancestors<S: BuildHasher + Copy + Drop>(pool: &Pool<S>, these: &[Candidate<'_>]) -> bool
    ensures { result ≡ have_ancestors pool.now.entries these.now }
{
    these.iter().any(|tx| has_ancestor(pool, tx))
}

/// How many descendants the entry of an id has, itself among them, by the totals that the pool keeps.
fn count_below<S: BuildHasher + Copy + Drop>(pool: &Pool<S>, id: &Txid) -> u64
    requires { IsEntry pool.now.entries id.now }
    ensures { result ≡ length (descendants_of pool.now.entries id.now) }
{
    pool.totals(id).unwrap().below.count
}

/// Whether the entries with these ids have too many descendants together, themselves among them. An entry below two of
/// them counts twice.
pub fn have_too_many<S: BuildHasher + Copy + Drop>(pool: &Pool<S>, ids: &[Txid]) -> bool
    requires { (test : Admitted → Bool) × AreIdsOf ids.now (filter test pool.now.entries) }
    ensures { OfThese pool.now.entries ids.now (λ some. result ≡ have_too_many pool.now.entries some) }
{
    pool.recall_distinct();
    let mut left = MAX_DESCENDANTS;
    for id in ids {
        let count = count_below(pool, id);
        if count > left {
            return true;
        }
        left -= count;
    }
    false
}

/// The entries with these ids, which are in the order of the pool.
pub fn entries_of<'a, S: BuildHasher + Copy + Drop>(
    alloc: Global,
    pool: &'a Pool<S>,
    ids: &[Txid],
) -> Result<Vec<Lent<'a>>, Memory>
    ensures { (test : Admitted → Bool) → ids.now ≡ listing_of (filter test pool.now.entries) → IfOk result (λ found. found.items ≡ filter test pool.now.entries) }
{
    pool.recall_distinct();
    let mut found = Vec::with_capacity(alloc, ids.len())?;
    for id in ids {
        match pool.entry(id) {
            Some(entry) => found.push(Lent::of(entry))?,
            None => {}
        }
    }
    Ok(found)
}

/// The parents of an entry, in the order of the pool.
pub fn parents_of<'a, S: BuildHasher + Copy + Drop>(
    alloc: Global,
    pool: &'a Pool<S>,
    entry: &Lent<'_>,
) -> Result<Vec<Lent<'a>>, Memory>
    ensures { IfOk result (λ found. found.items ≡ parents_above pool.now.entries entry.now.tx.inputs) }
{
    let found = parents(alloc, pool, entry.entry().transaction().inputs())?;
    let ids = in_order(pool, found);
    entries_of(alloc, pool, ids.as_slice())
}

/// The children of an entry, in the order of the pool.
pub fn children_of<'a, S: BuildHasher + Copy + Drop>(
    alloc: Global,
    pool: &'a Pool<S>,
    entry: &Lent<'_>,
) -> Result<Vec<Lent<'a>>, Memory>
    ensures { IfOk result (λ found. found.items ≡ children_of pool.now.entries (txid_of entry.now.tx)) }
{
    let found = pool.children(alloc, &entry.txid())?;
    let ids = in_order(pool, found);
    entries_of(alloc, pool, ids.as_slice())
}

/// Whether an entry is joined to more than one other by a step.
fn has_much_kin<S: BuildHasher + Copy + Drop>(
    alloc: Global,
    pool: &Pool<S>,
    entry: &Lent<'_>,
) -> Result<bool, Memory>
    ensures { IfOk result (λ much. much ≡ has_much_kin pool.now.entries entry.now) }
{
    let above = parents_of(alloc, pool, entry)?;
    let below = children_of(alloc, pool, entry)?;
    Ok(above.len().saturating_add(below.len()) > 1)
}

/// Whether one of these entries is joined to more than one other by a step.
fn some_has_much_kin<S: BuildHasher + Copy + Drop>(
    alloc: Global,
    pool: &Pool<S>,
    entries: &[Lent<'_>],
) -> Result<bool, Memory>
    ensures { IfOk result (λ much. much ≡ list_any (has_much_kin pool.now.entries) entries.now) }
{
    for entry in entries {
        if has_much_kin(alloc, pool, entry)? {
            return Ok(true);
        }
    }
    Ok(false)
}

/// Whether an entry is joined, by parent steps either way, to more than one other.
fn is_entangled<S: BuildHasher + Copy + Drop>(
    alloc: Global,
    pool: &Pool<S>,
    entry: &Lent<'_>,
) -> Result<bool, Memory>
    ensures { IfOk result (λ entangled. entangled ≡ is_entangled pool.now.entries entry.now) }
{
    if has_much_kin(alloc, pool, entry)? {
        return Ok(true);
    }
    let above = parents_of(alloc, pool, entry)?;
    if some_has_much_kin(alloc, pool, &above)? {
        return Ok(true);
    }
    let below = children_of(alloc, pool, entry)?;
    some_has_much_kin(alloc, pool, &below)
}

/// Whether one of these entries is joined, by parent steps either way, to more than one other.
pub fn some_is_entangled<S: BuildHasher + Copy + Drop>(
    alloc: Global,
    pool: &Pool<S>,
    entries: &[Lent<'_>],
) -> Result<bool, Memory>
    ensures { IfOk result (λ entangled. entangled ≡ list_any (is_entangled pool.now.entries) entries.now) }
{
    for entry in entries {
        if is_entangled(alloc, pool, entry)? {
            return Ok(true);
        }
    }
    Ok(false)
}
