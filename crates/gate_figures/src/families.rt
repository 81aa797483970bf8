//! The families of a transaction: its ancestors, and what it would replace.
ghost use Rattle.std.specs.Prelude.{◌≡◌, Bool, IfOk, filter, length};
ghost use Rattle.gate_pool.specs.Family.{AreIdsOf, OfThese, ancestors_above, descendants_of, fees_of};
ghost use Rattle.gate_pool.specs.Counting.{counted_of, replaced_beside};
ghost use Rattle.gate_pool.specs.Pool.{Admitted};
ghost use Rattle.gate_pool.specs.Search.{IsEntry};
ghost use Rattle.gate_rbf.specs.Replacing.{descendant_count};
ghost use Rattle.gate_admit.specs.declared.attempt.Attempt.TheVariants.{First};
ghost use Rattle.gate_admit.specs.Truc.{sibling_of};
ghost use Rattle.gate_figures.specs.Figures.{allowed_ancestors, crowded, crowded_past};

use crate::figures::Figures;
use crate::room::has_second_try;
use gate_admit::{Policy, Pool, sibling};
use gate_bytes::Memory;
use gate_pool::{add_up, ancestors, descendants};
use gate_rbf::conflicts;
use gate_tx::{Transaction, Txid};
use std::alloc::Global;
use std::hash::BuildHasher;

/// How many ancestors a transaction of this size may have, itself among them: a small transaction may have a parent in
/// any case, by the second try, unless it is of version 3.
fn allowed_ancestors(policy: &Policy, tx: &Transaction, vsize: u64) -> usize
    ensures { result ≡ allowed_ancestors policy.now tx.now vsize }
{
    if has_second_try(tx, vsize) {
        policy.ancestors().max(2)
    } else {
        policy.ancestors()
    }
}

/// The ancestors of a transaction of this size, and itself, if they are more than this, or too large.
pub(crate) fn crowded_past<S: BuildHasher + Copy + Drop>(
    alloc: Global,
    policy: &Policy,
    pool: &Pool<S>,
    tx: &Transaction,
    most: usize,
    vsize: u64,
) -> Result<Option<Figures>, Memory>
    ensures { IfOk result (λ found. found ≡ crowded_past policy.now most (ancestors_above pool.now.entries tx.now.inputs) vsize) }
{
    let found = ancestors(alloc, pool, tx.inputs(), pool.count())?;
    let above = found.unwrap();
    let sums = add_up(pool, above.as_slice());
    let count = sums.count as u128 + 1;
    if count > most as u128 {
        return Ok(Some(Figures::Ancestors { count, most }));
    }
    let size = sums.size + u128::from(vsize);
    let most = policy.ancestors_size();
    if size > u128::from(most) {
        return Ok(Some(Figures::AncestorsSized { size, most }));
    }
    Ok(None)
}

/// The ancestors of a transaction, and itself, if they are too many or too large.
pub(crate) fn crowded<S: BuildHasher + Copy + Drop>(
    alloc: Global,
    policy: &Policy,
    pool: &Pool<S>,
    tx: &Transaction,
    vsize: Option<u64>,
) -> Result<Option<Figures>, Memory>
    ensures { IfOk result (λ found. found ≡ crowded policy.now tx.now (ancestors_above pool.now.entries tx.now.inputs) vsize) }
{
    match vsize {
        Some(vsize) => {
            let most = allowed_ancestors(policy, tx, vsize);
            crowded_past(alloc, policy, pool, tx, most, vsize)
        }
        None => Ok(None),
    }
}

/// The ids of the entries that a transaction would replace: those that it conflicts with, the sibling with this id, and
/// all that is below them.
pub(crate) fn replaced<S: BuildHasher + Copy + Drop>(
    alloc: Global,
    pool: &Pool<S>,
    sibling: Option<Txid>,
    tx: &Transaction,
) -> Result<Vec<Txid>, Memory>
    ensures { IfOk result (λ ids. AreIdsOf ids.items (replaced_beside pool.now.entries sibling tx.now)) }
{
    let ids = conflicts(alloc, pool, sibling, tx)?;
    let found = descendants(alloc, pool, ids.as_slice(), pool.count())?;
    Ok(found.unwrap())
}

/// The total fee of the entries that a transaction would replace, the sibling with this id among them, in satoshi.
pub(crate) fn fees_gone<S: BuildHasher + Copy + Drop>(
    alloc: Global,
    pool: &Pool<S>,
    sibling: Option<Txid>,
    tx: &Transaction,
) -> Result<u128, Memory>
    ensures { IfOk result (λ fees. fees ≡ fees_of (replaced_beside pool.now.entries sibling tx.now)) }
{
    let gone = replaced(alloc, pool, sibling, tx)?;
    Ok(add_up(pool, gone.as_slice()).fees)
}

/// How many descendants the entry of an id has, itself among them, as the pool keeps that number.
fn count_below<S: BuildHasher + Copy + Drop>(pool: &Pool<S>, id: &Txid) -> u64
    requires { IsEntry pool.now.entries id.now }
    ensures { result ≡ length (descendants_of pool.now.entries id.now) }
{
    pool.totals(id).unwrap().below.count
}

/// How many descendants the entries of these ids have in total, themselves among them. A descendant of two entries
/// counts twice.
fn count_below_all<S: BuildHasher + Copy + Drop>(pool: &Pool<S>, ids: &[Txid]) -> u128
    requires { (test : Admitted → Bool) × AreIdsOf ids.now (filter test pool.now.entries) }
    ensures { OfThese pool.now.entries ids.now (λ some. result ≡ descendant_count pool.now.entries some) }
{
    pool.recall_distinct();
    let mut sum: u128 = 0;
    for id in ids {
        sum += u128::from(count_below(pool, id));
    }
    sum
}

/// The total fee of the entries that a transaction would replace, its own sibling among them, in satoshi.
pub(crate) fn fees_replaced<S: BuildHasher + Copy + Drop>(
    alloc: Global,
    policy: &Policy,
    pool: &Pool<S>,
    tx: &Transaction,
) -> Result<u128, Memory>
    ensures { IfOk result (λ fees. fees ≡ fees_of (replaced_beside pool.now.entries (sibling_of First policy.now pool.now.entries tx.now) tx.now)) }
{
    let sibling = sibling(alloc, policy, pool, tx)?;
    fees_gone(alloc, pool, sibling, tx)
}

/// How many descendants the entries that a transaction conflicts with, and the sibling with this id, have in total,
/// themselves among them.
pub(crate) fn descendant_count<S: BuildHasher + Copy + Drop>(
    alloc: Global,
    pool: &Pool<S>,
    sibling: Option<Txid>,
    tx: &Transaction,
) -> Result<u128, Memory>
    ensures { IfOk result (λ count. count ≡ descendant_count pool.now.entries (counted_of pool.now.entries sibling tx.now)) }
{
    let ids = conflicts(alloc, pool, sibling, tx)?;
    Ok(count_below_all(pool, ids.as_slice()))
}

/// How many descendants the entries that a transaction conflicts with, and its own sibling, have in total, themselves among
/// them.
pub(crate) fn descendants_replaced<S: BuildHasher + Copy + Drop>(
    alloc: Global,
    policy: &Policy,
    pool: &Pool<S>,
    tx: &Transaction,
) -> Result<u128, Memory>
    ensures { IfOk result (λ count. count ≡ descendant_count pool.now.entries (counted_of pool.now.entries (sibling_of First policy.now pool.now.entries tx.now) tx.now)) }
{
    let sibling = sibling(alloc, policy, pool, tx)?;
    descendant_count(alloc, pool, sibling, tx)
}
