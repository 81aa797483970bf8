//! The families of entries, in order of admission.
ghost use Rattle.std.specs.Prelude.{◌≡◌, IfOk, IsSome};
ghost use Rattle.gate_pool.specs.Pool.{entry_by_txid, listing_of};
ghost use Rattle.gate_pool.specs.Family.{ancestors_of, descendants_of, children_of};
ghost use Rattle.gate_query.specs.Answers.{parents_of};

use gate_admit::{Entry, Pool};
use gate_bytes::{Kept, Memory};
use gate_pool::{FamilyView, ancestors, descendants};
use gate_tx::{OutPoint, TxIn, Txid, Witness};
use std::alloc::Global;
use std::hash::BuildHasher;

/// An input that spends the first output of a transaction.
fn spending(alloc: Global, txid: &Txid) -> TxIn
    ensures { result.prevout.txid ≡ txid.now }
{
    TxIn {
        prevout: OutPoint {
            txid: *txid,
            index: 0,
        },
        script: Kept::from_vec(Vec::new(alloc)),
        sequence: 0,
        witness: Witness::new(alloc),
    }
}

/// The ids of an entry and of all above it, found as what is above a transaction that spends from it.
pub(crate) fn with_ancestors<S: BuildHasher + Copy + Drop>(
    alloc: Global,
    pool: &Pool<S>,
    txid: &Txid,
) -> Result<Vec<Txid>, Memory>
    ensures { IfOk result (λ txids. txids.items ≡ listing_of (ancestors_of pool.now.entries txid.now)) }
{
    let input = spending(alloc, txid);
    let found = ancestors(alloc, pool, std::slice::from_ref(&input), pool.count())?;
    let mut txids = found.unwrap();
    pool.sort_by_admission(txids.as_mut_slice());
    Ok(txids)
}

/// The ids of an entry and of all below it.
pub(crate) fn with_descendants<S: BuildHasher + Copy + Drop>(
    alloc: Global,
    pool: &Pool<S>,
    txid: &Txid,
) -> Result<Vec<Txid>, Memory>
    requires { IsSome (entry_by_txid pool.now.entries txid.now) }
    ensures { IfOk result (λ txids. txids.items ≡ listing_of (descendants_of pool.now.entries txid.now)) }
{
    pool.recall_distinct();
    let found = descendants(alloc, pool, &[*txid], pool.count())?;
    let mut txids = found.unwrap();
    pool.sort_by_admission(txids.as_mut_slice());
    Ok(txids)
}

/// The ids of the entries whose outputs an entry spends.
pub(crate) fn parents<S: BuildHasher + Copy + Drop>(
    alloc: Global,
    pool: &Pool<S>,
    entry: &Entry,
) -> Result<Vec<Txid>, Memory>
    ensures { IfOk result (λ txids. txids.items ≡ listing_of (parents_of pool.now.entries entry.now)) }
{
    let inputs = entry.transaction().inputs();
    let mut txids = gate_pool::parents(alloc, pool, inputs)?;
    pool.sort_by_admission(txids.as_mut_slice());
    Ok(txids)
}

/// The ids of the entries that spend an entry's outputs.
pub(crate) fn children<S: BuildHasher + Copy + Drop>(
    alloc: Global,
    pool: &Pool<S>,
    txid: &Txid,
) -> Result<Vec<Txid>, Memory>
    ensures { IfOk result (λ txids. txids.items ≡ listing_of (children_of pool.now.entries txid.now)) }
{
    let mut txids = pool.children(alloc, txid)?;
    pool.sort_by_admission(txids.as_mut_slice());
    Ok(txids)
}
