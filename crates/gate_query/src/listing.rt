//! The ancestors and the descendants of an entry.
ghost use Rattle.std.specs.Prelude.{◌≡◌, IfOk, IsSome, filter, not};
ghost use Rattle.std.specs.Str.{bytes_eq};
ghost use Rattle.gate_query.specs.Answers.{above, below, ancestors_listed, descendants_listed};
ghost use Rattle.gate_pool.specs.Pool.{entry_by_txid, listing_of};

use crate::family::{with_ancestors, with_descendants};
use gate_admit::Pool;
use gate_bytes::{Kept, Memory};
use gate_tx::Txid;
use std::alloc::Global;
use std::hash::BuildHasher;

/// The ids without this one.
fn without(mut txids: Vec<Txid>, txid: &Txid) -> Kept<Txid>
    ensures { result ≡ filter (λ id. not (bytes_eq id txid.now)) txids.items }
{
    txids.retain(|other| *other != *txid);
    Kept::from_vec(txids)
}

fn above<S: BuildHasher + Copy + Drop>(
    alloc: Global,
    pool: &Pool<S>,
    txid: &Txid,
) -> Result<Kept<Txid>, Memory>
    ensures { IfOk result (λ txids. txids ≡ listing_of (above pool.now.entries txid.now)) }
{
    let txids = with_ancestors(alloc, pool, txid)?;
    Ok(without(txids, txid))
}

fn below<S: BuildHasher + Copy + Drop>(
    alloc: Global,
    pool: &Pool<S>,
    txid: &Txid,
) -> Result<Kept<Txid>, Memory>
    requires { IsSome (entry_by_txid pool.now.entries txid.now) }
    ensures { IfOk result (λ txids. txids ≡ listing_of (below pool.now.entries txid.now)) }
{
    let txids = with_descendants(alloc, pool, txid)?;
    Ok(without(txids, txid))
}

/// The txids of the entries above an entry, in order of admission, without its own. None if no entry has the id.
pub fn ancestors_listed<S: BuildHasher + Copy + Drop>(
    alloc: Global,
    pool: &Pool<S>,
    txid: &Txid,
) -> Result<Option<Kept<Txid>>, Memory>
    ensures { IfOk result (λ txids. txids ≡ ancestors_listed pool.now.entries txid.now) }
{
    match pool.entry(txid) {
        Some(_) => Ok(Some(above(alloc, pool, txid)?)),
        None => Ok(None),
    }
}

/// The txids of the entries below an entry, in order of admission, without its own. None if no entry has the id.
pub fn descendants_listed<S: BuildHasher + Copy + Drop>(
    alloc: Global,
    pool: &Pool<S>,
    txid: &Txid,
) -> Result<Option<Kept<Txid>>, Memory>
    ensures { IfOk result (λ txids. txids ≡ descendants_listed pool.now.entries txid.now) }
{
    match pool.entry(txid) {
        Some(_) => Ok(Some(below(alloc, pool, txid)?)),
        None => Ok(None),
    }
}
