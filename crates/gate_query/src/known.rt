//! What is known of every entry, the transaction of an entry, and which entries spend outpoints.
ghost use Rattle.std.specs.Prelude.{◌≡◌, ◌++◌, IfOk, OnOk};
ghost use Rattle.gate_query.specs.Queries.{entries_known, known_at, spending_of, spendings_of, transaction_of};

use crate::info::entry_info;
use gate_admit::Pool;
use gate_bytes::{Copied, Counted, Kept, Memory};
use gate_rpc::{KnownEntry, Spending};
use gate_tx::{Identified, OutPoint, Txid};
use std::alloc::Global;
use std::hash::BuildHasher;

/// Puts what is known of the entry of an id at the end, if there is one.
fn push_known<S: BuildHasher + Copy + Drop>(
    alloc: Global,
    pool: &Pool<S>,
    txid: &Txid,
    known: &mut Vec<KnownEntry>,
) -> Result<(), Memory>
    ensures { OnOk result (known.new.items ≡ known.old.items ++ known_at pool.now.entries txid.now) }
{
    if let Some(info) = entry_info(alloc, pool, txid)? {
        known.push(KnownEntry { txid: *txid, info })?;
    }
    Ok(())
}

/// What is known of each entry, in order of admission, as `entry_info` has it.
pub fn entries_known<S: BuildHasher + Copy + Drop>(
    alloc: Global,
    pool: &Pool<S>,
) -> Result<Kept<KnownEntry>, Memory>
    ensures { IfOk result (λ known. known ≡ entries_known pool.now.entries) }
{
    pool.recall_distinct();
    let txids = pool.listing(alloc)?;
    let mut known = Vec::with_capacity(alloc, txids.len())?;
    for txid in txids.as_slice() {
        push_known(alloc, pool, txid, &mut known)?;
    }
    Ok(Kept::from_vec(known))
}

/// The transaction of an id, which the answer shares with the entry. None if no entry has the id.
pub fn transaction<S: BuildHasher + Copy + Drop>(
    alloc: Global,
    pool: &Pool<S>,
    txid: &Txid,
) -> Result<Option<Counted<Identified>>, Memory>
    ensures { IfOk result (λ transaction. transaction ≡ transaction_of pool.now.entries txid.now) }
{
    match pool.entry(txid) {
        Some(entry) => Ok(Some(entry.identified().copy(alloc)?)),
        None => Ok(None),
    }
}

/// The id of the entry that spends an outpoint, if there is one.
fn spending_at<S: BuildHasher + Copy + Drop>(pool: &Pool<S>, outpoint: &OutPoint) -> Spending
    ensures { result ≡ spending_of pool.now.entries outpoint.now }
{
    let spender = match pool.spender(outpoint) {
        Some(entry) => Some(entry.txid()),
        None => None,
    };
    Spending {
        outpoint: *outpoint,
        spender,
    }
}

/// Each of these outpoints, in their order, with the id of the entry that spends it, if there is one.
pub fn spendings<S: BuildHasher + Copy + Drop>(
    alloc: Global,
    pool: &Pool<S>,
    outpoints: &[OutPoint],
) -> Result<Kept<Spending>, Memory>
    ensures { IfOk result (λ spendings. spendings ≡ spendings_of pool.now.entries outpoints.now) }
{
    let mut spendings = Vec::with_capacity(alloc, outpoints.len())?;
    for outpoint in outpoints {
        spendings.push(spending_at(pool, outpoint))?;
    }
    Ok(Kept::from_vec(spendings))
}
