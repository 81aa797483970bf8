//! The entries that pay at least a feerate.
ghost use Rattle.std.specs.Prelude.{◌≡◌, ◌&&◌, IfOk, filter};
ghost use Rattle.std.specs.List.{list_any};
ghost use Rattle.gate_pool.specs.Pool.{Admitted, has_txid};
ghost use Rattle.gate_query.specs.Answers.{listing_at, pays};

use gate_admit::{Entry, Pool};
use gate_bytes::{Kept, Memory};
use gate_standard::Feerate;
use gate_tx::Txid;
use std::alloc::Global;
use std::hash::BuildHasher;

/// Whether an entry's fee is at least that of its size at a feerate.
fn pays(entry: &Entry, rate: Feerate) -> bool
    ensures { result ≡ pays rate entry.now }
{
    rate.fee(entry.vsize()) <= u128::from(entry.fee())
}

/// Whether an entry has an id, and pays at least a feerate.
fn is_paying<S: BuildHasher + Copy + Drop>(pool: &Pool<S>, rate: Feerate, txid: &Txid) -> bool
    ensures { result ≡ list_any (λ (e : Admitted). has_txid e txid.now && pays rate e) pool.now.entries }
{
    pool.recall_distinct();
    match pool.entry(txid) {
        Some(entry) => pays(entry, rate),
        None => false,
    }
}

/// Those of these ids whose entries pay at least a feerate.
fn paying_among<S: BuildHasher + Copy + Drop>(
    mut txids: Vec<Txid>,
    pool: &Pool<S>,
    rate: Feerate,
) -> Kept<Txid>
    ensures { result ≡ filter (λ txid. list_any (λ (e : Admitted). has_txid e txid && pays rate e) pool.now.entries) txids.items }
{
    txids.retain(move |txid| is_paying(pool, rate, txid));
    Kept::from_vec(txids)
}

/// The txids of the entries that pay at least a feerate, in order of admission. All pay a feerate of 0.
pub fn listing_at<S: BuildHasher + Copy + Drop>(
    alloc: Global,
    pool: &Pool<S>,
    rate: Feerate,
) -> Result<Kept<Txid>, Memory>
    ensures { IfOk result (λ txids. txids ≡ listing_at rate pool.now.entries) }
{
    pool.recall_distinct();
    let txids = pool.listing(alloc)?;
    if rate.rate == 0 {
        return Ok(txids);
    }
    Ok(paying_among(txids.into_vec(), pool, rate))
}
