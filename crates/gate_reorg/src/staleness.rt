//! Entries that the next block cannot have: a lock is not met any more, or a coinbase that they spend is too young
//! again.
ghost use Rattle.std.specs.Prelude.{◌≡◌, ◌≤◌, ◌+◌, ℕ, List, IfOk, OnOk, All, length};
ghost use Rattle.std.specs.Str.{bytes_eq};
ghost use Rattle.indexmap.specs.IndexSet.{contains};
ghost use Rattle.gate_chain.specs.Times.{tip_of};
ghost use Rattle.gate_locks.specs.Locks.{median_at};
ghost use Rattle.gate_admit.specs.Coins.{view_coin};
ghost use Rattle.gate_reorg.specs.Reorganisation.{is_young_coin, height_of, input_heights, spends_young_coin, is_premature, without_premature};
ghost use Rattle.gate_reorg.specs.Picking.{is_premature_id, is_listed_premature};

use gate_admit::{is_immature, tip_median, view_coin};
use gate_bytes::Memory;
use gate_chain::Chain;
use gate_locks::{is_final, sequence_locks_met};
use gate_pool::{Entry, Pool, Test};
use gate_tx::{OutPoint, Transaction, TxIn, Txid};
use indexmap::IndexSet;
use std::alloc::Global;
use std::hash::BuildHasher;

/// The height of an outpoint's coin, or 0 if there is none.
fn height_of<S: BuildHasher + Copy + Drop>(
    chain: &Chain<S>,
    pool: &Pool<S>,
    point: &OutPoint,
) -> u32
    ensures height { result ≡ height_of (view_coin chain.now pool.now.entries point.now) }
    ensures within { result ≤ tip_of chain.now + 1 }
{
    match view_coin(chain, pool, point) {
        Some(coin) => coin.height(),
        None => 0,
    }
}

fn input_heights<S: BuildHasher + Copy + Drop>(
    alloc: Global,
    chain: &Chain<S>,
    pool: &Pool<S>,
    inputs: &[TxIn],
) -> Result<Vec<u32>, Memory>
    ensures heights { IfOk result (λ heights. heights.items ≡ input_heights chain.now pool.now.entries inputs.now) }
    ensures one_each { IfOk result (λ heights. length heights.items ≡ length inputs.now) }
    ensures within { IfOk result (λ heights. All (λ h. h ≤ tip_of chain.now + 1) heights.items) }
{
    let mut heights = Vec::with_capacity(alloc, inputs.len())?;
    for input in inputs {
        heights.push(height_of(chain, pool, &input.prevout))?;
    }
    Ok(heights)
}

/// Whether an outpoint's coin is that of a coinbase that the next block cannot spend.
fn is_young_coin<S: BuildHasher + Copy + Drop>(
    chain: &Chain<S>,
    pool: &Pool<S>,
    point: &OutPoint,
) -> bool
    ensures { result ≡ is_young_coin (tip_of chain.now + 1) (view_coin chain.now pool.now.entries point.now) }
{
    match view_coin(chain, pool, point) {
        Some(coin) => is_immature(chain.tip() + 1, &coin),
        None => false,
    }
}

fn spends_young_coin<S: BuildHasher + Copy + Drop>(
    chain: &Chain<S>,
    pool: &Pool<S>,
    inputs: &[TxIn],
) -> bool
    ensures { result ≡ spends_young_coin chain.now pool.now.entries inputs.now }
{
    for input in inputs {
        if is_young_coin(chain, pool, &input.prevout) {
            return true;
        }
    }
    false
}

/// Whether the next block cannot have a transaction: it is not final there, a relative lock is not met, or it spends a
/// coinbase too early. `median` is the median time past of the tip.
#[tactic(auto, unfolding(crate::specs::Reorganisation::is_premature))]
fn is_premature<S: BuildHasher + Copy + Drop>(
    alloc: Global,
    chain: &Chain<S>,
    pool: &Pool<S>,
    median: u32,
    tx: &Transaction,
) -> Result<bool, Memory>
    requires { median ≡ median_at chain.now (tip_of chain.now) }
    ensures { IfOk result (λ found. found ≡ is_premature chain.now pool.now.entries tx.now) }
{
    if !is_final(tx, chain.tip() + 1, median) {
        return Ok(true);
    }
    let heights = input_heights(alloc, chain, pool, tx.inputs())?;
    if !sequence_locks_met(tx, &heights, chain) {
        return Ok(true);
    }
    Ok(spends_young_coin(chain, pool, tx.inputs()))
}

/// Whether an id is that of an entry that the next block cannot have.
fn is_premature_id<S: BuildHasher + Copy + Drop>(
    alloc: Global,
    chain: &Chain<S>,
    pool: &Pool<S>,
    median: u32,
    txid: &Txid,
) -> Result<bool, Memory>
    requires { median ≡ median_at chain.now (tip_of chain.now) }
    ensures { IfOk result (λ found. found ≡ is_premature_id chain.now pool.now.entries txid.now) }
{
    match pool.entry(txid) {
        Some(entry) => is_premature(alloc, chain, pool, median, entry.transaction()),
        None => Ok(false),
    }
}

/// The ids of the entries that the next block cannot have.
fn premature_ids<S: BuildHasher + Copy + Drop>(
    alloc: Global,
    chain: &Chain<S>,
    pool: &Pool<S>,
) -> Result<IndexSet<Txid, S>, Memory>
    ensures { IfOk result (λ ids. (id : List ℕ) → contains bytes_eq ids id ≡ is_listed_premature chain.now pool.now.entries id) }
{
    let median = tip_median(chain);
    let listing = pool.listing(alloc)?;
    let mut ids = IndexSet::with_hasher(alloc, pool.hasher());
    for txid in listing.as_slice() {
        if is_premature_id(alloc, chain, pool, median, txid)? {
            ids.insert(*txid)?;
        }
    }
    Ok(ids)
}

/// The test that chooses the entries with these ids.
#[derive(Drop)]
struct Among<S: BuildHasher + Drop> {
    ids: IndexSet<Txid, S>,
}

impl<S: BuildHasher + Drop> Test for Among<S> {
    ghost use Rattle.std.specs.Str.{bytes_eq};
    ghost use Rattle.indexmap.specs.IndexSet.{contains};
    ghost use Rattle.gate_tx.specs.Ids.{txid_of};

    ghost chosen = { λ among e. contains bytes_eq among.ids (txid_of e.tx) };

    fn chooses(&self, entry: &Entry) -> bool {
        self.ids.contains(&entry.txid())
    }
}

/// Takes out the entries that the next block cannot have, and all that is below them.
pub(crate) fn take_premature<S: BuildHasher + Copy + Drop>(
    alloc: Global,
    chain: &Chain<S>,
    pool: &mut Pool<S>,
) -> Result<(), Memory>
    ensures entries { OnOk result (pool.new.entries ≡ without_premature chain.now pool.old.entries) }
    ensures before { pool.new.before ≡ pool.old.before }
{
    pool.recall_distinct();
    let ids = premature_ids(alloc, chain, pool)?;
    pool.take_below(&Among { ids });
    Ok(())
}
