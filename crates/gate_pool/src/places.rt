//! The indexes of entries by witness id and by spent outpoint.
ghost use Rattle.std.specs.Prelude.{◌≡◌, ◌<◌, ◌≤◌, ◌+◌, cond, Some, None, List, ℕ, length};
ghost use Rattle.std.specs.List.{list_any};
ghost use Rattle.std.specs.Str.{bytes_eq};
ghost use Rattle.gate_tx.specs.Coins.{point_eq, spends};
ghost use Rattle.gate_tx.specs.declared.OutPoint.{OutPoint as Point};
ghost use Rattle.gate_tx.specs.Ids.{txid_of};
ghost use Rattle.gate_pool.specs.Pool.{has_wtxid, has_point};
ghost use Rattle.gate_pool.specs.Places.{written};
ghost use Rattle.indexmap.specs.IndexMap.{get, spare};

use crate::entry::Entry;
use gate_graph::Gone;
use gate_tx::{OutPoint, TxIn, Txid, Wtxid};
use indexmap::IndexMap;
use std::hash::BuildHasher;

/// Writes an id at each outpoint that the inputs spend.
fn put_points<S: BuildHasher>(spent: &mut IndexMap<OutPoint, Txid, S>, inputs: &[TxIn], txid: Txid)
    requires { length inputs.now ≤ spare spent.old }
    ensures points { (point : Point) → get point_eq spent.new point ≡ cond (spends inputs.now point) (Some txid) (get point_eq spent.old point) }
    ensures room { spare spent.old ≤ spare spent.new + length inputs.now }
{
    for input in inputs {
        let put: Result<_, _> = spent.insert(input.prevout, txid);
        let _ = put.unwrap();
    }
}

/// Writes an entry's id at its witness id and at each outpoint that it spends.
pub(crate) fn put_entry<S: BuildHasher>(
    wtxids: &mut IndexMap<Wtxid, Txid, S>,
    spent: &mut IndexMap<OutPoint, Txid, S>,
    entry: &Entry,
)
    requires wtxid_room { 0 < spare wtxids.old }
    requires point_room { length entry.now.tx.inputs ≤ spare spent.old }
    ensures wtxids { (id : List ℕ) → get bytes_eq wtxids.new id ≡ written entry.now (has_wtxid entry.now id) (get bytes_eq wtxids.old id) }
    ensures points { (point : Point) → get point_eq spent.new point ≡ written entry.now (has_point entry.now point) (get point_eq spent.old point) }
    ensures wtxid_room { spare wtxids.old ≤ spare wtxids.new + 1 }
    ensures point_room { spare spent.old ≤ spare spent.new + length entry.now.tx.inputs }
{
    let txid = entry.txid();
    let put: Result<_, _> = wtxids.insert(entry.wtxid(), txid);
    let _ = put.unwrap();
    put_points(spent, entry.transaction().inputs(), txid);
}

/// Removes each outpoint that the inputs spend.
fn drop_points<S: BuildHasher>(spent: &mut IndexMap<OutPoint, Txid, S>, inputs: &[TxIn])
    ensures points { (point : Point) → get point_eq spent.new point ≡ cond (spends inputs.now point) None (get point_eq spent.old point) }
    ensures room { spare spent.old ≤ spare spent.new }
{
    for input in inputs {
        let _ = spent.swap_remove(&input.prevout);
    }
}

/// Removes an entry's witness id and each outpoint that it spends.
pub(crate) fn drop_entry<S: BuildHasher>(
    wtxids: &mut IndexMap<Wtxid, Txid, S>,
    spent: &mut IndexMap<OutPoint, Txid, S>,
    entry: &Entry,
)
    ensures wtxids { (id : List ℕ) → get bytes_eq wtxids.new id ≡ cond (has_wtxid entry.now id) None (get bytes_eq wtxids.old id) }
    ensures points { (point : Point) → get point_eq spent.new point ≡ cond (has_point entry.now point) None (get point_eq spent.old point) }
    ensures wtxid_room { spare wtxids.old ≤ spare wtxids.new }
    ensures point_room { spare spent.old ≤ spare spent.new }
{
    let _ = wtxids.swap_remove(&entry.wtxid());
    drop_points(spent, entry.transaction().inputs());
}

/// Removes the witness id of each of these entries, which have left, and each outpoint that they spend.
pub(crate) fn drop_each<S: BuildHasher>(
    wtxids: &mut IndexMap<Wtxid, Txid, S>,
    spent: &mut IndexMap<OutPoint, Txid, S>,
    left: &[Gone<Entry>],
)
    ensures wtxids { (id : List ℕ) → get bytes_eq wtxids.new id ≡ cond (list_any (λ x. has_wtxid x.load id) left.now) None (get bytes_eq wtxids.old id) }
    ensures points { (point : Point) → get point_eq spent.new point ≡ cond (list_any (λ x. has_point x.load point) left.now) None (get point_eq spent.old point) }
    ensures wtxid_room { spare wtxids.old ≤ spare wtxids.new }
    ensures point_room { spare spent.old ≤ spare spent.new }
{
    for gone in left {
        drop_entry(wtxids, spent, &gone.load);
    }
}
