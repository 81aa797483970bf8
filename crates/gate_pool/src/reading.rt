//! What is read from the slots in which entries stand.
ghost use Rattle.std.specs.Prelude.{◌≡◌, ◌<◌, ◌≤◌, ◌++◌, ◌∷◌, [], cond, List, ℕ, None, Some, filter, length, IfOk, OnOk};
ghost use Rattle.std.specs.List.Sorted.{IsPermutation, IsNonDecreasingBy};
ghost use Rattle.std.specs.Option.{unwrap_or};
ghost use Rattle.std.specs.Str.{bytes_eq};
ghost use Rattle.std.specs.Vec.{vec_capacity};
ghost use Rattle.gate_tx.specs.Coins.{point_eq};
ghost use Rattle.gate_tx.specs.Ids.{txid_of};
ghost use Rattle.gate_tx.specs.declared.OutPoint.{OutPoint as Point};
ghost use Rattle.indexmap.specs.IndexMap.{get};
ghost use Rattle.gate_pool.specs.Pool.{has_point, has_wtxid, listing_of};
ghost use Rattle.gate_pool.specs.Distinct.{AreDistinct};
ghost use Rattle.gate_pool.specs.Keeping.{IsIndexed};
ghost use Rattle.gate_pool.specs.Places.{place_in, standing, written};

use crate::choice::Test;
use crate::entry::Entry;
use crate::naming::node_id;
use crate::places::put_entry;
use gate_bytes::Memory;
use gate_graph::{Held, NodeId, Nodes};
use gate_tx::{OutPoint, Txid, Wtxid};
use indexmap::IndexMap;
use std::alloc::Global;
use std::hash::BuildHasher;

/// The ids of the entries, of which there are `count`, in order of admission.
pub(crate) fn txids_in(
    alloc: Global,
    slots: &[Option<Held<Entry>>],
    count: usize,
) -> Result<Vec<Txid>, Memory>
    ensures { IfOk result (λ txids. txids.items ≡ listing_of (standing slots.now)) }
{
    let mut txids = Vec::with_capacity(alloc, count)?;
    for slot in slots {
        match slot {
            Some(held) => txids.push(held.load.txid())?,
            None => {}
        }
    }
    Ok(txids)
}

/// Puts the id of an entry at the end of a list with room, if the entry passes a test.
fn choose_one<T: Test>(entry: &Entry, test: &T, chosen: &mut Vec<NodeId>)
    requires { length chosen.old.items < vec_capacity chosen.old }
    ensures ids { chosen.new.items ≡ chosen.old.items ++ cond (T.chosen test.now entry.now) (txid_of entry.now.tx ∷ []) [] }
    ensures capacity { vec_capacity chosen.new ≡ vec_capacity chosen.old }
{
    if test.chooses(entry) {
        chosen.push_reserved(node_id(&entry.txid()));
    }
}

/// Writes the ids of the entries that pass a test over a list with room.
pub(crate) fn choose<T: Test>(slots: &[Option<Held<Entry>>], test: &T, chosen: &mut Vec<NodeId>)
    requires { length (standing slots.now) ≤ vec_capacity chosen.old }
    ensures ids { chosen.new.items ≡ listing_of (filter (T.chosen test.now) (standing slots.now)) }
    ensures capacity { vec_capacity chosen.new ≡ vec_capacity chosen.old }
{
    chosen.clear();
    for slot in slots {
        match slot {
            Some(held) => choose_one(&held.load, test, chosen),
            None => {}
        }
    }
}

/// Writes an entry's id at its witness id and at each outpoint that it spends, in memory that it takes.
fn index_one<S: BuildHasher>(
    entry: &Entry,
    wtxids: &mut IndexMap<Wtxid, Txid, S>,
    spent: &mut IndexMap<OutPoint, Txid, S>,
) -> Result<(), Memory>
    ensures wtxids { OnOk result ((id : List ℕ) → get bytes_eq wtxids.new id ≡ written entry.now (has_wtxid entry.now id) (get bytes_eq wtxids.old id)) }
    ensures points { OnOk result ((p : Point) → get point_eq spent.new p ≡ written entry.now (has_point entry.now p) (get point_eq spent.old p)) }
{
    wtxids.reserve(1)?;
    spent.reserve(entry.transaction().inputs().len())?;
    put_entry(wtxids, spent, entry);
    Ok(())
}

/// Writes the id of each entry at its witness id and at each outpoint that it spends, into empty indexes.
pub(crate) fn index_each<S: BuildHasher>(
    slots: &[Option<Held<Entry>>],
    wtxids: &mut IndexMap<Wtxid, Txid, S>,
    spent: &mut IndexMap<OutPoint, Txid, S>,
) -> Result<(), Memory>
    requires distinct { AreDistinct (standing slots.now) }
    requires no_wtxids { (id : List ℕ) → get bytes_eq wtxids.old id ≡ None }
    requires no_points { (point : Point) → get point_eq spent.old point ≡ None }
    ensures { OnOk result (IsIndexed (standing slots.now) (get bytes_eq wtxids.new) (get point_eq spent.new)) }
{
    for slot in slots {
        match slot {
            Some(held) => index_one(&held.load, wtxids, spent)?,
            None => {}
        }
    }
    Ok(())
}

/// The place of an entry's node, or 0 if no entry has the id.
fn place_of<S: BuildHasher + Copy + Drop>(nodes: &Nodes<Entry, S>, txid: &Txid) -> usize
    ensures { result ≡ unwrap_or (place_in nodes.now.places txid.now) 0 }
{
    nodes.place(&node_id(txid)).unwrap_or(0)
}

/// Puts ids in the order of their places.
pub(crate) fn sort_by_place<S: BuildHasher + Copy + Drop>(
    nodes: &Nodes<Entry, S>,
    txids: &mut [Txid],
)
    ensures same { IsPermutation txids.old txids.new }
    ensures len { length txids.new ≡ length txids.old }
    ensures order { IsNonDecreasingBy (λ (txid : List ℕ). unwrap_or (place_in nodes.now.places txid) 0) txids.new }
{
    txids.sort_unstable_by_key(|txid| place_of(nodes, txid));
}
