//! How entries are taken back to what they were when their log began: what has come since leaves, and what has left comes
//! back to its place.
ghost use Rattle.std.specs.Prelude.{◌≡◌, ◌<◌, ◌≤◌, ◌+◌, ◌++◌, ◌∷◌, [], None, Some, ℕ, length, slice_set, vec_len, Contains, IfOk};
ghost use Rattle.std.specs.List.Sorted.{IsPermutation};
ghost use Rattle.std.specs.Str.{bytes_eq};
ghost use Rattle.std.specs.Vec.{vec_capacity};
ghost use Rattle.gate_graph.specs.Holding.{spots_of};
ghost use Rattle.gate_graph.specs.Slots.{at};
ghost use Rattle.gate_tx.specs.Coins.{point_eq};
ghost use Rattle.gate_tx.specs.Ids.{txid_of};
ghost use Rattle.indexmap.specs.IndexMap.{get, spare};
ghost use Rattle.gate_pool.specs.Keeping.{entries_in, HasPlaces, IsNew};
ghost use Rattle.gate_pool.specs.Log.{loads_of};
ghost use Rattle.gate_pool.specs.Pool.{Admitted, room_of};
ghost use Rattle.gate_pool.specs.Rewinding.{began, IsEarly, IsRewinding, IsStored, KeepsLogs};
ghost use Rattle.gate_pool.specs.Search.{parents_of};

use crate::arrivals::Arrivals;
use crate::entry::Entry;
use crate::naming::node_id;
use crate::places::{drop_entry, put_entry};
use gate_bytes::Memory;
use gate_graph::{Gone, Held, NodeId, Nodes};
use gate_tx::{OutPoint, Txid, Wtxid};
use indexmap::IndexMap;
use std::hash::BuildHasher;

/// How many inputs the entries of a log have together, with this many more.
pub(crate) fn inputs_gone(log: &[Gone<Entry>], more: usize) -> Result<usize, Memory>
    ensures { IfOk result (λ sum. sum ≡ (room_of (loads_of log.now)).inputs + more) }
{
    let mut sum = more;
    for gone in log {
        let inputs = gone.load.transaction().inputs().len();
        sum = sum.checked_add(inputs).ok_or(Memory)?;
    }
    Ok(sum)
}

/// The id that stands at a place.
fn id_at(slots: &[Option<Held<Entry>>], place: usize) -> Option<NodeId>
    requires { place < length slots.now }
    ensures { result ≡ at (spots_of slots.now) place }
{
    match &slots[place] {
        Some(held) => Some(held.id),
        None => None,
    }
}

/// Takes out the entry at a place, if one stands there, and drops it.
fn drop_at<S: BuildHasher + Copy + Drop>(
    nodes: &mut Nodes<Entry, S>,
    wtxids: &mut IndexMap<Wtxid, Txid, S>,
    spent: &mut IndexMap<OutPoint, Txid, S>,
    place: usize,
)
    requires stored { IsStored nodes.old (get bytes_eq wtxids.old) (get point_eq spent.old) }
    requires within { place < length nodes.old.places }
    ensures stored { IsStored nodes.new (get bytes_eq wtxids.new) (get point_eq spent.new) }
    ensures empty { at nodes.new.places place ≡ None }
    ensures still { (p : ℕ) → at nodes.old.places p ≡ None → at nodes.new.places p ≡ None }
    ensures len { length nodes.new.places ≡ length nodes.old.places }
    ensures logs { (mark : ℕ) → mark ≤ place → KeepsLogs nodes.old nodes.new mark }
    ensures fewer { (e : Admitted) → Contains (entries_in nodes.new.nodes) e → Contains (entries_in nodes.old.nodes) e }
    ensures count { length (entries_in nodes.new.nodes) ≤ length (entries_in nodes.old.nodes) }
    ensures room { nodes.new.room ≡ nodes.old.room }
    ensures names { nodes.new.names ≡ nodes.old.names }
    ensures wtxid_room { spare wtxids.old ≤ spare wtxids.new }
    ensures point_room { spare spent.old ≤ spare spent.new }
{
    if let Some(id) = id_at(nodes.as_slice(), place) {
        if let Some(gone) = nodes.take_one(&id) {
            drop_entry(wtxids, spent, &gone.load);
        }
    }
}

/// Takes out all entries at the mark or past it, and drops them.
pub(crate) fn take_late<S: BuildHasher + Copy + Drop>(
    nodes: &mut Nodes<Entry, S>,
    wtxids: &mut IndexMap<Wtxid, Txid, S>,
    spent: &mut IndexMap<OutPoint, Txid, S>,
    mark: usize,
)
    requires stored { IsStored nodes.old (get bytes_eq wtxids.old) (get point_eq spent.old) }
    ensures stored { IsStored nodes.new (get bytes_eq wtxids.new) (get point_eq spent.new) }
    ensures early { IsEarly nodes.new.places mark }
    ensures logs { KeepsLogs nodes.old nodes.new mark }
    ensures fewer { (e : Admitted) → Contains (entries_in nodes.new.nodes) e → Contains (entries_in nodes.old.nodes) e }
    ensures count { length (entries_in nodes.new.nodes) ≤ length (entries_in nodes.old.nodes) }
    ensures room { nodes.new.room ≡ nodes.old.room }
    ensures names { nodes.new.names ≡ nodes.old.names }
    ensures wtxid_room { spare wtxids.old ≤ spare wtxids.new }
    ensures point_room { spare spent.old ≤ spare spent.new }
{
    let end = nodes.as_slice().len();
    for place in mark..end {
        drop_at(nodes, wtxids, spent, place);
    }
}

/// Puts an entry that left back to the place at which it stood.
fn put_back<S: BuildHasher + Copy + Drop>(
    nodes: &mut Nodes<Entry, S>,
    wtxids: &mut IndexMap<Wtxid, Txid, S>,
    spent: &mut IndexMap<OutPoint, Txid, S>,
    gone: Gone<Entry>,
)
    requires stored { IsStored nodes.old (get bytes_eq wtxids.old) (get point_eq spent.old) }
    requires new { IsNew (entries_in nodes.old.nodes) gone.load }
    requires named { gone.parents.items ≡ parents_of gone.load.tx.inputs }
    requires hole { at nodes.old.places gone.place ≡ None }
    requires within { gone.place < length nodes.old.places }
    requires room { HasPlaces 1 (length gone.load.tx.inputs) nodes.old.room nodes.old.names (spare wtxids.old) (spare spent.old) }
    ensures stored { IsStored nodes.new (get bytes_eq wtxids.new) (get point_eq spent.new) }
    ensures entries { IsPermutation (entries_in nodes.old.nodes ++ gone.load ∷ []) (entries_in nodes.new.nodes) }
    ensures places { nodes.new.places ≡ slice_set nodes.old.places gone.place (Some (txid_of gone.load.tx)) ++ None ∷ [] }
    ensures room { nodes.new.room + 1 ≡ nodes.old.room }
    ensures names { nodes.new.names + length gone.load.tx.inputs ≡ nodes.old.names }
    ensures wtxid_room { spare wtxids.old ≤ spare wtxids.new + 1 }
    ensures point_room { spare spent.old ≤ spare spent.new + length gone.load.tx.inputs }
{
    let Gone {
        place,
        parents,
        load,
    } = gone;
    load.recall_bounds();
    put_entry(wtxids, spent, &load);
    let id = node_id(&load.txid());
    let size = load.vsize();
    let fee = load.fee();
    nodes.put_back(place, id, parents, size, fee, load);
}

/// Takes the last entry off the log, and puts it back to its place if that is below the mark.
fn put_last_back<S: BuildHasher + Copy + Drop>(
    nodes: &mut Nodes<Entry, S>,
    wtxids: &mut IndexMap<Wtxid, Txid, S>,
    spent: &mut IndexMap<OutPoint, Txid, S>,
    arrivals: &mut Arrivals,
    log: &mut Vec<Gone<Entry>>,
    mark: usize,
)
    requires stored { IsStored nodes.old (get bytes_eq wtxids.old) (get point_eq spent.old) }
    requires rewinding { IsRewinding nodes.old (spare wtxids.old) (spare spent.old) arrivals.old log.old.items mark }
    requires some { 0 < vec_len log.old }
    ensures stored { IsStored nodes.new (get bytes_eq wtxids.new) (get point_eq spent.new) }
    ensures rewinding { IsRewinding nodes.new (spare wtxids.new) (spare spent.new) arrivals.new log.new.items mark }
    ensures began { began nodes.new log.new.items mark ≡ began nodes.old log.old.items mark }
    ensures shorter { vec_len log.new + 1 ≡ vec_len log.old }
    ensures few { length (entries_in nodes.new.nodes) ≤ length (entries_in nodes.old.nodes) + 1 }
    ensures capacity { vec_capacity log.new ≡ vec_capacity log.old }
{
    let _slots = nodes.as_slice();
    if let Some(gone) = log.pop() {
        if gone.place < mark {
            arrivals.push(&gone.load);
            put_back(nodes, wtxids, spent, gone);
        }
    }
}

/// Takes all entries off the log, and puts those back to their places that are below the mark. Their arrivals are there
/// once more then.
pub(crate) fn put_each_back<S: BuildHasher + Copy + Drop>(
    nodes: &mut Nodes<Entry, S>,
    wtxids: &mut IndexMap<Wtxid, Txid, S>,
    spent: &mut IndexMap<OutPoint, Txid, S>,
    arrivals: &mut Arrivals,
    log: &mut Vec<Gone<Entry>>,
    mark: usize,
)
    requires stored { IsStored nodes.old (get bytes_eq wtxids.old) (get point_eq spent.old) }
    requires rewinding { IsRewinding nodes.old (spare wtxids.old) (spare spent.old) arrivals.old log.old.items mark }
    ensures stored { IsStored nodes.new (get bytes_eq wtxids.new) (get point_eq spent.new) }
    ensures rewinding { IsRewinding nodes.new (spare wtxids.new) (spare spent.new) arrivals.new log.new.items mark }
    ensures began { began nodes.new log.new.items mark ≡ began nodes.old log.old.items mark }
    ensures none { log.new.items ≡ [] }
    ensures few { length (entries_in nodes.new.nodes) ≤ length (entries_in nodes.old.nodes) + vec_len log.old }
    ensures capacity { vec_capacity log.new ≡ vec_capacity log.old }
{
    while !log.is_empty() {
        put_last_back(nodes, wtxids, spent, arrivals, log, mark);
    }
}
