//! What is read from the log of what left a pool.
ghost use Rattle.std.specs.Prelude.{◌≡◌, ◌||◌, ◌++◌, ◌∷◌, [], cond, not, ℕ, List, filter, map, IfOk, OnOk};
ghost use Rattle.std.specs.List.{list_any};
ghost use Rattle.std.specs.List.Sorted.{IsPermutation, IsNonDecreasingBy};
ghost use Rattle.std.specs.Str.{bytes_eq};
ghost use Rattle.indexmap.specs.IndexSet.{contains};
ghost use Rattle.gate_tx.specs.Ids.{txid_of};
ghost use Rattle.gate_pool.specs.Leaving.{has_gone, has_left, seated};
ghost use Rattle.gate_pool.specs.Places.{standing};
ghost use Rattle.gate_pool.specs.Pool.{listing_of};

use crate::entry::Entry;
use crate::store::Store;
use gate_bytes::Memory;
use gate_graph::{Gone, Held};
use gate_tx::Txid;
use indexmap::IndexSet;
use std::alloc::Global;
use std::hash::BuildHasher;

/// The id of an entry that left, and the place at which it stood.
#[derive(Clone, Copy)]
pub(crate) struct Seated {
    place: usize,
    txid: Txid,
}

impl<S: BuildHasher + Copy + Drop> Store<S> {
    /// Adds what left to a list, if it stood below the mark and no entry has its id.
    fn add_gone(
        &self,
        seats: &mut Vec<Seated>,
        gone: &Gone<Entry>,
        mark: usize,
    ) -> Result<(), Memory>
        ensures { OnOk result (seats.new.items ≡ seats.old.items ++ cond (has_gone self.now.entries mark gone.now) (seated gone.now ∷ []) []) }
    {
        let txid = gone.load.txid();
        if gone.place < mark && self.entry(&txid).is_none() {
            seats.push(Seated {
                place: gone.place,
                txid,
            })?;
        }
        Ok(())
    }

    /// What left of a log, if it stood below the mark and no entry has its id, in the order of the log.
    pub(crate) fn seats_left(
        &self,
        alloc: Global,
        log: &[Gone<Entry>],
        mark: usize,
    ) -> Result<Vec<Seated>, Memory>
        ensures { IfOk result (λ seats. seats.items ≡ map seated (filter (has_gone self.now.entries mark) log.now)) }
    {
        let mut seats = Vec::new(alloc);
        for gone in log {
            self.add_gone(&mut seats, gone, mark)?;
        }
        Ok(seats)
    }
}

/// Puts ids in the order of their places.
pub(crate) fn sort_by_seat(seats: &mut [Seated])
    ensures same { IsPermutation seats.old seats.new }
    ensures order { IsNonDecreasingBy (λ s. s.place) seats.new }
{
    seats.sort_unstable_by_key(|seat| seat.place);
}

/// The ids alone.
pub(crate) fn txids_at(alloc: Global, seats: &[Seated]) -> Result<Vec<Txid>, Memory>
    ensures { IfOk result (λ txids. txids.items ≡ map (λ s. s.txid) seats.now) }
{
    let mut txids = Vec::with_capacity(alloc, seats.len())?;
    for seat in seats {
        txids.push(seat.txid)?;
    }
    Ok(txids)
}

/// Adds the id of what left to a set, if it stood below the mark.
fn add_left<S: BuildHasher>(
    ids: &mut IndexSet<Txid, S>,
    gone: &Gone<Entry>,
    mark: usize,
) -> Result<(), Memory>
    ensures { OnOk result ((id : List ℕ) → contains bytes_eq ids.new id ≡ (contains bytes_eq ids.old id || has_left mark id gone.now)) }
{
    if gone.place < mark {
        ids.insert(gone.load.txid())?;
    }
    Ok(())
}

/// The ids of what left, if it stood below the mark, as a set.
pub(crate) fn txids_left<S: BuildHasher + Drop>(
    alloc: Global,
    hasher: S,
    log: &[Gone<Entry>],
    mark: usize,
) -> Result<IndexSet<Txid, S>, Memory>
    ensures { IfOk result (λ ids. (id : List ℕ) → contains bytes_eq ids id ≡ list_any (has_left mark id) log.now) }
{
    let mut ids = IndexSet::with_hasher(alloc, hasher);
    for gone in log {
        add_left(&mut ids, gone, mark)?;
    }
    Ok(ids)
}

/// Adds the id of an entry to a list, unless it is in a set.
fn add_beside<S: BuildHasher>(
    txids: &mut Vec<Txid>,
    entry: &Entry,
    ids: &IndexSet<Txid, S>,
) -> Result<(), Memory>
    ensures { OnOk result (txids.new.items ≡ txids.old.items ++ cond (not (contains bytes_eq ids.now (txid_of entry.now.tx))) (txid_of entry.now.tx ∷ []) []) }
{
    let txid = entry.txid();
    if !ids.contains(&txid) {
        txids.push(txid)?;
    }
    Ok(())
}

/// The ids of the entries in these slots that are not in a set, in order of admission.
pub(crate) fn txids_beside<S: BuildHasher>(
    alloc: Global,
    slots: &[Option<Held<Entry>>],
    ids: &IndexSet<Txid, S>,
) -> Result<Vec<Txid>, Memory>
    ensures { IfOk result (λ txids. txids.items ≡ listing_of (filter (λ e. not (contains bytes_eq ids.now (txid_of e.tx))) (standing slots.now))) }
{
    let mut txids = Vec::new(alloc);
    for slot in slots {
        match slot {
            Some(held) => add_beside(&mut txids, &held.load, ids)?,
            None => {}
        }
    }
    Ok(txids)
}
