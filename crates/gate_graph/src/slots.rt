ghost use Rattle.std.specs.Prelude.{◌≡◌, ◌<◌, ◌≤◌, ◌+◌, ◌^◌, [], ◌∷◌, ◌++◌, ℕ, not, true, false, Some, None, is_some, map, filter, find, length, slice_set, sum_by, vec_len, OnOk, IfSome};
ghost use Rattle.std.specs.Vec.{vec_capacity};
ghost use Rattle.std.specs.List.Sorted.{IsPermutation};
ghost use Rattle.indexmap.specs.IndexMap.{get, spare, index_map_len};
ghost use Rattle.std.specs.Str.{bytes_eq};
ghost use Rattle.std.specs.Option.{option_copied};
ghost use Rattle.gate_graph.specs.Families.{has, ids_of};
ghost use Rattle.gate_graph.specs.Holding.{has_id, id_at, at_id, with_totals, nodes_of, spots_of};
ghost use Rattle.gate_graph.specs.Slots.{at, entries_of};
ghost use Rattle.gate_graph.specs.Ranks.{rate_of};
ghost use Rattle.gate_ranking.specs.Rate.{rate_cmp};
ghost use Rattle.gate_ranking.specs.Lesser.{least_by};

use crate::held::{Held, Totals};
use crate::id::NodeId;
use crate::places::{close, empty, fill, renumber, standing, stands_at, write};
use crate::table::overwrite;
use gate_bytes::Memory;
use gate_ranking::{Ranking, Rate};
use indexmap::IndexMap;
use std::alloc::Global;
use std::hash::BuildHasher;
use std::marker::Model;

/// Takes the memory for this many more nodes in each table.
fn reserve_each<T: Drop, S: BuildHasher>(
    slots: &mut Vec<Option<Held<T>>>,
    places: &mut IndexMap<NodeId, usize, S>,
    near: &mut Vec<Option<u32>>,
    ranking: &mut Ranking<Rate>,
    more: usize,
) -> Result<(), Memory>
    ensures items { slots.new.items ≡ slots.old.items }
    ensures len { vec_len slots.new ≡ vec_len slots.old }
    ensures look { get bytes_eq places.new ≡ get bytes_eq places.old }
    ensures count { index_map_len places.new ≡ index_map_len places.old }
    ensures keys { ranking.new.keys ≡ ranking.old.keys }
    ensures near_len { vec_len near.new ≡ vec_len near.old }
    ensures slots_kept { vec_capacity slots.old ≤ vec_capacity slots.new }
    ensures places_kept { spare places.old ≤ spare places.new }
    ensures near_kept { vec_capacity near.old ≤ vec_capacity near.new }
    ensures ranks_kept { ranking.old.room ≤ ranking.new.room }
    ensures slots_room { OnOk result (vec_len slots.new + more ≤ vec_capacity slots.new) }
    ensures places_room { OnOk result (more ≤ spare places.new) }
    ensures near_room { OnOk result (vec_len near.new + more ≤ vec_capacity near.new) }
    ensures ranks_room { OnOk result (more ≤ ranking.new.room) }
{
    places.reserve(more)?;
    near.reserve(more)?;
    ranking.reserve(more)?;
    slots.reserve(more)?;
    Ok(())
}

/// The place of one of these ids, by an index of ids.
fn first_place<S: BuildHasher>(places: &IndexMap<NodeId, usize, S>, ids: &[NodeId]) -> Option<u32> {
    for id in ids {
        if let Some(place) = places.get(id) {
            return u32::try_from(*place).ok();
        }
    }
    None
}

/// Finds for the node in each slot where one of its parents stands, by an index of ids.
fn find_near<T: Drop, S: BuildHasher>(
    slots: &[Option<Held<T>>],
    places: &IndexMap<NodeId, usize, S>,
    near: &mut Vec<Option<u32>>,
) {
    near.truncate(slots.len());
    for place in 0..near.len() {
        near[place] = match slots.get(place) {
            Some(Some(held)) => first_place(places, held.parents.as_slice()),
            _ => None,
        };
    }
}

/// Has a parent of a node that is moved be looked for where it was looked for before.
fn move_near(near: &mut Vec<Option<u32>>, from: usize, to: usize)
    ensures len { vec_len near.new ≡ vec_len near.old }
    ensures capacity { vec_capacity near.new ≡ vec_capacity near.old }
{
    if from < near.len() && to < near.len() {
        near[to] = near[from];
    }
}

/// Nodes in the order of adding, in slots with holes where some were taken out, and the place of each id.
#[derive(Drop)]
pub(crate) struct Slots<T: Drop, S: BuildHasher + Drop> {
    slots: Vec<Option<Held<T>>>,
    places: IndexMap<NodeId, usize, S>,
    /// Where a parent of each node stood, at its place, if one was found. Only the way to a parent rests on it: what
    /// stands there is asked for its id first.
    near: Vec<Option<u32>>,
    /// What each node is ranked by, at its place.
    ranking: Ranking<Rate>,
    /// The sizes of all nodes, added up.
    size: u128,
    /// How many nodes there is room for.
    room: usize,
}

impl<T: Drop, S: BuildHasher + Drop> Model for Slots<T, S> {
    ghost use Rattle.std.specs.Str.{bytes_eq};
    ghost use Rattle.std.specs.Vec.{vec_len, vec_capacity};
    ghost use Rattle.indexmap.specs.IndexMap.{get, spare, index_map_len};
    ghost use Rattle.gate_graph.specs.declared.held.Held.{Held};
    ghost use Rattle.gate_graph.specs.Slots.{entries_of};
    ghost use Rattle.gate_graph.specs.Holding.{Stored, IsPlaced, HasSpot, spots_of};
    ghost use Rattle.gate_graph.specs.Ranks.{IsRanked};

    ghost Value = { Stored T };

    ghost view = { λ s. record { held = entries_of s.slots.items; spots = spots_of s.slots.items; room = s.room } };

    ghost invariant = { λ s.
        IsPlaced s.slots.items (index_map_len s.places) (get bytes_eq s.places)
        × HasSpot s.room (spare s.places) (vec_len s.slots) (vec_capacity s.slots) (vec_len s.near) (vec_capacity s.near)
        × IsRanked s.slots.items s.room s.ranking s.size };
}

impl<T: Drop, S: BuildHasher + Drop> Slots<T, S> {
    pub(crate) fn new(alloc: Global, hasher: S) -> Slots<T, S>
        ensures held { result.held ≡ [] }
        ensures spots { result.spots ≡ [] }
        ensures room { result.room ≡ 0 }
    {
        Slots {
            slots: Vec::new(alloc),
            places: IndexMap::with_hasher(alloc, hasher),
            near: Vec::new(alloc),
            ranking: Ranking::new(alloc),
            size: 0,
            room: 0,
        }
    }

    /// The slots, in the order of adding.
    pub(crate) fn as_slice(&self) -> &[Option<Held<T>>]
        ensures held { entries_of result.now ≡ self.now.held }
        ensures spots { spots_of result.now ≡ self.now.spots }
    {
        self.slots.as_slice()
    }

    /// How many slots there are, holes among them.
    pub(crate) fn len(&self) -> usize
        ensures len { result ≡ length self.now.spots }
        ensures ids { ids_of (nodes_of self.now.held) ≡ entries_of self.now.spots }
    {
        self.slots.as_slice().len()
    }

    pub(crate) fn count(&self) -> usize
        ensures { result ≡ length self.now.held }
    {
        self.places.len()
    }

    /// The sizes of all nodes, added up.
    pub(crate) fn size(&self) -> u128
        ensures { result ≡ sum_by (λ n. n.size) (nodes_of self.now.held) }
    {
        self.size
    }

    /// The node that ranks least, of equal ones the last.
    pub(crate) fn least(&self) -> Option<&Held<T>>
        ensures { option_copied result ≡ least_by rate_cmp rate_of self.now.held }
    {
        match self.ranking.least() {
            Some((place, _rate)) => Some(standing(&self.slots, place)),
            None => None,
        }
    }

    /// The place of the node that has an id.
    pub(crate) fn place(&self, id: &NodeId) -> Option<usize>
        ensures sound { IfSome result (λ place. at self.now.spots place ≡ Some id.now) }
        ensures whole { (place : ℕ) → at self.now.spots place ≡ Some id.now → result ≡ Some place }
        ensures has { is_some result ≡ has (nodes_of self.now.held) id.now }
    {
        match self.places.get(id) {
            Some(place) => Some(*place),
            None => None,
        }
    }

    /// The place of the node that has an id, as `place` finds it. If it stands at the place `near`, this is no look-up.
    pub(crate) fn place_near(&self, id: &NodeId, near: Option<usize>) -> Option<usize>
        ensures sound { IfSome result (λ place. at self.now.spots place ≡ Some id.now) }
        ensures whole { (place : ℕ) → at self.now.spots place ≡ Some id.now → result ≡ Some place }
        ensures has { is_some result ≡ has (nodes_of self.now.held) id.now }
    {
        if let Some(place) = near {
            if stands_at(&self.slots, place, id) {
                return Some(place);
            }
        }
        self.place(id)
    }

    /// Where a parent of the node at a place is looked for first.
    pub(crate) fn near(&self, place: usize) -> Option<usize> {
        match self.near.get(place) {
            Some(Some(near)) => Some(*near as usize),
            _ => None,
        }
    }

    /// Has a parent of the node at a place be looked for at the place `near` first.
    pub(crate) fn set_near(&mut self, place: usize, near: usize)
        ensures { self.new ≡ self.old }
    {
        if place < self.near.len() {
            self.near[place] = u32::try_from(near).ok();
        }
    }

    pub(crate) fn contains(&self, id: &NodeId) -> bool
        ensures { result ≡ has (nodes_of self.now.held) id.now }
    {
        self.place(id).is_some()
    }

    /// The node at a place.
    pub(crate) fn at(&self, place: usize) -> &Held<T>
        requires { is_some (at self.now.spots place) ≡ true }
        ensures { find (λ h. has_id h (id_at self.now.spots place)) self.now.held ≡ Some result.now }
    {
        standing(&self.slots, place)
    }

    /// Writes the totals of a node, and ranks it by them.
    pub(crate) fn set_totals(&mut self, place: usize, totals: Totals)
        requires { is_some (at self.old.spots place) ≡ true }
        ensures held { self.new.held ≡ map (at_id (id_at self.old.spots place) (with_totals totals)) self.old.held }
        ensures spots { self.new.spots ≡ self.old.spots }
        ensures room { self.new.room ≡ self.old.room }
    {
        write(&mut self.slots, place, totals);
        let rate = standing(&self.slots, place).rate();
        self.ranking.update(place, rate);
    }

    /// Takes out a node and leaves a hole.
    pub(crate) fn pull(&mut self, place: usize) -> Held<T>
        requires { is_some (at self.old.spots place) ≡ true }
        ensures taken { find (λ h. has_id h (id_at self.old.spots place)) self.old.held ≡ Some result }
        ensures left { self.new.held ≡ filter (λ h. not (has_id h (id_at self.old.spots place))) self.old.held }
        ensures spots { self.new.spots ≡ slice_set self.old.spots place None }
        ensures room { self.new.room ≡ self.old.room }
    {
        let held = empty(&mut self.slots, place);
        let _ = self.places.swap_remove(&held.id);
        self.ranking.remove(place);
        self.size -= u128::from(held.size);
        held
    }

    /// Takes the memory for this many more nodes. If memory runs out, there is as much room as before.
    pub(crate) fn reserve(&mut self, more: usize) -> Result<(), Memory>
        ensures held { self.new.held ≡ self.old.held }
        ensures spots { self.new.spots ≡ self.old.spots }
        ensures kept { self.old.room ≤ self.new.room }
        ensures room { OnOk result (more ≤ self.new.room) }
    {
        reserve_each(
            &mut self.slots,
            &mut self.places,
            &mut self.near,
            &mut self.ranking,
            more,
        )?;
        self.room = self.room.max(more);
        Ok(())
    }

    /// Puts a node at the end, for which there is room, and returns its place.
    pub(crate) fn put(&mut self, held: Held<T>) -> usize
        requires room { 0 < self.old.room }
        requires new { has (nodes_of self.old.held) held.id ≡ false }
        requires fits { sum_by (λ n. n.size) (nodes_of self.old.held) + held.size < 2 ^ 128 }
        ensures held { self.new.held ≡ self.old.held ++ held ∷ [] }
        ensures spots { self.new.spots ≡ self.old.spots ++ Some held.id ∷ [] }
        ensures place { result ≡ length self.old.spots }
        ensures room { self.new.room + 1 ≡ self.old.room }
    {
        self.room -= 1;
        let place = self.slots.as_slice().len();
        let put: Result<_, _> = self.places.insert(held.id, place);
        let _ = put.unwrap();
        self.size += u128::from(held.size);
        self.ranking.push(held.rate());
        self.near.push_reserved(None);
        self.slots.push_reserved(Some(held));
        place
    }

    /// Moves a node to a hole, and leaves a hole where it stood.
    pub(crate) fn relocate(&mut self, from: usize, to: usize)
        requires stands { is_some (at self.old.spots from) ≡ true }
        requires hole { at self.old.spots to ≡ None }
        requires within { to < length self.old.spots }
        ensures held { IsPermutation self.old.held self.new.held }
        ensures spots { self.new.spots ≡ slice_set (slice_set self.old.spots from None) to (at self.old.spots from) }
        ensures room { self.new.room ≡ self.old.room }
    {
        let held = empty(&mut self.slots, from);
        overwrite(&mut self.places, &held.id, to);
        self.ranking.remove(from);
        self.ranking.update(to, held.rate());
        fill(&mut self.slots, to, held);
        move_near(&mut self.near, from, to);
    }

    /// Closes the holes, so that nodes have other places, in the same order.
    pub(crate) fn close_up(&mut self)
        ensures held { self.new.held ≡ self.old.held }
        ensures spots { self.new.spots ≡ filter is_some self.old.spots }
    {
        self.room = 0;
        close(&mut self.slots);
        renumber(&self.slots, &mut self.places);
        find_near(&self.slots, &self.places, &mut self.near);
        self.ranking.close_up();
    }
}

impl<T: Drop, S: BuildHasher + Copy + Drop> Slots<T, S> {
    pub(crate) fn hasher(&self) -> S {
        *self.places.hasher()
    }
}
