ghost use Rattle.std.specs.Prelude.{◌≡◌, ◌<◌, None, Some, true, is_some, filter, slice_set, vec_len};
ghost use Rattle.std.specs.Vec.{vec_capacity};
ghost use Rattle.std.specs.Option.{option_map};
ghost use Rattle.std.specs.Str.{bytes_eq};
ghost use Rattle.indexmap.specs.IndexMap.{get, index_map_len};
ghost use Rattle.gate_graph.specs.Slots.{at, passes, Covers, Indexes};
ghost use Rattle.gate_graph.specs.Holding.{has_id, with_totals};

use crate::held::{Held, Totals};
use crate::id::NodeId;
use indexmap::IndexMap;
use std::hash::BuildHasher;

/// The node that stands at a place.
pub(crate) fn standing<T: Drop>(slots: &[Option<Held<T>>], place: usize) -> &Held<T>
    requires { is_some (at slots.now place) ≡ true }
    ensures { at slots.now place ≡ Some result.now }
{
    slots[place].as_ref().unwrap()
}

/// Whether the node with an id stands at a place.
pub(crate) fn stands_at<T: Drop>(slots: &[Option<Held<T>>], place: usize, id: &NodeId) -> bool
    ensures { result ≡ passes (λ h. has_id h id.now) (at slots.now place) }
{
    match slots.get(place) {
        Some(Some(held)) => held.id == *id,
        _ => false,
    }
}

/// Takes out the node that stands at a place, and leaves a hole.
pub(crate) fn empty<T: Drop>(slots: &mut Vec<Option<Held<T>>>, place: usize) -> Held<T>
    requires { is_some (at slots.old.items place) ≡ true }
    ensures taken { at slots.old.items place ≡ Some result }
    ensures emptied { slots.new.items ≡ slice_set slots.old.items place None }
    ensures len { vec_len slots.new ≡ vec_len slots.old }
    ensures capacity { vec_capacity slots.new ≡ vec_capacity slots.old }
{
    slots[place].take().unwrap()
}

/// Puts a node at a place that is a hole.
pub(crate) fn fill<T: Drop>(slots: &mut Vec<Option<Held<T>>>, place: usize, held: Held<T>)
    requires hole { at slots.old.items place ≡ None }
    requires within { place < vec_len slots.old }
    ensures filled { slots.new.items ≡ slice_set slots.old.items place (Some held) }
    ensures len { vec_len slots.new ≡ vec_len slots.old }
    ensures capacity { vec_capacity slots.new ≡ vec_capacity slots.old }
{
    slots[place] = Some(held);
}

/// Writes the totals of the node at a place, if one stands there.
pub(crate) fn write<T: Drop>(slots: &mut Vec<Option<Held<T>>>, place: usize, totals: Totals)
    ensures written { slots.new.items ≡ slice_set slots.old.items place (option_map (with_totals totals) (at slots.old.items place)) }
    ensures len { vec_len slots.new ≡ vec_len slots.old }
    ensures capacity { vec_capacity slots.new ≡ vec_capacity slots.old }
{
    if place < slots.len() {
        if let Some(held) = &mut slots[place] {
            held.totals = totals;
        }
    }
}

/// Closes the holes.
pub(crate) fn close<T: Drop>(slots: &mut Vec<Option<Held<T>>>)
    ensures { slots.new.items ≡ filter is_some slots.old.items }
{
    slots.retain(|slot| slot.is_some());
}

/// Writes the places of the nodes into an index, which has all their ids and no others.
pub(crate) fn renumber<T: Drop, S: BuildHasher>(
    slots: &[Option<Held<T>>],
    places: &mut IndexMap<NodeId, usize, S>,
)
    requires { Covers has_id slots.now (get bytes_eq places.old) }
    ensures places { Indexes has_id slots.now (get bytes_eq places.new) }
    ensures count { index_map_len places.new ≡ index_map_len places.old }
{
    for place in 0..slots.len() {
        match &slots[place] {
            Some(held) => {
                let moved: Result<_, _> = places.insert(held.id, place);
                let _ = moved.unwrap();
            }
            None => {}
        }
    }
}
