//! Nodes put between others, where they add no chain between these.
ghost use Rattle.std.specs.Prelude.{◌≡◌, ◌≤◌, ℕ, List, IsTrue, true, is_some, length, Contains};
ghost use Rattle.std.specs.Vec.{vec_capacity};
ghost use Rattle.gate_graph.specs.Families.{are_apart};
ghost use Rattle.gate_graph.specs.Holding.{id_at, nodes_of, loaded};
ghost use Rattle.gate_graph.specs.Slots.{at};
ghost use Rattle.gate_graph.specs.Keeping.{AreTables, IsAsRoomy};
ghost use Rattle.gate_graph.specs.Linking.{IsLinked};
ghost use Rattle.gate_graph.specs.Walking.{AreClear};
ghost use Rattle.gate_graph.specs.Merging.{AddsNoChain, GainsOne};
ghost use Rattle.gate_graph.specs.Weighing.{AreSmall, IsNewLast, IsWeighed};

use crate::held::{Sums, Totals, Weight};
use crate::id::NodeId;
use crate::links::Links;
use crate::slots::Slots;
use crate::walk::{Heading, Scratch, Way, walk};
use crate::weigh::{Difference, Side, Sign, change_all, weigh};
use std::hash::BuildHasher;

/// Whether there is one node more below an id, at most, than its node's totals say. It may be no node's.
fn gains_one<T: Drop, S: BuildHasher + Drop>(
    slots: &Slots<T, S>,
    links: &Links<S>,
    marks: &mut Vec<bool>,
    found: &mut Vec<usize>,
    id: &NodeId,
) -> bool
    requires room { length slots.now.held ≤ vec_capacity found.old }
    requires apart { are_apart (nodes_of slots.now.held) ≡ true }
    requires linked { IsLinked (nodes_of slots.now.held) links.now }
    requires small { AreSmall (nodes_of slots.now.held) }
    requires clear { AreClear (length slots.now.spots) marks.old.items }
    ensures gains { IsTrue result → GainsOne slots.now.held id.now }
    ensures clear { AreClear (length slots.now.spots) marks.new.items }
    ensures capacity { vec_capacity found.new ≡ vec_capacity found.old }
    ensures marks { vec_capacity marks.new ≡ vec_capacity marks.old }
{
    match slots.place(id) {
        Some(place) => {
            let before = slots.at(place).totals.below.count;
            walk(
                slots,
                links,
                marks,
                found,
                Heading {
                    place,
                    way: Way::Down,
                },
            );
            weigh(slots, found.as_slice()).count <= before.saturating_add(1)
        }
        None => true,
    }
}

/// Whether each of these ids gains one node below it, at most.
fn each_gains_one<T: Drop, S: BuildHasher + Drop>(
    slots: &Slots<T, S>,
    links: &Links<S>,
    marks: &mut Vec<bool>,
    found: &mut Vec<usize>,
    ids: &[NodeId],
) -> bool
    requires room { length slots.now.held ≤ vec_capacity found.old }
    requires apart { are_apart (nodes_of slots.now.held) ≡ true }
    requires linked { IsLinked (nodes_of slots.now.held) links.now }
    requires small { AreSmall (nodes_of slots.now.held) }
    requires clear { AreClear (length slots.now.spots) marks.old.items }
    ensures gain { IsTrue result → (id : List ℕ) → Contains ids.now id → GainsOne slots.now.held id }
    ensures clear { AreClear (length slots.now.spots) marks.new.items }
    ensures capacity { vec_capacity found.new ≡ vec_capacity found.old }
    ensures marks { vec_capacity marks.new ≡ vec_capacity marks.old }
{
    for id in ids {
        if !gains_one(slots, links, marks, found, id) {
            return false;
        }
    }
    true
}

/// Whether the last node adds no chain between others: all that is below it was below each of its parents before.
pub(crate) fn adds_no_chain<T: Drop, S: BuildHasher + Drop>(
    slots: &Slots<T, S>,
    links: &Links<S>,
    scratch: &mut Scratch,
    place: usize,
) -> bool
    requires tables { AreTables slots.now links.now scratch.old }
    requires stands { is_some (at slots.now.spots place) ≡ true }
    requires last { IsNewLast slots.now.held (id_at slots.now.spots place) }
    ensures adds { IsTrue result → AddsNoChain slots.now.held (id_at slots.now.spots place) }
    ensures tables { AreTables slots.now links.now scratch.new }
    ensures room { IsAsRoomy slots.now slots.now scratch.old scratch.new }
{
    let parents = slots.at(place).parents.as_slice();
    each_gains_one(
        slots,
        links,
        &mut scratch.marks,
        &mut scratch.found,
        parents,
    )
}

/// Gives the last node, which adds no chain between others, its totals, and adds it to the descendant totals of each
/// node above it and to the ancestor totals of each node below it.
pub(crate) fn settle_between<T: Drop, S: BuildHasher + Drop>(
    slots: &mut Slots<T, S>,
    links: &Links<S>,
    scratch: &mut Scratch,
    place: usize,
)
    requires tables { AreTables slots.old links.now scratch.old }
    requires stands { is_some (at slots.old.spots place) ≡ true }
    requires adds { AddsNoChain slots.old.held (id_at slots.old.spots place) }
    ensures loaded { loaded slots.new.held ≡ loaded slots.old.held }
    ensures spots { slots.new.spots ≡ slots.old.spots }
    ensures weighed { IsWeighed slots.new.held }
    ensures tables { AreTables slots.new links.now scratch.new }
    ensures room { IsAsRoomy slots.old slots.new scratch.old scratch.new }
{
    let _count = slots.count();
    let held = slots.at(place);
    let weight = Weight {
        size: held.size,
        fee: held.fee,
    };
    walk(
        slots,
        links,
        &mut scratch.marks,
        &mut scratch.above,
        Heading {
            place,
            way: Way::Up,
        },
    );
    walk(
        slots,
        links,
        &mut scratch.marks,
        &mut scratch.found,
        Heading {
            place,
            way: Way::Down,
        },
    );
    let totals = Totals {
        above: weigh(slots, scratch.above.as_slice()),
        below: weigh(slots, scratch.found.as_slice()),
    };
    let none = Sums {
        count: 0,
        size: 0,
        fees: 0,
    };
    slots.set_totals(
        place,
        Totals {
            above: none,
            below: none,
        },
    );
    change_all(
        slots,
        scratch.above.as_slice(),
        Difference {
            side: Side::Below,
            sign: Sign::Plus,
            weight,
        },
    );
    change_all(
        slots,
        scratch.found.as_slice(),
        Difference {
            side: Side::Above,
            sign: Sign::Plus,
            weight,
        },
    );
    slots.set_totals(place, totals);
}
