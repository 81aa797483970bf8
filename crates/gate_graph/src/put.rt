//! Nodes put below those that they name and above those that name them.
ghost use Rattle.std.specs.Prelude.{◌≡◌, ◌≤◌, ◌<◌, ◌^◌, ◌+◌, ◌++◌, ◌∷◌, [], Some, true, false, is_some, length};
ghost use Rattle.std.specs.Vec.{vec_capacity};
ghost use Rattle.gate_graph.specs.Families.{has};
ghost use Rattle.gate_graph.specs.Holding.{id_at, nodes_of, loaded};
ghost use Rattle.gate_graph.specs.Slots.{at};
ghost use Rattle.gate_graph.specs.Keeping.{AreTables, IsAsRoomy};
ghost use Rattle.gate_graph.specs.Linking.{AreWith};
ghost use Rattle.gate_graph.specs.Weighing.{IsLeafLast, IsNewLast, IsRoot, IsWeighed};

use crate::held::{Held, Sums, Totals, Weight};
use crate::id::NodeId;
use crate::links::Links;
use crate::merge::{adds_no_chain, settle_between};
use crate::refresh::refresh_around;
use crate::slots::Slots;
use crate::take::is_root;
use crate::walk::{Heading, Scratch, Way, walk};
use crate::weigh::{Difference, Side, Sign, change_all, weigh};
use std::hash::BuildHasher;

/// Puts an id at the end of the list of each of these parents, for which there is room: once in each list, however often
/// a parent is named.
pub(crate) fn link<S: BuildHasher + Drop>(links: &mut Links<S>, parents: &[NodeId], child: &NodeId)
    requires { length parents.now ≤ links.old.room }
    ensures lists { AreWith parents.now child.now links.old links.new }
    ensures room { links.old.room ≤ links.new.room + length parents.now }
{
    for parent in parents {
        links.put(parent, child);
    }
}

/// Has a parent of a node be looked for first where a walk up from the node found one.
fn keep_near<T: Drop, S: BuildHasher + Drop>(slots: &mut Slots<T, S>, place: usize, above: &[usize])
    ensures { slots.new ≡ slots.old }
{
    // The walk found the node itself first.
    if let Some(near) = above.get(1) {
        slots.set_near(place, *near);
    }
}

/// Gives the last node, which nothing names, its totals, and adds it to the descendant totals of each node above it.
pub(crate) fn settle<T: Drop, S: BuildHasher + Drop>(
    slots: &mut Slots<T, S>,
    links: &Links<S>,
    scratch: &mut Scratch,
    place: usize,
    weight: Weight,
)
    requires tables { AreTables slots.old links.now scratch.old }
    requires stands { is_some (at slots.old.spots place) ≡ true }
    requires last { IsLeafLast slots.old.held (id_at slots.old.spots place) weight.size weight.fee }
    ensures loaded { loaded slots.new.held ≡ loaded slots.old.held }
    ensures spots { slots.new.spots ≡ slots.old.spots }
    ensures weighed { IsWeighed slots.new.held }
    ensures tables { AreTables slots.new links.now scratch.new }
    ensures room { IsAsRoomy slots.old slots.new scratch.old scratch.new }
{
    let _count = slots.count();
    walk(
        slots,
        links,
        &mut scratch.marks,
        &mut scratch.above,
        Heading {
            place,
            way: Way::Up,
        },
    );
    let sums = weigh(slots, scratch.above.as_slice());
    change_all(
        slots,
        scratch.above.as_slice(),
        Difference {
            side: Side::Below,
            sign: Sign::Plus,
            weight,
        },
    );
    let totals = Totals {
        above: sums,
        below: Sums {
            count: 1,
            size: u128::from(weight.size),
            fees: u128::from(weight.fee),
        },
    };
    slots.set_totals(place, totals);
    keep_near(slots, place, scratch.above.as_slice());
}

/// Gives the last node, which names no node, its totals, and adds it to the ancestor totals of each node below it.
fn settle_root<T: Drop, S: BuildHasher + Drop>(
    slots: &mut Slots<T, S>,
    links: &Links<S>,
    scratch: &mut Scratch,
    place: usize,
)
    requires tables { AreTables slots.old links.now scratch.old }
    requires stands { is_some (at slots.old.spots place) ≡ true }
    requires last { IsNewLast slots.old.held (id_at slots.old.spots place) }
    requires root { IsRoot (nodes_of slots.old.held) (id_at slots.old.spots place) }
    ensures loaded { loaded slots.new.held ≡ loaded slots.old.held }
    ensures spots { slots.new.spots ≡ slots.old.spots }
    ensures weighed { IsWeighed slots.new.held }
    ensures tables { AreTables slots.new links.now scratch.new }
    ensures room { IsAsRoomy slots.old slots.new scratch.old scratch.new }
{
    let _count = slots.count();
    let held = slots.at(place);
    let weight = Weight {
        size: held.size,
        fee: held.fee,
    };
    walk(
        slots,
        links,
        &mut scratch.marks,
        &mut scratch.found,
        Heading {
            place,
            way: Way::Down,
        },
    );
    let sums = weigh(slots, scratch.found.as_slice());
    // The walk finds the node too, so that it is added to its own ancestor totals.
    let totals = Totals {
        above: Sums {
            count: 0,
            size: 0,
            fees: 0,
        },
        below: sums,
    };
    slots.set_totals(place, totals);
    change_all(
        slots,
        scratch.found.as_slice(),
        Difference {
            side: Side::Above,
            sign: Sign::Plus,
            weight,
        },
    );
}

/// Gives the last node, which other nodes name, its totals, and changes those of its ancestors and descendants: by
/// differences if it names no node or adds no chain between others, else by finding them afresh.
fn settle_named<T: Drop, S: BuildHasher + Drop>(
    slots: &mut Slots<T, S>,
    links: &Links<S>,
    scratch: &mut Scratch,
    place: usize,
)
    requires tables { AreTables slots.old links.now scratch.old }
    requires stands { is_some (at slots.old.spots place) ≡ true }
    requires last { IsNewLast slots.old.held (id_at slots.old.spots place) }
    ensures loaded { loaded slots.new.held ≡ loaded slots.old.held }
    ensures spots { slots.new.spots ≡ slots.old.spots }
    ensures weighed { IsWeighed slots.new.held }
    ensures tables { AreTables slots.new links.now scratch.new }
    ensures room { IsAsRoomy slots.old slots.new scratch.old scratch.new }
{
    if is_root(slots, place) {
        settle_root(slots, links, scratch, place);
    } else if adds_no_chain(slots, links, scratch, place) {
        settle_between(slots, links, scratch, place);
    } else {
        refresh_around(slots, links, scratch, place);
    }
}

/// Puts a node below those that it names and above those that name it, for which there is room. The totals of its
/// ancestors and descendants change by differences if nothing names it, it names no node or it adds no chain between
/// others, and else are found afresh. It takes no memory.
pub(crate) fn put_node<T: Drop, S: BuildHasher + Drop>(
    slots: &mut Slots<T, S>,
    links: &mut Links<S>,
    scratch: &mut Scratch,
    held: Held<T>,
)
    requires slot { 0 < slots.old.room }
    requires lists { length held.parents.items ≤ links.old.room }
    requires marks { length slots.old.spots < vec_capacity scratch.old.marks }
    requires found { length slots.old.held + 1 ≤ vec_capacity scratch.old.found }
    requires above { length slots.old.held + 1 ≤ vec_capacity scratch.old.above }
    requires tables { AreTables slots.old links.old scratch.old }
    requires weighed { IsWeighed slots.old.held }
    requires new { has (nodes_of slots.old.held) held.id ≡ false }
    requires sized { held.size < 2 ^ 64 }
    requires paid { held.fee < 2 ^ 64 }
    requires empty { held.totals.below ≡ record { count = 0; size = 0; fees = 0 } }
    ensures loaded { loaded slots.new.held ≡ loaded (slots.old.held ++ held ∷ []) }
    ensures spots { slots.new.spots ≡ slots.old.spots ++ Some held.id ∷ [] }
    ensures weighed { IsWeighed slots.new.held }
    ensures tables { AreTables slots.new links.new scratch.new }
    ensures slots_room { slots.new.room + 1 ≡ slots.old.room }
    ensures links_room { links.old.room ≤ links.new.room + length held.parents.items }
    ensures marks_room { vec_capacity scratch.new.marks ≡ vec_capacity scratch.old.marks }
    ensures found_room { vec_capacity scratch.new.found ≡ vec_capacity scratch.old.found }
    ensures above_room { vec_capacity scratch.new.above ≡ vec_capacity scratch.old.above }
{
    let _count = slots.count();
    let id = held.id;
    let weight = Weight {
        size: held.size,
        fee: held.fee,
    };
    let place = slots.put(held);
    scratch.marks.push_reserved(false);
    let parents = slots.at(place).parents.as_slice();
    link(links, parents, &id);
    if links.count(&id) == 0 {
        settle(slots, links, scratch, place, weight);
    } else {
        settle_named(slots, links, scratch, place);
    }
}
