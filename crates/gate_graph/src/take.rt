//! Nodes taken out, alone or with all that is below them, without memory.
ghost use Rattle.std.specs.Prelude.{◌≡◌, ◌==◌, ◌≤◌, ◌<◌, ◌+◌, ◌++◌, ◌∷◌, [], IfSome, IsTrue, None, not, true, is_some, Some, ℕ, List, filter, length, slice_set, vec_len};
ghost use Rattle.std.specs.Vec.{vec_capacity};
ghost use Rattle.std.specs.Option.{option_map};
ghost use Rattle.std.specs.Str.{bytes_eq};
ghost use Rattle.gate_graph.specs.Family.{reaches, steps_of};
ghost use Rattle.gate_graph.specs.Families.{among, has, are_apart};
ghost use Rattle.std.specs.List.{list_all};
ghost use Rattle.gate_graph.specs.Holding.{has_id, id_at, ids_at, nodes_of, loaded, left_of, load_of, names_of, gone_from, all_gone, vacated, without_below, without_one, AreGone};
ghost use Rattle.gate_graph.specs.Slots.{at};
ghost use Rattle.gate_graph.specs.Keeping.{AreTables, IsAsRoomy};
ghost use Rattle.gate_graph.specs.Linking.{IsLinked, AreWithout};
ghost use Rattle.gate_graph.specs.Walking.{AreClear, AreStanding};
ghost use Rattle.gate_graph.specs.Weighing.{AreSmall, IsRoot, IsWeighed};

use crate::held::{Gone, Held, Weight};
use crate::id::NodeId;
use crate::links::Links;
use crate::refresh::refresh_each;
use crate::slots::Slots;
use crate::walk::{Heading, Scratch, Way, walk, walk_below};
use crate::weigh::{Difference, Side, Sign, change_all, lower_above_each};
use std::hash::BuildHasher;

/// Takes an id out of the list of each of these parents.
fn unlink<S: BuildHasher + Drop>(links: &mut Links<S>, parents: &[NodeId], child: &NodeId)
    ensures lists { AreWithout parents.now child.now links.old links.new }
    ensures room { links.new.room ≡ links.old.room }
{
    for parent in parents {
        links.remove(parent, child);
    }
}

/// Takes out a node, and returns what it carries, with its place. No totals change.
fn pull_one<T: Drop, S: BuildHasher + Drop>(
    slots: &mut Slots<T, S>,
    links: &mut Links<S>,
    place: usize,
) -> Gone<T>
    requires stands { is_some (at slots.old.spots place) ≡ true }
    requires apart { are_apart (nodes_of slots.old.held) ≡ true }
    requires linked { IsLinked (nodes_of slots.old.held) links.old }
    ensures gone { gone_from slots.old.spots slots.old.held place ≡ Some result }
    ensures left { slots.new.held ≡ filter (λ h. not (has_id h (id_at slots.old.spots place))) slots.old.held }
    ensures fewer { length slots.new.held < length slots.old.held }
    ensures linked { IsLinked (nodes_of slots.new.held) links.new }
    ensures spots { slots.new.spots ≡ slice_set slots.old.spots place None }
    ensures vacated { slots.new.spots ≡ vacated (λ x. bytes_eq x (id_at slots.old.spots place)) slots.old.spots }
    ensures slots_room { slots.new.room ≡ slots.old.room }
    ensures links_room { links.new.room ≡ links.old.room }
{
    let _len = slots.len();
    let held = slots.pull(place);
    let Held {
        id,
        parents,
        load,
        ..
    } = held;
    unlink(links, parents.as_slice(), &id);
    Gone {
        place,
        parents,
        load,
    }
}

/// Takes out each of these nodes, and puts what it carries at the end of a list with room, with its place. No totals
/// change.
fn pull_each<T: Drop, S: BuildHasher + Drop>(
    slots: &mut Slots<T, S>,
    links: &mut Links<S>,
    gone: &mut Vec<Gone<T>>,
    places: &[usize],
)
    requires room { vec_len gone.old + length slots.old.held ≤ vec_capacity gone.old }
    requires apart { are_apart (nodes_of slots.old.held) ≡ true }
    requires linked { IsLinked (nodes_of slots.old.held) links.old }
    requires standing { AreStanding slots.old.spots places.now }
    ensures left { slots.new.held ≡ left_of (ids_at slots.old.spots places.now) slots.old.held }
    ensures linked { IsLinked (nodes_of slots.new.held) links.new }
    ensures gone { gone.new.items ≡ gone.old.items ++ all_gone slots.old.spots slots.old.held places.now }
    ensures spots { slots.new.spots ≡ vacated (among (ids_at slots.old.spots places.now)) slots.old.spots }
    ensures slots_room { slots.new.room ≡ slots.old.room }
    ensures links_room { links.new.room ≡ links.old.room }
    ensures capacity { vec_capacity gone.new ≡ vec_capacity gone.old }
{
    for place in places {
        let one = pull_one(slots, links, *place);
        gone.push_reserved(one);
    }
}

/// Takes out the node of an id, if there is one, and all nodes below that id, and puts what they carry at the end of a
/// list with room, each with its place. The nodes that are left keep the totals of their families as these are now.
pub(crate) fn take_family<T: Drop, S: BuildHasher + Drop>(
    slots: &mut Slots<T, S>,
    links: &mut Links<S>,
    scratch: &mut Scratch,
    gone: &mut Vec<Gone<T>>,
    id: &NodeId,
)
    requires clear { AreClear (length slots.old.spots) scratch.old.marks.items }
    requires found { length slots.old.held ≤ vec_capacity scratch.old.found }
    requires above { length slots.old.held ≤ vec_capacity scratch.old.above }
    requires room { vec_len gone.old + length slots.old.held ≤ vec_capacity gone.old }
    requires apart { are_apart (nodes_of slots.old.held) ≡ true }
    requires linked { IsLinked (nodes_of slots.old.held) links.old }
    requires weighed { IsWeighed slots.old.held }
    requires small { AreSmall (nodes_of slots.old.held) }
    ensures left { loaded slots.new.held ≡ without_below (loaded slots.old.held) id.now }
    ensures apart { are_apart (nodes_of slots.new.held) ≡ true }
    ensures linked { IsLinked (nodes_of slots.new.held) links.new }
    ensures weighed { IsWeighed slots.new.held }
    ensures small { AreSmall (nodes_of slots.new.held) }
    ensures clear { AreClear (length slots.new.spots) scratch.new.marks.items }
    ensures marks { vec_capacity scratch.new.marks ≡ vec_capacity scratch.old.marks }
    ensures spots { slots.new.spots ≡ vacated (reaches (steps_of (nodes_of slots.old.held)) id.now) slots.old.spots }
    ensures found { vec_capacity scratch.new.found ≡ vec_capacity scratch.old.found }
    ensures above { vec_capacity scratch.new.above ≡ vec_capacity scratch.old.above }
    ensures slots_room { slots.new.room ≡ slots.old.room }
    ensures links_room { links.new.room ≡ links.old.room }
    ensures gone { AreGone (loaded slots.old.held) slots.old.spots id.now gone.old.items gone.new.items }
    ensures capacity { vec_capacity gone.new ≡ vec_capacity gone.old }
{
    let _len = slots.len();
    walk_below(slots, links, &mut scratch.marks, &mut scratch.found, id);
    lower_above_each(
        slots,
        links,
        &mut scratch.marks,
        &mut scratch.above,
        scratch.found.as_slice(),
    );
    pull_each(slots, links, gone, scratch.found.as_slice());
}

/// Takes a place out of a list.
fn leave_out(places: &mut Vec<usize>, place: usize)
    ensures left { places.new.items ≡ filter (λ p. not (p == place)) places.old.items }
    ensures capacity { vec_capacity places.new ≡ vec_capacity places.old }
{
    places.retain(|other| *other != place);
}

/// Takes out a node alone, and returns what it carries: nodes that name it stay. The totals of its ancestors and
/// descendants are found afresh, which is right wherever the steps lead.
fn take_alone<T: Drop, S: BuildHasher + Drop>(
    slots: &mut Slots<T, S>,
    links: &mut Links<S>,
    scratch: &mut Scratch,
    place: usize,
) -> Gone<T>
    requires tables { AreTables slots.old links.old scratch.old }
    requires weighed { IsWeighed slots.old.held }
    requires stands { is_some (at slots.old.spots place) ≡ true }
    ensures left { loaded slots.new.held ≡ without_one (loaded slots.old.held) (id_at slots.old.spots place) }
    ensures gone { gone_from slots.old.spots slots.old.held place ≡ Some result }
    ensures spots { slots.new.spots ≡ vacated (λ x. bytes_eq x (id_at slots.old.spots place)) slots.old.spots }
    ensures weighed { IsWeighed slots.new.held }
    ensures tables { AreTables slots.new links.new scratch.new }
    ensures room { IsAsRoomy slots.old slots.new scratch.old scratch.new }
    ensures links_room { links.new.room ≡ links.old.room }
{
    let id = slots.at(place).id;
    walk(
        slots,
        links,
        &mut scratch.marks,
        &mut scratch.above,
        Heading {
            place,
            way: Way::Up,
        },
    );
    let gone = pull_one(slots, links, place);
    leave_out(&mut scratch.above, place);
    refresh_each(
        slots,
        links,
        &mut scratch.marks,
        &mut scratch.found,
        scratch.above.as_slice(),
    );
    walk_below(slots, links, &mut scratch.marks, &mut scratch.above, &id);
    refresh_each(
        slots,
        links,
        &mut scratch.marks,
        &mut scratch.found,
        scratch.above.as_slice(),
    );
    gone
}

/// Takes out a node that names no node, alone, and returns what it carries: nodes that name it stay. It is subtracted
/// from the ancestor totals of each of its descendants.
fn take_root<T: Drop, S: BuildHasher + Drop>(
    slots: &mut Slots<T, S>,
    links: &mut Links<S>,
    scratch: &mut Scratch,
    place: usize,
) -> Gone<T>
    requires tables { AreTables slots.old links.old scratch.old }
    requires weighed { IsWeighed slots.old.held }
    requires stands { is_some (at slots.old.spots place) ≡ true }
    requires root { IsRoot (nodes_of slots.old.held) (id_at slots.old.spots place) }
    ensures left { loaded slots.new.held ≡ without_one (loaded slots.old.held) (id_at slots.old.spots place) }
    ensures gone { gone_from slots.old.spots slots.old.held place ≡ Some result }
    ensures spots { slots.new.spots ≡ vacated (λ x. bytes_eq x (id_at slots.old.spots place)) slots.old.spots }
    ensures weighed { IsWeighed slots.new.held }
    ensures tables { AreTables slots.new links.new scratch.new }
    ensures room { IsAsRoomy slots.old slots.new scratch.old scratch.new }
    ensures links_room { links.new.room ≡ links.old.room }
{
    let held = slots.at(place);
    let weight = Weight {
        size: held.size,
        fee: held.fee,
    };
    walk(
        slots,
        links,
        &mut scratch.marks,
        &mut scratch.found,
        Heading {
            place,
            way: Way::Down,
        },
    );
    change_all(
        slots,
        scratch.found.as_slice(),
        Difference {
            side: Side::Above,
            sign: Sign::Minus,
            weight,
        },
    );
    pull_one(slots, links, place)
}

/// Whether a node names no node.
pub(crate) fn is_root<T: Drop, S: BuildHasher + Drop>(slots: &Slots<T, S>, place: usize) -> bool
    requires apart { are_apart (nodes_of slots.now.held) ≡ true }
    requires stands { is_some (at slots.now.spots place) ≡ true }
    ensures { IsTrue result → IsRoot (nodes_of slots.now.held) (id_at slots.now.spots place) }
{
    names_none(slots, slots.at(place).parents.as_slice())
}

fn names_none<T: Drop, S: BuildHasher + Drop>(slots: &Slots<T, S>, ids: &[NodeId]) -> bool
    ensures { result ≡ list_all (λ id. not (has (nodes_of slots.now.held) id)) ids.now }
{
    ids.iter().all(|id| !slots.contains(id))
}

/// Takes out a node alone, and returns what it carries. Totals change by differences if the node names no node, and else
/// are found afresh.
fn take_standing<T: Drop, S: BuildHasher + Drop>(
    slots: &mut Slots<T, S>,
    links: &mut Links<S>,
    scratch: &mut Scratch,
    place: usize,
) -> Gone<T>
    requires tables { AreTables slots.old links.old scratch.old }
    requires weighed { IsWeighed slots.old.held }
    requires stands { is_some (at slots.old.spots place) ≡ true }
    ensures left { loaded slots.new.held ≡ without_one (loaded slots.old.held) (id_at slots.old.spots place) }
    ensures gone { gone_from slots.old.spots slots.old.held place ≡ Some result }
    ensures spots { slots.new.spots ≡ vacated (λ x. bytes_eq x (id_at slots.old.spots place)) slots.old.spots }
    ensures weighed { IsWeighed slots.new.held }
    ensures tables { AreTables slots.new links.new scratch.new }
    ensures room { IsAsRoomy slots.old slots.new scratch.old scratch.new }
    ensures links_room { links.new.room ≡ links.old.room }
{
    if is_root(slots, place) {
        take_root(slots, links, scratch, place)
    } else {
        take_alone(slots, links, scratch, place)
    }
}

/// Takes out a node alone, and returns what it carries, with its place; none for an id that is no node's.
pub(crate) fn take_one<T: Drop, S: BuildHasher + Drop>(
    slots: &mut Slots<T, S>,
    links: &mut Links<S>,
    scratch: &mut Scratch,
    id: &NodeId,
) -> Option<Gone<T>>
    requires tables { AreTables slots.old links.old scratch.old }
    requires weighed { IsWeighed slots.old.held }
    ensures left { loaded slots.new.held ≡ without_one (loaded slots.old.held) id.now }
    ensures parents { option_map (λ gone. gone.parents.items) result ≡ names_of slots.old.held id.now }
    ensures load { option_map (λ gone. gone.load) result ≡ load_of slots.old.held id.now }
    ensures place { IfSome result (λ gone. at slots.old.spots gone.place ≡ Some id.now) }
    ensures spots { slots.new.spots ≡ vacated (λ x. bytes_eq x id.now) slots.old.spots }
    ensures weighed { IsWeighed slots.new.held }
    ensures tables { AreTables slots.new links.new scratch.new }
    ensures room { IsAsRoomy slots.old slots.new scratch.old scratch.new }
    ensures links_room { links.new.room ≡ links.old.room }
{
    let _len = slots.len();
    match slots.place(id) {
        Some(place) => Some(take_standing(slots, links, scratch, place)),
        None => None,
    }
}
