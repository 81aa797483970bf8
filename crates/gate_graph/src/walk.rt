//! Walks from a node, to all nodes that a chain of steps leads to, in room that was taken beforehand. They find places
//! of slots; each slot has a mark, which is set where a walk has been, and none is set between walks.
ghost use Rattle.std.specs.Prelude.{◌≡◌, ◌≤◌, ◌<◌, ◌+◌, ◌||◌, ◌&&◌, ◌∷◌, [], ℕ, List, true, false, is_some, length, get_or, Contains, OnOk};
ghost use Rattle.std.specs.Vec.{vec_capacity};
ghost use Rattle.gate_graph.specs.Families.{has, are_apart};
ghost use Rattle.gate_graph.specs.Slots.{at};
ghost use Rattle.gate_graph.specs.Holding.{id_at, ids_at, nodes_of};
ghost use Rattle.gate_graph.specs.Linking.{IsLinked, listing};
ghost use Rattle.gate_graph.specs.Walking.{AreClear, AreFound, AreFoundAt, AreLed, AreLedOn, AreStanding, IsSearch, Next, IsNode, IsOneOf};
ghost use Rattle.gate_graph.specs.declared.walk.Way.TheVariants.{Down as DownWay};

use crate::id::NodeId;
use crate::links::Links;
use crate::slots::Slots;
use gate_bytes::Memory;
use std::hash::BuildHasher;

/// Which way a walk goes: to parents or to children.
#[derive(Clone, Copy)]
pub(crate) enum Way {
    Up,
    Down,
}

/// A place, and which way a walk goes on from it.
#[derive(Clone, Copy)]
pub(crate) struct Heading {
    pub(crate) place: usize,
    pub(crate) way: Way,
}

/// What walks write into. It is kept between them, so that no walk takes memory.
#[derive(Drop)]
pub(crate) struct Scratch {
    /// A mark for each slot, set where a walk has been; none is set between walks.
    pub(crate) marks: Vec<bool>,
    /// Room for the places of a family.
    pub(crate) found: Vec<usize>,
    /// Room for the places of what is above a node.
    pub(crate) above: Vec<usize>,
}

impl Scratch {
    /// Takes the memory for the marks of this many more slots, and for this many places in each list.
    pub(crate) fn reserve(&mut self, slots: usize, places: usize) -> Result<(), Memory>
        ensures marks { self.new.marks.items ≡ self.old.marks.items }
        ensures found { vec_capacity self.old.found ≤ vec_capacity self.new.found }
        ensures above { vec_capacity self.old.above ≤ vec_capacity self.new.above }
        ensures kept { vec_capacity self.old.marks ≤ vec_capacity self.new.marks }
        ensures mark { OnOk result (length self.old.marks.items + slots ≤ vec_capacity self.new.marks) }
        ensures found_room { OnOk result (places ≤ vec_capacity self.new.found) }
        ensures above_room { OnOk result (places ≤ vec_capacity self.new.above) }
    {
        self.marks.reserve(slots)?;
        self.found.reserve(places)?;
        self.above.reserve(places)?;
        Ok(())
    }
}

/// Adds the place of an id, unless it is no node's or was found before. It is looked for at the place `near` first.
fn add<T: Drop, S: BuildHasher + Drop>(
    slots: &Slots<T, S>,
    marks: &mut Vec<bool>,
    found: &mut Vec<usize>,
    id: &NodeId,
    near: Option<usize>,
)
    requires room { length slots.now.held ≤ vec_capacity found.old }
    requires search { IsSearch (nodes_of slots.now.held) slots.now.spots marks.old.items found.old.items }
    ensures search { IsSearch (nodes_of slots.now.held) slots.now.spots marks.new.items found.new.items }
    ensures found { AreFound (IsNode (nodes_of slots.now.held) id.now) (ids_at slots.now.spots found.old.items) (ids_at slots.now.spots found.new.items) }
    ensures capacity { vec_capacity found.new ≡ vec_capacity found.old }
    ensures marks { vec_capacity marks.new ≡ vec_capacity marks.old }
{
    match slots.place_near(id, near) {
        Some(place) => {
            if !marks[place] {
                marks[place] = true;
                found.push_reserved(place);
            }
        }
        None => {}
    }
}

/// Adds the place of each of these ids, unless it is no node's or was found before. Each is looked for at the place `near`
/// first.
fn add_each<T: Drop, S: BuildHasher + Drop>(
    slots: &Slots<T, S>,
    marks: &mut Vec<bool>,
    found: &mut Vec<usize>,
    ids: &[NodeId],
    near: Option<usize>,
)
    requires room { length slots.now.held ≤ vec_capacity found.old }
    requires search { IsSearch (nodes_of slots.now.held) slots.now.spots marks.old.items found.old.items }
    ensures search { IsSearch (nodes_of slots.now.held) slots.now.spots marks.new.items found.new.items }
    ensures found { AreFound (IsOneOf (nodes_of slots.now.held) ids.now) (ids_at slots.now.spots found.old.items) (ids_at slots.now.spots found.new.items) }
    ensures capacity { vec_capacity found.new ≡ vec_capacity found.old }
    ensures marks { vec_capacity marks.new ≡ vec_capacity marks.old }
{
    for id in ids {
        add(slots, marks, found, id, near);
    }
}

/// Adds the place of each id in the list of another, its children, unless it is no node's or was found before.
fn add_listed<T: Drop, S: BuildHasher + Drop>(
    slots: &Slots<T, S>,
    links: &Links<S>,
    marks: &mut Vec<bool>,
    found: &mut Vec<usize>,
    id: &NodeId,
)
    requires room { length slots.now.held ≤ vec_capacity found.old }
    requires search { IsSearch (nodes_of slots.now.held) slots.now.spots marks.old.items found.old.items }
    ensures search { IsSearch (nodes_of slots.now.held) slots.now.spots marks.new.items found.new.items }
    ensures found { AreFoundAt slots.now.spots (IsOneOf (nodes_of slots.now.held) (listing links.now id.now)) found.old.items found.new.items }
    ensures capacity { vec_capacity found.new ≡ vec_capacity found.old }
    ensures marks { vec_capacity marks.new ≡ vec_capacity marks.old }
{
    for number in 0..links.count(id) {
        let child = links.at(id, number);
        add(slots, marks, found, child, None);
    }
}

/// Adds the places of the nodes that are one step from the node at a place, its parents or its children, unless they
/// were found before.
fn open<T: Drop, S: BuildHasher + Drop>(
    slots: &Slots<T, S>,
    links: &Links<S>,
    marks: &mut Vec<bool>,
    found: &mut Vec<usize>,
    heading: Heading,
)
    requires room { length slots.now.held ≤ vec_capacity found.old }
    requires search { IsSearch (nodes_of slots.now.held) slots.now.spots marks.old.items found.old.items }
    requires apart { are_apart (nodes_of slots.now.held) ≡ true }
    requires linked { IsLinked (nodes_of slots.now.held) links.now }
    requires stands { is_some (at slots.now.spots heading.place) ≡ true }
    ensures search { IsSearch (nodes_of slots.now.held) slots.now.spots marks.new.items found.new.items }
    ensures found { AreFoundAt slots.now.spots (Next heading.way (nodes_of slots.now.held) (id_at slots.now.spots heading.place)) found.old.items found.new.items }
    ensures capacity { vec_capacity found.new ≡ vec_capacity found.old }
    ensures marks { vec_capacity marks.new ≡ vec_capacity marks.old }
{
    let held = slots.at(heading.place);
    match heading.way {
        Way::Up => add_each(
            slots,
            marks,
            found,
            held.parents.as_slice(),
            slots.near(heading.place),
        ),
        Way::Down => add_listed(slots, links, marks, found, &held.id),
    }
}

/// Clears the marks at these places.
fn unmark(marks: &mut Vec<bool>, found: &[usize])
    requires { (p : ℕ) → Contains found.now p → p < length marks.old.items }
    ensures len { length marks.new.items ≡ length marks.old.items }
    ensures clear { ((p : ℕ) → get_or marks.old.items p false ≡ true → Contains found.now p) → (p : ℕ) → get_or marks.new.items p false ≡ false }
    ensures capacity { vec_capacity marks.new ≡ vec_capacity marks.old }
{
    for place in found {
        marks[*place] = false;
    }
}

/// Goes on with a walk that has begun, to its end.
fn follow<T: Drop, S: BuildHasher + Drop>(
    slots: &Slots<T, S>,
    links: &Links<S>,
    marks: &mut Vec<bool>,
    found: &mut Vec<usize>,
    way: Way,
)
    requires room { length slots.now.held ≤ vec_capacity found.old }
    requires search { IsSearch (nodes_of slots.now.held) slots.now.spots marks.old.items found.old.items }
    requires apart { are_apart (nodes_of slots.now.held) ≡ true }
    requires linked { IsLinked (nodes_of slots.now.held) links.now }
    ensures led { AreLedOn way (nodes_of slots.now.held) slots.now.spots found.old.items found.new.items }
    ensures standing { AreStanding slots.now.spots found.new.items }
    ensures clear { AreClear (length slots.now.spots) marks.new.items }
    ensures capacity { vec_capacity found.new ≡ vec_capacity found.old }
    ensures marks { vec_capacity marks.new ≡ vec_capacity marks.old }
{
    let mut number = 0;
    while number < found.len() {
        let place = found[number];
        open(slots, links, marks, found, Heading { place, way });
        number += 1;
    }
    unmark(marks, found.as_slice());
}

/// The place of a node, and the places of all nodes to which a chain leads this way from it, each once.
pub(crate) fn walk<T: Drop, S: BuildHasher + Drop>(
    slots: &Slots<T, S>,
    links: &Links<S>,
    marks: &mut Vec<bool>,
    found: &mut Vec<usize>,
    heading: Heading,
)
    requires room { length slots.now.held ≤ vec_capacity found.old }
    requires apart { are_apart (nodes_of slots.now.held) ≡ true }
    requires linked { IsLinked (nodes_of slots.now.held) links.now }
    requires stands { is_some (at slots.now.spots heading.place) ≡ true }
    requires clear { AreClear (length slots.now.spots) marks.old.items }
    ensures led { AreLed heading.way (nodes_of slots.now.held) slots.now.spots (id_at slots.now.spots heading.place) found.new.items }
    ensures standing { AreStanding slots.now.spots found.new.items }
    ensures clear { AreClear (length slots.now.spots) marks.new.items }
    ensures capacity { vec_capacity found.new ≡ vec_capacity found.old }
    ensures marks { vec_capacity marks.new ≡ vec_capacity marks.old }
{
    let _held = slots.at(heading.place);
    found.clear();
    found.push_reserved(heading.place);
    marks[heading.place] = true;
    follow(slots, links, marks, found, heading.way);
}

/// The places of all nodes below an id that no node has, each once.
fn walk_named<T: Drop, S: BuildHasher + Drop>(
    slots: &Slots<T, S>,
    links: &Links<S>,
    marks: &mut Vec<bool>,
    found: &mut Vec<usize>,
    id: &NodeId,
)
    requires room { length slots.now.held ≤ vec_capacity found.old }
    requires apart { are_apart (nodes_of slots.now.held) ≡ true }
    requires linked { IsLinked (nodes_of slots.now.held) links.now }
    requires clear { AreClear (length slots.now.spots) marks.old.items }
    requires none { has (nodes_of slots.now.held) id.now ≡ false }
    ensures led { AreLed DownWay (nodes_of slots.now.held) slots.now.spots id.now found.new.items }
    ensures standing { AreStanding slots.now.spots found.new.items }
    ensures clear { AreClear (length slots.now.spots) marks.new.items }
    ensures capacity { vec_capacity found.new ≡ vec_capacity found.old }
    ensures marks { vec_capacity marks.new ≡ vec_capacity marks.old }
{
    found.clear();
    add_listed(slots, links, marks, found, id);
    follow(slots, links, marks, found, Way::Down);
}

/// The places of all nodes below an id, its own among them if a node has it, each once.
pub(crate) fn walk_below<T: Drop, S: BuildHasher + Drop>(
    slots: &Slots<T, S>,
    links: &Links<S>,
    marks: &mut Vec<bool>,
    found: &mut Vec<usize>,
    id: &NodeId,
)
    requires room { length slots.now.held ≤ vec_capacity found.old }
    requires apart { are_apart (nodes_of slots.now.held) ≡ true }
    requires linked { IsLinked (nodes_of slots.now.held) links.now }
    requires clear { AreClear (length slots.now.spots) marks.old.items }
    ensures led { AreLed DownWay (nodes_of slots.now.held) slots.now.spots id.now found.new.items }
    ensures standing { AreStanding slots.now.spots found.new.items }
    ensures clear { AreClear (length slots.now.spots) marks.new.items }
    ensures capacity { vec_capacity found.new ≡ vec_capacity found.old }
    ensures marks { vec_capacity marks.new ≡ vec_capacity marks.old }
{
    match slots.place(id) {
        Some(place) => walk(
            slots,
            links,
            marks,
            found,
            Heading {
                place,
                way: Way::Down,
            },
        ),
        None => walk_named(slots, links, marks, found, id),
    }
}

/// Closes the holes if they are more than half of the slots, and drops as many marks.
pub(crate) fn tidy<T: Drop, S: BuildHasher + Drop>(slots: &mut Slots<T, S>, marks: &mut Vec<bool>)
    requires { AreClear (length slots.old.spots) marks.old.items }
    ensures held { slots.new.held ≡ slots.old.held }
    ensures clear { AreClear (length slots.new.spots) marks.new.items }
{
    if slots.len() / 2 <= slots.count() {
        return;
    }
    slots.close_up();
    marks.truncate(slots.len());
}
