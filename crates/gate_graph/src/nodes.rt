ghost use Rattle.std.specs.Prelude.{◌≡◌, ◌≤◌, ◌<◌, ◌+◌, ◌++◌, ◌∷◌, [], Some, None, false, ℕ, List, Contains, slice_set, sum_by, IfOk, OnOk, IfSome, IfNone, length, vec_len, is_some};
ghost use Rattle.std.specs.Option.{option_copied, option_map};
ghost use Rattle.std.specs.Vec.{vec_capacity};
ghost use Rattle.std.specs.List.Sorted.{IsPermutation};
ghost use Rattle.gate_graph.specs.Families.{among, children_of, has};
ghost use Rattle.std.specs.Str.{bytes_eq};
ghost use Rattle.gate_graph.specs.Family.{reaches, steps_of};
ghost use Rattle.gate_graph.specs.Holding.{without_below, without_one, node_of, nodes_in, load_in, names_in, loaded, spots_of, vacated, AreGone};
ghost use Rattle.gate_graph.specs.Ranks.{least_of};
ghost use Rattle.gate_graph.specs.Slots.{at, entries_of};
ghost use Rattle.gate_graph.specs.Weighing.{totals_of};

use crate::copy::{copy_each, scratch_for};
use crate::find::children;
use crate::held::{Gone, Held, Sums, Totals};
use crate::id::NodeId;
use crate::links::Links;
use crate::put::put_node;
use crate::slots::Slots;
use crate::take::{take_family, take_one};
use crate::walk::{Scratch, tidy};
use gate_bytes::{Copied, Memory};
use indexmap::IndexSet;
use std::alloc::Global;
use std::hash::BuildHasher;
use std::marker::Model;

/// Nodes in the order of adding, each with what it carries, and with the totals of its families. A node may name ids
/// that are no node's, and a chain of steps may lead back to its start.
#[derive(Drop)]
pub struct Nodes<T: Drop, S: BuildHasher + Copy + Drop> {
    slots: Slots<T, S>,
    links: Links<S>,
    scratch: Scratch,
    /// How many nodes there is room for.
    room: usize,
    /// How many parents these may name together.
    names: usize,
}

impl<T: Drop, S: BuildHasher + Copy + Drop> Model for Nodes<T, S> {
    ghost use Rattle.gate_graph.specs.Holding.{Carried, loaded};
    ghost use Rattle.gate_graph.specs.Keeping.{AreKept};

    ghost Value = { Carried T };

    ghost view = { λ g. record { nodes = loaded g.slots.held; places = g.slots.spots; room = g.room; names = g.names } };

    ghost invariant = { λ g. AreKept g.slots g.links g.scratch g.room g.names };
}

impl<T: Drop, S: BuildHasher + Copy + Drop> Nodes<T, S> {
    /// No nodes, in tables that hash by `hasher`.
    pub fn new(alloc: Global, hasher: S) -> Nodes<T, S>
        ensures nodes { result.nodes ≡ [] }
        ensures places { result.places ≡ [] }
    {
        Nodes {
            slots: Slots::new(alloc, hasher),
            links: Links::new(alloc, hasher),
            scratch: Scratch {
                marks: Vec::new(alloc),
                found: Vec::new(alloc),
                above: Vec::new(alloc),
            },
            room: 0,
            names: 0,
        }
    }

    pub fn count(&self) -> usize
        ensures { result ≡ length self.now.nodes }
    {
        self.slots.count()
    }

    pub fn contains(&self, id: &NodeId) -> bool
        ensures { result ≡ has (nodes_in self.now.nodes) id.now }
    {
        self.slots.contains(id)
    }

    /// The totals of a node's ancestors and of its descendants, each with the node itself, which are stored; none for
    /// an id that is no node's.
    pub fn totals(&self, id: &NodeId) -> Option<&Totals>
        ensures found { is_some result ≡ has (nodes_in self.now.nodes) id.now }
        ensures totals { IfSome result (λ totals. totals.now ≡ totals_of (nodes_in self.now.nodes) id.now) }
    {
        self.totals_near(id, &mut None)
    }

    /// The totals of a node, as `totals` finds them. If the node stands at the place `near`, this is no look-up. Where
    /// a parent of it may stand is written over `near`, for a walk up.
    pub fn totals_near(&self, id: &NodeId, near: &mut Option<usize>) -> Option<&Totals>
        ensures found { is_some result ≡ has (nodes_in self.now.nodes) id.now }
        ensures totals { IfSome result (λ totals. totals.now ≡ totals_of (nodes_in self.now.nodes) id.now) }
    {
        match self.slots.place_near(id, *near) {
            Some(place) => {
                *near = self.slots.near(place);
                Some(&self.slots.at(place).totals)
            }
            None => None,
        }
    }

    /// The sizes of all nodes, added up.
    pub fn size(&self) -> u128
        ensures { result ≡ sum_by (λ n. n.size) (nodes_in self.now.nodes) }
    {
        self.slots.size()
    }

    /// What a node carries; none for an id that is no node's.
    pub fn load(&self, id: &NodeId) -> Option<&T>
        ensures { option_copied result ≡ load_in self.now.nodes id.now }
    {
        self.load_near(id, &mut None)
    }

    /// What a node carries, as `load` finds it. If the node stands at the place `near`, this is no look-up. Where a
    /// parent of it may stand is written over `near`, for a walk up.
    pub fn load_near(&self, id: &NodeId, near: &mut Option<usize>) -> Option<&T>
        ensures { option_copied result ≡ load_in self.now.nodes id.now }
    {
        match self.slots.place_near(id, *near) {
            Some(place) => {
                *near = self.slots.near(place);
                Some(&self.slots.at(place).load)
            }
            None => None,
        }
    }

    /// The id of one of the nodes that name an id, whether a node has that id or not.
    pub fn child(&self, id: &NodeId) -> Option<&NodeId>
        ensures some { IfSome result (λ child. Contains (children_of (nodes_in self.now.nodes) id.now) child.now) }
        ensures none { IfNone result (children_of (nodes_in self.now.nodes) id.now ≡ []) }
    {
        let count = self.links.count(id);
        if count == 0 {
            None
        } else {
            Some(self.links.at(id, count - 1))
        }
    }

    /// The ids of the nodes that name an id, each once, whether a node has that id or not.
    pub fn children(&self, alloc: Global, id: &NodeId) -> Result<IndexSet<NodeId, S>, Memory>
        ensures { IfOk result (λ found. (other : List ℕ) → among found.keys other ≡ among (children_of (nodes_in self.now.nodes) id.now) other) }
    {
        children(alloc, &self.slots, &self.links, id)
    }

    /// Whether a node with the id `child` names an id, whether a node has that id or not. It is one look-up.
    pub fn is_child(&self, id: &NodeId, child: &NodeId) -> bool
        ensures { result ≡ among (children_of (nodes_in self.now.nodes) id.now) child.now }
    {
        self.links.has(id, child)
    }

    /// The nodes in the order of adding, with holes where some were taken out.
    pub fn as_slice(&self) -> &[Option<Held<T>>]
        ensures nodes { loaded (entries_of result.now) ≡ self.now.nodes }
        ensures places { spots_of result.now ≡ self.now.places }
    {
        self.slots.as_slice()
    }

    /// Where a node stands in `as_slice`, holes counted.
    pub fn place(&self, id: &NodeId) -> Option<usize>
        ensures sound { IfSome result (λ place. at self.now.places place ≡ Some id.now) }
        ensures whole { (place : ℕ) → at self.now.places place ≡ Some id.now → result ≡ Some place }
    {
        self.slots.place(id)
    }

    /// The node that ranks least, of equal ones the last. A node is ranked by its own fee over its size, or by the fees
    /// over the sizes of all that is below it, itself among them, whichever is greater: by `Held::rate` of what is lent.
    pub fn least(&self) -> Option<&Held<T>>
        ensures node { option_map (λ h. (node_of h, h.load)) (option_copied result) ≡ least_of self.now.nodes }
        ensures totals { IfSome result (λ h. h.now.totals ≡ totals_of (nodes_in self.now.nodes) h.now.id) }
    {
        self.slots.least()
    }

    /// Closes the holes if they are more than half of all places. It takes no memory, and gives up the room that was
    /// taken.
    pub fn tidy(&mut self)
        ensures { self.new.nodes ≡ self.old.nodes }
    {
        self.room = 0;
        self.names = 0;
        tidy(&mut self.slots, &mut self.scratch.marks);
    }

    /// Takes the memory to put this many nodes, which name this many parents together. If memory runs out, there is as
    /// much room as before.
    pub fn reserve(&mut self, nodes: usize, parents: usize) -> Result<(), Memory>
        ensures nodes { self.new.nodes ≡ self.old.nodes }
        ensures places { self.new.places ≡ self.old.places }
        ensures kept { self.old.room ≤ self.new.room }
        ensures names_kept { self.old.names ≤ self.new.names }
        ensures room { OnOk result (nodes ≤ self.new.room) }
        ensures names { OnOk result (parents ≤ self.new.names) }
    {
        let Some(places) = self.slots.count().checked_add(nodes) else {
            return Err(Memory);
        };
        self.scratch.reserve(nodes, places)?;
        self.links.reserve(parents)?;
        self.slots.reserve(nodes)?;
        self.room = self.room.max(nodes);
        self.names = self.names.max(parents);
        Ok(())
    }

    /// Puts a node at the end, below those that it names and above those that name it. It takes no memory, and uses up
    /// its own of the room that was taken. If nothing names the node, this takes a walk over its ancestors; else, if it
    /// names no node, one over its descendants; else, if all that is below it was below each of its parents before, a
    /// walk over both and one below each parent; else the totals of all its ancestors and descendants are found afresh.
    pub fn put(&mut self, id: NodeId, parents: Vec<NodeId>, size: u64, fee: u64, load: T)
        requires room { 0 < self.old.room }
        requires names { length parents.items ≤ self.old.names }
        requires new { has (nodes_in self.old.nodes) id ≡ false }
        ensures nodes { self.new.nodes ≡ self.old.nodes ++ (record { id = id; size = size; fee = fee; parents = parents.items }, load) ∷ [] }
        ensures places { self.new.places ≡ self.old.places ++ Some id ∷ [] }
        ensures room { self.new.room + 1 ≡ self.old.room }
        ensures names { self.new.names + length parents.items ≡ self.old.names }
    {
        self.room -= 1;
        self.names -= parents.len();
        let none = Sums {
            count: 0,
            size: 0,
            fees: 0,
        };
        let held = Held {
            id,
            size,
            fee,
            parents,
            totals: Totals {
                above: none,
                below: none,
            },
            load,
        };
        put_node(&mut self.slots, &mut self.links, &mut self.scratch, held);
    }

    /// Puts a node at a place that is a hole, as `put` puts one at the end, where it leaves a hole. It takes no memory,
    /// and uses up its own of the room that was taken.
    pub fn put_back(
        &mut self,
        place: usize,
        id: NodeId,
        parents: Vec<NodeId>,
        size: u64,
        fee: u64,
        load: T,
    )
        requires room { 0 < self.old.room }
        requires names { length parents.items ≤ self.old.names }
        requires new { has (nodes_in self.old.nodes) id ≡ false }
        requires hole { at self.old.places place ≡ None }
        requires within { place < length self.old.places }
        ensures nodes { IsPermutation (self.old.nodes ++ (record { id = id; size = size; fee = fee; parents = parents.items }, load) ∷ []) self.new.nodes }
        ensures places { self.new.places ≡ slice_set self.old.places place (Some id) ++ None ∷ [] }
        ensures room { self.new.room + 1 ≡ self.old.room }
        ensures names { self.new.names + length parents.items ≡ self.old.names }
    {
        let end = self.slots.len();
        self.put(id, parents, size, fee, load);
        self.slots.relocate(end, place);
    }

    /// Takes out the node of an id, if there is one, and all nodes below that id, and puts what they carry at the end
    /// of a list with room, each with the ids that it named and the place at which it stood. Their places are empty
    /// then, and the others stand where they stood. It takes no memory, and keeps the room that was taken.
    pub fn take_family(&mut self, id: &NodeId, gone: &mut Vec<Gone<T>>)
        requires { vec_len gone.old + length self.old.nodes ≤ vec_capacity gone.old }
        ensures room { self.new.room ≡ self.old.room }
        ensures names { self.new.names ≡ self.old.names }
        ensures left { self.new.nodes ≡ without_below self.old.nodes id.now }
        ensures places { self.new.places ≡ vacated (reaches (steps_of (nodes_in self.old.nodes)) id.now) self.old.places }
        ensures gone { AreGone self.old.nodes self.old.places id.now gone.old.items gone.new.items }
        ensures capacity { vec_capacity gone.new ≡ vec_capacity gone.old }
    {
        take_family(
            &mut self.slots,
            &mut self.links,
            &mut self.scratch,
            gone,
            id,
        );
    }

    /// Takes out a node alone, and returns what it carries, with the ids that it named and the place at which it stood,
    /// which is empty then: nodes that name it stay. It takes no memory, and keeps the room that was taken. If the node
    /// names no node, this takes a walk over its descendants; else the totals of all its ancestors and descendants are
    /// found afresh.
    pub fn take_one(&mut self, id: &NodeId) -> Option<Gone<T>>
        ensures left { self.new.nodes ≡ without_one self.old.nodes id.now }
        ensures places { self.new.places ≡ vacated (λ x. bytes_eq x id.now) self.old.places }
        ensures load { option_map (λ gone. gone.load) result ≡ load_in self.old.nodes id.now }
        ensures parents { option_map (λ gone. gone.parents.items) result ≡ names_in self.old.nodes id.now }
        ensures place { IfSome result (λ gone. at self.old.places gone.place ≡ Some id.now) }
        ensures room { self.new.room ≡ self.old.room }
        ensures names { self.new.names ≡ self.old.names }
    {
        take_one(&mut self.slots, &mut self.links, &mut self.scratch, id)
    }
}

impl<T: Drop, S: BuildHasher + Copy + Drop> Nodes<T, S> {
    /// A copy of the nodes, with what they carry. Their totals are copied, and the holes are left out.
    pub fn copy(&self, alloc: Global) -> Result<Nodes<T, S>, Memory>
    where
        T: Copied,
        ensures { IfOk result (λ copy. copy.nodes ≡ self.now.nodes) }
    {
        let _size = self.slots.size();
        let mut slots = Slots::new(alloc, self.slots.hasher());
        let mut links = Links::new(alloc, self.slots.hasher());
        copy_each(alloc, self.slots.as_slice(), &mut slots, &mut links)?;
        let scratch = scratch_for(alloc, slots.len(), slots.count())?;
        Ok(Nodes {
            slots,
            links,
            scratch,
            room: 0,
            names: 0,
        })
    }
}
