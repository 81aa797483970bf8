//! Copies of nodes, in memory of their own.
ghost use Rattle.std.specs.Prelude.{◌≡◌, ◌<◌, ◌+◌, ◌^◌, ◌++◌, ◌∷◌, [], Some, false, true, sum_by, OnOk, IfOk};
ghost use Rattle.gate_graph.specs.declared.held.Held.{Held as Kept};
ghost use Rattle.gate_graph.specs.Families.{are_apart, has};
ghost use Rattle.gate_graph.specs.Holding.{nodes_of, seen, seen_of};
ghost use Rattle.gate_graph.specs.Keeping.{IsScratchFor};
ghost use Rattle.gate_graph.specs.Linking.{IsLinked};
ghost use Rattle.gate_graph.specs.Slots.{entries_of};
ghost use Rattle.gate_graph.specs.Walking.{AreClear};

use crate::held::Held;
use crate::links::Links;
use crate::put::link;
use crate::slots::Slots;
use crate::walk::Scratch;
use gate_bytes::{Copied, Memory};
use std::alloc::Global;
use std::hash::BuildHasher;

/// Puts a copy of a node at the end, with its totals as they are.
fn put_copy<T: Copied, S: BuildHasher + Copy + Drop>(
    alloc: Global,
    held: &Held<T>,
    slots: &mut Slots<T, S>,
    links: &mut Links<S>,
) -> Result<(), Memory>
    requires new { has (nodes_of slots.old.held) held.now.id ≡ false }
    requires fits { sum_by (λ n. n.size) (nodes_of slots.old.held) + held.now.size < 2 ^ 128 }
    requires linked { IsLinked (nodes_of slots.old.held) links.old }
    ensures copied { OnOk result (seen_of slots.new.held ≡ seen_of slots.old.held ++ seen held.now ∷ []) }
    ensures linked { OnOk result (IsLinked (nodes_of slots.new.held) links.new) }
{
    let parents = Vec::from_slice(alloc, held.parents.as_slice())?;
    let load = held.load.copy(alloc)?;
    slots.reserve(1)?;
    links.reserve(parents.len())?;
    link(links, parents.as_slice(), &held.id);
    let _place = slots.put(Held {
        id: held.id,
        size: held.size,
        fee: held.fee,
        parents,
        totals: held.totals,
        load,
    });
    Ok(())
}

/// Puts a copy of the node in a slot at the end, with its totals as they are; nothing for a hole.
fn copy_slot<T: Copied, S: BuildHasher + Copy + Drop>(
    alloc: Global,
    slot: &Option<Held<T>>,
    slots: &mut Slots<T, S>,
    links: &mut Links<S>,
) -> Result<(), Memory>
    requires new { (h : Kept T) → slot.now ≡ Some h → has (nodes_of slots.old.held) h.id ≡ false }
    requires fits { (h : Kept T) → slot.now ≡ Some h → sum_by (λ n. n.size) (nodes_of slots.old.held) + h.size < 2 ^ 128 }
    requires linked { IsLinked (nodes_of slots.old.held) links.old }
    ensures copied { OnOk result (seen_of slots.new.held ≡ seen_of slots.old.held ++ seen_of (entries_of (slot.now ∷ []))) }
    ensures linked { OnOk result (IsLinked (nodes_of slots.new.held) links.new) }
{
    match slot {
        Some(held) => put_copy(alloc, held, slots, links),
        None => Ok(()),
    }
}

/// Puts copies of the nodes in all slots at the end, in their order, without the holes.
pub(crate) fn copy_each<T: Copied, S: BuildHasher + Copy + Drop>(
    alloc: Global,
    from: &[Option<Held<T>>],
    slots: &mut Slots<T, S>,
    links: &mut Links<S>,
) -> Result<(), Memory>
    requires apart { are_apart (nodes_of (entries_of from.now)) ≡ true }
    requires fits { sum_by (λ n. n.size) (nodes_of (entries_of from.now)) < 2 ^ 128 }
    requires empty { slots.old.held ≡ [] }
    requires linked { IsLinked (nodes_of slots.old.held) links.old }
    ensures copied { OnOk result (seen_of slots.new.held ≡ seen_of (entries_of from.now)) }
    ensures linked { OnOk result (IsLinked (nodes_of slots.new.held) links.new) }
{
    for slot in from {
        copy_slot(alloc, slot, slots, links)?;
    }
    Ok(())
}

/// A list of `count` marks, none of which is set.
fn clear_marks(alloc: Global, count: usize) -> Result<Vec<bool>, Memory>
    ensures { IfOk result (λ marks. AreClear count marks.items) }
{
    let mut marks = Vec::with_capacity(alloc, count)?;
    for _slot in 0..count {
        marks.push(false)?;
    }
    Ok(marks)
}

/// What walks write into, over `slots` slots of which `count` hold a node.
pub(crate) fn scratch_for(alloc: Global, slots: usize, count: usize) -> Result<Scratch, Memory>
    ensures { IfOk result (λ scratch. IsScratchFor slots count scratch) }
{
    let found = Vec::with_capacity(alloc, count)?;
    let above = Vec::with_capacity(alloc, count)?;
    Ok(Scratch {
        found,
        above,
        marks: clear_marks(alloc, slots)?,
    })
}
