//! Children, listed in memory of their own.
ghost use Rattle.std.specs.Prelude.{◌≡◌, ℕ, List, OnOk, IfOk};
ghost use Rattle.std.specs.Str.{bytes_eq};
ghost use Rattle.indexmap.specs.IndexSet.{insert_all};
ghost use Rattle.gate_graph.specs.Families.{among, children_of};
ghost use Rattle.gate_graph.specs.Holding.{nodes_of};
ghost use Rattle.gate_graph.specs.Linking.{IsLinked, listing};

use crate::id::NodeId;
use crate::links::Links;
use crate::slots::Slots;
use gate_bytes::Memory;
use indexmap::IndexSet;
use std::alloc::Global;
use std::hash::BuildHasher;

/// Adds the ids in the list of an id, which are its children, to those that were found, unless they are there already.
fn insert_listed<S: BuildHasher + Drop>(
    found: &mut IndexSet<NodeId, S>,
    links: &Links<S>,
    id: &NodeId,
) -> Result<(), Memory>
    ensures { OnOk result (found.new.keys ≡ insert_all bytes_eq found.old.keys (listing links.now id.now)) }
{
    for number in 0..links.count(id) {
        let child = links.at(id, number);
        found.insert(*child)?;
    }
    Ok(())
}

/// The ids of the nodes that name an id, each once.
pub(crate) fn children<T: Drop, S: BuildHasher + Copy + Drop>(
    alloc: Global,
    slots: &Slots<T, S>,
    links: &Links<S>,
    id: &NodeId,
) -> Result<IndexSet<NodeId, S>, Memory>
    requires linked { IsLinked (nodes_of slots.now.held) links.now }
    ensures { IfOk result (λ found. (other : List ℕ) → among found.keys other ≡ among (children_of (nodes_of slots.now.held) id.now) other) }
{
    let mut found = IndexSet::with_hasher(alloc, slots.hasher());
    insert_listed(&mut found, links, id)?;
    Ok(found)
}
