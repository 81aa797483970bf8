//! What a table keeps for an id.
ghost use Rattle.std.specs.Prelude.{◌≡◌, ℕ, List, cond, Some, IsSome};
ghost use Rattle.std.specs.Str.{bytes_eq};
ghost use Rattle.indexmap.specs.IndexMap.{get, spare, index_map_len};

use crate::id::NodeId;
use indexmap::IndexMap;
use std::hash::BuildHasher;

/// Overwrites what is kept for an id that has something already. It uses up no room.
pub(crate) fn overwrite<V: Copy, S: BuildHasher>(
    table: &mut IndexMap<NodeId, V, S>,
    id: &NodeId,
    value: V,
)
    requires { IsSome (get bytes_eq table.old id.now) }
    ensures look { (k : List ℕ) → get bytes_eq table.new k ≡ cond (bytes_eq id.now k) (Some value) (get bytes_eq table.old k) }
    ensures count { index_map_len table.new ≡ index_map_len table.old }
    ensures room { spare table.new ≡ spare table.old }
{
    if let Some(held) = table.get_mut(id) {
        *held = value;
    }
}
