ghost use Rattle.std.specs.Prelude.{◌≡◌};

use std::hash::{Hash, Hasher};
use std::marker::Model;

/// The id of a node: 32 bytes, like a transaction's id.
pub type Id = [u8; 32];

/// The id of a node, which a table hashes in one go.
#[derive(Clone, Copy, PartialEq, Eq, PartialOrd, Ord)]
pub struct NodeId {
    bytes: Id,
}

impl Model for NodeId {
    ghost use Rattle.std.specs.Prelude.{List, ℕ};

    ghost Value = { List ℕ };

    ghost view = { λ id. id.bytes };

    ghost inverse = { λ bytes. record { bytes = bytes } };
}

impl NodeId {
    /// The id of these bytes, in the order in which they are hashed.
    pub fn new(bytes: Id) -> NodeId
        ensures { result ≡ bytes }
    {
        NodeId { bytes }
    }

    pub fn bytes(&self) -> &Id
        ensures { result.now ≡ self.now }
    {
        &self.bytes
    }
}

/// One write of all bytes, so that a table hashes an id in one go.
impl Hash for NodeId {
    ghost use Rattle.std.specs.Prelude.{◌∷◌, []};
    ghost use Rattle.std.specs.Cmp.Rules.{hashing};
    ghost use Rattle.std.proofs.Common.{rules};

    ghost hash_input = { λ id. id ∷ [] };

    ghost respects_eq = { Prim.search (hashing, rules) };

    fn hash<H: Hasher>(&self, state: &mut H) {
        state.write(&self.bytes);
    }
}
