//! Who makes events.
use gate_bytes::{Copied, Exact, Memory, Text};
use std::alloc::Global;

/// The one that makes an event.
#[derive(Drop, PartialEq, Eq)]
pub enum Caller {
    /// The peer of this number.
    Peer(u64),
    /// The user of this name.
    User(Text),
    /// The one that runs the node.
    Operator,
    /// The chain, from which blocks come.
    Chain,
}

impl Copied for Caller {
    fn copy(&self, alloc: Global) -> Result<Caller, Memory> {
        match self {
            Caller::Peer(peer) => Ok(Caller::Peer(*peer)),
            Caller::User(user) => Ok(Caller::User(user.copy(alloc)?)),
            Caller::Operator => Ok(Caller::Operator),
            Caller::Chain => Ok(Caller::Chain),
        }
    }
}

impl Exact for Caller {
    ghost use Rattle.std.proofs.lemmas.Bool.Decides.{Decides-eqb};
    ghost use Rattle.std.proofs.lemmas.Slice.Eq.{bytes_eq-Decides};
    ghost use Rattle.gate_bytes.specs.Equality.{enum_decides, ◌or◌, none_decides, last_decides};
    ghost use Rattle.gate_message.specs.contracts.caller.Caller.{enum};

    ghost exact = { enum_decides enum _ (last_decides Decides-eqb or last_decides bytes_eq-Decides or none_decides or none_decides or tt) };
}
