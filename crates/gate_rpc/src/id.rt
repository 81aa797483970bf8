//! The id of a call.
use gate_bytes::{Copied, Exact, Memory, Text};
use std::alloc::Global;

/// What a caller names its call by (JSON-RPC 2.0): the answer has it as it came.
#[derive(Debug, Drop, PartialEq, Eq)]
pub enum Id {
    /// No id, or `null`.
    Null,
    Text(Text),
    /// A whole number from 0 on.
    Unsigned(u64),
    /// A whole number below 0.
    Signed(i64),
}

impl Copied for Id {
    fn copy(&self, alloc: Global) -> Result<Id, Memory> {
        match self {
            Id::Null => Ok(Id::Null),
            Id::Text(text) => Ok(Id::Text(text.copy(alloc)?)),
            Id::Unsigned(number) => Ok(Id::Unsigned(*number)),
            Id::Signed(number) => Ok(Id::Signed(*number)),
        }
    }
}

impl Exact for Id {
    ghost use Rattle.std.proofs.lemmas.Bool.Decides.{Decides-eqb, Decides-int_eq};
    ghost use Rattle.std.proofs.lemmas.Slice.Eq.{bytes_eq-Decides};
    ghost use Rattle.gate_rpc.specs.contracts.id.Id.{enum};
    ghost use Rattle.gate_bytes.specs.Equality.{enum_decides, ◌or◌, none_decides, last_decides};

    ghost exact = { enum_decides enum _ (none_decides or last_decides bytes_eq-Decides or last_decides Decides-eqb or last_decides Decides-int_eq or tt) };
}
