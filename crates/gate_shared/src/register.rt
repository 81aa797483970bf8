//! What the passes of one gate belong to.
ghost use Rattle.gate_shared.specs.Tokens.{opener};

use crate::tokens::{Registry, Token};
use atomic_table::Table;
use gate_bytes::Memory;
use std::alloc::Global;
use std::marker::Model;

/// A register of passes and their calls, in which nothing is written. A gate is opened with one of its own. Contracts see
/// which one it is.
#[derive(Drop)]
pub struct Register {
    pub(crate) registry: Registry,
    pub(crate) token: Token,
}

impl Model for Register {
    ghost use Rattle.std.specs.Prelude.{◌≡◌, []};
    ghost use Rattle.atomic_table.specs.Seated.{TableId};
    ghost use Rattle.gate_shared.specs.Tokens.{opener};

    ghost Value = { TableId };

    ghost view = { λ r. r.registry.shared.table_id };

    ghost invariant = { λ r. (r.registry.shared.table_id.words ≡ 1) × (r.token.table_id ≡ r.registry.shared.table_id) × (r.token.me ≡ (opener, [])) };
}

impl Register {
    pub fn new(alloc: Global) -> Result<Register, Memory> {
        let (registry, token) = Table::of_words(alloc, &[0], &())?;
        Ok(Register { registry, token })
    }
}
