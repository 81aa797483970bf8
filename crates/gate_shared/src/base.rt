//! The name that ties a gate to the state that it was opened with, and to its passes.
ghost use Rattle.atomic_table.specs.Seated.{TableId};
ghost use Rattle.gate_core.specs.World.{World};
ghost use Rattle.gate_shared.specs.Bases.{nothing, no_registry};

use std::marker::Brand;

/// A name of the state with which a gate was opened, and of its register: so of one gate. A function over a name opens
/// the gate and uses it; its caller picks the two.
pub trait Base {
    ghost base: { World };

    /// What the tokens of the gate belong to.
    ghost registry: { TableId };
}

impl Base for Brand {
    ghost base = { nothing };

    ghost registry = { no_registry };
}
