//! What several transactions spend together.
ghost use Rattle.std.specs.Prelude.{◌≡◌, ◌++◌, map, IfOk, OnOk};
ghost use Rattle.std.specs.List.{flat_map};
ghost use Rattle.gate_rivals.specs.Rivals.{inputs_of, point_of};

use gate_bytes::{Kept, Memory};
use gate_submission::Candidate;
use gate_tx::{TxIn, Witness};
use std::alloc::Global;

/// An input that spends what this one spends, and has nothing else.
fn bare(alloc: Global, input: &TxIn) -> TxIn
    ensures { result.prevout ≡ input.now.prevout }
{
    TxIn {
        prevout: input.prevout,
        script: Kept::from_vec(Vec::new(alloc)),
        sequence: 0,
        witness: Witness::new(alloc),
    }
}

/// Puts inputs at the end that spend what these spend, and have nothing else.
fn push_bare(alloc: Global, bares: &mut Vec<TxIn>, inputs: &[TxIn]) -> Result<(), Memory>
    ensures { OnOk result (map point_of bares.new.items ≡ map point_of bares.old.items ++ map point_of inputs.now) }
{
    for input in inputs {
        bares.push(bare(alloc, input))?;
    }
    Ok(())
}

/// Inputs that spend what those of these transactions spend, and have nothing else.
pub fn bare_inputs(alloc: Global, these: &[Candidate<'_>]) -> Result<Vec<TxIn>, Memory>
    ensures { IfOk result (λ bares. map point_of bares.items ≡ map point_of (flat_map inputs_of these.now)) }
{
    let mut bares = Vec::new(alloc);
    for tx in these {
        push_bare(alloc, &mut bares, tx.transaction().inputs())?;
    }
    Ok(bares)
}
