ghost use Rattle.std.specs.Prelude.{◌≡◌, ◌↔◌, ◌⊎◌, ◌≢◌, ◌+◌, ◌<◌, [], IsTrue, IsErr, IfOk, IfErr};
ghost use Rattle.std.specs.List.{AllByRecursion};
ghost use Rattle.gate_tx.specs.Internal.{stripped_lists, witness_lists, IsRangedInput, IsRangedOutput};
ghost use Rattle.gate_tx.specs.Tx.{tx_of};
ghost use Rattle.gate_tx.specs.Text.{longest, IsRefused};

use crate::reading::MAX_SIZE;
use crate::sizes::{stripped_lists, witness_lists};
use crate::transaction::{Parts, Transaction, TxIn, TxOut};
use std::fmt;
use thiserror::Error;

/// Lists that make no transaction: outputs without inputs, which have no text, or a text past
/// 33,554,432 bytes. They are handed back as they came.
#[derive(Drop, Error)]
#[error("outputs without inputs, or a text past 33554432 bytes")]
pub struct Shape {
    pub inputs: Vec<TxIn>,
    pub outputs: Vec<TxOut>,
}

impl fmt::Debug for Shape {
    fn fmt<W: fmt::Write>(&self, f: &mut fmt::Formatter<W>) -> fmt::Result {
        write!(f, "{self}")
    }
}

impl Transaction {
    /// The transaction of these parts. Takes no memory.
    pub fn new(
        version: i32,
        inputs: Vec<TxIn>,
        outputs: Vec<TxOut>,
        locktime: u32,
    ) -> Result<Transaction, Shape>
        ensures made { IfOk result (λ tx. tx ≡ tx_of version inputs.items outputs.items locktime) }
        ensures refused { IsErr result ↔ IsRefused (tx_of version inputs.items outputs.items locktime) }
        ensures back { IfErr result (λ shape. (shape.inputs ≡ inputs) × (shape.outputs ≡ outputs)) }
    {
        if is_refused(&inputs, &outputs) {
            return Err(Shape { inputs, outputs });
        }
        Ok(Transaction::of(Parts {
            version,
            inputs,
            outputs,
            locktime,
        }))
    }
}

/// Whether these lists make no transaction: outputs without inputs, or a text that is too long.
fn is_refused(inputs: &[TxIn], outputs: &[TxOut]) -> bool
    ensures refused { IsTrue result ↔ (((inputs.now ≡ []) × (outputs.now ≢ [])) ⊎ (longest < stripped_lists inputs.now outputs.now + witness_lists inputs.now)) }
    ensures inputs { AllByRecursion IsRangedInput inputs.now }
    ensures outputs { AllByRecursion IsRangedOutput outputs.now }
{
    let size = stripped_lists(inputs, outputs).saturating_add(witness_lists(inputs));
    lacks_inputs(inputs, outputs) || size > MAX_SIZE
}

fn lacks_inputs(inputs: &[TxIn], outputs: &[TxOut]) -> bool
    ensures { IsTrue result ↔ ((inputs.now ≡ []) × (outputs.now ≢ [])) }
{
    match (inputs, outputs) {
        ([], [_, ..]) => true,
        _ => false,
    }
}
