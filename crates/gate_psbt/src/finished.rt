//! The final transaction of a PSBT.
ghost use Rattle.std.specs.Prelude.{◌≡◌, [], IfOk};
ghost use Rattle.gate_psbt.specs.Finished.{FinishedBy, FinishesInto, finish, finished_at, finished_of, or_empty};

use crate::fault::{PartFault, Place, PsbtFault};
use crate::input::PsbtInput;
use crate::psbt::Psbt;
use gate_bytes::{Copied, Kept, Memory};
use gate_tx::{Transaction, TxIn, TxOut, Witness};
use std::alloc::Global;

/// A final script, which is empty if none is said.
fn script_or_none(alloc: Global, script: &Option<Kept<u8>>) -> Result<Kept<u8>, Memory>
    ensures { IfOk result (λ bytes. bytes ≡ or_empty script.now) }
{
    match script {
        Some(script) => script.copy(alloc),
        None => Ok(Kept::from_vec(Vec::new(alloc))),
    }
}

/// A final witness, which is empty if none is said.
fn witness_or_none(alloc: Global, witness: &Option<Witness>) -> Result<Witness, Memory>
    ensures { IfOk result (λ items. items ≡ or_empty witness.now) }
{
    match witness {
        Some(witness) => witness.copy(alloc),
        None => Ok(Witness::new(alloc)),
    }
}

/// An input with its final script and witness.
fn finish(alloc: Global, input: &TxIn, said: &PsbtInput) -> Result<TxIn, Memory>
    ensures { IfOk result (λ done. done ≡ finish input.now said.now) }
{
    let script = script_or_none(alloc, &said.script)?;
    let witness = witness_or_none(alloc, &said.witness)?;
    Ok(TxIn {
        prevout: input.prevout,
        script,
        sequence: input.sequence,
        witness,
    })
}

/// The inputs with their final scripts and witnesses.
fn finished_inputs(
    alloc: Global,
    inputs: &[TxIn],
    said: &[PsbtInput],
) -> Result<Vec<TxIn>, PsbtFault>
    ensures { FinishesInto result (finished_at 0 [] inputs.now said.now) }
{
    let mut all = Vec::new(alloc);
    let mut place = 0;
    for input in inputs {
        let Some(it) = said.get(place) else {
            return Err(PsbtFault::At(Place::Input(place), PartFault::NotFinal));
        };
        if !it.is_final() {
            return Err(PsbtFault::At(Place::Input(place), PartFault::NotFinal));
        }
        all.push(finish(alloc, input, it)?)?;
        place += 1;
    }
    Ok(all)
}

impl Psbt {
    ghost use Rattle.gate_psbt.specs.Finished.{FinishedBy, finished_of};

    /// The transaction with the final scripts and witnesses of its inputs: the first input that has neither is the fault.
    #[tactic(auto, unfolding(crate::specs::Finished::finished_of))]
    pub fn finished(&self, alloc: Global) -> Result<Transaction, PsbtFault>
        ensures exact { FinishedBy result (finished_of self.now) }
    {
        let unsigned = &self.unsigned;
        let inputs = finished_inputs(alloc, unsigned.inputs(), self.inputs.as_slice())?;
        let outputs = TxOut::copy_list(unsigned.outputs(), alloc)?;
        match Transaction::new(unsigned.version(), inputs, outputs, unsigned.locktime()) {
            Ok(transaction) => Ok(transaction),
            Err(_) => Err(PsbtFault::At(Place::Whole, PartFault::TooLong)),
        }
    }
}
