//! What the map of an input says.
ghost use Rattle.std.specs.Prelude.{◌≡◌};
ghost use Rattle.gate_psbt.specs.Faults.{Gives};
ghost use Rattle.gate_psbt.specs.Inputs.{coin_of, input_of, is_final, is_same_output, output_in, script_of, spent_of, transaction_in, witness_in};

use crate::fault::PartFault;
use crate::field::{read_output, read_transaction, read_witness};
use crate::map::{Pair, value_of};
use gate_bytes::{Copied, Kept};
use gate_tx::{OutPoint, Transaction, TxOut, Witness};
use std::alloc::Global;

/// What a PSBT has for an input: the coin that it spends, and what shows the right to in the end.
#[derive(Drop)]
pub struct PsbtInput {
    /// The coin's value and script.
    pub coin: Option<TxOut>,
    /// The final script.
    pub script: Option<Kept<u8>>,
    /// The final witness.
    pub witness: Option<Witness>,
}

impl PsbtInput {
    ghost use Rattle.std.specs.Prelude.{◌≡◌};
    ghost use Rattle.gate_psbt.specs.Inputs.{is_final};

    /// Whether it has a final script or a final witness.
    pub fn is_final(&self) -> bool
        ensures { result ≡ is_final self.now }
    {
        self.script.is_some() || self.witness.is_some()
    }
}

/// The coin that stands by itself (`PSBT_IN_WITNESS_UTXO`).
#[tactic(auto, unfolding(crate::specs::Inputs::output_in))]
fn output_in(alloc: Global, pairs: &[Pair<'_>]) -> Result<Option<TxOut>, PartFault>
    ensures { Gives result (output_in pairs.now) }
{
    match value_of(pairs, 0x01) {
        Some(bytes) => Ok(Some(read_output(alloc, bytes)?)),
        None => Ok(None),
    }
}

/// The transaction that made the coin (`PSBT_IN_NON_WITNESS_UTXO`).
#[tactic(auto, unfolding(crate::specs::Inputs::transaction_in))]
fn transaction_in(alloc: Global, pairs: &[Pair<'_>]) -> Result<Option<Transaction>, PartFault>
    ensures { Gives result (transaction_in pairs.now) }
{
    match value_of(pairs, 0x00) {
        Some(bytes) => Ok(Some(read_transaction(alloc, bytes)?)),
        None => Ok(None),
    }
}

/// The final witness (`PSBT_IN_FINAL_SCRIPTWITNESS`).
#[tactic(auto, unfolding(crate::specs::Inputs::witness_in))]
fn witness_in(alloc: Global, pairs: &[Pair<'_>]) -> Result<Option<Witness>, PartFault>
    ensures { Gives result (witness_in pairs.now) }
{
    match value_of(pairs, 0x08) {
        Some(bytes) => Ok(Some(read_witness(alloc, bytes)?)),
        None => Ok(None),
    }
}

/// The final script (`PSBT_IN_FINAL_SCRIPTSIG`).
fn script_in(alloc: Global, pairs: &[Pair<'_>]) -> Result<Option<Kept<u8>>, PartFault>
    ensures { Gives result (script_of pairs.now) }
{
    match value_of(pairs, 0x07) {
        Some(bytes) => Ok(Some(Kept::from_vec(Vec::from_slice(alloc, bytes)?))),
        None => Ok(None),
    }
}

/// The output of a transaction that an outpoint names.
#[tactic(auto, unfolding(crate::specs::Inputs::spent_of))]
fn spent_of(alloc: Global, point: OutPoint, transaction: &Transaction) -> Result<TxOut, PartFault>
    ensures { Gives result (spent_of point transaction.now) }
{
    let txid = transaction.txid(alloc)?;
    if txid != point.txid {
        return Err(PartFault::OtherTransaction);
    }
    match transaction.outputs().get(point.index as usize) {
        Some(output) => Ok(output.copy(alloc)?),
        None => Err(PartFault::NoOutput),
    }
}

/// Whether two outputs have the same value and the same script.
fn is_same_output(one: &TxOut, other: &TxOut) -> bool
    ensures { result ≡ is_same_output one.now other.now }
{
    one.value == other.value && one.script.as_slice() == other.script.as_slice()
}

/// The coin that an outpoint names, by what stands of it.
#[tactic(auto, unfolding(crate::specs::Inputs::coin_of))]
fn coin_of(
    alloc: Global,
    point: OutPoint,
    output: Option<TxOut>,
    transaction: Option<Transaction>,
) -> Result<Option<TxOut>, PartFault>
    ensures { Gives result (coin_of point output transaction) }
{
    let Some(transaction) = transaction else {
        return Ok(output);
    };
    let spent = spent_of(alloc, point, &transaction)?;
    match output {
        Some(output) if !is_same_output(&output, &spent) => Err(PartFault::OtherCoin),
        _ => Ok(Some(spent)),
    }
}

/// What the map of the input that spends this outpoint says.
#[tactic(auto, unfolding(crate::specs::Inputs::input_of))]
pub(crate) fn read_input(
    alloc: Global,
    point: OutPoint,
    pairs: &[Pair<'_>],
) -> Result<PsbtInput, PartFault>
    ensures { Gives result (input_of point pairs.now) }
{
    let output = output_in(alloc, pairs)?;
    let transaction = transaction_in(alloc, pairs)?;
    let coin = coin_of(alloc, point, output, transaction)?;
    let script = script_in(alloc, pairs)?;
    let witness = witness_in(alloc, pairs)?;
    Ok(PsbtInput {
        coin,
        script,
        witness,
    })
}
