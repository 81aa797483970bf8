//! A whole PSBT.
ghost use Rattle.std.specs.Prelude.{◌≡◌, []};
ghost use Rattle.gate_psbt.specs.Faults.{Gives, GivesWhole, TakesBy, TakesWholeBy};
ghost use Rattle.gate_psbt.specs.Psbts.{Skips, SkipsWhole, behind_magic, checked_version, global_at, has_script, input_at, inputs_at, outputs_at, plain_of, psbt_of, unsigned_of};

use crate::fault::{PartFault, Place, PsbtFault, fault_at};
use crate::field::read_transaction;
use crate::input::{PsbtInput, read_input};
use crate::map::{Owner, Pair, take_map, value_of};
use gate_bytes::{Cursor, Kept};
use gate_tx::{OutPoint, Transaction, TxIn};
use std::alloc::Global;

/// A partially signed transaction.
#[derive(Drop)]
pub struct Psbt {
    /// The transaction without scripts and witnesses.
    pub unsigned: Transaction,
    /// What stands of its inputs, in their order.
    pub inputs: Kept<PsbtInput>,
}

/// Checks that the version is 0, as it is if it is not said.
#[tactic(auto, unfolding(crate::specs::Psbts::checked_version))]
fn check_version(pairs: &[Pair<'_>]) -> Result<(), PartFault>
    ensures { Gives result (checked_version pairs.now) }
{
    let Some(bytes) = value_of(pairs, 0xfb) else {
        return Ok(());
    };
    let mut cursor = Cursor::new(bytes);
    let version = cursor.u32()?;
    if cursor.left() != 0 {
        return Err(PartFault::Trailing);
    }
    if version != 0 {
        return Err(PartFault::Version);
    }
    Ok(())
}

/// Whether an input has a script.
fn has_script(inputs: &[TxIn]) -> bool
    ensures { result ≡ has_script inputs.now }
{
    inputs.iter().any(|input| input.script.len() != 0)
}

/// The transaction in the form without witnesses that all of the bytes are.
#[tactic(auto, unfolding(crate::specs::Psbts::plain_of))]
fn read_plain(alloc: Global, bytes: &[u8]) -> Result<Transaction, PartFault>
    ensures { Gives result (plain_of bytes.now) }
{
    // Behind the version, an input count of 0 is also how the form with witnesses begins.
    match bytes.get(4) {
        Some(0) => Err(PartFault::Form),
        _ => read_transaction(alloc, bytes),
    }
}

/// The unsigned transaction.
#[tactic(auto, unfolding(crate::specs::Psbts::unsigned_of))]
fn read_unsigned(alloc: Global, pairs: &[Pair<'_>]) -> Result<Transaction, PartFault>
    ensures { Gives result (unsigned_of pairs.now) }
{
    let Some(bytes) = value_of(pairs, 0x00) else {
        return Err(PartFault::NoTransaction);
    };
    let transaction = read_plain(alloc, bytes)?;
    if has_script(transaction.inputs()) {
        return Err(PartFault::Signed);
    }
    Ok(transaction)
}

/// What the global map says: the version is 0, and the unsigned transaction.
#[tactic(auto, unfolding(crate::specs::Psbts::global_at))]
fn take_global(alloc: Global, cursor: &mut Cursor<'_>) -> Result<Transaction, PartFault>
    ensures { TakesBy (λ tx. tx) result cursor.new (global_at cursor.old) }
{
    let pairs = take_map(alloc, Owner::Whole, cursor)?;
    check_version(&pairs)?;
    read_unsigned(alloc, &pairs)
}

/// Takes the map of the input that spends this outpoint.
#[tactic(auto, unfolding(crate::specs::Psbts::input_at))]
fn take_input(
    alloc: Global,
    cursor: &mut Cursor<'_>,
    point: OutPoint,
) -> Result<PsbtInput, PartFault>
    ensures { TakesBy (λ input. input) result cursor.new (input_at point cursor.old) }
{
    let pairs = take_map(alloc, Owner::Input, cursor)?;
    read_input(alloc, point, &pairs)
}

/// Takes the maps of these inputs.
fn take_inputs(
    alloc: Global,
    cursor: &mut Cursor<'_>,
    inputs: &[TxIn],
) -> Result<Vec<PsbtInput>, PsbtFault>
    ensures { TakesWholeBy (λ all. all.items) result cursor.new (inputs_at 0 [] inputs.now cursor.old) }
{
    let mut all = Vec::new(alloc);
    let mut place = 0;
    for input in inputs {
        match take_input(alloc, cursor, input.prevout) {
            Ok(taken) => all.push(taken)?,
            Err(fault) => return Err(fault_at(Place::Input(place), fault)),
        }
        place += 1;
    }
    Ok(all)
}

/// Takes the maps of this many outputs, which say nothing that is asked.
fn take_outputs(alloc: Global, cursor: &mut Cursor<'_>, count: usize) -> Result<(), PsbtFault>
    ensures { SkipsWhole result cursor.new (outputs_at 0 count cursor.old) }
{
    for place in 0..count {
        if let Err(fault) = take_map(alloc, Owner::Output, cursor) {
            return Err(fault_at(Place::Output(place), fault));
        }
    }
    Ok(())
}

/// Takes the bytes that each PSBT begins with.
#[tactic(auto, unfolding(crate::specs::Psbts::behind_magic))]
fn take_magic(cursor: &mut Cursor<'_>) -> Result<(), PartFault>
    ensures { Skips result cursor.new (behind_magic cursor.old) }
{
    match cursor.take(5) {
        Ok([0x70, 0x73, 0x62, 0x74, 0xff]) => Ok(()),
        _ => Err(PartFault::Magic),
    }
}

/// Reads the PSBT that all of the bytes are. Takes memory as maps are read, never for a count that is only claimed.
#[tactic(auto, unfolding(crate::specs::Psbts::psbt_of))]
pub fn read_psbt(alloc: Global, bytes: &[u8]) -> Result<Psbt, PsbtFault>
    // What is read, and which fault it is: the first from the left.
    ensures exact { GivesWhole result (psbt_of bytes.now) }
{
    let mut cursor = Cursor::new(bytes);
    if let Err(fault) = take_magic(&mut cursor) {
        return Err(fault_at(Place::Whole, fault));
    }
    let unsigned = match take_global(alloc, &mut cursor) {
        Ok(unsigned) => unsigned,
        Err(fault) => return Err(fault_at(Place::Global, fault)),
    };
    let inputs = take_inputs(alloc, &mut cursor, unsigned.inputs())?;
    take_outputs(alloc, &mut cursor, unsigned.outputs().len())?;
    if cursor.left() != 0 {
        return Err(PsbtFault::At(Place::Whole, PartFault::Trailing));
    }
    Ok(Psbt {
        unsigned,
        inputs: Kept::from_vec(inputs),
    })
}
