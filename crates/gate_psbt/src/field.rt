//! Values of fields.
ghost use Rattle.std.specs.Prelude.{[], IfOk, length};
ghost use Rattle.gate_bytes.specs.Compact.{IsCount};
ghost use Rattle.gate_psbt.specs.Faults.{Gives, TakesBy};
ghost use Rattle.gate_psbt.specs.Fields.{CountedBy, counted_at, items_at, output_of, transaction_of, witness_of};

use crate::fault::PartFault;
use gate_bytes::{ByteFault, Cursor, Kept};
use gate_tx::{Transaction, TxOut, Witness, read_tx};
use std::alloc::Global;

/// Takes a count and that many bytes, which are not copied.
#[tactic(auto, unfolding(crate::specs::Fields::counted_at))]
pub(crate) fn take_counted<'a>(cursor: &mut Cursor<'a>) -> Result<&'a [u8], ByteFault>
    ensures reads { CountedBy result cursor.new (counted_at cursor.old) }
    ensures count { IfOk result (λ bytes. IsCount (length bytes.now)) }
{
    let len = cursor.compact()?;
    cursor.take(len as usize)
}

/// The output that all of the bytes are.
#[tactic(auto, unfolding(crate::specs::Fields::output_of))]
pub(crate) fn read_output(alloc: Global, bytes: &[u8]) -> Result<TxOut, PartFault>
    ensures { Gives result (output_of bytes.now) }
{
    let mut cursor = Cursor::new(bytes);
    let value = cursor.i64()?;
    let script = take_counted(&mut cursor)?;
    if cursor.left() != 0 {
        return Err(PartFault::Trailing);
    }
    Ok(TxOut {
        value,
        script: Kept::from_vec(Vec::from_slice(alloc, script)?),
    })
}

/// The transaction that all of the bytes are.
#[tactic(auto, unfolding(crate::specs::Fields::transaction_of))]
pub(crate) fn read_transaction(alloc: Global, bytes: &[u8]) -> Result<Transaction, PartFault>
    ensures { Gives result (transaction_of bytes.now) }
{
    Ok(read_tx(alloc, bytes)?)
}

/// Takes this many items of a witness.
fn take_items(alloc: Global, cursor: &mut Cursor<'_>, count: u64) -> Result<Witness, PartFault>
    ensures { TakesBy (λ w. w) result cursor.new (items_at count [] cursor.old) }
{
    let mut witness = Witness::new(alloc);
    for _ in 0..count {
        let item = take_counted(cursor)?;
        witness.push(item)?;
    }
    Ok(witness)
}

/// The witness that all of the bytes are: a count and that many items.
#[tactic(auto, unfolding(crate::specs::Fields::witness_of))]
pub(crate) fn read_witness(alloc: Global, bytes: &[u8]) -> Result<Witness, PartFault>
    ensures { Gives result (witness_of bytes.now) }
{
    let mut cursor = Cursor::new(bytes);
    let count = cursor.compact()?;
    let witness = take_items(alloc, &mut cursor, count)?;
    if cursor.left() != 0 {
        return Err(PartFault::Trailing);
    }
    Ok(witness)
}
