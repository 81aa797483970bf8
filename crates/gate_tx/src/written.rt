ghost use Rattle.std.specs.Prelude.{◌≡◌, ◌++◌, List, ℕ, OnOk, length, FitsSigned};
ghost use Rattle.std.specs.List.{flat_map, AllByRecursion};
ghost use Rattle.std.specs.Int.{w64, cast_unsigned};
ghost use Rattle.byteorder.specs.Endian.{little_bytes};
ghost use Rattle.gate_tx.specs.Text.{var_bytes, vector, input, output, witness};
ghost use Rattle.gate_tx.specs.Internal.{capped, IsRangedInput, IsRangedOutput};

use crate::transaction::{TxIn, TxOut};
use crate::witness::Witness;
use gate_bytes::{Kept, Memory, compact_size, put_compact};

/// A part of a transaction that has one text.
pub(crate) trait Written {
    ghost text_of: { Self → List ℕ };

    /// What the types of its fields say of its numbers.
    ghost IsRangedPart: { Self → Type 0 };

    /// The size of the text in bytes, or the greatest `usize` if that is less.
    fn size(&self) -> usize
        ensures size { result ≡ capped (length (text_of self.now)) }
        ensures ranged { IsRangedPart self.now };

    fn write(&self, out: &mut Vec<u8>) -> Result<(), Memory>
        ensures { OnOk result (out.new.items ≡ out.old.items ++ text_of self.now) };
}

impl Written for Kept<u8> {
    ghost text_of = { var_bytes };

    ghost IsRangedPart = { λ _. Unit {0} };

    fn size(&self) -> usize {
        compact_size(self.len() as u64).saturating_add(self.len())
    }

    fn write(&self, out: &mut Vec<u8>) -> Result<(), Memory> {
        put_compact(out, self.len() as u64)?;
        out.extend_from_slice(self.as_slice())?;
        Ok(())
    }
}

impl Written for Witness {
    ghost text_of = { vector var_bytes };

    ghost IsRangedPart = { λ _. Unit {0} };

    fn size(&self) -> usize {
        compact_size(self.len() as u64).saturating_add(self.texts().len())
    }

    fn write(&self, out: &mut Vec<u8>) -> Result<(), Memory> {
        put_compact(out, self.len() as u64)?;
        out.extend_from_slice(self.texts())?;
        Ok(())
    }
}

impl Written for TxIn {
    ghost text_of = { input };

    ghost IsRangedPart = { IsRangedInput };

    fn size(&self) -> usize {
        let _index = self.prevout.index;
        let _sequence = self.sequence;
        let prevout = self.prevout.txid.as_bytes().len() + 4;
        self.script.size().saturating_add(prevout + 4)
    }

    fn write(&self, out: &mut Vec<u8>) -> Result<(), Memory> {
        out.extend_from_slice(self.prevout.txid.as_bytes())?;
        out.extend_from_slice(&self.prevout.index.to_le_bytes())?;
        self.script.write(out)?;
        out.extend_from_slice(&self.sequence.to_le_bytes())?;
        Ok(())
    }
}

impl Written for TxOut {
    ghost text_of = { output };

    ghost IsRangedPart = { IsRangedOutput };

    fn size(&self) -> usize {
        let _value = self.value;
        self.script.size().saturating_add(8)
    }

    fn write(&self, out: &mut Vec<u8>) -> Result<(), Memory> {
        put_i64(self.value, out)?;
        self.script.write(out)?;
        Ok(())
    }
}

fn put_i64(value: i64, out: &mut Vec<u8>) -> Result<(), Memory>
    ensures { OnOk result (out.new.items ≡ out.old.items ++ little_bytes 8 (cast_unsigned w64 value)) }
{
    out.extend_from_slice(&value.to_le_bytes())?;
    Ok(())
}

pub(crate) fn put_list<T: Written>(items: &[T], out: &mut Vec<u8>) -> Result<(), Memory>
    ensures { OnOk result (out.new.items ≡ out.old.items ++ vector T.text_of items.now) }
{
    put_compact(out, items.len() as u64)?;
    for item in items {
        item.write(out)?;
    }
    Ok(())
}

pub(crate) fn put_witnesses(inputs: &[TxIn], out: &mut Vec<u8>) -> Result<(), Memory>
    ensures { OnOk result (out.new.items ≡ out.old.items ++ flat_map witness inputs.now) }
{
    for input in inputs {
        input.witness.write(out)?;
    }
    Ok(())
}

pub(crate) fn list_size<T: Written>(items: &[T]) -> usize
    ensures size { result ≡ capped (length (vector T.text_of items.now)) }
    ensures ranged { AllByRecursion T.IsRangedPart items.now }
{
    let mut size = compact_size(items.len() as u64);
    for item in items {
        size = size.saturating_add(item.size());
    }
    size
}

pub(crate) fn witness_size(inputs: &[TxIn]) -> usize
    ensures { result ≡ capped (length (flat_map witness inputs.now)) }
{
    let mut size = 0usize;
    for input in inputs {
        size = size.saturating_add(input.witness.size());
    }
    size
}
