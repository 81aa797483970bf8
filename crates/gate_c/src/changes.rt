//! The text of what an event moved.
ghost use Rattle.std.specs.Prelude.{◌≡◌, ◌++◌, IfOk, OnOk, string_bytes};
ghost use Rattle.std.specs.List.{flat_map};
ghost use Rattle.gate_c.specs.Changes.{moved_text, signed};

use gate_bytes::Memory;
use gate_tx::Txid;
use std::alloc::Global;

/// Puts a line for each txid at the end of a text: a sign, a blank and the txid.
fn push_lines(text: &mut String, sign: &str, txids: &[Txid]) -> Result<(), Memory>
    ensures { OnOk result (string_bytes text.new ≡ string_bytes text.old ++ flat_map (signed sign.now) txids.now) }
{
    for txid in txids {
        write!(text, "{sign} {txid}\n")?;
    }
    Ok(())
}

/// The lines of what departed, and then of what arrived.
pub fn moved_text(alloc: Global, departed: &[Txid], arrived: &[Txid]) -> Result<String, Memory>
    ensures { IfOk result (λ text. string_bytes text ≡ moved_text departed.now arrived.now) }
{
    let mut text = String::new(alloc);
    push_lines(&mut text, "-", departed)?;
    push_lines(&mut text, "+", arrived)?;
    Ok(text)
}
