//! Writers of texts.
ghost use Rattle.std.specs.Prelude.{◌≡◌, ◌≢◌, ◌++◌, ◌∷◌, [], ℕ, Bool, true, false, List, OnOk, OnErr, IfErr, IfOk, IsOk, string_bytes};
ghost use Rattle.std.specs.Io.Buffered.{writer_buffer};
ghost use Rattle.std.specs.Io.KnownBytes.{Appends};
ghost use Rattle.gate_lines.specs.Writing.{PartWritten, TextWritten};

use crate::fault::LaneFault;
use gate_bytes::Memory;
use std::io::{BufWriter, Write};

/// A writer of texts. One over a list in memory fails only when out of memory.
pub trait Sink: Write {
    // Whether a writer of this type fails only when out of memory.
    ghost steady: { Bool };

    // The bytes that the writer took and has not sent on yet.
    ghost held: { Self → List ℕ };

    /// Writes all of the text. The fault is `Write` if the writer fails or takes none of the bytes; after `Memory`
    /// nothing of the text was taken.
    fn write_text(&mut self, text: &[u8]) -> Result<(), LaneFault>
        ensures written { TextWritten (Self.contents self.old) (Self.contents self.new) text.now result }
        ensures steady { steady ≡ true → IfErr result (λ fault. fault ≢ LaneFault.Write) };

    /// Sends on what the writer still holds.
    fn send(&mut self) -> Result<(), LaneFault>
        ensures kept { Appends (Self.contents self.old) (Self.contents self.new) [] }
        ensures sent { OnOk result (held self.new ≡ []) }
        ensures kind { IfErr result (λ fault. fault ≡ LaneFault.Write) }
        ensures steady { steady ≡ true → IsOk result };
}

impl Sink for Vec<u8> {
    ghost steady = { true };

    ghost held = { λ _. [] };

    fn write_text(&mut self, text: &[u8]) -> Result<(), LaneFault> {
        self.extend_from_slice(text)?;
        Ok(())
    }

    fn send(&mut self) -> Result<(), LaneFault> {
        Ok(())
    }
}

/// A writer with a buffer, over a writer that may fail. In clauses its bytes are those that the writer behind it has,
/// and then those in the buffer.
impl<W: Write + Drop> Sink for BufWriter<W> {
    ghost steady = { false };

    ghost held = { writer_buffer };

    fn write_text(&mut self, text: &[u8]) -> Result<(), LaneFault> {
        write_parts(self, text)
    }

    fn send(&mut self) -> Result<(), LaneFault> {
        match self.flush() {
            Ok(()) => Ok(()),
            Err(_) => Err(LaneFault::Write),
        }
    }
}

fn write_parts<W: Write>(writer: &mut W, text: &[u8]) -> Result<(), LaneFault>
    ensures ok { OnOk result (Appends (W.contents writer.old) (W.contents writer.new) text.now) }
    ensures err { OnErr result (PartWritten (W.contents writer.old) (W.contents writer.new) text.now) }
    ensures kind { IfErr result (λ fault. fault ≡ LaneFault.Write) }
{
    let mut at = 0;
    while at < text.len() {
        match writer.write(&text[at..]) {
            Ok(0) | Err(_) => return Err(LaneFault::Write),
            Ok(n) => at += n,
        }
    }
    Ok(())
}

/// A text and its newline as one line of bytes, in the text's own memory.
pub fn end_line(mut text: String) -> Result<Vec<u8>, Memory>
    ensures { IfOk result (λ line. line.items ≡ string_bytes text ++ 10 ∷ []) }
{
    text.push('\n')?;
    Ok(text.into_bytes())
}
