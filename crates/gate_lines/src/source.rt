//! Readers of lines.
ghost use Rattle.std.specs.Prelude.{◌≡◌, ◌≢◌, ◌+◌, Bool, true, false, take, IfErr, IfOk, IfSome};
ghost use Rattle.gate_lines.specs.Lines.{LacksNewline};
ghost use Rattle.gate_lines.specs.Parts.{PartTaken, WaitingTaken};

use crate::fault::LaneFault;
use crate::part::{Part, append_line, append_part};
use gate_bytes::Memory;
use std::io::{BufRead, BufReader, Read};

/// A reader of lines. One over bytes in memory never fails.
pub trait Source: BufRead {
    // Whether no read of this type fails.
    ghost steady: { Bool };

    /// Moves the next line to the end of `line` if all of it waits in memory and has at most `room` bytes, and says
    /// whether it did; the line's newline is taken and not kept. Otherwise nothing is taken. It reads nothing, so it
    /// never waits. A reader over bytes in memory has all of them waiting.
    fn take_waiting(&mut self, line: &mut Vec<u8>, room: usize) -> Result<bool, Memory>
        ensures taken { WaitingTaken (Self.remaining self.old) (Self.remaining self.new) line.old.items line.new.items room result }
        ensures none { steady ≡ true → IfOk result (λ taken. taken ≡ false → IfSome (Self.remaining self.old) (λ bytes. LacksNewline (take (room + 1) bytes))) };

    /// Moves what the reader holds, or else its next bytes, to the end of `line`: up to a newline, which is taken and not
    /// kept, and at most `room` bytes and one that isn't kept.
    fn take_part(&mut self, line: &mut Vec<u8>, room: usize) -> Result<Part, LaneFault>
        ensures taken { PartTaken (Self.remaining self.old) (Self.remaining self.new) line.old.items line.new.items room result }
        ensures steady { steady ≡ true → IfErr result (λ fault. fault ≢ LaneFault.Read) };
}

impl Source for &[u8] {
    ghost steady = { true };

    fn take_waiting(&mut self, line: &mut Vec<u8>, room: usize) -> Result<bool, Memory> {
        let shown: &[u8] = *self;
        let Some(taken) = append_line(shown, line, room)? else {
            return Ok(false);
        };
        *self = &shown[taken..];
        Ok(true)
    }

    fn take_part(&mut self, line: &mut Vec<u8>, room: usize) -> Result<Part, LaneFault> {
        let shown: &[u8] = *self;
        let (part, taken) = append_part(shown, line, room)?;
        *self = &shown[taken..];
        Ok(part)
    }
}

/// A reader with a buffer, over one that may fail or wait. A buffer without room for a byte shows none, which is not the
/// end of the input: such a reader fails.
impl<R: Read> Source for BufReader<R> {
    ghost steady = { false };

    fn take_waiting(&mut self, line: &mut Vec<u8>, room: usize) -> Result<bool, Memory> {
        if self.buffer().is_empty() {
            return Ok(false);
        }
        take_shown_line(self, line, room)
    }

    fn take_part(&mut self, line: &mut Vec<u8>, room: usize) -> Result<Part, LaneFault> {
        if self.capacity() == 0 {
            return Err(LaneFault::Read);
        }
        take_shown(self, line, room)
    }
}

/// Takes the line that a reader shows, if it shows all of it. A reader that holds some bytes shows them without a read.
fn take_shown_line<R: BufRead>(
    reader: &mut R,
    line: &mut Vec<u8>,
    room: usize,
) -> Result<bool, Memory>
    ensures { WaitingTaken (R.remaining reader.old) (R.remaining reader.new) line.old.items line.new.items room result }
{
    let Ok(shown) = reader.fill_buf() else {
        return Ok(false);
    };
    let Some(taken) = append_line(shown, line, room)? else {
        return Ok(false);
    };
    reader.consume(taken);
    Ok(true)
}

/// Takes a part of a line from what a reader shows. A byte is taken only once `line` has it.
fn take_shown<R: BufRead>(
    reader: &mut R,
    line: &mut Vec<u8>,
    room: usize,
) -> Result<Part, LaneFault>
    ensures { PartTaken (R.remaining reader.old) (R.remaining reader.new) line.old.items line.new.items room result }
{
    let Ok(shown) = reader.fill_buf() else {
        return Err(LaneFault::Read);
    };
    let (part, taken) = append_part(shown, line, room)?;
    reader.consume(taken);
    Ok(part)
}
