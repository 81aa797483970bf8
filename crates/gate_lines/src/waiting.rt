//! Sending what was written before a read that may wait.
ghost use Rattle.std.specs.Prelude.{◌≡◌, ◌≢◌, [], true, IfErr};
ghost use Rattle.std.specs.Io.KnownBytes.{Appends};
ghost use Rattle.gate_lines.specs.Reading.{LineAsked};

use crate::fault::LaneFault;
use crate::line::{Found, MAX_LINE, next_line};
use crate::sink::Sink;
use crate::source::Source;

/// Reads the next line as [`next_line`] does. If not all of it waits in memory, what was written is sent on before
/// anything is read.
pub fn next_line_or_send<R: Source, W: Sink>(
    reader: &mut R,
    writer: &mut W,
    line: &mut Vec<u8>,
) -> Result<Found, LaneFault>
    ensures read { LineAsked (R.remaining reader.old) (R.remaining reader.new) line.new.items result }
    ensures kept { Appends (W.contents writer.old) (W.contents writer.new) [] }
    ensures steady_reader { R.steady ≡ true → IfErr result (λ fault. fault ≢ LaneFault.Read) }
    ensures steady_writer { W.steady ≡ true → IfErr result (λ fault. fault ≢ LaneFault.Write) }
{
    line.clear();
    if reader.take_waiting(line, MAX_LINE)? {
        return Ok(Found::Whole);
    }
    writer.send()?;
    next_line(reader, line)
}
