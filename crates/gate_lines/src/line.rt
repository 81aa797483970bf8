//! Lines from a reader.
//!
//! A line ends at a newline and nowhere else, so a carriage return is a byte of its line.
ghost use Rattle.std.specs.Prelude.{◌≡◌, ◌≢◌, ◌≤◌, length, [], true, IfErr, OnOk};
ghost use Rattle.gate_lines.specs.Lines.{is_skipped, line_limit};
ghost use Rattle.gate_lines.specs.Reading.{EndTold, LastLinesAreRead, LineRead, LineReadWithin};

use crate::fault::LaneFault;
use crate::part::Part;
use crate::source::Source;

/// The most bytes that a line may have, its newline not counted.
pub const MAX_LINE: usize = 16_777_216;

/// The most lines that one reader may give.
pub const MAX_LINES: u64 = 1_000_000;

/// What was found where a line was to be read.
#[derive(Clone, Copy, PartialEq, Eq)]
pub enum Found {
    /// A line with its newline.
    Whole,
    /// A last line without a newline. It isn't empty.
    Rest,
    /// Nothing: the input ends here.
    End,
    /// More bytes than a line may have.
    TooLong,
}

/// Reads the next line into `line`, without its newline, and never keeps more than `MAX_LINE` bytes of it.
///
/// After a fault `line` holds the bytes that were taken. Of a line that is too long, one byte more than the limit is
/// taken.
pub fn next_line<R: Source>(reader: &mut R, line: &mut Vec<u8>) -> Result<Found, LaneFault>
    ensures read { LineRead (R.remaining reader.old) (R.remaining reader.new) line.new.items result }
    ensures kept { length line.new.items ≤ line_limit }
    ensures steady { R.steady ≡ true → IfErr result (λ fault. fault ≢ LaneFault.Read) }
{
    next_line_within(reader, line, MAX_LINE)
}

/// Reads the next line as [`next_line`] does, with a limit of `most` bytes.
pub fn next_line_within<R: Source>(
    reader: &mut R,
    line: &mut Vec<u8>,
    most: usize,
) -> Result<Found, LaneFault>
    ensures read { LineReadWithin most (R.remaining reader.old) (R.remaining reader.new) line.new.items result }
    ensures kept { length line.new.items ≤ most }
    ensures steady { R.steady ≡ true → IfErr result (λ fault. fault ≢ LaneFault.Read) }
{
    line.clear();
    loop {
        match reader.take_part(line, most - line.len())? {
            Part::Newline => return Ok(Found::Whole),
            Part::More => {}
            Part::TooLong => return Ok(Found::TooLong),
            Part::End => return Ok(if line.is_empty() {
                Found::End
            } else {
                Found::Rest
            }),
        }
    }
}

/// That a last line without a newline is read whole, also if it has as many bytes as a line may have.
pub fn last_lines_are_read()
    ensures { LastLinesAreRead }
{}

/// Whether the input ends here. If it doesn't, one byte of it is taken, and `line` keeps none.
pub fn has_ended<R: Source>(reader: &mut R, line: &mut Vec<u8>) -> Result<bool, LaneFault>
    ensures told { EndTold (R.remaining reader.old) (R.remaining reader.new) result }
    ensures empty { OnOk result (line.new.items ≡ []) }
    ensures steady { R.steady ≡ true → IfErr result (λ fault. fault ≢ LaneFault.Read) }
{
    line.clear();
    match reader.take_part(line, 0)? {
        Part::End => Ok(true),
        _ => Ok(false),
    }
}

/// Whether a line asks for nothing: an empty line, or a comment.
pub fn is_blank_or_comment(line: &[u8]) -> bool
    ensures { result ≡ is_skipped line.now }
{
    match line {
        [] => true,
        [first, ..] => *first == b'#',
    }
}
