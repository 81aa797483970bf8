//! The lines of a journal, within the limits of a reader.
ghost use Rattle.std.specs.Prelude.{◌≡◌, ◌≤◌, ◌<◌, IfErr, OnErr, OnOk};
ghost use Rattle.gate_lines.specs.Lines.{count_limit, line_limit};
ghost use Rattle.gate_audit.specs.Journals.{counted};

use gate_lines::{LaneFault, Lines, MAX_LINE, Next, Source, is_blank_or_comment};
use std::alloc::Global;

/// The length of a line's mark, `> ` or `< `, in bytes.
const MARK_LEN: usize = 2;

/// The lines of a journal, and whether the input ended with the one that was read last.
#[derive(Drop)]
pub(crate) struct JournalLines {
    pub(crate) lines: Lines,
    pub(crate) has_ended: bool,
    ghost few: { lines.count ≤ count_limit },
}

/// The length of a line, in which its mark doesn't count.
fn counted(line: &[u8]) -> usize
    ensures { result ≡ counted line.now }
{
    match line {
        [b'>' | b'<', b' ', text @ ..] => text.len(),
        _ => line.len(),
    }
}

/// Fails with `Read` if a line is longer than it may be.
fn check_length(line: &[u8]) -> Result<(), LaneFault>
    ensures short { OnOk result (counted line.now ≤ line_limit) }
    ensures kind { IfErr result (λ fault. fault ≡ LaneFault.Read) }
    ensures long { OnErr result (line_limit < counted line.now) }
{
    if counted(line) > MAX_LINE {
        return Err(LaneFault::Read);
    }
    Ok(())
}

impl JournalLines {
    ghost use Rattle.std.specs.Prelude.{◌≢◌, [], true, false, IsErrOf, IfOk};
    ghost use Rattle.gate_audit.specs.Reading.{AskingIsPast, AskingTaken, LineTaken, NextIsPast};

    pub(crate) fn new(alloc: Global) -> JournalLines
        ensures number { result.lines.count ≡ 0 }
        ensures ended { result.has_ended ≡ false }
    {
        JournalLines {
            lines: Lines::new(alloc),
            has_ended: false,
        }
    }

    /// The line that was read last.
    pub(crate) fn as_slice(&self) -> &[u8]
        ensures { result.now ≡ self.now.lines.line }
    {
        self.lines.line()
    }

    /// Reads the next line, and says whether there is one; a line past a limit gives `Read`.
    fn read_line<R: Source>(&mut self, reader: &mut R) -> Result<bool, LaneFault>
        ensures read { IfOk result (λ found. LineTaken (R.remaining reader.old) (R.remaining reader.new) self.old self.new found) }
        ensures past { R.steady ≡ true → IsErrOf result LaneFault.Read → NextIsPast (R.remaining reader.old) self.old.lines.count [] }
        ensures kind { IfErr result (λ fault. fault ≢ LaneFault.Write) }
    {
        if self.has_ended {
            return Ok(false);
        }
        match self.lines.next_within(reader, MAX_LINE + MARK_LEN)? {
            Next::Whole => {
                check_length(self.lines.line())?;
                Ok(true)
            }
            Next::Rest => {
                check_length(self.lines.line())?;
                self.has_ended = true;
                Ok(true)
            }
            Next::End => Ok(false),
            Next::TooLong | Next::TooMany => Err(LaneFault::Read),
        }
    }

    /// Reads up to the next line that is neither empty nor a comment, and says whether there is one.
    pub(crate) fn next_significant_line<R: Source>(
        &mut self,
        reader: &mut R,
    ) -> Result<bool, LaneFault>
        ensures read { IfOk result (λ found. AskingTaken (R.remaining reader.old) (R.remaining reader.new) self.old self.new found) }
        ensures past { R.steady ≡ true → IsErrOf result LaneFault.Read → AskingIsPast (R.remaining reader.old) self.old.lines.count }
        ensures kind { IfErr result (λ fault. fault ≢ LaneFault.Write) }
    {
        while self.read_line(reader)? {
            if !is_blank_or_comment(self.as_slice()) {
                return Ok(true);
            }
        }
        Ok(false)
    }
}
