//! Lines read one after another, counted and within the limits of a reader.
ghost use Rattle.std.specs.Prelude.{◌≡◌, ◌≢◌, ◌+◌, ◌<◌, ◌≤◌, ◌++◌, ◌∷◌, [], true, IfErr, OnOk};
ghost use Rattle.std.specs.Io.KnownBytes.{Appends};
ghost use Rattle.gate_lines.specs.Lines.{count_limit, line_limit};
ghost use Rattle.gate_lines.specs.Counting.{FoundCounted, LastLine, NextAsked, NextTaken, PastTold};

use crate::fault::LaneFault;
use crate::line::{Found, MAX_LINE, MAX_LINES, has_ended, next_line_within};
use crate::sink::Sink;
use crate::source::Source;
use crate::waiting::next_line_or_send;
use gate_bytes::Memory;
use std::alloc::Global;
use std::marker::Model;

/// What a reader gave after the lines that were counted.
#[derive(Clone, Copy, PartialEq, Eq)]
pub enum Next {
    /// A line with its newline.
    Whole,
    /// A last line without a newline. It isn't empty.
    Rest,
    /// Nothing: the input ends here.
    End,
    /// More bytes than a line may have.
    TooLong,
    /// One line more than a reader may give.
    TooMany,
}

/// The lines of a reader: the one that was read last, without its newline, and how many were read.
#[derive(Drop)]
pub struct Lines {
    line: Vec<u8>,
    count: u64,
}

impl Model for Lines {
    ghost Value = { LastLine };

    ghost view = { λ l. record { line = l.line.items; count = l.count } };

    ghost invariant = { λ l. l.count ≤ count_limit };
}

/// Says whether the input ends after the last line that a reader may give.
fn tell_end<R: Source>(reader: &mut R, line: &mut Vec<u8>) -> Result<Next, LaneFault>
    ensures told { PastTold (R.remaining reader.old) (R.remaining reader.new) result }
    ensures steady { R.steady ≡ true → IfErr result (λ fault. fault ≢ LaneFault.Read) }
{
    Ok(if has_ended(reader, line)? {
        Next::End
    } else {
        Next::TooMany
    })
}

impl Lines {
    /// The lines of a reader before the first one is read.
    pub fn new(alloc: Global) -> Lines
        ensures { result ≡ record { line = []; count = 0 } }
    {
        Lines {
            line: Vec::new(alloc),
            count: 0,
        }
    }

    /// The line that was read last.
    pub fn line(&self) -> &[u8]
        ensures { result.now ≡ self.now.line }
    {
        self.line.as_slice()
    }

    /// How many lines were read.
    pub fn count(&self) -> u64
        ensures value { result ≡ self.now.count }
        ensures few { result ≤ count_limit }
    {
        self.count
    }

    /// Puts a newline behind the line that was read last.
    pub fn push_newline(&mut self) -> Result<(), Memory>
        ensures line { OnOk result (self.new.line ≡ self.old.line ++ 10 ∷ []) }
        ensures count { self.new.count ≡ self.old.count }
    {
        Ok(self.line.push(b'\n')?)
    }

    /// Counts what was found, if it is a line.
    fn counted(&mut self, found: Found) -> Next
        requires { self.old.count < count_limit }
        ensures { FoundCounted found self.old self.new result }
    {
        match found {
            Found::Whole => {
                self.count += 1;
                Next::Whole
            }
            Found::Rest => {
                self.count += 1;
                Next::Rest
            }
            Found::End => Next::End,
            Found::TooLong => Next::TooLong,
        }
    }

    /// Reads the next line, of at most `MAX_LINE` bytes. After `MAX_LINES` lines it only says whether the input ends.
    pub fn next<R: Source>(&mut self, reader: &mut R) -> Result<Next, LaneFault>
        ensures taken { NextTaken line_limit (R.remaining reader.old) (R.remaining reader.new) self.old self.new result }
        ensures few { self.new.count ≤ count_limit }
        ensures steady { R.steady ≡ true → IfErr result (λ fault. fault ≢ LaneFault.Read) }
    {
        self.next_within(reader, MAX_LINE)
    }

    /// Reads the next line as [`Lines::next`] does, with a limit of `most` bytes.
    pub fn next_within<R: Source>(&mut self, reader: &mut R, most: usize) -> Result<Next, LaneFault>
        ensures taken { NextTaken most (R.remaining reader.old) (R.remaining reader.new) self.old self.new result }
        ensures few { self.new.count ≤ count_limit }
        ensures steady { R.steady ≡ true → IfErr result (λ fault. fault ≢ LaneFault.Read) }
    {
        if self.count == MAX_LINES {
            return tell_end(reader, &mut self.line);
        }
        let found = next_line_within(reader, &mut self.line, most)?;
        Ok(self.counted(found))
    }

    /// Reads the next line as [`Lines::next`] does. If not all of the line waits in memory, what was written is sent on
    /// before anything is read.
    pub fn next_or_send<R: Source, W: Sink>(
        &mut self,
        reader: &mut R,
        writer: &mut W,
    ) -> Result<Next, LaneFault>
        ensures asked { NextAsked (R.remaining reader.old) (R.remaining reader.new) self.old self.new result }
        ensures few { self.new.count ≤ count_limit }
        ensures kept { Appends (W.contents writer.old) (W.contents writer.new) [] }
        ensures steady_reader { R.steady ≡ true → IfErr result (λ fault. fault ≢ LaneFault.Read) }
        ensures steady_writer { W.steady ≡ true → IfErr result (λ fault. fault ≢ LaneFault.Write) }
    {
        if self.count == MAX_LINES {
            writer.send()?;
            return tell_end(reader, &mut self.line);
        }
        let found = next_line_or_send(reader, writer, &mut self.line)?;
        Ok(self.counted(found))
    }
}
