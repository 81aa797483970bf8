//! A reader that reports on the lines that pass.
ghost use Rattle.std.specs.Prelude.{◌≡◌};

use crate::aside::Aside;
use crate::input_position::InputPosition;
use crate::line_watch::{InputKind, LineWatch};
use crate::report_form::ReportForm;
use gate_bytes::Memory;
use gate_lines::{LaneFault, Part, Source};
use std::alloc::Global;
use std::io;
use std::io::{BufRead, Read};

/// A reader of an opening and what stands behind it, in front of another reader. It keeps the last line of the opening
/// and its position. If it is asked to, it reports on standard error what is wrong with lines behind the opening.
#[derive(Drop)]
pub struct LineReporter<'a, R, T> {
    pub reader: R,
    watch: LineWatch<'a, T>,
}

impl<'a, R, T: Eprint> LineReporter<'a, R, T> {
    pub fn new(
        alloc: Global,
        aside: &'a Aside<'a, T>,
        reader: R,
        kind: InputKind,
        reports: Option<ReportForm>,
        position: &'a InputPosition,
    ) -> LineReporter<'a, R, T>
        ensures { result.reader ≡ reader }
    {
        LineReporter {
            reader,
            watch: LineWatch::new(alloc, aside, kind, reports, position),
        }
    }

    /// The last line of the opening that was read whole, if there was memory to keep it.
    pub fn last(&self) -> Option<&[u8]> {
        self.watch.last()
    }
}

impl<R: Source, T: Eprint> Read for LineReporter<'_, R, T> {
    ghost remaining = { λ reporter. R.remaining reporter.reader };

    fn read(&mut self, buf: &mut [u8]) -> io::Result<usize> {
        self.reader.read(buf)
    }
}

impl<R: Source, T: Eprint> BufRead for LineReporter<'_, R, T> {
    ghost consumable_len = { λ reporter. R.consumable_len reporter.reader };

    fn fill_buf(&mut self) -> io::Result<&[u8]> {
        self.reader.fill_buf()
    }

    fn consume(&mut self, amount: usize) {
        self.reader.consume(amount)
    }
}

impl<R: Source, T: Eprint> Source for LineReporter<'_, R, T> {
    ghost steady = { R.steady };

    fn take_waiting(&mut self, line: &mut Vec<u8>, room: usize) -> Result<bool, Memory> {
        let is_whole = self.reader.take_waiting(line, room)?;
        if is_whole {
            self.watch.pass(line.as_slice());
        }
        Ok(is_whole)
    }

    fn take_part(&mut self, line: &mut Vec<u8>, room: usize) -> Result<Part, LaneFault> {
        let part = self.reader.take_part(line, room)?;
        match part {
            Part::Newline => self.watch.pass(line.as_slice()),
            Part::End => {
                if !line.is_empty() {
                    self.watch.pass(line.as_slice());
                }
                self.watch.end();
            }
            Part::TooLong => self.watch.pass_too_long(line.as_slice()),
            Part::More => {}
        }
        Ok(part)
    }
}
