//! A writer that keeps the first text that it took.
ghost use Rattle.std.specs.Prelude.{◌≡◌};

use gate_lines::{LaneFault, Sink};
use std::alloc::Global;
use std::io;
use std::io::Write;

/// The longest text that is kept.
const LONGEST: usize = 100;

/// A writer in front of another one. It keeps the first text that it took, if that is short and there is memory.
#[derive(Drop)]
pub struct FirstWriteRecorder<W> {
    pub writer: W,
    alloc: Global,
    has_begun: bool,
    first: Option<Vec<u8>>,
}

impl<W> FirstWriteRecorder<W> {
    pub fn new(alloc: Global, writer: W) -> FirstWriteRecorder<W>
        ensures { result.writer ≡ writer }
    {
        FirstWriteRecorder {
            writer,
            alloc,
            has_begun: false,
            first: None,
        }
    }

    /// The first text that the writer took, if it was kept.
    pub fn first(&self) -> Option<&[u8]> {
        match &self.first {
            Some(text) => Some(text.as_slice()),
            None => None,
        }
    }

    fn keep_first(&mut self, text: &[u8])
        ensures { self.new.writer ≡ self.old.writer }
    {
        if self.has_begun {
            return;
        }
        self.has_begun = true;
        if text.len() > LONGEST {
            return;
        }
        let mut kept = Vec::new(self.alloc);
        if kept.extend_from_slice(text).is_ok() {
            self.first = Some(kept);
        }
    }
}

impl<W: Sink> Write for FirstWriteRecorder<W> {
    ghost contents = { λ recorder. W.contents recorder.writer };

    fn write(&mut self, buf: &[u8]) -> io::Result<usize> {
        self.writer.write(buf)
    }

    fn flush(&mut self) -> io::Result<()> {
        self.writer.flush()
    }
}

impl<W: Sink> Sink for FirstWriteRecorder<W> {
    ghost steady = { W.steady };

    ghost held = { λ recorder. W.held recorder.writer };

    fn write_text(&mut self, text: &[u8]) -> Result<(), LaneFault> {
        self.keep_first(text);
        self.writer.write_text(text)
    }

    fn send(&mut self) -> Result<(), LaneFault> {
        self.writer.send()
    }
}
