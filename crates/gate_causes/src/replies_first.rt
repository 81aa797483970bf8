//! A writer that lets replies stand before what is said of them.
use crate::aside::Aside;
use gate_lines::{LaneFault, Sink};
use std::io;
use std::io::Write;

/// A writer in front of another one. Where what is said of replies waits for them, each text that it takes is sent on at once,
/// and what waits is said then.
#[derive(Drop)]
pub struct RepliesFirst<'a, W, T> {
    pub writer: W,
    aside: &'a Aside<'a, T>,
}

impl<'a, W, T> RepliesFirst<'a, W, T> {
    pub fn new(writer: W, aside: &'a Aside<'a, T>) -> RepliesFirst<'a, W, T> {
        RepliesFirst { writer, aside }
    }
}

impl<W: Sink, T: Eprint> Write for RepliesFirst<'_, W, T> {
    ghost contents = { λ first. W.contents first.writer };

    fn write(&mut self, buf: &[u8]) -> io::Result<usize> {
        self.writer.write(buf)
    }

    fn flush(&mut self) -> io::Result<()> {
        self.writer.flush()
    }
}

impl<W: Sink, T: Eprint> Sink for RepliesFirst<'_, W, T> {
    ghost steady = { W.steady };

    ghost held = { λ first. W.held first.writer };

    fn write_text(&mut self, text: &[u8]) -> Result<(), LaneFault> {
        self.writer.write_text(text)?;
        if self.aside.waits() {
            // What can't be sent on stays with the writer, and the last sending fails too.
            let _sent = self.writer.send();
            self.aside.release();
        }
        Ok(())
    }

    fn send(&mut self) -> Result<(), LaneFault> {
        let sent = self.writer.send();
        self.aside.release();
        sent
    }
}
