//! What reply lines say together, for `gate run --strict`.
ghost use Rattle.std.specs.Prelude.{◌≡◌, codes};
ghost use Rattle.gate_run.specs.ReplyOutcomes.{has_part, is_denied, is_refused, is_unfulfilled, outcome_of, status_of};

use gate_lines::{LaneFault, Sink};
use std::io;
use std::io::Write;

/// What reply lines say of their events, the least first.
#[derive(Clone, Copy, PartialEq, Eq)]
pub enum Outcome {
    Answered,
    /// Something was denied: a peer's event, or what a user called for.
    Denied,
    /// A line was refused, or memory ran out in the step of its event.
    Refused,
}

/// Whether these bytes stand somewhere in a text.
fn has_part(text: &[u8], part: &[u8]) -> bool
    ensures { result ≡ has_part part.now text.now }
{
    for place in 0..text.len() {
        if text[place..].starts_with(part) {
            return true;
        }
    }
    false
}

/// Whether an answer to a user is an error, or says of a transaction that it isn't allowed.
fn is_unfulfilled(reply: &[u8]) -> bool
    ensures { result ≡ is_unfulfilled reply.now }
{
    reply.starts_with(b"rpc ")
        && (!reply.starts_with(b"rpc 200 ") || has_part(reply, b"\"allowed\":false"))
}

fn is_refused(reply: &[u8]) -> bool
    ensures { result ≡ is_refused reply.now }
{
    reply.starts_with(b"refused ") || reply.starts_with(b"fault ")
}

fn is_denied(reply: &[u8]) -> bool
    ensures { result ≡ is_denied reply.now }
{
    reply.starts_with(b"denied ") || is_unfulfilled(reply)
}

impl Outcome {
    /// What a reply line says.
    pub fn of(reply: &[u8]) -> Outcome
        ensures { result ≡ outcome_of reply.now }
    {
        if is_refused(reply) {
            Outcome::Refused
        } else if is_denied(reply) {
            Outcome::Denied
        } else {
            Outcome::Answered
        }
    }

    /// The status of a run whose replies say this.
    pub fn status(self) -> u8
        ensures { result ≡ status_of self }
    {
        match self {
            Outcome::Answered => 0,
            Outcome::Denied => 1,
            Outcome::Refused => 3,
        }
    }
}

/// A writer in front of another one. If it is asked to, it keeps of each text that it takes, a reply line, what it says, if
/// that is more than what the texts before it said.
#[derive(Drop)]
pub struct OutcomeRecorder<W> {
    pub writer: W,
    records: bool,
    outcome: Outcome,
}

impl<W> OutcomeRecorder<W> {
    pub fn new(writer: W, records: bool) -> OutcomeRecorder<W>
        ensures { result.writer ≡ writer }
    {
        OutcomeRecorder {
            writer,
            records,
            outcome: Outcome::Answered,
        }
    }

    /// What the texts say together, as far as they were recorded.
    pub fn outcome(&self) -> Outcome {
        self.outcome
    }

    fn note(&mut self, text: &[u8])
        ensures { self.new.writer ≡ self.old.writer }
    {
        if !self.records {
            return;
        }
        let outcome = Outcome::of(text);
        if outcome.status() > self.outcome.status() {
            self.outcome = outcome;
        }
    }
}

impl<W: Sink> Write for OutcomeRecorder<W> {
    ghost contents = { λ recorder. W.contents recorder.writer };

    fn write(&mut self, buf: &[u8]) -> io::Result<usize> {
        self.writer.write(buf)
    }

    fn flush(&mut self) -> io::Result<()> {
        self.writer.flush()
    }
}

impl<W: Sink> Sink for OutcomeRecorder<W> {
    ghost steady = { W.steady };

    ghost held = { λ recorder. W.held recorder.writer };

    fn write_text(&mut self, text: &[u8]) -> Result<(), LaneFault> {
        self.note(text);
        self.writer.write_text(text)
    }

    fn send(&mut self) -> Result<(), LaneFault> {
        self.writer.send()
    }
}
