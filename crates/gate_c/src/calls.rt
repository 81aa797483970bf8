//! What a call does behind its handle.
ghost use Rattle.std.specs.Prelude.{◌≡◌, ◌≤◌, List, ℕ, IfOk, MatchResult};
ghost use Rattle.gate_c.specs.Calls.{AnswerRepeated, ChangesPut, CheckCalled, ExplanationPut, LineCalled, Opened, ReadingCalled, RefusalPut, Unopened, Unread};
ghost use Rattle.gate_c.specs.Readings.{IsRead};
ghost use Rattle.gate_c.specs.Sessions.{AnswerKept, Rests, SwitchCopied};
ghost use Rattle.gate_c.specs.Statuses.{code_of};

use crate::keys::Keys;
use crate::output::{put_nothing, put_text};
use crate::reading::Reading;
use crate::session::GateSession;
use crate::status::Status;
use gate_check::run_check_input;
use gate_lines::MAX_LINE;
use gate_opening::{OpeningFault, OpeningToken};
use std::alloc::Global;

/// Puts a value into a box.
fn boxed<T: Drop>(alloc: Global, value: T) -> Result<Box<T, Global>, Status>
    ensures { MatchResult result (λ made. made.value ≡ value) (λ status. status ≡ Status.OutOfMemory) }
{
    match Box::new(alloc, value) {
        Ok(made) => Ok(made),
        Err(_) => Err(Status::OutOfMemory),
    }
}

/// The status of a check that was made.
fn check_status(status: u8) -> Status
    ensures { status ≤ 1 → code_of result ≡ status }
{
    if status == 0 {
        Status::Done
    } else {
        Status::Denied
    }
}

/// Checks the transaction that the digits of an input spell, and puts the lines of the check into the buffer.
pub fn check_input(alloc: Global, input: &[u8], out: &mut [u8], size: &mut usize) -> Status
    ensures { CheckCalled input.now out.old out.new size.new (code_of result) }
{
    let mut text = Vec::new(alloc);
    let mut reader: &[u8] = input;
    match run_check_input(alloc, &mut reader, &mut text) {
        Ok(status) => put_text(check_status(status), text.as_slice(), out, size),
        Err(_) => put_nothing(Status::OutOfMemory, size),
    }
}

/// Puts the last answer into the buffer.
pub fn repeat_answer(
    alloc: Global,
    session: &mut GateSession,
    out: &mut [u8],
    size: &mut usize,
) -> Status
    ensures { AnswerRepeated session.old session.new out.old out.new size.new (code_of result) }
{
    match session.write(alloc) {
        Ok(()) => put_text(Status::Done, session.text.as_bytes(), out, size),
        Err(_) => put_nothing(Status::ReplyKept, size),
    }
}

/// Puts the lines of what the last line moved into the buffer.
pub fn tell_changes(
    alloc: Global,
    session: &GateSession,
    out: &mut [u8],
    size: &mut usize,
) -> Status
    ensures { ChangesPut session.now out.old out.new size.new (code_of result) }
{
    match session.changes(alloc) {
        Ok(text) => put_text(Status::Done, text.as_bytes(), out, size),
        Err(_) => put_nothing(Status::OutOfMemory, size),
    }
}

/// Puts what is said of the reply to the last line into the buffer.
pub fn tell_explanation(session: &GateSession, out: &mut [u8], size: &mut usize) -> Status
    ensures { ExplanationPut session.now out.old out.new size.new (code_of result) }
{
    match &session.explanation {
        None => put_text(Status::Done, "".as_bytes(), out, size),
        Some(explanation) => match &explanation.text {
            Some(text) => put_text(Status::Done, text.as_bytes(), out, size),
            None => put_nothing(Status::OutOfMemory, size),
        },
    }
}

/// Reads a line, unless it is too long.
pub fn read_line(alloc: Global, line: &[u8]) -> Result<Reading, Status>
    ensures { MatchResult result (λ reading. IsRead line.now reading) (λ status. Unread line.now (code_of status)) }
{
    if line.len() > MAX_LINE {
        return Err(Status::LineTooLong);
    }
    match Reading::of(alloc, line) {
        Ok(reading) => Ok(reading),
        Err(_) => Err(Status::OutOfMemory),
    }
}

/// Reads a line into a box.
pub fn read_event(alloc: Global, line: &[u8]) -> Result<Box<Reading, Global>, Status>
    ensures { MatchResult result (λ reading. IsRead line.now reading.value) (λ status. Unread line.now (code_of status)) }
{
    let reading = read_line(alloc, line)?;
    boxed(alloc, reading)
}

/// Answers what a line asks for, and puts the answer into the buffer.
pub fn answer_reading(
    alloc: Global,
    session: &mut GateSession,
    reading: &Reading,
    out: &mut [u8],
    size: &mut usize,
) -> Status
    ensures answered { ReadingCalled session.old reading.now session.new out.old out.new size.new (code_of result) }
    ensures as_line { (line : List ℕ) → IsRead line reading.now →
        LineCalled session.old line session.new out.old out.new size.new (code_of result) }
{
    match session.answer(alloc, reading) {
        Ok(()) => repeat_answer(alloc, session, out, size),
        Err(_) => put_nothing(Status::OutOfMemory, size),
    }
}

/// Answers a line, and puts the answer into the buffer.
pub fn answer_line(
    alloc: Global,
    session: &mut GateSession,
    line: &[u8],
    out: &mut [u8],
    size: &mut usize,
) -> Status
    ensures { LineCalled session.old line.now session.new out.old out.new size.new (code_of result) }
{
    match read_line(alloc, line) {
        Ok(reading) => answer_reading(alloc, session, &reading, out, size),
        Err(status) => {
            session.rest();
            put_nothing(status, size)
        }
    }
}

/// A copy of a session.
pub fn copy_session(
    alloc: Global,
    session: &GateSession,
) -> Result<Box<GateSession, Global>, Status>
    ensures same { MatchResult result (λ copy. AnswerKept session.now copy.value) (λ status. status ≡ Status.OutOfMemory) }
    ensures rests { IfOk result (λ copy. Rests copy.value) }
    ensures switch { IfOk result (λ copy. SwitchCopied session.now copy.value) }
{
    match session.copy(alloc) {
        Ok(copy) => boxed(alloc, copy),
        Err(_) => Err(Status::OutOfMemory),
    }
}

/// Puts the line of an opening's fault into the buffer.
fn refuse_opening(
    alloc: Global,
    line: u64,
    token: OpeningToken,
    out: &mut [u8],
    size: &mut usize,
) -> Status
    ensures { RefusalPut line token out.old out.new size.new (code_of result) }
{
    match format!(in alloc; "opening {line} {token}\n") {
        Ok(text) => put_text(Status::OpeningRefused, text.as_bytes(), out, size),
        Err(_) => put_nothing(Status::OutOfMemory, size),
    }
}

/// Opens a session, or puts the line of the opening's fault into the buffer.
pub fn open_session(
    alloc: Global,
    keys: &Keys,
    opening: &[u8],
    out: &mut [u8],
    size: &mut usize,
) -> Result<Box<GateSession, Global>, Status>
    ensures { MatchResult result (λ session. Opened opening.now session.value out.old out.new size.new)
        (λ status. Unopened opening.now out.old out.new size.new (code_of status)) }
{
    *size = 0;
    match GateSession::open(alloc, keys, opening) {
        Ok(session) => boxed(alloc, session),
        Err(OpeningFault::Line(line, token)) => {
            Err(refuse_opening(alloc, line, token, out, size))
        }
        // Memory ran out: reading bytes that are in memory never fails.
        Err(_) => Err(Status::OutOfMemory),
    }
}
