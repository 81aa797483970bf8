//! The gate as a static library for C, whose calls `lib/gate.h` declares.
//!
//! A handle serves one call at a time. The main clause is that of [`gate_answer`]: what is put into the buffer is the reply
//! line that the line has in the handle's state, and the handle then holds the state after it.
#![tactic(auto)]

ghost use Rattle.std.specs.Prelude.{◌≡◌, List, ℕ, None, codes};
ghost use Rattle.gate_c.specs.Calls.{AnswerCalled, ChangesCalled, CheckCalled, CopyCalled, EventCalled, ExplainCalled, ExplanationCalled, HoldsLine, OpenCalled, OpenCalledBy, ReadCalled, ReplyCalled};
ghost use Rattle.gate_c.specs.Outputs.{TextPut};
ghost use Rattle.gate_c.specs.Readings.{IsRead};
ghost use Rattle.gate_c.specs.Statuses.{code_of, done};

mod answer;
mod calls;
mod changes;
mod explanation;
mod handle;
mod keys;
mod output;
mod reading;
mod remembered;
mod session;
mod status;

use calls::{
    answer_line, answer_reading, check_input, copy_session, open_session, read_event,
    repeat_answer, tell_changes, tell_explanation,
};
use gate_print::VERSION;
use handle::{GateEvent, GateHandle};
use keys::Keys;
use output::{put_nothing, put_text};
use reading::Reading;
use status::Status;
use std::alloc::Global;

/// Opens a handle that is closed, from the text of an opening; the keys are those of its hash tables. If the opening is
/// refused, the line of its fault is put into the buffer.
#[unsafe(no_mangle)]
pub extern "C" fn gate_open(
    alloc: Global,
    gate: &mut GateHandle,
    keys: &Keys,
    opening: &[u8],
    out: &mut [u8],
    size: &mut usize,
) -> u32
    ensures { OpenCalled gate.old.slot.session opening.now gate.new.slot.session out.old out.new size.new result }
{
    if gate.is_open {
        return put_nothing(Status::AlreadyOpen, size).code();
    }
    match open_session(alloc, keys, opening, out, size) {
        Ok(session) => {
            gate.put(session);
            Status::Done.code()
        }
        Err(status) => status.code(),
    }
}

/// Answers a line, given without its newline, and puts its reply line into the buffer, with a newline. If the buffer is
/// too small, the line is answered all the same, and [`gate_reply`] gives the reply.
#[unsafe(no_mangle)]
pub extern "C" fn gate_answer(
    alloc: Global,
    gate: &mut GateHandle,
    line: &[u8],
    out: &mut [u8],
    size: &mut usize,
) -> u32
    ensures { AnswerCalled gate.old.slot.session line.now gate.new.slot.session out.old out.new size.new result }
{
    match gate.take(alloc) {
        Some(mut session) => {
            let status = answer_line(alloc, &mut session, line, out, size);
            gate.put(session);
            status.code()
        }
        None => put_nothing(Status::NotOpen, size).code(),
    }
}

/// Puts the reply to the last line into the buffer once more.
#[unsafe(no_mangle)]
pub extern "C" fn gate_reply(
    alloc: Global,
    gate: &mut GateHandle,
    out: &mut [u8],
    size: &mut usize,
) -> u32
    ensures { ReplyCalled gate.old.slot.session gate.new.slot.session out.old out.new size.new result }
{
    match gate.take(alloc) {
        Some(mut session) => {
            let status = repeat_answer(alloc, &mut session, out, size);
            gate.put(session);
            status.code()
        }
        None => put_nothing(Status::NotOpen, size).code(),
    }
}

/// Puts the lines of what the last line moved in the pool into the buffer: `- TXID` for each entry that left, and then
/// `+ TXID` for each that came, both in order of admission. What left and came back within one event is in neither.
#[unsafe(no_mangle)]
pub extern "C" fn gate_changes(
    alloc: Global,
    gate: &mut GateHandle,
    out: &mut [u8],
    size: &mut usize,
) -> u32
    ensures { ChangesCalled gate.old.slot.session gate.new.slot.session out.old out.new size.new result }
{
    match gate.take(alloc) {
        Some(session) => {
            let status = tell_changes(alloc, &session, out, size);
            gate.put(session);
            status.code()
        }
        None => put_nothing(Status::NotOpen, size).code(),
    }
}

/// Lets a handle explain its lines from the next one on, which gets this number; 0 lets it explain none. No reply depends
/// on it.
#[unsafe(no_mangle)]
pub extern "C" fn gate_explain(alloc: Global, gate: &mut GateHandle, line: u64) -> u32
    ensures { ExplainCalled gate.old.slot.session line gate.new.slot.session result }
{
    match gate.take(alloc) {
        Some(mut session) => {
            session.explain_from(line);
            gate.put(session);
            Status::Done.code()
        }
        None => Status::NotOpen.code(),
    }
}

/// Puts what is said of the reply to the last line into the buffer: a JSON object with a newline. There is none if the
/// handle didn't explain that line, and of a reply that names no rule, but for an error of a call.
#[unsafe(no_mangle)]
pub extern "C" fn gate_explanation(
    alloc: Global,
    gate: &mut GateHandle,
    out: &mut [u8],
    size: &mut usize,
) -> u32
    ensures { ExplanationCalled gate.old.slot.session gate.new.slot.session out.old out.new size.new result }
{
    match gate.take(alloc) {
        Some(session) => {
            let status = tell_explanation(&session, out, size);
            gate.put(session);
            status.code()
        }
        None => put_nothing(Status::NotOpen, size).code(),
    }
}

/// Closes a handle, and frees what it holds. A closed handle stays closed.
#[unsafe(no_mangle)]
pub extern "C" fn gate_close(alloc: Global, gate: &mut GateHandle)
    ensures { gate.new.slot.session ≡ None }
{
    drop(gate.take(alloc));
}

/// Opens a second handle, which is closed, with a copy of what the first one holds: the same state and the same last reply. Only
/// transactions, which never change, are shared. The copy explains its lines if the first one does, by the same numbers.
#[unsafe(no_mangle)]
pub extern "C" fn gate_copy(alloc: Global, gate: &mut GateHandle, copy: &mut GateHandle) -> u32
    ensures { CopyCalled gate.old.slot.session copy.old.slot.session gate.new.slot.session copy.new.slot.session result }
{
    if copy.is_open {
        return Status::AlreadyOpen.code();
    }
    match gate.take(alloc) {
        Some(session) => {
            let copied = copy_session(alloc, &session);
            gate.put(session);
            match copied {
                Ok(session) => {
                    copy.put(session);
                    Status::Done.code()
                }
                Err(status) => status.code(),
            }
        }
        None => Status::NotOpen.code(),
    }
}

/// Reads a line, given without its newline, into an event, in the place of what that holds. It needs no gate: a
/// transaction is decoded and hashed, and the rules on it alone are tested.
#[unsafe(no_mangle)]
pub extern "C" fn gate_read(alloc: Global, event: &mut GateEvent, line: &[u8]) -> u32
    ensures { ReadCalled event.old.slot.reading line.now event.new.slot.reading result }
{
    match read_event(alloc, line) {
        Ok(reading) => {
            event.put(reading);
            Status::Done.code()
        }
        Err(status) => status.code(),
    }
}

/// Answers what a line asks for by a handle, and puts its reply line into the buffer.
fn answer_by(
    alloc: Global,
    gate: &mut GateHandle,
    reading: &Reading,
    out: &mut [u8],
    size: &mut usize,
) -> Status
    ensures answered { OpenCalledBy gate.old.slot.session reading.now gate.new.slot.session out.old out.new size.new (code_of result) }
    ensures as_line { (line : List ℕ) → IsRead line reading.now →
        AnswerCalled gate.old.slot.session line gate.new.slot.session out.old out.new size.new (code_of result) }
{
    match gate.take(alloc) {
        Some(mut session) => {
            let status = answer_reading(alloc, &mut session, reading, out, size);
            gate.put(session);
            status
        }
        None => put_nothing(Status::NotOpen, size),
    }
}

/// Answers an event as [`gate_answer`] answers the line that it was read from. The event stays open.
#[unsafe(no_mangle)]
pub extern "C" fn gate_answer_event(
    alloc: Global,
    gate: &mut GateHandle,
    event: &mut GateEvent,
    out: &mut [u8],
    size: &mut usize,
) -> u32
    ensures answered { EventCalled gate.old.slot.session event.old.slot.reading gate.new.slot.session out.old out.new size.new result }
    ensures as_line { (line : List ℕ) → HoldsLine line event.old.slot.reading →
        AnswerCalled gate.old.slot.session line gate.new.slot.session out.old out.new size.new result }
    ensures kept { event.new.slot.reading ≡ event.old.slot.reading }
{
    match event.take(alloc) {
        Some(reading) => {
            let status = answer_by(alloc, gate, &reading, out, size);
            event.put(reading);
            status.code()
        }
        None => put_nothing(Status::NotOpen, size).code(),
    }
}

/// Closes an event, and frees what it holds. A closed event stays closed.
#[unsafe(no_mangle)]
pub extern "C" fn gate_event_close(alloc: Global, event: &mut GateEvent)
    ensures { event.new.slot.reading ≡ None }
{
    drop(event.take(alloc));
}

/// Checks by itself the transaction that the digits of an input spell, and puts the lines of the check into the buffer.
#[unsafe(no_mangle)]
pub extern "C" fn gate_check(alloc: Global, input: &[u8], out: &mut [u8], size: &mut usize) -> u32
    ensures { CheckCalled input.now out.old out.new size.new result }
{
    check_input(alloc, input, out, size).code()
}

/// Puts the version of the gate into the buffer, without a newline.
#[unsafe(no_mangle)]
pub extern "C" fn gate_version(out: &mut [u8], size: &mut usize) -> u32
    ensures { TextPut done (codes "0.1.0") out.old out.new size.new result }
{
    put_text(Status::Done, VERSION.as_bytes(), out, size).code()
}
