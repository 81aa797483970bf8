//! One entry of a journal: the line of an event, and the line of its reply. A line of a base stands between two rounds.
ghost use Rattle.std.specs.Prelude.{◌≡◌, ◌≢◌, ◌++◌, ◌≤◌, MatchOption, ℕ, List, ◌↔◌, IsTrue, codes, true, IfErr, IfOk, IsErrOf, string_bytes};
ghost use Rattle.std.specs.Fmt.{decimal};
ghost use Rattle.std.specs.Option.{option_map};
ghost use Rattle.gate_core.specs.Steps.{step_of};
ghost use Rattle.gate_lines.specs.Numbers.{max_number};
ghost use Rattle.gate_message.specs.Texts.{reply_text};
ghost use Rattle.gate_audit.specs.Journals.{base_line, event_line};
ghost use Rattle.gate_audit.specs.Reading.{AskingIsPast, EntryIsPast, EntryTaken, Replied, ReplyTaken};

use crate::counts::EntryCounts;
use crate::lines::JournalLines;
use crate::onlooker::AuditOnlooker;
use gate_bytes::Memory;
use gate_core::State;
use gate_events::event_on;
use gate_lines::{LaneFault, Source, read_number};
use gate_message::Event;
use std::alloc::Global;
use std::hash::BuildHasher;

/// What the lines up to the end of an entry, or up to a base, turned out to be.
#[derive(Clone, Copy, PartialEq, Eq)]
pub(crate) enum Taken {
    /// They spell an event, and say its reply.
    Legal,
    /// They are the line of a base, with the number of entries before it.
    Base,
    /// They are neither.
    Wrong,
    /// There are none: the journal ends here.
    End,
}

/// Whether a text is this number.
fn is_number(text: &[u8], number: u64) -> bool
    requires { number ≤ max_number }
    ensures { IsTrue result ↔ (text.now ≡ decimal number) }
{
    match std::str::from_utf8(text) {
        Ok(text) => read_number(text) == Some(number),
        Err(_) => false,
    }
}

/// Whether a line is that of a base behind this many entries.
fn is_base(line: &[u8], count: u64) -> bool
    requires { count ≤ max_number }
    ensures { IsTrue result ↔ (line.now ≡ base_line count) }
{
    match line.strip_prefix(b"base ") {
        Some(number) => is_number(number, count),
        None => false,
    }
}

/// What an event line spells: the text behind its mark.
fn spelling(line: &[u8]) -> Option<&[u8]>
    ensures { MatchOption result ((text : List ℕ) → line.now ≢ event_line text) (λ text. line.now ≡ event_line text.now) }
{
    line.strip_prefix(b"> ")
}

/// Whether a line is that of the reply with this text.
fn says(line: &[u8], reply: &str) -> bool
    ensures { IsTrue result ↔ (line.now ≡ codes "< " ++ reply.now) }
{
    match line.strip_prefix(b"< ") {
        Some(text) => text == reply.as_bytes(),
        None => false,
    }
}

/// The text of the state's reply to an event.
fn reply_text<S: BuildHasher + Copy + Drop>(
    alloc: Global,
    state: &mut State<S>,
    event: &Event,
) -> Result<String, Memory>
    ensures { IfOk result (λ text. (string_bytes text ≡ reply_text (step_of state.old event.now).0) × (state.new ≡ (step_of state.old event.now).1)) }
{
    let reply = state.apply(alloc, event)?;
    let text = reply.text(alloc);
    drop(reply);
    text
}

/// The text of the reply to the event that a line spells, or `None` if it spells none.
fn reply_to<S: BuildHasher + Copy + Drop>(
    alloc: Global,
    state: &mut State<S>,
    line: &[u8],
) -> Result<Option<String>, Memory>
    ensures { IfOk result (λ reply. Replied state.old line.now state.new (option_map string_bytes reply)) }
{
    let Some(text) = spelling(line) else {
        return Ok(None);
    };
    let Some(event) = event_on(alloc, text)? else {
        return Ok(None);
    };
    let reply = reply_text(alloc, state, &event);
    drop(event);
    Ok(Some(reply?))
}

/// Whether the next line that is neither empty nor a comment is that of the reply with this text.
fn reply_follows<R: Source>(
    reader: &mut R,
    lines: &mut JournalLines,
    reply: &str,
) -> Result<bool, LaneFault>
    ensures read { IfOk result (λ follows. ReplyTaken (R.remaining reader.old) (R.remaining reader.new) lines.old lines.new reply.now follows) }
    ensures past { R.steady ≡ true → IsErrOf result LaneFault.Read → AskingIsPast (R.remaining reader.old) lines.old.lines.count }
    ensures kind { IfErr result (λ fault. fault ≢ LaneFault.Write) }
{
    if !lines.next_significant_line(reader)? {
        return Ok(false);
    }
    Ok(says(lines.as_slice(), reply))
}

/// Reads the lines of the next entry, and makes its step; or reads the line of a base.
pub(crate) fn take_entry<S: BuildHasher + Copy + Drop, O: AuditOnlooker, R: Source>(
    alloc: Global,
    onlooker: &O,
    state: &mut State<S>,
    reader: &mut R,
    lines: &mut JournalLines,
    counts: EntryCounts,
) -> Result<Taken, LaneFault>
    ensures taken { IfOk result (λ taken. EntryTaken (R.remaining reader.old) (R.remaining reader.new) lines.old lines.new state.old state.new counts taken) }
    ensures past { R.steady ≡ true → IsErrOf result LaneFault.Read → EntryIsPast (R.remaining reader.old) lines.old.lines.count counts.in_round }
    ensures kind { IfErr result (λ fault. fault ≢ LaneFault.Write) }
{
    if !lines.next_significant_line(reader)? {
        return Ok(Taken::End);
    }
    if is_base(lines.as_slice(), counts.all) {
        return Ok(Taken::Base);
    }
    if counts.is_full() {
        return Ok(Taken::Wrong);
    }
    let Some(reply) = reply_to(alloc, state, lines.as_slice())? else {
        return Ok(Taken::Wrong);
    };
    onlooker.due(lines.as_slice(), reply.as_str());
    if reply_follows(reader, lines, reply.as_str())? {
        Ok(Taken::Legal)
    } else {
        onlooker.missed();
        Ok(Taken::Wrong)
    }
}
