//! What is noted and reported of the lines that pass.
use crate::aside::Aside;
use crate::causes::event_cause;
use crate::colour::{Colour, Painted};
use crate::input_position::{InputPosition, Limit};
use crate::journal::Entries;
use crate::line_number::LineNumber;
use crate::report_form::{Quoted, ReportForm};
use crate::transaction::{submitted, transaction_cause};
use gate_bytes::Memory;
use gate_events::event_on;
use gate_lines::{MAX_LINE, MAX_LINES, is_blank_or_comment};
use gate_message::Caller;
use gate_release::Release;
use std::alloc::Global;

/// What stands behind an opening.
#[derive(Clone, Copy, PartialEq, Eq)]
pub enum InputKind {
    /// Nothing, nor is there an opening: no line is looked at.
    Nothing,
    /// Events, one a line.
    Events,
    /// Lanes of events, each behind a line `---`, in rounds, each up to a line `===`.
    Lanes,
    /// A journal: events behind `> `, replies behind `< `, and numbers of entries behind `base `.
    Journal,
}

/// The most lanes of an input.
const MAX_LANES: u64 = 64;

/// What is said of an event of another caller than that of the lane's first event.
const OTHER_CALLER: &str =
    "the caller is not that of the lane, which is the caller of its first event; is a line --- missing?";

/// What is known of the lines that passed. It keeps the last line of the opening and the position of the reader.
#[derive(Drop)]
pub(crate) struct LineWatch<'a, T> {
    aside: &'a Aside<'a, T>,
    alloc: Global,
    kind: InputKind,
    /// How lines behind the opening are reported on standard error, if they are.
    reports: Option<ReportForm>,
    position: &'a InputPosition,
    has_opened: bool,
    lines: u64,
    lanes: u64,
    /// Whether a round ended, and no lane of the next one has begun.
    awaits_lane: bool,
    caller: Option<Caller>,
    entries: Entries,
    last: Vec<u8>,
    is_kept: bool,
}

impl<'a, T: Eprint> LineWatch<'a, T> {
    pub(crate) fn new(
        alloc: Global,
        aside: &'a Aside<'a, T>,
        kind: InputKind,
        reports: Option<ReportForm>,
        position: &'a InputPosition,
    ) -> LineWatch<'a, T> {
        LineWatch {
            aside,
            alloc,
            kind,
            reports,
            position,
            has_opened: false,
            lines: 0,
            lanes: 1,
            awaits_lane: false,
            caller: None,
            entries: Entries::new(),
            last: Vec::new(alloc),
            is_kept: true,
        }
    }

    /// The last line of the opening that was read whole, if there was memory to keep it.
    pub(crate) fn last(&self) -> Option<&[u8]> {
        if self.is_kept {
            Some(self.last.as_slice())
        } else {
            None
        }
    }

    /// Notes a line that was read whole.
    pub(crate) fn pass(&mut self, line: &[u8]) {
        if self.kind == InputKind::Nothing {
            return;
        }
        let number = self.position.advance(line.len());
        if self.has_opened {
            self.count(number, line);
            if self.reports.is_some() {
                // What there is no memory for is not said.
                let _reported = self.report(number, line);
            }
            return;
        }
        if number > MAX_LINES {
            self.exceed(number, Limit::Lines);
        }
        if line == b"---".as_slice() {
            self.has_opened = true;
        } else {
            self.tell_what_lacks(number, line);
            self.last.clear();
            self.is_kept = self.last.extend_from_slice(line).is_ok();
        }
    }

    /// Says what a release that a line of the opening names has and no line can say.
    fn tell_what_lacks(&self, number: u64, line: &[u8]) {
        if self.reports.is_none() {
            return;
        }
        let Some(release) = release_on(line) else {
            return;
        };
        if let Some(lacks) = release.lacks() {
            // What there is no memory for is not said.
            if let Ok(text) = format!(in self.alloc;
                "an opening can't say all that {} does: {lacks}",
                release.word()
            ) {
                self.say(number, text.as_str());
                // An opening has no reply that this could wait for.
                self.aside.release();
            }
        }
    }

    /// Notes that the next line, of which more bytes were found than are kept, is past a limit. If as many lines were
    /// read as there may be, no byte of the next one is kept.
    pub(crate) fn pass_too_long(&self, line: &[u8]) {
        let lines = if self.has_opened {
            self.lines
        } else {
            self.position.line()
        };
        let number = self.position.advance(line.len());
        self.exceed(
            number,
            if lines >= MAX_LINES {
                Limit::Lines
            } else {
                Limit::Line
            },
        );
    }

    /// Notes the end of the input: a round that still waits for its first lane lacks it.
    pub(crate) fn end(&self) {
        if self.awaits_lane {
            self.position.pass(Limit::Round);
        }
    }

    /// Notes that a line is past a limit, and reports it if it is an event's.
    fn exceed(&self, number: u64, limit: Limit) {
        self.position.pass(limit);
        if self.reports.is_some() && self.has_opened && self.kind == InputKind::Events {
            self.position.refuse();
            let _written = match self.reports {
                Some(ReportForm::Json) => eprintln!(self.aside;
                    "{{\"line\":{number},\"cause\":\"{limit}\"}}"
                ),
                _ => eprintln!(self.aside; "gate: {}: {limit}", self.place(number)),
            };
        }
    }

    /// Counts a line behind the opening.
    fn count(&mut self, number: u64, line: &[u8]) {
        self.lines = self.lines.saturating_add(1);
        if self.lines > MAX_LINES {
            self.exceed(number, Limit::Lines);
        }
        // A line of a journal with a mark may be longer by its mark.
        if self.kind == InputKind::Journal && line.len() > MAX_LINE && !has_mark(line) {
            self.exceed(number, Limit::Line);
        }
        if self.kind == InputKind::Lanes {
            self.count_lanes(line);
        }
    }

    /// Counts the lane that a line begins, or notes the round that it ends.
    fn count_lanes(&mut self, line: &[u8]) {
        if line == b"---".as_slice() {
            self.caller = None;
            self.awaits_lane = false;
            self.lanes = self.lanes.saturating_add(1);
            if self.lanes > MAX_LANES {
                self.position.pass(Limit::Lanes);
            }
            return;
        }
        if self.awaits_lane && !is_blank_or_comment(line) {
            self.position.pass(Limit::Round);
        }
        if line == b"===".as_slice() {
            self.awaits_lane = true;
        }
    }

    /// The event of a line behind the opening, if the line has to have one.
    fn event_in<'b>(&self, line: &'b [u8]) -> Option<&'b [u8]> {
        match (self.kind, line) {
            (InputKind::Events, _) => Some(line),
            (InputKind::Lanes, b"---") => None,
            (InputKind::Lanes, _) if !self.awaits_lane => Some(line),
            (InputKind::Journal, [b'>', b' ', event @ ..]) => Some(event),
            _ => None,
        }
    }

    /// Reports what is wrong with a line behind the opening: that it does not parse or can't stand where it does, that
    /// its transaction does not decode, or that its caller is not the lane's.
    fn report(&mut self, number: u64, line: &[u8]) -> Result<(), Memory> {
        if is_blank_or_comment(line) {
            return Ok(());
        }
        if self.kind == InputKind::Journal {
            if let Err(cause) = self.entries.advance(line) {
                let text = cause.text(self.alloc, "")?;
                self.position.refuse();
                self.say(number, text.as_str());
                return Ok(());
            }
        }
        let Some(event) = self.event_in(line) else {
            return Ok(());
        };
        if let Some(cause) = event_cause(self.alloc, event)? {
            self.position.refuse();
            self.say(number, cause.as_str());
            return Ok(());
        }
        if let Some(word) = submitted(event) {
            if let Some(cause) = transaction_cause(self.alloc, word)? {
                self.say(number, cause.as_str());
            }
        }
        if self.kind == InputKind::Lanes && self.is_of_other_caller(event)? {
            self.say(number, OTHER_CALLER);
        }
        Ok(())
    }

    /// Whether an event of a lane is of another caller than that of the lane's first event.
    fn is_of_other_caller(&mut self, line: &[u8]) -> Result<bool, Memory> {
        let Some(event) = event_on(self.alloc, line)? else {
            return Ok(false);
        };
        let caller = event.caller(self.alloc);
        drop(event);
        let caller = caller?;
        match &self.caller {
            Some(first) => Ok(*first != caller),
            None => {
                self.caller = Some(caller);
                Ok(false)
            }
        }
    }

    /// Says something of a line on standard error. What that doesn't take is lost.
    fn say(&self, number: u64, text: &str) {
        let _written = match self.reports {
            Some(ReportForm::Json) => {
                let cause = Quoted(text);
                eprintln!(self.aside; "{{\"line\":{number},\"cause\":{cause}}}")
            }
            _ => eprintln!(self.aside; "gate: {}: {text}", self.place(number)),
        };
    }

    /// Where something is wrong.
    fn place(&self, number: u64) -> Painted<LineNumber<u64>> {
        self.aside
            .colours()
            .paint(Colour::Yellow, LineNumber(number))
    }
}

/// The release that a line of an opening names.
fn release_on(line: &[u8]) -> Option<Release> {
    let text = std::str::from_utf8(line).ok()?;
    Release::from_word(text.strip_prefix("policy ")?)
}

/// Whether a line of a journal has the mark of an event or of a reply.
fn has_mark(line: &[u8]) -> bool {
    match line {
        [b'>' | b'<', b' ', ..] => true,
        _ => false,
    }
}
