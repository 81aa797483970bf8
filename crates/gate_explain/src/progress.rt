//! How far a long run has come.
use crate::telling::Telling;
use gate_causes::ReportForm;
use std::cell::Cell;
use std::time::{Clock, Instant};

/// This many events pass between two looks at the clock.
const EVENTS: u64 = 100;

/// At least this many seconds pass between two lines, and before the first.
const SECONDS: u64 = 5;

/// When a run began, and when its next line of progress is due.
#[derive(Drop)]
pub(crate) struct Progress {
    /// `None` if no progress is reported.
    begun: Cell<Option<Instant>>,
    next: Cell<u64>,
}

/// The percent of an input of this length that were read; `None` if the length is 0.
fn percent(bytes: u64, length: u64) -> Option<u64> {
    let parts = (u128::from(bytes) * 100).checked_div(u128::from(length))?;
    Some(parts.min(100) as u64)
}

impl Progress {
    /// The progress of a run that hasn't begun: none is reported.
    pub(crate) fn new() -> Progress {
        Progress {
            begun: Cell::new(None),
            next: Cell::new(SECONDS),
        }
    }

    /// The run begins now. Without a clock, and among objects, no progress is reported.
    pub(crate) fn begin<T: Clock>(&self, rt: &T, telling: &Telling<'_>) {
        if telling.progress && telling.form == ReportForm::Words {
            self.begun.set(Instant::now(rt).ok());
        }
    }

    /// The seconds since the beginning, if a line is due after this many events.
    fn due<T: Clock>(&self, rt: &T, events: u64) -> Option<u64> {
        if events % EVENTS != 0 {
            return None;
        }
        let seconds = self.begun.get()?.elapsed(rt).ok()?.as_secs();
        if seconds < self.next.get() {
            return None;
        }
        self.next.set(seconds.saturating_add(SECONDS));
        Some(seconds)
    }

    /// Reports the progress of a run after this many events, if a line is due.
    pub(crate) fn tell<T: Clock + Eprint>(&self, rt: &T, telling: &Telling<'_>, events: u64) {
        let Some(seconds) = self.due(rt, events) else {
            return;
        };
        let rate = events / seconds.max(1);
        let read = match telling.length {
            Some(length) => percent(telling.position.bytes(), length),
            None => None,
        };
        let _written = match read {
            Some(read) => eprintln!(rt;
                "gate: {events} events, {rate} a second, {read} % of the input"
            ),
            None => eprintln!(rt; "gate: {events} events, {rate} a second"),
        };
    }
}
