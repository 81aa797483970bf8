//! Where a reader stands.
use std::cell::Cell;
use std::fmt;

/// Why an input is not read further.
#[derive(Clone, Copy, Debug, PartialEq, Eq)]
pub enum Limit {
    /// More than 64 lanes.
    Lanes,
    /// A round of lanes that does not begin with a line `---`.
    Round,
    /// More than 1,000,000 lines in an opening, or behind it.
    Lines,
    /// A line of more than 16,777,216 bytes.
    Line,
}

impl fmt::Display for Limit {
    fn fmt<W: fmt::Write>(&self, f: &mut fmt::Formatter<W>) -> fmt::Result {
        match self {
            Limit::Lanes => write!(f, "a 65th lane; 64 are the most"),
            Limit::Round => write!(f, "a round begins with a line ---"),
            Limit::Lines => write!(f, "1,000,000 lines are the most"),
            Limit::Line => write!(f, "more than 16,777,216 bytes"),
        }
    }
}

/// Where a reader stands, for messages on what happens there. It may be looked at while the reader is lent.
#[derive(Drop)]
pub struct InputPosition {
    line: Cell<u64>,
    bytes: Cell<u64>,
    refused: Cell<u64>,
    limit: Cell<Option<Limit>>,
}

impl InputPosition {
    /// The position before the first line.
    pub fn new() -> InputPosition {
        InputPosition {
            line: Cell::new(0),
            bytes: Cell::new(0),
            refused: Cell::new(0),
            limit: Cell::new(None),
        }
    }

    /// The number of the line that was read last, from 1.
    pub fn line(&self) -> u64 {
        self.line.get()
    }

    /// How many bytes were read up to the end of that line, with its newline.
    pub fn bytes(&self) -> u64 {
        self.bytes.get()
    }

    /// How many lines behind the opening were reported.
    pub fn refused(&self) -> u64 {
        self.refused.get()
    }

    /// The first limit that the input came to: if the input could not be read, it is past that limit.
    pub fn limit(&self) -> Option<Limit> {
        self.limit.get()
    }

    /// Goes to the next line, which has this many bytes, and gives its number.
    pub(crate) fn advance(&self, length: usize) -> u64 {
        let number = self.line.get().saturating_add(1);
        self.line.set(number);
        let bytes = self.bytes.get().saturating_add(length as u64);
        self.bytes.set(bytes.saturating_add(1));
        number
    }

    pub(crate) fn refuse(&self) {
        self.refused.set(self.refused.get().saturating_add(1));
    }

    pub(crate) fn pass(&self, limit: Limit) {
        if self.limit.get().is_none() {
            self.limit.set(Some(limit));
        }
    }
}
