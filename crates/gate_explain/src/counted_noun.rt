//! How many there are of something, in words.
use std::fmt;

/// A number of things, with their name: `1 entry`, `2 entries`.
#[derive(Clone, Copy)]
pub(crate) struct CountedNoun {
    count: u64,
    one: &'static str,
    many: &'static str,
}

impl CountedNoun {
    /// This many, with the name of one of them and of several.
    pub(crate) fn new(count: u64, one: &'static str, many: &'static str) -> CountedNoun {
        CountedNoun { count, one, many }
    }
}

impl fmt::Display for CountedNoun {
    fn fmt<W: fmt::Write>(&self, f: &mut fmt::Formatter<W>) -> fmt::Result {
        let name = if self.count == 1 { self.one } else { self.many };
        write!(f, "{} {name}", self.count)
    }
}
