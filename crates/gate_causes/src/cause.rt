//! Why a line does not parse.
use crate::text::Shown;
use gate_bytes::Memory;
use std::alloc::Global;

/// Why a word does not fit the place that it stands at.
#[derive(Clone, Copy, PartialEq, Eq)]
pub(crate) enum Misfit {
    Unknown,
    NotNumber,
    NotWhole,
    LeadingZero,
    TooSmall,
    TooLarge,
    NotId,
    HasIndex,
    NotHex,
    NotAddress,
}

impl Misfit {
    fn as_str(self) -> &'static str {
        match self {
            Misfit::Unknown => "is unknown",
            Misfit::NotNumber => "is not a number",
            Misfit::NotWhole => "is not a whole number",
            Misfit::LeadingZero => "has a leading zero",
            Misfit::TooSmall => "is too small",
            Misfit::TooLarge => "is too large",
            Misfit::NotId => "is not an id",
            Misfit::HasIndex => "has an index, which is a word of its own",
            Misfit::NotHex => "is not an even number of hexadecimal digits",
            Misfit::NotAddress => "is not an IP address",
        }
    }
}

/// Why a line does not parse: the first cause from the left. That a line is not UTF-8 comes before what is wrong with its
/// words.
#[derive(Clone, Copy)]
pub(crate) enum Cause<'a> {
    /// What is wrong with the line itself, or with where it stands.
    Line(&'static str),
    /// The line ends where a word is expected.
    Ends,
    /// A word that does not fit its place.
    Word(&'a str, Misfit),
    /// A word behind the last place.
    TooMany(&'a str),
    /// A base of a journal with this text where this many entries stand before it.
    WrongBase(&'a str, u64),
}

impl Cause<'_> {
    /// The cause in words, as they stand behind the number of the line, where this is expected.
    pub(crate) fn text(self, alloc: Global, expected: &str) -> Result<String, Memory> {
        Ok(match self {
            Cause::Line(says) => String::from_str(alloc, says)?,
            Cause::Ends => format!(in alloc; "ends before {expected}")?,
            Cause::Word(word, misfit) => {
                format!(in alloc; "{} {}; expected {expected}", Shown(word), misfit.as_str())?
            }
            Cause::TooMany(word) => format!(in alloc; "{} is one word too many", Shown(word))?,
            Cause::WrongBase(text, count) => format!(in alloc;
                "{} is not the number of entries before the line, which is {count}",
                Shown(text)
            )?,
        })
    }
}
