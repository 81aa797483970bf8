//! How words and numbers are printed, and which known word is near to one.
use gate_bytes::Memory;
use std::alloc::Global;
use std::fmt;
use strsim::levenshtein;

/// The longest word that is compared with the known ones, and how many characters of a longer one are printed.
const LONGEST: usize = 40;

/// A word that is this many edits away is no longer near.
const FAR: usize = 3;

/// A text of a line in quotes, cut after 40 characters.
#[derive(Clone, Copy)]
pub(crate) struct Shown<'a>(pub(crate) &'a str);

impl fmt::Display for Shown<'_> {
    fn fmt<W: fmt::Write>(&self, f: &mut fmt::Formatter<W>) -> fmt::Result {
        let text = self.0;
        if text.len() <= LONGEST {
            return write!(f, "\"{text}\"");
        }
        write!(f, "\"")?;
        for character in text.chars().take(LONGEST) {
            write!(f, "{character}")?;
        }
        write!(f, "..\"")
    }
}

/// A number with a comma before each three digits, if it is below 10^18.
#[derive(Clone, Copy)]
pub(crate) struct Grouped(pub(crate) u64);

impl fmt::Display for Grouped {
    fn fmt<W: fmt::Write>(&self, f: &mut fmt::Formatter<W>) -> fmt::Result {
        let number = self.0;
        let groups = [
            number / 1_000_000_000_000_000,
            number / 1_000_000_000_000 % 1_000,
            number / 1_000_000_000 % 1_000,
            number / 1_000_000 % 1_000,
            number / 1_000 % 1_000,
            number % 1_000,
        ];
        let mut has_begun = false;
        for group in groups {
            if has_begun {
                write!(f, ",{group:03}")?;
            } else if group != 0 {
                write!(f, "{group}")?;
                has_begun = true;
            }
        }
        if has_begun { Ok(()) } else { write!(f, "0") }
    }
}

/// The known word that is nearest to a word, if any is near.
pub(crate) fn nearest(
    alloc: Global,
    word: &str,
    known: &[&'static str],
) -> Result<Option<&'static str>, Memory> {
    let mut found = None;
    // If nothing would be left of a word, it is near no known word.
    let mut least = FAR.min(word.len());
    if word.len() > LONGEST {
        return Ok(None);
    }
    for name in known {
        if name.eq_ignore_ascii_case(word) {
            return Ok(Some(*name));
        }
        let edits = levenshtein(alloc, word, name)?;
        if edits < least {
            least = edits;
            found = Some(*name);
        }
    }
    Ok(found)
}
