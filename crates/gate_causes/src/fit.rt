//! How far a line fits a form, and what is wrong with it there.
use crate::cause::{Cause, Misfit};
use crate::forms::{Form, Forms, Kind, Place};
use gate_lines::{next_word, read_number};
use gate_net::Address;

/// The words of a line that were not taken yet.
#[derive(Clone, Copy)]
struct Words<'a>(Option<&'a str>);

impl<'a> Words<'a> {
    /// Takes the next word, if there is one. Where a space too many stands, the word is empty.
    fn take(&mut self) -> Option<&'a str> {
        let text = self.0?;
        let (word, rest) = match next_word(text) {
            Some((word, rest)) => (word, Some(rest)),
            None => (text, None),
        };
        self.0 = rest;
        Some(word)
    }

    /// What is wrong with the word that was taken last: a space, a tab or the line's end, and else this cause.
    fn fault(&self, word: &'a str, cause: Cause<'a>) -> Cause<'a> {
        let is_last = self.0.is_none();
        if word.is_empty() {
            Cause::Line(if is_last {
                "ends with a space"
            } else {
                "has two spaces in a row"
            })
        } else if word.contains('\t') {
            Cause::Line("has a tab; words are separated by single spaces")
        } else if is_last && word.ends_with('\r') {
            Cause::Line("ends with a carriage return")
        } else {
            cause
        }
    }

    /// Takes what a place wants.
    fn fill(&mut self, place: Place) -> Result<(), Cause<'a>> {
        if place.is(Kind::Words) {
            for _ in 0..u64::MAX {
                match self.take() {
                    Some("") => return Err(self.fault("", Cause::Ends)),
                    Some(_) => {}
                    None => break,
                }
            }
            return Ok(());
        }
        if place.is(Kind::Rest) && self.0.is_some_and(|rest| !rest.is_empty()) {
            self.0 = None;
            return Ok(());
        }
        let Some(word) = self.take() else {
            return Err(Cause::Ends);
        };
        match misfit(word, place) {
            Some(misfit) => Err(self.fault(word, Cause::Word(word, misfit))),
            None => Ok(()),
        }
    }

    /// Fails if a word is left.
    fn end(&mut self) -> Result<(), Cause<'a>> {
        match self.take() {
            Some(word) => Err(self.fault(word, Cause::TooMany(word))),
            None => Ok(()),
        }
    }
}

fn is_hex(word: &str) -> bool {
    word.as_bytes()
        .iter()
        .all(|digit| digit.is_ascii_hexdigit())
}

/// Why a word does not fit a place, or `None` if it does.
fn misfit(word: &str, place: Place) -> Option<Misfit> {
    let (fits, misfit) = match place {
        Place::OneOf(words) => (words.split('|').any(|known| known == word), Misfit::Unknown),
        Place::Number { least, most, .. } => return number_misfit(word, least, most),
        Place::Text { kind, .. } => match kind {
            Kind::Address => (Address::parse(word).is_some(), Misfit::NotAddress),
            Kind::Id if word.contains(':') => (false, Misfit::HasIndex),
            Kind::Id => (word.len() == 64 && is_hex(word), Misfit::NotId),
            Kind::Hex => (
                word == "-" || !word.is_empty() && is_hex(word) && word.len() % 2 == 0,
                Misfit::NotHex,
            ),
            Kind::Word | Kind::Rest | Kind::Words => (!word.is_empty(), Misfit::Unknown),
        },
    };
    if fits { None } else { Some(misfit) }
}

/// Why a word is no number within these bounds, or `None` if it is one.
fn number_misfit(word: &str, least: u64, most: u64) -> Option<Misfit> {
    match read_number(word) {
        Some(number) if number < least => Some(Misfit::TooSmall),
        Some(number) if number > most => Some(Misfit::TooLarge),
        Some(_) => None,
        None if word.contains('.') => Some(Misfit::NotWhole),
        None if !word.as_bytes().iter().all(|digit| digit.is_ascii_digit()) => {
            Some(Misfit::NotNumber)
        }
        None if word.starts_with('0') => Some(Misfit::LeadingZero),
        None => Some(Misfit::TooLarge),
    }
}

/// How many places of a form a line fits, from the left, and what is wrong with it at the next one.
#[derive(Clone, Copy)]
pub(crate) struct Fit<'a> {
    pub(crate) places: usize,
    pub(crate) fault: Result<(), Cause<'a>>,
}

impl<'a> Fit<'a> {
    pub(crate) fn of(line: &'a str, form: Form) -> Fit<'a> {
        let mut words = Words(Some(line));
        let count = form.len();
        for places in 0..count {
            if let Some(place) = form.place(places) {
                let fault = words.fill(place);
                if fault.is_err() {
                    return Fit { places, fault };
                }
            }
        }
        Fit {
            places: count,
            fault: words.end(),
        }
    }

    /// The fit of the form that a line fits furthest.
    pub(crate) fn furthest(line: &'a str, forms: Forms) -> Fit<'a> {
        let mut furthest = None;
        for words in forms.words {
            furthest = Some(Fit::of(line, Form::Words(words)).or_better(furthest));
        }
        for setting in forms.settings {
            furthest = Some(Fit::of(line, Form::Setting(*setting)).or_better(furthest));
        }
        furthest.unwrap_or(Fit {
            places: 0,
            fault: Err(Cause::Line("matches none of the forms")),
        })
    }

    /// The other fit if it has a higher rank, and else this one.
    fn or_better(self, other: Option<Fit<'a>>) -> Fit<'a> {
        match other {
            Some(other) if other.rank() > self.rank() => other,
            _ => self,
        }
    }

    /// Of two fits that of the higher rank says what is wrong. Words that are known are nearer to an unknown one than a
    /// number, and farther from a number.
    fn rank(&self) -> (usize, u8) {
        let nearness = match self.fault {
            Err(Cause::Word(_, Misfit::NotNumber)) => 0,
            Err(Cause::Word(_, Misfit::Unknown)) => 1,
            _ => 2,
        };
        (self.places, nearness)
    }
}
