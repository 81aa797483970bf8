//! Colours of words on standard error.
use std::fmt;

/// A colour of the sixteen that every terminal has.
#[derive(Clone, Copy, PartialEq, Eq)]
pub enum Colour {
    Red,
    Green,
    Yellow,
}

impl Colour {
    /// Its number in the sequence that a terminal reads (ECMA-48, SGR).
    fn code(self) -> u8 {
        match self {
            Colour::Red => 31,
            Colour::Green => 32,
            Colour::Yellow => 33,
        }
    }
}

/// Whether words on standard error have colours.
#[derive(Clone, Copy, PartialEq, Eq)]
pub enum Colours {
    Off,
    On,
}

impl Colours {
    /// A word in a colour, if words have colours.
    pub fn paint<D>(self, colour: Colour, word: D) -> Painted<D> {
        Painted {
            word,
            colour: match self {
                Colours::Off => None,
                Colours::On => Some(colour),
            },
        }
    }
}

/// A word in a colour, or as it is.
#[derive(Drop)]
pub struct Painted<D> {
    word: D,
    colour: Option<Colour>,
}

impl<D: fmt::Display> fmt::Display for Painted<D> {
    fn fmt<W: fmt::Write>(&self, f: &mut fmt::Formatter<W>) -> fmt::Result {
        match self.colour {
            Some(colour) => write!(f, "\x1b[{}m{}\x1b[0m", colour.code(), self.word),
            None => write!(f, "{}", self.word),
        }
    }
}
