//! The number of a line, in words.
use std::fmt;

/// A line by its number.
#[derive(Clone, Copy)]
pub(crate) struct LineNumber<N>(pub(crate) N);

impl<N: fmt::Display> fmt::Display for LineNumber<N> {
    fn fmt<W: fmt::Write>(&self, f: &mut fmt::Formatter<W>) -> fmt::Result {
        write!(f, "line {}", self.0)
    }
}
