//! How standard error says what it says.
use std::fmt;

/// How standard error says what is wrong.
#[derive(Clone, Copy, PartialEq, Eq)]
pub enum ReportForm {
    Words,
    /// A JSON object a line.
    Json,
}

/// A text as JSON has it.
#[derive(Clone, Copy)]
pub struct Quoted<'a>(pub &'a str);

impl fmt::Display for Quoted<'_> {
    fn fmt<W: fmt::Write>(&self, f: &mut fmt::Formatter<W>) -> fmt::Result {
        write!(f, "\"")?;
        for character in self.0.chars() {
            match character {
                '"' => write!(f, "\\\"")?,
                '\\' => write!(f, "\\\\")?,
                control if control < ' ' => write!(f, "\\u{:04x}", control as u32)?,
                other => write!(f, "{other}")?,
            }
        }
        write!(f, "\"")
    }
}
