//! The lines that the gate reads, their words and numbers, and the texts that it writes.
//!
//! The main clauses are those of [`Lines::next`] and of [`Sink::write_text`]: which bytes were taken from a reader for
//! a line, and which were given to a writer, whatever the outcome. [`Lines`] counts the lines of a reader and bounds
//! them. A reader in memory never fails, and a writer in memory fails only when out of memory.
#![tactic(auto)]

mod fault;
mod line;
mod lines;
mod number;
mod part;
mod sink;
mod source;
mod waiting;
mod word;

pub use fault::LaneFault;
pub use line::{
    Found, MAX_LINE, MAX_LINES, has_ended, is_blank_or_comment, last_lines_are_read, next_line,
};
pub use lines::{Lines, Next};
pub use number::{MAX_NUMBER, numbers_are_decimal, read_number, read_small_number};
pub use part::Part;
pub use sink::{Sink, end_line};
pub use source::Source;
pub use waiting::next_line_or_send;
pub use word::{is_one_word, next_word};
