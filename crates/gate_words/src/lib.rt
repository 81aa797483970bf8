//! The words of a coin and of a verdict on an input, which lines of an opening and of events share.
//!
//! The main clauses are those of [`read_coin`] and [`read_row`]: what a text says, or `None` if it doesn't parse. Each coin
//! and each row has one text, [`coin_text`] and [`row_text`].
#![tactic(auto)]

mod coin;
mod verdict;

pub use coin::{coin_text, read_coin};
pub use verdict::{read_row, read_verdict, row_text};
