//! The opening of a gate: coins, block times, verdicts and settings, a line each.
//!
//! The main clauses are those of [`read_opening`]: what is read is the state that the text spells, or its first fault
//! with its line, and the input behind the opening is left unread.
#![tactic(auto)]

mod draft;
mod laws;
mod opening;
mod opening_fault;
mod opening_line;
mod times;

pub use laws::{openings_are_good, openings_have_defaults};
pub use opening::read_opening;
pub use opening_fault::{OpeningFault, OpeningToken};
