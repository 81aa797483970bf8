//! The check of one transaction by itself.
//!
//! Its main clauses are those of [`run_check`] and [`run_check_input`]: what is written is the ids and the weight of the
//! transaction, and then `standard` or the first rule that fails.
#![tactic(auto)]

mod check;
mod input;
mod job;

pub use job::{run_check, run_check_input};
