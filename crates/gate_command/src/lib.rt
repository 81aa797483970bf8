//! The words of the command line, and the job that they ask for.
//!
//! Its main clauses are those of [`read_args`]: the words of each command ask for its job.
#![tactic(auto)]

mod args;
mod help;
mod job;

pub use args::{ArgsFault, read_args};
pub use gate_verify::Workers;
pub use job::{Explain, Job};
