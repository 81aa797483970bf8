//! Reports on the inputs of a submission, made by worker threads before the submission meets the gate's lock.
//!
//! The main clause is that of `Crew::verify`: the reports of the pieces in their order, whatever the workers did. Nothing
//! is promised of the pieces and reports that go between threads: a report that does not come, or is that of another
//! piece, is made by the caller.
#![tactic(auto)]

mod check;
mod crew;
mod gathering;
mod verifying;
mod workers;

pub use check::{InputCheck, PolicyCheck};
pub use crew::{Crew, Post, serve};
pub use gate_inputs::{InputReport, Piece};
pub use verifying::check_each;
pub use workers::{MAX_WORKERS, Workers};
