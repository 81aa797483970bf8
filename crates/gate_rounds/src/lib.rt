//! Rounds of lanes, one after another, and what is printed of them.
//!
//! The main clause of [`run_lanes_job`] is that what is printed of lanes is their ends and a legal journal that settles
//! with their passes.
#![tactic(auto)]

mod lanes_job;
mod laws;
mod printing;

pub use lanes_job::{LanesOptions, run_lanes_job};
pub use laws::gate_lanes_are_runs;
