//! The run of a gate: an opening, and then a lane whose events are answered by steps of the state.
//!
//! Its main clauses are those of [`run_lane`]: the lines written are the reply lines of the lines read; and of
//! [`gate_runs_are_runs`]: these are the replies of the run.
#![tactic(auto)]

mod lane;
mod laws;
mod onlooker;
mod outcome;
mod refusal;
mod run;

pub use lane::{run_lane, run_lane_on};
pub use laws::{
    faulted_gate_runs_are_runs, faulted_lanes_are_runs, gate_runs_are_runs, lanes_are_runs,
};
pub use onlooker::Onlooker;
pub use outcome::{Outcome, OutcomeRecorder};
pub use refusal::refuse_opening;
pub use run::run_gate;
