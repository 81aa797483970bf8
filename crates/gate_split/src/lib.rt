//! One input, divided into rounds of lanes.
//!
//! Its main clause is that of [`split_lanes`]: what is returned are the lanes of the input, round by round.
#![tactic(auto)]

mod examples;
mod fault;
mod laws;
mod split;

pub use fault::SplitFault;
pub use laws::lanes_have_the_lines;
pub use split::{MAX_LANES, split_lanes};
