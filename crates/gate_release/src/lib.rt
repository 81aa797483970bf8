//! The releases of a node whose defaults an opening can take by a name: what each has otherwise than Bitcoin Core 22.0.
//!
//! The main clause is that of `Release::beside`: each number that was not said is the release's, if it has one.
#![tactic(auto)]

mod law;
mod release;

pub use law::{choices_are_allowed, releases_are_named};
pub use release::{Choice, Release};
