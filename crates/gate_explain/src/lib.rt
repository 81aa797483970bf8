//! `gate run --explain`: what it says of replies on standard error, and of the run at its end, in words or as JSON; and
//! `gate audit --explain`: which reply was due where a journal has another one.
//!
//! They are onlookers of `gate run` and of `gate audit`, so what is written is what these write.
#![tactic(auto)]

mod auditing;
mod counted_noun;
mod denied;
mod event_totals;
mod explaining;
mod explanation_of;
mod figure_fields;
mod listed;
mod members;
mod moves;
mod object;
mod prices;
mod progress;
mod remedy;
mod sight;
mod telling;
mod told;

pub use auditing::AuditExplaining;
pub use explaining::Explaining;
pub use explanation_of::{Seen, explain_reply};
pub use telling::Telling;
