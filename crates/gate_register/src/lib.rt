//! What an operator sets: each setting once, with its word and its bounds, and a policy as a number for each.
//!
//! The main clauses are those of `Policy::get` and `Policy::with`: a number is within the bounds of its setting's row, and
//! a policy with one number set keeps all others. The laws say that no two settings share a place or a word.
#![tactic(auto)]

mod law;
mod policy;
mod setting;
mod text;

pub use law::{names_are_exact, others_are_kept, settings_stand_in_order};
pub use policy::Policy;
pub use setting::{COUNT, Row, Setting};
pub use text::rows_text;
