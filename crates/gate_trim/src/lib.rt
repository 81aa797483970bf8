//! What leaves a pool by itself: entries that were admitted too long ago, and the entries that pay least if the pool is
//! over its budget; and the floor, which rises when entries are trimmed.
//!
//! The main clauses are those of `expire` and `trim`: the entries that are left, and the floor, exactly, without
//! memory.
#![tactic(auto)]

mod expiry;
mod floor;
mod law;
mod trimming;

pub use expiry::expire;
pub use floor::Floor;
pub use law::{
    expiry_leaves_the_young, trimming_keeps_the_budget, trimming_raises_the_floor,
    trimming_takes_the_least,
};
pub use trimming::trim;
