//! Absolute and relative timelocks: whether a transaction may be in the next block (locktimes with BIP 113; BIP 68).
//!
//! Nothing here takes memory. The main clause is that of `sequence_locks_met`, which says that the relative lock of each
//! input is met exactly by BIP 68.
#![tactic(auto)]

mod examples;
mod finality;
mod relative;

pub use finality::is_final;
pub use relative::{has_relative_lock, sequence_locks_met};
