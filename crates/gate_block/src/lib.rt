//! Blocks as they come: a block is read from its bytes, and several of them take the place of others.
//!
//! The main clauses are those of `read_block`, which answers the block that the bytes spell, else the rule C1, and of
//! `switch`, which leaves the history with the new blocks in the place of the last ones, or the history as it was;
//! what it answers leads back to the history before without taking memory.
#![tactic(auto)]

mod reading;
mod switching;
mod writing;

pub use reading::read_block;
pub use switching::{Switched, switch, switched_and_back};
pub use writing::write_block;
