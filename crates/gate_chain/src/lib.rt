//! The chain below the pool: which coins there are, and the time of each height.
//!
//! A `Chain` stands for its history: the coins and block times that it was opened with, and the blocks connected since.
//! The main clause is that of `Chain::coin`, which answers as a search through that history does. A block is connected
//! whole or not at all, and `Chain::disconnect` gives back the history before it without taking memory.
#![tactic(auto)]

mod block;
mod chain;
mod connected;
mod copying;
mod entering;
mod examples;
mod fault;
mod forgetting;
mod heading;
mod joining;
mod keeping;
mod laws;
mod learning;
mod making;
mod marked;
mod median;
mod opening;
mod tables;

pub use block::{Block, Header};
pub use chain::{Chain, ChainTop, CoinTest, Forgotten, there_and_back};
pub use fault::{ChainFault, OpenFault};
pub use gate_rules::ChainDenial;
pub use laws::{forgetting_keeps_what_counts, learning_is_opening};
pub use median::stands_in_order;
pub use opening::OpeningCoin;
