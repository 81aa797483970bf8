//! Answers about the pool: what is known of an entry, its transaction, its ancestors and descendants, the entries that
//! pay a feerate, which entries spend outpoints, the pool's size and its least feerates, and whether a transaction would
//! enter, by itself or behind others.
//!
//! The main clause is that of `entry_info`, which says what is known of an entry: all sums are those of the families
//! over the plain list of entries. No function of this crate changes the pool or the chain: the entries that `test_list`
//! puts in leave before it returns.
#![tactic(auto)]

mod family;
mod info;
mod known;
mod listed;
mod listing;
mod paying;
mod testing;

pub use info::{entry_info, pool_info};
pub use known::{entries_known, spendings, transaction};
pub use listed::test_list;
pub use listing::{ancestors_listed, descendants_listed};
pub use paying::listing_at;
pub use testing::test_submission;
