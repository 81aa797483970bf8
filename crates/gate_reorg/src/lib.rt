//! Chain events: blocks take the place of others, and the pool follows.
//!
//! The main clause is that of `chain_event`: chain, entries and floor after it exactly, or the first rule that fails
//! and everything as it was; a good pool stays good.
#![tactic(auto)]

mod change;
mod confirming;
mod event;
mod law;
mod moved;
mod returning;
mod staleness;

pub use event::chain_event;
pub use gate_submission::{Moved, recall_spelled};
pub use law::{
    blocks_come_back, blocks_keep_truc, blocks_only_take, entries_are_unconfirmed,
    events_bring_nothing_else, events_keep_pools_good, events_keep_the_budget, events_spend_coins,
    events_spend_once, floors_never_fall, returns_leave_the_ripe,
};
