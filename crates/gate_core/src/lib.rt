//! The gate as one value: sessions, settings and the one step.
//!
//! A `State` stands for its chain, pool, floor, sessions and settings. The main clause is that of `State::step`, which
//! gives the reply and the state of the written step, and keeps the pool good.
#![tactic(auto)]

mod calling;
mod chaining;
mod examples;
mod laws;
mod opening;
mod packaging;
mod parts;
mod peering;
mod planning;
mod session;
mod sharing;
mod state;
mod stepping;
mod submitting;
mod switches;
mod testing;
mod tracked;

pub use gate_message::{Call, Caller, Event, PeerDenial, Replies, Reply, Switch, Then};
pub use laws::{
    access_follows_the_order, admissions_leave_nothing_stale, closed_sessions_change_nothing,
    closed_stays_closed, denials_leave_the_pool, flags_guard, forgetting_changes_no_answer,
    great_rates_change_nothing, invalid_is_kept, lists_bar, noban_is_kept,
    only_operators_lower_the_floor, peers_are_separate, questions_change_nothing, runs_end_good,
    runs_keep_families, runs_keep_the_budget, runs_keep_the_pool_sound, steps_give_the_run,
    the_chain_is_of_its_caller,
};
pub use opening::Opening;
pub use session::Session;
pub use state::{State, StepFault};
pub use submitting::submission;
pub use switches::Switches;
pub use tracked::Tracked;
