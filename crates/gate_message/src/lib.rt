//! What callers ask of the gate, and what it answers: events, replies and denials, with their copies, their equality and the
//! lines of replies.
//!
//! The main clauses are those of `Reply::text`, the line of each reply, and of `Event::caller`, who makes an event.
#![tactic(auto)]

mod call;
mod caller;
mod chain_event;
mod denial;
mod event;
mod outcome;
mod recording;
mod reply;
mod same;
mod switch;

pub use call::Call;
pub use caller::Caller;
pub use chain_event::ChainEvent;
pub use denial::Then;
pub use event::Event;
pub use gate_rules::PeerDenial;
pub use outcome::ChainOutcome;
pub use recording::Replies;
pub use reply::Reply;
pub use same::{is_same_event, is_same_reply};
pub use switch::Switch;
