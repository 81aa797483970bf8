//! The journal of a gate: its events in their order, each with its reply.
//!
//! Which journals are those of a run is a definition (`IsLegal`); the laws say how it goes on from one journal to the
//! next.
#![tactic(auto)]

mod entry;
mod journal;
mod law;

pub use entry::Entry;
pub use journal::{Journal, MAX_ENTRIES};
pub use law::{legal_journals_begin_legal, legal_journals_go_on, rounds_are_one_journal};
