//! The audit of a journal: whether its replies are those of the run over its events.
//!
//! The main clauses are those of [`audit`]: an answer `Legal` says that the lines are pairs of an event and of its reply in
//! the run, in rounds that a line `base M` parts, and an answer `Illegal` names the first pair that isn't.
#![tactic(auto)]

mod answer;
mod auditing;
mod counts;
mod entry;
mod laws;
mod lines;
mod onlooker;

pub use answer::Audit;
pub use auditing::audit;
pub use laws::{
    audits_are_exact, legal_journals_are_runs, rounds_have_legal_journals, runs_have_legal_journals,
};
pub use onlooker::AuditOnlooker;
