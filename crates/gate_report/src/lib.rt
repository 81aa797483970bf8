//! Jobs that report: whether a journal is legal, what the rules say, and what an operator sets.
//!
//! The main clause of [`run_audit`] is that what is printed is the audit's answer; those of [`run_rules`] and
//! [`run_explain`] are that it is the rules of the table, or those that a word names, and that of [`run_settings`] that it is
//! all settings.
#![tactic(auto)]

mod audit_job;
mod rules_job;
mod settings_job;

pub use audit_job::run_audit;
pub use rules_job::{run_explain, run_rules};
pub use settings_job::run_settings;
