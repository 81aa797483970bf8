//! Tests of reports by worker threads.
#![tactic(auto)]

#[cfg(test)]
mod reports;
