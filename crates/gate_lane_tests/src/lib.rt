//! Tests of the words for what stops lanes.
#![tactic(auto)]

#[cfg(test)]
mod words;
