//! Tests of a submission and of a package by one call, of copies of requests, and of the words for texts that are none.
#![tactic(auto)]

#[cfg(test)]
mod packages;
#[cfg(test)]
mod requests;
#[cfg(test)]
mod submitting;
