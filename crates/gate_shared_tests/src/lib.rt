//! Tests of what the shared gate offers beside what lanes call: one call, and a gate that goes on.
#![tactic(auto)]

#[cfg(test)]
mod passes;
