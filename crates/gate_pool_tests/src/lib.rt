//! Tests of replacement and of rewinding by themselves, beside what the gate calls.
#![tactic(auto)]

#[cfg(test)]
mod replacing;
#[cfg(test)]
mod rewinding;
