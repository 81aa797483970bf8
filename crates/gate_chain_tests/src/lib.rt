//! Tests of the chain: coins, times, blocks that come and go, and locks.
#![tactic(auto)]

#[cfg(test)]
mod blocks;
#[cfg(test)]
mod chain;
#[cfg(test)]
mod locks;
