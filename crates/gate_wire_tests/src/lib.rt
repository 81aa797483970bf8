//! Tests of the crates that judge what comes over the wire by itself: bytes, lines, addresses, transactions, scripts,
//! standardness and input reports. Tests are in crates of their own, since a crate with tests is proved twice.
#![tactic(auto)]

#[cfg(test)]
mod addresses;
#[cfg(test)]
mod bytes;
#[cfg(test)]
mod inputs;
#[cfg(test)]
mod lines;
#[cfg(test)]
mod scripts;
#[cfg(test)]
mod standardness;
#[cfg(test)]
mod transactions;
#[cfg(test)]
mod witnesses;
#[cfg(test)]
mod words;
