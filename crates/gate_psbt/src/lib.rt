//! Partially signed transactions (BIP 174, version 0): the unsigned transaction, the coins that its inputs spend, and what
//! signs them in the end.
//!
//! The main clause is that of [`read_psbt`]: what is read is what the definition computes from the bytes, with the first fault.
#![tactic(auto)]

mod encoding;
mod fault;
mod field;
mod finished;
mod input;
mod map;
mod psbt;

pub use encoding::decode_psbt;
pub use fault::{PartFault, Place, PsbtFault};
pub use input::PsbtInput;
pub use psbt::{Psbt, read_psbt};
