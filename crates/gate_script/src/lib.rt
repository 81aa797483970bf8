//! Scripts: their opcodes, their template, what they push and how many signature operations they
//! count, by the rules of Bitcoin Core 22.0. The main clause is that of `Ops`: the iterator gives
//! the instructions of the script, and everything else is said over that list or over the bytes.
#![tactic(auto)]

mod counting;
mod law;
mod matching;
mod op;
mod opcode;
mod public_key;
mod pushes;
mod reading;
mod templates;
mod witness;

pub use counting::sigops;
pub use law::{frames_are_patterns, spellings_are_read, templates_are_patterns};
pub use matching::template;
pub use op::{Op, ops};
pub use pushes::{is_push_only, push_stack};
pub use reading::Ops;
pub use templates::Template;
pub use witness::{is_anchor, witness_program};
