//! The shared gate: one state behind one lock, the journal of its events, and passes whose receipts settle with it.
//!
//! The main clauses are those of `Shared::apply`, the one change that is made under the lock, of `Gate::call`, and of
//! `finish`, by which the entries of the journal are exactly the calls of the passes. If `finish` can't settle the passes,
//! it hands back the value under the lock, as it was, and the passes.
#![tactic(auto)]

mod base;
mod ending;
mod gate;
mod pass;
mod receipt;
mod register;
mod seat;
mod settle;
mod shared;
mod tokens;

pub use base::Base;
pub use ending::{FinishFault, finish};
pub use gate::Gate;
pub use pass::{MAX_CALLS, Pass};
pub use receipt::{Made, Receipt};
pub use register::Register;
pub use seat::{Rest, Seat};
pub use settle::{Owner, SettleFault, Settled, Unsettled};
pub use shared::{CallFault, Shared};
