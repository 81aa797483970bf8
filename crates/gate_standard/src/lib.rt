//! The rules on one transaction by itself, and the order that all rules of admission are written
//! in. The main clauses are those of `check_transaction`, `check_version`, `check_form` and `check_outputs`: each names
//! the first of its rules that fails, or none. What an operator sets of these rules is one value, a `Standards`.
#![tactic(auto)]

mod amounts;
mod check;
mod examples;
mod law;
mod order;
mod outputs;
mod standard;
mod standards;

pub use amounts::{Feerate, Rounding, rate_of};
pub use check::check_transaction;
pub use gate_rules::Denial;
pub use gate_tx::MAX_MONEY;
pub use law::{outpoints_are_spent_once, rates_are_rounded_down, values_are_in_range};
pub use order::the_order;
pub use outputs::{dust_count, dust_threshold, has_ephemeral_dust, is_dust};
pub use standard::{check_form, check_outputs, check_version, is_truc};
pub use standards::Standards;
