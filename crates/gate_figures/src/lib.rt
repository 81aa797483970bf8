//! Why a transaction is denied, with the figures that decide it.
//!
//! The main clause is that of [`explain`]: the rule that decides a submission over a state, and the figures of its definition.
#![tactic(auto)]

mod coins;
mod explanation;
mod families;
mod fees;
mod figures;
mod judging;
mod laws;
mod least;
mod locks;
mod members;
mod outputs;
mod relating;
mod reports;
mod rivals;
mod room;
mod sweeping;
mod verdicts;

pub use explanation::{Explained, Explanation};
pub use figures::Figures;
pub use judging::{explain, explain_submission, figures_for};
pub use laws::{figures_decide, grants_reach_the_least_fee, member_figures_decide};
pub use least::{least_fee, least_fee_for};
pub use members::{AskedRates, crowded_member, price_behind};
pub use relating::{Relatives, relatives_in};
