//! Whether transactions would be relayed: words of the command line, and the text of an opening and of events that asks it.
//!
//! Its main clause is that of [`Trial::text`]: the text is the one that the definition has for the trial, and nothing else is
//! run. What the text means is known to its readers alone.
#![tactic(auto)]

mod fault;
mod reading;
mod signed;
mod text;
mod trial;

pub use fault::TrialFault;
pub use gate_psbt::{PsbtFault, decode_psbt, read_psbt};
pub use reading::read_trial;
pub use trial::{SpentCoin, Trial, TrialCoin, TrialSetting};
