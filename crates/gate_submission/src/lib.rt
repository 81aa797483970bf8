//! What is submitted, before it meets a chain and a pool, a verdict on a script, and the outcomes of a chain event and of a
//! package: what callers and replies say of admission, packages and reorganisation without depending on them.
//!
//! The main clause is that of `Prepared::of`: the transaction, with the first of A2 to A11 that fails, and the first of
//! A13 to A15. A12 and A16 to A19 depend on what an operator takes for standard, and are tested where that is known.
#![tactic(auto)]

mod moved;
mod package_outcome;
mod prepared;
mod spelling;
mod verdict;

pub use gate_inputs::InputReport;
pub use moved::Moved;
pub use package_outcome::{Fate, Member, PackageOutcome, PackageVerdict, Together};
pub use prepared::{Candidate, Prepared};
pub use spelling::{recall_spelled, recall_texts};
pub use verdict::{Verdict, VerdictRow};
