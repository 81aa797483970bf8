//! Replacement: which entries of a pool a transaction conflicts with, what leaves with them, and whether it may take
//! their place (BIP 125, as Bitcoin Core 22.0 has it).
//!
//! The main clause is that of `judge_replacement`: the first of A38 to A42 that fails, or how many entries are
//! replaced. What a transaction conflicts with is found once, as `DirectConflicts`, which A23, A36, A37 and A47 read. What
//! counts for A38 to A42, which may be a sibling too, is `CountedConflicts`.
#![tactic(auto)]

mod amounts;
mod below;
mod counting;
mod counts;
mod direct;
mod gathered;
mod judging;
mod parents;
mod signalling;

pub use below::replaced;
pub use counting::CountedConflicts;
pub use direct::{DirectConflicts, conflicts};
pub use judging::judge_replacement;
pub use parents::ParentsOf;
pub use signalling::{is_replaceable, signals};
