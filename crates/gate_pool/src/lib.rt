//! The pool: the transactions that wait for a block, found by id, by witness id and by what they spend.
//!
//! The main clauses are those of `Pool::reserve` and `Pool::replace`: memory is taken beforehand, and then an entry
//! takes the place of all entries that conflict with it, and of all that are below these, without memory. By `Pool::rewind` a
//! pool that was changed is again what it was, without memory too.
#![tactic(auto)]

mod arrivals;
mod changes;
mod choice;
mod closures;
mod entry;
mod moves;
mod naming;
mod places;
mod pool;
mod reading;
mod rewinding;
mod scores;
mod store;
mod taking;
mod view;

pub use choice::Test;
pub use closures::{
    Above, Lent, add_up, ancestors, ancestors_with, descendants, family_above, parents,
};
pub use entry::{Entry, MAX_VSIZE};
pub use gate_graph::Sums;
pub use pool::Pool;
pub use scores::Score;
pub use view::FamilyView;
