//! Keys at places, of which the least is known at once: an indexed priority queue, as a tournament of places.
//!
//! Each inner node of a tree holds the place that ranks first of its two children's, so a change of one key plays a few
//! matches again and moves no other key. Ties go to the later place. Memory is taken in `Ranking::reserve` alone. The
//! main clause is that of `Ranking::least`: no key is below the one that it returns, and no key at a later place equals
//! it. `Rate` is the key of a pool: fees over a size, which compare exactly as fractions do.
#![tactic(auto)]

mod ranking;
mod rate;
mod tournament;

pub use ranking::Ranking;
pub use rate::Rate;
