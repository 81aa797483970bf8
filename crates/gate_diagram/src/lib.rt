//! What transactions pay, for themselves and in chunks, and whether one feerate diagram is better than another (Bitcoin Core
//! 28.0 and later, package replacement). It knows neither transactions nor the pool.
#![tactic(auto)]

mod diagram;
mod law;
mod price;

pub use diagram::{improves, joined};
pub use law::diagram_is_an_order;
pub use price::{Price, sum_of};
