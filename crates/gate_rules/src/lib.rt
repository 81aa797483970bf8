//! The rules and words that the gate prints, a row each: the name and the token, what follows, its name in Bitcoin Core 22.0,
//! and what it says.
//!
//! Whatever denies is a type here, and its row is that of the definitions (`Denial::row`, `PeerDenial::row`,
//! `ChainDenial::row`, `NetDenial::row`). [`rules`] is the whole table in the order of the policy, and [`rules_named`] finds
//! exactly those that a word names.
#![tactic(auto)]

mod chain;
mod denial;
mod package;
mod peer;
mod rule;
mod table;
mod whitelist;

pub use chain::ChainDenial;
pub use denial::Denial;
pub use package::PackageDenial;
pub use peer::PeerDenial;
pub use rule::{Consequence, Rule};
pub use table::{rules, rules_named, rules_text, user_rule};
pub use whitelist::NetDenial;
