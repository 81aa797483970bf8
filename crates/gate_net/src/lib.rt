//! Addresses of peers, subnets, permission flags and whitelists, as `-whitelist` of Bitcoin Core 22.0 has them.
//!
//! The main clause is that of `Whitelist::flags_of`: an address has the union of the flags of all entries that match it.
#![tactic(auto)]

mod address;
mod entry;
mod examples;
mod fault;
mod laws;
mod permissions;
mod subnet;
mod whitelist;

pub use address::Address;
pub use entry::WhitelistEntry;
pub use fault::NetFault;
pub use gate_rules::NetDenial;
pub use laws::{
    addresses_are_spelled, addresses_read_back, entries_take_nothing, flags_are_given,
    subnets_are_spelled,
};
pub use permissions::Permissions;
pub use subnet::Subnet;
pub use whitelist::Whitelist;
