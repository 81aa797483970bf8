//! Requests by RPC: who may call what, what a text asks for, and the texts of the answers.
//!
//! The main clauses are those of `RpcWhitelist::allows`, of `Command::read`, which gives the request that a text of JSON
//! spells or the first fault in the written order, and of `reply_text`, which gives each answer its one text.
#![tactic(auto)]

mod entry;
mod error;
mod fault;
mod id;
mod items;
mod law;
mod method;
mod packaging;
mod params;
mod reading;
mod reply;
mod request;
mod result;
mod whitelist;
mod writing;

pub use entry::RpcEntry;
pub use error::RpcError;
pub use fault::{CallError, RpcFault};
pub use id::Id;
pub use items::{KnownEntry, Outcome, Spending};
pub use law::{lists_are_intersections, lists_only_narrow};
pub use method::Method;
pub use reply::{RpcReply, reply_text};
pub use request::{Command, PackageCall, Request};
pub use result::{EntryInfo, RpcResult};
pub use whitelist::RpcWhitelist;
