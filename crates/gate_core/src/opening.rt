//! What a gate is opened with.
use gate_admit::{OpeningCoin, Policy, Verdicts};
use gate_bytes::Kept;
use gate_net::Whitelist;
use gate_rpc::RpcWhitelist;
use std::hash::BuildHasher;
use std::marker::Model;

/// The coins and block times of the chain, the verdicts on scripts, and the settings.
#[derive(Drop)]
pub struct Opening<S: BuildHasher + Copy + Drop> {
    /// The most virtual bytes that the pool may hold.
    pub budget: u64,
    /// The limits of families and the rule on replacements.
    pub policy: Policy,
    /// The height of the first block whose time is given: 0, unless the times below it are not known.
    pub first: u32,
    pub coins: Kept<OpeningCoin>,
    /// The times of the blocks in seconds, from the first height on.
    pub times: Kept<u32>,
    pub verdicts: Verdicts<S>,
    /// What peers are permitted by their addresses (Bitcoin Core's `-whitelist`).
    pub whitelist: Whitelist,
    /// Which methods users may call (Bitcoin Core's `-rpcwhitelist`).
    pub rpcwhitelist: RpcWhitelist,
    /// Whether the node takes blocks only (Bitcoin Core's `-blocksonly`): it then takes transactions only from peers
    /// with relay.
    pub blocksonly: bool,
    /// Whether bloom filters are on at the start, so that every peer may ask for a listing.
    pub bloom: bool,
}

impl<S: BuildHasher + Copy + Drop> Model for Opening<S> {
    ghost use Rattle.gate_core.specs.Opening.{Start};

    ghost Value = { Start };

    ghost view = { λ o. record {
      budget = o.budget;
      policy = o.policy;
      first = o.first;
      coins = o.coins;
      times = o.times;
      verdicts = o.verdicts;
      whitelist = o.whitelist;
      rpcwhitelist = o.rpcwhitelist;
      blocksonly = o.blocksonly;
      bloom = o.bloom;
    } };
}
