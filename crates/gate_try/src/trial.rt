//! What is tried.
use gate_bytes::Text;
use gate_register::Setting;
use gate_release::Release;
use gate_tx::{OutPoint, TxOut};
use std::alloc::Global;

/// A coin that transactions may spend, by its words.
#[derive(Clone, Copy)]
pub struct TrialCoin<'a> {
    pub txid: &'a str,
    pub index: &'a str,
    /// In satoshi.
    pub value: &'a str,
    pub height: &'a str,
    /// In hexadecimal digits.
    pub script: &'a str,
    pub is_coinbase: bool,
}

/// A coin that a PSBT has, by the outpoint that names it.
#[derive(Drop)]
pub struct SpentCoin {
    pub point: OutPoint,
    pub output: TxOut,
}

/// A setting of the opening, with its number.
#[derive(Clone, Copy)]
pub struct TrialSetting {
    pub setting: Setting,
    pub number: u64,
}

/// Transactions that are tried one after another, and what they are tried on.
#[derive(Drop)]
pub struct Trial<'a> {
    /// Each in hexadecimal digits, parents first.
    pub transactions: Vec<&'a str>,
    pub coins: Vec<TrialCoin<'a>>,
    /// The file of a PSBT that is named.
    pub psbt: Option<&'a str>,
    /// The coins of the PSBT, beside those that are said.
    pub spent: Vec<SpentCoin>,
    /// The height of the PSBT's coins.
    pub height: u32,
    /// The PSBT's own transaction, in hexadecimal digits, if it is tried in place of others.
    pub finished: Option<Text>,
    /// The release whose numbers the settings have that are not said.
    pub policy: Option<Release>,
    /// The settings that are said.
    pub settings: Vec<TrialSetting>,
    /// The height of the tip.
    pub tip: u32,
    /// The second at which they are tried, since 1970. It is the tip's block time too, and the ten blocks before it are 600
    /// seconds apart.
    pub time: u32,
    /// The verdict on each input: `ok`, `soft` or `hard`.
    pub verdict: &'a str,
    /// Whether they are sent by a user, whose answers are JSON, and not by a peer.
    pub json: bool,
}

impl<'a> Trial<'a> {
    /// A trial of nothing yet, with the usual settings and good scripts, at height 0 and this second.
    pub(crate) fn new(alloc: Global, time: u32) -> Trial<'a> {
        Trial {
            transactions: Vec::new(alloc),
            coins: Vec::new(alloc),
            psbt: None,
            spent: Vec::new(alloc),
            height: 0,
            finished: None,
            policy: None,
            settings: Vec::new(alloc),
            tip: 0,
            time,
            verdict: "ok",
            json: false,
        }
    }
}
