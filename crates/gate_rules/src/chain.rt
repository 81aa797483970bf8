//! What denies an event of the chain.
ghost use Rattle.std.specs.Prelude.{◌≡◌, map};
ghost use Rattle.gate_rules.specs.Chain.{chain, name_of, token_of, then_of, row_of};
ghost use Rattle.gate_rules.specs.Rules.{key_of};

use crate::rule::{Consequence, Rule};
use std::error::Error;
use std::fmt;

/// A rule of the chain that fails. The variants stand in the order of their rows.
#[derive(Clone, Copy, Debug, PartialEq, Eq)]
pub enum ChainDenial {
    BlockDecode, // C1
    BlockCoinbase, // C2
    BlockInputs, // C3
    TxidRepeated, // C4
    TimeTooOld, // C5
    NoUndo, // C6
    ChainFull, // C7
    CoinValue, // C8
    CoinUnspendable, // C9
    CoinAboveOpening, // C10
    CoinKnown, // C11
    VerdictKnown, // C12
}

/// The row of each rule of the chain, in their order.
static ROWS: [Rule; 12] = [
    Rule {
        name: "C1",
        token: "block-decode",
        then: Consequence::Nothing,
        core: Some("Block decode failed"),
        says: "The bytes of a block are not 80 bytes of a header, a count and so many transactions, at most 33,554,432 bytes in all",
    },
    Rule {
        name: "C2",
        token: "block-coinbase",
        then: Consequence::Nothing,
        core: Some("bad-cb-missing, bad-cb-multiple"),
        says: "A block has no transaction, its first is no coinbase, or a later one is",
    },
    Rule {
        name: "C3",
        token: "block-inputs",
        then: Consequence::Nothing,
        core: Some("bad-txns-inputs-missingorspent"),
        says: "An input of a block spends no coin",
    },
    Rule {
        name: "C4",
        token: "block-txid-repeated",
        then: Consequence::Nothing,
        core: Some("bad-txns-BIP30"),
        says: "A transaction of a block has the txid of one that the chain has",
    },
    Rule {
        name: "C5",
        token: "time-too-old",
        then: Consequence::Nothing,
        core: Some("time-too-old"),
        says: "The time of a block is not above the median time past",
    },
    Rule {
        name: "C6",
        token: "no-undo",
        then: Consequence::Nothing,
        core: None,
        says: "More blocks are to be disconnected than are connected, or than 100; or more are to be forgotten than are connected",
    },
    Rule {
        name: "C7",
        token: "chain-full",
        then: Consequence::Nothing,
        core: None,
        says: "The height would pass 10,000,000",
    },
    Rule {
        name: "C8",
        token: "coin-value",
        then: Consequence::Nothing,
        core: None,
        says: "The value of the coin is above 2,100,000,000,000,000 satoshi",
    },
    Rule {
        name: "C9",
        token: "coin-unspendable",
        then: Consequence::Nothing,
        core: None,
        says: "The script of the coin begins with 0x6a (OP_RETURN) or has more than 10,000 bytes",
    },
    Rule {
        name: "C10",
        token: "coin-above-opening",
        then: Consequence::Nothing,
        core: None,
        says: "The height of the coin is above that of the opening's last block; coins of later heights are made by blocks",
    },
    Rule {
        name: "C11",
        token: "coin-known",
        then: Consequence::Nothing,
        core: None,
        says: "An opening coin has the outpoint, spent or not, or a connected block's transaction or an entry of the pool has the txid",
    },
    Rule {
        name: "C12",
        token: "verdict-known",
        then: Consequence::Nothing,
        core: None,
        says: "There is a verdict on this input of the transaction already",
    },
];

impl ChainDenial {
    /// All rows, in their order.
    pub(crate) fn rows() -> &'static [Rule]
        ensures { map key_of result.now ≡ map row_of chain }
    {
        &ROWS
    }

    /// What is said of the rule.
    pub fn row(&self) -> &'static Rule
        ensures name { result.now.name.now ≡ name_of self.now }
        ensures token { result.now.token.now ≡ token_of self.now }
        ensures follows { result.now.then ≡ then_of self.now }
    {
        &ROWS[*self as usize]
    }
}

impl fmt::Display for ChainDenial {
    fn fmt<W: fmt::Write>(&self, f: &mut fmt::Formatter<W>) -> fmt::Result {
        write!(f, "{}", self.row().token)
    }
}

impl Error for ChainDenial {}
