//! What denies: a rule of each layer. The variants stand in the order of their rows.
ghost use Rattle.std.specs.Prelude.{◌≡◌, map, Some};
ghost use Rattle.gate_rules.specs.Denials.{alone, behind, name_of, token_of, then_of, row_of};
ghost use Rattle.gate_rules.specs.Rules.{key_of};

use crate::rule::{Consequence, Rule};
use std::error::Error;
use std::fmt;

/// A rule of admission that fails. Up to A46 the numbers are those of the written order, in which a later one stands where
/// its own rules do. A token is the reject reason of Bitcoin Core, of 22.0 if that has the rule.
#[derive(Clone, Copy, PartialEq, Eq)]
pub enum Denial {
    Decode, // A1
    VinEmpty, // A2
    VoutEmpty, // A3
    Oversize, // A4
    VoutNegative, // A5
    VoutTooLarge, // A6
    TotalTooLarge, // A7
    InputsDuplicate, // A8
    CoinbaseLength, // A9
    PrevoutNull, // A10
    Coinbase, // A11
    Version, // A12
    TxSize, // A13
    ScriptSigSize, // A14
    ScriptSigNotPushOnly, // A15
    ScriptPubKey, // A16
    Dust, // A17
    MultiOpReturn, // A18
    TxSizeSmall, // A19
    NonFinal, // A20
    AlreadyInMempool, // A21
    SameNonWitnessData, // A22
    MempoolConflict, // A23
    AlreadyKnown, // A24
    MissingOrSpent, // A25
    NonBip68Final, // A26
    PrematureSpend, // A27
    InputValues, // A28
    InBelowOut, // A29
    FeeOutOfRange, // A30
    NonstandardInputs, // A31
    WitnessNonstandard, // A32
    TooManySigops, // A33
    MempoolMinFee, // A34
    MinRelayFee, // A35
    TooLongChain, // A36
    SpendsConflicting, // A37
    LowerFeeRate, // A38
    TooManyReplacements, // A39
    AddsUnconfirmed, // A40
    LowerFee, // A41
    LowerDifference, // A42
    VerdictMissing, // A43
    SoftVerdict, // A44
    HardVerdict, // A45
    MempoolFull, // A46
    TrucViolation, // A47
    DustWithFee, // A48
    UnsweptDust, // A49
    MaxFeerate, // A50
    DataCarrier, // A51
}

/// How many rules there are on a transaction by itself.
const ALONE_COUNT: usize = 19;

/// The row of each rule on a transaction by itself, in their order.
static ALONE: [Rule; ALONE_COUNT] = [
    Rule {
        name: "A1",
        token: "tx-decode",
        then: Consequence::Keep,
        core: Some("TX decode failed (BIP 144)"),
        says: "The bytes are not the text of a transaction",
    },
    Rule {
        name: "A2",
        token: "bad-txns-vin-empty",
        then: Consequence::Close,
        core: Some("CheckTransaction"),
        says: "The transaction has no input",
    },
    Rule {
        name: "A3",
        token: "bad-txns-vout-empty",
        then: Consequence::Close,
        core: Some("CheckTransaction"),
        says: "The transaction has no output",
    },
    Rule {
        name: "A4",
        token: "bad-txns-oversize",
        then: Consequence::Close,
        core: Some("CheckTransaction"),
        says: "Four times the size without witnesses is above 4,000,000 bytes",
    },
    Rule {
        name: "A5",
        token: "bad-txns-vout-negative",
        then: Consequence::Close,
        core: Some("CheckTransaction"),
        says: "The value of an output is below 0",
    },
    Rule {
        name: "A6",
        token: "bad-txns-vout-toolarge",
        then: Consequence::Close,
        core: Some("CheckTransaction"),
        says: "The value of an output is above 2,100,000,000,000,000 satoshi",
    },
    Rule {
        name: "A7",
        token: "bad-txns-txouttotal-toolarge",
        then: Consequence::Close,
        core: Some("CheckTransaction"),
        says: "The outputs up to one of them sum to more than 2,100,000,000,000,000 satoshi",
    },
    Rule {
        name: "A8",
        token: "bad-txns-inputs-duplicate",
        then: Consequence::Close,
        core: Some("CheckTransaction (CVE-2018-17144)"),
        says: "Two inputs spend one outpoint",
    },
    Rule {
        name: "A9",
        token: "bad-cb-length",
        then: Consequence::Close,
        core: Some("CheckTransaction"),
        says: "The script of a coinbase has fewer than 2 or more than 100 bytes",
    },
    Rule {
        name: "A10",
        token: "bad-txns-prevout-null",
        then: Consequence::Close,
        core: Some("CheckTransaction"),
        says: "An input has the null outpoint, and the transaction is no coinbase",
    },
    Rule {
        name: "A11",
        token: "coinbase",
        then: Consequence::Close,
        core: Some("AcceptToMemoryPool"),
        says: "The transaction is a coinbase",
    },
    Rule {
        name: "A12",
        token: "version",
        then: Consequence::Keep,
        core: Some("IsStandardTx"),
        says: "The version is neither 1 nor 2, nor 3 if truc is 1 (0)",
    },
    Rule {
        name: "A13",
        token: "tx-size",
        then: Consequence::Keep,
        core: Some("IsStandardTx, MAX_STANDARD_TX_WEIGHT"),
        says: "The weight is above 400,000",
    },
    Rule {
        name: "A14",
        token: "scriptsig-size",
        then: Consequence::Keep,
        core: Some("IsStandardTx"),
        says: "The script of an input has more than 1,650 bytes",
    },
    Rule {
        name: "A15",
        token: "scriptsig-not-pushonly",
        then: Consequence::Keep,
        core: Some("IsStandardTx"),
        says: "The script of an input does something else than push",
    },
    Rule {
        name: "A16",
        token: "scriptpubkey",
        then: Consequence::Keep,
        core: Some("IsStandardTx, IsStandard"),
        says: "The script of an output is not standard, which a script with more data than datacarriersize says (83 bytes) is not, nor a multisig script if permitbaremultisig is 0 (1)",
    },
    Rule {
        name: "A17",
        token: "dust",
        then: Consequence::Keep,
        core: Some("IsDust"),
        says: "An output has less than its dust threshold, which is what spending it costs at the rate that dustrelayfee says (3,000 satoshi per 1,000 virtual bytes); if ephemeraldust is 1, more than one output has",
    },
    Rule {
        name: "A18",
        token: "multi-op-return",
        then: Consequence::Keep,
        core: Some("IsStandardTx"),
        says: "More outputs carry data (OP_RETURN) than datacarrieroutputs says (1)",
    },
    Rule {
        name: "A19",
        token: "tx-size-small",
        then: Consequence::Keep,
        core: Some("MIN_STANDARD_TX_NONWITNESS_SIZE"),
        says: "The size without witnesses is below what mintxsize says (82 bytes)",
    },
];

/// The row of each rule of admission behind these, in their order.
static BEHIND: [Rule; 32] = [
    Rule {
        name: "A20",
        token: "non-final",
        then: Consequence::Keep,
        core: Some("ContextualCheckTransaction (BIP 113)"),
        says: "The locktime does not allow the transaction in the next block",
    },
    Rule {
        name: "A21",
        token: "txn-already-in-mempool",
        then: Consequence::Keep,
        core: Some("AcceptToMemoryPool"),
        says: "The pool has an entry with this wtxid",
    },
    Rule {
        name: "A22",
        token: "txn-same-nonwitness-data-in-mempool",
        then: Consequence::Keep,
        core: Some("AcceptToMemoryPool"),
        says: "The pool has an entry with this txid and another witness",
    },
    Rule {
        name: "A23",
        token: "txn-mempool-conflict",
        then: Consequence::Keep,
        core: Some("AcceptToMemoryPool (BIP 125)"),
        says: "An entry of the pool spends the same outpoint, and none of its inputs has a sequence of at most 0xfffffffd, so that it may not be replaced; with mempoolfullrbf it may be, and if it has version 3 and truc is 1",
    },
    Rule {
        name: "A24",
        token: "txn-already-known",
        then: Consequence::Keep,
        core: Some("AcceptToMemoryPool"),
        says: "An input has no coin, and the transaction is in the chain already",
    },
    Rule {
        name: "A25",
        token: "bad-txns-inputs-missingorspent",
        then: Consequence::Keep,
        core: Some("AcceptToMemoryPool"),
        says: "An input spends what is no unspent output of the chain or the pool",
    },
    Rule {
        name: "A26",
        token: "non-BIP68-final",
        then: Consequence::Keep,
        core: Some("SequenceLocks (BIP 68)"),
        says: "The sequence of an input asks for more blocks or more time than have passed since its coin was made",
    },
    Rule {
        name: "A27",
        token: "bad-txns-premature-spend-of-coinbase",
        then: Consequence::Keep,
        core: Some("CheckTxInputs, COINBASE_MATURITY"),
        says: "An input spends the coin of a coinbase that is fewer than 100 blocks below the next height",
    },
    Rule {
        name: "A28",
        token: "bad-txns-inputvalues-outofrange",
        then: Consequence::Close,
        core: Some("CheckTxInputs"),
        says: "The value of a coin, or the sum up to an input, is below 0 or above 2,100,000,000,000,000 satoshi",
    },
    Rule {
        name: "A29",
        token: "bad-txns-in-belowout",
        then: Consequence::Close,
        core: Some("CheckTxInputs"),
        says: "The coins of the inputs sum to less than the outputs",
    },
    Rule {
        name: "A30",
        token: "bad-txns-fee-outofrange",
        then: Consequence::Close,
        core: Some("CheckTxInputs"),
        says: "The fee is below 0 or above 2,100,000,000,000,000 satoshi",
    },
    Rule {
        name: "A31",
        token: "bad-txns-nonstandard-inputs",
        then: Consequence::Keep,
        core: Some("AreInputsStandard"),
        says: "An input spends a coin whose script is not standard, which an anchor is if anchors is 1 (0), or a redeem script of more than 15 signature operations; or the inputs have more legacy signature operations than maxtxlegacysigops says (no limit)",
    },
    Rule {
        name: "A32",
        token: "bad-witness-nonstandard",
        then: Consequence::Keep,
        core: Some("IsWitnessStandard"),
        says: "A witness is not standard: one where none belongs (as at an anchor if anchors is 1), a witness script above 3,600 bytes, more than 100 items or an item above 80 bytes, or an annex",
    },
    Rule {
        name: "A33",
        token: "bad-txns-too-many-sigops",
        then: Consequence::Keep,
        core: Some("MAX_STANDARD_TX_SIGOPS_COST"),
        says: "The cost of the signature operations is above 16,000",
    },
    Rule {
        name: "A34",
        token: "mempool min fee not met",
        then: Consequence::Keep,
        core: Some("AcceptToMemoryPool, GetMinFee"),
        says: "The fee is below the fee at the pool's floor for the virtual size; tested behind A35 if relayfeefirst is 1 (0), as since 26.0, but for version 3 if truc is 1",
    },
    Rule {
        name: "A35",
        token: "min relay fee not met",
        then: Consequence::Keep,
        core: Some("-minrelaytxfee"),
        says: "The fee is below the fee for the virtual size at the rate that minrelaytxfee says (1,000 satoshi per 1,000 virtual bytes)",
    },
    Rule {
        name: "A36",
        token: "too-long-mempool-chain",
        then: Consequence::Keep,
        core: Some("CalculateMemPoolAncestors"),
        says: "With its ancestors in the pool it would be more transactions than limitancestorcount says (25) or more thousand virtual bytes than limitancestorsize says (101), or an ancestor would get more descendants than limitdescendantcount says (25) or more thousand virtual bytes of them than limitdescendantsize says (101)",
    },
    Rule {
        name: "A37",
        token: "bad-txns-spends-conflicting-tx",
        then: Consequence::Close,
        core: Some("AcceptToMemoryPool"),
        says: "The transaction descends from an entry that it would replace",
    },
    Rule {
        name: "A38",
        token: "insufficient fee",
        then: Consequence::Keep,
        core: Some("PaysMoreThanConflicts (BIP 125)"),
        says: "The feerate is not above that of an entry that it would replace",
    },
    Rule {
        name: "A39",
        token: "too many potential replacements",
        then: Consequence::Keep,
        core: Some("BIP 125, rule 5"),
        says: "It would replace more than 100 entries, counted with their descendants",
    },
    Rule {
        name: "A40",
        token: "replacement-adds-unconfirmed",
        then: Consequence::Keep,
        core: Some("BIP 125, rule 2"),
        says: "It would replace entries, and spends an output of the pool that none of them spends",
    },
    Rule {
        name: "A41",
        token: "insufficient fee",
        then: Consequence::Keep,
        core: Some("BIP 125, rule 3"),
        says: "The fee is below the sum of the fees of the entries that it would replace",
    },
    Rule {
        name: "A42",
        token: "insufficient fee",
        then: Consequence::Keep,
        core: Some("BIP 125, rule 4, -incrementalrelayfee"),
        says: "What it pays above the fees that it would replace is below the fee for its virtual size at the rate that incrementalrelayfee says (1,000 satoshi per 1,000 virtual bytes)",
    },
    Rule {
        name: "A43",
        token: "verdict-missing",
        then: Consequence::Keep,
        core: None,
        says: "There is no verdict on the script of an input; `verdict * ok` in the opening gives one for every input, and `chain verdict` one for an input",
    },
    Rule {
        name: "A44",
        token: "non-mandatory-script-verify-flag",
        then: Consequence::Keep,
        core: Some("PolicyScriptChecks"),
        says: "The script of an input breaks a rule of policy, by its verdict soft",
    },
    Rule {
        name: "A45",
        token: "mandatory-script-verify-flag-failed",
        then: Consequence::Close,
        core: Some("PolicyScriptChecks"),
        says: "The script of an input fails, by its verdict hard",
    },
    Rule {
        name: "A46",
        token: "mempool full",
        then: Consequence::Keep,
        core: Some("LimitMempoolSize"),
        says: "The pool is above its budget, and the transaction itself leaves it again",
    },
    Rule {
        name: "A47",
        token: "TRUC-violation",
        then: Consequence::Keep,
        core: Some("SingleTRUCChecks"),
        says: "truc is 1, and the transaction or an ancestor of it in the pool has version 3 and the other hasn't; or it has version 3 and more than 10,000 virtual bytes, more than one ancestor, more than 1,000 virtual bytes beside an ancestor, or an ancestor with another descendant that neither conflicts with it nor makes room; tested behind A36 and before A37",
    },
    Rule {
        name: "A48",
        token: "dust",
        then: Consequence::Keep,
        core: Some("PreCheckEphemeralTx (29.0)"),
        says: "ephemeraldust is 1, an output has less than its dust threshold, and the transaction pays a fee; tested behind A32 and before A33",
    },
    Rule {
        name: "A49",
        token: "missing-ephemeral-spends",
        then: Consequence::Keep,
        core: Some("CheckEphemeralSpends (29.0)"),
        says: "ephemeraldust is 1, and an output of a parent in the pool has less than its dust threshold and is not spent by the transaction; tested behind A37 and before A38",
    },
    Rule {
        name: "A50",
        token: "max feerate exceeded",
        then: Consequence::Keep,
        core: Some("AcceptSubPackage (28.0)"),
        says: "The feerate of a member of a package is above what the call allows; tested behind A37 and before A49",
    },
    Rule {
        name: "A51",
        token: "datacarrier",
        then: Consequence::Keep,
        core: Some("IsStandardTx (30.0)"),
        says: "The scripts of outputs that carry data (OP_RETURN) have more bytes together than datacarriertotal says (no limit)",
    },
];

impl Denial {
    /// The rows of the rules on a transaction by itself, in their order.
    pub(crate) fn rows_alone() -> &'static [Rule]
        ensures { map key_of result.now ≡ map row_of alone }
    {
        &ALONE
    }

    /// The rows of the rules of admission behind these, in their order.
    pub(crate) fn rows_behind() -> &'static [Rule]
        ensures { map key_of result.now ≡ map row_of behind }
    {
        &BEHIND
    }

    /// What is said of the rule.
    pub fn row(&self) -> &'static Rule
        ensures name { result.now.name.now ≡ name_of self.now }
        ensures token { result.now.token.now ≡ token_of self.now }
        ensures follows { result.now.then ≡ then_of self.now }
    {
        let place = *self as usize;
        if place < ALONE_COUNT {
            &ALONE[place]
        } else {
            &BEHIND[place - ALONE_COUNT]
        }
    }
}

impl fmt::Display for Denial {
    ghost output = { λ denial. Some (token_of denial) };

    fn fmt<W: fmt::Write>(&self, f: &mut fmt::Formatter<W>) -> fmt::Result {
        write!(f, "{}", self.row().token)
    }
}

impl fmt::Debug for Denial {
    fn fmt<W: fmt::Write>(&self, f: &mut fmt::Formatter<W>) -> fmt::Result {
        write!(f, "{self}")
    }
}

impl Error for Denial {}
