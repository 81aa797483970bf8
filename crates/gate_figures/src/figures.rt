//! The figures by which a rule denies, and their words.
use gate_tx::{OutPoint, Txid, Wtxid};
use std::fmt;

/// The figures by which a rule denies a transaction.
#[derive(Clone, Copy, PartialEq, Eq)]
pub enum Figures {
    /// The transaction's size without witnesses, in bytes, which is too large.
    Large {
        size: usize,
    },
    /// The transaction's size without witnesses, which is too small, and the least that it may have, in bytes.
    Small {
        size: usize,
        needs: u64,
    },
    /// The transaction's weight, which is too large.
    Weighs {
        weight: usize,
    },
    /// An output whose script is of no kind that is standard.
    Script {
        output: usize,
    },
    /// An output whose script asks for signatures of several keys, where the policy permits none.
    BareMultisig {
        output: usize,
    },
    /// An output whose script carries data, the size of that script, and how large it may be, in bytes.
    DataScript {
        output: usize,
        size: usize,
        most: u64,
    },
    /// How many outputs carry data, and how many may.
    DataOutputs {
        count: usize,
        most: u64,
    },
    /// An output whose script carries data, the size of that script, and how many bytes the outputs before it left.
    DataLeft {
        output: usize,
        size: u64,
        left: u64,
    },
    /// An output, its value, and the value that it needs, in satoshi.
    Dust {
        output: usize,
        value: i64,
        needs: u128,
    },
    /// An output that is dust, and the fee that the transaction pays beside it, in satoshi.
    DustPays {
        output: usize,
        fee: u128,
    },
    /// An output of a parent that is dust, and that the transaction doesn't spend.
    Unswept {
        outpoint: OutPoint,
    },
    /// The transaction's locktime, the height of the next block, and the median time past of the tip.
    Final {
        locktime: u32,
        height: u32,
        median: u32,
    },
    /// An input, and the entry that spends its outpoint and doesn't signal that it may be replaced.
    Spent {
        input: usize,
        by: Txid,
    },
    /// An input, and the outpoint that it spends, which has no coin.
    NoCoin {
        input: usize,
        outpoint: OutPoint,
    },
    /// An input whose coin is a coinbase's, the coin's height, and that of the next block.
    Young {
        input: usize,
        height: u32,
        next: u32,
    },
    /// An input, and how many blocks more its relative lock asks for.
    HeightLocked {
        input: usize,
        blocks: u64,
    },
    /// An input, and how many seconds more of median time past its relative lock asks for.
    TimeLocked {
        input: usize,
        seconds: u64,
    },
    /// An input whose relative lock is by time, and whose coin is older than the block times that are known.
    UntimedLocked {
        input: usize,
    },
    /// An input that spends a coin whose script, or whose redeem script, is not standard.
    NonstandardSpend {
        input: usize,
    },
    /// How many legacy signature operations the transaction has, and how many it may have.
    LegacySigops {
        count: u128,
        most: u64,
    },
    /// An input whose witness is not standard.
    NonstandardWitness {
        input: usize,
    },
    /// The total value of the transaction's coins, and that of its outputs, in satoshi.
    Balance {
        coins: u128,
        outputs: u128,
    },
    /// The cost of the transaction's signature operations, which is too high.
    Costs {
        cost: u128,
    },
    /// The fee that the transaction pays, and the fee that it needs, in satoshi.
    Pays {
        fee: u128,
        needs: u128,
    },
    /// How many transactions of a package are judged together, the fee that they pay, their virtual size, and the fee that
    /// it needs, in satoshi.
    PayTogether {
        count: usize,
        fee: u64,
        vsize: u64,
        needs: u128,
    },
    /// How many ancestors the transaction would have, and how many it may have by its size, itself among them.
    Ancestors {
        count: u128,
        most: usize,
    },
    /// The total virtual size of the transaction and its ancestors, which is too large, and how large it may be.
    AncestorsSized {
        size: u128,
        most: u64,
    },
    /// The transaction's feerate, and an entry that it conflicts with, whose feerate is no lower; in satoshi per 1,000
    /// virtual bytes.
    Outpaid {
        rate: u128,
        most: u128,
        by: Txid,
    },
    /// How many descendants the entries that the transaction conflicts with have in total, themselves among them.
    Descendants {
        count: u128,
    },
    /// The fee that the transaction pays, the fees of the entries that it would replace, and what it has to pay above
    /// them, in satoshi.
    Above {
        fee: u128,
        gone: u128,
        needs: u128,
    },
    /// An input of the transaction with this wtxid, whose verdict is missing or not good.
    Input {
        input: u32,
        wtxid: Wtxid,
    },
}

impl fmt::Display for Figures {
    fn fmt<W: fmt::Write>(&self, f: &mut fmt::Formatter<W>) -> fmt::Result {
        match self {
            Figures::Large { size } => {
                write!(f, "{size} bytes without witnesses, 1000000 allowed")
            }
            Figures::Small { size, needs } => {
                write!(f, "{size} bytes without witnesses, needs {needs}")
            }
            Figures::Weighs { weight } => write!(f, "weight {weight}, 400000 allowed"),
            Figures::Script { output } => {
                write!(f, "output {output}: its script is not standard")
            }
            Figures::BareMultisig { output } => write!(
                f,
                "output {output}: a multisig script, and permitbaremultisig is 0"
            ),
            Figures::DataScript { output, size, most } => write!(
                f,
                "output {output}: a data script of {size} bytes, {most} allowed"
            ),
            Figures::DataOutputs { count, most } => {
                write!(f, "{count} outputs carry data, {most} allowed")
            }
            Figures::DataLeft { output, size, left } => write!(
                f,
                "output {output}: a data script of {size} bytes, {left} left"
            ),
            Figures::Dust {
                output,
                value,
                needs,
            } => write!(f, "output {output}: value {value}, needs {needs}"),
            Figures::DustPays { output, fee } => {
                write!(f, "output {output} is dust, pays {fee}, 0 allowed")
            }
            Figures::Unswept { outpoint } => {
                let OutPoint { txid, index } = outpoint;
                write!(f, "dust {txid}:{index} of a parent is not spent")
            }
            Figures::Final {
                locktime,
                height,
                median,
            } => write!(
                f,
                "locktime {locktime}, next height {height}, median time past {median}"
            ),
            Figures::Spent { input, by } => write!(
                f,
                "input {input}: {by} spends its coin, and does not signal replacement"
            ),
            Figures::NoCoin { input, outpoint } => {
                let OutPoint { txid, index } = outpoint;
                write!(f, "input {input}: no coin {txid}:{index}")
            }
            Figures::Young {
                input,
                height,
                next,
            } => write!(
                f,
                "input {input}: a coinbase of height {height}, next height {next}"
            ),
            Figures::HeightLocked { input, blocks } => {
                write!(f, "input {input}: locked for {blocks} more blocks")
            }
            Figures::TimeLocked { input, seconds } => write!(
                f,
                "input {input}: locked for {seconds} more seconds of median time past"
            ),
            Figures::UntimedLocked { input } => write!(
                f,
                "input {input}: locked by time, and its coin is older than the block times of the opening"
            ),
            Figures::NonstandardSpend { input } => write!(
                f,
                "input {input}: the script of its coin, or its redeem script, is not standard"
            ),
            Figures::LegacySigops { count, most } => write!(
                f,
                "{count} legacy signature operations, {most} allowed"
            ),
            Figures::NonstandardWitness { input } => {
                write!(f, "input {input}: its witness is not standard")
            }
            Figures::Balance { coins, outputs } => {
                write!(f, "coins of {coins}, outputs of {outputs}")
            }
            Figures::Costs { cost } => write!(f, "cost {cost}, 16000 allowed"),
            Figures::Pays { fee, needs } => write!(f, "pays {fee}, needs {needs}"),
            Figures::PayTogether {
                count,
                fee,
                vsize,
                needs,
            } => write!(
                f,
                "{count} together pay {fee} for {vsize} virtual bytes, need {needs}"
            ),
            Figures::Ancestors { count, most } => {
                write!(f, "{count} ancestors, {most} allowed")
            },
            Figures::AncestorsSized { size, most } => write!(
                f,
                "ancestors of {size} virtual bytes, {most} allowed"
            ),
            Figures::Outpaid { rate, most, by } => write!(
                f,
                "pays {rate} per 1000 virtual bytes, needs more than the {most} of {by}"
            ),
            Figures::Descendants { count } => write!(f, "{count} descendants, 100 allowed"),
            Figures::Above { fee, gone, needs } => {
                let left = fee.saturating_sub(*gone);
                write!(f, "{fee} - {gone} = {left}, needs {needs}")
            }
            Figures::Input { input, wtxid } => write!(f, "input {input} of {wtxid}"),
        }
    }
}
