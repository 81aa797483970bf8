//! Why an opening is refused.
ghost use Rattle.std.specs.Prelude.{◌≡◌, ◌≢◌, Some};
ghost use Rattle.gate_opening.specs.OpeningFaults.{token_text, located, line_of_coin, unread_by};

use gate_chain::OpenFault;
use gate_lines::LaneFault;
use gate_net::NetDenial;
use std::fmt;
use thiserror::Error;

/// What is wrong with an opening.
#[derive(Clone, Copy, Debug, PartialEq, Eq)]
pub enum OpeningToken {
    /// A line without a form, past a limit, or that says a second time what may be said once.
    BadLine,
    /// More than 1,000,000 block times, one after the first of its line that doesn't fit 32 bits, or a tip above 10,000,000.
    TimesLimit,
    /// A whitelist entry that breaks a rule.
    Whitelist(NetDenial),
    NoTimes,
    CoinValue,
    CoinUnspendable,
    CoinAboveTip,
    CoinTwice,
}

impl OpeningToken {
    /// The word that is printed for this fault.
    pub fn as_str(&self) -> &'static str
        ensures { result.now ≡ token_text self.now }
    {
        match self {
            OpeningToken::BadLine => "bad-line",
            OpeningToken::TimesLimit => "times-limit",
            OpeningToken::Whitelist(denial) => denial.row().token,
            OpeningToken::NoTimes => "no-times",
            OpeningToken::CoinValue => "coin-value",
            OpeningToken::CoinUnspendable => "coin-unspendable",
            OpeningToken::CoinAboveTip => "coin-above-tip",
            OpeningToken::CoinTwice => "coin-twice",
        }
    }
}

impl fmt::Display for OpeningToken {
    ghost output = { λ token. Some (token_text token) };

    fn fmt<W: fmt::Write>(&self, f: &mut fmt::Formatter<W>) -> fmt::Result {
        let text = self.as_str();
        write!(f, "{text}")
    }
}

/// Why an opening gives no state.
#[derive(Clone, Copy, Debug, PartialEq, Eq, Error)]
pub enum OpeningFault {
    /// The first fault: the number of its line, from 1, or 0 if no line is at fault.
    #[error("opening {0} {1}")]
    Line(u64, OpeningToken),
    /// The reader failed; an interrupted read is a failure too.
    #[error("the opening could not be read")]
    Read,
    #[error("out of memory")]
    Memory,
}

/// A fault of a reader. A reader has no fault of writing, which counts as one of reading here.
impl From<LaneFault> for OpeningFault {
    ghost from_gives = { λ lane fault. fault ≡ unread_by lane };

    fn from(fault: LaneFault) -> OpeningFault {
        match fault {
            LaneFault::Read | LaneFault::Write => OpeningFault::Read,
            LaneFault::Memory => OpeningFault::Memory,
        }
    }
}

/// A fault of the chain, at the line of its coin; `lines` has the line of each coin.
pub(crate) fn at_line(fault: OpenFault, lines: &[u64]) -> OpeningFault
    ensures located { result ≡ located lines.now fault }
    ensures kind { result ≢ OpeningFault.Read }
{
    match fault {
        OpenFault::Memory => OpeningFault::Memory,
        OpenFault::NoTimes => OpeningFault::Line(0, OpeningToken::NoTimes),
        OpenFault::TimesLimit => OpeningFault::Line(0, OpeningToken::TimesLimit),
        OpenFault::CoinValue(coin) => {
            OpeningFault::Line(line_of(lines, coin), OpeningToken::CoinValue)
        }
        OpenFault::CoinUnspendable(coin) => {
            OpeningFault::Line(line_of(lines, coin), OpeningToken::CoinUnspendable)
        }
        OpenFault::CoinAboveTip(coin) => {
            OpeningFault::Line(line_of(lines, coin), OpeningToken::CoinAboveTip)
        }
        OpenFault::CoinTwice(coin) => {
            OpeningFault::Line(line_of(lines, coin), OpeningToken::CoinTwice)
        }
    }
}

fn line_of(lines: &[u64], coin: usize) -> u64
    ensures { result ≡ line_of_coin lines.now coin }
{
    match lines.get(coin) {
        Some(line) => *line,
        None => 0,
    }
}
