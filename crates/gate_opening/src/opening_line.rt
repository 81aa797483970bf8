//! What one line of an opening says.
ghost use Rattle.std.specs.Prelude.{◌≡◌, MatchOption, IfOk, None, Some};
ghost use Rattle.std.specs.Option.{option_map};
ghost use Rattle.gate_opening.specs.OpeningLines.{opening_line_of, budget_line_of, from_line_of, times_line_of, coin_line_of, verdict_line_of, policy_line_of, whitelist_line_of, rpc_line_of, setting_line_of};

use gate_admit::{Verdict, VerdictRow};
use gate_bytes::{Memory, Text};
use gate_chain::OpeningCoin;
use gate_lines::{next_word, read_number, read_small_number};
use gate_net::{NetDenial, WhitelistEntry};
use gate_register::Setting;
use gate_release::Release;
use gate_words::{read_coin, read_row, read_verdict};
use std::alloc::Global;

/// The most virtual bytes that a budget may give the pool.
pub const MAX_BUDGET: u64 = 1_000_000_000;

/// The greatest height that a chain may have.
pub(crate) const MAX_HEIGHT: u32 = 10_000_000;

/// What one line of an opening says.
#[derive(Drop)]
pub(crate) enum OpeningLine {
    /// The pool's budget in virtual bytes.
    Budget(u64),
    /// The height of the first block time.
    From(u32),
    /// Block times in seconds: the first of them, and the step to each next one.
    Times { count: u64, first: u32, step: u64 },
    Coin(OpeningCoin),
    Verdict(VerdictRow),
    /// The verdict on pairs of a transaction and an input without a row.
    OtherVerdicts(Verdict),
    /// An entry of the whitelist, or the rule that it breaks.
    Whitelist(Result<WhitelistEntry, NetDenial>),
    /// An entry of the lists of methods that users may call.
    RpcWhitelist(Text),
    /// The release whose numbers hold where no line says another.
    Defaults(Release),
    /// The number of a setting.
    Number(Setting, u64),
}

/// What a line says, or `None` if it has no form.
pub(crate) fn read_opening_line(alloc: Global, line: &str) -> Result<Option<OpeningLine>, Memory>
    ensures { IfOk result (λ read. read ≡ opening_line_of line.now) }
{
    let Some((name, rest)) = next_word(line) else {
        return Ok(None);
    };
    if name == "budget" {
        return Ok(budget_line(rest));
    }
    if name == "from" {
        return Ok(from_line(rest));
    }
    if name == "times" {
        return Ok(times_line(rest));
    }
    if name == "coin" {
        return coin_line(alloc, rest);
    }
    if name == "verdict" {
        return Ok(verdict_line(rest));
    }
    if name == "policy" {
        return Ok(policy_line(rest));
    }
    if name == "whitelist" {
        return Ok(whitelist_line(rest));
    }
    if name == "rpcwhitelist" {
        return rpc_line(alloc, rest);
    }
    Ok(setting_line(name, rest))
}

/// `N`, behind the name `budget`
fn budget_line(rest: &str) -> Option<OpeningLine>
    ensures { result ≡ budget_line_of rest.now }
{
    let budget = read_number(rest)?;
    if budget <= MAX_BUDGET {
        Some(OpeningLine::Budget(budget))
    } else {
        None
    }
}

/// `HEIGHT`, up to the greatest height of a chain, behind the name `from`
fn from_line(rest: &str) -> Option<OpeningLine>
    ensures { result ≡ from_line_of rest.now }
{
    let height = read_small_number(rest)?;
    if height <= MAX_HEIGHT {
        Some(OpeningLine::From(height))
    } else {
        None
    }
}

/// `COUNT FIRST STEP`, behind the name `times`
fn times_line(rest: &str) -> Option<OpeningLine>
    ensures { result ≡ times_line_of rest.now }
{
    let (count, rest) = next_word(rest)?;
    let (first, step) = next_word(rest)?;
    let count = read_number(count)?;
    let first = read_small_number(first)?;
    let step = read_number(step)?;
    Some(OpeningLine::Times { count, first, step })
}

/// `TXID INDEX VALUE HEIGHT plain|cb SCRIPT`
fn coin_line(alloc: Global, rest: &str) -> Result<Option<OpeningLine>, Memory>
    ensures { IfOk result (λ read. read ≡ coin_line_of rest.now) }
{
    Ok(read_coin(alloc, rest)?.map(OpeningLine::Coin))
}

/// `WTXID INPUT ok|soft|hard`, or `* ok|soft|hard`
fn verdict_line(rest: &str) -> Option<OpeningLine>
    ensures { result ≡ verdict_line_of rest.now }
{
    let (subject, others) = next_word(rest)?;
    if subject == "*" {
        return Some(OpeningLine::OtherVerdicts(read_verdict(others)?));
    }
    Some(OpeningLine::Verdict(read_row(rest)?))
}

/// `RELEASE`
fn policy_line(rest: &str) -> Option<OpeningLine>
    ensures { result ≡ policy_line_of rest.now }
{
    Release::from_word(rest).map(OpeningLine::Defaults)
}

/// `TEXT`, which isn't empty
fn whitelist_line(rest: &str) -> Option<OpeningLine>
    ensures { result ≡ whitelist_line_of rest.now }
{
    if rest.is_empty() {
        return None;
    }
    Some(OpeningLine::Whitelist(WhitelistEntry::parse(rest)))
}

/// `TEXT`, which isn't empty
fn rpc_line(alloc: Global, rest: &str) -> Result<Option<OpeningLine>, Memory>
    ensures { IfOk result (λ read. read ≡ rpc_line_of rest.now) }
{
    if rest.is_empty() {
        return Ok(None);
    }
    let entry = Text::from_string(String::from_str(alloc, rest)?);
    Ok(Some(OpeningLine::RpcWhitelist(entry)))
}

/// `N`, within its bounds, behind the word of a setting
fn setting_line(word: &str, rest: &str) -> Option<OpeningLine>
    ensures { result ≡ setting_line_of word.now rest.now }
{
    let setting = Setting::from_word(word)?;
    let number = read_number(rest)?;
    if setting.allows(number) {
        Some(OpeningLine::Number(setting, number))
    } else {
        None
    }
}
