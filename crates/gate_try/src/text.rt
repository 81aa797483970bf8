//! The text of a trial.
ghost use Rattle.std.specs.Prelude.{◌≡◌, ◌<◌, ◌++◌, IfOk, OnOk, length, string_bytes};
ghost use Rattle.std.specs.Fmt.{signed_decimal};
ghost use Rattle.gate_try.specs.Trials.{call_line, call_lines, coin_line, coin_lines, event_lines, opening_head, opening_lines, own_lines, peer_line, peer_lines, point_words, policy_lines, script_word, sent_lines, setting_line, setting_lines, spent_line, spent_lines, trial_text, verdict_line};

use crate::trial::{SpentCoin, Trial, TrialCoin, TrialSetting};
use gate_bytes::Memory;
use gate_release::Release;
use gate_tx::{OutPoint, TxOut};
use std::alloc::{AllocError, Global};

/// How many blocks before the tip have a time in the opening: eleven make a median.
const BLOCKS: u32 = 10;

/// The seconds from each block to the next.
const STEP: u32 = 600;

/// Appends the block times.
fn push_times(text: &mut String, tip: u32, time: u32) -> Result<(), Memory>
    ensures { OnOk result (string_bytes text.new ≡ string_bytes text.old ++ opening_head tip time) }
{
    let first = tip.saturating_sub(BLOCKS);
    let count = u64::from(tip - first) + 1;
    let second = time.saturating_sub(BLOCKS * STEP);
    write!(text, "from {first}\ntimes {count} {second} 600\n")?;
    Ok(())
}

/// Appends the line of a coin.
fn push_coin(text: &mut String, coin: &TrialCoin<'_>) -> Result<(), Memory>
    ensures { OnOk result (string_bytes text.new ≡ string_bytes text.old ++ coin_line coin.now) }
{
    let TrialCoin {
        txid,
        index,
        value,
        height,
        script,
        is_coinbase,
    } = *coin;
    let kind = if is_coinbase { "cb" } else { "plain" };
    write!(
        text,
        "coin {txid} {index} {value} {height} {kind} {script}\n"
    )?;
    Ok(())
}

fn push_coins(text: &mut String, coins: &[TrialCoin<'_>]) -> Result<(), Memory>
    ensures { OnOk result (string_bytes text.new ≡ string_bytes text.old ++ coin_lines coins.now) }
{
    for coin in coins {
        push_coin(text, coin)?;
    }
    Ok(())
}

/// The word of an output's script.
fn script_word(alloc: Global, output: &TxOut) -> Result<String, AllocError>
    ensures { IfOk result (λ word. string_bytes word ≡ script_word output.now.script) }
{
    let script = output.script.as_slice();
    if script.is_empty() {
        String::from_str(alloc, "-")
    } else {
        hex::encode(alloc, script)
    }
}

/// The words of an outpoint.
fn point_words(alloc: Global, point: &OutPoint) -> Result<String, AllocError>
    ensures { IfOk result (λ words. string_bytes words ≡ point_words point.now) }
{
    let txid = point.txid;
    let index = point.index;
    format!(in alloc; "{txid} {index}")
}

/// The word of an amount.
fn value_word(alloc: Global, output: &TxOut) -> Result<String, AllocError>
    ensures { IfOk result (λ word. string_bytes word ≡ signed_decimal output.now.value) }
{
    let value = output.value;
    format!(in alloc; "{value}")
}

/// Appends the line of a coin of a PSBT.
fn push_spent_coin(
    text: &mut String,
    alloc: Global,
    height: u32,
    coin: &SpentCoin,
) -> Result<(), Memory>
    ensures { OnOk result (string_bytes text.new ≡ string_bytes text.old ++ spent_line height coin.now) }
{
    let point = point_words(alloc, &coin.point)?;
    let value = value_word(alloc, &coin.output)?;
    let script = script_word(alloc, &coin.output)?;
    write!(text, "coin {point} {value} {height} plain {script}\n")?;
    Ok(())
}

fn push_spent(
    text: &mut String,
    alloc: Global,
    height: u32,
    coins: &[SpentCoin],
) -> Result<(), Memory>
    ensures { OnOk result (string_bytes text.new ≡ string_bytes text.old ++ spent_lines height coins.now) }
{
    for coin in coins {
        push_spent_coin(text, alloc, height, coin)?;
    }
    Ok(())
}

/// Appends the line of a release, if there is one.
fn push_policy(text: &mut String, policy: Option<Release>) -> Result<(), Memory>
    ensures { OnOk result (string_bytes text.new ≡ string_bytes text.old ++ policy_lines policy) }
{
    if let Some(release) = policy {
        let word = release.word();
        write!(text, "policy {word}\n")?;
    }
    Ok(())
}

/// Appends the line of a setting.
fn push_setting(text: &mut String, said: &TrialSetting) -> Result<(), Memory>
    ensures { OnOk result (string_bytes text.new ≡ string_bytes text.old ++ setting_line said.now) }
{
    let TrialSetting { setting, number } = *said;
    let word = setting.row().word;
    write!(text, "{word} {number}\n")?;
    Ok(())
}

fn push_settings(text: &mut String, settings: &[TrialSetting]) -> Result<(), Memory>
    ensures { OnOk result (string_bytes text.new ≡ string_bytes text.old ++ setting_lines settings.now) }
{
    for said in settings {
        push_setting(text, said)?;
    }
    Ok(())
}

/// Appends the submissions of a peer at a second.
fn push_sent(text: &mut String, time: u32, transactions: &[&str]) -> Result<(), Memory>
    ensures { OnOk result (string_bytes text.new ≡ string_bytes text.old ++ sent_lines time transactions.now) }
{
    for transaction in transactions {
        write!(text, "peer 1 tx {time} {transaction}\n")?;
    }
    Ok(())
}

/// Appends the events of a peer that enters and sends these transactions at a second.
#[tactic(auto, using(std::proofs::lemmas::List::append_assoc))]
fn push_peer(text: &mut String, time: u32, transactions: &[&str]) -> Result<(), Memory>
    ensures { OnOk result (string_bytes text.new ≡ string_bytes text.old ++ peer_lines time transactions.now) }
{
    text.push_str("peer 1 enter 127.0.0.1\n")?;
    push_sent(text, time, transactions)
}

/// Appends the call of a user that sends a transaction at a second, or only asks for it.
fn push_call(text: &mut String, time: u32, transaction: &str, asks: bool) -> Result<(), Memory>
    ensures { OnOk result (string_bytes text.new ≡ string_bytes text.old ++ call_line time transaction.now asks) }
{
    if asks {
        write!(
            text,
            "user try rpc {time} {{\"id\":1,\"method\":\"testmempoolaccept\",\"params\":[[\"{transaction}\"]]}}\n"
        )?;
    } else {
        write!(
            text,
            "user try rpc {time} {{\"id\":1,\"method\":\"sendrawtransaction\",\"params\":[\"{transaction}\"]}}\n"
        )?;
    }
    Ok(())
}

/// Appends the calls of a user that sends these transactions at a second, or only asks for it if there is one alone.
fn push_calls(text: &mut String, time: u32, transactions: &[&str]) -> Result<(), Memory>
    ensures { OnOk result (string_bytes text.new ≡ string_bytes text.old ++ call_lines time transactions.now) }
{
    let asks = transactions.len() == 1;
    for transaction in transactions {
        push_call(text, time, transaction, asks)?;
    }
    Ok(())
}

/// Appends the events that try the PSBT's own transaction at a second: a user asks for it, or a peer sends it.
#[tactic(auto, using(std::proofs::lemmas::List::append_assoc))]
fn push_own(text: &mut String, time: u32, transaction: &str, json: bool) -> Result<(), Memory>
    ensures { OnOk result (string_bytes text.new ≡ string_bytes text.old ++ own_lines time transaction.now json) }
{
    if json {
        push_call(text, time, transaction, true)
    } else {
        text.push_str("peer 1 enter 127.0.0.1\n")?;
        write!(text, "peer 1 tx {time} {transaction}\n")?;
        Ok(())
    }
}

/// Appends the verdict on every input, and the end of the opening.
fn push_verdict(text: &mut String, verdict: &str) -> Result<(), Memory>
    ensures { OnOk result (string_bytes text.new ≡ string_bytes text.old ++ verdict_line verdict.now) }
{
    write!(text, "verdict * {verdict}\n---\n")?;
    Ok(())
}

impl Trial<'_> {
    /// Appends the opening.
    #[tactic(auto, using(std::proofs::lemmas::List::append_assoc))]
    fn push_opening(&self, alloc: Global, text: &mut String) -> Result<(), Memory>
        ensures { OnOk result (string_bytes text.new ≡ string_bytes text.old ++ opening_lines self.now) }
    {
        push_times(text, self.tip, self.time)?;
        push_coins(text, self.coins.as_slice())?;
        push_spent(text, alloc, self.height, self.spent.as_slice())?;
        push_policy(text, self.policy)?;
        push_settings(text, self.settings.as_slice())?;
        push_verdict(text, self.verdict)
    }

    /// Appends the events.
    fn push_events(&self, text: &mut String) -> Result<(), Memory>
        ensures { OnOk result (string_bytes text.new ≡ string_bytes text.old ++ event_lines self.now) }
    {
        if let Some(transaction) = &self.finished {
            return push_own(text, self.time, transaction.as_str(), self.json);
        }
        let transactions = self.transactions.as_slice();
        if self.json {
            push_calls(text, self.time, transactions)
        } else {
            push_peer(text, self.time, transactions)
        }
    }

    /// The text of the opening and the events that try it, which `gate run` reads.
    pub fn text(&self, alloc: Global) -> Result<String, Memory>
        ensures { IfOk result (λ text. string_bytes text ≡ trial_text self.now) }
    {
        let mut text = String::new(alloc);
        self.push_opening(alloc, &mut text)?;
        self.push_events(&mut text)?;
        Ok(text)
    }
}
