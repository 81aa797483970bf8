//! What every transaction must meet before it is looked at further.
ghost use Rattle.std.specs.Prelude.{◌≡◌, ◌+◌, ◌≤◌, None, Some, IfOk, IfErr, OnOk};
ghost use Rattle.gate_bytes.specs.Order.{first_failing};
ghost use Rattle.gate_tx.specs.Money.{max_money, amount_or_zero};
ghost use Rattle.gate_standard.specs.Rules.{rules_of_value, output_value_rules, spends_twice, spends_null, is_coinbase, coinbase_rules, transaction_rules};

use gate_bytes::Memory;
use gate_rules::Denial;
use gate_tx::{MAX_MONEY, Transaction, TxIn, TxOut};
use std::alloc::Global;
use std::collections::BTreeSet;

/// The most weight of a block (BIP 141).
const MAX_WEIGHT: usize = 4_000_000;

/// Adds a value to a sum, unless a rule fails.
fn add_value(sum: u64, value: i64) -> Result<u64, Denial>
    requires { sum ≤ max_money }
    ensures ok { IfOk result (λ next. next ≡ sum + amount_or_zero value) }
    ensures small { IfOk result (λ next. next ≤ max_money) }
    ensures passes { OnOk result (first_failing (rules_of_value sum value) ≡ None) }
    ensures err { IfErr result (λ denial. first_failing (rules_of_value sum value) ≡ Some denial) }
{
    if value < 0 {
        return Err(Denial::VoutNegative);
    }
    let amount = value as u64;
    if amount > MAX_MONEY {
        return Err(Denial::VoutTooLarge);
    }
    if sum + amount > MAX_MONEY {
        return Err(Denial::TotalTooLarge);
    }
    Ok(sum + amount)
}

fn check_values(outputs: &[TxOut]) -> Option<Denial>
    ensures { result ≡ first_failing (output_value_rules 0 outputs.now) }
{
    let mut sum = 0;
    for output in outputs {
        match add_value(sum, output.value) {
            Ok(next) => sum = next,
            Err(denial) => return Some(denial),
        }
    }
    None
}

/// Whether two inputs spend the same outpoint. It uses a tree of outpoints and no hash table: whoever
/// sends a transaction chooses its outpoints, and no choice can make a tree slow.
fn spends_twice(alloc: Global, inputs: &[TxIn]) -> Result<bool, Memory>
    ensures { IfOk result (λ found. found ≡ spends_twice inputs.now) }
{
    if let [] | [_] = inputs {
        return Ok(false);
    }
    let mut spent = BTreeSet::new(alloc);
    for input in inputs {
        if !spent.insert(input.prevout)? {
            return Ok(true);
        }
    }
    Ok(false)
}

fn spends_null(inputs: &[TxIn]) -> bool
    ensures { result ≡ spends_null inputs.now }
{
    inputs.iter().any(|input| input.prevout.is_null())
}

/// Denies a coinbase, with its own reason if its script has a length that no block allows.
fn check_coinbase(inputs: &[TxIn]) -> Option<Denial>
    ensures { result ≡ first_failing (coinbase_rules inputs.now) }
{
    match inputs {
        [input] if input.prevout.is_null() => {
            let length = input.script.len();
            if length < 2 || length > 100 {
                Some(Denial::CoinbaseLength)
            } else {
                Some(Denial::Coinbase)
            }
        }
        _ if spends_null(inputs) => Some(Denial::PrevoutNull),
        _ => None,
    }
}

/// The first rule that fails, of those that every transaction has to meet: A2 to A11 (Bitcoin Core
/// 22.0's `CheckTransaction`, and that a coinbase is never relayed).
#[tactic(auto, using(gate_bytes::proofs::OrderLemmas::first_failing_append), unfolding(crate::specs::Rules::transaction_rules))]
pub fn check_transaction(alloc: Global, tx: &Transaction) -> Result<Option<Denial>, Memory>
    ensures { IfOk result (λ found. found ≡ first_failing (transaction_rules tx.now)) }
{
    if tx.inputs().is_empty() {
        return Ok(Some(Denial::VinEmpty));
    }
    if tx.outputs().is_empty() {
        return Ok(Some(Denial::VoutEmpty));
    }
    if tx.stripped_size() > MAX_WEIGHT / 4 {
        return Ok(Some(Denial::Oversize));
    }
    if let Some(denial) = check_values(tx.outputs()) {
        return Ok(Some(denial));
    }
    if spends_twice(alloc, tx.inputs())? {
        return Ok(Some(Denial::InputsDuplicate));
    }
    Ok(check_coinbase(tx.inputs()))
}
