//! The reports on the inputs, A31 to A33, and A48 among them.
ghost use Rattle.std.specs.Prelude.{◌≡◌, ◌≤◌, ◌<◌, ◌+◌, ◌^◌, Some, None, IsTrue, IfOk, IfErr, OnOk, length};
ghost use Rattle.std.specs.List.{list_all};
ghost use Rattle.gate_bytes.specs.Order.{first_failing};
ghost use Rattle.gate_inputs.specs.Answers.{answers_of};
ghost use Rattle.gate_admit.specs.Reports.{reported, output_sigops, sigop_cost, is_relayed, has_relayed_witness, legacy_sigops, report_rules};
ghost use Rattle.gate_standard.specs.Standards.{is_past};

use crate::coins::LentCoin;
use crate::policy::Policy;
use gate_bytes::{Memory, is_same};
use gate_inputs::{Answers, InputReport, Piece, answers};
use gate_script::sigops;
use gate_standard::{Denial, has_ephemeral_dust};
use gate_tx::{Coin, Transaction, TxIn, TxOut};
use std::alloc::Global;

/// The most that a transaction's signature operations may cost (Bitcoin Core's `MAX_STANDARD_TX_SIGOPS_COST`).
const MAX_SIGOP_COST: u128 = 16_000;

/// Whether the lent coin is equal to this one.
fn is_coin(coin: &Coin, lent: &LentCoin<'_>) -> bool
    ensures { IsTrue result → coin.now ≡ lent.now }
{
    coin.value == lent.value()
        && coin.script.as_slice() == lent.script()
        && coin.height == lent.height()
        && coin.coinbase == lent.is_coinbase()
}

/// Whether the piece is of this input and coin.
fn is_of(piece: &Piece, input: &TxIn, coin: &LentCoin<'_>) -> bool
    ensures { IsTrue result → (piece.now.input ≡ input.now) × (piece.now.coin ≡ coin.now) }
{
    is_same(&piece.input, input) && is_coin(&piece.coin, coin)
}

/// The answers on an input and its coin: those of the report if it is of the two, else worked out here.
fn answers_by(
    alloc: Global,
    report: Option<&InputReport>,
    input: &TxIn,
    coin: &LentCoin<'_>,
) -> Result<Answers, Memory>
    ensures { IfOk result (λ found. found ≡ answers_of input.now coin.now.script) }
{
    if let Some(report) = report {
        if is_of(report.piece(), input, coin) {
            return Ok(report.answers());
        }
    }
    answers(alloc, input, coin.script())
}

/// The reports that are left from the first one whose input is at this place or later.
fn from_input(reports: &[InputReport], place: usize) -> &[InputReport] {
    match reports
        .iter()
        .position(|report| report.piece().index as usize >= place)
    {
        Some(at) => &reports[at..],
        None => &[],
    }
}

/// The answers on each input. A report belongs to the input that its piece names: reports stand in the order of the
/// inputs, some of which may have none.
pub fn reported(
    alloc: Global,
    reports: &[InputReport],
    inputs: &[TxIn],
    coins: &[LentCoin<'_>],
) -> Result<Vec<Answers>, Memory>
    requires { length coins.now ≡ length inputs.now }
    ensures reported { IfOk result (λ found. found.items ≡ reported inputs.now coins.now) }
    ensures one_each { IfOk result (λ found. length found.items ≡ length inputs.now) }
{
    let mut found = Vec::with_capacity(alloc, inputs.len())?;
    let mut left = reports;
    for place in 0..inputs.len() {
        left = from_input(left, place);
        let coin = &coins[place];
        found.push(answers_by(alloc, left.first(), &inputs[place], coin)?)?;
    }
    Ok(found)
}

/// How many signature operations the script of an output has, counted inaccurately.
fn output_sigops(output: &TxOut) -> u64
    ensures { result ≡ output_sigops output.now }
{
    sigops(output.script.as_slice(), false)
}

/// The cost of the transaction's signature operations: that of its inputs, and four for each one of an output.
pub fn sigop_cost(tx: &Transaction, answers: &[Answers]) -> u128
    requires { length answers.now ≤ length tx.now.inputs }
    ensures { result ≡ sigop_cost answers.now tx.now.outputs }
{
    tx.recall_invariant();
    let mut cost: u128 = 0;
    for answer in answers {
        cost += u128::from(answer.sigop_cost);
    }
    let mut count: u128 = 0;
    for output in tx.outputs() {
        count += u128::from(output_sigops(output));
    }
    cost + 4 * count
}

/// Whether policy relays the spend, of an anchor too where the operator takes anchors.
pub fn is_relayed(anchors: bool, answers: &Answers) -> bool
    ensures { result ≡ is_relayed anchors answers.now }
{
    (anchors && answers.anchor) || answers.standard
}

/// Whether policy relays the witness: where the operator takes anchors, one is spent without a witness.
pub fn has_relayed_witness(anchors: bool, answers: &Answers) -> bool
    ensures { result ≡ has_relayed_witness anchors answers.now }
{
    !(anchors && answers.anchor && !answers.bare) && answers.witness_standard
}

fn are_relayed(anchors: bool, answers: &[Answers]) -> bool
    ensures { result ≡ list_all (is_relayed anchors) answers.now }
{
    answers.iter().all(|answer| is_relayed(anchors, answer))
}

fn have_relayed_witnesses(anchors: bool, answers: &[Answers]) -> bool
    ensures { result ≡ list_all (has_relayed_witness anchors) answers.now }
{
    answers
        .iter()
        .all(|answer| has_relayed_witness(anchors, answer))
}

/// The legacy signature operations of all inputs.
pub fn legacy_sigops(answers: &[Answers]) -> u128
    ensures { result ≡ legacy_sigops answers.now }
{
    let mut count: u128 = 0;
    for answer in answers {
        count += u128::from(answer.legacy_sigops);
    }
    count
}

/// Whether the inputs have more legacy signature operations than this, if they are limited.
fn has_many_legacy_sigops(limit: Option<u64>, answers: &[Answers]) -> bool
    ensures { result ≡ is_past limit (legacy_sigops answers.now) }
{
    match limit {
        Some(most) => legacy_sigops(answers) > u128::from(most),
        None => false,
    }
}

/// The cost of the signature operations, or the first of A31, A32, A48 and A33 that fails for a transaction that pays this
/// fee, in satoshi.
#[tactic(auto, unfolding(crate::specs::Reports::report_rules))]
pub fn check_reports(
    policy: &Policy,
    tx: &Transaction,
    fee: u64,
    answers: &[Answers],
) -> Result<u64, Denial>
    requires { length answers.now ≡ length tx.now.inputs }
    ensures ok { IfOk result (λ cost. cost ≡ sigop_cost answers.now tx.now.outputs) }
    ensures small { IfOk result (λ cost. cost ≤ 16000) }
    ensures passes { OnOk result (first_failing (report_rules policy.now answers.now fee tx.now) ≡ None) }
    ensures err { IfErr result (λ denial. first_failing (report_rules policy.now answers.now fee tx.now) ≡ Some denial) }
{
    if has_many_legacy_sigops(policy.legacy_sigops(), answers)
        || !are_relayed(policy.anchors(), answers)
    {
        return Err(Denial::NonstandardInputs);
    }
    if !have_relayed_witnesses(policy.anchors(), answers) {
        return Err(Denial::WitnessNonstandard);
    }
    if fee > 0 && has_ephemeral_dust(&policy.standards(), tx) {
        return Err(Denial::DustWithFee);
    }
    let cost = sigop_cost(tx, answers);
    if cost > MAX_SIGOP_COST {
        return Err(Denial::TooManySigops);
    }
    Ok(cost as u64)
}
