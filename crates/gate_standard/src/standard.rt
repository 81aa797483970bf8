//! What is relayed: A12 to A19, and A51.
ghost use Rattle.std.specs.Prelude.{◌≡◌, None, Some, IfOk, IfErr, OnOk, true};
ghost use Rattle.std.specs.List.{flat_map, count_by};
ghost use Rattle.gate_bytes.specs.Order.{first_failing};
ghost use Rattle.gate_standard.specs.Outputs.{carries_data};
ghost use Rattle.gate_standard.specs.Rules.{is_truc, is_version, rules_of_input, rules_of_output, rules_of_outputs, left_behind, form_rules, output_rules, version_rules};
ghost use Rattle.gate_standard.specs.Standards.{is_past};

use crate::outputs::{dust_count, is_below_dust, is_null_data, is_standard_template};
use crate::standards::Standards;
use gate_rules::Denial;
use gate_script::{is_push_only, template};
use gate_tx::{Transaction, TxIn, TxOut};

/// The most weight (Bitcoin Core's `MAX_STANDARD_TX_WEIGHT`).
const MAX_WEIGHT: usize = 400_000;

/// The longest input script in bytes (Bitcoin Core's `MAX_STANDARD_SCRIPTSIG_SIZE`).
const MAX_INPUT_SCRIPT: usize = 1650;

fn check_inputs(inputs: &[TxIn]) -> Option<Denial>
    ensures { result ≡ first_failing (flat_map rules_of_input inputs.now) }
{
    for input in inputs {
        let script = input.script.as_slice();
        if script.len() > MAX_INPUT_SCRIPT {
            return Some(Denial::ScriptSigSize);
        }
        if !is_push_only(script) {
            return Some(Denial::ScriptSigNotPushOnly);
        }
    }
    None
}

fn is_past(limit: Option<u64>, number: u64) -> bool
    ensures { result ≡ is_past limit number }
{
    match limit {
        Some(most) => number > most,
        None => false,
    }
}

/// What is left for data behind a script of this size that carries some.
fn left_behind(left: Option<u64>, size: u64) -> Option<u64>
    ensures { result ≡ left_behind left true size }
{
    left.map(|bytes| bytes.saturating_sub(size))
}

/// Whether the output carries data, for which this many bytes are left, unless a rule fails on it.
#[tactic(auto, unfolding(crate::specs::Outputs::is_standard_output, crate::specs::Outputs::carries_data, crate::specs::Outputs::is_dust))]
fn check_output(standards: &Standards, left: Option<u64>, output: &TxOut) -> Result<bool, Denial>
    ensures carries { IfOk result (λ carries. carries ≡ carries_data output.now) }
    ensures passes { OnOk result (first_failing (rules_of_output standards.now left output.now) ≡ None) }
    ensures err { IfErr result (λ denial. first_failing (rules_of_output standards.now left output.now) ≡ Some denial) }
{
    let template = template(output.script.as_slice());
    if !is_standard_template(standards, &template, output.script.len()) {
        return Err(Denial::ScriptPubKey);
    }
    let carries = is_null_data(&template);
    if carries && is_past(left, output.script.len() as u64) {
        return Err(Denial::DataCarrier);
    }
    if !standards.ephemeral_dust && !carries && is_below_dust(standards.dust_rate, output) {
        return Err(Denial::Dust);
    }
    Ok(carries)
}

/// How many outputs carry data, unless a rule fails on an output.
fn count_carriers(standards: &Standards, outputs: &[TxOut]) -> Result<usize, Denial>
    ensures carriers { IfOk result (λ carriers. carriers ≡ count_by carries_data outputs.now) }
    ensures passes { OnOk result (first_failing (rules_of_outputs standards.now standards.now.data_total outputs.now) ≡ None) }
    ensures err { IfErr result (λ denial. first_failing (rules_of_outputs standards.now standards.now.data_total outputs.now) ≡ Some denial) }
{
    let mut carriers = 0;
    let mut left = standards.data_total;
    for output in outputs {
        match check_output(standards, left, output) {
            Ok(true) => {
                carriers += 1;
                left = left_behind(left, output.script.len() as u64);
            }
            Ok(false) => {}
            Err(denial) => return Err(denial),
        }
    }
    Ok(carriers)
}

/// Whether a transaction has version 3, and so keeps to a small family until it is confirmed (BIP 431).
pub fn is_truc(tx: &Transaction) -> bool
    ensures { result ≡ is_truc tx.now }
{
    tx.version() == 3
}

/// Whether a transaction's version is standard: 1 or 2, or 3 where an operator says so.
fn is_version(truc: bool, tx: &Transaction) -> bool
    ensures { result ≡ is_version truc tx.now }
{
    tx.version() == 1 || tx.version() == 2 || truc && is_truc(tx)
}

/// A12, if it fails, where version 3 is standard or isn't.
#[tactic(auto, unfolding(crate::specs::Rules::version_rules))]
pub fn check_version(truc: bool, tx: &Transaction) -> Option<Denial>
    ensures { result ≡ first_failing (version_rules truc tx.now) }
{
    if is_version(truc, tx) {
        None
    } else {
        Some(Denial::Version)
    }
}

/// The first rule that fails, of the rules of policy on a transaction alone that no operator sets: A13 to A15 (Bitcoin
/// Core 22.0's `IsStandardTx`, from the version up to the outputs).
#[tactic(auto, unfolding(crate::specs::Rules::form_rules))]
pub fn check_form(tx: &Transaction) -> Option<Denial>
    ensures { result ≡ first_failing (form_rules tx.now) }
{
    if tx.weight() > MAX_WEIGHT {
        return Some(Denial::TxSize);
    }
    check_inputs(tx.inputs())
}

/// The first rule that fails, of the rules of policy on a transaction alone by what an operator takes for standard: A16
/// to A19, and A51 (Bitcoin Core 22.0's `IsStandardTx`, on the outputs, and its least size).
#[tactic(auto, using(gate_bytes::proofs::OrderLemmas::first_failing_append), unfolding(crate::specs::Rules::output_rules))]
pub fn check_outputs(standards: &Standards, tx: &Transaction) -> Option<Denial>
    ensures { result ≡ first_failing (output_rules standards.now tx.now) }
{
    let carriers = match count_carriers(standards, tx.outputs()) {
        Ok(carriers) => carriers,
        Err(denial) => return Some(denial),
    };
    if standards.ephemeral_dust && dust_count(standards, tx.outputs()) > 1 {
        return Some(Denial::Dust);
    }
    if carriers as u64 > standards.data_outputs {
        return Some(Denial::MultiOpReturn);
    }
    if (tx.stripped_size() as u64) < standards.least_size {
        return Some(Denial::TxSizeSmall);
    }
    None
}
