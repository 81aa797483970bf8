//! Which outputs are standard, and what is dust.
ghost use Rattle.std.specs.Prelude.{◌≡◌};
ghost use Rattle.std.specs.List.{count_by};
ghost use Rattle.gate_standard.specs.Outputs.{dust_threshold_of, is_dust, is_standard_template, is_null_data, is_below, size_with_spend};
ghost use Rattle.gate_standard.specs.Rules.{dust_count, has_ephemeral_dust};

use crate::amounts::Feerate;
use crate::standards::Standards;
use gate_bytes::compact_size;
use gate_script::{Template, template, witness_program};
use gate_tx::{Transaction, TxOut, is_unspendable};

/// The size in bytes of an output and of the input that spends it, which is smaller if the script is a witness program.
fn size_with_spend(output: &TxOut) -> usize
    ensures { result ≡ size_with_spend output.now }
{
    let script = output.script.as_slice();
    let size = 8 + compact_size(script.len() as u64) + script.len();
    let spend = if witness_program(script).is_some() {
        67
    } else {
        148
    };
    size + spend
}

/// The least value in satoshi with which an output is relayed, at this rate for 1,000 bytes; 0 if nothing can spend it.
#[tactic(auto, unfolding(crate::specs::Outputs::dust_threshold_of))]
pub fn dust_threshold(rate: Feerate, output: &TxOut) -> u128
    ensures { result ≡ dust_threshold_of rate output.now }
{
    if is_unspendable(output.script.as_slice()) {
        return 0;
    }
    rate.fee(size_with_spend(output) as u64)
}

/// Whether an operator takes a script of this template and this size in bytes for standard.
pub(crate) fn is_standard_template(standards: &Standards, template: &Template, size: usize) -> bool
    ensures { result ≡ is_standard_template standards.now template.now size }
{
    match template {
        Template::Nonstandard => false,
        Template::Multisig { keys, .. } => standards.bare_multisig && 1 <= *keys && *keys <= 3,
        Template::NullData => size as u64 <= standards.data_size,
        _ => true,
    }
}

pub(crate) fn is_null_data(template: &Template) -> bool
    ensures { result ≡ is_null_data template.now }
{
    matches!(template, Template::NullData)
}

/// Whether the output's value is below its dust threshold at this rate.
pub(crate) fn is_below_dust(rate: Feerate, output: &TxOut) -> bool
    ensures { result ≡ is_below output.now.value (dust_threshold_of rate output.now) }
{
    output.value < 0 || (output.value as u128) < dust_threshold(rate, output)
}

/// Whether the output is dust: its value is below its dust threshold at this rate, and it does not carry data.
#[tactic(auto, unfolding(crate::specs::Outputs::is_dust, crate::specs::Outputs::carries_data))]
pub fn is_dust(rate: Feerate, output: &TxOut) -> bool
    ensures { result ≡ is_dust rate output.now }
{
    !is_null_data(&template(output.script.as_slice())) && is_below_dust(rate, output)
}

/// How many outputs are dust, by what an operator takes for standard.
pub fn dust_count(standards: &Standards, outputs: &[TxOut]) -> usize
    ensures { result ≡ dust_count standards.now outputs.now }
{
    let mut count = 0;
    for output in outputs {
        if is_dust(standards.dust_rate, output) {
            count += 1;
        }
    }
    count
}

/// Whether an output is dust that a child may sweep.
pub fn has_ephemeral_dust(standards: &Standards, tx: &Transaction) -> bool
    ensures { result ≡ has_ephemeral_dust standards.now tx.now }
{
    standards.ephemeral_dust && dust_count(standards, tx.outputs()) > 0
}
