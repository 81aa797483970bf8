//! The output that is not standard, the one whose data don't fit, and the one that is dust.
ghost use Rattle.std.specs.Prelude.{◌≡◌};
ghost use Rattle.std.specs.List.{count_by};
ghost use Rattle.gate_standard.specs.Outputs.{carries_data};
ghost use Rattle.gate_figures.specs.Figures.{data_past, dust, dust_paying, nonstandard, script_figures};

use crate::figures::Figures;
use gate_script::{Template, template};
use gate_standard::{Feerate, Standards, dust_threshold, is_dust};
use gate_tx::TxOut;

#[tactic(auto, unfolding(gate_standard::specs::Outputs::carries_data))]
fn carries_data(output: &TxOut) -> bool
    ensures { result ≡ carries_data output.now }
{
    matches!(template(output.script.as_slice()), Template::NullData)
}

/// The first output that is dust at this rate for 1,000 bytes.
pub(crate) fn dust(rate: Feerate, outputs: &[TxOut]) -> Option<Figures>
    ensures { result ≡ dust rate 0 outputs.now }
{
    for output in 0..outputs.len() {
        let found = &outputs[output];
        if is_dust(rate, found) {
            return Some(Figures::Dust {
                output,
                value: found.value,
                needs: dust_threshold(rate, found),
            });
        }
    }
    None
}

/// The first output that is dust at this rate for 1,000 bytes, with the fee that is paid beside it.
pub(crate) fn dust_paying(rate: Feerate, fee: u128, outputs: &[TxOut]) -> Option<Figures>
    ensures { result ≡ dust_paying rate fee 0 outputs.now }
{
    for output in 0..outputs.len() {
        if is_dust(rate, &outputs[output]) {
            return Some(Figures::DustPays { output, fee });
        }
    }
    None
}

/// The figures of an output's script of this template and this size in bytes, if it is not standard.
fn script_figures(
    standards: &Standards,
    output: usize,
    template: Template,
    size: usize,
) -> Option<Figures>
    ensures { result ≡ script_figures standards.now output template size }
{
    let most = standards.data_size;
    match template {
        Template::Nonstandard => Some(Figures::Script { output }),
        Template::Multisig { .. } if !standards.bare_multisig => {
            Some(Figures::BareMultisig { output })
        }
        Template::Multisig { keys, .. } if keys == 0 || keys > 3 => {
            Some(Figures::Script { output })
        }
        Template::NullData if size as u64 > most => Some(Figures::DataScript {
            output,
            size,
            most,
        }),
        _ => None,
    }
}

/// The first output whose script is not standard.
pub(crate) fn nonstandard(standards: &Standards, outputs: &[TxOut]) -> Option<Figures>
    ensures { result ≡ nonstandard standards.now 0 outputs.now }
{
    for output in 0..outputs.len() {
        let script = outputs[output].script.as_slice();
        if let Some(found) = script_figures(standards, output, template(script), script.len()) {
            return Some(found);
        }
    }
    None
}

/// How many outputs carry data.
pub(crate) fn carriers(outputs: &[TxOut]) -> usize
    ensures { result ≡ count_by carries_data outputs.now }
{
    let mut count = 0;
    for output in outputs {
        match carries_data(output) {
            true => count += 1,
            false => {}
        }
    }
    count
}

/// The first output whose script carries more data than the outputs before it left of so many bytes.
pub(crate) fn data_past(total: u64, outputs: &[TxOut]) -> Option<Figures>
    ensures { result ≡ data_past total 0 outputs.now }
{
    let mut left = total;
    for output in 0..outputs.len() {
        if carries_data(&outputs[output]) {
            let size = outputs[output].script.len() as u64;
            if size > left {
                return Some(Figures::DataLeft { output, size, left });
            }
            left -= size;
        }
    }
    None
}
