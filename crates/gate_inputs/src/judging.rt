ghost use Rattle.std.specs.Prelude.{◌≡◌, ◌-◌, ◌^◌, [], false, IfOk, None, Some, min};
ghost use Rattle.std.specs.Option.{option_map};
ghost use Rattle.gate_inputs.specs.Reports.{is_pay_to_script_hash, is_standard_by, redeem_of, script_cost, program_cost};
ghost use Rattle.gate_inputs.specs.Answers.{answers_of};
ghost use Rattle.gate_inputs.specs.Internal.{answers_by, cost_with, legacy_with};
ghost use Rattle.gate_script.specs.declared.templates.Template.TheVariants.{ScriptHash};

use crate::answer::Answers;
use crate::witness::allows_witness;
use gate_bytes::{Kept, Memory};
use gate_script::{Template, is_anchor, push_stack, sigops, template, witness_program};
use gate_tx::{TxIn, Witness};
use std::alloc::Global;

/// The most signature operations of a redeem script (Bitcoin Core's `MAX_P2SH_SIGOPS`).
const MAX_REDEEM_SIGOPS: u64 = 15;

/// What each signature operation outside a witness costs (BIP 141; `WITNESS_SCALE_FACTOR`).
const WITNESS_SCALE: u64 = 4;

/// The answers for an input and the script of the coin that it spends. The pushes of the input's
/// script are read only if the coin is locked by a script hash, and once for all answers.
pub fn answers(alloc: Global, input: &TxIn, script: &[u8]) -> Result<Answers, Memory>
    ensures { IfOk result (λ a. a ≡ answers_of input.now script.now) }
{
    let form = template(script);
    let redeem = match form {
        Template::ScriptHash => redeem_script(alloc, input.script.as_slice())?,
        _ => return Ok(direct(input, form, script)),
    };
    match redeem {
        Some(redeem) => Ok(under_script_hash(input, redeem.as_slice())),
        None => Ok(without_redeem_script(input)),
    }
}

/// The last item that the script pushes.
fn redeem_script(alloc: Global, script: &[u8]) -> Result<Option<Kept<u8>>, Memory>
    ensures { IfOk result (λ redeem. redeem ≡ redeem_of script.now) }
{
    match push_stack(alloc, script)? {
        Some(stack) => {
            let mut items = stack.into_vec();
            Ok(items.pop())
        }
        None => Ok(None),
    }
}

/// The answers for a coin of a template other than a script hash.
fn direct(input: &TxIn, form: Template, script: &[u8]) -> Answers
    requires { is_pay_to_script_hash form ≡ false }
    ensures { result ≡ answers_by form input.now None script.now }
{
    let program = witness_program(script);
    let bare = input.witness.is_empty();
    let operations = sigops(script, true);
    Answers {
        standard: is_relayed(form),
        witness_standard: allows_witness(form, &input.witness, program),
        sigop_cost: cost(input, 0, program),
        anchor: is_anchor(script),
        bare,
        legacy_sigops: legacy_sigops(input, operations),
    }
}

/// The answers under a script hash, if the input's script pushes this redeem script.
fn under_script_hash(input: &TxIn, redeem: &[u8]) -> Answers
    ensures { result ≡ answers_by ScriptHash input.now (Some redeem.now) [] }
{
    let program = witness_program(redeem);
    let bare = input.witness.is_empty();
    let operations = sigops(redeem, true);
    Answers {
        standard: operations <= MAX_REDEEM_SIGOPS,
        witness_standard: allows_witness(Template::ScriptHash, &input.witness, program),
        sigop_cost: cost(input, operations, program),
        anchor: false,
        bare,
        legacy_sigops: legacy_sigops(input, operations),
    }
}

/// The answers under a script hash, if the input's script pushes no redeem script.
fn without_redeem_script(input: &TxIn) -> Answers
    ensures { result ≡ answers_by ScriptHash input.now None [] }
{
    let bare = input.witness.is_empty();
    Answers {
        standard: false,
        witness_standard: bare,
        sigop_cost: cost(input, 0, None),
        anchor: false,
        bare,
        legacy_sigops: legacy_sigops(input, 0),
    }
}

/// Whether policy relays spends of that template, which for a script hash the redeem script decides.
fn is_relayed(form: Template) -> bool
    ensures { result ≡ is_standard_by form None }
{
    !matches!(
        form,
        Template::Nonstandard | Template::WitnessUnknown | Template::ScriptHash
    )
}

/// The cost of the input's script, of `redeem` operations in a redeem script, and of the witness program.
fn cost(input: &TxIn, redeem: u64, program: Option<(u8, &[u8])>) -> u64
    ensures { result ≡ cost_with input.now redeem (option_map (λ p. (p.0, p.1.now)) program.entry) }
{
    let legacy = sigops(input.script.as_slice(), false).saturating_add(redeem);
    let scaled = legacy.saturating_mul(WITNESS_SCALE);
    match program {
        Some((version, program)) => {
            scaled.saturating_add(program_cost(&input.witness, version, program.len()))
        }
        None => scaled,
    }
}

/// The legacy operations of an input, with this many in the script that locks the coin.
fn legacy_sigops(input: &TxIn, locking: u64) -> u64
    ensures { result ≡ legacy_with input.now.script locking }
{
    sigops(input.script.as_slice(), true).saturating_add(locking)
}

fn program_cost(witness: &Witness, version: u8, size: usize) -> u64
    ensures { result ≡ min (program_cost witness.now version size) (2 ^ 64 - 1) }
{
    match (version, size) {
        (0, 20) => 1,
        (0, 32) => script_cost(witness),
        _ => 0,
    }
}

fn script_cost(witness: &Witness) -> u64
    ensures { result ≡ min (script_cost witness.now) (2 ^ 64 - 1) }
{
    match witness.last() {
        Some(script) => sigops(script, true),
        None => 0,
    }
}
