ghost use Rattle.std.specs.Prelude.{◌≡◌};
ghost use Rattle.std.specs.Option.{option_map};
ghost use Rattle.gate_inputs.specs.Reports.{is_standard_p2wsh_stack, is_standard_p2wsh, is_standard_script_path, allows_taproot, allows_program, allows_witness, are_at_most_80_bytes};

use gate_script::Template;
use gate_tx::{Witness, WitnessItems};

/// The longest witness script under a version 0 program, in bytes (Bitcoin Core's
/// `MAX_STANDARD_P2WSH_SCRIPT_SIZE`).
const MAX_SCRIPT_LEN: usize = 3600;

/// The most items before a witness script (`MAX_STANDARD_P2WSH_STACK_ITEMS`).
const MAX_ITEMS: usize = 100;

/// The longest item in bytes before a witness script (`MAX_STANDARD_P2WSH_STACK_ITEM_SIZE`), and
/// before a Taproot leaf script (`MAX_STANDARD_TAPSCRIPT_STACK_ITEM_SIZE`).
const MAX_ITEM_LEN: usize = 80;

/// What an annex begins with (BIP 341).
const ANNEX: u8 = 0x50;

/// The leaf version of BIP 342, in the bits that a control block keeps for it.
const LEAF_VERSION: u8 = 0xc0;

const LEAF_MASK: u8 = 0xfe;

/// Whether policy lets the witness pass, for a coin of this template whose spend meets this program.
pub(crate) fn allows_witness(
    form: Template,
    witness: &Witness,
    program: Option<(u8, &[u8])>,
) -> bool
    ensures { result ≡ allows_witness form witness.now (option_map (λ p. (p.0, p.1.now)) program.entry) }
{
    if witness.is_empty() {
        return true;
    }
    match program {
        Some((version, program)) => allows_program(form, witness, version, program.len()),
        None => false,
    }
}

fn allows_program(form: Template, witness: &Witness, version: u8, size: usize) -> bool
    ensures { result ≡ allows_program form witness.now version size }
{
    if version == 0 && size == 32 {
        is_standard_p2wsh(witness)
    } else if form == Template::Taproot {
        allows_taproot(witness)
    } else {
        true
    }
}

fn is_standard_p2wsh(witness: &Witness) -> bool
    ensures { result ≡ is_standard_p2wsh witness.now }
{
    match witness.split_last() {
        Some((script, items)) => is_standard_p2wsh_stack(script, items),
        None => true,
    }
}

/// Whether policy lets a witness script and the items before it pass.
fn is_standard_p2wsh_stack(script: &[u8], items: WitnessItems<'_>) -> bool
    ensures { result ≡ is_standard_p2wsh_stack script.now items.entry }
{
    script.len() <= MAX_SCRIPT_LEN && items.len() <= MAX_ITEMS && are_at_most_80_bytes(items)
}

fn allows_taproot(witness: &Witness) -> bool
    ensures { result ≡ allows_taproot witness.now }
{
    let Some((control, items)) = witness.split_last() else {
        return true;
    };
    let Some((_script, items)) = items.split_last() else {
        return true;
    };
    is_standard_script_path(control, items)
}

fn is_standard_script_path(control: &[u8], items: WitnessItems<'_>) -> bool
    ensures { result ≡ is_standard_script_path control.now items.entry }
{
    match control {
        [] => false,
        [first, ..] => *first != ANNEX
            && (*first & LEAF_MASK != LEAF_VERSION || are_at_most_80_bytes(items)),
    }
}

fn are_at_most_80_bytes(mut items: WitnessItems<'_>) -> bool
    ensures { result ≡ are_at_most_80_bytes items.entry }
{
    items.all(|item| item.len() <= MAX_ITEM_LEN)
}
