ghost use Rattle.std.specs.Prelude.{◌≡◌, ◌∷◌, ◌+◌, ◌^◌, ◌<◌, length};
ghost use Rattle.gate_script.specs.Instructions.{instruction_of, instructions};
ghost use Rattle.gate_script.specs.Templates.{template_of, frames, witness_template, is_null_data, pays_key, ends_multisig, multisig_of};

use crate::op::{Op, ops};
use crate::opcode::{
    OP_CHECKMULTISIG, OP_CHECKSIG, OP_DUP, OP_EQUAL, OP_EQUALVERIFY, OP_HASH160, OP_RETURN,
};
use crate::public_key::is_public_key;
use crate::pushes::is_push_only;
use crate::reading::Ops;
use crate::templates::Template;
use crate::witness::witness_program;

/// The template of an output's script: the first that fits, in the order of `Template`.
pub fn template(script: &[u8]) -> Template
    ensures { result ≡ template_of script.now }
{
    if frames(script, &[OP_HASH160, 20], 20, &[OP_EQUAL]) {
        return Template::ScriptHash;
    }
    if let Some((version, program)) = witness_program(script) {
        return witness_template(version, program.len());
    }
    if is_null_data(script) {
        return Template::NullData;
    }
    if pays_key(script) {
        return Template::Key;
    }
    if frames(
        script,
        &[OP_DUP, OP_HASH160, 20],
        20,
        &[OP_EQUALVERIFY, OP_CHECKSIG],
    ) {
        return Template::KeyHash;
    }
    match multisig(script) {
        Some((required, keys)) => Template::Multisig { required, keys },
        None => Template::Nonstandard,
    }
}

/// Whether the script is `front`, `count` bytes and `back`.
fn frames(script: &[u8], front: &[u8], count: usize, back: &[u8]) -> bool
    requires { length front.now + count + length back.now < 2 ^ 64 }
    ensures { result ≡ frames front.now count back.now script.now }
{
    script.len() == front.len() + count + back.len()
        && script.starts_with(front)
        && script.ends_with(back)
}

fn witness_template(version: u8, size: usize) -> Template
    ensures { result ≡ witness_template version size }
{
    match (version, size) {
        (0, 20) => Template::WitnessV0Key,
        (0, 32) => Template::WitnessV0Script,
        (0, _) => Template::Nonstandard,
        (1, 32) => Template::Taproot,
        _ => Template::WitnessUnknown,
    }
}

fn is_null_data(script: &[u8]) -> bool
    ensures { result ≡ is_null_data script.now }
{
    match script {
        [OP_RETURN, rest @ ..] => is_push_only(rest),
        _ => false,
    }
}

fn pays_key(script: &[u8]) -> bool
    ensures { result ≡ pays_key script.now }
{
    match script {
        [size @ (33 | 65), key @ .., OP_CHECKSIG] => key.len() == usize::from(*size)
            && is_public_key(key),
        _ => false,
    }
}

/// How many signatures are required of how many keys: OP_m, the keys, OP_n for their number,
/// OP_CHECKMULTISIG and the end; at most 16 keys.
fn multisig(script: &[u8]) -> Option<(u8, u8)>
    ensures { result ≡ multisig_of (instructions script.now) }
{
    let mut left = ops(script);
    let required = left.next()?.small_number()?;
    let mut keys = 0;
    while let Some(op) = left.next() {
        if !op.pushes_key() {
            return (ends_multisig(keys, &op, left) && required <= keys).then_some((required, keys));
        }
        if keys == 16 {
            return None;
        }
        keys += 1;
    }
    None
}

/// Whether the instructions are OP_n for that many keys, OP_CHECKMULTISIG and the end.
fn ends_multisig(keys: u8, count: &Op, mut left: Ops<'_>) -> bool
    ensures { result ≡ ends_multisig keys (instruction_of count.now ∷ left.entry) }
{
    count.small_number() == Some(keys)
        && left.next() == Some(Op::Plain(OP_CHECKMULTISIG))
        && left.next().is_none()
}
