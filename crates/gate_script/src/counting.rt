ghost use Rattle.std.specs.Prelude.{◌≡◌, ◌≤◌, ◌*◌, ◌-◌, ◌^◌, length, min};
ghost use Rattle.gate_script.specs.Sigops.{sigops_of, sigops_of_opcode};

use crate::op::{Op, ops};
use crate::opcode::{
    OP_0, OP_1, OP_16, OP_CHECKMULTISIG, OP_CHECKMULTISIGVERIFY, OP_CHECKSIG, OP_CHECKSIGVERIFY,
    OP_RESERVED,
};

/// How many signature operations a check of several signatures counts if the number before it isn't
/// read (Bitcoin Core's `MAX_PUBKEYS_PER_MULTISIG`).
const MAX_KEYS: u64 = 20;

/// How many signature operations the script counts, up to its first truncated push. If `accurate`, a
/// check of several signatures directly after OP_1 to OP_16 counts that number, else 20 (Bitcoin
/// Core 22.0, `CScript::GetSigOpCount`). A script of less than 2^59 bytes counts less than 2^64; a
/// greater count is given as the greatest u64.
pub fn sigops(script: &[u8], accurate: bool) -> u64
    ensures exact { result ≡ min (sigops_of accurate script.now) (2 ^ 64 - 1) }
    ensures most { result ≤ 20 * length script.now }
{
    let mut count: u64 = 0;
    let mut last_opcode = OP_0;
    for op in ops(script) {
        match op {
            Op::Push { opcode, .. } => last_opcode = opcode,
            Op::Truncated { .. } => break,
            Op::Plain(opcode) => {
                count = count.saturating_add(sigops_of_opcode(accurate, last_opcode, opcode));
                last_opcode = opcode;
            }
        }
    }
    count
}

/// How many signature operations an opcode counts after the opcode `last_opcode`.
fn sigops_of_opcode(accurate: bool, last_opcode: u8, opcode: u8) -> u64
    ensures { result ≡ sigops_of_opcode accurate last_opcode opcode }
{
    match opcode {
        OP_CHECKSIG | OP_CHECKSIGVERIFY => 1,
        OP_CHECKMULTISIG | OP_CHECKMULTISIGVERIFY
            if accurate && OP_1 <= last_opcode && last_opcode <= OP_16 => {
            u64::from(last_opcode - OP_RESERVED)
        }
        OP_CHECKMULTISIG | OP_CHECKMULTISIGVERIFY => MAX_KEYS,
        _ => 0,
    }
}
