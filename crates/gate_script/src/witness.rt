ghost use Rattle.std.specs.Prelude.{◌≡◌};
ghost use Rattle.std.specs.Option.{option_map};
ghost use Rattle.gate_script.specs.Witness.{is_anchor, witness_program_of};

use crate::opcode::{OP_0, OP_1, OP_16, OP_RESERVED};

/// The version, 0 to 16, and the program, 2 to 40 bytes, if the script is a witness program (BIP 141).
pub fn witness_program(script: &[u8]) -> Option<(u8, &[u8])>
    ensures { option_map (λ p. (p.0, p.1.now)) result ≡ witness_program_of script.now }
{
    let [first, size, program @ ..] = script else {
        return None;
    };
    let version = match *first {
        OP_0 => 0,
        OP_1..=OP_16 => *first - OP_RESERVED,
        _ => return None,
    };
    if program.len() < 2 || 40 < program.len() || usize::from(*size) != program.len() {
        return None;
    }
    Some((version, program))
}

/// Whether the script is pay to anchor (BIP 433): the witness program of version 1 with the bytes 4e73.
pub fn is_anchor(script: &[u8]) -> bool
    ensures { result ≡ is_anchor script.now }
{
    matches!(script, [OP_1, 2, 0x4e, 0x73])
}
