ghost use Rattle.std.specs.Prelude.{◌≡◌};
ghost use Rattle.gate_script.specs.Instructions.{instruction_of, instructions};
ghost use Rattle.gate_script.specs.Templates.{small_number, pushes_key};

use crate::opcode::{OP_1, OP_16, OP_RESERVED};
use crate::public_key::is_public_key;
use crate::reading::Ops;

/// One instruction of a script.
#[derive(Clone, Copy, PartialEq, Eq)]
pub enum Op<'a> {
    /// A push of these bytes, by one of the opcodes 0x01 to 0x4e.
    Push { opcode: u8, bytes: &'a [u8] },
    /// A push that goes past the end of the script: always the last instruction.
    Truncated { opcode: u8 },
    /// An opcode without bytes of its own.
    Plain(u8),
}

impl<'a> Op<'a> {
    /// The number that OP_1 to OP_16 stand for.
    pub fn small_number(&self) -> Option<u8>
        ensures { result ≡ small_number (instruction_of self.now) }
    {
        match self {
            Op::Plain(opcode) if OP_1 <= *opcode && *opcode <= OP_16 => Some(*opcode - OP_RESERVED),
            _ => None,
        }
    }

    /// Whether it pushes a public key, by its size and first byte.
    pub fn pushes_key(&self) -> bool
        ensures { result ≡ pushes_key (instruction_of self.now) }
    {
        match self {
            Op::Push { bytes, .. } => is_public_key(bytes),
            _ => false,
        }
    }
}

/// The instructions of a script.
pub fn ops(script: &[u8]) -> Ops<'_>
    ensures { result ≡ instructions script.now }
{
    Ops::new(script)
}
