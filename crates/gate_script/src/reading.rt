ghost use Rattle.std.specs.Prelude.{◌≡◌, ◌<◌, length, IsTrue, IfOk, OnErr};
ghost use Rattle.std.specs.Iterator.{YieldsFirstBy, item_count};
ghost use Rattle.gate_script.specs.Instructions.{instruction_of, instructions, is_push, operand_size, PushesWhole};

use crate::op::Op;
use crate::opcode::{OP_PUSHDATA1, OP_PUSHDATA2, OP_PUSHDATA4};
use gate_bytes::{ByteFault, Cursor};
use std::marker::Model;

/// The instructions of a script, from the left: contracts see the list of those that are left.
#[derive(Drop)]
pub struct Ops<'a> {
    ahead: Cursor<'a>,
}

impl<'a> Model for Ops<'a> {
    ghost use Rattle.std.specs.Prelude.{List};
    ghost use Rattle.gate_script.specs.Instructions.{Instruction, instructions};

    ghost Value = { List Instruction };

    ghost view = { λ left. instructions left.ahead };
}

impl<'a> Ops<'a> {
    ghost use Rattle.gate_script.specs.Instructions.{instructions};

    pub fn new(script: &'a [u8]) -> Ops<'a>
        ensures { result ≡ instructions script.now }
    {
        Ops {
            ahead: Cursor::new(script),
        }
    }
}

impl<'a> Iterator for Ops<'a> {
    type Item = Op<'a>;

    ghost next_gives = { YieldsFirstBy instruction_of (λ left. left) };

    ghost remaining = { item_count (λ left. left) };

    fn next(&mut self) -> Option<Op<'a>> {
        next_op(&mut self.ahead)
    }
}

/// Takes the first instruction off the bytes ahead.
fn next_op<'a>(ahead: &mut Cursor<'a>) -> Option<Op<'a>>
    ensures { YieldsFirstBy instruction_of instructions ahead.old result ahead.new }
{
    let Ok(opcode) = ahead.u8() else {
        return None;
    };
    if opcode == 0 || OP_PUSHDATA4 < opcode {
        return Some(Op::Plain(opcode));
    }
    match pushed(opcode, ahead) {
        Ok(bytes) => Some(Op::Push { opcode, bytes }),
        Err(_) => {
            *ahead = Cursor::new(&[]);
            Some(Op::Truncated { opcode })
        }
    }
}

/// The bytes that a push opcode pushes, read from the bytes after it; `Short` if they go past the end.
fn pushed<'a>(opcode: u8, ahead: &mut Cursor<'a>) -> Result<&'a [u8], ByteFault>
    requires { IsTrue (is_push opcode) }
    ensures whole { IfOk result (λ bytes. PushesWhole opcode ahead.old bytes.now ahead.new) }
    ensures short { OnErr result (length ahead.old < operand_size opcode ahead.old) }
{
    let count = match opcode {
        OP_PUSHDATA1 => u32::from(ahead.u8()?),
        OP_PUSHDATA2 => u32::from(ahead.u16()?),
        OP_PUSHDATA4 => ahead.u32()?,
        _ => u32::from(opcode),
    };
    ahead.take(count as usize)
}
