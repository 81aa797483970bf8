ghost use Rattle.std.specs.Prelude.{◌≡◌, IfOk};
ghost use Rattle.std.specs.Option.{option_map};
ghost use Rattle.gate_script.specs.Instructions.{instruction_of};
ghost use Rattle.gate_script.specs.Pushes.{is_push_only, pushes, item_of, push_stack_of};

use crate::op::{Op, ops};
use crate::opcode::{OP_0, OP_1, OP_1NEGATE, OP_16, OP_RESERVED};
use gate_bytes::{Kept, Memory};
use std::alloc::Global;

/// The longest item that a push leaves, in bytes (Bitcoin Core's `MAX_SCRIPT_ELEMENT_SIZE`).
const MAX_ITEM_LEN: usize = 520;

/// The most items on the stack (Bitcoin Core's `MAX_STACK_SIZE`).
const MAX_ITEMS: usize = 1000;

/// Whether the script only pushes: no opcode above OP_16, and no truncated push.
pub fn is_push_only(script: &[u8]) -> bool
    ensures { result ≡ is_push_only script.now }
{
    ops(script).all(|op| pushes(&op))
}

fn pushes(op: &Op) -> bool
    ensures { result ≡ pushes (instruction_of op.now) }
{
    match op {
        Op::Push { .. } => true,
        Op::Truncated { .. } => false,
        Op::Plain(opcode) => *opcode <= OP_16,
    }
}

/// The stack that the script's pushes leave, the last item on top. None if an instruction is no push,
/// a push is truncated, an item has over 520 bytes or there are over 1,000 items.
pub fn push_stack(alloc: Global, script: &[u8]) -> Result<Option<Kept<Kept<u8>>>, Memory>
    ensures { IfOk result (λ stack. stack ≡ push_stack_of script.now) }
{
    let mut items = Vec::new(alloc);
    for op in ops(script) {
        let Some(item) = item_of(alloc, &op)? else {
            return Ok(None);
        };
        if items.len() == MAX_ITEMS {
            return Ok(None);
        }
        items.push(item)?;
    }
    Ok(Some(Kept::from_vec(items)))
}

/// The item that an instruction leaves on the stack.
fn item_of(alloc: Global, op: &Op) -> Result<Option<Kept<u8>>, Memory>
    ensures { IfOk result (λ item. item ≡ item_of (instruction_of op.now)) }
{
    let item = match op {
        Op::Push { bytes, .. } if bytes.len() <= MAX_ITEM_LEN => bytes.to_vec(alloc)?,
        Op::Plain(OP_0) => Vec::new(alloc),
        Op::Plain(OP_1NEGATE) => vec![in alloc; 0x81]?,
        Op::Plain(opcode) if OP_1 <= *opcode && *opcode <= OP_16 => vec![in alloc;
            *opcode - OP_RESERVED,
        ]?,
        _ => return Ok(None),
    };
    Ok(Some(Kept::from_vec(item)))
}
