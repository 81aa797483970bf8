//! The bytes of a block.
ghost use Rattle.std.specs.Prelude.{◌≡◌, IfOk};
ghost use Rattle.gate_block.specs.Text.{block_text};

use gate_bytes::{Memory, put_compact};
use gate_chain::Block;
use std::alloc::Global;

/// The one text of the block: its header, the count of its transactions (CompactSize), and each of them (BIP 144).
pub fn write_block(alloc: Global, block: &Block) -> Result<Vec<u8>, Memory>
    ensures { IfOk result (λ bytes. bytes.items ≡ block_text block.now) }
{
    let mut bytes = Vec::from_slice(alloc, block.header().as_bytes())?;
    put_compact(&mut bytes, block.transactions().len() as u64)?;
    for transaction in block.transactions() {
        let text = transaction.get().transaction().write_tx(alloc)?;
        bytes.extend_from_slice(text.as_slice())?;
    }
    Ok(bytes)
}
