//! The blocks that a line of the chain spells.
ghost use Rattle.std.specs.Prelude.{◌≡◌, IfOk, length};
ghost use Rattle.gate_events.specs.ChainLines.{block_of, blocks_of, has_gap, words_of};

use crate::hexadecimal::decode;
use gate_block::read_block;
use gate_bytes::{Kept, Memory};
use gate_chain::{Block, ChainFault};
use std::alloc::Global;

/// The block that a word of hex spells; a word that isn't hex spells none.
fn block_in(alloc: Global, word: &[u8]) -> Result<Option<Block>, Memory>
    ensures { IfOk result (λ block. block ≡ block_of word.now) }
{
    let Some(bytes) = decode(alloc, word)? else {
        return Ok(None);
    };
    match read_block(alloc, bytes.as_slice()) {
        Ok(block) => Ok(Some(block)),
        Err(ChainFault::Memory) => Err(Memory),
        Err(ChainFault::Denied(_)) => Ok(None),
    }
}

/// How many words a text has: one more than spaces.
fn count_words(text: &[u8]) -> usize
    ensures { result ≡ length (words_of text.now) }
{
    text.split(|byte| *byte == b' ').count()
}

/// Whether a word of a text is empty.
fn has_gap(text: &[u8]) -> bool
    ensures { result ≡ has_gap (words_of text.now) }
{
    text.split(|byte| *byte == b' ').any(|word| word.is_empty())
}

/// The blocks that the words of a text spell, or `None` if a word is empty.
pub(crate) fn blocks_in(alloc: Global, text: &str) -> Result<Option<Kept<Option<Block>>>, Memory>
    ensures { IfOk result (λ blocks. blocks ≡ blocks_of text.now) }
{
    let text = text.as_bytes();
    if has_gap(text) {
        return Ok(None);
    }
    let mut blocks = Vec::with_capacity(alloc, count_words(text))?;
    for word in text.split(|byte| *byte == b' ') {
        blocks.push(block_in(alloc, word)?)?;
    }
    Ok(Some(Kept::from_vec(blocks)))
}
