//! The texts of the chain's events.
ghost use Rattle.std.specs.Prelude.{◌≡◌, IfOk, string_bytes};
ghost use Rattle.gate_events.specs.EventTexts.{block_word, chain_event_text, learn_coin_text, learn_verdict_text, move_tip_text};

use gate_block::write_block;
use gate_bytes::Memory;
use gate_chain::{Block, OpeningCoin};
use gate_message::ChainEvent;
use gate_submission::VerdictRow;
use gate_words::{coin_text, row_text};
use std::alloc::Global;

fn block_word(alloc: Global, block: &Option<Block>) -> Result<String, Memory>
    ensures { IfOk result (λ word. string_bytes word ≡ block_word block.now) }
{
    match block {
        Some(block) => {
            let bytes = write_block(alloc, block)?;
            Ok(hex::encode(alloc, bytes.as_slice())?)
        }
        None => Ok(String::from_str(alloc, "-")?),
    }
}

fn move_tip_text(
    alloc: Global,
    disconnect: u64,
    now: u64,
    blocks: &[Option<Block>],
) -> Result<String, Memory>
    ensures { IfOk result (λ text. string_bytes text ≡ move_tip_text disconnect now blocks.now) }
{
    let mut text = format!(in alloc; "chain {disconnect} {now}")?;
    for block in blocks {
        let word = block_word(alloc, block)?;
        text.push(' ')?;
        text.push_str(word.as_str())?;
    }
    Ok(text)
}

fn learn_coin_text(alloc: Global, coin: &OpeningCoin) -> Result<String, Memory>
    ensures { IfOk result (λ text. string_bytes text ≡ learn_coin_text coin.now) }
{
    let words = coin_text(alloc, coin)?;
    Ok(format!(in alloc; "chain coin {words}")?)
}

fn learn_verdict_text(alloc: Global, row: &VerdictRow) -> Result<String, Memory>
    ensures { IfOk result (λ text. string_bytes text ≡ learn_verdict_text row.now) }
{
    let words = row_text(alloc, row)?;
    Ok(format!(in alloc; "chain verdict {words}")?)
}

/// The line that spells an event of the chain's caller, without its newline.
pub(crate) fn chain_event_text(alloc: Global, event: &ChainEvent) -> Result<String, Memory>
    ensures { IfOk result (λ text. string_bytes text ≡ chain_event_text event.now) }
{
    match event {
        ChainEvent::MoveTip {
            disconnect,
            now,
            blocks,
        } => move_tip_text(alloc, *disconnect, *now, blocks.get().as_slice()),
        ChainEvent::LearnCoin(coin) => learn_coin_text(alloc, coin),
        ChainEvent::LearnVerdict(row) => learn_verdict_text(alloc, row),
        ChainEvent::Forget { blocks } => Ok(format!(in alloc; "chain forget {blocks}")?),
    }
}
