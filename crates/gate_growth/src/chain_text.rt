//! What is seen of a chain and of verdicts, as text.
use crate::colliding::Colliding;
use gate_bytes::Memory;
use gate_chain::{Block, Chain, OpeningCoin};
use gate_core::State;
use gate_message::{ChainEvent, Event};
use gate_submission::{Verdict, VerdictRow};
use gate_tx::{Coin, Identified, OutPoint, Txid};

/// The first height and the tip, how many blocks are connected, the time of the tip, and the median time past.
pub(crate) fn push_chain(text: &mut String, chain: &Chain<Colliding>) -> Result<(), Memory> {
    let tip = chain.tip();
    push_heights(text, chain.first(), tip, chain.connected())?;
    push_times(text, chain.time(tip), chain.mtp(tip))
}

fn push_heights(text: &mut String, first: u32, tip: u32, connected: usize) -> Result<(), Memory> {
    write!(text, "heights {first} {tip} {connected}\n")?;
    Ok(())
}

fn push_times(text: &mut String, time: Option<u32>, mtp: Option<u32>) -> Result<(), Memory> {
    write!(text, "times {time:?} {mtp:?}\n")?;
    Ok(())
}

/// The coin at an outpoint.
pub(crate) fn push_coin(text: &mut String, coin: Option<&Coin>) -> Result<(), Memory> {
    let Some(coin) = coin else {
        text.push_str("no coin\n")?;
        return Ok(());
    };
    let (value, height, coinbase) = (coin.value, coin.height, coin.coinbase);
    let script = coin.script.as_slice();
    write!(text, "coin {value} {height} {coinbase} {script:?}\n")?;
    Ok(())
}

/// Whether the opening has a coin of a transaction.
fn push_opened(text: &mut String, is_opened: bool) -> Result<(), Memory> {
    write!(text, "{is_opened}\n")?;
    Ok(())
}

/// What the chain has of a transaction's outputs, this many.
fn push_outputs(
    text: &mut String,
    chain: &Chain<Colliding>,
    txid: Txid,
    count: u32,
) -> Result<(), Memory> {
    push_opened(text, chain.opened_with(&txid))?;
    for index in 0..count {
        push_coin(text, chain.coin(&OutPoint { txid, index }))?;
    }
    Ok(())
}

fn push_made(
    text: &mut String,
    chain: &Chain<Colliding>,
    transaction: &Identified,
) -> Result<(), Memory> {
    match u32::try_from(transaction.transaction().outputs().len()) {
        Ok(count) => push_outputs(text, chain, transaction.txid(), count),
        Err(_) => Ok(()),
    }
}

/// What the chain has of the outputs of a block's transactions.
fn push_block(text: &mut String, chain: &Chain<Colliding>, block: &Block) -> Result<(), Memory> {
    for transaction in block.transactions() {
        push_made(text, chain, transaction.get())?;
    }
    Ok(())
}

fn push_blocks(
    text: &mut String,
    chain: &Chain<Colliding>,
    blocks: &[Option<Block>],
) -> Result<(), Memory> {
    for block in blocks {
        if let Some(block) = block {
            push_block(text, chain, block)?;
        }
    }
    Ok(())
}

fn push_learnt_coin(
    text: &mut String,
    chain: &Chain<Colliding>,
    coin: &OpeningCoin,
) -> Result<(), Memory> {
    push_opened(text, chain.opened_with(&coin.outpoint.txid))?;
    push_coin(text, chain.coin(&coin.outpoint))
}

fn push_verdict(text: &mut String, verdict: Option<Verdict>) -> Result<(), Memory> {
    let word = match verdict {
        Some(Verdict::Good) => "good\n",
        Some(Verdict::Soft) => "soft\n",
        Some(Verdict::Hard) => "hard\n",
        None => "no verdict\n",
    };
    text.push_str(word)?;
    Ok(())
}

fn push_learnt_verdict(
    text: &mut String,
    state: &State<Colliding>,
    row: &VerdictRow,
) -> Result<(), Memory> {
    push_verdict(text, state.verdicts().on(&row.wtxid, row.input))
}

/// What a state has of the coins, the verdict and the blocks that an event of the chain names.
pub(crate) fn push_named(
    text: &mut String,
    state: &State<Colliding>,
    event: &Event,
) -> Result<(), Memory> {
    match event {
        Event::Chain(ChainEvent::LearnCoin(coin)) => push_learnt_coin(text, state.chain(), coin),
        Event::Chain(ChainEvent::LearnVerdict(row)) => push_learnt_verdict(text, state, row),
        Event::Chain(ChainEvent::MoveTip { blocks, .. }) => {
            push_blocks(text, state.chain(), blocks.get().as_slice())
        }
        _ => Ok(()),
    }
}
