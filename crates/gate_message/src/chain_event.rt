//! What the chain's caller asks.
use gate_bytes::{Copied, Counted, Exact, Kept, Memory};
use gate_chain::{Block, OpeningCoin};
use gate_submission::{VerdictRow, recall_spelled};
use std::alloc::Global;

/// An event of the chain's caller.
#[derive(Drop, PartialEq, Eq)]
pub enum ChainEvent {
    /// The tip moves: this many blocks are disconnected, and these connected in their place, at this second. A block that
    /// could not be read is `None`.
    MoveTip {
        disconnect: u64,
        now: u64,
        blocks: Counted<Kept<Option<Block>>>,
    },
    /// A coin of the chain is learnt: it is one of the opening's coins from now on.
    LearnCoin(OpeningCoin),
    /// The verdict on an input is learnt.
    LearnVerdict(VerdictRow),
    /// This many connected blocks, the lowest, become part of the opening, and the coins and verdicts that nothing needs
    /// any more are forgotten.
    Forget {
        blocks: u64,
    },
}

impl ChainEvent {
    ghost use Rattle.std.specs.Prelude.{Contains};
    ghost use Rattle.gate_tx.specs.Text.{IsTx};
    ghost use Rattle.gate_tx.specs.Tx.{Tx};
    ghost use Rattle.gate_message.specs.Spelled.{connected_by};

    /// Recalls for a proof that the transactions of new blocks have a text: it does nothing.
    pub fn recall_spelled(&self)
        ensures { (tx : Tx) → Contains (connected_by self.now) tx → IsTx tx }
    {
        match self {
            ChainEvent::MoveTip { blocks, .. } => recall_spelled(blocks.get().as_slice()),
            _ => (),
        }
    }
}

impl Copied for ChainEvent {
    fn copy(&self, alloc: Global) -> Result<ChainEvent, Memory> {
        match self {
            ChainEvent::MoveTip {
                disconnect,
                now,
                blocks,
            } => Ok(ChainEvent::MoveTip {
                disconnect: *disconnect,
                now: *now,
                blocks: blocks.copy(alloc)?,
            }),
            ChainEvent::LearnCoin(coin) => Ok(ChainEvent::LearnCoin(coin.copy(alloc)?)),
            ChainEvent::LearnVerdict(row) => Ok(ChainEvent::LearnVerdict(*row)),
            ChainEvent::Forget { blocks } => Ok(ChainEvent::Forget { blocks: *blocks }),
        }
    }
}

impl Exact for ChainEvent {
    ghost use Rattle.std.proofs.lemmas.Bool.Decides.{Decides-eqb};
    ghost use Rattle.std.proofs.lemmas.Slice.Eq.{bytes_eq-Decides};
    ghost use Rattle.gate_bytes.specs.Equality.{struct_decides, enum_decides, ◌or◌, ◌&◌, last_decides, bare_decides};
    ghost use Rattle.gate_tx.specs.Equality.{coin_decides, out_point_decides};
    ghost use Rattle.gate_chain.specs.contracts.block.BlockExact.TheImpl.Laws.{exact-law as block_decides};
    ghost use Rattle.gate_chain.specs.contracts.opening.OpeningCoin.{the_type as opening_coins};
    ghost use Rattle.gate_rpc.specs.Equality.{list_decides};
    ghost use Rattle.gate_submission.specs.Equality.{option_decides};
    ghost use Rattle.gate_submission.specs.contracts.verdict.Verdict.{enum as verdicts};
    ghost use Rattle.gate_submission.specs.contracts.verdict.VerdictRow.{the_type as verdict_rows};
    ghost use Rattle.gate_message.specs.contracts.chain_event.ChainEvent.{enum};

    ghost exact = { enum_decides enum _ (Decides-eqb & Decides-eqb & last_decides (list_decides (option_decides block_decides))
        or last_decides (struct_decides opening_coins (out_point_decides & last_decides coin_decides))
        or last_decides (struct_decides verdict_rows (bytes_eq-Decides & Decides-eqb & last_decides (bare_decides verdicts tt)))
        or last_decides Decides-eqb
        or tt) };
}
