//! Copies of a reply, one for each keeper.
ghost use Rattle.std.specs.Prelude.{◌≡◌, IfOk};
ghost use Rattle.gate_message.specs.Replies.{chain_reply, settled, without};
ghost use Rattle.gate_message.specs.Recording.{AreCopies};

use crate::outcome::ChainOutcome;
use crate::reply::Reply;
use gate_bytes::{Copied, Memory};
use gate_standard::Denial;
use gate_tx::Txid;
use std::alloc::Global;

/// The reply to one event, and two copies of it.
#[derive(Drop)]
pub struct Replies {
    /// For the caller.
    pub reply: Reply,
    /// For the caller's receipt.
    pub receipt: Reply,
    /// For the journal.
    pub entry: Reply,
}

fn copied_twice(alloc: Global, reply: &Reply) -> Result<(Reply, Reply), Memory>
    ensures { IfOk result (λ copies. (copies.0 ≡ reply.now) × (copies.1 ≡ reply.now)) }
{
    let first = reply.copy(alloc)?;
    match reply.copy(alloc) {
        Ok(second) => Ok((first, second)),
        Err(fault) => {
            drop(first);
            Err(fault)
        }
    }
}

impl Replies {
    /// A reply with its copies.
    pub fn of(alloc: Global, reply: Reply) -> Result<Replies, Memory>
        ensures reply { IfOk result (λ replies. replies.reply ≡ reply) }
        ensures copies { IfOk result AreCopies }
    {
        match copied_twice(alloc, &reply) {
            Ok((receipt, entry)) => Ok(Replies {
                reply,
                receipt,
                entry,
            }),
            Err(fault) => {
                drop(reply);
                Err(fault)
            }
        }
    }

    /// The reply to an event of the chain's caller with its copies, which take no memory.
    pub fn of_chain(outcome: ChainOutcome) -> Replies
        ensures reply { result.reply ≡ chain_reply outcome }
        ensures copies { AreCopies result }
    {
        Replies {
            reply: Reply::of_chain(outcome),
            receipt: Reply::of_chain(outcome),
            entry: Reply::of_chain(outcome),
        }
    }

    /// These replies to a package, once these entries have left the pool again.
    pub fn without(self, gone: &[Txid]) -> Replies
        ensures reply { result.reply ≡ without gone.now self.reply }
        ensures copies { AreCopies self → AreCopies result }
    {
        let Replies {
            reply,
            receipt,
            entry,
        } = self;
        Replies {
            reply: reply.without(gone),
            receipt: receipt.without(gone),
            entry: entry.without(gone),
        }
    }

    /// These replies, or in the place of each the denial of the transaction that it says was admitted.
    pub fn settled(self, denial: Option<Denial>) -> Replies
        ensures reply { result.reply ≡ settled self.reply denial }
        ensures copies { AreCopies self → AreCopies result }
    {
        let Replies {
            reply,
            receipt,
            entry,
        } = self;
        Replies {
            reply: reply.settled(denial),
            receipt: receipt.settled(denial),
            entry: entry.settled(denial),
        }
    }
}
