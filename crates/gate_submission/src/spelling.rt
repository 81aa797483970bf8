//! Transactions have texts: their types say so, and proofs recall it here.
ghost use Rattle.std.specs.Prelude.{Contains};
ghost use Rattle.std.specs.List.{flat_map};
ghost use Rattle.std.specs.Option.{option_to_list};
ghost use Rattle.gate_tx.specs.Text.{IsTx};
ghost use Rattle.gate_tx.specs.Tx.{Tx};
ghost use Rattle.gate_submission.specs.Blocks.{present, transactions_of};

use crate::prepared::Prepared;
use gate_bytes::Counted;
use gate_chain::Block;
use gate_tx::Identified;

fn recall_all(transactions: &[Counted<Identified>])
    ensures { (tx : Tx) → Contains transactions.now tx → IsTx tx }
{
    for transaction in transactions {
        transaction.get().transaction().recall_invariant();
    }
}

/// Recalls for a proof that the transactions of submissions have texts: it does nothing.
pub fn recall_texts(submissions: &[Prepared])
    ensures { (tx : Tx) → Contains (flat_map option_to_list submissions.now) tx → IsTx tx }
{
    for submission in submissions {
        submission.recall_spelled();
    }
}

/// Recalls for a proof that the transactions of blocks have texts: it does nothing.
pub fn recall_spelled(blocks: &[Option<Block>])
    ensures { (tx : Tx) → Contains (transactions_of (present blocks.now)) tx → IsTx tx }
{
    for block in blocks {
        if let Some(block) = block {
            recall_all(block.transactions());
        }
    }
}
