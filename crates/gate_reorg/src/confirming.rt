//! The entries that new blocks confirm or contradict.
ghost use Rattle.std.specs.Prelude.{◌≡◌, ◌||◌, ℕ, List, IfOk, OnOk};
ghost use Rattle.std.specs.Str.{bytes_eq};
ghost use Rattle.indexmap.specs.IndexSet.{contains};
ghost use Rattle.gate_reorg.specs.Picking.{HasIdsOf};
ghost use Rattle.gate_reorg.specs.Reorganisation.{confirmed, all_confirmed, has_id};
ghost use Rattle.gate_submission.specs.Blocks.{present, transactions_of};

use gate_bytes::{Counted, Memory};
use gate_chain::Block;
use gate_pool::Pool;
use gate_tx::{Identified, Txid};
use indexmap::IndexSet;
use std::alloc::Global;
use std::hash::BuildHasher;

/// Adds the ids of these transactions.
fn add_ids<S: BuildHasher + Copy + Drop>(
    ids: &mut IndexSet<Txid, S>,
    transactions: &[Counted<Identified>],
) -> Result<(), Memory>
    ensures { OnOk result ((id : List ℕ) → contains bytes_eq ids.new id ≡ (contains bytes_eq ids.old id || has_id transactions.now id)) }
{
    ids.reserve(transactions.len())?;
    for transaction in transactions {
        ids.insert(transaction.get().txid())?;
    }
    Ok(())
}

/// The ids of the transactions of blocks, as a set.
pub(crate) fn ids_of<S: BuildHasher + Copy + Drop>(
    alloc: Global,
    hasher: S,
    blocks: &[Option<Block>],
) -> Result<IndexSet<Txid, S>, Memory>
    ensures { IfOk result (λ ids. HasIdsOf ids (transactions_of (present blocks.now))) }
{
    let mut ids = IndexSet::with_hasher(alloc, hasher);
    for block in blocks {
        if let Some(block) = block {
            add_ids(&mut ids, block.transactions())?;
        }
    }
    Ok(ids)
}

/// Takes out the entries that a transaction of a new block confirms or contradicts: its own entry alone, and the
/// entries that spend an outpoint that it spends, with all below them. It takes no memory.
#[tactic(auto, unfolding(crate::specs::Reorganisation::confirmed))]
fn confirm<S: BuildHasher + Copy + Drop>(pool: &mut Pool<S>, transaction: &Identified)
    ensures entries { pool.new.entries ≡ confirmed pool.old.entries transaction.now }
    ensures before { pool.new.before ≡ pool.old.before }
{
    pool.remove_root(&transaction.txid());
    pool.take_spenders(transaction.transaction().inputs());
}

/// Takes out the entries that these transactions of a new block confirm or contradict, one transaction after another.
fn confirm_block<S: BuildHasher + Copy + Drop>(
    pool: &mut Pool<S>,
    transactions: &[Counted<Identified>],
)
    ensures entries { pool.new.entries ≡ all_confirmed pool.old.entries transactions.now }
    ensures before { pool.new.before ≡ pool.old.before }
{
    for transaction in transactions {
        confirm(pool, transaction.get());
    }
}

/// Takes out the entries that the transactions of new blocks confirm or contradict, one transaction after another. It
/// takes no memory.
pub(crate) fn confirm_all<S: BuildHasher + Copy + Drop>(
    pool: &mut Pool<S>,
    blocks: &[Option<Block>],
)
    ensures entries { pool.new.entries ≡ all_confirmed pool.old.entries (transactions_of (present blocks.now)) }
    ensures before { pool.new.before ≡ pool.old.before }
{
    for block in blocks {
        if let Some(block) = block {
            confirm_block(pool, block.transactions());
        }
    }
}
