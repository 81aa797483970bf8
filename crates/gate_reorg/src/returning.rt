//! Transactions of blocks that were disconnected: each is tried again, unless a new block has it.
ghost use Rattle.std.specs.Prelude.{◌≡◌, List, OnOk};
ghost use Rattle.gate_tx.specs.Tx.{Tx};
ghost use Rattle.gate_reorg.specs.Following.{returns_of, terms_of};
ghost use Rattle.gate_reorg.specs.Picking.{HasIdsOf};
ghost use Rattle.gate_reorg.specs.Reorganisation.{tried_again};
ghost use Rattle.gate_submission.specs.Blocks.{transactions_of};

use gate_admit::{Conditions, Prepared, readmit};
use gate_bytes::{Copied, Counted, Memory};
use gate_chain::Block;
use gate_pool::Pool;
use gate_tx::{Identified, Txid};
use indexmap::IndexSet;
use std::alloc::Global;
use std::hash::BuildHasher;

/// Tries a transaction again: it enters, or the entries that spend its outputs leave with all below them. An entry and
/// the disconnected block, which is kept in case the chain is switched back, share the transaction and its ids.
#[tactic(auto, unfolding(crate::specs::Reorganisation::tried_again))]
fn try_again<S: BuildHasher + Copy + Drop>(
    alloc: Global,
    under: &Conditions<'_, S>,
    pool: &mut Pool<S>,
    transaction: &Counted<Identified>,
) -> Result<(), Memory>
    ensures entries { OnOk result (pool.new.entries ≡ tried_again (terms_of under.now) pool.old.entries transaction.now) }
    ensures before { pool.new.before ≡ pool.old.before }
{
    let txid = transaction.get().txid();
    let prepared = Prepared::of(alloc, transaction.copy(alloc)?)?;
    match readmit(
        alloc,
        under.chain,
        pool,
        &prepared,
        under.verdicts,
        under.policy,
        under.second,
    )? {
        Ok(_grant) => {}
        Err(_denial) => pool.take_children(&txid),
    }
    Ok(())
}

/// Tries the transactions of a block again, one after another, without those whose ids new blocks have.
fn return_block<S: BuildHasher + Copy + Drop>(
    alloc: Global,
    under: &Conditions<'_, S>,
    pool: &mut Pool<S>,
    new: &IndexSet<Txid, S>,
    transactions: &[Counted<Identified>],
) -> Result<(), Memory>
    ensures entries { (landed : List Tx) → HasIdsOf new.now landed →
        OnOk result (pool.new.entries ≡ returns_of under.now pool.old.entries landed transactions.now) }
    ensures before { pool.new.before ≡ pool.old.before }
{
    for transaction in transactions {
        if !new.contains(&transaction.get().txid()) {
            try_again(alloc, under, pool, transaction)?;
        }
    }
    Ok(())
}

/// Tries the transactions of blocks again, the lowest block first, without those whose ids new blocks have.
pub(crate) fn return_all<S: BuildHasher + Copy + Drop>(
    alloc: Global,
    under: &Conditions<'_, S>,
    pool: &mut Pool<S>,
    new: &IndexSet<Txid, S>,
    gone: &[Block],
) -> Result<(), Memory>
    ensures entries { (landed : List Tx) → HasIdsOf new.now landed →
        OnOk result (pool.new.entries ≡ returns_of under.now pool.old.entries landed (transactions_of gone.now)) }
    ensures before { pool.new.before ≡ pool.old.before }
{
    for block in gone {
        return_block(alloc, under, pool, new, block.transactions())?;
    }
    Ok(())
}
