//! The dust of a parent that a transaction leaves.
ghost use Rattle.std.specs.Prelude.{◌≡◌};
ghost use Rattle.gate_tx.specs.Coins.{spends};
ghost use Rattle.gate_pool.specs.Pool.{entry_by_txid};
ghost use Rattle.gate_figures.specs.Figures.{unswept, unswept_of, unswept_output};

use crate::figures::Figures;
use gate_pool::Pool;
use gate_standard::{Feerate, is_dust};
use gate_tx::{OutPoint, Transaction, TxIn, Txid};
use std::hash::BuildHasher;

fn spends(inputs: &[TxIn], outpoint: &OutPoint) -> bool
    ensures { result ≡ spends inputs.now outpoint.now }
{
    inputs.iter().any(|input| input.prevout == *outpoint)
}

/// The first output of the transaction of this id that is dust and that none of the inputs spends.
fn unswept_output(
    rate: Feerate,
    inputs: &[TxIn],
    txid: &Txid,
    parent: &Transaction,
) -> Option<Figures>
    ensures { result ≡ unswept_output rate inputs.now txid.now 0 parent.now.outputs }
{
    parent.recall_invariant();
    let mut index = 0u32;
    for output in parent.outputs() {
        let outpoint = OutPoint { txid: *txid, index };
        if is_dust(rate, output) && !spends(inputs, &outpoint) {
            return Some(Figures::Unswept { outpoint });
        }
        index += 1;
    }
    None
}

/// The first such output of the entry of this id, if there is one.
fn unswept_of<S: BuildHasher + Copy + Drop>(
    rate: Feerate,
    pool: &Pool<S>,
    inputs: &[TxIn],
    txid: &Txid,
) -> Option<Figures>
    ensures { result ≡ unswept_of rate inputs.now txid.now (entry_by_txid pool.now.entries txid.now) }
{
    match pool.entry(txid) {
        Some(entry) => unswept_output(rate, inputs, txid, entry.transaction()),
        None => None,
    }
}

/// The first output of a parent in the pool that is dust and that none of the inputs spends, by the inputs in turn.
pub(crate) fn unswept<S: BuildHasher + Copy + Drop>(
    rate: Feerate,
    pool: &Pool<S>,
    inputs: &[TxIn],
) -> Option<Figures>
    ensures { result ≡ unswept rate pool.now.entries inputs.now inputs.now }
{
    for input in inputs {
        if let Some(found) = unswept_of(rate, pool, inputs, &input.prevout.txid) {
            return Some(found);
        }
    }
    None
}
