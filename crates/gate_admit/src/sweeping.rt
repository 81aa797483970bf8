//! Dust that a child sweeps: A49.
ghost use Rattle.std.specs.Prelude.{◌≡◌, ℕ, List, IfOk};
ghost use Rattle.std.specs.List.{list_any};
ghost use Rattle.gate_bytes.specs.Order.{first_failing};
ghost use Rattle.gate_tx.specs.Coins.{spends};
ghost use Rattle.gate_pool.specs.Pool.{entry_by_txid};
ghost use Rattle.gate_admit.specs.Sweeping.{leaves_dust_from, leaves_dust_of, leaves_dust_at, leaves_dust, sweep_rules};

use gate_bytes::Memory;
use gate_pool::{Pool, parents};
use gate_standard::{Denial, Feerate, Standards, is_dust};
use gate_tx::{OutPoint, Transaction, TxIn, Txid};
use std::alloc::Global;
use std::hash::BuildHasher;

fn spends(inputs: &[TxIn], outpoint: &OutPoint) -> bool
    ensures { result ≡ spends inputs.now outpoint.now }
{
    inputs.iter().any(|input| input.prevout == *outpoint)
}

/// Whether the transaction, named by this id, has dust that none of the inputs spends.
pub fn leaves_dust_from(rate: Feerate, inputs: &[TxIn], txid: &Txid, parent: &Transaction) -> bool
    ensures { result ≡ leaves_dust_from rate inputs.now txid.now 0 parent.now.outputs }
{
    parent.recall_invariant();
    let mut index = 0u32;
    for output in parent.outputs() {
        let outpoint = OutPoint { txid: *txid, index };
        if is_dust(rate, output) && !spends(inputs, &outpoint) {
            return true;
        }
        index += 1;
    }
    false
}

/// Whether the entry of this id, if there is one, has dust that none of the inputs spends.
fn leaves_dust_at<S: BuildHasher + Copy + Drop>(
    rate: Feerate,
    pool: &Pool<S>,
    inputs: &[TxIn],
    txid: &Txid,
) -> bool
    ensures { result ≡ leaves_dust_at rate pool.now.entries inputs.now txid.now }
{
    match pool.entry(txid) {
        Some(entry) => leaves_dust_from(rate, inputs, txid, entry.transaction()),
        None => false,
    }
}

fn leaves_dust_of_one<S: BuildHasher + Copy + Drop>(
    rate: Feerate,
    pool: &Pool<S>,
    inputs: &[TxIn],
    txids: &[Txid],
) -> bool
    ensures { result ≡ list_any (leaves_dust_at rate pool.now.entries inputs.now) txids.now }
{
    txids
        .iter()
        .any(|txid| leaves_dust_at(rate, pool, inputs, txid))
}

/// Whether a parent in the pool has dust that none of the inputs spends. A parent is asked once, however many inputs spend
/// from it.
fn leaves_dust<S: BuildHasher + Copy + Drop>(
    alloc: Global,
    rate: Feerate,
    pool: &Pool<S>,
    inputs: &[TxIn],
) -> Result<bool, Memory>
    ensures { IfOk result (λ leaves. leaves ≡ leaves_dust rate pool.now.entries inputs.now) }
{
    let above = parents(alloc, pool, inputs)?;
    Ok(leaves_dust_of_one(rate, pool, inputs, above.as_slice()))
}

/// The denial of A49 if it fails: a transaction spends all dust of each of its parents in the pool.
#[tactic(auto, unfolding(crate::specs::Sweeping::sweep_rules))]
pub fn check_sweep<S: BuildHasher + Copy + Drop>(
    alloc: Global,
    standards: &Standards,
    pool: &Pool<S>,
    tx: &Transaction,
) -> Result<Option<Denial>, Memory>
    ensures { IfOk result (λ found. found ≡ first_failing (sweep_rules standards.now pool.now.entries tx.now)) }
{
    if !standards.ephemeral_dust {
        return Ok(None);
    }
    if leaves_dust(alloc, standards.dust_rate, pool, tx.inputs())? {
        return Ok(Some(Denial::UnsweptDust));
    }
    Ok(None)
}
