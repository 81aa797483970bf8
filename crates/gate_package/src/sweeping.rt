//! Dust that a child sweeps within a package: A49 of those that are judged together.
ghost use Rattle.std.specs.Prelude.{◌≡◌, IfOk};
ghost use Rattle.gate_bytes.specs.Order.{first_failing};
ghost use Rattle.gate_package.specs.Sweeping.{leaves_dust_beside, leaves_dust_of, sweep_rules_beside};

use crate::shape::name_one;
use gate_admit::{Pool, check_sweep, leaves_dust_from};
use gate_bytes::Memory;
use gate_standard::{Denial, Feerate, Standards};
use gate_submission::Candidate;
use gate_tx::{Transaction, TxIn};
use std::alloc::Global;
use std::hash::BuildHasher;

/// Whether these inputs spend from a transaction, and not all its dust.
fn leaves_dust_of(rate: Feerate, inputs: &[TxIn], other: &Candidate<'_>) -> bool
    ensures { result ≡ leaves_dust_of rate inputs.now other.now }
{
    if !name_one(inputs, other) {
        return false;
    }
    leaves_dust_from(rate, inputs, &other.txid(), other.transaction())
}

/// Whether these inputs spend from one of these others, and not all its dust.
fn leaves_dust_beside(rate: Feerate, others: &[Candidate<'_>], inputs: &[TxIn]) -> bool
    ensures { result ≡ leaves_dust_beside rate others.now inputs.now }
{
    others
        .iter()
        .any(|other| leaves_dust_of(rate, inputs, other))
}

/// The denial of A49 if it fails: a transaction spends all dust of each of its parents among these others, and of each in
/// the pool.
#[tactic(auto, unfolding(crate::specs::Sweeping::sweep_rules_beside))]
pub(crate) fn check_sweep_beside<S: BuildHasher + Copy + Drop>(
    alloc: Global,
    standards: &Standards,
    others: &[Candidate<'_>],
    pool: &Pool<S>,
    tx: &Transaction,
) -> Result<Option<Denial>, Memory>
    ensures { IfOk result (λ found. found ≡ first_failing (sweep_rules_beside standards.now others.now pool.now.entries tx.now)) }
{
    if standards.ephemeral_dust && leaves_dust_beside(standards.dust_rate, others, tx.inputs()) {
        return Ok(Some(Denial::UnsweptDust));
    }
    check_sweep(alloc, standards, pool, tx)
}
