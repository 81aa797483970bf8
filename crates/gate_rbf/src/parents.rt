//! A40: from each entry from which a replacement spends, something that it replaces spends too.
ghost use Rattle.std.specs.Prelude.{◌≡◌, ◌&&◌, IfOk};
ghost use Rattle.std.specs.List.{list_any};
ghost use Rattle.gate_pool.specs.Pool.{Admitted};
ghost use Rattle.gate_pool.specs.Family.{is_among, names, OfThese};
ghost use Rattle.gate_rbf.specs.Replacing.{adds_parent};
ghost use Rattle.gate_rbf.specs.Gathering.{is_new};

use gate_bytes::Memory;
use gate_pool::{Pool, parents};
use gate_tx::{Transaction, Txid};
use std::alloc::Global;
use std::hash::BuildHasher;

/// The entries whose parents a replacement may have, too: it may have no other parent in the pool (A40).
#[derive(Clone, Copy, PartialEq, Eq)]
pub enum ParentsOf {
    /// Those that it conflicts with, as up to Bitcoin Core 27.
    Conflicts,
    /// All that it replaces, as since 28.0.
    Replaced,
}

/// Whether one of the entries with these ids spends outputs of a transaction.
fn has_child_among<S: BuildHasher + Copy + Drop>(
    pool: &Pool<S>,
    conflicts: &[Txid],
    parent: &Txid,
) -> bool
    ensures { result ≡ list_any (λ (e : Admitted). names e parent.now && is_among conflicts.now e) pool.now.entries }
{
    conflicts
        .iter()
        .any(|conflict| pool.is_child(parent, conflict))
}

/// Whether none of the entries with these ids spends outputs of one of these transactions.
fn has_new<S: BuildHasher + Copy + Drop>(
    pool: &Pool<S>,
    conflicts: &[Txid],
    parents: &[Txid],
) -> bool
    ensures { result ≡ list_any (is_new pool.now.entries conflicts.now) parents.now }
{
    parents
        .iter()
        .any(|parent| !has_child_among(pool, conflicts, parent))
}

/// Whether an input spends from an entry from which none of the entries with these ids does. What this costs is a
/// look-up for each of these entries and each entry from which inputs spend, and neither the inputs of the former nor
/// the children of the latter.
pub(crate) fn adds_parents<S: BuildHasher + Copy + Drop>(
    alloc: Global,
    pool: &Pool<S>,
    direct: &[Txid],
    tx: &Transaction,
) -> Result<bool, Memory>
    ensures { OfThese pool.now.entries direct.now (λ some. IfOk result (λ adds. adds ≡ list_any (adds_parent pool.now.entries some) tx.now.inputs)) }
{
    pool.recall_distinct();
    let above = parents(alloc, pool, tx.inputs())?;
    Ok(has_new(pool, direct, above.as_slice()))
}
