//! What leaves with entries that are replaced.
ghost use Rattle.std.specs.Prelude.{Bool, IfOk, filter};
ghost use Rattle.gate_pool.specs.Pool.{Admitted};
ghost use Rattle.gate_pool.specs.Family.{is_among, all_below, AreIdsOf, BelowThese};

use crate::gathered::put;
use gate_bytes::Memory;
use gate_pool::{Pool, descendants};
use gate_tx::Txid;
use std::alloc::Global;
use std::hash::BuildHasher;

/// Those of these ids that entries have, each once.
fn admitted<S: BuildHasher + Copy + Drop>(
    alloc: Global,
    pool: &Pool<S>,
    ids: &[Txid],
) -> Result<Vec<Txid>, Memory>
    ensures { IfOk result (λ found. AreIdsOf found.items (filter (is_among ids.now) pool.now.entries)) }
{
    pool.recall_distinct();
    let mut found = Vec::new(alloc);
    for id in ids {
        match pool.entry(id) {
            Some(entry) => put(&mut found, entry.txid())?,
            None => {}
        }
    }
    Ok(found)
}

/// The ids of the entries with these ids and of all that are below them, each once.
pub(crate) fn with_descendants<S: BuildHasher + Copy + Drop>(
    alloc: Global,
    pool: &Pool<S>,
    roots: &[Txid],
) -> Result<Vec<Txid>, Memory>
    requires { (test : Admitted → Bool) × AreIdsOf roots.now (filter test pool.now.entries) }
    ensures { BelowThese pool.now.entries roots.now (λ below. IfOk result (λ ids. AreIdsOf ids.items below)) }
{
    let found = descendants(alloc, pool, roots, pool.count())?;
    Ok(found.unwrap())
}

/// The ids of the entries that leave if those with these ids are replaced: themselves, and all that are below them,
/// each once. An id that no entry has counts for nothing.
pub fn replaced<S: BuildHasher + Copy + Drop>(
    alloc: Global,
    pool: &Pool<S>,
    ids: &[Txid],
) -> Result<Vec<Txid>, Memory>
    ensures { IfOk result (λ found. AreIdsOf found.items (all_below (is_among ids.now) pool.now.entries)) }
{
    let roots = admitted(alloc, pool, ids)?;
    with_descendants(alloc, pool, roots.as_slice())
}
