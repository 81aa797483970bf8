//! A39: the entries that a replacement conflicts with have at most 100 descendants.
ghost use Rattle.std.specs.Prelude.{◌≡◌, ◌<◌, ◌≤◌, Bool, None, IfOk, IfSome, filter, length, not, nat_lt};
ghost use Rattle.gate_pool.specs.Pool.{Admitted};
ghost use Rattle.gate_pool.specs.Family.{descendants_of, AreIdsOf, OfThese};
ghost use Rattle.gate_pool.specs.Search.{IsEntry};
ghost use Rattle.gate_pool.specs.Counting.{counted_of};
ghost use Rattle.gate_rbf.specs.Replacing.{descendant_count};

use crate::counting::CountedConflicts;
use gate_bytes::Memory;
use gate_pool::Pool;
use gate_tx::Txid;
use std::alloc::Global;
use std::hash::BuildHasher;

/// The most descendants, themselves among them, that the entries may have with which a transaction conflicts.
const MAX_DESCENDANTS: u64 = 100;

/// How many descendants the entry of an id has, itself among them, by the totals that the pool keeps.
fn count_below<S: BuildHasher + Copy + Drop>(pool: &Pool<S>, id: &Txid) -> u64
    requires { IsEntry pool.now.entries id.now }
    ensures { result ≡ length (descendants_of pool.now.entries id.now) }
{
    pool.totals(id).unwrap().below.count
}

/// Whether the entries with these ids have few enough descendants together, themselves among them. An entry below two
/// of them counts twice.
fn has_few_descendants<S: BuildHasher + Copy + Drop>(pool: &Pool<S>, ids: &[Txid]) -> bool
    requires { (test : Admitted → Bool) × AreIdsOf ids.now (filter test pool.now.entries) }
    ensures { OfThese pool.now.entries ids.now (λ some. result ≡ not (nat_lt 100 (descendant_count pool.now.entries some))) }
{
    pool.recall_distinct();
    let mut left = MAX_DESCENDANTS;
    for id in ids {
        let count = count_below(pool, id);
        if count > left {
            return false;
        }
        left -= count;
    }
    true
}

impl<'a, S: BuildHasher + Copy + Drop> CountedConflicts<'a, S> {
    /// Whether the conflicts, which have these ids, have few enough descendants.
    fn has_few_descendants(&self, ids: &[Txid]) -> bool
        requires { AreIdsOf ids.now (counted_of self.now.entries self.now.sibling self.now.tx) }
        ensures { result ≡ not (nat_lt 100 (descendant_count self.now.entries (counted_of self.now.entries self.now.sibling self.now.tx))) }
    {
        has_few_descendants(self.pool(), ids)
    }

    /// The ids of the conflicts, each once. None if they have too many descendants.
    pub(crate) fn few_ids(&self, alloc: Global) -> Result<Option<Vec<Txid>>, Memory>
        ensures ids { IfOk result (λ few. IfSome few (λ ids. AreIdsOf ids.items (counted_of self.now.entries self.now.sibling self.now.tx))) }
        ensures few { IfOk result (λ few. IfSome few (λ ids. descendant_count self.now.entries (counted_of self.now.entries self.now.sibling self.now.tx) ≤ 100)) }
        ensures many { IfOk result (λ few. few ≡ None → 100 < descendant_count self.now.entries (counted_of self.now.entries self.now.sibling self.now.tx)) }
    {
        let Some(ids) = self.ids_within(alloc, MAX_DESCENDANTS as usize)? else {
            return Ok(None);
        };
        if !self.has_few_descendants(ids.as_slice()) {
            return Ok(None);
        }
        Ok(Some(ids))
    }
}
