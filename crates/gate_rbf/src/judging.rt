ghost use Rattle.std.specs.Prelude.{◌≡◌, ◌<◌, Some, None, IfOk, IfErr, IfSome, OnOk, length};
ghost use Rattle.gate_bytes.specs.Order.{first_failing};
ghost use Rattle.gate_pool.specs.Family.{sums_of, AreIdsOf};
ghost use Rattle.gate_pool.specs.Counting.{counted_of, replaced_beside};
ghost use Rattle.gate_rbf.specs.Replacing.{adds_unconfirmed, replacement_rules};

use crate::amounts::check_amounts;
use crate::below::with_descendants;
use crate::counting::CountedConflicts;
use crate::direct::DirectConflicts;
use crate::parents::{ParentsOf, adds_parents};
use gate_bytes::Memory;
use gate_pool::{Pool, Sums, add_up};
use gate_standard::{Denial, Feerate};
use gate_tx::{Transaction, Txid};
use std::alloc::Global;
use std::hash::BuildHasher;

impl<'a, S: BuildHasher + Copy + Drop> CountedConflicts<'a, S> {
    /// Whether the transaction has a parent in the pool that none of those has whose parents it may have: A40. The
    /// conflicts have these ids.
    fn adds_parents(&self, alloc: Global, parents: ParentsOf, ids: &[Txid]) -> Result<bool, Memory>
        requires { AreIdsOf ids.now (counted_of self.now.entries self.now.sibling self.now.tx) }
        ensures { IfOk result (λ adds. adds ≡ adds_unconfirmed parents self.now.entries self.now.sibling self.now.tx) }
    {
        let pool = self.pool();
        match parents {
            ParentsOf::Conflicts => adds_parents(alloc, pool, ids, self.transaction()),
            ParentsOf::Replaced => {
                let gone = with_descendants(alloc, pool, ids)?;
                adds_parents(alloc, pool, gone.as_slice(), self.transaction())
            }
        }
    }

    /// The sums of the only conflict and of all that is below it, which the pool keeps; none unless there is exactly
    /// one.
    fn sums_of_only(&self) -> Option<Sums>
        ensures { IfSome result (λ sums. sums ≡ sums_of (replaced_beside self.now.entries self.now.sibling self.now.tx)) }
    {
        let only = self.only()?;
        match self.pool().totals(&only) {
            Some(totals) => Some(totals.below),
            None => None,
        }
    }

    /// The sums of the conflicts, which have these ids, and of all that are below them.
    fn replaced_sums(&self, alloc: Global, ids: &[Txid]) -> Result<Sums, Memory>
        requires { AreIdsOf ids.now (counted_of self.now.entries self.now.sibling self.now.tx) }
        ensures { IfOk result (λ sums. sums ≡ sums_of (replaced_beside self.now.entries self.now.sibling self.now.tx)) }
    {
        if let Some(sums) = self.sums_of_only() {
            return Ok(sums);
        }
        let pool = self.pool();
        let gone = with_descendants(alloc, pool, ids)?;
        Ok(add_up(pool, gone.as_slice()))
    }

    /// How many entries the transaction replaces with this fee, in satoshi, and this size, in virtual bytes, or the
    /// first of A38 to A42 that fails, where a replacement pays for its own relay at this rate, and may have the parents
    /// of these entries. A transaction without a conflict replaces none.
    pub fn judge(
        &self,
        alloc: Global,
        rate: Feerate,
        parents: ParentsOf,
        fee: u64,
        vsize: u64,
    ) -> Result<Result<u64, Denial>, Memory>
        requires { 0 < vsize }
        ensures ok { IfOk result (λ found. OnOk found (first_failing (replacement_rules rate parents self.now.entries self.now.sibling self.now.tx fee vsize) ≡ None)) }
        ensures count { IfOk result (λ found. IfOk found (λ n. n ≡ length (replaced_beside self.now.entries self.now.sibling self.now.tx))) }
        ensures err { IfOk result (λ found. IfErr found (λ denial. first_failing (replacement_rules rate parents self.now.entries self.now.sibling self.now.tx fee vsize) ≡ Some denial)) }
    {
        if !self.has_any() {
            return Ok(Ok(0));
        }
        if self.one_pays_at_least(fee, vsize) {
            return Ok(Err(Denial::LowerFeeRate));
        }
        let Some(ids) = self.few_ids(alloc)? else {
            return Ok(Err(Denial::TooManyReplacements));
        };
        if self.adds_parents(alloc, parents, ids.as_slice())? {
            return Ok(Err(Denial::AddsUnconfirmed));
        }
        let sums = self.replaced_sums(alloc, ids.as_slice())?;
        match check_amounts(rate, fee, vsize, sums.fees) {
            Ok(()) => Ok(Ok(sums.count)),
            Err(denial) => Ok(Err(denial)),
        }
    }
}

/// How many entries a transaction of this fee, in satoshi, and this size, in virtual bytes, replaces, or the first of
/// A38 to A42 that fails, where a replacement pays for its own relay at this rate (Bitcoin Core 22.0's
/// `-incrementalrelayfee`), it may have the parents of these entries, and the entry with this id counts as one more
/// direct conflict. A transaction without a conflict replaces none.
pub fn judge_replacement<S: BuildHasher + Copy + Drop>(
    alloc: Global,
    pool: &Pool<S>,
    sibling: Option<Txid>,
    tx: &Transaction,
    rate: Feerate,
    parents: ParentsOf,
    fee: u64,
    vsize: u64,
) -> Result<Result<u64, Denial>, Memory>
    requires { 0 < vsize }
    ensures ok { IfOk result (λ found. OnOk found (first_failing (replacement_rules rate parents pool.now.entries sibling tx.now fee vsize) ≡ None)) }
    ensures count { IfOk result (λ found. IfOk found (λ n. n ≡ length (replaced_beside pool.now.entries sibling tx.now))) }
    ensures err { IfOk result (λ found. IfErr found (λ denial. first_failing (replacement_rules rate parents pool.now.entries sibling tx.now fee vsize) ≡ Some denial)) }
{
    let direct = DirectConflicts::find(alloc, pool, tx)?;
    let counted = direct.counting(sibling)?;
    counted.judge(alloc, rate, parents, fee, vsize)
}
