//! How transactions of a package come into the pool, which can still be rewound then.
ghost use Rattle.std.specs.Prelude.{◌≡◌, ◌++◌, All, false, IfOk, OnOk, OnErr};
ghost use Rattle.gate_admit.specs.Bounds.{FitsEntry};
ghost use Rattle.gate_pool.specs.Counting.{entered_beside, replaced_beside};
ghost use Rattle.gate_pool.specs.Pool.{IsRewindable, listing_of};
ghost use Rattle.gate_rivals.specs.Rivals.{replaced_together};
ghost use Rattle.gate_package.specs.Packages.{AreAbsent, AreNewcomers, IsAbsent, entered_together, newcomers};
ghost use Rattle.gate_package.specs.Shapes.{has_conflict, has_duplicates};

use crate::together::replaces_some;
use gate_admit::{Conditions, Entry, Pool};
use gate_bytes::{Copied, Kept, Memory};
use gate_diagram::Price;
use gate_rivals::{list_replaced_together, take_replaced};
use gate_submission::Candidate;
use gate_tx::Txid;
use std::alloc::Global;
use std::hash::BuildHasher;

/// Puts an entry at the end of the pool, in place of what it conflicts with, of the sibling with this id, and of all that is
/// below these: `replaced` are the ids of all of that.
pub(crate) fn enter<S: BuildHasher + Copy + Drop>(
    pool: &mut Pool<S>,
    replaced: &[Txid],
    sibling: Option<Txid>,
    entry: Entry,
) -> Result<(), Memory>
    requires absent { IsAbsent pool.old.entries entry }
    requires replaced { replaced.now ≡ listing_of (replaced_beside pool.old.entries sibling entry.tx) }
    ensures ok { OnOk result (pool.new.entries ≡ entered_beside pool.old.entries sibling entry) }
    ensures err { OnErr result (pool.new.entries ≡ pool.old.entries) }
    ensures before { pool.new.before ≡ pool.old.before }
    ensures rewindable { IsRewindable pool.old → IsRewindable pool.new }
{
    pool.recall_distinct();
    pool.reserve_to_rewind(replaced, 1, entry.transaction().inputs().len())?;
    pool.replace_beside(sibling, entry);
    Ok(())
}

/// Puts transactions at the end of the pool, each at its price, where they replace nothing.
fn enter_all<S: BuildHasher + Copy + Drop>(
    alloc: Global,
    under: &Conditions<'_, S>,
    pool: &mut Pool<S>,
    these: &[Candidate<'_>],
    prices: &[Price],
) -> Result<(), Memory>
    requires new { AreNewcomers pool.old.entries these.now }
    requires fit { All (λ price. FitsEntry price.fee price.vsize) prices.now }
    ensures entries { OnOk result (pool.new.entries ≡ pool.old.entries ++ newcomers under.now.second these.now prices.now) }
    ensures before { pool.new.before ≡ pool.old.before }
    ensures rewindable { IsRewindable pool.old → IsRewindable pool.new }
{
    let Some((candidate, these)) = these.split_first() else {
        return Ok(());
    };
    let Some((price, prices)) = prices.split_first() else {
        return Ok(());
    };
    let identified = candidate.identified().copy(alloc)?;
    let entry = Entry::new(identified, price.fee, price.vsize, under.second);
    enter(pool, &[], None, entry)?;
    enter_all(alloc, under, pool, these, prices)
}

/// Puts transactions at the end of the pool in place of what they replace, each at its price. It tells what they replaced,
/// in the order of the pool.
pub(crate) fn enter_together<S: BuildHasher + Copy + Drop>(
    alloc: Global,
    under: &Conditions<'_, S>,
    pool: &mut Pool<S>,
    these: &[Candidate<'_>],
    prices: &[Price],
) -> Result<Kept<Txid>, Memory>
    requires absent { AreAbsent pool.old.entries these.now }
    requires distinct { has_duplicates these.now ≡ false }
    requires apart { has_conflict these.now ≡ false }
    requires fit { All (λ price. FitsEntry price.fee price.vsize) prices.now }
    ensures replaced { IfOk result (λ replaced. replaced ≡ listing_of (replaced_together pool.old.entries these.now)) }
    ensures entries { OnOk result (pool.new.entries ≡ entered_together pool.old.entries under.now.second these.now prices.now) }
    ensures before { pool.new.before ≡ pool.old.before }
    ensures rewindable { IsRewindable pool.old → IsRewindable pool.new }
{
    if !replaces_some(pool, these) {
        enter_all(alloc, under, pool, these, prices)?;
        return Ok(Kept::from_vec(Vec::new(alloc)));
    }
    pool.recall_distinct();
    let replaced = list_replaced_together(alloc, pool, these)?;
    pool.reserve_to_rewind(replaced.as_slice(), 0, 0)?;
    take_replaced(alloc, pool, these)?;
    enter_all(alloc, under, pool, these, prices)?;
    Ok(Kept::from_vec(replaced))
}
