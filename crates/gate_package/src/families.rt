//! Limits of families for packages: A36, A47 and A37 of a transaction, and J9 of those that are judged together.
ghost use Rattle.std.specs.Prelude.{◌≡◌, ◌≤◌, ◌<◌, ◌^◌, Contains, IfOk};
ghost use Rattle.std.specs.List.{list_any};
ghost use Rattle.gate_bytes.specs.Order.{first_failing};
ghost use Rattle.gate_tx.specs.Ids.{txid_of};
ghost use Rattle.gate_pool.specs.Family.{OfThese, sums_of};
ghost use Rattle.gate_pool.specs.Pool.{Admitted};
ghost use Rattle.gate_package.specs.Judging.{family_rules};
ghost use Rattle.gate_package.specs.Together.{are_too_many, crowd, is_crowded, passes_limits};

use crate::role::Role;
use crate::truc::breaks_truc_as;
use gate_admit::{FamilyLimits, Policy, Pool, is_within, usual_limits};
use gate_bytes::Memory;
use gate_pool::{Above, family_above};
use gate_rbf::DirectConflicts;
use gate_rivals::bare_inputs;
use gate_standard::Denial;
use gate_submission::Candidate;
use gate_tx::Txid;
use std::alloc::Global;
use std::hash::BuildHasher;

/// The first of A36, A47 and A37 that fails: a transaction of a package has the first try alone, without room for what it
/// replaces.
#[tactic(auto, unfolding(crate::specs::Judging::family_rules))]
pub(crate) fn check_families<S: BuildHasher + Copy + Drop>(
    alloc: Global,
    policy: &Policy,
    role: Role,
    direct: &DirectConflicts<'_, S>,
    vsize: u64,
) -> Result<Option<Denial>, Memory>
    ensures { IfOk result (λ found. found ≡ first_failing (family_rules role policy.now direct.now.entries direct.now.tx vsize)) }
{
    let pool = direct.pool();
    let inputs = direct.transaction().inputs();
    let Some(above) = family_above(alloc, pool, inputs, policy.ancestors())? else {
        return Ok(Some(Denial::TooLongChain));
    };
    if !is_within(pool, &above, vsize, usual_limits(policy)) {
        return Ok(Some(Denial::TooLongChain));
    }
    if breaks_truc_as(alloc, policy, role, direct, &above.ids, vsize)? {
        return Ok(Some(Denial::TrucViolation));
    }
    if direct.has_one_of(&above.ids) {
        return Ok(Some(Denial::SpendsConflicting));
    }
    Ok(None)
}

/// Whether with this many more of this size together the descendants of the entry with this id pass the limits.
fn is_crowded<S: BuildHasher + Copy + Drop>(
    pool: &Pool<S>,
    txid: &Txid,
    count: usize,
    vsize: u64,
    limits: FamilyLimits,
) -> bool
    requires { count ≤ limits.descendants }
    ensures { (a : Admitted) → Contains pool.now.entries a → txid_of a.tx ≡ txid.now → result ≡ is_crowded limits pool.now.entries count vsize a }
{
    match pool.totals(txid) {
        Some(totals) => {
            let room = limits.descendants - count;
            let size = totals.below.size + u128::from(vsize);
            (totals.below.count > room as u64) | (size > limits.descendants_size)
        }
        None => false,
    }
}

/// Whether with this many more of this size together the descendants of one of these entries pass the limits.
fn one_is_crowded<S: BuildHasher + Copy + Drop>(
    pool: &Pool<S>,
    above: &[Txid],
    count: usize,
    vsize: u64,
    limits: FamilyLimits,
) -> bool
    requires { count ≤ limits.descendants }
    ensures { OfThese pool.now.entries above.now (λ these. result ≡ list_any (is_crowded limits pool.now.entries count vsize) these) }
{
    for txid in above {
        if is_crowded(pool, txid, count, vsize, limits) {
            return true;
        }
    }
    false
}

/// Whether this many transactions of this size together pass the limits by themselves.
fn are_too_many(limits: FamilyLimits, count: usize, vsize: u64) -> bool
    ensures { result ≡ are_too_many limits count vsize }
{
    let size = u128::from(vsize);
    count > limits.ancestors
        || count > limits.descendants
        || size > limits.ancestors_size
        || size > limits.descendants_size
}

/// Whether with this many of this size together these ancestors, or the descendants of one of these, pass the limits.
fn crowd<S: BuildHasher + Copy + Drop>(
    pool: &Pool<S>,
    above: &Above,
    count: usize,
    vsize: u64,
    limits: FamilyLimits,
) -> bool
    requires small { above.now.sums.size < 2 ^ 100 }
    requires few { count ≤ limits.descendants }
    ensures { OfThese pool.now.entries above.now.ids.items (λ these. above.now.sums ≡ sums_of these → result ≡ crowd limits pool.now.entries count vsize these) }
{
    let sums = above.sums;
    if sums.count > 0 && sums.size + u128::from(vsize) > limits.ancestors_size {
        return true;
    }
    one_is_crowded(pool, &above.ids, count, vsize, limits)
}

/// Whether these transactions, of this size together, may pass the limits of families: they are taken for one family, also
/// where they are none (J9).
pub(crate) fn passes_limits<S: BuildHasher + Copy + Drop>(
    alloc: Global,
    policy: &Policy,
    pool: &Pool<S>,
    these: &[Candidate<'_>],
    vsize: u64,
) -> Result<bool, Memory>
    ensures { IfOk result (λ passes. passes ≡ passes_limits policy.now pool.now.entries these.now vsize) }
{
    let limits = usual_limits(policy);
    let count = these.len();
    if are_too_many(limits, count, vsize) {
        return Ok(true);
    }
    pool.recall_distinct();
    let inputs = bare_inputs(alloc, these)?;
    let most = limits.ancestors - count;
    let Some(above) = family_above(alloc, pool, inputs.as_slice(), most)? else {
        return Ok(true);
    };
    Ok(crowd(pool, &above, count, vsize, limits))
}
