//! Limits of families, and conflicts among ancestors: A36, A47 and A37.
ghost use Rattle.std.specs.Prelude.{◌≡◌, ◌<◌, ◌≤◌, ◌^◌, Bool, true, None, [], IfOk, IfSome, filter, length, Contains};
ghost use Rattle.std.specs.List.{list_all};
ghost use Rattle.gate_bytes.specs.Order.{first_failing};
ghost use Rattle.gate_tx.specs.Ids.{txid_of};
ghost use Rattle.gate_pool.specs.Pool.{Admitted, entry_by_txid, largest_vsize};
ghost use Rattle.gate_pool.specs.Family.{ancestors_of, ancestors_above, conflicts_of, sums_of, AreIdsOf, OfThese};
ghost use Rattle.gate_admit.specs.Limits.{usual_limits, grown, is_within, fits_families, has_room, has_room_below, has_second_try, limit_rules};
ghost use Rattle.gate_admit.specs.declared.attempt.Attempt.TheVariants.{First, Again};

use crate::again::fits_again;
use crate::attempt::Attempt;
use crate::policy::{CARVE_OUT_VSIZE, Policy};
use crate::truc::breaks_truc;
use gate_bytes::{Counted, Memory};
use gate_pool::{Above, Pool, family_above};
use gate_rbf::DirectConflicts;
use gate_standard::{Denial, is_truc};
use gate_tx::{Identified, Transaction, TxIn, Txid};
use std::alloc::Global;
use std::hash::BuildHasher;

/// The most ancestors and the most descendants that there may be, the transaction itself among each, and the most
/// virtual bytes that each may have.
#[derive(Clone, Copy)]
pub struct FamilyLimits {
    pub ancestors: usize,
    pub ancestors_size: u128,
    pub descendants: usize,
    pub descendants_size: u128,
}

/// The limits of the first try, before they grow for a replacement.
pub fn usual_limits(policy: &Policy) -> FamilyLimits
    ensures { result ≡ usual_limits policy.now }
{
    FamilyLimits {
        ancestors: policy.ancestors(),
        ancestors_size: u128::from(policy.ancestors_size()),
        descendants: policy.descendants(),
        descendants_size: u128::from(policy.descendants_size()),
    }
}

/// The limits of the first try: those of descendants grow if the transaction conflicts directly with exactly one entry.
fn first_limits<S: BuildHasher + Copy + Drop>(
    policy: &Policy,
    direct: &DirectConflicts<'_, S>,
) -> FamilyLimits
    ensures limits { result ≡ grown direct.now.entries (conflicts_of direct.now.entries direct.now.tx) (usual_limits policy.now) }
    ensures small { result.descendants_size < 2 ^ 101 }
    ensures few { result.descendants ≤ 1001 }
{
    policy.recall_bounds();
    let usual = usual_limits(policy);
    let Some(conflict) = direct.only() else {
        return usual;
    };
    match direct.pool().totals(&conflict) {
        Some(totals) => FamilyLimits {
            descendants: usual.descendants + 1,
            descendants_size: usual.descendants_size + totals.below.size,
            ..usual
        },
        None => usual,
    }
}

/// Whether a transaction of this size can join the descendants of the entry with this id. It is looked for at the place
/// `near` first, over which is written where an entry that it spends from may stand.
fn has_room_below<S: BuildHasher + Copy + Drop>(
    pool: &Pool<S>,
    txid: &Txid,
    near: &mut Option<usize>,
    vsize: u64,
    limits: FamilyLimits,
) -> bool
    ensures { (a : Admitted) → Contains pool.now.entries a → txid_of a.tx ≡ txid.now → result ≡ has_room_below limits pool.now.entries vsize a }
{
    match pool.totals_near(txid, near) {
        Some(totals) => {
            let size = totals.below.size + u128::from(vsize);
            (totals.below.count < limits.descendants as u64) & (size <= limits.descendants_size)
        }
        None => true,
    }
}

/// Whether a transaction of this size can join the descendants of each of these entries.
fn each_has_room<S: BuildHasher + Copy + Drop>(
    pool: &Pool<S>,
    above: &[Txid],
    vsize: u64,
    limits: FamilyLimits,
) -> bool
    ensures { OfThese pool.now.entries above.now (λ these. result ≡ list_all (has_room_below limits pool.now.entries vsize) these) }
{
    let mut near = None;
    for txid in above {
        if !has_room_below(pool, txid, &mut near, vsize, limits) {
            return false;
        }
    }
    true
}

/// Whether a transaction of this size, with these ancestors, is within the limits.
pub fn is_within<S: BuildHasher + Copy + Drop>(
    pool: &Pool<S>,
    above: &Above,
    vsize: u64,
    limits: FamilyLimits,
) -> bool
    requires { above.now.sums.size < 2 ^ 100 }
    ensures { OfThese pool.now.entries above.now.ids.items (λ these. above.now.sums ≡ sums_of these → result ≡ is_within limits pool.now.entries these vsize) }
{
    let sums = above.sums;
    if sums.count >= limits.ancestors as u64 {
        return false;
    }
    if sums.count > 0 && sums.size + u128::from(vsize) > limits.ancestors_size {
        return false;
    }
    each_has_room(pool, &above.ids, vsize, limits)
}

/// Whether a transaction of this size has a second try: a small one, unless it is of version 3.
fn has_second_try(tx: &Transaction, vsize: u64) -> bool
    ensures { result ≡ has_second_try tx.now vsize }
{
    vsize <= CARVE_OUT_VSIZE && !is_truc(tx)
}

/// Whether one of the two tries of A36 succeeds; not every transaction has a second one.
fn fits_families<S: BuildHasher + Copy + Drop>(
    policy: &Policy,
    direct: &DirectConflicts<'_, S>,
    above: &Above,
    vsize: u64,
) -> bool
    requires ids { AreIdsOf above.now.ids.items (ancestors_above direct.now.entries direct.now.tx.inputs) }
    requires sums { above.now.sums ≡ sums_of (ancestors_above direct.now.entries direct.now.tx.inputs) }
    requires small { above.now.sums.size < 2 ^ 100 }
    ensures { result ≡ fits_families policy.now direct.now.entries direct.now.tx vsize }
{
    let pool = direct.pool();
    let limits = first_limits(policy, direct);
    if is_within(pool, above, vsize, limits) {
        return true;
    }
    if !has_second_try(direct.transaction(), vsize) {
        return false;
    }
    let carved_out = FamilyLimits {
        ancestors: 2,
        descendants: limits.descendants + 1,
        descendants_size: limits.descendants_size + u128::from(CARVE_OUT_VSIZE),
        ..limits
    };
    is_within(pool, above, vsize, carved_out)
}

/// The transaction's ancestors in the pool and their totals. None if there are more than `most`.
fn family_of<S: BuildHasher + Copy + Drop>(
    alloc: Global,
    direct: &DirectConflicts<'_, S>,
    most: usize,
) -> Result<Option<Above>, Memory>
    ensures ids { IfOk result (λ found. IfSome found (λ above. AreIdsOf above.ids.items (ancestors_above direct.now.entries direct.now.tx.inputs))) }
    ensures sums { IfOk result (λ found. IfSome found (λ above. above.sums ≡ sums_of (ancestors_above direct.now.entries direct.now.tx.inputs))) }
    ensures small { IfOk result (λ found. IfSome found (λ above. above.sums.size < 2 ^ 100)) }
    ensures many { IfOk result (λ found. found ≡ None → most < length (ancestors_above direct.now.entries direct.now.tx.inputs)) }
{
    let inputs = direct.transaction().inputs();
    let found = family_above(alloc, direct.pool(), inputs, most)?;
    Ok(found)
}

/// How many ancestors the entry with this id has, itself among them; 0 if no entry has the id.
fn count_above<S: BuildHasher + Copy + Drop>(pool: &Pool<S>, txid: &Txid) -> u64
    ensures { result ≡ length (ancestors_of pool.now.entries txid.now) }
{
    match pool.totals(txid) {
        Some(totals) => totals.above.count,
        None => 0,
    }
}

/// How many ancestors a transaction with these inputs has at least, by the totals that the pool keeps of its parents.
/// If this is 0, it has none.
fn fewest_ancestors<S: BuildHasher + Copy + Drop>(pool: &Pool<S>, inputs: &[TxIn]) -> u64
    ensures least { result ≤ length (ancestors_above pool.now.entries inputs.now) }
    ensures none { result ≡ 0 → ancestors_above pool.now.entries inputs.now ≡ [] }
{
    let mut fewest = 0;
    for input in inputs {
        fewest = fewest.max(count_above(pool, &input.prevout.txid));
    }
    fewest
}

/// The first of A36, A47 and A37 that fails for a transaction without an ancestor, which A47 alone may be.
#[tactic(auto, unfolding(crate::specs::Limits::limit_rules))]
fn check_alone<S: BuildHasher + Copy + Drop>(
    alloc: Global,
    policy: &Policy,
    direct: &DirectConflicts<'_, S>,
    vsize: u64,
) -> Result<Option<Denial>, Memory>
    requires { ancestors_above direct.now.entries direct.now.tx.inputs ≡ [] }
    ensures { IfOk result (λ found. found ≡ first_failing (limit_rules First policy.now direct.now.entries direct.now.tx vsize)) }
{
    policy.recall_bounds();
    if breaks_truc(alloc, policy, direct, &[], vsize)? {
        return Ok(Some(Denial::TrucViolation));
    }
    Ok(None)
}

/// The first of A36, A47 and A37 that fails at a first attempt. A transaction with a parent that has as many ancestors as
/// an entry may have is denied without a walk.
#[tactic(auto, unfolding(crate::specs::Limits::limit_rules))]
fn check_first<S: BuildHasher + Copy + Drop>(
    alloc: Global,
    policy: &Policy,
    direct: &DirectConflicts<'_, S>,
    vsize: u64,
) -> Result<Option<Denial>, Memory>
    ensures { IfOk result (λ found. found ≡ first_failing (limit_rules First policy.now direct.now.entries direct.now.tx vsize)) }
{
    policy.recall_bounds();
    let most = policy.most_ancestors();
    let fewest = fewest_ancestors(direct.pool(), direct.transaction().inputs());
    if fewest == 0 {
        return check_alone(alloc, policy, direct, vsize);
    }
    if fewest >= most as u64 {
        return Ok(Some(Denial::TooLongChain));
    }
    let Some(above) = family_of(alloc, direct, most)? else {
        return Ok(Some(Denial::TooLongChain));
    };
    if !fits_families(policy, direct, &above, vsize) {
        return Ok(Some(Denial::TooLongChain));
    }
    if breaks_truc(alloc, policy, direct, &above.ids, vsize)? {
        return Ok(Some(Denial::TrucViolation));
    }
    if direct.has_one_of(&above.ids) {
        return Ok(Some(Denial::SpendsConflicting));
    }
    Ok(None)
}

/// The first of A36 and A37 that fails for a transaction that is tried again, which A47 asks nothing.
#[tactic(auto, unfolding(crate::specs::Limits::limit_rules))]
fn check_again<S: BuildHasher + Copy + Drop>(
    alloc: Global,
    policy: &Policy,
    direct: &DirectConflicts<'_, S>,
    identified: &Counted<Identified>,
    vsize: u64,
) -> Result<Option<Denial>, Memory>
    requires new { entry_by_txid direct.now.entries (txid_of identified.now) ≡ None }
    requires same { direct.now.tx ≡ identified.now }
    requires least { 1 ≤ vsize }
    requires most { vsize ≤ largest_vsize }
    ensures { IfOk result (λ found. found ≡ first_failing (limit_rules Again policy.now direct.now.entries direct.now.tx vsize)) }
{
    let Some(above) = fits_again(alloc, policy, direct.pool(), identified, vsize)? else {
        return Ok(Some(Denial::TooLongChain));
    };
    if direct.has_one_of(&above) {
        return Ok(Some(Denial::SpendsConflicting));
    }
    Ok(None)
}

/// The first of A36, A47 and A37 that fails at an attempt. No entry has the transaction's id.
pub(crate) fn check_families<S: BuildHasher + Copy + Drop>(
    alloc: Global,
    policy: &Policy,
    attempt: Attempt,
    direct: &DirectConflicts<'_, S>,
    identified: &Counted<Identified>,
    vsize: u64,
) -> Result<Option<Denial>, Memory>
    requires new { entry_by_txid direct.now.entries (txid_of identified.now) ≡ None }
    requires same { direct.now.tx ≡ identified.now }
    requires least { 1 ≤ vsize }
    requires most { vsize ≤ largest_vsize }
    ensures { IfOk result (λ found. found ≡ first_failing (limit_rules attempt policy.now direct.now.entries direct.now.tx vsize)) }
{
    match attempt {
        Attempt::First => check_first(alloc, policy, direct, vsize),
        Attempt::Again => check_again(alloc, policy, direct, identified, vsize),
    }
}
