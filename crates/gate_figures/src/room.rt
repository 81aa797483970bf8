//! Whether a transaction has room beside its families, keeps to those of version 3, and doesn't descend from what it would
//! replace: A36, A47 and A37.
ghost use Rattle.std.specs.Prelude.{◌≡◌, ◌<◌, ◌≤◌, ◌^◌, None, IfOk, IfSome, length, max, Contains};
ghost use Rattle.std.specs.List.{list_all};
ghost use Rattle.gate_bytes.specs.Order.{first_failing};
ghost use Rattle.gate_tx.specs.Ids.{txid_of};
ghost use Rattle.gate_pool.specs.Pool.{Admitted};
ghost use Rattle.gate_pool.specs.Family.{ancestors_above, conflicts_of, sums_of, AreIdsOf, OfThese};
ghost use Rattle.gate_admit.specs.Limits.{usual_limits, grown, is_within, fits_families, has_room_below, has_second_try, limit_rules};
ghost use Rattle.gate_admit.specs.declared.attempt.Attempt.TheVariants.{First};
ghost use Rattle.gate_figures.specs.Rooms.{limits_by};

use gate_admit::{CARVE_OUT_VSIZE, Policy, Pool, is_truc_violation};
use gate_bytes::Memory;
use gate_pool::{Above, family_above};
use gate_rbf::DirectConflicts;
use gate_standard::{Denial, is_truc};
use gate_tx::{Transaction, Txid};
use std::alloc::Global;
use std::hash::BuildHasher;

/// How many ancestors a transaction may have, itself among them, and how many descendants each of these, with the most virtual
/// bytes of each.
#[derive(Clone, Copy)]
pub(crate) struct Room {
    pub(crate) ancestors: usize,
    pub(crate) ancestors_size: u128,
    pub(crate) descendants: usize,
    pub(crate) descendants_size: u128,
}

/// The room of the first try, before it grows for a replacement.
fn usual_room(policy: &Policy) -> Room
    ensures { limits_by result ≡ usual_limits policy.now }
{
    Room {
        ancestors: policy.ancestors(),
        ancestors_size: u128::from(policy.ancestors_size()),
        descendants: policy.descendants(),
        descendants_size: u128::from(policy.descendants_size()),
    }
}

/// The room of the first try: that of descendants grows if the transaction conflicts with exactly one entry.
fn first_room<S: BuildHasher + Copy + Drop>(
    policy: &Policy,
    direct: &DirectConflicts<'_, S>,
) -> Room
    ensures limits { limits_by result ≡ grown direct.now.entries (conflicts_of direct.now.entries direct.now.tx) (usual_limits policy.now) }
    ensures small { result.descendants_size < 2 ^ 101 }
    ensures few { result.descendants ≤ 1001 }
{
    policy.recall_bounds();
    let usual = usual_room(policy);
    let Some(conflict) = direct.only() else {
        return usual;
    };
    match direct.pool().totals(&conflict) {
        Some(totals) => Room {
            descendants: usual.descendants + 1,
            descendants_size: usual.descendants_size + totals.below.size,
            ..usual
        },
        None => usual,
    }
}

/// Whether a transaction of this size can join the descendants of the entry with this id.
fn has_room_below<S: BuildHasher + Copy + Drop>(
    pool: &Pool<S>,
    txid: &Txid,
    vsize: u64,
    room: Room,
) -> bool
    ensures { (a : Admitted) → Contains pool.now.entries a → txid_of a.tx ≡ txid.now → result ≡ has_room_below (limits_by room) pool.now.entries vsize a }
{
    match pool.totals(txid) {
        Some(totals) => {
            let size = totals.below.size + u128::from(vsize);
            (totals.below.count < room.descendants as u64) & (size <= room.descendants_size)
        }
        None => true,
    }
}

/// Whether a transaction of this size can join the descendants of each of these entries.
fn each_has_room<S: BuildHasher + Copy + Drop>(
    pool: &Pool<S>,
    above: &[Txid],
    vsize: u64,
    room: Room,
) -> bool
    ensures { OfThese pool.now.entries above.now (λ these. result ≡ list_all (has_room_below (limits_by room) pool.now.entries vsize) these) }
{
    for txid in above {
        if !has_room_below(pool, txid, vsize, room) {
            return false;
        }
    }
    true
}

/// Whether a transaction of this size with these ancestors fits.
fn is_within<S: BuildHasher + Copy + Drop>(
    pool: &Pool<S>,
    above: &Above,
    vsize: u64,
    room: Room,
) -> bool
    requires { above.now.sums.size < 2 ^ 100 }
    ensures { OfThese pool.now.entries above.now.ids.items (λ these. above.now.sums ≡ sums_of these → result ≡ is_within (limits_by room) pool.now.entries these vsize) }
{
    let sums = above.sums;
    if sums.count >= room.ancestors as u64 {
        return false;
    }
    if sums.count > 0 && sums.size + u128::from(vsize) > room.ancestors_size {
        return false;
    }
    each_has_room(pool, &above.ids, vsize, room)
}

/// Whether a transaction of this size has a second try: a small one, unless it is of version 3.
pub(crate) fn has_second_try(tx: &Transaction, vsize: u64) -> bool
    ensures { result ≡ has_second_try tx.now vsize }
{
    vsize <= CARVE_OUT_VSIZE && !is_truc(tx)
}

/// Whether one of the two tries of A36 succeeds; not every transaction has a second one.
fn fits_families<S: BuildHasher + Copy + Drop>(
    policy: &Policy,
    direct: &DirectConflicts<'_, S>,
    above: &Above,
    vsize: u64,
) -> bool
    requires ids { AreIdsOf above.now.ids.items (ancestors_above direct.now.entries direct.now.tx.inputs) }
    requires sums { above.now.sums ≡ sums_of (ancestors_above direct.now.entries direct.now.tx.inputs) }
    requires small { above.now.sums.size < 2 ^ 100 }
    ensures { result ≡ fits_families policy.now direct.now.entries direct.now.tx vsize }
{
    let pool = direct.pool();
    let room = first_room(policy, direct);
    if is_within(pool, above, vsize, room) {
        return true;
    }
    if !has_second_try(direct.transaction(), vsize) {
        return false;
    }
    let carved_out = Room {
        ancestors: 2,
        descendants: room.descendants + 1,
        descendants_size: room.descendants_size + u128::from(CARVE_OUT_VSIZE),
        ..room
    };
    is_within(pool, above, vsize, carved_out)
}

/// The transaction's ancestors in the pool and their totals. None if there are more than `most`.
fn family_of<S: BuildHasher + Copy + Drop>(
    alloc: Global,
    direct: &DirectConflicts<'_, S>,
    most: usize,
) -> Result<Option<Above>, Memory>
    ensures ids { IfOk result (λ found. IfSome found (λ above. AreIdsOf above.ids.items (ancestors_above direct.now.entries direct.now.tx.inputs))) }
    ensures sums { IfOk result (λ found. IfSome found (λ above. above.sums ≡ sums_of (ancestors_above direct.now.entries direct.now.tx.inputs))) }
    ensures small { IfOk result (λ found. IfSome found (λ above. above.sums.size < 2 ^ 100)) }
    ensures many { IfOk result (λ found. found ≡ None → most < length (ancestors_above direct.now.entries direct.now.tx.inputs)) }
{
    let inputs = direct.transaction().inputs();
    let found = family_above(alloc, direct.pool(), inputs, most)?;
    Ok(found)
}

/// The most ancestors that an entry may have, itself among them: a second try allows one parent under every policy.
fn most_ancestors(policy: &Policy) -> usize
    ensures { result ≡ max policy.now.ancestors 2 }
{
    policy.ancestors().max(2)
}

/// The first of A36, A47 and A37 that fails beside these conflicts.
#[tactic(auto, unfolding(gate_admit::specs::Limits::limit_rules))]
fn denial_beside<S: BuildHasher + Copy + Drop>(
    alloc: Global,
    policy: &Policy,
    direct: &DirectConflicts<'_, S>,
    vsize: u64,
) -> Result<Option<Denial>, Memory>
    ensures { IfOk result (λ found. found ≡ first_failing (limit_rules First policy.now direct.now.entries direct.now.tx vsize)) }
{
    let most = most_ancestors(policy);
    let Some(above) = family_of(alloc, direct, most)? else {
        return Ok(Some(Denial::TooLongChain));
    };
    if !fits_families(policy, direct, &above, vsize) {
        return Ok(Some(Denial::TooLongChain));
    }
    if is_truc_violation(alloc, policy, direct.pool(), direct.transaction(), vsize)? {
        return Ok(Some(Denial::TrucViolation));
    }
    if direct.has_one_of(&above.ids) {
        return Ok(Some(Denial::SpendsConflicting));
    }
    Ok(None)
}

/// The first of A36, A47 and A37 that fails for a transaction of this size.
pub(crate) fn limits_denial<S: BuildHasher + Copy + Drop>(
    alloc: Global,
    policy: &Policy,
    pool: &Pool<S>,
    tx: &Transaction,
    vsize: u64,
) -> Result<Option<Denial>, Memory>
    ensures { IfOk result (λ found. found ≡ first_failing (limit_rules First policy.now pool.now.entries tx.now vsize)) }
{
    let direct = DirectConflicts::find(alloc, pool, tx)?;
    denial_beside(alloc, policy, &direct, vsize)
}
