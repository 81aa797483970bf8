//! Version 3 (TRUC, BIP 431): what a family may be, and the sibling that makes room for a second child.
ghost use Rattle.std.specs.Prelude.{◌≡◌, ◌≢◌, ◌+◌, ◌≤◌, ◌∷◌, [], None, IfOk, IfSome, Contains, find, length, not};
ghost use Rattle.std.specs.List.{list_any};
ghost use Rattle.std.specs.Str.{bytes_eq};
ghost use Rattle.gate_tx.specs.Ids.{txid_of};
ghost use Rattle.gate_pool.specs.Pool.{Admitted};
ghost use Rattle.gate_pool.specs.Family.{ancestors_above, AreIdsOf, OfThese};
ghost use Rattle.gate_pool.specs.Search.{IsEntry};
ghost use Rattle.gate_admit.specs.Truc.{breaks_truc, evictable, is_of_other_kind, is_only_child, is_taken, others_below, sibling_among, sibling_below, sibling_of};
ghost use Rattle.gate_admit.specs.declared.attempt.Attempt.TheVariants.{First};

use crate::attempt::Attempt;
use crate::policy::Policy;
use gate_bytes::Memory;
use gate_pool::{Pool, ancestors, descendants};
use gate_rbf::DirectConflicts;
use gate_standard::is_truc;
use gate_tx::{Transaction, Txid};
use std::alloc::Global;
use std::hash::BuildHasher;

/// The most virtual bytes of a transaction of version 3 (Bitcoin Core's `TRUC_MAX_VSIZE`).
pub const TRUC_VSIZE: u64 = 10_000;

/// The most virtual bytes of one that has a parent in the pool (`TRUC_CHILD_MAX_VSIZE`).
pub const TRUC_CHILD_VSIZE: u64 = 1_000;

/// Whether one of the transaction and the entry with this id is of version 3, and the other isn't.
fn is_of_other_kind<S: BuildHasher + Copy + Drop>(
    pool: &Pool<S>,
    tx: &Transaction,
    txid: &Txid,
) -> bool
    ensures { (a : Admitted) → Contains pool.now.entries a → txid_of a.tx ≡ txid.now → result ≡ is_of_other_kind tx.now a }
{
    pool.recall_distinct();
    match pool.entry(txid) {
        Some(entry) => if is_truc(tx) {
            !is_truc(entry.transaction())
        } else {
            is_truc(entry.transaction())
        },
        None => false,
    }
}

/// Whether one of these entries is of version 3 and the transaction isn't, or the other way round.
fn has_other_kind<S: BuildHasher + Copy + Drop>(
    pool: &Pool<S>,
    tx: &Transaction,
    above: &[Txid],
) -> bool
    ensures { OfThese pool.now.entries above.now (λ these. result ≡ list_any (is_of_other_kind tx.now) these) }
{
    for txid in above {
        if is_of_other_kind(pool, tx, txid) {
            return true;
        }
    }
    false
}

/// How many entries are below the entry with this id, itself among them.
fn count_below<S: BuildHasher + Copy + Drop>(pool: &Pool<S>, txid: &Txid) -> u64
    requires { IsEntry pool.now.entries txid.now }
    ensures { result ≡ length (others_below pool.now.entries txid.now) + 1 }
{
    pool.recall_distinct();
    pool.totals(txid).unwrap().below.count
}

/// The first of these ids that is another than this one.
fn first_other(ids: &[Txid], txid: &Txid) -> Option<Txid>
    ensures { result ≡ find (λ id. not (bytes_eq id txid.now)) ids.now }
{
    ids.iter().copied().find(|id| *id != *txid)
}

/// The id of the only entry below the entry with this id, beside itself; None if there is none, or more than one.
fn only_below<S: BuildHasher + Copy + Drop>(
    alloc: Global,
    pool: &Pool<S>,
    txid: &Txid,
) -> Result<Option<Txid>, Memory>
    requires { IsEntry pool.now.entries txid.now }
    ensures one { IfOk result (λ found. IfSome found (λ id. (s : Admitted) × (others_below pool.now.entries txid.now ≡ s ∷ []) × (txid_of s.tx ≡ id))) }
    ensures other { IfOk result (λ found. found ≡ None → (s : Admitted) → others_below pool.now.entries txid.now ≢ s ∷ []) }
{
    if count_below(pool, txid) != 2 {
        return Ok(None);
    }
    pool.recall_distinct();
    let found = descendants(alloc, pool, &[*txid], pool.count())?;
    let below = found.unwrap();
    Ok(first_other(&below, txid))
}

/// Whether the entry with this id has exactly one ancestor beside itself, and no descendant.
fn is_only_child<S: BuildHasher + Copy + Drop>(pool: &Pool<S>, txid: &Txid) -> bool
    ensures { result ≡ is_only_child pool.now.entries txid.now }
{
    match pool.totals(txid) {
        Some(totals) => (totals.above.count == 2) & (totals.below.count == 1),
        None => false,
    }
}

/// The only entry below the entry with this id, beside itself, if it has one ancestor beside itself.
fn evictable<S: BuildHasher + Copy + Drop>(
    alloc: Global,
    pool: &Pool<S>,
    txid: &Txid,
) -> Result<Option<Txid>, Memory>
    requires { IsEntry pool.now.entries txid.now }
    ensures { IfOk result (λ found. found ≡ evictable pool.now.entries (others_below pool.now.entries txid.now)) }
{
    let Some(other) = only_below(alloc, pool, txid)? else {
        return Ok(None);
    };
    if !is_only_child(pool, &other) {
        return Ok(None);
    }
    Ok(Some(other))
}

/// The sibling below the only ancestor, which has this id: none if a child of it is a direct conflict.
fn sibling_below<S: BuildHasher + Copy + Drop>(
    alloc: Global,
    direct: &DirectConflicts<'_, S>,
    parent: &Txid,
) -> Result<Option<Txid>, Memory>
    requires { IsEntry direct.now.entries parent.now }
    ensures { IfOk result (λ found. found ≡ sibling_below direct.now.entries direct.now.tx parent.now) }
{
    if direct.has_child_of(parent) {
        return Ok(None);
    }
    evictable(alloc, direct.pool(), parent)
}

/// Whether the only ancestor, which has this id, has a descendant that doesn't make room, and no child of it is a direct
/// conflict.
fn is_taken<S: BuildHasher + Copy + Drop>(
    alloc: Global,
    direct: &DirectConflicts<'_, S>,
    parent: &Txid,
) -> Result<bool, Memory>
    requires { IsEntry direct.now.entries parent.now }
    ensures { IfOk result (λ taken. taken ≡ is_taken direct.now.entries direct.now.tx parent.now) }
{
    if count_below(direct.pool(), parent) == 1 {
        return Ok(false);
    }
    if direct.has_child_of(parent) {
        return Ok(false);
    }
    let found = evictable(alloc, direct.pool(), parent)?;
    Ok(found.is_none())
}

/// A47: whether a transaction of this size, with these ancestors in the pool, is above or below another version, or is of
/// version 3 and too large, or its family is too large.
pub fn breaks_truc<S: BuildHasher + Copy + Drop>(
    alloc: Global,
    policy: &Policy,
    direct: &DirectConflicts<'_, S>,
    above: &[Txid],
    vsize: u64,
) -> Result<bool, Memory>
    requires { AreIdsOf above.now (ancestors_above direct.now.entries direct.now.tx.inputs) }
    ensures { IfOk result (λ breaks. breaks ≡ breaks_truc First policy.now direct.now.entries direct.now.tx vsize) }
{
    if !policy.truc() {
        return Ok(false);
    }
    let pool = direct.pool();
    pool.recall_distinct();
    let tx = direct.transaction();
    if has_other_kind(pool, tx, above) {
        return Ok(true);
    }
    if !is_truc(tx) {
        return Ok(false);
    }
    let Some(parent) = above.first() else {
        return Ok(vsize > TRUC_VSIZE);
    };
    if above.len() > 1 {
        return Ok(true);
    }
    if vsize > TRUC_CHILD_VSIZE {
        return Ok(true);
    }
    is_taken(alloc, direct, parent)
}

/// The sibling below the only ancestor of the transaction, whose ancestors these are; None if it has none.
fn sibling_among<S: BuildHasher + Copy + Drop>(
    alloc: Global,
    direct: &DirectConflicts<'_, S>,
    above: &[Txid],
) -> Result<Option<Txid>, Memory>
    requires ids { AreIdsOf above.now (ancestors_above direct.now.entries direct.now.tx.inputs) }
    requires few { length above.now ≤ 1 }
    ensures { IfOk result (λ found. found ≡ sibling_among direct.now.entries direct.now.tx (ancestors_above direct.now.entries direct.now.tx.inputs)) }
{
    direct.pool().recall_distinct();
    match above.first() {
        Some(parent) => sibling_below(alloc, direct, parent),
        None => Ok(None),
    }
}

/// The sibling below the only ancestor of the transaction; None if it has none, or more than one.
fn find_sibling<S: BuildHasher + Copy + Drop>(
    alloc: Global,
    direct: &DirectConflicts<'_, S>,
) -> Result<Option<Txid>, Memory>
    ensures { IfOk result (λ found. found ≡ sibling_among direct.now.entries direct.now.tx (ancestors_above direct.now.entries direct.now.tx.inputs)) }
{
    let inputs = direct.transaction().inputs();
    let Some(above) = ancestors(alloc, direct.pool(), inputs, 1)? else {
        return Ok(None);
    };
    sibling_among(alloc, direct, &above)
}

/// The id of the entry that the transaction evicts at an attempt, if no rule denies it: only one of version 3 does, where
/// that is standard.
pub fn sibling_beside<S: BuildHasher + Copy + Drop>(
    alloc: Global,
    policy: &Policy,
    attempt: Attempt,
    direct: &DirectConflicts<'_, S>,
) -> Result<Option<Txid>, Memory>
    ensures { IfOk result (λ found. found ≡ sibling_of attempt policy.now direct.now.entries direct.now.tx) }
{
    match attempt {
        Attempt::First => {
            if !policy.truc() {
                return Ok(None);
            }
            if !is_truc(direct.transaction()) {
                return Ok(None);
            }
            find_sibling(alloc, direct)
        }
        Attempt::Again => Ok(None),
    }
}

/// Whether A47 denies a transaction of this size at its first attempt.
pub fn is_truc_violation<S: BuildHasher + Copy + Drop>(
    alloc: Global,
    policy: &Policy,
    pool: &Pool<S>,
    tx: &Transaction,
    vsize: u64,
) -> Result<bool, Memory>
    ensures { IfOk result (λ breaks. breaks ≡ breaks_truc First policy.now pool.now.entries tx.now vsize) }
{
    if !policy.truc() {
        return Ok(false);
    }
    let direct = DirectConflicts::find(alloc, pool, tx)?;
    let found = ancestors(alloc, pool, tx.inputs(), pool.count())?;
    let above = found.unwrap();
    breaks_truc(alloc, policy, &direct, above.as_slice(), vsize)
}

/// The id of the sibling of a transaction, which leaves if the transaction is granted: its parent of version 3 has one
/// other descendant, and that has no other ancestor. Only a transaction of version 3 has one, where that is standard, and
/// none of which a direct conflict spends from the parent.
pub fn sibling<S: BuildHasher + Copy + Drop>(
    alloc: Global,
    policy: &Policy,
    pool: &Pool<S>,
    tx: &Transaction,
) -> Result<Option<Txid>, Memory>
    ensures { IfOk result (λ found. found ≡ sibling_of First policy.now pool.now.entries tx.now) }
{
    if !policy.truc() {
        return Ok(None);
    }
    if !is_truc(tx) {
        return Ok(None);
    }
    let direct = DirectConflicts::find(alloc, pool, tx)?;
    find_sibling(alloc, &direct)
}
