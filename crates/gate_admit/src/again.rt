//! Families of a transaction that is tried again, which has limits of its own in place of A36's.
ghost use Rattle.std.specs.Prelude.{◌≡◌, ◌≤◌, Bool, IsTrue, true, false, None, [], IfOk, IfSome, is_some, filter, Contains};
ghost use Rattle.std.specs.List.{list_all, list_any};
ghost use Rattle.std.specs.Str.{bytes_eq};
ghost use Rattle.gate_tx.specs.Ids.{txid_of};
ghost use Rattle.gate_pool.specs.Pool.{Admitted, entry_by_txid, largest_vsize};
ghost use Rattle.gate_pool.specs.Search.{IsEntry, AreEntries};
ghost use Rattle.gate_pool.specs.Family.{names, children_of, ancestors_above, AreIdsOf, OfThese};
ghost use Rattle.gate_admit.specs.Chains.{AddsNoChain, LeadsToAll, ParentsLeadToAll};
ghost use Rattle.gate_admit.specs.Policies.{most_descendants_size};
ghost use Rattle.gate_admit.specs.Limits.{is_limited, are_limited, fits_within, all_fit_within, fits_again, has_parent, LeavesRoomBelow, LeavesRoomAbove};

use crate::joining::{Joined, names};
use crate::limits::FamilyLimits;
use crate::policy::Policy;
use gate_bytes::{Copied, Counted, Memory};
use gate_pool::{Entry, FamilyView, Pool, add_up, ancestors, ancestors_with, descendants};
use gate_tx::{Identified, TxIn, Txid};
use std::alloc::Global;
use std::hash::BuildHasher;

/// Whether the family of an entry is within the limits.
fn is_limited<V: FamilyView>(
    alloc: Global,
    policy: &Policy,
    pool: &V,
    txid: &Txid,
) -> Result<bool, Memory>
    requires { IsEntry (V.entries pool.now) txid.now }
    ensures { IfOk result (λ limited. limited ≡ is_limited policy.now (V.entries pool.now) txid.now) }
{
    let (most_above, most_below) = (policy.most_ancestors(), policy.most_descendants());
    let Some(above) = ancestors_with(alloc, pool, txid, most_above)? else {
        return Ok(false);
    };
    let Some(below) = descendants(alloc, pool, &[*txid], most_below)? else {
        return Ok(false);
    };
    let (above, below) = (add_up(pool, &above), add_up(pool, &below));
    let wide = u128::from(policy.ancestors_size());
    let deep = u128::from(policy.most_descendants_size());
    Ok(
        (above.count <= most_above as u64)
            & (above.size <= wide)
            & (below.count <= most_below as u64)
            & (below.size <= deep),
    )
}

/// Whether the families of all these entries are within the limits.
fn all_limited<V: FamilyView>(
    alloc: Global,
    policy: &Policy,
    pool: &V,
    txids: &[Txid],
) -> Result<bool, Memory>
    requires { AreEntries (V.entries pool.now) txids.now }
    ensures { OfThese (V.entries pool.now) txids.now (λ these. IfOk result (λ limited. limited ≡ are_limited policy.now (V.entries pool.now) these)) }
{
    for txid in txids {
        if !is_limited(alloc, policy, pool, txid)? {
            return Ok(false);
        }
    }
    Ok(true)
}

/// The ids of a newcomer's ancestors in the pool if it fits: the families that it would join are within the limits with
/// it, and it isn't among its own ancestors. None if it doesn't fit. Each family is walked with the newcomer beside the
/// pool.
fn fits_among_others<V: FamilyView>(
    alloc: Global,
    policy: &Policy,
    pool: &V,
    newcomer: &Entry,
) -> Result<Option<Vec<Txid>>, Memory>
    requires new { entry_by_txid (V.entries pool.now) (txid_of newcomer.now.tx) ≡ None }
    requires plain { newcomer.now ≡ record { tx = newcomer.now.tx; fee = 0; vsize = newcomer.now.vsize; time = 0 } }
    ensures fits { IfOk result (λ found. is_some found ≡ fits_again policy.now (V.entries pool.now) newcomer.now.tx newcomer.now.vsize) }
    ensures above { IfOk result (λ found. IfSome found (λ ids. AreIdsOf ids.items (ancestors_above (V.entries pool.now) newcomer.now.tx.inputs))) }
{
    let joined = Joined::new(pool, newcomer);
    joined.recall_apart();
    let txid = newcomer.txid();
    let inputs = newcomer.transaction().inputs();
    let Some(above) = ancestors(alloc, &joined, inputs, policy.most_ancestors())? else {
        return Ok(None);
    };
    if above.contains(&txid) || !all_limited(alloc, policy, &joined, &above)? {
        return Ok(None);
    }
    let Some(below) = descendants(alloc, &joined, &[txid], policy.most_descendants())? else {
        return Ok(None);
    };
    if !all_limited(alloc, policy, &joined, &below)? {
        return Ok(None);
    }
    Ok(Some(above))
}

/// Whether the ancestors and the descendants of the entry with this id are within these limits, by the totals that the
/// pool keeps.
fn fits_within<S: BuildHasher + Copy + Drop>(
    pool: &Pool<S>,
    txid: &Txid,
    limits: FamilyLimits,
) -> bool
    ensures { (a : Admitted) → Contains pool.now.entries a → txid_of a.tx ≡ txid.now → result ≡ fits_within limits pool.now.entries (txid_of a.tx) }
{
    match pool.totals(txid) {
        Some(totals) => {
            (totals.above.count <= limits.ancestors as u64)
                & (totals.above.size <= limits.ancestors_size)
                & (totals.below.count <= limits.descendants as u64)
                & (totals.below.size <= limits.descendants_size)
        }
        None => true,
    }
}

/// Whether the ancestors and the descendants of each of these entries are within these limits, by the totals that the
/// pool keeps.
fn all_fit_within<S: BuildHasher + Copy + Drop>(
    pool: &Pool<S>,
    txids: &[Txid],
    limits: FamilyLimits,
) -> bool
    ensures { OfThese pool.now.entries txids.now (λ these. result ≡ all_fit_within limits pool.now.entries these) }
{
    for txid in txids {
        if !fits_within(pool, txid, limits) {
            return false;
        }
    }
    true
}

/// The limits that a newcomer of this size leaves to its ancestors: each gains it as a descendant.
fn limits_above(policy: &Policy, vsize: u128) -> FamilyLimits
    requires { vsize ≤ most_descendants_size policy.now }
    ensures { LeavesRoomBelow policy.now vsize result }
{
    FamilyLimits {
        ancestors: policy.most_ancestors(),
        ancestors_size: u128::from(policy.ancestors_size()),
        descendants: policy.most_descendants() - 1,
        descendants_size: u128::from(policy.most_descendants_size()) - vsize,
    }
}

/// The limits that a newcomer of this size leaves to its descendants: each gains it as an ancestor.
fn limits_below(policy: &Policy, vsize: u128) -> FamilyLimits
    requires { vsize ≤ policy.now.ancestors_size }
    ensures { LeavesRoomAbove policy.now vsize result }
{
    FamilyLimits {
        ancestors: policy.most_ancestors() - 1,
        ancestors_size: u128::from(policy.ancestors_size()) - vsize,
        descendants: policy.most_descendants(),
        descendants_size: u128::from(policy.most_descendants_size()),
    }
}

/// What `fits_among_others` finds for a newcomer of which no entry spends an output: the totals of its ancestors
/// decide.
fn fits_as_leaf<S: BuildHasher + Copy + Drop>(
    alloc: Global,
    policy: &Policy,
    pool: &Pool<S>,
    newcomer: &Entry,
) -> Result<Option<Vec<Txid>>, Memory>
    requires new { entry_by_txid pool.now.entries (txid_of newcomer.now.tx) ≡ None }
    requires plain { newcomer.now ≡ record { tx = newcomer.now.tx; fee = 0; vsize = newcomer.now.vsize; time = 0 } }
    requires own { names newcomer.now (txid_of newcomer.now.tx) ≡ false }
    requires childless { children_of pool.now.entries (txid_of newcomer.now.tx) ≡ [] }
    ensures fits { IfOk result (λ found. is_some found ≡ fits_again policy.now pool.now.entries newcomer.now.tx newcomer.now.vsize) }
    ensures above { IfOk result (λ found. IfSome found (λ ids. AreIdsOf ids.items (ancestors_above pool.now.entries newcomer.now.tx.inputs))) }
{
    pool.recall_apart();
    let inputs = newcomer.transaction().inputs();
    let Some(above) = ancestors(alloc, pool, inputs, policy.most_ancestors() - 1)? else {
        return Ok(None);
    };
    let vsize = u128::from(newcomer.vsize());
    let most_above = u128::from(policy.ancestors_size());
    if add_up(pool, &above).size + vsize > most_above {
        return Ok(None);
    }
    let most_below = u128::from(policy.most_descendants_size());
    if vsize > most_below {
        return Ok(None);
    }
    if !all_fit_within(pool, &above, limits_above(policy, vsize)) {
        return Ok(None);
    }
    Ok(Some(above))
}

/// Whether the newcomer spends an output of an entry of the pool.
fn has_parent<S: BuildHasher + Copy + Drop>(pool: &Pool<S>, newcomer: &Entry) -> bool
    ensures { result ≡ has_parent pool.now.entries newcomer.now.tx }
{
    newcomer
        .transaction()
        .inputs()
        .iter()
        .any(|input| pool.entry(&input.prevout.txid).is_some())
}

/// Whether a newcomer fits that spends no output of an entry and has these children in the pool: the totals of its
/// descendants decide.
fn fits_as_root<S: BuildHasher + Copy + Drop>(
    alloc: Global,
    policy: &Policy,
    pool: &Pool<S>,
    newcomer: &Entry,
    children: &[Txid],
) -> Result<bool, Memory>
    requires new { entry_by_txid pool.now.entries (txid_of newcomer.now.tx) ≡ None }
    requires plain { newcomer.now ≡ record { tx = newcomer.now.tx; fee = 0; vsize = newcomer.now.vsize; time = 0 } }
    requires own { names newcomer.now (txid_of newcomer.now.tx) ≡ false }
    requires orphan { has_parent pool.now.entries newcomer.now.tx ≡ false }
    requires children { AreIdsOf children.now (children_of pool.now.entries (txid_of newcomer.now.tx)) }
    ensures { IfOk result (λ fits. fits ≡ fits_again policy.now pool.now.entries newcomer.now.tx newcomer.now.vsize) }
{
    pool.recall_apart();
    let vsize = u128::from(newcomer.vsize());
    let most_above = u128::from(policy.ancestors_size());
    if vsize > most_above {
        return Ok(false);
    }
    let most = policy.most_descendants() - 1;
    let Some(below) = descendants(alloc, pool, children, most)? else {
        return Ok(false);
    };
    let most_below = u128::from(policy.most_descendants_size());
    if add_up(pool, &below).size + vsize > most_below {
        return Ok(false);
    }
    Ok(all_fit_within(pool, &below, limits_below(policy, vsize)))
}

/// Whether all these ids were found.
fn has_each(found: &[Txid], txids: &[Txid]) -> bool
    ensures { result ≡ list_all (λ txid. list_any (λ y. bytes_eq y txid) found.now) txids.now }
{
    txids.iter().all(|txid| found.contains(txid))
}

/// Whether all these ids are below an entry, if an id is one's. It may say no if more are below it than the limits
/// allow.
fn is_above_all<S: BuildHasher + Copy + Drop>(
    alloc: Global,
    policy: &Policy,
    pool: &Pool<S>,
    parent: &Txid,
    txids: &[Txid],
) -> Result<bool, Memory>
    ensures { IfOk result (λ all. IsTrue all → IsEntry pool.now.entries parent.now → LeadsToAll pool.now.entries txids.now parent.now) }
{
    match pool.entry(parent) {
        Some(_entry) => {
            let most = policy.most_descendants();
            let Some(below) = descendants(alloc, pool, &[*parent], most)? else {
                return Ok(false);
            };
            Ok(has_each(&below, txids))
        }
        None => Ok(true),
    }
}

/// Whether the newcomer, of which these entries spend outputs, adds no chain between entries. It may say no if an entry
/// has more descendants than the limits allow.
fn adds_no_chain<S: BuildHasher + Copy + Drop>(
    alloc: Global,
    policy: &Policy,
    pool: &Pool<S>,
    inputs: &[TxIn],
    children: &[Txid],
) -> Result<bool, Memory>
    ensures { IfOk result (λ none. IsTrue none → ParentsLeadToAll pool.now.entries children.now inputs.now) }
{
    for input in inputs {
        if !is_above_all(alloc, policy, pool, &input.prevout.txid, children)? {
            return Ok(false);
        }
    }
    Ok(true)
}

/// What `fits_among_others` finds for a newcomer that adds no chain between entries and has these children in the pool:
/// each of its ancestors gains it alone as a descendant, and each of its descendants gains it alone as an ancestor, so
/// that the totals that the pool keeps decide.
fn fits_between<S: BuildHasher + Copy + Drop>(
    alloc: Global,
    policy: &Policy,
    pool: &Pool<S>,
    newcomer: &Entry,
    children: &[Txid],
) -> Result<Option<Vec<Txid>>, Memory>
    requires new { entry_by_txid pool.now.entries (txid_of newcomer.now.tx) ≡ None }
    requires plain { newcomer.now ≡ record { tx = newcomer.now.tx; fee = 0; vsize = newcomer.now.vsize; time = 0 } }
    requires own { names newcomer.now (txid_of newcomer.now.tx) ≡ false }
    requires children { AreIdsOf children.now (children_of pool.now.entries (txid_of newcomer.now.tx)) }
    requires adds { AddsNoChain pool.now.entries newcomer.now.tx }
    ensures fits { IfOk result (λ found. is_some found ≡ fits_again policy.now pool.now.entries newcomer.now.tx newcomer.now.vsize) }
    ensures above { IfOk result (λ found. IfSome found (λ ids. AreIdsOf ids.items (ancestors_above pool.now.entries newcomer.now.tx.inputs))) }
{
    let joined = Joined::new(pool, newcomer);
    joined.recall_apart();
    let txid = newcomer.txid();
    let inputs = newcomer.transaction().inputs();
    let Some(above) = ancestors(alloc, &joined, inputs, policy.most_ancestors())? else {
        return Ok(None);
    };
    if above.contains(&txid) {
        return Ok(None);
    }
    if !is_limited(alloc, policy, &joined, &txid)? {
        return Ok(None);
    }
    let Some(below) = descendants(alloc, pool, children, policy.most_descendants())? else {
        return Ok(None);
    };
    let vsize = u128::from(newcomer.vsize());
    let above_fit = all_fit_within(pool, &above, limits_above(policy, vsize));
    let below_fit = all_fit_within(pool, &below, limits_below(policy, vsize));
    let fits = above_fit & below_fit;
    if !fits {
        return Ok(None);
    }
    Ok(Some(above))
}

/// What `fits_among_others` finds. If the newcomer has no ancestor or no descendant in the pool, or adds no chain between
/// entries, the totals that the pool keeps decide.
fn fits_with<S: BuildHasher + Copy + Drop>(
    alloc: Global,
    policy: &Policy,
    pool: &Pool<S>,
    newcomer: &Entry,
) -> Result<Option<Vec<Txid>>, Memory>
    requires new { entry_by_txid pool.now.entries (txid_of newcomer.now.tx) ≡ None }
    requires plain { newcomer.now ≡ record { tx = newcomer.now.tx; fee = 0; vsize = newcomer.now.vsize; time = 0 } }
    ensures fits { IfOk result (λ found. is_some found ≡ fits_again policy.now pool.now.entries newcomer.now.tx newcomer.now.vsize) }
    ensures above { IfOk result (λ found. IfSome found (λ ids. AreIdsOf ids.items (ancestors_above pool.now.entries newcomer.now.tx.inputs))) }
{
    let txid = newcomer.txid();
    if names(newcomer, &txid) {
        return Ok(None);
    }
    let children = pool.children(alloc, &txid)?;
    if children.is_empty() {
        return fits_as_leaf(alloc, policy, pool, newcomer);
    }
    if has_parent(pool, newcomer) {
        let inputs = newcomer.transaction().inputs();
        if adds_no_chain(alloc, policy, pool, inputs, &children)? {
            return fits_between(alloc, policy, pool, newcomer, &children);
        }
        return fits_among_others(alloc, policy, pool, newcomer);
    }
    if !fits_as_root(alloc, policy, pool, newcomer, &children)? {
        return Ok(None);
    }
    Ok(Some(Vec::new(alloc)))
}

/// The ids of a transaction's ancestors in the pool if it fits: with this size, in virtual bytes, the families that it
/// would join are within the limits, and it isn't among its own ancestors. None if it doesn't fit.
pub(crate) fn fits_again<S: BuildHasher + Copy + Drop>(
    alloc: Global,
    policy: &Policy,
    pool: &Pool<S>,
    identified: &Counted<Identified>,
    vsize: u64,
) -> Result<Option<Vec<Txid>>, Memory>
    requires new { entry_by_txid pool.now.entries (txid_of identified.now) ≡ None }
    requires least { 1 ≤ vsize }
    requires most { vsize ≤ largest_vsize }
    ensures fits { IfOk result (λ found. is_some found ≡ fits_again policy.now pool.now.entries identified.now vsize) }
    ensures above { IfOk result (λ found. IfSome found (λ ids. AreIdsOf ids.items (ancestors_above pool.now.entries identified.now.inputs))) }
{
    let newcomer = Entry::new(identified.copy(alloc)?, 0, vsize, 0);
    let found = fits_with(alloc, policy, pool, &newcomer);
    drop(newcomer);
    found
}
