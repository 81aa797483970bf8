//! Version 3 (TRUC, BIP 431) in packages: A47 of a transaction, and J8 of those that are judged together.
ghost use Rattle.std.specs.Prelude.{◌≡◌, Contains, filter, IfOk};
ghost use Rattle.std.specs.List.{list_any};
ghost use Rattle.gate_tx.specs.Ids.{txid_of};
ghost use Rattle.gate_tx.specs.Tx.{Tx};
ghost use Rattle.gate_pool.specs.Family.{ancestors_above, AreIdsOf, OfThese};
ghost use Rattle.gate_pool.specs.Pool.{Admitted};
ghost use Rattle.gate_standard.specs.Rules.{is_truc};
ghost use Rattle.gate_package.specs.Judging.{breaks_truc_as, is_version_three};
ghost use Rattle.gate_package.specs.Kinship.{another_spends, another_spends_from, breaks_beside, breaks_together, has_below, is_below_truc, is_child_outside, is_outside, is_outside_entry, is_outside_together, is_shared, is_truc_entry, some_breaks, spends_from};
ghost use Rattle.gate_package.specs.Shapes.{names_one};

use crate::role::Role;
use crate::shape::name_one;
use gate_admit::{
    Attempt, Policy, Pool, TRUC_CHILD_VSIZE, TRUC_VSIZE, breaks_truc, sibling_beside,
};
use gate_bytes::Memory;
use gate_diagram::Price;
use gate_pool::ancestors;
use gate_rbf::DirectConflicts;
use gate_standard::is_truc;
use gate_submission::Candidate;
use gate_tx::{Transaction, TxIn, Txid};
use std::alloc::Global;
use std::hash::BuildHasher;

/// Whether a transaction is of version 3, where that is standard.
pub(crate) fn is_version_three(policy: &Policy, tx: &Transaction) -> bool
    ensures { result ≡ is_version_three policy.now tx.now }
{
    policy.truc() && is_truc(tx)
}

/// A47: a member evicts a sibling, and a transaction that is judged with others doesn't.
pub(crate) fn breaks_truc_as<S: BuildHasher + Copy + Drop>(
    alloc: Global,
    policy: &Policy,
    role: Role,
    direct: &DirectConflicts<'_, S>,
    above: &[Txid],
    vsize: u64,
) -> Result<bool, Memory>
    requires { AreIdsOf above.now (ancestors_above direct.now.entries direct.now.tx.inputs) }
    ensures { IfOk result (λ breaks. breaks ≡ breaks_truc_as role policy.now direct.now.entries direct.now.tx vsize) }
{
    if breaks_truc(alloc, policy, direct, above, vsize)? {
        return Ok(true);
    }
    match role {
        Role::Member => Ok(false),
        _ => {
            let sibling = sibling_beside(alloc, policy, Attempt::First, direct)?;
            Ok(sibling.is_some())
        }
    }
}

/// Whether a transaction spends an output of the one with this id.
fn spends_from(tx: &Candidate<'_>, txid: &Txid) -> bool
    ensures { result ≡ spends_from tx.now txid.now }
{
    tx.transaction()
        .inputs()
        .iter()
        .any(|input| input.prevout.txid == *txid)
}

/// Whether a transaction other than the one with the first id spends an output of the one with the second id.
fn another_spends_from(other: &Candidate<'_>, mine: &Txid, txid: &Txid) -> bool
    ensures { result ≡ another_spends_from mine.now txid.now other.now }
{
    if other.txid() == *mine {
        return false;
    }
    spends_from(other, txid)
}

/// Whether another of these than the one with the first id spends from the transaction of the second one.
fn another_spends(these: &[Candidate<'_>], mine: &Txid, txid: &Txid) -> bool
    ensures { result ≡ another_spends these.now mine.now txid.now }
{
    these
        .iter()
        .any(|other| another_spends_from(other, mine, txid))
}

/// Whether another of these spends from the one with the first id, or from its parent, which has the second one.
fn is_shared(these: &[Candidate<'_>], mine: &Txid, parent: &Txid) -> bool
    ensures { result ≡ is_shared these.now mine.now parent.now }
{
    another_spends(these, mine, parent) || another_spends(these, mine, mine)
}

/// Whether a child of this size and this id has a parent of another version, or too large a family, given its parent.
fn is_child_outside(
    these: &[Candidate<'_>],
    mine: &Txid,
    vsize: u64,
    parent: &Transaction,
    parent_id: &Txid,
) -> bool
    requires { txid_of parent.now ≡ parent_id.now }
    ensures { (tx : Tx) → txid_of tx ≡ mine.now → result ≡ is_child_outside these.now tx vsize parent.now }
{
    vsize > TRUC_CHILD_VSIZE || !is_truc(parent) || is_shared(these, mine, parent_id)
}

/// Whether the entry with this id is of version 3.
fn is_truc_entry<S: BuildHasher + Copy + Drop>(pool: &Pool<S>, txid: &Txid) -> bool
    ensures { (a : Admitted) → Contains pool.now.entries a → txid_of a.tx ≡ txid.now → result ≡ is_truc a.tx }
{
    pool.recall_distinct();
    match pool.entry(txid) {
        Some(entry) => is_truc(entry.transaction()),
        None => false,
    }
}

/// Whether one of the entries with these ids is of version 3.
fn has_truc_entry<S: BuildHasher + Copy + Drop>(pool: &Pool<S>, above: &[Txid]) -> bool
    ensures { OfThese pool.now.entries above.now (λ these. result ≡ list_any is_truc_entry these) }
{
    for txid in above {
        if is_truc_entry(pool, txid) {
            return true;
        }
    }
    false
}

/// Whether the entry with this id has a descendant beside itself.
fn has_below<S: BuildHasher + Copy + Drop>(pool: &Pool<S>, txid: &Txid) -> bool
    ensures { (a : Admitted) → Contains pool.now.entries a → txid_of a.tx ≡ txid.now → result ≡ has_below pool.now.entries txid.now }
{
    match pool.totals(txid) {
        Some(totals) => totals.below.count > 1,
        None => false,
    }
}

/// Whether a child of this size and this id, of the entry with this id, is outside a family of version 3.
fn is_outside_entry<S: BuildHasher + Copy + Drop>(
    pool: &Pool<S>,
    these: &[Candidate<'_>],
    mine: &Txid,
    vsize: u64,
    parent: &Txid,
) -> bool
    ensures { (tx : Tx) → txid_of tx ≡ mine.now → (a : Admitted) → Contains pool.now.entries a → txid_of a.tx ≡ parent.now → result ≡ is_outside_entry pool.now.entries these.now tx vsize a }
{
    pool.recall_distinct();
    match pool.entry(parent) {
        Some(entry) => {
            is_child_outside(these, mine, vsize, entry.transaction(), parent)
                || has_below(pool, parent)
        }
        None => false,
    }
}

/// The transactions of these from which one with these inputs spends.
fn parents_among<'a>(
    alloc: Global,
    these: &[Candidate<'a>],
    inputs: &[TxIn],
) -> Result<Vec<Candidate<'a>>, Memory>
    ensures { IfOk result (λ parents. parents.items ≡ filter (names_one inputs.now) these.now) }
{
    let mut parents = Vec::new(alloc);
    for other in these {
        if name_one(inputs, other) {
            parents.push(other.again())?;
        }
    }
    Ok(parents)
}

/// Whether one of version 3 and this size, without an ancestor in the pool and with these parents among those that are
/// judged together with it, has too large a family.
fn is_outside_together(
    these: &[Candidate<'_>],
    tx: &Candidate<'_>,
    vsize: u64,
    parents: &[Candidate<'_>],
) -> bool
    ensures { result ≡ is_outside_together these.now tx.now vsize parents.now }
{
    match parents {
        [] => false,
        [parent] => {
            let parent_id = parent.txid();
            is_child_outside(these, &tx.txid(), vsize, parent.transaction(), &parent_id)
        }
        _ => true,
    }
}

/// Whether one of version 3 and this size, with these ancestors in the pool and these parents among those that are judged
/// together with it, has too large a family.
fn is_outside<S: BuildHasher + Copy + Drop>(
    pool: &Pool<S>,
    these: &[Candidate<'_>],
    tx: &Candidate<'_>,
    vsize: u64,
    above: &[Txid],
    parents: &[Candidate<'_>],
) -> bool
    requires { AreIdsOf above.now (ancestors_above pool.now.entries tx.now.inputs) }
    ensures { result ≡ is_outside pool.now.entries these.now tx.now vsize (ancestors_above pool.now.entries tx.now.inputs) parents.now }
{
    pool.recall_distinct();
    match above {
        [] => is_outside_together(these, tx, vsize, parents),
        [entry] => {
            !parents.is_empty() || is_outside_entry(pool, these, &tx.txid(), vsize, entry)
        }
        _ => true,
    }
}

/// Whether one of these transactions is of version 3.
fn has_truc(these: &[Candidate<'_>]) -> bool
    ensures { result ≡ list_any is_truc these.now }
{
    these.iter().any(|tx| is_truc(tx.transaction()))
}

/// Whether one of the entries with these ids, or one of these parents, is of version 3.
fn is_below_truc<S: BuildHasher + Copy + Drop>(
    pool: &Pool<S>,
    above: &[Txid],
    parents: &[Candidate<'_>],
) -> bool
    ensures { OfThese pool.now.entries above.now (λ these. result ≡ is_below_truc these parents.now) }
{
    has_truc_entry(pool, above) || has_truc(parents)
}

/// Whether one of those that are judged together, of this size, makes no family of version 3 with its ancestors in the
/// pool and with the others.
fn breaks_beside<S: BuildHasher + Copy + Drop>(
    alloc: Global,
    pool: &Pool<S>,
    these: &[Candidate<'_>],
    tx: &Candidate<'_>,
    vsize: u64,
) -> Result<bool, Memory>
    ensures { IfOk result (λ breaks. breaks ≡ breaks_beside pool.now.entries these.now tx.now vsize) }
{
    let transaction = tx.transaction();
    pool.recall_distinct();
    let found = ancestors(alloc, pool, transaction.inputs(), pool.count())?;
    let above = found.unwrap();
    let parents = parents_among(alloc, these, transaction.inputs())?;
    if !is_truc(transaction) {
        return Ok(is_below_truc(pool, above.as_slice(), parents.as_slice()));
    }
    if vsize > TRUC_VSIZE {
        return Ok(true);
    }
    Ok(is_outside(pool, these, tx, vsize, above.as_slice(), parents.as_slice()))
}

/// Whether one of these, each at its price, makes no family of version 3 among all of them.
fn some_breaks<'a, S: BuildHasher + Copy + Drop>(
    alloc: Global,
    pool: &Pool<S>,
    all: &[Candidate<'a>],
    these: &[Candidate<'a>],
    prices: &[Price],
) -> Result<bool, Memory>
    ensures { IfOk result (λ breaks. breaks ≡ some_breaks pool.now.entries all.now these.now prices.now) }
{
    let Some((tx, these)) = these.split_first() else {
        return Ok(false);
    };
    let Some((price, prices)) = prices.split_first() else {
        return Ok(false);
    };
    if breaks_beside(alloc, pool, all, tx, price.vsize)? {
        return Ok(true);
    }
    some_breaks(alloc, pool, all, these, prices)
}

/// J8: whether one of those that are judged together, each at its price, makes no family of version 3.
pub(crate) fn breaks_together<S: BuildHasher + Copy + Drop>(
    alloc: Global,
    policy: &Policy,
    pool: &Pool<S>,
    these: &[Candidate<'_>],
    prices: &[Price],
) -> Result<bool, Memory>
    ensures { IfOk result (λ breaks. breaks ≡ breaks_together policy.now pool.now.entries these.now prices.now) }
{
    if !policy.truc() {
        return Ok(false);
    }
    some_breaks(alloc, pool, these, these, prices)
}
