//! Families over any view of a pool: found by walking from entry to entry, so that no search goes through the pool.
ghost use Rattle.std.specs.Prelude.{◌≡◌, ◌<◌, ◌^◌, ◌≤◌, None, [], ◌∷◌, IfOk, IfSome, OnOk, length, vec_len};
ghost use Rattle.std.specs.List.{list_any};
ghost use Rattle.std.specs.Str.{bytes_eq};
ghost use Rattle.gate_tx.specs.Ids.{txid_of};
ghost use Rattle.gate_tx.specs.Money.{max_money};
ghost use Rattle.gate_pool.specs.Pool.{largest_vsize};
ghost use Rattle.gate_pool.specs.Family.{ancestors_of, ancestors_above, parents_above, AreIdsOf, OfThese, BelowThese, sums_of};
ghost use Rattle.gate_pool.specs.Search.{parents_of, AreLent, IsEntry, IsFound};

use crate::entry::Entry;
use crate::view::FamilyView;
use gate_bytes::Memory;
use gate_graph::Sums;
use gate_tx::{TxIn, Txid};
use std::alloc::Global;
use std::marker::Model;

/// How many entries a list of a family has room for from the start: as many as a family may have by default.
const FAMILY: usize = 25;

/// Entries above a transaction: their ids, each once, and their sums.
#[derive(Drop)]
pub struct Above {
    pub ids: Vec<Txid>,
    pub sums: Sums,
}

/// An entry that was found: contracts see the entry.
#[derive(Drop)]
pub struct Lent<'a> {
    entry: &'a Entry,
    /// Where an entry that it spends from is looked for first.
    near: Option<usize>,
}

impl<'a> Model for Lent<'a> {
    ghost use Rattle.gate_pool.specs.Pool.{Admitted};

    ghost Value = { Admitted };

    ghost view = { λ l. l.entry.now };
}

impl<'a> Lent<'a> {
    pub fn of(entry: &'a Entry) -> Lent<'a>
        ensures { result ≡ entry.now }
    {
        Lent::beside(entry, None)
    }

    /// Lends an entry, and keeps where one that it spends from is to be looked for first.
    fn beside(entry: &'a Entry, near: Option<usize>) -> Lent<'a>
        ensures { result ≡ entry.now }
    {
        Lent { entry, near }
    }

    pub fn entry(&self) -> &'a Entry
        ensures { result.now ≡ self.now }
    {
        self.entry
    }

    pub fn txid(&self) -> Txid
        ensures { result ≡ txid_of self.now.tx }
    {
        self.entry.txid()
    }

    fn inputs(&self) -> &'a [TxIn]
        ensures { result.now ≡ self.now.tx.inputs }
    {
        self.entry.transaction().inputs()
    }

    fn vsize(&self) -> u64
        ensures value { result ≡ self.now.vsize }
        ensures most { result ≤ largest_vsize }
    {
        self.entry.vsize()
    }

    fn fee(&self) -> u64
        ensures value { result ≡ self.now.fee }
        ensures most { result ≤ max_money }
    {
        self.entry.fee()
    }
}

/// Whether two ids are the same: most that are not differ in their first byte.
fn is_same(a: &Txid, b: &Txid) -> bool
    ensures { result ≡ bytes_eq a.now b.now }
{
    a.as_bytes()[0] == b.as_bytes()[0] && *a == *b
}

/// Whether an id was found.
fn is_among(found: &[Txid], txid: &Txid) -> bool
    ensures { result ≡ list_any (λ id. bytes_eq id txid.now) found.now }
{
    found.iter().any(|id| is_same(id, txid))
}

/// Adds an id, if an entry has it and it was not found before. Returns whether no more than `most` are found.
fn add<V: FamilyView>(
    pool: &V,
    found: &mut Vec<Txid>,
    txid: &Txid,
    most: usize,
) -> Result<bool, Memory>
    ensures { IfOk result (λ few. IsFound most (V.entries pool.now) (txid.now ∷ []) found.old.items found.new.items few) }
{
    if !is_among(found, txid) && pool.entry(txid).is_some() {
        found.push(*txid)?;
    }
    Ok(found.len() <= most)
}

/// Adds an id, and the entry that has it, if there is one and it was not found before. It is looked for at the place `near`
/// first. Returns whether no more than `most` are found.
fn add_lent<'a, V: FamilyView>(
    pool: &'a V,
    found: &mut Vec<Txid>,
    lent: &mut Vec<Lent<'a>>,
    txid: &Txid,
    near: Option<usize>,
    most: usize,
) -> Result<bool, Memory>
    ensures found { IfOk result (λ few. IsFound most (V.entries pool.now) (txid.now ∷ []) found.old.items found.new.items few) }
    ensures lent { AreLent (V.entries pool.now) found.old.items lent.old.items → OnOk result (AreLent (V.entries pool.now) found.new.items lent.new.items) }
{
    if !is_among(found, txid) {
        let mut next = near;
        if let Some(entry) = pool.entry_near(txid, &mut next) {
            found.push(*txid)?;
            lent.push(Lent::beside(entry, next))?;
        }
    }
    Ok(found.len() <= most)
}

/// Adds those of the ids that entries have, until more than `most` are found. Returns whether no more are.
fn add_all<V: FamilyView>(
    pool: &V,
    found: &mut Vec<Txid>,
    txids: &[Txid],
    most: usize,
) -> Result<bool, Memory>
    ensures { IfOk result (λ few. IsFound most (V.entries pool.now) txids.now found.old.items found.new.items few) }
{
    for txid in txids {
        if !add(pool, found, txid, most)? {
            return Ok(false);
        }
    }
    Ok(true)
}

/// Adds the ids of the entries whose outputs the inputs spend, each with its entry, until more than `most` are found. Each
/// is looked for at the place `near` first. Returns whether no more are.
fn add_parents<'a, V: FamilyView>(
    pool: &'a V,
    found: &mut Vec<Txid>,
    lent: &mut Vec<Lent<'a>>,
    inputs: &[TxIn],
    near: Option<usize>,
    most: usize,
) -> Result<bool, Memory>
    ensures found { IfOk result (λ few. IsFound most (V.entries pool.now) (parents_of inputs.now) found.old.items found.new.items few) }
    ensures lent { AreLent (V.entries pool.now) found.old.items lent.old.items → OnOk result (AreLent (V.entries pool.now) found.new.items lent.new.items) }
{
    for input in inputs {
        if !add_lent(pool, found, lent, &input.prevout.txid, near, most)? {
            return Ok(false);
        }
    }
    Ok(true)
}

/// The sums of these entries.
fn sum(lent: &[Lent<'_>]) -> Sums
    ensures sums { result ≡ sums_of lent.now }
    ensures small { result.size < 2 ^ 100 }
{
    let mut sums = Sums {
        count: 0,
        size: 0,
        fees: 0,
    };
    for entry in lent {
        sums.count += 1;
        sums.size += u128::from(entry.vsize());
        sums.fees += u128::from(entry.fee());
    }
    sums
}

/// The entries above a transaction with these inputs, by their ids, and their sums: its parents in the pool, their
/// parents, and so on. None if there are more than `most`.
pub fn family_above<V: FamilyView>(
    alloc: Global,
    pool: &V,
    inputs: &[TxIn],
    most: usize,
) -> Result<Option<Above>, Memory>
    ensures found { IfOk result (λ found. IfSome found (λ above. AreIdsOf above.ids.items (ancestors_above (V.entries pool.now) inputs.now))) }
    ensures sums { IfOk result (λ found. IfSome found (λ above. above.sums ≡ sums_of (ancestors_above (V.entries pool.now) inputs.now))) }
    ensures few { IfOk result (λ found. IfSome found (λ above. vec_len above.ids ≤ most)) }
    ensures small { IfOk result (λ found. IfSome found (λ above. above.sums.size < 2 ^ 100)) }
    ensures many { IfOk result (λ found. found ≡ None → most < length (ancestors_above (V.entries pool.now) inputs.now)) }
{
    pool.recall_apart();
    let mut found = Vec::with_capacity(alloc, FAMILY)?;
    let mut lent = Vec::with_capacity(alloc, FAMILY)?;
    if !add_parents(pool, &mut found, &mut lent, inputs, None, most)? {
        return Ok(None);
    }
    let mut opened = 0;
    while opened < lent.len() {
        let next = &lent[opened];
        let near = next.near;
        let parents = next.inputs();
        if !add_parents(pool, &mut found, &mut lent, parents, near, most)? {
            return Ok(None);
        }
        opened += 1;
    }
    let sums = sum(&lent);
    Ok(Some(Above { ids: found, sums }))
}

/// The ids of the entries above a transaction with these inputs: its parents in the pool, their parents, and so on.
/// None if there are more than `most`.
pub fn ancestors<V: FamilyView>(
    alloc: Global,
    pool: &V,
    inputs: &[TxIn],
    most: usize,
) -> Result<Option<Vec<Txid>>, Memory>
    ensures found { IfOk result (λ found. IfSome found (λ ids. AreIdsOf ids.items (ancestors_above (V.entries pool.now) inputs.now))) }
    ensures few { IfOk result (λ found. IfSome found (λ ids. vec_len ids ≤ most)) }
    ensures many { IfOk result (λ found. found ≡ None → most < length (ancestors_above (V.entries pool.now) inputs.now)) }
{
    let Some(above) = family_above(alloc, pool, inputs, most)? else {
        return Ok(None);
    };
    Ok(Some(above.ids))
}

/// The ids of an entry and of all that are above it. None if there are more than `most`.
pub fn ancestors_with<V: FamilyView>(
    alloc: Global,
    pool: &V,
    txid: &Txid,
    most: usize,
) -> Result<Option<Vec<Txid>>, Memory>
    requires { IsEntry (V.entries pool.now) txid.now }
    ensures found { IfOk result (λ found. IfSome found (λ ids. AreIdsOf ids.items (ancestors_of (V.entries pool.now) txid.now))) }
    ensures few { IfOk result (λ found. IfSome found (λ ids. vec_len ids ≤ most)) }
    ensures many { IfOk result (λ found. found ≡ None → most < length (ancestors_of (V.entries pool.now) txid.now)) }
{
    pool.recall_apart();
    let entry = pool.entry(txid).unwrap();
    let Some(mut found) = ancestors(alloc, pool, entry.transaction().inputs(), most)? else {
        return Ok(None);
    };
    if !found.contains(txid) {
        found.push(*txid)?;
    }
    if found.len() > most {
        return Ok(None);
    }
    Ok(Some(found))
}

/// The ids of the entries whose outputs these inputs spend, each once.
pub fn parents<V: FamilyView>(alloc: Global, pool: &V, inputs: &[TxIn]) -> Result<Vec<Txid>, Memory>
    ensures { IfOk result (λ ids. AreIdsOf ids.items (parents_above (V.entries pool.now) inputs.now)) }
{
    let mut found = Vec::new(alloc);
    for input in inputs {
        let _few = add(pool, &mut found, &input.prevout.txid, usize::MAX)?;
    }
    Ok(found)
}

/// The ids of the entries with these ids and of all that are below them, each once. None if there are more than `most`.
pub fn descendants<V: FamilyView>(
    alloc: Global,
    pool: &V,
    roots: &[Txid],
    most: usize,
) -> Result<Option<Vec<Txid>>, Memory>
    ensures found { BelowThese (V.entries pool.now) roots.now (λ below. IfOk result (λ found. IfSome found (λ ids. AreIdsOf ids.items below))) }
    ensures few { IfOk result (λ found. IfSome found (λ ids. vec_len ids ≤ most)) }
    ensures many { BelowThese (V.entries pool.now) roots.now (λ below. IfOk result (λ found. found ≡ None → most < length below)) }
{
    let mut found = Vec::new(alloc);
    if !add_all(pool, &mut found, roots, most)? {
        return Ok(None);
    }
    let mut opened = 0;
    while opened < found.len() {
        let parent = found[opened];
        let children = pool.children(alloc, &parent)?;
        if !add_all(pool, &mut found, children.as_slice(), most)? {
            return Ok(None);
        }
        opened += 1;
    }
    Ok(Some(found))
}

/// The sums of the entries with these ids.
pub fn add_up<V: FamilyView>(pool: &V, ids: &[Txid]) -> Sums
    ensures sums { OfThese (V.entries pool.now) ids.now (λ these. result ≡ sums_of these) }
    ensures small { result.size < 2 ^ 100 }
{
    pool.recall_apart();
    let mut sums = Sums {
        count: 0,
        size: 0,
        fees: 0,
    };
    for id in ids {
        match pool.entry(id) {
            Some(entry) => {
                sums.count += 1;
                sums.size += u128::from(entry.vsize());
                sums.fees += u128::from(entry.fee());
            }
            None => {}
        }
    }
    sums
}
