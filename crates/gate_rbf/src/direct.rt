//! The entries that spend what a transaction spends, found once.
ghost use Rattle.std.specs.Prelude.{◌≡◌, ◌≢◌, ◌∷◌, [], List, None, IfOk, IfSome, not};
ghost use Rattle.std.specs.List.{list_any};
ghost use Rattle.gate_tx.specs.Ids.{txid_of};
ghost use Rattle.gate_pool.specs.Pool.{Admitted};
ghost use Rattle.gate_pool.specs.Family.{names, is_conflict, is_among, conflicts_of, AreIdsOf, OfThese};
ghost use Rattle.gate_pool.specs.Counting.{counted_of};
ghost use Rattle.gate_rbf.specs.Direct.{AreThese};
ghost use Rattle.gate_rbf.specs.Replacing.{is_replaceable, is_non_signalling_conflict};

use crate::counting::{CountedConflicts, only_of};
use crate::signalling::is_replaceable;
use gate_bytes::Memory;
use gate_pool::{Lent, Pool};
use gate_tx::{Transaction, Txid};
use std::alloc::Global;
use std::hash::BuildHasher;
use std::marker::Model;

fn is_among(rival: &Lent<'_>, ids: &[Txid]) -> bool
    ensures { result ≡ is_among ids.now rival.now }
{
    ids.contains(&rival.txid())
}

/// Whether the entry's own transaction doesn't say that it may be replaced, where version 3 is standard or isn't.
fn is_non_signalling(rival: &Lent<'_>, truc: bool) -> bool
    ensures { result ≡ not (is_replaceable truc rival.now.tx) }
{
    !is_replaceable(truc, rival.entry().transaction())
}

/// Whether the entry spends an output of the transaction with this id.
fn names(rival: &Lent<'_>, txid: &Txid) -> bool
    ensures { result ≡ names rival.now txid.now }
{
    rival
        .entry()
        .transaction()
        .inputs()
        .iter()
        .any(|input| input.prevout.txid == *txid)
}

/// The entries of which each spends an outpoint that the transaction spends, once for each such outpoint.
fn find_rivals<'a, S: BuildHasher + Copy + Drop>(
    alloc: Global,
    pool: &'a Pool<S>,
    tx: &Transaction,
) -> Result<Vec<Lent<'a>>, Memory>
    ensures { IfOk result (λ found. AreThese found.items (conflicts_of pool.now.entries tx.now)) }
{
    pool.recall_distinct();
    let mut found = Vec::new(alloc);
    for input in tx.inputs() {
        match pool.spender(&input.prevout) {
            Some(spender) => found.push(Lent::of(spender))?,
            None => {}
        }
    }
    Ok(found)
}

/// A transaction beside the entries of a pool, with those of them that it conflicts with: each spends an outpoint that
/// the transaction spends. They are found once, for all rules that look at them.
#[derive(Drop)]
pub struct DirectConflicts<'a, S: BuildHasher + Copy + Drop> {
    pool: &'a Pool<S>,
    tx: &'a Transaction,
    found: Vec<Lent<'a>>,
}

impl<'a, S: BuildHasher + Copy + Drop> Model for DirectConflicts<'a, S> {
    ghost use Rattle.gate_pool.specs.Family.{conflicts_of};
    ghost use Rattle.gate_rbf.specs.Direct.{AreThese, Beside};

    ghost Value = { Beside };

    ghost view = { λ d. record { entries = d.pool.now.entries; tx = d.tx.now } };

    ghost invariant = { λ d. AreThese d.found.items (conflicts_of d.pool.now.entries d.tx.now) };
}

impl<'a, S: BuildHasher + Copy + Drop> DirectConflicts<'a, S> {
    pub fn find(
        alloc: Global,
        pool: &'a Pool<S>,
        tx: &'a Transaction,
    ) -> Result<DirectConflicts<'a, S>, Memory>
        ensures entries { IfOk result (λ direct. direct.entries ≡ pool.now.entries) }
        ensures transaction { IfOk result (λ direct. direct.tx ≡ tx.now) }
    {
        let found = find_rivals(alloc, pool, tx)?;
        Ok(DirectConflicts { pool, tx, found })
    }

    pub fn pool(&self) -> &'a Pool<S>
        ensures { result.now.entries ≡ self.now.entries }
    {
        self.pool
    }

    pub fn transaction(&self) -> &'a Transaction
        ensures { result.now ≡ self.now.tx }
    {
        self.tx
    }

    /// Whether the own transaction of one of the conflicts doesn't say that it may be replaced, where version 3 is
    /// standard, and says so by itself, or isn't: A23.
    pub fn has_non_signalling(&self, truc: bool) -> bool
        ensures { result ≡ list_any (is_non_signalling_conflict truc self.now.tx) self.now.entries }
    {
        self.found
            .iter()
            .any(|rival| is_non_signalling(rival, truc))
    }

    /// The id of the only conflict, if there is exactly one.
    pub fn only(&self) -> Option<Txid>
        ensures one { IfSome result (λ txid. (c : Admitted) × (conflicts_of self.now.entries self.now.tx ≡ c ∷ []) × (txid_of c.tx ≡ txid)) }
        ensures other { result ≡ None → (c : Admitted) → conflicts_of self.now.entries self.now.tx ≢ c ∷ [] }
    {
        self.pool.recall_distinct();
        only_of(self.found.as_slice())
    }

    /// Whether one of the entries with these ids is a conflict.
    pub fn has_one_of(&self, ids: &[Txid]) -> bool
        ensures { OfThese self.now.entries ids.now (λ some. result ≡ list_any (is_conflict self.now.tx) some) }
    {
        self.pool.recall_distinct();
        self.found.iter().any(|rival| is_among(rival, ids))
    }

    /// Whether one of the conflicts spends an output of the transaction with this id.
    pub fn has_child_of(&self, txid: &Txid) -> bool
        ensures { result ≡ list_any (λ (c : Admitted). names c txid.now) (conflicts_of self.now.entries self.now.tx) }
    {
        self.found.iter().any(|rival| names(rival, txid))
    }

    /// The conflicts as they count for A38 to A42: beside them the entry with this id, which the transaction evicts.
    pub fn counting(self, sibling: Option<Txid>) -> Result<CountedConflicts<'a, S>, Memory>
        ensures entries { IfOk result (λ counted. counted.entries ≡ self.entry.entries) }
        ensures transaction { IfOk result (λ counted. counted.tx ≡ self.entry.tx) }
        ensures sibling { IfOk result (λ counted. counted.sibling ≡ sibling) }
    {
        let DirectConflicts { pool, tx, found } = self;
        CountedConflicts::new(pool, tx, sibling, found)
    }
}

/// The ids of the entries that count as direct conflicts of a transaction, each once: of those that spend what it spends,
/// and of the sibling that it evicts.
pub fn conflicts<S: BuildHasher + Copy + Drop>(
    alloc: Global,
    pool: &Pool<S>,
    sibling: Option<Txid>,
    tx: &Transaction,
) -> Result<Vec<Txid>, Memory>
    ensures { IfOk result (λ ids. AreIdsOf ids.items (counted_of pool.now.entries sibling tx.now)) }
{
    let direct = DirectConflicts::find(alloc, pool, tx)?;
    let counted = direct.counting(sibling)?;
    let found = counted.ids_within(alloc, pool.count())?;
    Ok(found.unwrap())
}
