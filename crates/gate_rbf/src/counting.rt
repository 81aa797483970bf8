//! The entries that count as direct conflicts: those that spend what a transaction spends, and a sibling.
ghost use Rattle.std.specs.Prelude.{◌≡◌, ◌≢◌, ◌<◌, ◌∷◌, [], Bool, List, None, IfOk, IfSome, OnOk, filter, length, nat_le, not};
ghost use Rattle.std.specs.List.{list_any};
ghost use Rattle.gate_tx.specs.Ids.{txid_of};
ghost use Rattle.gate_tx.specs.Tx.{Tx};
ghost use Rattle.gate_standard.specs.Amounts.{feerate};
ghost use Rattle.gate_pool.specs.Distinct.{AreDistinct};
ghost use Rattle.gate_pool.specs.Pool.{Admitted, has_txid};
ghost use Rattle.gate_pool.specs.Family.{conflicts_of, AreIdsOf};
ghost use Rattle.gate_pool.specs.Counting.{is_counted, counted_of};
ghost use Rattle.gate_rbf.specs.Direct.{AreThese};

use crate::gathered::put;
use gate_bytes::Memory;
use gate_pool::{Lent, Pool};
use gate_standard::rate_of;
use gate_tx::{Transaction, Txid};
use std::alloc::Global;
use std::hash::BuildHasher;
use std::marker::Model;

fn has_other_id(rival: &Lent<'_>, txid: &Txid) -> bool
    ensures { result ≡ not (has_txid rival.now txid.now) }
{
    rival.txid() != *txid
}

fn pays_at_least(rival: &Lent<'_>, rate: u128) -> bool
    ensures { result ≡ nat_le rate (feerate rival.now.fee rival.now.vsize) }
{
    let entry = rival.entry();
    rate <= rate_of(entry.fee(), entry.vsize())
}

/// The ids of the entries that were found, each once. None if there are more than `most`.
fn ids_of(alloc: Global, found: &[Lent<'_>], most: usize) -> Result<Option<Vec<Txid>>, Memory>
    ensures found { IfOk result (λ ids. IfSome ids (λ ids. AreIdsOf ids.items found.now)) }
    ensures many { IfOk result (λ ids. ids ≡ None → (some : List Admitted) → AreThese found.now some → most < length some) }
{
    let mut ids = Vec::new(alloc);
    for rival in found {
        put(&mut ids, rival.txid())?;
        if ids.len() > most {
            return Ok(None);
        }
    }
    Ok(Some(ids))
}

/// The id of the only entry that was found, if it is one alone, however often.
pub(crate) fn only_of(found: &[Lent<'_>]) -> Option<Txid>
    ensures one { IfSome result (λ txid. (entries : List Admitted) → AreDistinct entries → (test : Admitted → Bool) → AreThese found.now (filter test entries) → (c : Admitted) × (filter test entries ≡ c ∷ []) × (txid_of c.tx ≡ txid)) }
    ensures other { result ≡ None → (entries : List Admitted) → (test : Admitted → Bool) → AreThese found.now (filter test entries) → (c : Admitted) → filter test entries ≢ c ∷ [] }
{
    match found.first() {
        Some(rival) => {
            let txid = rival.txid();
            if found.iter().any(|other| has_other_id(other, &txid)) {
                return None;
            }
            Some(txid)
        }
        None => None,
    }
}

/// Puts the entry with this id behind the conflicts that were found, if there is one.
fn put_sibling<'a, S: BuildHasher + Copy + Drop>(
    found: &mut Vec<Lent<'a>>,
    pool: &'a Pool<S>,
    sibling: &Option<Txid>,
) -> Result<(), Memory>
    ensures { (tx : Tx) → AreThese found.old.items (conflicts_of pool.now.entries tx) → OnOk result (AreThese found.new.items (counted_of pool.now.entries sibling.now tx)) }
{
    let Some(txid) = sibling else {
        return Ok(());
    };
    pool.recall_distinct();
    let Some(entry) = pool.entry(txid) else {
        return Ok(());
    };
    found.push(Lent::of(entry))?;
    Ok(())
}

/// A transaction beside the entries of a pool, with those of them that count as its direct conflicts: each spends an
/// outpoint that the transaction spends, or is the sibling, which makes room for it.
#[derive(Drop)]
pub struct CountedConflicts<'a, S: BuildHasher + Copy + Drop> {
    pool: &'a Pool<S>,
    tx: &'a Transaction,
    sibling: Option<Txid>,
    found: Vec<Lent<'a>>,
}

impl<'a, S: BuildHasher + Copy + Drop> Model for CountedConflicts<'a, S> {
    ghost use Rattle.gate_pool.specs.Counting.{counted_of};
    ghost use Rattle.gate_rbf.specs.Direct.{AreThese, BesideSibling};

    ghost Value = { BesideSibling };

    ghost view = { λ c. record { entries = c.pool.now.entries; tx = c.tx.now; sibling = c.sibling } };

    ghost invariant = { λ c. AreThese c.found.items (counted_of c.pool.now.entries c.sibling c.tx.now) };
}

impl<'a, S: BuildHasher + Copy + Drop> CountedConflicts<'a, S> {
    /// The conflicts that were found, and the entry with the sibling's id beside them.
    pub(crate) fn new(
        pool: &'a Pool<S>,
        tx: &'a Transaction,
        sibling: Option<Txid>,
        found: Vec<Lent<'a>>,
    ) -> Result<CountedConflicts<'a, S>, Memory>
        requires { AreThese found.items (conflicts_of pool.now.entries tx.now) }
        ensures entries { IfOk result (λ counted. counted.entries ≡ pool.now.entries) }
        ensures transaction { IfOk result (λ counted. counted.tx ≡ tx.now) }
        ensures sibling { IfOk result (λ counted. counted.sibling ≡ sibling) }
    {
        let mut found = found;
        put_sibling(&mut found, pool, &sibling)?;
        Ok(CountedConflicts {
            pool,
            tx,
            sibling,
            found,
        })
    }

    pub(crate) fn pool(&self) -> &'a Pool<S>
        ensures { result.now.entries ≡ self.now.entries }
    {
        self.pool
    }

    pub(crate) fn transaction(&self) -> &'a Transaction
        ensures { result.now ≡ self.now.tx }
    {
        self.tx
    }

    pub(crate) fn has_any(&self) -> bool
        ensures { result ≡ list_any (is_counted self.now.sibling self.now.tx) self.now.entries }
    {
        !self.found.is_empty()
    }

    /// The id of the only one, if there is exactly one.
    pub(crate) fn only(&self) -> Option<Txid>
        ensures one { IfSome result (λ txid. (c : Admitted) × (counted_of self.now.entries self.now.sibling self.now.tx ≡ c ∷ []) × (txid_of c.tx ≡ txid)) }
        ensures other { result ≡ None → (c : Admitted) → counted_of self.now.entries self.now.sibling self.now.tx ≢ c ∷ [] }
    {
        self.pool.recall_distinct();
        only_of(self.found.as_slice())
    }

    /// Whether one of them pays at least the feerate of this fee, in satoshi, for this size, in virtual bytes: A38.
    pub(crate) fn one_pays_at_least(&self, fee: u64, vsize: u64) -> bool
        requires { 0 < vsize }
        ensures { result ≡ list_any (λ (c : Admitted). nat_le (feerate fee vsize) (feerate c.fee c.vsize)) (counted_of self.now.entries self.now.sibling self.now.tx) }
    {
        let rate = rate_of(fee, vsize);
        self.found.iter().any(|rival| pays_at_least(rival, rate))
    }

    /// Their ids, each once. None if there are more than `most`.
    pub(crate) fn ids_within(&self, alloc: Global, most: usize) -> Result<Option<Vec<Txid>>, Memory>
        ensures found { IfOk result (λ found. IfSome found (λ ids. AreIdsOf ids.items (counted_of self.now.entries self.now.sibling self.now.tx))) }
        ensures many { IfOk result (λ found. found ≡ None → most < length (counted_of self.now.entries self.now.sibling self.now.tx)) }
    {
        let Some(ids) = ids_of(alloc, self.found.as_slice(), most)? else {
            return Ok(None);
        };
        Ok(Some(ids))
    }
}
