//! A pool with a transaction beside it.
ghost use Rattle.std.specs.Prelude.{◌≡◌, ◌++◌, ◌∷◌, [], None};
ghost use Rattle.gate_tx.specs.Ids.{txid_of};
ghost use Rattle.gate_pool.specs.Pool.{entry_by_txid};
ghost use Rattle.gate_pool.specs.Family.{names};

use gate_bytes::Memory;
use gate_pool::{Entry, FamilyView};
use gate_tx::Txid;
use std::alloc::Global;
use std::marker::Model;

/// The entries of a view, and one more behind them: contracts see them all.
#[derive(Drop)]
pub(crate) struct Joined<'a, V: FamilyView> {
    pool: &'a V,
    newcomer: &'a Entry,
}

impl<'a, V: FamilyView> Model for Joined<'a, V> {
    ghost use Rattle.std.specs.Prelude.{◌≡◌, List, ◌++◌, ◌∷◌, [], None};
    ghost use Rattle.gate_tx.specs.Ids.{txid_of};
    ghost use Rattle.gate_pool.specs.Pool.{Admitted, entry_by_txid};

    ghost Value = { List Admitted };

    ghost view = { λ j. V.entries j.pool.now ++ j.newcomer.now ∷ [] };

    ghost invariant = { λ j. entry_by_txid (V.entries j.pool.now) (txid_of j.newcomer.now.tx) ≡ None };
}

impl<'a, V: FamilyView> Joined<'a, V> {
    /// Puts a newcomer behind the entries of a view, none of which has its id.
    pub(crate) fn new(pool: &'a V, newcomer: &'a Entry) -> Joined<'a, V>
        requires { entry_by_txid (V.entries pool.now) (txid_of newcomer.now.tx) ≡ None }
        ensures { result ≡ V.entries pool.now ++ newcomer.now ∷ [] }
    {
        Joined { pool, newcomer }
    }
}

/// Whether an entry spends an output of the transaction with this id.
pub(crate) fn names(entry: &Entry, txid: &Txid) -> bool
    ensures { result ≡ names entry.now txid.now }
{
    entry
        .transaction()
        .inputs()
        .iter()
        .any(|input| input.prevout.txid == *txid)
}

impl<'a, V: FamilyView> FamilyView for Joined<'a, V> {
    ghost entries = { λ joined. joined };

    fn entry(&self, txid: &Txid) -> Option<&Entry> {
        if self.newcomer.txid() == *txid {
            Some(self.newcomer)
        } else {
            self.pool.entry(txid)
        }
    }

    fn entry_near(&self, txid: &Txid, near: &mut Option<usize>) -> Option<&Entry> {
        if self.newcomer.txid() == *txid {
            Some(self.newcomer)
        } else {
            self.pool.entry_near(txid, near)
        }
    }

    fn children(&self, alloc: Global, txid: &Txid) -> Result<Vec<Txid>, Memory> {
        let mut children = self.pool.children(alloc, txid)?;
        if names(self.newcomer, txid) {
            children.push(self.newcomer.txid())?;
        }
        Ok(children)
    }

    fn recall_apart(&self) {
        self.pool.recall_apart();
    }
}
