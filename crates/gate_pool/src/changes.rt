//! Entries that conflict with nothing, put in by a call that takes the memory that it needs.
ghost use Rattle.std.specs.Prelude.{◌≡◌, ◌↔◌, ◌∷◌, ◌++◌, [], not, is_some, IsTrue, OnOk, OnErr};
ghost use Rattle.std.specs.List.{list_all};
ghost use Rattle.gate_tx.specs.declared.TxIn.{TxIn as Input};
ghost use Rattle.gate_pool.specs.Pool.{spender_of};
ghost use Rattle.gate_pool.specs.Keeping.{IsNew};

use crate::entry::Entry;
use crate::pool::Pool;
use gate_bytes::Memory;
use gate_tx::TxIn;
use std::hash::BuildHasher;

impl<S: BuildHasher + Copy + Drop> Pool<S> {
    /// Whether no entry spends what one of the inputs spends.
    fn is_free(&self, inputs: &[TxIn]) -> bool
        ensures { result ≡ list_all (λ (i : Input). not (is_some (spender_of self.now.entries i.prevout))) inputs.now }
    {
        inputs
            .iter()
            .all(|input| self.spender(&input.prevout).is_none())
    }

    /// Whether nothing in the pool has an entry's ids or spends what it spends.
    pub fn is_new(&self, entry: &Entry) -> bool
        ensures { IsTrue result ↔ IsNew self.now.entries entry.now }
    {
        if self.entry(&entry.txid()).is_some() {
            return false;
        }
        if self.by_wtxid(&entry.wtxid()).is_some() {
            return false;
        }
        self.is_free(entry.transaction().inputs())
    }

    /// Puts an entry at the end, for which `is_new` holds. If memory runs out, the pool is as it was.
    pub fn admit(&mut self, entry: Entry) -> Result<(), Memory>
        requires { IsNew self.old.entries entry }
        ensures ok { OnOk result (self.new.entries ≡ self.old.entries ++ entry ∷ []) }
        ensures err { OnErr result (self.new.entries ≡ self.old.entries) }
        ensures before { self.new.before ≡ self.old.before }
    {
        self.reserve(1, entry.transaction().inputs().len())?;
        self.replace(entry);
        Ok(())
    }
}
