use crate::entry::Entry;
use gate_bytes::Memory;
use gate_tx::Txid;
use std::alloc::Global;

/// Entries whose families can be walked: those of a pool, or of a pool with a transaction beside them.
pub trait FamilyView {
    ghost use Rattle.std.specs.Prelude.{◌≡◌, ◌≢◌, List, IfOk};
    ghost use Rattle.std.specs.List.{AllPairs};
    ghost use Rattle.std.specs.Option.{option_copied};
    ghost use Rattle.gate_tx.specs.Ids.{txid_of};
    ghost use Rattle.gate_pool.specs.Pool.{Admitted, entry_by_txid};
    ghost use Rattle.gate_pool.specs.Family.{children_of, AreIdsOf};

    ghost entries: { Self → List Admitted };

    fn entry(&self, txid: &Txid) -> Option<&Entry>
        ensures { option_copied result ≡ entry_by_txid (entries self.now) txid.now };

    /// The entry of an id, as `entry` finds it. It is looked for at the place `near` first, over which is written where an
    /// entry that it spends from may stand.
    fn entry_near(&self, txid: &Txid, near: &mut Option<usize>) -> Option<&Entry>
        ensures { option_copied result ≡ entry_by_txid (entries self.now) txid.now };

    /// The ids of the entries that spend outputs of a transaction, whether that is an entry or not.
    fn children(&self, alloc: Global, txid: &Txid) -> Result<Vec<Txid>, Memory>
        ensures { IfOk result (λ ids. AreIdsOf ids.items (children_of (entries self.now) txid.now)) };

    /// States that no two entries share an id, for proofs: it does nothing.
    fn recall_apart(&self)
        ensures { AllPairs (λ (a : Admitted) (b : Admitted). txid_of a.tx ≢ txid_of b.tx) (entries self.now) };
}
