//! Listings that have the same txids share them.
ghost use Rattle.std.specs.Prelude.{◌≡◌, IfOk};

use gate_bytes::{Copied, Counted, Kept, Memory, is_same};
use gate_tx::Txid;
use std::alloc::Global;

/// The txids of the last listing, if there was one. Whoever asks again before the pool changes shares them: so a journal
/// of many listings keeps one list.
#[derive(Drop)]
pub(crate) struct LastListing {
    txids: Option<Counted<Kept<Txid>>>,
}

impl LastListing {
    pub(crate) fn none() -> LastListing {
        LastListing { txids: None }
    }

    /// These txids, with one more owner of those of the last listing if they are the same.
    pub(crate) fn share(
        &mut self,
        alloc: Global,
        txids: Kept<Txid>,
    ) -> Result<Counted<Kept<Txid>>, Memory>
        ensures { IfOk result (λ shared. shared ≡ txids) }
    {
        if let Some(last) = &self.txids {
            if is_same(last.get(), &txids) {
                return last.copy(alloc);
            }
        }
        let shared = Counted::new(alloc, txids)?;
        self.txids = Some(shared.copy(alloc)?);
        Ok(shared)
    }
}
