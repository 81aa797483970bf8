//! The transactions of connected blocks, by wtxid.
ghost use Rattle.std.specs.Prelude.{◌≡◌, ◌||◌, List, ℕ, [], drop, IfOk, OnOk};
ghost use Rattle.std.specs.List.{list_any};
ghost use Rattle.std.specs.Str.{bytes_eq};
ghost use Rattle.gate_admit.specs.Confirming.{Notes};
ghost use Rattle.gate_admit.specs.Verdicts.{confirms, has_wtxid_among, is_among};
ghost use Rattle.indexmap.specs.IndexSet.{contains};

use gate_bytes::{Counted, Memory};
use gate_chain::Chain;
use gate_tx::{Identified, Wtxid};
use indexmap::IndexSet;
use std::alloc::Global;
use std::hash::BuildHasher;
use std::marker::Model;

/// The wtxids of the transactions of some connected blocks: contracts see them, each once.
#[derive(Drop)]
pub struct Confirmed<S: BuildHasher + Copy + Drop> {
    wtxids: IndexSet<Wtxid, S>,
}

impl<S: BuildHasher + Copy + Drop> Model for Confirmed<S> {
    ghost use Rattle.std.specs.Prelude.{List, ℕ};

    ghost Value = { List (List ℕ) };

    ghost view = { λ c. c.wtxids.keys };
}

/// Adds the wtxids of transactions.
fn note_all<S: BuildHasher + Copy + Drop>(
    wtxids: &mut IndexSet<Wtxid, S>,
    txs: &[Counted<Identified>],
) -> Result<(), Memory>
    ensures { OnOk result ((id : List ℕ) → contains bytes_eq wtxids.new id ≡ (contains bytes_eq wtxids.old id || has_wtxid_among id txs.now)) }
{
    for tx in txs {
        wtxids.insert(tx.get().wtxid())?;
    }
    Ok(())
}

/// Adds the wtxids of the transactions of the block at a place, if there is one.
fn note_block<S: BuildHasher + Copy + Drop>(
    wtxids: &mut IndexSet<Wtxid, S>,
    chain: &Chain<S>,
    place: usize,
) -> Result<(), Memory>
    ensures { OnOk result (Notes place chain.now.blocks (contains bytes_eq wtxids.old) (contains bytes_eq wtxids.new)) }
{
    match chain.block(place) {
        Some(block) => note_all(wtxids, block.transactions()),
        None => Ok(()),
    }
}

impl<S: BuildHasher + Copy + Drop> Confirmed<S> {
    /// None.
    pub(crate) fn none(alloc: Global, hasher: S) -> Confirmed<S>
        ensures { result ≡ [] }
    {
        Confirmed {
            wtxids: IndexSet::with_hasher(alloc, hasher),
        }
    }

    /// Those of the transactions of a chain's blocks above the lowest `from` ones.
    pub(crate) fn above(
        alloc: Global,
        hasher: S,
        chain: &Chain<S>,
        from: usize,
    ) -> Result<Confirmed<S>, Memory>
        ensures { IfOk result (λ confirmed. (wtxid : List ℕ) → is_among confirmed wtxid ≡ list_any (confirms wtxid) (drop from chain.now.blocks)) }
    {
        let mut wtxids = IndexSet::with_hasher(alloc, hasher);
        for place in from..chain.connected() {
            note_block(&mut wtxids, chain, place)?;
        }
        Ok(Confirmed { wtxids })
    }

    pub(crate) fn has(&self, wtxid: &Wtxid) -> bool
        ensures { result ≡ is_among self.now wtxid.now }
    {
        self.wtxids.contains(wtxid)
    }
}
