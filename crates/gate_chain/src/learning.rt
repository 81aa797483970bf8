//! Coins of the opening that become known later.
ghost use Rattle.std.specs.Prelude.{◌≡◌, ◌++◌, ◌∷◌, ◌||◌, [], ℕ, List, None, OnErr, OnOk};
ghost use Rattle.std.specs.Str.{bytes_eq};
ghost use Rattle.gate_tx.specs.Coins.{point_eq};
ghost use Rattle.indexmap.specs.IndexMap.{get};
ghost use Rattle.indexmap.specs.IndexSet.{contains};
ghost use Rattle.gate_chain.specs.Marking.{opening_entry, unmarked_coin};

use crate::marked::Marked;
use crate::opening::OpeningCoin;
use gate_bytes::Memory;
use gate_tx::{OutPoint, Txid};
use indexmap::{IndexMap, IndexSet};
use std::hash::BuildHasher;

/// Puts a coin at the end of the opening's, and its transaction among theirs; or leaves both as they are.
pub(crate) fn put<S: BuildHasher + Copy + Drop>(
    coins: &mut IndexMap<OutPoint, Marked, S>,
    txids: &mut IndexSet<Txid, S>,
    opening: OpeningCoin,
) -> Result<(), Memory>
    requires { get point_eq coins.old opening.outpoint ≡ None }
    ensures coins { OnOk result (coins.new.entries ≡ coins.old.entries ++ unmarked_coin (opening_entry opening) ∷ []) }
    ensures ids { OnOk result ((id : List ℕ) → contains bytes_eq txids.new id ≡ (contains bytes_eq txids.old id || bytes_eq opening.outpoint.txid id)) }
    ensures same_coins { OnErr result (coins.new.entries ≡ coins.old.entries) }
    ensures same_ids { OnErr result (txids.new.keys ≡ txids.old.keys) }
{
    let OpeningCoin { outpoint, coin } = opening;
    coins.reserve(1)?;
    txids.insert(outpoint.txid)?;
    let kept: Result<_, _> = coins.insert(outpoint, Marked { coin, spent: false });
    let _ = kept.unwrap();
    Ok(())
}
