//! Coins that are marked as spent and unmarked again.
ghost use Rattle.std.specs.Prelude.{◌≡◌, ◌&&◌, ◌||◌, not, true, false, drop, is_some, Some, None, if◌then◌else◌};
ghost use Rattle.std.specs.List.{list_any};
ghost use Rattle.std.specs.Option.{option_copied};
ghost use Rattle.gate_tx.specs.Coins.{point_eq, spends};
ghost use Rattle.gate_tx.specs.declared.OutPoint.{OutPoint as Point};
ghost use Rattle.gate_chain.specs.Coins.{any_spends, is_spent_in};
ghost use Rattle.gate_chain.specs.Connecting.{missing};
ghost use Rattle.gate_chain.specs.Marking.{all_in, coins_in, is_marked, unspent_in, MarksMore};

use crate::block::Block;
use crate::tables::CoinTables;
use gate_bytes::{Copied, Counted, Memory};
use gate_tx::{Coin, Identified, OutPoint, TxIn};
use std::alloc::Global;
use std::hash::BuildHasher;

/// A coin, and whether a connected block spends it.
#[derive(Drop)]
pub(crate) struct Marked {
    pub coin: Coin,
    pub spent: bool,
}

impl Copied for Marked {
    fn copy(&self, alloc: Global) -> Result<Marked, Memory> {
        Ok(Marked {
            coin: self.coin.copy(alloc)?,
            spent: self.spent,
        })
    }
}

/// The coin, if nothing spends it.
fn if_unspent(marked: &Marked) -> Option<&Coin>
    ensures { option_copied result ≡ (if marked.now.spent then None else Some marked.now.coin) }
{
    if marked.spent {
        None
    } else {
        Some(&marked.coin)
    }
}

/// The coin at an outpoint, if nothing spends it.
pub(crate) fn unspent<'a, S: BuildHasher + Copy + Drop>(
    coins: &'a CoinTables<S>,
    outpoint: &OutPoint,
) -> Option<&'a Coin>
    ensures { option_copied result ≡ unspent_in (all_in coins.now) outpoint.now }
{
    match coins.opening.get(outpoint) {
        Some(marked) => if_unspent(marked),
        None => match coins.made.get(outpoint) {
            Some(marked) => if_unspent(marked),
            None => None,
        },
    }
}

/// Marks a coin as spent, and says whether it was unspent.
fn mark(marked: &mut Marked) -> bool
    ensures marked { marked.new ≡ record { coin = marked.old.coin; spent = true } }
    ensures found { result ≡ not marked.old.spent }
{
    let found = !marked.spent;
    marked.spent = true;
    found
}

/// Marks a coin as spent, and says whether it was there unspent.
fn spend_one<S: BuildHasher + Copy + Drop>(coins: &mut CoinTables<S>, outpoint: OutPoint) -> bool
    ensures coins { coins_in (all_in coins.new) ≡ coins_in (all_in coins.old) }
    ensures opening { coins_in coins.new.opening.entries ≡ coins_in coins.old.opening.entries }
    ensures found { result ≡ is_some (unspent_in (all_in coins.old) outpoint) }
    ensures marks { (p : Point) → is_marked (all_in coins.new) p ≡ ((result && point_eq outpoint p) || is_marked (all_in coins.old) p) }
{
    match coins.opening.get_mut(&outpoint) {
        Some(marked) => mark(marked),
        None => match coins.made.get_mut(&outpoint) {
            Some(marked) => mark(marked),
            None => false,
        },
    }
}

fn unmark(marked: &mut Marked)
    ensures { marked.new ≡ record { coin = marked.old.coin; spent = false } }
{
    marked.spent = false;
}

/// Marks a coin as unspent.
fn unspend_one<S: BuildHasher + Copy + Drop>(coins: &mut CoinTables<S>, outpoint: OutPoint)
    ensures coins { coins_in (all_in coins.new) ≡ coins_in (all_in coins.old) }
    ensures opening { coins_in coins.new.opening.entries ≡ coins_in coins.old.opening.entries }
    ensures marks { (p : Point) → is_marked (all_in coins.new) p ≡ (if point_eq outpoint p then false else is_marked (all_in coins.old) p) }
{
    match coins.opening.get_mut(&outpoint) {
        Some(marked) => unmark(marked),
        None => {
            if let Some(marked) = coins.made.get_mut(&outpoint) {
                unmark(marked);
            }
        }
    }
}

/// Marks the coins of inputs as unspent.
pub(crate) fn unspend<S: BuildHasher + Copy + Drop>(coins: &mut CoinTables<S>, inputs: &[TxIn])
    ensures coins { coins_in (all_in coins.new) ≡ coins_in (all_in coins.old) }
    ensures opening { coins_in coins.new.opening.entries ≡ coins_in coins.old.opening.entries }
    ensures marks { (p : Point) → is_marked (all_in coins.new) p ≡ (if spends inputs.now p then false else is_marked (all_in coins.old) p) }
{
    for input in inputs {
        unspend_one(coins, input.prevout);
    }
}

/// Marks the coins of inputs as spent if all of them are there unspent, and says whether they were.
pub(crate) fn spend<S: BuildHasher + Copy + Drop>(
    coins: &mut CoinTables<S>,
    inputs: &[TxIn],
) -> bool
    ensures coins { coins_in (all_in coins.new) ≡ coins_in (all_in coins.old) }
    ensures opening { coins_in coins.new.opening.entries ≡ coins_in coins.old.opening.entries }
    ensures found { missing (λ p. is_some (unspent_in (all_in coins.old) p)) inputs.now ≡ not result }
    ensures marks { (p : Point) → is_marked (all_in coins.new) p ≡ ((result && spends inputs.now p) || is_marked (all_in coins.old) p) }
{
    for (place, input) in inputs.iter().enumerate() {
        if !spend_one(coins, input.prevout) {
            unspend(coins, &inputs[..place]);
            return false;
        }
    }
    true
}

/// Marks the coins of inputs as spent again.
fn respend<S: BuildHasher + Copy + Drop>(coins: &mut CoinTables<S>, inputs: &[TxIn])
    ensures coins { coins_in (all_in coins.new) ≡ coins_in (all_in coins.old) }
    ensures opening { coins_in coins.new.opening.entries ≡ coins_in coins.old.opening.entries }
    ensures marks { MarksMore (spends inputs.now) (all_in coins.old) (all_in coins.new) }
{
    for input in inputs {
        let _ = spend_one(coins, input.prevout);
    }
}

/// Marks the coins of all these transactions' inputs as spent again.
fn respend_all<S: BuildHasher + Copy + Drop>(coins: &mut CoinTables<S>, txs: &[Counted<Identified>])
    ensures coins { coins_in (all_in coins.new) ≡ coins_in (all_in coins.old) }
    ensures opening { coins_in coins.new.opening.entries ≡ coins_in coins.old.opening.entries }
    ensures marks { MarksMore (any_spends txs.now) (all_in coins.old) (all_in coins.new) }
{
    for tx in txs {
        respend(coins, tx.get().transaction().inputs());
    }
}

/// Marks the coins of the inputs of a block's transactions as spent again, but not of its coinbase's.
fn respend_block<S: BuildHasher + Copy + Drop>(
    coins: &mut CoinTables<S>,
    txs: &[Counted<Identified>],
)
    ensures coins { coins_in (all_in coins.new) ≡ coins_in (all_in coins.old) }
    ensures opening { coins_in coins.new.opening.entries ≡ coins_in coins.old.opening.entries }
    ensures marks { MarksMore (any_spends (drop 1 txs.now)) (all_in coins.old) (all_in coins.new) }
{
    match txs {
        [] => {}
        [_coinbase, others @ ..] => respend_all(coins, others),
    }
}

/// Marks the coins that blocks spent as spent again.
pub(crate) fn respend_blocks<S: BuildHasher + Copy + Drop>(
    coins: &mut CoinTables<S>,
    blocks: &[Block],
)
    ensures coins { coins_in (all_in coins.new) ≡ coins_in (all_in coins.old) }
    ensures opening { coins_in coins.new.opening.entries ≡ coins_in coins.old.opening.entries }
    ensures marks { MarksMore (λ p. list_any (is_spent_in p) blocks.now) (all_in coins.old) (all_in coins.new) }
{
    for block in blocks {
        respend_block(coins, block.transactions());
    }
}
