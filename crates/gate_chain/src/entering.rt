//! A block's transactions, entered one after another, and taken out again.
ghost use Rattle.std.specs.Prelude.{◌≡◌, ℕ, ◌+◌, ◌≤◌, ◌++◌, ◌∷◌, ◌&&◌, ◌||◌, [], List, drop, not, false, length, None, is_some, if◌then◌else◌};
ghost use Rattle.std.specs.Str.{bytes_eq};
ghost use Rattle.gate_tx.specs.Text.{is_nonempty};
ghost use Rattle.gate_tx.specs.Tx.{Tx};
ghost use Rattle.gate_tx.specs.declared.OutPoint.{OutPoint as Point};
ghost use Rattle.indexmap.specs.IndexSet.{contains, spare as set_spare};
ghost use Rattle.gate_chain.specs.History.{History};
ghost use Rattle.gate_tx.specs.Coins.{spends};
ghost use Rattle.gate_chain.specs.Coins.{any_spends};
ghost use Rattle.gate_chain.specs.Connecting.{grown, with_part, missing, transactions_denial};
ghost use Rattle.gate_chain.specs.Marking.{all_in, coins_in, is_marked, unspent_in, coins_made, ids_of};
ghost use Rattle.gate_chain.specs.Linked.{IsConnected, AreMaps, SpentMade, Opens, Enters, Connects};

use crate::block::Block;
use crate::connected::Connected;
use crate::fault::ChainFault;
use crate::making::make;
use crate::marked::{spend, unspend};
use crate::tables::CoinTables;
use gate_bytes::{Counted, Memory};
use gate_rules::ChainDenial;
use gate_tx::{Identified, TxIn, Txid};
use indexmap::IndexSet;
use std::alloc::Global;
use std::hash::BuildHasher;

/// Spends the coins of a transaction's inputs, but not of a coinbase's.
fn spend_later<S: BuildHasher + Copy + Drop>(
    coinbase: bool,
    coins: &mut CoinTables<S>,
    inputs: &[TxIn],
) -> bool
    ensures coins { coins_in (all_in coins.new) ≡ coins_in (all_in coins.old) }
    ensures opening { coins_in coins.new.opening.entries ≡ coins_in coins.old.opening.entries }
    ensures found { (not coinbase && missing (λ p. is_some (unspent_in (all_in coins.old) p)) inputs.now) ≡ not result }
    ensures marks { (p : Point) → is_marked (all_in coins.new) p ≡ ((result && (not coinbase && spends inputs.now p)) || is_marked (all_in coins.old) p) }
{
    if coinbase { true } else { spend(coins, inputs) }
}

/// Marks the coins of a transaction's inputs as unspent, but not of a coinbase's.
fn unspend_later<S: BuildHasher + Copy + Drop>(
    coinbase: bool,
    coins: &mut CoinTables<S>,
    inputs: &[TxIn],
)
    ensures coins { coins_in (all_in coins.new) ≡ coins_in (all_in coins.old) }
    ensures opening { coins_in coins.new.opening.entries ≡ coins_in coins.old.opening.entries }
    ensures marks { (p : Point) → is_marked (all_in coins.new) p ≡ (if not coinbase && spends inputs.now p then false else is_marked (all_in coins.old) p) }
{
    if !coinbase {
        unspend(coins, inputs);
    }
}

fn is_repeated<S: BuildHasher + Copy + Drop>(
    opened: &IndexSet<Txid, S>,
    txids: &IndexSet<Txid, S>,
    id: &Txid,
) -> bool
    ensures { result ≡ (contains bytes_eq opened.now id.now || contains bytes_eq txids.now id.now) }
{
    opened.contains(id) || txids.contains(id)
}

/// Adds the id of a transaction, for which there is room.
fn note<S: BuildHasher + Copy + Drop>(txids: &mut IndexSet<Txid, S>, id: Txid)
    requires room { 1 ≤ set_spare txids.old }
    requires new { contains bytes_eq txids.old id ≡ false }
    ensures { txids.new.keys ≡ txids.old.keys ++ id ∷ [] }
{
    let noted: Result<_, _> = txids.insert(id);
    let _ = noted.unwrap();
}

/// The place of a transaction of a block.
#[derive(Clone, Copy, PartialEq, Eq)]
struct Position {
    /// The height of its block.
    height: u32,
    /// Whether it is the block's first.
    coinbase: bool,
}

/// Enters the next transaction of a block, or leaves the maps as they are.
fn enter<S: BuildHasher + Copy + Drop>(
    alloc: Global,
    opened: &IndexSet<Txid, S>,
    coins: &mut CoinTables<S>,
    txids: &mut IndexSet<Txid, S>,
    position: Position,
    tx: &Identified,
) -> Result<(), ChainFault>
    ensures entered { (h : History) (header : List ℕ) (done : List Tx) → Opens h opened.now.keys position.height → position.coinbase ≡ not (is_nonempty done)
        → AreMaps (with_part h header done) (all_in coins.old) txids.old.keys
        → Enters h header done tx.now result (all_in coins.new) txids.new.keys }
    ensures opening { coins_in coins.new.opening.entries ≡ coins_in coins.old.opening.entries }
{
    let Position { height, coinbase } = position;
    let id = tx.txid();
    let tx = tx.transaction();
    if is_repeated(opened, txids, &id) {
        return Err(ChainFault::Denied(ChainDenial::TxidRepeated));
    }
    txids.reserve(1)?;
    let found = spend_later(coinbase, coins, tx.inputs());
    if !found {
        return Err(ChainFault::Denied(ChainDenial::BlockInputs));
    }
    tx.recall_invariant();
    match make(alloc, &mut coins.made, id, height, coinbase, tx.outputs()) {
        Ok(()) => {
            note(txids, id);
            Ok(())
        }
        Err(Memory) => {
            unspend_later(coinbase, coins, tx.inputs());
            Err(ChainFault::Memory)
        }
    }
}

/// Takes the first transactions of a block out again: the coins and ids past these numbers of them.
pub(crate) fn leave<S: BuildHasher + Copy + Drop>(
    coins: &mut CoinTables<S>,
    txids: &mut IndexSet<Txid, S>,
    coins_before: usize,
    ids_before: usize,
    txs: &[Counted<Identified>],
)
    ensures left { (h : History) (header : List ℕ) → SpentMade h → transactions_denial h header [] txs.now ≡ None
        → coins_before + length coins.old.opening.entries ≡ length (coins_made h) → ids_before ≡ length (ids_of h.blocks)
        → AreMaps (with_part h header txs.now) (all_in coins.old) txids.old.keys → AreMaps h (all_in coins.new) txids.new.keys }
    ensures opening { coins_in coins.new.opening.entries ≡ coins_in coins.old.opening.entries }
{
    coins.made.truncate(coins_before);
    txids.truncate(ids_before);
    give_back(coins, txs);
}

/// Gives back the coins that the transactions of a block spent.
fn give_back<S: BuildHasher + Copy + Drop>(coins: &mut CoinTables<S>, txs: &[Counted<Identified>])
    ensures coins { coins_in (all_in coins.new) ≡ coins_in (all_in coins.old) }
    ensures opening { coins_in coins.new.opening.entries ≡ coins_in coins.old.opening.entries }
    ensures marks { (p : Point) → is_marked (all_in coins.new) p ≡ (if any_spends (drop 1 txs.now) p then false else is_marked (all_in coins.old) p) }
{
    match txs {
        [] => {}
        [_coinbase, others @ ..] => unspend_all(coins, others),
    }
}

fn unspend_all<S: BuildHasher + Copy + Drop>(coins: &mut CoinTables<S>, txs: &[Counted<Identified>])
    ensures coins { coins_in (all_in coins.new) ≡ coins_in (all_in coins.old) }
    ensures opening { coins_in coins.new.opening.entries ≡ coins_in coins.old.opening.entries }
    ensures marks { (p : Point) → is_marked (all_in coins.new) p ≡ (if any_spends txs.now p then false else is_marked (all_in coins.old) p) }
{
    for tx in txs {
        unspend(coins, tx.get().transaction().inputs());
    }
}

/// Connects a block, or leaves the maps as they are.
pub(crate) fn connect<S: BuildHasher + Copy + Drop>(
    alloc: Global,
    opened: &IndexSet<Txid, S>,
    coins: &mut CoinTables<S>,
    txids: &mut IndexSet<Txid, S>,
    height: u32,
    block: Block,
) -> Result<Connected, ChainFault>
    ensures connected { (h : History) → Opens h opened.now.keys height → length coins.old.opening.entries ≡ length h.coins → AreMaps h (all_in coins.old) txids.old.keys
        → Connects h block result (all_in coins.new) txids.new.keys }
    ensures opening { coins_in coins.new.opening.entries ≡ coins_in coins.old.opening.entries }
{
    let coins_before = coins.made.len();
    let ids_before = txids.len();
    let txs = block.transactions();
    for (place, tx) in txs.iter().enumerate() {
        let position = Position {
            height,
            coinbase: place == 0,
        };
        if let Err(fault) = enter(alloc, opened, coins, txids, position, tx.get()) {
            leave(coins, txids, coins_before, ids_before, &txs[..place]);
            return Err(fault);
        }
    }
    Ok(Connected {
        block,
        coins: coins_before,
        ids: ids_before,
    })
}

/// Disconnects a block. It takes no memory.
pub(crate) fn disconnect<S: BuildHasher + Copy + Drop>(
    coins: &mut CoinTables<S>,
    txids: &mut IndexSet<Txid, S>,
    last: Connected,
) -> Block
    ensures block { result ≡ last.block }
    ensures maps { (h : History) → IsConnected h last → length coins.old.opening.entries ≡ length h.coins → AreMaps (grown h last.block) (all_in coins.old) txids.old.keys → AreMaps h (all_in coins.new) txids.new.keys }
    ensures opening { coins_in coins.new.opening.entries ≡ coins_in coins.old.opening.entries }
{
    let Connected {
        block,
        coins: coins_before,
        ids,
    } = last;
    leave(coins, txids, coins_before, ids, block.transactions());
    block
}
