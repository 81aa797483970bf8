//! What blocks that become the opening's leave of a chain's tables.
ghost use Rattle.std.specs.Prelude.{◌≡◌, ℕ, ◌+◌, ◌-◌, ◌<◌, ◌≤◌, ◌^◌, ◌++◌, ◌∷◌, ◌||◌, [], List, drop, take, map, length, IfOk, OnOk, OnErr};
ghost use Rattle.std.specs.List.{IsDistinct};
ghost use Rattle.std.specs.Map.{keys_of};
ghost use Rattle.gate_tx.specs.Coins.{point_eq, spends};
ghost use Rattle.gate_tx.specs.declared.OutPoint.{OutPoint as Point};
ghost use Rattle.gate_chain.specs.Coins.{any_spends};
ghost use Rattle.gate_chain.specs.Forgetting.{is_spent_in_any};
ghost use Rattle.gate_chain.specs.Parting.{is_kept, kept_of, lost_of, place_below, rebased, IsTally};
ghost use Rattle.gate_chain.specs.declared.marked.Marked.{Marked as Mark};
ghost use Rattle.indexmap.specs.IndexMap.{spare};
ghost use Rattle.indexmap.specs.IndexSet.{contains};

use crate::chain::CoinTest;
use crate::connected::{Connected, Place};
use crate::copying::copy_ids;
use crate::marked::Marked;
use crate::tables::CoinTables;
use gate_bytes::{Counted, Memory};
use gate_tx::{Identified, OutPoint, TxIn, Txid};
use indexmap::{IndexMap, IndexSet};
use std::alloc::Global;
use std::hash::BuildHasher;

/// Adds the outpoints that inputs spend.
fn note_inputs<S: BuildHasher + Copy + Drop>(
    points: &mut IndexSet<OutPoint, S>,
    inputs: &[TxIn],
) -> Result<(), Memory>
    ensures { OnOk result ((p : Point) → contains point_eq points.new p ≡ (contains point_eq points.old p || spends inputs.now p)) }
{
    for input in inputs {
        points.insert(input.prevout)?;
    }
    Ok(())
}

/// Adds the outpoints that transactions spend.
fn note_all<S: BuildHasher + Copy + Drop>(
    points: &mut IndexSet<OutPoint, S>,
    txs: &[Counted<Identified>],
) -> Result<(), Memory>
    ensures { OnOk result ((p : Point) → contains point_eq points.new p ≡ (contains point_eq points.old p || any_spends txs.now p)) }
{
    for tx in txs {
        note_inputs(points, tx.get().transaction().inputs())?;
    }
    Ok(())
}

/// Adds the outpoints that a block's transactions spend, without its coinbase's.
fn note_block<S: BuildHasher + Copy + Drop>(
    points: &mut IndexSet<OutPoint, S>,
    txs: &[Counted<Identified>],
) -> Result<(), Memory>
    ensures { OnOk result ((p : Point) → contains point_eq points.new p ≡ (contains point_eq points.old p || any_spends (drop 1 txs.now) p)) }
{
    match txs {
        [] => Ok(()),
        [_coinbase, others @ ..] => note_all(points, others),
    }
}

/// The outpoints that blocks spend.
fn spent_by<S: BuildHasher + Copy + Drop>(
    alloc: Global,
    hasher: S,
    blocks: &[Connected],
) -> Result<IndexSet<OutPoint, S>, Memory>
    ensures { IfOk result (λ points. (p : Point) → contains point_eq points p ≡ is_spent_in_any p (map (λ c. c.block) blocks.now)) }
{
    let mut points = IndexSet::with_hasher(alloc, hasher);
    for connected in blocks {
        note_block(&mut points, connected.block.transactions())?;
    }
    Ok(points)
}

/// Whether a coin is kept: a later block spends it, or no block spends it and the test wants it.
fn is_kept<S: BuildHasher + Copy + Drop, T: CoinTest>(
    later: &IndexSet<OutPoint, S>,
    test: &T,
    outpoint: &OutPoint,
    marked: &Marked,
) -> bool
    ensures { result ≡ is_kept (contains point_eq later.now) (T.wanted test.now) (outpoint.now, marked.now) }
{
    later.contains(outpoint) || (!marked.spent && test.wants(outpoint))
}

/// What a pass over coins finds: which transactions made those that are kept, how many are kept, and how many are lost
/// although no block spends them.
#[derive(Drop)]
pub(crate) struct Tally<S: BuildHasher + Copy + Drop> {
    pub ids: IndexSet<Txid, S>,
    pub kept: usize,
    pub lost: usize,
}

/// Adds a coin to a tally.
fn tally_coin<S: BuildHasher + Copy + Drop, T: CoinTest>(
    tally: &mut Tally<S>,
    later: &IndexSet<OutPoint, S>,
    test: &T,
    outpoint: &OutPoint,
    marked: &Marked,
) -> Result<(), Memory>
    requires { tally.old.kept + tally.old.lost + 1 < 2 ^ 64 }
    ensures tally { OnOk result ((es : List (Point × Mark)) → IsTally (contains point_eq later.now) (T.wanted test.now) es tally.old.ids.keys tally.old.kept tally.old.lost
        → IsTally (contains point_eq later.now) (T.wanted test.now) (es ++ (outpoint.now, marked.now) ∷ []) tally.new.ids.keys tally.new.kept tally.new.lost) }
    ensures few { OnOk result (tally.new.kept + tally.new.lost ≤ tally.old.kept + tally.old.lost + 1) }
{
    if is_kept(later, test, outpoint, marked) {
        tally.ids.insert(outpoint.txid)?;
        tally.kept += 1;
    } else if !marked.spent {
        tally.lost += 1;
    }
    Ok(())
}

/// Adds the coin at a place of a table to a tally.
fn tally_place<S: BuildHasher + Copy + Drop, T: CoinTest>(
    tally: &mut Tally<S>,
    coins: &IndexMap<OutPoint, Marked, S>,
    place: usize,
    later: &IndexSet<OutPoint, S>,
    test: &T,
) -> Result<(), Memory>
    requires within { place < length coins.now.entries }
    requires few { tally.old.kept + tally.old.lost + 1 < 2 ^ 64 }
    ensures tally { OnOk result ((es : List (Point × Mark)) → IsTally (contains point_eq later.now) (T.wanted test.now) (es ++ take place coins.now.entries) tally.old.ids.keys tally.old.kept tally.old.lost
        → IsTally (contains point_eq later.now) (T.wanted test.now) (es ++ take (place + 1) coins.now.entries) tally.new.ids.keys tally.new.kept tally.new.lost) }
    ensures few { OnOk result (tally.new.kept + tally.new.lost ≤ tally.old.kept + tally.old.lost + 1) }
{
    match coins.get_index(place) {
        Some((outpoint, marked)) => tally_coin(tally, later, test, outpoint, marked),
        None => Ok(()),
    }
}

/// Adds the first so many coins of a table to a tally.
fn tally_coins<S: BuildHasher + Copy + Drop, T: CoinTest>(
    tally: &mut Tally<S>,
    coins: &IndexMap<OutPoint, Marked, S>,
    count: usize,
    later: &IndexSet<OutPoint, S>,
    test: &T,
) -> Result<(), Memory>
    requires within { count ≤ length coins.now.entries }
    requires few { tally.old.kept + tally.old.lost + count < 2 ^ 64 }
    ensures tally { OnOk result ((es : List (Point × Mark)) → IsTally (contains point_eq later.now) (T.wanted test.now) es tally.old.ids.keys tally.old.kept tally.old.lost
        → IsTally (contains point_eq later.now) (T.wanted test.now) (es ++ take count coins.now.entries) tally.new.ids.keys tally.new.kept tally.new.lost) }
    ensures few { OnOk result (tally.new.kept + tally.new.lost ≤ tally.old.kept + tally.old.lost + count) }
{
    for place in 0..count {
        tally_place(tally, coins, place, later, test)?;
    }
    Ok(())
}

/// What is known before blocks become the opening's: the outpoints that later blocks spend, the ids of later blocks'
/// transactions and of the opening's coins, how many of the blocks' coins are kept, and how many coins are lost.
#[derive(Drop)]
pub(crate) struct Parting<S: BuildHasher + Copy + Drop> {
    pub later: IndexSet<OutPoint, S>,
    pub txids: IndexSet<Txid, S>,
    pub opening_txids: IndexSet<Txid, S>,
    pub room: usize,
    pub lost: usize,
}

/// Plans that the blocks below these later ones become the opening's.
pub(crate) fn part<S: BuildHasher + Copy + Drop, T: CoinTest>(
    alloc: Global,
    coins: &CoinTables<S>,
    txids: &IndexSet<Txid, S>,
    below: Place,
    blocks: &[Connected],
    test: &T,
) -> Result<Parting<S>, Memory>
    requires coins { below.coins ≤ length coins.now.made.entries }
    requires small { below.coins < 2 ^ 63 }
    requires ids { below.ids ≤ length txids.now.keys }
    ensures distinct { OnOk result (IsDistinct point_eq (keys_of coins.now.opening.entries)) }
    ensures later { IfOk result (λ parting. (p : Point) → contains point_eq parting.later p ≡ is_spent_in_any p (map (λ c. c.block) blocks.now)) }
    ensures txids { IfOk result (λ parting. parting.txids.keys ≡ drop below.ids txids.now.keys) }
    ensures room { IfOk result (λ parting. parting.room
        ≡ length (kept_of (contains point_eq parting.later) (T.wanted test.now) (take below.coins coins.now.made.entries))) }
    ensures tally { IfOk result (λ parting. (kept : ℕ) × IsTally (contains point_eq parting.later) (T.wanted test.now)
        (coins.now.opening.entries ++ take below.coins coins.now.made.entries) parting.opening_txids.keys kept parting.lost) }
{
    let hasher = *txids.hasher();
    let later = spent_by(alloc, hasher, blocks)?;
    let mut tally = Tally {
        ids: IndexSet::with_hasher(alloc, hasher),
        kept: 0,
        lost: 0,
    };
    tally_coins(
        &mut tally,
        &coins.opening,
        coins.opening.len(),
        &later,
        test,
    )?;
    let opened = tally.kept;
    tally_coins(&mut tally, &coins.made, below.coins, &later, test)?;
    Ok(Parting {
        txids: copy_ids(alloc, txids, below.ids)?,
        later,
        opening_txids: tally.ids,
        room: tally.kept - opened,
        lost: tally.lost,
    })
}

/// Keeps those coins that are needed.
fn keep_needed<S: BuildHasher + Copy + Drop, T: CoinTest>(
    coins: &mut IndexMap<OutPoint, Marked, S>,
    later: &IndexSet<OutPoint, S>,
    test: &T,
)
    ensures entries { coins.new.entries ≡ kept_of (contains point_eq later.now) (T.wanted test.now) coins.old.entries }
    ensures room { spare coins.old ≤ spare coins.new }
{
    coins.retain(
        |outpoint: &OutPoint, marked: &mut Marked| -> bool
            ensures { (result ≡ is_kept (contains point_eq later.entry.now) (T.wanted test.entry.now) (outpoint.now, marked.old)) × (marked.new ≡ marked.old) }
        { is_kept(later, test, outpoint, marked) },
    );
}

/// Moves those that are needed of the first coins that blocks made behind those of the opening that are needed; or leaves
/// all as they are.
pub(crate) fn settle<S: BuildHasher + Copy + Drop, T: CoinTest>(
    coins: &mut CoinTables<S>,
    count: usize,
    room: usize,
    later: &IndexSet<OutPoint, S>,
    test: &T,
) -> Result<(), Memory>
    requires within { count ≤ length coins.old.made.entries }
    requires fits { length (kept_of (contains point_eq later.now) (T.wanted test.now) (take count coins.old.made.entries)) ≤ room }
    ensures opening { OnOk result (IsDistinct point_eq (keys_of (coins.old.opening.entries ++ take count coins.old.made.entries))
        → coins.new.opening.entries ≡ kept_of (contains point_eq later.now) (T.wanted test.now) (coins.old.opening.entries ++ take count coins.old.made.entries)) }
    ensures made { OnOk result (coins.new.made.entries ≡ drop count coins.old.made.entries) }
    ensures same_opening { OnErr result (coins.new.opening.entries ≡ coins.old.opening.entries) }
    ensures same_made { OnErr result (coins.new.made.entries ≡ coins.old.made.entries) }
{
    coins.opening.reserve(room)?;
    let rest = coins.made.split_off(count)?;
    keep_needed(&mut coins.opening, later, test);
    keep_needed(&mut coins.made, later, test);
    let joined: Result<_, _> = coins.opening.append(&mut coins.made);
    joined.unwrap();
    coins.made = rest;
    Ok(())
}

/// How many coins and ids the blocks below these made; all, if these are none.
pub(crate) fn place_below(blocks: &[Connected], all: Place) -> Place
    ensures { result ≡ place_below blocks.now all }
{
    match blocks {
        [] => all,
        [first, ..] => Place {
            coins: first.coins,
            ids: first.ids,
        },
    }
}

/// Counts so many coins and ids fewer below each block.
fn rebase(blocks: &mut Vec<Connected>, by: Place)
    ensures { blocks.new.items ≡ map (rebased by) blocks.old.items }
{
    for block in blocks.iter_mut() {
        block.coins = block.coins.saturating_sub(by.coins);
        block.ids = block.ids.saturating_sub(by.ids);
    }
}

/// Takes the first blocks out, which made so many coins and ids.
pub(crate) fn take_out(blocks: &mut Vec<Connected>, count: usize, made: Place)
    requires { count ≤ length blocks.old.items }
    ensures { blocks.new.items ≡ map (rebased made) (drop count blocks.old.items) }
{
    let left = blocks.len() - count;
    blocks.rotate_left(count);
    blocks.truncate(left);
    rebase(blocks, made);
}
