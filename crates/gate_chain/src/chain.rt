ghost use Rattle.std.specs.Prelude.{◌≡◌, ◌+◌, ◌-◌, ◌&&◌, ◌≤◌, ◌<◌, ◌↔◌, None, Some, is_some, length, nat_le, nat_lt, slice_get, vec_len, IsSome, IfSome, IfOk, IfErr, OnOk, OnErr, if◌then◌else◌};
ghost use Rattle.std.specs.Option.{option_copied};
ghost use Rattle.std.specs.Vec.{vec_capacity};
ghost use Rattle.gate_bytes.specs.Order.{first_failing};
ghost use Rattle.gate_chain.specs.Coins.{coin_of, opened_with_of};
ghost use Rattle.gate_chain.specs.Connecting.{grown, head_rules, block_rules, undo_denial, Tells};
ghost use Rattle.gate_chain.specs.Founding.{AreConnected, AreFounded};
ghost use Rattle.gate_chain.specs.History.{opened, opened_from};
ghost use Rattle.gate_chain.specs.Keeping.{IsFaultless};
ghost use Rattle.gate_chain.specs.Opening.{open_fault, open_fault_from, IsRefusedFor};
ghost use Rattle.gate_chain.specs.Times.{tip_of, time_of, mtp_of};

mod forget;
mod learn;
mod top;

use crate::block::Block;
use crate::connected::Connected;
use crate::copying::{copy_ids, copy_tables};
use crate::entering;
use crate::fault::{ChainFault, OpenFault};
use crate::heading::{is_too_old, lacks_coinbase};
use crate::keeping::{Coins, keep};
use crate::marked::unspent;
use crate::median::mtp_in;
use crate::opening::OpeningCoin;
use crate::tables::CoinTables;
pub use forget::{CoinTest, Forgotten};
use gate_bytes::{Copied, Memory};
use gate_rules::ChainDenial;
use gate_tx::{Coin, OutPoint, Txid};
use indexmap::{IndexMap, IndexSet};
use std::alloc::Global;
use std::hash::BuildHasher;
use std::marker::Model;
pub use top::ChainTop;

/// The most block times that a chain is opened with.
const MAX_TIMES: usize = 1_000_000;

/// The greatest height.
const MAX_HEIGHT: u32 = 10_000_000;

/// The coins and times of a chain: contracts see its history.
#[derive(Drop)]
pub struct Chain<S: BuildHasher + Copy + Drop> {
    // The height of the first block that has a time.
    first: u32,
    // How many of the times are the opening's, which come first.
    opening_times: usize,
    opening_txids: IndexSet<Txid, S>,
    times: Vec<u32>,
    blocks: Vec<Connected>,
    coins: CoinTables<S>,
    // The ids of the connected blocks' transactions.
    txids: IndexSet<Txid, S>,
}

impl<S: BuildHasher + Copy + Drop> Model for Chain<S> {
    ghost use Rattle.std.specs.Prelude.{length, take};
    ghost use Rattle.gate_chain.specs.History.{History};
    ghost use Rattle.gate_chain.specs.Linked.{IsLinkedFrom, history, opening_in};
    ghost use Rattle.gate_chain.specs.Marking.{all_in};

    ghost Value = { History };

    ghost invariant = { λ c. IsLinkedFrom c.first (length c.coins.opening.entries) c.opening_times c.opening_txids.keys c.times.items c.blocks.items (all_in c.coins) c.txids.keys };

    ghost view = { λ c. history c.first (opening_in (length c.coins.opening.entries) (all_in c.coins)) (take c.opening_times c.times.items) c.blocks.items };
}

/// Keeps the coins of an opening without a fault.
#[tactic(auto, unfolding(crate::specs::Opening::open_fault_from))]
fn checked<S: BuildHasher + Copy + Drop>(
    alloc: Global,
    hasher: S,
    first: u32,
    coins: Vec<OpeningCoin>,
    times: &[u32],
) -> Result<Coins<S>, OpenFault>
    ensures kept { IfOk result (λ opening. opening ≡ coins.items) }
    ensures faultless { OnOk result (IsFaultless first coins.items times.now) }
    ensures fault { IsRefusedFor (open_fault_from first coins.items times.now) result }
{
    if times.is_empty() {
        return Err(OpenFault::NoTimes);
    }
    let tip = times.len() + first as usize - 1;
    if times.len() > MAX_TIMES || tip > MAX_HEIGHT as usize {
        return Err(OpenFault::TimesLimit);
    }
    keep(alloc, hasher, coins, tip as u32)
}

/// Takes the memory for one more block and its time.
fn reserve_one(blocks: &mut Vec<Connected>, times: &mut Vec<u32>) -> Result<(), Memory>
    ensures same_blocks { blocks.new.items ≡ blocks.old.items }
    ensures same_times { times.new.items ≡ times.old.items }
    ensures blocks_room { OnOk result (vec_len blocks.new < vec_capacity blocks.new) }
    ensures times_room { OnOk result (vec_len times.new < vec_capacity times.new) }
{
    blocks.reserve(1)?;
    times.reserve(1)?;
    Ok(())
}

fn time_in(times: &[u32], first: u32, height: u32) -> Option<u32>
    ensures time { result ≡ (if nat_lt height first then None else slice_get times.now (height - first)) }
    ensures within { is_some result ≡ (nat_le first height && nat_lt height (length times.now + first)) }
{
    if height < first {
        return None;
    }
    times.get((height - first) as usize).copied()
}

impl<S: BuildHasher + Copy + Drop> Chain<S> {
    /// Opens a chain of these coins and of the times of its blocks, from height 0 on. A fault names the first thing
    /// that is wrong: the number of times, and then of each coin in turn its value, its script, its height and its
    /// outpoint. The hasher serves all tables that hold a txid or an outpoint.
    pub fn open(
        alloc: Global,
        hasher: S,
        coins: Vec<OpeningCoin>,
        times: Vec<u32>,
    ) -> Result<Chain<S>, OpenFault>
        ensures opened { IfOk result (λ chain. chain ≡ opened coins.items times.items) }
        ensures fault { IsRefusedFor (open_fault coins.items times.items) result }
    {
        Chain::open_from(alloc, hasher, 0, coins, times)
    }

    /// Opens a chain of these coins and of the times of its blocks from a height on; below it no time is known. Coins may
    /// have heights below it. A fault is named as by `open`, and there are too many times also if the tip is above
    /// 10,000,000.
    pub fn open_from(
        alloc: Global,
        hasher: S,
        first: u32,
        coins: Vec<OpeningCoin>,
        times: Vec<u32>,
    ) -> Result<Chain<S>, OpenFault>
        ensures opened { IfOk result (λ chain. chain ≡ opened_from first coins.items times.items) }
        ensures fault { IsRefusedFor (open_fault_from first coins.items times.items) result }
    {
        let kept = checked(alloc, hasher, first, coins, times.as_slice())?;
        let (opening, opening_txids) = kept.into_parts();
        let opening_times = times.len();
        Ok(Chain {
            first,
            opening_times,
            opening_txids,
            times,
            blocks: Vec::new(alloc),
            coins: CoinTables {
                opening,
                made: IndexMap::with_hasher(alloc, hasher),
            },
            txids: IndexSet::with_hasher(alloc, hasher),
        })
    }

    /// A copy of the chain, of the same history. It copies every coin.
    pub fn copy(&self, alloc: Global) -> Result<Chain<S>, Memory>
        ensures { IfOk result (λ chain. chain ≡ self.now) }
    {
        Ok(Chain {
            first: self.first,
            opening_times: self.opening_times,
            times: u32::copy_list(self.times.as_slice(), alloc)?,
            opening_txids: copy_ids(alloc, &self.opening_txids, 0)?,
            txids: copy_ids(alloc, &self.txids, 0)?,
            blocks: Connected::copy_list(self.blocks.as_slice(), alloc)?,
            coins: copy_tables(alloc, &self.coins)?,
        })
    }

    /// How many blocks are connected.
    pub fn connected(&self) -> usize
        ensures { result ≡ length self.now.blocks }
    {
        self.blocks.len()
    }

    /// The connected block at a place, the lowest at 0.
    pub fn block(&self, place: usize) -> Option<&Block>
        ensures { option_copied result ≡ slice_get self.now.blocks place }
    {
        match self.blocks.get(place) {
            Some(connected) => Some(&connected.block),
            None => None,
        }
    }

    /// States that each connected block had no fault on top of those before it, and that what it spends was known, for
    /// proofs: it does nothing.
    pub fn recall_blocks(&self)
        ensures connected { AreConnected self.now }
        ensures founded { AreFounded self.now }
    {
        let _first = self.first;
    }

    /// The coin at an outpoint.
    pub fn coin(&self, outpoint: &OutPoint) -> Option<&Coin>
        ensures coin { option_copied result ≡ coin_of self.now outpoint.now }
        ensures height { IfSome result (λ coin. coin.now.height ≤ tip_of self.now) }
    {
        unspent(&self.coins, outpoint)
    }

    /// Whether some coin of the opening came from this transaction.
    #[tactic(auto, unfolding(crate::specs::Coins::opened_with_of))]
    pub fn opened_with(&self, txid: &Txid) -> bool
        ensures { result ≡ opened_with_of self.now txid.now }
    {
        self.opening_txids.contains(txid)
    }

    /// The height of the first block whose time is known.
    pub fn first(&self) -> u32
        ensures { result ≡ self.now.first }
    {
        self.first
    }

    /// The greatest height.
    pub fn tip(&self) -> u32
        ensures tip { result ≡ tip_of self.now }
        ensures known { self.now.first ≤ result }
        ensures bound { result ≤ 10000000 }
    {
        (self.times.len() - 1) as u32 + self.first
    }

    /// The time of the block at a height, in seconds since 1970; none below the first height or above the tip.
    pub fn time(&self, height: u32) -> Option<u32>
        ensures time { result ≡ time_of self.now height }
        ensures within { IsSome result ↔ ((self.now.first ≤ height) × (height ≤ tip_of self.now)) }
    {
        time_in(self.times.as_slice(), self.first, height)
    }

    /// The median of the times that are known among those of a height and of the ten heights before it (BIP 113); none
    /// below the first height or above the tip.
    pub fn mtp(&self, height: u32) -> Option<u32>
        ensures median { result ≡ mtp_of self.now height }
        ensures within { IsSome result ↔ ((self.now.first ≤ height) × (height ≤ tip_of self.now)) }
    {
        mtp_in(self.times.as_slice(), self.first, height)
    }

    /// Why a block is not connected, as far as that needs none of its transactions' coins.
    #[tactic(auto, unfolding(crate::specs::Connecting::head_rules))]
    fn head_denial(&self, block: &Block) -> Option<ChainDenial>
        ensures { result ≡ first_failing (head_rules self.now block.now) }
    {
        let tip = self.tip();
        if tip >= MAX_HEIGHT {
            Some(ChainDenial::ChainFull)
        } else if is_too_old(block.header().time(), self.mtp(tip)) {
            Some(ChainDenial::TimeTooOld)
        } else if lacks_coinbase(block.transactions()) {
            Some(ChainDenial::BlockCoinbase)
        } else {
            None
        }
    }

    /// Connects a block above the tip. A denial names the first rule that fails: C7, C5, C2, and then of each
    /// transaction in turn C4 and C3. After any fault the chain is as it was.
    pub fn connect(&mut self, alloc: Global, block: Block) -> Result<(), ChainFault>
        ensures ok { OnOk result (self.new ≡ grown self.old block) }
        ensures err { OnErr result (self.new ≡ self.old) }
        ensures passes { OnOk result (first_failing (block_rules self.old block) ≡ None) }
        ensures denied { IfErr result (λ fault. Tells fault (first_failing (block_rules self.old block))) }
    {
        if let Some(denial) = self.head_denial(&block) {
            return Err(ChainFault::Denied(denial));
        }
        reserve_one(&mut self.blocks, &mut self.times)?;
        let time = block.header().time();
        let height = self.times.len() as u32 + self.first;
        let connected = entering::connect(
            alloc,
            &self.opening_txids,
            &mut self.coins,
            &mut self.txids,
            height,
            block,
        )?;
        self.times.push_reserved(time);
        self.blocks.push_reserved(connected);
        Ok(())
    }

    /// Disconnects the last block and gives it back. It takes no memory.
    pub fn disconnect(&mut self) -> Result<Block, ChainDenial>
        ensures ok { IfOk result (λ block. self.old ≡ grown self.new block) }
        ensures err { OnErr result (self.new ≡ self.old) }
        ensures passes { OnOk result (undo_denial self.old.blocks ≡ None) }
        ensures denied { IfErr result (λ denial. undo_denial self.old.blocks ≡ Some denial) }
    {
        match self.blocks.pop() {
            None => Err(ChainDenial::NoUndo),
            Some(last) => {
                let _ = self.times.pop();
                Ok(entering::disconnect(&mut self.coins, &mut self.txids, last))
            }
        }
    }
}

/// The law of a block that is connected and disconnected again: the chain is as it was, whatever happens, and the block
/// comes back.
pub fn there_and_back<S: BuildHasher + Copy + Drop>(
    chain: &mut Chain<S>,
    alloc: Global,
    block: Block,
) -> Result<Block, ChainFault>
    ensures chain { chain.new ≡ chain.old }
    ensures block { IfOk result (λ b. b ≡ block) }
    ensures passes { OnOk result (first_failing (block_rules chain.old block) ≡ None) }
    ensures denied { IfErr result (λ fault. Tells fault (first_failing (block_rules chain.old block))) }
{
    chain.connect(alloc, block)?;
    Ok(chain.disconnect()?)
}
