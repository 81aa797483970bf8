//! Blocks that become the opening's, and coins that nobody needs.
ghost use Rattle.std.specs.Prelude.{◌≡◌, None, true, false, List, ℕ, length, IfErr, IfOk, OnErr, OnOk};
ghost use Rattle.gate_tx.specs.declared.OutPoint.{OutPoint as Point};
ghost use Rattle.gate_chain.specs.Coins.{coin_of, is_known_txid};
ghost use Rattle.gate_chain.specs.Connecting.{Tells};
ghost use Rattle.gate_chain.specs.Forgetting.{counts, dropped_coins, forget_denial, forgotten};
ghost use Rattle.gate_chain.specs.Times.{times_of};

use super::Chain;
use crate::connected::Place;
use crate::fault::ChainFault;
use crate::forgetting::{Parting, part, place_below, settle, take_out};
use gate_rules::ChainDenial;
use gate_tx::OutPoint;
use std::alloc::Global;
use std::hash::BuildHasher;

/// A test of outpoints: whether somebody beside the chain needs the coin, as an unconfirmed transaction that spends it.
pub trait CoinTest {
    ghost use Rattle.std.specs.Prelude.{◌≡◌, Bool};
    ghost use Rattle.gate_tx.specs.declared.OutPoint.{OutPoint as Point};

    ghost wanted: { Self → Point → Bool };

    fn wants(&self, outpoint: &OutPoint) -> bool
        ensures { result ≡ wanted self.now outpoint.now };
}

/// What a chain forgot: how many coins it had that no block spends, and has no more.
#[derive(Clone, Copy, PartialEq, Eq)]
pub struct Forgotten {
    pub coins: u64,
}

impl<S: BuildHasher + Copy + Drop> Chain<S> {
    /// Makes the lowest connected blocks blocks of the opening, and keeps of its coins those that one of the other blocks
    /// spends, or that none spends and the test wants. The denial is C6, if fewer blocks are connected; 0 blocks is a
    /// call that forgets coins alone. Memory is taken for what stays and not for what goes. After any fault the chain is
    /// as it was.
    pub fn forget<T: CoinTest>(
        &mut self,
        alloc: Global,
        blocks: usize,
        test: &T,
    ) -> Result<Forgotten, ChainFault>
        ensures ok { OnOk result (self.new ≡ forgotten self.old blocks (T.wanted test.now)) }
        ensures err { OnErr result (self.new ≡ self.old) }
        ensures passes { OnOk result (forget_denial self.old blocks ≡ None) }
        ensures denied { IfErr result (λ fault. Tells fault (forget_denial self.old blocks)) }
        ensures count { IfOk result (λ f. f.coins ≡ length (dropped_coins self.old blocks (T.wanted test.now))) }
        ensures times { times_of self.new ≡ times_of self.old }
        ensures coins { (p : Point) → counts self.old blocks (T.wanted test.now) p ≡ true → coin_of self.new p ≡ coin_of self.old p }
        ensures known { (id : List ℕ) → is_known_txid self.old id ≡ false → is_known_txid self.new id ≡ false }
    {
        if blocks > self.blocks.len() {
            return Err(ChainFault::Denied(ChainDenial::NoUndo));
        }
        let all = Place {
            coins: self.coins.made.len(),
            ids: self.txids.len(),
        };
        let rest = &self.blocks.as_slice()[blocks..];
        let below = place_below(rest, all);
        let Parting {
            later,
            txids,
            opening_txids,
            room,
            lost,
        } = part(alloc, &self.coins, &self.txids, below, rest, test)?;
        settle(&mut self.coins, below.coins, room, &later, test)?;
        self.opening_txids = opening_txids;
        self.txids = txids;
        take_out(&mut self.blocks, blocks, below);
        self.opening_times += blocks;
        Ok(Forgotten { coins: lost as u64 })
    }
}
