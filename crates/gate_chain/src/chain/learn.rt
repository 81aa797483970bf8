//! Coins that become the opening's later.
ghost use Rattle.std.specs.Prelude.{◌≡◌, ◌-◌, None, Some, true, false, List, ℕ, is_some, IfErr, OnErr, OnOk};
ghost use Rattle.std.specs.List.{list_any};
ghost use Rattle.std.specs.Str.{bytes_eq};
ghost use Rattle.gate_bytes.specs.Order.{first_failing};
ghost use Rattle.gate_tx.specs.declared.OutPoint.{OutPoint as Point};
ghost use Rattle.gate_chain.specs.Coins.{coin_of, has_outpoint, has_transaction, is_known_txid};
ghost use Rattle.gate_chain.specs.Connecting.{Tells};
ghost use Rattle.gate_chain.specs.History.{first_connected};
ghost use Rattle.gate_chain.specs.Learning.{learn_rules, learnt};

use super::Chain;
use crate::fault::ChainFault;
use crate::keeping::is_money;
use crate::learning::put;
use crate::opening::OpeningCoin;
use gate_rules::ChainDenial;
use gate_tx::{OutPoint, Txid, is_unspendable};
use std::hash::BuildHasher;

impl<S: BuildHasher + Copy + Drop> Chain<S> {
    /// The height of the opening's last block.
    fn opening_tip(&self) -> u32
        ensures { result ≡ first_connected self.now - 1 }
    {
        (self.opening_times - 1) as u32 + self.first
    }

    /// Whether the opening has a coin at an outpoint, spent or not.
    fn has_opening_coin(&self, outpoint: &OutPoint) -> bool
        ensures { result ≡ has_outpoint outpoint.now self.now.coins }
    {
        self.coins.opening.contains_key(outpoint)
    }

    /// Whether a connected block has a transaction.
    fn has_connected(&self, txid: &Txid) -> bool
        ensures { result ≡ list_any (has_transaction txid.now) self.now.blocks }
    {
        self.txids.contains(txid)
    }

    /// Why a coin is not learnt: the first of C8 to C11 that fails.
    #[tactic(auto, unfolding(crate::specs::Learning::learn_rules))]
    pub fn learn_denial(&self, opening: &OpeningCoin) -> Option<ChainDenial>
        ensures { result ≡ first_failing (learn_rules self.now opening.now) }
    {
        let OpeningCoin { outpoint, coin } = opening;
        if !is_money(coin.value) {
            Some(ChainDenial::CoinValue)
        } else if is_unspendable(coin.script.as_slice()) {
            Some(ChainDenial::CoinUnspendable)
        } else if coin.height > self.opening_tip() {
            Some(ChainDenial::CoinAboveOpening)
        } else if self.has_opening_coin(outpoint) || self.has_connected(&outpoint.txid) {
            Some(ChainDenial::CoinKnown)
        } else {
            None
        }
    }

    /// Adds a coin to those of the opening, behind the others. A denial names the first rule that fails of C8 to C11; that
    /// no unconfirmed transaction made the coin is the caller's to see. After any fault the chain is as it was.
    pub fn learn(&mut self, coin: OpeningCoin) -> Result<(), ChainFault>
        ensures ok { OnOk result (self.new ≡ learnt self.old coin) }
        ensures err { OnErr result (self.new ≡ self.old) }
        ensures passes { OnOk result (first_failing (learn_rules self.old coin) ≡ None) }
        ensures denied { IfErr result (λ fault. Tells fault (first_failing (learn_rules self.old coin))) }
        ensures coins { OnOk result ((p : Point) → is_some (coin_of self.old p) ≡ true → coin_of self.new p ≡ coin_of self.old p) }
        ensures known { OnOk result ((id : List ℕ) → bytes_eq id coin.outpoint.txid ≡ false
            → is_known_txid self.new id ≡ is_known_txid self.old id) }
    {
        if let Some(denial) = self.learn_denial(&coin) {
            return Err(ChainFault::Denied(denial));
        }
        put(&mut self.coins.opening, &mut self.opening_txids, coin)?;
        Ok(())
    }
}
