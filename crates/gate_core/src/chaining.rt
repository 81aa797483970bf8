//! Events of the chain's caller.
ghost use Rattle.std.specs.Prelude.{◌≡◌, Some, true, is_some, IfOk, OnOk, OnErr};
ghost use Rattle.gate_bytes.specs.Order.{first_failing};
ghost use Rattle.gate_pool.specs.Pool.{entry_by_txid};
ghost use Rattle.gate_message.specs.Replies.{chain_reply};
ghost use Rattle.gate_core.specs.ChainSteps.{chain_step, chained, coin_rules, coin_step, verdict_step, forget_step};
ghost use Rattle.gate_core.specs.Planning.{world_of};
ghost use Rattle.gate_pool.specs.Moves.{IsMarked};

use crate::parts::StateParts;
use gate_admit::{OpeningCoin, Pool, VerdictRow};
use gate_bytes::{Copied, Memory};
use gate_chain::{Block, ChainDenial, ChainFault, CoinTest};
use gate_message::{ChainEvent, ChainOutcome};
use gate_reorg::chain_event;
use gate_tx::OutPoint;
use std::alloc::Global;
use std::hash::BuildHasher;

/// The outpoints that entries of a pool spend.
#[derive(Drop)]
struct Spends<'a, S: BuildHasher + Copy + Drop> {
    pool: &'a Pool<S>,
}

impl<'a, S: BuildHasher + Copy + Drop> CoinTest for Spends<'a, S> {
    ghost use Rattle.gate_core.specs.ChainSteps.{is_spent_by_some};

    ghost wanted = { λ spends p. is_spent_by_some spends.pool.now.entries p };

    fn wants(&self, outpoint: &OutPoint) -> bool {
        self.pool.spender(outpoint).is_some()
    }
}

impl<S: BuildHasher + Copy + Drop> StateParts<S> {
    /// Makes an event of the chain's caller. A denial names the first rule that fails, and then nothing changes; nor does
    /// it if memory runs out.
    pub(crate) fn follow(
        &mut self,
        alloc: Global,
        event: &ChainEvent,
    ) -> Result<ChainOutcome, Memory>
        ensures ok { IfOk result (λ outcome. (chain_reply outcome, world_of self.new) ≡ chain_step (world_of self.old) event.now) }
        ensures err { OnErr result (world_of self.new ≡ world_of self.old) }
        ensures before { IsMarked self.old.pool → OnOk result (self.new.pool.before ≡ self.old.pool.entries) }
    {
        match event {
            ChainEvent::MoveTip {
                disconnect,
                now,
                blocks,
            } => self.move_tip(alloc, *disconnect, *now, blocks.get().as_slice()),
            ChainEvent::LearnCoin(coin) => self.learn_coin(alloc, coin),
            ChainEvent::LearnVerdict(row) => self.learn_verdict(*row),
            ChainEvent::Forget { blocks } => self.forget(alloc, *blocks),
        }
    }

    /// Disconnects this many blocks and connects these in their place, at this second.
    fn move_tip(
        &mut self,
        alloc: Global,
        disconnect: u64,
        now: u64,
        blocks: &[Option<Block>],
    ) -> Result<ChainOutcome, Memory>
        ensures ok { IfOk result (λ outcome. (chain_reply outcome, world_of self.new) ≡ chained (world_of self.old) disconnect now blocks.now) }
        ensures err { OnErr result (world_of self.new ≡ world_of self.old) }
        ensures before { IsMarked self.old.pool → OnOk result (self.new.pool.before ≡ self.old.pool.entries) }
    {
        match chain_event(
            alloc,
            &mut self.chain,
            &mut self.pool,
            &mut self.floor,
            &self.verdicts,
            &self.policy,
            disconnect,
            blocks,
            now,
            self.budget,
        ) {
            Ok(moved) => Ok(ChainOutcome::Moved(moved)),
            Err(ChainFault::Denied(denial)) => {
                self.pool.mark();
                Ok(ChainOutcome::Refused(denial))
            }
            Err(ChainFault::Memory) => Err(Memory),
        }
    }

    /// The denial of a coin of an entry's transaction: C11, unless a rule before it fails.
    fn denial_of_entry_coin(&self, coin: &OpeningCoin) -> ChainDenial
        requires { is_some (entry_by_txid self.now.pool.entries coin.now.outpoint.txid) ≡ true }
        ensures { first_failing (coin_rules (world_of self.now) coin.now) ≡ Some result }
    {
        match self.chain.learn_denial(coin) {
            Some(denial) => denial,
            None => ChainDenial::CoinKnown,
        }
    }

    /// Learns a coin: it is one of the opening's from now on.
    fn learn_coin(&mut self, alloc: Global, coin: &OpeningCoin) -> Result<ChainOutcome, Memory>
        ensures ok { IfOk result (λ outcome. (chain_reply outcome, world_of self.new) ≡ coin_step (world_of self.old) coin.now) }
        ensures err { OnErr result (world_of self.new ≡ world_of self.old) }
        ensures before { IsMarked self.old.pool → OnOk result (self.new.pool.before ≡ self.old.pool.entries) }
    {
        if self.pool.entry(&coin.outpoint.txid).is_some() {
            let denial = self.denial_of_entry_coin(coin);
            return Ok(ChainOutcome::Refused(denial));
        }
        match self.chain.learn(coin.copy(alloc)?) {
            Ok(()) => Ok(ChainOutcome::Learnt),
            Err(ChainFault::Denied(denial)) => Ok(ChainOutcome::Refused(denial)),
            Err(ChainFault::Memory) => Err(Memory),
        }
    }

    /// Learns the verdict on an input.
    fn learn_verdict(&mut self, row: VerdictRow) -> Result<ChainOutcome, Memory>
        ensures ok { IfOk result (λ outcome. (chain_reply outcome, world_of self.new) ≡ verdict_step (world_of self.old) row) }
        ensures err { OnErr result (world_of self.new ≡ world_of self.old) }
        ensures before { IsMarked self.old.pool → OnOk result (self.new.pool.before ≡ self.old.pool.entries) }
    {
        match self.verdicts.learn(row) {
            Ok(()) => Ok(ChainOutcome::Learnt),
            Err(ChainFault::Denied(denial)) => Ok(ChainOutcome::Refused(denial)),
            Err(ChainFault::Memory) => Err(Memory),
        }
    }

    /// Makes the lowest blocks blocks of the opening, and forgets the coins and the verdicts that neither an entry nor a
    /// block above them needs. All memory is taken before anything changes, for what stays alone.
    fn forget(&mut self, alloc: Global, blocks: u64) -> Result<ChainOutcome, Memory>
        ensures ok { IfOk result (λ outcome. (chain_reply outcome, world_of self.new) ≡ forget_step (world_of self.old) blocks) }
        ensures err { OnErr result (world_of self.new ≡ world_of self.old) }
        ensures before { IsMarked self.old.pool → OnOk result (self.new.pool.before ≡ self.old.pool.entries) }
    {
        let confirmed = self
            .verdicts
            .confirmed(alloc, &self.chain, blocks as usize)?;
        let spends = Spends { pool: &self.pool };
        match self.chain.forget(alloc, blocks as usize, &spends) {
            Ok(forgotten) => {
                let rows = self.verdicts.forget(&self.pool, &confirmed);
                Ok(ChainOutcome::Forgotten {
                    blocks,
                    coins: forgotten.coins,
                    rows: rows as u64,
                })
            }
            Err(ChainFault::Denied(denial)) => Ok(ChainOutcome::Refused(denial)),
            Err(ChainFault::Memory) => Err(Memory),
        }
    }
}
