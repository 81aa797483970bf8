//! Timelocks: A20 and A26.
ghost use Rattle.std.specs.Prelude.{◌≡◌, ◌≤◌, ◌+◌, IfOk, length, map, All};
ghost use Rattle.gate_bytes.specs.Order.{first_failing};
ghost use Rattle.gate_chain.specs.Times.{tip_of};
ghost use Rattle.gate_locks.specs.Locks.{median_at};
ghost use Rattle.gate_admit.specs.Rules.{final_rules, lock_rules, heights_of};

use crate::coins::LentCoin;
use gate_bytes::Memory;
use gate_chain::Chain;
use gate_locks::{has_relative_lock, is_final, sequence_locks_met};
use gate_standard::Denial;
use gate_tx::Transaction;
use std::alloc::Global;
use std::hash::BuildHasher;

/// The median time past of the tip.
pub fn tip_median<S: BuildHasher + Copy + Drop>(chain: &Chain<S>) -> u32
    ensures { result ≡ median_at chain.now (tip_of chain.now) }
{
    chain.mtp(chain.tip()).unwrap()
}

/// The denial of A20 if it fails: the locktime at the next height and the tip's median time past.
#[tactic(auto, unfolding(crate::specs::Rules::final_rules))]
pub fn check_final<S: BuildHasher + Copy + Drop>(
    chain: &Chain<S>,
    tx: &Transaction,
) -> Option<Denial>
    ensures { result ≡ first_failing (final_rules chain.now tx.now) }
{
    if is_final(tx, chain.tip() + 1, tip_median(chain)) {
        None
    } else {
        Some(Denial::NonFinal)
    }
}

fn heights_of(alloc: Global, coins: &[LentCoin<'_>]) -> Result<Vec<u32>, Memory>
    ensures { IfOk result (λ heights. heights.items ≡ heights_of coins.now) }
{
    let mut heights = Vec::with_capacity(alloc, coins.len())?;
    for coin in coins {
        heights.push(coin.height())?;
    }
    Ok(heights)
}

/// The denial of A26 if it fails: the relative timelocks of BIP 68 over these coins, one for each input.
#[tactic(auto, unfolding(crate::specs::Rules::lock_rules))]
pub fn check_locks<S: BuildHasher + Copy + Drop>(
    alloc: Global,
    chain: &Chain<S>,
    coins: &[LentCoin<'_>],
    tx: &Transaction,
) -> Result<Option<Denial>, Memory>
    requires one_each { length coins.now ≡ length tx.now.inputs }
    requires within { All (λ c. c.height ≤ tip_of chain.now + 1) coins.now }
    ensures { IfOk result (λ found. found ≡ first_failing (lock_rules chain.now coins.now tx.now)) }
{
    if !has_relative_lock(tx) {
        return Ok(None);
    }
    let heights = heights_of(alloc, coins)?;
    if sequence_locks_met(tx, &heights, chain) {
        Ok(None)
    } else {
        Ok(Some(Denial::NonBip68Final))
    }
}
