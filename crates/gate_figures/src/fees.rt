//! The fee of a transaction, and the virtual size that it pays for.
ghost use Rattle.std.specs.Prelude.{◌≡◌, ◌≤◌, ◌<◌, ◌-◌, ◌^◌, IfOk, IfSome, length};
ghost use Rattle.gate_tx.specs.Money.{amount_or_zero};
ghost use Rattle.gate_admit.specs.Reports.{reported, sigop_cost};
ghost use Rattle.gate_admit.specs.Rules.{coins_value, outputs_value};
ghost use Rattle.gate_figures.specs.Figures.{coins_at, cost_at, fee_at, pays, pays_above, sized, vsize_at};

use crate::coins::coins_of;
use crate::figures::Figures;
use gate_admit::{Chain, LentCoin, Policy, Pool, outputs_value, sigop_cost, vsize_of};
use gate_bytes::Memory;
use gate_inputs::{Answers, answers};
use gate_standard::Feerate;
use gate_tx::{Identified, TxIn};
use std::alloc::Global;
use std::hash::BuildHasher;

/// The most that signature operations may cost (Bitcoin Core's `MAX_STANDARD_TX_SIGOPS_COST`).
const MAX_COST: u128 = 16_000;

/// The fee of a transaction over a chain and a pool, and the virtual size that it pays for.
#[derive(Clone, Copy)]
pub(crate) struct Price {
    /// The total value of the transaction's coins, in satoshi.
    pub(crate) coins: u128,
    /// The total value of the transaction's outputs, in satoshi.
    pub(crate) outputs: u128,
    /// The value of the coins above that of the outputs, in satoshi.
    pub(crate) fee: u128,
    /// The cost of the transaction's signature operations.
    pub(crate) cost: u128,
    /// The transaction's virtual size, if the cost is within its limit.
    pub(crate) vsize: Option<u64>,
}

/// The value of a coin, in satoshi.
fn coin_amount(coin: &LentCoin<'_>) -> u128
    ensures value { result ≡ amount_or_zero coin.now.value }
    ensures small { result < 2 ^ 63 }
{
    let value = coin.value();
    if value < 0 { 0 } else { value as u128 }
}

/// The total value of coins, in satoshi.
fn coins_value(coins: &[LentCoin<'_>]) -> u128
    ensures { result ≡ coins_value coins.now }
{
    let mut sum: u128 = 0;
    for coin in coins {
        sum += coin_amount(coin);
    }
    sum
}

/// What is reported of each input with its coin.
pub(crate) fn reported(
    alloc: Global,
    inputs: &[TxIn],
    coins: &[LentCoin<'_>],
) -> Result<Vec<Answers>, Memory>
    requires { length coins.now ≤ length inputs.now }
    ensures reported { IfOk result (λ found. found.items ≡ reported inputs.now coins.now) }
    ensures few { IfOk result (λ found. length found.items ≤ length inputs.now) }
{
    let mut found = Vec::with_capacity(alloc, coins.len())?;
    for place in 0..coins.len() {
        let coin = &coins[place];
        found.push(answers(alloc, &inputs[place], coin.script())?)?;
    }
    Ok(found)
}

/// The virtual size of a transaction whose signature operations have this cost, if that is within its limit.
fn sized(policy: &Policy, cost: u128, tx: &Identified) -> Option<u64>
    ensures size { result ≡ sized policy.now.sigop_size cost tx.now }
    ensures some { IfSome result (λ vsize. 0 < vsize) }
{
    if cost > MAX_COST {
        return None;
    }
    Some(vsize_of(policy, cost as u64, tx))
}

impl Price {
    /// The price of a transaction over a chain and a pool, under a policy.
    pub(crate) fn of<S: BuildHasher + Copy + Drop>(
        alloc: Global,
        chain: &Chain<S>,
        pool: &Pool<S>,
        policy: &Policy,
        tx: &Identified,
    ) -> Result<Price, Memory>
        ensures coins { IfOk result (λ price. price.coins ≡ coins_at chain.now pool.now.entries tx.now) }
        ensures outputs { IfOk result (λ price. price.outputs ≡ outputs_value tx.now) }
        ensures fee { IfOk result (λ price. price.fee ≡ fee_at chain.now pool.now.entries tx.now) }
        ensures cost { IfOk result (λ price. price.cost ≡ cost_at chain.now pool.now.entries tx.now) }
        ensures vsize { IfOk result (λ price. price.vsize ≡ vsize_at policy.now.sigop_size chain.now pool.now.entries tx.now) }
        ensures some { IfOk result (λ price. IfSome price.vsize (λ vsize. 0 < vsize)) }
    {
        let found = coins_of(alloc, chain, pool, tx.transaction().inputs())?;
        Price::by_coins(alloc, policy, tx, found.as_slice())
    }

    /// The price of a transaction whose inputs spend these coins, under a policy.
    pub(crate) fn by_coins(
        alloc: Global,
        policy: &Policy,
        tx: &Identified,
        found: &[LentCoin<'_>],
    ) -> Result<Price, Memory>
        requires { length found.now ≤ length tx.now.inputs }
        ensures coins { IfOk result (λ price. price.coins ≡ coins_value found.now) }
        ensures outputs { IfOk result (λ price. price.outputs ≡ outputs_value tx.now) }
        ensures fee { IfOk result (λ price. price.fee ≡ coins_value found.now - outputs_value tx.now) }
        ensures cost { IfOk result (λ price. price.cost ≡ sigop_cost (reported tx.now.inputs found.now) tx.now.outputs) }
        ensures vsize { IfOk result (λ price. price.vsize ≡ sized policy.now.sigop_size (sigop_cost (reported tx.now.inputs found.now) tx.now.outputs) tx.now) }
        ensures some { IfOk result (λ price. IfSome price.vsize (λ vsize. 0 < vsize)) }
    {
        let transaction = tx.transaction();
        let answers = reported(alloc, transaction.inputs(), found)?;
        let coins = coins_value(found);
        let outputs = outputs_value(transaction);
        let cost = sigop_cost(transaction, answers.as_slice());
        Ok(Price {
            coins,
            outputs,
            fee: coins.saturating_sub(outputs),
            cost,
            vsize: sized(policy, cost, tx),
        })
    }
}

/// The figures of a fee that is paid: the fee, and the fee that a size needs at a feerate.
#[tactic(auto, unfolding(crate::specs::Figures::pays))]
pub(crate) fn pays(rate: Feerate, fee: u128, vsize: Option<u64>) -> Option<Figures>
    ensures { result ≡ pays rate fee vsize }
{
    let needs = rate.fee(vsize?);
    Some(Figures::Pays { fee, needs })
}

/// The figures of a fee that is paid: the fee, the fees of the entries that would be replaced, and what has to be paid
/// above them at a feerate.
#[tactic(auto, unfolding(crate::specs::Figures::pays_above))]
pub(crate) fn pays_above(
    rate: Feerate,
    gone: u128,
    fee: u128,
    vsize: Option<u64>,
) -> Option<Figures>
    ensures { result ≡ pays_above rate gone fee vsize }
{
    let needs = rate.fee(vsize?);
    Some(Figures::Above { fee, gone, needs })
}
