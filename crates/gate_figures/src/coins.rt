//! The coins of the inputs, and those that are missing or too young.
ghost use Rattle.std.specs.Prelude.{◌≡◌, ◌≤◌, IfOk, length};
ghost use Rattle.gate_admit.specs.Coins.{coins_of};
ghost use Rattle.gate_package.specs.Coins.{coins_beside};
ghost use Rattle.gate_figures.specs.Figures.{coinless, young, young_by};

use crate::figures::Figures;
use gate_admit::{Chain, LentCoin, Pool, is_immature, view_coin};
use gate_bytes::Memory;
use gate_package::view_beside;
use gate_submission::Candidate;
use gate_tx::TxIn;
use std::alloc::Global;
use std::hash::BuildHasher;

/// The coins of the inputs that have one, in their order.
pub(crate) fn coins_of<'a, S: BuildHasher + Copy + Drop>(
    alloc: Global,
    chain: &'a Chain<S>,
    pool: &'a Pool<S>,
    inputs: &[TxIn],
) -> Result<Vec<LentCoin<'a>>, Memory>
    ensures coins { IfOk result (λ coins. coins.items ≡ coins_of chain.now pool.now.entries inputs.now) }
    ensures few { IfOk result (λ coins. length coins.items ≤ length inputs.now) }
{
    let mut coins = Vec::with_capacity(alloc, inputs.len())?;
    for input in inputs {
        match view_coin(chain, pool, &input.prevout) {
            Some(coin) => coins.push(coin)?,
            None => {}
        }
    }
    Ok(coins)
}

/// The coins of the inputs that have one behind these others, which are no entries.
pub(crate) fn coins_beside<'a, S: BuildHasher + Copy + Drop>(
    alloc: Global,
    chain: &'a Chain<S>,
    pool: &'a Pool<S>,
    others: &'a [Candidate<'_>],
    inputs: &[TxIn],
) -> Result<Vec<LentCoin<'a>>, Memory>
    ensures coins { IfOk result (λ coins. coins.items ≡ coins_beside chain.now others.now pool.now.entries inputs.now) }
    ensures few { IfOk result (λ coins. length coins.items ≤ length inputs.now) }
{
    let mut coins = Vec::with_capacity(alloc, inputs.len())?;
    for input in inputs {
        match view_beside(chain, pool, others, &input.prevout) {
            Some(coin) => coins.push(coin)?,
            None => {}
        }
    }
    Ok(coins)
}

/// The first input without a coin.
pub(crate) fn coinless<S: BuildHasher + Copy + Drop>(
    chain: &Chain<S>,
    pool: &Pool<S>,
    inputs: &[TxIn],
) -> Option<Figures>
    ensures { result ≡ coinless chain.now pool.now.entries 0 inputs.now }
{
    for input in 0..inputs.len() {
        let outpoint = inputs[input].prevout;
        if view_coin(chain, pool, &outpoint).is_none() {
            return Some(Figures::NoCoin { input, outpoint });
        }
    }
    None
}

/// The coin of an input, if it is a coinbase's and too young for the next block.
fn young_by(next: u32, input: usize, coin: Option<LentCoin<'_>>) -> Option<Figures>
    ensures { result ≡ young_by next input coin.entry }
{
    let coin = coin?;
    if !is_immature(next, &coin) {
        return None;
    }
    Some(Figures::Young {
        input,
        height: coin.height(),
        next,
    })
}

/// The first input whose coin is a coinbase's and too young for the next block.
pub(crate) fn young<S: BuildHasher + Copy + Drop>(
    chain: &Chain<S>,
    pool: &Pool<S>,
    inputs: &[TxIn],
) -> Option<Figures>
    ensures { result ≡ young chain.now pool.now.entries 0 inputs.now }
{
    let next = chain.tip() + 1;
    for input in 0..inputs.len() {
        let coin = view_coin(chain, pool, &inputs[input].prevout);
        if let Some(found) = young_by(next, input, coin) {
            return Some(found);
        }
    }
    None
}
