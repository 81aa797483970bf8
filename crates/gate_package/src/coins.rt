//! The coins of the inputs of a transaction that stands behind others that are no entries: A24 and A25.
ghost use Rattle.std.specs.Prelude.{◌≡◌, ◌≤◌, ◌+◌, IfOk, IfErr, OnOk, IfSome, Some, None, find, is_none, length, All};
ghost use Rattle.std.specs.Option.{option_copied};
ghost use Rattle.std.specs.Str.{bytes_eq};
ghost use Rattle.gate_bytes.specs.Order.{first_failing};
ghost use Rattle.gate_chain.specs.Times.{tip_of};
ghost use Rattle.gate_tx.specs.Ids.{txid_of};
ghost use Rattle.gate_package.specs.Coins.{made_by, misses_coin_beside, view_beside, coins_beside, coin_rules_beside};

use gate_admit::{Chain, Conditions, LentCoin, Pool, is_chain_coin};
use gate_bytes::Memory;
use gate_standard::Denial;
use gate_submission::Candidate;
use gate_tx::{Identified, OutPoint, Transaction, TxIn, Txid};
use std::alloc::Global;
use std::hash::BuildHasher;

/// The first of these with this txid.
fn with_id<'a>(others: &'a [Candidate<'_>], txid: &Txid) -> Option<&'a Transaction>
    ensures { option_copied result ≡ find (λ t. bytes_eq (txid_of t) txid.now) others.now }
{
    for other in others {
        if other.txid() == *txid {
            return Some(other.transaction());
        }
    }
    None
}

/// The coin that one of these transactions makes at an outpoint, as though it were in a block of this height.
fn made_by<'a>(others: &'a [Candidate<'_>], point: &OutPoint, height: u32) -> Option<LentCoin<'a>>
    ensures { result ≡ made_by height others.now point.now }
{
    let maker = with_id(others, &point.txid)?;
    let output = maker.outputs().get(point.index as usize)?;
    LentCoin::made(output, height)
}

/// The coin of an outpoint: the output of one of these others, as though these were in the next block, else of an entry,
/// else the chain's unspent coin.
pub fn view_beside<'a, S: BuildHasher + Copy + Drop>(
    chain: &'a Chain<S>,
    pool: &'a Pool<S>,
    others: &'a [Candidate<'_>],
    point: &OutPoint,
) -> Option<LentCoin<'a>>
    ensures coin { result ≡ view_beside chain.now others.now pool.now.entries point.now }
    ensures height { IfSome result (λ coin. coin.height ≤ tip_of chain.now + 1) }
{
    match made_by(others, point, chain.tip() + 1) {
        Some(coin) => Some(coin),
        None => gate_admit::view_coin(chain, pool, point),
    }
}

/// The coin of each input, or None if an input has no coin.
fn find_coins<'a, S: BuildHasher + Copy + Drop>(
    alloc: Global,
    under: &'a Conditions<'_, S>,
    pool: &'a Pool<S>,
    others: &'a [Candidate<'_>],
    inputs: &[TxIn],
) -> Result<Option<Vec<LentCoin<'a>>>, Memory>
    ensures none { IfOk result (λ found. is_none found ≡ misses_coin_beside under.now.chain.now others.now pool.now.entries inputs.now) }
    ensures coins { IfOk result (λ found. IfSome found (λ coins. coins.items ≡ coins_beside under.now.chain.now others.now pool.now.entries inputs.now)) }
    ensures one_each { IfOk result (λ found. IfSome found (λ coins. length coins.items ≡ length inputs.now)) }
    ensures within { IfOk result (λ found. IfSome found (λ coins. All (λ c. c.height ≤ tip_of under.now.chain.now + 1) coins.items)) }
{
    let mut coins = Vec::with_capacity(alloc, inputs.len())?;
    for input in inputs {
        match view_beside(under.chain, pool, others, &input.prevout) {
            Some(coin) => coins.push(coin)?,
            None => return Ok(None),
        }
    }
    Ok(Some(coins))
}

/// The coins of the inputs, or the first of A24 and A25 that fails.
#[tactic(auto, unfolding(crate::specs::Coins::coin_rules_beside))]
pub(crate) fn check_coins<'a, S: BuildHasher + Copy + Drop>(
    alloc: Global,
    under: &'a Conditions<'_, S>,
    pool: &'a Pool<S>,
    others: &'a [Candidate<'_>],
    tx: &Identified,
) -> Result<Result<Vec<LentCoin<'a>>, Denial>, Memory>
    ensures ok { IfOk result (λ found. OnOk found (first_failing (coin_rules_beside under.now.chain.now others.now pool.now.entries tx.now) ≡ None)) }
    ensures coins { IfOk result (λ found. IfOk found (λ coins. coins.items ≡ coins_beside under.now.chain.now others.now pool.now.entries tx.now.inputs)) }
    ensures one_each { IfOk result (λ found. IfOk found (λ coins. length coins.items ≡ length tx.now.inputs)) }
    ensures within { IfOk result (λ found. IfOk found (λ coins. All (λ c. c.height ≤ tip_of under.now.chain.now + 1) coins.items)) }
    ensures err { IfOk result (λ found. IfErr found (λ denial. first_failing (coin_rules_beside under.now.chain.now others.now pool.now.entries tx.now) ≡ Some denial)) }
{
    let found = find_coins(alloc, under, pool, others, tx.transaction().inputs())?;
    if (found.is_none() && is_chain_coin(under.chain, tx)) || under.chain.opened_with(&tx.txid()) {
        return Ok(Err(Denial::AlreadyKnown));
    }
    match found {
        Some(coins) => Ok(Ok(coins)),
        None => Ok(Err(Denial::MissingOrSpent)),
    }
}
