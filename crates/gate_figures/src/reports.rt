//! The input of which policy says that it is not standard.
ghost use Rattle.std.specs.Prelude.{◌≡◌, IfOk};
ghost use Rattle.gate_admit.specs.Coins.{coins_of};
ghost use Rattle.gate_admit.specs.Reports.{legacy_sigops, reported};
ghost use Rattle.gate_figures.specs.Figures.{many_legacy, nonstandard_inputs, nonstandard_spend, nonstandard_witness};

use crate::coins::coins_of;
use crate::fees::reported;
use crate::figures::Figures;
use gate_admit::{Chain, Policy, Pool, has_relayed_witness, is_relayed, legacy_sigops};
use gate_bytes::Memory;
use gate_inputs::Answers;
use gate_tx::TxIn;
use std::alloc::Global;
use std::hash::BuildHasher;

/// What is reported of each input with its coin.
fn reports<S: BuildHasher + Copy + Drop>(
    alloc: Global,
    chain: &Chain<S>,
    pool: &Pool<S>,
    inputs: &[TxIn],
) -> Result<Vec<Answers>, Memory>
    ensures { IfOk result (λ found. found.items ≡ reported inputs.now (coins_of chain.now pool.now.entries inputs.now)) }
{
    let coins = coins_of(alloc, chain, pool, inputs)?;
    reported(alloc, inputs, coins.as_slice())
}

fn first_nonstandard_spend(anchors: bool, answers: &[Answers]) -> Option<Figures>
    ensures { result ≡ nonstandard_spend anchors 0 answers.now }
{
    for input in 0..answers.len() {
        if !is_relayed(anchors, &answers[input]) {
            return Some(Figures::NonstandardSpend { input });
        }
    }
    None
}

fn first_nonstandard_witness(anchors: bool, answers: &[Answers]) -> Option<Figures>
    ensures { result ≡ nonstandard_witness anchors 0 answers.now }
{
    for input in 0..answers.len() {
        if !has_relayed_witness(anchors, &answers[input]) {
            return Some(Figures::NonstandardWitness { input });
        }
    }
    None
}

fn many_legacy(limit: Option<u64>, answers: &[Answers]) -> Option<Figures>
    ensures { result ≡ many_legacy limit (legacy_sigops answers.now) }
{
    let most = limit?;
    let count = legacy_sigops(answers);
    if count <= u128::from(most) {
        return None;
    }
    Some(Figures::LegacySigops { count, most })
}

/// The first input that spends a coin whose script, or whose redeem script, is not standard, or else how many legacy
/// signature operations there are, if they are too many.
pub(crate) fn nonstandard_inputs<S: BuildHasher + Copy + Drop>(
    alloc: Global,
    policy: &Policy,
    chain: &Chain<S>,
    pool: &Pool<S>,
    inputs: &[TxIn],
) -> Result<Option<Figures>, Memory>
    ensures { IfOk result (λ found. found ≡ nonstandard_inputs policy.now (reported inputs.now (coins_of chain.now pool.now.entries inputs.now))) }
{
    let answers = reports(alloc, chain, pool, inputs)?;
    match first_nonstandard_spend(policy.anchors(), answers.as_slice()) {
        Some(found) => Ok(Some(found)),
        None => Ok(many_legacy(policy.legacy_sigops(), answers.as_slice())),
    }
}

/// The first input whose witness is not standard.
pub(crate) fn nonstandard_witness<S: BuildHasher + Copy + Drop>(
    alloc: Global,
    policy: &Policy,
    chain: &Chain<S>,
    pool: &Pool<S>,
    inputs: &[TxIn],
) -> Result<Option<Figures>, Memory>
    ensures { IfOk result (λ found. found ≡ nonstandard_witness policy.now.anchors 0 (reported inputs.now (coins_of chain.now pool.now.entries inputs.now))) }
{
    let answers = reports(alloc, chain, pool, inputs)?;
    Ok(first_nonstandard_witness(policy.anchors(), answers.as_slice()))
}
