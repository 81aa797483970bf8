//! The entries that conflict with a transaction, and that it can't replace.
ghost use Rattle.std.specs.Prelude.{◌≡◌, ◌<◌, IfSome};
ghost use Rattle.std.specs.Option.{option_copied};
ghost use Rattle.gate_figures.specs.Figures.{non_signalling, non_signalling_by, outpaid, outpaid_at, outpaid_beside, outpaid_by, outpaid_sibling, rate_at};

use crate::figures::Figures;
use gate_admit::{Entry, Pool};
use gate_rbf::is_replaceable;
use gate_standard::rate_of;
use gate_tx::{TxIn, Txid};
use std::hash::BuildHasher;

/// The entry that spends the outpoint of this input, if it doesn't say that it may be replaced, where version 3 is standard
/// or isn't.
fn non_signalling_by(truc: bool, input: usize, spender: Option<&Entry>) -> Option<Figures>
    ensures { result ≡ non_signalling_by truc input (option_copied spender.entry) }
{
    let entry = spender?;
    if is_replaceable(truc, entry.transaction()) {
        return None;
    }
    Some(Figures::Spent {
        input,
        by: entry.txid(),
    })
}

/// The first input whose outpoint is spent by an entry that doesn't say that it may be replaced, where version 3 is
/// standard or isn't.
pub(crate) fn non_signalling<S: BuildHasher + Copy + Drop>(
    truc: bool,
    pool: &Pool<S>,
    inputs: &[TxIn],
) -> Option<Figures>
    ensures { result ≡ non_signalling truc pool.now.entries 0 inputs.now }
{
    for input in 0..inputs.len() {
        if let Some(found) = non_signalling_by(truc, input, pool.spender(&inputs[input].prevout)) {
            return Some(found);
        }
    }
    None
}

/// The feerate of a fee for a size, in satoshi per 1,000 virtual bytes.
#[tactic(auto, unfolding(crate::specs::Figures::rate_at))]
pub(crate) fn rate_at(fee: u128, vsize: Option<u64>) -> Option<u128>
    requires { IfSome vsize (λ vsize. 0 < vsize) }
    ensures { result ≡ rate_at fee vsize }
{
    let vsize = vsize?;
    if fee > u128::from(u64::MAX) {
        return None;
    }
    Some(rate_of(fee as u64, vsize))
}

/// The entry that spends the outpoint of an input, if it pays at least this feerate.
fn outpaid_by(rate: u128, spender: Option<&Entry>) -> Option<Figures>
    ensures { result ≡ outpaid_by rate (option_copied spender.entry) }
{
    let entry = spender?;
    let most = rate_of(entry.fee(), entry.vsize());
    if most < rate {
        return None;
    }
    Some(Figures::Outpaid {
        rate,
        most,
        by: entry.txid(),
    })
}

/// The first entry, input by input, that spends the outpoint of an input and pays at least this feerate.
fn outpaid<S: BuildHasher + Copy + Drop>(
    pool: &Pool<S>,
    inputs: &[TxIn],
    rate: u128,
) -> Option<Figures>
    ensures { result ≡ outpaid pool.now.entries rate inputs.now }
{
    for input in inputs {
        if let Some(found) = outpaid_by(rate, pool.spender(&input.prevout)) {
            return Some(found);
        }
    }
    None
}

/// The sibling with this id, if it pays at least this feerate.
fn outpaid_sibling<S: BuildHasher + Copy + Drop>(
    pool: &Pool<S>,
    sibling: Option<Txid>,
    rate: u128,
) -> Option<Figures>
    ensures { result ≡ outpaid_sibling pool.now.entries rate sibling }
{
    match sibling {
        Some(txid) => outpaid_by(rate, pool.entry(&txid)),
        None => None,
    }
}

/// The first entry, input by input, that conflicts and pays at least this feerate, or else the sibling with this id, if it
/// does.
fn outpaid_beside<S: BuildHasher + Copy + Drop>(
    pool: &Pool<S>,
    sibling: Option<Txid>,
    inputs: &[TxIn],
    rate: u128,
) -> Option<Figures>
    ensures { result ≡ outpaid_beside pool.now.entries sibling rate inputs.now }
{
    match outpaid(pool, inputs, rate) {
        Some(found) => Some(found),
        None => outpaid_sibling(pool, sibling, rate),
    }
}

/// What `outpaid_beside` finds at this feerate; `None` if there is no feerate.
#[tactic(auto, unfolding(crate::specs::Figures::outpaid_at))]
pub(crate) fn outpaid_at<S: BuildHasher + Copy + Drop>(
    pool: &Pool<S>,
    sibling: Option<Txid>,
    inputs: &[TxIn],
    rate: Option<u128>,
) -> Option<Figures>
    ensures { result ≡ outpaid_at pool.now.entries sibling rate inputs.now }
{
    outpaid_beside(pool, sibling, inputs, rate?)
}
