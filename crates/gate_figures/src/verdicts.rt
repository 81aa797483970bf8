//! The input whose verdict is missing or bad.
ghost use Rattle.std.specs.Prelude.{◌≡◌};
ghost use Rattle.gate_tx.specs.Ids.{wtxid_of};
ghost use Rattle.gate_figures.specs.Figures.{doubted, is_good};

use crate::figures::Figures;
use gate_admit::{Verdict, Verdicts};
use gate_tx::Identified;
use std::hash::BuildHasher;

fn is_good(verdict: Option<Verdict>) -> bool
    ensures { result ≡ is_good verdict }
{
    match verdict {
        Some(Verdict::Good) => true,
        _ => false,
    }
}

/// The first input whose verdict is not a good one.
pub(crate) fn doubted<S: BuildHasher + Copy + Drop>(
    verdicts: &Verdicts<S>,
    tx: &Identified,
) -> Option<Figures>
    ensures { result ≡ doubted verdicts.now (wtxid_of tx.now) 0 tx.now.inputs }
{
    let wtxid = tx.wtxid();
    let transaction = tx.transaction();
    transaction.recall_invariant();
    let mut input = 0u32;
    for _input in transaction.inputs() {
        if !is_good(verdicts.on(&wtxid, input)) {
            return Some(Figures::Input { input, wtxid });
        }
        input += 1;
    }
    None
}
