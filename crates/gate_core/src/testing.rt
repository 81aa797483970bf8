//! Several transactions that a user tests as one package.
ghost use Rattle.std.specs.Prelude.{◌≡◌, ◌++◌, IfOk, OnOk};
ghost use Rattle.gate_admit.specs.Lending.{lent_with};
ghost use Rattle.gate_core.specs.TestedLists.{outcome_as, outcomes_as, tested_together};

use gate_admit::{Conditions, Pool, Prepared};
use gate_bytes::{Counted, Kept, Memory};
use gate_package::{ListedFate, judge_list, read_list};
use gate_rpc::{Outcome, RpcError, RpcResult};
use gate_standard::Denial;
use gate_submission::Candidate;
use std::alloc::Global;
use std::hash::BuildHasher;

/// What would become of a transaction, with its ids.
fn outcome_as(candidate: &Candidate<'_>, fate: ListedFate) -> Outcome
    ensures { result ≡ outcome_as candidate.now fate }
{
    let txid = candidate.txid();
    let wtxid = candidate.wtxid();
    match fate {
        ListedFate::Allowed { fee, vsize } => Outcome::Allowed {
            txid,
            wtxid,
            fee,
            vsize,
        },
        ListedFate::Denied(denial) => Outcome::Rejected {
            txid,
            wtxid,
            denial,
        },
        ListedFate::AllDenied(denial) => Outcome::AllRejected {
            txid,
            wtxid,
            denial,
        },
        ListedFate::Unjudged => Outcome::Unjudged { txid, wtxid },
    }
}

/// Puts what would become of each of these at the end of a list.
fn push_outcomes(
    outcomes: &mut Vec<Outcome>,
    these: &[Candidate<'_>],
    fates: &[ListedFate],
) -> Result<(), Memory>
    ensures { OnOk result (outcomes.new.items ≡ outcomes.old.items ++ outcomes_as these.now fates.now) }
{
    let Some((candidate, these)) = these.split_first() else {
        return Ok(());
    };
    let Some((fate, fates)) = fates.split_first() else {
        return Ok(());
    };
    outcomes.push(outcome_as(candidate, *fate))?;
    push_outcomes(outcomes, these, fates)
}

/// Judges several transactions as one package, without entering one. If one of them is no transaction, the answer is an
/// error.
pub(crate) fn test_together<S: BuildHasher + Copy + Drop>(
    alloc: Global,
    under: &Conditions<'_, S>,
    pool: &Pool<S>,
    submissions: &[Prepared],
) -> Result<Result<RpcResult, RpcError>, Memory>
    ensures { IfOk result (λ answer. answer ≡ tested_together (lent_with under.now pool.now.entries) submissions.now) }
{
    let Some(these) = read_list(alloc, submissions)? else {
        return Ok(Err(RpcError::Denied(Denial::Decode)));
    };
    let fates = judge_list(alloc, under, pool, these.as_slice())?;
    let mut outcomes = Vec::with_capacity(alloc, these.len())?;
    push_outcomes(&mut outcomes, these.as_slice(), fates.as_slice())?;
    let outcomes = Counted::new(alloc, Kept::from_vec(outcomes))?;
    Ok(Ok(RpcResult::Outcomes(outcomes)))
}
