//! Several transactions, each judged behind those before it that would enter.
ghost use Rattle.std.specs.Prelude.{◌≡◌, ◌++◌, IfOk, OnOk, IfSome, Some, is_none, option_and_then};
ghost use Rattle.std.specs.Option.{option_map};
ghost use Rattle.std.specs.List.{list_any};
ghost use Rattle.gate_admit.specs.Lending.{lent_with};
ghost use Rattle.gate_admit.specs.Bounds.{FitsAnEntry};
ghost use Rattle.gate_admit.specs.Submission.{admitted};
ghost use Rattle.gate_pool.specs.Keeping.{IsNew};
ghost use Rattle.gate_query.specs.Queries.{entry_by, has_conflict, is_from_conflict, is_from_sibling, listed_decision, newcomer, outcome_by, outcome_on, outcomes_of, tested_list, unevicting, unreplacing};

use gate_admit::{Conditions, Entry, Grant, Pool, Prepared, judge, sibling};
use gate_bytes::{Copied, Counted, Kept, Memory};
use gate_rpc::{Outcome, RpcError, RpcResult};
use gate_standard::Denial;
use gate_tx::{Identified, Transaction, Txid, Wtxid};
use std::alloc::Global;
use std::hash::BuildHasher;

/// Whether an entry spends what a transaction spends.
fn has_conflict<S: BuildHasher + Copy + Drop>(pool: &Pool<S>, transaction: &Transaction) -> bool
    ensures { result ≡ has_conflict pool.now.entries transaction.now }
{
    transaction
        .inputs()
        .iter()
        .any(|input| pool.spender(&input.prevout).is_some())
}

/// Whether a rule is A23, or is tested behind it: those with the numbers from A23 to A50.
fn is_from_conflict(denial: Denial) -> bool
    ensures { result ≡ is_from_conflict denial }
{
    let rule = denial as usize;
    rule >= Denial::MempoolConflict as usize && rule <= Denial::MaxFeerate as usize
}

/// A decision where nothing may be replaced.
fn unreplacing(has_conflict: bool, decision: Result<Grant, Denial>) -> Result<Grant, Denial>
    ensures { result ≡ unreplacing has_conflict decision }
{
    if !has_conflict {
        return decision;
    }
    match decision {
        Ok(_) => Err(Denial::MempoolConflict),
        Err(denial) => if is_from_conflict(denial) {
            Err(Denial::MempoolConflict)
        } else {
            Err(denial)
        },
    }
}

/// Whether a rule is A47, or is tested behind it: those with the numbers from A37 to A47, and A49.
fn is_from_sibling(denial: Denial) -> bool
    ensures { result ≡ is_from_sibling denial }
{
    let rule = denial as usize;
    rule >= Denial::SpendsConflicting as usize && rule <= Denial::TrucViolation as usize
        || rule == Denial::UnsweptDust as usize
}

/// A decision where no sibling is evicted.
fn unevicting(has_sibling: bool, decision: Result<Grant, Denial>) -> Result<Grant, Denial>
    ensures { result ≡ unevicting has_sibling decision }
{
    if !has_sibling {
        return decision;
    }
    match decision {
        Ok(_) => Err(Denial::TrucViolation),
        Err(denial) => if is_from_sibling(denial) {
            Err(Denial::TrucViolation)
        } else {
            Err(denial)
        },
    }
}

/// The decision on a transaction of a list.
fn decide<S: BuildHasher + Copy + Drop>(
    alloc: Global,
    under: &Conditions<'_, S>,
    pool: &Pool<S>,
    prepared: &Prepared,
    identified: &Identified,
) -> Result<Result<Grant, Denial>, Memory>
    requires { prepared.now ≡ Some identified.now }
    ensures decision { IfOk result (λ made. made ≡ listed_decision (lent_with under.now pool.now.entries) identified.now) }
    ensures fits { IfOk result (FitsAnEntry) }
    ensures new { IfOk result (λ made. IfOk made (λ grant. IsNew pool.now.entries (admitted identified.now grant under.now.second))) }
{
    under.policy.recall_bounds();
    let decision = judge(
        alloc,
        under.chain,
        pool,
        under.floor,
        prepared,
        under.verdicts,
        under.policy,
    )?;
    let tx = identified.transaction();
    let sibling = sibling(alloc, under.policy, pool, tx)?;
    let decision = unreplacing(has_conflict(pool, tx), decision);
    Ok(unevicting(sibling.is_some(), decision))
}

/// What becomes of a transaction of a list, with its entry if it is allowed.
#[derive(Drop)]
struct Judged {
    outcome: Outcome,
    entry: Option<Entry>,
}

/// What becomes of a transaction with these ids by a decision.
fn outcome_by(txid: Txid, wtxid: Wtxid, decision: &Result<Grant, Denial>) -> Outcome
    ensures { result ≡ outcome_by txid wtxid decision.now }
{
    match decision {
        Ok(grant) => Outcome::Allowed {
            txid,
            wtxid,
            fee: grant.fee,
            vsize: grant.vsize,
        },
        Err(denial) => Outcome::Rejected {
            txid,
            wtxid,
            denial: *denial,
        },
    }
}

/// The entry of a transaction that is granted at this second, whose text it shares.
fn entry_by(
    alloc: Global,
    second: u64,
    identified: &Counted<Identified>,
    decision: &Result<Grant, Denial>,
) -> Result<Option<Entry>, Memory>
    requires { FitsAnEntry decision.now }
    ensures { IfOk result (λ entry. entry ≡ entry_by second identified.now decision.now) }
{
    match decision {
        Ok(grant) => {
            let identified = identified.copy(alloc)?;
            Ok(Some(Entry::new(identified, grant.fee, grant.vsize, second)))
        }
        Err(_) => Ok(None),
    }
}

/// What becomes of a transaction of a list; None if the submission spells none.
fn judge_one<S: BuildHasher + Copy + Drop>(
    alloc: Global,
    under: &Conditions<'_, S>,
    pool: &Pool<S>,
    prepared: &Prepared,
) -> Result<Option<Judged>, Memory>
    ensures outcome { IfOk result (λ judged. option_map (λ j. j.outcome) judged ≡ option_map (outcome_on (lent_with under.now pool.now.entries)) prepared.now) }
    ensures entry { IfOk result (λ judged. option_and_then (λ j. j.entry) judged ≡ option_and_then (newcomer (lent_with under.now pool.now.entries) under.now.second) prepared.now) }
    ensures new { IfOk result (λ judged. IfSome judged (λ j. IfSome j.entry (IsNew pool.now.entries))) }
{
    let Some(candidate) = prepared.candidate() else {
        return Ok(None);
    };
    let identified = candidate.identified();
    let decision = decide(alloc, under, pool, prepared, identified.get())?;
    let outcome = outcome_by(identified.get().txid(), identified.get().wtxid(), &decision);
    let entry = entry_by(alloc, under.second, identified, &decision)?;
    Ok(Some(Judged { outcome, entry }))
}

/// Puts what becomes of each of these at the end of a list. An entry that is allowed stands in the pool while those
/// behind it are judged, and then leaves it: the pool is as it was, also if memory runs out.
fn test_each<S: BuildHasher + Copy + Drop>(
    alloc: Global,
    under: &Conditions<'_, S>,
    pool: &mut Pool<S>,
    submissions: &[Prepared],
    outcomes: &mut Vec<Outcome>,
) -> Result<(), Memory>
    ensures ok { OnOk result (outcomes.new.items ≡ outcomes.old.items ++ outcomes_of (lent_with under.now pool.old.entries) under.now.second submissions.now) }
    ensures same { pool.new.entries ≡ pool.old.entries }
{
    let Some((first, others)) = submissions.split_first() else {
        return Ok(());
    };
    let Some(Judged { outcome, entry }) = judge_one(alloc, under, pool, first)? else {
        return test_each(alloc, under, pool, others, outcomes);
    };
    outcomes.push(outcome)?;
    let Some(entry) = entry else {
        return test_each(alloc, under, pool, others, outcomes);
    };
    let txid = entry.txid();
    pool.admit(entry)?;
    let tested = test_each(alloc, under, pool, others, outcomes);
    pool.remove_root(&txid);
    tested
}

/// Whether one of these spells no transaction.
fn has_undecodable(submissions: &[Prepared]) -> bool
    ensures { result ≡ list_any is_none submissions.now }
{
    submissions
        .iter()
        .any(|submission| submission.transaction().is_none())
}

/// Judges several transactions without entering one, each over the pool with those before it that are allowed; what
/// stands in the pool is not replaced. If one of them is no transaction, the answer is an error. The entries are those
/// that they were, whatever the answer, and no copy of the pool is made.
pub fn test_list<S: BuildHasher + Copy + Drop>(
    alloc: Global,
    under: &Conditions<'_, S>,
    pool: &mut Pool<S>,
    submissions: &[Prepared],
) -> Result<Result<RpcResult, RpcError>, Memory>
    ensures ok { IfOk result (λ answer. answer ≡ tested_list (lent_with under.now pool.old.entries) under.now.second submissions.now) }
    ensures same { pool.new.entries ≡ pool.old.entries }
{
    if has_undecodable(submissions) {
        return Ok(Err(RpcError::Denied(Denial::Decode)));
    }
    let mut outcomes = Vec::with_capacity(alloc, submissions.len())?;
    test_each(alloc, under, pool, submissions, &mut outcomes)?;
    let outcomes = Counted::new(alloc, Kept::from_vec(outcomes))?;
    Ok(Ok(RpcResult::Outcomes(outcomes)))
}
