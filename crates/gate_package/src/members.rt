//! A member of a package, judged by itself.
ghost use Rattle.std.specs.Prelude.{◌≡◌, IfOk, IfSome, None, Ok};
ghost use Rattle.gate_pool.specs.Pool.{listing_of};
ghost use Rattle.gate_pool.specs.Counting.{replaced_beside};
ghost use Rattle.gate_admit.specs.Bounds.{FitsAnEntry};
ghost use Rattle.gate_admit.specs.Lending.{lent_with};
ghost use Rattle.gate_package.specs.Judging.{member_decision, is_reconsiderable};
ghost use Rattle.gate_package.specs.Packages.{IsAbsent, entry_as, fate_by, fate_of, sibling_in};

use crate::half::{Half, first_half};
use crate::role::Role;
use crate::truc::is_version_three;
use gate_admit::{
    Attempt, Conditions, Entry, Grant, Policy, Pool, check_sweep, check_verdicts, sibling,
    sibling_beside,
};
use gate_bytes::{Copied, Kept, Memory};
use gate_rbf::{conflicts, replaced};
use gate_standard::Denial;
use gate_submission::{Candidate, Fate};
use gate_tx::{Transaction, Txid};
use std::alloc::Global;
use std::hash::BuildHasher;

/// Whether those that are judged together may mend this denial of a transaction: what every relay asks they mend for one
/// of version 3 alone.
pub(crate) fn is_reconsiderable(policy: &Policy, tx: &Transaction, denial: Denial) -> bool
    ensures { result ≡ is_reconsiderable policy.now tx.now denial }
{
    match denial {
        Denial::MissingOrSpent => true,
        Denial::MempoolMinFee => true,
        Denial::MinRelayFee => is_version_three(policy, tx),
        Denial::LowerFeeRate => true,
        Denial::LowerFee => true,
        Denial::LowerDifference => true,
        _ => false,
    }
}

/// The decision on a member by itself: the first rule that fails, or a grant. Nothing changes.
#[tactic(auto, using(gate_bytes::proofs::OrderLemmas::first_failing_append), unfolding(crate::specs::Judging::member_rules))]
fn judge_member<'a, S: BuildHasher + Copy + Drop>(
    alloc: Global,
    under: &'a Conditions<'_, S>,
    pool: &'a Pool<S>,
    max_rate: u64,
    candidate: &'a Candidate<'_>,
) -> Result<Result<Grant, Denial>, Memory>
    ensures decision { IfOk result (λ decision. decision ≡ member_decision max_rate (lent_with under.now pool.now.entries) candidate.now) }
    ensures fits { IfOk result (FitsAnEntry) }
{
    let policy = under.policy;
    let half = match first_half(alloc, under, pool, Role::Member, max_rate, &[], candidate)? {
        Ok(half) => half,
        Err(denial) => return Ok(Err(denial)),
    };
    let standards = policy.standards();
    if let Some(denial) = check_sweep(alloc, &standards, pool, candidate.transaction())? {
        return Ok(Err(denial));
    }
    let rate = policy.incremental_feerate();
    let parents = policy.parents();
    let Half { fee, vsize, direct } = half;
    let sibling = sibling_beside(alloc, policy, Attempt::First, &direct)?;
    let counted = direct.counting(sibling)?;
    let replaced = match counted.judge(alloc, rate, parents, fee, vsize)? {
        Ok(replaced) => replaced,
        Err(denial) => return Ok(Err(denial)),
    };
    if let Some(denial) = check_verdicts(under.verdicts, candidate.identified().get()) {
        return Ok(Err(denial));
    }
    Ok(Ok(Grant {
        fee,
        vsize,
        replaced,
    }))
}

/// The ids of the entries that a transaction would replace, its sibling with this id among them, in the order of the
/// pool.
fn list_replaced<S: BuildHasher + Copy + Drop>(
    alloc: Global,
    pool: &Pool<S>,
    sibling: &Option<Txid>,
    tx: &Transaction,
) -> Result<Kept<Txid>, Memory>
    ensures { IfOk result (λ txids. txids ≡ listing_of (replaced_beside pool.now.entries sibling.now tx.now)) }
{
    pool.recall_distinct();
    let direct = conflicts(alloc, pool, *sibling, tx)?;
    let mut txids = replaced(alloc, pool, direct.as_slice())?;
    pool.sort_by_admission(txids.as_mut_slice());
    Ok(Kept::from_vec(txids))
}

/// What becomes of a transaction by itself, its entry if it is taken, and the id of the sibling that it evicts then.
#[derive(Drop)]
pub(crate) struct JudgedMember {
    pub(crate) fate: Fate,
    pub(crate) sibling: Option<Txid>,
    pub(crate) entry: Option<Entry>,
}

impl JudgedMember {
    /// What becomes of a transaction that doesn't come in.
    fn staying_out(fate: Fate) -> JudgedMember
        ensures fate { result.fate ≡ fate }
        ensures sibling { result.sibling ≡ None }
        ensures entry { result.entry ≡ None }
    {
        JudgedMember {
            fate,
            sibling: None,
            entry: None,
        }
    }
}

/// A transaction that is granted: it replaces what it conflicts with, and its sibling.
fn granted<S: BuildHasher + Copy + Drop>(
    alloc: Global,
    under: &Conditions<'_, S>,
    pool: &Pool<S>,
    candidate: &Candidate<'_>,
    grant: Grant,
) -> Result<JudgedMember, Memory>
    requires { FitsAnEntry (Ok grant) }
    ensures fate { IfOk result (λ judged. judged.fate ≡ fate_by pool.now.entries (sibling_in (lent_with under.now pool.now.entries) candidate.now) candidate.now (Ok grant)) }
    ensures sibling { IfOk result (λ judged. judged.sibling ≡ sibling_in (lent_with under.now pool.now.entries) candidate.now) }
    ensures entry { IfOk result (λ judged. judged.entry ≡ entry_as under.now.second candidate.now judged.fate) }
{
    let tx = candidate.transaction();
    let Grant { fee, vsize, .. } = grant;
    let sibling = sibling(alloc, under.policy, pool, tx)?;
    let replaced = list_replaced(alloc, pool, &sibling, tx)?;
    let identified = candidate.identified().copy(alloc)?;
    Ok(JudgedMember {
        fate: Fate::Taken {
            fee,
            vsize,
            together: false,
            replaced,
        },
        sibling,
        entry: Some(Entry::new(identified, fee, vsize, under.second)),
    })
}

/// What becomes of a member by itself. Nothing changes.
pub(crate) fn judge<S: BuildHasher + Copy + Drop>(
    alloc: Global,
    under: &Conditions<'_, S>,
    pool: &Pool<S>,
    max_rate: u64,
    candidate: &Candidate<'_>,
) -> Result<JudgedMember, Memory>
    ensures fate { IfOk result (λ judged. judged.fate ≡ fate_of max_rate (lent_with under.now pool.now.entries) candidate.now) }
    ensures sibling { IfOk result (λ judged. IfSome judged.entry (λ _. judged.sibling ≡ sibling_in (lent_with under.now pool.now.entries) candidate.now)) }
    ensures entry { IfOk result (λ judged. judged.entry ≡ entry_as under.now.second candidate.now judged.fate) }
    ensures new { IfOk result (λ judged. IfSome judged.entry (IsAbsent pool.now.entries)) }
{
    if let Some(entry) = pool.by_wtxid(&candidate.wtxid()) {
        return Ok(JudgedMember::staying_out(Fate::Known {
            fee: entry.fee(),
            vsize: entry.vsize(),
        }));
    }
    if let Some(entry) = pool.entry(&candidate.txid()) {
        return Ok(JudgedMember::staying_out(Fate::OtherWitness {
            wtxid: entry.wtxid(),
        }));
    }
    match judge_member(alloc, under, pool, max_rate, candidate)? {
        Ok(grant) => granted(alloc, under, pool, candidate, grant),
        Err(denial) => Ok(JudgedMember::staying_out(Fate::Denied(denial))),
    }
}
