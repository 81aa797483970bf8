//! A package as a whole: each of its members by itself, those together that are denied, and its landing.
ghost use Rattle.std.specs.Prelude.{◌≡◌, ◌∷◌, ◌++◌, [], None, false, map, IfOk, OnOk, OnErr};
ghost use Rattle.gate_admit.specs.Lending.{lent_with};
ghost use Rattle.gate_admit.specs.Standing.{standing};
ghost use Rattle.gate_pool.specs.Pool.{IsRewindable};
ghost use Rattle.gate_tx.specs.Ids.{wtxid_of};
ghost use Rattle.gate_package.specs.Packages.{Leaves, all_together, course_behind, course_of, denied_count, denied_of, fate_of, granted, has_failed, held_txids, is_denied, is_lost, judged_as, judged_of, member_with, reconsidered_by, refused, replaced_by};
ghost use Rattle.gate_package.specs.Shapes.{has_conflict, has_duplicates};
ghost use Rattle.gate_package.specs.Staging.{StagesAs};

use crate::entry::{enter, enter_together};
use crate::members::{JudgedMember, is_reconsiderable, judge};
use crate::shape::check_shape;
use crate::staging::Stage;
use crate::together::{DeniedOne, judge_together};
use gate_admit::{Chain, Conditions, Floor, Policy, Pool, Verdicts};
use gate_bytes::{Copied, Kept, Memory};
use gate_diagram::{Price, sum_of};
use gate_submission::{Candidate, Fate, Member, PackageOutcome, PackageVerdict, Together};
use gate_tx::{Txid, Wtxid};
use std::alloc::Global;
use std::hash::BuildHasher;
use std::mem;

/// A package that stands in the pool, and can still be taken back.
#[derive(Drop)]
pub struct StagedPackage {
    /// What became of it if no member leaves the pool again.
    pub outcome: PackageOutcome,
    pub stage: Stage,
}

/// What becomes of a package as a whole: the verdict, and those that were judged together, if they came in.
#[derive(Drop)]
struct Conclusion {
    verdict: PackageVerdict,
    together: Option<Together>,
}

impl Conclusion {
    /// Nothing was judged together.
    fn of(verdict: PackageVerdict) -> Conclusion
        ensures verdict { result.verdict ≡ verdict }
        ensures together { result.together ≡ None }
    {
        Conclusion {
            verdict,
            together: None,
        }
    }
}

/// The ids of what a member has replaced.
fn replaced_by(fate: &Fate) -> &[Txid]
    ensures { result.now ≡ replaced_by fate.now }
{
    match fate {
        Fate::Taken { replaced, .. } => replaced.as_slice(),
        _ => &[],
    }
}

/// Puts what became of a transaction at the end of a list.
fn put(members: &mut Vec<Member>, candidate: &Candidate<'_>, fate: Fate) -> Result<(), Memory>
    ensures { OnOk result (members.new.items ≡ members.old.items ++ member_with candidate.now fate ∷ []) }
{
    Ok(members.push(Member {
        txid: candidate.txid(),
        wtxid: candidate.wtxid(),
        fate,
    })?)
}

/// An empty list with room for this many members.
fn with_room(alloc: Global, count: usize) -> Result<Vec<Member>, Memory>
    ensures { IfOk result (λ members. members.items ≡ []) }
{
    Ok(Vec::with_capacity(alloc, count)?)
}

/// Judges a member by itself, and lets it stand in the pool if it is taken.
fn judge_next<S: BuildHasher + Copy + Drop>(
    alloc: Global,
    under: &Conditions<'_, S>,
    pool: &mut Pool<S>,
    max_rate: u64,
    candidate: &Candidate<'_>,
    judged: &mut Vec<Member>,
) -> Result<(), Memory>
    ensures members { OnOk result (judged.new.items ≡ judged.old.items ++ member_with candidate.now (fate_of max_rate (lent_with under.now pool.old.entries) candidate.now) ∷ []) }
    ensures entries { OnOk result (pool.new.entries ≡ course_behind max_rate (lent_with under.now pool.old.entries) under.now.second candidate.now) }
    ensures before { pool.new.before ≡ pool.old.before }
    ensures rewindable { IsRewindable pool.old → IsRewindable pool.new }
{
    let JudgedMember {
        fate,
        sibling,
        entry,
    } = judge(alloc, under, pool, max_rate, candidate)?;
    if let Some(entry) = entry {
        enter(pool, replaced_by(&fate), sibling, entry)?;
    }
    put(judged, candidate, fate)
}

/// Judges each member by itself, in the order of the package.
fn judge_each<S: BuildHasher + Copy + Drop>(
    alloc: Global,
    under: &Conditions<'_, S>,
    pool: &mut Pool<S>,
    max_rate: u64,
    members: &[Candidate<'_>],
    judged: &mut Vec<Member>,
) -> Result<(), Memory>
    ensures members { OnOk result (judged.new.items ≡ judged.old.items ++ (course_of max_rate (lent_with under.now pool.old.entries) under.now.second members.now).members) }
    ensures entries { OnOk result (pool.new.entries ≡ (course_of max_rate (lent_with under.now pool.old.entries) under.now.second members.now).entries) }
    ensures before { pool.new.before ≡ pool.old.before }
    ensures rewindable { IsRewindable pool.old → IsRewindable pool.new }
{
    for candidate in members {
        judge_next(alloc, under, pool, max_rate, candidate, judged)?;
    }
    Ok(())
}

fn is_denied(member: &Member) -> bool
    ensures { result ≡ is_denied member.now }
{
    matches!(&member.fate, Fate::Denied(_))
}

/// How many members are denied.
fn count_denied(members: &[Member]) -> usize
    ensures { result ≡ denied_count members.now }
{
    let mut count = 0;
    for member in members {
        if is_denied(member) {
            count += 1;
        }
    }
    count
}

/// Whether those that are judged together can't mend what became of a transaction.
fn is_lost(policy: &Policy, candidate: &Candidate<'_>, fate: &Fate) -> bool
    ensures { result ≡ is_lost policy.now candidate.now fate.now }
{
    match fate {
        Fate::Denied(denial) => !is_reconsiderable(policy, candidate.transaction(), *denial),
        _ => false,
    }
}

/// Whether a denial of a member fails the package: those that are judged together can't mend it.
fn has_failed(policy: &Policy, candidates: &[Candidate<'_>], members: &[Member]) -> bool
    ensures { result ≡ has_failed policy.now candidates.now members.now }
{
    let Some((candidate, candidates)) = candidates.split_first() else {
        return false;
    };
    let Some((member, members)) = members.split_first() else {
        return false;
    };
    is_lost(policy, candidate, &member.fate) || has_failed(policy, candidates, members)
}

/// Puts the transactions of the members that are denied at the end of a list.
fn push_denied<'a>(
    these: &mut Vec<Candidate<'a>>,
    candidates: &[Candidate<'a>],
    members: &[Member],
) -> Result<(), Memory>
    ensures { OnOk result (these.new.items ≡ these.old.items ++ denied_of candidates.now members.now) }
{
    let Some((candidate, candidates)) = candidates.split_first() else {
        return Ok(());
    };
    let Some((member, members)) = members.split_first() else {
        return Ok(());
    };
    if is_denied(member) {
        these.push(candidate.again())?;
    }
    push_denied(these, candidates, members)
}

/// The transactions of the members that are denied.
fn denied_of<'a>(
    alloc: Global,
    candidates: &[Candidate<'a>],
    members: &[Member],
) -> Result<Vec<Candidate<'a>>, Memory>
    ensures { IfOk result (λ these. these.items ≡ denied_of candidates.now members.now) }
{
    let mut these = Vec::with_capacity(alloc, members.len())?;
    push_denied(&mut these, candidates, members)?;
    Ok(these)
}

/// The wtxids of these transactions.
fn wtxids_of(alloc: Global, these: &[Candidate<'_>]) -> Result<Vec<Wtxid>, Memory>
    ensures { IfOk result (λ wtxids. wtxids.items ≡ map wtxid_of these.now) }
{
    let mut wtxids = Vec::with_capacity(alloc, these.len())?;
    for candidate in these {
        wtxids.push(candidate.wtxid())?;
    }
    Ok(wtxids)
}

/// What these transactions pay together, at these prices.
fn all_together(
    alloc: Global,
    these: &[Candidate<'_>],
    prices: &[Price],
) -> Result<Together, Memory>
    ensures { IfOk result (λ together. together ≡ all_together these.now prices.now) }
{
    let Price { fee, vsize } = sum_of(prices);
    let wtxids = Kept::from_vec(wtxids_of(alloc, these)?);
    Ok(Together { fee, vsize, wtxids })
}

/// Makes the members that are denied taken, each at its price. The first of them tells what they replaced.
fn grant_denied(alloc: Global, members: &mut Vec<Member>, prices: &[Price], replaced: Kept<Txid>)
    ensures { members.new.items ≡ granted replaced prices.now members.old.items }
{
    let mut prices = prices;
    let mut told = replaced;
    for member in members.iter_mut() {
        if !is_denied(member) {
            continue;
        }
        if let Some((price, others)) = prices.split_first() {
            let all = mem::replace(&mut told, Kept::from_vec(Vec::new(alloc)));
            member.fate = Fate::Taken {
                fee: price.fee,
                vsize: price.vsize,
                together: true,
                replaced: all,
            };
            prices = others;
        }
    }
}

/// Gives one of the members that are denied its denial, by its place among these.
fn refuse_denied(members: &mut Vec<Member>, one: Option<DeniedOne>)
    ensures { members.new.items ≡ refused one members.old.items }
{
    let Some(one) = one else {
        return;
    };
    let mut place = 0;
    for member in members.iter_mut() {
        if !is_denied(member) {
            continue;
        }
        if place == one.place {
            member.fate = Fate::Denied(one.denial);
        }
        place += 1;
    }
}

/// Judges those members together that are denied by themselves, and lets them stand in the pool if they may enter.
fn reconsider<S: BuildHasher + Copy + Drop>(
    alloc: Global,
    under: &Conditions<'_, S>,
    pool: &mut Pool<S>,
    max_rate: u64,
    candidates: &[Candidate<'_>],
    members: &mut Vec<Member>,
) -> Result<Conclusion, Memory>
    requires distinct { has_duplicates candidates.now ≡ false }
    requires apart { has_conflict candidates.now ≡ false }
    ensures ok { IfOk result (λ c. judged_as c.verdict members.new.items c.together pool.new.entries ≡ reconsidered_by max_rate (lent_with under.now pool.old.entries) under.now.second members.old.items (denied_of candidates.now members.old.items)) }
    ensures before { pool.new.before ≡ pool.old.before }
    ensures rewindable { IsRewindable pool.old → IsRewindable pool.new }
{
    let these = denied_of(alloc, candidates, members.as_slice())?;
    let these = these.as_slice();
    match judge_together(alloc, under, pool, max_rate, these)? {
        Ok(prices) => {
            let together = all_together(alloc, these, prices.as_slice())?;
            let prices = prices.as_slice();
            let replaced = enter_together(alloc, under, pool, these, prices)?;
            grant_denied(alloc, members, prices, replaced);
            Ok(Conclusion {
                verdict: PackageVerdict::Success,
                together: Some(together),
            })
        }
        Err(refusal) => {
            refuse_denied(members, refusal.member);
            Ok(Conclusion::of(refusal.verdict))
        }
    }
}

/// What becomes of the package, whose members stand in the pool then.
fn conclude<S: BuildHasher + Copy + Drop>(
    alloc: Global,
    under: &Conditions<'_, S>,
    pool: &mut Pool<S>,
    max_rate: u64,
    candidates: &[Candidate<'_>],
    members: &mut Vec<Member>,
) -> Result<Conclusion, Memory>
    requires none { members.old.items ≡ [] }
    requires distinct { has_duplicates candidates.now ≡ false }
    requires apart { has_conflict candidates.now ≡ false }
    ensures ok { IfOk result (λ c. judged_as c.verdict members.new.items c.together pool.new.entries ≡ judged_of max_rate (lent_with under.now pool.old.entries) under.now.second candidates.now) }
    ensures before { pool.new.before ≡ pool.old.before }
    ensures rewindable { IsRewindable pool.old → IsRewindable pool.new }
{
    judge_each(alloc, under, pool, max_rate, candidates, members)?;
    let denied = count_denied(members.as_slice());
    if denied == 0 {
        return Ok(Conclusion::of(PackageVerdict::Success));
    }
    if has_failed(under.policy, candidates, members.as_slice()) || denied == 1 {
        return Ok(Conclusion::of(PackageVerdict::Failed));
    }
    reconsider(alloc, under, pool, max_rate, candidates, members)
}

/// The txids of the members that are in the pool.
fn held_of(alloc: Global, members: &[Member]) -> Result<Vec<Txid>, Memory>
    ensures { IfOk result (λ held. held.items ≡ held_txids members.now) }
{
    let mut held = Vec::with_capacity(alloc, members.len())?;
    for member in members {
        if member.is_held() {
            held.push(member.txid)?;
        }
    }
    Ok(held)
}

/// What becomes of the package over this pool, in which its members stand then, and the txids of those that do.
fn judge_on<S: BuildHasher + Copy + Drop>(
    alloc: Global,
    under: &Conditions<'_, S>,
    pool: &mut Pool<S>,
    max_rate: u64,
    candidates: &[Candidate<'_>],
) -> Result<(PackageOutcome, Vec<Txid>), Memory>
    requires distinct { has_duplicates candidates.now ≡ false }
    requires apart { has_conflict candidates.now ≡ false }
    ensures ok { IfOk result (λ judged. judged_of max_rate (lent_with under.now pool.old.entries) under.now.second candidates.now ≡ record { outcome = judged.0; entries = pool.new.entries }) }
    ensures held { IfOk result (λ judged. judged.1.items ≡ held_txids judged.0.members) }
    ensures before { pool.new.before ≡ pool.old.before }
    ensures rewindable { IsRewindable pool.old → IsRewindable pool.new }
{
    let mut members = with_room(alloc, candidates.len())?;
    let Conclusion { verdict, together } = conclude(
        alloc,
        under,
        pool,
        max_rate,
        candidates,
        &mut members,
    )?;
    let held = held_of(alloc, members.as_slice())?;
    let outcome = PackageOutcome {
        verdict,
        members: Kept::from_vec(members),
        together,
    };
    Ok((outcome, held))
}

/// Judges a package over the pool, and lets the members that are taken stand in it, in the place of what they replace. The
/// pool's log begins with it, and keeps what left, so that the pool can be rewound. `max_rate` is the greatest feerate of a
/// member by itself, in satoshi per 1,000 virtual bytes, and 0 bounds nothing. If memory runs out, the entries are those that
/// they were.
pub fn stage_package<S: BuildHasher + Copy + Drop>(
    alloc: Global,
    under: &Conditions<'_, S>,
    pool: &mut Pool<S>,
    members: &[Candidate<'_>],
    max_rate: u64,
) -> Result<StagedPackage, Memory>
    requires distinct { has_duplicates members.now ≡ false }
    requires apart { has_conflict members.now ≡ false }
    ensures ok { IfOk result (λ staged. StagesAs max_rate (lent_with under.now pool.old.entries) under.now.second members.now staged.outcome staged.stage pool.new.entries) }
    ensures err { OnErr result (pool.new.entries ≡ pool.old.entries) }
    ensures before { pool.new.before ≡ pool.old.entries }
    ensures rewindable { OnOk result (IsRewindable pool.new) }
{
    pool.mark();
    match judge_on(alloc, under, pool, max_rate, members) {
        Ok((outcome, held)) => Ok(StagedPackage {
            outcome,
            stage: Stage::of(held),
        }),
        Err(memory) => {
            pool.rewind();
            Err(memory)
        }
    }
}

/// Submits a package at this second: J2 to J7, its members one by one, those together that are denied, and then expiry and
/// trim, once. The budget is in virtual bytes; without a greatest feerate, in satoshi per 1,000 virtual bytes, none is asked
/// for. If memory runs out, nothing changes, also if a member had entered. The memory for the pool is what its own entries
/// take, and what those that it replaces would take if they came back.
pub fn submit_package<S: BuildHasher + Copy + Drop>(
    alloc: Global,
    chain: &Chain<S>,
    pool: &mut Pool<S>,
    floor: &mut Floor,
    members: &[Candidate<'_>],
    verdicts: &Verdicts<S>,
    policy: &Policy,
    now: u64,
    budget: u64,
    max_rate: Option<u64>,
) -> Result<PackageOutcome, Memory>
    ensures ok { IfOk result (Leaves max_rate (standing chain.now pool.old.entries floor.old verdicts.now policy.now) members.now now budget pool.new.entries floor.new) }
    ensures pool_kept { OnErr result (pool.new.entries ≡ pool.old.entries) }
    ensures floor_kept { OnErr result (floor.new ≡ floor.old) }
    ensures before { pool.new.before ≡ pool.old.entries }
{
    pool.mark();
    if let Some(denial) = check_shape(chain, policy, members) {
        return Ok(PackageOutcome::unjudged(alloc, denial));
    }
    let under = Conditions {
        chain,
        floor,
        verdicts,
        policy,
        second: now,
        budget,
    };
    let staged = stage_package(alloc, &under, pool, members, max_rate.unwrap_or(0))?;
    let StagedPackage { outcome, stage } = staged;
    let gone = stage.land(pool, floor, policy, now, budget);
    Ok(outcome.settled(gone.as_slice()))
}
