//! Those of a package that were denied by themselves, judged together.
ghost use Rattle.std.specs.Prelude.{◌≡◌, [], All, IfOk, length};
ghost use Rattle.gate_admit.specs.Bounds.{FitsEntry};
ghost use Rattle.gate_admit.specs.Lending.{lent_with};
ghost use Rattle.gate_package.specs.Together.{all_denied, denied_at, doubted_place, halves_as, priced_refusal, refusal_of, refused_each, replaces_some, replacing_denial, together_of, unpaid, unswept_place};

use crate::families::passes_limits;
use crate::half::{first_half, replaces_one};
use crate::replacement::check_replacement;
use crate::role::Role;
use crate::sweeping::check_sweep_beside;
use crate::truc::breaks_together;
use gate_admit::{Conditions, Policy, Pool, check_verdicts};
use gate_bytes::{Kept, Memory};
use gate_diagram::{Price, sum_of};
use gate_rules::PackageDenial;
use gate_standard::Denial;
use gate_submission::{Candidate, PackageVerdict};
use std::alloc::Global;
use std::hash::BuildHasher;

/// The denial of one of those that are judged together, by its place among them.
#[derive(Clone, Copy, PartialEq, Eq)]
pub(crate) struct DeniedOne {
    pub(crate) place: usize,
    pub(crate) denial: Denial,
}

/// Why those that are judged together don't enter: the verdict on the package, and the member that is denied by it, if
/// one is.
#[derive(Clone, Copy, PartialEq, Eq)]
pub(crate) struct Refusal {
    pub(crate) verdict: PackageVerdict,
    pub(crate) member: Option<DeniedOne>,
}

impl Refusal {
    /// A member is denied by a rule of admission, and so the package has failed.
    fn of_member(place: usize, denial: Denial) -> Refusal
        ensures { result ≡ denied_at place denial }
    {
        Refusal {
            verdict: PackageVerdict::Failed,
            member: Some(DeniedOne { place, denial }),
        }
    }

    /// A rule on packages denies all of them.
    fn of_all(denial: PackageDenial) -> Refusal
        ensures { result ≡ all_denied denial }
    {
        Refusal {
            verdict: PackageVerdict::Denied(denial),
            member: None,
        }
    }
}

/// The first of A34 and A35 that fails for what all of them pay.
fn unpaid<S: BuildHasher + Copy + Drop>(under: &Conditions<'_, S>, sum: Price) -> Option<Denial>
    ensures { result ≡ unpaid under.now.policy.now under.now.floor.now sum.fee sum.vsize }
{
    let fee = u128::from(sum.fee);
    if fee < under.policy.feerate(under.floor.rate()).fee(sum.vsize) {
        return Some(Denial::MempoolMinFee);
    }
    if fee < under.policy.relay_feerate().fee(sum.vsize) {
        return Some(Denial::MinRelayFee);
    }
    None
}

/// Whether one of them spends what an entry spends.
pub(crate) fn replaces_some<S: BuildHasher + Copy + Drop>(
    pool: &Pool<S>,
    these: &[Candidate<'_>],
) -> bool
    ensures { result ≡ replaces_some pool.now.entries these.now }
{
    these.iter().any(|tx| replaces_one(pool, tx))
}

/// The first of them that fails A49, with its parents among them and in the pool.
pub(crate) fn find_unswept<S: BuildHasher + Copy + Drop>(
    alloc: Global,
    under: &Conditions<'_, S>,
    pool: &Pool<S>,
    these: &[Candidate<'_>],
) -> Result<Option<DeniedOne>, Memory>
    ensures { IfOk result (λ found. found ≡ unswept_place under.now.policy.now.standards these.now pool.now.entries 0 these.now) }
{
    let standards = under.policy.standards();
    let mut place = 0;
    for tx in these {
        let transaction = tx.transaction();
        if let Some(denial) = check_sweep_beside(alloc, &standards, these, pool, transaction)? {
            return Ok(Some(DeniedOne { place, denial }));
        }
        place += 1;
    }
    Ok(None)
}

/// The first of them that fails one of A43 to A45.
pub(crate) fn find_doubted<S: BuildHasher + Copy + Drop>(
    under: &Conditions<'_, S>,
    these: &[Candidate<'_>],
) -> Option<DeniedOne>
    ensures { result ≡ doubted_place under.now.verdicts.now 0 these.now }
{
    let mut place = 0;
    for tx in these {
        if let Some(denial) = check_verdicts(under.verdicts, tx.identified().get()) {
            return Some(DeniedOne { place, denial });
        }
        place += 1;
    }
    None
}

/// What each of these pays in this role, or the first that fails the first half of the order behind those before it.
pub(crate) fn judge_halves<'a, S: BuildHasher + Copy + Drop>(
    alloc: Global,
    under: &'a Conditions<'_, S>,
    pool: &'a Pool<S>,
    role: Role,
    max_rate: u64,
    these: &'a [Candidate<'_>],
) -> Result<Result<Kept<Price>, Refusal>, Memory>
    ensures halves { IfOk result (λ found. found ≡ halves_as role max_rate (lent_with under.now pool.now.entries) [] 0 these.now) }
    ensures fit { IfOk result (λ found. IfOk found (All (λ price. FitsEntry price.fee price.vsize))) }
{
    let mut prices = Vec::with_capacity(alloc, these.len())?;
    let mut place = 0;
    for tx in these {
        let (before, _later) = these.split_at(place);
        match first_half(alloc, under, pool, role, max_rate, before, tx)? {
            Ok(half) => prices.push(Price {
                fee: half.fee,
                vsize: half.vsize,
            })?,
            Err(denial) => return Ok(Err(Refusal::of_member(place, denial))),
        }
        place += 1;
    }
    Ok(Ok(Kept::from_vec(prices)))
}

/// A49 and A43 to A45 of each of them: why they don't enter, if one fails.
fn check_each<S: BuildHasher + Copy + Drop>(
    alloc: Global,
    under: &Conditions<'_, S>,
    pool: &Pool<S>,
    these: &[Candidate<'_>],
) -> Result<Option<Refusal>, Memory>
    ensures { IfOk result (λ refusal. refusal ≡ refused_each (lent_with under.now pool.now.entries) these.now) }
{
    if let Some(member) = find_unswept(alloc, under, pool, these)? {
        return Ok(Some(Refusal {
            verdict: PackageVerdict::Denied(PackageDenial::UnspentDust),
            member: Some(member),
        }));
    }
    match find_doubted(under, these) {
        Some(member) => Ok(Some(Refusal::of_member(member.place, member.denial))),
        None => Ok(None),
    }
}

/// The first of J10 to J16 that fails, which are asked of those that replace entries alone.
fn check_replacing<S: BuildHasher + Copy + Drop>(
    alloc: Global,
    policy: &Policy,
    pool: &Pool<S>,
    these: &[Candidate<'_>],
    prices: &[Price],
) -> Result<Option<PackageDenial>, Memory>
    requires fit { All (λ price. FitsEntry price.fee price.vsize) prices.now }
    requires one_each { length prices.now ≡ length these.now }
    ensures { IfOk result (λ denial. denial ≡ replacing_denial policy.now pool.now.entries these.now prices.now) }
{
    if replaces_some(pool, these) {
        check_replacement(alloc, policy, pool, these, prices)
    } else {
        Ok(None)
    }
}

/// The rules on all of them behind J8, each at its price: why they don't enter, if one fails.
#[tactic(auto, unfolding(crate::specs::Together::priced_refusal))]
fn check_priced<S: BuildHasher + Copy + Drop>(
    alloc: Global,
    under: &Conditions<'_, S>,
    pool: &Pool<S>,
    these: &[Candidate<'_>],
    prices: &[Price],
) -> Result<Option<Refusal>, Memory>
    requires fit { All (λ price. FitsEntry price.fee price.vsize) prices.now }
    requires one_each { length prices.now ≡ length these.now }
    ensures { IfOk result (λ refusal. refusal ≡ priced_refusal (lent_with under.now pool.now.entries) these.now prices.now) }
{
    let sum = sum_of(prices);
    if let Some(denial) = unpaid(under, sum) {
        let last = these.len().saturating_sub(1);
        return Ok(Some(Refusal::of_member(last, denial)));
    }
    if passes_limits(alloc, under.policy, pool, these, sum.vsize)? {
        return Ok(Some(Refusal::of_all(PackageDenial::FamilyLimits)));
    }
    if let Some(denial) = check_replacing(alloc, under.policy, pool, these, prices)? {
        return Ok(Some(Refusal::of_all(denial)));
    }
    check_each(alloc, under, pool, these)
}

/// The rules on all of them, each at its price: why they don't enter, if one fails.
#[tactic(auto, unfolding(crate::specs::Together::refusal_of))]
fn check_all<S: BuildHasher + Copy + Drop>(
    alloc: Global,
    under: &Conditions<'_, S>,
    pool: &Pool<S>,
    these: &[Candidate<'_>],
    prices: &[Price],
) -> Result<Option<Refusal>, Memory>
    requires fit { All (λ price. FitsEntry price.fee price.vsize) prices.now }
    requires one_each { length prices.now ≡ length these.now }
    ensures { IfOk result (λ refusal. refusal ≡ refusal_of (lent_with under.now pool.now.entries) these.now prices.now) }
{
    if breaks_together(alloc, under.policy, pool, these, prices)? {
        return Ok(Some(Refusal::of_all(PackageDenial::TrucViolation)));
    }
    check_priced(alloc, under, pool, these, prices)
}

/// What each of these pays if all may enter together, or why they don't. Nothing changes.
#[tactic(auto, unfolding(crate::specs::Together::together_of))]
pub(crate) fn judge_together<S: BuildHasher + Copy + Drop>(
    alloc: Global,
    under: &Conditions<'_, S>,
    pool: &Pool<S>,
    max_rate: u64,
    these: &[Candidate<'_>],
) -> Result<Result<Kept<Price>, Refusal>, Memory>
    ensures together { IfOk result (λ found. found ≡ together_of max_rate (lent_with under.now pool.now.entries) these.now) }
    ensures fit { IfOk result (λ found. IfOk found (All (λ price. FitsEntry price.fee price.vsize))) }
{
    let prices = match judge_halves(alloc, under, pool, Role::Together, max_rate, these)? {
        Ok(prices) => prices,
        Err(refusal) => return Ok(Err(refusal)),
    };
    match check_all(alloc, under, pool, these, prices.as_slice())? {
        Some(refusal) => Ok(Err(refusal)),
        None => Ok(Ok(prices)),
    }
}
