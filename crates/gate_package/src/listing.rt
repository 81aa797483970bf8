//! Several transactions that are tested as one package: what would become of each.
ghost use Rattle.std.specs.Prelude.{◌≡◌, ◌++◌, IfOk, OnOk, length, map};
ghost use Rattle.gate_admit.specs.Lending.{lent_with};
ghost use Rattle.gate_package.specs.Listed.{allowed_before, allowed_until, denied_or_unjudged, each_denied, listed_at, listed_of, one_denied};

use crate::families::passes_limits;
use crate::role::Role;
use crate::shape::check_list;
use crate::together::{DeniedOne, find_doubted, find_unswept, judge_halves};
use crate::truc::breaks_together;
use gate_admit::{Conditions, Pool};
use gate_bytes::Memory;
use gate_diagram::{Price, sum_of};
use gate_rules::PackageDenial;
use gate_standard::Denial;
use gate_submission::Candidate;
use std::alloc::Global;
use std::hash::BuildHasher;

/// What would become of one of several transactions that are tested as one package.
#[derive(Clone, Copy, PartialEq, Eq)]
pub enum ListedFate {
    /// It would enter: it pays `fee` satoshi, and takes `vsize` virtual bytes.
    Allowed { fee: u64, vsize: u64 },
    /// A rule of admission denies it.
    Denied(Denial),
    /// A rule on packages denies all of them.
    AllDenied(PackageDenial),
    /// Nothing is said of it, since another one is denied.
    Unjudged,
}

/// A rule on packages denies all of these.
fn each_denied(
    alloc: Global,
    denial: PackageDenial,
    these: &[Candidate<'_>],
) -> Result<Vec<ListedFate>, Memory>
    ensures { IfOk result (λ fates. fates.items ≡ each_denied denial these.now) }
{
    let mut fates = Vec::with_capacity(alloc, these.len())?;
    for _ in these {
        fates.push(ListedFate::AllDenied(denial))?;
    }
    Ok(fates)
}

/// What is said of the one at this place, where one is denied and nothing is said of the others.
fn denied_or_unjudged(one: Option<DeniedOne>, place: usize) -> ListedFate
    ensures { result ≡ denied_or_unjudged one place }
{
    match one {
        Some(one) => if place == one.place {
            ListedFate::Denied(one.denial)
        } else {
            ListedFate::Unjudged
        },
        None => ListedFate::Unjudged,
    }
}

/// One of these is denied, and nothing is said of the others.
fn one_denied(
    alloc: Global,
    one: Option<DeniedOne>,
    these: &[Candidate<'_>],
) -> Result<Vec<ListedFate>, Memory>
    ensures { IfOk result (λ fates. fates.items ≡ one_denied one 0 these.now) }
{
    let mut fates = Vec::with_capacity(alloc, these.len())?;
    let mut place = 0;
    for _ in these {
        fates.push(denied_or_unjudged(one, place))?;
        place += 1;
    }
    Ok(fates)
}

/// What is said of the one at this place, which pays this: it is allowed if it stands before the one that is denied.
fn allowed_before(one: Option<DeniedOne>, place: usize, price: &Price) -> ListedFate
    ensures { result ≡ allowed_before one place price.now }
{
    let allowed = ListedFate::Allowed {
        fee: price.fee,
        vsize: price.vsize,
    };
    match one {
        Some(denied) => if place < denied.place {
            allowed
        } else {
            denied_or_unjudged(one, place)
        },
        None => allowed,
    }
}

/// Those before the one that is denied are allowed, each at its price, and nothing is said of those behind it.
fn allowed_until(
    alloc: Global,
    one: Option<DeniedOne>,
    prices: &[Price],
) -> Result<Vec<ListedFate>, Memory>
    ensures { IfOk result (λ fates. fates.items ≡ allowed_until one 0 prices.now) }
{
    let mut fates = Vec::with_capacity(alloc, prices.len())?;
    let mut place = 0;
    for price in prices {
        fates.push(allowed_before(one, place, price))?;
        place += 1;
    }
    Ok(fates)
}

/// What would become of each of these at its price: by J8, J9, A49 and A43 to A45.
#[tactic(auto, unfolding(crate::specs::Listed::listed_at))]
fn judge_priced<S: BuildHasher + Copy + Drop>(
    alloc: Global,
    under: &Conditions<'_, S>,
    pool: &Pool<S>,
    these: &[Candidate<'_>],
    prices: &[Price],
) -> Result<Vec<ListedFate>, Memory>
    ensures { IfOk result (λ fates. fates.items ≡ listed_at (lent_with under.now pool.now.entries) these.now prices.now) }
{
    if breaks_together(alloc, under.policy, pool, these, prices)? {
        return each_denied(alloc, PackageDenial::TrucViolation, these);
    }
    if passes_limits(alloc, under.policy, pool, these, sum_of(prices).vsize)? {
        return each_denied(alloc, PackageDenial::FamilyLimits, these);
    }
    if let Some(unswept) = find_unswept(alloc, under, pool, these)? {
        return one_denied(alloc, Some(unswept), these);
    }
    allowed_until(alloc, find_doubted(under, these), prices)
}

/// What would become of each of these, which are tested as one package over the pool: nothing that stands in it is replaced,
/// and nothing changes.
#[tactic(auto, unfolding(crate::specs::Listed::listed_of))]
pub fn judge_list<S: BuildHasher + Copy + Drop>(
    alloc: Global,
    under: &Conditions<'_, S>,
    pool: &Pool<S>,
    these: &[Candidate<'_>],
) -> Result<Vec<ListedFate>, Memory>
    ensures { IfOk result (λ fates. fates.items ≡ listed_of (lent_with under.now pool.now.entries) these.now) }
{
    if let Some(denial) = check_list(these) {
        return each_denied(alloc, denial, these);
    }
    match judge_halves(alloc, under, pool, Role::Listed, 0, these)? {
        Ok(prices) => judge_priced(alloc, under, pool, these, prices.as_slice()),
        Err(refusal) => one_denied(alloc, refusal.member, these),
    }
}
