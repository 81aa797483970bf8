//! A package that is submitted by one call, which no part of the gate makes: a parent that pays nothing comes in with its
//! child, also in place of an entry. And a package that is taken back, which the gate does only where memory runs out.
use crate::submitting::{Hasher, answer, chain, payment};
use gate_admit::{Chain, Conditions, Floor, Policy, Pool, Prepared, Verdict, Verdicts};
use gate_bytes::Memory;
use gate_package::{StagedPackage, check_shape, stage_package, submit_package};
use gate_register::Setting;
use gate_rules::PackageDenial;
use gate_standard::Denial;
use gate_submission::{Candidate, PackageVerdict};
use std::alloc::Global;
use std::hash::BuildHasherDefault;
use std::test::Fail;

/// A parent of version 3 that spends the coin of 100,000 satoshi, pays nothing, and takes 110 virtual bytes.
const PARENT: &str =
    "0300000000010111111111111111111111111111111111111111111111111111111111111111110000000000fdffffff01a086010000000000160014222222222222222222222222222222222222222202483030303030303030303030303030303030303030303030303030303030303030303030303030303030303030303030303030303030303030303030303030303030303030303030302102020202020202020202020202020202020202020202020202020202020202020200000000";

/// What becomes of a child of the parent, of version 3 and of 110 virtual bytes too, and how many entries there are then: in
/// an empty pool it pays 219 satoshi and 220, where 220 virtual bytes cost 220.
const ALONE: [(&str, PackageVerdict, usize); 2] = [
    (
        "0300000000010197ff4efb99fc2fc6880250b24b2616b654e7da69ba1d09ba0078ef31d142bcaa0000000000fdffffff01c585010000000000160014222222222222222222222222222222222222222202483030303030303030303030303030303030303030303030303030303030303030303030303030303030303030303030303030303030303030303030303030303030303030303030302102020202020202020202020202020202020202020202020202020202020202020200000000",
        PackageVerdict::Failed,
        0,
    ),
    (
        "0300000000010197ff4efb99fc2fc6880250b24b2616b654e7da69ba1d09ba0078ef31d142bcaa0000000000fdffffff01c485010000000000160014222222222222222222222222222222222222222202483030303030303030303030303030303030303030303030303030303030303030303030303030303030303030303030303030303030303030303030303030303030303030303030302102020202020202020202020202020202020202020202020202020202020202020200000000",
        PackageVerdict::Success,
        2,
    ),
];

/// The same over an entry that pays 110 satoshi and spends the parent's coin: it pays 329 and 330.
const IN_PLACE: [(&str, PackageVerdict, usize); 2] = [
    (
        "0300000000010197ff4efb99fc2fc6880250b24b2616b654e7da69ba1d09ba0078ef31d142bcaa0000000000fdffffff015785010000000000160014222222222222222222222222222222222222222202483030303030303030303030303030303030303030303030303030303030303030303030303030303030303030303030303030303030303030303030303030303030303030303030302102020202020202020202020202020202020202020202020202020202020202020200000000",
        PackageVerdict::Denied(PackageDenial::LowerFee),
        1,
    ),
    (
        "0300000000010197ff4efb99fc2fc6880250b24b2616b654e7da69ba1d09ba0078ef31d142bcaa0000000000fdffffff015685010000000000160014222222222222222222222222222222222222222202483030303030303030303030303030303030303030303030303030303030303030303030303030303030303030303030303030303030303030303030303030303030303030303030302102020202020202020202020202020202020202020202020202020202020202020200000000",
        PackageVerdict::Success,
        2,
    ),
];

/// A policy with the rules of version 3.
fn policy() -> Policy {
    let usual = gate_register::Policy::default();
    Policy::new(usual.with(Setting::Truc, 1).unwrap_or(usual))
}

fn read(alloc: Global, text: &str) -> Result<Prepared, Fail> {
    let bytes = hex::decode(alloc, text)?;
    Ok(Prepared::new(alloc, &bytes)?)
}

/// What becomes of a package at second 5,000, if each script is good.
fn verdict(
    alloc: Global,
    chain: &Chain<Hasher>,
    pool: &mut Pool<Hasher>,
    members: &[Candidate<'_>],
) -> Result<PackageVerdict, Memory> {
    let mut verdicts = Verdicts::new(alloc, BuildHasherDefault::new());
    verdicts.answer_others(Verdict::Good);
    let mut floor = Floor::new(0);
    let policy = policy();
    let outcome = submit_package(
        alloc, chain, pool, &mut floor, members, &verdicts, &policy, 5_000, 1_000_000, None,
    )?;
    Ok(outcome.verdict)
}

/// What becomes of a parent with its child; nothing if one of them is no transaction.
fn verdict_on_pair(
    alloc: Global,
    chain: &Chain<Hasher>,
    pool: &mut Pool<Hasher>,
    parent: &Prepared,
    child: &Prepared,
) -> Result<Option<PackageVerdict>, Memory> {
    let Some(parent) = parent.candidate() else {
        return Ok(None);
    };
    let Some(child) = child.candidate() else {
        return Ok(None);
    };
    Ok(Some(verdict(alloc, chain, pool, &[parent, child])?))
}

fn verdict_with(
    alloc: Global,
    chain: &Chain<Hasher>,
    pool: &mut Pool<Hasher>,
    parent: &Prepared,
    text: &str,
) -> Result<Option<PackageVerdict>, Fail> {
    let child = read(alloc, text)?;
    Ok(verdict_on_pair(alloc, chain, pool, parent, &child)?)
}

/// Whether the parent comes in or not with each child, one after another, as it should.
fn are_answered(
    alloc: Global,
    chain: &Chain<Hasher>,
    pool: &mut Pool<Hasher>,
    parent: &Prepared,
    children: &[(&str, PackageVerdict, usize)],
) -> Result<bool, Fail> {
    for (text, wanted, count) in children {
        let verdict = verdict_with(alloc, chain, pool, parent, text)?;
        if verdict != Some(*wanted) || pool.count() != *count {
            return Ok(false);
        }
    }
    Ok(true)
}

fn are_answered_in(
    alloc: Global,
    chain: &Chain<Hasher>,
    pool: &mut Pool<Hasher>,
    children: &[(&str, PackageVerdict, usize)],
) -> Result<bool, Fail> {
    let parent = read(alloc, PARENT)?;
    are_answered(alloc, chain, pool, &parent, children)
}

fn are_answered_alone(alloc: Global, chain: &Chain<Hasher>) -> Result<bool, Fail> {
    let mut pool = Pool::new(alloc, BuildHasherDefault::new())?;
    are_answered_in(alloc, chain, &mut pool, &ALONE)
}

fn is_entered(alloc: Global, chain: &Chain<Hasher>, pool: &mut Pool<Hasher>) -> Result<bool, Fail> {
    let payment = payment(alloc)?;
    Ok(answer(alloc, chain, pool, &payment)?.is_ok())
}

fn are_answered_in_place(alloc: Global, chain: &Chain<Hasher>) -> Result<bool, Fail> {
    let mut pool = Pool::new(alloc, BuildHasherDefault::new())?;
    if !is_entered(alloc, chain, &mut pool)? {
        return Ok(false);
    }
    are_answered_in(alloc, chain, &mut pool, &IN_PLACE)
}

/// Stages a package at second 5,000, if each script is good, and takes it back. It tells how many entries there were
/// meanwhile; nothing if its members don't belong together.
fn count_staged(
    alloc: Global,
    chain: &Chain<Hasher>,
    pool: &mut Pool<Hasher>,
    members: &[Candidate<'_>],
) -> Result<Option<usize>, Memory> {
    let mut verdicts = Verdicts::new(alloc, BuildHasherDefault::new());
    verdicts.answer_others(Verdict::Good);
    let floor = Floor::new(0);
    let policy = policy();
    if let Some(_denial) = check_shape(chain, &policy, members) {
        return Ok(None);
    }
    let under = Conditions {
        chain,
        floor: &floor,
        verdicts: &verdicts,
        policy: &policy,
        second: 5_000,
        budget: 1_000_000,
    };
    let StagedPackage {
        outcome: _outcome,
        stage,
    } = stage_package(alloc, &under, pool, members, 0)?;
    let count = pool.count();
    stage.take_back(pool);
    Ok(Some(count))
}

fn count_staged_pair(
    alloc: Global,
    chain: &Chain<Hasher>,
    pool: &mut Pool<Hasher>,
    parent: &Prepared,
    child: &Prepared,
) -> Result<Option<usize>, Memory> {
    let Some(parent) = parent.candidate() else {
        return Ok(None);
    };
    let Some(child) = child.candidate() else {
        return Ok(None);
    };
    count_staged(alloc, chain, pool, &[parent, child])
}

/// Whether the pair that pays enough stands in the pool meanwhile, without what it replaces.
fn stands_meanwhile(
    alloc: Global,
    chain: &Chain<Hasher>,
    pool: &mut Pool<Hasher>,
) -> Result<bool, Fail> {
    let [_, (text, _, count)] = IN_PLACE;
    let parent = read(alloc, PARENT)?;
    let child = read(alloc, text)?;
    let staged = count_staged_pair(alloc, chain, pool, &parent, &child)?;
    Ok(staged == Some(count))
}

/// Whether the payment is the one entry, nothing has moved, and the pair can still take its place.
fn is_as_before(
    alloc: Global,
    chain: &Chain<Hasher>,
    pool: &mut Pool<Hasher>,
) -> Result<bool, Fail> {
    let departed = pool.departed(alloc)?;
    let arrived = pool.arrived(alloc)?;
    if pool.count() != 1 || !departed.is_empty() || !arrived.is_empty() {
        return Ok(false);
    }
    let payment = payment(alloc)?;
    let again = answer(alloc, chain, pool, &payment)?;
    if again != Err(Denial::AlreadyInMempool) {
        return Ok(false);
    }
    are_answered_in(alloc, chain, pool, &IN_PLACE)
}

fn is_taken_back(alloc: Global, chain: &Chain<Hasher>) -> Result<bool, Fail> {
    let mut pool = Pool::new(alloc, BuildHasherDefault::new())?;
    if !is_entered(alloc, chain, &mut pool)? || !stands_meanwhile(alloc, chain, &mut pool)? {
        return Ok(false);
    }
    is_as_before(alloc, chain, &mut pool)
}

#[test]
fn a_parent_comes_in_with_its_child(rt: HostRuntime) -> Result<(), Fail> {
    let chain = chain(rt.alloc())?;
    assert!(rt; are_answered_alone(rt.alloc(), &chain)?);
    Ok(())
}

#[test]
fn a_pair_takes_the_place_of_an_entry(rt: HostRuntime) -> Result<(), Fail> {
    let chain = chain(rt.alloc())?;
    assert!(rt; are_answered_in_place(rt.alloc(), &chain)?);
    Ok(())
}

#[test]
fn a_pair_that_is_taken_back_gives_the_entry_its_place_again(rt: HostRuntime) -> Result<(), Fail> {
    let chain = chain(rt.alloc())?;
    assert!(rt; is_taken_back(rt.alloc(), &chain)?);
    Ok(())
}
