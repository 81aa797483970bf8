//! The first half of the written order for a transaction of a package: A2 to A37, and A50.
ghost use Rattle.std.specs.Prelude.{◌≡◌, ◌<◌, Some, None, IfOk, IfErr, OnOk};
ghost use Rattle.gate_bytes.specs.Order.{first_failing};
ghost use Rattle.gate_admit.specs.Bounds.{FitsEntry};
ghost use Rattle.gate_admit.specs.Lending.{lent_with};
ghost use Rattle.gate_package.specs.declared.role.Role.TheVariants.{Together};
ghost use Rattle.gate_package.specs.Judging.{half_rules, fee_beside, vsize_beside, payment_rules, pool_rules_as, rate_rules, replaces_one};

use crate::coins::check_coins;
use crate::families::check_families;
use crate::role::Role;
use crate::truc::is_version_three;
use gate_admit::{
    Attempt, Conditions, Policy, Pool, check_balance, check_coins_paid, check_final, check_locks,
    check_payment, check_pool, check_reports, reported, vsize_of,
};
use gate_bytes::Memory;
use gate_rbf::DirectConflicts;
use gate_standard::{Denial, rate_of};
use gate_submission::Candidate;
use gate_tx::Transaction;
use std::alloc::Global;
use std::hash::BuildHasher;

/// What the first half of the order finds of a transaction that passes it.
#[derive(Drop)]
pub(crate) struct Half<'a, S: BuildHasher + Copy + Drop> {
    /// In satoshi.
    pub(crate) fee: u64,
    /// In virtual bytes.
    pub(crate) vsize: u64,
    /// The entries that spend what it spends.
    pub(crate) direct: DirectConflicts<'a, S>,
}

/// Whether a transaction spends what an entry spends.
pub(crate) fn replaces_one<S: BuildHasher + Copy + Drop>(pool: &Pool<S>, tx: &Candidate<'_>) -> bool
    ensures { result ≡ replaces_one pool.now.entries tx.now }
{
    tx.transaction()
        .inputs()
        .iter()
        .any(|input| pool.spender(&input.prevout).is_some())
}

/// The entries that a transaction conflicts with, or the first of A21 to A23 that fails: A23 fails for one of a list wherever
/// it conflicts with an entry.
#[tactic(auto, using(gate_bytes::proofs::OrderLemmas::first_failing_append), unfolding(crate::specs::Judging::pool_rules_as))]
fn check_pool_as<'a, S: BuildHasher + Copy + Drop>(
    alloc: Global,
    policy: &Policy,
    pool: &'a Pool<S>,
    role: Role,
    candidate: &'a Candidate<'_>,
) -> Result<Result<DirectConflicts<'a, S>, Denial>, Memory>
    ensures ok { IfOk result (λ found. OnOk found (first_failing (pool_rules_as role policy.now pool.now.entries candidate.now) ≡ None)) }
    ensures entries { IfOk result (λ found. IfOk found (λ direct. direct.entries ≡ pool.now.entries)) }
    ensures transaction { IfOk result (λ found. IfOk found (λ direct. direct.tx ≡ candidate.now)) }
    ensures err { IfOk result (λ found. IfErr found (λ denial. first_failing (pool_rules_as role policy.now pool.now.entries candidate.now) ≡ Some denial)) }
{
    let direct = match check_pool(alloc, policy, pool, candidate.identified().get())? {
        Ok(direct) => direct,
        Err(denial) => return Ok(Err(denial)),
    };
    match role {
        Role::Listed => if replaces_one(pool, candidate) {
            Ok(Err(Denial::MempoolConflict))
        } else {
            Ok(Ok(direct))
        },
        _ => Ok(Ok(direct)),
    }
}

/// A35, if it fails, of a transaction that is judged together with others.
#[tactic(auto, unfolding(crate::specs::Judging::payment_rules))]
fn check_relay_fee<S: BuildHasher + Copy + Drop>(
    under: &Conditions<'_, S>,
    tx: &Transaction,
    fee: u64,
    vsize: u64,
) -> Option<Denial>
    ensures { result ≡ first_failing (payment_rules Together under.now.policy.now tx.now under.now.floor.now fee vsize) }
{
    if is_version_three(under.policy, tx) {
        return None;
    }
    if u128::from(fee) < under.policy.relay_feerate().fee(vsize) {
        return Some(Denial::MinRelayFee);
    }
    None
}

/// The first of A34 and A35 that fails. A34 is not asked of those that are judged together, nor A35 of version 3 among
/// them.
#[tactic(auto, unfolding(crate::specs::Judging::payment_rules))]
fn check_paid<S: BuildHasher + Copy + Drop>(
    under: &Conditions<'_, S>,
    role: Role,
    tx: &Transaction,
    fee: u64,
    vsize: u64,
) -> Option<Denial>
    ensures { result ≡ first_failing (payment_rules role under.now.policy.now tx.now under.now.floor.now fee vsize) }
{
    match role {
        Role::Member => check_payment(Attempt::First, under.policy, tx, under.floor, fee, vsize),
        Role::Together => check_relay_fee(under, tx, fee, vsize),
        Role::Listed => check_payment(Attempt::First, under.policy, tx, under.floor, fee, vsize),
    }
}

/// The denial of A50 if it fails: the feerate is above the one that the call allows, unless that is 0.
fn check_rate(max_rate: u64, fee: u64, vsize: u64) -> Option<Denial>
    requires { 0 < vsize }
    ensures { result ≡ first_failing (rate_rules max_rate fee vsize) }
{
    if max_rate > 0 && rate_of(fee, vsize) > u128::from(max_rate) {
        Some(Denial::MaxFeerate)
    } else {
        None
    }
}

/// What is found of a transaction of a package over these entries, behind these others, which are no entries: the first
/// of A2 to A37 and A50 that fails, or its fee, its size and its conflicts.
#[tactic(auto, using(gate_bytes::proofs::OrderLemmas::first_failing_append), unfolding(crate::specs::Judging::half_rules))]
pub(crate) fn first_half<'a, S: BuildHasher + Copy + Drop>(
    alloc: Global,
    under: &'a Conditions<'_, S>,
    pool: &'a Pool<S>,
    role: Role,
    max_rate: u64,
    others: &'a [Candidate<'_>],
    candidate: &'a Candidate<'_>,
) -> Result<Result<Half<'a, S>, Denial>, Memory>
    ensures ok { IfOk result (λ found. OnOk found (first_failing (half_rules role max_rate others.now (lent_with under.now pool.now.entries) candidate.now) ≡ None)) }
    ensures fee { IfOk result (λ found. IfOk found (λ half. half.fee ≡ fee_beside others.now (lent_with under.now pool.now.entries) candidate.now)) }
    ensures vsize { IfOk result (λ found. IfOk found (λ half. half.vsize ≡ vsize_beside others.now (lent_with under.now pool.now.entries) candidate.now)) }
    ensures fits { IfOk result (λ found. IfOk found (λ half. FitsEntry half.fee half.vsize)) }
    ensures entries { IfOk result (λ found. IfOk found (λ half. half.direct.entries ≡ pool.now.entries)) }
    ensures transaction { IfOk result (λ found. IfOk found (λ half. half.direct.tx ≡ candidate.now)) }
    ensures err { IfOk result (λ found. IfErr found (λ denial. first_failing (half_rules role max_rate others.now (lent_with under.now pool.now.entries) candidate.now) ≡ Some denial)) }
{
    let policy = under.policy;
    let tx = candidate.identified().get();
    let transaction = tx.transaction();
    if let Some(denial) = candidate.denial_by(&policy.standards()) {
        return Ok(Err(denial));
    }
    if let Some(denial) = check_final(under.chain, transaction) {
        return Ok(Err(denial));
    }
    let direct = match check_pool_as(alloc, policy, pool, role, candidate)? {
        Ok(direct) => direct,
        Err(denial) => return Ok(Err(denial)),
    };
    let coins = match check_coins(alloc, under, pool, others, tx)? {
        Ok(coins) => coins,
        Err(denial) => return Ok(Err(denial)),
    };
    if let Some(denial) = check_locks(alloc, under.chain, &coins, transaction)? {
        return Ok(Err(denial));
    }
    let paid_in = match check_coins_paid(under.chain.tip() + 1, &coins) {
        Ok(paid_in) => paid_in,
        Err(denial) => return Ok(Err(denial)),
    };
    let fee = match check_balance(paid_in, transaction) {
        Ok(fee) => fee,
        Err(denial) => return Ok(Err(denial)),
    };
    let answers = reported(alloc, candidate.reports(), transaction.inputs(), &coins)?;
    let cost = match check_reports(policy, transaction, fee, &answers) {
        Ok(cost) => cost,
        Err(denial) => return Ok(Err(denial)),
    };
    policy.recall_bounds();
    let vsize = vsize_of(policy, cost, tx);
    if let Some(denial) = check_paid(under, role, transaction, fee, vsize) {
        return Ok(Err(denial));
    }
    if let Some(denial) = check_families(alloc, policy, role, &direct, vsize)? {
        return Ok(Err(denial));
    }
    if let Some(denial) = check_rate(max_rate, fee, vsize) {
        return Ok(Err(denial));
    }
    Ok(Ok(Half { fee, vsize, direct }))
}
