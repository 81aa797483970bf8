//! What a transaction is judged over, and what a submission is planned under.
use crate::policy::Policy;
use crate::verdicts::Verdicts;
use gate_chain::Chain;
use gate_pool::Pool;
use gate_trim::Floor;
use std::hash::BuildHasher;

/// A chain, a pool, its floor, the verdicts at hand and the policy, all lent.
#[derive(Clone, Copy)]
pub(crate) struct Standing<'a, S: BuildHasher + Copy + Drop> {
    pub(crate) chain: &'a Chain<S>,
    pub(crate) pool: &'a Pool<S>,
    pub(crate) floor: &'a Floor,
    pub(crate) verdicts: &'a Verdicts<S>,
    pub(crate) policy: &'a Policy,
}

/// What a submission is planned under, beside the pool that it would enter.
#[derive(Clone, Copy)]
pub struct Conditions<'a, S: BuildHasher + Copy + Drop> {
    pub chain: &'a Chain<S>,
    pub floor: &'a Floor,
    pub verdicts: &'a Verdicts<S>,
    pub policy: &'a Policy,
    /// In seconds since 1970.
    pub second: u64,
    /// The most virtual bytes that the pool may hold.
    pub budget: u64,
}
