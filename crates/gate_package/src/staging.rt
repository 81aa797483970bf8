//! A package that stands in the pool, and can still be taken back.
ghost use Rattle.std.specs.Prelude.{◌≡◌};
ghost use Rattle.gate_pool.specs.Pool.{IsRewindable};
ghost use Rattle.gate_trim.specs.Expiry.{expired};
ghost use Rattle.gate_trim.specs.Trimming.{Trimmed, trim_of};
ghost use Rattle.gate_package.specs.Packages.{gone_from};

use gate_admit::{Floor, Policy, Pool};
use gate_trim::{expire, trim};
use gate_tx::Txid;
use std::hash::BuildHasher;
use std::marker::Model;

/// A package whose members stand in the pool, in the place of what they replace: it is landed or taken back, neither of
/// which takes memory.
#[derive(Drop)]
pub struct Stage {
    /// The txids of the members that are in the pool.
    held: Vec<Txid>,
}

impl Model for Stage {
    ghost use Rattle.gate_package.specs.Staging.{Staged};

    ghost Value = { Staged };

    ghost view = { λ s. record { held = s.held.items } };
}

impl Stage {
    /// A package of which these members stand in the pool.
    pub(crate) fn of(held: Vec<Txid>) -> Stage
        ensures { result ≡ record { held = held.items } }
    {
        Stage { held }
    }

    /// Takes the package back: the pool is what it was when its log began, which staging begins. It takes no memory.
    pub fn take_back<S: BuildHasher + Copy + Drop>(self, pool: &mut Pool<S>)
        requires { IsRewindable pool.old }
        ensures entries { pool.new.entries ≡ pool.old.before }
        ensures before { pool.new.before ≡ pool.old.before }
    {
        pool.rewind();
    }

    /// Lands the package: what it brought stays, then entries expire at this second, and then the pool is trimmed to the
    /// budget, in virtual bytes. It returns the txids of the members that have left the pool again, and takes no memory.
    pub fn land<S: BuildHasher + Copy + Drop>(
        self,
        pool: &mut Pool<S>,
        floor: &mut Floor,
        policy: &Policy,
        second: u64,
        budget: u64,
    ) -> Vec<Txid>
        ensures left { trim_of policy.now.incremental_rate budget (expired policy.now.stay second pool.old.entries) floor.old ≡ record { entries = pool.new.entries; floor = floor.new } }
        ensures gone { result.items ≡ gone_from pool.new.entries self.held }
        ensures before { pool.new.before ≡ pool.old.before }
    {
        let Stage { mut held } = self;
        policy.recall_bounds();
        expire(pool, policy.stay(), second);
        trim(pool, floor, policy.incremental_rate(), budget);
        held.retain(|txid| pool.entry(txid).is_none());
        held
    }
}
