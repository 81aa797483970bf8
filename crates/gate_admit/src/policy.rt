//! What an operator asks of transactions.
ghost use Rattle.std.specs.Prelude.{◌≡◌, ◌≤◌};
ghost use Rattle.gate_admit.specs.Policies.{IsPolicy, incremental_feerate, most_ancestors, most_descendants, most_descendants_size, policy_of, feerate_by, relay_feerate};

use gate_rbf::ParentsOf;
use gate_register::Setting;
use gate_standard::{Feerate, Rounding, Standards};
use std::marker::Model;

/// The most virtual bytes of a transaction that has a second try (Bitcoin Core's `EXTRA_DESCENDANT_TX_SIZE_LIMIT`).
pub const CARVE_OUT_VSIZE: u64 = 10_000;

/// What an operator asks of transactions, by what he set: the limits of families, feerates, how long an entry stays, how
/// large a signature operation counts, what is standard, and whether an entry may be replaced that doesn't signal
/// (`-mempoolfullrbf` of release 24). Contracts see a record of these, in the units in which admission counts.
#[derive(Drop)]
pub struct Policy {
    set: gate_register::Policy,
}

impl Model for Policy {
    ghost use Rattle.gate_admit.specs.Policies.{Policy, policy_of};

    ghost Value = { Policy };

    ghost view = { λ p. policy_of p.set };
}

impl Policy {
    /// The policy of admission by what an operator set.
    pub fn new(set: gate_register::Policy) -> Policy
        ensures { result ≡ policy_of set }
    {
        Policy { set }
    }

    pub fn copy(&self) -> Policy
        ensures { result ≡ self.now }
    {
        Policy { set: self.set }
    }

    /// Recalls the bounds of the numbers for a proof: it does nothing.
    #[tactic(auto, using(crate::proofs::Bounds::bounds_of))]
    pub fn recall_bounds(&self)
        ensures { IsPolicy self.now }
    {
        self.set.recall_bounds();
    }

    /// How many ancestors there may be at a first try.
    pub fn ancestors(&self) -> usize
        ensures { result ≡ self.now.ancestors }
    {
        self.set.get(Setting::AncestorCount) as usize
    }

    /// How many virtual bytes of ancestors there may be.
    pub fn ancestors_size(&self) -> u64
        ensures { result ≡ self.now.ancestors_size }
    {
        self.set.get(Setting::AncestorSize) * 1000
    }

    /// How many descendants there may be at a first try.
    pub fn descendants(&self) -> usize
        ensures { result ≡ self.now.descendants }
    {
        self.set.get(Setting::DescendantCount) as usize
    }

    /// How many virtual bytes of descendants there may be at a first try.
    pub fn descendants_size(&self) -> u64
        ensures { result ≡ self.now.descendants_size }
    {
        self.set.get(Setting::DescendantSize) * 1000
    }

    /// Whether every entry may be replaced, even one that doesn't signal.
    pub fn full_rbf(&self) -> bool
        ensures { result ≡ self.now.full_rbf }
    {
        self.set.is_on(Setting::FullRbf)
    }

    /// What every transaction pays, in satoshi per 1,000 virtual bytes.
    pub fn relay_rate(&self) -> u64
        ensures { result ≡ self.now.relay_rate }
    {
        self.set.get(Setting::RelayRate)
    }

    /// What a replacement pays for its own relay, and how far the floor rises above what is trimmed, in satoshi per 1,000
    /// virtual bytes.
    pub fn incremental_rate(&self) -> u64
        ensures { result ≡ self.now.incremental_rate }
    {
        self.set.get(Setting::IncrementalRate)
    }

    /// This many satoshi per 1,000 virtual bytes, rounded as the policy says.
    pub fn feerate(&self, rate: u64) -> Feerate
        ensures { result ≡ feerate_by self.now rate }
    {
        let rounding = if self.set.is_on(Setting::FeesRoundUp) {
            Rounding::Up
        } else {
            Rounding::Down
        };
        Feerate { rate, rounding }
    }

    /// What every transaction pays.
    pub fn relay_feerate(&self) -> Feerate
        ensures { result ≡ relay_feerate self.now }
    {
        self.feerate(self.relay_rate())
    }

    /// What a replacement pays for its own relay.
    pub fn incremental_feerate(&self) -> Feerate
        ensures { result ≡ incremental_feerate self.now }
    {
        self.feerate(self.incremental_rate())
    }

    /// Whether what every transaction pays is asked before the pool's floor.
    pub fn relay_fee_first(&self) -> bool
        ensures { result ≡ self.now.relay_fee_first }
    {
        self.set.is_on(Setting::RelayFeeFirst)
    }

    /// Whose parents a replacement may have.
    pub fn parents(&self) -> ParentsOf
        ensures { result ≡ self.now.parents }
    {
        if self.set.is_on(Setting::ReplacedParents) {
            ParentsOf::Replaced
        } else {
            ParentsOf::Conflicts
        }
    }

    /// Whether no rule of admission closes a session.
    pub fn keep_invalid(&self) -> bool
        ensures { result ≡ self.now.keep_invalid }
    {
        self.set.is_on(Setting::KeepInvalid)
    }

    /// How many seconds an entry stays.
    pub fn stay(&self) -> u64
        ensures { result ≡ self.now.stay }
    {
        self.set.get(Setting::ExpiryHours) * 3600
    }

    /// How many bytes a signature operation counts for.
    pub fn sigop_size(&self) -> u64
        ensures { result ≡ self.now.sigop_size }
    {
        self.set.get(Setting::SigopSize)
    }

    /// Whether coins that are anchors may be spent.
    pub fn anchors(&self) -> bool
        ensures { result ≡ self.now.anchors }
    {
        self.set.is_on(Setting::Anchors)
    }

    /// The most legacy signature operations of a transaction.
    pub fn legacy_sigops(&self) -> Option<u64>
        ensures { result ≡ self.now.legacy_sigops }
    {
        self.set.limit(Setting::LegacySigops)
    }

    /// Whether version 3 is standard, and keeps to small families (BIP 431).
    pub fn truc(&self) -> bool
        ensures { result ≡ self.now.standards.truc }
    {
        self.set.is_on(Setting::Truc)
    }

    /// What is standard.
    pub fn standards(&self) -> Standards
        ensures { result ≡ self.now.standards }
    {
        Standards {
            dust_rate: self.feerate(self.set.get(Setting::DustRate)),
            data_size: self.set.get(Setting::DataSize),
            data_outputs: self.set.get(Setting::DataOutputs),
            bare_multisig: self.set.is_on(Setting::BareMultisig),
            least_size: self.set.get(Setting::LeastSize),
            data_total: self.set.limit(Setting::DataTotal),
            truc: self.truc(),
            ephemeral_dust: self.set.is_on(Setting::EphemeralDust),
        }
    }

    /// Whether packages may be submitted.
    pub fn packages(&self) -> bool
        ensures { result ≡ self.now.packages }
    {
        self.set.is_on(Setting::Packages)
    }

    /// Whether the child of a package may have no unconfirmed parent that is not of the package.
    pub fn all_parents(&self) -> bool
        ensures { result ≡ self.now.all_parents }
    {
        self.set.is_on(Setting::PackageAllParents)
    }

    /// The most ancestors that an entry may have, itself among them: a second try allows one parent under every policy.
    pub(crate) fn most_ancestors(&self) -> usize
        ensures { result ≡ most_ancestors self.now }
    {
        self.ancestors().max(2)
    }

    /// The most descendants that an entry may have, itself among them: a second try allows one more.
    pub(crate) fn most_descendants(&self) -> usize
        ensures { result ≡ most_descendants self.now }
    {
        self.recall_bounds();
        self.descendants() + 1
    }

    /// The most virtual bytes that the descendants of an entry may have, itself among them: the one more of a second try
    /// has at most 10,000.
    pub(crate) fn most_descendants_size(&self) -> u64
        ensures { result ≡ most_descendants_size self.now }
    {
        self.recall_bounds();
        self.descendants_size() + CARVE_OUT_VSIZE
    }
}

/// What Bitcoin Core 22.0 asks by default: 25 ancestors and 25 descendants of 101,000 virtual bytes each, feerates of
/// 1,000, a stay of two weeks, 20 bytes a signature operation, and only entries that signal are replaced.
impl Default for Policy {
    ghost use Rattle.std.specs.Prelude.{◌≡◌};
    ghost use Rattle.gate_admit.specs.Policies.{usual_policy};

    ghost is_default = { λ policy. policy ≡ usual_policy };

    fn default() -> Policy {
        Policy::new(gate_register::Policy::default())
    }
}
