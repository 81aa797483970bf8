//! The releases, and what each has by default.
ghost use Rattle.std.specs.Prelude.{◌≡◌, length};
ghost use Rattle.gate_register.specs.Settings.{count};
ghost use Rattle.gate_release.specs.Releases.{choices, is_of, policy_beside, release_named, releases, place_of, word_of};

use gate_register::{COUNT, Policy, Setting};

/// A release of a node, in the order in which `CHOICES` means them: those of Bitcoin Core, and then Bitcoin Knots.
#[derive(Clone, Copy, PartialEq, Eq)]
pub enum Release {
    /// Bitcoin Core 22.0, whose numbers are the usual ones.
    Core22,
    Core25,
    Core26,
    Core27,
    Core28,
    /// Bitcoin Core 29.1 and later.
    Core29,
    Core30,
    Knots29,
}

/// How many releases there are.
const RELEASES: usize = 8;

/// All releases, in their order.
static ALL: [Release; RELEASES] = [
    Release::Core22,
    Release::Core25,
    Release::Core26,
    Release::Core27,
    Release::Core28,
    Release::Core29,
    Release::Core30,
    Release::Knots29,
];

/// The word of each release, in their order.
static WORDS: [&str; RELEASES] = [
    "core-22", "core-25", "core-26", "core-27", "core-28", "core-29", "core-30", "knots-29",
];

/// A number that some releases have by default in place of the usual one.
#[derive(Clone, Copy)]
pub struct Choice {
    pub setting: Setting,
    pub number: u64,
    /// The first release that has it.
    pub first: Release,
    /// The last one, in the order of the releases.
    pub last: Release,
}

/// What releases have otherwise than Bitcoin Core 22.0. Beside each stands where that can be read.
static CHOICES: [Choice; 19] = [
    // release notes of 25.0 (MIN_STANDARD_TX_NONWITNESS_SIZE)
    Choice {
        setting: Setting::LeastSize,
        number: 65,
        first: Release::Core25,
        last: Release::Knots29,
    },
    // CFeeRate::GetFee since 23.0
    Choice {
        setting: Setting::FeesRoundUp,
        number: 1,
        first: Release::Core25,
        last: Release::Knots29,
    },
    // MemPoolAccept::PreChecks since 26.0
    Choice {
        setting: Setting::RelayFeeFirst,
        number: 1,
        first: Release::Core26,
        last: Release::Knots29,
    },
    // release notes of 28.0; without an option since 29.0
    Choice {
        setting: Setting::FullRbf,
        number: 1,
        first: Release::Core28,
        last: Release::Knots29,
    },
    // anchors are spent since 28.0 (BIP 433)
    Choice {
        setting: Setting::Anchors,
        number: 1,
        first: Release::Core28,
        last: Release::Knots29,
    },
    // release notes of 28.0 (TRUC, BIP 431); Bitcoin Knots takes version 3 without rules
    Choice {
        setting: Setting::Truc,
        number: 1,
        first: Release::Core28,
        last: Release::Core30,
    },
    // release notes of 28.0 (submitpackage on every network, replacement by a parent and its child)
    Choice {
        setting: Setting::Packages,
        number: 1,
        first: Release::Core28,
        last: Release::Knots29,
    },
    // MemPoolAccept::AcceptPackage until 30.0 (package-not-child-with-unconfirmed-parents)
    Choice {
        setting: Setting::PackageAllParents,
        number: 1,
        first: Release::Core28,
        last: Release::Core29,
    },
    Choice {
        setting: Setting::PackageAllParents,
        number: 1,
        first: Release::Knots29,
        last: Release::Knots29,
    },
    // since 28.0 a replacement may spend from what any replaced entry spends from
    Choice {
        setting: Setting::ReplacedParents,
        number: 1,
        first: Release::Core28,
        last: Release::Knots29,
    },
    // release notes of 29.1
    Choice {
        setting: Setting::RelayRate,
        number: 100,
        first: Release::Core29,
        last: Release::Core30,
    },
    Choice {
        setting: Setting::IncrementalRate,
        number: 100,
        first: Release::Core29,
        last: Release::Core30,
    },
    // release notes of 29.0 (ephemeral dust); Bitcoin Knots has an option for it
    Choice {
        setting: Setting::EphemeralDust,
        number: 1,
        first: Release::Core29,
        last: Release::Core30,
    },
    // CheckSigopsBIP54 since 29.1 (MAX_TX_LEGACY_SIGOPS)
    Choice {
        setting: Setting::LegacySigops,
        number: 2500,
        first: Release::Core29,
        last: Release::Knots29,
    },
    // release notes of 30.0
    Choice {
        setting: Setting::DataSize,
        number: 100_000,
        first: Release::Core30,
        last: Release::Core30,
    },
    Choice {
        setting: Setting::DataOutputs,
        number: 10_000,
        first: Release::Core30,
        last: Release::Core30,
    },
    Choice {
        setting: Setting::DataTotal,
        number: 100_000,
        first: Release::Core30,
        last: Release::Core30,
    },
    // a peer is not disconnected for an invalid transaction since 30.0
    Choice {
        setting: Setting::KeepInvalid,
        number: 1,
        first: Release::Core30,
        last: Release::Core30,
    },
    // -permitbaremultisig of Bitcoin Knots
    Choice {
        setting: Setting::BareMultisig,
        number: 0,
        first: Release::Knots29,
        last: Release::Knots29,
    },
];

impl Choice {
    /// Every choice, in the order of the table.
    pub fn all() -> &'static [Choice]
        ensures { result.now ≡ choices }
    {
        &CHOICES
    }

    /// Whether a release has this number.
    pub fn is_of(&self, release: Release) -> bool
        ensures { result ≡ is_of release self.now }
    {
        self.first.place() <= release.place() && release.place() <= self.last.place()
    }
}

impl Release {
    /// The word that names the release in an opening.
    pub fn word(self) -> &'static str
        ensures { result.now ≡ word_of self }
    {
        WORDS[self as usize]
    }

    /// What nodes of the release do that no line of an opening says, if there is such a thing.
    pub fn lacks(self) -> Option<&'static str> {
        match self {
            Release::Core22
            | Release::Core25
            | Release::Core26
            | Release::Core27
            | Release::Core28
            | Release::Core29
            | Release::Core30 => None,
            Release::Knots29 => Some(
                "version 3 (A12), dust that a child spends (A17), and options of its own",
            ),
        }
    }

    fn place(self) -> usize
        ensures { result ≡ place_of self }
    {
        self as usize
    }

    /// All releases, in their order.
    pub fn all() -> &'static [Release]
        ensures { result.now ≡ releases }
    {
        &ALL
    }

    /// The release of this word.
    pub fn from_word(word: &str) -> Option<Release>
        ensures { result ≡ release_named word.now }
    {
        Release::all()
            .iter()
            .copied()
            .find(|release| release.word() == word)
    }

    /// The policy with the release's numbers for all settings that were not said: `said` tells of each, in their order,
    /// whether it was.
    pub fn beside(self, policy: Policy, said: &[bool; COUNT]) -> Policy
        ensures { result ≡ policy_beside self said.now policy choices }
    {
        let mut policy = policy;
        for choice in Choice::all() {
            if choice.is_of(self) && !said[choice.setting.place()] {
                policy = policy.with(choice.setting, choice.number).unwrap_or(policy);
            }
        }
        policy
    }
}
