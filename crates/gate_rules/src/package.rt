//! What denies a package.
ghost use Rattle.std.specs.Prelude.{◌≡◌, map, Some};
ghost use Rattle.gate_rules.specs.Packages.{packages, name_of, token_of, then_of, row_of};
ghost use Rattle.gate_rules.specs.Rules.{key_of};

use crate::rule::{Consequence, Rule};
use std::error::Error;
use std::fmt;

/// A rule on a package as a whole that fails. A token is the message of Bitcoin Core 29.0.
#[derive(Clone, Copy, PartialEq, Eq)]
pub enum PackageDenial {
    BurntAmount, // J1
    NotChildWithParents, // J2
    TooLarge, // J3
    Duplicates, // J4
    NotSorted, // J5
    Conflicting, // J6
    LacksParents, // J7
    TrucViolation, // J8
    FamilyLimits, // J9
    ReplacesAsOthers, // J10
    HasAncestors, // J11
    TooManyReplacements, // J12
    LowerFee, // J13
    LowerRateThanFirst, // J14
    ConflictTopology, // J15
    LowerDiagram, // J16
    UnspentDust, // J17
}

/// The row of each rule on packages, in their order.
static ROWS: [Rule; 17] = [
    Rule {
        name: "J1",
        token: "max-burn-exceeded",
        then: Consequence::Keep,
        core: Some("submitpackage"),
        says: "An output of a member is above maxburnamount, and its script is unspendable, has a truncated push, a push of more than 520 bytes, or an opcode above 0xb9",
    },
    Rule {
        name: "J2",
        token: "package-not-child-with-parents",
        then: Consequence::Keep,
        core: Some("IsChildWithParents"),
        says: "A member before the last is no parent of the last, or spends from another one before the last",
    },
    Rule {
        name: "J3",
        token: "package-too-large",
        then: Consequence::Keep,
        core: Some("IsWellFormedPackage"),
        says: "The weights of all members sum to more than 404,000",
    },
    Rule {
        name: "J4",
        token: "package-contains-duplicates",
        then: Consequence::Keep,
        core: Some("IsWellFormedPackage"),
        says: "Two members have one txid",
    },
    Rule {
        name: "J5",
        token: "package-not-sorted",
        then: Consequence::Keep,
        core: Some("IsWellFormedPackage"),
        says: "An input of a transaction of a list for testmempoolaccept names the txid of the same or of a later one",
    },
    Rule {
        name: "J6",
        token: "conflict-in-package",
        then: Consequence::Keep,
        core: Some("IsConsistentPackage"),
        says: "Two members spend one outpoint, or a member has no input",
    },
    Rule {
        name: "J7",
        token: "package-not-child-with-unconfirmed-parents",
        then: Consequence::Keep,
        core: Some("AcceptPackage (until 29)"),
        says: "The last spends what is neither of another member nor in a block; asked with packageallparents 1",
    },
    Rule {
        name: "J8",
        token: "TRUC-violation",
        then: Consequence::Keep,
        core: Some("PackageTRUCChecks"),
        says: "truc is 1, and of those that are judged together one of version 3 has more than 10,000 virtual bytes, or with its ancestors in the pool and its parents among them too large a family, or more than 1,000 virtual bytes below one of these; or one of another version is below one of version 3",
    },
    Rule {
        name: "J9",
        token: "package-mempool-limits",
        then: Consequence::Keep,
        core: Some("CheckPackageLimits"),
        says: "With the members that are judged together, taken for one family, ancestors or descendants may pass their limits",
    },
    Rule {
        name: "J10",
        token: "package RBF failed: package must be 1-parent-1-child",
        then: Consequence::Keep,
        core: Some("PackageMempoolChecks"),
        says: "The members that are judged together replace entries of the pool, and are not two",
    },
    Rule {
        name: "J11",
        token: "package RBF failed: new transaction cannot have mempool ancestors",
        then: Consequence::Keep,
        core: Some("PackageMempoolChecks"),
        says: "They replace entries, and one of them has an ancestor in the pool, be it one that was taken just now",
    },
    Rule {
        name: "J12",
        token: "package RBF failed: too many potential replacements",
        then: Consequence::Keep,
        core: Some("GetEntriesForConflicts"),
        says: "The entries that they conflict with, each counted once, have more than 100 descendants, themselves among them; one below two of these counts twice",
    },
    Rule {
        name: "J13",
        token: "package RBF failed: insufficient anti-DoS fees",
        then: Consequence::Keep,
        core: Some("PaysForRBF"),
        says: "Together they pay less than the entries that they replace, or not enough more to pay for their own relay at incrementalrelayfee",
    },
    Rule {
        name: "J14",
        token: "package RBF failed: package feerate is less than or equal to parent feerate",
        then: Consequence::Keep,
        core: Some("PackageMempoolChecks"),
        says: "The feerate of both, rounded down, is not above that of the first",
    },
    Rule {
        name: "J15",
        token: "package RBF failed: conflict topology",
        then: Consequence::Keep,
        core: Some("CheckConflictTopology"),
        says: "An entry that they replace is joined, by parent steps either way, to more than one other entry",
    },
    Rule {
        name: "J16",
        token: "package RBF failed: insufficient feerate: does not improve feerate diagram",
        then: Consequence::Keep,
        core: Some("ImprovesFeerateDiagram"),
        says: "The feerate diagram with both is below the one with what they replace somewhere, or above it nowhere",
    },
    Rule {
        name: "J17",
        token: "unspent-dust",
        then: Consequence::Keep,
        core: Some("CheckEphemeralSpends (29.0)"),
        says: "A member that is judged together with others leaves dust of a parent unspent (A49)",
    },
];

impl PackageDenial {
    /// All rows, in their order.
    pub(crate) fn rows() -> &'static [Rule]
        ensures { map key_of result.now ≡ map row_of packages }
    {
        &ROWS
    }

    /// What is said of the rule.
    pub fn row(&self) -> &'static Rule
        ensures name { result.now.name.now ≡ name_of self.now }
        ensures token { result.now.token.now ≡ token_of self.now }
        ensures follows { result.now.then ≡ then_of self.now }
    {
        &ROWS[*self as usize]
    }
}

impl fmt::Display for PackageDenial {
    ghost output = { λ denial. Some (token_of denial) };

    fn fmt<W: fmt::Write>(&self, f: &mut fmt::Formatter<W>) -> fmt::Result {
        write!(f, "{}", self.row().token)
    }
}

impl fmt::Debug for PackageDenial {
    fn fmt<W: fmt::Write>(&self, f: &mut fmt::Formatter<W>) -> fmt::Result {
        write!(f, "{self}")
    }
}

impl Error for PackageDenial {}
