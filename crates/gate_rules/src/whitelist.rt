//! What denies an entry of the whitelist.
ghost use Rattle.std.specs.Prelude.{◌≡◌, map, Some};
ghost use Rattle.gate_rules.specs.Whitelist.{whitelist, name_of, token_of, then_of, row_of};
ghost use Rattle.gate_rules.specs.Rules.{key_of};

use crate::rule::{Consequence, Rule};
use std::error::Error;
use std::fmt;

/// A rule on whitelist entries that fails. An entry is tested for N1, then for N3, then for N2.
#[derive(Clone, Copy, Debug, PartialEq, Eq)]
pub enum NetDenial {
    UnknownPermission, // N1
    BadSubnet, // N2
    MappedSubnet, // N3
}

/// The row of each rule on whitelist entries, in their order.
static ROWS: [Rule; 3] = [
    Rule {
        name: "N1",
        token: "unknown-permission",
        then: Consequence::EndsProgram,
        core: Some("-whitelist"),
        says: "A word before the `@` of a whitelist entry is no permission",
    },
    Rule {
        name: "N2",
        token: "bad-subnet",
        then: Consequence::EndsProgram,
        core: Some("-whitelist"),
        says: "The subnet of a whitelist entry has none of its forms",
    },
    Rule {
        name: "N3",
        token: "mapped-subnet",
        then: Consequence::EndsProgram,
        core: None,
        says: "The subnet of a whitelist entry begins with an IPv6 address in ::ffff:0:0/96, which is to be written as IPv4",
    },
];

impl NetDenial {
    /// All rows, in their order.
    pub(crate) fn rows() -> &'static [Rule]
        ensures { map key_of result.now ≡ map row_of whitelist }
    {
        &ROWS
    }

    /// What is said of the rule.
    pub fn row(&self) -> &'static Rule
        ensures name { result.now.name.now ≡ name_of self.now }
        ensures token { result.now.token.now ≡ token_of self.now }
        ensures follows { result.now.then ≡ then_of self.now }
    {
        &ROWS[*self as usize]
    }
}

impl fmt::Display for NetDenial {
    ghost output = { λ denial. Some (token_of denial) };

    fn fmt<W: fmt::Write>(&self, f: &mut fmt::Formatter<W>) -> fmt::Result {
        write!(f, "{}", self.row().token)
    }
}

impl Error for NetDenial {}
