//! One entry of a whitelist.
ghost use Rattle.std.specs.Prelude.{◌≡◌};
ghost use Rattle.gate_net.specs.Subnets.{subnet_of};
ghost use Rattle.gate_net.specs.Whitelists.{granting, entry_of};

use crate::permissions::Permissions;
use crate::subnet::{Subnet, part};
use gate_bytes::{Copied, Memory};
use gate_rules::NetDenial;
use std::alloc::Global;

/// What the addresses of a subnet are permitted.
#[derive(Clone, Copy, PartialEq, Eq)]
pub struct WhitelistEntry {
    /// What the words of the entry permit together.
    pub permissions: Permissions,
    /// Whether the entry has no words. It then gives what its whitelist gives to such entries.
    pub is_implicit: bool,
    pub subnet: Subnet,
}

impl WhitelistEntry {
    /// Reads a subnet, or permission words with commas between them, an `@` and a subnet. The rule that fails is the first
    /// of N1, N3, N2.
    pub fn parse(text: &str) -> Result<WhitelistEntry, NetDenial>
        ensures { result ≡ entry_of text.now }
    {
        match part(text, '@') {
            Some((words, rest)) => match Permissions::parse(words) {
                Some(permissions) => WhitelistEntry::of(permissions, false, rest),
                None => Err(NetDenial::UnknownPermission),
            },
            None => WhitelistEntry::of(Permissions::none(), true, text),
        }
    }

    fn of(
        permissions: Permissions,
        is_implicit: bool,
        subnet: &str,
    ) -> Result<WhitelistEntry, NetDenial>
        ensures { result ≡ granting permissions is_implicit (subnet_of subnet.now) }
    {
        let subnet = Subnet::read(subnet)?;
        Ok(WhitelistEntry {
            permissions,
            is_implicit,
            subnet,
        })
    }
}

impl Copied for WhitelistEntry {
    fn copy(&self, _alloc: Global) -> Result<WhitelistEntry, Memory> {
        Ok(*self)
    }
}
