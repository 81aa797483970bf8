//! Which flags an address has.
ghost use Rattle.std.specs.Prelude.{◌≡◌, ◌≢◌, IfOk, IfErr, Ok, Err};
ghost use Rattle.gate_net.specs.declared.fault.NetFault.TheVariants.{Memory as OutOfMemory};
ghost use Rattle.gate_net.specs.Whitelists.{whitelist_of, implicit_flags, flags_of};

use crate::address::Address;
use crate::entry::WhitelistEntry;
use crate::fault::NetFault;
use crate::permissions::Permissions;
use gate_bytes::{Copied, Kept, Memory, Text};
use std::alloc::Global;

/// Entries, and what entries without words give besides noban, download and mempool.
#[derive(Drop, PartialEq, Eq)]
pub struct Whitelist {
    pub entries: Kept<WhitelistEntry>,
    /// Whether entries without words give relay.
    pub relay: bool,
    /// Whether entries without words give forcerelay, and relay with it.
    pub forcerelay: bool,
}

impl Whitelist {
    /// Reads each text as an entry. A denial is that of the first text that is no entry.
    pub fn parse(
        alloc: Global,
        entries: &[Text],
        relay: bool,
        forcerelay: bool,
    ) -> Result<Whitelist, NetFault>
        ensures read { IfOk result (λ whitelist. whitelist_of entries.now relay forcerelay ≡ Ok whitelist) }
        ensures fault { IfErr result (λ fault. fault ≢ OutOfMemory → whitelist_of entries.now relay forcerelay ≡ Err fault) }
    {
        let mut read = Vec::new(alloc);
        for text in entries {
            let entry = WhitelistEntry::parse(text.as_str())?;
            read.push(entry)?;
        }
        Ok(Whitelist {
            entries: Kept::from_vec(read),
            relay,
            forcerelay,
        })
    }

    fn implicit(&self) -> Permissions
        ensures { result ≡ implicit_flags self.now }
    {
        Permissions::implicit(self.relay, self.forcerelay)
    }

    /// The union of the flags that the entries give whose subnet has the address.
    pub fn flags_of(&self, address: &Address) -> Permissions
        ensures { result ≡ flags_of self.now address.now }
    {
        let mut found = Found::nothing();
        for entry in self.entries.as_slice() {
            found = found.with(entry, address);
        }
        if found.is_implicit {
            found.flags.union(&self.implicit())
        } else {
            found.flags
        }
    }
}

/// The flags of the matching entries that have words, and whether an entry without words matches.
#[derive(Clone, Copy)]
struct Found {
    flags: Permissions,
    is_implicit: bool,
}

impl Found {
    ghost use Rattle.std.specs.Prelude.{◌||◌, [], ◌∷◌, map, false};
    ghost use Rattle.std.specs.List.{list_any};
    ghost use Rattle.gate_net.specs.Permissions.{no_permissions, union, union_of};
    ghost use Rattle.gate_net.specs.Whitelists.{matching, is_implicit, own_flags};

    fn nothing() -> Found
        ensures flags { result.flags ≡ no_permissions }
        ensures mark { result.is_implicit ≡ false }
    {
        Found {
            flags: Permissions::none(),
            is_implicit: false,
        }
    }

    fn with(&self, entry: &WhitelistEntry, address: &Address) -> Found
        ensures flags { result.flags ≡ union self.now.flags (union_of (map own_flags (matching address.now (entry.now ∷ [])))) }
        ensures mark { result.is_implicit ≡ (self.now.is_implicit || list_any is_implicit (matching address.now (entry.now ∷ []))) }
    {
        if !entry.subnet.contains(address) {
            return *self;
        }
        Found {
            flags: self.flags.union(&entry.permissions),
            is_implicit: self.is_implicit || entry.is_implicit,
        }
    }
}

impl Copied for Whitelist {
    fn copy(&self, alloc: Global) -> Result<Whitelist, Memory> {
        Ok(Whitelist {
            entries: self.entries.copy(alloc)?,
            relay: self.relay,
            forcerelay: self.forcerelay,
        })
    }
}
