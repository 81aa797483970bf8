//! The lists of methods that users may call.
ghost use Rattle.std.specs.Prelude.{◌≡◌, map, IfOk};
ghost use Rattle.gate_rpc.specs.Lists.{entry_of, default_of, is_allowed};

use crate::entry::RpcEntry;
use gate_bytes::{Copied, Kept, Memory, Text};
use std::alloc::Global;
use std::marker::Model;

/// Who may call what: contracts see the entries in their order, and the default.
#[derive(Drop)]
pub struct RpcWhitelist {
    entries: Kept<RpcEntry>,
    is_default_on: bool,
}

impl Model for RpcWhitelist {
    ghost use Rattle.gate_rpc.specs.Lists.{Lists};

    ghost Value = { Lists };

    ghost view = { λ w. record { entries = w.entries; is_default_on = w.is_default_on } };
}

impl RpcWhitelist {
    /// Reads the entries of `-rpcwhitelist`, in their order; each text is one. A default that isn't given is on if
    /// there are entries.
    pub fn parse(
        alloc: Global,
        texts: &[Text],
        default: Option<bool>,
    ) -> Result<RpcWhitelist, Memory>
        ensures entries { IfOk result (λ lists. lists.entries ≡ map entry_of texts.now) }
        ensures default { IfOk result (λ lists. lists.is_default_on ≡ default_of default texts.now) }
    {
        let mut entries = Vec::with_capacity(alloc, texts.len())?;
        for text in texts {
            entries.push(RpcEntry::parse(alloc, text.as_str())?)?;
        }
        Ok(RpcWhitelist {
            entries: Kept::from_vec(entries),
            is_default_on: default.unwrap_or(!texts.is_empty()),
        })
    }

    /// Whether a user may call a method.
    pub fn allows(&self, user: &str, method: &str) -> bool
        ensures { result ≡ is_allowed self.now user.now method.now }
    {
        let mut listed = None;
        for entry in self.entries.as_slice() {
            listed = entry.listed(listed, user, method);
        }
        listed.unwrap_or(!self.is_default_on)
    }
}

impl Copied for RpcWhitelist {
    fn copy(&self, alloc: Global) -> Result<RpcWhitelist, Memory> {
        Ok(RpcWhitelist {
            entries: self.entries.copy(alloc)?,
            is_default_on: self.is_default_on,
        })
    }
}
