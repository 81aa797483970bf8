//! What a peer is permitted (Bitcoin Core's `NetPermissionFlags`).
ghost use Rattle.std.specs.Prelude.{◌≡◌, ◌++◌, map, true, IfOk, OnOk, string_bytes};
ghost use Rattle.gate_net.specs.Permissions.{no_permissions, all_permissions, union, permitted_by, permissions_of, implicit_by, named, names_of, permissions_text};

use gate_bytes::Memory;
use std::alloc::Global;
use std::marker::Model;

/// Seven flags, of which noban brings download with it, and forcerelay brings relay.
#[derive(Clone, Copy, PartialEq, Eq)]
pub struct Permissions {
    bloomfilter: bool,
    noban: bool,
    forcerelay: bool,
    relay: bool,
    mempool: bool,
    download: bool,
    addr: bool,
}

impl Model for Permissions {
    ghost use Rattle.gate_net.specs.Permissions.{Permissions as Flags, IsComplete};

    ghost Value = { Flags };

    ghost view = { λ p. record {
      bloomfilter = p.bloomfilter;
      noban = p.noban;
      forcerelay = p.forcerelay;
      relay = p.relay;
      mempool = p.mempool;
      download = p.download;
      addr = p.addr;
    } };

    ghost invariant = { λ p. IsComplete (record {
      bloomfilter = p.bloomfilter;
      noban = p.noban;
      forcerelay = p.forcerelay;
      relay = p.relay;
      mempool = p.mempool;
      download = p.download;
      addr = p.addr;
    }) };

    ghost inverse = { λ flags. record {
      bloomfilter = flags.bloomfilter;
      noban = flags.noban;
      forcerelay = flags.forcerelay;
      relay = flags.relay;
      mempool = flags.mempool;
      download = flags.download;
      addr = flags.addr;
    } };
}

impl Permissions {
    /// No flag.
    pub fn none() -> Permissions
        ensures { result ≡ no_permissions }
    {
        Permissions {
            bloomfilter: false,
            noban: false,
            forcerelay: false,
            relay: false,
            mempool: false,
            download: false,
            addr: false,
        }
    }

    /// Every flag.
    pub fn all() -> Permissions
        ensures { result ≡ all_permissions }
    {
        Permissions {
            bloomfilter: true,
            noban: true,
            forcerelay: true,
            relay: true,
            mempool: true,
            download: true,
            addr: true,
        }
    }

    /// What one word permits: the name of a flag, with the flag that it brings, `bloom` for bloomfilter, `all` for all
    /// seven; an empty word permits nothing. `None` for any other word.
    #[tactic(auto, unfolding(crate::specs::Permissions::permitted_by))]
    pub fn of_word(word: &str) -> Option<Permissions>
        ensures { result ≡ permitted_by word.now }
    {
        match word {
            "" => Some(Permissions::none()),
            "bloomfilter" | "bloom" => Some(Permissions {
                bloomfilter: true,
                ..Permissions::none()
            }),
            "noban" => Some(Permissions {
                noban: true,
                download: true,
                ..Permissions::none()
            }),
            "forcerelay" => Some(Permissions {
                forcerelay: true,
                relay: true,
                ..Permissions::none()
            }),
            "relay" => Some(Permissions {
                relay: true,
                ..Permissions::none()
            }),
            "mempool" => Some(Permissions {
                mempool: true,
                ..Permissions::none()
            }),
            "download" => Some(Permissions {
                download: true,
                ..Permissions::none()
            }),
            "addr" => Some(Permissions {
                addr: true,
                ..Permissions::none()
            }),
            "all" => Some(Permissions::all()),
            _ => None,
        }
    }

    /// What the words between the commas permit together. `None` if one of them is no word.
    pub fn parse(text: &str) -> Option<Permissions>
        ensures { result ≡ permissions_of text.now }
    {
        let mut flags = Permissions::none();
        for word in text.split(',') {
            flags = flags.union(&Permissions::of_word(word)?);
        }
        Some(flags)
    }

    /// The flags that are set in either.
    pub fn union(&self, other: &Permissions) -> Permissions
        ensures { result ≡ union self.now other.now }
    {
        Permissions {
            bloomfilter: self.bloomfilter || other.bloomfilter,
            noban: self.noban || other.noban,
            forcerelay: self.forcerelay || other.forcerelay,
            relay: self.relay || other.relay,
            mempool: self.mempool || other.mempool,
            download: self.download || other.download,
            addr: self.addr || other.addr,
        }
    }

    /// What entries without words give: noban, download and mempool, with relay and forcerelay as the whitelist has them.
    pub(crate) fn implicit(relay: bool, forcerelay: bool) -> Permissions
        ensures { result ≡ implicit_by relay forcerelay }
    {
        Permissions {
            bloomfilter: false,
            noban: true,
            forcerelay,
            relay: relay || forcerelay,
            mempool: true,
            download: true,
            addr: false,
        }
    }

    /// Whether the peer may ask for a listing while bloom filters are off.
    pub fn bloomfilter(&self) -> bool
        ensures { result ≡ self.now.bloomfilter }
    {
        self.bloomfilter
    }

    /// Whether no refusal closes the peer's session.
    pub fn noban(&self) -> bool
        ensures { result ≡ self.now.noban }
    {
        self.noban
    }

    /// Whether what the peer submits is relayed again, even if it is in the pool already.
    pub fn forcerelay(&self) -> bool
        ensures { result ≡ self.now.forcerelay }
    {
        self.forcerelay
    }

    /// Whether the peer may submit while the node takes blocks only.
    pub fn relay(&self) -> bool
        ensures is { result ≡ self.now.relay }
        ensures implied { self.now.forcerelay ≡ true → result ≡ true }
    {
        self.relay
    }

    /// Whether the peer may ask for a listing at any time.
    pub fn mempool(&self) -> bool
        ensures { result ≡ self.now.mempool }
    {
        self.mempool
    }

    /// Whether the peer may ask for headers and blocks when other peers may not.
    pub fn download(&self) -> bool
        ensures is { result ≡ self.now.download }
        ensures implied { self.now.noban ≡ true → result ≡ true }
    {
        self.download
    }

    /// The names of the flags with a comma between each two, in the order of the fields; without any, `none`.
    pub fn text(&self, alloc: Global) -> Result<String, Memory>
        ensures { IfOk result (λ text. string_bytes text ≡ permissions_text self.now) }
    {
        let names = self.names(alloc)?;
        if names.is_empty() {
            return Ok(String::from_str(alloc, "none")?);
        }
        Ok(names.join(alloc, ",")?)
    }

    fn names(&self, alloc: Global) -> Result<Vec<&'static str>, Memory>
        ensures { IfOk result (λ names. map (λ name. name.now) names.items ≡ names_of self.now) }
    {
        let mut names: Vec<&'static str> = Vec::new(alloc);
        add(&mut names, self.bloomfilter, "bloomfilter")?;
        add(&mut names, self.noban, "noban")?;
        add(&mut names, self.forcerelay, "forcerelay")?;
        add(&mut names, self.relay, "relay")?;
        add(&mut names, self.mempool, "mempool")?;
        add(&mut names, self.download, "download")?;
        add(&mut names, self.addr, "addr")?;
        Ok(names)
    }
}

fn add(names: &mut Vec<&'static str>, is_set: bool, name: &'static str) -> Result<(), Memory>
    ensures { OnOk result (map (λ name. name.now) names.new.items ≡ map (λ name. name.now) names.old.items ++ named is_set name.now) }
{
    if is_set {
        names.push(name)?;
    }
    Ok(())
}
