//! The settings, a row each.
ghost use Rattle.std.specs.Prelude.{◌≡◌, ◌<◌, map};
ghost use Rattle.gate_register.specs.Settings.{allows, count, least_of, most_of, setting_named, place_of, settings, usual_of, word_of};
ghost use Rattle.gate_register.specs.Texts.{key_of, keys};

/// What an operator sets: a number, or a switch that is 0 or 1. The variants stand in the order of `ROWS`.
#[derive(Clone, Copy, PartialEq, Eq)]
pub enum Setting {
    /// How many ancestors a transaction may have, itself among them (Bitcoin Core's `-limitancestorcount`).
    AncestorCount,
    /// How many thousand virtual bytes of ancestors (`-limitancestorsize`).
    AncestorSize,
    /// How many descendants each ancestor of a transaction may have (`-limitdescendantcount`).
    DescendantCount,
    /// How many thousand virtual bytes of descendants (`-limitdescendantsize`).
    DescendantSize,
    /// What every transaction pays, in satoshi per 1,000 virtual bytes (`-minrelaytxfee`).
    RelayRate,
    /// What a replacement pays for its own relay, and how far the floor rises above what is trimmed, in satoshi per
    /// 1,000 virtual bytes (`-incrementalrelayfee`).
    IncrementalRate,
    /// How many hours an entry stays (`-mempoolexpiry`).
    ExpiryHours,
    /// How many bytes a signature operation counts for (`-bytespersigop`).
    SigopSize,
    /// The feerate of dust, in satoshi per 1,000 bytes (`-dustrelayfee`).
    DustRate,
    /// The longest script in bytes that carries data (`-datacarriersize`).
    DataSize,
    /// How many outputs may carry data.
    DataOutputs,
    /// The least size of a transaction in bytes without witnesses.
    LeastSize,
    /// Every entry of the pool may be replaced, even one that doesn't signal it (`-mempoolfullrbf` of release 24).
    FullRbf,
    /// An output may be a multisig script (`-permitbaremultisig`).
    BareMultisig,
    /// Bloom filters serve every peer (`-peerbloomfilters`).
    Bloom,
    /// Peers without the flag relay may not submit (`-blocksonly`).
    BlocksOnly,
    /// Whitelist entries without words give relay (`-whitelistrelay`); where no line says it, they do unless the node
    /// takes blocks only.
    WhitelistRelay,
    /// Whitelist entries without words give forcerelay (`-whitelistforcerelay`).
    WhitelistForceRelay,
    /// Users without a list of methods may call none (`-rpcwhitelistdefault`); where no line says it, they may call none
    /// if any user has a list.
    RpcWhitelistDefault,
    /// Fees at a feerate are rounded up (Bitcoin Core 23.0 and later).
    FeesRoundUp,
    /// What every transaction pays is asked before the pool's floor (Bitcoin Core 26.0 and later).
    RelayFeeFirst,
    /// A replacement may spend from any entry from which something that it replaces spends (Bitcoin Core 28.0 and later).
    ReplacedParents,
    /// No rule of admission closes a session (Bitcoin Core 30.0 and later).
    KeepInvalid,
    /// A coin may be an anchor (BIP 433; Bitcoin Core 28.0 and later).
    Anchors,
    /// The most legacy signature operations of a transaction (BIP 54; Bitcoin Core 29.1 and later).
    LegacySigops,
    /// The most bytes of all scripts of a transaction that carry data (`-datacarriersize` of Bitcoin Core 30.0).
    DataTotal,
    /// Version 3 is standard, and its transactions keep to small families (TRUC, BIP 431; Bitcoin Core 28.0 and later).
    Truc,
    /// Packages may be submitted (Bitcoin Core 28.0 and later).
    Packages,
    /// A package's child has no unconfirmed parent beside it (Bitcoin Core 28.0 to 29).
    PackageAllParents,
    /// An output of a transaction without a fee may be dust if its child spends it (Bitcoin Core 29.0 and later).
    EphemeralDust,
}

/// What is said of a setting.
#[derive(Clone, Copy)]
pub struct Row {
    /// The first word of its line.
    pub word: &'static str,
    /// What its number says, as people read it.
    pub unit: &'static str,
    pub least: u64,
    pub most: u64,
    /// Its number if no line says one; past `most`, and so none that a line says, if it has no limit then.
    pub usual: u64,
}

/// How many settings there are.
pub const COUNT: usize = 30;

/// The row of each setting, in their order.
static ROWS: [Row; COUNT] = [
    Row {
        word: "limitancestorcount",
        unit: "the most ancestors",
        least: 1,
        most: 1000,
        usual: 25,
    },
    Row {
        word: "limitancestorsize",
        unit: "the most thousand virtual bytes of ancestors",
        least: 101,
        most: 10_000,
        usual: 101,
    },
    Row {
        word: "limitdescendantcount",
        unit: "the most descendants",
        least: 1,
        most: 1000,
        usual: 25,
    },
    Row {
        word: "limitdescendantsize",
        unit: "the most thousand virtual bytes of descendants",
        least: 101,
        most: 10_000,
        usual: 101,
    },
    Row {
        word: "minrelaytxfee",
        unit: "satoshi per 1,000 virtual bytes",
        least: 0,
        most: 100_000_000,
        usual: 1000,
    },
    Row {
        word: "incrementalrelayfee",
        unit: "satoshi per 1,000 virtual bytes",
        least: 0,
        most: 100_000_000,
        usual: 1000,
    },
    Row {
        word: "mempoolexpiry",
        unit: "how many hours an entry stays",
        least: 1,
        most: 100_000,
        usual: 336,
    },
    Row {
        word: "bytespersigop",
        unit: "bytes per signature operation",
        least: 1,
        most: 25,
        usual: 20,
    },
    Row {
        word: "dustrelayfee",
        unit: "satoshi per 1,000 bytes",
        least: 0,
        most: 100_000_000,
        usual: 3000,
    },
    Row {
        word: "datacarriersize",
        unit: "the most bytes of a script with data",
        least: 0,
        most: 100_000,
        usual: 83,
    },
    Row {
        word: "datacarrieroutputs",
        unit: "the most outputs with data",
        least: 0,
        most: 10_000,
        usual: 1,
    },
    Row {
        word: "mintxsize",
        unit: "the least bytes without witnesses",
        least: 60,
        most: 82,
        usual: 82,
    },
    Row {
        word: "mempoolfullrbf",
        unit: "0 or 1",
        least: 0,
        most: 1,
        usual: 0,
    },
    Row {
        word: "permitbaremultisig",
        unit: "0 or 1",
        least: 0,
        most: 1,
        usual: 1,
    },
    Row {
        word: "bloom",
        unit: "0 or 1",
        least: 0,
        most: 1,
        usual: 0,
    },
    Row {
        word: "blocksonly",
        unit: "0 or 1",
        least: 0,
        most: 1,
        usual: 0,
    },
    Row {
        word: "whitelistrelay",
        unit: "0 or 1; where no line says it, 0 if blocksonly is 1",
        least: 0,
        most: 1,
        usual: 1,
    },
    Row {
        word: "whitelistforcerelay",
        unit: "0 or 1",
        least: 0,
        most: 1,
        usual: 0,
    },
    Row {
        word: "rpcwhitelistdefault",
        unit: "0 or 1; where no line says it, 1 if a line says rpcwhitelist",
        least: 0,
        most: 1,
        usual: 0,
    },
    Row {
        word: "feesroundup",
        unit: "0 or 1",
        least: 0,
        most: 1,
        usual: 0,
    },
    Row {
        word: "relayfeefirst",
        unit: "0 or 1",
        least: 0,
        most: 1,
        usual: 0,
    },
    Row {
        word: "replacedparents",
        unit: "0 or 1",
        least: 0,
        most: 1,
        usual: 0,
    },
    Row {
        word: "keepinvalid",
        unit: "0 or 1",
        least: 0,
        most: 1,
        usual: 0,
    },
    Row {
        word: "anchors",
        unit: "0 or 1",
        least: 0,
        most: 1,
        usual: 0,
    },
    Row {
        word: "maxtxlegacysigops",
        unit: "the most legacy signature operations of a transaction",
        least: 0,
        most: 1_000_000_000,
        usual: 1_000_000_001,
    },
    Row {
        word: "datacarriertotal",
        unit: "the most bytes of all scripts with data",
        least: 0,
        most: 100_000,
        usual: 100_001,
    },
    Row {
        word: "truc",
        unit: "0 or 1",
        least: 0,
        most: 1,
        usual: 0,
    },
    Row {
        word: "packages",
        unit: "0 or 1",
        least: 0,
        most: 1,
        usual: 0,
    },
    Row {
        word: "packageallparents",
        unit: "0 or 1",
        least: 0,
        most: 1,
        usual: 0,
    },
    Row {
        word: "ephemeraldust",
        unit: "0 or 1",
        least: 0,
        most: 1,
        usual: 0,
    },
];

/// All settings, in their order.
static SETTINGS: [Setting; COUNT] = [
    Setting::AncestorCount,
    Setting::AncestorSize,
    Setting::DescendantCount,
    Setting::DescendantSize,
    Setting::RelayRate,
    Setting::IncrementalRate,
    Setting::ExpiryHours,
    Setting::SigopSize,
    Setting::DustRate,
    Setting::DataSize,
    Setting::DataOutputs,
    Setting::LeastSize,
    Setting::FullRbf,
    Setting::BareMultisig,
    Setting::Bloom,
    Setting::BlocksOnly,
    Setting::WhitelistRelay,
    Setting::WhitelistForceRelay,
    Setting::RpcWhitelistDefault,
    Setting::FeesRoundUp,
    Setting::RelayFeeFirst,
    Setting::ReplacedParents,
    Setting::KeepInvalid,
    Setting::Anchors,
    Setting::LegacySigops,
    Setting::DataTotal,
    Setting::Truc,
    Setting::Packages,
    Setting::PackageAllParents,
    Setting::EphemeralDust,
];

impl Setting {
    /// The row of the setting.
    pub fn row(self) -> &'static Row
        ensures word { result.now.word.now ≡ word_of self }
        ensures least { result.now.least ≡ least_of self }
        ensures most { result.now.most ≡ most_of self }
        ensures usual { result.now.usual ≡ usual_of self }
    {
        &ROWS[self as usize]
    }

    /// The place of the setting in their order, from 0.
    pub fn place(self) -> usize
        ensures place { result ≡ place_of self }
        ensures below { result < count }
    {
        self as usize
    }

    /// All settings, in their order.
    pub fn all() -> &'static [Setting]
        ensures { result.now ≡ settings }
    {
        &SETTINGS
    }

    /// The rows of all settings, in their order.
    pub fn rows() -> &'static [Row]
        ensures { map key_of result.now ≡ keys }
    {
        &ROWS
    }

    /// Whether an operator may set this number.
    pub fn allows(self, number: u64) -> bool
        ensures { result ≡ allows self number }
    {
        let row = self.row();
        row.least <= number && number <= row.most
    }

    /// The setting whose line begins with this word.
    pub fn from_word(word: &str) -> Option<Setting>
        ensures { result ≡ setting_named word.now }
    {
        Setting::all()
            .iter()
            .copied()
            .find(|setting| setting.row().word == word)
    }
}
