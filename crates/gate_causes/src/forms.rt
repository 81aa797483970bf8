//! The forms of lines, in the notation of docs/FORMATS.md.
//!
//! The words of a form are parted by single spaces. One that a table below has, in capitals, is a place for a value, and
//! any other stands for itself; `|` parts words of which one stands there.
use gate_lines::MAX_NUMBER;
use gate_register::{Row, Setting};

/// The lines of events. Of two forms that a line fits equally far, the later one says what is wrong with it.
pub(crate) static EVENTS: [&str; 18] = [
    "peer P enter ADDRESS",
    "peer P leave",
    "peer P tx NOW HEX",
    "peer P package NOW HEX HEX",
    "peer P mempool",
    "peer P getblock H",
    "peer P headers H",
    "peer P feefilter RATE",
    "user NAME rpc NOW JSON",
    "chain D NOW BLOCKHEX ..",
    "chain coin TXID INDEX VALUE HEIGHT plain|cb SCRIPT",
    "chain verdict WTXID INPUT ok|soft|hard",
    "chain forget N",
    "operator floor RATE",
    "operator bloom on|off",
    "operator upload on|off",
    "operator historic on|off",
    "operator ibd on|off",
];

/// The lines of openings, but for those of settings, whose rows stand in gate_register.
pub(crate) static OPENINGS: [&str; 9] = [
    "budget N",
    "policy core-22|core-25|core-26|core-27|core-28|core-29|core-30|knots-29",
    "from HEIGHT",
    "times COUNT FIRST STEP",
    "coin TXID INDEX VALUE HEIGHT plain|cb SCRIPT",
    "verdict * ok|soft|hard",
    "verdict WTXID INPUT ok|soft|hard",
    "whitelist TEXT",
    "rpcwhitelist TEXT",
];

/// The lines that begin a lane, or end an opening, and that end a round of lanes.
pub(crate) static DIVIDERS: [&str; 2] = ["---", "==="];

/// What a word before the `@` of a whitelist entry may be.
pub(crate) static PERMISSIONS: [&str; 1] = [
    "bloomfilter|bloom|noban|forcerelay|relay|mempool|download|addr|all",
];

/// The methods of calls, each with its params as docs/POLICY.md writes them.
pub(crate) static METHODS: [&str; 10] = [
    "sendrawtransaction [hex]",
    "testmempoolaccept [[hex, ..]] with 1 to 25 of them",
    "submitpackage [[hex, ..]], [[hex, ..], maxfeerate] or [[hex, ..], maxfeerate, maxburnamount] with 1 to 25 texts",
    "getrawmempool [], [false] or [true]",
    "getmempoolentry [txid]",
    "getmempoolancestors [txid]",
    "getmempooldescendants [txid]",
    "getmempoolinfo []",
    "getrawtransaction [txid] or [txid, false]",
    "gettxspendingprevout [[{\"txid\": txid, \"vout\": n}, ..]] with at least one",
];

/// Words of nodes' options, and the words of an opening that say the same.
pub(crate) static OPTIONS: [(&str, &str); 2] = [
    ("maxmempool", "budget, in virtual bytes"),
    ("peerbloomfilters", "bloom"),
];

/// The greatest number of 32 bits.
const MAX_32: u64 = 4_294_967_295;

const RATE: &str = "satoshi per 1,000 virtual bytes";

/// Each place for a number by its name, or by the whole form that it stands in; what it says, the least and the greatest.
/// Those of settings stand in gate_register.
static NUMBERS: [(&str, &str, u64, u64); 15] = [
    ("P", "the number of a peer", 0, MAX_NUMBER),
    ("NOW", "the second of the event", 0, MAX_NUMBER),
    ("H", "a height", 0, MAX_32),
    ("RATE", RATE, 0, MAX_NUMBER),
    ("D", "how many blocks are disconnected", 0, MAX_NUMBER),
    ("INDEX", "the index of an output", 0, MAX_32),
    ("VALUE", "a value in satoshi", 0, MAX_NUMBER),
    ("INPUT", "the index of an input", 0, MAX_32),
    ("chain forget N", "how many blocks to forget", 0, MAX_NUMBER),
    ("budget N", "the budget in virtual bytes", 0, 1_000_000_000),
    (
        "from HEIGHT",
        "the height of the first block time",
        0,
        10_000_000,
    ),
    ("HEIGHT", "the height of a coin", 0, MAX_32),
    ("COUNT", "how many block times", 0, MAX_NUMBER),
    ("FIRST", "the first block time", 0, MAX_32),
    ("STEP", "the seconds from each to the next", 0, MAX_NUMBER),
];

/// What a text at a place is.
#[derive(Clone, Copy, PartialEq, Eq)]
pub(crate) enum Kind {
    Word,
    Address,
    /// 64 hexadecimal digits.
    Id,
    /// Bytes in hexadecimal digits, or `-`.
    Hex,
    /// All that is left of the line, with spaces of its own.
    Rest,
    /// All words that are left, of which there may be none.
    Words,
}

/// Each other place for a value by its name, what it says, and what it is.
static TEXTS: [(&str, &str, Kind); 9] = [
    (
        "ADDRESS",
        "an address without a port, brackets or a host name",
        Kind::Address,
    ),
    ("HEX", "a transaction in hexadecimal digits", Kind::Word),
    ("NAME", "the name of a user", Kind::Word),
    ("JSON", "a call in JSON", Kind::Rest),
    ("BLOCKHEX", "a block in hexadecimal digits", Kind::Words),
    ("TXID", "a txid of 64 hexadecimal digits", Kind::Id),
    ("WTXID", "a wtxid of 64 hexadecimal digits", Kind::Id),
    (
        "SCRIPT",
        "a script in hexadecimal digits, and not an address, or -",
        Kind::Hex,
    ),
    ("TEXT", "an entry", Kind::Rest),
];

/// What a word of a form stands for.
#[derive(Clone, Copy)]
pub(crate) enum Place {
    /// One of the words that `|` parts here.
    OneOf(&'static str),
    Number {
        what: &'static str,
        least: u64,
        most: u64,
    },
    Text {
        what: &'static str,
        kind: Kind,
    },
}

impl Place {
    /// What a word of this form stands for.
    fn of(form: &str, name: &'static str) -> Place {
        for &(at, what, least, most) in &NUMBERS {
            if at == name || at == form && at.ends_with(name) {
                return Place::Number { what, least, most };
            }
        }
        for &(at, what, kind) in &TEXTS {
            if at == name {
                return Place::Text { what, kind };
            }
        }
        Place::OneOf(name)
    }

    /// What the number of a setting is, behind its word.
    fn of_setting(setting: Setting) -> Place {
        let &Row {
            unit,
            least,
            most,
            ..
        } = setting.row();
        if least == 0 && most == 1 {
            Place::OneOf("0|1")
        } else {
            Place::Number {
                what: unit,
                least,
                most,
            }
        }
    }

    /// Whether the place is for a text of this kind.
    pub(crate) fn is(self, wanted: Kind) -> bool {
        match self {
            Place::Text { kind, .. } => kind == wanted,
            _ => false,
        }
    }
}

/// The form of a line: its words with their places, or that of a setting, which has a word and a number.
#[derive(Clone, Copy)]
pub(crate) enum Form {
    Words(&'static str),
    Setting(Setting),
}

impl Form {
    /// How many places it has.
    pub(crate) fn len(self) -> usize {
        match self {
            Form::Words(words) => words.split(' ').count(),
            Form::Setting(_) => 2,
        }
    }

    /// The place with this number, from the left and from 0, if there is one.
    pub(crate) fn place(self, number: usize) -> Option<Place> {
        match (self, number) {
            (Form::Words(words), _) => Some(Place::of(words, words.split(' ').nth(number)?)),
            (Form::Setting(setting), 0) => Some(Place::OneOf(setting.row().word)),
            (Form::Setting(setting), 1) => Some(Place::of_setting(setting)),
            (Form::Setting(_), _) => None,
        }
    }
}

/// Forms that a line may have.
#[derive(Clone, Copy)]
pub(crate) struct Forms {
    pub(crate) words: &'static [&'static str],
    pub(crate) settings: &'static [Setting],
}

impl Forms {
    pub(crate) fn of(words: &'static [&'static str]) -> Forms {
        Forms {
            words,
            settings: &[],
        }
    }

    /// The lines of openings.
    pub(crate) fn of_openings() -> Forms {
        Forms {
            words: &OPENINGS,
            settings: Setting::all(),
        }
    }
}
