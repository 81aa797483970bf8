//! What denies an event of a peer.
ghost use Rattle.std.specs.Prelude.{◌≡◌, map};
ghost use Rattle.gate_rules.specs.Peers.{peers, name_of, token_of, then_of, row_of};
ghost use Rattle.gate_rules.specs.Rules.{key_of};

use crate::denial::Denial;
use crate::package::PackageDenial;
use crate::rule::{Consequence, Rule};
use gate_bytes::Exact;

/// A rule that an event fails: one on its peer, one of admission, or one on its package.
#[derive(Clone, Copy, PartialEq, Eq)]
pub enum PeerDenial {
    PeerUnknown, // P1
    PeerClosed, // P2
    PeerKnown, // P3
    BlocksOnly, // P4
    AlreadyInMempool, // P5
    MempoolNoBloom, // P6
    MempoolUploadTarget, // P7
    HeadersDuringDownload, // P8
    UnknownBlock, // P9
    HistoricalUploadTarget, // P10
    NoPackages, // P11
    /// A rule of admission.
    Admission(Denial),
    /// A rule on a package.
    Package(PackageDenial),
}

/// The row of each rule on a peer, in their order.
static ROWS: [Rule; 11] = [
    Rule {
        name: "P1",
        token: "peer-unknown",
        then: Consequence::Keep,
        core: None,
        says: "No peer entered with this number",
    },
    Rule {
        name: "P2",
        token: "peer-closed",
        then: Consequence::Keep,
        core: None,
        says: "The session of this peer is closed",
    },
    Rule {
        name: "P3",
        token: "peer-known",
        then: Consequence::Keep,
        core: None,
        says: "The number was used before, and each peer needs a new one",
    },
    Rule {
        name: "P4",
        token: "blocks-only",
        then: Consequence::CloseAlways,
        core: Some("-blocksonly"),
        says: "Only blocks are wanted, and the peer has no relay",
    },
    Rule {
        name: "P5",
        token: "txn-already-in-mempool",
        then: Consequence::Relay,
        core: Some("AlreadyHaveTx"),
        says: "The pool has the transaction already, by its wtxid",
    },
    Rule {
        name: "P6",
        token: "mempool-no-bloom",
        then: Consequence::Close,
        core: Some("NetMsgType::MEMPOOL without NODE_BLOOM"),
        says: "The peer asks for the pool with neither mempool nor bloomfilter, while bloom filters are off",
    },
    Rule {
        name: "P7",
        token: "mempool-upload-target",
        then: Consequence::Close,
        core: Some("-maxuploadtarget"),
        says: "The peer asks for the pool without mempool, while the upload target is reached",
    },
    Rule {
        name: "P8",
        token: "headers-during-download",
        then: Consequence::Keep,
        core: Some("NetMsgType::GETHEADERS"),
        says: "The peer asks for headers without download, during initial block download",
    },
    Rule {
        name: "P9",
        token: "unknown-block",
        then: Consequence::Keep,
        core: Some("NetMsgType::GETDATA"),
        says: "The height is above the tip",
    },
    Rule {
        name: "P10",
        token: "historical-upload-target",
        then: Consequence::Close,
        core: Some("-maxuploadtarget"),
        says: "The peer asks without download for a block more than 604,800 seconds (a week) older than the tip, while the target for historical blocks is reached",
    },
    Rule {
        name: "P11",
        token: "no-packages",
        then: Consequence::Keep,
        core: None,
        says: "The peer submits a package, and packages are taken with packages 1 alone",
    },
];

impl PeerDenial {
    /// All rows, in their order.
    pub(crate) fn rows() -> &'static [Rule]
        ensures { map key_of result.now ≡ map row_of peers }
    {
        &ROWS
    }

    /// What is said of the rule.
    pub fn row(&self) -> &'static Rule
        ensures name { result.now.name.now ≡ name_of self.now }
        ensures token { result.now.token.now ≡ token_of self.now }
        ensures follows { result.now.then ≡ then_of self.now }
    {
        match self {
            PeerDenial::PeerUnknown => &ROWS[0],
            PeerDenial::PeerClosed => &ROWS[1],
            PeerDenial::PeerKnown => &ROWS[2],
            PeerDenial::BlocksOnly => &ROWS[3],
            PeerDenial::AlreadyInMempool => &ROWS[4],
            PeerDenial::MempoolNoBloom => &ROWS[5],
            PeerDenial::MempoolUploadTarget => &ROWS[6],
            PeerDenial::HeadersDuringDownload => &ROWS[7],
            PeerDenial::UnknownBlock => &ROWS[8],
            PeerDenial::HistoricalUploadTarget => &ROWS[9],
            PeerDenial::NoPackages => &ROWS[10],
            PeerDenial::Admission(denial) => denial.row(),
            PeerDenial::Package(denial) => denial.row(),
        }
    }
}

impl Exact for PeerDenial {
    ghost use Rattle.gate_rules.specs.contracts.denial.Denial.{enum as denials};
    ghost use Rattle.gate_rules.specs.contracts.package.PackageDenial.{enum as package_denials};
    ghost use Rattle.gate_bytes.specs.Equality.{enum_decides, ◌or◌, none_decides, last_decides, bare_decides};
    ghost use Rattle.gate_rules.specs.contracts.peer.PeerDenial.{enum};

    ghost exact = { enum_decides enum _ (none_decides or none_decides or none_decides or none_decides or none_decides
        or none_decides or none_decides or none_decides or none_decides or none_decides or none_decides
        or last_decides (bare_decides denials tt) or last_decides (bare_decides package_denials tt) or tt) };
}
