//! What the lists that calls are answered with have.
use crate::result::EntryInfo;
use gate_bytes::Exact;
use gate_rules::PackageDenial;
use gate_standard::Denial;
use gate_tx::{OutPoint, Txid, Wtxid};

/// An entry's txid, and what the pool knows of it.
#[derive(Drop, PartialEq, Eq)]
pub struct KnownEntry {
    pub txid: Txid,
    pub info: EntryInfo,
}

/// An outpoint, and the entry that spends it, if there is one.
#[derive(Clone, Copy, PartialEq, Eq)]
pub struct Spending {
    pub outpoint: OutPoint,
    pub spender: Option<Txid>,
}

/// What would become of one of several transactions.
#[derive(Clone, Copy, PartialEq, Eq)]
pub enum Outcome {
    /// It would enter: it pays `fee` satoshi, and takes `vsize` virtual bytes.
    Allowed {
        txid: Txid,
        wtxid: Wtxid,
        fee: u64,
        vsize: u64,
    },
    /// It would be denied.
    Rejected {
        txid: Txid,
        wtxid: Wtxid,
        denial: Denial,
    },
    /// A rule on packages would deny all of them.
    AllRejected {
        txid: Txid,
        wtxid: Wtxid,
        denial: PackageDenial,
    },
    /// Nothing is said of it, since another one would be denied.
    Unjudged {
        txid: Txid,
        wtxid: Wtxid,
    },
}

impl Exact for KnownEntry {
    ghost use Rattle.std.proofs.lemmas.Slice.Eq.{bytes_eq-Decides};
    ghost use Rattle.gate_rpc.specs.contracts.result.EntryInfoExact.TheImpl.Laws.{exact-law as info_decides};
    ghost use Rattle.gate_rpc.specs.contracts.items.KnownEntry.{the_type};
    ghost use Rattle.gate_bytes.specs.Equality.{struct_decides, ◌&◌, last_decides};

    ghost exact = { struct_decides the_type (bytes_eq-Decides & last_decides info_decides) };
}

impl Exact for Spending {
    ghost use Rattle.std.proofs.lemmas.Slice.Eq.{bytes_eq-Decides};
    ghost use Rattle.gate_submission.specs.Equality.{option_decides};
    ghost use Rattle.gate_tx.specs.Equality.{out_point_decides};
    ghost use Rattle.gate_rpc.specs.contracts.items.Spending.{the_type};
    ghost use Rattle.gate_bytes.specs.Equality.{struct_decides, ◌&◌, last_decides};

    ghost exact = { struct_decides the_type (out_point_decides & last_decides (option_decides bytes_eq-Decides)) };
}

impl Exact for Outcome {
    ghost use Rattle.std.proofs.lemmas.Bool.Decides.{Decides-eqb};
    ghost use Rattle.std.proofs.lemmas.Slice.Eq.{bytes_eq-Decides};
    ghost use Rattle.gate_rules.specs.contracts.denial.Denial.{enum as denials};
    ghost use Rattle.gate_rules.specs.contracts.package.PackageDenial.{enum as package_denials};
    ghost use Rattle.gate_rpc.specs.contracts.items.Outcome.{enum};
    ghost use Rattle.gate_bytes.specs.Equality.{enum_decides, ◌or◌, ◌&◌, last_decides, bare_decides};

    ghost exact = { enum_decides enum _ (bytes_eq-Decides & bytes_eq-Decides & Decides-eqb & last_decides Decides-eqb
        or bytes_eq-Decides & bytes_eq-Decides & last_decides (bare_decides denials tt)
        or bytes_eq-Decides & bytes_eq-Decides & last_decides (bare_decides package_denials tt)
        or bytes_eq-Decides & last_decides bytes_eq-Decides
        or tt) };
}
