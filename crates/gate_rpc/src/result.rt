//! The results of calls.
use crate::items::{KnownEntry, Outcome, Spending};
use gate_bytes::{Copied, Counted, Exact, Kept, Memory};
use gate_standard::Denial;
use gate_submission::PackageOutcome;
use gate_tx::{Identified, Txid, Wtxid};
use std::alloc::Global;

/// What the pool knows of an entry. Sizes are in virtual bytes, fees in satoshi; the counts and sums of ancestors and
/// of descendants include the entry itself.
#[derive(Drop, PartialEq, Eq)]
pub struct EntryInfo {
    pub wtxid: Wtxid,
    pub fee: u64,
    pub vsize: u64,
    pub weight: u64,
    /// When the entry was admitted, in seconds.
    pub time: u64,
    pub ancestor_count: u64,
    pub ancestor_size: u128,
    pub ancestor_fees: u128,
    pub descendant_count: u64,
    pub descendant_size: u128,
    pub descendant_fees: u128,
    /// Whether the entry or an ancestor signals that it may be replaced (BIP 125).
    pub is_replaceable: bool,
    /// The entry's parents in the pool, in order of admission.
    pub depends: Kept<Txid>,
    /// The entry's children in the pool, in order of admission.
    pub spent_by: Kept<Txid>,
}

/// The result of a call. Copies of one share its lists.
#[derive(Drop, PartialEq, Eq)]
pub enum RpcResult {
    /// The transaction is in the pool.
    Sent(Txid),
    /// The transaction would enter: it pays `fee` satoshi, and takes `vsize` virtual bytes.
    Allowed {
        txid: Txid,
        wtxid: Wtxid,
        fee: u64,
        vsize: u64,
    },
    /// The transaction would be denied.
    Rejected {
        txid: Txid,
        wtxid: Wtxid,
        denial: Denial,
    },
    /// Transactions in the pool.
    Txids(Counted<Kept<Txid>>),
    /// An entry of the pool.
    Entry(Counted<EntryInfo>),
    /// The pool's total size and the most that it may be, in virtual bytes; the least feerate that the pool takes and
    /// the one for relay, in satoshi per 1,000 virtual bytes; and the number of entries.
    Info {
        size: u128,
        budget: u64,
        least_rate: u64,
        relay_rate: u64,
        count: u64,
    },
    /// What would become of several transactions, each behind those before it that would enter.
    Outcomes(Counted<Kept<Outcome>>),
    /// Entries of the pool, in order of admission.
    Entries(Counted<Kept<KnownEntry>>),
    /// A transaction of the pool, whose text is the answer.
    Transaction(Counted<Identified>),
    /// Which entries spend outpoints.
    Spendings(Counted<Kept<Spending>>),
    /// What became of a package. Copies of it share nothing, so that a member that has left the pool again is denied in
    /// the memory of each.
    Package(PackageOutcome),
}

impl Copied for RpcResult {
    fn copy(&self, alloc: Global) -> Result<RpcResult, Memory> {
        match self {
            RpcResult::Sent(txid) => Ok(RpcResult::Sent(*txid)),
            RpcResult::Allowed {
                txid,
                wtxid,
                fee,
                vsize,
            } => Ok(RpcResult::Allowed {
                txid: *txid,
                wtxid: *wtxid,
                fee: *fee,
                vsize: *vsize,
            }),
            RpcResult::Rejected {
                txid,
                wtxid,
                denial,
            } => Ok(RpcResult::Rejected {
                txid: *txid,
                wtxid: *wtxid,
                denial: *denial,
            }),
            RpcResult::Txids(txids) => Ok(RpcResult::Txids(txids.copy(alloc)?)),
            RpcResult::Entry(entry) => Ok(RpcResult::Entry(entry.copy(alloc)?)),
            RpcResult::Info {
                size,
                budget,
                least_rate,
                relay_rate,
                count,
            } => Ok(RpcResult::Info {
                size: *size,
                budget: *budget,
                least_rate: *least_rate,
                relay_rate: *relay_rate,
                count: *count,
            }),
            RpcResult::Outcomes(outcomes) => Ok(RpcResult::Outcomes(outcomes.copy(alloc)?)),
            RpcResult::Entries(entries) => Ok(RpcResult::Entries(entries.copy(alloc)?)),
            RpcResult::Transaction(transaction) => {
                Ok(RpcResult::Transaction(transaction.copy(alloc)?))
            }
            RpcResult::Spendings(spendings) => Ok(RpcResult::Spendings(spendings.copy(alloc)?)),
            RpcResult::Package(outcome) => Ok(RpcResult::Package(outcome.copy(alloc)?)),
        }
    }
}

impl Exact for EntryInfo {
    ghost use Rattle.std.specs.Cmp.{booleans_Decides};
    ghost use Rattle.std.proofs.lemmas.Bool.Decides.{Decides-eqb};
    ghost use Rattle.std.proofs.lemmas.Slice.Eq.{bytes_eq-Decides};
    ghost use Rattle.gate_tx.specs.Equality.{items_decides};
    ghost use Rattle.gate_rpc.specs.contracts.result.EntryInfo.{the_type};
    ghost use Rattle.gate_bytes.specs.Equality.{struct_decides, ◌&◌, last_decides};

    ghost exact = { struct_decides the_type (bytes_eq-Decides & Decides-eqb & Decides-eqb & Decides-eqb & Decides-eqb
        & Decides-eqb & Decides-eqb & Decides-eqb & Decides-eqb & Decides-eqb & Decides-eqb
        & booleans_Decides & items_decides & last_decides items_decides) };
}

impl Exact for RpcResult {
    ghost use Rattle.std.proofs.lemmas.Bool.Decides.{Decides-eqb};
    ghost use Rattle.std.proofs.lemmas.Slice.Eq.{bytes_eq-Decides};
    ghost use Rattle.gate_tx.specs.contracts.identified.IdentifiedExact.TheImpl.Laws.{exact-law as transaction_decides};
    ghost use Rattle.gate_rpc.specs.contracts.items.KnownEntryExact.TheImpl.Laws.{exact-law as known_decides};
    ghost use Rattle.gate_rpc.specs.contracts.items.SpendingExact.TheImpl.Laws.{exact-law as spending_decides};
    ghost use Rattle.gate_rpc.specs.contracts.items.OutcomeExact.TheImpl.Laws.{exact-law as outcome_decides};
    ghost use Rattle.gate_tx.specs.Equality.{items_decides};
    ghost use Rattle.gate_rules.specs.contracts.denial.Denial.{enum as denials};
    ghost use Rattle.gate_rpc.specs.contracts.result.EntryInfoExact.TheImpl.Laws.{exact-law as entry_decides};
    ghost use Rattle.gate_submission.specs.contracts.package_outcome.PackageOutcomeExact.TheImpl.Laws.{exact-law as package_decides};
    ghost use Rattle.gate_rpc.specs.contracts.result.RpcResult.{enum};
    ghost use Rattle.gate_rpc.specs.Equality.{list_decides};
    ghost use Rattle.gate_bytes.specs.Equality.{enum_decides, ◌or◌, ◌&◌, last_decides, bare_decides};

    ghost exact = { enum_decides enum _ (last_decides bytes_eq-Decides
        or bytes_eq-Decides & bytes_eq-Decides & Decides-eqb & last_decides Decides-eqb
        or bytes_eq-Decides & bytes_eq-Decides & last_decides (bare_decides denials tt)
        or last_decides items_decides
        or last_decides entry_decides
        or Decides-eqb & Decides-eqb & Decides-eqb & Decides-eqb & last_decides Decides-eqb
        or last_decides (list_decides outcome_decides)
        or last_decides (list_decides known_decides)
        or last_decides transaction_decides
        or last_decides (list_decides spending_decides)
        or last_decides package_decides
        or tt) };
}
