//! What a call asks for.
ghost use Rattle.std.specs.Prelude.{◌≡◌};
ghost use Rattle.gate_rpc.specs.Calls.{method_of};

use crate::id::Id;
use crate::method::Method;
use gate_bytes::{Copied, Exact, Kept, Memory};
use gate_submission::Prepared;
use gate_tx::{OutPoint, Txid};
use std::alloc::Global;

/// A method with its parameters.
#[derive(Drop, PartialEq, Eq)]
pub enum Command {
    /// Lets a transaction enter the pool.
    SendRawTransaction(Prepared),
    /// Says whether a transaction would enter the pool.
    TestMempoolAccept(Prepared),
    /// Says of each of several transactions whether it would enter the pool behind those before it that would.
    TestList(Kept<Prepared>),
    /// The txids in the pool.
    GetRawMempool,
    /// What the pool knows of each entry.
    GetRawMempoolVerbose,
    /// What the pool knows of an entry.
    GetMempoolEntry(Txid),
    /// The txids of an entry's ancestors.
    GetMempoolAncestors(Txid),
    /// The txids of an entry's descendants.
    GetMempoolDescendants(Txid),
    /// The pool's size and its feerates.
    GetMempoolInfo,
    /// The text of an entry's transaction.
    GetRawTransaction(Txid),
    /// Which entries spend outpoints.
    GetTxSpendingPrevout(Kept<OutPoint>),
    /// Lets a package enter the pool.
    SubmitPackage(PackageCall),
}

/// A package that is submitted, and what the call allows of it.
#[derive(Drop, PartialEq, Eq)]
pub struct PackageCall {
    /// The members, in their order.
    pub members: Kept<Prepared>,
    /// The greatest feerate of a member by itself, in satoshi per 1,000 virtual bytes; 0 bounds nothing.
    pub max_rate: u64,
    /// The greatest value in satoshi of an output that nothing can spend.
    pub max_burn: u64,
}

impl Copied for PackageCall {
    fn copy(&self, alloc: Global) -> Result<PackageCall, Memory> {
        Ok(PackageCall {
            members: self.members.copy(alloc)?,
            max_rate: self.max_rate,
            max_burn: self.max_burn,
        })
    }
}

impl Command {
    pub fn method(&self) -> Method
        ensures { result ≡ method_of self.now }
    {
        match self {
            Command::SendRawTransaction(_) => Method::SendRawTransaction,
            Command::TestMempoolAccept(_) => Method::TestMempoolAccept,
            Command::TestList(_) => Method::TestMempoolAccept,
            Command::GetRawMempool => Method::GetRawMempool,
            Command::GetRawMempoolVerbose => Method::GetRawMempool,
            Command::GetMempoolEntry(_) => Method::GetMempoolEntry,
            Command::GetMempoolAncestors(_) => Method::GetMempoolAncestors,
            Command::GetMempoolDescendants(_) => Method::GetMempoolDescendants,
            Command::GetMempoolInfo => Method::GetMempoolInfo,
            Command::GetRawTransaction(_) => Method::GetRawTransaction,
            Command::GetTxSpendingPrevout(_) => Method::GetTxSpendingPrevout,
            Command::SubmitPackage(_) => Method::SubmitPackage,
        }
    }
}

impl Copied for Command {
    fn copy(&self, alloc: Global) -> Result<Command, Memory> {
        match self {
            Command::SendRawTransaction(submission) => {
                Ok(Command::SendRawTransaction(submission.copy(alloc)?))
            }
            Command::TestMempoolAccept(submission) => {
                Ok(Command::TestMempoolAccept(submission.copy(alloc)?))
            }
            Command::TestList(submissions) => Ok(Command::TestList(submissions.copy(alloc)?)),
            Command::GetRawMempool => Ok(Command::GetRawMempool),
            Command::GetRawMempoolVerbose => Ok(Command::GetRawMempoolVerbose),
            Command::GetMempoolEntry(txid) => Ok(Command::GetMempoolEntry(*txid)),
            Command::GetMempoolAncestors(txid) => Ok(Command::GetMempoolAncestors(*txid)),
            Command::GetMempoolDescendants(txid) => Ok(Command::GetMempoolDescendants(*txid)),
            Command::GetMempoolInfo => Ok(Command::GetMempoolInfo),
            Command::GetRawTransaction(txid) => Ok(Command::GetRawTransaction(*txid)),
            Command::GetTxSpendingPrevout(points) => {
                Ok(Command::GetTxSpendingPrevout(points.copy(alloc)?))
            }
            Command::SubmitPackage(call) => Ok(Command::SubmitPackage(call.copy(alloc)?)),
        }
    }
}

/// A call that can be made.
#[derive(Drop, PartialEq, Eq)]
pub struct Request {
    pub id: Id,
    pub command: Command,
}

impl Copied for Request {
    fn copy(&self, alloc: Global) -> Result<Request, Memory> {
        Ok(Request {
            id: self.id.copy(alloc)?,
            command: self.command.copy(alloc)?,
        })
    }
}

impl Exact for PackageCall {
    ghost use Rattle.std.proofs.lemmas.Bool.Decides.{Decides-eqb};
    ghost use Rattle.gate_submission.specs.contracts.prepared.PreparedExact.TheImpl.Laws.{exact-law as prepared_decides};
    ghost use Rattle.gate_rpc.specs.contracts.request.PackageCall.{the_type};
    ghost use Rattle.gate_rpc.specs.Equality.{list_decides};
    ghost use Rattle.gate_bytes.specs.Equality.{struct_decides, ◌&◌, last_decides};

    ghost exact = { struct_decides the_type (list_decides prepared_decides & Decides-eqb & last_decides Decides-eqb) };
}

impl Exact for Command {
    ghost use Rattle.std.proofs.lemmas.Slice.Eq.{bytes_eq-Decides};
    ghost use Rattle.gate_tx.specs.Equality.{out_point_decides};
    ghost use Rattle.gate_submission.specs.contracts.prepared.PreparedExact.TheImpl.Laws.{exact-law as prepared_decides};
    ghost use Rattle.gate_rpc.specs.contracts.request.PackageCallExact.TheImpl.Laws.{exact-law as package_decides};
    ghost use Rattle.gate_rpc.specs.contracts.request.Command.{enum};
    ghost use Rattle.gate_rpc.specs.Equality.{list_decides};
    ghost use Rattle.gate_bytes.specs.Equality.{enum_decides, ◌or◌, none_decides, last_decides};

    ghost exact = { enum_decides enum _ (last_decides prepared_decides or last_decides prepared_decides or last_decides (list_decides prepared_decides)
        or none_decides or none_decides or last_decides bytes_eq-Decides or last_decides bytes_eq-Decides or last_decides bytes_eq-Decides or none_decides
        or last_decides bytes_eq-Decides or last_decides (list_decides out_point_decides) or last_decides package_decides or tt) };
}

impl Exact for Request {
    ghost use Rattle.gate_rpc.specs.contracts.id.IdExact.TheImpl.Laws.{exact-law as id_decides};
    ghost use Rattle.gate_rpc.specs.contracts.request.CommandExact.TheImpl.Laws.{exact-law as command_decides};
    ghost use Rattle.gate_rpc.specs.contracts.request.Request.{the_type};
    ghost use Rattle.gate_bytes.specs.Equality.{struct_decides, ◌&◌, last_decides};

    ghost exact = { struct_decides the_type (id_decides & last_decides command_decides) };
}
