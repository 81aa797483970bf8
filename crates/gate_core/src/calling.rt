//! The plans of users' calls.
ghost use Rattle.std.specs.Prelude.{◌≡◌, ℕ, None, IfOk, OnOk};
ghost use Rattle.std.specs.Option.{option_copied};
ghost use Rattle.gate_core.specs.Submissions.{StandsFor, submitted_by, submitted_in};
ghost use Rattle.gate_rpc.specs.Calls.{request_of};
ghost use Rattle.gate_rpc.specs.Faults.{reply_of};
ghost use Rattle.gate_core.specs.Packaging.{served};
ghost use Rattle.gate_core.specs.RpcSteps.{is_barred, rpc_step, called_by, commanded, told, of_entry};
ghost use Rattle.gate_rpc.specs.declared.result.RpcResult.TheVariants.{Txids, Entry, Transaction};
ghost use Rattle.gate_query.specs.Answers.{tested};
ghost use Rattle.gate_core.specs.TestedLists.{list_tested};
ghost use Rattle.gate_core.specs.World.{World, standing_of};
ghost use Rattle.gate_core.specs.PackageSteps.{called_with, package_in};
ghost use Rattle.gate_core.specs.Planning.{Fits, Plans, world_of};
ghost use Rattle.gate_pool.specs.Moves.{IsMarked};

use crate::parts::StateParts;
use crate::planning::{Change, Plan};
use crate::submitting::standing_for;
use crate::testing::test_together;
use gate_admit::{Conditions, Prepared, plan_submission};
use gate_bytes::{Boxed, Copied, Counted, Kept, Memory};
use gate_message::{Call, Reply};
use gate_query::{
    ancestors_listed, descendants_listed, entries_known, entry_info, pool_info, spendings,
    test_list, test_submission, transaction,
};
use gate_rpc::{CallError, Command, EntryInfo, Id, Request, RpcError, RpcReply, RpcResult};
use gate_standard::Denial;
use gate_tx::{Identified, Txid};
use std::alloc::Global;
use std::hash::BuildHasher;

/// A plan with this answer that changes nothing.
fn answered(alloc: Global, answer: RpcReply) -> Result<Plan, Memory>
    ensures reply { IfOk result (λ plan. plan.reply ≡ Reply.Rpc answer) }
    ensures change { IfOk result (λ plan. plan.change ≡ Change.Nothing) }
{
    Ok(Plan::telling(Reply::Rpc(Boxed::new(alloc, answer)?)))
}

/// A plan that answers the call with this id and changes nothing.
fn telling(alloc: Global, id: &Id, outcome: Result<RpcResult, RpcError>) -> Result<Plan, Memory>
    ensures ok { IfOk result (λ plan. (w : World) → Plans w (told w id.now outcome) plan) }
    ensures change { IfOk result (λ plan. plan.change ≡ Change.Nothing) }
{
    let id = id.copy(alloc)?;
    answered(
        alloc,
        match outcome {
            Ok(found) => RpcReply::Answer { id, result: found },
            Err(error) => RpcReply::Failure { id, error },
        },
    )
}

/// A plan that answers a call with its fault and changes nothing.
fn faulted(alloc: Global, error: &CallError) -> Result<Plan, Memory>
    ensures ok { IfOk result (λ plan. (w : World) → Plans w (Reply.Rpc (reply_of error.now), w) plan) }
    ensures change { IfOk result (λ plan. plan.change ≡ Change.Nothing) }
{
    answered(alloc, error.copy(alloc)?.into_reply())
}

/// The result of a call that asks for the ids of an entry's ancestors or descendants.
fn of_ids(alloc: Global, found: Option<Kept<Txid>>) -> Result<Result<RpcResult, RpcError>, Memory>
    ensures { IfOk result (λ outcome. outcome ≡ of_entry Txids found) }
{
    match found {
        Some(txids) => Ok(Ok(RpcResult::Txids(Counted::new(alloc, txids)?))),
        None => Ok(Err(RpcError::NotInMempool)),
    }
}

/// The result of a call that asks for the transaction of an entry.
fn of_transaction(found: Option<Counted<Identified>>) -> Result<RpcResult, RpcError>
    ensures { result ≡ of_entry Transaction found }
{
    match found {
        Some(transaction) => Ok(RpcResult::Transaction(transaction)),
        None => Err(RpcError::NotInMempool),
    }
}

/// The result of a call that asks for what is known of an entry.
fn of_info(alloc: Global, found: Option<EntryInfo>) -> Result<Result<RpcResult, RpcError>, Memory>
    ensures { IfOk result (λ outcome. outcome ≡ of_entry Entry found) }
{
    match found {
        Some(info) => Ok(Ok(RpcResult::Entry(Counted::new(alloc, info)?))),
        None => Ok(Err(RpcError::NotInMempool)),
    }
}

impl<S: BuildHasher + Copy + Drop> StateParts<S> {
    /// Whether the user may not make the call (U1).
    pub(crate) fn bars(&self, call: &Call) -> bool
        ensures { result ≡ is_barred (world_of self.now) call.now.user (request_of call.now.json) }
    {
        match call.method() {
            Some(method) => !self.rpcwhitelist.allows(call.user(), method),
            None => false,
        }
    }

    /// The plan of a call. `prepared` may stand for the submission that the call makes.
    pub(crate) fn calling(
        &mut self,
        alloc: Global,
        call: &Call,
        prepared: Option<&Prepared>,
    ) -> Result<Plan, Memory>
        requires prepared { StandsFor (option_copied prepared) (submitted_in (request_of call.now.json)) }
        requires no_package { package_in (world_of self.old) call.now ≡ None }
        ensures ok { IfOk result (Plans (world_of self.old) (rpc_step (world_of self.old) call.now.user call.now.time (request_of call.now.json))) }
        ensures fits { IfOk result (λ plan. Fits plan.change self.new.sessions self.new.pool) }
        ensures same { world_of self.new ≡ world_of self.old }
        ensures marked { IsMarked self.old.pool → OnOk result (IsMarked self.new.pool) }
    {
        if self.bars(call) {
            return answered(alloc, RpcReply::NotAllowed);
        }
        match call.request() {
            Ok(request) => {
                if self.lacks(request.command.method()) {
                    return telling(alloc, &request.id, Err(RpcError::MethodNotFound));
                }
                self.command(alloc, call.time(), request, prepared)
            }
            Err(error) => self.failing(alloc, error),
        }
    }

    /// The plan of a call that asks for nothing that there is.
    fn failing(&self, alloc: Global, error: &CallError) -> Result<Plan, Memory>
        ensures ok { IfOk result (λ plan. (now : ℕ) → Plans (world_of self.now) (called_by (world_of self.now) now (served (world_of self.now) (Err error.now))) plan) }
        ensures change { IfOk result (λ plan. plan.change ≡ Change.Nothing) }
    {
        match error {
            CallError::InvalidParams { id, method } => {
                if self.lacks(*method) {
                    return telling(alloc, id, Err(RpcError::MethodNotFound));
                }
                faulted(alloc, error)
            }
            _ => faulted(alloc, error),
        }
    }

    fn command(
        &mut self,
        alloc: Global,
        now: u64,
        request: &Request,
        prepared: Option<&Prepared>,
    ) -> Result<Plan, Memory>
        requires prepared { StandsFor (option_copied prepared) (submitted_by request.now.command) }
        requires no_package { called_with now request.now.id request.now.command ≡ None }
        ensures ok { IfOk result (Plans (world_of self.old) (commanded (world_of self.old) now request.now.id request.now.command)) }
        ensures fits { IfOk result (λ plan. Fits plan.change self.new.sessions self.new.pool) }
        ensures same { world_of self.new ≡ world_of self.old }
        ensures marked { IsMarked self.old.pool → OnOk result (IsMarked self.new.pool) }
    {
        let id = &request.id;
        match &request.command {
            Command::SendRawTransaction(transaction) => {
                self.sending(alloc, now, id, standing_for(prepared, transaction))
            }
            Command::TestMempoolAccept(transaction) => {
                self.testing(alloc, id, standing_for(prepared, transaction))
            }
            Command::TestList(transactions) => {
                self.testing_list(alloc, now, id, transactions.as_slice())
            }
            Command::GetRawMempool => {
                let txids = self.pool.listing(alloc)?;
                let txids = self.listing.share(alloc, txids)?;
                telling(alloc, id, Ok(RpcResult::Txids(txids)))
            }
            Command::GetRawMempoolVerbose => {
                let known = entries_known(alloc, &self.pool)?;
                let known = Counted::new(alloc, known)?;
                telling(alloc, id, Ok(RpcResult::Entries(known)))
            }
            Command::GetMempoolEntry(txid) => {
                let found = entry_info(alloc, &self.pool, txid)?;
                telling(alloc, id, of_info(alloc, found)?)
            }
            Command::GetMempoolAncestors(txid) => {
                let found = ancestors_listed(alloc, &self.pool, txid)?;
                telling(alloc, id, of_ids(alloc, found)?)
            }
            Command::GetMempoolDescendants(txid) => {
                let found = descendants_listed(alloc, &self.pool, txid)?;
                telling(alloc, id, of_ids(alloc, found)?)
            }
            Command::GetMempoolInfo => {
                let found = pool_info(&self.pool, &self.floor, &self.policy, self.budget);
                telling(alloc, id, Ok(found))
            }
            Command::GetRawTransaction(txid) => {
                let found = transaction(alloc, &self.pool, txid)?;
                telling(alloc, id, of_transaction(found))
            }
            Command::GetTxSpendingPrevout(outpoints) => {
                let found = spendings(alloc, &self.pool, outpoints.as_slice())?;
                let found = Counted::new(alloc, found)?;
                telling(alloc, id, Ok(RpcResult::Spendings(found)))
            }
            Command::SubmitPackage(_) => unreachable!(),
        }
    }

    /// The plan of `testmempoolaccept`, which answers whether a transaction would enter.
    fn testing(&self, alloc: Global, id: &Id, transaction: &Prepared) -> Result<Plan, Memory>
        ensures ok { IfOk result (Plans (world_of self.now) (told (world_of self.now) id.now (tested (standing_of (world_of self.now)) transaction.now))) }
        ensures change { IfOk result (λ plan. plan.change ≡ Change.Nothing) }
    {
        let outcome = test_submission(
            alloc,
            &self.chain,
            &self.pool,
            &self.floor,
            &self.verdicts,
            &self.policy,
            transaction,
        )?;
        telling(alloc, id, outcome)
    }

    /// The plan of `testmempoolaccept` for several transactions, which are tested as one package where packages are taken.
    fn testing_list(
        &mut self,
        alloc: Global,
        now: u64,
        id: &Id,
        transactions: &[Prepared],
    ) -> Result<Plan, Memory>
        ensures ok { IfOk result (Plans (world_of self.old) (told (world_of self.old) id.now (list_tested (world_of self.old) now transactions.now))) }
        ensures change { IfOk result (λ plan. plan.change ≡ Change.Nothing) }
        ensures same { world_of self.new ≡ world_of self.old }
        ensures marked { IsMarked self.old.pool → OnOk result (IsMarked self.new.pool) }
    {
        let under = Conditions {
            chain: &self.chain,
            floor: &self.floor,
            verdicts: &self.verdicts,
            policy: &self.policy,
            second: now,
            budget: self.budget,
        };
        let outcome = if self.policy.packages() {
            test_together(alloc, &under, &self.pool, transactions)?
        } else {
            test_list(alloc, &under, &mut self.pool, transactions)?
        };
        self.pool.mark();
        telling(alloc, id, outcome)
    }

    /// The plan of `sendrawtransaction`, which lets a transaction enter if it is granted.
    #[tactic(auto, using(gate_admit::proofs::Submitting::planned_nothing))]
    fn sending(
        &mut self,
        alloc: Global,
        now: u64,
        id: &Id,
        transaction: &Prepared,
    ) -> Result<Plan, Memory>
        ensures ok { IfOk result (Plans (world_of self.old) (commanded (world_of self.old) now id.now (Command.SendRawTransaction transaction.now))) }
        ensures fits { IfOk result (λ plan. Fits plan.change self.new.sessions self.new.pool) }
        ensures same { world_of self.new ≡ world_of self.old }
        ensures marked { IsMarked self.old.pool → OnOk result (IsMarked self.new.pool) }
    {
        let Some(txid) = transaction.txid() else {
            return telling(alloc, id, Err(RpcError::Denied(Denial::Decode)));
        };
        let id = id.copy(alloc)?;
        let under = Conditions {
            chain: &self.chain,
            floor: &self.floor,
            verdicts: &self.verdicts,
            policy: &self.policy,
            second: now,
            budget: self.budget,
        };
        let decision = plan_submission(alloc, &under, &mut self.pool, transaction)?;
        match decision {
            Ok(coming) => {
                let result = RpcResult::Sent(txid);
                let answer = Boxed::new(alloc, RpcReply::Answer { id, result })?;
                Ok(Plan {
                    reply: Reply::Rpc(answer),
                    change: Change::Admit {
                        coming: Boxed::new(alloc, coming)?,
                    },
                })
            }
            Err(denial) => {
                let error = RpcError::Denied(denial);
                answered(alloc, RpcReply::Failure { id, error })
            }
        }
    }
}
