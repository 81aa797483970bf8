//! The rule that a reply says fails, and the fault of a call.
use gate_bytes::Memory;
use gate_causes::call_cause;
use gate_message::{Call, Event, PeerDenial, Reply};
use gate_rpc::{CallError, Outcome, RpcError, RpcReply, RpcResult};
use gate_rules::{PackageDenial, Rule, user_rule};
use gate_standard::Denial;
use gate_submission::{Member, PackageVerdict};
use std::alloc::Global;

/// The rule of admission that an answer to a call names.
fn denial_of_call(answer: &RpcReply) -> Option<Denial> {
    match answer {
        RpcReply::Failure {
            error: RpcError::Denied(denial),
            ..
        } => Some(*denial),
        RpcReply::Answer {
            result: RpcResult::Rejected { denial, .. },
            ..
        } => Some(*denial),
        _ => None,
    }
}

/// The rule of admission that a reply names.
pub(crate) fn denial_in(reply: &Reply) -> Option<Denial> {
    match reply {
        Reply::Denied {
            denial: PeerDenial::Admission(denial),
            ..
        } => Some(*denial),
        Reply::Rpc(answer) => denial_of_call(answer.get()),
        _ => None,
    }
}

/// The rule on packages that denies all transactions of a list.
fn denial_of_all(outcomes: &[Outcome]) -> Option<PackageDenial> {
    match outcomes.first() {
        Some(Outcome::AllRejected { denial, .. }) => Some(*denial),
        _ => None,
    }
}

/// The rule on packages that an answer to a call names.
fn denial_of_package(answer: &RpcReply) -> Option<PackageDenial> {
    match answer {
        RpcReply::Failure {
            error: RpcError::PackageDenied(denial),
            ..
        } => Some(*denial),
        RpcReply::Answer {
            result: RpcResult::Package(outcome),
            ..
        } => match outcome.verdict {
            PackageVerdict::Denied(denial) => Some(denial),
            _ => None,
        },
        RpcReply::Answer {
            result: RpcResult::Outcomes(outcomes),
            ..
        } => denial_of_all(outcomes.get().as_slice()),
        _ => None,
    }
}

/// The rule on packages that decided on a package as a whole.
fn rule_of_verdict(verdict: &PackageVerdict) -> Option<&'static Rule> {
    match verdict {
        PackageVerdict::Denied(denial) => Some(denial.row()),
        _ => None,
    }
}

/// The rule that an answer to a call names.
fn answered_rule(answer: &RpcReply) -> Option<&'static Rule> {
    if let Some(denial) = denial_of_package(answer) {
        return Some(denial.row());
    }
    match answer {
        RpcReply::NotAllowed => Some(user_rule()),
        _ => Some(denial_of_call(answer)?.row()),
    }
}

/// The rule that a reply says fails.
pub(crate) fn rule_in(reply: &Reply) -> Option<&'static Rule> {
    match reply {
        Reply::Denied { denial, .. } => Some(denial.row()),
        Reply::Refused(denial) => Some(denial.row()),
        Reply::Packaged { verdict, .. } => rule_of_verdict(verdict),
        Reply::Rpc(answer) => answered_rule(answer.get()),
        _ => None,
    }
}

/// What would become of each transaction of a list, if a reply says it of several.
pub(crate) fn outcomes_in(reply: &Reply) -> &[Outcome] {
    match reply {
        Reply::Rpc(answer) => match answer.get() {
            RpcReply::Answer {
                result: RpcResult::Outcomes(outcomes),
                ..
            } => outcomes.get().as_slice(),
            _ => &[],
        },
        _ => &[],
    }
}

/// What became of each member of a package, if a reply says it.
pub(crate) fn members_in(reply: &Reply) -> &[Member] {
    match reply {
        Reply::Packaged { members, .. } => members.as_slice(),
        Reply::Rpc(answer) => match answer.get() {
            RpcReply::Answer {
                result: RpcResult::Package(outcome),
                ..
            } => outcome.members.as_slice(),
            _ => &[],
        },
        _ => &[],
    }
}

/// Why there is no such method: without its line in the opening, no package is taken.
fn method_fault(alloc: Global, call: &Call) -> Result<Option<String>, Memory> {
    let is_named = match call.request() {
        Ok(_) => true,
        Err(CallError::InvalidParams { .. }) => true,
        Err(_) => false,
    };
    if is_named {
        return Ok(Some(String::from_str(
            alloc,
            "packages are taken with the opening line 'packages 1' alone",
        )?));
    }
    call_cause(alloc, call)
}

/// Why a call is answered by an error that is no denial.
pub(crate) fn call_fault(
    alloc: Global,
    event: &Event,
    reply: &Reply,
) -> Result<Option<String>, Memory> {
    let (Event::Rpc(call), Reply::Rpc(answer)) = (event, reply) else {
        return Ok(None);
    };
    match answer.get() {
        RpcReply::Failure {
            error: RpcError::NotInMempool,
            ..
        } => Ok(Some(String::from_str(alloc, "no transaction in the pool has this txid")?)),
        RpcReply::Failure {
            error: RpcError::MethodNotFound,
            ..
        } => method_fault(alloc, call.get()),
        _ => call_cause(alloc, call.get()),
    }
}
