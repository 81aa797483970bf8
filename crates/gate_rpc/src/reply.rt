//! The answer to a call.
ghost use Rattle.std.specs.Prelude.{◌≡◌, IfOk, string_bytes};
ghost use Rattle.gate_rpc.specs.Replies.{reply_text, reply_status};

use crate::error::RpcError;
use crate::id::Id;
use crate::result::RpcResult;
use crate::writing::{error_json, id_json, result_json};
use gate_bytes::{Copied, Exact, Memory};
use std::alloc::Global;

/// The answer to a call.
#[derive(Drop, PartialEq, Eq)]
pub enum RpcReply {
    /// U1: the user may not call the method.
    NotAllowed,
    Answer { id: Id, result: RpcResult },
    Failure { id: Id, error: RpcError },
}

impl RpcReply {
    /// The HTTP status of the answer.
    pub fn status(&self) -> u16
        ensures { result ≡ reply_status self.now }
    {
        match self {
            RpcReply::NotAllowed => 403,
            RpcReply::Answer { .. } => 200,
            RpcReply::Failure { error, .. } => error.status(),
        }
    }
}

impl Copied for RpcReply {
    fn copy(&self, alloc: Global) -> Result<RpcReply, Memory> {
        match self {
            RpcReply::NotAllowed => Ok(RpcReply::NotAllowed),
            RpcReply::Answer {
                id,
                result: outcome,
            } => Ok(RpcReply::Answer {
                id: id.copy(alloc)?,
                result: outcome.copy(alloc)?,
            }),
            RpcReply::Failure { id, error } => Ok(RpcReply::Failure {
                id: id.copy(alloc)?,
                error: *error,
            }),
        }
    }
}

/// What an answer says after its status: compact JSON with the keys `error`, `id` and `result`, sorted at every level
/// but for txids that are keys, which stand in the order of admission; only a call that isn't allowed is answered without
/// JSON.
#[tactic(auto, unfolding(serde_json::proofs::OnLiterals::serde_json_on_literals))]
pub fn reply_text(alloc: Global, reply: &RpcReply) -> Result<String, Memory>
    ensures { IfOk result (λ text. string_bytes text ≡ reply_text reply.now) }
{
    match reply {
        RpcReply::NotAllowed => Ok(String::from_str(alloc, "denied U1 rpc-whitelist")?),
        RpcReply::Answer {
            id,
            result: outcome,
        } => {
            let id = id_json(alloc, id)?;
            let outcome = result_json(alloc, outcome)?;
            Ok(format!(in alloc; "{{\"error\":null,\"id\":{id},\"result\":{outcome}}}")?)
        }
        RpcReply::Failure { id, error } => {
            let id = id_json(alloc, id)?;
            let error = error_json(alloc, error)?;
            Ok(format!(in alloc; "{{\"error\":{error},\"id\":{id},\"result\":null}}")?)
        }
    }
}

impl Exact for RpcReply {
    ghost use Rattle.gate_rpc.specs.contracts.id.IdExact.TheImpl.Laws.{exact-law as id_decides};
    ghost use Rattle.gate_rpc.specs.contracts.result.RpcResultExact.TheImpl.Laws.{exact-law as result_decides};
    ghost use Rattle.gate_rpc.specs.contracts.error.RpcErrorExact.TheImpl.Laws.{exact-law as error_decides};
    ghost use Rattle.gate_rpc.specs.contracts.reply.RpcReply.{enum};
    ghost use Rattle.gate_bytes.specs.Equality.{enum_decides, ◌or◌, ◌&◌, none_decides, last_decides};

    ghost exact = { enum_decides enum _ (none_decides or id_decides & last_decides result_decides or id_decides & last_decides error_decides or tt) };
}
