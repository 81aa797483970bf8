//! Why a text is no request.
ghost use Rattle.std.specs.Prelude.{◌≡◌};
ghost use Rattle.std.specs.Option.{option_map};
ghost use Rattle.gate_rpc.specs.declared.fault.RpcFault.TheVariants.{Memory as OutOfMemory, Call};

use crate::error::RpcError;
use crate::id::Id;
use crate::method::Method;
use crate::reply::RpcReply;
use gate_bytes::{Copied, Exact, Memory, Text};
use std::alloc::Global;
use thiserror::Error;

/// The first fault of a text that is no request, in the order of the variants.
#[derive(Debug, Drop, PartialEq, Eq)]
pub enum CallError {
    /// The text is no JSON.
    ParseError,
    /// The JSON is no object, its method is no text, or it has an id that is neither `null`, a text nor a whole number
    /// of 64 bits.
    InvalidRequest,
    /// There is no such method.
    MethodNotFound { id: Id, method: Text },
    /// The method doesn't take these parameters.
    InvalidParams { id: Id, method: Method },
}

impl CallError {
    ghost use Rattle.gate_rpc.specs.Faults.{called_name, reply_of};

    /// The name of the method that was called, if one was read.
    pub fn method(&self) -> Option<&str>
        ensures { option_map (λ name. name.now) result ≡ called_name self.now }
    {
        match self {
            CallError::MethodNotFound { method, .. } => Some(method.as_str()),
            CallError::InvalidParams { method, .. } => Some(method.name()),
            _ => None,
        }
    }

    /// The answer to the call, which has its status, its code and its id.
    pub fn into_reply(self) -> RpcReply
        ensures { result ≡ reply_of self }
    {
        match self {
            CallError::ParseError => RpcReply::Failure {
                id: Id::Null,
                error: RpcError::ParseError,
            },
            CallError::InvalidRequest => RpcReply::Failure {
                id: Id::Null,
                error: RpcError::InvalidRequest,
            },
            CallError::MethodNotFound { id, .. } => RpcReply::Failure {
                id,
                error: RpcError::MethodNotFound,
            },
            CallError::InvalidParams { id, .. } => RpcReply::Failure {
                id,
                error: RpcError::InvalidParams,
            },
        }
    }
}

impl Copied for CallError {
    fn copy(&self, alloc: Global) -> Result<CallError, Memory> {
        match self {
            CallError::ParseError => Ok(CallError::ParseError),
            CallError::InvalidRequest => Ok(CallError::InvalidRequest),
            CallError::MethodNotFound { id, method } => Ok(CallError::MethodNotFound {
                id: id.copy(alloc)?,
                method: method.copy(alloc)?,
            }),
            CallError::InvalidParams { id, method } => Ok(CallError::InvalidParams {
                id: id.copy(alloc)?,
                method: *method,
            }),
        }
    }
}

/// Why a text was not read as a request.
#[derive(Debug, Drop, PartialEq, Eq, Error)]
pub enum RpcFault {
    #[error("out of memory")]
    Memory,
    #[error("no request")]
    Call(CallError),
}

impl From<Memory> for RpcFault {
    ghost from_gives = { λ _ fault. fault ≡ OutOfMemory };

    fn from(_e: Memory) -> RpcFault {
        RpcFault::Memory
    }
}

impl From<CallError> for RpcFault {
    ghost from_gives = { λ error fault. fault ≡ Call error };

    fn from(error: CallError) -> RpcFault {
        RpcFault::Call(error)
    }
}

impl Exact for CallError {
    ghost use Rattle.std.proofs.lemmas.Slice.Eq.{bytes_eq-Decides};
    ghost use Rattle.gate_rpc.specs.contracts.id.IdExact.TheImpl.Laws.{exact-law as id_decides};
    ghost use Rattle.gate_rpc.specs.contracts.method.MethodExact.TheImpl.Laws.{exact-law as method_decides};
    ghost use Rattle.gate_rpc.specs.contracts.fault.CallError.{enum};
    ghost use Rattle.gate_bytes.specs.Equality.{enum_decides, ◌or◌, ◌&◌, none_decides, last_decides};

    ghost exact = { enum_decides enum _ (none_decides or none_decides
        or id_decides & last_decides bytes_eq-Decides or id_decides & last_decides method_decides or tt) };
}
