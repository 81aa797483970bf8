//! The errors of calls.
ghost use Rattle.std.specs.Prelude.{◌≡◌};
ghost use Rattle.gate_rpc.specs.Replies.{status_of, code_of, message_of};

use gate_bytes::Exact;
use gate_rules::PackageDenial;
use gate_standard::Denial;

/// Why a call has no result, as its answer says it: by the codes of JSON-RPC 2.0 and of Bitcoin Core 22.0.
#[derive(Clone, Copy, PartialEq, Eq)]
pub enum RpcError {
    ParseError,
    InvalidRequest,
    MethodNotFound,
    InvalidParams,
    /// The pool has no transaction of the txid that the call names.
    NotInMempool,
    /// The transaction fails a rule of admission.
    Denied(Denial),
    /// The package fails a rule on packages before its members are judged.
    PackageDenied(PackageDenial),
}

impl RpcError {
    /// The HTTP status of an answer with this error.
    pub fn status(&self) -> u16
        ensures { result ≡ status_of self.now }
    {
        match self {
            RpcError::InvalidRequest => 400,
            RpcError::MethodNotFound => 404,
            _ => 500,
        }
    }

    pub fn code(&self) -> i64
        ensures { result ≡ code_of self.now }
    {
        match self {
            RpcError::ParseError => -32_700,
            RpcError::InvalidRequest => -32_600,
            RpcError::MethodNotFound => -32_601,
            RpcError::InvalidParams => -32_602,
            RpcError::NotInMempool => -5,
            RpcError::Denied(Denial::Decode) => -22,
            RpcError::Denied(Denial::MissingOrSpent) => -25,
            RpcError::Denied(_) => -26,
            RpcError::PackageDenied(_) => -25,
        }
    }

    pub fn message(&self) -> &'static str
        ensures { result.now ≡ message_of self.now }
    {
        match self {
            RpcError::ParseError => "Parse error",
            RpcError::InvalidRequest => "Invalid Request",
            RpcError::MethodNotFound => "Method not found",
            RpcError::InvalidParams => "Invalid params",
            RpcError::NotInMempool => "Transaction not in mempool",
            RpcError::Denied(denial) => denial.row().token,
            RpcError::PackageDenied(denial) => denial.row().token,
        }
    }
}

impl Exact for RpcError {
    ghost use Rattle.gate_rules.specs.contracts.denial.Denial.{enum as denials};
    ghost use Rattle.gate_rules.specs.contracts.package.PackageDenial.{enum as package_denials};
    ghost use Rattle.gate_rpc.specs.contracts.error.RpcError.{enum};
    ghost use Rattle.gate_bytes.specs.Equality.{enum_decides, ◌or◌, none_decides, last_decides, bare_decides};

    ghost exact = { enum_decides enum _ (none_decides or none_decides or none_decides or none_decides or none_decides
        or last_decides (bare_decides denials tt) or last_decides (bare_decides package_denials tt) or tt) };
}
