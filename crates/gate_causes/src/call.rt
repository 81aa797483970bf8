//! What is wrong with a user's call.
ghost use Rattle.std.specs.Prelude.{◌≡◌, IfOk, is_none};
ghost use Rattle.std.specs.Result.{is_ok};
ghost use Rattle.gate_rpc.specs.Calls.{request_of};

use crate::expected::fit_cause;
use crate::forms::{Forms, METHODS};
use gate_bytes::Memory;
use gate_message::Call;
use gate_rpc::CallError;
use std::alloc::Global;

/// What the params of a method may be.
fn params_of(method: &str) -> &'static str {
    for form in &METHODS {
        if let Some((name, params)) = form.split_once(' ') {
            if name == method {
                return params;
            }
        }
    }
    "others"
}

/// Why the text of a call asks for nothing, or `None` exactly if it asks for something.
pub fn call_cause(alloc: Global, call: &Call) -> Result<Option<String>, Memory>
    ensures { IfOk result (λ cause. is_none cause ≡ is_ok (request_of call.now.json)) }
{
    let Err(error) = call.request() else {
        return Ok(None);
    };
    Ok(Some(match error {
        CallError::ParseError => String::from_str(
            alloc,
            "the call is not valid JSON; its texts stand between double quotes",
        )?,
        CallError::InvalidRequest => String::from_str(
            alloc,
            "a call is an object with a method and a list of params",
        )?,
        CallError::MethodNotFound { method, .. } => {
            let cause = fit_cause(alloc, method.as_str(), Forms::of(&METHODS))?;
            format!(in alloc; "there is no such method: {cause}")?
        }
        CallError::InvalidParams { method, .. } => {
            let name = method.name();
            format!(in alloc;
                "{name} does not take these params; expected {}",
                params_of(name)
            )?
        }
    }))
}
