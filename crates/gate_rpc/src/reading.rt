//! Reading a call.
ghost use Rattle.std.specs.Prelude.{◌≡◌, IfOk};
ghost use Rattle.std.specs.Option.{option_map};
ghost use Rattle.serde_json.specs.View.{view};
ghost use Rattle.serde_json.specs.Read.{read};
ghost use Rattle.gate_rpc.specs.Calls.{Reads, ReadsValue, call_of, head_of, id_of, request_of};

use crate::fault::{CallError, RpcFault};
use crate::id::Id;
use crate::method::Method;
use crate::params::read_command;
use crate::request::{Command, Request};
use gate_bytes::{Memory, Text};
use serde_json::{Category, Value};
use std::alloc::Global;

impl Command {
    /// Reads the JSON of a call: an object with a `method`, `params` and an `id`, of which the last two may be absent.
    /// Other keys are ignored, and of equal keys the last counts.
    pub fn read(alloc: Global, json: &str) -> Result<Request, RpcFault>
        ensures { Reads result (request_of json.now) }
    {
        let call = read_value(alloc, json)?;
        read_call(alloc, &call)
    }
}

fn read_value(alloc: Global, json: &str) -> Result<Value, RpcFault>
    ensures { ReadsValue result (read json.now) }
{
    match Value::from_str(alloc, json) {
        Ok(value) => Ok(value),
        Err(error) => match error.classify() {
            Category::Memory => Err(RpcFault::Memory),
            _ => Err(RpcFault::Call(CallError::ParseError)),
        },
    }
}

fn read_call(alloc: Global, call: &Value) -> Result<Request, RpcFault>
    ensures { Reads result (call_of (view call.now)) }
{
    let Some((id, name)) = read_head(alloc, call)? else {
        return Err(RpcFault::Call(CallError::InvalidRequest));
    };
    let Some(method) = Method::named(name.as_str()) else {
        return Err(RpcFault::Call(CallError::MethodNotFound { id, method: name }));
    };
    match read_command(alloc, method, call.get("params"))? {
        Some(command) => Ok(Request { id, command }),
        None => Err(RpcFault::Call(CallError::InvalidParams { id, method })),
    }
}

/// The id of a call and the name of its method; `None` if one of them is not valid.
fn read_head(alloc: Global, call: &Value) -> Result<Option<(Id, Text)>, Memory>
    ensures { IfOk result (λ head. head ≡ head_of (view call.now)) }
{
    let Some(id) = read_id(alloc, call.get("id"))? else {
        return Ok(None);
    };
    match call.get("method") {
        Some(method) => match method.as_str() {
            Some(name) => Ok(Some((id, kept(alloc, name)?))),
            None => Ok(None),
        },
        None => Ok(None),
    }
}

fn read_id(alloc: Global, id: Option<&Value>) -> Result<Option<Id>, Memory>
    ensures { IfOk result (λ read. read ≡ id_of (option_map (λ v. view v.now) id.entry)) }
{
    let Some(id) = id else {
        return Ok(Some(Id::Null));
    };
    if id.is_null() {
        return Ok(Some(Id::Null));
    }
    if let Some(text) = id.as_str() {
        return Ok(Some(Id::Text(kept(alloc, text)?)));
    }
    if let Some(number) = id.as_u64() {
        return Ok(Some(Id::Unsigned(number)));
    }
    match id.as_i64() {
        Some(number) => Ok(Some(Id::Signed(number))),
        None => Ok(None),
    }
}

fn kept(alloc: Global, text: &str) -> Result<Text, Memory>
    ensures { IfOk result (λ copy. copy ≡ text.now) }
{
    Ok(Text::from_string(String::from_str(alloc, text)?))
}
