//! A call by RPC.
ghost use Rattle.std.specs.Prelude.{◌≡◌, IfOk};
ghost use Rattle.std.specs.List.{flat_map};
ghost use Rattle.std.specs.Option.{option_map, option_to_list};
ghost use Rattle.gate_rpc.specs.Calls.{request_of};
ghost use Rattle.gate_message.specs.Spelled.{offered, offered_by};
ghost use Rattle.gate_message.specs.UserCalls.{called, name_called};

use gate_bytes::{Copied, Exact, Memory, Text};
use gate_rpc::{CallError, Command, Request, RpcFault};
use gate_submission::{Prepared, recall_texts};
use std::alloc::Global;
use std::marker::Model;

/// What a user asks by RPC: contracts see the user's name, the second of the call, and its JSON. What the JSON asks for is
/// read once, when the call is made.
#[derive(Drop)]
pub struct Call {
    user: Text,
    time: u64,
    json: Text,
    request: Result<Request, CallError>,
}

impl Model for Call {
    ghost use Rattle.std.specs.Prelude.{◌≡◌};
    ghost use Rattle.gate_rpc.specs.Calls.{request_of};
    ghost use Rattle.gate_message.specs.UserCalls.{UserCall, called};

    ghost Value = { UserCall };

    ghost view = { λ c. called c.user c.time c.json };

    ghost invariant = { λ c. c.request ≡ request_of c.json };
}

fn kept(alloc: Global, text: &str) -> Result<Text, Memory>
    ensures { IfOk result (λ copy. copy ≡ text.now) }
{
    Ok(Text::from_string(String::from_str(alloc, text)?))
}

/// What a text of JSON asks for, or the first fault in it.
fn read_request(alloc: Global, json: &str) -> Result<Result<Request, CallError>, Memory>
    ensures { IfOk result (λ request. request ≡ request_of json.now) }
{
    match Command::read(alloc, json) {
        Ok(request) => Ok(Ok(request)),
        Err(RpcFault::Call(error)) => Ok(Err(error)),
        Err(RpcFault::Memory) => Err(Memory),
    }
}

impl Call {
    /// The call of a user at this second, whatever the JSON is.
    pub fn read(alloc: Global, user: &str, now: u64, json: &str) -> Result<Call, Memory>
        ensures { IfOk result (λ call. call ≡ called user.now now json.now) }
    {
        Ok(Call {
            user: kept(alloc, user)?,
            time: now,
            json: kept(alloc, json)?,
            request: read_request(alloc, json)?,
        })
    }

    pub fn user(&self) -> &str
        ensures { result.now ≡ self.now.user }
    {
        self.user.as_str()
    }

    /// In seconds since 1970.
    pub fn time(&self) -> u64
        ensures { result ≡ self.now.time }
    {
        self.time
    }

    pub fn json(&self) -> &str
        ensures { result.now ≡ self.now.json }
    {
        self.json.as_str()
    }

    /// What the JSON asks for, or the first fault in it.
    pub fn request(&self) -> &Result<Request, CallError>
        ensures { result.now ≡ request_of self.now.json }
    {
        &self.request
    }

    /// The name of the method that is called, if one was read.
    pub fn method(&self) -> Option<&str>
        ensures { option_map (λ name. name.now) result ≡ name_called (request_of self.now.json) }
    {
        match &self.request {
            Ok(request) => Some(request.command.method().name()),
            Err(error) => error.method(),
        }
    }
}

impl Call {
    ghost use Rattle.std.specs.Prelude.{Contains};
    ghost use Rattle.gate_tx.specs.Text.{IsTx};
    ghost use Rattle.gate_tx.specs.Tx.{Tx};

    /// Recalls for a proof that each transaction that the call sends has a text: it does nothing.
    pub(crate) fn recall_spelled(&self)
        ensures { (tx : Tx) → Contains (offered (request_of self.now.json)) tx → IsTx tx }
    {
        recall_texts(submissions_of(&self.request));
    }
}

/// The submissions that a command offers to the pool.
fn offered_by(command: &Command) -> &[Prepared]
    ensures { flat_map option_to_list result.now ≡ offered_by command.now }
{
    match command {
        Command::SendRawTransaction(transaction) => std::slice::from_ref(transaction),
        Command::SubmitPackage(call) => call.members.as_slice(),
        _ => &[],
    }
}

/// The submissions that a call offers to the pool: none if it asks for nothing that there is.
fn submissions_of(request: &Result<Request, CallError>) -> &[Prepared]
    ensures { flat_map option_to_list result.now ≡ offered request.now }
{
    match request {
        Ok(request) => offered_by(&request.command),
        Err(_) => &[],
    }
}

fn copy_request(
    alloc: Global,
    request: &Result<Request, CallError>,
) -> Result<Result<Request, CallError>, Memory>
    ensures { IfOk result (λ copy. copy ≡ request.now) }
{
    match request {
        Ok(request) => Ok(Ok(request.copy(alloc)?)),
        Err(error) => Ok(Err(error.copy(alloc)?)),
    }
}

impl Copied for Call {
    fn copy(&self, alloc: Global) -> Result<Call, Memory> {
        Ok(Call {
            user: self.user.copy(alloc)?,
            time: self.time,
            json: self.json.copy(alloc)?,
            request: copy_request(alloc, &self.request)?,
        })
    }
}

/// Calls are equal if their users, seconds and JSON are: they then ask for the same.
impl PartialEq for Call {
    ghost use Rattle.gate_message.specs.Equality.{call_eq, call_decides};
    ghost use Rattle.gate_tx.specs.Equality.{deciding};

    ghost eq = { call_eq };

    ghost laws = { deciding call_decides };

    fn eq(&self, other: &Call) -> bool {
        self.time == other.time && self.user == other.user && self.json == other.json
    }
}

impl Eq for Call {
    ghost use Rattle.gate_message.specs.Equality.{call_decides};
    ghost use Rattle.gate_tx.specs.Equality.{deciding_all};

    ghost laws = { deciding_all call_decides };
}

impl Exact for Call {
    ghost use Rattle.gate_message.specs.Equality.{call_decides};

    ghost exact = { call_decides };
}
