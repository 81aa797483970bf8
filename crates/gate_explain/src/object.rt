//! What is said of a reply, as a JSON object.
use crate::denied::call_fault;
use crate::sight::Sight;
use crate::told::Told;
use gate_bytes::Memory;
use gate_causes::Quoted;
use gate_core::State;
use gate_message::{Event, Reply};
use gate_tx::Txid;
use std::alloc::Global;
use std::hash::BuildHasher;

/// Appends a list of txids under this name, if it is not empty.
fn push_txids(text: &mut String, name: &str, txids: &[Txid]) -> Result<(), Memory> {
    if txids.is_empty() {
        return Ok(());
    }
    write!(text, ",\"{name}\":[")?;
    let mut before = "";
    for txid in txids {
        write!(text, "{before}\"{txid}\"")?;
        before = ",";
    }
    text.push(']')?;
    Ok(())
}

/// The object of a reply: if it says that a rule fails, its name, token and figures, and the entries that the transaction
/// has to do with; if it answers a call by another error, what is wrong with the call. Other replies have `None`.
pub(crate) fn reply_object<S: BuildHasher + Copy + Drop>(
    alloc: Global,
    line: u64,
    state: &State<S>,
    sight: &Sight,
    event: &Event,
    reply: &Reply,
) -> Result<Option<String>, Memory> {
    let Some(told) = Told::of_reply(sight, reply) else {
        let Some(fault) = call_fault(alloc, event, reply)? else {
            return Ok(None);
        };
        let error = Quoted(fault.as_str());
        return Ok(Some(format!(in alloc; "{{\"line\":{line},\"error\":{error}}}")?));
    };
    let mut text = format!(in alloc; "{{\"line\":{line}")?;
    told.push_fields(&mut text, state)?;
    if let Some(relatives) = &sight.relatives {
        push_txids(&mut text, "conflicts", relatives.conflicts.as_slice())?;
        push_txids(&mut text, "parents", relatives.parents.as_slice())?;
    }
    text.push('}')?;
    Ok(Some(text))
}

/// The object of a transaction of a list that would be denied: its number in the list, counted from 1, its txid, and the name,
/// token and figures of the rule.
pub(crate) fn listed_object<S: BuildHasher + Copy + Drop>(
    alloc: Global,
    line: u64,
    number: u64,
    txid: &Txid,
    state: &State<S>,
    told: &Told,
) -> Result<String, Memory> {
    let mut text = format!(in alloc;
        "{{\"line\":{line},\"transaction\":{number},\"denied\":\"{txid}\""
    )?;
    told.push_fields(&mut text, state)?;
    text.push('}')?;
    Ok(text)
}
