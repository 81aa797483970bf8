//! The text of each event: its line, without the newline.
ghost use Rattle.std.specs.Prelude.{◌≡◌, IfOk, string_bytes};
ghost use Rattle.gate_events.specs.EventTexts.{call_text, on_word, package_text, switch_text, switch_word, text_of, transaction_word, tx_text};

use crate::chain_printing::chain_event_text;
use gate_bytes::Memory;
use gate_message::{Call, Event, Switch};
use gate_submission::Prepared;
use std::alloc::Global;

/// The line that spells the event, without its newline: hex in lower case, `-` for what spelled no transaction or no block,
/// an IPv6 address as eight groups, JSON as it was read.
pub fn event_text(alloc: Global, event: &Event) -> Result<String, Memory>
    ensures { IfOk result (λ text. string_bytes text ≡ text_of event.now) }
{
    match event {
        Event::Enter { peer, address } => Ok(format!(in alloc; "peer {peer} enter {address}")?),
        Event::Leave { peer } => Ok(format!(in alloc; "peer {peer} leave")?),
        Event::Tx {
            peer,
            now,
            transaction,
        } => tx_text(alloc, *peer, *now, transaction),
        Event::Package {
            peer,
            now,
            parent,
            child,
        } => package_text(alloc, *peer, *now, parent, child),
        Event::Mempool { peer } => Ok(format!(in alloc; "peer {peer} mempool")?),
        Event::GetBlock { peer, height } => Ok(format!(in alloc; "peer {peer} getblock {height}")?),
        Event::Headers { peer, height } => Ok(format!(in alloc; "peer {peer} headers {height}")?),
        Event::FeeFilter { peer, rate } => Ok(format!(in alloc; "peer {peer} feefilter {rate}")?),
        Event::Rpc(call) => call_text(alloc, call.get()),
        Event::SetFloor { rate } => Ok(format!(in alloc; "operator floor {rate}")?),
        Event::Set { switch, on } => switch_text(alloc, *switch, *on),
        Event::Chain(event) => chain_event_text(alloc, event),
    }
}

fn tx_text(alloc: Global, peer: u64, now: u64, transaction: &Prepared) -> Result<String, Memory>
    ensures { IfOk result (λ text. string_bytes text ≡ tx_text peer now transaction.now) }
{
    let word = transaction_word(alloc, transaction)?;
    Ok(format!(in alloc; "peer {peer} tx {now} {word}")?)
}

fn package_text(
    alloc: Global,
    peer: u64,
    now: u64,
    parent: &Prepared,
    child: &Prepared,
) -> Result<String, Memory>
    ensures { IfOk result (λ text. string_bytes text ≡ package_text peer now parent.now child.now) }
{
    let parent = transaction_word(alloc, parent)?;
    let child = transaction_word(alloc, child)?;
    Ok(format!(in alloc; "peer {peer} package {now} {parent} {child}")?)
}

fn transaction_word(alloc: Global, transaction: &Prepared) -> Result<String, Memory>
    ensures { IfOk result (λ word. string_bytes word ≡ transaction_word transaction.now) }
{
    match transaction.transaction() {
        Some(transaction) => {
            let bytes = transaction.write_tx(alloc)?;
            Ok(hex::encode(alloc, bytes.as_slice())?)
        }
        None => Ok(String::from_str(alloc, "-")?),
    }
}

fn call_text(alloc: Global, call: &Call) -> Result<String, Memory>
    ensures { IfOk result (λ text. string_bytes text ≡ call_text call.now) }
{
    let user = call.user();
    let now = call.time();
    let json = call.json();
    Ok(format!(in alloc; "user {user} rpc {now} {json}")?)
}

fn switch_text(alloc: Global, switch: Switch, on: bool) -> Result<String, Memory>
    ensures { IfOk result (λ text. string_bytes text ≡ switch_text switch on) }
{
    let name = switch_word(switch);
    let word = on_word(on);
    Ok(format!(in alloc; "operator {name} {word}")?)
}

fn switch_word(switch: Switch) -> &'static str
    ensures { result.now ≡ switch_word switch }
{
    match switch {
        Switch::Bloom => "bloom",
        Switch::Upload => "upload",
        Switch::Historic => "historic",
        Switch::Download => "ibd",
    }
}

fn on_word(on: bool) -> &'static str
    ensures { result.now ≡ on_word on }
{
    if on { "on" } else { "off" }
}
