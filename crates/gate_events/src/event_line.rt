//! The event that a line spells.
ghost use Rattle.std.specs.Prelude.{◌≡◌, IfOk, MatchOption, None, Some};
ghost use Rattle.gate_events.specs.EventLines.{line_event, event_of, numbered_of, peer_event_of, worded_event, enter_event_of, tx_event_of, package_event_of, user_event_of, call_event_of, chain_event_of, blocks_event_of, timed_blocks_of, operator_event_of, switch_event_of, switch_of, is_on_of, prepared_of};

use crate::chain_line::blocks_in;
use crate::hexadecimal::decode;
use gate_bytes::{Counted, Kept, Memory};
use gate_chain::Block;
use gate_lines::{is_one_word, next_word, read_number, read_small_number};
use gate_message::{Call, ChainEvent, Event, Switch};
use gate_net::Address;
use gate_submission::Prepared;
use gate_words::{read_coin, read_row};
use std::alloc::Global;

/// The event that the bytes of a line spell, without its newline; bytes that are not UTF-8 spell none.
pub fn event_on(alloc: Global, line: &[u8]) -> Result<Option<Event>, Memory>
    ensures { IfOk result (λ event. event ≡ line_event line.now) }
{
    match std::str::from_utf8(line) {
        Ok(text) => read_event(alloc, text),
        Err(_) => Ok(None),
    }
}

/// The event that a line spells, or `None` if it has no form.
pub fn read_event(alloc: Global, line: &str) -> Result<Option<Event>, Memory>
    ensures { IfOk result (λ event. event ≡ event_of line.now) }
{
    match next_word(line) {
        Some((caller, rest)) => if caller == "peer" {
            peer_event(alloc, rest)
        } else if caller == "user" {
            user_event(alloc, rest)
        } else if caller == "chain" {
            Ok(chain_event(alloc, rest)?.map(Event::Chain))
        } else if caller == "operator" {
            Ok(operator_event(rest))
        } else {
            Ok(None)
        },
        None => Ok(None),
    }
}

/// `P leave`, `P mempool`, `P enter ADDRESS`, `P tx NOW HEX`, `P package NOW HEX HEX`, `P getblock H`, `P headers H` or `P feefilter RATE`.
fn peer_event(alloc: Global, rest: &str) -> Result<Option<Event>, Memory>
    ensures { IfOk result (λ event. event ≡ peer_event_of rest.now) }
{
    let Some((peer, what)) = numbered(rest) else {
        return Ok(None);
    };
    if what == "leave" {
        return Ok(Some(Event::Leave { peer }));
    }
    if what == "mempool" {
        return Ok(Some(Event::Mempool { peer }));
    }
    match next_word(what) {
        Some((word, rest)) => worded_event(alloc, peer, word, rest),
        None => Ok(None),
    }
}

/// The event of a peer by its word and the text behind the word.
fn worded_event(alloc: Global, peer: u64, word: &str, rest: &str) -> Result<Option<Event>, Memory>
    ensures { IfOk result (λ event. event ≡ worded_event peer (word.now, rest.now)) }
{
    if word == "enter" {
        return Ok(enter_event(peer, rest));
    }
    if word == "tx" {
        return tx_event(alloc, peer, rest);
    }
    if word == "package" {
        return package_event(alloc, peer, rest);
    }
    if word == "getblock" {
        return Ok(read_small_number(rest).map(|height| Event::GetBlock { peer, height }));
    }
    if word == "headers" {
        return Ok(read_small_number(rest).map(|height| Event::Headers { peer, height }));
    }
    if word == "feefilter" {
        return Ok(read_number(rest).map(|rate| Event::FeeFilter { peer, rate }));
    }
    Ok(None)
}

/// `coin TXID INDEX VALUE HEIGHT plain|cb SCRIPT`, `verdict WTXID INPUT ok|soft|hard`, `forget N`, or blocks.
fn chain_event(alloc: Global, rest: &str) -> Result<Option<ChainEvent>, Memory>
    ensures { IfOk result (λ event. event ≡ chain_event_of rest.now) }
{
    let Some((word, behind)) = next_word(rest) else {
        return Ok(None);
    };
    if word == "coin" {
        return Ok(read_coin(alloc, behind)?.map(ChainEvent::LearnCoin));
    }
    if word == "verdict" {
        return Ok(read_row(behind).map(ChainEvent::LearnVerdict));
    }
    if word == "forget" {
        return Ok(read_number(behind).map(|blocks| ChainEvent::Forget { blocks }));
    }
    blocks_event(alloc, rest)
}

/// `D NOW`, or `D NOW BLOCKHEX ..`: whatever the words of hex are, the line is an event.
fn blocks_event(alloc: Global, rest: &str) -> Result<Option<ChainEvent>, Memory>
    ensures { IfOk result (λ event. event ≡ blocks_event_of rest.now) }
{
    let Some((disconnect, rest)) = numbered(rest) else {
        return Ok(None);
    };
    match timed_blocks(alloc, rest)? {
        Some((now, blocks)) => Ok(Some(ChainEvent::MoveTip {
            disconnect,
            now,
            blocks: Counted::new(alloc, blocks)?,
        })),
        None => Ok(None),
    }
}

/// `NOW`, or `NOW BLOCKHEX ..`.
fn timed_blocks(alloc: Global, text: &str) -> Result<Option<(u64, Kept<Option<Block>>)>, Memory>
    ensures { IfOk result (λ timed. timed ≡ timed_blocks_of text.now) }
{
    match next_word(text) {
        Some((word, words)) => {
            let Some(now) = read_number(word) else {
                return Ok(None);
            };
            match blocks_in(alloc, words)? {
                Some(blocks) => Ok(Some((now, blocks))),
                None => Ok(None),
            }
        }
        None => match read_number(text) {
            Some(now) => Ok(Some((now, Kept::from_vec(Vec::new(alloc))))),
            None => Ok(None),
        },
    }
}

/// A number, and the text after its space.
fn numbered(text: &str) -> Option<(u64, &str)>
    ensures { MatchOption result (numbered_of text.now ≡ None) (λ p. numbered_of text.now ≡ Some (p.0, p.1.now)) }
{
    let (number, rest) = next_word(text)?;
    Some((read_number(number)?, rest))
}

fn enter_event(peer: u64, address: &str) -> Option<Event>
    ensures { result ≡ enter_event_of peer address.now }
{
    let address = Address::parse(address)?;
    Some(Event::Enter { peer, address })
}

/// `NOW HEX`: whatever the word of hex is, the line is an event.
fn tx_event(alloc: Global, peer: u64, rest: &str) -> Result<Option<Event>, Memory>
    ensures { IfOk result (λ event. event ≡ tx_event_of peer rest.now) }
{
    let Some((now, text)) = numbered(rest) else {
        return Ok(None);
    };
    if !is_one_word(text) {
        return Ok(None);
    }
    let transaction = prepared(alloc, text)?;
    Ok(Some(Event::Tx {
        peer,
        now,
        transaction,
    }))
}

/// `NOW HEX HEX`: whatever the words of hex are, the line is an event.
fn package_event(alloc: Global, peer: u64, rest: &str) -> Result<Option<Event>, Memory>
    ensures { IfOk result (λ event. event ≡ package_event_of peer rest.now) }
{
    let Some((now, texts)) = numbered(rest) else {
        return Ok(None);
    };
    let Some((parent, child)) = next_word(texts) else {
        return Ok(None);
    };
    if parent.is_empty() || !is_one_word(child) {
        return Ok(None);
    }
    let parent = prepared(alloc, parent)?;
    match prepared(alloc, child) {
        Ok(child) => Ok(Some(Event::Package {
            peer,
            now,
            parent,
            child,
        })),
        Err(fault) => {
            drop(parent);
            Err(fault)
        }
    }
}

/// `NAME rpc NOW JSON`.
fn user_event(alloc: Global, rest: &str) -> Result<Option<Event>, Memory>
    ensures { IfOk result (λ event. event ≡ user_event_of rest.now) }
{
    let Some((user, rest)) = next_word(rest) else {
        return Ok(None);
    };
    if user.is_empty() {
        return Ok(None);
    }
    match next_word(rest) {
        Some((word, rest)) => if word == "rpc" {
            call_event(alloc, user, rest)
        } else {
            Ok(None)
        },
        None => Ok(None),
    }
}

/// `NOW JSON`: whatever stands behind the time, the line is an event.
fn call_event(alloc: Global, user: &str, rest: &str) -> Result<Option<Event>, Memory>
    ensures { IfOk result (λ event. event ≡ call_event_of user.now rest.now) }
{
    let Some((now, json)) = numbered(rest) else {
        return Ok(None);
    };
    if json.is_empty() {
        return Ok(None);
    }
    let call = Call::read(alloc, user, now, json)?;
    Ok(Some(Event::Rpc(Counted::new(alloc, call)?)))
}

/// `floor RATE`, or a switch with `on|off`.
fn operator_event(rest: &str) -> Option<Event>
    ensures { result ≡ operator_event_of rest.now }
{
    let (word, rest) = next_word(rest)?;
    if word == "floor" {
        let rate = read_number(rest)?;
        return Some(Event::SetFloor { rate });
    }
    switch_event(word, rest)
}

fn switch_event(word: &str, rest: &str) -> Option<Event>
    ensures { result ≡ switch_event_of word.now rest.now }
{
    let switch = switch_named(word)?;
    let on = is_on(rest)?;
    Some(Event::Set { switch, on })
}

fn switch_named(word: &str) -> Option<Switch>
    ensures { result ≡ switch_of word.now }
{
    if word == "bloom" {
        Some(Switch::Bloom)
    } else if word == "upload" {
        Some(Switch::Upload)
    } else if word == "historic" {
        Some(Switch::Historic)
    } else if word == "ibd" {
        Some(Switch::Download)
    } else {
        None
    }
}

fn is_on(text: &str) -> Option<bool>
    ensures { result ≡ is_on_of text.now }
{
    if text == "on" {
        Some(true)
    } else if text == "off" {
        Some(false)
    } else {
        None
    }
}

/// The transaction that a text of hex spells; a text that isn't hex spells none.
pub fn prepared(alloc: Global, text: &str) -> Result<Prepared, Memory>
    ensures { IfOk result (λ transaction. transaction ≡ prepared_of text.now) }
{
    match decode(alloc, text.as_bytes())? {
        Some(bytes) => Prepared::new(alloc, bytes.as_slice()),
        None => Ok(Prepared::undecodable()),
    }
}
