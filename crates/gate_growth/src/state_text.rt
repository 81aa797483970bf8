//! What is seen of a state, as text.
use crate::chain_text::{push_chain, push_coin, push_named};
use crate::colliding::Colliding;
use crate::events::Events;
use crate::pool_text::push_pool;
use gate_bytes::Memory;
use gate_core::{Session, State, Switches, submission};
use gate_message::{Caller, Event, Reply};
use gate_submission::Prepared;
use gate_tx::Coin;
use std::alloc::Global;

pub(crate) fn push_reply(alloc: Global, text: &mut String, reply: &Reply) -> Result<(), Memory> {
    reply.push_text(alloc, text)?;
    text.push('\n')?;
    Ok(())
}

/// The floor and the budget.
fn push_limits(text: &mut String, floor: u64, budget: u64) -> Result<(), Memory> {
    write!(text, "floor {floor}\nbudget {budget}\n")?;
    Ok(())
}

/// What the operator may turn on and off.
fn push_switches(text: &mut String, switches: &Switches) -> Result<(), Memory> {
    let Switches {
        bloom,
        upload,
        historic,
        download,
    } = *switches;
    write!(text, "switches {bloom} {upload} {historic} {download}\n")?;
    Ok(())
}

fn push_each_coin(text: &mut String, coins: &[Option<Coin>]) -> Result<(), Memory> {
    for coin in coins {
        push_coin(text, coin.as_ref())?;
    }
    Ok(())
}

/// The coin of each input of a submission.
fn push_coins(
    alloc: Global,
    text: &mut String,
    state: &State<Colliding>,
    submission: &Prepared,
) -> Result<(), Memory> {
    let coins = state.coins(alloc, submission)?;
    push_each_coin(text, coins.as_slice())
}

fn push_session(alloc: Global, text: &mut String, session: &Option<Session>) -> Result<(), Memory> {
    let Some(session) = session else {
        text.push_str("no session\n")?;
        return Ok(());
    };
    let (is_open, rate) = (session.is_open, session.rate);
    let flags = session.flags.text(alloc)?;
    write!(text, "session {is_open} {rate} {flags}\n")?;
    Ok(())
}

/// The coin of each input of an event's submission, what an event of the chain names, and the session of the peer whose
/// event it is.
fn push_event(
    alloc: Global,
    text: &mut String,
    state: &State<Colliding>,
    event: &Event,
) -> Result<(), Memory> {
    if let Some(submission) = submission(event) {
        push_coins(alloc, text, state, submission)?;
    }
    push_named(text, state, event)?;
    if let Caller::Peer(peer) = event.caller(alloc)? {
        push_session(alloc, text, &state.session(peer))?;
    }
    Ok(())
}

fn push_events(
    alloc: Global,
    text: &mut String,
    state: &State<Colliding>,
    made: &[Event],
) -> Result<(), Memory> {
    for event in made {
        push_event(alloc, text, state, event)?;
    }
    Ok(())
}

/// What a state replies to a question.
fn push_answer(
    alloc: Global,
    text: &mut String,
    state: &mut State<Colliding>,
    event: &Event,
) -> Result<(), Memory> {
    let reply = state.apply(alloc, event)?;
    push_reply(alloc, text, &reply)
}

/// What a state replies to the questions, one after another.
fn push_answers(
    alloc: Global,
    text: &mut String,
    state: &mut State<Colliding>,
    asked: &[Event],
) -> Result<(), Memory> {
    for event in asked {
        push_answer(alloc, text, state, event)?;
    }
    Ok(())
}

/// What a copy of a state replies to the questions.
fn push_copy(
    alloc: Global,
    text: &mut String,
    state: &State<Colliding>,
    asked: &[Event],
) -> Result<(), Memory> {
    let mut copy = state.copy(alloc)?;
    let pushed = push_answers(alloc, text, &mut copy, asked);
    drop(copy);
    pushed
}

/// What the text of a state has: its settings, chain and pool, the coins and the sessions of the events, and what a
/// copy of it replies to the questions.
pub(crate) fn push_state(
    alloc: Global,
    text: &mut String,
    state: &State<Colliding>,
    events: &Events,
) -> Result<(), Memory> {
    push_limits(text, state.floor().rate(), state.budget())?;
    push_switches(text, state.switches())?;
    push_chain(text, state.chain())?;
    push_pool(alloc, text, state.pool())?;
    push_events(alloc, text, state, events.made.as_slice())?;
    push_copy(alloc, text, state, events.asked.as_slice())
}

/// The text of a state.
pub(crate) fn state_text(
    alloc: Global,
    state: &State<Colliding>,
    events: &Events,
) -> Result<String, Memory> {
    let mut text = String::new(alloc);
    push_state(alloc, &mut text, state, events)?;
    Ok(text)
}
