//! A program of the tests, no part of the product: calls at a gate, each between two marks.
//!
//! Standard input has an opening, a line `---`, events, a line `---`, and questions, which are events too. The events
//! are made, the last of them by a call of each kind. A call is made between the lines `> NAME` and `< NAME`, each of
//! which is out at once, so that a test can refuse growths of memory between them. What the call gave follows, or
//! `fault memory`, and then `unchanged` or `changed`: whether all that was lent to the call has the same text as
//! before. If memory ran out, the call is made once more. The words `step`, `calls`, `settle` and `finish` ask for
//! calls of these kinds alone.
#![tactic(auto)]

mod calls;
mod chain_text;
mod colliding;
mod end;
mod events;
mod fault;
mod pool_text;
mod state_text;
mod step;
mod table;
mod telling;

use crate::calls::{call_last, settle_all};
use crate::colliding::Colliding;
use crate::end::finish_all;
use crate::events::{Events, read_events};
use crate::fault::Fault;
use crate::step::step_last;
use gate_core::State;
use gate_lines::Source;
use gate_opening::read_opening;
use gate_shared::Register;
use std::alloc::Global;
use std::env;
use std::io::{BufReader, Print};
use std::marker::Brand;
use std::rt::Env;

/// A kind of calls, each with the word that asks for it.
#[derive(Clone, Copy)]
enum Kind {
    Step,
    Calls,
    Settle,
    Finish,
}

impl Kind {
    fn word(self) -> &'static str {
        match self {
            Kind::Step => "step",
            Kind::Calls => "calls",
            Kind::Settle => "settle",
            Kind::Finish => "finish",
        }
    }
}

const KINDS: [Kind; 4] = [Kind::Step, Kind::Calls, Kind::Settle, Kind::Finish];

/// The words behind the program's name.
fn words(rt: &(impl Env + AllocGlobal)) -> Result<Vec<String>, Fault> {
    Ok(env::args(rt)?.skip(1).collect(rt.alloc())?)
}

/// Whether a kind of calls is asked for.
fn asks(words: &[String], kind: Kind) -> bool {
    words.is_empty() || words.iter().any(|word| word.as_str() == kind.word())
}

/// Makes a step over a copy of the state.
fn step_copy<R: Print>(
    rt: &R,
    alloc: Global,
    state: &State<Colliding>,
    events: &Events,
) -> Result<(), Fault> {
    let mut copy = state.copy(alloc)?;
    let made = step_last(rt, alloc, &mut copy, events);
    drop(copy);
    made
}

/// Makes the calls of a kind over a copy of the state.
fn make<R: Print>(
    rt: &R,
    alloc: Global,
    kind: Kind,
    state: &State<Colliding>,
    events: &Events,
) -> Result<(), Fault> {
    match kind {
        Kind::Step => step_copy(rt, alloc, state, events),
        Kind::Calls => call_last::<Brand, _>(
            rt,
            alloc,
            Register::new(alloc)?,
            state.copy(alloc)?,
            events,
        ),
        Kind::Settle => settle_all::<Brand, _>(
            rt,
            alloc,
            Register::new(alloc)?,
            state.copy(alloc)?,
            events,
        ),
        Kind::Finish => finish_all::<Brand, _>(
            rt,
            alloc,
            Register::new(alloc)?,
            state.copy(alloc)?,
            events,
        ),
    }
}

/// Makes the calls that are asked for.
fn run<R: Print>(
    rt: &R,
    alloc: Global,
    words: &[String],
    state: &State<Colliding>,
    events: &Events,
) -> Result<(), Fault> {
    for kind in KINDS {
        if asks(words, kind) {
            make(rt, alloc, kind, state, events)?;
        }
    }
    Ok(())
}

/// Reads the state of an opening and the events behind it, and makes the calls.
fn answer<R: Print, I: Source>(
    rt: &R,
    alloc: Global,
    words: &[String],
    reader: &mut I,
) -> Result<(), Fault> {
    let mut events = Events::new(alloc);
    let state = read_opening(alloc, Colliding, reader)?;
    let made = match read_events(alloc, reader, &mut events) {
        Ok(()) => run(rt, alloc, words, &state, &events),
        Err(fault) => Err(fault),
    };
    drop(state);
    made
}

fn main(rt: HostRuntime) -> Result<(), Fault> {
    let alloc = rt.alloc();
    let words = words(&rt)?;
    let mut reader = BufReader::new(alloc, rt.reader())?;
    answer(&rt, alloc, words.as_slice(), &mut reader)
}
