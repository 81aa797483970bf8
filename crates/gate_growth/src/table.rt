//! What is under the lock of a gate, with the passes that were given out.
ghost use Rattle.std.specs.Prelude.{◌≡◌, ◌≤◌};

use crate::colliding::Colliding;
use crate::events::Events;
use crate::fault::Fault;
use crate::state_text::{push_reply, push_state};
use gate_bytes::Memory;
use gate_core::State;
use gate_events::event_text;
use gate_journal::{Entry, Journal};
use gate_message::{Caller, Event};
use gate_shared::{Base, Made, Pass, Register, Rest, Seat, Shared};
use std::alloc::Global;

/// The most passes that are given out.
const MOST_PASSES: u64 = 1_000_000;

#[derive(Drop)]
pub(crate) struct Table<N: Base> {
    pub(crate) passes: Vec<Pass<N>>,
    pub(crate) shared: Shared<N, Colliding>,
    pub(crate) rest: Rest<N>,
    /// How many more passes may be given out.
    pub(crate) more: u64,
    ghost seated: { more ≤ rest },
}

impl<N: Base> Table<N> {
    pub(crate) fn open(alloc: Global, state: State<Colliding>, register: Register) -> Table<N>
        requires base { state ≡ N.base }
        requires registry { register ≡ N.registry }
    {
        let (shared, rest) = Shared::new(alloc, state, register);
        Table {
            passes: Vec::new(alloc),
            shared,
            rest,
            more: MOST_PASSES,
        }
    }

    /// A seat.
    pub(crate) fn seat(&mut self) -> Result<Seat<N>, Fault> {
        if self.more == 0 {
            return Err(Fault::Call);
        }
        self.more -= 1;
        Ok(self.shared.seat(&mut self.rest))
    }
}

/// Makes an event under a pass.
fn apply_quietly<N: Base>(
    alloc: Global,
    shared: &mut Shared<N, Colliding>,
    pass: &mut Pass<N>,
    event: &Event,
) -> Result<(), Fault> {
    match shared.apply(alloc, pass, event) {
        Ok(receipt) => {
            drop(receipt);
            Ok(())
        }
        Err(fault) => {
            drop(fault);
            Err(Fault::Call)
        }
    }
}

/// The pass of a caller that makes one event.
fn called<N: Base>(
    alloc: Global,
    shared: &mut Shared<N, Colliding>,
    seat: Seat<N>,
    caller: &Caller,
    event: &Event,
) -> Result<Pass<N>, Fault> {
    let mut pass = match shared.enroll(alloc, seat, caller) {
        Ok(pass) => pass,
        Err(seat) => {
            drop(seat);
            return Err(Fault::from(Memory));
        }
    };
    match apply_quietly(alloc, shared, &mut pass, event) {
        Ok(()) => Ok(pass),
        Err(fault) => {
            drop(pass);
            Err(fault)
        }
    }
}

/// Makes an event under a pass of its own.
fn make_one<N: Base>(alloc: Global, table: &mut Table<N>, event: &Event) -> Result<(), Fault> {
    let caller = event.caller(alloc)?;
    let seat = table.seat()?;
    let pass = called(alloc, &mut table.shared, seat, &caller, event)?;
    table.passes.push(pass)?;
    Ok(())
}

/// Makes each event under a pass of its own.
pub(crate) fn make_each<N: Base>(
    alloc: Global,
    table: &mut Table<N>,
    events: &[Event],
) -> Result<(), Fault> {
    for event in events {
        make_one(alloc, table, event)?;
    }
    Ok(())
}

fn push_event(alloc: Global, text: &mut String, event: &Event) -> Result<(), Memory> {
    let line = event_text(alloc, event)?;
    text.push_str(line.as_str())?;
    text.push(' ')?;
    Ok(())
}

fn push_entry(alloc: Global, text: &mut String, entry: &Entry) -> Result<(), Memory> {
    write!(text, "{} ", entry.pass)?;
    push_event(alloc, text, &entry.event)?;
    push_reply(alloc, text, &entry.reply)
}

fn push_journal(alloc: Global, text: &mut String, journal: &Journal) -> Result<(), Memory> {
    for entry in journal.entries() {
        push_entry(alloc, text, entry)?;
    }
    Ok(())
}

fn push_call(alloc: Global, text: &mut String, made: &Made) -> Result<(), Memory> {
    write!(text, "{} ", made.receipt.number)?;
    push_event(alloc, text, &made.event)?;
    push_reply(alloc, text, &made.receipt.reply)
}

fn push_calls(alloc: Global, text: &mut String, calls: &[Made]) -> Result<(), Memory> {
    for made in calls {
        push_call(alloc, text, made)?;
    }
    Ok(())
}

/// The number of a pass, and whose it is.
fn push_owner(text: &mut String, number: u64, caller: &Caller) -> Result<(), Memory> {
    write!(text, "pass {number} ")?;
    match caller {
        Caller::Peer(peer) => write!(text, "peer {peer}\n")?,
        Caller::User(name) => {
            let name = name.as_str();
            write!(text, "user {name}\n")?
        }
        Caller::Operator => text.push_str("operator\n")?,
        Caller::Chain => text.push_str("chain\n")?,
    }
    Ok(())
}

fn push_passes<N: Base>(
    alloc: Global,
    text: &mut String,
    passes: &[Pass<N>],
) -> Result<(), Memory> {
    for pass in passes {
        push_owner(text, pass.number(), pass.caller())?;
        push_calls(alloc, text, pass.calls())?;
    }
    Ok(())
}

/// How many passes were given out.
fn push_given(text: &mut String, count: u64) -> Result<(), Memory> {
    write!(text, "passes {count}\n")?;
    Ok(())
}

/// What the text of a gate and its passes has: state, journal, the passes given out, and their calls.
fn push_table<N: Base>(
    alloc: Global,
    text: &mut String,
    table: &Table<N>,
    events: &Events,
) -> Result<(), Memory> {
    push_state(alloc, text, table.shared.state(), events)?;
    push_journal(alloc, text, table.shared.journal())?;
    push_given(text, table.shared.passes())?;
    push_passes(alloc, text, table.passes.as_slice())
}

/// The text of a gate and its passes.
pub(crate) fn table_text<N: Base>(
    alloc: Global,
    table: &Table<N>,
    events: &Events,
) -> Result<String, Memory> {
    let mut text = String::new(alloc);
    push_table(alloc, &mut text, table, events)?;
    Ok(text)
}
