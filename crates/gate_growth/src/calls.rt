//! The calls that don't end the gate.
ghost use Rattle.std.specs.Prelude.{◌≡◌};

use crate::colliding::Colliding;
use crate::events::Events;
use crate::fault::Fault;
use crate::table::{Table, make_each, table_text};
use crate::telling::{tell_call, tell_change, tell_count, tell_look, tell_pass, tell_unmade};
use gate_core::State;
use gate_message::{Caller, Event};
use gate_shared::{Base, Pass, Register, Seat, SettleFault, Settled, Shared, Unsettled};
use gate_submission::Prepared;
use std::alloc::Global;
use std::io::Print;
use std::mem;

#[derive(Clone, Copy)]
enum Call {
    Enroll,
    Look,
    Apply,
    Settle,
}

/// The number of a pass that was given out.
fn number_of<N: Base>(made: &Result<Pass<N>, Seat<N>>) -> Option<u64> {
    match made {
        Ok(pass) => Some(pass.number()),
        Err(_) => None,
    }
}

/// Keeps a pass that was given out, or the seat that was handed back.
fn keep<N: Base>(table: &mut Table<N>, made: Result<Pass<N>, Seat<N>>) -> Result<(), Fault> {
    match made {
        Ok(pass) => Ok(table.passes.push(pass)?),
        Err(seat) => {
            table.shared.take_back(&mut table.rest, seat);
            Ok(())
        }
    }
}

/// Gives out a pass between marks, and says whether memory sufficed.
fn enroll<N: Base, R: Print>(
    rt: &R,
    alloc: Global,
    table: &mut Table<N>,
    caller: &Caller,
) -> Result<bool, Fault> {
    let seat = table.seat()?;
    rt.write_all(b"> enroll\n")?;
    let made = table.shared.enroll(alloc, seat, caller);
    let marked = rt.write_all(b"< enroll\n");
    let number = number_of(&made);
    keep(table, made)?;
    marked?;
    tell_pass(rt, number)
}

/// Gives out a pass to the caller of an event.
fn enroll_caller<N: Base, R: Print>(
    rt: &R,
    alloc: Global,
    table: &mut Table<N>,
    event: &Event,
) -> Result<bool, Fault> {
    let caller = event.caller(alloc)?;
    enroll(rt, alloc, table, &caller)
}

/// Looks up the coins of a submission between marks, and says whether memory sufficed.
fn look<N: Base, R: Print>(
    rt: &R,
    alloc: Global,
    shared: &Shared<N, Colliding>,
    submission: &Prepared,
) -> Result<bool, Fault> {
    rt.write_all(b"> look\n")?;
    let made = shared.look(alloc, submission);
    let marked = rt.write_all(b"< look\n");
    let told = tell_look(rt, &made);
    drop(made);
    marked?;
    told
}

/// Looks up the coins of the last submission, if there is one.
fn look_last<N: Base, R: Print>(
    rt: &R,
    alloc: Global,
    shared: &Shared<N, Colliding>,
    events: &Events,
) -> Result<bool, Fault> {
    match events.last_submission() {
        Some(submission) => look(rt, alloc, shared, submission),
        None => Ok(true),
    }
}

/// Makes an event between marks, and says whether memory sufficed.
fn apply<N: Base, R: Print>(
    rt: &R,
    alloc: Global,
    shared: &mut Shared<N, Colliding>,
    pass: &mut Pass<N>,
    event: &Event,
) -> Result<bool, Fault> {
    rt.write_all(b"> call\n")?;
    let made = shared.apply(alloc, pass, event);
    let marked = rt.write_all(b"< call\n");
    let told = tell_call(rt, alloc, &made);
    drop(made);
    marked?;
    told
}

/// Makes an event under the last pass.
fn apply_last<N: Base, R: Print>(
    rt: &R,
    alloc: Global,
    table: &mut Table<N>,
    event: &Event,
) -> Result<bool, Fault> {
    let Table { passes, shared, .. } = table;
    match passes.last_mut() {
        Some(pass) => apply(rt, alloc, shared, pass, event),
        None => Err(Fault::Call),
    }
}

/// Writes how many calls were settled, and says whether memory sufficed.
fn tell_settled<N: Base, R: Print>(
    rt: &R,
    made: &Result<Settled, SettleFault<N>>,
) -> Result<bool, Fault> {
    match made {
        Ok(settled) => tell_count(rt, settled.count),
        Err(fault) => match fault.why {
            Unsettled::Memory => tell_unmade(rt),
            _ => Err(Fault::Call),
        },
    }
}

/// The passes that were not settled.
fn handed_back<N: Base>(alloc: Global, made: Result<Settled, SettleFault<N>>) -> Vec<Pass<N>> {
    match made {
        Ok(settled) => {
            drop(settled);
            Vec::new(alloc)
        }
        Err(SettleFault { why, passes }) => {
            drop(why);
            passes
        }
    }
}

/// Settles the passes between marks, and says whether memory sufficed.
fn settle<N: Base, R: Print>(
    rt: &R,
    alloc: Global,
    shared: &Shared<N, Colliding>,
    passes: &mut Vec<Pass<N>>,
) -> Result<bool, Fault> {
    rt.write_all(b"> settle\n")?;
    let given = mem::replace(passes, Vec::new(alloc));
    let made = shared.settle(alloc, given);
    let marked = rt.write_all(b"< settle\n");
    let told = tell_settled(rt, &made);
    *passes = handed_back(alloc, made);
    marked?;
    told
}

/// Makes a call over the last event, and says whether memory sufficed.
fn make<N: Base, R: Print>(
    rt: &R,
    alloc: Global,
    table: &mut Table<N>,
    events: &Events,
    call: Call,
) -> Result<bool, Fault> {
    let Some(last) = events.made.last() else {
        return Ok(true);
    };
    match call {
        Call::Enroll => enroll_caller(rt, alloc, table, last),
        Call::Look => look_last(rt, alloc, &table.shared, events),
        Call::Apply => apply_last(rt, alloc, table, last),
        Call::Settle => settle(rt, alloc, &table.shared, &mut table.passes),
    }
}

/// Writes whether a gate and its passes have the same text as before.
pub(crate) fn tell_table<N: Base, R: Print>(
    rt: &R,
    alloc: Global,
    table: &Table<N>,
    events: &Events,
    before: &str,
) -> Result<(), Fault> {
    let after = table_text(alloc, table, events)?;
    tell_change(rt, before, after.as_str())
}

/// Makes a call, and writes whether the gate and its passes have the same text as before.
fn make_told<N: Base, R: Print>(
    rt: &R,
    alloc: Global,
    table: &mut Table<N>,
    events: &Events,
    call: Call,
) -> Result<bool, Fault> {
    let before = table_text(alloc, table, events)?;
    let made = make(rt, alloc, table, events, call)?;
    tell_table(rt, alloc, table, events, before.as_str())?;
    Ok(made)
}

/// Makes a call, and once more if memory ran out.
fn make_again<N: Base, R: Print>(
    rt: &R,
    alloc: Global,
    table: &mut Table<N>,
    events: &Events,
    call: Call,
) -> Result<(), Fault> {
    if !make_told(rt, alloc, table, events, call)? {
        make_told(rt, alloc, table, events, call)?;
    }
    Ok(())
}

/// Makes the events but the last, gives out its pass, looks up the coins of the last submission, and makes it.
fn call_in<N: Base, R: Print>(
    rt: &R,
    alloc: Global,
    table: &mut Table<N>,
    events: &Events,
) -> Result<(), Fault> {
    let Some((_, first)) = events.made.split_last() else {
        return Ok(());
    };
    make_each(alloc, table, first)?;
    make_again(rt, alloc, table, events, Call::Enroll)?;
    make_again(rt, alloc, table, events, Call::Look)?;
    make_again(rt, alloc, table, events, Call::Apply)
}

/// Makes the calls of the last event at a gate that opens with this state.
pub(crate) fn call_last<N: Base, R: Print>(
    rt: &R,
    alloc: Global,
    register: Register,
    state: State<Colliding>,
    events: &Events,
) -> Result<(), Fault>
    requires base { state ≡ N.base }
    requires registry { register ≡ N.registry }
{
    let mut table: Table<N> = Table::open(alloc, state, register);
    let result = call_in(rt, alloc, &mut table, events);
    drop(table);
    result
}

fn settle_in<N: Base, R: Print>(
    rt: &R,
    alloc: Global,
    table: &mut Table<N>,
    events: &Events,
) -> Result<(), Fault> {
    make_each(alloc, table, events.made.as_slice())?;
    make_again(rt, alloc, table, events, Call::Settle)
}

/// Settles the passes of all events at a gate that opens with this state.
pub(crate) fn settle_all<N: Base, R: Print>(
    rt: &R,
    alloc: Global,
    register: Register,
    state: State<Colliding>,
    events: &Events,
) -> Result<(), Fault>
    requires base { state ≡ N.base }
    requires registry { register ≡ N.registry }
{
    let mut table: Table<N> = Table::open(alloc, state, register);
    let result = settle_in(rt, alloc, &mut table, events);
    drop(table);
    result
}
