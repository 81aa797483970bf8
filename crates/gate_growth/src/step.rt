//! A step of a state.
use crate::colliding::Colliding;
use crate::events::Events;
use crate::fault::Fault;
use crate::state_text::state_text;
use crate::telling::{tell_change, tell_step};
use gate_core::State;
use gate_message::Event;
use std::alloc::Global;
use std::io::Print;

/// Makes a step between marks, and says whether memory sufficed.
fn step<R: Print>(
    rt: &R,
    alloc: Global,
    state: &mut State<Colliding>,
    event: &Event,
) -> Result<bool, Fault> {
    rt.write_all(b"> step\n")?;
    let made = state.step(alloc, event);
    let marked = rt.write_all(b"< step\n");
    let told = tell_step(rt, alloc, &made);
    drop(made);
    marked?;
    told
}

/// Writes whether a state has the same text as before.
fn tell_state<R: Print>(
    rt: &R,
    alloc: Global,
    state: &State<Colliding>,
    events: &Events,
    before: &str,
) -> Result<(), Fault> {
    let after = state_text(alloc, state, events)?;
    tell_change(rt, before, after.as_str())
}

/// Makes a step, and writes whether the state has the same text as before.
fn step_told<R: Print>(
    rt: &R,
    alloc: Global,
    state: &mut State<Colliding>,
    event: &Event,
    events: &Events,
) -> Result<bool, Fault> {
    let before = state_text(alloc, state, events)?;
    let made = step(rt, alloc, state, event)?;
    tell_state(rt, alloc, state, events, before.as_str())?;
    Ok(made)
}

/// Makes a step without marks around it.
fn step_quietly(alloc: Global, state: &mut State<Colliding>, event: &Event) -> Result<(), Fault> {
    match state.step(alloc, event) {
        Ok(reply) => {
            drop(reply);
            Ok(())
        }
        Err(_) => Err(Fault::Memory),
    }
}

/// Makes the events as steps, the last one between marks, and once more if memory ran out.
pub(crate) fn step_last<R: Print>(
    rt: &R,
    alloc: Global,
    state: &mut State<Colliding>,
    events: &Events,
) -> Result<(), Fault> {
    let Some((last, first)) = events.made.split_last() else {
        return Ok(());
    };
    for event in first {
        step_quietly(alloc, state, event)?;
    }
    if !step_told(rt, alloc, state, last, events)? {
        step_told(rt, alloc, state, last, events)?;
    }
    Ok(())
}
