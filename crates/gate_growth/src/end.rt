//! The end of a gate.
ghost use Rattle.std.specs.Prelude.{◌≡◌};

use crate::calls::tell_table;
use crate::colliding::Colliding;
use crate::events::Events;
use crate::fault::Fault;
use crate::table::{Table, make_each, table_text};
use crate::telling::tell_refusal;
use gate_core::State;
use gate_shared::{Base, FinishFault, Register, SettleFault, Settled, Unsettled};
use std::alloc::Global;
use std::io::Print;

const BEGINS: &[u8] = b"> finish\n";

const ENDS: &[u8] = b"< finish\n";

type Finished<N> = Result<(Settled, State<Colliding>), FinishFault<N, Colliding>>;

/// Writes how many calls were settled, and how many entries the pool has.
fn tell_finished<R: Print>(rt: &R, count: u64, entries: usize) -> Result<(), Fault> {
    println!(rt; "finished {count} {entries}")?;
    Ok(())
}

/// Writes the mark behind an end, and its outcome.
fn tell_end<N: Base, R: Print>(rt: &R, made: &Finished<N>) -> Result<(), Fault> {
    rt.write_all(ENDS)?;
    match made {
        Ok((settled, state)) => tell_finished(rt, settled.count, state.pool().count()),
        Err(fault) => match fault.fault.why {
            Unsettled::Memory => tell_refusal(rt),
            _ => Err(Fault::Call),
        },
    }
}

fn finish<N: Base>(alloc: Global, table: Table<N>) -> Finished<N> {
    let Table {
        passes,
        shared,
        rest,
        ..
    } = table;
    shared.finish(alloc, rest, passes)
}

/// The gate that was handed back.
fn handed_back<N: Base>(made: Finished<N>) -> Option<Table<N>> {
    match made {
        Ok(finished) => {
            drop(finished);
            None
        }
        Err(
            FinishFault {
                shared,
                rest,
                fault,
            },
        ) => {
            let SettleFault { why, passes } = fault;
            drop(why);
            Some(Table {
                passes,
                shared,
                rest,
                more: 0,
            })
        }
    }
}

/// Writes whether a gate that was handed back has the same text as before, and the mark before its end.
fn begin_again<N: Base, R: Print>(
    rt: &R,
    alloc: Global,
    table: &Table<N>,
    events: &Events,
    before: &str,
) -> Result<(), Fault> {
    tell_table(rt, alloc, table, events, before)?;
    rt.write_all(BEGINS)?;
    Ok(())
}

/// Finishes a gate that was handed back.
fn finish_again<N: Base, R: Print>(
    rt: &R,
    alloc: Global,
    table: Table<N>,
    events: &Events,
    before: &str,
) -> Result<(), Fault> {
    let begun = begin_again(rt, alloc, &table, events, before);
    let made = finish(alloc, table);
    let told = tell_end(rt, &made);
    drop(made);
    begun?;
    told
}

/// Finishes a gate, and once more if memory ran out.
fn finish_told<N: Base, R: Print>(
    rt: &R,
    alloc: Global,
    table: Table<N>,
    events: &Events,
    before: &str,
) -> Result<(), Fault> {
    let made = finish(alloc, table);
    let told = tell_end(rt, &made);
    match handed_back(made) {
        Some(table) => {
            let again = finish_again(rt, alloc, table, events, before);
            told?;
            again
        }
        None => told,
    }
}

/// Makes all events, writes the mark before an end, and gives the text of the gate at that mark.
fn begin<N: Base, R: Print>(
    rt: &R,
    alloc: Global,
    table: &mut Table<N>,
    events: &Events,
) -> Result<String, Fault> {
    make_each(alloc, table, events.made.as_slice())?;
    let before = table_text(alloc, table, events)?;
    rt.write_all(BEGINS)?;
    Ok(before)
}

/// Finishes a gate that opens with this state and made all events.
pub(crate) fn finish_all<N: Base, R: Print>(
    rt: &R,
    alloc: Global,
    register: Register,
    state: State<Colliding>,
    events: &Events,
) -> Result<(), Fault>
    requires base { state ≡ N.base }
    requires registry { register ≡ N.registry }
{
    let mut table: Table<N> = Table::open(alloc, state, register);
    match begin(rt, alloc, &mut table, events) {
        Ok(before) => finish_told(rt, alloc, table, events, before.as_str()),
        Err(fault) => {
            drop(table);
            Err(fault)
        }
    }
}
