//! A call under a pass, and a gate that goes on since a pass is missing at its end. Lanes call with what they prepared, and
//! end their gate.
ghost use Rattle.std.specs.Prelude.{◌≡◌};

use gate_bytes::Memory;
use gate_core::State;
use gate_message::{Caller, Event};
use gate_opening::read_opening;
use gate_shared::{Base, FinishFault, Gate, Pass, Register, Rest, Seat, finish};
use std::alloc::Global;
use std::hash::{BuildHasherDefault, FoldHasher};
use std::marker::Brand;
use std::sync::Wait;
use std::test::*;

type Hasher = BuildHasherDefault<FoldHasher>;

/// A state of one block.
fn opened(alloc: Global) -> Result<State<Hasher>, Fail> {
    let mut text = b"times 1 1000 600\n".as_slice();
    Ok(read_opening(alloc, BuildHasherDefault::new(), &mut text)?)
}

/// The pass of an operator who sets the floor.
fn called<N: Base, R: Wait>(
    rt: &R,
    alloc: Global,
    gate: &Gate<N, Hasher>,
    seat: Seat<N>,
) -> Result<Pass<N>, Memory> {
    match gate.enroll(rt, alloc, seat, &Caller::Operator) {
        Ok(mut pass) => {
            drop(gate.call(rt, alloc, &mut pass, &Event::SetFloor { rate: 5_000 }));
            Ok(pass)
        }
        Err(seat) => {
            drop(seat);
            Err(Memory)
        }
    }
}

/// The gate that is handed back, to go on.
fn gone_on<N: Base>(fault: FinishFault<N, Hasher>) -> Gate<N, Hasher> {
    let FinishFault {
        shared,
        rest,
        fault,
    } = fault;
    drop(rest);
    drop(fault);
    Gate::of(shared)
}

/// The number of the next call of a gate.
fn next_number<N: Base, R: Wait>(
    rt: &R,
    alloc: Global,
    gate: &Gate<N, Hasher>,
    seat: Seat<N>,
) -> Result<Option<u64>, Memory> {
    let pass = called(rt, alloc, gate, seat)?;
    let number = pass.last().map(|made| made.receipt.number);
    drop(pass);
    Ok(number)
}

/// The number of the call after the end of a gate whose passes are missing; none if the gate ends.
fn goes_on<N: Base, R: Wait>(
    rt: &R,
    alloc: Global,
    gate: Gate<N, Hasher>,
    rest: Rest<N>,
    seat: Seat<N>,
) -> Result<Option<u64>, Memory> {
    match finish(alloc, gate, rest, Vec::new(alloc)) {
        Ok(finished) => {
            drop(finished);
            drop(seat);
            Ok(None)
        }
        Err(fault) => {
            let gate = gone_on(fault);
            let number = next_number(rt, alloc, &gate, seat);
            drop(gate);
            number
        }
    }
}

/// Whether the next call after a vain end of a gate with one call is the second.
fn calls_again<N: Base, R: Wait>(
    rt: &R,
    alloc: Global,
    state: State<Hasher>,
    register: Register,
) -> Result<bool, Memory>
    requires base { state ≡ N.base }
    requires registry { register ≡ N.registry }
{
    let (gate, mut rest): (Gate<N, Hasher>, Rest<N>) = Gate::open(alloc, state, register);
    let first = gate.seat(rt, &mut rest);
    let second = gate.seat(rt, &mut rest);
    let pass = called(rt, alloc, &gate, first)?;
    drop(pass);
    Ok(goes_on(rt, alloc, gate, rest, second)? == Some(2))
}

#[test]
fn a_gate_goes_on(rt: HostRuntime) -> Result<(), Fail> {
    let alloc = rt.alloc();
    let state = opened(alloc)?;
    let register = Register::new(alloc)?;
    assert!(rt; calls_again::<Brand, _>(&rt, alloc, state, register)?);
    Ok(())
}
