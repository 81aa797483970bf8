//! What a lane has of its gate.
ghost use Rattle.std.specs.Prelude.{◌≡◌, ◌+◌, None, MatchOption};

use gate_shared::{Base, Gate, Pass, Rest, Seat};
use std::hash::BuildHasher;
use std::marker::Model;
use std::sync::Wait;

/// A seat, or a pass once an event got the lane one. Contracts see the pass.
#[derive(Drop)]
pub(crate) struct SeatOrPass<N: Base> {
    pub(crate) seat: Option<Seat<N>>,
    pub(crate) pass: Option<Pass<N>>,
}

impl<N: Base> Model for SeatOrPass<N> {
    ghost use Rattle.std.specs.Prelude.{IsSome, MatchOption, Option};
    ghost use Rattle.gate_shared.specs.Calls.{PassView};

    ghost Value = { Option PassView };

    ghost view = { λ p. p.pass };

    ghost invariant = { λ p. MatchOption p.pass (IsSome p.seat) (λ _. Unit {0}) };
}

impl<N: Base> SeatOrPass<N> {
    pub(crate) fn of(seat: Seat<N>) -> SeatOrPass<N>
        ensures { result ≡ None }
    {
        SeatOrPass {
            seat: Some(seat),
            pass: None,
        }
    }

    /// The pass, if there is one; else the seat goes back to those that are left.
    pub(crate) fn leave<S: BuildHasher + Copy + Drop, T: Wait>(
        self,
        rt: &T,
        gate: &Gate<N, S>,
        rest: &mut Rest<N>,
    ) -> Option<Pass<N>>
        ensures pass { result ≡ self }
        ensures rest { MatchOption result (rest.new ≡ rest.old + 1) (λ _. rest.new ≡ rest.old) }
    {
        let SeatOrPass { seat, pass } = self;
        match pass {
            Some(pass) => Some(pass),
            None => {
                gate.take_back(rt, rest, seat.unwrap());
                None
            }
        }
    }
}
