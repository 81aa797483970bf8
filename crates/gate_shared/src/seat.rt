//! Seats: the rights to a pass.
use crate::base::Base;
use crate::tokens::Token;
use std::marker::{Model, PhantomData};

/// The seats of a gate that are not given out. Contracts see their number: at first 2^64 - 1.
#[derive(Drop)]
pub struct Rest<N: Base> {
    pub(crate) token: Token,
    pub(crate) of: PhantomData<N>,
}

impl<N: Base> Model for Rest<N> {
    ghost use Rattle.std.specs.Prelude.{◌≡◌, ℕ, []};
    ghost use Rattle.gate_shared.specs.Tokens.{holder};

    ghost Value = { ℕ };

    ghost view = { λ r. r.token.me.0.seats };

    ghost invariant = { λ r. (r.token.table_id ≡ N.registry) × (r.token.me ≡ (holder r.token.me.0.seats [], [])) };
}

/// The right to one pass of a gate.
#[derive(Drop)]
pub struct Seat<N: Base> {
    pub(crate) token: Token,
    pub(crate) of: PhantomData<N>,
}

impl<N: Base> Model for Seat<N> {
    ghost use Rattle.std.specs.Prelude.{◌≡◌, []};
    ghost use Rattle.gate_shared.specs.Tokens.{holder};

    ghost Value = { Unit {0} };

    ghost view = { λ _. tt };

    ghost invariant = { λ s. (s.token.table_id ≡ N.registry) × (s.token.me ≡ (holder 1 [], [])) };
}
