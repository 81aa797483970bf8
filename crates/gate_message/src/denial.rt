//! What a denial does to a peer's session.
ghost use Rattle.std.specs.Prelude.{◌≡◌, ◌++◌, codes};
ghost use Rattle.gate_message.specs.Following.{then_of, then_text};

use gate_net::Permissions;
use gate_rules::{Consequence, PeerDenial};

/// What a denial does to the peer's session.
#[derive(Clone, Copy, PartialEq, Eq)]
pub enum Then {
    /// The session goes on.
    Keep,
    /// The session is closed.
    Close,
    /// The session goes on, and the transaction that is in the pool already is relayed again.
    Relay,
}

impl Then {
    /// What follows for the session of a peer with these flags.
    pub fn of(denial: &PeerDenial, flags: &Permissions) -> Then
        ensures { result ≡ then_of flags.now denial.now }
    {
        match denial.row().then {
            Consequence::Close if !flags.noban() => Then::Close,
            Consequence::CloseAlways => Then::Close,
            Consequence::Relay if flags.forcerelay() => Then::Relay,
            _ => Then::Keep,
        }
    }

    /// The word for it in the line of a denial, between two spaces.
    pub(crate) fn between_spaces(&self) -> &'static str
        ensures { result.now ≡ codes " " ++ (then_text self.now ++ codes " ") }
    {
        match self {
            Then::Keep => " keep ",
            Then::Close => " close ",
            Then::Relay => " relay ",
        }
    }
}
