//! The right to make events, with the events that were made under it.
ghost use Rattle.std.specs.Prelude.{◌≡◌, ◌≤◌, ◌↔◌, IsTrue, length};
ghost use Rattle.std.specs.Option.{option_copied};

use crate::base::Base;
use crate::receipt::Made;
use crate::tokens::Token;
use gate_journal::Entry;
use gate_message::{Caller, is_same_event, is_same_reply};
use std::marker::{Model, PhantomData};

/// The most calls of a pass.
pub const MAX_CALLS: usize = 65_536;

/// The right of a caller to make events of its own, with all that it made, oldest first. Contracts see, too, whether a
/// call of it met a full journal.
#[derive(Drop)]
pub struct Pass<N: Base> {
    pub(crate) number: u64,
    pub(crate) caller: Caller,
    pub(crate) calls: Vec<Made>,
    pub(crate) token: Token,
    pub(crate) mark: Token,
    pub(crate) of: PhantomData<N>,
}

impl<N: Base> Model for Pass<N> {
    ghost use Rattle.std.specs.Prelude.{◌≡◌, []};
    ghost use Rattle.gate_shared.specs.Calls.{PassView, Rises};
    ghost use Rattle.gate_shared.specs.Tokens.{calls_under, holder, marker};

    ghost Value = { PassView };

    ghost view = { λ p. record { number = p.number; caller = p.caller; calls = p.calls.items; met_full = p.mark.me.0.full } };

    ghost invariant = { λ p. Rises 0 p.calls.items × (p.token.table_id ≡ N.registry) × (p.token.me ≡ (holder 1 (calls_under p.number p.calls.items), [])) × (p.mark.table_id ≡ N.registry) × (p.mark.me ≡ (marker p.mark.me.0.full, [])) };
}

impl<N: Base> Pass<N> {
    ghost use Rattle.gate_shared.specs.Calls.{Rises, call_limit, last_call};

    pub fn number(&self) -> u64
        ensures { result ≡ self.now.number }
    {
        self.number
    }

    pub fn caller(&self) -> &Caller
        ensures { result.now ≡ self.now.caller }
    {
        &self.caller
    }

    /// Its calls, oldest first: the numbers of their receipts rise.
    pub fn calls(&self) -> &[Made]
        ensures calls { result.now ≡ self.now.calls }
        ensures rises { Rises 0 self.now.calls }
    {
        self.calls.as_slice()
    }

    /// The newest of its calls.
    pub fn last(&self) -> Option<&Made>
        ensures { option_copied result ≡ last_call self.now.calls }
    {
        self.calls.last()
    }

    /// Whether it has 65,536 calls, the most that it may have.
    pub fn is_full(&self) -> bool
        ensures { IsTrue result ↔ (call_limit ≤ length self.now.calls) }
    {
        self.calls.len() >= MAX_CALLS
    }
}

ghost use Rattle.gate_shared.specs.Calls.{Stands};

/// Whether a call of the pass with this number stands in a journal at the place that its receipt names.
pub(crate) fn stands(entries: &[Entry], pass: u64, call: &Made) -> bool
    ensures { IsTrue result ↔ Stands entries.now pass call.now }
{
    let number = call.receipt.number;
    if number == 0 || number > entries.len() as u64 {
        return false;
    }
    let entry = &entries[(number - 1) as usize];
    entry.pass == pass
        && is_same_event(&entry.event, &call.event)
        && is_same_reply(&entry.reply, &call.receipt.reply)
}
