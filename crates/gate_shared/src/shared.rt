//! The value under the lock, and its one change.
ghost use Rattle.std.specs.Prelude.{◌≡◌, ◌+◌, ◌<◌, ◌≤◌, [], ◌∷◌, ◌++◌, false, true, length, IfOk, IfErr, OnOk, OnErr, MatchResult};
ghost use Rattle.std.specs.List.{All};
ghost use Rattle.std.specs.Vec.{vec_len, vec_capacity};
ghost use Rattle.std.specs.Option.{option_copied};
ghost use Rattle.gate_core.specs.Submissions.{StandsFor, submission_of, coins_of};
ghost use Rattle.gate_journal.specs.Legal.{entry, entry_limit};
ghost use Rattle.gate_shared.specs.Calls.{IsFullIfMet, made, receipt};
ghost use Rattle.gate_shared.specs.Tokens.{EachStands, IsIdleEmpty, IsTold, calls_in, calls_under, gathered, holder, of_journal, seat_limit};

use crate::base::Base;
use crate::pass::{Pass, stands};
use crate::receipt::{Made, Receipt};
use crate::register::Register;
use crate::seat::{Rest, Seat};
use crate::settle::{Owner, SettleFault, Settled, owners, settle};
use crate::tokens::{
    Registry, Token, blank, compare_mark, enter, give_up, join, lend, look, mark_full, split,
};
use gate_bytes::{Copied, Kept, Memory};
use gate_core::State;
use gate_journal::{Entry, Journal};
use gate_message::{Caller, Event, Replies};
use gate_submission::Prepared;
use gate_tx::Coin;
use std::alloc::Global;
use std::fmt;
use std::hash::BuildHasher;
use std::marker::{Model, PhantomData};
use thiserror::Error;

/// Why a call was not made: the first of these that holds, in their order; but memory may run out as the receipt of
/// `HistoryShort` is copied.
#[derive(Drop, Error)]
pub enum CallFault {
    /// The event is another caller's.
    #[error("the event is another caller's")]
    WrongCaller,
    /// The pass has 65,536 calls.
    #[error("the pass is full")]
    PassFull,
    /// The journal does not have the last call of the pass, whose receipt this is, at its place. This fault never comes.
    #[error("the journal lacks the pass's last receipt")]
    HistoryShort(Receipt),
    /// The journal has 100,000 entries.
    #[error("the journal is full")]
    AuditFull,
    #[error("out of memory")]
    Memory,
}

impl fmt::Debug for CallFault {
    fn fmt<W: fmt::Write>(&self, f: &mut fmt::Formatter<W>) -> fmt::Result {
        write!(f, "{self}")
    }
}

/// The state, the journal that led to it from the state of its name, and how many passes were given out; and the tokens'
/// register, whose keeper knows the journal.
#[derive(Drop)]
pub struct Shared<N: Base, S: BuildHasher + Copy + Drop> {
    state: State<S>,
    journal: Journal,
    passes: u64,
    registry: Registry,
    keeper: Token,
    of: PhantomData<N>,
}

impl<N: Base, S: BuildHasher + Copy + Drop> Model for Shared<N, S> {
    ghost use Rattle.std.specs.Prelude.{◌≡◌, []};
    ghost use Rattle.gate_shared.specs.Tokens.{knower};
    ghost use Rattle.gate_shared.specs.Held.{Held, IsHeld, held};

    ghost Value = { Held };

    ghost view = { λ s. held s.state s.journal.entries s.passes };

    ghost invariant = { λ s. IsHeld N.base (held s.state s.journal.entries s.passes) × (s.registry.shared.table_id ≡ N.registry) × (N.registry.words ≡ 1) × (s.keeper.table_id ≡ N.registry) × (s.keeper.me ≡ (knower s.journal.entries, [])) };
}

/// Two copies of an event, one for each keeper.
#[derive(Drop)]
struct Events {
    /// For the journal.
    entry: Event,
    /// For the pass.
    made: Event,
}

impl Events {
    fn of(alloc: Global, event: &Event) -> Result<Events, Memory>
        ensures { IfOk result (λ events. (events.entry ≡ event.now) × (events.made ≡ event.now)) }
    {
        let entry = event.copy(alloc)?;
        match event.copy(alloc) {
            Ok(made) => Ok(Events { entry, made }),
            Err(Memory) => {
                drop(entry);
                Err(Memory)
            }
        }
    }
}

/// Lends the token of a pass to the keeper, and compares its calls with the journal. The token is then given back.
fn audit_pass<N: Base>(registry: &Registry, keeper: &mut Token, pass: &mut Pass<N>)
    requires registry { (registry.now.shared.table_id ≡ N.registry) × (N.registry.words ≡ 1) }
    requires keeper { (keeper.old.table_id ≡ N.registry) × (keeper.old.me.0.keeps ≡ true) × IsIdleEmpty keeper.old.me.0 }
    ensures keeper { (keeper.new.table_id ≡ keeper.old.table_id) × (keeper.new.me ≡ keeper.old.me) }
    ensures pass { pass.new ≡ pass.old }
    ensures told { IsTold (gathered keeper.old.me.0 (holder 1 (calls_under pass.old.number pass.old.calls))) }
{
    let count = pass.calls.len();
    lend(registry, &mut pass.token, keeper);
    look(registry, keeper);
    let part = split(registry, keeper, 1, count);
    join(registry, &mut pass.token, part);
}

/// Lends the tokens of passes to the keeper until it has all, and compares its calls with the journal. All tokens are then
/// given back. The mark of each pass is compared with the journal by itself.
fn audit_from<N: Base>(registry: &Registry, keeper: &mut Token, passes: &mut [Pass<N>])
    requires registry { (registry.now.shared.table_id ≡ N.registry) × (N.registry.words ≡ 1) }
    requires keeper { (keeper.old.table_id ≡ N.registry) × (keeper.old.me.0.keeps ≡ true) × IsIdleEmpty keeper.old.me.0 × (keeper.old.me.0.full ≡ false) }
    ensures keeper { (keeper.new.table_id ≡ keeper.old.table_id) × (keeper.new.me ≡ keeper.old.me) }
    ensures passes { passes.new ≡ passes.old }
    ensures told { IsTold (gathered keeper.old.me.0 (holder (length passes.old) (calls_in passes.old))) }
    ensures marks { All (IsFullIfMet keeper.old.me.0.all) passes.old }
{
    match passes.split_first_mut() {
        None => look(registry, keeper),
        Some((pass, rest)) => {
            let count = pass.calls.len();
            compare_mark(registry, keeper, &mut pass.mark);
            lend(registry, &mut pass.token, keeper);
            audit_from(registry, keeper, rest);
            let part = split(registry, keeper, 1, count);
            join(registry, &mut pass.token, part);
        }
    }
}

impl<N: Base, S: BuildHasher + Copy + Drop> Shared<N, S> {
    ghost use Rattle.gate_shared.specs.Held.{held, left_by, IsHeld, IsNotShort, IsOwn, Enters, Enrolls, FirstFault, NoFault, Applies};
    ghost use Rattle.gate_shared.specs.Calls.{EachBelow, LastStands};
    ghost use Rattle.gate_shared.specs.Ends.{EndsGood};
    ghost use Rattle.gate_shared.specs.Settling.{AreTheCalls, IsSettled, WhyUnsettled};

    /// The state of the name, with an empty journal, and all seats.
    pub fn new(alloc: Global, state: State<S>, register: Register) -> (Shared<N, S>, Rest<N>)
        requires base { state ≡ N.base }
        requires registry { register ≡ N.registry }
        ensures empty { result.0 ≡ held state [] 0 }
        ensures seats { result.1 ≡ seat_limit }
    {
        let Register {
            registry,
            token: mut keeper,
        } = register;
        let token = give_up(&registry, &mut keeper);
        let shared = Shared {
            state,
            journal: Journal::new(alloc),
            passes: 0,
            registry,
            keeper,
            of: PhantomData,
        };
        let rest = Rest {
            token,
            of: PhantomData,
        };
        (shared, rest)
    }

    /// Recalls for a proof what holds of the value whenever the lock is taken: it does nothing.
    pub fn recall_held(&self)
        ensures { IsHeld N.base self.now }
    {
        let _passes = &self.passes;
    }

    /// Compares the calls of a pass with the journal. Nothing changes.
    fn audit_one(&mut self, pass: &mut Pass<N>)
        ensures same { self.new ≡ self.old }
        ensures pass { pass.new ≡ pass.old }
        ensures stand { EachStands self.old.journal (calls_under pass.old.number pass.old.calls) }
    {
        audit_pass(&self.registry, &mut self.keeper, pass);
    }

    /// Keeps in a pass that a call of it met a full journal.
    fn mark(&mut self, pass: &mut Pass<N>)
        requires { entry_limit ≤ length self.old.journal }
        ensures same { self.new ≡ self.old }
        ensures pass { pass.new ≡ record pass.old { met_full = true } }
    {
        mark_full(&self.registry, &mut self.keeper, &mut pass.mark);
    }

    /// The first fault of a call but that of a full journal, if there is one.
    fn own_fault(&self, alloc: Global, pass: &Pass<N>, event: &Event) -> Result<(), CallFault>
        ensures found { MatchResult result (λ _. IsOwn pass.now event.now × LastStands self.now.journal pass.now) (FirstFault self.now pass.now event.now) }
        ensures left { IfErr result (λ fault. left_by fault pass.now ≡ pass.now) }
    {
        if !event.is_of(pass.caller()) {
            return Err(CallFault::WrongCaller);
        }
        if pass.is_full() {
            return Err(CallFault::PassFull);
        }
        if let Some(call) = pass.last() {
            if !stands(self.journal.entries(), pass.number(), call) {
                return match call.receipt.copy(alloc) {
                    Ok(receipt) => Err(CallFault::HistoryShort(receipt)),
                    Err(_) => Err(CallFault::Memory),
                };
            }
        }
        Ok(())
    }

    /// The first fault of a call, if there is one. The pass keeps that its call met a full journal.
    fn fault(&mut self, alloc: Global, pass: &mut Pass<N>, event: &Event) -> Result<(), CallFault>
        ensures found { MatchResult result (λ _. NoFault self.old pass.old event.now) (FirstFault self.old pass.old event.now) }
        ensures stand { IfErr result IsNotShort }
        ensures same { self.new ≡ self.old }
        ensures pass { MatchResult result (λ _. pass.new ≡ pass.old) (λ fault. pass.new ≡ left_by fault pass.old) }
    {
        self.audit_one(pass);
        self.own_fault(alloc, pass, event)?;
        if self.journal.is_full() {
            self.mark(pass);
            return Err(CallFault::AuditFull);
        }
        Ok(())
    }

    /// The coin of each input of a submission, in their order; None for an input that has no coin now. Nothing changes.
    pub fn look(&self, alloc: Global, submission: &Prepared) -> Result<Vec<Option<Coin>>, Memory>
        ensures { IfOk result (λ coins. coins.items ≡ coins_of self.now.state submission.now) }
    {
        self.state.coins(alloc, submission)
    }

    /// Makes an event of a call that has no fault. All memory is taken before anything changes.
    fn enter(
        &mut self,
        alloc: Global,
        pass: &mut Pass<N>,
        event: &Event,
        prepared: Option<&Prepared>,
    ) -> Result<Receipt, Memory>
        requires free { NoFault self.old pass.old event.now }
        requires prepared { StandsFor (option_copied prepared) (submission_of event.now) }
        ensures ok { IfOk result (Enters self.old self.new pass.old pass.new event.now) }
        ensures above { IfOk result (λ r. EachBelow r.number pass.old.calls) }
        ensures shared { OnErr result (self.new ≡ self.old) }
        ensures pass { OnErr result (pass.new ≡ pass.old) }
    {
        self.journal.reserve()?;
        pass.calls.reserve(1)?;
        let events = Events::of(alloc, event)?;
        match self.state.step_recorded(alloc, event, prepared) {
            Ok(replies) => {
                let number = self.journal.len() as u64 + 1;
                let made = Made {
                    event: events.made,
                    receipt: Receipt {
                        number,
                        reply: replies.receipt,
                    },
                };
                enter(
                    &self.registry,
                    &mut self.keeper,
                    &mut pass.token,
                    pass.number,
                    &made,
                );
                self.journal.push(Entry {
                    pass: pass.number,
                    event: events.entry,
                    reply: replies.entry,
                });
                pass.calls.push_reserved(made);
                Ok(Receipt {
                    number,
                    reply: replies.reply,
                })
            }
            Err(Memory) => {
                drop(events);
                Err(Memory)
            }
        }
    }

    /// The one change: the event is made under the pass, or nothing changes.
    pub fn apply(
        &mut self,
        alloc: Global,
        pass: &mut Pass<N>,
        event: &Event,
    ) -> Result<Receipt, CallFault>
        ensures applies { Applies self.old self.new pass.old pass.new event.now result }
        ensures stand { IfErr result IsNotShort }
        ensures above { IfOk result (λ r. EachBelow r.number pass.old.calls) }
        ensures was { IsHeld N.base self.old }
        ensures is { IsHeld N.base self.new }
    {
        self.apply_prepared(alloc, pass, event, None)
    }

    /// The one change, as `apply` makes it. `prepared`, which may stand for the event's submission, is the same
    /// transaction, but may have reports on its inputs, which neither the journal nor the pass keeps.
    pub fn apply_prepared(
        &mut self,
        alloc: Global,
        pass: &mut Pass<N>,
        event: &Event,
        prepared: Option<&Prepared>,
    ) -> Result<Receipt, CallFault>
        requires { StandsFor (option_copied prepared) (submission_of event.now) }
        ensures applies { Applies self.old self.new pass.old pass.new event.now result }
        ensures stand { IfErr result IsNotShort }
        ensures above { IfOk result (λ r. EachBelow r.number pass.old.calls) }
        ensures was { IsHeld N.base self.old }
        ensures is { IsHeld N.base self.new }
    {
        self.recall_held();
        self.fault(alloc, pass, event)?;
        match self.enter(alloc, pass, event, prepared) {
            Ok(receipt) => {
                self.recall_held();
                Ok(receipt)
            }
            Err(Memory) => Err(CallFault::Memory),
        }
    }

    /// One of the seats that are left.
    pub fn seat(&self, rest: &mut Rest<N>) -> Seat<N>
        requires { 0 < rest.old }
        ensures { rest.new + 1 ≡ rest.old }
    {
        Seat {
            token: split(&self.registry, &mut rest.token, 1, 0),
            of: PhantomData,
        }
    }

    /// Puts a seat back to those that are left.
    pub fn take_back(&self, rest: &mut Rest<N>, seat: Seat<N>)
        ensures { rest.new ≡ rest.old + 1 }
    {
        let Seat { token, .. } = seat;
        join(&self.registry, &mut rest.token, token);
    }

    /// A pass of a caller, with no calls and the next number. Out of memory, the seat is handed back.
    pub fn enroll(
        &mut self,
        alloc: Global,
        seat: Seat<N>,
        caller: &Caller,
    ) -> Result<Pass<N>, Seat<N>>
        ensures ok { IfOk result (Enrolls self.old self.new caller.now) }
        ensures err { OnErr result (self.new ≡ self.old) }
        ensures was { IsHeld N.base self.old }
        ensures is { IsHeld N.base self.new }
    {
        self.recall_held();
        match caller.copy(alloc) {
            Ok(caller) => {
                let Seat { mut token, .. } = seat;
                let mark = blank(&self.registry, &mut token);
                self.passes = self.passes.saturating_add(1);
                Ok(Pass {
                    number: self.passes,
                    caller,
                    calls: Vec::new(alloc),
                    token,
                    mark,
                    of: PhantomData,
                })
            }
            Err(Memory) => Err(seat),
        }
    }

    /// Compares the calls of passes with the journal. Nothing changes.
    pub(crate) fn audit(&mut self, rest: &mut Rest<N>, passes: &mut Vec<Pass<N>>)
        ensures same { self.new ≡ self.old }
        ensures rest { rest.new ≡ rest.old }
        ensures passes { passes.new.items ≡ passes.old.items }
        ensures told { IsTold (of_journal (rest.old + length passes.old.items) self.old.journal (calls_in passes.old.items)) }
        ensures marks { All (IsFullIfMet self.old.journal) passes.old.items }
    {
        lend(&self.registry, &mut rest.token, &mut self.keeper);
        audit_from(&self.registry, &mut self.keeper, passes.as_mut_slice());
        let seats = give_up(&self.registry, &mut self.keeper);
        join(&self.registry, &mut rest.token, seats);
    }

    /// The owners of the journal's entries, if passes settle with it. A fault hands the passes back.
    pub(crate) fn owners(
        &self,
        alloc: Global,
        passes: Vec<Pass<N>>,
    ) -> Result<Kept<Owner>, SettleFault<N>>
        ensures is { IsHeld N.base self.now }
        ensures ok { IfOk result (AreTheCalls self.now.journal passes.items) }
        ensures err { IfErr result (λ fault. WhyUnsettled self.now.journal passes.items fault.why × (fault.passes ≡ passes)) }
    {
        match owners(alloc, &self.journal, passes.as_slice()) {
            Ok(owners) => Ok(owners),
            Err(why) => Err(SettleFault { why, passes }),
        }
    }

    /// The journal itself with the owners of its entries, and the state.
    pub(crate) fn into_settled(self, owners: Kept<Owner>) -> (Settled, State<S>)
        ensures journal { result.0.journal.entries ≡ self.journal }
        ensures count { result.0.count ≡ length self.journal }
        ensures owners { result.0.owners ≡ owners }
        ensures state { result.1 ≡ self.state }
    {
        let Shared { state, journal, .. } = self;
        (Settled::of(journal, owners), state)
    }

    /// Settles passes with a copy of the journal. A fault hands the passes back.
    pub fn settle(&self, alloc: Global, passes: Vec<Pass<N>>) -> Result<Settled, SettleFault<N>>
        ensures is { IsHeld N.base self.now }
        ensures ok { IfOk result (IsSettled self.now.journal passes.items) }
        ensures good { OnOk result (EndsGood N.base passes.items self.now.state) }
        ensures err { IfErr result (λ fault. WhyUnsettled self.now.journal passes.items fault.why × (fault.passes ≡ passes)) }
    {
        match settle(alloc, &self.journal, passes.as_slice()) {
            Ok(settled) => Ok(settled),
            Err(why) => Err(SettleFault { why, passes }),
        }
    }

    pub fn state(&self) -> &State<S>
        ensures { result.now ≡ self.now.state }
    {
        &self.state
    }

    pub fn journal(&self) -> &Journal
        ensures { result.now.entries ≡ self.now.journal }
    {
        &self.journal
    }

    /// How many passes were given out; at 2^64 - 1 the number stays.
    pub fn passes(&self) -> u64
        ensures { result ≡ self.now.passes }
    {
        self.passes
    }
}
