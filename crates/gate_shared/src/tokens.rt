//! Tokens, which tie passes to the journal under the lock. They have no bytes.
ghost use Rattle.std.specs.Prelude.{◌≡◌, ℕ, ◌+◌, ◌-◌, ◌≤◌, [], ◌∷◌, ◌++◌, true, false, length, take, drop};
ghost use Rattle.gate_journal.specs.Legal.{entry_limit};
ghost use Rattle.gate_shared.specs.Tokens.{CanPart, IsTold, emptied, entered, entry_of, first_part, gathered, holder, kept_call, knower, last_part, marked, marker, unmarked, yielded};

use crate::receipt::Made;
use atomic_table::{Join, Play, Seat, Split, Table, TableRule};
use gate_journal::Entry;
use std::alloc::Global;
use std::collections::LinkedList;
use std::marker::{Brand, PhantomData};

/// What a token knows: that of the lock the journal, and those of a pass its calls, each with the number of the pass, and
/// whether the journal was full. No value of it is made.
pub struct Known {
    pub keeps: bool,
    pub seats: u64,
    pub all: LinkedList<Entry>,
    pub calls: LinkedList<(u64, Made)>,
    pub full: bool,
}

/// The rule of all tokens of a gate.
pub struct Kept;

impl TableRule<(), Known, ()> for Kept {
    ghost use Rattle.gate_shared.specs.Tokens.{AreKept, opener};

    ghost holds = { λ _ s. AreKept s.views };

    ghost first = { λ _. opener };
}

/// Names a call that is entered.
pub trait Entering {
    ghost use Rattle.gate_shared.specs.Tokens.{PassCall};

    ghost call: { PassCall };
}

/// Counts the seats and calls of a part.
pub trait Count {
    ghost use Rattle.std.specs.Prelude.{ℕ};

    ghost seats: { ℕ };

    ghost calls: { ℕ };
}

impl Entering for Brand {
    ghost use Rattle.gate_shared.specs.Tokens.{no_call};

    ghost call = { no_call };
}

impl Count for Brand {
    ghost seats = { 0 };

    ghost calls = { 0 };
}

struct Enters<E: Entering> {
    of: PhantomData<E>,
}

impl<E: Entering> Split<Known> for Enters<E> {
    ghost use Rattle.gate_shared.specs.Tokens.{entered, kept_call};

    ghost left = { kept_call E.call };

    ghost right = { entered E.call };
}

struct Parts<C: Count> {
    of: PhantomData<C>,
}

impl<C: Count> Split<Known> for Parts<C> {
    ghost use Rattle.gate_shared.specs.Tokens.{first_part, last_part};

    ghost left = { first_part C.seats C.calls };

    ghost right = { last_part C.seats C.calls };
}

struct Yields;

impl Split<Known> for Yields {
    ghost use Rattle.gate_shared.specs.Tokens.{emptied, yielded};

    ghost left = { emptied };

    ghost right = { yielded };
}

struct Leaves;

impl Split<Known> for Leaves {
    ghost use Rattle.std.specs.Prelude.{[]};
    ghost use Rattle.gate_shared.specs.Tokens.{holder};

    ghost left = { λ _. holder 0 [] };

    ghost right = { λ v. v };
}

struct KnowsNothing;

impl Split<Known> for KnowsNothing {
    ghost use Rattle.std.specs.Prelude.{false};
    ghost use Rattle.gate_shared.specs.Tokens.{marker};

    ghost left = { λ v. v };

    ghost right = { λ _. marker false };
}

struct KnowsFull;

impl Split<Known> for KnowsFull {
    ghost use Rattle.std.specs.Prelude.{true};
    ghost use Rattle.gate_shared.specs.Tokens.{marker};

    ghost left = { λ v. v };

    ghost right = { λ _. marker true };
}

struct Unmarks;

impl Split<Known> for Unmarks {
    ghost use Rattle.gate_shared.specs.Tokens.{marker, unmarked};

    ghost left = { unmarked };

    ghost right = { λ v. marker v.full };
}

struct Marks;

impl Join<Known> for Marks {
    ghost use Rattle.std.specs.Prelude.{[]};
    ghost use Rattle.gate_shared.specs.Tokens.{holder, marked};

    ghost both = { marked };

    ghost spent = { holder 0 [] };
}

struct Gathers;

impl Join<Known> for Gathers {
    ghost use Rattle.std.specs.Prelude.{[]};
    ghost use Rattle.gate_shared.specs.Tokens.{gathered, holder};

    ghost both = { gathered };

    ghost spent = { holder 0 [] };
}

struct Looks;

impl Play<(), Known> for Looks {
    ghost use Rattle.std.specs.Prelude.{◌≡◌};
    ghost use Rattle.gate_shared.specs.Tokens.{IsTold};

    ghost then = { λ _ m _ n. (n ≡ m) × IsTold m.0 };
}

/// What the tokens of one gate belong to.
pub(crate) type Registry = Table<(), Known, (), Kept, Global>;

pub(crate) type Token = Seat<(), Known>;

/// Gives a token the seats and calls of another.
pub(crate) fn join(registry: &Registry, token: &mut Token, other: Token)
    requires words { registry.now.shared.table_id.words ≡ 1 }
    requires token { token.old.table_id ≡ registry.now.shared.table_id }
    requires other { (other.table_id ≡ registry.now.shared.table_id) × (other.me.1 ≡ []) }
    ensures table { token.new.table_id ≡ token.old.table_id }
    ensures token { token.new.me ≡ (gathered token.old.me.0 other.me.0, token.old.me.1) }
{
    registry.shared.join_seat::<Gathers>(token, other);
}

/// A token with all that this one has.
fn leave(registry: &Registry, token: &mut Token) -> Token
    requires words { registry.now.shared.table_id.words ≡ 1 }
    requires token { token.old.table_id ≡ registry.now.shared.table_id }
    requires keeps { token.old.me.0.keeps ≡ false }
    ensures table { (token.new.table_id ≡ token.old.table_id) × (result.table_id ≡ token.old.table_id) }
    ensures token { token.new.me ≡ (holder 0 [], token.old.me.1) }
    ensures result { result.me ≡ (token.old.me.0, []) }
{
    registry.shared.split_seat::<Leaves>(token)
}

/// A token with the seats and calls of this one.
pub(crate) fn give_up(registry: &Registry, token: &mut Token) -> Token
    requires words { registry.now.shared.table_id.words ≡ 1 }
    requires token { token.old.table_id ≡ registry.now.shared.table_id }
    ensures table { (token.new.table_id ≡ token.old.table_id) × (result.table_id ≡ token.old.table_id) }
    ensures token { token.new.me ≡ (emptied token.old.me.0, token.old.me.1) }
    ensures result { result.me ≡ (yielded token.old.me.0, []) }
{
    registry.shared.split_seat::<Yields>(token)
}

fn split_by<C: Count>(registry: &Registry, token: &mut Token, seats: u64, calls: usize) -> Token
    requires words { registry.now.shared.table_id.words ≡ 1 }
    requires token { token.old.table_id ≡ registry.now.shared.table_id }
    requires seats { (C.seats ≡ seats) × (C.calls ≡ calls) }
    requires cut { CanPart seats calls token.old.me.0 }
    ensures table { (token.new.table_id ≡ token.old.table_id) × (result.table_id ≡ token.old.table_id) }
    ensures token { token.new.me ≡ (first_part seats calls token.old.me.0, token.old.me.1) }
    ensures result { result.me ≡ (last_part seats calls token.old.me.0, []) }
{
    let _seats = seats;
    let _calls = calls;
    registry.shared.split_seat::<Parts<C>>(token)
}

/// A token with so many of the seats of this one, and the last so many of its calls.
pub(crate) fn split(registry: &Registry, token: &mut Token, seats: u64, calls: usize) -> Token
    requires words { registry.now.shared.table_id.words ≡ 1 }
    requires token { token.old.table_id ≡ registry.now.shared.table_id }
    requires cut { CanPart seats calls token.old.me.0 }
    ensures table { (token.new.table_id ≡ token.old.table_id) × (result.table_id ≡ token.old.table_id) }
    ensures token { token.new.me ≡ (first_part seats calls token.old.me.0, token.old.me.1) }
    ensures result { result.me ≡ (last_part seats calls token.old.me.0, []) }
{
    split_by::<Brand>(registry, token, seats, calls)
}

/// Gives a token all that another has.
pub(crate) fn lend(registry: &Registry, from: &mut Token, to: &mut Token)
    requires words { registry.now.shared.table_id.words ≡ 1 }
    requires from { from.old.table_id ≡ registry.now.shared.table_id }
    requires to { to.old.table_id ≡ registry.now.shared.table_id }
    requires keeps { from.old.me.0.keeps ≡ false }
    ensures tables { (from.new.table_id ≡ from.old.table_id) × (to.new.table_id ≡ to.old.table_id) }
    ensures from { from.new.me ≡ (holder 0 [], from.old.me.1) }
    ensures to { to.new.me ≡ (gathered to.old.me.0 from.old.me.0, to.old.me.1) }
{
    let part = leave(registry, from);
    join(registry, to, part);
}

fn enter_by<E: Entering>(registry: &Registry, keeper: &mut Token, pass: u64, call: &Made) -> Token
    requires words { registry.now.shared.table_id.words ≡ 1 }
    requires keeper { keeper.old.table_id ≡ registry.now.shared.table_id }
    requires call { E.call ≡ (pass, call.now) }
    requires keeps { keeper.old.me.0.keeps ≡ true }
    requires seats { ¬ (keeper.old.me.0.seats ≡ 0) }
    requires next { call.now.receipt.number ≡ length keeper.old.me.0.all + 1 }
    ensures table { (keeper.new.table_id ≡ keeper.old.table_id) × (result.table_id ≡ keeper.old.table_id) }
    ensures keeper { keeper.new.me ≡ (kept_call (pass, call.now) keeper.old.me.0, keeper.old.me.1) }
    ensures result { result.me ≡ (entered (pass, call.now) keeper.old.me.0, []) }
{
    let _pass = pass;
    let _number = call.receipt.number;
    registry.shared.split_seat::<Enters<E>>(keeper)
}

fn enter_named(registry: &Registry, keeper: &mut Token, pass: u64, call: &Made) -> Token
    requires words { registry.now.shared.table_id.words ≡ 1 }
    requires keeper { keeper.old.table_id ≡ registry.now.shared.table_id }
    requires keeps { keeper.old.me.0.keeps ≡ true }
    requires seats { ¬ (keeper.old.me.0.seats ≡ 0) }
    requires next { call.now.receipt.number ≡ length keeper.old.me.0.all + 1 }
    ensures table { (keeper.new.table_id ≡ keeper.old.table_id) × (result.table_id ≡ keeper.old.table_id) }
    ensures keeper { keeper.new.me ≡ (kept_call (pass, call.now) keeper.old.me.0, keeper.old.me.1) }
    ensures result { result.me ≡ (entered (pass, call.now) keeper.old.me.0, []) }
{
    enter_by::<Brand>(registry, keeper, pass, call)
}

/// Enters a call of a pass: the journal that the keeper knows has it more, and so have the calls of the pass's token.
pub(crate) fn enter(
    registry: &Registry,
    keeper: &mut Token,
    token: &mut Token,
    pass: u64,
    call: &Made,
)
    requires words { registry.now.shared.table_id.words ≡ 1 }
    requires tables { (keeper.old.table_id ≡ registry.now.shared.table_id) × (token.old.table_id ≡ registry.now.shared.table_id) }
    requires keeper { (keeper.old.me.0.keeps ≡ true) × (keeper.old.me.0.seats ≡ 0) × (keeper.old.me.0.calls ≡ []) }
    requires token { (token.old.me.0.keeps ≡ false) × (token.old.me.0.all ≡ []) × ¬ (token.old.me.0.seats ≡ 0) }
    requires next { call.now.receipt.number ≡ length keeper.old.me.0.all + 1 }
    ensures tables { (keeper.new.table_id ≡ keeper.old.table_id) × (token.new.table_id ≡ token.old.table_id) }
    ensures keeper { keeper.new.me ≡ (knower (keeper.old.me.0.all ++ entry_of (pass, call.now) ∷ []), keeper.old.me.1) }
    ensures token { token.new.me ≡ (holder token.old.me.0.seats (token.old.me.0.calls ++ (pass, call.now) ∷ []), token.old.me.1) }
{
    lend(registry, token, keeper);
    let more = enter_named(registry, keeper, pass, call);
    join(registry, token, more);
}

/// Compares a token with the journal that it knows.
pub(crate) fn look(registry: &Registry, keeper: &mut Token)
    requires words { registry.now.shared.table_id.words ≡ 1 }
    requires keeper { keeper.old.table_id ≡ registry.now.shared.table_id }
    requires keeps { keeper.old.me.0.keeps ≡ true }
    ensures table { keeper.new.table_id ≡ keeper.old.table_id }
    ensures same { keeper.new.me ≡ keeper.old.me }
    ensures told { IsTold keeper.old.me.0 }
{
    registry.shared.load::<Looks>(keeper, 0);
}

/// A token that knows nothing.
pub(crate) fn blank(registry: &Registry, token: &mut Token) -> Token
    requires words { registry.now.shared.table_id.words ≡ 1 }
    requires token { token.old.table_id ≡ registry.now.shared.table_id }
    ensures table { (token.new.table_id ≡ token.old.table_id) × (result.table_id ≡ token.old.table_id) }
    ensures token { token.new.me ≡ token.old.me }
    ensures result { result.me ≡ (marker false, []) }
{
    registry.shared.split_seat::<KnowsNothing>(token)
}

/// A token that knows that the journal is full.
fn know_full(registry: &Registry, keeper: &mut Token) -> Token
    requires words { registry.now.shared.table_id.words ≡ 1 }
    requires keeper { keeper.old.table_id ≡ registry.now.shared.table_id }
    requires keeps { keeper.old.me.0.keeps ≡ true }
    requires full { entry_limit ≤ length keeper.old.me.0.all }
    ensures table { (keeper.new.table_id ≡ keeper.old.table_id) × (result.table_id ≡ keeper.old.table_id) }
    ensures keeper { keeper.new.me ≡ keeper.old.me }
    ensures result { result.me ≡ (marker true, []) }
{
    registry.shared.split_seat::<KnowsFull>(keeper)
}

/// Takes the mark of a token off, and gives a token that has it.
fn unmark(registry: &Registry, token: &mut Token) -> Token
    requires words { registry.now.shared.table_id.words ≡ 1 }
    requires token { token.old.table_id ≡ registry.now.shared.table_id }
    ensures table { (token.new.table_id ≡ token.old.table_id) × (result.table_id ≡ token.old.table_id) }
    ensures token { token.new.me ≡ (unmarked token.old.me.0, token.old.me.1) }
    ensures result { result.me ≡ (marker token.old.me.0.full, []) }
{
    registry.shared.split_seat::<Unmarks>(token)
}

/// Gives a token the mark of another, which knows nothing else.
fn mark(registry: &Registry, token: &mut Token, other: Token)
    requires words { registry.now.shared.table_id.words ≡ 1 }
    requires token { token.old.table_id ≡ registry.now.shared.table_id }
    requires other { (other.table_id ≡ registry.now.shared.table_id) × (other.me.1 ≡ []) × (other.me.0.seats ≡ 0) × (other.me.0.calls ≡ []) }
    ensures table { token.new.table_id ≡ token.old.table_id }
    ensures token { token.new.me ≡ (marked token.old.me.0 other.me.0, token.old.me.1) }
{
    registry.shared.join_seat::<Marks>(token, other);
}

/// Marks a token: the journal is full.
pub(crate) fn mark_full(registry: &Registry, keeper: &mut Token, token: &mut Token)
    requires words { registry.now.shared.table_id.words ≡ 1 }
    requires tables { (keeper.old.table_id ≡ registry.now.shared.table_id) × (token.old.table_id ≡ registry.now.shared.table_id) }
    requires keeps { keeper.old.me.0.keeps ≡ true }
    requires full { entry_limit ≤ length keeper.old.me.0.all }
    ensures tables { (keeper.new.table_id ≡ keeper.old.table_id) × (token.new.table_id ≡ token.old.table_id) }
    ensures keeper { keeper.new.me ≡ keeper.old.me }
    ensures token { token.new.me ≡ (marked token.old.me.0 (marker true), token.old.me.1) }
{
    let known = know_full(registry, keeper);
    mark(registry, token, known);
}

/// Compares the mark of a token, which knows nothing else, with the journal that the keeper knows.
pub(crate) fn compare_mark(registry: &Registry, keeper: &mut Token, token: &mut Token)
    requires words { registry.now.shared.table_id.words ≡ 1 }
    requires tables { (keeper.old.table_id ≡ registry.now.shared.table_id) × (token.old.table_id ≡ registry.now.shared.table_id) }
    requires keeper { (keeper.old.me.0.keeps ≡ true) × (keeper.old.me.0.full ≡ false) }
    requires token { token.old.me ≡ (marker token.old.me.0.full, []) }
    ensures tables { (keeper.new.table_id ≡ keeper.old.table_id) × (token.new.table_id ≡ token.old.table_id) }
    ensures keeper { keeper.new.me ≡ keeper.old.me }
    ensures token { token.new.me ≡ token.old.me }
    ensures told { token.old.me.0.full ≡ true → entry_limit ≤ length keeper.old.me.0.all }
{
    let part = unmark(registry, token);
    mark(registry, keeper, part);
    look(registry, keeper);
    let back = unmark(registry, keeper);
    mark(registry, token, back);
}
