//! One state under one lock, for many callers.
ghost use Rattle.std.specs.Prelude.{◌≡◌, ◌+◌, ◌<◌, ◌≤◌, [], false, length, IfOk, IfErr, IsErrOf};
ghost use Rattle.gate_message.specs.Callers.{caller_of};
ghost use Rattle.gate_shared.specs.Calls.{call_limit};
ghost use Rattle.std.specs.Option.{option_copied};
ghost use Rattle.gate_core.specs.Submissions.{StandsFor, submission_of};
ghost use Rattle.gate_shared.specs.Held.{Called, Enrolled, Grows, IsHeld, IsNotShort, IsRecorded, Looked, left_by};
ghost use Rattle.gate_shared.specs.Tokens.{seat_limit};

use crate::base::Base;
use crate::pass::Pass;
use crate::receipt::Receipt;
use crate::register::Register;
use crate::seat::{Rest, Seat};
use crate::shared::{CallFault, Shared};
use gate_bytes::Memory;
use gate_core::State;
use gate_message::{Caller, Event};
use gate_submission::Prepared;
use gate_tx::Coin;
use std::alloc::Global;
use std::hash::BuildHasher;
use std::sync::{Mutex, Wait};

/// One state under one lock. Each call is one step of it and one entry of its journal.
///
/// No clause names the value that lies under the lock. The calls of `Shared` say exactly how one call changes it; a
/// call here says that there was such a value.
#[derive(Drop)]
pub struct Gate<N: Base, S: BuildHasher + Copy + Drop> {
    shared: Mutex<Shared<N, S>>,
}

impl<N: Base, S: BuildHasher + Copy + Drop> Gate<N, S> {
    /// A gate on the state of its name, with an empty journal, and all seats.
    pub fn open(alloc: Global, state: State<S>, register: Register) -> (Gate<N, S>, Rest<N>)
        requires base { state ≡ N.base }
        requires registry { register ≡ N.registry }
        ensures { result.1 ≡ seat_limit }
    {
        let (shared, rest) = Shared::new(alloc, state, register);
        (Gate::of(shared), rest)
    }

    /// A gate that goes on with this state and journal.
    pub fn of(shared: Shared<N, S>) -> Gate<N, S> {
        Gate {
            shared: Mutex::new(shared),
        }
    }

    /// The value that lay under the lock.
    pub fn into_shared(self) -> Shared<N, S>
        ensures { IsHeld N.base result }
    {
        let Gate { shared } = self;
        let shared = shared.into_inner();
        shared.recall_held();
        shared
    }

    /// One of the seats that are left.
    pub fn seat<R: Wait>(&self, rt: &R, rest: &mut Rest<N>) -> Seat<N>
        requires { 0 < rest.old }
        ensures { rest.new + 1 ≡ rest.old }
    {
        self.shared.lock(rt).seat(rest)
    }

    /// Puts a seat back to those that are left.
    pub fn take_back<R: Wait>(&self, rt: &R, rest: &mut Rest<N>, seat: Seat<N>)
        ensures { rest.new ≡ rest.old + 1 }
    {
        self.shared.lock(rt).take_back(rest, seat);
    }

    /// A pass of a caller, with no calls and the next number. Out of memory, the seat is handed back.
    pub fn enroll<R: Wait>(
        &self,
        rt: &R,
        alloc: Global,
        seat: Seat<N>,
        caller: &Caller,
    ) -> Result<Pass<N>, Seat<N>>
        ensures enrolled { IfOk result (Enrolled N.base caller.now) }
        ensures caller { IfOk result (λ p. p.caller ≡ caller.now) }
        ensures calls { IfOk result (λ p. p.calls ≡ []) }
        ensures met_full { IfOk result (λ p. p.met_full ≡ false) }
    {
        self.shared.lock(rt).enroll(alloc, seat, caller)
    }

    /// The coin of each input of a submission, in their order; None for an input that has no coin at that moment.
    /// Nothing changes.
    ///
    /// A coin that is found may be gone when the submission is made: a report that was made on it is then not used.
    pub fn look<R: Wait>(
        &self,
        rt: &R,
        alloc: Global,
        submission: &Prepared,
    ) -> Result<Vec<Option<Coin>>, Memory>
        ensures { IfOk result (λ coins. Looked N.base submission.now coins.items) }
    {
        let shared = self.shared.lock(rt);
        shared.recall_held();
        shared.look(alloc, submission)
    }

    /// Makes an event under a pass, as one step of the gate. After a fault the pass has the calls that it had; contracts see
    /// that it met a full journal.
    pub fn call<R: Wait>(
        &self,
        rt: &R,
        alloc: Global,
        pass: &mut Pass<N>,
        event: &Event,
    ) -> Result<Receipt, CallFault>
        ensures called { Called N.base pass.old pass.new event.now result }
        ensures grows { IfOk result (Grows pass.old pass.new event.now) }
        ensures recorded { IfOk result (IsRecorded N.base pass.old event.now) }
        ensures kept { IfErr result (λ fault. pass.new ≡ left_by fault pass.old) }
        ensures stand { IfErr result IsNotShort }
        ensures wrong_caller { ¬ (caller_of event.now ≡ pass.old.caller) → IsErrOf result CallFault.WrongCaller }
        ensures pass_full { caller_of event.now ≡ pass.old.caller → call_limit ≤ length pass.old.calls → IsErrOf result CallFault.PassFull }
    {
        self.shared.lock(rt).apply(alloc, pass, event)
    }

    /// Makes an event under a pass, as `call` does. `prepared`, which may stand for the event's submission, is the same
    /// transaction, but may have reports on its inputs, which neither the journal nor the pass keeps: the call then
    /// takes less time under the lock.
    pub fn call_prepared<R: Wait>(
        &self,
        rt: &R,
        alloc: Global,
        pass: &mut Pass<N>,
        event: &Event,
        prepared: Option<&Prepared>,
    ) -> Result<Receipt, CallFault>
        requires { StandsFor (option_copied prepared) (submission_of event.now) }
        ensures called { Called N.base pass.old pass.new event.now result }
        ensures grows { IfOk result (Grows pass.old pass.new event.now) }
        ensures recorded { IfOk result (IsRecorded N.base pass.old event.now) }
        ensures kept { IfErr result (λ fault. pass.new ≡ left_by fault pass.old) }
        ensures stand { IfErr result IsNotShort }
        ensures wrong_caller { ¬ (caller_of event.now ≡ pass.old.caller) → IsErrOf result CallFault.WrongCaller }
        ensures pass_full { caller_of event.now ≡ pass.old.caller → call_limit ≤ length pass.old.calls → IsErrOf result CallFault.PassFull }
    {
        self.shared
            .lock(rt)
            .apply_prepared(alloc, pass, event, prepared)
    }
}
