//! The end of a gate.
ghost use Rattle.std.specs.Prelude.{◌≡◌, ◌+◌, length, IfOk, IfErr};
ghost use Rattle.std.specs.List.{All};
ghost use Rattle.gate_journal.specs.Legal.{state_after};
ghost use Rattle.gate_shared.specs.Calls.{IsFullIfMet};
ghost use Rattle.gate_shared.specs.Ends.{EndsGood};
ghost use Rattle.gate_shared.specs.Held.{IsHeld};
ghost use Rattle.gate_shared.specs.Settling.{IsNotMissing, SettlesAll, IsSettled, WhyUnsettled};
ghost use Rattle.gate_shared.specs.Tokens.{seat_limit};
ghost use Rattle.gate_shared.specs.declared.settle.Unsettled.TheVariants.{Memory as OutOfMemory};

use crate::base::Base;
use crate::gate::Gate;
use crate::pass::Pass;
use crate::seat::Rest;
use crate::settle::{SettleFault, Settled};
use crate::shared::Shared;
use gate_core::State;
use std::alloc::Global;
use std::hash::BuildHasher;

/// Why a gate was not finished, with the value that lay under its lock, as it was, the seats that were left, and the
/// passes. `Gate::of` makes a gate that goes on with that value.
#[derive(Drop)]
pub struct FinishFault<N: Base, S: BuildHasher + Copy + Drop> {
    pub shared: Shared<N, S>,
    pub rest: Rest<N>,
    pub fault: SettleFault<N>,
}

impl<N: Base, S: BuildHasher + Copy + Drop> Shared<N, S> {
    /// Settles the passes with the journal, and takes journal and state out: neither is copied. A fault hands back this
    /// value, the seats and the passes.
    ///
    /// All seats are back if each is one that is left, or that of one of these passes. The passes then settle, unless
    /// memory runs out.
    pub fn finish(
        mut self,
        alloc: Global,
        mut rest: Rest<N>,
        mut passes: Vec<Pass<N>>,
    ) -> Result<(Settled, State<S>), FinishFault<N, S>>
        ensures held { IsHeld N.base self }
        ensures ok { IfOk result (λ r. IsSettled self.journal passes.items r.0 × (r.1 ≡ self.state)) }
        ensures good { IfOk result (λ r. EndsGood N.base passes.items r.1) }
        ensures full { IfOk result (λ r. All (IsFullIfMet r.0.journal.entries) passes.items) }
        ensures shared { IfErr result (λ e. e.shared ≡ self) }
        ensures rest { IfErr result (λ e. e.rest ≡ rest) }
        ensures fault { IfErr result (λ e. WhyUnsettled e.shared.journal passes.items e.fault.why × (e.fault.passes.items ≡ passes.items)) }
        ensures stand { IfErr result (λ e. IsNotMissing e.fault.why) }
        ensures settles { rest + length passes.items ≡ seat_limit → IfErr result (λ e. e.fault.why ≡ OutOfMemory) }
    {
        self.audit(&mut rest, &mut passes);
        match self.owners(alloc, passes) {
            Ok(owners) => Ok(self.into_settled(owners)),
            Err(fault) => Err(FinishFault {
                shared: self,
                rest,
                fault,
            }),
        }
    }
}

/// Settles the passes, and takes the state out of the gate: it is the one that the settled journal leads to. A fault
/// hands back the value under the lock, the seats and the passes.
///
/// All seats are back if each is one that is left, or that of one of these passes. The passes then settle, unless memory
/// runs out.
pub fn finish<N: Base, S: BuildHasher + Copy + Drop>(
    alloc: Global,
    gate: Gate<N, S>,
    rest: Rest<N>,
    passes: Vec<Pass<N>>,
) -> Result<(Settled, State<S>), FinishFault<N, S>>
    ensures ok { IfOk result (λ r. SettlesAll N.base passes.items r.0 × (r.1 ≡ state_after N.base r.0.journal.entries)) }
    ensures good { IfOk result (λ r. EndsGood N.base passes.items r.1) }
    ensures full { IfOk result (λ r. All (IsFullIfMet r.0.journal.entries) passes.items) }
    ensures held { IfErr result (λ e. IsHeld N.base e.shared) }
    ensures rest { IfErr result (λ e. e.rest ≡ rest) }
    ensures err { IfErr result (λ e. WhyUnsettled e.shared.journal passes.items e.fault.why × (e.fault.passes.items ≡ passes.items)) }
    ensures stand { IfErr result (λ e. IsNotMissing e.fault.why) }
    ensures settles { rest + length passes.items ≡ seat_limit → IfErr result (λ e. e.fault.why ≡ OutOfMemory) }
{
    gate.into_shared().finish(alloc, rest, passes)
}
