//! The step at small states, by computation.
ghost use Rattle.gate_core.specs.Examples.{CallSteps, GuardedSteps, LearningSteps, OfferSteps, PermittedSteps, SmallSteps};

/// The replies to peers, without permissions and with them, to users, and to the chain's caller.
pub(crate) fn small_steps()
    ensures small { SmallSteps }
    ensures permitted { PermittedSteps }
    ensures guarded { GuardedSteps }
    ensures offers { OfferSteps }
    ensures calls { CallSteps }
    ensures learning { LearningSteps }
{}
