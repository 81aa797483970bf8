//! Small inputs, by computation.
ghost use Rattle.gate_split.specs.Examples.{AloneExamples, PartedExamples, RoundExamples};

/// The rounds and lanes of small inputs.
pub(crate) fn small_inputs()
    ensures alone { AloneExamples }
    ensures parted { PartedExamples }
    ensures rounds { RoundExamples }
{}
