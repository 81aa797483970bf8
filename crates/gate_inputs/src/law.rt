ghost use Rattle.gate_inputs.specs.Laws.{CostsAreExact, LegacySigopsAreExact};

/// That cost and count in the answers are exact for any input that a transaction has.
pub fn costs_are_exact()
    ensures costs { CostsAreExact }
    ensures counts { LegacySigopsAreExact }
{}
