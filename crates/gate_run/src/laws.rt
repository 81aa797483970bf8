//! Laws above the definitions.
ghost use Rattle.gate_run.specs.FaultedRuns.{FaultedLanesAreRuns, FaultedGateRunsAreRuns};
ghost use Rattle.gate_run.specs.GateRuns.{GateRunsAreRuns};
ghost use Rattle.gate_run.specs.LaneRuns.{LanesAreRuns};

/// The reply lines of a lane in which no step ran out of memory are those of the run over the events that its lines
/// spell, with `refused` lines in their places, and the state is the run's. A good state stays good, and families keep to
/// its policy, as long as no two transactions with different stripped forms share a txid.
pub fn lanes_are_runs()
    ensures { LanesAreRuns }
{}

/// `gate run` writes the reply lines of the run. At each point of it the state is good, and families keep to the policy of
/// the opening, if the transactions up to there are apart.
pub fn gate_runs_are_runs()
    ensures { GateRunsAreRuns }
{}

/// If memory ran out in some steps of a lane, the reply lines except `fault memory`, and the state, are those of the
/// run over the events that were answered.
pub fn faulted_lanes_are_runs()
    ensures { FaultedLanesAreRuns }
{}

/// Except for lines `fault memory`, `gate run` writes the reply lines of the run over the events that were answered, whose
/// states stay good in the same way.
pub fn faulted_gate_runs_are_runs()
    ensures { FaultedGateRunsAreRuns }
{}
