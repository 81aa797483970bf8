//! The law above the definitions.
ghost use Rattle.gate_rounds.specs.PrintedReplies.{GateLanesAreRuns};

/// In each round that `gate lanes` runs, if all settle, the lanes write the reply lines of one run over the events of all
/// of them, each lane those of its own events, with `refused` and `fault` lines in their places; no event is answered in
/// two lanes. What `--journal` prints behind `settled N` is that run. An audit from the same opening finds these journals
/// legal, if their lines are within the limits of a reader.
pub fn gate_lanes_are_runs()
    ensures { GateLanesAreRuns }
{}
