//! `gate lanes`: rounds of lanes, each lane on a thread of its own, and what is printed of them.
ghost use Rattle.std.specs.Prelude.{◌≡◌, ◌≢◌, ◌+◌, ◌<◌, ◌≤◌, [], true, length, map, None, Some, IsErrOf, IfErr, IfOk, OnOk};
ghost use Rattle.std.specs.Io.KnownBytes.{Appends};
ghost use Rattle.gate_journal.specs.Legal.{entry_limit};
ghost use Rattle.gate_lanes.specs.Ends.{given, lane_over};
ghost use Rattle.gate_split.specs.Parts.{lane_limit};
ghost use Rattle.gate_rounds.specs.LaneJobs.{LanesPrinted, LanesStopped, LanesPastLimits};
ghost use Rattle.gate_rounds.specs.LaneLines.{count_before, entries_by, told_text};
ghost use Rattle.gate_rounds.specs.LaneJobs.{Answered, GoesBehind, InputStopped, InputTold, IsUnreadable, RoundStopped, RoundTold, RoundsTold, RoundsStopped, lane_fault_of};
ghost use Rattle.gate_print.specs.Printing.{PartSent};
ghost use Rattle.gate_rounds.specs.Texts.{bytes_of, lists_of};

use crate::printing::{print_base, print_told};
use gate_bytes::Memory;
use gate_core::State;
use gate_lanes::{Conclusion, Lane, Round, run_round};
use gate_lines::{LaneFault, Sink, Source};
use gate_opening::{OpeningFault, read_opening};
use gate_run::refuse_opening;
use gate_split::{SplitFault, split_lanes};
use gate_verify::{PolicyCheck, Workers};
use std::alloc::Global;
use std::hash::BuildHasher;
use std::sync::Wait;
use std::thread::Threads;

/// The options of `gate lanes`.
#[derive(Clone, Copy, PartialEq, Eq)]
pub struct LanesOptions {
    /// How many threads check the inputs of a submission at once.
    pub workers: Workers,
    /// Whether the journal of the calls is printed.
    pub journal: bool,
}

/// Where a round starts: its state, and how many entries the rounds before it have, if there are any such rounds.
#[derive(Drop)]
pub(crate) struct RoundStart<S: BuildHasher + Copy + Drop> {
    pub(crate) state: State<S>,
    pub(crate) behind: Option<u64>,
}

/// Makes a lane over each of these byte strings, with an empty writer.
fn lanes_over<'a>(
    alloc: Global,
    parts: &'a [Vec<u8>],
) -> Result<Vec<Lane<&'a [u8], Vec<u8>>>, Memory>
    ensures { IfOk result (λ lanes. map (λ lane. given (Some lane.reader.now) (Some lane.writer.items)) lanes.items ≡ map lane_over (bytes_of parts.now)) }
{
    let mut lanes = Vec::new(alloc);
    for bytes in parts {
        lanes.push(Lane {
            reader: bytes.as_slice(),
            writer: Vec::new(alloc),
        })?;
    }
    Ok(lanes)
}

/// Runs a round over a gate on this state, with a lane over each of these byte strings.
fn answer_round<S: BuildHasher + Copy + Drop + Send + Sync, T: Threads + Wait + Sync>(
    rt: &T,
    alloc: Global,
    state: State<S>,
    workers: Workers,
    parts: &[Vec<u8>],
) -> Result<Round<S, Vec<u8>>, Memory>
where
    S::Hasher: Send + Sync,
    ensures { IfOk result (λ round. Answered state (bytes_of parts.now) round.end round.next) }
{
    match lanes_over(alloc, parts) {
        Ok(lanes) => run_round(rt, alloc, state, &PolicyCheck, lanes, workers),
        Err(Memory) => {
            drop(state);
            Err(Memory)
        }
    }
}

/// How many entries a conclusion settles.
fn entries_of(conclusion: &Conclusion) -> u64
    ensures { result ≡ entries_by conclusion.now }
{
    match conclusion {
        Conclusion::Settles(settled) => settled.count,
        Conclusion::Unknown => 0,
    }
}

/// How many entries the rounds before a round have.
fn count_of(behind: Option<u64>) -> u64
    ensures { result ≡ count_before behind }
{
    match behind {
        Some(count) => count,
        None => 0,
    }
}

/// Where the next round starts after one that starts behind this many entries. If it leads to no state, memory ran out.
fn next_start<S: BuildHasher + Copy + Drop>(
    behind: Option<u64>,
    round: Round<S, Vec<u8>>,
) -> Result<RoundStart<S>, Memory>
    requires { count_before behind + entries_by round.end.conclusion ≤ 6500000 }
    ensures { IfOk result (λ later. GoesBehind behind round.end.conclusion round.next later.state later.behind) }
{
    let Round { end, next } = round;
    let count = count_of(behind) + entries_of(&end.conclusion);
    drop(end);
    match next {
        Some(state) => Ok(RoundStart {
            state,
            behind: Some(count),
        }),
        None => Err(Memory),
    }
}

/// Prints the end of a round, and gives where the next round starts.
fn end_round<S: BuildHasher + Copy + Drop, W: Sink>(
    alloc: Global,
    writer: &mut W,
    behind: Option<u64>,
    round: Round<S, Vec<u8>>,
    journal: bool,
) -> Result<RoundStart<S>, LaneFault>
    requires { count_before behind + entries_by round.end.conclusion ≤ 6500000 }
    ensures done { OnOk result (Appends (W.contents writer.old) (W.contents writer.new) (told_text journal round.end)) }
    ensures next { IfOk result (λ later. GoesBehind behind round.end.conclusion round.next later.state later.behind) }
    ensures sent { OnOk result (W.held writer.new ≡ []) }
    ensures stopped { IfErr result (λ fault. PartSent (W.contents writer.old) (W.contents writer.new) (told_text journal round.end) × (fault ≢ LaneFault.Read)) }
    ensures steady { W.steady ≡ true → IfErr result (λ fault. fault ≢ LaneFault.Write) }
{
    if let Err(fault) = print_told(alloc, writer, &round.end, journal) {
        drop(round);
        return Err(fault);
    }
    Ok(next_start(behind, round)?)
}

/// Runs a round and prints it, behind the line of its base if there are rounds before it, and gives where the next round
/// starts.
fn run_one<S: BuildHasher + Copy + Drop + Send + Sync, T: Threads + Wait + Sync, W: Sink>(
    rt: &T,
    alloc: Global,
    start: RoundStart<S>,
    options: &LanesOptions,
    parts: &[Vec<u8>],
    writer: &mut W,
) -> Result<RoundStart<S>, LaneFault>
where
    S::Hasher: Send + Sync,
    requires { count_before start.behind ≤ 6400000 }
    ensures done { IfOk result (λ later. RoundTold options.now.journal start.state start.behind (bytes_of parts.now)
        (W.contents writer.old) (W.contents writer.new) later.state later.behind) }
    ensures bound { IfOk result (λ later. count_before later.behind ≤ count_before start.behind + entry_limit) }
    ensures sent { OnOk result (W.held writer.new ≡ []) }
    ensures stopped { IfErr result (λ fault. RoundStopped options.now.journal start.state start.behind (bytes_of parts.now)
        (W.contents writer.old) (W.contents writer.new) × (fault ≢ LaneFault.Read)) }
    ensures steady { W.steady ≡ true → IfErr result (λ fault. fault ≢ LaneFault.Write) }
{
    if let Err(fault) = print_base(alloc, writer, start.behind) {
        drop(start);
        return Err(fault);
    }
    let RoundStart { state, behind } = start;
    let round = answer_round(rt, alloc, state, options.workers, parts)?;
    end_round(alloc, writer, behind, round, options.journal)
}

/// Runs rounds one after another, each over a gate on the state that the round before leads to, and prints each as it
/// ends. After a round in which memory ran out, no round is run.
fn run_rounds<S: BuildHasher + Copy + Drop + Send + Sync, T: Threads + Wait + Sync, W: Sink>(
    rt: &T,
    alloc: Global,
    state: State<S>,
    options: &LanesOptions,
    rounds: &[Vec<Vec<u8>>],
    writer: &mut W,
) -> Result<u8, LaneFault>
where
    S::Hasher: Send + Sync,
    requires some { 0 < length rounds.now }
    requires few { length rounds.now ≤ lane_limit }
    ensures done { IfOk result (λ status. RoundsTold options.now.journal state None (lists_of rounds.now) (W.contents writer.old) (W.contents writer.new) × (status ≡ 0)) }
    ensures sent { OnOk result (W.held writer.new ≡ []) }
    ensures stopped { IfErr result (λ fault. RoundsStopped options.now.journal state None (lists_of rounds.now) (W.contents writer.old) (W.contents writer.new)
        × (fault ≢ LaneFault.Read)) }
    ensures steady { W.steady ≡ true → IfErr result (λ fault. fault ≢ LaneFault.Write) }
{
    let mut start = RoundStart {
        state,
        behind: None,
    };
    for lanes in rounds {
        start = run_one(rt, alloc, start, options, lanes.as_slice(), writer)?;
    }
    drop(start);
    Ok(0)
}

/// The fault of a job whose input could not be divided into rounds.
fn lane_fault(fault: SplitFault) -> LaneFault
    ensures { result ≡ lane_fault_of fault }
{
    match fault {
        SplitFault::Read | SplitFault::TooManyLanes => LaneFault::Read,
        SplitFault::Memory => LaneFault::Memory,
    }
}

/// Reads all rounds, and runs them one after another, the first over a gate on this state.
fn run_input<
    S: BuildHasher + Copy + Drop + Send + Sync,
    T: Threads + Wait + Sync,
    R: Source,
    W: Sink,
>(
    rt: &T,
    alloc: Global,
    state: State<S>,
    options: LanesOptions,
    reader: &mut R,
    writer: &mut W,
) -> Result<u8, LaneFault>
where
    S::Hasher: Send + Sync,
    ensures done { IfOk result (λ status. InputTold options.journal state (R.remaining reader.old) (W.contents writer.old) (W.contents writer.new) status) }
    ensures sent { OnOk result (W.held writer.new ≡ []) }
    ensures stopped { IfErr result (InputStopped options.journal state (R.remaining reader.old) (W.contents writer.old) (W.contents writer.new)) }
    ensures past { R.steady ≡ true → IsErrOf result LaneFault.Read → IsUnreadable (R.remaining reader.old) }
    ensures steady_writer { W.steady ≡ true → IfErr result (λ fault. fault ≢ LaneFault.Write) }
{
    match split_lanes(alloc, reader) {
        Ok(rounds) => run_rounds(rt, alloc, state, &options, rounds.as_slice(), writer),
        Err(fault) => {
            drop(state);
            Err(lane_fault(fault))
        }
    }
}

/// Opens a gate from the front of the input, and runs the rounds behind it one after another: the lanes of a round are
/// answered at once, each on a thread of its own. As each round ends it prints what was written in each lane in turn,
/// how many calls were settled, and the journal if it is asked for. The status is 0: all rounds settle. An opening with a
/// fault is refused by a line: status 2.
pub fn run_lanes_job<
    T: Threads + Wait + Sync,
    S: BuildHasher + Copy + Drop + Send + Sync,
    R: Source,
    W: Sink,
>(
    rt: &T,
    alloc: Global,
    hasher: S,
    options: LanesOptions,
    reader: &mut R,
    writer: &mut W,
) -> Result<u8, LaneFault>
where
    S::Hasher: Send + Sync,
    ensures done { IfOk result (λ status. LanesPrinted options.journal (R.remaining reader.old) (W.contents writer.old) (W.contents writer.new) status) }
    ensures sent { OnOk result (W.held writer.new ≡ []) }
    ensures stopped { IfErr result
        (LanesStopped options.journal (R.remaining reader.old) (R.remaining reader.new) (W.contents writer.old) (W.contents writer.new)) }
    ensures steady_reader { R.steady ≡ true → IfErr result (λ fault. fault ≡ LaneFault.Read → LanesPastLimits (R.remaining reader.old)) }
    ensures steady_writer { W.steady ≡ true → IfErr result (λ fault. fault ≢ LaneFault.Write) }
{
    match read_opening(alloc, hasher, reader) {
        Ok(state) => run_input(rt, alloc, state, options, reader, writer),
        Err(OpeningFault::Line(line, token)) => refuse_opening(alloc, writer, line, token),
        Err(OpeningFault::Read) => Err(LaneFault::Read),
        Err(OpeningFault::Memory) => Err(LaneFault::Memory),
    }
}
