//! Rounds: gates one after another, each on the state that the one before led to.
ghost use Rattle.std.specs.Prelude.{◌≡◌, ◌≢◌, ◌↔◌, ◌+◌, [], true, length, IfErr, IfOk, IsOk, IsTrue, OnOk};
ghost use Rattle.std.specs.List.{All};
ghost use Rattle.gate_shared.specs.Tokens.{seat_limit};
ghost use Rattle.gate_lanes.specs.Ends.{all_given};
ghost use Rattle.gate_lanes.specs.Rounds.{Concludes, IsNextState, RoundRan, left_by};

use crate::lane::{Lane, LaneEnd};
use crate::run::run_lanes;
use gate_bytes::Memory;
use gate_core::State;
use gate_lines::{LaneFault, Sink, Source};
use gate_shared::{Base, Gate, Pass, Register, Rest, Settled, Unsettled, finish};
use gate_verify::{InputCheck, Workers};
use std::alloc::Global;
use std::hash::BuildHasher;
use std::marker::Brand;
use std::sync::Wait;
use std::thread::Threads;

/// What became of the passes of lanes and the journal of their gate. They settle: no pass and no journal is such that they
/// don't.
#[derive(Drop)]
pub enum Conclusion {
    /// The passes settle.
    Settles(Settled),
    /// Memory ran out before it was known how the passes settle.
    Unknown,
}

/// How a round ended: the end of each of its lanes, and how their passes settle.
#[derive(Drop)]
pub struct RoundEnd<W> {
    pub ends: Vec<LaneEnd<W>>,
    pub conclusion: Conclusion,
}

/// A round that ended, and the state that the next round begins with: there is one if this round settles and each of its
/// lanes went to its end.
#[derive(Drop)]
pub struct Round<S: BuildHasher + Copy + Drop, W> {
    pub end: RoundEnd<W>,
    pub next: Option<State<S>>,
}

impl<W> RoundEnd<W> {
    /// Whether each lane went to its end, or to the first line past a limit.
    pub fn is_whole(&self) -> bool
        ensures { IsTrue result ↔ All (λ end. IsOk end.result) self.now.ends.items }
    {
        self.ends.iter().all(|end| end.result.is_ok())
    }

    /// The state that the next round begins with, if this round led to a state.
    fn next<S: BuildHasher + Copy + Drop>(&self, led: Option<State<S>>) -> Option<State<S>>
        ensures { IsNextState (All (λ end. IsOk end.result) self.now.ends.items) led result }
    {
        if self.is_whole() {
            led
        } else {
            drop(led);
            None
        }
    }
}

/// The conclusion for all passes of a gate that were not settled: memory ran out.
fn unsettled(why: &Unsettled) -> Conclusion
    requires { why.now ≡ Unsettled.Memory }
    ensures { result ≡ Conclusion.Unknown }
{
    match why {
        Unsettled::Memory => Conclusion::Unknown,
        Unsettled::Missing(_) | Unsettled::CountDiffers { .. } => unreachable!(),
    }
}

/// Settles all passes of a gate with its journal, and takes the state out of the gate.
fn conclude<N: Base, S: BuildHasher + Copy + Drop>(
    alloc: Global,
    gate: Gate<N, S>,
    rest: Rest<N>,
    passes: Vec<Pass<N>>,
) -> (Conclusion, Option<State<S>>)
    requires { rest + length passes.items ≡ seat_limit }
    ensures { Concludes N.base passes.items result.0 result.1 }
{
    match finish(alloc, gate, rest, passes) {
        Ok((settled, state)) => {
            // Lending the entries makes the bound of the journal known.
            let _entries = settled.journal.entries();
            (Conclusion::Settles(settled), Some(state))
        }
        Err(refused) => {
            let conclusion = unsettled(&refused.fault.why);
            drop(refused);
            (conclusion, None)
        }
    }
}

/// Runs lanes over a gate on the state and with the register of a name, and ends the gate.
fn run_named<
    N: Base + Send + Sync,
    S: BuildHasher + Copy + Drop + Send + Sync,
    T: Threads + Wait + Sync,
    C: InputCheck + Sync,
    R: Source + Send + Drop,
    W: Sink + Send + Drop,
>(
    rt: &T,
    alloc: Global,
    state: State<S>,
    register: Register,
    check: &C,
    lanes: Vec<Lane<R, W>>,
    workers: Workers,
) -> Result<Round<S, W>, Memory>
where
    S::Hasher: Send + Sync,
    requires base { state ≡ N.base }
    requires registry { register ≡ N.registry }
    ensures ran { IfOk result (λ round. RoundRan N.base (all_given R.remaining W.contents lanes.items) (left_by W.contents round.end) round.next) }
    ensures sent { IfOk result (λ round. All (λ end. OnOk end.result (W.held end.writer ≡ [])) round.end.ends.items) }
    ensures steady_readers { R.steady ≡ true → IfOk result (λ round. All (λ end. IfErr end.result (λ fault. fault ≢ LaneFault.Read)) round.end.ends.items) }
    ensures steady_writers { W.steady ≡ true → IfOk result (λ round. All (λ end. IfErr end.result (λ fault. fault ≢ LaneFault.Write)) round.end.ends.items) }
{
    // There are more seats than a list of lanes can be long.
    let _count = lanes.len();
    let (gate, mut rest): (Gate<N, S>, Rest<N>) = Gate::open(alloc, state, register);
    match run_lanes(rt, alloc, &gate, &mut rest, check, lanes, workers) {
        Ok((ends, passes)) => {
            let (conclusion, led) = conclude(alloc, gate, rest, passes);
            let end = RoundEnd { ends, conclusion };
            let next = end.next(led);
            Ok(Round { end, next })
        }
        Err(Memory) => {
            drop(gate);
            drop(rest);
            Err(Memory)
        }
    }
}

/// Runs lanes over a gate on this state, as `run_lanes` does, settles their passes with its journal, and ends the gate.
/// They settle, unless memory runs out. If each lane went to its end, the state that the journal leads to is the next
/// round's: the gate of that round has an empty journal, its receipts begin at 1, and no pass of this round fits it.
///
/// `Memory` is that of a register or of `run_lanes`: what the lanes did and wrote is then lost.
pub fn run_round<
    S: BuildHasher + Copy + Drop + Send + Sync,
    T: Threads + Wait + Sync,
    C: InputCheck + Sync,
    R: Source + Send + Drop,
    W: Sink + Send + Drop,
>(
    rt: &T,
    alloc: Global,
    state: State<S>,
    check: &C,
    lanes: Vec<Lane<R, W>>,
    workers: Workers,
) -> Result<Round<S, W>, Memory>
where
    S::Hasher: Send + Sync,
    ensures ran { IfOk result (λ round. RoundRan state (all_given R.remaining W.contents lanes.items) (left_by W.contents round.end) round.next) }
    ensures sent { IfOk result (λ round. All (λ end. OnOk end.result (W.held end.writer ≡ [])) round.end.ends.items) }
    ensures steady_readers { R.steady ≡ true → IfOk result (λ round. All (λ end. IfErr end.result (λ fault. fault ≢ LaneFault.Read)) round.end.ends.items) }
    ensures steady_writers { W.steady ≡ true → IfOk result (λ round. All (λ end. IfErr end.result (λ fault. fault ≢ LaneFault.Write)) round.end.ends.items) }
{
    let register = Register::new(alloc)?;
    run_named::<Brand, S, T, C, R, W>(rt, alloc, state, register, check, lanes, workers)
}
