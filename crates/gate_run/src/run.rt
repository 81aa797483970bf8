//! `gate run`: an opening, and then a lane over the rest of the input.
ghost use Rattle.std.specs.Prelude.{◌≡◌, ◌≢◌, [], true, IfOk, IfErr, OnOk};
ghost use Rattle.gate_run.specs.GateJobs.{GateRan, GateStopped};

use crate::lane::run_lane_on;
use crate::onlooker::Onlooker;
use crate::refusal::refuse_opening;
use gate_lines::{LaneFault, Sink, Source};
use gate_opening::{OpeningFault, read_opening};
use std::alloc::Global;
use std::hash::BuildHasher;

/// Opens a gate from the front of the input, and runs a lane over the rest, with somebody who looks on: status 0. An
/// opening with a fault is refused by a line: status 2.
// If it were inlined, other jobs would keep its part of the stack, too.
#[inline(never)]
pub fn run_gate<S: BuildHasher + Copy + Drop, O: Onlooker<S>, R: Source, W: Sink>(
    alloc: Global,
    hasher: S,
    onlooker: &O,
    reader: &mut R,
    writer: &mut W,
) -> Result<u8, LaneFault>
    ensures done { IfOk result (λ status. GateRan (R.remaining reader.old) (W.contents writer.old) (W.contents writer.new) status) }
    ensures sent { OnOk result (W.held writer.new ≡ []) }
    ensures stopped { IfErr result (λ fault. GateStopped (R.remaining reader.old) (R.remaining reader.new) (W.contents writer.old) (W.contents writer.new) fault) }
    ensures steady_reader { R.steady ≡ true → IfErr result (λ fault. fault ≢ LaneFault.Read) }
    ensures steady_writer { W.steady ≡ true → IfErr result (λ fault. fault ≢ LaneFault.Write) }
{
    match read_opening(alloc, hasher, reader) {
        Ok(mut state) => {
            onlooker.begin();
            let ran = run_lane_on(alloc, onlooker, &mut state, reader, writer);
            onlooker.end(&state);
            drop(state);
            ran?;
            Ok(0)
        }
        Err(OpeningFault::Line(line, token)) => refuse_opening(alloc, writer, line, token),
        Err(OpeningFault::Read) => Err(LaneFault::Read),
        Err(OpeningFault::Memory) => Err(LaneFault::Memory),
    }
}
