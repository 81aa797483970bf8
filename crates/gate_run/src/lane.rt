//! The lane over a state.
ghost use Rattle.std.specs.Prelude.{◌≡◌, ◌≢◌, [], true, IfOk, IfErr, OnOk, IsErrOf};
ghost use Rattle.gate_run.specs.Lanes.{LaneDone, LaneUnread, StoppedBy};

use crate::onlooker::Onlooker;
use gate_bytes::Memory;
use gate_core::State;
use gate_lane::{Answers, set_answer, set_text};
use gate_lines::{LaneFault, Sink, Source};
use gate_message::Event;
use std::alloc::Global;
use std::hash::BuildHasher;

/// The way to answer events by steps of a state, with somebody who looks on.
#[derive(Drop)]
struct Stepping<'a, O> {
    alloc: Global,
    onlooker: &'a O,
}

impl<S: BuildHasher + Copy + Drop, O: Onlooker<S>> Answers<State<S>> for Stepping<'_, O> {
    ghost use Rattle.gate_run.specs.Lanes.{Steps};

    ghost answers = { Steps };

    /// A step in which memory ran out has a reply line too: `fault memory`.
    fn answer(
        &self,
        state: &mut State<S>,
        event: &Event,
        reply: &mut String,
    ) -> Result<(), Memory> {
        let sight = self.onlooker.before(state, event);
        match state.step(self.alloc, event) {
            Ok(answer) => {
                self.onlooker.after(sight, state, event, Some(&answer));
                set_answer(self.alloc, &answer, reply)
            }
            Err(_) => {
                self.onlooker.after(sight, state, event, None);
                set_text(reply, "fault memory")
            }
        }
    }
}

/// Runs a lane to the end of its input, or to the first line past a limit, and gives the number of reply lines.
///
/// A reply line is out before the lane waits for more input, and all of them before it returns, if the writer can
/// send them on. After a fault the state is that of the lines answered. If the lane and then the writer's last sending
/// fail, the lane's fault is returned.
pub fn run_lane<S: BuildHasher + Copy + Drop, R: Source, W: Sink>(
    alloc: Global,
    state: &mut State<S>,
    reader: &mut R,
    writer: &mut W,
) -> Result<u64, LaneFault>
    ensures done { IfOk result (λ count.
        LaneDone (R.remaining reader.old) (W.contents writer.old) (W.contents writer.new) state.old state.new count) }
    ensures sent { OnOk result (W.held writer.new ≡ []) }
    ensures unread { IsErrOf result LaneFault.Read →
        LaneUnread (R.remaining reader.old) (R.remaining reader.new) (W.contents writer.old) (W.contents writer.new) state.old state.new }
    ensures unwritten { IsErrOf result LaneFault.Write →
        StoppedBy LaneFault.Write 0 (R.remaining reader.old) (W.contents writer.old) (W.contents writer.new) state.old state.new }
    ensures memory { IsErrOf result LaneFault.Memory →
        StoppedBy LaneFault.Memory 0 (R.remaining reader.old) (W.contents writer.old) (W.contents writer.new) state.old state.new }
    ensures steady_reader { R.steady ≡ true → IfErr result (λ fault. fault ≢ LaneFault.Read) }
    ensures steady_writer { W.steady ≡ true → IfErr result (λ fault. fault ≢ LaneFault.Write) }
{
    let answers = Stepping {
        alloc,
        onlooker: &(),
    };
    gate_lane::run_lane(alloc, &answers, state, reader, writer)
}

/// Runs a lane as [`run_lane`] does, with somebody who looks on.
pub fn run_lane_on<S: BuildHasher + Copy + Drop, O: Onlooker<S>, R: Source, W: Sink>(
    alloc: Global,
    onlooker: &O,
    state: &mut State<S>,
    reader: &mut R,
    writer: &mut W,
) -> Result<u64, LaneFault>
    ensures done { IfOk result (λ count.
        LaneDone (R.remaining reader.old) (W.contents writer.old) (W.contents writer.new) state.old state.new count) }
    ensures sent { OnOk result (W.held writer.new ≡ []) }
    ensures unread { IsErrOf result LaneFault.Read →
        LaneUnread (R.remaining reader.old) (R.remaining reader.new) (W.contents writer.old) (W.contents writer.new) state.old state.new }
    ensures unwritten { IsErrOf result LaneFault.Write →
        StoppedBy LaneFault.Write 0 (R.remaining reader.old) (W.contents writer.old) (W.contents writer.new) state.old state.new }
    ensures memory { IsErrOf result LaneFault.Memory →
        StoppedBy LaneFault.Memory 0 (R.remaining reader.old) (W.contents writer.old) (W.contents writer.new) state.old state.new }
    ensures steady_reader { R.steady ≡ true → IfErr result (λ fault. fault ≢ LaneFault.Read) }
    ensures steady_writer { W.steady ≡ true → IfErr result (λ fault. fault ≢ LaneFault.Write) }
{
    let answers = Stepping { alloc, onlooker };
    gate_lane::run_lane(alloc, &answers, state, reader, writer)
}
