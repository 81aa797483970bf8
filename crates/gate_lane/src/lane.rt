//! The lane: lines read one after another, each answered before the next is read.
ghost use Rattle.std.specs.Prelude.{◌≡◌, ◌≢◌, [], true, OnOk, IfErr};
ghost use Rattle.gate_lane.specs.Lanes.{LaneRan};
ghost use Rattle.gate_lane.specs.Turns.{LineTaken, TurnTaken, LaneCame};

use crate::answer::{Answers, answer};
use gate_lines::{LaneFault, Lines, Next, Sink, Source};
use std::alloc::Global;

/// How a turn ended, with the number of reply lines that it wrote.
#[derive(Clone, Copy, PartialEq, Eq)]
pub(crate) enum Turn {
    Went(u64),
    Ended(u64),
}

/// What is kept from turn to turn: the lines, and the memory in which reply lines are made.
#[derive(Drop)]
struct Room {
    lines: Lines,
    reply: String,
}

/// Answers a line within the limits, and writes its reply line, which is made in `reply`.
fn respond<V, A: Answers<V>, W: Sink>(
    alloc: Global,
    answers: &A,
    value: &mut V,
    writer: &mut W,
    line: &[u8],
    reply: &mut String,
) -> Result<u64, LaneFault>
    ensures taken { LineTaken A.answers (W.contents writer.old) (W.contents writer.new) value.old line.now value.new result }
    ensures steady { W.steady ≡ true → IfErr result (λ fault. fault ≢ LaneFault.Write) }
{
    if !answer(alloc, answers, value, line, reply)? {
        return Ok(0);
    }
    writer.write_text(reply.as_bytes())?;
    Ok(1)
}

/// Reads the next line and answers it before anything more is read. What was written is sent on before a wait.
fn take_turn<V, A: Answers<V>, R: Source, W: Sink>(
    alloc: Global,
    answers: &A,
    value: &mut V,
    reader: &mut R,
    writer: &mut W,
    room: &mut Room,
) -> Result<Turn, LaneFault>
    ensures taken { TurnTaken A.answers room.old.lines.count room.new.lines.count (R.remaining reader.old) (R.remaining reader.new)
        (W.contents writer.old) (W.contents writer.new) value.old value.new result }
    ensures steady_reader { R.steady ≡ true → IfErr result (λ fault. fault ≢ LaneFault.Read) }
    ensures steady_writer { W.steady ≡ true → IfErr result (λ fault. fault ≢ LaneFault.Write) }
{
    match room.lines.next_or_send(reader, writer)? {
        Next::Whole => Ok(Turn::Went(respond(
            alloc,
            answers,
            value,
            writer,
            room.lines.line(),
            &mut room.reply,
        )?)),
        Next::Rest => Ok(Turn::Ended(respond(
            alloc,
            answers,
            value,
            writer,
            room.lines.line(),
            &mut room.reply,
        )?)),
        Next::End => Ok(Turn::Ended(0)),
        Next::TooLong => {
            writer.write_text(b"refused L2 line-too-long\n")?;
            Ok(Turn::Ended(1))
        }
        Next::TooMany => {
            writer.write_text(b"refused L3 too-many-lines\n")?;
            Ok(Turn::Ended(1))
        }
    }
}

/// Answers all lines, up to the first past a limit, and gives the number of reply lines. The last of them may not be sent
/// on yet.
fn answer_lines<V, A: Answers<V>, R: Source, W: Sink>(
    alloc: Global,
    answers: &A,
    value: &mut V,
    reader: &mut R,
    writer: &mut W,
) -> Result<u64, LaneFault>
    ensures came { LaneCame A.answers (R.remaining reader.old) (R.remaining reader.new) (W.contents writer.old) (W.contents writer.new)
        value.old value.new result }
    ensures steady_reader { R.steady ≡ true → IfErr result (λ fault. fault ≢ LaneFault.Read) }
    ensures steady_writer { W.steady ≡ true → IfErr result (λ fault. fault ≢ LaneFault.Write) }
{
    let mut count = 0;
    let mut room = Room {
        lines: Lines::new(alloc),
        reply: String::new(alloc),
    };
    loop {
        match take_turn(alloc, answers, value, reader, writer, &mut room)? {
            Turn::Went(replies) => count += replies,
            Turn::Ended(replies) => return Ok(count + replies),
        }
    }
}

/// Runs a lane to the end of its input, or to the first line past a limit, and gives the number of reply lines.
///
/// A reply line is out before the lane waits for more input, and all of them before it returns, if the writer can
/// send them on. After a fault the value is that of the lines answered. If the lane and then the writer's last sending
/// fail, the lane's fault is returned.
pub fn run_lane<V, A: Answers<V>, R: Source, W: Sink>(
    alloc: Global,
    answers: &A,
    value: &mut V,
    reader: &mut R,
    writer: &mut W,
) -> Result<u64, LaneFault>
    ensures ran { LaneRan A.answers (R.remaining reader.old) (R.remaining reader.new) (W.contents writer.old) (W.contents writer.new)
        value.old value.new result }
    ensures sent { OnOk result (W.held writer.new ≡ []) }
    ensures steady_reader { R.steady ≡ true → IfErr result (λ fault. fault ≢ LaneFault.Read) }
    ensures steady_writer { W.steady ≡ true → IfErr result (λ fault. fault ≢ LaneFault.Write) }
{
    let answered = answer_lines(alloc, answers, value, reader, writer);
    let sent = writer.send();
    let count = answered?;
    sent?;
    Ok(count)
}
