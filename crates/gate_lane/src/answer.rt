//! What answers the events of a lane.
ghost use Rattle.std.specs.Prelude.{◌≡◌, ◌⊎◌, List, ℕ, OnOk, OnErr, IfOk, string_bytes};
ghost use Rattle.gate_lane.specs.Lanes.{Answering, EventAnswered};
ghost use Rattle.gate_message.specs.Texts.{reply_text};
ghost use Rattle.gate_lane.specs.Turns.{EventLost, AnswerMade, AnswerLost};

use gate_bytes::Memory;
use gate_events::event_on;
use gate_lines::is_blank_or_comment;
use gate_message::{Event, Reply};
use std::alloc::Global;

/// A way to answer events, which may change a value.
pub trait Answers<V> {
    // Which reply lines an event may have, from a value to a value.
    ghost answers: { Answering V };

    /// Replaces what `reply` holds with the reply line to an event, without its newline. If memory runs out, the value
    /// is as before or as after an answer.
    fn answer(&self, value: &mut V, event: &Event, reply: &mut String) -> Result<(), Memory>
        ensures ok { OnOk result (answers value.old event.now (string_bytes reply.new) value.new) }
        ensures err { OnErr result ((value.new ≡ value.old) ⊎ ((line : List ℕ) × answers value.old event.now line value.new)) };
}

/// Replaces what `reply` holds with a text, in the memory of `reply` if that has room.
pub fn set_text(reply: &mut String, text: &str) -> Result<(), Memory>
    ensures { OnOk result (string_bytes reply.new ≡ text.now) }
{
    reply.clear();
    Ok(reply.push_str(text)?)
}

/// Replaces what `reply` holds with the line of an answer, without its newline.
pub fn set_answer(alloc: Global, answer: &Reply, reply: &mut String) -> Result<(), Memory>
    ensures { OnOk result (string_bytes reply.new ≡ reply_text answer.now) }
{
    reply.clear();
    answer.push_text(alloc, reply)
}

/// Replaces what `reply` holds with the reply line to what a line spells.
fn answer_read<V, A: Answers<V>>(
    answers: &A,
    value: &mut V,
    event: &Option<Event>,
    reply: &mut String,
) -> Result<(), Memory>
    ensures ok { OnOk result (EventAnswered A.answers value.old event.now (string_bytes reply.new) value.new) }
    ensures err { OnErr result (EventLost A.answers value.old event.now value.new) }
{
    match event {
        Some(event) => answers.answer(value, event, reply),
        None => set_text(reply, "refused L1 bad-line"),
    }
}

/// Answers a line within the limits, and says whether it has a reply line: that line, with its newline, then stands in
/// `reply`. A line that is skipped has none.
pub(crate) fn answer<V, A: Answers<V>>(
    alloc: Global,
    answers: &A,
    value: &mut V,
    line: &[u8],
    reply: &mut String,
) -> Result<bool, Memory>
    ensures ok { IfOk result (λ is_answered. AnswerMade A.answers value.old line.now is_answered (string_bytes reply.new) value.new) }
    ensures err { OnErr result (AnswerLost A.answers value.old line.now value.new) }
{
    if is_blank_or_comment(line) {
        return Ok(false);
    }
    let event = event_on(alloc, line)?;
    let answered = answer_read(answers, value, &event, reply);
    drop(event);
    answered?;
    reply.push('\n')?;
    Ok(true)
}
