//! What a line asks for, before it meets a state.
ghost use Rattle.std.specs.Prelude.{◌≡◌, IfOk, None, OnErr};
ghost use Rattle.gate_core.specs.Good.{StepGives};
ghost use Rattle.gate_core.specs.Steps.{step_of};
ghost use Rattle.gate_core.specs.World.{World};
ghost use Rattle.gate_c.specs.Explanations.{IsOf};
ghost use Rattle.gate_c.specs.Reached.{IsReached};

use crate::answer::Answer;
use crate::explanation::Explanation;
use crate::remembered::Remembered;
use gate_bytes::Memory;
use gate_core::{StepFault, Tracked};
use gate_events::event_on;
use gate_explain::{Seen, explain_reply};
use gate_lines::is_blank_or_comment;
use gate_message::{Event, Reply};
use std::alloc::Global;
use std::hash::RandomState;

/// What a line within the limits asks for. A transaction in it is decoded and hashed, and the rules on it alone are tested.
#[derive(Drop)]
pub enum Reading {
    /// The line asks for nothing.
    Nothing,
    /// The line has no form.
    BadLine,
    Event(Event),
}

/// The answer to what a line asks for, and what is said of it.
#[derive(Drop)]
pub struct Given {
    pub answer: Answer,
    pub explanation: Option<Explanation>,
}

impl Given {
    /// An answer of which nothing is said.
    fn unexplained(answer: Answer) -> Given
        ensures answer { result.answer ≡ answer }
        ensures unsaid { result.explanation ≡ None }
    {
        Given {
            answer,
            explanation: None,
        }
    }
}

/// The step of an event.
fn step(alloc: Global, tracked: &mut Tracked<RandomState>, event: &Event) -> Result<Reply, Memory>
    ensures made { IfOk result (λ reply. (reply, tracked.new.world) ≡ step_of tracked.old.world event.now) }
    ensures good { IfOk result (λ reply. StepGives tracked.old.world event.now reply tracked.new.world) }
    ensures reached { (opened : World) → IsReached opened tracked.old.world → IsReached opened tracked.new.world }
    ensures err { OnErr result (tracked.new.world ≡ tracked.old.world) }
    ensures moves { tracked.new.before ≡ tracked.old.world.pool }
{
    event.recall_spelled();
    match tracked.step(alloc, event) {
        Ok(reply) => Ok(reply),
        Err(StepFault::Memory) => Err(Memory),
    }
}

/// The step of an event on a line of this number, and what is said of its reply.
fn step_explained(
    alloc: Global,
    tracked: &mut Tracked<RandomState>,
    event: &Event,
    line: u64,
) -> Result<(Reply, Explanation), Memory>
    ensures made { IfOk result (λ told. (told.0, tracked.new.world) ≡ step_of tracked.old.world event.now) }
    ensures good { IfOk result (λ told. StepGives tracked.old.world event.now told.0 tracked.new.world) }
    ensures reached { (opened : World) → IsReached opened tracked.old.world → IsReached opened tracked.new.world }
    ensures err { OnErr result (tracked.new.world ≡ tracked.old.world) }
    ensures moves { tracked.new.before ≡ tracked.old.world.pool }
    ensures said { IfOk result (λ told. IsOf tracked.old.world told.0 told.1) }
{
    let before = Remembered::of(tracked.state());
    let seen = Seen::of(alloc, tracked.state(), event);
    let reply = step(alloc, tracked, event)?;
    let object = explain_reply(alloc, line, tracked.state(), &seen, event, &reply);
    let explanation = Explanation::of(alloc, before, &reply, object);
    Ok((reply, explanation))
}

impl Reading {
    ghost use Rattle.gate_c.specs.Explanations.{IsSaid};
    ghost use Rattle.gate_c.specs.Readings.{ReadingAnswered, Reads};

    /// Reads a line.
    pub fn of(alloc: Global, line: &[u8]) -> Result<Reading, Memory>
        ensures { IfOk result (Reads line.now) }
    {
        if is_blank_or_comment(line) {
            return Ok(Reading::Nothing);
        }
        match event_on(alloc, line)? {
            Some(event) => Ok(Reading::Event(event)),
            None => Ok(Reading::BadLine),
        }
    }

    /// The answer to what the line asks for, and what is said of it by the number of the line, if it has one. If memory runs
    /// out in the step, the state is unchanged. What has moved is then what this line moves: nothing, if it asks for no event.
    pub fn answer(
        &self,
        alloc: Global,
        tracked: &mut Tracked<RandomState>,
        line: Option<u64>,
    ) -> Result<Given, Memory>
        ensures ok { IfOk result (λ given. ReadingAnswered tracked.old.world self.now given.answer tracked.new.world) }
        ensures said { IfOk result (λ given. IsSaid tracked.old.world line given.answer given.explanation) }
        ensures reached { (opened : World) → IsReached opened tracked.old.world → IsReached opened tracked.new.world }
        ensures err { OnErr result (tracked.new.world ≡ tracked.old.world) }
        ensures moves { tracked.new.before ≡ tracked.old.world.pool }
    {
        match self {
            Reading::Nothing => {
                tracked.rest();
                Ok(Given::unexplained(Answer::Nothing))
            }
            Reading::BadLine => {
                tracked.rest();
                Ok(Given::unexplained(Answer::BadLine))
            }
            Reading::Event(event) => match line {
                Some(line) => {
                    let (reply, explanation) = step_explained(alloc, tracked, event, line)?;
                    Ok(Given {
                        answer: Answer::Reply(reply),
                        explanation: Some(explanation),
                    })
                }
                None => {
                    let reply = step(alloc, tracked, event)?;
                    Ok(Given::unexplained(Answer::Reply(reply)))
                }
            },
        }
    }
}
