//! What is said of the reply to an event.
ghost use Rattle.std.specs.Prelude.{◌≡◌, None};
ghost use Rattle.gate_c.specs.Explanations.{IsNumbered, following};

use crate::remembered::Remembered;
use gate_bytes::Memory;
use gate_core::State;
use gate_message::Reply;
use std::alloc::Global;
use std::hash::RandomState;

/// What is said of the reply to an event.
#[derive(Drop)]
pub struct Explanation {
    /// The state that the event met. It is there for clauses alone, as the reply is, and takes no memory.
    pub before: Remembered<State<RandomState>>,
    /// The reply.
    pub reply: Remembered<Reply>,
    /// The line of the object, with its newline; empty if there is no object. It is `None` if memory ran out in it.
    pub text: Option<String>,
}

/// A line of an object, with its newline; empty if there is none.
fn object_line(alloc: Global, object: Option<String>) -> Result<String, Memory> {
    match object {
        Some(mut text) => {
            text.push('\n')?;
            Ok(text)
        }
        None => Ok(String::new(alloc)),
    }
}

impl Explanation {
    ghost use Rattle.gate_c.specs.Explanations.{IsOf};

    /// What is said of this reply, to an event that met this state, by an object.
    pub fn of(
        alloc: Global,
        before: Remembered<State<RandomState>>,
        reply: &Reply,
        object: Result<Option<String>, Memory>,
    ) -> Explanation
        ensures { IsOf before.value reply.now result }
    {
        let text = match object {
            Ok(object) => object_line(alloc, object).ok(),
            Err(_) => None,
        };
        Explanation {
            before,
            reply: Remembered::of(reply),
            text,
        }
    }
}

/// The number of the line behind this one, if lines are explained.
fn following(line: Option<u64>) -> Option<u64>
    ensures { result ≡ following line }
{
    match line {
        Some(number) => Some(number.saturating_add(1)),
        None => None,
    }
}

/// Begins a line: nothing is said yet, and the next one gets the next number. Gives the number of this one, if it is to be
/// explained.
pub fn begin_line(next: &mut Option<u64>, said: &mut Option<Explanation>) -> Option<u64>
    ensures line { result ≡ next.old }
    ensures next { next.new ≡ following next.old }
    ensures unsaid { said.new ≡ None }
{
    let line = *next;
    *next = following(line);
    *said = None;
    line
}

/// The number from which lines are explained; 0 is none.
pub fn numbered(line: u64) -> Option<u64>
    ensures { IsNumbered line result }
{
    if line == 0 { None } else { Some(line) }
}
