//! What an open handle leads to: a state, the one that its opening gave, and the answer to the last line with what that
//! moved, and what is said of it.
ghost use Rattle.std.specs.Prelude.{◌≡◌, ◌≢◌, IfOk, IfErr, OnOk, OnErr, Ok, Err, ℕ, string_bytes};
ghost use Rattle.gate_core.specs.Good.{IsGoodWorld};
ghost use Rattle.gate_lines.specs.Lines.{unlines};
ghost use Rattle.gate_opening.specs.Said.{spelled};
ghost use Rattle.gate_c.specs.Answers.{answer_lines};
ghost use Rattle.gate_c.specs.Reached.{IsReached};

use crate::answer::Answer;
use crate::changes::moved_text;
use crate::explanation::{Explanation, begin_line, numbered};
use crate::keys::Keys;
use crate::reading::{Given, Reading};
use crate::remembered::Remembered;
use gate_bytes::Memory;
use gate_core::{State, Tracked};
use gate_opening::{OpeningFault, OpeningToken, read_opening};
use std::alloc::Global;
use std::hash::RandomState;

/// A gate that was opened, and has answered lines.
#[derive(Drop)]
pub struct GateSession {
    /// The state, and what the last line moved.
    pub tracked: Tracked<RandomState>,
    /// The state that the opening gave. It is there for clauses alone, and takes no memory.
    pub opened: Remembered<State<RandomState>>,
    /// The answer to the last line.
    pub answer: Answer,
    /// The memory in which the text of the last answer is made.
    pub text: String,
    /// The number of the next line, if lines are explained.
    pub next_line: Option<u64>,
    /// What is said of the last line, if it was explained, and asked for an event.
    pub explanation: Option<Explanation>,
    // The state is the end of a run from the one that the opening gave, whatever lines were answered.
    ghost reached: { IsReached opened.value tracked.world },
}

/// The state that an opening spells.
fn read_state(
    alloc: Global,
    hasher: RandomState,
    opening: &[u8],
) -> Result<State<RandomState>, OpeningFault>
    ensures opened { IfOk result (λ state. spelled opening.now ≡ Ok state) }
    ensures good { IfOk result IsGoodWorld }
    ensures reached { IfOk result (λ state. IsReached state state) }
    ensures fault { (line : ℕ) (token : OpeningToken) → result ≡ Err (OpeningFault.Line line token) →
        spelled opening.now ≡ Err (OpeningFault.Line line token) }
    ensures read { IfErr result (λ fault. fault ≢ OpeningFault.Read) }
{
    let mut reader: &[u8] = opening;
    read_opening(alloc, hasher, &mut reader)
}

impl GateSession {
    ghost use Rattle.gate_c.specs.Readings.{ReadingAnswered};
    ghost use Rattle.gate_c.specs.Changes.{change_text};
    ghost use Rattle.gate_c.specs.Explanations.{IsNumbered, IsSaid};
    ghost use Rattle.gate_c.specs.Sessions.{AnswerKept, Counts, IsOpened, MovesKept, MovesSince, NothingSaid, OpeningKept, Rests, SaidKept, SwitchCopied};

    /// Opens the session of the state that an opening spells.
    pub fn open(alloc: Global, keys: &Keys, opening: &[u8]) -> Result<GateSession, OpeningFault>
        ensures opened { IfOk result (λ session. IsOpened opening.now session) }
        ensures fault { (line : ℕ) (token : OpeningToken) → result ≡ Err (OpeningFault.Line line token) →
            spelled opening.now ≡ Err (OpeningFault.Line line token) }
        ensures read { IfErr result (λ fault. fault ≢ OpeningFault.Read) }
    {
        let Ok(hasher) = RandomState::new(keys) else {
            return Err(OpeningFault::Memory);
        };
        let state = read_state(alloc, hasher, opening)?;
        let opened = Remembered::of(&state);
        Ok(GateSession {
            tracked: Tracked::new(state),
            opened,
            answer: Answer::Nothing,
            text: String::new(alloc),
            next_line: None,
            explanation: None,
        })
    }

    /// A session with the same state, the same opening and the same last answer, which explains lines by the same numbers. It
    /// has nothing to tell of what moved, and nothing is said in it.
    pub fn copy(&self, alloc: Global) -> Result<GateSession, Memory>
        ensures same { IfOk result (AnswerKept self.now) }
        ensures rests { IfOk result Rests }
        ensures switch { IfOk result (SwitchCopied self.now) }
    {
        Ok(GateSession {
            tracked: self.tracked.copy(alloc)?,
            opened: self.opened.copy(),
            answer: self.answer.copy(alloc)?,
            text: String::new(alloc),
            next_line: self.next_line,
            explanation: None,
        })
    }

    /// Lets lines be explained from the next one on, which gets this number; 0 lets none be explained.
    pub fn explain_from(&mut self, line: u64)
        ensures kept { AnswerKept self.old self.new }
        ensures moves { MovesKept self.old self.new }
        ensures numbered { IsNumbered line self.new.next_line }
        ensures unsaid { NothingSaid self.new }
    {
        self.next_line = numbered(line);
        self.explanation = None;
    }

    /// Answers what a line asks for. If memory runs out, nothing is changed. What has moved is then what this line moves.
    pub fn answer(&mut self, alloc: Global, reading: &Reading) -> Result<(), Memory>
        ensures ok { OnOk result (ReadingAnswered self.old.tracked.world reading.now self.new.answer self.new.tracked.world) }
        ensures opened { OpeningKept self.old self.new }
        ensures err { OnErr result (AnswerKept self.old self.new) }
        ensures moves { MovesSince self.old self.new }
        ensures counted { Counts self.old self.new }
        ensures said { OnOk result (IsSaid self.old.tracked.world self.old.next_line self.new.answer self.new.explanation) }
        ensures unsaid { OnErr result (NothingSaid self.new) }
    {
        let line = begin_line(&mut self.next_line, &mut self.explanation);
        let Given {
            answer,
            explanation,
        } = reading.answer(alloc, &mut self.tracked, line)?;
        self.answer = answer;
        self.explanation = explanation;
        Ok(())
    }

    /// Replaces the text that was made last with that of the last answer, with its newline.
    pub fn write(&mut self, alloc: Global) -> Result<(), Memory>
        ensures kept { AnswerKept self.old self.new }
        ensures moves { MovesKept self.old self.new }
        ensures said { SaidKept self.old self.new }
        ensures text { OnOk result (string_bytes self.new.text ≡ unlines (answer_lines self.old.answer)) }
    {
        self.answer.write(alloc, &mut self.text)
    }

    /// Lets a line that can't be read have moved nothing, and nothing be said of it.
    pub fn rest(&mut self)
        ensures kept { AnswerKept self.old self.new }
        ensures moves { MovesSince self.old self.new }
        ensures counted { Counts self.old self.new }
        ensures unsaid { NothingSaid self.new }
    {
        begin_line(&mut self.next_line, &mut self.explanation);
        self.tracked.rest();
    }

    /// The lines of what the last line moved.
    pub fn changes(&self, alloc: Global) -> Result<String, Memory>
        ensures { IfOk result (λ text. string_bytes text ≡ change_text self.now.tracked.before self.now.tracked.world.pool) }
    {
        let departed = self.tracked.departed(alloc)?;
        let arrived = self.tracked.arrived(alloc)?;
        moved_text(alloc, departed.as_slice(), arrived.as_slice())
    }
}
