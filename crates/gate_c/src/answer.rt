//! The answer to a line.
ghost use Rattle.std.specs.Prelude.{◌≡◌, IfOk, OnOk, string_bytes};
ghost use Rattle.gate_lines.specs.Lines.{unlines};

use gate_bytes::{Copied, Memory};
use gate_message::Reply;
use std::alloc::Global;

/// The answer to a line within the limits.
#[derive(Drop)]
pub enum Answer {
    /// The line asks for nothing.
    Nothing,
    /// The line has no form.
    BadLine,
    Reply(Reply),
}

impl Answer {
    ghost use Rattle.gate_c.specs.Answers.{answer_lines};

    pub fn copy(&self, alloc: Global) -> Result<Answer, Memory>
        ensures { IfOk result (λ copy. copy ≡ self.now) }
    {
        match self {
            Answer::Nothing => Ok(Answer::Nothing),
            Answer::BadLine => Ok(Answer::BadLine),
            Answer::Reply(reply) => Ok(Answer::Reply(reply.copy(alloc)?)),
        }
    }

    /// Replaces what `text` holds with the line of the answer and its newline.
    pub fn write(&self, alloc: Global, text: &mut String) -> Result<(), Memory>
        ensures { OnOk result (string_bytes text.new ≡ unlines (answer_lines self.now)) }
    {
        text.clear();
        match self {
            Answer::Nothing => Ok(()),
            Answer::BadLine => Ok(text.push_str("refused L1 bad-line\n")?),
            Answer::Reply(reply) => {
                reply.push_text(alloc, text)?;
                Ok(text.push('\n')?)
            }
        }
    }
}
