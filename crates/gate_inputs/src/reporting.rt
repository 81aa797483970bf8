ghost use Rattle.std.specs.Prelude.{◌≡◌, ◌-◌, ◌^◌, IfOk, min};

use crate::answer::Answers;
use crate::judging::answers;
use crate::piece::Piece;
use gate_bytes::{Copied, Memory};
use std::alloc::Global;
use std::marker::Model;

/// The answers for a piece. Only `report` and copies of its reports make one: contracts see it as
/// its piece, which says what the answers are.
#[derive(Drop)]
pub struct InputReport {
    piece: Piece,
    answers: Answers,
}

impl Model for InputReport {
    ghost use Rattle.gate_inputs.specs.declared.piece.Piece.{Piece};
    ghost use Rattle.gate_inputs.specs.Answers.{answers_of};
    ghost use Rattle.std.specs.Prelude.{◌≡◌};

    ghost Value = { Piece };

    ghost view = { λ r. r.piece };

    ghost invariant = { λ r. r.answers ≡ answers_of r.piece.input r.piece.coin.script };
}

impl InputReport {
    ghost use Rattle.gate_inputs.specs.Reports.{sigop_cost_of};
    ghost use Rattle.gate_inputs.specs.Answers.{answers_of};

    pub fn piece(&self) -> &Piece
        ensures { result.now ≡ self.now }
    {
        &self.piece
    }

    pub fn answers(&self) -> Answers
        ensures { result ≡ answers_of self.now.input self.now.coin.script }
    {
        self.answers
    }

    /// The cost of the signature operations; at most 2^64 - 1, which no input of less than 2^50 bytes reaches.
    pub fn sigop_cost(&self) -> u64
        ensures { result ≡ min (sigop_cost_of self.now.input self.now.coin.script) (2 ^ 64 - 1) }
    {
        self.answers.sigop_cost
    }
}

/// The report of a piece.
pub fn report(alloc: Global, piece: Piece) -> Result<InputReport, Memory>
    ensures { IfOk result (λ r. r ≡ piece) }
{
    let answers = answers(alloc, &piece.input, piece.coin.script.as_slice())?;
    Ok(InputReport { piece, answers })
}

impl Copied for InputReport {
    fn copy(&self, alloc: Global) -> Result<InputReport, Memory> {
        Ok(InputReport {
            piece: self.piece.copy(alloc)?,
            answers: self.answers,
        })
    }
}
