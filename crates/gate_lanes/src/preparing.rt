//! What is made of a submission before its call, outside the gate's lock: reports on its inputs.
ghost use Rattle.std.specs.Prelude.{◌≡◌, Some, IfOk};
ghost use Rattle.gate_core.specs.Submissions.{StandsFor, submission_of};

use crate::entrance::Access;
use gate_bytes::{Copied, Kept, Memory};
use gate_core::submission;
use gate_message::Event;
use gate_shared::Base;
use gate_submission::{Candidate, Prepared};
use gate_tx::{Coin, TxIn, Wtxid};
use gate_verify::{InputCheck, InputReport, Piece, check_each};
use std::alloc::Global;
use std::hash::BuildHasher;
use std::sync::Wait;

/// An input with its coin.
fn piece_of(
    alloc: Global,
    wtxid: Wtxid,
    index: u32,
    input: &TxIn,
    coin: Coin,
) -> Result<Piece, Memory> {
    match input.copy(alloc) {
        Ok(input) => Ok(Piece {
            wtxid,
            index,
            input,
            coin,
        }),
        Err(Memory) => {
            drop(coin);
            Err(Memory)
        }
    }
}

/// The inputs of a submission that have a coin, each with its coin. An input without a coin gives no piece.
fn pieces_of(
    alloc: Global,
    candidate: &Candidate<'_>,
    coins: Vec<Option<Coin>>,
) -> Result<Vec<Piece>, Memory> {
    let identified = candidate.identified().get();
    let wtxid = identified.wtxid();
    let transaction = identified.transaction();
    transaction.recall_invariant();
    let inputs = transaction.inputs();
    let mut coins = coins.into_iter();
    let mut pieces = Vec::new(alloc);
    for index in 0..inputs.len() {
        if let Some(coin) = coins.next().flatten() {
            pieces.push(piece_of(alloc, wtxid, index as u32, &inputs[index], coin)?)?;
        }
    }
    Ok(pieces)
}

impl<N: Base, S: BuildHasher + Copy + Drop, T: Wait, C: InputCheck> Access<'_, N, S, T, C> {
    /// Reports on the inputs of a submission, by the coins that these inputs have now.
    fn reports(
        &self,
        submission: &Prepared,
        candidate: &Candidate<'_>,
    ) -> Result<Vec<InputReport>, Memory> {
        let coins = self.gate.look(self.rt, self.alloc, submission)?;
        let pieces = pieces_of(self.alloc, candidate, coins)?;
        match &self.crew {
            Some(crew) => crew.verify(self.rt, self.alloc, self.check, pieces.as_slice()),
            None => check_each(self.alloc, self.check, pieces.as_slice()),
        }
    }

    /// The submission with reports on its inputs. If a rule on the transaction alone denies it, its inputs are neither
    /// looked up nor checked.
    fn with_reports(&self, submission: &Prepared) -> Result<Option<Prepared>, Memory>
        ensures { IfOk result (λ prepared. StandsFor prepared (Some submission.now)) }
    {
        let Some(candidate) = submission.candidate() else {
            return Ok(None);
        };
        if candidate.denial().is_some() {
            return Ok(None);
        }
        let reports = self.reports(submission, &candidate)?;
        let prepared = submission.copy(self.alloc)?;
        Ok(Some(prepared.with_reports(Kept::from_vec(reports))))
    }

    /// The submission of an event with reports on its inputs. If memory runs out it is `None`, and the call makes the
    /// reports itself.
    pub(crate) fn prepared(&self, event: &Event) -> Option<Prepared>
        ensures { StandsFor result (submission_of event.now) }
    {
        match submission(event) {
            Some(submission) => match self.with_reports(submission) {
                Ok(prepared) => prepared,
                Err(Memory) => None,
            },
            None => None,
        }
    }
}
