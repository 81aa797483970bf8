//! The opening: its lines read one after another, up to a line `---` or the end of the input.
ghost use Rattle.std.specs.Prelude.{◌≡◌, ◌≢◌, ◌<◌, ℕ, true, IfOk, IfErr, OnOk, Ok, Err, IfSome, IsErrOf};
ghost use Rattle.gate_core.specs.Good.{IsGoodWorld};
ghost use Rattle.gate_opening.specs.Said.{is_end, nothing_said, spelled};
ghost use Rattle.gate_lines.specs.Counting.{Counts};
ghost use Rattle.gate_opening.specs.Openings.{StepTaken, OpeningGathered, OpeningUnread, LeavesRest};

use crate::draft::OpeningDraft;
use crate::opening_fault::{OpeningFault, OpeningToken};
use gate_core::State;
use gate_lines::{Lines, Next, Source};
use std::alloc::Global;
use std::hash::BuildHasher;

/// How reading one line of an opening ended.
#[derive(Clone, Copy, PartialEq, Eq)]
pub(crate) enum Step {
    Went,
    Ended,
}

fn ends_opening(line: &[u8]) -> bool
    ensures { result ≡ is_end line.now }
{
    line == b"---".as_slice()
}

/// Reads the next line of an opening, and adds what it says.
fn take_step<S: BuildHasher + Copy + Drop, R: Source>(
    alloc: Global,
    reader: &mut R,
    lines: &mut Lines,
    draft: &mut OpeningDraft<S>,
) -> Result<Step, OpeningFault>
    ensures taken { StepTaken lines.old.count (R.remaining reader.old) (R.remaining reader.new) draft.old draft.new result }
    ensures counted { IfOk result (λ step. step ≡ Step.Went → Counts lines.old lines.new) }
    ensures steady { R.steady ≡ true → IfErr result (λ fault. fault ≢ OpeningFault.Read) }
{
    match lines.next(reader)? {
        Next::Whole => {
            if ends_opening(lines.line()) {
                return Ok(Step::Ended);
            }
            draft.take(alloc, lines.count(), lines.line())?;
            Ok(Step::Went)
        }
        Next::Rest => {
            if !ends_opening(lines.line()) {
                draft.take(alloc, lines.count(), lines.line())?;
            }
            Ok(Step::Ended)
        }
        Next::End => Ok(Step::Ended),
        Next::TooLong | Next::TooMany => Err(OpeningFault::Line(
            lines.count() + 1,
            OpeningToken::BadLine,
        )),
    }
}

/// Reads all that an opening says into an empty draft.
fn gather<S: BuildHasher + Copy + Drop, R: Source>(
    alloc: Global,
    reader: &mut R,
    draft: &mut OpeningDraft<S>,
) -> Result<(), OpeningFault>
    requires { draft.old ≡ nothing_said }
    ensures gathered { OpeningGathered (R.remaining reader.old) (R.remaining reader.new) draft.new result }
    ensures steady { R.steady ≡ true → IfErr result (λ fault. fault ≢ OpeningFault.Read) }
{
    let mut lines = Lines::new(alloc);
    loop {
        match take_step(alloc, reader, &mut lines, draft)? {
            Step::Went => {}
            Step::Ended => return Ok(()),
        }
    }
}

/// Reads an opening and opens its state, with an empty pool. The input behind its line `---` is left unread. The
/// hasher serves every map of ids and outpoints.
///
/// An opening with faults is refused by the first of them, with its line.
pub fn read_opening<S: BuildHasher + Copy + Drop, R: Source>(
    alloc: Global,
    hasher: S,
    reader: &mut R,
) -> Result<State<S>, OpeningFault>
    ensures opened { IfOk result (λ state. IfSome (R.remaining reader.old) (λ text. spelled text ≡ Ok state)) }
    ensures good { IfOk result IsGoodWorld }
    ensures left { OnOk result (LeavesRest (R.remaining reader.old) (R.remaining reader.new)) }

    // The first fault is named, with its line.
    ensures fault { (line : ℕ) (token : OpeningToken) → result ≡ Err (OpeningFault.Line line token) →
        IfSome (R.remaining reader.old) (λ text. spelled text ≡ Err (OpeningFault.Line line token)) }
    ensures unread { IsErrOf result OpeningFault.Read → OpeningUnread (R.remaining reader.old) (R.remaining reader.new) }
    ensures steady { R.steady ≡ true → IfErr result (λ fault. fault ≢ OpeningFault.Read) }
{
    let mut draft = OpeningDraft::new(alloc, hasher);
    match gather(alloc, reader, &mut draft) {
        Ok(()) => draft.open(alloc, hasher),
        Err(fault) => {
            drop(draft);
            Err(fault)
        }
    }
}
