//! One input, divided into rounds of lanes.
ghost use Rattle.std.specs.Prelude.{◌≡◌, ◌<◌, ◌≤◌, List, ℕ, [], true, false, length, Some, map, IfOk, IsErrOf};
ghost use Rattle.gate_split.specs.Parts.{is_closing, is_idle, is_parting, lane_limit, RoundsRead, HasTooManyLanes, IsIllFormed};
ghost use Rattle.gate_split.specs.Splitting.{InputTaken, IsCounted, LineTaken, TurnTaken, TurnHasTooMany, TurnIsIllFormed, AreBegun, rounds_bytes, rounds_on, so_far};

use crate::fault::SplitFault;
use gate_lines::{Lines, Next, Source, is_blank_or_comment};
use std::alloc::Global;

/// The most lanes of one input, in all its rounds.
pub const MAX_LANES: usize = 64;

/// The rounds of the lines that were read so far.
#[derive(Drop)]
struct Rounds {
    /// The rounds that are over.
    over: Vec<Vec<Vec<u8>>>,
    /// The whole lanes of the round that goes on.
    whole: Vec<Vec<u8>>,
    /// The last lane of that round, which may go on; `None` before the first line `---` of a round.
    last: Option<Vec<u8>>,
    /// How many lanes all these rounds have.
    count: usize,
}

/// Whether a line, with its newline or at the end of the input, begins a lane.
fn begins_lane(line: &[u8]) -> bool
    ensures { result ≡ is_parting line.now }
{
    line == b"---\n".as_slice() || line == b"---".as_slice()
}

/// Whether a line, with its newline or at the end of the input, ends a round.
fn ends_round(line: &[u8]) -> bool
    ensures { result ≡ is_closing line.now }
{
    line == b"===\n".as_slice() || line == b"===".as_slice()
}

/// Whether a line, with its newline or at the end of the input, is skipped.
fn is_skipped(line: &[u8]) -> bool
    ensures { result ≡ is_idle line.now }
{
    line == b"\n".as_slice() || is_blank_or_comment(line)
}

impl Rounds {
    /// One round with an empty lane.
    fn new(alloc: Global) -> Rounds
        ensures { so_far result ≡ record { over = []; whole = []; last = Some []; count = 1 } }
    {
        Rounds {
            over: Vec::new(alloc),
            whole: Vec::new(alloc),
            last: Some(Vec::new(alloc)),
            count: 1,
        }
    }

    /// Begins a lane.
    fn begin_lane(&mut self, alloc: Global) -> Result<(), SplitFault>
        requires { IsCounted (so_far self.old) }
        ensures { (line : List ℕ) → is_parting line ≡ true → is_closing line ≡ false → LineTaken (so_far self.old) (so_far self.new) line result }
    {
        if self.count >= MAX_LANES {
            return Err(SplitFault::TooManyLanes);
        }
        self.count += 1;
        match self.last.replace(Vec::new(alloc)) {
            Some(whole) => Ok(self.whole.push(whole)?),
            None => Ok(()),
        }
    }

    /// Ends the round.
    fn end_round(&mut self, alloc: Global) -> Result<(), SplitFault>
        requires { IsCounted (so_far self.old) }
        ensures { (line : List ℕ) → is_closing line ≡ true → LineTaken (so_far self.old) (so_far self.new) line result }
    {
        let Some(last) = self.last.take() else {
            return Err(SplitFault::Read);
        };
        self.whole.push(last)?;
        let lanes = std::mem::replace(&mut self.whole, Vec::new(alloc));
        self.over.push(lanes)?;
        Ok(())
    }

    /// Takes a line that belongs to a lane, or stands before the first one.
    fn go_on(&mut self, line: &[u8]) -> Result<(), SplitFault>
        requires counted { IsCounted (so_far self.old) }
        requires parting { is_parting line.now ≡ false }
        requires closing { is_closing line.now ≡ false }
        ensures { LineTaken (so_far self.old) (so_far self.new) line.now result }
    {
        match &mut self.last {
            Some(last) => Ok(last.extend_from_slice(line)?),
            None if is_skipped(line) => Ok(()),
            None => Err(SplitFault::Read),
        }
    }

    /// Takes the next line, with its newline or at the end of the input.
    fn take(&mut self, alloc: Global, line: &[u8]) -> Result<(), SplitFault>
        requires { IsCounted (so_far self.old) }
        ensures { LineTaken (so_far self.old) (so_far self.new) line.now result }
    {
        if ends_round(line) {
            return self.end_round(alloc);
        }
        if begins_lane(line) {
            return self.begin_lane(alloc);
        }
        self.go_on(line)
    }

    /// All rounds, if no line follows.
    fn close(self) -> Result<Vec<Vec<Vec<u8>>>, SplitFault>
        requires { IsCounted (so_far self) }
        ensures read { IfOk result (λ rounds. (rounds_bytes rounds.items ≡ rounds_on (so_far self) []) × AreBegun (so_far self).last []) }
        ensures unread { IsErrOf result SplitFault.Read → ¬ AreBegun (so_far self).last [] }
        ensures few { ¬ IsErrOf result SplitFault.TooManyLanes }
        ensures bounded { IfOk result (λ rounds. (0 < length rounds.items) × (length rounds.items ≤ lane_limit)) }
    {
        let Rounds {
            mut over,
            mut whole,
            last,
            ..
        } = self;
        let Some(last) = last else {
            return Err(SplitFault::Read);
        };
        whole.push(last)?;
        over.push(whole)?;
        Ok(over)
    }
}

/// Reads the next line into the rounds, and says whether more lines may follow.
fn take_line<R: Source>(
    alloc: Global,
    reader: &mut R,
    lines: &mut Lines,
    rounds: &mut Rounds,
) -> Result<bool, SplitFault>
    requires counted { IsCounted (so_far rounds.old) }
    ensures taken { IfOk result (TurnTaken lines.old.count lines.new.count (R.remaining reader.old) (R.remaining reader.new)
        (so_far rounds.old) (so_far rounds.new)) }
    ensures many { IsErrOf result SplitFault.TooManyLanes → TurnHasTooMany (R.remaining reader.old) (so_far rounds.old) }
    ensures past { R.steady ≡ true → IsErrOf result SplitFault.Read
        → TurnIsIllFormed lines.old.count (R.remaining reader.old) (so_far rounds.old) }
{
    match lines.next(reader)? {
        Next::Whole => {
            lines.push_newline()?;
            rounds.take(alloc, lines.line())?;
            Ok(true)
        }
        Next::Rest => {
            rounds.take(alloc, lines.line())?;
            Ok(false)
        }
        Next::End => Ok(false),
        Next::TooLong | Next::TooMany => Err(SplitFault::Read),
    }
}

/// Reads all lines into rounds.
fn take_lines<R: Source>(alloc: Global, reader: &mut R) -> Result<Rounds, SplitFault>
    ensures read { IfOk result (λ rounds. InputTaken (R.remaining reader.old) (so_far rounds)) }
    ensures many { IsErrOf result SplitFault.TooManyLanes → HasTooManyLanes (R.remaining reader.old) }
    ensures past { R.steady ≡ true → IsErrOf result SplitFault.Read → IsIllFormed (R.remaining reader.old) }
{
    let mut rounds = Rounds::new(alloc);
    let mut lines = Lines::new(alloc);
    while take_line(alloc, reader, &mut lines, &mut rounds)? {}
    Ok(rounds)
}

/// The bytes of each lane, round by round: the input, divided at its lines `===` into rounds, and each round at its
/// lines `---` into lanes. An empty input is one round of one empty lane.
///
/// The fault is `Read` if a round but the first doesn't begin with a line `---`, empty lines and comments aside, at
/// more than 1,000,000 lines, at a line of more than 16,777,216 bytes, and if the reader fails. It is `TooManyLanes` at
/// a lane past the 64th of all rounds. Nothing behind the line that is a fault is read.
pub fn split_lanes<R: Source>(
    alloc: Global,
    reader: &mut R,
) -> Result<Vec<Vec<Vec<u8>>>, SplitFault>
    ensures read { IfOk result (λ rounds. RoundsRead (R.remaining reader.old) (map (λ lanes. map (λ lane. lane.items) lanes.items) rounds.items)) }
    ensures many { IsErrOf result SplitFault.TooManyLanes → HasTooManyLanes (R.remaining reader.old) }
    ensures past { R.steady ≡ true → IsErrOf result SplitFault.Read → IsIllFormed (R.remaining reader.old) }
    ensures bounded { IfOk result (λ rounds. (0 < length rounds.items) × (length rounds.items ≤ lane_limit)) }
{
    take_lines(alloc, reader)?.close()
}
