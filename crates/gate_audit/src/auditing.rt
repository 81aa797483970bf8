//! The audit of all entries in turn.
ghost use Rattle.std.specs.Prelude.{◌≡◌, ◌≢◌, Some, None, true, IfErr, IfOk, IfSome, IsErrOf};
ghost use Rattle.gate_lines.specs.Lines.{lines_of};
ghost use Rattle.gate_audit.specs.Audits.{Audited};

use crate::answer::Audit;
use crate::counts::EntryCounts;
use crate::entry::{Taken, take_entry};
use crate::lines::JournalLines;
use crate::onlooker::AuditOnlooker;
use gate_core::State;
use gate_lines::{LaneFault, Source};
use std::alloc::Global;
use std::hash::BuildHasher;

/// Audits the journal in an input, from the state in which its first event was made, with somebody who looks on.
///
/// A journal is pairs of lines, `> EVENT` and `< REPLY`, with empty lines and comments anywhere. Where a pair may begin
/// or the journal end, any number of lines `base M` may stand, M the number of entries before them: a new round begins
/// there, and each round has at most 100,000 entries. A base line with another number counts as a wrong entry, and so
/// does an entry past that bound. A line is past the limits if it is the 1,000,001st, or has more than `MAX_LINE`
/// bytes, its mark not counted. Such a line gives `Read` unless an entry before it is wrong, and so does a reader that
/// fails. No more than a line and a reply is held at a time.
pub fn audit<S: BuildHasher + Copy + Drop, O: AuditOnlooker, R: Source>(
    alloc: Global,
    onlooker: &O,
    mut state: State<S>,
    reader: &mut R,
) -> Result<Audit, LaneFault>
    ensures told { IfOk result (λ audit. IfSome (R.remaining reader.old) (λ input. Audited state (lines_of input) (Some audit))) }
    ensures past { R.steady ≡ true → IsErrOf result LaneFault.Read → IfSome (R.remaining reader.old) (λ input. Audited state (lines_of input) None) }
    ensures kind { IfErr result (λ fault. fault ≢ LaneFault.Write) }
{
    let audited = audit_entries(alloc, onlooker, &mut state, reader);
    drop(state);
    audited
}

/// The audit of all entries in turn, whose steps the state makes.
fn audit_entries<S: BuildHasher + Copy + Drop, O: AuditOnlooker, R: Source>(
    alloc: Global,
    onlooker: &O,
    state: &mut State<S>,
    reader: &mut R,
) -> Result<Audit, LaneFault>
    ensures told { IfOk result (λ audit. IfSome (R.remaining reader.old) (λ input. Audited state.old (lines_of input) (Some audit))) }
    ensures past { R.steady ≡ true → IsErrOf result LaneFault.Read → IfSome (R.remaining reader.old) (λ input. Audited state.old (lines_of input) None) }
    ensures kind { IfErr result (λ fault. fault ≢ LaneFault.Write) }
{
    let mut lines = JournalLines::new(alloc);
    let mut counts = EntryCounts::new();
    loop {
        counts = match take_entry(alloc, onlooker, state, reader, &mut lines, counts)? {
            Taken::Legal => counts.with_entry(),
            Taken::Base => counts.with_base(),
            Taken::Wrong => return Ok(Audit::Illegal(counts.all + 1)),
            Taken::End => return Ok(Audit::Legal(counts.all)),
        };
    }
}
