//! `gate audit`: whether a journal is legal.
ghost use Rattle.std.specs.Prelude.{◌≡◌, ◌≢◌, ◌++◌, ◌∷◌, [], true, IfErr, IfOk, OnOk};
ghost use Rattle.gate_report.specs.AuditJobs.{AuditPrinted, AuditStopped, AuditPastLimits, answer_line, answer_status, AnswerPrinted, AnswerStopped};

use gate_audit::{Audit, AuditOnlooker, audit};
use gate_bytes::Memory;
use gate_lines::{LaneFault, Sink, Source, end_line};
use gate_opening::{OpeningFault, read_opening};
use gate_run::refuse_opening;
use std::alloc::Global;
use std::hash::BuildHasher;

/// `legal N` or `illegal K`, with its newline.
fn answer_text(alloc: Global, answer: Audit) -> Result<Vec<u8>, Memory>
    ensures { IfOk result (λ text. text.items ≡ answer_line answer ++ 10 ∷ []) }
{
    end_line(match answer {
        Audit::Legal(count) => format!(in alloc; "legal {count}")?,
        Audit::Illegal(number) => format!(in alloc; "illegal {number}")?,
    })
}

fn answer_status(answer: Audit) -> u8
    ensures { result ≡ answer_status answer }
{
    match answer {
        Audit::Legal(_) => 0,
        Audit::Illegal(_) => 1,
    }
}

/// Writes the line of an answer, and gives the status that follows it.
fn print_answer<W: Sink>(alloc: Global, writer: &mut W, answer: Audit) -> Result<u8, LaneFault>
    ensures done { IfOk result (λ status. AnswerPrinted answer (W.contents writer.old) (W.contents writer.new) status) }
    ensures sent { OnOk result (W.held writer.new ≡ []) }
    ensures stopped { IfErr result (λ fault. AnswerStopped answer (W.contents writer.old) (W.contents writer.new) fault) }
    ensures steady { W.steady ≡ true → IfErr result (λ fault. fault ≢ LaneFault.Write) }
{
    let text = answer_text(alloc, answer)?;
    writer.write_text(text.as_slice())?;
    writer.send()?;
    Ok(answer_status(answer))
}

/// Opens a gate from the front of the input, and says whether the journal behind it is legal from there, with somebody who
/// looks on: status 0 if it is, and 1 if not. An opening with a fault is refused by a line: status 2. If reading fails, or memory runs out,
/// nothing is printed.
pub fn run_audit<S: BuildHasher + Copy + Drop, O: AuditOnlooker, R: Source, W: Sink>(
    alloc: Global,
    hasher: S,
    onlooker: &O,
    reader: &mut R,
    writer: &mut W,
) -> Result<u8, LaneFault>
    ensures done { IfOk result (λ status. AuditPrinted (R.remaining reader.old) (W.contents writer.old) (W.contents writer.new) status) }
    ensures sent { OnOk result (W.held writer.new ≡ []) }
    ensures stopped { IfErr result (λ fault. AuditStopped (R.remaining reader.old) (R.remaining reader.new) (W.contents writer.old) (W.contents writer.new) fault) }
    ensures steady_reader { R.steady ≡ true → IfErr result (λ fault. fault ≡ LaneFault.Read → AuditPastLimits (R.remaining reader.old)) }
    ensures steady_writer { W.steady ≡ true → IfErr result (λ fault. fault ≢ LaneFault.Write) }
{
    match read_opening(alloc, hasher, reader) {
        Ok(state) => {
            let answer = audit(alloc, onlooker, state, reader)?;
            print_answer(alloc, writer, answer)
        }
        Err(OpeningFault::Line(line, token)) => refuse_opening(alloc, writer, line, token),
        Err(OpeningFault::Read) => Err(LaneFault::Read),
        Err(OpeningFault::Memory) => Err(LaneFault::Memory),
    }
}
