//! What lanes print.
ghost use Rattle.std.specs.Prelude.{◌≡◌, ◌≢◌, ◌++◌, ◌∷◌, [], true, codes, map, IfErr, IfOk, OnOk, string_bytes};
ghost use Rattle.gate_audit.specs.Journals.{base_line};
ghost use Rattle.gate_lines.specs.Lines.{unlines};
ghost use Rattle.gate_print.specs.Printing.{Prints};
ghost use Rattle.gate_rounds.specs.Texts.{texts_of};
ghost use Rattle.gate_rounds.specs.LaneLines.{asked_lines, base_text, entry_lines, journal_lines, lane_line, lanes_text, settled_lines, told_lines, told_text};

use gate_events::event_text;
use gate_journal::Entry;
use gate_lanes::{Conclusion, LaneEnd, RoundEnd};
use gate_lines::{LaneFault, Sink};
use gate_print::print_marked;
use gate_shared::Settled;
use std::alloc::Global;

/// Writes an entry of a journal: `> EVENT` and `< REPLY`.
fn print_entry<W: Sink>(alloc: Global, writer: &mut W, entry: &Entry) -> Result<(), LaneFault>
    ensures printed { Prints (W.contents writer.old) (W.contents writer.new) (unlines (entry_lines entry.now)) result }
    ensures steady { W.steady ≡ true → IfErr result (λ fault. fault ≢ LaneFault.Write) }
{
    print_marked(writer, b"> ", event_text(alloc, &entry.event)?)?;
    print_marked(writer, b"< ", entry.reply.text(alloc)?)
}

/// Writes the entries of a journal in their order.
fn print_journal<W: Sink>(alloc: Global, writer: &mut W, entries: &[Entry]) -> Result<(), LaneFault>
    ensures printed { Prints (W.contents writer.old) (W.contents writer.new) (unlines (journal_lines entries.now)) result }
    ensures steady { W.steady ≡ true → IfErr result (λ fault. fault ≢ LaneFault.Write) }
{
    for entry in entries {
        print_entry(alloc, writer, entry)?;
    }
    Ok(())
}

/// Writes the entries of a journal if they are asked for.
fn print_asked<W: Sink>(
    alloc: Global,
    writer: &mut W,
    entries: &[Entry],
    journal: bool,
) -> Result<(), LaneFault>
    ensures printed { Prints (W.contents writer.old) (W.contents writer.new) (unlines (asked_lines journal entries.now)) result }
    ensures steady { W.steady ≡ true → IfErr result (λ fault. fault ≢ LaneFault.Write) }
{
    match journal {
        true => print_journal(alloc, writer, entries),
        false => Ok(()),
    }
}

/// Writes `settled N`, and the journal if it is asked for.
fn print_settled<W: Sink>(
    alloc: Global,
    writer: &mut W,
    settled: &Settled,
    journal: bool,
) -> Result<(), LaneFault>
    ensures printed { Prints (W.contents writer.old) (W.contents writer.new) (unlines (settled_lines journal settled.now)) result }
    ensures steady { W.steady ≡ true → IfErr result (λ fault. fault ≢ LaneFault.Write) }
{
    let count = settled.count;
    print_marked(writer, b"settled ", format!(in alloc; "{count}")?)?;
    print_asked(alloc, writer, settled.journal.entries(), journal)
}

/// Writes the conclusion of a round: how many calls its passes settle, and the journal if it is asked for.
fn print_conclusion<W: Sink>(
    alloc: Global,
    writer: &mut W,
    conclusion: &Conclusion,
    journal: bool,
) -> Result<(), LaneFault>
    ensures printed { Prints (W.contents writer.old) (W.contents writer.new) (unlines (told_lines journal conclusion.now)) result }
    ensures steady { W.steady ≡ true → IfErr result (λ fault. fault ≢ LaneFault.Write) }
{
    match conclusion {
        Conclusion::Settles(settled) => print_settled(alloc, writer, settled, journal),
        Conclusion::Unknown => writer.write_text(b"unsettled memory\n"),
    }
}

/// Writes `lane K`, and what was written in the lane.
fn print_lane<W: Sink>(
    alloc: Global,
    writer: &mut W,
    number: u64,
    text: &[u8],
) -> Result<(), LaneFault>
    ensures printed { Prints (W.contents writer.old) (W.contents writer.new) ((lane_line number ++ 10 ∷ []) ++ text.now) result }
    ensures steady { W.steady ≡ true → IfErr result (λ fault. fault ≢ LaneFault.Write) }
{
    print_marked(writer, b"lane ", format!(in alloc; "{number}")?)?;
    writer.write_text(text)
}

/// Writes the lanes in their order, numbered from 1.
fn print_lanes<W: Sink>(
    alloc: Global,
    writer: &mut W,
    ends: &[LaneEnd<Vec<u8>>],
) -> Result<(), LaneFault>
    ensures printed { Prints (W.contents writer.old) (W.contents writer.new) (lanes_text 1 (texts_of ends.now)) result }
    ensures steady { W.steady ≡ true → IfErr result (λ fault. fault ≢ LaneFault.Write) }
{
    for (i, end) in ends.iter().enumerate() {
        print_lane(alloc, writer, i as u64 + 1, end.writer.as_slice())?;
    }
    Ok(())
}

/// Writes and sends the lanes of a round, and then its conclusion.
pub(crate) fn print_told<W: Sink>(
    alloc: Global,
    writer: &mut W,
    told: &RoundEnd<Vec<u8>>,
    journal: bool,
) -> Result<(), LaneFault>
    ensures printed { Prints (W.contents writer.old) (W.contents writer.new) (told_text journal told.now) result }
    ensures sent { OnOk result (W.held writer.new ≡ []) }
    ensures steady { W.steady ≡ true → IfErr result (λ fault. fault ≢ LaneFault.Write) }
{
    print_lanes(alloc, writer, told.ends.as_slice())?;
    print_conclusion(alloc, writer, &told.conclusion, journal)?;
    writer.send()
}

/// Writes and sends `base M`.
fn print_base_line<W: Sink>(alloc: Global, writer: &mut W, count: u64) -> Result<(), LaneFault>
    ensures printed { Prints (W.contents writer.old) (W.contents writer.new) (base_line count ++ 10 ∷ []) result }
    ensures steady { W.steady ≡ true → IfErr result (λ fault. fault ≢ LaneFault.Write) }
{
    print_marked(writer, b"base ", format!(in alloc; "{count}")?)?;
    writer.send()
}

/// Writes and sends the line of the base that a round begins with, if there are rounds before it.
pub(crate) fn print_base<W: Sink>(
    alloc: Global,
    writer: &mut W,
    behind: Option<u64>,
) -> Result<(), LaneFault>
    ensures printed { Prints (W.contents writer.old) (W.contents writer.new) (base_text behind) result }
    ensures steady { W.steady ≡ true → IfErr result (λ fault. fault ≢ LaneFault.Write) }
{
    match behind {
        Some(count) => print_base_line(alloc, writer, count),
        None => Ok(()),
    }
}
