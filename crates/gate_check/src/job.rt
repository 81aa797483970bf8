//! `gate check`: what a check writes, and its status.
ghost use Rattle.std.specs.Prelude.{◌≡◌, ◌≢◌, [], true, IfOk, IfErr, OnOk};
ghost use Rattle.gate_check.specs.CheckJobs.{CheckDone, CheckStopped, InputChecked, InputCheckStopped};
ghost use Rattle.gate_check.specs.Inputs.{ReadsWithin};
ghost use Rattle.gate_events.specs.EventLines.{prepared_of};

use crate::check::{check_hex, check_input};
use gate_lines::{LaneFault, Sink, Source};
use std::alloc::Global;

/// Checks one transaction in hex by itself, and gives the status: 0 if it is standard, and 1 if a rule denies it. The
/// lines go out in one write, so that running out of memory prints nothing.
pub fn run_check<W: Sink>(alloc: Global, hex: &str, writer: &mut W) -> Result<u8, LaneFault>
    ensures done { IfOk result (λ status. CheckDone (prepared_of hex.now) (W.contents writer.old) (W.contents writer.new) status) }
    ensures sent { OnOk result (W.held writer.new ≡ []) }
    ensures stopped { IfErr result (λ fault. CheckStopped hex.now (W.contents writer.old) (W.contents writer.new) fault) }
    ensures steady { W.steady ≡ true → IfErr result (λ fault. fault ≢ LaneFault.Write) }
{
    let checked = check_hex(alloc, hex)?;
    writer.write_text(checked.text.as_bytes())?;
    writer.send()?;
    Ok(checked.status)
}

/// Checks the transaction that the input holds in hex, as `run_check` does. An input of more than 67,108,864 bytes
/// spells no transaction, and is read no further than one byte past that.
pub fn run_check_input<R: Source, W: Sink>(
    alloc: Global,
    reader: &mut R,
    writer: &mut W,
) -> Result<u8, LaneFault>
    ensures done { IfOk result (λ status. InputChecked (R.remaining reader.old) (W.contents writer.old) (W.contents writer.new) status) }
    ensures sent { OnOk result (W.held writer.new ≡ []) }
    ensures stopped { IfErr result (λ fault. InputCheckStopped (R.remaining reader.old) (W.contents writer.old) (W.contents writer.new) fault) }
    ensures within { ReadsWithin (R.remaining reader.old) (R.remaining reader.new) }
    ensures steady_reader { R.steady ≡ true → IfErr result (λ fault. fault ≢ LaneFault.Read) }
    ensures steady_writer { W.steady ≡ true → IfErr result (λ fault. fault ≢ LaneFault.Write) }
{
    let checked = check_input(alloc, reader)?;
    writer.write_text(checked.text.as_bytes())?;
    writer.send()?;
    Ok(checked.status)
}
