//! `gate settings`: what is printed of the settings.
ghost use Rattle.std.specs.Prelude.{◌≡◌, ◌≢◌, [], true, IfErr, IfOk, OnOk};
ghost use Rattle.gate_report.specs.SettingsTold.{SettingsPrinted, SettingsStopped, TheseRowsPrinted, TheseRowsStopped};

use gate_lines::{LaneFault, Sink};
use gate_register::{Row, Setting, rows_text};
use std::alloc::Global;

/// Writes rows, a line each, in one write.
fn print_rows<W: Sink>(alloc: Global, writer: &mut W, rows: &[Row]) -> Result<u8, LaneFault>
    ensures done { IfOk result (λ status. TheseRowsPrinted rows.now (W.contents writer.old) (W.contents writer.new) status) }
    ensures sent { OnOk result (W.held writer.new ≡ []) }
    ensures stopped { IfErr result (λ fault. TheseRowsStopped rows.now (W.contents writer.old) (W.contents writer.new) fault) }
    ensures steady { W.steady ≡ true → IfErr result (λ fault. fault ≢ LaneFault.Write) }
{
    let text = rows_text(alloc, rows)?;
    writer.write_text(text.as_bytes())?;
    writer.send()?;
    Ok(0)
}

/// Prints every setting of an opening, a line each: its word, the least and the greatest number, the usual one, and what
/// the number says.
pub fn run_settings<W: Sink>(alloc: Global, writer: &mut W) -> Result<u8, LaneFault>
    ensures done { IfOk result (λ status. SettingsPrinted (W.contents writer.old) (W.contents writer.new) status) }
    ensures sent { OnOk result (W.held writer.new ≡ []) }
    ensures stopped { IfErr result (λ fault. SettingsStopped (W.contents writer.old) (W.contents writer.new) fault) }
    ensures steady { W.steady ≡ true → IfErr result (λ fault. fault ≢ LaneFault.Write) }
{
    print_rows(alloc, writer, Setting::rows())
}
