//! The line of an opening that is refused.
ghost use Rattle.std.specs.Prelude.{◌≡◌, ◌≢◌, ◌++◌, ◌∷◌, [], true, IfOk, IfErr, OnOk};
ghost use Rattle.gate_run.specs.Refusals.{FaultPrinted, RefusalStopped, opening_line};

use gate_bytes::Memory;
use gate_lines::{LaneFault, Sink, end_line};
use gate_opening::OpeningToken;
use std::alloc::Global;

/// Writes the line of an opening's fault, `opening LINE TOKEN`, and gives the status 2.
pub fn refuse_opening<W: Sink>(
    alloc: Global,
    writer: &mut W,
    line: u64,
    token: OpeningToken,
) -> Result<u8, LaneFault>
    ensures done { IfOk result (λ status. FaultPrinted line token (W.contents writer.old) (W.contents writer.new) status) }
    ensures sent { OnOk result (W.held writer.new ≡ []) }
    ensures stopped { IfErr result (λ fault. RefusalStopped line token (W.contents writer.old) (W.contents writer.new) fault) }
    ensures steady { W.steady ≡ true → IfErr result (λ fault. fault ≢ LaneFault.Write) }
{
    let text = refusal_line(alloc, line, token)?;
    writer.write_text(text.as_slice())?;
    writer.send()?;
    Ok(2)
}

/// `opening LINE TOKEN`, with its newline.
fn refusal_line(alloc: Global, line: u64, token: OpeningToken) -> Result<Vec<u8>, Memory>
    ensures { IfOk result (λ text. text.items ≡ opening_line line token ++ 10 ∷ []) }
{
    end_line(format!(in alloc; "opening {line} {token}")?)
}
