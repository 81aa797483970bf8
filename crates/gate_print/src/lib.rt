//! Texts that are printed, whole or in part, and the number of the version.
#![tactic(auto)]

ghost use Rattle.std.specs.Prelude.{◌≡◌, ◌≢◌, ◌++◌, ◌∷◌, [], true, IfErr, string_bytes};
ghost use Rattle.gate_print.specs.Printing.{Prints};

use gate_lines::{LaneFault, Sink, end_line};

/// The number that `gate --version` and `gate_version` print. It stands here and nowhere else.
pub const VERSION: &str = "0.1.0";

/// Writes a text as a line, behind a mark.
pub fn print_marked<W: Sink>(writer: &mut W, mark: &[u8], text: String) -> Result<(), LaneFault>
    ensures printed { Prints (W.contents writer.old) (W.contents writer.new) (mark.now ++ (string_bytes text ++ 10 ∷ [])) result }
    ensures steady { W.steady ≡ true → IfErr result (λ fault. fault ≢ LaneFault.Write) }
{
    let line = end_line(text)?;
    writer.write_text(mark)?;
    writer.write_text(line.as_slice())
}
