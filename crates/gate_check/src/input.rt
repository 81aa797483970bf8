//! The input of a check, up to its limit.
ghost use Rattle.std.specs.Prelude.{◌≡◌, ◌≢◌, true, IfErr, IfOk, option_map};
ghost use Rattle.gate_check.specs.Inputs.{InputRead, ReadsWithin};

use gate_lines::{LaneFault, Part, Source};
use std::alloc::Global;

/// The most bytes of an input that is checked: the longest text of a transaction has this many digits.
const MAX_INPUT: usize = 67_108_864;

/// Reads an input to its end; `None` if it is too long.
pub(crate) fn read_input<R: Source>(
    alloc: Global,
    reader: &mut R,
) -> Result<Option<Vec<u8>>, LaneFault>
    ensures read { IfOk result (λ read. InputRead (R.remaining reader.old) (option_map (λ input. input.items) read)) }
    ensures within { ReadsWithin (R.remaining reader.old) (R.remaining reader.new) }
    ensures kind { IfErr result (λ fault. fault ≢ LaneFault.Write) }
    ensures steady { R.steady ≡ true → IfErr result (λ fault. fault ≢ LaneFault.Read) }
{
    let mut input = Vec::new(alloc);
    loop {
        let room = MAX_INPUT - input.len();
        match reader.take_part(&mut input, room)? {
            Part::Newline => {
                if input.len() == MAX_INPUT {
                    return Ok(None);
                }
                input.push(b'\n')?;
            }
            Part::More => {}
            Part::TooLong => return Ok(None),
            Part::End => return Ok(Some(input)),
        }
    }
}
