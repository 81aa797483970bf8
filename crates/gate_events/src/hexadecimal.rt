//! Hexadecimal text, read without a branch: most bytes of a line are its digits.
ghost use Rattle.std.specs.Prelude.{◌≡◌, ℕ, ◌<◌, ◌≤◌, IfOk, IsErr, MatchOption, None, Ok, Some};
ghost use Rattle.hex.specs.Hex.{decode_of, hex_digit_value, pair_value};

use gate_bytes::Memory;
use std::alloc::Global;

/// What stands for the value of a byte that is no digit.
const NO_DIGIT: u8 = 255;

/// The value of a digit in either case, below 16, or `NO_DIGIT`.
fn digit(byte: u8) -> u8
    ensures value { result < 16 → hex_digit_value byte ≡ Some result }
    ensures none { 16 ≤ result → hex_digit_value byte ≡ None }
{
    match byte {
        b'A'..=b'F' => byte - b'A' + 10,
        b'a'..=b'f' => byte - b'a' + 10,
        b'0'..=b'9' => byte - b'0',
        _ => NO_DIGIT,
    }
}

/// The bytes that a text of digits spells, as `hex::decode` reads them, or `None` if it spells none.
pub(crate) fn decode(alloc: Global, text: &[u8]) -> Result<Option<Vec<u8>>, Memory>
    ensures { IfOk result (λ bytes. MatchOption bytes (IsErr (decode_of text.now)) (λ spelled. decode_of text.now ≡ Ok spelled.items)) }
{
    if text.len() % 2 != 0 {
        return Ok(None);
    }
    let mut bytes = vec![in alloc; 0u8; text.len() / 2]?;
    let mut greatest = 0;
    'bytes: for i in 0..bytes.len() {
        let high = digit(text[2 * i]);
        let low = digit(text[2 * i + 1]);
        bytes[i] = high % 16 * 16 + low % 16;
        greatest = greatest.max(high).max(low);
    }
    if greatest < 16 {
        Ok(Some(bytes))
    } else {
        Ok(None)
    }
}
