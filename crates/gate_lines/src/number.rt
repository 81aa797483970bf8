//! Numbers in decimal, without sign or leading zeros.
ghost use Rattle.std.specs.Prelude.{◌≡◌, ◌==◌, ◌≤◌, ◌↔◌, List, ℕ, Some, slice_index};
ghost use Rattle.std.specs.Fmt.{decimal};
ghost use Rattle.gate_lines.specs.Numbers.{number_of, small_number_of, no_leading_zero, max_number};

/// The greatest number that a line may name: the greatest whole number that every JSON reader keeps exact.
pub const MAX_NUMBER: u64 = 9_007_199_254_740_991;

/// Whether the text has no leading zero.
fn lacks_leading_zero(text: &[u8]) -> bool
    ensures { result ≡ no_leading_zero text.now }
{
    match text {
        [b'0', _, ..] => false,
        _ => true,
    }
}

fn begins_with_plus(text: &[u8]) -> bool
    ensures { result ≡ (slice_index text.now 0 == 43) }
{
    match text {
        [b'+', ..] => true,
        _ => false,
    }
}

/// The number that the text spells in decimal, at most `MAX_NUMBER`; `None` for any other text.
pub fn read_number(text: &str) -> Option<u64>
    ensures { result ≡ number_of text.now }
{
    if !lacks_leading_zero(text.as_bytes()) {
        return None;
    }
    if begins_with_plus(text.as_bytes()) {
        return None;
    }
    match text.parse::<u64>() {
        Ok(n) => if n <= MAX_NUMBER { Some(n) } else { None },
        Err(_) => None,
    }
}

/// That a text is read as a number exactly if it is that number's decimal text.
pub fn numbers_are_decimal()
    ensures { (text : List ℕ) (n : ℕ) → (number_of text ≡ Some n) ↔ ((text ≡ decimal n) × (n ≤ max_number)) }
{}

/// The number that the text spells in decimal, if it fits 32 bits, as heights, times of blocks and places do.
pub fn read_small_number(text: &str) -> Option<u32>
    ensures { result ≡ small_number_of text.now }
{
    u32::try_from(read_number(text)?).ok()
}
