//! The words of a line, parted by single spaces.
ghost use Rattle.std.specs.Prelude.{◌≡◌, MatchOption, None, Some};
ghost use Rattle.gate_lines.specs.Words.{part_of, is_word};

use memchr::memchr;

/// The text before the first space and the text after it, or none if there is no space.
pub fn next_word(line: &str) -> Option<(&str, &str)>
    ensures { MatchOption result (part_of line.now ≡ None) (λ p. part_of line.now ≡ Some (p.0.now, p.1.now)) }
{
    let space = memchr(b' ', line.as_bytes())?;
    Some((&line[..space], &line[space + 1..]))
}

/// Whether the text is one word: it isn't empty, and no space is in it.
pub fn is_one_word(text: &str) -> bool
    ensures { result ≡ is_word text.now }
{
    !text.is_empty() && next_word(text).is_none()
}
