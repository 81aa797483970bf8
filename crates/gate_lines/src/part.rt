//! A part of a line, from the bytes that a reader holds.
ghost use Rattle.std.specs.Prelude.{◌≡◌, ◌≤◌, length, take, [], IfOk, OnErr};
ghost use Rattle.gate_lines.specs.Parts.{LineShown, PartShown};

use gate_bytes::Memory;
use memchr::memchr;

/// What one look at a reader gave of a line.
#[derive(Clone, Copy, PartialEq, Eq)]
pub enum Part {
    /// The rest of the line, with its newline.
    Newline,
    /// Some bytes of the line, and no newline yet.
    More,
    /// A byte more than may be kept.
    TooLong,
    /// Nothing: the input ends here.
    End,
}

/// Appends to `line` the line that `shown` begins with, if its newline is shown and it has at most `room` bytes, and
/// gives how many of the bytes that are shown were taken.
pub(crate) fn append_line(
    shown: &[u8],
    line: &mut Vec<u8>,
    room: usize,
) -> Result<Option<usize>, Memory>
    ensures ok { IfOk result (λ taken. LineShown taken shown.now line.old.items line.new.items room) }
    ensures err { OnErr result (line.new.items ≡ line.old.items) }
{
    let most = room.saturating_add(1).min(shown.len());
    let front = &shown[..most];
    let Some(at) = memchr(b'\n', front) else {
        return Ok(None);
    };
    line.extend_from_slice(&front[..at])?;
    Ok(Some(at + 1))
}

/// Appends to `line` what `shown` begins with, up to a newline and at most `room` bytes, and gives how many of the bytes
/// that are shown were taken.
pub(crate) fn append_part(
    shown: &[u8],
    line: &mut Vec<u8>,
    room: usize,
) -> Result<(Part, usize), Memory>
    ensures within { IfOk result (λ p. p.1 ≤ length shown.now) }
    ensures part { IfOk result (λ p. PartShown p.0 (take p.1 shown.now) line.old.items line.new.items room) }
    ensures end { IfOk result (λ p. p.0 ≡ Part.End → shown.now ≡ []) }
    ensures err { OnErr result (line.new.items ≡ line.old.items) }
{
    if shown.is_empty() {
        return Ok((Part::End, 0));
    }
    if let Some(taken) = append_line(shown, line, room)? {
        return Ok((Part::Newline, taken));
    }
    if shown.len() > room {
        return Ok((Part::TooLong, room + 1));
    }
    line.extend_from_slice(shown)?;
    Ok((Part::More, shown.len()))
}
