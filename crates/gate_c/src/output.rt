//! What a call puts into the host's buffer.
ghost use Rattle.std.specs.Prelude.{◌≡◌};
ghost use Rattle.gate_c.specs.Outputs.{Copied, TextPut};
ghost use Rattle.gate_c.specs.Statuses.{code_of};

use crate::status::Status;

/// Copies a text to the front of a buffer if there is room for it, and gives its size in either case.
fn copy_text(text: &[u8], out: &mut [u8], size: &mut usize) -> bool
    ensures { Copied text.now out.old out.new size.new result }
{
    let length = text.len();
    *size = length;
    if out.len() < length {
        return false;
    }
    out[..length].copy_from_slice(text);
    true
}

/// Puts a text into a buffer, and gives this status if there is room for it.
pub fn put_text(status: Status, text: &[u8], out: &mut [u8], size: &mut usize) -> Status
    ensures { TextPut (code_of status) text.now out.old out.new size.new (code_of result) }
{
    if copy_text(text, out, size) {
        status
    } else {
        Status::BufferTooSmall
    }
}

/// Puts nothing into the buffer.
pub fn put_nothing(status: Status, size: &mut usize) -> Status
    ensures status { result ≡ status }
    ensures size { size.new ≡ 0 }
{
    *size = 0;
    status
}
