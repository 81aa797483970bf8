//! How a call ends.
ghost use Rattle.std.specs.Prelude.{◌≡◌};

/// How a call ends.
#[derive(Clone, Copy, PartialEq, Eq)]
pub enum Status {
    Done,
    /// The transaction that was checked is denied.
    Denied,
    /// The buffer has no room for the text, whose size is given.
    BufferTooSmall,
    /// Memory ran out, and nothing has changed.
    OutOfMemory,
    /// The handle is closed.
    NotOpen,
    /// The handle is open.
    AlreadyOpen,
    /// The opening has a fault.
    OpeningRefused,
    /// The line has more than 16,777,216 bytes, and nothing has changed.
    LineTooLong,
    /// The line is answered, but memory ran out in the text of its reply; the reply is kept.
    ReplyKept,
}

impl Status {
    ghost use Rattle.gate_c.specs.Statuses.{code_of};

    /// The number that C gets.
    pub fn code(self) -> u32
        ensures { result ≡ code_of self }
    {
        match self {
            Status::Done => 0,
            Status::Denied => 1,
            Status::BufferTooSmall => 2,
            Status::OutOfMemory => 3,
            Status::NotOpen => 4,
            Status::AlreadyOpen => 5,
            Status::OpeningRefused => 6,
            Status::LineTooLong => 7,
            Status::ReplyKept => 8,
        }
    }
}
