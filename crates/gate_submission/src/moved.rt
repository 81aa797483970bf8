//! The outcome of a chain event.

/// The outcome of a chain event: the tip, and how many entries of the pool left and came.
#[derive(Clone, Copy, PartialEq, Eq)]
pub struct Moved {
    /// The height of the tip after it.
    pub tip: u32,
    /// How many entries before the event have a txid that no entry after it has.
    pub removed: usize,
    /// How many entries after the event have a txid that no entry before it had.
    pub entered: usize,
}
