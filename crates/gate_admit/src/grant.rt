/// What is granted: the transaction's fee and size, and how many entries it replaces.
#[derive(Clone, Copy, PartialEq, Eq)]
pub struct Grant {
    /// In satoshi.
    pub fee: u64,
    /// In virtual bytes.
    pub vsize: u64,
    /// How many entries it replaces: those that it conflicts with, and their descendants, and a sibling.
    pub replaced: u64,
}
