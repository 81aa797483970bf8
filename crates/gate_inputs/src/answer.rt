/// What policy says of an input that spends a coin.
#[derive(Clone, Copy, PartialEq, Eq)]
pub struct Answers {
    /// Whether the coin and the script under a script hash are of a kind that is relayed.
    pub standard: bool,
    /// Whether the witness is of a kind that is relayed.
    pub witness_standard: bool,
    /// The cost of the signature operations; at most 2^64 - 1, which no input of less than 2^50 bytes reaches.
    pub sigop_cost: u64,
    /// Whether the coin is an anchor (BIP 433), which policy relays or not as an operator says.
    pub anchor: bool,
    /// Whether the input has no witness.
    pub bare: bool,
    /// The legacy signature operations of the input (BIP 54); at most 2^64 - 1, which none of less than 2^50 bytes reaches.
    pub legacy_sigops: u64,
}
