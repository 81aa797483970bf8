/// The most satoshi that there can be (Bitcoin Core's `MAX_MONEY`).
pub const MAX_MONEY: u64 = 2_100_000_000_000_000;
