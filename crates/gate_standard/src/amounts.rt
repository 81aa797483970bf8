//! Fees and feerates.
ghost use Rattle.std.specs.Prelude.{◌≡◌, ◌<◌, ◌≤◌};
ghost use Rattle.gate_standard.specs.Amounts.{required_fee, feerate, rounded_down, rounded_up};

/// How a part of a satoshi counts in a fee.
#[derive(Clone, Copy, PartialEq, Eq)]
pub enum Rounding {
    /// It doesn't, but a fee of nothing is one satoshi if rate and size are positive (Bitcoin Core before 23.0).
    Down,
    /// As a whole satoshi (Bitcoin Core 23.0 and later).
    Up,
}

/// What a size costs.
#[derive(Clone, Copy, PartialEq, Eq)]
pub struct Feerate {
    /// In satoshi per 1,000 virtual bytes.
    pub rate: u64,
    pub rounding: Rounding,
}

#[tactic(auto, unfolding(crate::specs::Amounts::rounded_down))]
fn rounded_down(rate: u64, size: u64) -> u128
    ensures { result ≡ rounded_down rate size }
{
    let fee = u128::from(rate) * u128::from(size) / 1000;
    if fee == 0 && rate > 0 && size > 0 {
        1
    } else {
        fee
    }
}

#[tactic(auto, unfolding(crate::specs::Amounts::rounded_up))]
fn rounded_up(rate: u64, size: u64) -> u128
    ensures { result ≡ rounded_up rate size }
{
    (u128::from(rate) * u128::from(size) + 999) / 1000
}

impl Feerate {
    /// The fee in satoshi of `size` virtual bytes (Bitcoin Core's `CFeeRate::GetFee`).
    #[tactic(auto, unfolding(crate::specs::Amounts::required_fee))]
    pub fn fee(self, size: u64) -> u128
        ensures { result ≡ required_fee self size }
    {
        match self.rounding {
            Rounding::Down => rounded_down(self.rate, size),
            Rounding::Up => rounded_up(self.rate, size),
        }
    }
}

/// The feerate, in satoshi per 1,000 virtual bytes, of a fee in satoshi for `size` virtual bytes.
#[tactic(auto, unfolding(crate::specs::Amounts::feerate))]
pub fn rate_of(fee: u64, size: u64) -> u128
    requires { 0 < size }
    ensures { result ≡ feerate fee size }
{
    u128::from(fee) * 1000 / u128::from(size)
}
