//! What transactions of a package pay.
ghost use Rattle.std.specs.Prelude.{◌≡◌};
ghost use Rattle.gate_diagram.specs.Prices.{price_sum_fee, price_sum_size};

/// What a transaction pays, in satoshi, and for how many virtual bytes.
#[derive(Clone, Copy, PartialEq, Eq)]
pub struct Price {
    pub fee: u64,
    pub vsize: u64,
}

/// What all of them pay together, as far as 64 bits hold it.
pub fn sum_of(prices: &[Price]) -> Price
    ensures fee { result.fee ≡ price_sum_fee prices.now }
    ensures vsize { result.vsize ≡ price_sum_size prices.now }
{
    let mut sum = Price { fee: 0, vsize: 0 };
    for price in prices {
        sum.fee = sum.fee.saturating_add(price.fee);
        sum.vsize = sum.vsize.saturating_add(price.vsize);
    }
    sum
}
