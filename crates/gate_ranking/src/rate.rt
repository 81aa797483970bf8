ghost use Rattle.std.specs.Prelude.{◌≡◌, ◌≤◌, ◌*◌, IfSome, max};
ghost use Rattle.std.specs.Ordering.{nat_cmp};

use std::cmp::Ordering;
use std::marker::Model;

/// What numbers of 64 bits are below.
const SHORT: u128 = 1 << 64;

/// The product of two numbers of 64 bits; none of others.
fn short_product(a: u128, b: u128) -> Option<u128>
    ensures { IfSome result (λ product. product ≡ a * b) }
{
    if a < SHORT && b < SHORT {
        Some(u128::from(a as u64) * u128::from(b as u64))
    } else {
        None
    }
}

/// Compares the product of `a` and `b` with that of `c` and `d`, either of which may exceed 128 bits.
fn compare_products(a: u128, b: u128, c: u128, d: u128) -> Ordering
    ensures { result ≡ nat_cmp (a * b) (c * d) }
{
    if let Some(product) = short_product(a, b) {
        if let Some(other) = short_product(c, d) {
            return product.cmp(&other);
        }
    }
    let (low, high) = a.carrying_mul(b, 0);
    let (other_low, other_high) = c.carrying_mul(d, 0);
    if high == other_high {
        low.cmp(&other_low)
    } else {
        high.cmp(&other_high)
    }
}

/// Fees over a size, as a fraction. Rates compare as fractions do, exactly, whatever their numbers are.
#[derive(Clone, Copy)]
pub struct Rate {
    fees: u128,
    size: u128,
}

impl Model for Rate {
    ghost use Rattle.std.specs.Prelude.{◌≤◌};
    ghost use Rattle.gate_ranking.specs.Rate.{Fraction};

    ghost Value = { Fraction };

    ghost view = { λ r. record { fees = r.fees; size = r.size } };

    ghost invariant = { λ r. 1 ≤ r.size };

    ghost inverse = { λ f. record { fees = f.fees; size = f.size } };
}

impl Rate {
    /// Fees over a size; a size of 0 counts as 1.
    pub fn new(fees: u128, size: u128) -> Rate
        ensures { result ≡ record { fees = fees; size = max size 1 } }
    {
        Rate {
            fees,
            size: size.max(1),
        }
    }

    pub fn fees(&self) -> u128
        ensures { result ≡ self.now.fees }
    {
        self.fees
    }

    pub fn size(&self) -> u128
        ensures value { result ≡ self.now.size }
        ensures least { 1 ≤ result }
    {
        self.size
    }
}

impl PartialEq for Rate {
    ghost use Rattle.gate_ranking.specs.Rate.{rate_eq, rate_eq_equiv};
    ghost use Rattle.std.specs.Cmp.{partial_equiv_from_equiv};

    ghost eq = { rate_eq };

    ghost laws = { partial_equiv_from_equiv rate_eq_equiv };

    fn eq(&self, other: &Rate) -> bool {
        self.cmp(other) == Ordering::Equal
    }
}

impl Eq for Rate {
    ghost use Rattle.gate_ranking.specs.Rate.{rate_eq_equiv};

    ghost laws = { rate_eq_equiv };
}

impl PartialOrd for Rate {
    ghost use Rattle.std.specs.Prelude.{refl};
    ghost use Rattle.std.specs.Ordering.{as_partial_cmp};
    ghost use Rattle.std.specs.Cmp.{partial_order_from_agreeing_total};
    ghost use Rattle.gate_ranking.specs.Rate.{rate_cmp, rate_cmp_total, rate_eq_is};

    ghost partial_cmp = { as_partial_cmp rate_cmp };

    ghost laws = { partial_order_from_agreeing_total rate_cmp rate_cmp_total (λ x y. refl) rate_eq_is };

    fn partial_cmp(&self, other: &Rate) -> Option<Ordering> {
        Some(self.cmp(other))
    }
}

impl Ord for Rate {
    ghost use Rattle.std.specs.Prelude.{refl};
    ghost use Rattle.gate_ranking.specs.Rate.{rate_cmp, rate_cmp_total, rate_eq_is};

    ghost cmp = { rate_cmp };

    ghost total = { rate_cmp_total };

    ghost matches_partial_cmp = { λ x y. refl };

    ghost matches_eq = { rate_eq_is };

    fn cmp(&self, other: &Rate) -> Ordering {
        compare_products(self.fees, other.size, other.fees, self.size)
    }
}
