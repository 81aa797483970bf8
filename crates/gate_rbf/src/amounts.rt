//! A41 and A42: a replacement pays for what it replaces, and for its own relay.
ghost use Rattle.std.specs.Prelude.{◌≡◌, Some, None, OnOk, IfErr};
ghost use Rattle.gate_bytes.specs.Order.{first_failing};
ghost use Rattle.gate_rbf.specs.Paying.{amount_rules};

use gate_standard::{Denial, Feerate};

/// Checks A41 and A42 for a transaction of this fee, in satoshi, and this size, in virtual bytes. The entries that it
/// replaces pay `paid` satoshi, and it pays for its own relay at `rate`.
pub(crate) fn check_amounts(rate: Feerate, fee: u64, vsize: u64, paid: u128) -> Result<(), Denial>
    ensures ok { OnOk result (first_failing (amount_rules rate paid fee vsize) ≡ None) }
    ensures err { IfErr result (λ denial. first_failing (amount_rules rate paid fee vsize) ≡ Some denial) }
{
    let fee = u128::from(fee);
    if fee < paid {
        return Err(Denial::LowerFee);
    }
    if fee - paid < rate.fee(vsize) {
        return Err(Denial::LowerDifference);
    }
    Ok(())
}
