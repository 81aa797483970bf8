//! The figures of transactions of a package: of A34 and A35, also where several are judged together, and of A36.
ghost use Rattle.std.specs.Prelude.{◌≡◌, IfOk};
ghost use Rattle.gate_core.specs.World.{standing_of};
ghost use Rattle.gate_figures.specs.Members.{asked_by, first_try, paid, paid_together, price_at, price_behind, rate_by};

use crate::coins::coins_beside;
use crate::families::crowded_past;
use crate::fees;
use crate::figures::Figures;
use gate_bytes::Memory;
use gate_core::State;
use gate_diagram::{Price, sum_of};
use gate_standard::{Denial, Feerate};
use gate_submission::Candidate;
use std::alloc::Global;
use std::hash::BuildHasher;

/// A fee in satoshi for this many virtual bytes, if 64 bits hold it.
fn price_at(fee: u128, vsize: Option<u64>) -> Option<Price>
    ensures { result ≡ price_at fee vsize }
{
    let vsize = vsize?;
    if fee > u128::from(u64::MAX) {
        return None;
    }
    Some(Price {
        fee: fee as u64,
        vsize,
    })
}

/// What a transaction of a package pays, and for how many virtual bytes, as A34 and A35 ask it: the coins of its inputs are
/// also those that these others make. None if its signature operations cost too much (A33), or if 64 bits don't hold the fee.
/// Its coins are worth as much wherever they are found, so it doesn't matter which of the others came into the pool.
pub fn price_behind<S: BuildHasher + Copy + Drop>(
    alloc: Global,
    state: &State<S>,
    others: &[Candidate<'_>],
    candidate: &Candidate<'_>,
) -> Result<Option<Price>, Memory>
    ensures { IfOk result (λ price. price ≡ price_behind (standing_of state.now) others.now candidate.now) }
{
    let tx = candidate.identified().get();
    let inputs = tx.transaction().inputs();
    let coins = coins_beside(alloc, state.chain(), state.pool(), others, inputs)?;
    let price = fees::Price::by_coins(alloc, state.policy(), tx, coins.as_slice())?;
    Ok(price_at(price.fee, price.vsize))
}

/// The figures of A36 for a transaction of a package of this virtual size, which has the first try alone: its ancestors and
/// itself, if they are too many or too large. Where it is denied and there are none, the limits of descendants deny it.
pub fn crowded_member<S: BuildHasher + Copy + Drop>(
    alloc: Global,
    state: &State<S>,
    candidate: &Candidate<'_>,
    vsize: u64,
) -> Result<Option<Figures>, Memory>
    ensures { IfOk result (λ found. found ≡ first_try (standing_of state.now) candidate.now vsize) }
{
    let policy = state.policy();
    let tx = candidate.transaction();
    crowded_past(alloc, policy, state.pool(), tx, policy.ancestors(), vsize)
}

/// The feerates that are asked of a package: that of the pool's floor (A34), and the one that every relay asks (A35).
#[derive(Clone, Copy)]
pub struct AskedRates {
    floor: Feerate,
    relay: Feerate,
}

impl AskedRates {
    /// The feerates that a state asks.
    pub fn of<S: BuildHasher + Copy + Drop>(state: &State<S>) -> AskedRates
        ensures { result ≡ asked_by (standing_of state.now) }
    {
        let policy = state.policy();
        AskedRates {
            floor: policy.feerate(state.floor().rate()),
            relay: policy.relay_feerate(),
        }
    }

    /// The feerate that a rule asks.
    fn by(&self, denial: Denial) -> Option<Feerate>
        ensures { result ≡ rate_by self.now denial }
    {
        match denial {
            Denial::MempoolMinFee => Some(self.floor),
            Denial::MinRelayFee => Some(self.relay),
            _ => None,
        }
    }

    /// The figures by which A34 or A35 denies a transaction at this price; any other rule has none here.
    pub fn paid(&self, denial: Denial, price: Price) -> Option<Figures>
        ensures { result ≡ paid self.now denial price }
    {
        let rate = self.by(denial)?;
        Some(Figures::Pays {
            fee: u128::from(price.fee),
            needs: rate.fee(price.vsize),
        })
    }

    /// The figures by which A34 or A35 denies transactions that are judged together, each at its price; any other rule has
    /// none here.
    pub fn paid_together(&self, denial: Denial, prices: &[Price]) -> Option<Figures>
        ensures { result ≡ paid_together self.now denial prices.now }
    {
        let rate = self.by(denial)?;
        let Price { fee, vsize } = sum_of(prices);
        Some(Figures::PayTogether {
            count: prices.len(),
            fee,
            vsize,
            needs: rate.fee(vsize),
        })
    }
}
