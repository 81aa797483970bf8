//! The input whose relative lock is not met.
ghost use Rattle.std.specs.Prelude.{◌≡◌, ◌<◌, ◌^◌};
ghost use Rattle.gate_figures.specs.Figures.{height_locked, locked, locked_by, locked_coin, time_locked};

use crate::figures::Figures;
use gate_admit::{Chain, LentCoin, Pool, tip_median, view_coin};
use gate_tx::TxIn;
use std::hash::BuildHasher;

/// The bit of a sequence that says that there is no relative lock (BIP 68).
const DISABLED: u32 = 1 << 31;

/// The bit that says that a lock is by time.
const BY_TIME: u32 = 1 << 22;

/// The bits of a lock's length.
const SPAN: u32 = 0xffff;

/// The unit of a lock by time, in seconds.
const SECONDS: u64 = 512;

/// A lock of so many blocks on a coin of this height, if the next height doesn't meet it.
fn height_locked(next: u32, input: usize, span: u32, height: u32) -> Option<Figures>
    ensures { result ≡ height_locked next input span height }
{
    let first = u64::from(height) + u64::from(span);
    let next = u64::from(next);
    if first <= next {
        return None;
    }
    Some(Figures::HeightLocked {
        input,
        blocks: first - next,
    })
}

/// A lock of so many seconds from a second that may not be known, if it is not met now.
fn time_locked(now: u32, input: usize, wait: u64, start: Option<u32>) -> Option<Figures>
    requires { wait < 2 ^ 63 }
    ensures { result ≡ time_locked now input wait start }
{
    let Some(start) = start else {
        return Some(Figures::UntimedLocked { input });
    };
    let first = u64::from(start) + wait;
    let now = u64::from(now);
    if first <= now {
        return None;
    }
    Some(Figures::TimeLocked {
        input,
        seconds: first - now,
    })
}

/// The lock of an input with this sequence, if a coin of this height doesn't meet it.
#[tactic(auto, unfolding(crate::specs::Figures::locked_by))]
fn locked_by<S: BuildHasher + Copy + Drop>(
    chain: &Chain<S>,
    input: usize,
    sequence: u32,
    height: u32,
) -> Option<Figures>
    ensures { result ≡ locked_by chain.now input sequence height }
{
    if sequence & DISABLED != 0 {
        return None;
    }
    let span = sequence & SPAN;
    if sequence & BY_TIME == 0 {
        return height_locked(chain.tip() + 1, input, span, height);
    }
    let start = chain.mtp(height.saturating_sub(1));
    time_locked(tip_median(chain), input, SECONDS * u64::from(span), start)
}

/// The lock of an input that spends this coin, if it is not met.
fn locked_coin<S: BuildHasher + Copy + Drop>(
    chain: &Chain<S>,
    input: usize,
    sequence: u32,
    coin: Option<LentCoin<'_>>,
) -> Option<Figures>
    ensures { result ≡ locked_coin chain.now input sequence coin.entry }
{
    locked_by(chain, input, sequence, coin?.height())
}

/// The first input whose relative lock is not met.
pub(crate) fn locked<S: BuildHasher + Copy + Drop>(
    chain: &Chain<S>,
    pool: &Pool<S>,
    inputs: &[TxIn],
) -> Option<Figures>
    ensures { result ≡ locked chain.now pool.now.entries 0 inputs.now }
{
    for input in 0..inputs.len() {
        let spent = &inputs[input];
        let coin = view_coin(chain, pool, &spent.prevout);
        if let Some(found) = locked_coin(chain, input, spent.sequence, coin) {
            return Some(found);
        }
    }
    None
}
