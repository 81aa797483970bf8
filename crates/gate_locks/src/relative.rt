ghost use Rattle.std.specs.Prelude.{◌≡◌, ◌<◌, ◌≤◌, ◌+◌, ◌^◌, ℕ, List, true, false, not, length, All};
ghost use Rattle.std.specs.List.{list_any};
ghost use Rattle.gate_chain.specs.History.{History};
ghost use Rattle.gate_chain.specs.Times.{tip_of};
ghost use Rattle.gate_locks.specs.Locks.{is_disabled, is_later_by, median_at, is_lock_met_by, sequence_locks_met_by};

use gate_chain::Chain;
use gate_tx::{Transaction, TxIn};
use std::hash::BuildHasher;

/// The bit of a sequence that says that there is no relative lock (Bitcoin Core's `SEQUENCE_LOCKTIME_DISABLE_FLAG`).
const DISABLED: u32 = 1 << 31;

/// The bit that says that a lock is by time (`SEQUENCE_LOCKTIME_TYPE_FLAG`).
const BY_TIME: u32 = 1 << 22;

/// The bits of a lock's length (`SEQUENCE_LOCKTIME_MASK`).
const SPAN: u32 = 0xffff;

/// The unit of a lock by time, in seconds.
const SECONDS: u64 = 512;

/// The first version of a transaction, read as unsigned, whose inputs have relative locks (BIP 68).
const FIRST_LOCKED: u32 = 2;

/// Whether an input of the transaction may have a relative lock (BIP 68).
pub fn has_relative_lock(tx: &Transaction) -> bool
    ensures { result ≡ false → (heights : List ℕ) (chain : History) → sequence_locks_met_by tx.now heights chain ≡ true }
{
    tx.version().cast_unsigned() >= FIRST_LOCKED && has_enabled(tx.inputs())
}

/// Whether a sequence of these inputs says that there is a relative lock.
fn has_enabled(inputs: &[TxIn]) -> bool
    ensures { result ≡ list_any (λ i. not (is_disabled i.sequence)) inputs.now }
{
    inputs.iter().any(|input| input.sequence & DISABLED == 0)
}

/// Whether the relative lock of each input is met in the next block (BIP 68). The heights are those of the inputs'
/// coins, one for each input; a coin of an unconfirmed transaction has the height of the next block. A lock by time whose
/// coin is too old for the chain to know the median time past before it is not met.
#[tactic(auto, unfolding(crate::specs::Locks::sequence_locks_met_by))]
pub fn sequence_locks_met<S: BuildHasher + Copy + Drop>(
    tx: &Transaction,
    heights: &[u32],
    chain: &Chain<S>,
) -> bool
    requires one_each { length heights.now ≡ length tx.now.inputs }
    requires within { All (λ h. h ≤ tip_of chain.now + 1) heights.now }
    ensures { result ≡ sequence_locks_met_by tx.now heights.now chain.now }
{
    if tx.version().cast_unsigned() < FIRST_LOCKED {
        return true;
    }
    for (input, height) in tx.inputs().iter().zip(heights) {
        if !is_lock_met(input.sequence, *height, chain) {
            return false;
        }
    }
    true
}

#[tactic(auto, unfolding(crate::specs::Locks::is_lock_met_by))]
fn is_lock_met<S: BuildHasher + Copy + Drop>(sequence: u32, height: u32, chain: &Chain<S>) -> bool
    requires { height ≤ tip_of chain.now + 1 }
    ensures { result ≡ is_lock_met_by chain.now sequence height }
{
    if sequence & DISABLED != 0 {
        return true;
    }
    let tip = chain.tip();
    let span = sequence & SPAN;
    if sequence & BY_TIME == 0 {
        return height + span <= tip + 1;
    }
    let start = chain.mtp(height.saturating_sub(1));
    is_later_by(SECONDS * u64::from(span), start, tip_mtp(chain))
}

/// Whether a second is at least so many seconds after another one, if that is known.
fn is_later_by(wait: u64, start: Option<u32>, now: u32) -> bool
    requires { wait < 2 ^ 63 }
    ensures { result ≡ is_later_by wait start now }
{
    match start {
        None => false,
        Some(start) => u64::from(start) + wait <= u64::from(now),
    }
}

/// The median time past of the tip.
fn tip_mtp<S: BuildHasher + Copy + Drop>(chain: &Chain<S>) -> u32
    ensures { result ≡ median_at chain.now (tip_of chain.now) }
{
    chain.mtp(chain.tip()).unwrap()
}
