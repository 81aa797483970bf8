//! The feerate diagram of chunks, and whether one is better than another (J16).
ghost use Rattle.std.specs.Prelude.{◌≡◌, ◌≤◌, ◌<◌, ◌+◌, ◌^◌, ◌||◌, All, Some, None, length, if◌then◌else◌};
ghost use Rattle.std.specs.List.{list_any};
ghost use Rattle.gate_diagram.specs.Diagram.{IsSmall, beyond, both_of, improves, is_below, is_dearer, surplus, zero_rate};

use crate::price::Price;

/// What a chunk pays beyond a feerate, times the size of that.
fn beyond(rate: Price, chunk: Price) -> u128
    ensures { result ≡ beyond rate chunk }
{
    let own = u128::from(chunk.fee) * u128::from(rate.vsize);
    let at_rate = u128::from(rate.fee) * u128::from(chunk.vsize);
    own.saturating_sub(at_rate)
}

/// What all of these pay beyond a feerate, times the size of that.
fn surplus(rate: Price, chunks: &[Price]) -> u128
    requires small_rate { IsSmall rate }
    requires small { All IsSmall chunks.now }
    requires few { length chunks.now ≤ 1000 }
    ensures { result ≡ surplus rate chunks.now }
{
    let mut sum = 0;
    for chunk in chunks {
        sum += beyond(rate, *chunk);
    }
    sum
}

/// Whether beyond a feerate these pay less than the others.
fn is_below(chunks: &[Price], others: &[Price], rate: Price) -> bool
    requires small_rate { IsSmall rate }
    requires small { All IsSmall chunks.now }
    requires small_others { All IsSmall others.now }
    requires few { length chunks.now ≤ 1000 }
    requires few_others { length others.now ≤ 1000 }
    ensures { result ≡ is_below chunks.now others.now rate }
{
    surplus(rate, chunks) < surplus(rate, others)
}

/// Whether beyond one of these feerates the first chunks pay less than the others.
fn is_below_at(chunks: &[Price], others: &[Price], rates: &[Price]) -> bool
    requires small_rates { All IsSmall rates.now }
    requires small { All IsSmall chunks.now }
    requires small_others { All IsSmall others.now }
    requires few { length chunks.now ≤ 1000 }
    requires few_others { length others.now ≤ 1000 }
    ensures { result ≡ list_any (is_below chunks.now others.now) rates.now }
{
    for rate in rates {
        if is_below(chunks, others, *rate) {
            return true;
        }
    }
    false
}

/// Whether beyond 0, or beyond the feerate of a chunk of either, the first chunks pay less than the others.
fn is_below_somewhere(chunks: &[Price], others: &[Price]) -> bool
    requires small { All IsSmall chunks.now }
    requires small_others { All IsSmall others.now }
    requires few { length chunks.now ≤ 1000 }
    requires few_others { length others.now ≤ 1000 }
    ensures { result ≡ (is_below chunks.now others.now zero_rate || (list_any (is_below chunks.now others.now) chunks.now || list_any (is_below chunks.now others.now) others.now)) }
{
    let zero_rate = Price { fee: 0, vsize: 1 };
    is_below(chunks, others, zero_rate)
        || is_below_at(chunks, others, chunks)
        || is_below_at(chunks, others, others)
}

/// Whether the diagram of these chunks is nowhere below that of the others, and above it somewhere.
pub fn improves(chunks: &[Price], others: &[Price]) -> bool
    requires small { All IsSmall chunks.now }
    requires small_others { All IsSmall others.now }
    requires few { length chunks.now ≤ 1000 }
    requires few_others { length others.now ≤ 1000 }
    ensures { result ≡ improves chunks.now others.now }
{
    !is_below_somewhere(chunks, others) && is_below_somewhere(others, chunks)
}

/// What two pay together.
fn both_of(first: Price, second: Price) -> Price
    requires fee { first.fee + second.fee < 2 ^ 64 }
    requires vsize { first.vsize + second.vsize < 2 ^ 64 }
    ensures { result ≡ both_of first second }
{
    Price {
        fee: first.fee + second.fee,
        vsize: first.vsize + second.vsize,
    }
}

/// Whether the feerate of the first is below that of the second.
fn is_dearer(first: Price, second: Price) -> bool
    ensures { result ≡ is_dearer first second }
{
    u128::from(first.fee) * u128::from(second.vsize)
        < u128::from(second.fee) * u128::from(first.vsize)
}

/// What a parent and its child pay together, if they are one chunk.
pub fn joined(parent: Price, child: Price) -> Option<Price>
    requires fee { parent.fee + child.fee < 2 ^ 64 }
    requires vsize { parent.vsize + child.vsize < 2 ^ 64 }
    ensures { result ≡ (if is_dearer (both_of parent child) child then Some (both_of parent child) else None) }
{
    let both = both_of(parent, child);
    if is_dearer(both, child) {
        Some(both)
    } else {
        None
    }
}
