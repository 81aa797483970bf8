//! Block times in even steps.
ghost use Rattle.std.specs.Prelude.{◌≡◌, ◌≤◌, ◌^◌, ◌++◌, nat_le, not, false, OnOk};
ghost use Rattle.std.specs.List.{list_any};
ghost use Rattle.gate_chain.specs.Opening.{times_limit};
ghost use Rattle.gate_opening.specs.BlockTimes.{times_from, some_too_great};

use gate_bytes::Memory;

/// Whether each of these times fits 32 bits.
pub(crate) fn times_fit(count: u64, first: u32, step: u64) -> bool
    requires { count ≤ times_limit }
    ensures { result ≡ not (some_too_great (times_from count first step)) }
{
    if count == 0 {
        return true;
    }
    let last = u128::from(first) + u128::from(count - 1) * u128::from(step);
    last <= u128::from(u32::MAX)
}

/// Appends times that fit.
pub(crate) fn append_times(
    times: &mut Vec<u32>,
    count: u64,
    first: u32,
    step: u64,
) -> Result<(), Memory>
    requires { some_too_great (times_from count first step) ≡ false }
    ensures { OnOk result (times.new.items ≡ times.old.items ++ times_from count first step) }
{
    let mut time = u128::from(first);
    for _ in 0..count {
        times.push(time as u32)?;
        time += u128::from(step);
    }
    Ok(())
}
