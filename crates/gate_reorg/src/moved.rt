//! How two pools differ.
ghost use Rattle.std.specs.Prelude.{◌≡◌, IfOk};
ghost use Rattle.gate_reorg.specs.Events.{count_beyond};

use gate_bytes::Memory;
use gate_pool::Pool;
use std::alloc::Global;
use std::hash::BuildHasher;

/// How many entries of one pool have a txid that no entry of the other has.
pub(crate) fn count_beyond<S: BuildHasher + Copy + Drop>(
    alloc: Global,
    pool: &Pool<S>,
    other: &Pool<S>,
) -> Result<usize, Memory>
    ensures { IfOk result (λ count. count ≡ count_beyond pool.now.entries other.now.entries) }
{
    let listing = pool.listing(alloc)?;
    let mut count = 0;
    for txid in listing.as_slice() {
        if other.entry(txid).is_none() {
            count += 1;
        }
    }
    Ok(count)
}
