ghost use Rattle.std.specs.Prelude.{◌≡◌};
ghost use Rattle.gate_trim.specs.Expiry.{expired};

use gate_pool::Pool;
use std::hash::BuildHasher;

/// Takes out the entries that were admitted longer ago than an entry may stay, in seconds, and all that is below them
/// (Bitcoin Core 22.0's `-mempoolexpiry`). `now` is in seconds since 1970. It takes no memory, and gives up the room that the pool had taken.
pub fn expire<S: BuildHasher + Copy + Drop>(pool: &mut Pool<S>, stay: u64, now: u64)
    ensures entries { pool.new.entries ≡ expired stay now pool.old.entries }
    ensures before { pool.new.before ≡ pool.old.before }
{
    pool.take_before(now.saturating_sub(stay));
}
