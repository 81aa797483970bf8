ghost use Rattle.std.specs.Prelude.{◌≡◌, ◌≤◌};
ghost use Rattle.gate_trim.specs.Trimming.{largest_step, trim_of};

use crate::floor::Floor;
use gate_pool::Pool;
use std::hash::BuildHasher;

/// Takes out the entry of least score, with all that is below it, until the rest is within the budget in virtual bytes.
/// Each time the floor rises to a step above the feerate of the entries that were taken out. It takes no memory, and
/// gives up the room that the pool had taken if anything is taken out.
pub fn trim<S: BuildHasher + Copy + Drop>(
    pool: &mut Pool<S>,
    floor: &mut Floor,
    step: u64,
    budget: u64,
)
    requires { step ≤ largest_step }
    ensures trimmed { trim_of step budget pool.old.entries floor.old ≡ record { entries = pool.new.entries; floor = floor.new } }
    ensures before { pool.new.before ≡ pool.old.before }
{
    while pool.size() > u128::from(budget) {
        let Some(score) = pool.least() else {
            return;
        };
        let score = *score;
        pool.take_family(&score.txid);
        floor.raise(step, score.family);
    }
}
