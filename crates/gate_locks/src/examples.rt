//! The definitions at values that are known from outside.
ghost use Rattle.std.specs.Prelude.{◌≡◌, ◌∷◌, [], pos, negsuc, true, false};
ghost use Rattle.gate_locks.specs.Examples.{locked, timed, five_blocks};
ghost use Rattle.gate_locks.specs.Finality.{is_final_at};
ghost use Rattle.gate_locks.specs.Locks.{sequence_locks_met_by};

/// A locktime of 500,000,000 is the first that is a time; one sequence that waives it is not enough.
#[tactic(auto, unfolding(crate::specs::Finality::is_final_at))]
pub(crate) fn locktimes()
    ensures none { is_final_at (timed 0 0) 1 0 ≡ true }
    ensures below { is_final_at (timed 4 0) 5 0 ≡ true }
    ensures equal { is_final_at (timed 5 0) 5 9 ≡ false }
    ensures time { is_final_at (timed 500000000 0) 500000001 500000000 ≡ false }
    ensures past { is_final_at (timed 500000000 0) 5 500000001 ≡ true }
    ensures waived { is_final_at (timed 5 0xffff_ffff) 5 9 ≡ true }
{}

/// Locks by height, at tip 4: the next block is 3 above a coin of height 2.
#[tactic(auto, unfolding(crate::specs::Locks::sequence_locks_met_by, crate::specs::Locks::is_lock_met_by))]
pub(crate) fn blocks()
    ensures met { sequence_locks_met_by (locked (pos 2) 3) (2 ∷ []) five_blocks ≡ true }
    ensures early { sequence_locks_met_by (locked (pos 2) 4) (2 ∷ []) five_blocks ≡ false }
    ensures version_one { sequence_locks_met_by (locked (pos 1) 4) (2 ∷ []) five_blocks ≡ true }
    ensures version_below_zero { sequence_locks_met_by (locked (negsuc 0) 4) (2 ∷ []) five_blocks ≡ false }
    ensures disabled { sequence_locks_met_by (locked (pos 2) 0x8000_0004) (2 ∷ []) five_blocks ≡ true }
    ensures unconfirmed { sequence_locks_met_by (locked (pos 2) 0) (5 ∷ []) five_blocks ≡ true }
{}

/// Locks by time, in units of 512 seconds, at tip 4: its median time past is 2200, and that of height 1 is 1600.
#[tactic(auto, unfolding(crate::specs::Locks::sequence_locks_met_by, crate::specs::Locks::is_lock_met_by, gate_chain::specs::Times::mtp_of, gate_chain::specs::Times::mtp_at, gate_chain::specs::Median::median_of))]
pub(crate) fn seconds()
    ensures met { sequence_locks_met_by (locked (pos 2) 0x0040_0001) (2 ∷ []) five_blocks ≡ true }
    ensures early { sequence_locks_met_by (locked (pos 2) 0x0040_0002) (2 ∷ []) five_blocks ≡ false }
    ensures first { sequence_locks_met_by (locked (pos 2) 0x0040_0002) (0 ∷ []) five_blocks ≡ true }
    ensures unconfirmed { sequence_locks_met_by (locked (pos 2) 0x0040_0000) (5 ∷ []) five_blocks ≡ true }
{}
