//! Laws of expiry and trimming, stated apart from their steps.
ghost use Rattle.gate_trim.specs.Laws.{KeepsTheBudget, LeavesTheYoung, RaisesTheFloor, TrimsTheLeast};

/// Each entry that trimming picks has the least score of all that are there then, and no entry that was admitted later
/// has the same score. It leaves with its descendants and with nothing else, and the floor is then above their feerate.
/// No entry leaves while all are within the budget.
pub fn trimming_takes_the_least()
    ensures { TrimsTheLeast }
{}

/// The entries that trimming leaves are within the budget.
pub fn trimming_keeps_the_budget()
    ensures { KeepsTheBudget }
{}

/// Trimming never lowers the floor.
pub fn trimming_raises_the_floor()
    ensures { RaisesTheFloor }
{}

/// After expiry, no entry was admitted longer ago than it may stay, and none of its ancestors was. Each entry of which
/// this holds is left.
pub fn expiry_leaves_the_young()
    ensures { LeavesTheYoung }
{}
