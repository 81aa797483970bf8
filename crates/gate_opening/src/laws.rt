//! Laws above the definitions.
ghost use Rattle.gate_opening.specs.Laws.{OpeningsAreGood, OpeningsHaveDefaults};

/// The state that a text spells is good: its policy is within its bounds, and its pool is empty.
pub fn openings_are_good()
    ensures { OpeningsAreGood }
{}

/// An opening none of whose lines sets a number or a switch of the policy on transactions has the usual policy.
pub fn openings_have_defaults()
    ensures { OpeningsHaveDefaults }
{}
