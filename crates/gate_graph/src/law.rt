ghost use Rattle.std.specs.Prelude.{List, ℕ, IsTrue, ◌↔◌};
ghost use Rattle.gate_graph.specs.Family.{reaches, Leads};
ghost use Rattle.gate_graph.specs.Laws.{FamiliesHaveEachOnce, StrangersHaveNoFamily, NodesJoinFamilies, RootsLeaveFamilies, RootsComeAndGo};

/// Whatever the steps, `reaches` holds of two ids exactly if a chain of steps leads from the first to the second.
pub fn reaching_is_leading()
    ensures { (steps : List (List ℕ × List ℕ)) (a b : List ℕ) → IsTrue (reaches steps a b) ↔ Leads steps a b }
{}

/// A family has each node once, whatever paths lead to it.
pub fn families_have_each_once()
    ensures { FamiliesHaveEachOnce }
{}

/// An id that no node has is above none and below none.
pub fn strangers_have_no_family()
    ensures { StrangersHaveNoFamily }
{}

/// What adding a node between parents and children does to families.
pub fn nodes_join_families()
    ensures { NodesJoinFamilies }
{}

/// What taking out a node without parents does to families.
pub fn roots_leave_families()
    ensures { RootsLeaveFamilies }
{}

/// Taking out a node without parents undoes putting it above others.
pub fn roots_come_and_go()
    ensures { RootsComeAndGo }
{}
