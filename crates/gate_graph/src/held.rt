ghost use Rattle.std.specs.Prelude.{◌≡◌};
ghost use Rattle.gate_graph.specs.Ranks.{rate_of};

use crate::id::NodeId;
use gate_ranking::Rate;

/// The number of some nodes, and the sums of their sizes and fees.
#[derive(Clone, Copy, PartialEq, Eq)]
pub struct Sums {
    /// How many there are.
    pub count: u64,
    /// Their sizes, added up, in the unit of the nodes' sizes.
    pub size: u128,
    /// Their fees, added up, in the unit of the nodes' fees.
    pub fees: u128,
}

/// The sums of a node's ancestors and of its descendants, each with the node itself.
#[derive(Clone, Copy, PartialEq, Eq)]
pub struct Totals {
    /// The ancestors.
    pub above: Sums,
    /// The descendants.
    pub below: Sums,
}

/// The size and the fee of one node.
#[derive(Clone, Copy)]
pub(crate) struct Weight {
    pub(crate) size: u64,
    pub(crate) fee: u64,
}

/// A node, and what it carries.
#[derive(Drop)]
pub struct Held<T: Drop> {
    pub id: NodeId,
    pub size: u64,
    pub fee: u64,
    /// The ids that it names as its parents.
    pub parents: Vec<NodeId>,
    pub totals: Totals,
    /// What it carries.
    pub load: T,
}

/// What a node that was taken out carried, with the ids that it named and the place at which it stood.
#[derive(Drop)]
pub struct Gone<T: Drop> {
    /// Where it stood among the nodes, holes counted.
    pub place: usize,
    /// The ids that it named as its parents.
    pub parents: Vec<NodeId>,
    /// What it carried.
    pub load: T,
}

impl<T: Drop> Held<T> {
    /// What the node is ranked by: its own fee over its size, or the fees over the sizes of all that is below it, itself
    /// among them, whichever is greater.
    #[tactic(auto, unfolding(crate::specs::Ranks::rate_with))]
    pub fn rate(&self) -> Rate
        ensures { result ≡ rate_of self.now }
    {
        let own = Rate::new(u128::from(self.fee), u128::from(self.size));
        let family = Rate::new(self.totals.below.fees, self.totals.below.size);
        if own < family { family } else { own }
    }
}
