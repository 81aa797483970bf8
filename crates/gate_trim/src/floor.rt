ghost use Rattle.std.specs.Prelude.{◌≡◌, ◌≤◌};
ghost use Rattle.gate_pool.specs.Scores.{AreBounded};
ghost use Rattle.gate_trim.specs.Trimming.{largest_step, raised};

use gate_pool::Sums;
use std::marker::Model;

/// The least feerate that the pool asks of a transaction, beside the one for every relay, in satoshi per 1,000 virtual
/// bytes.
#[derive(Clone, Copy, PartialEq, Eq)]
pub struct Floor {
    rate: u64,
}

impl Model for Floor {
    ghost use Rattle.std.specs.Prelude.{ℕ};

    ghost Value = { ℕ };

    ghost view = { λ f. f.rate };

    ghost inverse = { λ rate. record { rate = rate } };
}

impl Floor {
    pub fn new(rate: u64) -> Floor
        ensures { result ≡ rate }
    {
        Floor { rate }
    }

    pub fn rate(&self) -> u64
        ensures { result ≡ self.now }
    {
        self.rate
    }

    /// Rises to a step above the feerate of trimmed entries with these sums, unless the floor is there already (Bitcoin
    /// Core 22.0's `-incrementalrelayfee` is the step). It never falls.
    #[tactic(auto, unfolding(gate_standard::specs::Amounts::feerate))]
    pub fn raise(&mut self, step: u64, family: Sums)
        requires bounded { AreBounded family }
        requires small { step ≤ largest_step }
        ensures { self.new ≡ raised step self.old family }
    {
        let rate = family.fees * 1000 / family.size;
        self.rate = self.rate.max(rate as u64 + step);
    }
}
