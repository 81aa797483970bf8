//! How many threads check pieces.
ghost use Rattle.std.specs.Prelude.{◌≡◌, ◌≤◌};
ghost use Rattle.gate_verify.specs.Counts.{workers_of};

use std::marker::Model;

/// The most threads that check the pieces of one submission.
pub const MAX_WORKERS: usize = 64;

/// How many threads may check the pieces of one submission at once, the caller's own among them: contracts see the number,
/// from 1 to 64.
#[derive(Clone, Copy, PartialEq, Eq)]
pub struct Workers {
    count: usize,
}

impl Model for Workers {
    ghost use Rattle.std.specs.Prelude.{ℕ, ◌≤◌};

    ghost Value = { ℕ };

    ghost view = { λ w. w.count };

    ghost inverse = { λ n. record { count = n } };

    ghost invariant = { λ w. (1 ≤ w.count) × (w.count ≤ 64) };
}

impl Workers {
    /// This many workers, if there are from 1 to 64.
    pub fn new(count: usize) -> Option<Workers>
        ensures { result ≡ workers_of count }
    {
        if 1 <= count && count <= MAX_WORKERS {
            Some(Workers { count })
        } else {
            None
        }
    }

    /// The number of workers.
    pub fn count(self) -> usize
        ensures value { result ≡ self }
        ensures within { (1 ≤ result) × (result ≤ 64) }
    {
        self.count
    }
}

/// Two workers.
impl Default for Workers {
    ghost use Rattle.std.specs.Prelude.{◌≡◌};

    ghost is_default = { λ workers. workers ≡ 2 };

    fn default() -> Workers {
        Workers { count: 2 }
    }
}
