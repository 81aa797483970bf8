ghost use Rattle.std.specs.Prelude.{◌≡◌};

use std::alloc::{AllocError, AllocFailed};
use thiserror::Error;

/// Why words ask for no trial.
#[derive(Debug, Drop, Error)]
pub enum TrialFault {
    /// What is wrong with the words, in plain words.
    #[error("{0}")]
    Usage(String),
    #[error("out of memory")]
    Memory,
}

impl From<AllocError> for TrialFault {
    ghost use Rattle.gate_try.specs.declared.fault.TrialFault.TheVariants.{Memory};

    ghost from_gives = { λ _ fault. fault ≡ Memory };

    fn from(_e: AllocError) -> TrialFault {
        TrialFault::Memory
    }
}

impl<T: Drop> From<AllocFailed<T>> for TrialFault {
    ghost use Rattle.gate_try.specs.declared.fault.TrialFault.TheVariants.{Memory};

    ghost from_gives = { λ _ fault. fault ≡ Memory };

    fn from(_e: AllocFailed<T>) -> TrialFault {
        TrialFault::Memory
    }
}
