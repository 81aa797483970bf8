//! Why an input could not be divided into lanes.
ghost use Rattle.std.specs.Prelude.{◌≡◌};

use gate_bytes::Memory;
use gate_lines::LaneFault;
use std::alloc::{AllocError, AllocFailed};
use thiserror::Error;

/// Why an input could not be divided into lanes.
#[derive(Clone, Copy, Debug, PartialEq, Eq, Error)]
pub enum SplitFault {
    /// The reader failed, a line goes past a limit, or a round behind the first doesn't begin with a line `---`.
    #[error("the input could not be read")]
    Read,
    /// There are more than 64 lanes.
    #[error("more than 64 lanes")]
    TooManyLanes,
    #[error("out of memory")]
    Memory,
}

impl From<LaneFault> for SplitFault {
    ghost use Rattle.gate_split.specs.Splitting.{split_fault};

    ghost from_gives = { λ fault split. split ≡ split_fault fault };

    fn from(fault: LaneFault) -> SplitFault {
        match fault {
            LaneFault::Read | LaneFault::Write => SplitFault::Read,
            LaneFault::Memory => SplitFault::Memory,
        }
    }
}

impl From<Memory> for SplitFault {
    ghost use Rattle.gate_split.specs.declared.fault.SplitFault.TheVariants as faults;

    ghost from_gives = { λ _ fault. fault ≡ faults.Memory };

    fn from(_e: Memory) -> SplitFault {
        SplitFault::Memory
    }
}

impl From<AllocError> for SplitFault {
    ghost use Rattle.gate_split.specs.declared.fault.SplitFault.TheVariants as faults;

    ghost from_gives = { λ _ fault. fault ≡ faults.Memory };

    fn from(_e: AllocError) -> SplitFault {
        SplitFault::Memory
    }
}

impl<T: Drop> From<AllocFailed<T>> for SplitFault {
    ghost use Rattle.gate_split.specs.declared.fault.SplitFault.TheVariants as faults;

    ghost from_gives = { λ _ fault. fault ≡ faults.Memory };

    fn from(_e: AllocFailed<T>) -> SplitFault {
        SplitFault::Memory
    }
}
