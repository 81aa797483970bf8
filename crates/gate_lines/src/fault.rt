//! Why reading or writing stops.
ghost use Rattle.std.specs.Prelude.{◌≡◌};

use gate_bytes::Memory;
use std::alloc::{AllocError, AllocFailed};
use thiserror::Error;

/// Why a lane stops before its input ends.
#[derive(Clone, Copy, Debug, PartialEq, Eq, Error)]
pub enum LaneFault {
    /// The reader failed; an interrupted read is a failure too.
    #[error("the input could not be read")]
    Read,
    /// The writer failed, or took nothing.
    #[error("the output could not be written")]
    Write,
    #[error("out of memory")]
    Memory,
}

impl From<Memory> for LaneFault {
    ghost use Rattle.gate_lines.specs.declared.fault.LaneFault.TheVariants as faults;

    ghost from_gives = { λ _ fault. fault ≡ faults.Memory };

    fn from(_e: Memory) -> LaneFault {
        LaneFault::Memory
    }
}

impl From<AllocError> for LaneFault {
    ghost use Rattle.gate_lines.specs.declared.fault.LaneFault.TheVariants as faults;

    ghost from_gives = { λ _ fault. fault ≡ faults.Memory };

    fn from(_e: AllocError) -> LaneFault {
        LaneFault::Memory
    }
}

impl<T: Drop> From<AllocFailed<T>> for LaneFault {
    ghost use Rattle.gate_lines.specs.declared.fault.LaneFault.TheVariants as faults;

    ghost from_gives = { λ _ fault. fault ≡ faults.Memory };

    fn from(_e: AllocFailed<T>) -> LaneFault {
        LaneFault::Memory
    }
}
