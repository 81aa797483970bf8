//! Why the program stops, and its status then.
use gate_causes::Limit;
use gate_prog::LaneFault;
use std::alloc::{AllocError, AllocFailed};
use thiserror::Error;

/// Why the program stops.
#[derive(Clone, Copy, Debug, PartialEq, Eq, Error)]
pub(crate) enum Fault {
    #[error("a word of the command line is not UTF-8")]
    Words,
    #[error("no random numbers for the hash tables")]
    Random,
    #[error("{0}")]
    Lane(LaneFault),
    #[error("line {0}: {1}")]
    Limit(u64, Limit),
}

impl Fault {
    pub(crate) fn status(self) -> u8 {
        match self {
            Fault::Words => 2,
            Fault::Random | Fault::Lane(_) | Fault::Limit(..) => 1,
        }
    }
}

impl From<LaneFault> for Fault {
    fn from(fault: LaneFault) -> Fault {
        Fault::Lane(fault)
    }
}

impl From<AllocError> for Fault {
    fn from(_error: AllocError) -> Fault {
        Fault::Lane(LaneFault::Memory)
    }
}

impl<T: Drop> From<AllocFailed<T>> for Fault {
    fn from(_failed: AllocFailed<T>) -> Fault {
        Fault::Lane(LaneFault::Memory)
    }
}
