//! Why the program ends early.
use gate_bytes::Memory;
use gate_lines::LaneFault;
use gate_opening::OpeningFault;
use std::alloc::{AllocError, AllocFailed};
use std::io;
use thiserror::Error;

#[derive(Clone, Copy, Debug, PartialEq, Eq, Error)]
pub(crate) enum Fault {
    #[error("the opening has a fault")]
    Opening,
    #[error("the input could not be read")]
    Read,
    #[error("the output could not be written")]
    Write,
    /// A call was refused for another reason than being out of memory.
    #[error("a call was not made")]
    Call,
    #[error("out of memory")]
    Memory,
}

impl From<AllocError> for Fault {
    fn from(_error: AllocError) -> Fault {
        Fault::Memory
    }
}

impl<T: Drop> From<AllocFailed<T>> for Fault {
    fn from(_failed: AllocFailed<T>) -> Fault {
        Fault::Memory
    }
}

impl From<Memory> for Fault {
    fn from(_memory: Memory) -> Fault {
        Fault::Memory
    }
}

impl From<LaneFault> for Fault {
    fn from(fault: LaneFault) -> Fault {
        match fault {
            LaneFault::Memory => Fault::Memory,
            _ => Fault::Read,
        }
    }
}

impl From<OpeningFault> for Fault {
    fn from(fault: OpeningFault) -> Fault {
        match fault {
            OpeningFault::Memory => Fault::Memory,
            _ => Fault::Opening,
        }
    }
}

/// A failed read is a `LaneFault`, so any other fault of input and output is a failed write.
impl From<io::Error> for Fault {
    fn from(_error: io::Error) -> Fault {
        Fault::Write
    }
}
