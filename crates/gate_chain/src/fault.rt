ghost use Rattle.std.specs.Prelude.{◌≡◌};
ghost use Rattle.gate_chain.specs.declared.fault.OpenFault.TheVariants.{Memory as OutOfMemory};
ghost use Rattle.gate_chain.specs.declared.fault.ChainFault.TheVariants.{Memory as NoMemory, Denied};

use gate_bytes::Memory;
use gate_rules::ChainDenial;
use std::alloc::{AllocError, AllocFailed};
use thiserror::Error;

/// Why a chain isn't opened. A coin is named by its place in the list, from 0.
#[derive(Clone, Copy, Debug, PartialEq, Eq, Error)]
pub enum OpenFault {
    #[error("out of memory")]
    Memory,
    #[error("there are no block times")]
    NoTimes,
    #[error("there are more than 1,000,000 block times, or the tip is above 10,000,000")]
    TimesLimit,
    #[error("coin {0} has a value outside 0 to 2,100,000,000,000,000")]
    CoinValue(usize),
    #[error("nothing can spend coin {0}")]
    CoinUnspendable(usize),
    #[error("coin {0} has a height above the tip")]
    CoinAboveTip(usize),
    #[error("coin {0} has the outpoint of an earlier one")]
    CoinTwice(usize),
}

impl From<Memory> for OpenFault {
    ghost from_gives = { λ _ fault. fault ≡ OutOfMemory };

    fn from(_e: Memory) -> OpenFault {
        OpenFault::Memory
    }
}

impl From<AllocError> for OpenFault {
    ghost from_gives = { λ _ fault. fault ≡ OutOfMemory };

    fn from(_e: AllocError) -> OpenFault {
        OpenFault::Memory
    }
}

impl<T: Drop> From<AllocFailed<T>> for OpenFault {
    ghost from_gives = { λ _ fault. fault ≡ OutOfMemory };

    fn from(_e: AllocFailed<T>) -> OpenFault {
        OpenFault::Memory
    }
}

/// Why a block isn't connected: a rule fails, or memory runs out.
#[derive(Clone, Copy, Debug, PartialEq, Eq, Error)]
pub enum ChainFault {
    #[error("out of memory")]
    Memory,
    #[error("{0}")]
    Denied(ChainDenial),
}

impl From<ChainDenial> for ChainFault {
    ghost from_gives = { λ denial fault. fault ≡ Denied denial };

    fn from(denial: ChainDenial) -> ChainFault {
        ChainFault::Denied(denial)
    }
}

impl From<Memory> for ChainFault {
    ghost from_gives = { λ _ fault. fault ≡ NoMemory };

    fn from(_e: Memory) -> ChainFault {
        ChainFault::Memory
    }
}

impl From<AllocError> for ChainFault {
    ghost from_gives = { λ _ fault. fault ≡ NoMemory };

    fn from(_e: AllocError) -> ChainFault {
        ChainFault::Memory
    }
}

impl<T: Drop> From<AllocFailed<T>> for ChainFault {
    ghost from_gives = { λ _ fault. fault ≡ NoMemory };

    fn from(_e: AllocFailed<T>) -> ChainFault {
        ChainFault::Memory
    }
}
