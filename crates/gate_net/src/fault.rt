ghost use Rattle.std.specs.Prelude.{◌≡◌};
ghost use Rattle.gate_net.specs.declared.fault.NetFault.TheVariants.{Memory as OutOfMemory, Denied};

use gate_bytes::Memory;
use gate_rules::NetDenial;
use std::alloc::AllocFailed;
use thiserror::Error;

/// Why a whitelist is not read: a rule on an entry fails, or memory runs out.
#[derive(Clone, Copy, Debug, PartialEq, Eq, Error)]
pub enum NetFault {
    #[error("out of memory")]
    Memory,
    #[error("{0}")]
    Denied(NetDenial),
}

impl From<NetDenial> for NetFault {
    ghost from_gives = { λ denial fault. fault ≡ Denied denial };

    fn from(denial: NetDenial) -> NetFault {
        NetFault::Denied(denial)
    }
}

impl From<Memory> for NetFault {
    ghost from_gives = { λ _ fault. fault ≡ OutOfMemory };

    fn from(_e: Memory) -> NetFault {
        NetFault::Memory
    }
}

impl<T: Drop> From<AllocFailed<T>> for NetFault {
    ghost from_gives = { λ _ fault. fault ≡ OutOfMemory };

    fn from(_e: AllocFailed<T>) -> NetFault {
        NetFault::Memory
    }
}
