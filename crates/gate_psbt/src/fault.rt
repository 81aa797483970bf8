ghost use Rattle.std.specs.Prelude.{◌≡◌};
ghost use Rattle.gate_psbt.specs.Faults.{byte_part, fault_at, tx_part};
ghost use Rattle.gate_psbt.specs.declared.fault.PartFault.TheVariants.{Memory as OutOfMemory};

use gate_bytes::{ByteFault, Memory};
use gate_tx::TxFault;
use std::alloc::{AllocError, AllocFailed};
use thiserror::Error;

/// A part of a PSBT.
#[derive(Clone, Copy, Debug, PartialEq, Eq, Error)]
pub enum Place {
    #[error("the PSBT")]
    Whole,
    #[error("the PSBT's global map")]
    Global,
    /// The map of the input at this place, counted from 0.
    #[error("input {0} of the PSBT")]
    Input(usize),
    /// The map of the output at this place, counted from 0.
    #[error("output {0} of the PSBT")]
    Output(usize),
}

/// What is wrong with a part of a PSBT, or `Memory`.
#[derive(Clone, Copy, Debug, PartialEq, Eq, Error)]
pub enum PartFault {
    #[error("out of memory")]
    Memory,
    /// The text is neither a PSBT's bytes nor base64.
    #[error("it is neither in binary nor in base64")]
    Encoding,
    /// The first bytes are not those of a PSBT.
    #[error("it does not begin with the magic bytes")]
    Magic,
    /// A field goes past the end of the bytes.
    #[error("the bytes end within a field")]
    Short,
    /// A count is written longer than it needs.
    #[error("a count is written longer than it needs")]
    NotCanonical,
    /// A count is above 0x02000000.
    #[error("a count is above the limit")]
    TooLarge,
    /// A key is longer or shorter than its type allows.
    #[error("a key is longer or shorter than its type allows")]
    KeyLength,
    /// A key stands twice in a map.
    #[error("a key stands twice")]
    DuplicateKey,
    /// Bytes are left over behind a value, or behind the last map.
    #[error("bytes are left over")]
    Trailing,
    /// The version is not 0.
    #[error("its version is not 0, which alone is read")]
    Version,
    #[error("the unsigned transaction is missing")]
    NoTransaction,
    /// The unsigned transaction has an input count of 0, as the form with witnesses begins, too.
    #[error("the unsigned transaction has no inputs, or is in the form with witnesses")]
    Form,
    /// The unsigned transaction has a script in an input.
    #[error("the unsigned transaction has a script in an input")]
    Signed,
    /// The bytes of a transaction in it are not those of one.
    #[error("the transaction in it: {0}")]
    Transaction(TxFault),
    /// The transaction that made the coin has another txid than the one that the input names.
    #[error("its non-witness UTXO is not the transaction that the input spends from")]
    OtherTransaction,
    /// The transaction that made the coin has no output of the number that the input names.
    #[error("its non-witness UTXO has no output of the number that the input spends")]
    NoOutput,
    /// The two coins of an input are different ones.
    #[error("its witness UTXO and its non-witness UTXO differ")]
    OtherCoin,
    /// An input has neither a final script nor a final witness.
    #[error("it is not final: finalise the PSBT, or give its transaction in hexadecimal digits")]
    NotFinal,
    /// The final transaction would have more than 33,554,432 bytes.
    #[error("the final transaction is too long")]
    TooLong,
}

/// Why bytes are no PSBT, or why one makes no final transaction; or `Memory`.
#[derive(Clone, Copy, Debug, PartialEq, Eq, Error)]
pub enum PsbtFault {
    #[error("out of memory")]
    Memory,
    #[error("{0}: {1}")]
    At(Place, PartFault),
}

/// The fault of a part at its place.
pub(crate) fn fault_at(place: Place, fault: PartFault) -> PsbtFault
    ensures { result ≡ fault_at place fault }
{
    match fault {
        PartFault::Memory => PsbtFault::Memory,
        fault => PsbtFault::At(place, fault),
    }
}

impl From<ByteFault> for PartFault {
    ghost from_gives = { λ byte part. part ≡ byte_part byte };

    fn from(fault: ByteFault) -> PartFault {
        match fault {
            ByteFault::Short => PartFault::Short,
            ByteFault::NotCanonical => PartFault::NotCanonical,
            ByteFault::TooLarge => PartFault::TooLarge,
        }
    }
}

impl From<TxFault> for PartFault {
    ghost from_gives = { λ tx part. part ≡ tx_part tx };

    fn from(fault: TxFault) -> PartFault {
        match fault {
            TxFault::Memory => PartFault::Memory,
            fault => PartFault::Transaction(fault),
        }
    }
}

impl From<Memory> for PartFault {
    ghost from_gives = { λ _ part. part ≡ OutOfMemory };

    fn from(_e: Memory) -> PartFault {
        PartFault::Memory
    }
}

impl From<AllocError> for PartFault {
    ghost from_gives = { λ _ part. part ≡ OutOfMemory };

    fn from(_e: AllocError) -> PartFault {
        PartFault::Memory
    }
}

impl<T: Drop> From<AllocFailed<T>> for PartFault {
    ghost from_gives = { λ _ part. part ≡ OutOfMemory };

    fn from(_e: AllocFailed<T>) -> PartFault {
        PartFault::Memory
    }
}

impl From<Memory> for PsbtFault {
    ghost use Rattle.gate_psbt.specs.declared.fault.PsbtFault.TheVariants.{Memory as NoMemory};

    ghost from_gives = { λ _ fault. fault ≡ NoMemory };

    fn from(_e: Memory) -> PsbtFault {
        PsbtFault::Memory
    }
}

impl From<AllocError> for PsbtFault {
    ghost use Rattle.gate_psbt.specs.declared.fault.PsbtFault.TheVariants.{Memory as NoMemory};

    ghost from_gives = { λ _ fault. fault ≡ NoMemory };

    fn from(_e: AllocError) -> PsbtFault {
        PsbtFault::Memory
    }
}

impl<T: Drop> From<AllocFailed<T>> for PsbtFault {
    ghost use Rattle.gate_psbt.specs.declared.fault.PsbtFault.TheVariants.{Memory as NoMemory};

    ghost from_gives = { λ _ fault. fault ≡ NoMemory };

    fn from(_e: AllocFailed<T>) -> PsbtFault {
        PsbtFault::Memory
    }
}
