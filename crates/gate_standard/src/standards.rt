//! What an operator takes for standard.
use crate::amounts::{Feerate, Rounding};

/// What an operator asks of a transaction's version, of its outputs and of its size: A12, A16 to A19, and A51.
#[derive(Clone, Copy, PartialEq, Eq)]
pub struct Standards {
    /// The feerate at which an output's own size and that of its spending are paid for, of which one byte counts as a
    /// virtual byte (Bitcoin Core's `-dustrelayfee`).
    pub dust_rate: Feerate,
    /// The longest script in bytes that carries data (Bitcoin Core's `-datacarriersize`).
    pub data_size: u64,
    /// The most outputs that carry data.
    pub data_outputs: u64,
    /// Whether an output may be a multisig script (Bitcoin Core's `-permitbaremultisig`).
    pub bare_multisig: bool,
    /// The least size in bytes without witnesses.
    pub least_size: u64,
    /// The most bytes of all scripts that carry data (`-datacarriersize` of Bitcoin Core 30.0).
    pub data_total: Option<u64>,
    /// Whether version 3 is standard (BIP 431).
    pub truc: bool,
    /// Whether one output may be dust, of a transaction that pays no fee, for a child to spend (Bitcoin Core 29.0 and
    /// later).
    pub ephemeral_dust: bool,
}

/// Bitcoin Core 22.0's: a dust rate of 3,000, one output of at most 83 bytes of data, multisig scripts, 82 bytes,
/// and versions 1 and 2.
impl Default for Standards {
    ghost use Rattle.std.specs.Prelude.{◌≡◌};
    ghost use Rattle.gate_standard.specs.Standards.{usual_standards};

    ghost is_default = { λ standards. standards ≡ usual_standards };

    fn default() -> Standards {
        Standards {
            dust_rate: Feerate {
                rate: 3000,
                rounding: Rounding::Down,
            },
            data_size: 83,
            data_outputs: 1,
            bare_multisig: true,
            least_size: 82,
            data_total: None,
            truc: false,
            ephemeral_dust: false,
        }
    }
}
