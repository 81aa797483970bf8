//! Whether a transaction signals that it may be replaced.
ghost use Rattle.std.specs.Prelude.{◌≡◌};
ghost use Rattle.gate_rbf.specs.Replacing.{is_replaceable, signals};

use gate_standard::is_truc;
use gate_tx::Transaction;

/// The greatest sequence by which an input signals that its transaction may be replaced (BIP 125).
const LAST_SIGNALLING: u32 = 0xffff_fffd;

/// Whether a transaction signals by one of its own inputs that it may be replaced (BIP 125).
pub fn signals(tx: &Transaction) -> bool
    ensures { result ≡ signals tx.now }
{
    tx.inputs()
        .iter()
        .any(|input| input.sequence <= LAST_SIGNALLING)
}

/// Whether a transaction says that it may be replaced: it signals (BIP 125), or has version 3 where that is standard.
pub fn is_replaceable(truc: bool, tx: &Transaction) -> bool
    ensures { result ≡ is_replaceable truc tx.now }
{
    signals(tx) || truc && is_truc(tx)
}
