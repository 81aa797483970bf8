ghost use Rattle.std.specs.Prelude.{◌≡◌, ◌==◌};
ghost use Rattle.std.specs.List.{list_all};
ghost use Rattle.gate_tx.specs.Coins.{is_null, is_unspendable, begins_with_return};

use crate::transaction::OutPoint;
use gate_bytes::{Copied, Exact, Kept, Memory};
use std::alloc::Global;

/// An unspent output, in satoshi, with the height of the block that holds it and whether a
/// coinbase made it.
#[derive(Drop, PartialEq, Eq)]
pub struct Coin {
    pub value: i64,
    pub script: Kept<u8>,
    pub height: u32,
    pub coinbase: bool,
}

impl Copied for Coin {
    fn copy(&self, alloc: Global) -> Result<Coin, Memory> {
        Ok(Coin {
            value: self.value,
            script: self.script.copy(alloc)?,
            height: self.height,
            coinbase: self.coinbase,
        })
    }
}

impl Exact for Coin {
    ghost use Rattle.gate_tx.specs.Equality.{coin_decides};

    ghost exact = { coin_decides };
}

/// Whether nothing can spend an output of this script: it begins with OP_RETURN (0x6a), or it is
/// longer than 10,000 bytes (Bitcoin Core's `CScript::IsUnspendable`).
pub fn is_unspendable(script: &[u8]) -> bool
    ensures { result ≡ is_unspendable script.now }
{
    begins_with_return(script) || script.len() > 10_000
}

fn begins_with_return(script: &[u8]) -> bool
    ensures { result ≡ begins_with_return script.now }
{
    match script {
        [] => false,
        [op, ..] => *op == 0x6a,
    }
}

fn is_zero(bytes: &[u8]) -> bool
    ensures { result ≡ list_all (λ b. b == 0) bytes.now }
{
    bytes.iter().all(|b| *b == 0)
}

impl OutPoint {
    /// Whether it is the prevout of a coinbase: a hash of zeros and index 0xffffffff.
    pub fn is_null(&self) -> bool
        ensures { result ≡ is_null self.now }
    {
        is_zero(self.txid.as_bytes()) && self.index == u32::MAX
    }
}
