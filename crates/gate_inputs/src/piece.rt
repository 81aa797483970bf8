use gate_bytes::{Copied, Exact, Memory};
use gate_tx::{Coin, TxIn, Wtxid};
use std::alloc::Global;

/// An input of a transaction with the coin that it spends.
#[derive(Drop, PartialEq, Eq)]
pub struct Piece {
    /// The id of the transaction whose input it is.
    pub wtxid: Wtxid,
    /// The input's place in the transaction, from 0.
    pub index: u32,
    pub input: TxIn,
    pub coin: Coin,
}

impl Copied for Piece {
    fn copy(&self, alloc: Global) -> Result<Piece, Memory> {
        Ok(Piece {
            wtxid: self.wtxid,
            index: self.index,
            input: self.input.copy(alloc)?,
            coin: self.coin.copy(alloc)?,
        })
    }
}

impl Exact for Piece {
    ghost use Rattle.std.specs.Prelude.{refl};
    ghost use Rattle.gate_tx.specs.Equality.{coin_decides, tx_in_decides};
    ghost use Rattle.gate_inputs.specs.Equality.{piece_decides};

    ghost exact = { λ a b. piece_decides tx_in_decides coin_decides a b (Self.eq a b) refl };
}
