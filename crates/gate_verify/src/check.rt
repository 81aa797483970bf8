//! What checks an input with its coin.
use gate_bytes::{Copied, Memory};
use gate_inputs::{InputReport, Piece, report};
use std::alloc::Global;

/// A check of inputs, which may take long: whoever embeds the gate hands one in.
///
/// By its type, what it gives is the report of some piece. It is taken if it is the report of the piece that was to be
/// checked.
pub trait InputCheck {
    fn check(&self, alloc: Global, piece: &Piece) -> Result<InputReport, Memory>;
}

/// The gate's own check, which is `report` and nothing else.
#[derive(Clone, Copy)]
pub struct PolicyCheck;

impl InputCheck for PolicyCheck {
    fn check(&self, alloc: Global, piece: &Piece) -> Result<InputReport, Memory> {
        report(alloc, piece.copy(alloc)?)
    }
}
