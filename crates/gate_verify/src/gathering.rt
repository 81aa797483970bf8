//! The reports of the pieces, from those that came.
ghost use Rattle.std.specs.Prelude.{◌≡◌, IfOk};

use gate_bytes::{Copied, Memory, is_same};
use gate_inputs::{InputReport, Piece, report};
use std::alloc::Global;

/// The report of a piece: the report that came, if it is of this piece, else one that is made here.
pub(crate) fn report_on(
    alloc: Global,
    piece: &Piece,
    came: Option<InputReport>,
) -> Result<InputReport, Memory>
    ensures { IfOk result (λ found. found ≡ piece.now) }
{
    match came {
        Some(found) if is_same(found.piece(), piece) => Ok(found),
        _ => report(alloc, piece.copy(alloc)?),
    }
}

/// The reports of the pieces, in their order.
pub(crate) fn gather(
    alloc: Global,
    pieces: &[Piece],
    came: Vec<Option<InputReport>>,
) -> Result<Vec<InputReport>, Memory>
    ensures { IfOk result (λ reports. reports.items ≡ pieces.now) }
{
    let mut reports = Vec::with_capacity(alloc, pieces.len())?;
    let mut came = came.into_iter();
    for piece in pieces {
        let found = came.next().flatten();
        reports.push(report_on(alloc, piece, found)?)?;
    }
    Ok(reports)
}
