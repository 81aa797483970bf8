//! All pieces of a list, checked by this thread.
ghost use Rattle.std.specs.Prelude.{◌≡◌, IfOk};

use crate::check::InputCheck;
use crate::gathering::report_on;
use gate_bytes::Memory;
use gate_inputs::{InputReport, Piece};
use std::alloc::Global;

/// The reports of the pieces as this thread makes them, one after another. If the check gives no report on a piece, or
/// one on another piece, the report is made without the check.
pub fn check_each<C: InputCheck>(
    alloc: Global,
    check: &C,
    pieces: &[Piece],
) -> Result<Vec<InputReport>, Memory>
    ensures { IfOk result (λ reports. reports.items ≡ pieces.now) }
{
    let mut reports = Vec::with_capacity(alloc, pieces.len())?;
    for piece in pieces {
        let found = check.check(alloc, piece).ok();
        reports.push(report_on(alloc, piece, found)?)?;
    }
    Ok(reports)
}
