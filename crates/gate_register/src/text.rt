//! The lines that are printed of settings.
ghost use Rattle.std.specs.Prelude.{◌≡◌, IfOk, string_bytes};
ghost use Rattle.gate_register.specs.Texts.{rows_text};

use crate::setting::Row;
use gate_bytes::Memory;
use std::alloc::Global;
use std::fmt;

/// `WORD LEAST MOST USUAL UNIT`, with `none` for a usual number past the greatest
impl fmt::Display for Row {
    ghost use Rattle.std.specs.Prelude.{Some};
    ghost use Rattle.gate_register.specs.Texts.{row_text};

    ghost output = { λ row. Some (row_text row) };

    fn fmt<W: fmt::Write>(&self, f: &mut fmt::Formatter<W>) -> fmt::Result {
        let (word, unit) = (self.word, self.unit);
        let (least, most, usual) = (self.least, self.most, self.usual);
        if usual > most {
            return write!(f, "{word} {least} {most} none {unit}");
        }
        write!(f, "{word} {least} {most} {usual} {unit}")
    }
}

/// The text of these rows, a line each.
pub fn rows_text(alloc: Global, rows: &[Row]) -> Result<String, Memory>
    ensures { IfOk result (λ text. string_bytes text ≡ rows_text rows.now) }
{
    let mut text = String::new(alloc);
    for row in rows {
        let line = row.to_string(alloc)?;
        text.push_str(line.as_str())?;
        text.push('\n')?;
    }
    Ok(text)
}
