//! The rows of a cloth.
ghost use Rattle.std.specs.Prelude.{◌≡◌, ◌++◌, OnOk};
ghost use Rattle.report_text.specs.Reports.{row_text, row_line, row_lines, cloth_lines};

use crate::growing::{push_number, push_text};
use draft_model::cloth::Cloth;
use mill_base::bit_row::BitRow;
use mill_base::memory::OutOfMemory;
use mill_base::spread::spread;

const LIFTED: u8 = b'#';

const UNLIFTED: u8 = b'.';

/// Adds the rows where they are kept.
pub fn push_rows(out: &mut Vec<u8>, rows: &Option<Cloth>) -> Result<(), OutOfMemory>
    ensures { OnOk result (out.new.items ≡ out.old.items ++ row_lines rows.now) }
{
    match rows {
        Some(cloth) => push_cloth(out, cloth),
        None => Ok(()),
    }
}

fn push_cloth(out: &mut Vec<u8>, cloth: &Cloth) -> Result<(), OutOfMemory>
    ensures { OnOk result (out.new.items ≡ out.old.items ++ cloth_lines cloth.now.rows) }
{
    for pick in 0..cloth.picks() {
        push_row(out, pick, cloth.row(pick))?;
    }
    Ok(())
}

fn push_row(out: &mut Vec<u8>, pick: u32, row: &BitRow) -> Result<(), OutOfMemory>
    ensures { OnOk result (out.new.items ≡ out.old.items ++ row_line pick row.now) }
{
    push_number(out, b"row ", pick)?;
    push_text(out, b" ")?;
    push_ends(out, row)?;
    push_text(out, b"\n")
}

fn push_ends(out: &mut Vec<u8>, row: &BitRow) -> Result<(), OutOfMemory>
    ensures { OnOk result (out.new.items ≡ out.old.items ++ row_text row.now) }
{
    let from = out.len();
    out.resize(from + row.len() as usize, UNLIFTED)?;
    spread(row, LIFTED, UNLIFTED, &mut out[from..]);
    Ok(())
}
