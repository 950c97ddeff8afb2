//! Rows of truth values as pixels.
ghost use Rattle.std.specs.Prelude.{◌≡◌, ◌++◌, map, OnOk};
ghost use Rattle.cloth_files.specs.Images.{pixel};

use mill_base::bit_row::BitRow;
use mill_base::memory::OutOfMemory;
use mill_base::spread::spread;

/// Adds a pixel for each position of a row: 1 where it is true, else 0.
pub fn push_row(pixels: &mut Vec<u8>, row: &BitRow) -> Result<(), OutOfMemory>
    ensures { OnOk result (pixels.new.items ≡ pixels.old.items ++ map pixel row.now) }
{
    let from = pixels.len();
    pixels.resize(from + row.len() as usize, 0)?;
    spread(row, 1, 0, &mut pixels[from..]);
    Ok(())
}
