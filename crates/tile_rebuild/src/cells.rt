//! A tile's cells put into a whole paper.
ghost use Rattle.std.specs.Prelude.{◌≡◌, ◌≤◌, length};
ghost use Rattle.tile_rebuild.specs.Rebuilds.{IsPut};
ghost use Rattle.tile_rebuild.specs.Tiles.{IsInside};

use crate::part::Part;
use mill_base::bit_grid::BitGrid;
use mill_base::bit_row::BitRow;
use point_paper::bit_paper::BitPaper;

/// Puts the cells of a part into a bit paper: a row of `cells` for each pick of the part, with a position for each of its columns. `row` has
/// room for a pick of the paper. All other cells stay, and no memory is taken.
pub fn put_cells(part: Part, cells: &BitGrid, row: &mut BitRow, bits: &mut BitPaper)
    requires part { IsInside bits.old.columns (length bits.old.rows) part }
    requires wide { part.width ≤ cells.now.width }
    requires high { part.height ≤ length cells.now.rows }
    requires row { length row.old ≡ bits.old.columns }
    ensures row { length row.new ≡ length row.old }
    ensures cells { IsPut part cells.now bits.old bits.new }
{
    for b in 0..part.height {
        let pick = part.pick + b;
        row.copy_from(bits.row(pick));
        row.copy_range(part.column, cells.row(b), 0, part.width);
        bits.set_row(pick, row);
    }
}
