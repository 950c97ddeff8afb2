//! Where the columns of a raw paper are long, whole lines at a time: along ends by the columns of the paper, turned to rows, and along
//! picks by the tie.
ghost use Rattle.std.specs.Prelude.{◌≡◌, ◌≢◌, ◌<◌, ◌≤◌, ◌||◌, ℕ, false, length, map, slice_index_or, IfOk, [], List, Bool};
ghost use Rattle.mill_base.specs.Grids.{GridCells, grid_cell, grid_row};
ghost use Rattle.mill_base.specs.Lines.{line_by};
ghost use Rattle.harness_ties.specs.Ties.{IsTie, gathered};
ghost use Rattle.cloth_floats.specs.Windows.{long_of, is_long};
ghost use Rattle.draft_model.specs.Cloths.{rows_by};
ghost use Rattle.draft_model.specs.Designs.{Fits};
ghost use Rattle.draft_model.specs.Inner.{bits_of, end_long, pick_long, IsGridOf};
ghost use Rattle.draft_model.specs.Drawdowns.{column_long};

use crate::design::Design;
use crate::laws;
use cloth_floats::long_cells;
use harness_ties::tie::Tie;
use mill_base::bit_grid::BitGrid;
use mill_base::bit_row::BitRow;
use mill_base::memory::OutOfMemory;
use mill_base::size::Size;
use std::alloc::Global;

/// For each column of each pick of a raw paper, whether some end of the column is long there.
pub fn long_columns(alloc: Global, design: &Design, raw: &BitGrid) -> Result<BitGrid, OutOfMemory>
    requires fits { Fits design.now }
    requires raw { IsGridOf design.now raw.now }
    ensures { IfOk result (λ g. g ≡ record { width = design.now.size.columns; rows = rows_by design.now.size.columns design.now.size.picks (column_long design.now (bits_of raw.now)) }) }
{
    laws::two_lines_decide_a_cell();
    let mut long = long_along_ends(alloc, design, raw)?;
    let mut ends = BitRow::new(alloc, design.tie.ends())?;
    let mut ends_long = BitRow::new(alloc, design.tie.ends())?;
    let mut columns = BitRow::new(alloc, design.size.columns)?;
    for pick in 0..design.size.picks {
        design.tie.lay(raw.row(pick), &mut ends);
        long_cells(&ends, design.weft_back, design.weft_face, &mut ends_long);
        join_row(&design.tie, &ends_long, &mut columns, &mut long, pick);
    }
    Ok(long)
}

// The columns of the long ends become long on a pick. Few picks have a long end.
fn join_row(tie: &Tie, ends: &BitRow, columns: &mut BitRow, long: &mut BitGrid, pick: u32)
    requires pick { pick < length long.old.rows }
    requires ends { length ends.now ≡ length tie.now.ends }
    requires columns { length columns.old ≡ tie.now.columns }
    requires width { long.old.width ≡ tie.now.columns }
    ensures columns { length columns.new ≡ tie.now.columns }
    ensures width { long.new.width ≡ long.old.width }
    ensures height { length long.new.rows ≡ length long.old.rows }
    ensures wide { length (grid_row long.new pick) ≡ length (grid_row long.old pick) }
    ensures here { (i : ℕ) → i < tie.now.columns → grid_cell long.new i pick ≡ (slice_index_or (gathered tie.now.columns tie.now.ends ends.now) i false || grid_cell long.old i pick) }
    ensures others { (k : ℕ) → k ≢ pick → grid_row long.new k ≡ grid_row long.old k }
{
    if !ends.any() {
        return;
    }
    tie.gather(ends, columns);
    columns.or_range(0, long.row(pick), 0, tie.columns());
    long.set_row(pick, columns);
}

// For each column of each pick, whether the column's line is long at the pick.
fn long_along_ends(alloc: Global, design: &Design, raw: &BitGrid) -> Result<BitGrid, OutOfMemory>
    requires fits { Fits design.now }
    requires raw { IsGridOf design.now raw.now }
    ensures { IfOk result (λ g. g ≡ record { width = design.now.size.columns; rows = rows_by design.now.size.columns design.now.size.picks (end_long design.now raw.now) }) }
{
    let Size { columns, picks } = design.size;
    let mut turned = BitGrid::new(alloc, picks, columns)?;
    let mut line = BitRow::new(alloc, picks)?;
    let mut long = BitGrid::new(alloc, columns, picks)?;
    raw.transpose_into(&mut turned);
    if !mark_long_rows(&mut turned, design.warp_face, design.warp_back, &mut line) {
        return Ok(long);
    }
    turned.transpose_into(&mut long);
    Ok(long)
}

// Each row becomes the row of its long positions, and whether there are any.
fn mark_long_rows(grid: &mut BitGrid, lifted: u32, unlifted: u32, line: &mut BitRow) -> bool
    requires some { 0 < grid.old.width }
    requires line { length line.old ≡ grid.old.width }
    requires limits { (0 < lifted) × (0 < unlifted) }
    ensures rows { grid.new ≡ record grid.old { rows = map (λ row. long_of row lifted unlifted) grid.old.rows } }
    ensures none { result ≡ false → (j k : ℕ) → j < length grid.old.rows → grid_cell grid.new k j ≡ false }
{
    let mut any = false;
    for k in 0..grid.height() {
        long_cells(grid.row(k), lifted, unlifted, line);
        any |= line.any();
        grid.set_row(k, line);
    }
    any
}
