//! Where the columns of a whole paper are long, whole lines at a time.
ghost use Rattle.std.specs.Prelude.{◌≡◌, ℕ, ◌^◌, ◌<◌, false, true, length, slice_index_or};
ghost use Rattle.mill_base.specs.Grids.{grid_cell, grid_row};
ghost use Rattle.cloth_floats.specs.Windows.{long_of};
ghost use Rattle.draft_model.specs.Designs.{Fits};
ghost use Rattle.tile_rebuild.specs.Tiles.{parts_of};
ghost use Rattle.tile_rebuild.specs.Wholes.{IsWholeRoom};
ghost use Rattle.tile_rebuild.specs.inner.Passes.{AreEndsLong, AreMarks, AreSomeLong};

use crate::whole::WholeRoom;
use cloth_floats::long_cells;
use draft_model::design::Design;
use mill_base::bit_grid::BitGrid;
use mill_base::bit_row::BitRow;

/// Sets where the columns of the room's paper are long, with a row for each pick.
pub fn mark_columns(design: &Design, room: &mut WholeRoom)
    requires fits { Fits design.now }
    requires room { IsWholeRoom (parts_of design.now) room.old }
    ensures room { IsWholeRoom (parts_of design.now) room.new }
    ensures raw { room.new.raw ≡ room.old.raw }
    ensures ends { AreEndsLong design.now room.new.raw room.new.long }
{
    mill_base::laws::a_transposed_grid_has_its_columns();
    room.raw.transpose_into(&mut room.turned);
    mark_rows(
        &mut room.turned,
        design.warp_face,
        design.warp_back,
        &mut room.line,
    );
    room.turned.transpose_into(&mut room.long);
}

// Each row becomes the row of its long positions.
fn mark_rows(grid: &mut BitGrid, lifted: u32, unlifted: u32, line: &mut BitRow)
    requires some { 0 < grid.old.width }
    requires line { length line.old ≡ grid.old.width }
    requires limits { (0 < lifted) × (0 < unlifted) }
    ensures line { length line.new ≡ length line.old }
    ensures width { grid.new.width ≡ grid.old.width }
    ensures height { length grid.new.rows ≡ length grid.old.rows }
    ensures rows { (k : ℕ) → k < length grid.old.rows → grid_row grid.new k ≡ long_of (grid_row grid.old k) lifted unlifted }
{
    for k in 0..grid.height() {
        long_cells(grid.row(k), lifted, unlifted, line);
        grid.set_row(k, line);
    }
}

/// Sets where those of the columns of the room's paper are long that are asked for, with a row for each pick.
pub fn mark_some_columns(design: &Design, columns: &BitRow, room: &mut WholeRoom)
    requires fits { Fits design.now }
    requires columns { length columns.now ≡ design.now.size.columns }
    requires room { IsWholeRoom (parts_of design.now) room.old }
    ensures room { IsWholeRoom (parts_of design.now) room.new }
    ensures raw { room.new.raw ≡ room.old.raw }
    ensures ends { AreSomeLong design.now columns.now room.new.raw room.new.long }
{
    mill_base::laws::a_transposed_grid_has_its_columns();
    room.raw.transpose_into(&mut room.turned);
    let lifted = design.warp_face;
    let unlifted = design.warp_back;
    mark_some_rows(&mut room.turned, columns, lifted, unlifted, &mut room.line);
    if have_any(&room.turned, columns) {
        room.turned.transpose_into(&mut room.long);
        return;
    }
    clear_rows(&mut room.long, &mut room.columns);
}

// Whether a position is true in one of the rows that are asked for.
fn have_any(grid: &BitGrid, rows: &BitRow) -> bool
    requires few { length grid.now.rows < 2 ^ 32 }
    requires rows { length rows.now ≡ length grid.now.rows }
    ensures { result ≡ false → (k : ℕ) → slice_index_or rows.now k false ≡ true → (c : ℕ) → grid_cell grid.now c k ≡ false }
{
    let mut from = 0;
    while let Some(k) = rows.next_true(from) {
        if grid.row(k).any() {
            return true;
        }
        from = k + 1;
    }
    false
}

// Makes all positions false, by a row of the width.
fn clear_rows(grid: &mut BitGrid, row: &mut BitRow)
    requires { length row.old ≡ grid.old.width }
    ensures row { length row.new ≡ length row.old }
    ensures width { grid.new.width ≡ grid.old.width }
    ensures height { length grid.new.rows ≡ length grid.old.rows }
    ensures cells { (c k : ℕ) → grid_cell grid.new c k ≡ false }
{
    row.fill(false);
    for k in 0..grid.height() {
        grid.set_row(k, row);
    }
}

// Each row that is asked for becomes the row of its long positions.
fn mark_some_rows(grid: &mut BitGrid, rows: &BitRow, lifted: u32, unlifted: u32, line: &mut BitRow)
    requires some { 0 < grid.old.width }
    requires few { length grid.old.rows < 2 ^ 32 }
    requires rows { length rows.now ≡ length grid.old.rows }
    requires line { length line.old ≡ grid.old.width }
    requires limits { (0 < lifted) × (0 < unlifted) }
    ensures line { length line.new ≡ length line.old }
    ensures width { grid.new.width ≡ grid.old.width }
    ensures height { length grid.new.rows ≡ length grid.old.rows }
    ensures rows { (k : ℕ) → slice_index_or rows.now k false ≡ true → grid_row grid.new k ≡ long_of (grid_row grid.old k) lifted unlifted }
{
    let mut from = 0;
    while let Some(k) = rows.next_true(from) {
        long_cells(grid.row(k), lifted, unlifted, line);
        grid.set_row(k, line);
        from = k + 1;
    }
}

/// Sets which columns of a pick are long, those for which it is known where they are long themselves: those of which some end is long
/// along the pick, and those that are long at it.
pub fn mark_pick(design: &Design, pick: u32, room: &mut WholeRoom)
    requires fits { Fits design.now }
    requires pick { pick < design.now.size.picks }
    requires room { IsWholeRoom (parts_of design.now) room.old }
    ensures room { IsWholeRoom (parts_of design.now) room.new }
    ensures raw { room.new.raw ≡ room.old.raw }
    ensures long { room.new.long ≡ room.old.long }
    ensures columns { AreMarks design.now room.old.raw room.old.long room.new.columns pick }
{
    design.tie.lay(room.raw.row(pick), &mut room.ends);
    long_cells(
        &room.ends,
        design.weft_back,
        design.weft_face,
        &mut room.ends_long,
    );
    if room.ends_long.any() {
        design.tie.gather(&room.ends_long, &mut room.columns);
        room.columns
            .or_range(0, room.long.row(pick), 0, design.size.columns);
        return;
    }
    room.columns.copy_from(room.long.row(pick));
}
