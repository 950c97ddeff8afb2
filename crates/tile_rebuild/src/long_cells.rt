//! Where the cells of a tile are long, by the lines that cross it, whole lines at a time.
ghost use Rattle.std.specs.Prelude.{◌≡◌, ◌≢◌, ℕ, ◌+◌, ◌<◌, ◌≤◌, ◌||◌, false, length, slice_index_or};
ghost use Rattle.mill_base.specs.Below.{any_below};
ghost use Rattle.mill_base.specs.Grids.{grid_cell, grid_row};
ghost use Rattle.cloth_floats.specs.Windows.{is_long};
ghost use Rattle.draft_model.specs.Cells.{is_weft_long};
ghost use Rattle.draft_model.specs.Designs.{Fits};
ghost use Rattle.tile_rebuild.specs.Rebuilds.{IsRoom};
ghost use Rattle.tile_rebuild.specs.Tiles.{IsInside, parts_of};
ghost use Rattle.tile_rebuild.specs.inner.Cells.{AreColumnsLong, AreRowsLong};

use crate::part::Part;
use crate::room::Room;
use cloth_floats::long_cells;
use draft_model::design::Design;
use mill_base::bit_grid::BitGrid;
use mill_base::bit_row::BitRow;

/// Sets the row of one of a part's columns in the room: where the column, whose cells are `up`, is long at the part's picks.
pub fn mark_column(design: &Design, part: Part, up: &BitRow, a: u32, room: &mut Room)
    requires fits { Fits design.now }
    requires part { IsInside design.now.size.columns design.now.size.picks part }
    requires high { part.height ≤ design.now.tile }
    requires column { a < design.now.tile }
    requires up { length up.now ≡ design.now.size.picks }
    requires room { IsRoom (parts_of design.now) room.old }
    ensures room { IsRoom (parts_of design.now) room.new }
    ensures here { (b : ℕ) → b < part.height
        → grid_cell room.new.turned b a ≡ is_long up.now design.now.warp_face design.now.warp_back (part.pick + b) }
    ensures others { (j : ℕ) → j ≢ a → grid_row room.new.turned j ≡ grid_row room.old.turned j }
{
    long_cells(up, design.warp_face, design.warp_back, &mut room.up_long);
    room.span
        .copy_range(0, &room.up_long, part.pick, part.height);
    room.turned.set_row(a, &room.span);
}

/// Sets where a part's columns are long at its picks, once the row of each column is set.
pub fn turn(design: &Design, part: Part, room: &mut Room)
    requires wide { part.width ≤ design.now.tile }
    requires high { part.height ≤ design.now.tile }
    requires room { IsRoom (parts_of design.now) room.old }
    ensures room { IsRoom (parts_of design.now) room.new }
    ensures cells { (a b : ℕ) → a < part.width → b < part.height → grid_cell room.new.hits a b ≡ grid_cell room.old.turned b a }
{
    mill_base::laws::a_transposed_grid_has_its_columns();
    room.turned.transpose_into(&mut room.hits);
}

/// Sets where a part's columns are long at its picks, by rows of their cells.
pub fn mark_columns(design: &Design, part: Part, columns: &BitGrid, room: &mut Room)
    requires fits { Fits design.now }
    requires part { IsInside design.now.size.columns design.now.size.picks part }
    requires wide { part.width ≤ design.now.tile }
    requires high { part.height ≤ design.now.tile }
    requires picks { columns.now.width ≡ design.now.size.picks }
    requires columns { part.width ≤ length columns.now.rows }
    requires room { IsRoom (parts_of design.now) room.old }
    ensures room { IsRoom (parts_of design.now) room.new }
    ensures hits { AreColumnsLong design.now part (λ a y. grid_cell columns.now y a) room.new.hits }
{
    mark_rows(design, part, columns, room);
    turn(design, part, room);
}

fn mark_rows(design: &Design, part: Part, columns: &BitGrid, room: &mut Room)
    requires fits { Fits design.now }
    requires part { IsInside design.now.size.columns design.now.size.picks part }
    requires wide { part.width ≤ design.now.tile }
    requires high { part.height ≤ design.now.tile }
    requires picks { columns.now.width ≡ design.now.size.picks }
    requires columns { part.width ≤ length columns.now.rows }
    requires room { IsRoom (parts_of design.now) room.old }
    ensures room { IsRoom (parts_of design.now) room.new }
    ensures rows { AreRowsLong design.now part part.width (λ a y. grid_cell columns.now y a) room.new.turned }
{
    for a in 0..part.width {
        mark_column(design, part, columns.row(a), a, room);
    }
}

/// Sets which of a part's columns are long at one of its picks, whose cells are `row`: those of which some end is long along the pick, and
/// those that were long at the pick before.
pub fn mark_pick(design: &Design, part: Part, row: &BitRow, b: u32, room: &mut Room)
    requires fits { Fits design.now }
    requires part { IsInside design.now.size.columns design.now.size.picks part }
    requires wide { part.width ≤ design.now.tile }
    requires pick { b < design.now.tile }
    requires row { length row.now ≡ design.now.size.columns }
    requires room { IsRoom (parts_of design.now) room.old }
    ensures room { IsRoom (parts_of design.now) room.new }
    ensures hits { room.new.hits ≡ room.old.hits }
    ensures long { (a : ℕ) → a < part.width
        → slice_index_or room.new.long (part.column + a) false
        ≡ (any_below (is_weft_long design.now (λ x. slice_index_or row.now x false) (part.column + a)) (length design.now.tie.ends)
        || grid_cell room.old.hits a b) }
{
    design.tie.lay(row, &mut room.ends);
    long_cells(
        &room.ends,
        design.weft_back,
        design.weft_face,
        &mut room.ends_long,
    );
    design.tie.gather(&room.ends_long, &mut room.long);
    room.long
        .or_range(part.column, room.hits.row(b), 0, part.width);
}
