//! A result's cells put in place.
ghost use Rattle.std.specs.Prelude.{◌≡◌, false, length, slice_set};
ghost use Rattle.point_paper.specs.Papers.{IsBitPaper};
ghost use Rattle.draft_model.specs.Designs.{Fits, IsBitsOf};
ghost use Rattle.tile_grid.specs.Tiles.{tiles};
ghost use Rattle.tile_rebuild.specs.Rebuilds.{IsPut};
ghost use Rattle.tile_rebuild.specs.Tiles.{grid_of, part_at, parts_of};

use draft_model::design::Design;
use mill_base::bit_row::BitRow;
use point_paper::bit_paper::BitPaper;
use tile_marks::marks::Marks;
use tile_rebuild::bind_job::BindDone;
use tile_rebuild::cells::put_cells;
use tile_rebuild::part::part_of;

/// Puts bound cells into the bits, and takes their tile's bind mark away. `row` has room for a pick.
pub(crate) fn install_cells(
    design: &Design,
    done: &BindDone,
    row: &mut BitRow,
    bits: &mut BitPaper,
    bind: &mut Marks,
)
    requires fits { Fits design.now }
    requires of { done.now.parts ≡ parts_of design.now }
    requires bits { IsBitsOf design.now bits.old }
    requires bind { length bind.old ≡ tiles (grid_of design.now) }
    requires row { length row.old ≡ design.now.size.columns }
    ensures cells { IsPut (part_at (grid_of design.now) done.now.tile) done.now.cells bits.old bits.new }
    ensures bind { bind.new ≡ slice_set bind.old done.now.tile false }
    ensures row { length row.new ≡ length row.old }
    ensures whole { IsBitPaper bits.new }
{
    let tile = done.tile();
    let part = part_of(design, tile);
    put_cells(part, done.cells(), row, bits);
    bits.size();
    bind.clear(tile);
}
