//! Where a tile lies.
ghost use Rattle.std.specs.Prelude.{◌≡◌, ◌<◌, ◌≤◌};
ghost use Rattle.mill_base.specs.declared.limits.TheConstants.{MAX_COLUMNS};
ghost use Rattle.draft_model.specs.Designs.{Fits};
ghost use Rattle.tile_grid.specs.Tiles.{tiles, tiles_along as along};
ghost use Rattle.tile_rebuild.specs.Tiles.{grid_of, part_at, IsInside};

use draft_model::design::Design;

/// The columns and picks that a tile covers: its first column and pick, and how many it has of both. The paper's edge may cut a tile.
#[derive(Clone, Copy, Debug, PartialEq, Eq)]
pub struct Part {
    pub column: u32,
    pub pick: u32,
    pub width: u32,
    pub height: u32,
}

/// The part of a design's paper that a tile covers.
pub fn part_of(design: &Design, tile: u32) -> Part
    requires fits { Fits design.now }
    requires tile { tile < tiles (grid_of design.now) }
    ensures part { result ≡ part_at (grid_of design.now) tile }
    ensures inside { IsInside design.now.size.columns design.now.size.picks result }
    ensures wide { result.width ≤ design.now.tile }
    ensures high { result.height ≤ design.now.tile }
{
    let across = tiles_along(design.size.columns, design.tile);
    let column = tile % across * design.tile;
    let pick = tile / across * design.tile;
    Part {
        column,
        pick,
        width: design.tile.min(design.size.columns - column),
        height: design.tile.min(design.size.picks - pick),
    }
}

// How many tiles a line of so many places takes.
pub(crate) fn tiles_along(places: u32, side: u32) -> u32
    requires places { places ≤ MAX_COLUMNS }
    requires some { 1 ≤ side }
    requires side { side ≤ MAX_COLUMNS }
    ensures { result ≡ along places side }
{
    (places + side - 1) / side
}
