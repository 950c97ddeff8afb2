//! Rows and grids that a tile is rebuilt in, so that the rebuilding takes no memory.
ghost use Rattle.std.specs.Prelude.{IfOk};
ghost use Rattle.tile_rebuild.specs.Rebuilds.{AreRows, IsRoom, IsTileRoom};
ghost use Rattle.tile_rebuild.specs.Tiles.{parts_of};

use draft_model::design::Design;
use mill_base::bit_grid::BitGrid;
use mill_base::bit_row::BitRow;
use mill_base::memory::OutOfMemory;
use std::alloc::Global;

/// Room for the long cells of any tile of a design.
#[derive(Drop)]
pub struct Room {
    /// A pick on the cloth.
    pub ends: BitRow,
    /// Which ends of that pick are long.
    pub ends_long: BitRow,
    /// Which columns of a pick are long.
    pub long: BitRow,
    /// Where a column is long.
    pub up_long: BitRow,
    /// As many positions as a tile has picks.
    pub span: BitRow,
    /// A row for each column of the tile: where it is long at the tile's picks.
    pub turned: BitGrid,
    /// The same, with a row for each pick.
    pub hits: BitGrid,
}

impl Room {
    /// Room for any tile of a design.
    pub fn new(alloc: Global, design: &Design) -> Result<Room, OutOfMemory>
        ensures { IfOk result (λ room. IsRoom (parts_of design.now) room) }
    {
        let ends = BitRow::new(alloc, design.tie.ends())?;
        let ends_long = BitRow::new(alloc, design.tie.ends())?;
        let long = BitRow::new(alloc, design.size.columns)?;
        let up_long = BitRow::new(alloc, design.size.picks)?;
        let span = BitRow::new(alloc, design.tile)?;
        let turned = BitGrid::new(alloc, design.tile, design.tile)?;
        let hits = BitGrid::new(alloc, design.tile, design.tile)?;
        Ok(Room {
            ends,
            ends_long,
            long,
            up_long,
            span,
            turned,
            hits,
        })
    }
}

/// Room for the raw and bound cells of any line of a design's tiles.
#[derive(Drop)]
pub struct BindRows {
    /// A raw pick.
    pub raw: BitRow,
    /// A raw column.
    pub up: BitRow,
    /// The marks of the binder that raises.
    pub raise: BitRow,
    /// The marks of the binder that sinks.
    pub sink: BitRow,
    /// A bound pick.
    pub bound: BitRow,
    /// As many positions as a tile has columns.
    pub span: BitRow,
}

impl BindRows {
    /// Rows for any tile of a design.
    pub fn new(alloc: Global, design: &Design) -> Result<BindRows, OutOfMemory>
        ensures { IfOk result (λ rows. AreRows (parts_of design.now) rows) }
    {
        let raw = BitRow::new(alloc, design.size.columns)?;
        let up = BitRow::new(alloc, design.size.picks)?;
        let raise = BitRow::new(alloc, design.size.columns)?;
        let sink = BitRow::new(alloc, design.size.columns)?;
        let bound = BitRow::new(alloc, design.size.columns)?;
        let span = BitRow::new(alloc, design.tile)?;
        Ok(BindRows {
            raw,
            up,
            raise,
            sink,
            bound,
            span,
        })
    }
}

/// Room for the cells of any tile of a design: a row for each pick of the tile, with a position for each of its columns.
pub fn tile_cells(alloc: Global, design: &Design) -> Result<BitGrid, OutOfMemory>
    ensures { IfOk result (λ cells. IsTileRoom (parts_of design.now) cells) }
{
    BitGrid::new(alloc, design.tile, design.tile)
}
