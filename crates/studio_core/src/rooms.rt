//! Room to gather and rebuild tiles, so that it takes no memory.
ghost use Rattle.std.specs.Prelude.{◌≡◌, IfOk};
ghost use Rattle.tile_grid.specs.Tiles.{tiles as tiles_of};
ghost use Rattle.tile_rebuild.specs.Tiles.{grid_of};
ghost use Rattle.studio_core.specs.inner.Rooms.{AreRooms};

use draft_model::design::Design;
use mill_base::bit_grid::BitGrid;
use mill_base::bit_row::BitRow;
use mill_base::memory::OutOfMemory;
use std::alloc::Global;
use tile_marks::marks::Marks;
use tile_rebuild::bit_lines::BitLines;
use tile_rebuild::colour_lines::ColourLines;
use tile_rebuild::room::{BindRows, Room, tile_cells};
use tile_rebuild::some_tiles::LineRoom;
use tile_rebuild::whole::WholeRoom;

/// Room for any tile of a design, and for all of them at once.
#[derive(Drop)]
pub(crate) struct Rooms {
    /// The colours of the lines that cross a tile.
    pub(crate) colours: ColourLines,
    /// The bits of these lines.
    pub(crate) lines: BitLines,
    /// Raw and bound lines.
    pub(crate) rows: BindRows,
    /// Long cells.
    pub(crate) long: Room,
    /// The tile's cells.
    pub(crate) cells: BitGrid,
    /// A pick of the paper.
    pub(crate) row: BitRow,
    /// All tiles at once.
    pub(crate) whole: WholeRoom,
    /// The lines of marked tiles.
    pub(crate) marked: LineRoom,
    /// Tiles that an act touches.
    pub(crate) touched: Marks,
    /// Tiles that are near others.
    pub(crate) near: Marks,
}

impl Rooms {
    /// Room for a design of so many tiles.
    pub(crate) fn new(alloc: Global, design: &Design, tiles: u32) -> Result<Rooms, OutOfMemory>
        requires { tiles ≡ tiles_of (grid_of design.now) }
        ensures { IfOk result (AreRooms design.now) }
    {
        let colours = ColourLines::new(alloc, design.size, design.tile)?;
        let lines = BitLines::new(alloc, design.size, design.tile)?;
        let rows = BindRows::new(alloc, design)?;
        let long = Room::new(alloc, design)?;
        let cells = tile_cells(alloc, design)?;
        let row = BitRow::new(alloc, design.size.columns)?;
        let whole = WholeRoom::new(alloc, design)?;
        let marked = LineRoom::new(alloc, design, tiles)?;
        let touched = Marks::new(alloc, tiles)?;
        let near = Marks::new(alloc, tiles)?;
        Ok(Rooms {
            colours,
            lines,
            rows,
            long,
            cells,
            row,
            whole,
            marked,
            touched,
            near,
        })
    }
}
