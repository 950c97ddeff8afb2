//! The binding of one tile on its own: what it is made from, and what comes of it.
ghost use Rattle.std.specs.Prelude.{◌≡◌, ◌↔◌, ◌+◌, ◌*◌, ◌<◌, ◌≤◌, IfOk, IsTrue};
ghost use Rattle.draft_model.specs.Designs.{Fits, IsPaperOf};
ghost use Rattle.tile_grid.specs.Tiles.{tiles};
ghost use Rattle.tile_rebuild.specs.Values.{IsBoundTile};
ghost use Rattle.tile_rebuild.specs.Lines.{AreColoursOf};
ghost use Rattle.tile_rebuild.specs.Rebuilds.{IsTileRoom, cell_in};
ghost use Rattle.tile_rebuild.specs.Tiles.{grid_of, part_at, parts_of, HasCell};

use crate::colour_lines::ColourLines;
use crate::part::{Part, part_of};
use crate::parts::Parts;
use crate::rebuild::bind_tile;
use crate::room::{BindRows, Room, tile_cells};
use draft_model::design::Design;
use mill_base::bit_grid::BitGrid;
use mill_base::memory::OutOfMemory;
use mill_base::steps::Steps;
use point_paper::paper::Paper;
use std::alloc::Global;
use std::marker::Model;
use std::sync::ledger::Ledger;

/// The colours of the lines that cross a tile, with the parts of the design that bind them, and room for what comes of them.
#[derive(Drop)]
pub struct BindJob {
    parts: Parts,
    tile: u32,
    part: Part,
    lines: ColourLines,
    rows: BindRows,
    room: Room,
    cells: BitGrid,
}

impl Model for BindJob {
    ghost use Rattle.tile_rebuild.specs.Values.{ColourJob};
    ghost use Rattle.tile_rebuild.specs.inner.Kept.{IsBindReady};

    ghost Value = { ColourJob };

    ghost view = { λ j. record { parts = j.parts; tile = j.tile; part = j.part; picks = j.lines.picks.items; columns = j.lines.columns.items } };

    ghost invariant = { λ j. IsBindReady j.parts j.tile j.part j.lines.picks.items j.lines.columns.items j.rows j.room j.cells };
}

/// The bound cells of a tile, with the colours of the lines that they were made from. They are right in every paper of the design that has
/// these lines.
#[derive(Drop)]
pub struct BindDone {
    parts: Parts,
    tile: u32,
    part: Part,
    lines: ColourLines,
    cells: BitGrid,
}

impl Model for BindDone {
    ghost use Rattle.tile_rebuild.specs.Values.{BoundTile};
    ghost use Rattle.tile_rebuild.specs.inner.Kept.{IsBindKept};

    ghost Value = { BoundTile };

    ghost view = { λ d. record { parts = d.parts; tile = d.tile; part = d.part; picks = d.lines.picks.items; columns = d.lines.columns.items; cells = d.cells } };

    ghost invariant = { λ d. IsBindKept (record { parts = d.parts; tile = d.tile; part = d.part; picks = d.lines.picks.items; columns = d.lines.columns.items; cells = d.cells }) };
}

impl BindJob {
    /// Copies the colours of the lines that cross a tile: of its picks over all columns, and of its columns over all picks. The counter
    /// ticks at most once for each of their cells.
    pub fn take<L: Ledger>(
        alloc: Global,
        design: &Design,
        paper: &Paper,
        tile: u32,
        steps: &mut Steps<L>,
    ) -> Result<BindJob, OutOfMemory>
        requires fits { Fits design.now }
        requires paper { IsPaperOf design.now paper.now }
        requires tile { tile < tiles (grid_of design.now) }
        ensures parts { IfOk result (λ job. job.parts ≡ parts_of design.now) }
        ensures tile { IfOk result (λ job. job.tile ≡ tile) }
        ensures lines { IfOk result (λ job. AreColoursOf (part_at (grid_of design.now) tile) paper.now job.picks job.columns) }
        ensures later { steps.old ≤ steps.new }
        ensures most { steps.new ≤ steps.old + design.now.tile * (design.now.size.columns + design.now.size.picks) }
    {
        let part = part_of(design, tile);
        let parts = Parts::of(design)?;
        let mut lines = ColourLines::new(alloc, design.size, design.tile)?;
        let rows = BindRows::new(alloc, design)?;
        let room = Room::new(alloc, design)?;
        let cells = tile_cells(alloc, design)?;
        lines.copy(part, paper, steps);
        Ok(BindJob {
            parts,
            tile,
            part,
            lines,
            rows,
            room,
            cells,
        })
    }

    /// The tile whose lines these are.
    pub fn tile(&self) -> u32
        ensures { result ≡ self.now.tile }
    {
        self.tile
    }

    /// Whether the kept parts are those of a design. It takes no memory.
    pub fn is_of(&self, design: &Design) -> bool
        ensures { IsTrue result ↔ (self.now.parts ≡ parts_of design.now) }
    {
        self.parts.are_of(design)
    }

    /// Binds the tile's cells by a design whose parts are the kept ones. It takes no memory.
    pub fn run(self, design: &Design) -> BindDone
        requires fits { Fits design.now }
        requires of { self.parts ≡ parts_of design.now }
        ensures parts { result.parts ≡ self.parts }
        ensures tile { result.tile ≡ self.tile }
        ensures picks { result.picks ≡ self.picks }
        ensures columns { result.columns ≡ self.columns }
    {
        let BindJob {
            parts,
            tile,
            part,
            lines,
            mut rows,
            mut room,
            mut cells,
        } = self;
        bind_tile(design, tile, &lines, &mut rows, &mut room, &mut cells);
        BindDone {
            parts,
            tile,
            part,
            lines,
            cells,
        }
    }
}

impl BindDone {
    /// The tile whose cells these are.
    pub fn tile(&self) -> u32
        ensures tile { result ≡ self.now.tile }
        ensures right { IsBoundTile self.now }
    {
        self.tile
    }

    /// Whether the kept parts are those of a design. It takes no memory.
    pub fn is_of(&self, design: &Design) -> bool
        ensures { IsTrue result ↔ (self.now.parts ≡ parts_of design.now) }
    {
        self.parts.are_of(design)
    }

    /// Whether the lines that the cells were made from are those of a paper of the kept size. It takes no memory. The counter ticks at
    /// most once for each of their cells.
    pub fn agrees<L: Ledger>(&self, paper: &Paper, steps: &mut Steps<L>) -> bool
        requires columns { paper.now.columns ≡ self.now.parts.size.columns }
        requires picks { paper.now.picks ≡ self.now.parts.size.picks }
        ensures lines { IsTrue result ↔ AreColoursOf self.now.part paper.now self.now.picks self.now.columns }
        ensures later { steps.old ≤ steps.new }
        ensures most { steps.new ≤ steps.old + self.now.parts.tile * (self.now.parts.size.columns + self.now.parts.size.picks) }
    {
        self.lines.agree(self.part, paper, steps)
    }

    /// The bound cell in a column of a pick, which are of the tile.
    pub fn cell(&self, column: u32, pick: u32) -> bool
        requires { HasCell self.now.part column pick }
        ensures { result ≡ cell_in self.now.part self.now.cells column pick }
    {
        self.cells
            .get(column - self.part.column, pick - self.part.pick)
    }

    /// The bound cells: a row for each pick of the tile, from its lowest, with a position for each of its columns, from its leftmost.
    pub fn cells(&self) -> &BitGrid
        ensures cells { result.now ≡ self.now.cells }
        ensures room { IsTileRoom self.now.parts result.now }
    {
        &self.cells
    }

    /// The columns and picks that the tile covers.
    pub fn part(&self) -> Part
        ensures part { result ≡ self.now.part }
        ensures right { IsBoundTile self.now }
    {
        self.part
    }
}
