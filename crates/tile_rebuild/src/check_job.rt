//! The check of one tile on its own: what it is made from, and what comes of it.
ghost use Rattle.std.specs.Prelude.{◌≡◌, ◌↔◌, ◌<◌, length, IfOk, IsTrue};
ghost use Rattle.draft_model.specs.Designs.{Fits, IsBitsOf};
ghost use Rattle.tile_grid.specs.Tiles.{tiles};
ghost use Rattle.tile_rebuild.specs.Values.{IsFlagTile};
ghost use Rattle.tile_rebuild.specs.Lines.{AreBitsOf};
ghost use Rattle.tile_rebuild.specs.Tiles.{grid_of, part_at, parts_of};

use crate::bit_lines::BitLines;
use crate::part::{Part, part_of};
use crate::parts::Parts;
use crate::rebuild::check_tile;
use crate::room::Room;
use draft_model::design::Design;
use mill_base::memory::OutOfMemory;
use point_paper::bit_paper::BitPaper;
use std::alloc::Global;
use std::marker::Model;

/// The bits of the lines that cross a tile, with the parts of the design that say which of them are long, and room to look.
#[derive(Drop)]
pub struct CheckJob {
    parts: Parts,
    tile: u32,
    part: Part,
    lines: BitLines,
    room: Room,
}

impl Model for CheckJob {
    ghost use Rattle.tile_rebuild.specs.Values.{BitJob};
    ghost use Rattle.tile_rebuild.specs.inner.Kept.{IsCheckReady};

    ghost Value = { BitJob };

    ghost view = { λ j. record { parts = j.parts; tile = j.tile; part = j.part; picks = j.lines.picks; columns = j.lines.columns } };

    ghost invariant = { λ j. IsCheckReady j.parts j.tile j.part j.lines.picks j.lines.columns j.room };
}

/// Whether a cell of a tile is long, with the bits of the lines that it was made from. It is right in every bit paper of the design that
/// has these lines.
#[derive(Drop)]
pub struct CheckDone {
    parts: Parts,
    tile: u32,
    part: Part,
    lines: BitLines,
    long: bool,
}

impl Model for CheckDone {
    ghost use Rattle.tile_rebuild.specs.Values.{FlagTile};
    ghost use Rattle.tile_rebuild.specs.inner.Kept.{IsCheckKept};

    ghost Value = { FlagTile };

    ghost view = { λ d. record { parts = d.parts; tile = d.tile; part = d.part; picks = d.lines.picks; columns = d.lines.columns; flag = d.long } };

    ghost invariant = { λ d. IsCheckKept (record { parts = d.parts; tile = d.tile; part = d.part; picks = d.lines.picks; columns = d.lines.columns; flag = d.long }) };
}

impl CheckJob {
    /// Copies the bits of the lines that cross a tile: of its picks over all columns, and of its columns over all picks.
    pub fn take(
        alloc: Global,
        design: &Design,
        bits: &BitPaper,
        tile: u32,
    ) -> Result<CheckJob, OutOfMemory>
        requires fits { Fits design.now }
        requires bits { IsBitsOf design.now bits.now }
        requires tile { tile < tiles (grid_of design.now) }
        ensures parts { IfOk result (λ job. job.parts ≡ parts_of design.now) }
        ensures tile { IfOk result (λ job. job.tile ≡ tile) }
        ensures lines { IfOk result (λ job. AreBitsOf (part_at (grid_of design.now) tile) bits.now job.picks job.columns) }
    {
        let part = part_of(design, tile);
        let parts = Parts::of(design)?;
        let mut lines = BitLines::new(alloc, design.size, design.tile)?;
        let room = Room::new(alloc, design)?;
        lines.copy(part, bits);
        Ok(CheckJob {
            parts,
            tile,
            part,
            lines,
            room,
        })
    }

    /// The tile whose lines these are.
    pub fn tile(&self) -> u32
        ensures { result ≡ self.now.tile }
    {
        self.tile
    }

    /// Whether the kept parts are those of a design. It takes no memory.
    pub fn is_of(&self, design: &Design) -> bool
        ensures { IsTrue result ↔ (self.now.parts ≡ parts_of design.now) }
    {
        self.parts.are_of(design)
    }

    /// Looks for a long cell of the tile by a design whose parts are the kept ones. It takes no memory.
    pub fn run(self, design: &Design) -> CheckDone
        requires fits { Fits design.now }
        requires of { self.parts ≡ parts_of design.now }
        ensures parts { result.parts ≡ self.parts }
        ensures tile { result.tile ≡ self.tile }
        ensures picks { result.picks ≡ self.picks }
        ensures columns { result.columns ≡ self.columns }
    {
        let CheckJob {
            parts,
            tile,
            part,
            lines,
            mut room,
        } = self;
        let long = check_tile(design, tile, &lines, &mut room);
        CheckDone {
            parts,
            tile,
            part,
            lines,
            long,
        }
    }
}

impl CheckDone {
    /// The tile whose flag this is.
    pub fn tile(&self) -> u32
        ensures tile { result ≡ self.now.tile }
        ensures right { IsFlagTile self.now }
    {
        self.tile
    }

    /// Whether the kept parts are those of a design. It takes no memory.
    pub fn is_of(&self, design: &Design) -> bool
        ensures { IsTrue result ↔ (self.now.parts ≡ parts_of design.now) }
    {
        self.parts.are_of(design)
    }

    /// Whether the lines that the flag was made from are those of a bit paper of the kept size. It takes no memory.
    pub fn agrees(&self, bits: &BitPaper) -> bool
        requires columns { bits.now.columns ≡ self.now.parts.size.columns }
        requires picks { length bits.now.rows ≡ self.now.parts.size.picks }
        ensures { IsTrue result ↔ AreBitsOf self.now.part bits.now self.now.picks self.now.columns }
    {
        self.lines.agree(self.part, bits)
    }

    /// Whether a cell of the tile is long.
    pub fn is_long(&self) -> bool
        ensures { result ≡ self.now.flag }
    {
        self.long
    }
}
