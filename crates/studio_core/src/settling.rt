//! The tiles of a core bound and checked in place.
ghost use Rattle.std.specs.Prelude.{◌≡◌, ◌+◌, ◌*◌, ◌<◌, ◌≤◌, false, length, count_by, slice_set};
ghost use Rattle.draft_model.specs.Designs.{Fits, IsBitsOf, IsPaperOf};
ghost use Rattle.draft_model.specs.Drawdowns.{bound};
ghost use Rattle.tile_grid.specs.Tiles.{tiles};
ghost use Rattle.tile_marks.specs.Marks.{NoneFrom};
ghost use Rattle.tile_rebuild.specs.Tiles.{grid_of};
ghost use Rattle.studio_core.specs.Cores.{AreCells, AreFlags, IsCentral};
ghost use Rattle.studio_core.specs.inner.Rooms.{AreRooms};

use crate::rooms::Rooms;
use draft_model::design::Design;
use mill_base::bit_row::BitRow;
use mill_base::steps::Steps;
use point_paper::bit_paper::BitPaper;
use point_paper::paper::Paper;
use std::sync::ledger::Ledger;
use tile_marks::marks::Marks;
use tile_rebuild::cells::put_cells;
use tile_rebuild::part::part_of;
use tile_rebuild::rebuild::{bind_tile, check_tile};
use tile_rebuild::some_tiles::check_some;
use tile_rebuild::whole::bind_whole;

/// Binds and checks all marked tiles, and takes all marks away. Then the bits are the bound paper, and the flags say which tiles of it
/// have a long cell.
pub(crate) fn settle_all<L: Ledger>(
    design: &Design,
    paper: &Paper,
    bits: &mut BitPaper,
    bind: &mut Marks,
    check: &mut Marks,
    flags: &mut BitRow,
    rooms: &mut Rooms,
    steps: &mut Steps<L>,
)
    requires fits { Fits design.now }
    requires paper { IsPaperOf design.now paper.now }
    requires bits { IsBitsOf design.now bits.old }
    requires bind { length bind.old ≡ tiles (grid_of design.now) }
    requires check { length check.old ≡ tiles (grid_of design.now) }
    requires flags { length flags.old ≡ tiles (grid_of design.now) }
    requires central { IsCentral design.now paper.now bits.old bind.old check.old flags.old }
    requires rooms { AreRooms design.now rooms.old }
    ensures bound { bits.new ≡ bound design.now paper.now }
    ensures bind { NoneFrom bind.new 0 }
    ensures check { NoneFrom check.new 0 }
    ensures central { IsCentral design.now paper.now bits.new bind.new check.new flags.new }
    ensures lengths { (length bind.new ≡ length bind.old) × (length check.new ≡ length check.old) × (length flags.new ≡ length flags.old) }
    ensures rooms { AreRooms design.now rooms.new }
    ensures later { steps.old ≤ steps.new }
    ensures most { steps.new ≤ steps.old + count_by (λ b. b) bind.old * (2 * design.now.tile * (design.now.size.columns + design.now.size.picks)) }
{
    settle_bind(design, paper, bits, bind, rooms, steps);
    settle_check(design, bits, check, flags, rooms);
}

// Binds all tiles that are marked for binding, and takes their marks away. Then the bits are the bound paper.
fn settle_bind<L: Ledger>(
    design: &Design,
    paper: &Paper,
    bits: &mut BitPaper,
    bind: &mut Marks,
    rooms: &mut Rooms,
    steps: &mut Steps<L>,
)
    requires fits { Fits design.now }
    requires paper { IsPaperOf design.now paper.now }
    requires bits { IsBitsOf design.now bits.old }
    requires bind { length bind.old ≡ tiles (grid_of design.now) }
    requires cells { AreCells design.now paper.now bits.old bind.old }
    requires rooms { AreRooms design.now rooms.old }
    ensures bound { bits.new ≡ bound design.now paper.now }
    ensures clear { NoneFrom bind.new 0 }
    ensures bind { length bind.new ≡ length bind.old }
    ensures rooms { AreRooms design.now rooms.new }
    ensures later { steps.old ≤ steps.new }
    ensures most { steps.new ≤ steps.old + count_by (λ b. b) bind.old * (2 * design.now.tile * (design.now.size.columns + design.now.size.picks)) }
{
    if bind.count() >= many(design) {
        bind_whole(
            design,
            paper,
            &mut rooms.rows,
            &mut rooms.whole,
            bits,
            steps,
        );
        bind.clear_all();
        return;
    }
    bind_tiles(design, paper, bits, bind, rooms, steps);
    bits.size();
}

// Sets the flags of all tiles that are marked for checking, and takes their marks away.
fn settle_check(
    design: &Design,
    bits: &BitPaper,
    check: &mut Marks,
    flags: &mut BitRow,
    rooms: &mut Rooms,
)
    requires fits { Fits design.now }
    requires bits { IsBitsOf design.now bits.now }
    requires check { length check.old ≡ tiles (grid_of design.now) }
    requires flags { length flags.old ≡ tiles (grid_of design.now) }
    requires right { AreFlags design.now bits.now check.old flags.old }
    requires rooms { AreRooms design.now rooms.old }
    ensures right { AreFlags design.now bits.now check.new flags.new }
    ensures clear { NoneFrom check.new 0 }
    ensures check { length check.new ≡ length check.old }
    ensures flags { length flags.new ≡ length flags.old }
    ensures rooms { AreRooms design.now rooms.new }
{
    if check.count() > few(design) {
        check_some(
            design,
            bits,
            check.row(),
            &mut rooms.marked,
            &mut rooms.whole,
            flags,
        );
        check.clear_all();
        return;
    }
    check_tiles(design, bits, check, flags, rooms);
}

// How many tiles take up a small part of the paper's columns at most: so few are read faster bit by bit than the whole paper is turned.
fn few(design: &Design) -> u32
    requires { Fits design.now }
    ensures { result * (16 * design.now.tile) ≤ design.now.size.columns }
{
    design.size.columns / (16 * design.tile)
}

// From how many marked tiles on one pass over the whole paper takes no more steps than are allowed: their lines have half as many cells as
// the paper. It takes less time too, since it goes by whole words and a tile's columns are read cell by cell.
fn many(design: &Design) -> u32
    requires { Fits design.now }
    ensures { design.now.size.columns * design.now.size.picks ≤ result * (2 * design.now.tile * (design.now.size.columns + design.now.size.picks)) }
{
    let lines = 2 * design.tile * (design.size.columns + design.size.picks);
    (design.size.columns * design.size.picks + lines - 1) / lines
}

// Binds the marked tiles one by one.
fn bind_tiles<L: Ledger>(
    design: &Design,
    paper: &Paper,
    bits: &mut BitPaper,
    bind: &mut Marks,
    rooms: &mut Rooms,
    steps: &mut Steps<L>,
)
    requires fits { Fits design.now }
    requires paper { IsPaperOf design.now paper.now }
    requires bits { IsBitsOf design.now bits.old }
    requires bind { length bind.old ≡ tiles (grid_of design.now) }
    requires cells { AreCells design.now paper.now bits.old bind.old }
    requires rooms { AreRooms design.now rooms.old }
    ensures cells { AreCells design.now paper.now bits.new bind.new }
    ensures clear { NoneFrom bind.new 0 }
    ensures bits { IsBitsOf design.now bits.new }
    ensures bind { length bind.new ≡ length bind.old }
    ensures rooms { AreRooms design.now rooms.new }
    ensures later { steps.old ≤ steps.new }
    ensures most { steps.new ≤ steps.old + count_by (λ b. b) bind.old * (design.now.tile * (design.now.size.columns + design.now.size.picks)) }
{
    let mut from = 0;
    while let Some(tile) = bind.next(from) {
        bind_in_place(design, tile, paper, bits, bind, rooms, steps);
        from = tile;
    }
}

// Binds a tile from the lines of the paper.
fn bind_in_place<L: Ledger>(
    design: &Design,
    tile: u32,
    paper: &Paper,
    bits: &mut BitPaper,
    bind: &mut Marks,
    rooms: &mut Rooms,
    steps: &mut Steps<L>,
)
    requires fits { Fits design.now }
    requires tile { tile < tiles (grid_of design.now) }
    requires paper { IsPaperOf design.now paper.now }
    requires bits { IsBitsOf design.now bits.old }
    requires bind { length bind.old ≡ tiles (grid_of design.now) }
    requires cells { AreCells design.now paper.now bits.old bind.old }
    requires rooms { AreRooms design.now rooms.old }
    ensures cells { AreCells design.now paper.now bits.new bind.new }
    ensures bind { bind.new ≡ slice_set bind.old tile false }
    ensures bits { IsBitsOf design.now bits.new }
    ensures rooms { AreRooms design.now rooms.new }
    ensures later { steps.old ≤ steps.new }
    ensures most { steps.new ≤ steps.old + design.now.tile * (design.now.size.columns + design.now.size.picks) }
{
    let part = part_of(design, tile);
    rooms.colours.copy(part, paper, steps);
    bind_tile(
        design,
        tile,
        &rooms.colours,
        &mut rooms.rows,
        &mut rooms.long,
        &mut rooms.cells,
    );
    put_cells(part, &rooms.cells, &mut rooms.row, bits);
    bind.clear(tile);
}

// Checks the marked tiles one by one.
fn check_tiles(
    design: &Design,
    bits: &BitPaper,
    check: &mut Marks,
    flags: &mut BitRow,
    rooms: &mut Rooms,
)
    requires fits { Fits design.now }
    requires bits { IsBitsOf design.now bits.now }
    requires check { length check.old ≡ tiles (grid_of design.now) }
    requires flags { length flags.old ≡ tiles (grid_of design.now) }
    requires right { AreFlags design.now bits.now check.old flags.old }
    requires rooms { AreRooms design.now rooms.old }
    ensures right { AreFlags design.now bits.now check.new flags.new }
    ensures clear { NoneFrom check.new 0 }
    ensures check { length check.new ≡ length check.old }
    ensures flags { length flags.new ≡ length flags.old }
    ensures rooms { AreRooms design.now rooms.new }
{
    let mut from = 0;
    while let Some(tile) = check.next(from) {
        check_in_place(design, tile, bits, check, flags, rooms);
        from = tile;
    }
}

// Sets a tile's flag from the lines of the bits.
fn check_in_place(
    design: &Design,
    tile: u32,
    bits: &BitPaper,
    check: &mut Marks,
    flags: &mut BitRow,
    rooms: &mut Rooms,
)
    requires fits { Fits design.now }
    requires tile { tile < tiles (grid_of design.now) }
    requires bits { IsBitsOf design.now bits.now }
    requires check { length check.old ≡ tiles (grid_of design.now) }
    requires flags { length flags.old ≡ tiles (grid_of design.now) }
    requires right { AreFlags design.now bits.now check.old flags.old }
    requires rooms { AreRooms design.now rooms.old }
    ensures right { AreFlags design.now bits.now check.new flags.new }
    ensures check { check.new ≡ slice_set check.old tile false }
    ensures flags { length flags.new ≡ length flags.old }
    ensures rooms { AreRooms design.now rooms.new }
{
    let part = part_of(design, tile);
    rooms.lines.copy(part, bits);
    let long = check_tile(design, tile, &rooms.lines, &mut rooms.long);
    flags.set(tile, long);
    check.clear(tile);
}
