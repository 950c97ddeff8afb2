//! A whole paper rebuilt in one pass over it, in room that is made before: for a caller that has many tiles to rebuild. Nothing but the
//! making of the room takes memory.
ghost use Rattle.std.specs.Prelude.{◌≡◌, ◌≢◌, ℕ, ◌+◌, ◌*◌, ◌<◌, ◌||◌, false, length, slice_index_or, IfOk};
ghost use Rattle.mill_base.specs.Below.{any_below};
ghost use Rattle.mill_base.specs.Grids.{grid_cell, grid_row};
ghost use Rattle.point_paper.specs.Papers.{bit_cell, bit_row, pick_of};
ghost use Rattle.draft_model.specs.Cloths.{raw_cell};
ghost use Rattle.draft_model.specs.Designs.{Fits, IsBitsOf, IsPaperOf};
ghost use Rattle.draft_model.specs.Drawdowns.{bound as bound_of};
ghost use Rattle.tile_grid.specs.Tiles.{tiles};
ghost use Rattle.tile_rebuild.specs.Rebuilds.{AreRows};
ghost use Rattle.tile_rebuild.specs.Tiles.{grid_of, has_long, parts_of};
ghost use Rattle.tile_rebuild.specs.Wholes.{IsWholeRoom};
ghost use Rattle.tile_rebuild.specs.inner.Passes.{AreEndsLong, HasCells, any_in_pick, grid_bound, grid_long};

use crate::bit_lines::copy_picks;
use crate::part::{Part, tiles_along};
use crate::rebuild::put_pick;
use crate::room::BindRows;
use crate::whole_long::{mark_columns, mark_pick};
use binder_marks::bind_line;
use draft_model::design::Design;
use mill_base::bit_grid::BitGrid;
use mill_base::bit_row::BitRow;
use mill_base::memory::OutOfMemory;
use mill_base::size::Size;
use mill_base::steps::Steps;
use point_paper::bit_paper::BitPaper;
use point_paper::paper::{LineKind, Paper};
use std::alloc::Global;
use std::sync::ledger::Ledger;

/// Room for a whole paper of a design.
#[derive(Drop)]
pub struct WholeRoom {
    /// The cells of the paper: a row for each pick.
    pub raw: BitGrid,
    /// A row for each column: its cells, and after that where it is long.
    pub turned: BitGrid,
    /// Where the columns are long, with a row for each pick.
    pub long: BitGrid,
    /// Where one column is long.
    pub line: BitRow,
    /// A pick on the cloth.
    pub ends: BitRow,
    /// Which ends of that pick are long.
    pub ends_long: BitRow,
    /// A position for each column of a pick: its raw cells, and later which of them are long.
    pub columns: BitRow,
    /// The colours of a pick.
    pub colours: Vec<u8>,
}

impl WholeRoom {
    /// Room for any paper of a design.
    pub fn new(alloc: Global, design: &Design) -> Result<WholeRoom, OutOfMemory>
        ensures { IfOk result (λ room. IsWholeRoom (parts_of design.now) room) }
    {
        let Size { columns, picks } = design.size;
        let raw = BitGrid::new(alloc, columns, picks)?;
        let turned = BitGrid::new(alloc, picks, columns)?;
        let long = BitGrid::new(alloc, columns, picks)?;
        let line = BitRow::new(alloc, picks)?;
        let ends = BitRow::new(alloc, design.tie.ends())?;
        let ends_long = BitRow::new(alloc, design.tie.ends())?;
        let row = BitRow::new(alloc, columns)?;
        let colours = Vec::from_elem(alloc, 0u8, columns as usize)?;
        Ok(WholeRoom {
            raw,
            turned,
            long,
            line,
            ends,
            ends_long,
            columns: row,
            colours,
        })
    }
}

/// Sets a bit paper to the bound paper of a paper, in one pass over it. It takes no memory. The counter ticks once for each cell of the
/// paper.
pub fn bind_whole<L: Ledger>(
    design: &Design,
    paper: &Paper,
    rows: &mut BindRows,
    room: &mut WholeRoom,
    bits: &mut BitPaper,
    steps: &mut Steps<L>,
)
    requires fits { Fits design.now }
    requires paper { IsPaperOf design.now paper.now }
    requires rows { AreRows (parts_of design.now) rows.old }
    requires room { IsWholeRoom (parts_of design.now) room.old }
    requires bits { IsBitsOf design.now bits.old }
    ensures bound { bits.new ≡ bound_of design.now paper.now }
    ensures size { IsBitsOf design.now bits.new }
    ensures rows { AreRows (parts_of design.now) rows.new }
    ensures room { IsWholeRoom (parts_of design.now) room.new }
    ensures steps { steps.new ≡ steps.old + design.now.size.columns * design.now.size.picks }
{
    design.tie.ends();
    draft_model::laws::two_lines_decide_a_cell();
    read_raw(design, paper, room, steps);
    mark_columns(design, room);
    bind_picks(design, rows, room, bits);
    bits.size();
}

/// Sets the flag of each tile: whether a cell of it is long on the cloth of the bits, in one pass over them. It takes no memory.
pub fn check_whole(design: &Design, bits: &BitPaper, room: &mut WholeRoom, flags: &mut BitRow)
    requires fits { Fits design.now }
    requires bits { IsBitsOf design.now bits.now }
    requires room { IsWholeRoom (parts_of design.now) room.old }
    requires flags { length flags.old ≡ tiles (grid_of design.now) }
    ensures flags { (tile : ℕ) → tile < tiles (grid_of design.now) → slice_index_or flags.new tile false ≡ has_long design.now bits.now tile }
    ensures len { length flags.new ≡ length flags.old }
    ensures room { IsWholeRoom (parts_of design.now) room.new }
{
    design.tie.ends();
    draft_model::laws::two_lines_decide_a_cell();
    copy_bits(design, bits, room);
    mark_columns(design, room);
    flag_picks(design, room, flags);
}

// Sets the grid of the room to the raw cells of a paper.
fn read_raw<L: Ledger>(design: &Design, paper: &Paper, room: &mut WholeRoom, steps: &mut Steps<L>)
    requires paper { IsPaperOf design.now paper.now }
    requires room { IsWholeRoom (parts_of design.now) room.old }
    ensures room { IsWholeRoom (parts_of design.now) room.new }
    ensures raw { HasCells design.now design.now.size.picks (raw_cell design.now.book paper.now) room.new.raw }
    ensures steps { steps.new ≡ steps.old + design.now.size.picks * design.now.size.columns }
{
    for pick in 0..design.size.picks {
        read_pick(design, paper, pick, room, steps);
    }
}

// Sets a row of the grid to the raw cells of a pick.
fn read_pick<L: Ledger>(
    design: &Design,
    paper: &Paper,
    pick: u32,
    room: &mut WholeRoom,
    steps: &mut Steps<L>,
)
    requires paper { IsPaperOf design.now paper.now }
    requires pick { pick < design.now.size.picks }
    requires room { IsWholeRoom (parts_of design.now) room.old }
    ensures room { IsWholeRoom (parts_of design.now) room.new }
    ensures here { (c : ℕ) → c < design.now.size.columns → grid_cell room.new.raw c pick ≡ raw_cell design.now.book paper.now c pick }
    ensures others { (k : ℕ) → k ≢ pick → grid_row room.new.raw k ≡ grid_row room.old.raw k }
    ensures steps { steps.new ≡ steps.old + design.now.size.columns }
{
    read_colours(paper, pick, &mut room.colours, steps);
    put_pick(&design.book, &room.colours, pick, &mut room.columns);
    room.raw.set_row(pick, &room.columns);
}

fn read_colours<L: Ledger>(paper: &Paper, pick: u32, colours: &mut Vec<u8>, steps: &mut Steps<L>)
    requires pick { pick < paper.now.picks }
    requires colours { length colours.old.items ≡ paper.now.columns }
    ensures colours { colours.new.items ≡ pick_of paper.now pick }
    ensures steps { steps.new ≡ steps.old + paper.now.columns }
{
    paper.line(LineKind::Pick, pick, colours, steps);
}

// Binds the picks, where the raw cells are known and where the columns are long.
fn bind_picks(design: &Design, rows: &mut BindRows, room: &mut WholeRoom, bits: &mut BitPaper)
    requires fits { Fits design.now }
    requires rows { AreRows (parts_of design.now) rows.old }
    requires room { IsWholeRoom (parts_of design.now) room.old }
    requires ends { AreEndsLong design.now room.old.raw room.old.long }
    requires bits { IsBitsOf design.now bits.old }
    ensures bound { (c p : ℕ) → c < design.now.size.columns → p < design.now.size.picks → bit_cell bits.new c p ≡ grid_bound design.now room.old.raw c p }
    ensures rows { AreRows (parts_of design.now) rows.new }
    ensures room { IsWholeRoom (parts_of design.now) room.new }
    ensures bits { IsBitsOf design.now bits.new }
{
    for pick in 0..design.size.picks {
        mark_pick(design, pick, room);
        bind_pick(design, pick, room, rows, bits);
    }
}

// Binds one pick, where it is known which of its columns are long.
fn bind_pick(design: &Design, pick: u32, room: &WholeRoom, rows: &mut BindRows, bits: &mut BitPaper)
    requires pick { pick < design.now.size.picks }
    requires room { IsWholeRoom (parts_of design.now) room.now }
    requires long { (c : ℕ) → c < design.now.size.columns → slice_index_or room.now.columns c false ≡ grid_long design.now room.now.raw c pick }
    requires rows { AreRows (parts_of design.now) rows.old }
    requires bits { IsBitsOf design.now bits.old }
    ensures rows { AreRows (parts_of design.now) rows.new }
    ensures bits { IsBitsOf design.now bits.new }
    ensures here { (c : ℕ) → c < design.now.size.columns → bit_cell bits.new c pick ≡ grid_bound design.now room.now.raw c pick }
    ensures others { (k : ℕ) → k ≢ pick → bit_row bits.new k ≡ bit_row bits.old k }
{
    design.raise.put_row(pick, &mut rows.raise);
    design.sink.put_row(pick, &mut rows.sink);
    bind_line(
        room.raw.row(pick),
        &room.columns,
        &rows.raise,
        &rows.sink,
        &mut rows.bound,
    );
    bits.set_row(pick, &rows.bound);
}

/// Sets the grid of the room to the cells of a bit paper.
pub(crate) fn copy_bits(design: &Design, bits: &BitPaper, room: &mut WholeRoom)
    requires fits { Fits design.now }
    requires bits { IsBitsOf design.now bits.now }
    requires room { IsWholeRoom (parts_of design.now) room.old }
    ensures room { IsWholeRoom (parts_of design.now) room.new }
    ensures raw { HasCells design.now design.now.size.picks (bit_cell bits.now) room.new.raw }
{
    let Size { columns, picks } = design.size;
    let whole = Part {
        column: 0,
        pick: 0,
        width: columns,
        height: picks,
    };
    copy_picks(whole, bits, &mut room.raw);
}

// Sets the flags of all tiles, where the cells are known and where the columns are long.
fn flag_picks(design: &Design, room: &mut WholeRoom, flags: &mut BitRow)
    requires fits { Fits design.now }
    requires room { IsWholeRoom (parts_of design.now) room.old }
    requires ends { AreEndsLong design.now room.old.raw room.old.long }
    requires flags { length flags.old ≡ tiles (grid_of design.now) }
    ensures len { length flags.new ≡ length flags.old }
    ensures flags { (tile : ℕ) → tile < tiles (grid_of design.now)
        → slice_index_or flags.new tile false ≡ any_below (λ p. any_in_pick design.now tile p (λ c. grid_long design.now room.old.raw c p)) design.now.size.picks }
    ensures room { IsWholeRoom (parts_of design.now) room.new }
{
    flags.fill(false);
    for pick in 0..design.size.picks {
        mark_pick(design, pick, room);
        flag_pick(design, pick, &room.columns, flags);
    }
}

/// Sets the flags of the tiles that have a long cell in a pick, where it is known which of its columns are long. All other flags stay.
pub(crate) fn flag_pick(design: &Design, pick: u32, long: &BitRow, flags: &mut BitRow)
    requires fits { Fits design.now }
    requires pick { pick < design.now.size.picks }
    requires long { length long.now ≡ design.now.size.columns }
    requires flags { length flags.old ≡ tiles (grid_of design.now) }
    ensures len { length flags.new ≡ length flags.old }
    ensures flags { (tile : ℕ) → tile < tiles (grid_of design.now)
        → slice_index_or flags.new tile false
        ≡ (slice_index_or flags.old tile false || any_in_pick design.now tile pick (λ c. slice_index_or long.now c false)) }
{
    let first = pick / design.tile * tiles_along(design.size.columns, design.tile);
    let mut from = 0;
    while let Some(column) = long.next_true(from) {
        let tile_column = column / design.tile;
        flags.set(first + tile_column, true);
        from = (tile_column + 1) * design.tile;
    }
}
