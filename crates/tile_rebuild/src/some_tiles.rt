//! The flags of some tiles, from the lines that cross them. A line that crosses several of them is looked at once.
ghost use Rattle.std.specs.Prelude.{◌≡◌, ℕ, ◌+◌, ◌^◌, ◌<◌, ◌≤◌, Bool, List, false, true, length, slice_index_or, IfOk};
ghost use Rattle.mill_base.specs.Below.{any_below};
ghost use Rattle.draft_model.specs.Designs.{Fits, IsBitsOf};
ghost use Rattle.tile_grid.specs.Tiles.{tiles as tiles_of};
ghost use Rattle.tile_rebuild.specs.Tiles.{grid_of, has_long, parts_of};
ghost use Rattle.tile_rebuild.specs.Wholes.{IsLineRoom, IsWholeRoom};
ghost use Rattle.tile_rebuild.specs.inner.Passes.{AreSomeLong, HaveLines, any_in_pick, grid_long};

use crate::part::part_of;
use crate::whole::{WholeRoom, copy_bits, flag_pick};
use crate::whole_long::{mark_pick, mark_some_columns};
use draft_model::design::Design;
use mill_base::bit_row::BitRow;
use mill_base::memory::OutOfMemory;
use point_paper::bit_paper::BitPaper;
use std::alloc::Global;

/// Room for some tiles of a design.
#[derive(Drop)]
pub struct LineRoom {
    /// The columns that cross a tile.
    pub columns: BitRow,
    /// The picks that cross a tile.
    pub picks: BitRow,
    /// Which tiles have a long cell.
    pub found: BitRow,
}

impl LineRoom {
    /// Room for any tiles of a design, which has so many.
    pub fn new(alloc: Global, design: &Design, tiles: u32) -> Result<LineRoom, OutOfMemory>
        requires { tiles ≡ tiles_of (grid_of design.now) }
        ensures { IfOk result (λ room. IsLineRoom (parts_of design.now) room) }
    {
        let columns = BitRow::new(alloc, design.size.columns)?;
        let picks = BitRow::new(alloc, design.size.picks)?;
        let found = BitRow::new(alloc, tiles)?;
        Ok(LineRoom {
            columns,
            picks,
            found,
        })
    }
}

/// Sets the flags of some tiles: whether a cell of the tile is long on the cloth of the bits. All other flags stay. It takes no memory.
pub fn check_some(
    design: &Design,
    bits: &BitPaper,
    tiles: &BitRow,
    lines: &mut LineRoom,
    room: &mut WholeRoom,
    flags: &mut BitRow,
)
    requires fits { Fits design.now }
    requires bits { IsBitsOf design.now bits.now }
    requires tiles { length tiles.now ≡ tiles_of (grid_of design.now) }
    requires lines { IsLineRoom (parts_of design.now) lines.old }
    requires room { IsWholeRoom (parts_of design.now) room.old }
    requires flags { length flags.old ≡ tiles_of (grid_of design.now) }
    ensures flags { (tile : ℕ) → tile < tiles_of (grid_of design.now) → slice_index_or tiles.now tile false ≡ true
        → slice_index_or flags.new tile false ≡ has_long design.now bits.now tile }
    ensures others { (tile : ℕ) → slice_index_or tiles.now tile false ≡ false → slice_index_or flags.new tile false ≡ slice_index_or flags.old tile false }
    ensures len { length flags.new ≡ length flags.old }
    ensures lines { IsLineRoom (parts_of design.now) lines.new }
    ensures room { IsWholeRoom (parts_of design.now) room.new }
{
    design.tie.ends();
    draft_model::laws::two_lines_decide_a_cell();
    find_lines(design, tiles, &mut lines.columns, &mut lines.picks);
    copy_bits(design, bits, room);
    mark_some_columns(design, &lines.columns, room);
    find_long(design, &lines.picks, room, &mut lines.found);
    take_flags(tiles, &lines.found, flags);
}

// Sets two rows to the columns and to the picks that cross some tiles.
fn find_lines(design: &Design, tiles: &BitRow, columns: &mut BitRow, picks: &mut BitRow)
    requires fits { Fits design.now }
    requires tiles { length tiles.now ≡ tiles_of (grid_of design.now) }
    requires columns { length columns.old ≡ design.now.size.columns }
    requires picks { length picks.old ≡ design.now.size.picks }
    ensures lengths { (length columns.new ≡ length columns.old) × (length picks.new ≡ length picks.old) }
    ensures lines { HaveLines design.now tiles.now columns.new picks.new }
{
    columns.fill(false);
    picks.fill(false);
    let mut from = 0;
    while let Some(tile) = tiles.next_true(from) {
        let part = part_of(design, tile);
        add_span(columns, part.column, part.width);
        add_span(picks, part.pick, part.height);
        from = tile + 1;
    }
}

// Makes so many positions true. All others stay.
fn add_span(row: &mut BitRow, at: u32, count: u32)
    requires room { at + count ≤ length row.old }
    requires few { length row.old < 2 ^ 32 }
    ensures len { length row.new ≡ length row.old }
    ensures here { (k : ℕ) → at ≤ k → k < at + count → slice_index_or row.new k false ≡ true }
    ensures others { (k : ℕ) → slice_index_or row.old k false ≡ true → slice_index_or row.new k false ≡ true }
{
    for k in at..at + count {
        row.set(k, true);
    }
}

// Finds which tiles have a long cell, where the cells are known. It is right for the tiles whose picks are asked for, and of which it is known
// where their columns are long.
fn find_long(design: &Design, picks: &BitRow, room: &mut WholeRoom, found: &mut BitRow)
    requires fits { Fits design.now }
    requires picks { length picks.now ≡ design.now.size.picks }
    requires room { IsWholeRoom (parts_of design.now) room.old }
    requires found { length found.old ≡ tiles_of (grid_of design.now) }
    ensures len { length found.new ≡ length found.old }
    ensures found { (tiles columns : List Bool) (tile : ℕ) → HaveLines design.now tiles columns picks.now → AreSomeLong design.now columns room.old.raw room.old.long
        → tile < tiles_of (grid_of design.now) → slice_index_or tiles tile false ≡ true
        → slice_index_or found.new tile false ≡ any_below (λ p. any_in_pick design.now tile p (λ c. grid_long design.now room.old.raw c p)) design.now.size.picks }
    ensures room { IsWholeRoom (parts_of design.now) room.new }
{
    found.fill(false);
    let mut from = 0;
    while let Some(pick) = picks.next_true(from) {
        mark_pick(design, pick, room);
        flag_pick(design, pick, &room.columns, found);
        from = pick + 1;
    }
}

// The flags of some tiles become those that were found.
fn take_flags(tiles: &BitRow, found: &BitRow, flags: &mut BitRow)
    requires few { length tiles.now < 2 ^ 32 }
    requires found { length found.now ≡ length tiles.now }
    requires flags { length flags.old ≡ length tiles.now }
    ensures len { length flags.new ≡ length flags.old }
    ensures flags { (tile : ℕ) → slice_index_or tiles.now tile false ≡ true → slice_index_or flags.new tile false ≡ slice_index_or found.now tile false }
    ensures others { (tile : ℕ) → slice_index_or tiles.now tile false ≡ false → slice_index_or flags.new tile false ≡ slice_index_or flags.old tile false }
{
    let mut from = 0;
    while let Some(tile) = tiles.next_true(from) {
        flags.set(tile, found.get(tile));
        from = tile + 1;
    }
}
