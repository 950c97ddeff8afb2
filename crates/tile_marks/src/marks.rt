//! Marks.
ghost use Rattle.std.specs.Prelude.{◌≡◌, ◌<◌, ◌↔◌, false, count_by, length, replicate, slice_index_or, slice_set, true, IfOk, IfSome, IsNone};
ghost use Rattle.tile_grid.specs.Tiles.{tiles};
ghost use Rattle.tile_marks.specs.Marks.{IsNext, NoneFrom, with_near};

use crate::columns::mark_column;
use mill_base::bit_row::BitRow;
use mill_base::memory::OutOfMemory;
use std::alloc::Global;
use std::marker::Model;
use tile_grid::grid::Grid;

/// A set of tiles, a bit of a word for each, which contracts see as the list that says of each tile whether it is in
/// the set. No call but `new` takes memory.
#[derive(Drop)]
pub struct Marks {
    set: BitRow,
}

impl Model for Marks {
    ghost use Rattle.std.specs.Prelude.{List, Bool};

    ghost Value = { List Bool };

    ghost view = { λ m. m.set };
}

impl Marks {
    /// The empty set of a paper of so many tiles.
    pub fn new(alloc: Global, tiles: u32) -> Result<Marks, OutOfMemory>
        ensures { IfOk result (λ m. m ≡ replicate tiles false) }
    {
        let set = BitRow::new(alloc, tiles)?;
        Ok(Marks { set })
    }

    /// Adds a tile.
    pub fn mark(&mut self, tile: u32)
        requires { tile < length self.old }
        ensures { self.new ≡ slice_set self.old tile true }
    {
        self.set.set(tile, true);
    }

    /// Adds all tiles that are near a tile: those of its tile row by whole words, and those of its tile column one by
    /// one.
    pub fn mark_near(&mut self, grid: &Grid, tile: u32)
        requires grid { length self.old ≡ tiles grid.now }
        requires tile { tile < length self.old }
        ensures set { self.new ≡ with_near grid.now tile self.old }
        ensures len { length self.new ≡ length self.old }
    {
        let across = grid.across();
        let column = tile % across;
        let row = tile / across;
        self.set
            .or_range(row * across, grid.near_columns(column), 0, across);
        mark_column(&mut self.set, grid.near_rows(row), across, column);
    }

    /// Takes a tile out of the set.
    pub fn clear(&mut self, tile: u32)
        requires { tile < length self.old }
        ensures { self.new ≡ slice_set self.old tile false }
    {
        self.set.set(tile, false);
    }

    /// Takes all tiles out of the set.
    pub fn clear_all(&mut self)
        ensures { self.new ≡ replicate (length self.old) false }
    {
        self.set.fill(false);
    }

    /// Whether a tile is in the set.
    pub fn has(&self, tile: u32) -> bool
        requires { tile < length self.now }
        ensures { result ≡ slice_index_or self.now tile false }
    {
        self.set.get(tile)
    }

    /// The set as a row with a position for each tile.
    pub fn row(&self) -> &BitRow
        ensures { result.now ≡ self.now }
    {
        &self.set
    }

    /// How many tiles the set has.
    pub fn count(&self) -> u32
        ensures { result ≡ count_by (λ b. b) self.now }
    {
        self.set.count()
    }

    /// The first tile of the set from `from` on, which may be any number, and where there is none the first tile of the
    /// set. There is no answer exactly where the set is empty.
    pub fn next(&self, from: u32) -> Option<u32>
        ensures some { IfSome result (λ tile. IsNext self.now from tile) }
        ensures none { IsNone result ↔ NoneFrom self.now 0 }
    {
        match self.set.next_true(from) {
            Some(tile) => Some(tile),
            None => self.set.next_true(0),
        }
    }
}
