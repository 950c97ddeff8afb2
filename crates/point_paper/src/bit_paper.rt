//! A paper of truth values: a row of bits for each pick.
ghost use Rattle.std.specs.Prelude.{◌≡◌, ◌<◌, false, length, replicate, slice_set, IfOk};
ghost use Rattle.point_paper.specs.Papers.{bit_cell, bit_row, IsBitPaper};

use mill_base::bit_grid::BitGrid;
use mill_base::bit_row::BitRow;
use mill_base::memory::OutOfMemory;
use mill_base::size::Size;
use std::alloc::Global;
use std::marker::Model;

/// A paper of C columns and P picks with a truth value in each cell, a bit of a word for each, which contracts
/// see as its rows from the lowest pick on.
#[derive(Drop)]
pub struct BitPaper {
    grid: BitGrid,
}

impl Model for BitPaper {
    ghost use Rattle.point_paper.specs.Papers.{BitCells};

    ghost Value = { BitCells };

    ghost view = { λ b. record { columns = b.grid.width; rows = b.grid.rows } };
}

impl BitPaper {
    /// A paper that is false everywhere.
    pub fn new(alloc: Global, size: Size) -> Result<BitPaper, OutOfMemory>
        ensures { IfOk result
            (λ b. b ≡ record { columns = size.columns; rows = replicate size.picks (replicate size.columns false) }) }
    {
        let grid = BitGrid::new(alloc, size.columns, size.picks)?;
        Ok(BitPaper { grid })
    }

    /// How many columns and picks the paper has.
    pub fn size(&self) -> Size
        ensures size { result ≡ record { columns = self.now.columns; picks = length self.now.rows } }
        ensures whole { IsBitPaper self.now }
    {
        Size {
            columns: self.grid.width(),
            picks: self.grid.height(),
        }
    }

    /// The row of a pick, from column 0 on.
    pub fn row(&self, pick: u32) -> &BitRow
        requires { pick < length self.now.rows }
        ensures row { result.now ≡ bit_row self.now pick }
        ensures columns { length result.now ≡ self.now.columns }
    {
        self.grid.row(pick)
    }

    /// The rows from the lowest pick on.
    pub fn rows(&self) -> &[BitRow]
        ensures rows { result.now ≡ self.now.rows }
        ensures whole { IsBitPaper self.now }
    {
        self.grid.rows()
    }

    /// The truth value of the cell in a column of a pick.
    pub fn get(&self, column: u32, pick: u32) -> bool
        requires column { column < self.now.columns }
        requires pick { pick < length self.now.rows }
        ensures { result ≡ bit_cell self.now column pick }
    {
        self.grid.get(column, pick)
    }

    /// Sets the truth value of the cell in a column of a pick. All other cells stay.
    pub fn set(&mut self, column: u32, pick: u32, value: bool)
        requires column { column < self.old.columns }
        requires pick { pick < length self.old.rows }
        ensures { self.new
            ≡ record self.old { rows = slice_set self.old.rows pick (slice_set (bit_row self.old pick) column value) } }
    {
        self.grid.set(column, pick, value);
    }

    /// Takes over a whole row of as many columns. All other rows stay, and no memory is taken.
    pub fn set_row(&mut self, pick: u32, row: &BitRow)
        requires pick { pick < length self.old.rows }
        requires columns { length row.now ≡ self.old.columns }
        ensures { self.new ≡ record self.old { rows = slice_set self.old.rows pick row.now } }
    {
        self.grid.set_row(pick, row);
    }

    /// An equal paper in memory of its own.
    pub fn copy(&self) -> Result<BitPaper, OutOfMemory>
        ensures { IfOk result (λ b. b ≡ self.now) }
    {
        let grid = self.grid.copy()?;
        Ok(BitPaper { grid })
    }
}
