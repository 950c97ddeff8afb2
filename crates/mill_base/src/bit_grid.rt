//! Rows of bits of one width.
ghost use Rattle.std.specs.Prelude.{◌≡◌, ◌<◌, false, length, replicate, slice_set, IfOk, IsTrue, ◌↔◌};
ghost use Rattle.mill_base.specs.Grids.{IsGrid, grid_row, grid_cell, transposed};

use crate::bit_row::BitRow;
use crate::grid_blocks;
use crate::memory::OutOfMemory;
use std::alloc::Global;
use std::marker::Model;

/// Rows of truth values that all have as many positions, which contracts see as the width and the list of the rows.
#[derive(Drop)]
pub struct BitGrid {
    width: u32,
    rows: Vec<BitRow>,
}

impl Model for BitGrid {
    ghost use Rattle.std.specs.Prelude.{◌^◌, ◌<◌, length};
    ghost use Rattle.mill_base.specs.Grids.{GridCells, IsGrid};

    ghost Value = { GridCells };

    ghost view = { λ g. record { width = g.width; rows = g.rows.items } };

    ghost invariant = { λ g. (length g.rows.items < 2 ^ 32) × IsGrid (record { width = g.width; rows = g.rows.items }) };
}

impl BitGrid {
    /// So many rows of so many positions, all false.
    pub fn new(alloc: Global, width: u32, height: u32) -> Result<BitGrid, OutOfMemory>
        ensures { IfOk result (λ g. g ≡ record { width = width; rows = replicate height (replicate width false) }) }
    {
        let mut rows = Vec::with_capacity(alloc, height as usize)?;
        for _ in 0..height {
            rows.push(BitRow::new(alloc, width)?)?;
        }
        Ok(BitGrid { width, rows })
    }

    /// How many positions each row has.
    pub fn width(&self) -> u32
        ensures width { result ≡ self.now.width }
        ensures whole { IsGrid self.now }
    {
        self.width
    }

    /// How many rows there are.
    pub fn height(&self) -> u32
        ensures { result ≡ length self.now.rows }
    {
        self.rows.len() as u32
    }

    /// The rows from row 0 on.
    pub fn rows(&self) -> &[BitRow]
        ensures rows { result.now ≡ self.now.rows }
        ensures whole { IsGrid self.now }
    {
        &self.rows
    }

    /// Row k, counted from 0.
    pub fn row(&self, k: u32) -> &BitRow
        requires { k < length self.now.rows }
        ensures row { result.now ≡ grid_row self.now k }
        ensures width { length result.now ≡ self.now.width }
    {
        &self.rows[k as usize]
    }

    /// The truth value in a column of row k.
    pub fn get(&self, column: u32, k: u32) -> bool
        requires column { column < self.now.width }
        requires row { k < length self.now.rows }
        ensures { result ≡ grid_cell self.now column k }
    {
        self.rows[k as usize].get(column)
    }

    /// Sets the truth value in a column of row k. All others stay.
    pub fn set(&mut self, column: u32, k: u32, value: bool)
        requires column { column < self.old.width }
        requires row { k < length self.old.rows }
        ensures { self.new ≡ record self.old { rows = slice_set self.old.rows k (slice_set (grid_row self.old k) column value) } }
    {
        self.rows[k as usize].set(column, value);
    }

    /// Takes over the truth values of a row of the width as row k. All other rows stay, and no memory is taken.
    pub fn set_row(&mut self, k: u32, row: &BitRow)
        requires row { k < length self.old.rows }
        requires width { length row.now ≡ self.old.width }
        ensures { self.new ≡ record self.old { rows = slice_set self.old.rows k row.now } }
    {
        self.rows[k as usize].copy_from(row);
    }

    /// Writes the columns of this grid as the rows of another, which has a row for each column here and a column for each row here.
    /// No memory is taken.
    pub fn transpose_into(&self, out: &mut BitGrid)
        requires width { out.old.width ≡ length self.now.rows }
        requires height { length out.old.rows ≡ self.now.width }
        ensures columns { out.new ≡ transposed self.now }
        ensures height { length out.new.rows ≡ self.now.width }
    {
        grid_blocks::turn(&self.rows, self.height(), &mut out.rows);
    }

    /// Whether two grids have one width and the same rows.
    pub fn equals(&self, other: &BitGrid) -> bool
        ensures { IsTrue result ↔ (self.now ≡ other.now) }
    {
        self.width == other.width && same_rows(&self.rows, &other.rows)
    }

    /// An equal grid in memory of its own.
    pub fn copy(&self) -> Result<BitGrid, OutOfMemory>
        ensures { IfOk result (λ g. g ≡ self.now) }
    {
        let mut rows = Vec::with_capacity(*self.rows.allocator(), self.rows.len())?;
        for row in &self.rows {
            rows.push(row.copy()?)?;
        }
        Ok(BitGrid {
            width: self.width,
            rows,
        })
    }
}

fn same_rows(one: &[BitRow], other: &[BitRow]) -> bool
    ensures { IsTrue result ↔ (one.now ≡ other.now) }
{
    if one.len() != other.len() {
        return false;
    }
    for k in 0..one.len() {
        if !one[k].equals(&other[k]) {
            return false;
        }
    }
    true
}
