//! The bits of the lines that cross a tile.
ghost use Rattle.std.specs.Prelude.{◌≡◌, ◌≢◌, ◌↔◌, ℕ, ◌+◌, ◌<◌, ◌≤◌, true, length, IfOk, IsTrue};
ghost use Rattle.mill_base.specs.Grids.{grid_cell, grid_row};
ghost use Rattle.point_paper.specs.Papers.{bit_cell, bit_row};
ghost use Rattle.tile_rebuild.specs.Lines.{AreBitsOf, HaveBitRoom};
ghost use Rattle.tile_rebuild.specs.Tiles.{IsInside};

use crate::part::Part;
use mill_base::bit_grid::BitGrid;
use mill_base::memory::OutOfMemory;
use mill_base::size::Size;
use point_paper::bit_paper::BitPaper;
use std::alloc::Global;

/// The truth values of the picks that cross a tile, over all columns, and of the columns that cross it, over all picks: a row for each
/// line, from the tile's first pick and its first column on.
#[derive(Drop)]
pub struct BitLines {
    pub picks: BitGrid,
    pub columns: BitGrid,
}

impl BitLines {
    /// Room for so many picks and so many columns of a paper.
    pub fn new(alloc: Global, size: Size, side: u32) -> Result<BitLines, OutOfMemory>
        ensures picks { IfOk result (λ l. (l.picks.width ≡ size.columns) × (length l.picks.rows ≡ side)) }
        ensures columns { IfOk result (λ l. (l.columns.width ≡ size.picks) × (length l.columns.rows ≡ side)) }
    {
        let picks = BitGrid::new(alloc, size.columns, side)?;
        let columns = BitGrid::new(alloc, size.picks, side)?;
        Ok(BitLines { picks, columns })
    }

    /// Copies the lines that cross a part of a bit paper. It takes no memory.
    pub fn copy(&mut self, part: Part, bits: &BitPaper)
        requires part { IsInside bits.now.columns (length bits.now.rows) part }
        requires room { HaveBitRoom bits.now.columns (length bits.now.rows) part self.old.picks self.old.columns }
        ensures lines { AreBitsOf part bits.now self.new.picks self.new.columns }
        ensures picks { (self.new.picks.width ≡ self.old.picks.width) × (length self.new.picks.rows ≡ length self.old.picks.rows) }
        ensures columns { (self.new.columns.width ≡ self.old.columns.width) × (length self.new.columns.rows ≡ length self.old.columns.rows) }
    {
        copy_picks(part, bits, &mut self.picks);
        copy_columns(part, bits, &mut self.columns);
    }

    /// Whether the lines are those that cross a part of a bit paper. It takes no memory.
    pub fn agree(&self, part: Part, bits: &BitPaper) -> bool
        requires part { IsInside bits.now.columns (length bits.now.rows) part }
        requires room { HaveBitRoom bits.now.columns (length bits.now.rows) part self.now.picks self.now.columns }
        ensures { IsTrue result ↔ AreBitsOf part bits.now self.now.picks self.now.columns }
    {
        if !same_picks(part, bits, &self.picks) {
            return false;
        }
        same_columns(part, bits, &self.columns)
    }
}

pub(crate) fn copy_picks(part: Part, bits: &BitPaper, out: &mut BitGrid)
    requires part { IsInside bits.now.columns (length bits.now.rows) part }
    requires wide { out.old.width ≡ bits.now.columns }
    requires high { part.height ≤ length out.old.rows }
    ensures width { out.new.width ≡ out.old.width }
    ensures height { length out.new.rows ≡ length out.old.rows }
    ensures rows { (b : ℕ) → b < part.height → grid_row out.new b ≡ bit_row bits.now (part.pick + b) }
{
    for b in 0..part.height {
        out.set_row(b, bits.row(part.pick + b));
    }
}

fn copy_columns(part: Part, bits: &BitPaper, out: &mut BitGrid)
    requires part { IsInside bits.now.columns (length bits.now.rows) part }
    requires wide { out.old.width ≡ length bits.now.rows }
    requires high { part.width ≤ length out.old.rows }
    ensures width { out.new.width ≡ out.old.width }
    ensures height { length out.new.rows ≡ length out.old.rows }
    ensures cells { (a y : ℕ) → a < part.width → y < length bits.now.rows → grid_cell out.new y a ≡ bit_cell bits.now (part.column + a) y }
{
    for a in 0..part.width {
        copy_column(bits, part.column + a, out, a);
    }
}

// A column of the paper becomes a row of the grid.
fn copy_column(bits: &BitPaper, column: u32, out: &mut BitGrid, row: u32)
    requires column { column < bits.now.columns }
    requires wide { out.old.width ≡ length bits.now.rows }
    requires row { row < length out.old.rows }
    ensures width { out.new.width ≡ out.old.width }
    ensures height { length out.new.rows ≡ length out.old.rows }
    ensures here { (y : ℕ) → y < length bits.now.rows → grid_cell out.new y row ≡ bit_cell bits.now column y }
    ensures others { (j : ℕ) → j ≢ row → grid_row out.new j ≡ grid_row out.old j }
{
    for pick in 0..out.width() {
        out.set(pick, row, bits.get(column, pick));
    }
}

fn same_picks(part: Part, bits: &BitPaper, kept: &BitGrid) -> bool
    requires part { IsInside bits.now.columns (length bits.now.rows) part }
    requires wide { kept.now.width ≡ bits.now.columns }
    requires high { part.height ≤ length kept.now.rows }
    ensures same { result ≡ true → (b : ℕ) → b < part.height → grid_row kept.now b ≡ bit_row bits.now (part.pick + b) }
    ensures differ { ((b x : ℕ) → b < part.height → x < bits.now.columns → grid_cell kept.now x b ≡ bit_cell bits.now x (part.pick + b)) → result ≡ true }
{
    for b in 0..part.height {
        let row = kept.row(b);
        if !row.equals(bits.row(part.pick + b)) {
            return false;
        }
    }
    true
}

fn same_columns(part: Part, bits: &BitPaper, kept: &BitGrid) -> bool
    requires part { IsInside bits.now.columns (length bits.now.rows) part }
    requires wide { kept.now.width ≡ length bits.now.rows }
    requires high { part.width ≤ length kept.now.rows }
    ensures same { result ≡ true → (a y : ℕ) → a < part.width → y < length bits.now.rows → grid_cell kept.now y a ≡ bit_cell bits.now (part.column + a) y }
    ensures differ { ((a y : ℕ) → a < part.width → y < length bits.now.rows → grid_cell kept.now y a ≡ bit_cell bits.now (part.column + a) y) → result ≡ true }
{
    for a in 0..part.width {
        if !same_column(bits, part.column + a, kept, a) {
            return false;
        }
    }
    true
}

fn same_column(bits: &BitPaper, column: u32, kept: &BitGrid, row: u32) -> bool
    requires column { column < bits.now.columns }
    requires wide { kept.now.width ≡ length bits.now.rows }
    requires row { row < length kept.now.rows }
    ensures same { result ≡ true → (y : ℕ) → y < length bits.now.rows → grid_cell kept.now y row ≡ bit_cell bits.now column y }
    ensures differ { ((y : ℕ) → y < length bits.now.rows → grid_cell kept.now y row ≡ bit_cell bits.now column y) → result ≡ true }
{
    for pick in 0..kept.width() {
        if kept.get(pick, row) != bits.get(column, pick) {
            return false;
        }
    }
    true
}
