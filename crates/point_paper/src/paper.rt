//! A point paper: a colour number in each column of each pick.
ghost use Rattle.std.specs.Prelude.{◌≡◌, ℕ, ◌+◌, ◌*◌, ◌<◌, ◌≤◌, ◌++◌, length, take, drop, replicate, slice_index, IfOk};
ghost use Rattle.point_paper.specs.Papers.{cell_of, line_of, line_cells, lines_of, paper_by, image_cell, after_span, IsPaper};

use mill_base::memory::OutOfMemory;
use mill_base::size::Size;
use mill_base::steps::Steps;
use std::alloc::Global;
use std::marker::Model;
use std::sync::ledger::Ledger;

/// Cells that lie side by side in one pick, from `column` to the right, and the colour number to paint them with.
#[derive(Clone, Copy, Debug, PartialEq, Eq)]
pub struct Span {
    pub column: u32,
    pub pick: u32,
    pub length: u32,
    pub colour: u8,
}

/// Which way a line of cells runs: along a pick from the left, or up a column from the lowest pick.
#[derive(Clone, Copy, Debug, PartialEq, Eq)]
pub enum LineKind {
    Pick,
    Column,
}

/// A point paper (the term is Watson's and Grosicki's) of C columns and P picks, a byte for each cell, which contracts
/// see as its cells. They are read by `cell` and `line` alone, and each reading is counted.
#[derive(Drop)]
pub struct Paper {
    size: Size,
    colours: Vec<u8>,
}

impl Model for Paper {
    ghost use Rattle.std.specs.Prelude.{◌≡◌, ◌*◌, length};
    ghost use Rattle.point_paper.specs.Papers.{PaperCells};

    ghost Value = { PaperCells };

    ghost view = { λ p. record { columns = p.size.columns; picks = p.size.picks; colours = p.colours.items } };

    ghost invariant = { λ p. length p.colours.items ≡ p.size.picks * p.size.columns };
}

impl Paper {
    /// A paper with one colour number everywhere.
    pub fn blank(alloc: Global, size: Size, colour: u8) -> Result<Paper, OutOfMemory>
        ensures { IfOk result (λ p. p ≡ paper_by size.columns size.picks (λ column pick. colour)) }
    {
        let cells = size.picks as usize * size.columns as usize;
        let colours = Vec::from_elem(alloc, colour, cells)?;
        Ok(Paper { size, colours })
    }

    /// The paper of an image with one pixel for each cell, row by row from the top. The image's top row is the paper's
    /// highest pick, by a rule of this project's own.
    pub fn from_rows(alloc: Global, size: Size, pixels: &[u8]) -> Result<Paper, OutOfMemory>
        requires { length pixels.now ≡ size.picks * size.columns }
        ensures { IfOk result
            (λ p. p ≡ paper_by size.columns size.picks (image_cell size.columns size.picks pixels.now)) }
    {
        let columns = size.columns as usize;
        let picks = size.picks as usize;
        let mut colours = Vec::with_capacity(alloc, pixels.len())?;
        for pick in 0..picks {
            let row = (picks - 1 - pick) * columns;
            colours.extend_from_slice(&pixels[row..row + columns])?;
        }
        Ok(Paper { size, colours })
    }

    /// How many columns and picks the paper has.
    pub fn size(&self) -> Size
        ensures size { result ≡ record { columns = self.now.columns; picks = self.now.picks } }
        ensures whole { IsPaper self.now }
    {
        self.size
    }

    /// The colour number of the cell in a column of a pick. The counter ticks once.
    pub fn cell<L: Ledger>(&self, column: u32, pick: u32, steps: &mut Steps<L>) -> u8
        requires column { column < self.now.columns }
        requires pick { pick < self.now.picks }
        ensures cell { result ≡ cell_of self.now column pick }
        ensures steps { steps.new ≡ steps.old + 1 }
    {
        steps.tick();
        self.colours[pick as usize * self.size.columns as usize + column as usize]
    }

    /// Puts the colour numbers of a whole pick, from column 0 on, or of a whole column, from pick 0 on, into `out`,
    /// which has as many bytes as the line has cells. The counter ticks once for each cell.
    pub fn line<L: Ledger>(&self, kind: LineKind, index: u32, out: &mut [u8], steps: &mut Steps<L>)
        requires index { index < lines_of kind self.now }
        requires out { length out.old ≡ line_cells kind self.now }
        ensures cells { out.new ≡ line_of kind self.now index }
        ensures steps { steps.new ≡ steps.old + line_cells kind self.now }
    {
        steps.tick_times(out.len() as u64);
        let columns = self.size.columns as usize;
        match kind {
            LineKind::Pick => copy_pick(&self.colours, index as usize * columns, out),
            LineKind::Column => copy_column(&self.colours, columns, index as usize, out),
        }
    }

    /// Paints the cells of a span, which lie inside the paper. All other cells stay.
    pub fn paint_span(&mut self, span: &Span)
        requires pick { span.now.pick < self.old.picks }
        requires columns { span.now.column + span.now.length ≤ self.old.columns }
        ensures { self.new ≡ paper_by self.old.columns self.old.picks (after_span self.old span.now) }
    {
        let at = span.pick as usize * self.size.columns as usize + span.column as usize;
        fill_part(&mut self.colours, at, span.length as usize, span.colour);
    }

    /// An equal paper in memory of its own.
    pub fn copy(&self) -> Result<Paper, OutOfMemory>
        ensures { IfOk result (λ p. p ≡ self.now) }
    {
        let colours = Vec::from_slice(*self.colours.allocator(), &self.colours)?;
        Ok(Paper {
            size: self.size,
            colours,
        })
    }
}

// One copy of a slice.
fn copy_pick(colours: &[u8], at: usize, out: &mut [u8])
    requires { at + length out.old ≤ length colours.now }
    ensures { out.new ≡ take (length out.old) (drop at colours.now) }
{
    out.copy_from_slice(&colours[at..at + out.len()]);
}

// One pass that goes up by a pick at each cell.
fn copy_column(colours: &[u8], columns: usize, column: usize, out: &mut [u8])
    requires column { column < columns }
    requires picks { length out.old * columns ≤ length colours.now }
    ensures { (pick : ℕ) → pick < length out.old
        → slice_index out.new pick ≡ slice_index colours.now (pick * columns + column) }
{
    for (pick, cell) in out.iter_mut().enumerate() {
        *cell = colours[pick * columns + column];
    }
}

fn fill_part(colours: &mut Vec<u8>, at: usize, count: usize, colour: u8)
    requires { at + count ≤ length colours.old.items }
    ensures { colours.new.items
        ≡ take at colours.old.items ++ (replicate count colour ++ drop (at + count) colours.old.items) }
{
    colours[at..at + count].fill(colour);
}
