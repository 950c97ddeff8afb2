//! A motif: cells of colours, some of which are not painted.
ghost use Rattle.std.specs.Prelude.{◌≡◌, ◌+◌, ◌*◌, ◌<◌, ◌↔◌, take, drop, length, IfOk, IsTrue};
ghost use Rattle.strokes.specs.Cells.{IsMotif, no_motif};

use mill_base::memory::OutOfMemory;
use mill_base::size::Size;
use std::alloc::Global;
use std::marker::Model;

/// A motif of so many columns and picks, which contracts see as its cells. Each cell has a colour number, or None where
/// it is not painted. Columns are counted from the left and picks from the bottom, both from 0.
#[derive(Drop)]
pub struct Motif {
    size: Size,
    cells: Vec<Option<u8>>,
}

impl Model for Motif {
    ghost use Rattle.std.specs.Prelude.{◌≡◌, ◌*◌, length};
    ghost use Rattle.strokes.specs.Cells.{MotifCells};

    ghost Value = { MotifCells };

    ghost view = { λ m. record { columns = m.size.columns; picks = m.size.picks; cells = m.cells.items } };

    ghost invariant = { λ m. length m.cells.items ≡ m.size.picks * m.size.columns };
}

impl Motif {
    /// The motif of these cells, pick by pick from the lowest, each pick from the left.
    pub(crate) fn of(size: Size, cells: Vec<Option<u8>>) -> Motif
        requires { length cells.items ≡ size.picks * size.columns }
        ensures { result ≡ record { columns = size.columns; picks = size.picks; cells = cells.items } }
    {
        Motif { size, cells }
    }

    /// The motif without a cell, which takes no memory.
    pub(crate) fn none(alloc: Global) -> Motif
        ensures { result ≡ no_motif }
    {
        Motif {
            size: Size {
                columns: 0,
                picks: 0,
            },
            cells: Vec::new(alloc),
        }
    }

    /// Whether the motif is the one without a cell.
    pub(crate) fn is_none(&self) -> bool
        ensures { IsTrue result ↔ (self.now ≡ no_motif) }
    {
        self.size.columns == 0 && self.size.picks == 0
    }

    /// How many columns and picks the motif has.
    pub fn size(&self) -> Size
        ensures size { result ≡ record { columns = self.now.columns; picks = self.now.picks } }
        ensures whole { IsMotif self.now }
    {
        self.size
    }

    /// The cells of a pick, from column 0 on.
    pub fn pick(&self, pick: u32) -> &[Option<u8>]
        requires { pick < self.now.picks }
        ensures { result.now ≡ take self.now.columns (drop (pick * self.now.columns) self.now.cells) }
    {
        let columns = self.size.columns as usize;
        let at = pick as usize * columns;
        &self.cells[at..at + columns]
    }

    /// Whether two motifs have one size, and the same cells.
    pub fn equals(&self, other: &Motif) -> bool
        ensures { IsTrue result ↔ (self.now ≡ other.now) }
    {
        self.size == other.size && same_cells(&self.cells, &other.cells)
    }

    /// An equal motif in memory of its own.
    pub fn copy(&self) -> Result<Motif, OutOfMemory>
        ensures { IfOk result (λ m. m ≡ self.now) }
    {
        let cells = Vec::from_slice(*self.cells.allocator(), &self.cells)?;
        Ok(Motif {
            size: self.size,
            cells,
        })
    }
}

fn same_cells(one: &[Option<u8>], other: &[Option<u8>]) -> bool
    ensures { IsTrue result ↔ (one.now ≡ other.now) }
{
    one == other
}
