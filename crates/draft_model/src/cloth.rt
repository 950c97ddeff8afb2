//! One repeat of a cloth.
ghost use Rattle.std.specs.Prelude.{◌≡◌, ◌<◌, false, length, replicate, slice_set, slice_index_or, [], IfOk, All};

use mill_base::bit_grid::BitGrid;
use mill_base::bit_row::BitRow;
use mill_base::memory::OutOfMemory;
use std::alloc::Global;
use std::marker::Model;

/// One repeat of a cloth of E ends and P picks, which contracts see as its rows from pick 0 (the bottom) on. A row has a bit for each
/// end, from the left: whether the end is lifted at that pick.
#[derive(Drop)]
pub struct Cloth {
    grid: BitGrid,
}

impl Model for Cloth {
    ghost use Rattle.draft_model.specs.Cloths.{ClothCells};

    ghost Value = { ClothCells };

    ghost view = { λ c. record { ends = c.grid.width; rows = c.grid.rows } };
}

impl Cloth {
    ghost use Rattle.draft_model.specs.Cloths.{IsCloth};

    /// A cloth in which no end is lifted.
    pub fn blank(alloc: Global, ends: u32, picks: u32) -> Result<Cloth, OutOfMemory>
        ensures { IfOk result (λ c. c ≡ record { ends = ends; rows = replicate picks (replicate ends false) }) }
    {
        let grid = BitGrid::new(alloc, ends, picks)?;
        Ok(Cloth { grid })
    }

    /// How many ends the cloth has; each row has as many bits.
    pub fn ends(&self) -> u32
        ensures ends { result ≡ self.now.ends }
        ensures rows { IsCloth self.now }
    {
        self.grid.width()
    }

    /// How many picks the cloth has.
    pub fn picks(&self) -> u32
        ensures { result ≡ length self.now.rows }
    {
        self.grid.height()
    }

    /// The row of a pick, end 0 first.
    pub fn row(&self, pick: u32) -> &BitRow
        requires { pick < length self.now.rows }
        ensures row { result.now ≡ slice_index_or self.now.rows pick [] }
        ensures ends { length result.now ≡ self.now.ends }
    {
        self.grid.row(pick)
    }

    /// Sets the row of a pick, of as many positions as there are ends, and leaves the others.
    pub fn set_row(&mut self, pick: u32, row: &BitRow)
        requires pick { pick < length self.old.rows }
        requires ends { length row.now ≡ self.old.ends }
        ensures { self.new ≡ record self.old { rows = slice_set self.old.rows pick row.now } }
    {
        self.grid.set_row(pick, row);
    }

    /// An equal cloth in memory of its own.
    pub fn copy(&self) -> Result<Cloth, OutOfMemory>
        ensures { IfOk result (λ c. c ≡ self.now) }
    {
        let grid = self.grid.copy()?;
        Ok(Cloth { grid })
    }
}
