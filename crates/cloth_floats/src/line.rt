//! Lines that are followed cell by cell.
ghost use Rattle.std.specs.Prelude.{◌≡◌, ◌<◌, List, Bool, false, length, slice_index_or};

use mill_base::bit_row::BitRow;

/// A cyclic line that tells how many cells it has and what each of them is. A pick through a tie, or an end along a column, is
/// such a line without a row of its own.
pub trait Line {
    ghost cells: { Self → List Bool };

    /// How many cells it has.
    fn len(&self) -> u32
        ensures { result ≡ length (cells self.now) };

    /// Whether the cell at a position is lifted. Positions are counted from 0.
    fn cell(&self, k: u32) -> bool
        requires { k < length (cells self.now) }
        ensures { result ≡ slice_index_or (cells self.now) k false };
}

impl Line for BitRow {
    ghost cells = { λ row. row };

    fn len(&self) -> u32 {
        BitRow::len(self)
    }

    fn cell(&self, k: u32) -> bool {
        self.get(k)
    }
}
