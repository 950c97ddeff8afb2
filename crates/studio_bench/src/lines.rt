//! The long cells of a line.
ghost use Rattle.std.specs.Prelude.{◌≡◌, ◌<◌, length};

use crate::random;
use cloth_floats::long_cells;
use mill_base::bit_row::BitRow;
use std::alloc::Global;

/// The limit of every float.
const LIMIT: u32 = 15;

/// A line of random cells, and which of them are long.
#[derive(Drop)]
pub struct FloatLine {
    line: BitRow,
    long: BitRow,
    ghost fits: { length long ≡ length line },
    ghost some: { 0 < length line },
}

impl FloatLine {
    /// A line of so many cells; `None` where there are none or memory is refused.
    pub fn new(alloc: Global, len: u32) -> Option<FloatLine> {
        if len == 0 {
            return None;
        }
        let line = random::row(alloc, len).ok()?;
        let long = random::row(alloc, len).ok()?;
        Some(FloatLine { line, long })
    }

    /// Finds the long cells so many times.
    pub fn long_cells(&mut self, rounds: u32) -> u32 {
        for _ in 0..rounds {
            long_cells(&self.line, LIMIT, LIMIT, &mut self.long);
        }
        self.long.count()
    }
}
