//! Numbers that look random, the same at each run.
ghost use Rattle.std.specs.Prelude.{◌≡◌, ◌<◌, length, IfOk, All};

use mill_base::bit_row::BitRow;
use mill_base::memory::OutOfMemory;
use std::alloc::Global;

/// Marsaglia's generator of 64 bits by three shifts.
#[derive(Drop)]
pub struct Random {
    state: u64,
}

impl Random {
    /// The generator at its first number.
    pub fn new() -> Random {
        Random {
            state: 88_172_645_463_325_252,
        }
    }

    /// The next number.
    pub fn next(&mut self) -> u64 {
        let mut x = self.state;
        x ^= x << 13;
        x ^= x >> 7;
        x ^= x << 17;
        self.state = x;
        x
    }
}

/// A row of so many cells.
pub fn row(alloc: Global, len: u32) -> Result<BitRow, OutOfMemory>
    ensures { IfOk result (λ r. length r ≡ len) }
{
    let mut random = Random::new();
    let mut row = BitRow::new(alloc, len)?;
    for at in 0..len.div_ceil(64) {
        row.put_word(at, random.next());
    }
    Ok(row)
}

/// So many numbers, each below `below`.
pub fn bytes(alloc: Global, len: u32, below: u8) -> Result<Vec<u8>, OutOfMemory>
    requires some { 0 < below }
    ensures len { IfOk result (λ v. length v.items ≡ len) }
    ensures below { IfOk result (λ v. All (λ byte. byte < below) v.items) }
{
    let mut random = Random::new();
    let mut bytes = Vec::with_capacity(alloc, len as usize)?;
    for count in 0..len {
        bytes.push((random.next() % below as u64) as u8)?;
    }
    Ok(bytes)
}
