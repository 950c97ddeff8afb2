//! Rows of bits that are turned by blocks of 64 by 64: columns become rows.
ghost use Rattle.std.specs.Prelude.{◌≡◌, ◌+◌, ◌*◌, ◌/◌, ◌^◌, ◌<◌, ◌==◌, ℕ, [], length, slice_index, slice_index_or};
ghost use Rattle.std.specs.Int.{bit_at};
ghost use Rattle.mill_base.specs.inner.GridBlocks.{HaveWord, IsWordPut, IsBlockPut, IsBlockTurned, IsBandTurned, AreBandsTurned};
ghost use Rattle.mill_base.specs.Grids.{row_cell};

use crate::bit_row::BitRow;
use crate::transpose::transpose;
use crate::word::word_at;

/// The 64 positions from 64 * at on of row k, all false where there is no such row.
fn word_of_row(rows: &[BitRow], k: usize, at: usize) -> u64
    ensures { (j : ℕ) → j < 64 → (bit_at result j == 1) ≡ row_cell rows.now (64 * at + j) k }
{
    if k >= rows.len() {
        return 0;
    }
    word_at(rows[k].words(), at)
}

/// Reads a block: word i has the 64 positions from 64 * at on of row 64 * band + i.
fn gather(rows: &[BitRow], band: u32, at: u32, block: &mut [u64; 64])
    ensures { (i j : ℕ) → i < 64 → j < 64 → (bit_at (slice_index block.new i) j == 1) ≡ row_cell rows.now (64 * at + j) (64 * band + i) }
{
    for i in 0..64 {
        block[i] = word_of_row(rows, 64 * band as usize + i, at as usize);
    }
}

/// Puts the 64 positions from 64 * at on of row k, where there is such a row.
fn put_word(rows: &mut [BitRow], k: usize, at: u32, word: u64)
    requires { HaveWord rows.old at }
    ensures { IsWordPut word k at rows.old rows.new }
{
    if k < rows.len() {
        rows[k].put_word(at, word);
    }
}

/// Puts a block: word i becomes the 64 positions from 64 * at on of row 64 * band + i, where there is such a row.
fn scatter(block: &[u64; 64], rows: &mut [BitRow], band: u32, at: u32)
    requires { HaveWord rows.old at }
    ensures { IsBlockPut block.now band at 64 rows.old rows.new }
{
    for i in 0..64 {
        put_word(rows, 64 * band as usize + i, at, block[i]);
    }
}

/// Turns one block: the rows of band `band` become columns.
fn turn_block(rows: &[BitRow], out: &mut [BitRow], band: u32, at: u32)
    requires { HaveWord out.old band }
    ensures { IsBlockTurned rows.now band at out.old out.new }
{
    let mut block = [0u64; 64];
    gather(rows, band, at, &mut block);
    transpose(&mut block);
    scatter(&block, out, at, band);
}

/// Turns the 64 rows of a band.
fn turn_band(rows: &[BitRow], out: &mut [BitRow], band: u32)
    requires room { HaveWord out.old band }
    requires few { length out.old < 2 ^ 32 }
    ensures { IsBandTurned rows.now band ((length out.old + 63) / 64) out.old out.new }
{
    for at in 0..(out.len() as u32).div_ceil(64) {
        turn_block(rows, out, band, at);
    }
}

/// Turns the first `height` rows, whose positions are as many as there are rows in `out`.
pub fn turn(rows: &[BitRow], height: u32, out: &mut [BitRow])
    requires few { length out.old < 2 ^ 32 }
    requires widths { (k : ℕ) → k < length out.old → length (slice_index_or out.old k []) ≡ height }
    ensures { AreBandsTurned rows.now ((height + 63) / 64) out.old out.new }
{
    for band in 0..height.div_ceil(64) {
        turn_band(rows, out, band);
    }
}
