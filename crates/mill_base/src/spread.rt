//! Rows in bytes, one position to a byte.
ghost use Rattle.std.specs.Prelude.{◌≡◌, ◌≢◌, ◌+◌, ◌-◌, ◌*◌, ◌/◌, ◌%◌, ◌<◌, ◌≤◌, ◌==◌, ℕ, length, map, slice_index, if◌then◌else◌};
ghost use Rattle.std.specs.Int.{bit_at};
ghost use Rattle.mill_base.specs.Bits.{bit_of};

use crate::bit_row::BitRow;
use std::simd::prelude::*;

/// The bit that each of 16 lanes has of its byte.
const LANE_BITS: [u8; 16] = [1, 2, 4, 8, 16, 32, 64, 128, 1, 2, 4, 8, 16, 32, 64, 128];

/// Writes a byte for each position of a row: one where it is true, and another where it is not.
pub fn spread(row: &BitRow, on: u8, off: u8, out: &mut [u8])
    requires { length out.old ≡ length row.now }
    ensures { out.new ≡ map (λ cell. if cell then on else off) row.now }
{
    spread_words(row.words(), on, off, out);
}

fn spread_words(words: &[u64], on: u8, off: u8, out: &mut [u8])
    requires { length out.old ≤ 64 * length words.now }
    ensures len { length out.new ≡ length out.old }
    ensures bytes { (k : ℕ) → k < length out.old → slice_index out.new k ≡ (if bit_of words.now k then on else off) }
{
    let whole = out.len() / 64;
    for index in 0..whole {
        put_word(out, index, words[index], on, off);
    }
    if out.len() % 64 == 0 {
        return;
    }
    put_rest(out, 64 * whole, words[whole], on, off);
}

/// Puts as many of the bytes of a word from byte `at` on as there is room for.
fn put_rest(out: &mut [u8], at: usize, word: u64, on: u8, off: u8)
    requires at { at ≤ length out.old }
    requires few { length out.old ≤ at + 64 }
    ensures len { length out.new ≡ length out.old }
    ensures here { (k : ℕ) → at ≤ k → k < length out.old → slice_index out.new k ≡ (if bit_at word (k - at) == 1 then on else off) }
    ensures below { (k : ℕ) → k < at → slice_index out.new k ≡ slice_index out.old k }
{
    let mut last = [0u8; 64];
    put_word(&mut last, 0, word, on, off);
    let rest = out.len() - at;
    out[at..].copy_from_slice(&last[..rest]);
}

fn put_word(out: &mut [u8], index: usize, word: u64, on: u8, off: u8)
    requires { 64 * index + 64 ≤ length out.old }
    ensures len { length out.new ≡ length out.old }
    ensures here { (k : ℕ) → k / 64 ≡ index → slice_index out.new k ≡ (if bit_at word (k % 64) == 1 then on else off) }
    ensures others { (k : ℕ) → k / 64 ≢ index → slice_index out.new k ≡ slice_index out.old k }
{
    for quarter in 0..4 {
        put_sixteen(out, 4 * index + quarter, word, on, off);
    }
}

/// Puts a quarter of the bytes of a word: the first where the number of the group is a multiple of 4.
fn put_sixteen(out: &mut [u8], group: usize, word: u64, on: u8, off: u8)
    requires { 16 * group + 16 ≤ length out.old }
    ensures len { length out.new ≡ length out.old }
    ensures here { (k : ℕ) → k / 16 ≡ group → slice_index out.new k ≡ (if bit_at word (k % 64) == 1 then on else off) }
    ensures others { (k : ℕ) → k / 16 ≢ group → slice_index out.new k ≡ slice_index out.old k }
{
    sixteen(word >> (16 * (group % 4)), on, off).copy_to_slice(&mut out[16 * group..]);
}

/// A byte for each of the lowest 16 bits.
fn sixteen(bits: u64, on: u8, off: u8) -> u8x16
    ensures len { length result ≡ 16 }
    ensures bytes { (i : ℕ) → i < 16 → slice_index result i ≡ (if bit_at bits i == 1 then on else off) }
{
    let both = u8x8::from_array(bits.to_le_bytes()).swizzle([
        0, 0, 0, 0, 0, 0, 0, 0, 1, 1, 1, 1, 1, 1, 1, 1,
    ]);
    let own = u8x16::from_array(LANE_BITS);
    (both & own)
        .simd_eq(own)
        .select(u8x16::splat(on), u8x16::splat(off))
}
