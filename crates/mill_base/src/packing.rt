//! Rows in bytes, eight positions to a byte with the first in its highest bit.
ghost use Rattle.std.specs.Prelude.{◌^◌, ◌≡◌, ◌≢◌, ◌+◌, ◌-◌, ◌*◌, ◌/◌, ◌%◌, ◌<◌, ◌≤◌, ◌==◌, ℕ, length, slice_index};
ghost use Rattle.std.specs.Int.{bit_at};
ghost use Rattle.mill_base.specs.Bits.{bit_of, IsRow};

use crate::row_words::clear_past;
use crate::word::reversed_bytes;

/// The eight bytes of a word, each with its first bit highest.
fn bytes_of(word: u64) -> [u8; 8]
    ensures { (b i : ℕ) → b < 8 → i < 8 → bit_at (slice_index result b) i ≡ bit_at word (8 * b + 7 - i) }
{
    reversed_bytes(word).to_le_bytes()
}

fn put_eight(out: &mut [u8], index: usize, bytes: &[u8; 8])
    requires { 8 * index + 8 ≤ length out.old }
    ensures len { length out.new ≡ length out.old }
    ensures here { (j : ℕ) → j / 8 ≡ index → slice_index out.new j ≡ slice_index bytes.now (j % 8) }
    ensures others { (j : ℕ) → j / 8 ≢ index → slice_index out.new j ≡ slice_index out.old j }
{
    let place = &mut out[8 * index..8 * index + 8];
    place[0] = bytes[0];
    place[1] = bytes[1];
    place[2] = bytes[2];
    place[3] = bytes[3];
    place[4] = bytes[4];
    place[5] = bytes[5];
    place[6] = bytes[6];
    place[7] = bytes[7];
}

/// Puts as many of eight bytes from byte `at` on as there is room for.
fn put_rest(out: &mut [u8], at: usize, bytes: &[u8; 8])
    requires at { at ≤ length out.old }
    requires few { length out.old ≤ at + 8 }
    ensures len { length out.new ≡ length out.old }
    ensures here { (j : ℕ) → at ≤ j → j < length out.old → slice_index out.new j ≡ slice_index bytes.now (j - at) }
    ensures below { (j : ℕ) → j < at → slice_index out.new j ≡ slice_index out.old j }
{
    let rest = out.len() - at;
    out[at..].copy_from_slice(&bytes[..rest]);
}

/// Writes the bytes of the words, as many as there is room for.
pub fn pack(words: &[u64], out: &mut [u8])
    requires { length out.old ≤ 8 * length words.now }
    ensures { (j i : ℕ) → j < length out.old → i < 8 → bit_at (slice_index out.new j) i ≡ bit_at (slice_index words.now (j / 8)) (8 * (j % 8) + 7 - i) }
{
    let whole = out.len() / 8;
    for index in 0..whole {
        put_eight(out, index, &bytes_of(words[index]));
    }
    if out.len() % 8 == 0 {
        return;
    }
    put_rest(out, 8 * whole, &bytes_of(words[whole]));
}

/// The eight bytes from byte `at` on, where they are all there.
fn whole_eight(bytes: &[u8], at: usize) -> [u8; 8]
    requires { at + 8 ≤ length bytes.now }
    ensures { (j : ℕ) → j < 8 → slice_index result j ≡ slice_index bytes.now (at + j) }
{
    let eight = &bytes[at..at + 8];
    [
        eight[0], eight[1], eight[2], eight[3], eight[4], eight[5], eight[6], eight[7],
    ]
}

fn byte_or_zero(bytes: &[u8], at: usize) -> u8
    ensures { result ≡ slice_index bytes.now at }
{
    if at < bytes.len() { bytes[at] } else { 0 }
}

/// The eight bytes from byte `at` on, 0 past the last.
fn eight_from(bytes: &[u8], at: usize) -> [u8; 8]
    requires { at < 2 ^ 62 }
    ensures { (j : ℕ) → j < 8 → slice_index result j ≡ slice_index bytes.now (at + j) }
{
    if at + 8 <= bytes.len() {
        return whole_eight(bytes, at);
    }
    let mut eight = [0u8; 8];
    for j in 0..8 {
        eight[j] = byte_or_zero(bytes, at + j);
    }
    eight
}

/// The word of eight bytes from byte 8 * index on, each with its first bit highest.
fn word_of(bytes: &[u8], index: usize) -> u64
    requires { index < 2 ^ 32 }
    ensures { (i : ℕ) → i < 64 → bit_at result i ≡ bit_at (slice_index bytes.now (8 * index + i / 8)) (7 - i % 8) }
{
    reversed_bytes(u64::from_le_bytes(eight_from(bytes, 8 * index)))
}

/// Reads the first `len` bits from packed bytes.
pub fn unpack(words: &mut Vec<u64>, len: u32, bytes: &[u8])
    requires { length words.old.items ≡ (len + 63) / 64 }
    ensures row { IsRow words.new.items len }
    ensures bits { (k : ℕ) → k < len → bit_of words.new.items k ≡ (bit_at (slice_index bytes.now (k / 8)) (7 - k % 8) == 1) }
{
    unpack_all(words, bytes);
    clear_past(words, len);
}

fn unpack_all(words: &mut Vec<u64>, bytes: &[u8])
    requires { length words.old.items < 2 ^ 32 }
    ensures len { length words.new.items ≡ length words.old.items }
    ensures bits { (k : ℕ) → k < 64 * length words.old.items → bit_of words.new.items k ≡ (bit_at (slice_index bytes.now (k / 8)) (7 - k % 8) == 1) }
{
    for index in 0..words.len() {
        words[index] = word_of(bytes, index);
    }
}
