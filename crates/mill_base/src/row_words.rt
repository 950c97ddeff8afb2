//! Words that stand for a row: as many as it needs, with clear bits past its last position.
ghost use Rattle.std.specs.Prelude.{◌^◌, None, IfSome, ◌≡◌, ◌≢◌, not, count_by, ◌+◌, ◌-◌, ◌*◌, ◌/◌, ◌%◌, ◌<◌, ◌≤◌, ◌==◌, ℕ, false, length, slice_index, IsTrue, ◌↔◌};
ghost use Rattle.std.specs.Int.{bit_at};
ghost use Rattle.mill_base.specs.Bits.{bit_of, bits_of, IsRow};
ghost use Rattle.mill_base.specs.inner.FirstBits.{IsFirstSet};
ghost use Rattle.mill_base.specs.inner.Turnings.{Turned};

use crate::word::{ahead, bits_from, bits_moved_up, low_bits};

/// Clears the bits past the first `len`, which all stand in the last word.
pub fn clear_past(words: &mut Vec<u64>, len: u32)
    requires { length words.old.items ≡ (len + 63) / 64 }
    ensures row { IsRow words.new.items len }
    ensures below { (k : ℕ) → k < len → bit_of words.new.items k ≡ bit_of words.old.items k }
{
    let rest = len % 64;
    if rest > 0 {
        let last = (len / 64) as usize;
        words[last] = low_bits(words[last], rest);
    }
}

/// Sets the first `len` bits to one value.
pub fn fill(words: &mut Vec<u64>, len: u32, value: bool)
    requires { length words.old.items ≡ (len + 63) / 64 }
    ensures row { IsRow words.new.items len }
    ensures all { (k : ℕ) → k < len → bit_of words.new.items k ≡ value }
{
    let pattern = if value { u64::MAX } else { 0 };
    put_all(words, pattern);
    clear_past(words, len);
}

fn put_all(words: &mut Vec<u64>, word: u64)
    ensures len { length words.new.items ≡ length words.old.items }
    ensures all { (i : ℕ) → i < length words.old.items → slice_index words.new.items i ≡ word }
{
    for place in words.iter_mut() {
        *place = word;
    }
}

/// Puts a word in its place, without those of its bits that stand past the first `len`.
pub fn put_word(words: &mut Vec<u64>, len: u32, at: u32, word: u64)
    requires room { IsRow words.old.items len }
    requires at { at < length words.old.items }
    ensures row { IsRow words.new.items len }
    ensures here { (k : ℕ) → k < len → k / 64 ≡ at → bit_of words.new.items k ≡ (bit_at word (k % 64) == 1) }
    ensures others { (k : ℕ) → k < len → k / 64 ≢ at → bit_of words.new.items k ≡ bit_of words.old.items k }
{
    words[at as usize] = kept(word, len, at);
}

/// Word `at` of a row, without those of its bits that would stand past the first `len`.
fn kept(word: u64, len: u32, at: u32) -> u64
    requires { at < (len + 63) / 64 }
    ensures below { (i : ℕ) → i < 64 → 64 * at + i < len → bit_at result i ≡ bit_at word i }
    ensures past { (i : ℕ) → i < 64 → len ≤ 64 * at + i → bit_at result i ≡ 0 }
{
    if at < len / 64 {
        return word;
    }
    low_bits(word, len % 64)
}

/// Whether two slices of one length have the same words.
pub fn same_words(one: &[u64], other: &[u64]) -> bool
    requires { length one.now ≡ length other.now }
    ensures { IsTrue result ↔ ((k : ℕ) → k < 64 * length one.now → bit_of one.now k ≡ bit_of other.now k) }
{
    *one == *other
}

fn turned_word(words: &[u64], len: u32, by: u32, index: u32) -> u64
    requires row { IsRow words.now len }
    requires by { by < len }
    requires index { index < length words.now }
    ensures ahead { (k : ℕ) → k / 64 ≡ index → k + by < len → (bit_at result (k % 64) == 1) ≡ bit_of words.now (k + by) }
    ensures round { (k : ℕ) → k / 64 ≡ index → k < len → len ≤ k + by → (bit_at result (k % 64) == 1) ≡ bit_of words.now (k + by - len) }
{
    let at = 64 * index as usize;
    bits_from(words, at + by as usize) | bits_moved_up(words, at, (len - by) as usize)
}

/// Writes a row so that its bit k is bit k + by of `words`, counted round the first `len`.
pub fn turn(words: &[u64], len: u32, by: u32, out: &mut Vec<u64>)
    requires row { IsRow words.now len }
    requires room { length out.old.items ≡ length words.now }
    requires by { by < len }
    ensures row { IsRow out.new.items len }
    ensures turned { Turned words.now len by out.new.items len }
{
    put_turned(words, len, by, out);
    clear_past(out, len);
}

fn put_turned(words: &[u64], len: u32, by: u32, out: &mut Vec<u64>)
    requires row { IsRow words.now len }
    requires room { length out.old.items ≡ length words.now }
    requires by { by < len }
    ensures len { length out.new.items ≡ length out.old.items }
    ensures turned { Turned words.now len by out.new.items len }
{
    for index in 0..words.len() {
        out[index] = turned_word(words, len, by, index as u32);
    }
}

/// Turns the first `len` bits round: what was set is clear.
pub fn negate(words: &mut Vec<u64>, len: u32)
    requires { length words.old.items ≡ (len + 63) / 64 }
    ensures row { IsRow words.new.items len }
    ensures all { (k : ℕ) → k < len → bit_of words.new.items k ≡ not (bit_of words.old.items k) }
{
    negate_all(words);
    clear_past(words, len);
}

fn negated(word: u64) -> u64
    ensures { (i : ℕ) → i < 64 → (bit_at result i == 1) ≡ not (bit_at word i == 1) }
{
    !word
}

fn negate_all(words: &mut Vec<u64>)
    ensures len { length words.new.items ≡ length words.old.items }
    ensures all { (k : ℕ) → k < 64 * length words.old.items → bit_of words.new.items k ≡ not (bit_of words.old.items k) }
{
    for index in 0..words.len() {
        words[index] = negated(words[index]);
    }
}

/// The first bit from bit `from` on that is set.
pub fn first_set(words: &[u64], from: usize) -> Option<usize>
    requires words { length words.now < 2 ^ 32 }
    requires from { from < 2 ^ 32 }
    ensures some { IfSome result (λ k. IsFirstSet words.now from k) }
    ensures none { result ≡ None → (k : ℕ) → from ≤ k → bit_of words.now k ≡ false }
{
    let mut place = from;
    while place / 64 < words.len() {
        let word = ahead(words, place);
        if word != 0 {
            return Some(place + word.trailing_zeros() as usize);
        }
        place = 64 * (place / 64 + 1);
    }
    None
}

/// How many bits are set, all of which stand below `len`.
pub fn count(words: &[u64], len: u32) -> u32
    requires { IsRow words.now len }
    ensures { result ≡ count_by (λ b. b) (bits_of words.now len) }
{
    count_all(words) as u32
}

fn count_all(words: &[u64]) -> u64
    requires { length words.now < 2 ^ 32 }
    ensures { result ≡ count_by (λ b. b) (bits_of words.now (64 * length words.now)) }
{
    let mut total: u64 = 0;
    for index in 0..words.len() {
        total += words[index].count_ones() as u64;
    }
    total
}
