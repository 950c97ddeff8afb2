//! Lines in blocks of words, turned round their end.
ghost use Rattle.std.specs.Prelude.{◌≡◌, ℕ, ◌+◌, ◌-◌, ◌*◌, ◌/◌, ◌^◌, ◌<◌, ◌≤◌, ◌==◌, ◌||◌, ◌↔◌, IsTrue, false, length, if◌then◌else◌};
ghost use Rattle.std.specs.Int.{bit_at};
ghost use Rattle.mill_base.specs.Bits.{bit_of};
ghost use Rattle.mill_base.specs.inner.Blocks.{IsAgain};
ghost use Rattle.mill_base.specs.inner.Stretches.{AreLaid};
ghost use Rattle.mill_base.specs.inner.Turnings.{Turned};

use crate::joint::{Joint, join};
use crate::stretch::copy_words;
use crate::word::{bits_from, low_bits, merged};

/// The words of a block: as many as `MAX_ENDS` bits take.
pub const WORDS: usize = 256;

/// How many words hold so many bits.
pub fn word_count(len: u32) -> usize
    ensures { result ≡ (len + 63) / 64 }
{
    (len as usize + 63) / 64
}

/// The words of a row, and clear ones behind them.
pub fn copied(from: &[u64]) -> [u64; WORDS]
    requires { length from.now ≤ WORDS }
    ensures { (k : ℕ) → bit_of result k ≡ bit_of from.now k }
{
    let mut words = [0; WORDS];
    for index in 0..from.len().min(WORDS) {
        words[index] = from[index];
    }
    words
}

/// Words of which the first `len` bits have one value, and the others are clear.
pub fn filled(len: u32, value: bool) -> [u64; WORDS]
    requires { len ≤ 64 * WORDS }
    ensures all { (k : ℕ) → k < len → bit_of result k ≡ value }
    ensures clear { (k : ℕ) → len ≤ k → bit_of result k ≡ false }
{
    let pattern = if value { u64::MAX } else { 0 };
    let mut words = [pattern; WORDS];
    clear_past(&mut words, len);
    words
}

/// Clears all words from one on.
fn clear_words(words: &mut [u64], from: usize)
    ensures len { length words.new ≡ length words.old }
    ensures below { (k : ℕ) → k < 64 * from → bit_of words.new k ≡ bit_of words.old k }
    ensures past { (k : ℕ) → 64 * from ≤ k → bit_of words.new k ≡ false }
{
    for index in from..words.len() {
        words[index] = 0;
    }
}

/// Clears those bits past the first `len` that stand in a word with some of them.
fn clear_rest(words: &mut [u64], len: u32)
    requires { len ≤ 64 * length words.old }
    ensures len { length words.new ≡ length words.old }
    ensures below { (k : ℕ) → k < len → bit_of words.new k ≡ bit_of words.old k }
    ensures rest { (k : ℕ) → len ≤ k → k < 64 * ((len + 63) / 64) → bit_of words.new k ≡ false }
    ensures past { (k : ℕ) → 64 * ((len + 63) / 64) ≤ k → bit_of words.new k ≡ bit_of words.old k }
{
    let rest = len % 64;
    if rest > 0 {
        let last = (len / 64) as usize;
        words[last] = low_bits(words[last], rest);
    }
}

/// Clears the bits past the first `len`.
pub fn clear_past(words: &mut [u64], len: u32)
    requires { len ≤ 64 * length words.old }
    ensures len { length words.new ≡ length words.old }
    ensures below { (k : ℕ) → k < len → bit_of words.new k ≡ bit_of words.old k }
    ensures past { (k : ℕ) → len ≤ k → bit_of words.new k ≡ false }
{
    clear_words(words, word_count(len));
    clear_rest(words, len);
}

/// Whether the first `count` words are clear.
pub fn are_clear(words: &[u64], count: usize) -> bool
    requires { count ≤ length words.now }
    ensures { IsTrue result ↔ ((k : ℕ) → k < 64 * count → bit_of words.now k ≡ false) }
{
    for index in 0..count {
        if words[index] != 0 {
            return false;
        }
    }
    true
}

/// Puts the 64 bits from bit `start` on in place of word `at`, the next 64 in place of the next word, for `count` words.
fn lay_words(from: &[u64], start: usize, out: &mut [u64], at: usize, count: usize)
    requires room { at + count ≤ length out.old }
    requires start { start + 64 * count < 2 ^ 63 }
    ensures { AreLaid out.old (64 * at) (64 * count) (λ i. bit_of from.now (start + i)) out.new }
{
    let inner = count.min(from.len().saturating_sub(start / 64 + 1));
    copy_words(from, start, out, at, inner);
    for done in inner..count {
        out[at + done] = bits_from(from, start + 64 * done);
    }
}

/// Joins the bits from bit `behind` on, up to the end of its word, with the first bits of a line.
fn start_again(line: &[u64], behind: usize, out: &mut [u64])
    requires line { 0 < length line.now }
    requires out { behind ≤ 64 * length out.old }
    ensures len { length out.new ≡ length out.old }
    ensures again { IsAgain line.now out.old behind out.new }
{
    let past = behind % 64;
    if past == 0 {
        return;
    }
    out[behind / 64] = with_start(out[behind / 64], line[0], past as u32);
}

/// A word's lowest `past` bits, and above them those of another from its first on, joined with what stands there.
fn with_start(word: u64, first: u64, past: u32) -> u64
    requires { past < 64 }
    ensures below { (i : ℕ) → i < past → bit_at result i ≡ bit_at word i }
    ensures above { (i : ℕ) → past ≤ i → i < 64 → (bit_at result i == 1) ≡ ((bit_at word i == 1) || (bit_at first (i - past) == 1)) }
{
    word | (first << past)
}

/// Writes a line turned: bit k of `out` is bit k + by of `words`, counted round the first `len`.
fn turn_into(words: &[u64], len: u32, by: u32, out: &mut [u64])
    requires words { length words.now ≡ WORDS }
    requires out { length out.old ≡ WORDS }
    requires len { len ≤ 64 * WORDS }
    requires by { by ≤ len }
    requires clear { (k : ℕ) → len ≤ k → bit_of words.now k ≡ false }
    ensures len { length out.new ≡ length out.old }
    ensures turned { Turned words.now len by out.new len }
{
    let behind = (len - by) as usize;
    let whole = (behind + 63) / 64;
    lay_words(words, by as usize, out, 0, whole);
    lay_words(
        words,
        64 * whole - behind,
        out,
        whole,
        word_count(len) - whole,
    );
    start_again(words, behind, out);
}

/// Joins a line with itself, turned. `spare` takes the turned line.
pub fn join_turned<J: Joint>(words: &mut [u64; WORDS], len: u32, by: u32, spare: &mut [u64; WORDS])
    requires len { len ≤ 64 * WORDS }
    requires by { by ≤ len }
    requires clear { (k : ℕ) → len ≤ k → bit_of words.old k ≡ false }
    ensures turned { Turned words.old len by spare.new len }
    ensures joined { (k : ℕ) → k < len → bit_of words.new k ≡ J.cell (bit_of words.old k) (bit_of spare.new k) }
    ensures clear { (k : ℕ) → len ≤ k → bit_of words.new k ≡ false }
{
    turn_into(words, len, by, spare);
    join::<J>(words, spare, word_count(len));
    clear_rest(words, len);
}

/// The bits of one block where a mask is set, and those of another elsewhere.
pub fn merged_words(mask: &[u64], inside: &[u64], outside: &[u64], count: usize) -> [u64; WORDS]
    requires mask { length mask.now ≡ WORDS }
    requires inside { length inside.now ≡ WORDS }
    requires outside { length outside.now ≡ WORDS }
    requires count { count ≤ WORDS }
    ensures here { (k : ℕ) → k < 64 * count → bit_of result k ≡ (if bit_of mask.now k then bit_of inside.now k else bit_of outside.now k) }
    ensures past { (k : ℕ) → 64 * count ≤ k → bit_of result k ≡ false }
{
    let mut words = [0; WORDS];
    for index in 0..count {
        words[index] = merged(outside[index], inside[index], mask[index]);
    }
    words
}
