//! The k-th true position of a row, and how many are before a position, by whole words.
ghost use Rattle.std.specs.Prelude.{◌≡◌, ◌+◌, ◌-◌, ◌*◌, ◌/◌, ◌%◌, ◌^◌, ◌<◌, ◌≤◌, ℕ, true, false, length, slice_index_or};
ghost use Rattle.std.specs.Int.RustNames.{count_ones};
ghost use Rattle.mill_base.specs.Below.{count_below};
ghost use Rattle.mill_base.specs.Bits.{bit_of};
ghost use Rattle.tile_grid.specs.inner.Tables.{IsTrueAt};

use mill_base::bit_row::BitRow;
use mill_base::word::has_bit;

/// The k-th true position, counted from 0.
pub fn nth_true(row: &BitRow, k: u32) -> u32
    requires few { length row.now < 2 ^ 32 }
    requires k { k < count_below (λ x. slice_index_or row.now x false) (length row.now) }
    ensures { IsTrueAt row.now k result }
{
    nth_set(row.words(), k)
}

/// How many true positions stand before position n.
pub fn count_before(row: &BitRow, n: u32) -> u32
    requires { n < length row.now }
    ensures { result ≡ count_below (λ x. slice_index_or row.now x false) n }
{
    count_set(row.words(), n)
}

fn nth_set(words: &[u64], k: u32) -> u32
    requires words { length words.now ≤ 2 ^ 26 }
    requires k { k < count_below (bit_of words.now) (64 * length words.now) }
    ensures here { bit_of words.now result ≡ true }
    ensures before { count_below (bit_of words.now) result ≡ k }
{
    let mut left = k;
    for index in 0..words.len() {
        let ones = words[index].count_ones();
        if left < ones {
            return nth_in_word(words, index as u32, left);
        }
        left -= ones;
    }
    unreachable!()
}

/// The bit of a word before which so many of its bits are set.
fn nth_in_word(words: &[u64], index: u32, k: u32) -> u32
    requires words { length words.now ≤ 2 ^ 26 }
    requires index { index < length words.now }
    requires k { count_below (bit_of words.now) (64 * index) + k < count_below (bit_of words.now) (64 * (index + 1)) }
    ensures here { bit_of words.now result ≡ true }
    ensures before { count_below (bit_of words.now) result ≡ count_below (bit_of words.now) (64 * index) + k }
{
    let word = words[index as usize];
    let mut left = k;
    for at in 0..64 {
        if !has_bit(word, at) {
            continue;
        }
        if left == 0 {
            return 64 * index + at;
        }
        left -= 1;
    }
    unreachable!()
}

fn count_set(words: &[u64], n: u32) -> u32
    requires { n < 64 * length words.now }
    ensures { result ≡ count_below (bit_of words.now) n }
{
    let last = (n / 64) as usize;
    let mut total = 0;
    for index in 0..last {
        total += words[index].count_ones();
    }
    total + count_low(words[last], n % 64)
}

/// How many of the lowest bits are set.
fn count_low(word: u64, count: u32) -> u32
    requires { count < 64 }
    ensures count { result ≡ count_ones (word % 2 ^ count) }
    ensures few { result ≤ count }
{
    (word & ((1 << count) - 1)).count_ones()
}
