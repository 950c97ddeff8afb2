//! A cyclic line of truth values in a fixed block of words.
ghost use Rattle.std.specs.Prelude.{◌≡◌, ℕ, ◌+◌, ◌-◌, ◌<◌, ◌≤◌, ◌&&◌, ◌||◌, ◌↔◌, true, false, IsTrue, length, replicate, slice_index_or, if◌then◌else◌};
ghost use Rattle.mill_base.specs.Lines.{cell_round, line_by, same};
ghost use Rattle.mill_base.specs.declared.limits.TheConstants.{MAX_ENDS};

use crate::bit_row::BitRow;
use crate::joint::{Alike, Both, Either};
use crate::row_words::same_words;
use crate::turning::{WORDS, are_clear, copied, filled, join_turned, merged_words, word_count};
use std::marker::Model;

/// Room for a line that is turned. Blocks are worked on in place with it; what it holds between two calls is of no use.
#[derive(Drop)]
pub struct Spare {
    words: [u64; WORDS],
}

impl Spare {
    /// Room for the longest line.
    pub fn new() -> Spare {
        Spare { words: [0; WORDS] }
    }
}

/// A cyclic line of 1 to `MAX_ENDS` truth values, whose last position is followed by its first. It is worked through by whole
/// words, and none of its calls takes memory.
#[derive(Drop)]
pub struct BitBlock {
    len: u32,
    words: [u64; WORDS],
}

impl Model for BitBlock {
    ghost use Rattle.std.specs.Prelude.{List, Bool};
    ghost use Rattle.mill_base.specs.Bits.{bits_of};
    ghost use Rattle.mill_base.specs.inner.Blocks.{IsBlock};

    ghost Value = { List Bool };

    ghost view = { λ b. bits_of b.words b.len };

    ghost invariant = { λ b. IsBlock b.words b.len };
}

impl BitBlock {
    /// The positions of a row.
    pub fn of(row: &BitRow) -> BitBlock
        requires some { 0 < length row.now }
        requires most { length row.now ≤ MAX_ENDS }
        ensures { result ≡ row.now }
    {
        BitBlock {
            len: row.len(),
            words: copied(row.words()),
        }
    }

    /// A line of so many positions of one truth value.
    pub fn filled(len: u32, value: bool) -> BitBlock
        requires some { 0 < len }
        requires most { len ≤ MAX_ENDS }
        ensures { result ≡ replicate len value }
    {
        BitBlock {
            len,
            words: filled(len, value),
        }
    }

    /// How many positions the line has.
    pub fn len(&self) -> u32
        ensures len { result ≡ length self.now }
        ensures some { 0 < result }
        ensures most { result ≤ MAX_ENDS }
    {
        self.len
    }

    fn copied(&self) -> BitBlock
        ensures { result ≡ self.now }
    {
        BitBlock {
            len: self.len,
            words: self.words,
        }
    }

    /// Where the truth value is that of the next position, round the end.
    pub fn same_next(&self) -> BitBlock
        ensures { result ≡ line_by (length self.now) (λ k. same (slice_index_or self.now k false) (cell_round self.now (k + 1))) }
    {
        let mut found = self.copied();
        found.mark_same_next(&mut Spare::new());
        found
    }

    /// `same_next` in place.
    pub fn mark_same_next(&mut self, spare: &mut Spare)
        ensures { self.new ≡ line_by (length self.old) (λ k. same (slice_index_or self.old k false) (cell_round self.old (k + 1))) }
    {
        join_turned::<Alike>(&mut self.words, self.len, 1, &mut spare.words);
    }

    /// Where it is true, and also true `by` positions on, round the end.
    pub fn and_ahead(&self, by: u32) -> BitBlock
        requires { by < length self.now }
        ensures { result ≡ line_by (length self.now) (λ k. slice_index_or self.now k false && cell_round self.now (k + by)) }
    {
        let mut found = self.copied();
        found.keep_ahead(by, &mut Spare::new());
        found
    }

    /// `and_ahead` in place.
    pub fn keep_ahead(&mut self, by: u32, spare: &mut Spare)
        requires { by < length self.old }
        ensures { self.new ≡ line_by (length self.old) (λ k. slice_index_or self.old k false && cell_round self.old (k + by)) }
    {
        join_turned::<Both>(&mut self.words, self.len, by, &mut spare.words);
    }

    /// Where it is true, or true `by` positions before, round the end.
    pub fn or_behind(&self, by: u32) -> BitBlock
        requires { by < length self.now }
        ensures { result ≡ line_by (length self.now) (λ k. slice_index_or self.now k false || cell_round self.now (k + length self.now - by)) }
    {
        let mut found = self.copied();
        found.join_behind(by, &mut Spare::new());
        found
    }

    /// `or_behind` in place.
    pub fn join_behind(&mut self, by: u32, spare: &mut Spare)
        requires { by < length self.old }
        ensures { self.new ≡ line_by (length self.old) (λ k. slice_index_or self.old k false || cell_round self.old (k + length self.old - by)) }
    {
        join_turned::<Either>(&mut self.words, self.len, self.len - by, &mut spare.words);
    }

    /// The truth value of one line where this one is true, and of another line elsewhere.
    pub fn select(&self, one: &BitBlock, other: &BitBlock) -> BitBlock
        requires one { length one.now ≡ length self.now }
        requires other { length other.now ≡ length self.now }
        ensures { result ≡ line_by (length self.now) (λ k. if slice_index_or self.now k false then slice_index_or one.now k false else slice_index_or other.now k false) }
    {
        BitBlock {
            len: self.len,
            words: merged_words(&self.words, &one.words, &other.words, word_count(self.len)),
        }
    }

    /// Whether every position is true.
    pub fn all(&self) -> bool
        ensures { IsTrue result ↔ ((k : ℕ) → k < length self.now → slice_index_or self.now k false ≡ true) }
    {
        same_words(&self.words, &filled(self.len, true))
    }

    /// Whether no position is true.
    pub fn none(&self) -> bool
        ensures { IsTrue result ↔ ((k : ℕ) → k < length self.now → slice_index_or self.now k false ≡ false) }
    {
        are_clear(&self.words, word_count(self.len))
    }

    /// Writes the line into a row of as many positions.
    pub fn store(&self, out: &mut BitRow)
        requires { length out.old ≡ length self.now }
        ensures { out.new ≡ self.now }
    {
        for index in 0..word_count(self.len) {
            out.put_word(index as u32, self.words[index]);
        }
    }
}
