//! The marks of one pick, by colour.
ghost use Rattle.std.specs.Prelude.{◌≡◌, ◌≢◌, ℕ, ◌+◌, ◌*◌, ◌/◌, ◌%◌, ◌^◌, ◌<◌, ◌≤◌, ◌==◌, length, slice_index, All};
ghost use Rattle.std.specs.Int.{bit_at};
ghost use Rattle.mill_base.specs.declared.limits.TheConstants.{MAX_COLOURS};
ghost use Rattle.weave_book.specs.Books.{colour_mark};
ghost use Rattle.weave_book.specs.inner.Kept.{AreKept};
ghost use Rattle.weave_book.specs.inner.Parts.{AreCells};

use crate::line::turned;
use crate::weaves::Weave;
use mill_base::limits::MAX_COLOURS;
use mill_base::word::merged;
use std::simd::prelude::*;

const COLOURS: usize = MAX_COLOURS as usize;

/// The marks of a pick by colour. Those of a colour that was met are kept: the first 64 in a word, and after how many
/// columns they come again.
#[derive(Drop)]
pub(crate) struct ColourMarks<'a> {
    weaves: &'a [Weave],
    pick: u32,
    words: [u64; COLOURS],
    // 0 where nothing is kept
    repeats: [u32; COLOURS],
    ghost words_room: { length words ≡ MAX_COLOURS },
    ghost repeats_room: { length repeats ≡ MAX_COLOURS },
    ghost kept: { AreKept weaves.now pick words repeats },
}

impl<'a> ColourMarks<'a> {
    ghost use Rattle.weave_book.specs.inner.MarksOf.{IsOf};

    pub(crate) fn new(weaves: &'a [Weave], pick: u32) -> ColourMarks<'a>
        ensures { IsOf weaves.now pick result }
    {
        ColourMarks {
            weaves,
            pick,
            words: [0; COLOURS],
            repeats: [0; COLOURS],
        }
    }

    /// The marks of the cells at the 64 columns from 64 * `at` on, by the colours of a whole line: bit j is that of
    /// column 64 * `at` + j, where the line has it.
    pub(crate) fn line_word(&mut self, colours: &[u8], at: u32) -> u64
        requires there { 64 * at < length colours.now }
        requires colours { All (λ colour. colour < length self.old.weaves.now) colours.now }
        requires room { 64 * at + 64 ≤ 2 ^ 32 }
        ensures same { IsOf self.old.weaves.now self.old.pick self.new }
        ensures marks { (k : ℕ) → k / 64 ≡ at → k < length colours.now
            → (bit_at result (k % 64) == 1) ≡ colour_mark self.old.weaves.now (slice_index colours.now k) k self.old.pick }
    {
        let from = 64 * at as usize;
        if from + 64 <= colours.len() {
            return self.marks(&colours[from..from + 64], at);
        }
        self.marks(&padded(&colours[from..]), at)
    }

    /// The marks of 64 cells that lie side by side from column 64 * `at` on, by their colours: bit j is that of cell j.
    fn marks(&mut self, cells: &[u8], at: u32) -> u64
        requires whole { length cells.now ≡ 64 }
        requires colours { All (λ colour. colour < length self.old.weaves.now) cells.now }
        requires room { 64 * at + 64 ≤ 2 ^ 32 }
        ensures same { IsOf self.old.weaves.now self.old.pick self.new }
        ensures marks { (j : ℕ) → j < 64
            → (bit_at result j == 1) ≡ colour_mark self.old.weaves.now (slice_index cells.now j) (64 * at + j) self.old.pick }
    {
        let mut marks = 0;
        let mut left = u64::MAX;
        while left != 0 {
            let colour = cells[left.trailing_zeros() as usize];
            let alike = places_of(cells, colour);
            marks = merged(marks, self.word(colour, at), alike);
            left &= !alike;
        }
        marks
    }

    /// The marks of a colour at the 64 columns from 64 * `at` on.
    fn word(&mut self, colour: u8, at: u32) -> u64
        requires colour { colour < length self.old.weaves.now }
        requires room { 64 * at + 64 ≤ 2 ^ 32 }
        ensures same { IsOf self.old.weaves.now self.old.pick self.new }
        ensures marks { AreCells (λ c. colour_mark self.old.weaves.now colour c self.old.pick) (64 * at) 64 result }
    {
        let place = colour as usize;
        let repeat = self.repeats[place];
        if repeat == 0 {
            return self.met(colour, at);
        }
        turned(self.words[place], repeat, 64 * at)
    }

    /// The same of a colour of which nothing is kept yet; now it is.
    #[inline(never)]
    fn met(&mut self, colour: u8, at: u32) -> u64
        requires colour { colour < length self.old.weaves.now }
        requires room { 64 * at + 64 ≤ 2 ^ 32 }
        ensures same { IsOf self.old.weaves.now self.old.pick self.new }
        ensures marks { AreCells (λ c. colour_mark self.old.weaves.now colour c self.old.pick) (64 * at) 64 result }
    {
        let place = colour as usize;
        let weave = &self.weaves[place];
        self.words[place] = weave.marks_from(self.pick, 0);
        self.repeats[place] = weave.repeat();
        weave.marks_from(self.pick, 64 * at)
    }
}

/// Which of 64 cells have a colour.
fn places_of(cells: &[u8], colour: u8) -> u64
    requires { length cells.now ≡ 64 }
    ensures { (j : ℕ) → j < 64 → (bit_at result j == 1) ≡ (slice_index cells.now j == colour) }
{
    u8x64::from_slice(cells)
        .simd_eq(u8x64::splat(colour))
        .to_bitmask()
}

/// Fewer than 64 cells, and the first of them over and over.
fn padded(cells: &[u8]) -> [u8; 64]
    requires some { 0 < length cells.now }
    requires few { length cells.now < 64 }
    ensures cells { (j : ℕ) → j < length cells.now → slice_index result j ≡ slice_index cells.now j }
    ensures past { (j : ℕ) → length cells.now ≤ j → j < 64 → slice_index result j ≡ slice_index cells.now 0 }
{
    let mut whole = [cells[0]; 64];
    whole[..cells.len()].copy_from_slice(cells);
    whole
}
