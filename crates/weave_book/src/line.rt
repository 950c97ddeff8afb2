//! Whole lines of marks, 64 columns to a word.
ghost use Rattle.std.specs.Prelude.{◌≡◌, ◌≢◌, ℕ, ◌+◌, ◌-◌, ◌*◌, ◌%◌, ◌^◌, ◌<◌, ◌≤◌, ◌==◌, Bool, length};
ghost use Rattle.std.specs.Int.{bit_at};
ghost use Rattle.mill_base.specs.Lines.{line_by};
ghost use Rattle.weave_book.specs.Weaves.{mark};
ghost use Rattle.weave_book.specs.inner.Parts.{AreCells, Repeats, repeat_of};

use crate::weaves::Weave;
use mill_base::bit_row::BitRow;
use mill_base::word::with_bit;

impl Weave {
    /// Puts the marks of a pick into a row: position c is the cell at column c. It takes no memory.
    pub fn put_row(&self, pick: u32, out: &mut BitRow)
        ensures len { length out.new ≡ length out.old }
        ensures marks { out.new ≡ line_by (length out.old) (λ c. mark self.now c pick) }
    {
        let repeat = self.repeat();
        let mut word = self.marks_from(pick, 0);
        for at in 0..out.len().div_ceil(64) {
            word = self.next_marks(pick, repeat, word, at);
            out.put_word(at, word);
        }
    }

    /// The marks at the 64 columns of word `at`, where `before` has those of the word before it, or for the first word its own.
    /// Each word is made from the one before it, since the way between them is the same for all, and is divided only once.
    fn next_marks(&self, pick: u32, repeat: u32, before: u64, at: u32) -> u64
        requires few { repeat ≤ 64 }
        requires again { Repeats (λ c. mark self.now c pick) repeat }
        requires room { 64 * at + 64 ≤ 2 ^ 32 }
        requires before { AreCells (λ c. mark self.now c pick) (64 * (at - 1)) 64 before }
        ensures { AreCells (λ c. mark self.now c pick) (64 * at) 64 result }
    {
        if at == 0 {
            return before;
        }
        if repeat == 0 {
            return self.marks_from(pick, 64 * at);
        }
        turned(before, repeat, 64)
    }

    /// The marks at 64 columns from column `from` on.
    pub(crate) fn marks_from(&self, pick: u32, from: u32) -> u64
        requires { from + 64 ≤ 2 ^ 32 }
        ensures { AreCells (λ c. mark self.now c pick) from 64 result }
    {
        let repeat = self.repeat();
        if repeat == 0 {
            return self.some_marks(pick, from, 64);
        }
        spread(self.some_marks(pick, from, repeat), repeat)
    }

    /// After how many columns the marks of a pick come again, where these are at most the 64 of a word, and else 0. No
    /// text spells a weave of more.
    pub(crate) fn repeat(&self) -> u32
        ensures few { result ≤ 64 }
        ensures again { (p : ℕ) → Repeats (λ c. mark self.now c p) result }
    {
        let columns = self.columns();
        if columns > 64 { 0 } else { columns as u32 }
    }

    fn columns(&self) -> u64
        ensures { result ≡ repeat_of self.now }
    {
        match self {
            Weave::Blank => 1,
            Weave::Full => 1,
            Weave::Plain => 2,
            Weave::Twill { up, down, .. } => *up as u64 + *down as u64,
            Weave::Satin { n, .. } => *n as u64,
            Weave::Rows(rows) => rows.width() as u64,
        }
    }

    /// The marks at `count` columns from column `from` on, in the lowest bits of a word whose other bits are clear.
    fn some_marks(&self, pick: u32, from: u32, count: u32) -> u64
        requires count { count ≤ 64 }
        requires room { from + count ≤ 2 ^ 32 }
        ensures marks { AreCells (λ c. mark self.now c pick) from count result }
        ensures past { (j : ℕ) → count ≤ j → j < 64 → bit_at result j ≡ 0 }
    {
        let mut word = 0;
        for j in 0..count {
            word = with_bit(word, j, self.mark(from + j, pick));
        }
        word
    }
}

/// A word in which the lowest `count` bits of another come again and again.
fn spread(word: u64, count: u32) -> u64
    requires some { 0 < count }
    requires few { count ≤ 64 }
    requires past { (j : ℕ) → count ≤ j → j < 64 → bit_at word j ≡ 0 }
    ensures { (line : ℕ → Bool) (from : ℕ) → Repeats line count → AreCells line from count word
        → AreCells line from 64 result }
{
    let mut spread = word;
    let mut filled = count;
    while filled < 64 {
        spread |= spread << filled;
        filled *= 2;
    }
    spread
}

/// The cells from place `from` on of a line that comes again after `repeat` places; `first` has those from place 0 on.
pub(crate) fn turned(first: u64, repeat: u32, from: u32) -> u64
    requires some { 0 < repeat }
    requires few { repeat ≤ 64 }
    ensures { (line : ℕ → Bool) → Repeats line repeat → AreCells line 0 64 first → AreCells line from 64 result }
{
    let by = from % repeat;
    // in two steps, since the whole way may be 64
    (first >> by) | (first << (repeat - 1 - by) << 1)
}
