//! Binder marks: how a line of cells is bound where a float would be too long. 'Binder' is this project's own word for
//! a weave whose marks break long floats.
#![tactic(auto)]

ghost use Rattle.std.specs.Prelude.{◌≡◌, ◌/◌, ◌%◌, ◌<◌, ◌==◌, ℕ, false, length, slice_index_or};
ghost use Rattle.std.specs.Int.{bit_at};
ghost use Rattle.mill_base.specs.Bits.{bit_of};
ghost use Rattle.binder_marks.specs.Bound.{bound_at, bound_cell, bound_line};

pub mod laws;

use mill_base::bit_row::BitRow;

/// Binds one line, a pick or an end, of as many cells as each of the five rows has positions: `raw` has the lifted
/// cells, `long` the cells in floats over the limit, `raise` and `sink` the marks of the two binders on this line. In
/// `out` a cell that is not long is the raw one; a long cell that is not lifted becomes the mark of `raise`, and a long
/// cell that is lifted is lowered exactly where `sink` has a mark. It takes no memory.
pub fn bind_line(raw: &BitRow, long: &BitRow, raise: &BitRow, sink: &BitRow, out: &mut BitRow)
    requires long { length long.now ≡ length raw.now }
    requires raise { length raise.now ≡ length raw.now }
    requires sink { length sink.now ≡ length raw.now }
    requires out { length out.old ≡ length raw.now }
    ensures line { out.new ≡ bound_line raw.now long.now raise.now sink.now }
    ensures cells { (k : ℕ) → k < length raw.now
        → slice_index_or out.new k false ≡ bound_at raw.now long.now raise.now sink.now k }
{
    let words = raw.len().div_ceil(64);
    let raw_words = raw.words();
    let long_words = long.words();
    let raise_words = raise.words();
    let sink_words = sink.words();
    for at in 0..words {
        let word = word_of_line(raw_words, long_words, raise_words, sink_words, at);
        out.put_word(at, word);
    }
}

fn word_of_line(raw: &[u64], long: &[u64], raise: &[u64], sink: &[u64], at: u32) -> u64
    requires raw { at < length raw.now }
    requires long { at < length long.now }
    requires raise { at < length raise.now }
    requires sink { at < length sink.now }
    ensures { (k : ℕ) → k / 64 ≡ at
        → (bit_at result (k % 64) == 1)
        ≡ bound_cell (bit_of raw.now k) (bit_of long.now k) (bit_of raise.now k) (bit_of sink.now k) }
{
    let at = at as usize;
    bound_word(raw[at], long[at], raise[at], sink[at])
}

/// The rule at each of 64 cells at once.
fn bound_word(raw: u64, long: u64, raise: u64, sink: u64) -> u64
    ensures { (i : ℕ) → i < 64
        → (bit_at result i == 1)
        ≡ bound_cell (bit_at raw i == 1) (bit_at long i == 1) (bit_at raise i == 1) (bit_at sink i == 1) }
{
    let lowered = long & sink;
    let raised = long & raise;
    (raw & !lowered) | (raised & !raw)
}
