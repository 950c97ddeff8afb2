//! Long positions by whole words: windows of equal cells, and the positions that lie in one.
ghost use Rattle.std.specs.Prelude.{◌≡◌, ℕ, ◌+◌, ◌-◌, ◌*◌, ◌/◌, ◌%◌, ◌<◌, ◌≤◌, ◌==◌, false, true, length, slice_index_or};
ghost use Rattle.std.specs.Int.{bit_at};
ghost use Rattle.mill_base.specs.Bits.{bit_of};
ghost use Rattle.mill_base.specs.Below.{any_below, all_below};
ghost use Rattle.mill_base.specs.Lines.{line_by};
ghost use Rattle.mill_base.specs.Lines.{cell_round};
ghost use Rattle.mill_base.specs.declared.limits.TheConstants.{MAX_ENDS};
ghost use Rattle.cloth_floats.specs.Windows.{is_long, is_long_over, long_of};

use mill_base::bit_block::{BitBlock, Spare};
use mill_base::bit_row::BitRow;
use mill_base::word::{eights, same_as_next, window};

/// Makes a line true only where `count` of its cells are true, from the position itself on. The stretch that is looked at doubles
/// in each step, until there is none. The answer is false only where no position is left.
fn all_ahead(found: &mut BitBlock, count: u32, spare: &mut Spare) -> bool
    requires some { 0 < count }
    requires within { count ≤ length found.old }
    ensures line { found.new ≡ line_by (length found.old) (λ k. all_below (λ j. cell_round found.old (k + j)) count) }
    ensures none { result ≡ false → (k : ℕ) → k < length found.new → slice_index_or found.new k false ≡ false }
{
    let mut width = 1;
    while width < count {
        if found.none() {
            return false;
        }
        let by = width.min(count - width);
        found.keep_ahead(by, spare);
        width += by;
    }
    !found.none()
}

/// Makes a line true also where one of `count` of its cells is true, from the position itself on downwards.
fn any_behind(found: &mut BitBlock, count: u32, spare: &mut Spare)
    requires some { 0 < count }
    requires within { count ≤ length found.old }
    ensures { found.new ≡ line_by (length found.old) (λ k. any_below (λ i. cell_round found.old (k + length found.old - i)) count) }
{
    let mut width = 1;
    while width < count {
        let by = width.min(count - width);
        found.join_behind(by, spare);
        width += by;
    }
}

/// Makes a line true where it is long by one limit. The answer is false only where it is long nowhere.
fn mark_long(line: &mut BitBlock, limit: u32, spare: &mut Spare) -> bool
    requires { 0 < limit }
    ensures line { line.new ≡ line_by (length line.old) (is_long_over line.old limit) }
    ensures none { result ≡ false → (k : ℕ) → k < length line.new → slice_index_or line.new k false ≡ false }
{
    line.mark_same_next(spare);
    if limit >= line.len() {
        *line = BitBlock::filled(line.len(), line.all());
        return true;
    }
    if !all_ahead(line, limit, spare) {
        return false;
    }
    any_behind(line, limit + 1, spare);
    true
}

/// Writes a line into a row. Where `some` is false, no position of the line is true.
fn store_long(long: &BitBlock, some: bool, out: &mut BitRow)
    requires out { length out.old ≡ length long.now }
    requires none { some ≡ false → (k : ℕ) → k < length long.now → slice_index_or long.now k false ≡ false }
    ensures { out.new ≡ long.now }
{
    if some {
        long.store(out);
        return;
    }
    out.fill(false);
}

/// In which bytes of some word but the last all cells equal their next: the lowest bit of such a byte is set.
fn even_bytes(words: &[u64]) -> u64
    requires { 0 < length words.now }
    ensures { (q b : ℕ) → q + 1 < length words.now → b < 8 → ((j : ℕ) → j < 8 → bit_of words.now (64 * q + 8 * b + j) ≡ bit_of words.now (64 * q + 8 * b + j + 1)) → bit_at result (8 * b) ≡ 1 }
{
    let inner = words.len() - 1;
    let low = &words[..inner];
    let high = &words[1..];
    let mut found = 0;
    for index in 0..inner {
        found |= eights(same_as_next(low[index], high[index]));
    }
    found
}

/// The same of the last word of so many cells, where the last cell and what is past it in its byte are taken to equal their next.
fn last_even_bytes(word: u64, len: u32) -> u64
    requires { 0 < len }
    ensures { (b : ℕ) → 8 * b ≤ (len - 1) % 64 → ((j : ℕ) → j < 8 → 8 * b + j < (len - 1) % 64 → (bit_at word (8 * b + j) == 1) ≡ (bit_at word (8 * b + j + 1) == 1)) → bit_at result (8 * b) ≡ 1 }
{
    let last = (len - 1) % 64;
    eights(same_as_next(word, 0) | window(last, 64 - last)) & window(0, last + 1)
}

/// Whether some byte may hold only cells that equal their next.
fn has_even_byte(words: &[u64], len: u32) -> bool
    requires words { length words.now ≡ (len + 63) / 64 }
    requires len { 0 < len }
    ensures { (m : ℕ) → 8 * m < len → ((j : ℕ) → j < 8 → 8 * m + j + 1 < len → bit_of words.now (8 * m + j) ≡ bit_of words.now (8 * m + j + 1)) → result ≡ true }
{
    let found = even_bytes(words) | last_even_bytes(words[words.len() - 1], len);
    found & 0x0101_0101_0101_0101 != 0
}

/// Whether one pass over the words tells that a line is long nowhere. Over a limit of 15 or more there are 16 equal cells in a row,
/// and so a byte of cells that equal their next. Most lines have none.
fn is_plain(line: &BitRow, lifted: u32, unlifted: u32) -> bool
    requires { 0 < length line.now }
    ensures { result ≡ true → (k : ℕ) → k < length line.now → is_long line.now lifted unlifted k ≡ false }
{
    if lifted.min(unlifted) < 15 {
        return false;
    }
    !has_even_byte(line.words(), line.len())
}

/// `long_cells` of a line that a block holds.
pub fn long_cells(line: &BitRow, lifted: u32, unlifted: u32, out: &mut BitRow)
    requires line { 0 < length line.now }
    requires most { length line.now ≤ MAX_ENDS }
    requires out { length out.old ≡ length line.now }
    requires limits { (0 < lifted) × (0 < unlifted) }
    ensures { out.new ≡ long_of line.now lifted unlifted }
{
    if is_plain(line, lifted, unlifted) {
        out.fill(false);
        return;
    }
    let mut spare = Spare::new();
    let mut long = BitBlock::of(line);
    let some = mark_long(&mut long, unlifted, &mut spare);
    if lifted == unlifted {
        store_long(&long, some, out);
        return;
    }
    let mut lifted_long = BitBlock::of(line);
    mark_long(&mut lifted_long, lifted, &mut spare);
    BitBlock::of(line).select(&lifted_long, &long).store(out);
}
