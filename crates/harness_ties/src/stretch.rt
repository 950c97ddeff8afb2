//! Stretches of ends whose columns rise or fall by one, by which whole lines are carried between columns and ends.
ghost use Rattle.std.specs.Prelude.{◌≡◌, ◌≢◌, ◌+◌, ◌<◌, ◌≤◌, ◌||◌, ◌&&◌, ◌==◌, ℕ, false, length, slice_index, slice_index_or, All, IfOk};
ghost use Rattle.std.specs.List.{AllAdjacentBelow};
ghost use Rattle.mill_base.specs.Below.{any_below};
ghost use Rattle.mill_base.specs.Stretches.{IsLaid};
ghost use Rattle.harness_ties.specs.Ties.{gathered, tied};
ghost use Rattle.harness_ties.specs.inner.Stretches.{IsLongest, IsStretch, column_of, written_out};

use mill_base::bit_row::BitRow;
use mill_base::limits::MAX_ENDS;
use mill_base::memory::OutOfMemory;
use std::alloc::Global;

/// So many neighbouring ends, of which the first has a column and each next one the column after it or, falling, before it.
#[derive(Clone, Copy)]
pub struct Stretch {
    pub column: u32,
    pub count: u32,
    pub falling: bool,
}

/// Cuts a tie into stretches, each as long as it can be from where the one before it ends.
pub fn cut(alloc: Global, tie: &[u32], columns: u32) -> Result<Vec<Stretch>, OutOfMemory>
    requires few { length tie.now ≤ MAX_ENDS }
    requires there { All (λ c. c < columns) tie.now }
    ensures there { IfOk result (λ v. All (λ s. IsStretch columns s) v.items) }
    ensures tie { IfOk result (λ v. written_out v.items ≡ tie.now) }
    ensures longest { IfOk result (λ v. AllAdjacentBelow (λ s next. IsLongest s next.column) v.items (length v.items)) }
{
    let mut stretches = Vec::new(alloc);
    let mut end: usize = 0;
    while end < tie.len() {
        let stretch = stretch_from(tie, end, columns);
        stretches.push(stretch)?;
        end += stretch.count as usize;
    }
    Ok(stretches)
}

/// The stretch from an end on.
fn stretch_from(tie: &[u32], end: usize, columns: u32) -> Stretch
    requires few { length tie.now ≤ MAX_ENDS }
    requires there { All (λ c. c < columns) tie.now }
    requires end { end < length tie.now }
    ensures there { IsStretch columns result }
    ensures room { end + result.count ≤ length tie.now }
    ensures first { result.column ≡ slice_index tie.now end }
    ensures columns { (i : ℕ) → i < result.count → slice_index tie.now (end + i) ≡ column_of result i }
    ensures longest { end + result.count < length tie.now → IsLongest result (slice_index tie.now (end + result.count)) }
{
    let falls = falling(tie, end);
    let falling = falls > 1;
    let count = if falling { falls } else { rising(tie, end) };
    Stretch {
        column: tie[end],
        count,
        falling,
    }
}

/// How many ends from an end on have columns that rise by one.
fn rising(tie: &[u32], end: usize) -> u32
    requires few { length tie.now ≤ MAX_ENDS }
    requires end { end < length tie.now }
    ensures some { 0 < result }
    ensures room { end + result ≤ length tie.now }
    ensures columns { (i : ℕ) → i < result → slice_index tie.now (end + i) ≡ slice_index tie.now end + i }
    ensures longest { end + result < length tie.now → slice_index tie.now (end + result) ≢ slice_index tie.now end + result }
{
    let mut count: usize = 1;
    while end + count < tie.len() && tie[end + count] as usize == tie[end] as usize + count {
        count += 1;
    }
    count as u32
}

/// How many ends from an end on have columns that fall by one.
fn falling(tie: &[u32], end: usize) -> u32
    requires few { length tie.now ≤ MAX_ENDS }
    requires end { end < length tie.now }
    ensures some { 0 < result }
    ensures room { end + result ≤ length tie.now }
    ensures down { result ≤ slice_index tie.now end + 1 }
    ensures columns { (i : ℕ) → i < result → slice_index tie.now (end + i) + i ≡ slice_index tie.now end }
    ensures longest { end + result < length tie.now → slice_index tie.now (end + result) + result ≢ slice_index tie.now end }
{
    let mut count: usize = 1;
    while end + count < tie.len() && tie[end + count] as usize + count == tie[end] as usize {
        count += 1;
    }
    count as u32
}

/// Each end gets the cell of its column.
pub fn lay(stretches: &[Stretch], columns: &BitRow, ends: &mut BitRow)
    requires few { length (written_out stretches.now) ≤ MAX_ENDS }
    requires columns { All (λ s. IsStretch (length columns.now) s) stretches.now }
    requires ends { length ends.old ≡ length (written_out stretches.now) }
    ensures len { length ends.new ≡ length ends.old }
    ensures line { ends.new ≡ tied (written_out stretches.now) columns.now }
{
    let mut end = 0;
    for stretch in stretches {
        lay_stretch(*stretch, end, columns, ends);
        end += stretch.count;
    }
}

/// The ends of a stretch, which begins at `end`, get the cells of their columns.
fn lay_stretch(stretch: Stretch, end: u32, columns: &BitRow, ends: &mut BitRow)
    requires columns { IsStretch (length columns.now) stretch }
    requires ends { end + stretch.count ≤ length ends.old }
    ensures { IsLaid ends.old end stretch.count (λ i. slice_index_or columns.now (column_of stretch i) false) ends.new }
{
    if stretch.falling {
        ends.copy_range_reversed(end, columns, stretch.column, stretch.count);
    } else {
        ends.copy_range(end, columns, stretch.column, stretch.count);
    }
}

/// Each column becomes true exactly where some end of it is.
pub fn gather(stretches: &[Stretch], ends: &BitRow, columns: &mut BitRow)
    requires few { length (written_out stretches.now) ≤ MAX_ENDS }
    requires columns { All (λ s. IsStretch (length columns.old) s) stretches.now }
    requires ends { length ends.now ≡ length (written_out stretches.now) }
    ensures len { length columns.new ≡ length columns.old }
    ensures row { columns.new ≡ gathered (length columns.old) (written_out stretches.now) ends.now }
{
    columns.fill(false);
    let mut end = 0;
    for stretch in stretches {
        gather_stretch(*stretch, end, ends, columns);
        end += stretch.count;
    }
}

/// The columns of a stretch, which begins at `end`, become true too where their ends are.
fn gather_stretch(stretch: Stretch, end: u32, ends: &BitRow, columns: &mut BitRow)
    requires few { length ends.now ≤ MAX_ENDS }
    requires columns { IsStretch (length columns.old) stretch }
    requires ends { end + stretch.count ≤ length ends.now }
    ensures len { length columns.new ≡ length columns.old }
    ensures each { (c : ℕ) → slice_index_or columns.new c false
        ≡ (slice_index_or columns.old c false || any_below (λ i. (column_of stretch i == c) && slice_index_or ends.now (end + i) false) stretch.count) }
{
    if stretch.falling {
        let steps = stretch.count - 1;
        columns.or_range_reversed(stretch.column - steps, ends, end + steps, stretch.count);
    } else {
        columns.or_range(stretch.column, ends, end, stretch.count);
    }
}
