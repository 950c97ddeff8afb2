//! Stretches of columns whose hooks rise by one, by which whole rows are carried between columns and hooks.
ghost use Rattle.std.specs.Prelude.{◌≡◌, ◌≢◌, ◌+◌, ◌^◌, ◌<◌, ◌≤◌, ℕ, length, slice_index, All, IfOk};
ghost use Rattle.std.specs.List.{AllAdjacentBelow};
ghost use Rattle.casting_out.specs.Cards.{at_hooks, on_hooks};
ghost use Rattle.casting_out.specs.inner.Stretches.{IsStretch, written_out};

use mill_base::bit_row::BitRow;
use mill_base::memory::OutOfMemory;
use std::alloc::Global;

/// So many neighbouring columns, of which the first hangs on a hook and each next one on the hook after it.
#[derive(Clone, Copy)]
pub struct Stretch {
    pub hook: u32,
    pub count: u32,
}

/// Cuts the hooks of the columns into stretches, each as long as it can be.
pub fn cut(alloc: Global, columns: &[u32], hooks: u32) -> Result<Vec<Stretch>, OutOfMemory>
    requires few { length columns.now < 2 ^ 32 }
    requires there { All (λ h. h < hooks) columns.now }
    ensures there { IfOk result (λ v. All (λ s. IsStretch hooks s) v.items) }
    ensures columns { IfOk result (λ v. written_out v.items ≡ columns.now) }
    ensures longest { IfOk result (λ v. AllAdjacentBelow (λ s next. next.hook ≢ s.hook + s.count) v.items (length v.items)) }
{
    let mut stretches = Vec::new(alloc);
    let mut column: usize = 0;
    while column < columns.len() {
        let count = rising(columns, column);
        let hook = columns[column];
        stretches.push(Stretch { hook, count })?;
        column += count as usize;
    }
    Ok(stretches)
}

/// How many columns from a column on have hooks that rise by one.
fn rising(columns: &[u32], column: usize) -> u32
    requires few { length columns.now < 2 ^ 32 }
    requires column { column < length columns.now }
    ensures some { 0 < result }
    ensures room { column + result ≤ length columns.now }
    ensures hooks { (i : ℕ) → i < result → slice_index columns.now (column + i) ≡ slice_index columns.now column + i }
    ensures longest { column + result < length columns.now → slice_index columns.now (column + result) ≢ slice_index columns.now column + result }
{
    let mut count: usize = 1;
    while column + count < columns.len()
        && columns[column + count] as usize == columns[column] as usize + count
    {
        count += 1;
    }
    count as u32
}

/// Each hook gets the cell of the column that hangs on it; a hook on which none hangs becomes false.
pub fn put_on_hooks(stretches: &[Stretch], columns: &BitRow, hooks: &mut BitRow)
    requires few { length (written_out stretches.now) < 2 ^ 32 }
    requires hooks { All (λ s. IsStretch (length hooks.old) s) stretches.now }
    requires columns { length columns.now ≡ length (written_out stretches.now) }
    requires rising { (c d : ℕ) → c < d → d < length (written_out stretches.now) → slice_index (written_out stretches.now) c < slice_index (written_out stretches.now) d }
    ensures len { length hooks.new ≡ length hooks.old }
    ensures row { hooks.new ≡ on_hooks (length hooks.old) (written_out stretches.now) columns.now }
{
    hooks.fill(false);
    let mut column = 0;
    for stretch in stretches {
        hooks.copy_range(stretch.hook, columns, column, stretch.count);
        column += stretch.count;
    }
}

/// Each column gets what its hook has.
pub fn take_off_hooks(stretches: &[Stretch], hooks: &BitRow, columns: &mut BitRow)
    requires few { length (written_out stretches.now) < 2 ^ 32 }
    requires hooks { All (λ s. IsStretch (length hooks.now) s) stretches.now }
    requires columns { length columns.old ≡ length (written_out stretches.now) }
    ensures len { length columns.new ≡ length columns.old }
    ensures row { columns.new ≡ at_hooks (written_out stretches.now) hooks.now }
{
    let mut column = 0;
    for stretch in stretches {
        columns.copy_range(column, hooks, stretch.hook, stretch.count);
        column += stretch.count;
    }
}
