//! The floats of the lines of a cloth, one line after another.
ghost use Rattle.std.specs.Prelude.{◌≡◌, ◌<◌, ◌≤◌, ◌^◌, ◌++◌, ◌∷◌, ℕ, true, false, [], length, filter, map, take, slice_index_or, None, IfOk, OnOk};
ghost use Rattle.mill_base.specs.Grids.{GridCells, IsGrid, grid_row, transposed};
ghost use Rattle.mill_base.specs.declared.limits.TheConstants.{MAX_ENDS};
ghost use Rattle.cloth_floats.specs.Floats.{first_long_of, is_over};
ghost use Rattle.draft_model.specs.Designs.{Fits, IsBitsOf};
ghost use Rattle.draft_model.specs.Inner.{grid_cells};
ghost use Rattle.draft_model.specs.declared.float_run.FloatKind.TheVariants.{Weft, Warp};
ghost use Rattle.float_list.specs.declared.list.TheConstants.{MAX_LISTED};
ghost use Rattle.float_list.specs.Floats.{over_limit, floats_along};

use crate::list::MAX_LISTED;
use crate::long_float::{Limits, LongFloat};
use cloth_floats::{Run, long_cells, runs};
use draft_model::design::Design;
use draft_model::float_run::FloatKind;
use mill_base::bit_grid::BitGrid;
use mill_base::bit_row::BitRow;
use mill_base::memory::OutOfMemory;
use mill_base::size::Size;
use point_paper::bit_paper::BitPaper;
use std::alloc::Global;

/// Adds the floats along all picks, as far as there is room in the list, and tells how many there are.
pub fn add_weft(
    alloc: Global,
    design: &Design,
    bits: &BitPaper,
    listed: &mut Vec<LongFloat>,
) -> Result<u32, OutOfMemory>
    requires fits { Fits design.now }
    requires bits { IsBitsOf design.now bits.now }
    requires room { length listed.old.items ≤ MAX_LISTED }
    ensures count { IfOk result (λ count. count ≡ length (floats_along Weft design.now bits.now)) }
    ensures listed { OnOk result (listed.new.items ≡ take MAX_LISTED (listed.old.items ++ floats_along Weft design.now bits.now)) }
{
    let limits = Limits::of(FloatKind::Weft, design);
    let mut ends = BitRow::new(alloc, design.tie.ends())?;
    let mut long = BitRow::new(alloc, design.tie.ends())?;
    let mut count = 0;
    for pick in 0..bits.size().picks {
        design.tie.lay(bits.row(pick), &mut ends);
        let is_long = is_long_somewhere(&ends, limits, &mut long);
        count += add_line(alloc, limits, pick, is_long, &ends, listed)?;
    }
    Ok(count)
}

/// Adds the floats along all ends, as far as there is room in the list, and tells how many there are.
pub fn add_warp(
    alloc: Global,
    design: &Design,
    bits: &BitPaper,
    listed: &mut Vec<LongFloat>,
) -> Result<u32, OutOfMemory>
    requires fits { Fits design.now }
    requires bits { IsBitsOf design.now bits.now }
    requires room { length listed.old.items ≤ MAX_LISTED }
    ensures count { IfOk result (λ count. count ≡ length (floats_along Warp design.now bits.now)) }
    ensures listed { OnOk result (listed.new.items ≡ take MAX_LISTED (listed.old.items ++ floats_along Warp design.now bits.now)) }
{
    let limits = Limits::of(FloatKind::Warp, design);
    let turned = columns_of(alloc, bits)?;
    let long = long_rows(alloc, &turned, limits)?;
    let mut count = 0;
    for end in 0..design.tie.ends() {
        let column = design.tie.column(end);
        let is_long = long.get(column);
        count += add_line(alloc, limits, end, is_long, turned.row(column), listed)?;
    }
    Ok(count)
}

// The columns of a paper as rows.
fn columns_of(alloc: Global, bits: &BitPaper) -> Result<BitGrid, OutOfMemory>
    ensures { IfOk result (λ turned. turned ≡ transposed (grid_cells bits.now)) }
{
    let Size { columns, picks } = bits.size();
    let mut grid = BitGrid::new(alloc, columns, picks)?;
    let mut turned = BitGrid::new(alloc, picks, columns)?;
    for pick in 0..picks {
        grid.set_row(pick, bits.row(pick));
    }
    grid.transpose_into(&mut turned);
    Ok(turned)
}

// For each row of a grid whether some position of it is long. Where it is not, the row has no float over its limit.
fn long_rows(alloc: Global, grid: &BitGrid, limits: Limits) -> Result<BitRow, OutOfMemory>
    requires some { 0 < grid.now.width }
    requires limits { (0 < limits.lifted) × (0 < limits.unlifted) }
    ensures len { IfOk result (λ marks. length marks ≡ length grid.now.rows) }
    ensures none { IfOk result (λ marks. (k : ℕ) → k < length grid.now.rows → slice_index_or marks k false ≡ false
        → first_long_of (grid_row grid.now k) limits.lifted limits.unlifted ≡ None) }
{
    let mut marks = BitRow::new(alloc, grid.height())?;
    let mut long = BitRow::new(alloc, grid.width())?;
    for k in 0..grid.height() {
        marks.set(k, is_long_somewhere(grid.row(k), limits, &mut long));
    }
    Ok(marks)
}

// Whether some position of a line is long; `long` has room for its positions.
fn is_long_somewhere(cells: &BitRow, limits: Limits, long: &mut BitRow) -> bool
    requires cells { 0 < length cells.now }
    requires long { length long.old ≡ length cells.now }
    requires limits { (0 < limits.lifted) × (0 < limits.unlifted) }
    ensures len { length long.new ≡ length cells.now }
    ensures none { result ≡ false → first_long_of cells.now limits.lifted limits.unlifted ≡ None }
{
    cloth_floats::laws::no_float_is_over_its_limit_where_no_position_is_long();
    long_cells(cells, limits.lifted, limits.unlifted, long);
    long.any()
}

// Adds the floats of one line, and tells how many there are. A line that is long nowhere has none.
fn add_line(
    alloc: Global,
    limits: Limits,
    line: u32,
    is_long: bool,
    cells: &BitRow,
    listed: &mut Vec<LongFloat>,
) -> Result<u32, OutOfMemory>
    requires cells { 0 < length cells.now }
    requires most { length cells.now ≤ MAX_ENDS }
    requires none { is_long ≡ false → first_long_of cells.now limits.lifted limits.unlifted ≡ None }
    requires room { length listed.old.items ≤ MAX_LISTED }
    ensures count { IfOk result (λ count. count ≡ length (over_limit limits line cells.now)) }
    ensures most { IfOk result (λ count. count ≤ length cells.now) }
    ensures listed { OnOk result (listed.new.items ≡ take MAX_LISTED (listed.old.items ++ over_limit limits line cells.now)) }
{
    if !is_long {
        return Ok(0);
    }
    let runs = runs(alloc, cells)?;
    let count = add_runs(limits, line, &runs, listed)?;
    Ok(count)
}

// Adds those of a line's floats that are over their limit, and tells how many there are.
fn add_runs(
    limits: Limits,
    line: u32,
    runs: &[Run],
    listed: &mut Vec<LongFloat>,
) -> Result<u32, OutOfMemory>
    requires room { length listed.old.items ≤ MAX_LISTED }
    requires few { length runs.now < 2 ^ 32 }
    ensures count { IfOk result (λ count. count ≡ length (filter (is_over limits.lifted limits.unlifted) runs.now)) }
    ensures listed { OnOk result (listed.new.items ≡ take MAX_LISTED (listed.old.items
        ++ map (λ run. record { kind = limits.kind; line = line; run = run }) (filter (is_over limits.lifted limits.unlifted) runs.now))) }
{
    let mut count = 0;
    for run in runs {
        count += add_run(limits, line, *run, listed)?;
    }
    Ok(count)
}

// Adds a float where it is over its limit, and tells how many were added.
fn add_run(
    limits: Limits,
    line: u32,
    run: Run,
    listed: &mut Vec<LongFloat>,
) -> Result<u32, OutOfMemory>
    requires room { length listed.old.items ≤ MAX_LISTED }
    ensures count { IfOk result (λ count. count ≡ length (filter (is_over limits.lifted limits.unlifted) (run ∷ []))) }
    ensures most { IfOk result (λ count. count ≤ 1) }
    ensures listed { OnOk result (listed.new.items ≡ take MAX_LISTED (listed.old.items
        ++ map (λ run. record { kind = limits.kind; line = line; run = run }) (filter (is_over limits.lifted limits.unlifted) (run ∷ [])))) }
{
    if !is_over(run, limits) {
        return Ok(0);
    }
    let kind = limits.kind;
    keep(listed, LongFloat { kind, line, run })?;
    Ok(1)
}

fn keep(listed: &mut Vec<LongFloat>, float: LongFloat) -> Result<(), OutOfMemory>
    requires { length listed.old.items ≤ MAX_LISTED }
    ensures { OnOk result (listed.new.items ≡ take MAX_LISTED (listed.old.items ++ float ∷ [])) }
{
    if listed.len() < MAX_LISTED as usize {
        listed.push(float)?;
    }
    Ok(())
}

fn is_over(run: Run, limits: Limits) -> bool
    ensures { result ≡ is_over limits.lifted limits.unlifted run }
{
    let limit = if run.lifted {
        limits.lifted
    } else {
        limits.unlifted
    };
    run.endless || run.length > limit
}
