//! Which kinds of places of a line are near one another, by one walk round it with a window that is carried along.
ghost use Rattle.std.specs.Prelude.{◌≡◌, ◌≢◌, ◌+◌, ◌*◌, ◌<◌, ◌≤◌, ◌==◌, ◌||◌, ℕ, length, slice_index, slice_index_or, false, IfOk};
ghost use Rattle.mill_base.specs.Grids.{grid_row, grid_cell};
ghost use Rattle.tile_grid.specs.Near.{kinds_near};
ghost use Rattle.tile_grid.specs.inner.Tables.{IsTable};
ghost use Rattle.tile_grid.specs.inner.Walks.{count_at, near_so_far, window_place};

use crate::window::Window;
use mill_base::bit_grid::BitGrid;
use mill_base::bit_row::BitRow;
use mill_base::limits::{MAX_ENDS, MAX_FLOAT};
use mill_base::memory::OutOfMemory;
use std::alloc::Global;

/// Which kinds are near which: each is near itself, and kinds are that have places within the limit, round the line.
/// `kinds` has the kind of each place.
pub fn walk(alloc: Global, kinds: &[u32], count: u32, limit: u32) -> Result<BitGrid, OutOfMemory>
    requires some { 0 < length kinds.now }
    requires few { length kinds.now ≤ MAX_ENDS }
    requires limit { limit ≤ MAX_FLOAT }
    requires there { (x : ℕ) → x < length kinds.now → slice_index kinds.now x < count }
    ensures { IfOk result (λ g. IsTable count (λ a b. a == b || kinds_near (length kinds.now) limit (slice_index kinds.now) a b) g) }
{
    let mut near = diagonal(alloc, count)?;
    let mut window = first_window(alloc, kinds, count, limit)?;
    let mut row = BitRow::new(alloc, count)?;
    go_round(kinds, limit, &mut window, &mut row, &mut near);
    Ok(near)
}

/// A table in which each kind is near itself alone.
fn diagonal(alloc: Global, count: u32) -> Result<BitGrid, OutOfMemory>
    ensures { IfOk result (λ g. IsTable count (λ a b. a == b) g) }
{
    let mut near = BitGrid::new(alloc, count, count)?;
    for kind in 0..count {
        near.set(kind, kind, true);
    }
    Ok(near)
}

/// The window round place 0.
fn first_window(alloc: Global, kinds: &[u32], count: u32, limit: u32) -> Result<Window, OutOfMemory>
    requires some { 0 < length kinds.now }
    requires few { length kinds.now ≤ MAX_ENDS }
    requires limit { limit ≤ MAX_FLOAT }
    requires there { (x : ℕ) → x < length kinds.now → slice_index kinds.now x < count }
    ensures len { IfOk result (λ w. length w ≡ count) }
    ensures counts { IfOk result (λ w. (b : ℕ) → b < count → slice_index w b ≡ count_at kinds.now limit 0 b) }
{
    let mut window = Window::new(alloc, count)?;
    for d in 0..2 * limit as usize + 1 {
        window.enter(kind_round(kinds, limit, 0, d));
    }
    Ok(window)
}

/// The kind of a place of the window round place x.
fn kind_round(kinds: &[u32], limit: u32, x: usize, d: usize) -> u32
    requires x { x < length kinds.now }
    requires few { length kinds.now ≤ MAX_ENDS }
    requires limit { limit ≤ MAX_FLOAT }
    requires d { d ≤ 2 * limit + 1 }
    ensures { result ≡ slice_index kinds.now (window_place (length kinds.now) limit x d) }
{
    let places = kinds.len();
    let limit = limit as usize;
    kinds[(x + places * limit - limit + d) % places]
}

/// Carries the window round the line, and adds its kinds to the row of the kind in its middle.
fn go_round(kinds: &[u32], limit: u32, window: &mut Window, row: &mut BitRow, near: &mut BitGrid)
    requires some { 0 < length kinds.now }
    requires few { length kinds.now ≤ MAX_ENDS }
    requires limit { limit ≤ MAX_FLOAT }
    requires there { (x : ℕ) → x < length kinds.now → slice_index kinds.now x < length window.old }
    requires window { (b : ℕ) → b < length window.old → slice_index window.old b ≡ count_at kinds.now limit 0 b }
    requires row { length row.old ≡ length window.old }
    requires near { IsTable (length window.old) (λ a b. a == b) near.old }
    ensures { IsTable (length window.old) (near_so_far kinds.now limit (length kinds.now)) near.new }
{
    for x in 0..kinds.len() {
        join_row(near, kinds[x], window.kinds(), row);
        window.enter(kind_round(kinds, limit, x, 2 * limit as usize + 1));
        window.leave(kind_round(kinds, limit, x, 0));
    }
}

/// Adds what is true in `more` to a row of the table. `row` is only a place to work in.
fn join_row(near: &mut BitGrid, kind: u32, more: &BitRow, row: &mut BitRow)
    requires kind { kind < length near.old.rows }
    requires more { length more.now ≡ near.old.width }
    requires row { length row.old ≡ near.old.width }
    ensures row { length row.new ≡ near.old.width }
    ensures width { near.new.width ≡ near.old.width }
    ensures height { length near.new.rows ≡ length near.old.rows }
    ensures long { length (grid_row near.new kind) ≡ near.old.width }
    ensures here { (b : ℕ) → b < near.old.width → grid_cell near.new b kind ≡ (grid_cell near.old b kind || slice_index_or more.now b false) }
    ensures others { (a : ℕ) → a ≢ kind → grid_row near.new a ≡ grid_row near.old a }
{
    row.copy_from(near.row(kind));
    row.or_range(0, more, 0, row.len());
    near.set_row(kind, row);
}
