//! The tile columns of the ends and the tile rows of the picks, and which of them are near one another.
ghost use Rattle.std.specs.Prelude.{◌≡◌, ◌/◌, ◌<◌, ◌≤◌, ◌==◌, ◌||◌, ℕ, All, length, slice_index, IfOk};
ghost use Rattle.mill_base.specs.Limits.{IsWithin};
ghost use Rattle.mill_base.specs.Lines.{line_by};
ghost use Rattle.tile_grid.specs.Tiles.{tiles_along as along};
ghost use Rattle.tile_grid.specs.Near.{kinds_near};
ghost use Rattle.tile_grid.specs.inner.Tables.{IsTable};

use crate::walk::walk;
use mill_base::bit_grid::BitGrid;
use mill_base::limits::{MAX_ENDS, MAX_FLOAT, MAX_PICKS, MAX_TILE, MIN_TILE};
use mill_base::memory::OutOfMemory;
use std::alloc::Global;

/// How many tiles a line of so many places takes.
#[tactic(auto, unfolding(crate::specs::Tiles::tiles_along))]
fn tiles_along(places: u32, side: u32) -> u32
    requires places { IsWithin 1 places MAX_PICKS }
    requires side { IsWithin MIN_TILE side MAX_TILE }
    ensures { result ≡ along places side }
{
    (places + side - 1) / side
}

/// Which tile columns have ends within the limit, round the repeat.
pub fn tile_columns(
    alloc: Global,
    columns_of_ends: &[u32],
    columns: u32,
    side: u32,
    limit: u32,
) -> Result<BitGrid, OutOfMemory>
    requires ends { IsWithin 1 (length columns_of_ends.now) MAX_ENDS }
    requires there { All (λ column. column < columns) columns_of_ends.now }
    requires columns { IsWithin 1 columns MAX_PICKS }
    requires side { IsWithin MIN_TILE side MAX_TILE }
    requires limit { limit ≤ MAX_FLOAT }
    ensures { IfOk result (λ g. IsTable (along columns side)
        (λ i j. i == j || kinds_near (length columns_of_ends.now) limit (λ e. slice_index columns_of_ends.now e / side) i j) g) }
{
    let kinds = kinds_of_ends(alloc, columns_of_ends, side)?;
    walk(alloc, &kinds, tiles_along(columns, side), limit)
}

/// Which tile rows have picks within the limit, round the repeat.
pub fn tile_rows(alloc: Global, picks: u32, side: u32, limit: u32) -> Result<BitGrid, OutOfMemory>
    requires picks { IsWithin 1 picks MAX_PICKS }
    requires side { IsWithin MIN_TILE side MAX_TILE }
    requires limit { limit ≤ MAX_FLOAT }
    ensures { IfOk result (λ g. IsTable (along picks side) (λ i j. i == j || kinds_near picks limit (λ p. p / side) i j) g) }
{
    let kinds = kinds_of_picks(alloc, picks, side)?;
    walk(alloc, &kinds, tiles_along(picks, side), limit)
}

/// The tile column of each end.
fn kinds_of_ends(alloc: Global, columns_of_ends: &[u32], side: u32) -> Result<Vec<u32>, OutOfMemory>
    requires { 0 < side }
    ensures { IfOk result (λ v. v.items ≡ line_by (length columns_of_ends.now) (λ e. slice_index columns_of_ends.now e / side)) }
{
    let mut kinds = Vec::with_capacity(alloc, columns_of_ends.len())?;
    for column in columns_of_ends {
        kinds.push(*column / side)?;
    }
    Ok(kinds)
}

/// The tile row of each pick.
fn kinds_of_picks(alloc: Global, picks: u32, side: u32) -> Result<Vec<u32>, OutOfMemory>
    requires { 0 < side }
    ensures { IfOk result (λ v. v.items ≡ line_by picks (λ p. p / side)) }
{
    let mut kinds = Vec::with_capacity(alloc, picks as usize)?;
    for pick in 0..picks {
        kinds.push(pick / side)?;
    }
    Ok(kinds)
}
