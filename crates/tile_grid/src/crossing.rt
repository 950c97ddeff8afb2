//! The tiles of one tile row and one tile column, in rising order.
ghost use Rattle.std.specs.Prelude.{◌≡◌, ◌+◌, ◌-◌, ◌*◌, ◌/◌, ◌%◌, ◌^◌, ◌<◌, ◌≤◌, ℕ, true, false, count_by, length, slice_index_or};
ghost use Rattle.tile_grid.specs.inner.Tables.{IsCrossedAt};

use crate::set_bits::{count_before, nth_true};
use mill_base::bit_row::BitRow;

/// The k-th of the tiles that stand in a tile row and in a true tile column, or in a tile column and in a true tile
/// row, where the tile of both is among them. In rising order these are the ones below the tile row, those of the tile
/// row, and the ones above.
pub fn nth_crossed(columns: &BitRow, rows: &BitRow, tile_column: u32, tile_row: u32, k: u32) -> u32
    requires few { length columns.now * length rows.now < 2 ^ 32 }
    requires tile_column { tile_column < length columns.now }
    requires tile_row { tile_row < length rows.now }
    requires column { slice_index_or columns.now tile_column false ≡ true }
    requires row { slice_index_or rows.now tile_row false ≡ true }
    requires k { k + 1 < count_by (λ b. b) columns.now + count_by (λ b. b) rows.now }
    ensures { IsCrossedAt columns.now rows.now tile_column tile_row k result }
{
    let across = columns.len();
    let below = count_before(rows, tile_row);
    if k < below {
        return nth_true(rows, k) * across + tile_column;
    }
    let beside = columns.count();
    if k - below < beside {
        return tile_row * across + nth_true(columns, k - below);
    }
    nth_true(rows, k + 1 - beside) * across + tile_column
}
