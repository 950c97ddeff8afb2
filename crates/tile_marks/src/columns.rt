//! Tiles of one tile column.
ghost use Rattle.std.specs.Prelude.{◌≡◌, ◌*◌, ◌/◌, ◌%◌, ◌^◌, ◌<◌, ◌==◌, ◌&&◌, ◌||◌, ℕ, false, length, slice_index_or};

use mill_base::bit_row::BitRow;

/// Adds the tiles of a tile column that stand in a true tile row. `across` tiles stand side by side.
pub fn mark_column(set: &mut BitRow, rows: &BitRow, across: u32, column: u32)
    requires column { column < across }
    requires set { length set.old ≡ across * length rows.now }
    requires few { across * length rows.now < 2 ^ 32 }
    ensures len { length set.new ≡ length set.old }
    ensures tiles { (u : ℕ) → u < length set.old
        → slice_index_or set.new u false
        ≡ (slice_index_or set.old u false || (column == u % across && slice_index_or rows.now (u / across) false)) }
{
    let mut from = 0;
    while let Some(row) = rows.next_true(from) {
        set.set(row * across + column, true);
        from = row + 1;
    }
}
