//! Walks over sets of tiles, from the lowest tile on.
ghost use Rattle.std.specs.Prelude.{◌≡◌, ◌↔◌, ℕ, ◌^◌, ◌<◌, ◌||◌, false, true, length, slice_index_or, None, IfSome, IsTrue};
ghost use Rattle.mill_base.specs.Firsts.{IsFirstTrue};
ghost use Rattle.tile_grid.specs.Tiles.{tiles};
ghost use Rattle.tile_marks.specs.Marks.{NoneFrom};
ghost use Rattle.studio_core.specs.Gives.{IsNearClear};
ghost use Rattle.studio_core.specs.Touches.{near_any};

use tile_grid::grid::Grid;
use tile_marks::marks::Marks;

/// The first tile of a set from `from` on.
pub(crate) fn next_from(set: &Marks, from: u32) -> Option<u32>
    ensures some { IfSome result (IsFirstTrue set.now from) }
    ensures none { result ≡ None → NoneFrom set.now from }
{
    let tile = set.next(from)?;
    if tile < from {
        return None;
    }
    Some(tile)
}

/// Adds to a set the tiles that are near a tile of another.
pub(crate) fn mark_near(grid: &Grid, of: &Marks, set: &mut Marks)
    requires of { length of.now ≡ tiles grid.now }
    requires set { length set.old ≡ tiles grid.now }
    ensures len { length set.new ≡ length set.old }
    ensures tiles { (u : ℕ) → u < tiles grid.now
        → slice_index_or set.new u false ≡ (slice_index_or set.old u false || near_any grid.now (λ t. slice_index_or of.now t false) u) }
{
    tile_marks::laws::a_set_with_near_tiles_has_those_and_no_others();
    grid.tiles();
    let mut from = 0;
    while let Some(tile) = next_from(of, from) {
        set.mark_near(grid, tile);
        from = tile + 1;
    }
}

/// Whether no tile near a tile is in a set. The near tiles are gathered in another set, whatever it had before.
pub(crate) fn is_near_clear(grid: &Grid, tile: u32, set: &Marks, near: &mut Marks) -> bool
    requires tile { tile < tiles grid.now }
    requires set { length set.now ≡ tiles grid.now }
    requires near { length near.old ≡ tiles grid.now }
    ensures clear { IsTrue result ↔ IsNearClear grid.now tile set.now }
    ensures near { length near.new ≡ length near.old }
{
    tile_marks::laws::a_set_with_near_tiles_has_those_and_no_others();
    grid.tiles();
    near.clear_all();
    near.mark_near(grid, tile);
    are_apart(near, set)
}

// Whether two sets have no tile in common.
fn are_apart(one: &Marks, other: &Marks) -> bool
    requires sets { length one.now ≡ length other.now }
    requires few { length one.now < 2 ^ 32 }
    ensures { IsTrue result ↔ ((u : ℕ) → slice_index_or one.now u false ≡ true → slice_index_or other.now u false ≡ false) }
{
    let mut from = 0;
    while let Some(tile) = next_from(one, from) {
        if other.has(tile) {
            return false;
        }
        from = tile + 1;
    }
    true
}
