//! Laws of the definitions, which callers learn by a call. Each function does nothing: its clauses are the law.
ghost use Rattle.std.specs.Prelude.{◌≡◌, ◌<◌, ◌||◌, ℕ, Bool, List, false, true, length, slice_index_or};
ghost use Rattle.tile_grid.specs.Near.{near};
ghost use Rattle.tile_grid.specs.Tiles.{GridValue};
ghost use Rattle.tile_marks.specs.Marks.{with_near};

/// A set with the tiles near a tile has as many places as before, those tiles, what it had, and nothing else; the tile
/// itself is in it.
pub fn a_set_with_near_tiles_has_those_and_no_others()
    ensures len { (grid : GridValue) (tile : ℕ) (set : List Bool) → length (with_near grid tile set) ≡ length set }
    ensures tiles { (grid : GridValue) (tile u : ℕ) (set : List Bool) → u < length set
        → slice_index_or (with_near grid tile set) u false ≡ (slice_index_or set u false || near grid tile u) }
    ensures itself { (grid : GridValue) (tile : ℕ) (set : List Bool) → tile < length set
        → slice_index_or (with_near grid tile set) tile false ≡ true }
{}
