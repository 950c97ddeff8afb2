//! Laws of the definitions, which callers learn by a call. Each function does nothing: its clauses are the law.
ghost use Rattle.std.specs.Prelude.{◌≡◌, ◌<◌, ◌/◌, ◌==◌, ◌&&◌, ◌||◌, ◌↔◌, ℕ, ℤ, true, length, slice_index, IsTrue};
ghost use Rattle.mill_base.specs.Below.{count_below};
ghost use Rattle.mill_base.specs.Lines.{remainder};
ghost use Rattle.tile_grid.specs.Near.{AreWithin, IsNearAt, cells_near, is_near, near, near_columns, near_rows};
ghost use Rattle.tile_grid.specs.Tiles.{GridValue, IsTileGrid, tile_column, tile_of, tile_row, tiles};

/// A tile is near itself, and of two tiles each is near the other or neither is.
pub fn nearness_goes_both_ways()
    ensures itself { (grid : GridValue) (t : ℕ) → near grid t t ≡ true }
    ensures symmetric { (grid : GridValue) (t u : ℕ) → near grid t u ≡ near grid u t }
{}

/// Near tiles stand in one tile row, with near tile columns, or in one tile column, with near tile rows. So a grid
/// keeps a row of truth values for each tile column and each tile row, and none for each tile.
pub fn near_tiles_share_a_row_or_a_column()
    ensures { (grid : GridValue) (t u : ℕ) → IsTileGrid grid → t < tiles grid
        → near grid t u
        ≡ ((tile_row grid t == tile_row grid u && near_columns grid (tile_column grid t) (tile_column grid u))
        || (tile_column grid t == tile_column grid u && near_rows grid (tile_row grid t) (tile_row grid u))) }
{}

/// The tile of a cell is there, and cells that are near one another are of near tiles: on one pick those of two ends
/// within the weft limit, and in one column those of two picks within the warp limit.
pub fn near_cells_are_of_near_tiles()
    ensures there { (grid : GridValue) (c p : ℕ) → IsTileGrid grid → c < grid.columns → p < grid.picks → tile_of grid c p < tiles grid }
    ensures cells { (grid : GridValue) (c p d q : ℕ) → c < grid.columns → p < grid.picks → d < grid.columns → q < grid.picks
        → cells_near grid c p d q ≡ true → near grid (tile_of grid c p) (tile_of grid d q) ≡ true }
    ensures ends { (grid : GridValue) (e f p : ℕ) → IsTileGrid grid → e < length grid.tie → f < length grid.tie → p < grid.picks
        → is_near (length grid.tie) grid.weft_limit e f ≡ true
        → near grid (tile_of grid (slice_index grid.tie e) p) (tile_of grid (slice_index grid.tie f) p) ≡ true }
    ensures picks { (grid : GridValue) (c p q : ℕ) → c < grid.columns → p < grid.picks → q < grid.picks
        → is_near grid.picks grid.warp_limit p q ≡ true → near grid (tile_of grid c p) (tile_of grid c q) ≡ true }
{}

/// Each near tile is the k-th for one k, which is below the number of near tiles, and no other tile is the k-th.
pub fn each_near_tile_has_its_place()
    ensures place { (grid : GridValue) (t u : ℕ) → u < tiles grid → near grid t u ≡ true
        → count_below (near grid t) u < count_below (near grid t) (tiles grid) }
    ensures one { (grid : GridValue) (t k u v : ℕ) → IsNearAt grid t k u → IsNearAt grid t k v → u ≡ v }
{}

/// Places of a line of n places that is followed round its edge for ever: x and y are near where whole numbers at most
/// the limit apart are x and y but for whole turns.
pub fn near_places_are_those_of_near_whole_numbers()
    ensures { (n limit x y : ℕ) → x < n → y < n
        → IsTrue (is_near n limit x y) ↔ ((v : ℤ) × (w : ℤ) × AreWithin limit v w × (remainder v n ≡ x) × (remainder w n ≡ y)) }
{}
