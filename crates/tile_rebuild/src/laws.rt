//! Laws of the definitions, for every design and every paper. They compute nothing: each is the contract of a function without result.
ghost use Rattle.std.specs.Prelude.{◌≡◌, ℕ};
ghost use Rattle.harness_ties.specs.Ties.{IsTie};
ghost use Rattle.point_paper.specs.Papers.{BitCells, PaperCells, bit_cell, cell_of};
ghost use Rattle.draft_model.specs.declared.design.Design.{Design};
ghost use Rattle.draft_model.specs.Designs.{Fits, IsBitsOf, IsPaperOf};
ghost use Rattle.draft_model.specs.Drawdowns.{column_long};
ghost use Rattle.tile_rebuild.specs.Tiles.{AgreeIn, AgreeNear, bound_in, grid_of, has_long};

/// The locality law: two papers that agree on the tiles near a tile have the same bound cells in it, and two bit papers that agree there
/// have the same long cells in it, and so a long cell in it or none.
pub fn near_tiles_decide_a_tile()
    ensures bound { (design : Design) (tile : ℕ) (one other : PaperCells) → IsTie design.tie → Fits design
        → IsPaperOf design one → IsPaperOf design other
        → AgreeNear (grid_of design) tile (cell_of one) (cell_of other)
        → AgreeIn (grid_of design) tile (bound_in design one) (bound_in design other) }
    ensures long { (design : Design) (tile : ℕ) (one other : BitCells) → IsTie design.tie → Fits design
        → IsBitsOf design one → IsBitsOf design other
        → AgreeNear (grid_of design) tile (bit_cell one) (bit_cell other)
        → AgreeIn (grid_of design) tile (column_long design one) (column_long design other) }
    ensures flag { (design : Design) (tile : ℕ) (one other : BitCells) → IsTie design.tie → Fits design
        → IsBitsOf design one → IsBitsOf design other
        → AgreeNear (grid_of design) tile (bit_cell one) (bit_cell other)
        → has_long design one tile ≡ has_long design other tile }
{
    draft_model::laws::two_lines_decide_a_cell();
    draft_model::laws::cells_within_the_limits_decide();
    tile_grid::laws::nearness_goes_both_ways();
    tile_grid::laws::near_cells_are_of_near_tiles();
}
