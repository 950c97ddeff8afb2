//! Laws of the cloth, for every design and every paper. They compute nothing: each is the contract of a function without result.
ghost use Rattle.std.specs.Prelude.{◌≡◌, ◌<◌, ◌&&◌, ◌||◌, ℕ, ℤ, pos, false, is_some, length, slice_index, slice_index_or, List, Bool, None, All};
ghost use Rattle.std.specs.List.{list_any};
ghost use Rattle.mill_base.specs.Lines.{line_by};
ghost use Rattle.mill_base.specs.declared.face.Face.{Face};
ghost use Rattle.harness_ties.specs.Ties.{IsTie};
ghost use Rattle.casting_out.specs.Castings.{CastingValue, IsCasting, column_of};
ghost use Rattle.cloth_floats.specs.Floats.{runs_of, is_over, runs_through};
ghost use Rattle.cloth_floats.specs.Windows.{is_long};
ghost use Rattle.point_paper.specs.Papers.{BitCells, PaperCells, bit_cell};
ghost use Rattle.draft_model.specs.declared.design.Design.{Design};
ghost use Rattle.draft_model.specs.Cards.{card, lift, woven};
ghost use Rattle.draft_model.specs.Cells.{long_cell_by, bound_by, AgreeAround};
ghost use Rattle.draft_model.specs.Cloths.{cloth, raw, raw_cell};
ghost use Rattle.draft_model.specs.Designs.{Fits, IsPaperOf};
ghost use Rattle.draft_model.specs.Drawdowns.{bound, column_long};
ghost use Rattle.draft_model.specs.Floats.{long, keeps, first_float, is_over_at, weft_line, warp_line};

/// A cell is long along its pick or along its end: on the cloth that never ends just where it is on the two lines of one repeat, followed
/// round their edges.
pub fn a_cell_is_long_along_its_pick_or_its_end()
    ensures { (design : Design) (bits : BitCells) (e p : ℕ) → e < length design.tie.ends → p < length bits.rows
        → long design bits (pos e) (pos p)
        ≡ (is_long (weft_line design.tie.ends bits p) design.weft_back design.weft_face e
        || is_long (warp_line design.tie.ends bits e) design.warp_face design.warp_back p) }
{}

/// The float law: a cell is long exactly where a float over its limit runs through it, along the pick or along the end.
pub fn a_cell_is_long_where_a_float_over_its_limit_runs()
    ensures { (design : Design) (bits : BitCells) (e p : ℕ) → e < length design.tie.ends → p < length bits.rows
        → long design bits (pos e) (pos p)
        ≡ (list_any (λ run. is_over design.weft_back design.weft_face run && runs_through (weft_line design.tie.ends bits p) run e) (runs_of (weft_line design.tie.ends bits p))
        || list_any (λ run. is_over design.warp_face design.warp_back run && runs_through (warp_line design.tie.ends bits e) run p) (runs_of (warp_line design.tie.ends bits e))) }
{
    a_cell_is_long_along_its_pick_or_its_end();
    cloth_floats::laws::a_position_is_long_where_a_float_over_its_limit_runs();
}

/// A cloth keeps a float over its limit exactly where its first one is told, that is where some cell of it is long.
pub fn a_cloth_keeps_a_float_where_one_is_told()
    ensures { (design : Design) (bits : BitCells) → 0 < length design.tie.ends → 0 < length bits.rows → keeps design bits ≡ is_some (first_float design bits) }
{
    cloth_floats::laws::no_float_is_over_its_limit_where_no_position_is_long();
}

/// The equal-limits law: where floats on the face and on the back have one limit, along picks and along ends, a cell is long exactly where
/// it stands in a window of equal cells of one cell more than the limit.
pub fn equal_limits_need_no_face()
    ensures { (design : Design) (bits : BitCells) (e p : ℤ) → design.weft_face ≡ design.weft_back → design.warp_face ≡ design.warp_back
        → long design bits e p
        ≡ (is_over_at (λ x. cloth design.tie.ends bits x p) design.weft_face e || is_over_at (λ y. cloth design.tie.ends bits e y) design.warp_face p) }
{}

/// The lift law: for each face, what the machine lifts from the card of a pick, read on its face, is the pick of the cloth. A card has no
/// hole at a hook on which no column hangs, be it cast out or idle.
pub fn what_is_lifted_is_the_cloth()
    ensures row { (tie : List ℕ) (casting : CastingValue) (bits : BitCells) (face : Face) (p : ℕ) → IsCasting casting
        → All (λ column. column < length casting.columns) tie → p < length bits.rows
        → woven face (lift tie casting (card casting bits face p)) ≡ line_by (length tie) (λ e. cloth tie bits (pos e) (pos p)) }
    ensures idle { (casting : CastingValue) (bits : BitCells) (face : Face) (p h : ℕ) → column_of casting.columns h ≡ None
        → slice_index_or (card casting bits face p) h false ≡ false }
{
    casting_out::laws::holes_are_cells();
}

/// A pick and a column decide the cell in which they cross: where some end of a column is long, and its bound cell, is told by the two
/// lines alone.
pub fn two_lines_decide_a_cell()
    ensures long { (design : Design) (bits : BitCells) (column pick : ℕ) → IsTie design.tie → column < design.tie.columns
        → length bits.rows ≡ design.size.picks → pick < design.size.picks
        → column_long design bits column pick ≡ long_cell_by design (λ x. bit_cell bits x pick) (λ y. bit_cell bits column y) column pick }
    ensures bound { (design : Design) (paper : PaperCells) (column pick : ℕ) → IsTie design.tie → Fits design → IsPaperOf design paper
        → column < design.size.columns → pick < design.size.picks
        → bit_cell (bound design paper) column pick
        ≡ bound_by design (λ x. raw_cell design.book paper x pick) (λ y. raw_cell design.book paper column y) column pick }
{
    a_cell_is_long_along_its_pick_or_its_end();
    harness_ties::laws::ends_of_a_column();
}

/// The locality law of a cell: lines that agree within the limits around a cell have the same answer there, and the same bound cell where
/// they have the same cell.
pub fn cells_within_the_limits_decide()
    ensures long { (design : Design) (row other_row cells other_cells : ℕ → Bool) (column pick : ℕ) → pick < design.size.picks
        → AgreeAround design row other_row cells other_cells column pick
        → long_cell_by design row cells column pick ≡ long_cell_by design other_row other_cells column pick }
    ensures bound { (design : Design) (row other_row cells other_cells : ℕ → Bool) (column pick : ℕ) → pick < design.size.picks
        → AgreeAround design row other_row cells other_cells column pick → row column ≡ other_row column
        → bound_by design row cells column pick ≡ bound_by design other_row other_cells column pick }
{
    cloth_floats::laws::cells_within_the_limit_decide();
}
