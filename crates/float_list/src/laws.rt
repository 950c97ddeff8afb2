//! Laws of the list, for every design and every paper. They compute nothing: each is the contract of a function without result.
ghost use Rattle.std.specs.Prelude.{◌≡◌, ◌<◌, ℕ, length, is_some, slice_get, All};
ghost use Rattle.std.specs.Option.{option_map};
ghost use Rattle.point_paper.specs.Papers.{BitCells};
ghost use Rattle.draft_model.specs.declared.design.Design.{Design};
ghost use Rattle.draft_model.specs.Floats.{keeps, first_float};
ghost use Rattle.float_list.specs.Floats.{floats_of};
ghost use Rattle.float_list.specs.Lists.{told};

/// The first of all floats is the one that is told where a commit is refused, and there is none exactly where the cloth keeps none.
pub fn the_first_is_the_first_float()
    ensures first { (design : Design) (bits : BitCells) → option_map told (slice_get (floats_of design bits) 0) ≡ first_float design bits }
    ensures none { (design : Design) (bits : BitCells) → 0 < length design.tie.ends → 0 < length bits.rows
        → is_some (slice_get (floats_of design bits) 0) ≡ keeps design bits }
{
    draft_model::laws::a_cloth_keeps_a_float_where_one_is_told();
}
