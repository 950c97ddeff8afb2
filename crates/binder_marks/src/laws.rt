//! Laws of a bound line, over the definitions alone: each function's contract is the law, and its body does nothing.
ghost use Rattle.std.specs.Prelude.{◌≡◌, ◌<◌, ℕ, Bool, false, List, length, slice_index_or};
ghost use Rattle.binder_marks.specs.Bound.{bound_at, bound_line};

/// A bound line is as long as its raw line, and each of its cells is that of the rule.
pub fn a_bound_line_is_its_cells()
    ensures length { (raw long raise sink : List Bool) → length (bound_line raw long raise sink) ≡ length raw }
    ensures cells { (raw long raise sink : List Bool) (k : ℕ) → k < length raw
        → slice_index_or (bound_line raw long raise sink) k false ≡ bound_at raw long raise sink k }
{}

/// A line without a long cell stays as it is.
pub fn a_line_without_a_long_cell_stays()
    ensures { (raw long raise sink : List Bool) → ((k : ℕ) → k < length raw → slice_index_or long k false ≡ false)
        → bound_line raw long raise sink ≡ raw }
{}
