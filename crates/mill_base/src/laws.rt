//! Laws of the definitions that the crates above cite. Each function does nothing: its clauses are the law.
ghost use Rattle.std.specs.Prelude.{◌≡◌, ◌+◌, ◌-◌, ◌*◌, ◌/◌, ◌%◌, ◌<◌, ◌≤◌, ◌==◌, ◌↔◌, ℕ, Bool, true, false, List, length, slice_index, slice_index_or, IsTrue};
ghost use Rattle.std.specs.Int.{bit_at};
ghost use Rattle.mill_base.specs.Below.{any_below, all_below, count_below};
ghost use Rattle.mill_base.specs.Bits.{packed};
ghost use Rattle.mill_base.specs.Grids.{GridCells, grid_row, grid_cell, transposed};
ghost use Rattle.mill_base.specs.Lines.{line_by};

/// A line by a formula has as many items as it says, and item k is the formula's.
pub fn a_line_is_its_items<T>()
    ensures length { (n : ℕ) (item : ℕ → T) → length (line_by n item) ≡ n }
    ensures items { (n k : ℕ) (item : ℕ → T) (d : T) → k < n → slice_index_or (line_by n item) k d ≡ item k }
{}

/// A packed row has a byte for each eight positions; position k stands in bit 7 - k mod 8 of byte k div 8; bits past the last position
/// are 0; and rows of one length with the same bytes are one row.
pub fn a_packed_row_has_its_positions()
    ensures length { (row : List Bool) → length (packed row) ≡ (length row + 7) / 8 }
    ensures bits { (row : List Bool) (k : ℕ) → k < length row → (bit_at (slice_index (packed row) (k / 8)) (7 - k % 8) == 1) ≡ slice_index_or row k false }
    ensures pad { (row : List Bool) (k : ℕ) → length row ≤ k → k < 8 * length (packed row) → (bit_at (slice_index (packed row) (k / 8)) (7 - k % 8) == 1) ≡ false }
    ensures same { (row line : List Bool) → length row ≡ length line → packed row ≡ packed line → row ≡ line }
{}

/// `any_below` says that some number below n passes, `all_below` that each does, and `count_below` is 0 where none does.
pub fn tests_below_a_bound_are_of_its_numbers()
    ensures some { (p : ℕ → Bool) (n : ℕ) → IsTrue (any_below p n) ↔ ((i : ℕ) × (i < n) × (p i ≡ true)) }
    ensures each { (p : ℕ → Bool) (n : ℕ) → IsTrue (all_below p n) ↔ ((i : ℕ) → i < n → p i ≡ true) }
    ensures none { (p : ℕ → Bool) (n : ℕ) → (count_below p n ≡ 0) ↔ ((i : ℕ) → i < n → p i ≡ false) }
{}

/// Row j of a transposed grid is column j of the grid.
pub fn a_transposed_grid_has_its_columns()
    ensures width { (grid : GridCells) (j : ℕ) → j < grid.width → length (grid_row (transposed grid) j) ≡ length grid.rows }
    ensures height { (grid : GridCells) → length (transposed grid).rows ≡ grid.width }
    ensures cells { (grid : GridCells) (column row : ℕ) → column < grid.width → row < length grid.rows → grid_cell (transposed grid) row column ≡ grid_cell grid column row }
{}
