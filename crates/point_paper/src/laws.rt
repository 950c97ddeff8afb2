//! What the definitions of papers say, proved of every paper.
ghost use Rattle.std.specs.Prelude.{◌≡◌, ℕ, ◌<◌, length, slice_index};
ghost use Rattle.point_paper.specs.Papers.{PaperCells, HaveSameCells, IsPaper, cell_of, pick_of, column_of, paper_by, BitCells, HaveSameBits, IsBitPaper};

/// Two papers of one size that have the same cells are one paper.
pub fn a_paper_is_its_cells()
    ensures { (one other : PaperCells) → IsPaper one → IsPaper other → HaveSameCells one other → one ≡ other }
{}

/// The paper of a formula has as many cells as its size says, and each of them has the formula's colour number.
pub fn the_paper_of_a_formula_has_its_cells()
    ensures whole { (columns picks : ℕ) (cell : ℕ → ℕ → ℕ) → IsPaper (paper_by columns picks cell) }
    ensures cells { (columns picks : ℕ) (cell : ℕ → ℕ → ℕ) (column pick : ℕ) → column < columns → pick < picks
        → cell_of (paper_by columns picks cell) column pick ≡ cell column pick }
{}

/// A whole pick has a place for each column, and a whole column one for each pick; the cells stand there in order.
pub fn a_line_is_its_cells()
    ensures picks { (paper : PaperCells) (column pick : ℕ) → column < paper.columns
        → slice_index (pick_of paper pick) column ≡ cell_of paper column pick }
    ensures columns { (paper : PaperCells) (column pick : ℕ) → pick < paper.picks
        → slice_index (column_of paper column) pick ≡ cell_of paper column pick }
    ensures lengths { (paper : PaperCells) (k : ℕ)
        → (length (pick_of paper k) ≡ paper.columns) × (length (column_of paper k) ≡ paper.picks) }
{}

/// Two bit papers of one size that have the same truth value in each cell are one bit paper.
pub fn a_bit_paper_is_its_cells()
    ensures { (one other : BitCells) → IsBitPaper one → IsBitPaper other → HaveSameBits one other → one ≡ other }
{}
