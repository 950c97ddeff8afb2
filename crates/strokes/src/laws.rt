//! Laws of the definitions: facts about every act, every motif and every list of spans, which callers learn by a call.
ghost use Rattle.std.specs.Prelude.{◌≡◌, ◌≢◌, ◌<◌, ℕ, List, All, length, slice_index_or, Some, None, IfSome, unwrap_or};
ghost use Rattle.mill_base.specs.declared.size.Size.{Size};
ghost use Rattle.point_paper.specs.Papers.{IsPaper, PaperCells, cell_of, paper_by};
ghost use Rattle.point_paper.specs.declared.paper.Span.{Span};
ghost use Rattle.strokes.specs.Cells.{HasColours, IsMotif, IsNoLarger, MotifCells};
ghost use Rattle.strokes.specs.Motifs.{motif_fault, motif_number, motif_of};
ghost use Rattle.strokes.specs.Paints.{after, paints, size_of};
ghost use Rattle.strokes.specs.Places.{HasColour, motif_of_act};
ghost use Rattle.strokes.specs.Spans.{AreSpansOf, after_spans, cover};
ghost use Rattle.strokes.specs.declared.act.Act.{Act};
ghost use Rattle.strokes.specs.declared.motifs.NamedMotif.{NamedMotif};

/// Spans that are painted one after another leave in each cell the colour of the last of them that has it, and else
/// what was there.
pub fn spans_are_painted_one_after_another()
    ensures { (paper : PaperCells) (spans : List Span) → IsPaper paper
        → after_spans paper spans ≡ paper_by paper.columns paper.picks (λ c p. unwrap_or (cover spans c p) (cell_of paper c p)) }
{}

/// The spans of an act, painted one after another, leave the paper after the act.
pub fn the_spans_of_an_act_paint_it()
    ensures { (motif : MotifCells) (paper : PaperCells) (act : Act) (spans : List Span) → IsPaper paper → AreSpansOf motif (size_of paper) act spans
        → after_spans paper spans ≡ after motif paper act }
{}

/// A commit leaves the paper as it is.
pub fn a_commit_changes_no_paper()
    ensures { (motif : MotifCells) (paper : PaperCells) → IsPaper paper → after motif paper Act.Commit ≡ paper }
{}

/// An act paints with colours of the book, where its own colour and those of the motif that it names are in the book.
pub fn an_act_paints_with_colours_of_the_book()
    ensures { (colours : ℕ) (motif : MotifCells) (size : Size) (act : Act) (c p : ℕ) → HasColour colours act → HasColours colours motif
        → IfSome (paints motif size act c p) (λ colour. colour < colours) }
{}

/// Rows without a fault spell a motif that is no larger than the paper, with colours of the book.
pub fn rows_without_a_fault_make_a_motif()
    ensures whole { (rows : List (List ℕ)) (colours : ℕ) (size : Size) → motif_fault rows colours size ≡ None → IsMotif (motif_of rows) }
    ensures small { (rows : List (List ℕ)) (colours : ℕ) (size : Size) → motif_fault rows colours size ≡ None → IsNoLarger (motif_of rows) size }
    ensures colours { (rows : List (List ℕ)) (colours : ℕ) (size : Size) → motif_fault rows colours size ≡ None → HasColours colours (motif_of rows) }
{}

/// The motif that an act names is no larger than the paper and has colours of the book, where this holds of each motif.
/// The motif without a cell, which goes with acts that name none, is no larger than any paper.
pub fn the_motif_of_an_act_is_one_of_the_motifs()
    ensures small { (motifs : List NamedMotif) (size : Size) (act : Act) → All (λ m. IsNoLarger m.motif size) motifs → IsNoLarger (motif_of_act motifs act) size }
    ensures colours { (motifs : List NamedMotif) (colours : ℕ) (act : Act) → All (λ m. HasColours colours m.motif) motifs → HasColours colours (motif_of_act motifs act) }
{}

/// The number of a name is the least of a motif that has it, and there is none exactly where no motif has it.
pub fn the_number_of_a_name_is_the_least()
    ensures some { (motifs : List NamedMotif) (name : List ℕ) (number : ℕ) (d : NamedMotif) → motif_number motifs name ≡ Some number
        → (number < length motifs) × ((slice_index_or motifs number d).name ≡ name)
        × ((k : ℕ) → k < number → (slice_index_or motifs k d).name ≢ name) }
    ensures none { (motifs : List NamedMotif) (name : List ℕ) (k : ℕ) (d : NamedMotif) → motif_number motifs name ≡ None → k < length motifs
        → (slice_index_or motifs k d).name ≢ name }
{}
