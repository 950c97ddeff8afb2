//! Laws of lifting: what a loom weaves from cards is the cloth. They compute nothing: each is the contract of a
//! function without result.
ghost use Rattle.std.specs.Prelude.{◌≡◌, ◌<◌, ℕ, pos, List, [], All, length, slice_index_or};
ghost use Rattle.mill_base.specs.Lines.{line_by};
ghost use Rattle.mill_base.specs.declared.face.Face.{Face};
ghost use Rattle.casting_out.specs.Castings.{CastingValue, IsCasting};
ghost use Rattle.point_paper.specs.Papers.{BitCells, PaperCells};
ghost use Rattle.draft_model.specs.declared.design.Design.{Design};
ghost use Rattle.draft_model.specs.Cards.{lift, woven};
ghost use Rattle.draft_model.specs.Cloths.{cloth};
ghost use Rattle.draft_model.specs.Designs.{Fits};
ghost use Rattle.draft_model.specs.Drawdowns.{bound, drawdown};
ghost use Rattle.card_image.specs.Sets.{cards_up, turned_card};

use mill_base::face::Face;

/// What the machine lifts from the card that was cut of a pick is the pick of the cloth; what it lifts from the turned
/// card, read on its face, is the same.
pub fn cut_cards_lift_the_cloth()
    ensures up { (tie : List ℕ) (casting : CastingValue) (bits : BitCells) (p : ℕ) → IsCasting casting
        → All (λ column. column < length casting.columns) tie → p < length bits.rows
        → lift tie casting (slice_index_or (cards_up casting bits) p [])
        ≡ line_by (length tie) (λ e. cloth tie bits (pos e) (pos p)) }
    ensures down { (tie : List ℕ) (casting : CastingValue) (bits : BitCells) (p : ℕ) → IsCasting casting
        → All (λ column. column < length casting.columns) tie → p < length bits.rows
        → woven Face.Down (lift tie casting (turned_card casting.hooks casting.columns (slice_index_or
        (cards_up casting bits) p [])))
        ≡ line_by (length tie) (λ e. cloth tie bits (pos e) (pos p)) }
{
    draft_model::laws::what_is_lifted_is_the_cloth();
    card_image::laws::cut_cards_are_those_of_the_picks();
    card_image::laws::turned_cards_are_those_of_the_other_face();
}

/// What the machine lifts from the cut cards of a bound paper is the paper's drawdown, row by row.
pub fn cut_cards_lift_the_drawdown()
    ensures { (design : Design) (paper : PaperCells) (p : ℕ) → IsCasting design.casting → Fits design → p < paper.picks
        → lift design.tie.ends design.casting (slice_index_or (cards_up design.casting (bound design paper)) p [])
        ≡ slice_index_or (drawdown design paper).rows p [] }
{
    cut_cards_lift_the_cloth();
}
