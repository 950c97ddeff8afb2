//! Laws of the files: facts about every design and every paper, which callers learn by a call.
ghost use Rattle.std.specs.Prelude.{◌≡◌, ℕ, Bool, List};
ghost use Rattle.mill_base.specs.declared.face.Face.{Face};
ghost use Rattle.casting_out.specs.Castings.{IsCasting};
ghost use Rattle.point_paper.specs.Papers.{PaperCells};
ghost use Rattle.card_image.specs.Chains.{Chain};
ghost use Rattle.card_image.specs.Sets.{design_by};
ghost use Rattle.draft_model.specs.declared.design.Design.{Design};
ghost use Rattle.draft_model.specs.Designs.{Fits};
ghost use Rattle.draft_model.specs.Drawdowns.{drawdown};
ghost use Rattle.cloth_files.specs.Cards.{cloth_of_cards, paper_cards};

/// Lifting the chain of a paper gives its drawdown, for a cloth of each face.
pub fn lifting_the_chain_of_a_paper_gives_its_drawdown()
    ensures cards { (design : Design) (face : Face) (paper : PaperCells) → Fits design → IsCasting design.casting
        → cloth_of_cards design face (paper_cards design face paper) ≡ drawdown design paper }
    ensures chain { (design : Design) (face other : Face) (paper : PaperCells) (bytes : List ℕ) (cards : List (List Bool))
        → Fits design → IsCasting design.casting
        → Chain (design_by design.casting paper.picks) bytes face (paper_cards design face paper)
        → Chain (design_by design.casting paper.picks) bytes other cards
        → cloth_of_cards design other cards ≡ drawdown design paper }
{
    draft_model::laws::what_is_lifted_is_the_cloth();
    card_image::laws::a_chain_has_one_card_set();
}
