//! Laws of lifted cloths. They compute nothing: each is the contract of a function without result.
ghost use Rattle.std.specs.Prelude.{◌≡◌, map};
ghost use Rattle.mill_base.specs.declared.face.Face.{Face};
ghost use Rattle.casting_out.specs.Castings.{IsCasting};
ghost use Rattle.point_paper.specs.Papers.{PaperCells};
ghost use Rattle.draft_model.specs.declared.design.Design.{Design};
ghost use Rattle.draft_model.specs.Cards.{woven};
ghost use Rattle.draft_model.specs.Designs.{Fits};
ghost use Rattle.draft_model.specs.Drawdowns.{drawdown};
ghost use Rattle.card_image.specs.Sets.{cards_of};
ghost use Rattle.loom_threads.specs.Cuts.{machine_of};
ghost use Rattle.loom_threads.specs.Lifts.{cloth_from};
ghost use Rattle.loom_threads.specs.Woven.{lifted, lifted_rows};

/// What a loom of either face lifts from the cards of a paper, read on that face, is the paper's drawdown, row by row; a loom whose cloth
/// lies face up lifts the drawdown itself. A `Casting` is an `IsCasting`, as its own calls tell.
pub fn lifted_rows_are_the_drawdown()
    ensures rows { (design : Design) (face : Face) (paper : PaperCells) → IsCasting design.casting → Fits design
        → map (woven face) (lifted_rows design face paper) ≡ (drawdown design paper).rows }
    ensures up { (design : Design) (paper : PaperCells) → IsCasting design.casting → Fits design → lifted design Face.Up paper ≡ drawdown design paper }
{
    draft_model::laws::what_is_lifted_is_the_cloth();
}

/// What the machine of a design lifts from the cards that are cut of a paper, each turned for a cloth that lies face down, is what a
/// loom of that face lifts from the paper.
pub fn cut_cards_lift_the_cloth()
    ensures { (design : Design) (face : Face) (paper : PaperCells) → IsCasting design.casting
        → cloth_from (machine_of design) face (cards_of design paper) ≡ lifted design face paper }
{
    card_image::laws::cut_cards_are_those_of_the_picks();
    card_image::laws::turned_cards_are_those_of_the_other_face();
}
