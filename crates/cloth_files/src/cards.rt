//! Files of card chains.
ghost use Rattle.std.specs.Prelude.{◌≡◌, IfOk};
ghost use Rattle.card_image.specs.Chains.{Chain};
ghost use Rattle.card_image.specs.Sets.{design_by};
ghost use Rattle.draft_model.specs.Designs.{Fits, IsPaperOf};
ghost use Rattle.cloth_files.specs.Cards.{paper_cards};

use card_image::card_set::CardSet;
use card_image::laws::turned_cards_are_those_of_the_other_face;
use draft_model::design::Design;
use draft_model::drawdown::bound;
use mill_base::face::Face;
use mill_base::memory::OutOfMemory;
use point_paper::paper::Paper;
use std::alloc::Global;

/// The chain of a paper's cards for a cloth that lies with this face up or down (a format of this project's own).
pub fn chain_file(
    alloc: Global,
    design: &Design,
    paper: &Paper,
    face: Face,
) -> Result<Vec<u8>, OutOfMemory>
    requires fits { Fits design.now }
    requires paper { IsPaperOf design.now paper.now }
    ensures file { IfOk result (λ bytes. Chain (design_by design.now.casting paper.now.picks) bytes.items face (paper_cards design.now face paper.now)) }
{
    let cards = cut(alloc, design, paper, face)?;
    cards.encode()
}

// The cards of a paper for a cloth that lies with this face up or down.
fn cut(alloc: Global, design: &Design, paper: &Paper, face: Face) -> Result<CardSet, OutOfMemory>
    requires fits { Fits design.now }
    requires paper { IsPaperOf design.now paper.now }
    ensures { IfOk result (λ set. set ≡ record { design = design_by design.now.casting paper.now.picks; face = face; holes = paper_cards design.now face paper.now }) }
{
    turned_cards_are_those_of_the_other_face();
    // The casting tells with its hooks that each column has one.
    let _ = design.casting.hooks();
    let bits = bound(alloc, design, paper)?;
    let cards = CardSet::cut(alloc, &bits, &design.casting)?;
    match face {
        Face::Up => Ok(cards),
        Face::Down => cards.turned(&design.casting),
    }
}
