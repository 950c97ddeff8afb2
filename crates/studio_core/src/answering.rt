//! What a commit is answered, once the tiles are bound and checked.
ghost use Rattle.std.specs.Prelude.{◌≡◌, ℕ, ◌<◌, false, slice_index_or, None, IfOk};
ghost use Rattle.std.specs.Arc.{arc_value};
ghost use Rattle.card_image.specs.Sets.{cards_by};
ghost use Rattle.draft_model.specs.Designs.{Fits, IsBitsOf};
ghost use Rattle.draft_model.specs.Floats.{first_float as first_float_of};
ghost use Rattle.tile_grid.specs.Tiles.{tiles};
ghost use Rattle.tile_rebuild.specs.Tiles.{grid_of, has_long};

use card_image::card_set::CardSet;
use draft_model::design::Design;
use draft_model::first_float::first_float;
use draft_model::float_run::FloatRun;
use mill_base::bit_row::BitRow;
use mill_base::memory::OutOfMemory;
use point_paper::bit_paper::BitPaper;
use std::alloc::Global;
use std::sync::Arc;

/// The first float over its limit in the cloth of the bits, where the flags say which tiles have a long cell. Only where a flag is set is
/// the cloth gone through. It takes no memory.
pub(crate) fn kept_float(design: &Design, bits: &BitPaper, flags: &BitRow) -> Option<FloatRun>
    requires fits { Fits design.now }
    requires bits { IsBitsOf design.now bits.now }
    requires flags { (t : ℕ) → t < tiles (grid_of design.now) → slice_index_or flags.now t false ≡ has_long design.now bits.now t }
    ensures float { result ≡ first_float_of design.now bits.now }
    ensures none { result ≡ None → (t : ℕ) → t < tiles (grid_of design.now) → slice_index_or flags.now t false ≡ false }
{
    draft_model::laws::a_cloth_keeps_a_float_where_one_is_told();
    if !flags.any() {
        return None;
    }
    first_float(design, bits)
}

/// The cards of the bits, for a cloth that lies face up.
pub(crate) fn cut_cards(
    alloc: Global,
    design: &Design,
    bits: &BitPaper,
) -> Result<Arc<CardSet>, OutOfMemory>
    requires fits { Fits design.now }
    requires bits { IsBitsOf design.now bits.now }
    ensures { IfOk result (λ cards. arc_value cards ≡ cards_by design.now bits.now) }
{
    let cards = CardSet::cut(alloc, bits, &design.casting)?;
    Ok(Arc::new(alloc, cards)?)
}
