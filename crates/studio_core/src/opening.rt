//! What a core starts from.
ghost use Rattle.std.specs.Prelude.{◌≡◌, ℕ, ◌<◌, false, length, replicate, slice_index_or, None, IfErr, IfOk, OnOk};
ghost use Rattle.draft_model.specs.Designs.{Fits, IsBitsOf, IsPaperOf};
ghost use Rattle.draft_model.specs.Floats.{first_float as first_float_of};
ghost use Rattle.version_journal.specs.Journals.{float_kept};
ghost use Rattle.tile_grid.specs.Tiles.{tiles as tiles_of};
ghost use Rattle.tile_rebuild.specs.Tiles.{grid_of, has_long};
ghost use Rattle.studio_core.specs.Refusals.{IsStartRefusal};
ghost use Rattle.studio_core.specs.inner.Opened.{IsOpened};
ghost use Rattle.studio_core.specs.inner.Rooms.{AreRooms};

use crate::answering::{cut_cards, kept_float};
use crate::refusal::StartRefusal;
use crate::rooms::Rooms;
use card_image::card_set::CardSet;
use draft_model::design::Design;
use draft_model::drawdown::bound;
use draft_model::float_run::FloatRun;
use mill_base::bit_row::BitRow;
use mill_base::memory::OutOfMemory;
use point_paper::bit_paper::BitPaper;
use point_paper::paper::Paper;
use std::alloc::Global;
use std::sync::Arc;
use tile_grid::grid::Grid;
use tile_rebuild::whole::check_whole;

/// The grid of a design's tiles: a change reaches as far as the greater of the two weft limits and of the two warp limits.
pub(crate) fn tile_grid(alloc: Global, design: &Design) -> Result<Grid, OutOfMemory>
    requires { Fits design.now }
    ensures { IfOk result (λ grid. grid ≡ grid_of design.now) }
{
    Grid::build(
        alloc,
        design.size,
        design.tile,
        &design.tie,
        design.weft_back.max(design.weft_face),
        design.warp_face.max(design.warp_back),
    )
}

/// The opening of a design, bound and checked: its bits, a flag for each tile, of which none is set, and the cards of its version.
#[derive(Drop)]
pub(crate) struct Opened {
    pub(crate) bits: BitPaper,
    pub(crate) flags: BitRow,
    pub(crate) cards: Arc<CardSet>,
}

/// Binds and checks an opening of a design of so many tiles. It is refused where its bound paper keeps a float over its limit.
pub(crate) fn open(
    alloc: Global,
    design: &Design,
    opening: &Paper,
    tiles: u32,
    rooms: &mut Rooms,
) -> Result<Opened, StartRefusal>
    requires fits { Fits design.now }
    requires paper { IsPaperOf design.now opening.now }
    requires tiles { tiles ≡ tiles_of (grid_of design.now) }
    requires rooms { AreRooms design.now rooms.old }
    ensures opened { IfOk result (IsOpened design.now opening.now) }
    ensures sound { OnOk result (float_kept design.now opening.now ≡ None) }
    ensures refusal { IfErr result (IsStartRefusal design.now opening.now) }
    ensures rooms { AreRooms design.now rooms.new }
{
    design.tie.ends();
    opening.size();
    let bits = bound(alloc, design, opening)?;
    let mut flags = BitRow::new(alloc, tiles)?;
    if let Some(float) = opening_float(design, &bits, &mut flags, rooms) {
        return Err(StartRefusal::OpeningFloat(float));
    }
    let cards = cut_cards(alloc, design, &bits)?;
    Ok(Opened { bits, flags, cards })
}

// The first float over its limit in the cloth of the bits. The flags become those of the bits.
fn opening_float(
    design: &Design,
    bits: &BitPaper,
    flags: &mut BitRow,
    rooms: &mut Rooms,
) -> Option<FloatRun>
    requires fits { Fits design.now }
    requires bits { IsBitsOf design.now bits.now }
    requires flags { length flags.old ≡ tiles_of (grid_of design.now) }
    requires rooms { AreRooms design.now rooms.old }
    ensures float { result ≡ first_float_of design.now bits.now }
    ensures flags { (t : ℕ) → t < tiles_of (grid_of design.now) → slice_index_or flags.new t false ≡ has_long design.now bits.now t }
    ensures none { result ≡ None → flags.new ≡ replicate (tiles_of (grid_of design.now)) false }
    ensures rooms { AreRooms design.now rooms.new }
{
    check_whole(design, bits, &mut rooms.whole, flags);
    kept_float(design, bits, flags)
}
