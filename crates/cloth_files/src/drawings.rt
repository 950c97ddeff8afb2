//! Files of images.
ghost use Rattle.std.specs.Prelude.{◌≡◌, ◌≤◌, ◌*◌, length, IfOk};
ghost use Rattle.mill_base.specs.Limits.{IsWithin};
ghost use Rattle.mill_base.specs.declared.limits.TheConstants.{MAX_COLUMNS, MAX_PICKS, MAX_COLOURS, MAX_ENDS, MAX_CLOTH_CELLS};
ghost use Rattle.tiff_palette.specs.Written.{tiff_of};
ghost use Rattle.draft_model.specs.Designs.{Fits, IsPaperOf};
ghost use Rattle.draft_model.specs.Drawdowns.{drawdown as drawdown_of};
ghost use Rattle.cloth_files.specs.Images.{cloth_image, paper_image};

use crate::images::{image_of_cloth, image_of_paper};
use draft_model::cloth::Cloth;
use draft_model::design::Design;
use draft_model::drawdown::drawdown;
use mill_base::memory::OutOfMemory;
use point_paper::paper::Paper;
use std::alloc::Global;

/// The file of the image of a paper's drawdown (TIFF 6.0).
pub fn drawdown_file(alloc: Global, design: &Design, paper: &Paper) -> Result<Vec<u8>, OutOfMemory>
    requires fits { Fits design.now }
    requires paper { IsPaperOf design.now paper.now }
    ensures file { IfOk result (λ bytes. bytes.items ≡ tiff_of (cloth_image (drawdown_of design.now paper.now))) }
{
    let cloth = drawdown(alloc, design, paper)?;
    cloth_file(alloc, &cloth)
}

/// The file of the image of a paper (TIFF 6.0), with a map of 768 numbers: the reds of all colours, then the greens, then the blues.
pub fn paper_file(alloc: Global, paper: &Paper, colour_map: &[u16]) -> Result<Vec<u8>, OutOfMemory>
    requires columns { IsWithin 1 paper.now.columns MAX_COLUMNS }
    requires picks { IsWithin 1 paper.now.picks MAX_PICKS }
    requires colours { length colour_map.now ≡ 3 * MAX_COLOURS }
    ensures file { IfOk result (λ bytes. bytes.items ≡ tiff_of (paper_image colour_map.now paper.now)) }
{
    let image = image_of_paper(alloc, paper, colour_map)?;
    tiff_palette::write(alloc, &image)
}

/// The file of the image of a cloth.
pub(crate) fn cloth_file(alloc: Global, cloth: &Cloth) -> Result<Vec<u8>, OutOfMemory>
    requires ends { IsWithin 1 cloth.now.ends MAX_ENDS }
    requires picks { IsWithin 1 (length cloth.now.rows) MAX_PICKS }
    requires cells { cloth.now.ends * length cloth.now.rows ≤ MAX_CLOTH_CELLS }
    ensures { IfOk result (λ bytes. bytes.items ≡ tiff_of (cloth_image cloth.now)) }
{
    // The cloth tells with its ends that each row has one bit for each.
    let _ = cloth.ends();
    let image = image_of_cloth(alloc, cloth)?;
    tiff_palette::write(alloc, &image)
}
