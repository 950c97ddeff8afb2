//! Images of cloths and papers.
ghost use Rattle.std.specs.Prelude.{◌≡◌, ◌<◌, ◌++◌, length, map, IfOk, OnOk};
ghost use Rattle.mill_base.specs.Lines.{line_by};
ghost use Rattle.point_paper.specs.Papers.{pick_of};
ghost use Rattle.cloth_files.specs.Images.{cloth_image, cloth_map, cloth_shade, paper_image, pixel, pixels_of};

use crate::pixels::push_row;
use draft_model::cloth::Cloth;
use mill_base::limits::MAX_COLOURS;
use mill_base::listed::Listed;
use mill_base::memory::OutOfMemory;
use mill_base::steps::Steps;
use point_paper::paper::{LineKind, Paper};
use std::alloc::Global;
use std::marker::Brand;
use std::sync::ledger::{Blank, Ledger};
use tiff_palette::PaletteImage;

/// The image of a cloth: as wide as it has ends and as high as it has picks, black where an end is lifted. The top row is the highest
/// pick (a rule of this project's own).
pub fn image_of_cloth(alloc: Global, cloth: &Cloth) -> Result<PaletteImage, OutOfMemory>
    ensures { IfOk result (λ image. image ≡ cloth_image cloth.now) }
{
    let pixels = pixels_of_cloth(alloc, cloth)?;
    let colours = cloth_colours(alloc)?;
    Ok(PaletteImage {
        width: cloth.ends(),
        height: cloth.picks(),
        pixels: Listed::of(pixels),
        colour_map: Listed::of(colours),
    })
}

/// The image of a paper with a map of colours: a pixel has the colour number of its cell. The top row is the highest pick.
pub fn image_of_paper(
    alloc: Global,
    paper: &Paper,
    colour_map: &[u16],
) -> Result<PaletteImage, OutOfMemory>
    ensures { IfOk result (λ image. image ≡ paper_image colour_map.now paper.now) }
{
    let pixels = pixels_of_paper::<Brand>(alloc, paper, Blank::new(1))?;
    let colours = Vec::from_slice(alloc, colour_map)?;
    let size = paper.size();
    Ok(PaletteImage {
        width: size.columns,
        height: size.picks,
        pixels: Listed::of(pixels),
        colour_map: Listed::of(colours),
    })
}

fn pixels_of_cloth(alloc: Global, cloth: &Cloth) -> Result<Vec<u8>, OutOfMemory>
    ensures { IfOk result (λ v. v.items ≡ pixels_of (map (map pixel) cloth.now.rows)) }
{
    let picks = cloth.picks();
    let mut pixels = Vec::with_capacity(alloc, picks as usize * cloth.ends() as usize)?;
    for row in 0..picks {
        push_row(&mut pixels, cloth.row(picks - 1 - row))?;
    }
    Ok(pixels)
}

// The colour numbers of a paper. Its readings tick a counter of their own, which goes with the call.
fn pixels_of_paper<L: Ledger>(
    alloc: Global,
    paper: &Paper,
    blank: Blank,
) -> Result<Vec<u8>, OutOfMemory>
    requires blank { (blank.name ≡ L.name) × (blank.parts ≡ L.parts) × (L.parts ≡ 1) }
    ensures { IfOk result (λ v. v.items ≡ pixels_of (line_by paper.now.picks (pick_of paper.now))) }
{
    let (book, all) = blank.open::<L>();
    let mut steps = Steps::new(book, all);
    let size = paper.size();
    let mut line = Vec::from_elem(alloc, 0u8, size.columns as usize)?;
    let mut pixels = Vec::with_capacity(alloc, size.picks as usize * size.columns as usize)?;
    for row in 0..size.picks {
        push_pick(
            paper,
            size.picks - 1 - row,
            &mut line,
            &mut pixels,
            &mut steps,
        )?;
    }
    Ok(pixels)
}

// Adds the colour numbers of a pick, which it reads into a line.
fn push_pick<L: Ledger>(
    paper: &Paper,
    pick: u32,
    line: &mut Vec<u8>,
    pixels: &mut Vec<u8>,
    steps: &mut Steps<L>,
) -> Result<(), OutOfMemory>
    requires pick { pick < paper.now.picks }
    requires line { length line.old.items ≡ paper.now.columns }
    ensures line { length line.new.items ≡ paper.now.columns }
    ensures pixels { OnOk result (pixels.new.items ≡ pixels.old.items ++ pick_of paper.now pick) }
{
    paper.line(LineKind::Pick, pick, line, steps);
    pixels.extend_from_slice(line)?;
    Ok(())
}

// Colour 0 is white and all others are black.
fn cloth_colours(alloc: Global) -> Result<Vec<u16>, OutOfMemory>
    ensures { IfOk result (λ v. v.items ≡ cloth_map) }
{
    let mut colours = Vec::with_capacity(alloc, 3 * MAX_COLOURS as usize)?;
    push_shade(&mut colours)?;
    push_shade(&mut colours)?;
    push_shade(&mut colours)?;
    Ok(colours)
}

// Adds the reds, the greens or the blues.
#[tactic(auto, unfolding(crate::specs::Images::cloth_shade))]
fn push_shade(colours: &mut Vec<u16>) -> Result<(), OutOfMemory>
    ensures { OnOk result (colours.new.items ≡ colours.old.items ++ cloth_shade) }
{
    colours.push(u16::MAX)?;
    let blacks = [0u16; MAX_COLOURS as usize - 1];
    colours.extend_from_slice(&blacks)?;
    Ok(())
}
