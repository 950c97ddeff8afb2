//! The image of an opening paper.
ghost use Rattle.std.specs.Prelude.{◌≡◌, ◌*◌, ◌^◌, ◌<◌, nat_le, None, length, IfOk, IfErr, IfSome, OnOk};
ghost use Rattle.std.specs.List.{position};
ghost use Rattle.point_paper.specs.Papers.{image_cell, paper_by};
ghost use Rattle.tiff_palette.specs.Images.{Image as IsImageOf};
ghost use Rattle.session_rules.specs.Faults.{Keeps, TellsFirst, fault as fault_at};
ghost use Rattle.session_file.specs.Sessions.{IsPaperOfImage, foreign_colour, foreign_in, image_rules, opening_path, pick_pixels};
ghost use Rattle.session_file.specs.inner.Images.{HasColours, TellsImage, TellsNoImage};

use mill_base::size::Size;
use point_paper::laws::the_paper_of_a_formula_has_its_cells;
use point_paper::paper::Paper;
use session_rules::fault::{SessionFaultKind, SessionRefusal};
use session_rules::path::Path;
use std::alloc::Global;
use tiff_palette::{PaletteImage, TiffFault, read};

/// The paper of an image, of a size and for a book of so many colours.
pub(crate) fn read_paper(
    alloc: Global,
    bytes: &[u8],
    size: Size,
    colours: u32,
) -> Result<Paper, SessionRefusal>
    ensures paper { IfOk result (IsPaperOfImage size colours bytes.now) }
    ensures sized { IfOk result (λ paper. (paper.columns ≡ size.columns) × (paper.picks ≡ size.picks)) }
    ensures colours { IfOk result (HasColours size colours) }
    ensures fault { IfErr result (TellsImage size colours bytes.now) }
{
    let image = read_image(alloc, bytes)?;
    check_image(alloc, &image, size, colours)?;
    paper_of(alloc, image.pixels.as_slice(), size, colours)
}

// The paper of pixels that are colours of the book.
#[tactic(auto, using(crate::proofs::Images::paper_known))]
fn paper_of(alloc: Global, pixels: &[u8], size: Size, colours: u32) -> Result<Paper, SessionRefusal>
    requires drawn { length pixels.now ≡ size.picks * size.columns }
    requires known { foreign_colour colours size pixels.now ≡ None }
    ensures paper { IfOk result (λ paper. paper ≡ paper_by size.columns size.picks (image_cell size.columns size.picks pixels.now)) }
    ensures colours { IfOk result (HasColours size colours) }
    ensures memory { IfErr result (λ refusal. refusal ≡ SessionRefusal.OutOfMemory) }
{
    the_paper_of_a_formula_has_its_cells();
    let paper = Paper::from_rows(alloc, size, pixels)?;
    Ok(paper)
}

fn read_image(alloc: Global, bytes: &[u8]) -> Result<PaletteImage, SessionRefusal>
    ensures image { IfOk result (IsImageOf bytes.now) }
    ensures fault { IfErr result (TellsNoImage bytes.now) }
{
    match read(alloc, bytes) {
        Ok(image) => Ok(image),
        Err(TiffFault::OutOfMemory) => Err(SessionRefusal::OutOfMemory),
        Err(fault) => Err(opening_refusal(alloc, SessionFaultKind::Image(fault))),
    }
}

// The refusal that tells a fault of the opening paper.
#[tactic(auto, unfolding(session_rules::specs::Paths::path_of))]
fn opening_refusal(alloc: Global, kind: SessionFaultKind) -> SessionRefusal
    ensures { TellsFirst (fault_at opening_path kind) result }
{
    let top = Path::Top;
    let design = Path::Key(&top, "design");
    Path::Key(&design, "opening").refusal(alloc, kind)
}

// Whether the image has the size and no colour but those of the book.
#[tactic(auto, unfolding(crate::specs::Sessions::image_rules), using(session_rules::proofs::lemmas::Told::told_here, session_rules::proofs::lemmas::Told::told_later))]
fn check_image(
    alloc: Global,
    image: &PaletteImage,
    size: Size,
    colours: u32,
) -> Result<(), SessionRefusal>
    requires drawn { length image.now.pixels ≡ image.now.width * image.now.height }
    ensures keeps { Keeps (image_rules size colours image.now) result }
    ensures sized { OnOk result (length image.now.pixels ≡ size.picks * size.columns) }
    ensures known { OnOk result (foreign_colour colours size image.now.pixels ≡ None) }
{
    if image.width != size.columns || image.height != size.picks {
        let kind = SessionFaultKind::ImageSize {
            columns: image.width,
            picks: image.height,
        };
        return Err(opening_refusal(alloc, kind));
    }
    match find_foreign(image.pixels.as_slice(), size, colours) {
        Some(kind) => Err(opening_refusal(alloc, kind)),
        None => Ok(()),
    }
}

// The first pixel, from the lowest pick upwards, that is no colour of the book.
fn find_foreign(pixels: &[u8], size: Size, colours: u32) -> Option<SessionFaultKind>
    requires { length pixels.now ≡ size.picks * size.columns }
    ensures { result ≡ foreign_colour colours size pixels.now }
{
    for pick in 0..size.picks {
        if let Some(kind) = foreign(pick_row(pixels, size, pick), colours, pick) {
            return Some(kind);
        }
    }
    None
}

// The pixels of a pick.
fn pick_row(pixels: &[u8], size: Size, pick: u32) -> &[u8]
    requires drawn { length pixels.now ≡ size.picks * size.columns }
    requires pick { pick < size.picks }
    ensures row { result.now ≡ pick_pixels size pixels.now pick }
    ensures length { length result.now ≡ size.columns }
{
    let columns = size.columns as usize;
    let at = (size.picks - 1 - pick) as usize * columns;
    &pixels[at..at + columns]
}

fn foreign(row: &[u8], colours: u32, pick: u32) -> Option<SessionFaultKind>
    requires { length row.now < 2 ^ 32 }
    ensures { result ≡ foreign_in colours pick row.now }
{
    let column = first_foreign(row, colours)?;
    Some(SessionFaultKind::ImageColour {
        column: column as u32,
        pick,
        found: row[column],
    })
}

fn first_foreign(row: &[u8], colours: u32) -> Option<usize>
    ensures place { result ≡ position (λ colour. nat_le colours colour) row.now }
    ensures there { IfSome result (λ column. column < length row.now) }
{
    row.iter().position(|colour| colours <= *colour as u32)
}
