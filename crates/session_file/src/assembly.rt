//! A session of what a file says and of its opening paper.
ghost use Rattle.std.specs.Prelude.{◌≡◌, ◌≤◌, ◌++◌, length, map, replicate, slice_index, ◌-◌, ◌<◌, All, IfOk, OnOk};
ghost use Rattle.mill_base.specs.declared.limits.TheConstants.{MAX_COLOURS};
ghost use Rattle.session_file.specs.Plans.{Fits};
ghost use Rattle.session_file.specs.Sessions.{book_of, colour_map_of, session_of, shades};
ghost use Rattle.session_file.specs.inner.Drafts.{FitsColour, FitsNumbers, FitsValues};
ghost use Rattle.session_file.specs.inner.Images.{HasColours};

use crate::draft::{Colour, SessionDraft};
use crate::session::Session;
use draft_model::design::Design;
use mill_base::limits::MAX_COLOURS;
use mill_base::listed::Listed;
use mill_base::memory::OutOfMemory;
use point_paper::paper::Paper;
use std::alloc::Global;
use weave_book::book::Book;

/// The session of a draft, with the opening paper that goes with it.
pub(crate) fn make_session(
    alloc: Global,
    draft: SessionDraft,
    opening: Paper,
) -> Result<Session, OutOfMemory>
    requires values { FitsValues draft }
    requires numbers { FitsNumbers draft }
    requires sized { (opening.columns ≡ draft.design.size.columns) × (opening.picks ≡ draft.design.size.picks) }
    requires colours { HasColours draft.design.size (length draft.colours) opening }
    ensures session { IfOk result (λ session. session ≡ session_of draft opening) }
    ensures fits { IfOk result Fits }
{
    let session = assemble(alloc, draft, opening)?;
    Ok(session)
}

fn assemble(alloc: Global, draft: SessionDraft, opening: Paper) -> Result<Session, OutOfMemory>
    requires few { length draft.colours ≤ MAX_COLOURS }
    requires shades { All FitsColour draft.colours }
    ensures { IfOk result (λ session. session ≡ session_of draft opening) }
{
    let SessionDraft {
        head,
        design,
        colours,
        tie,
        motifs,
        opening: _,
        shifts,
    } = draft;
    let book = make_book(alloc, colours.as_slice())?;
    let colour_map = make_map(alloc, colours.as_slice())?;
    let limits = design.limits;
    let design = Design {
        size: design.size,
        book,
        tie,
        casting: design.casting,
        raise: design.raise,
        sink: design.sink,
        weft_face: limits.weft_face,
        weft_back: limits.weft_back,
        warp_face: limits.warp_face,
        warp_back: limits.warp_back,
        tile: design.tile,
    };
    Ok(Session {
        design,
        opening,
        colour_map,
        motifs,
        looms: head.looms,
        show_rows: head.show_rows,
        faces: head.faces,
        shifts,
    })
}

fn make_book(alloc: Global, colours: &[Colour]) -> Result<Book, OutOfMemory>
    requires { length colours.now ≤ MAX_COLOURS }
    ensures { IfOk result (λ book. book ≡ book_of colours.now) }
{
    let mut book = Book::new(alloc);
    for colour in colours {
        book.add(colour.weave.copy())?;
    }
    Ok(book)
}

// The reds of all colours, then the greens, then the blues.
fn make_map(alloc: Global, colours: &[Colour]) -> Result<Listed<u16>, OutOfMemory>
    requires few { length colours.now ≤ MAX_COLOURS }
    requires shades { All FitsColour colours.now }
    ensures { IfOk result (λ numbers. numbers ≡ colour_map_of colours.now) }
{
    let mut numbers = Vec::with_capacity(alloc, 3 * MAX_COLOURS as usize)?;
    push_shades(&mut numbers, colours, 0)?;
    push_shades(&mut numbers, colours, 1)?;
    push_shades(&mut numbers, colours, 2)?;
    Ok(Listed::of(numbers))
}

fn push_shades(numbers: &mut Vec<u16>, colours: &[Colour], part: usize) -> Result<(), OutOfMemory>
    requires part { part < 3 }
    requires few { length colours.now ≤ MAX_COLOURS }
    requires shades { All FitsColour colours.now }
    ensures { OnOk result (numbers.new.items ≡ numbers.old.items ++ shades part colours.now) }
{
    push_known(numbers, colours, part)?;
    push_none(numbers, MAX_COLOURS as usize - colours.len())
}

fn push_known(numbers: &mut Vec<u16>, colours: &[Colour], part: usize) -> Result<(), OutOfMemory>
    requires part { part < 3 }
    requires shades { All FitsColour colours.now }
    ensures { OnOk result (numbers.new.items ≡ numbers.old.items ++ map (λ colour. slice_index colour.rgb part) colours.now) }
{
    for colour in colours {
        numbers.push(colour.rgb.as_slice()[part])?;
    }
    Ok(())
}

fn push_none(numbers: &mut Vec<u16>, count: usize) -> Result<(), OutOfMemory>
    requires { count ≤ MAX_COLOURS }
    ensures { OnOk result (numbers.new.items ≡ numbers.old.items ++ replicate count 0) }
{
    let len = numbers.len();
    numbers.resize(len + count, 0)?;
    Ok(())
}
