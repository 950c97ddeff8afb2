//! Images that are written, and images that a paper is opened from.

use crate::calls::{Wanted, expect, expect_file, sound_shelf};
use crate::files::{
    LEAF_HEAD, LEAF_HEAD_HIGH_FIRST, LEAF_MAP, LEAF_PIXELS, LEAF_SESSION, joined, leaf, session,
};
use mill_io::memory_shelf::MemoryShelf;
use std::alloc::{AllocError, Global};
use std::process::Abort;
use std::sync::Wait;
use std::test::Fail;
use std::thread::Threads;

/// What stands before the colour map in a written image of 2 by 2 pixels.
const HEAD: [u8; 174] = [
    0x49, 0x49, 0x2A, 0, 8, 0, 0, 0, 0x0C, 0, 0, 1, 4, 0, 1, 0, 0, 0, 2, 0, 0, 0, 1, 1, 4, 0, 1, 0,
    0, 0, 2, 0, 0, 0, 2, 1, 3, 0, 1, 0, 0, 0, 8, 0, 0, 0, 3, 1, 3, 0, 1, 0, 0, 0, 1, 0, 0, 0, 6, 1,
    3, 0, 1, 0, 0, 0, 3, 0, 0, 0, 0x11, 1, 4, 0, 1, 0, 0, 0, 0xAE, 6, 0, 0, 0x16, 1, 4, 0, 1, 0, 0,
    0, 0, 0x10, 0, 0, 0x17, 1, 4, 0, 1, 0, 0, 0, 4, 0, 0, 0, 0x1A, 1, 5, 0, 1, 0, 0, 0, 0x9E, 0, 0,
    0, 0x1B, 1, 5, 0, 1, 0, 0, 0, 0xA6, 0, 0, 0, 0x28, 1, 3, 0, 1, 0, 0, 0, 2, 0, 0, 0, 0x40, 1, 3,
    0, 0, 3, 0, 0, 0xAE, 0, 0, 0, 0, 0, 0, 0, 0x48, 0, 0, 0, 1, 0, 0, 0, 0x48, 0, 0, 0, 1, 0, 0, 0,
];

/// The first three reds, greens and blues of a colour map. All others are 0.
pub(crate) type Shades = [[u8; 6]; 3];

/// An unlifted cell is white, and a lifted one black.
pub(crate) const CLOTH: Shades = [[0xFF, 0xFF, 0, 0, 0, 0]; 3];

/// The colour 0, 1, 2 of the session that opens with an image: what its file says of 1, and else 257 times the colour.
const PAPER: Shades = [
    [0, 0, 1, 0, 2, 2],
    [0, 0, 2, 1, 2, 2],
    [0, 0, 0xFF, 0xFF, 2, 2],
];

/// A written image of two rows of 2 or of 3 pixels.
pub(crate) fn written(alloc: Global, shades: Shades, pixels: &[u8]) -> Result<Vec<u8>, AllocError> {
    let mut head = HEAD;
    if pixels.len() == 6 {
        head[18] = 3;
        head[90] = 0xAA;
        head[91] = 0x0A;
        head[102] = 6;
    }
    let rest = [0; 506];
    let [red, green, blue] = shades;
    joined(
        alloc,
        &[&head, &red, &rest, &green, &rest, &blue, &rest, pixels],
    )
}

/// A command that writes the image Y, and the colours and the pixels of it, the last pick first.
type Picture = (&'static [&'static str], Shades, &'static [u8]);

fn expect_pictures<R: Abort + Threads + Wait + Sync>(
    rt: &R,
    alloc: Global,
    shelf: &mut MemoryShelf,
    pictures: &[Picture],
) -> Result<(), Fail> {
    for (words, shades, pixels) in pictures {
        expect(rt, alloc, shelf, words, (0, "", ""))?;
        let wanted = written(alloc, *shades, pixels)?;
        expect_file(rt, shelf, "Y", Some(&wanted));
    }
    Ok(())
}

#[test]
fn the_last_cloth_and_the_last_paper_are_drawn(rt: HostRuntime) -> Result<(), Fail> {
    const PICTURES: [Picture; 2] = [
        (&["draw", "S1", "Y"], CLOTH, &[0, 1, 1, 0]),
        (&["paper", "S1", "Y"], [[0; 6]; 3], &[0, 0, 0, 0]),
    ];
    let alloc = rt.alloc();
    let mut shelf = sound_shelf(alloc);
    shelf.add("S1", session(&rt, alloc, &[])?.as_bytes())?;
    expect_pictures(&rt, alloc, &mut shelf, &PICTURES)
}

#[test]
fn a_refused_paper_is_not_drawn(rt: HostRuntime) -> Result<(), Fail> {
    const PICTURES: [Picture; 2] = [
        (&["draw", "S1", "Y"], CLOTH, &[0, 1, 1, 0]),
        (
            &["paper", "S1", "Y"],
            [[0, 0, 1, 1, 0, 0]; 3],
            &[1, 0, 0, 0],
        ),
    ];
    let alloc = rt.alloc();
    let mut shelf = sound_shelf(alloc);
    let text = session(
        &rt,
        alloc,
        &[
            (
                "weave = \"plain\"",
                "weave = \"plain\"\n[[colour]]\nweave = \"rows 10 01\"\n[[colour]]\nweave = \"full\"\nrgb = [0, 0, 0]",
            ),
            (
                "repeats = [1]",
                "repeats = [1]\nacts = [[\"dot 1 0 1\", \"commit\", \"dot 2 0 1\", \"commit\"]]",
            ),
        ],
    )?;
    shelf.add("S1", text.as_bytes())?;
    expect_pictures(&rt, alloc, &mut shelf, &PICTURES)
}

#[test]
fn an_image_opens_the_paper_with_its_lowest_row_as_pick_0(rt: HostRuntime) -> Result<(), Fail> {
    const PICTURES: [Picture; 2] = [
        (&["draw", "S1", "Y"], CLOTH, &[0, 1, 0, 1, 0, 1]),
        (&["paper", "S1", "Y"], PAPER, &[1, 2, 0, 0, 1, 2]),
    ];
    let alloc = rt.alloc();
    let mut shelf = sound_shelf(alloc);
    shelf.add("S1", session(&rt, alloc, LEAF_SESSION)?.as_bytes())?;
    for head in [&LEAF_HEAD, &LEAF_HEAD_HIGH_FIRST] {
        let image = joined(alloc, &[head, &LEAF_MAP, &LEAF_PIXELS])?;
        shelf.add("leaf", &image)?;
        expect_pictures(&rt, alloc, &mut shelf, &PICTURES)?;
    }
    // What was written is an image of 8 bits in its turn.
    shelf.add("leaf", &written(alloc, PAPER, &[1, 2, 0, 0, 1, 2])?)?;
    expect_pictures(&rt, alloc, &mut shelf, &PICTURES)
}

/// The pieces of an image, and what comes of a session that opens with it.
type Case = (&'static [&'static [u8]], Wanted<'static>);

const REFUSED: [Case; 5] = [
    (
        &[b"II\x2A\0\x08\0\0"],
        (2, "", "studio: session design.opening: image truncated\n"),
    ),
    (
        &[b"PNG image"],
        (2, "", "studio: session design.opening: image not tiff\n"),
    ),
    (
        &[&LEAF_HEAD, &LEAF_MAP],
        (
            2,
            "",
            "studio: session design.opening: image short strip 0\n",
        ),
    ),
    (
        &[&LEAF_HEAD, &LEAF_MAP, b"\x12\x0F\x01"],
        (
            2,
            "",
            "studio: session design.opening: image short strip 0\n",
        ),
    ),
    (
        &[&LEAF_HEAD, &LEAF_MAP, b"\x12\x0F\x31\x20"],
        (
            2,
            "",
            "studio: session design.opening: image colour 3 at 0 0\n",
        ),
    ),
];

#[test]
fn a_session_whose_image_breaks_a_rule_is_refused(rt: HostRuntime) -> Result<(), Fail> {
    let alloc = rt.alloc();
    let mut shelf = sound_shelf(alloc);
    shelf.add("S1", session(&rt, alloc, LEAF_SESSION)?.as_bytes())?;
    for (pieces, wanted) in REFUSED {
        shelf.add("leaf", &joined(alloc, pieces)?)?;
        expect(&rt, alloc, &mut shelf, &["check", "S1"], wanted)?;
    }
    Ok(())
}

#[test]
fn an_image_of_another_size_is_refused(rt: HostRuntime) -> Result<(), Fail> {
    let alloc = rt.alloc();
    let mut shelf = sound_shelf(alloc);
    let changes = [("opening = 0", "opening = \"leaf\"")];
    shelf.add("S1", session(&rt, alloc, &changes)?.as_bytes())?;
    shelf.add("leaf", &leaf(alloc)?)?;
    let line = "studio: session design.opening: image is 3 by 2\n";
    expect(&rt, alloc, &mut shelf, &["draw", "S1", "Y"], (2, "", line))?;
    expect_file(&rt, &shelf, "Y", None);
    Ok(())
}
