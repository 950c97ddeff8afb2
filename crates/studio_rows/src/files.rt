//! The files that the studio is handed.

use std::alloc::{AllocError, Global};
use std::process::Abort;
use std::test::Fail;

/// The lines of the smallest session: a plain cloth of two columns and two picks is woven once, and its rows are shown.
const SMALLEST: [&str; 12] = [
    "format = 1",
    "show = \"rows\"",
    "[design]",
    "columns = 2",
    "picks = 2",
    "weft_limit = 1",
    "warp_limit = 1",
    "opening = 0",
    "[[colour]]",
    "weave = \"plain\"",
    "[[shift]]",
    "repeats = [1]",
];

/// Lines of the smallest session, each with the lines that stand in its place.
pub(crate) type Changes = &'static [(&'static str, &'static str)];

/// The text of the smallest session with those lines changed.
pub(crate) fn session(
    rt: &impl Abort,
    alloc: Global,
    changes: &[(&str, &str)],
) -> Result<String, Fail> {
    for change in changes {
        assert!(rt; is_kept(change.0), "no line {}", change.0);
    }
    let mut text = String::new(alloc);
    for line in SMALLEST {
        push_line(&mut text, line, changes)?;
    }
    Ok(text)
}

fn is_kept(line: &str) -> bool {
    SMALLEST.iter().any(|kept| *kept == line)
}

fn push_line(text: &mut String, line: &str, changes: &[(&str, &str)]) -> Result<(), AllocError> {
    match changes.iter().find(|change| change.0 == line) {
        Some(change) => text.push_str(change.1)?,
        None => text.push_str(line)?,
    }
    text.push_str("\n")
}

/// The pieces, one behind the other.
pub(crate) fn joined(alloc: Global, pieces: &[&[u8]]) -> Result<Vec<u8>, AllocError> {
    let mut bytes = Vec::new(alloc);
    for piece in pieces {
        bytes.extend_from_slice(piece)?;
    }
    Ok(bytes)
}

/// A session whose opening is the image `leaf`, of three colours that all weave plain.
pub(crate) const LEAF_SESSION: Changes = &[
    ("columns = 2", "columns = 3"),
    ("weft_limit = 1", "weft_limit = 2"),
    ("opening = 0", "opening = \"leaf\""),
    (
        "weave = \"plain\"",
        "weave = \"plain\"\n[[colour]]\nweave = \"plain\"\nrgb = [1, 258, 65535]\n[[colour]]\nweave = \"plain\"",
    ),
];

/// The head of a palette image of 3 by 2 pixels of 4 bits, numbers with their low byte first. Its colour map follows.
pub(crate) const LEAF_HEAD: [u8; 122] = [
    0x49, 0x49, 0x2A, 0, 8, 0, 0, 0, 9, 0, 0, 1, 3, 0, 1, 0, 0, 0, 3, 0, 0, 0, 1, 1, 3, 0, 1, 0, 0,
    0, 2, 0, 0, 0, 2, 1, 3, 0, 1, 0, 0, 0, 4, 0, 0, 0, 3, 1, 3, 0, 1, 0, 0, 0, 1, 0, 0, 0, 6, 1, 3,
    0, 1, 0, 0, 0, 3, 0, 0, 0, 0x11, 1, 4, 0, 1, 0, 0, 0, 0xDA, 0, 0, 0, 0x16, 1, 3, 0, 1, 0, 0, 0,
    2, 0, 0, 0, 0x17, 1, 4, 0, 1, 0, 0, 0, 4, 0, 0, 0, 0x40, 1, 3, 0, 0x30, 0, 0, 0, 0x7A, 0, 0, 0,
    0, 0, 0, 0,
];

/// The same with the high byte first.
pub(crate) const LEAF_HEAD_HIGH_FIRST: [u8; 122] = [
    0x4D, 0x4D, 0, 0x2A, 0, 0, 0, 8, 0, 9, 1, 0, 0, 3, 0, 0, 0, 1, 0, 3, 0, 0, 1, 1, 0, 3, 0, 0, 0,
    1, 0, 2, 0, 0, 1, 2, 0, 3, 0, 0, 0, 1, 0, 4, 0, 0, 1, 3, 0, 3, 0, 0, 0, 1, 0, 1, 0, 0, 1, 6, 0,
    3, 0, 0, 0, 1, 0, 3, 0, 0, 1, 0x11, 0, 4, 0, 0, 0, 1, 0, 0, 0, 0xDA, 1, 0x16, 0, 3, 0, 0, 0, 1,
    0, 2, 0, 0, 1, 0x17, 0, 4, 0, 0, 0, 1, 0, 0, 0, 4, 1, 0x40, 0, 3, 0, 0, 0, 0x30, 0, 0, 0, 0x7A,
    0, 0, 0, 0,
];

/// The colour map of that image.
pub(crate) const LEAF_MAP: [u8; 96] = [0; 96];

/// Its pixels: 1 2 0 above 0 1 2. A row ends with half a byte that says nothing.
pub(crate) const LEAF_PIXELS: [u8; 4] = [0x12, 0x0F, 0x01, 0x20];

/// The image, whole.
pub(crate) fn leaf(alloc: Global) -> Result<Vec<u8>, AllocError> {
    joined(alloc, &[&LEAF_HEAD, &LEAF_MAP, &LEAF_PIXELS])
}

/// A chain of cards of the plain cloth: its head, and a hole at hook 0, then one at hook 1.
pub(crate) const CHAIN_HEAD: [u8; 12] = [0x4A, 0x43, 0x43, 0x31, 0, 0, 0, 2, 0, 0, 0, 2];

pub(crate) const FIRST_CARD: [u8; 9] = [0, 0, 0, 0, 0, 0, 0, 1, 0x80];

pub(crate) const SECOND_CARD: [u8; 9] = [0, 0, 0, 1, 0, 0, 0, 1, 0x40];

/// The chain of the same cloth with its face down.
pub(crate) const CHAIN_DOWN: [u8; 30] = [
    0x4A, 0x43, 0x43, 0x32, 0, 0, 0, 2, 0, 0, 0, 2, 0, 0, 0, 0, 0, 0, 0, 1, 0x40, 0, 0, 0, 1, 0, 0,
    0, 1, 0x80,
];

/// The chain of the plain cloth, whole.
pub(crate) fn chain(alloc: Global) -> Result<Vec<u8>, AllocError> {
    joined(alloc, &[&CHAIN_HEAD, &FIRST_CARD, &SECOND_CARD])
}
