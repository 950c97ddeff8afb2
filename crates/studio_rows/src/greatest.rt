//! The greatest cloth, of 4096 picks by 16,384 ends, and the most picks, through each command that makes a cloth, an image or
//! cards. Reports and digests were worked out by another program.

use crate::calls::{expect, sound_shelf};
use mill_base::memory::OutOfMemory;
use mill_io::memory_shelf::MemoryShelf;
use sha2::{Digest, Sha256};
use std::alloc::Global;
use std::process::Abort;
use std::sync::Wait;
use std::test::Fail;
use std::thread::Threads;

/// Four rounds of 4096 columns, on a loom for each face. Most of the paper is blank, so that binders break its floats.
const GREATEST_CLOTH: &str = r#"format = 1
looms = 2
faces = ["up", "down"]
[design]
columns = 4096
picks = 4096
hooks = 16384
cast_out = [0, 2047, 8191]
weft_limit = 15
warp_limit = 15
raise = "satin 8 3 weft"
sink = "satin 8 3 weft"
opening = 0
[[colour]]
weave = "plain"
[[colour]]
weave = "blank"
[[tie]]
kind = "straight"
from = 0
to = 4095
times = 4
[[shift]]
repeats = [0, 0]
acts = [["rect 1 1000 1000 4095 2999", "commit"]]
[[shift]]
repeats = [1, 1]
"#;

const GREATEST_REPORT: &str = "studio 1
design columns 4096 picks 4096 ends 16384 hooks 16384
shift 0
act 0 painter 0 number 1 paint
act 1 painter 0 number 2 accepted 1
shift 1
loom 0 repeat 0 version 1 sha256 3564958b9f50e9f18fcf4dfb3b131032d85674e37f0379e7c8dad7fde28b7262
loom 1 down repeat 0 version 1 sha256 d6cc7ab7e65077c4beaea2c129b359beca382b426d33ddaa9773d4af85fac018
end versions 1
";

/// 8192 picks of as many ends, on one loom whose cloth lies face down.
const MOST_PICKS: &str = r#"format = 1
looms = 1
faces = ["down"]
[design]
columns = 4096
picks = 8192
hooks = 16384
cast_out = [0, 2047, 8191]
weft_limit = 15
warp_limit = 15
raise = "satin 8 3 weft"
sink = "satin 8 3 weft"
opening = 0
[[colour]]
weave = "plain"
[[colour]]
weave = "blank"
[[tie]]
kind = "straight"
from = 0
to = 4095
times = 1
[[tie]]
kind = "reverse"
from = 0
to = 4095
[[shift]]
repeats = [0]
acts = [["rect 1 1000 1000 4095 8191", "commit"]]
[[shift]]
repeats = [1]
"#;

const MOST_REPORT: &str = "studio 1
design columns 4096 picks 8192 ends 8192 hooks 16384
shift 0
act 0 painter 0 number 1 paint
act 1 painter 0 number 2 accepted 1
shift 1
loom 0 down repeat 0 version 1 sha256 d3751dacd2cd2e29bfe61fb495d66c54dfd65d1d018aa837d55b5a007f81ac5a
end versions 1
";

/// SHA-256 of the files that `draw`, `paper`, `cards` and `cards .. down` write. What is lifted from either chain is the drawn cloth.
#[derive(Clone, Copy)]
struct Digests {
    drawn: [u8; 32],
    paper: [u8; 32],
    up: [u8; 32],
    down: [u8; 32],
}

const GREATEST_DIGESTS: Digests = Digests {
    drawn: [
        0x11, 0x99, 0x7B, 0x20, 0x04, 0xB6, 0x6D, 0x37, 0x9C, 0xB3, 0x66, 0xDA, 0xED, 0x8F, 0xCB,
        0x55, 0xA8, 0xB1, 0xA1, 0x14, 0x0D, 0x54, 0x53, 0x5D, 0xDE, 0x78, 0xCD, 0x67, 0x10, 0xE2,
        0x26, 0xE1,
    ],
    paper: [
        0x27, 0xA2, 0xD0, 0xBB, 0xED, 0xC4, 0xC6, 0xF9, 0x28, 0x52, 0xA1, 0x12, 0x57, 0x87, 0xA1,
        0x8F, 0x1A, 0x2F, 0x20, 0xDB, 0x36, 0xC8, 0x23, 0xC0, 0x11, 0xAD, 0xE9, 0x3C, 0xF0, 0x50,
        0x78, 0xBF,
    ],
    up: [
        0x69, 0xD8, 0x83, 0x7B, 0x83, 0x81, 0xF9, 0x55, 0x56, 0x1B, 0xAF, 0x5B, 0x72, 0xA7, 0xF2,
        0x7A, 0x35, 0x9B, 0xA5, 0xE8, 0x6F, 0xD8, 0xD7, 0x3E, 0x98, 0xDB, 0x52, 0x69, 0xC6, 0x1A,
        0x70, 0xE2,
    ],
    down: [
        0xA8, 0xC7, 0xBF, 0xED, 0x8C, 0x3F, 0xDE, 0xC5, 0xF8, 0xC2, 0xF7, 0x97, 0x14, 0x8B, 0xA7,
        0xA5, 0xB0, 0xDE, 0xB8, 0xD8, 0x98, 0x5D, 0x0E, 0x01, 0x61, 0xA1, 0x55, 0xF3, 0xF1, 0x22,
        0xB1, 0xB7,
    ],
};

const MOST_DIGESTS: Digests = Digests {
    drawn: [
        0xB3, 0x70, 0x40, 0xAC, 0x64, 0x03, 0xF5, 0x5C, 0x20, 0xB9, 0x95, 0xD3, 0x57, 0x21, 0xBB,
        0xFE, 0xAF, 0x67, 0x2D, 0x0F, 0x90, 0xAD, 0xD6, 0x5B, 0xF4, 0x56, 0x6F, 0x82, 0x4A, 0xE0,
        0xDB, 0x4D,
    ],
    paper: [
        0xEF, 0xB9, 0x9E, 0x05, 0x20, 0x3A, 0x29, 0x2B, 0x53, 0x10, 0x82, 0x4A, 0x21, 0x20, 0x88,
        0x0A, 0x48, 0x9D, 0xC3, 0x2F, 0xBE, 0x77, 0xFC, 0x75, 0x51, 0x4E, 0xCE, 0x66, 0xE8, 0xC1,
        0x3E, 0x06,
    ],
    up: [
        0x74, 0x9C, 0x21, 0xF5, 0xEB, 0x0E, 0xC8, 0x0A, 0xC9, 0xE9, 0x52, 0x25, 0xB9, 0x8F, 0x8D,
        0xA9, 0x49, 0xB2, 0x48, 0x77, 0x21, 0x3B, 0x5F, 0x0D, 0x43, 0xA7, 0xAF, 0xA1, 0x63, 0x59,
        0x95, 0x28,
    ],
    down: [
        0x45, 0xC2, 0x68, 0x2E, 0x48, 0x24, 0x09, 0x22, 0xD5, 0xD1, 0x8B, 0xEE, 0x0B, 0x61, 0x02,
        0xC3, 0x66, 0xA6, 0x53, 0xC6, 0x1C, 0x1E, 0x0C, 0x76, 0x65, 0x16, 0x86, 0x16, 0x01, 0xDB,
        0x00, 0x71,
    ],
};

/// A shelf that holds the session under `S1`.
fn shelf_of(alloc: Global, session: &str) -> Result<MemoryShelf, OutOfMemory> {
    let mut shelf = sound_shelf(alloc);
    shelf.add("S1", session.as_bytes())?;
    Ok(shelf)
}

fn digest(bytes: &[u8]) -> [u8; 32] {
    let mut hasher = Sha256::new();
    hasher.update(bytes);
    hasher.finalize()
}

fn has_digest(shelf: &MemoryShelf, name: &str, wanted: [u8; 32]) -> bool {
    match shelf.content(name) {
        Some(bytes) => digest(bytes) == wanted,
        None => false,
    }
}

/// Runs a command that writes the file of a name, and compares the digest of that file.
fn expect_digest<R: Abort + Threads + Wait + Sync>(
    rt: &R,
    alloc: Global,
    shelf: &mut MemoryShelf,
    words: &[&str],
    name: &str,
    wanted: [u8; 32],
) -> Result<(), Fail> {
    expect(rt, alloc, shelf, words, (0, "", ""))?;
    assert!(rt; has_digest(shelf, name, wanted), "{words:?}");
    Ok(())
}

fn expect_files<R: Abort + Threads + Wait + Sync>(
    rt: &R,
    alloc: Global,
    session: &str,
    digests: Digests,
) -> Result<(), Fail> {
    let Digests {
        drawn,
        paper,
        up,
        down,
    } = digests;
    let mut shelf = shelf_of(alloc, session)?;
    expect_digest(rt, alloc, &mut shelf, &["draw", "S1", "Y"], "Y", drawn)?;
    expect_digest(rt, alloc, &mut shelf, &["paper", "S1", "Y"], "Y", paper)?;
    expect_digest(rt, alloc, &mut shelf, &["cards", "S1", "X"], "X", up)?;
    expect_digest(rt, alloc, &mut shelf, &["lift", "S1", "X", "Y"], "Y", drawn)?;
    expect_digest(
        rt,
        alloc,
        &mut shelf,
        &["cards", "S1", "X", "down"],
        "X",
        down,
    )?;
    expect_digest(rt, alloc, &mut shelf, &["lift", "S1", "X", "Y"], "Y", drawn)
}

#[test]
fn the_greatest_cloth_is_woven_on_both_faces(rt: HostRuntime) -> Result<(), Fail> {
    let mut shelf = shelf_of(rt.alloc(), GREATEST_CLOTH)?;
    expect(
        &rt,
        rt.alloc(),
        &mut shelf,
        &["weave", "S1"],
        (0, GREATEST_REPORT, ""),
    )
}

#[test]
fn the_most_picks_are_woven_face_down(rt: HostRuntime) -> Result<(), Fail> {
    let mut shelf = shelf_of(rt.alloc(), MOST_PICKS)?;
    expect(
        &rt,
        rt.alloc(),
        &mut shelf,
        &["weave", "S1"],
        (0, MOST_REPORT, ""),
    )
}

#[test]
fn the_greatest_cloth_is_drawn_cut_and_lifted(rt: HostRuntime) -> Result<(), Fail> {
    expect_files(&rt, rt.alloc(), GREATEST_CLOTH, GREATEST_DIGESTS)
}

#[test]
fn the_most_picks_are_drawn_cut_and_lifted(rt: HostRuntime) -> Result<(), Fail> {
    expect_files(&rt, rt.alloc(), MOST_PICKS, MOST_DIGESTS)
}
