//! Sessions that are run, against values worked out by hand. A `#` is a lifted end, and rows are written from pick 0 on.
ghost use Rattle.std.specs.Prelude.{IfOk};
ghost use Rattle.session_file.specs.Plans.{Fits};

use draft_model::cloth::Cloth;
use draft_model::float_run::{FloatKind, FloatRun};
use loom_threads::digest::cloth_digest;
use mill_io::gate::OpenGate;
use mill_io::memory_shelf::MemoryShelf;
use session_file::session::Session;
use shift_run::run::{check_opening, last_paper, run_session};
use std::alloc::Global;
use std::test::Fail;
use studio_core::refusal::StartRefusal;
use version_journal::entry::{Entry, Reply};
use version_journal::run_log::Repeat;

// The first commit keeps an endless weft float, the second none.
const TWO_PAINTERS: &str = r#"
format = 1
looms = 2
show = "rows"
faces = ["up", "down"]
[design]
columns = 4
picks = 4
weft_limit = 2
warp_limit = 3
opening = 0
[[colour]]
weave = "plain"
[[colour]]
weave = "blank"
[[colour]]
weave = "twill 2 2 right"
[[shift]]
repeats = [1, 2]
acts = [["rect 1 0 0 3 0", "commit"], ["rect 2 0 0 3 0", "commit"]]
"#;

// In each shift one painter has acts, and no repeat is woven while versions are made, so that every schedule gives one log. Shift 1 makes
// no version.
const TWO_SHIFTS: &str = r#"
format = 1
looms = 2
show = "rows"
faces = ["up", "down"]
[design]
columns = 4
picks = 4
weft_limit = 2
warp_limit = 3
opening = 0
[[colour]]
weave = "plain"
[[colour]]
weave = "blank"
[[colour]]
weave = "twill 2 2 right"
[[shift]]
repeats = [0, 0]
acts = [["rect 1 0 0 3 0", "commit", "rect 2 0 0 3 0", "commit"]]
[[shift]]
repeats = [1, 2]
acts = [[], ["dot 1 1 1"]]
"#;

// The cloth `..##..`, `##..##`, with a float round its edge.
const FLOATS: &str = r#"
format = 1
[design]
columns = 6
picks = 2
weft_limit = 3
warp_limit = 3
opening = 0
[[colour]]
weave = "rows 001100 110011"
[[shift]]
repeats = [1]
"#;

// SHA-256 of the bytes 90 50 A0 50.
const UP: [u8; 32] = [
    0x94, 0x18, 0x50, 0x73, 0x9F, 0xAE, 0xAC, 0xE6, 0x31, 0xAB, 0xAF, 0x54, 0xF7, 0xEB, 0x50, 0x74,
    0xCB, 0xBA, 0x39, 0x62, 0x6D, 0x9A, 0xE3, 0x42, 0xAE, 0x68, 0xA5, 0x11, 0x28, 0x8C, 0x28, 0x6C,
];

// SHA-256 of the bytes 60 A0 50 A0.
const DOWN: [u8; 32] = [
    0x7C, 0x47, 0xF3, 0xC5, 0x71, 0xB7, 0x6A, 0x31, 0xEF, 0x97, 0xEC, 0xC3, 0x74, 0x6D, 0x43, 0x26,
    0xE1, 0xFA, 0x42, 0x63, 0xA8, 0x08, 0xA2, 0x29, 0x08, 0x2F, 0xEA, 0xBA, 0xDA, 0xEF, 0x34, 0x24,
];

fn session(alloc: Global, text: &str) -> Result<Session, Fail>
    ensures { IfOk result Fits }
{
    let mut shelf = MemoryShelf::new(alloc, Vec::new(alloc));
    Ok(Session::of_bytes(alloc, text.as_bytes(), &mut shelf)?)
}

fn weft_float(start: u32, length: u32, endless: bool) -> FloatRun {
    FloatRun {
        kind: FloatKind::Weft,
        line: 0,
        start,
        length,
        endless,
    }
}

fn entry(shift: u32, painter: u32, number: u32, reply: Reply) -> Entry {
    Entry {
        shift,
        painter,
        number,
        reply,
    }
}

fn push_rows(text: &mut String, cloth: &Cloth) -> Result<(), Fail> {
    for pick in 0..cloth.picks() {
        let row = cloth.row(pick);
        for end in 0..row.len() {
            text.push(if row.get(end) { '#' } else { '.' })?;
        }
        text.push('/')?;
    }
    Ok(())
}

// Shift and version of each repeat, whether it has the digest, and its rows.
fn drawn(alloc: Global, repeats: &[Repeat], digest: [u8; 32]) -> Result<String, Fail> {
    let mut text = String::new(alloc);
    for repeat in repeats {
        let same = repeat.digest == digest;
        let head = format!(in alloc; "{} {} {} ", repeat.shift, repeat.version, same)?;
        text.push_str(&head)?;
        if let Some(cloth) = &repeat.rows {
            push_rows(&mut text, cloth)?;
        }
    }
    Ok(text)
}

#[test]
fn the_last_paper_in_plain_order_has_the_cloth_of_the_last_version(
    rt: HostRuntime,
) -> Result<(), Fail> {
    let alloc = rt.alloc();
    let session = session(alloc, TWO_PAINTERS)?;
    let last = last_paper(alloc, &session)?;
    assert_eq!(rt; cloth_digest(alloc, &session.design, &last)?, UP);
    Ok(())
}

#[test]
fn two_shifts_are_run_with_threads(rt: HostRuntime) -> Result<(), Fail> {
    let alloc = rt.alloc();
    let session = session(alloc, TWO_SHIFTS)?;
    let ran = run_session(&rt, alloc, &session, &OpenGate)?;
    let want = [
        entry(0, 0, 1, Reply::Painted),
        entry(0, 0, 2, Reply::Refused(weft_float(0, 4, true))),
        entry(0, 0, 3, Reply::Painted),
        entry(0, 0, 4, Reply::Accepted(1)),
        entry(1, 1, 1, Reply::Painted),
    ];
    assert_eq!(rt; ran.run_log.entries.as_slice(), want.as_slice());
    let looms = ran.run_log.looms.as_slice();
    assert_eq!(rt; looms.len(), 2);
    let up = drawn(alloc, looms[0].as_slice(), UP)?;
    assert_eq!(rt; up.as_str(), "1 1 true #..#/.#.#/#.#./.#.#/");
    let down = drawn(alloc, looms[1].as_slice(), DOWN)?;
    assert_eq!(rt;
        down.as_str(),
        "1 1 true .##./#.#./.#.#/#.#./1 1 true .##./#.#./.#.#/#.#./"
    );
    Ok(())
}

#[test]
fn an_opening_that_keeps_a_float_is_refused(rt: HostRuntime) -> Result<(), Fail> {
    let alloc = rt.alloc();
    let session = session(alloc, FLOATS)?;
    let want = Some(StartRefusal::OpeningFloat(weft_float(4, 4, false)));
    assert_eq!(rt; check_opening(alloc, &session).err(), want);
    assert_eq!(rt; last_paper(alloc, &session).err(), want);
    assert_eq!(rt; run_session(&rt, alloc, &session, &OpenGate).err(), want);
    Ok(())
}
