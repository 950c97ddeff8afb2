//! Looms by example, against cloths worked out by hand. A `#` is a lifted end, and rows are written from pick 0 on.
ghost use Rattle.std.specs.Prelude.{◌≡◌, ◌≤◌, [], ◌∷◌, ◌++◌, true, is_some, IfOk, OnOk};
ghost use Rattle.std.specs.Arc.{arc_value};
ghost use Rattle.draft_model.specs.Designs.{Fits as FitsDesign};
ghost use Rattle.card_image.specs.Sets.{design_by};
ghost use Rattle.shed_publish.specs.Versions.{IsPublished, version_of};
ghost use Rattle.shed_publish.specs.declared.newest.Version.{Version};
ghost use Rattle.session_file.specs.Plans.{Fits};
ghost use Rattle.loom_threads.specs.Looms.{Knows};

use card_image::card_set::CardSet;
use draft_model::cloth::Cloth;
use draft_model::design::Design;
use loom_threads::loom::Loom;
use mill_base::memory::OutOfMemory;
use mill_io::gate::{Gate, Point};
use mill_io::memory_shelf::MemoryShelf;
use point_paper::bit_paper::BitPaper;
use session_file::session::Session;
use shed_publish::desk_end::{DeskEnd, Seat, desk_end};
use shed_publish::newest::Newest;
use std::alloc::Global;
use std::process::Abort;
use std::sync::atomic::{AtomicBool, AtomicU32, Ordering};
use std::sync::{Arc, Wait};
use std::test::Fail;
use version_journal::run_log::Repeat;

// Two looms, one for each face, with four ends on three columns: 0, 1, 2 and 1. Hook 1 is cast out.
const TWO_FACES: &str = r#"
format = 1
looms = 2
faces = ["up", "down"]
[design]
columns = 3
picks = 2
hooks = 4
cast_out = [1]
weft_limit = 3
warp_limit = 3
opening = 0
[[colour]]
weave = "plain"
[[tie]]
kind = "pointed"
from = 0
to = 2
[[shift]]
repeats = [1, 3]
[[shift]]
repeats = [3, 1]
"#;

const GREATEST: &str = r#"
format = 1
[design]
columns = 4096
picks = 4096
hooks = 16384
weft_limit = 255
warp_limit = 255
opening = 0
[[colour]]
weave = "plain"
[[tie]]
kind = "straight"
from = 0
to = 4095
times = 4
[[shift]]
repeats = [2]
"#;

// The lifted cells of a paper, each a column and a pick: its cloth is `#...` and `.###`.
const WORKED: [(u32, u32); 3] = [(0, 0), (1, 1), (2, 1)];

// SHA-256 of the bytes 80 70, of 70 80, and of 8,388,608 bytes 00.
const WORKED_UP: [u8; 32] = [
    0x1D, 0x46, 0x91, 0x17, 0xE7, 0x2C, 0x5C, 0x2D, 0x34, 0x44, 0xEC, 0x7A, 0x03, 0x79, 0xFC, 0x40,
    0x4C, 0xA0, 0xFA, 0xDA, 0xDB, 0x10, 0x7A, 0x6B, 0x20, 0x0A, 0xBC, 0x81, 0xEE, 0x0E, 0xDF, 0x20,
];

const WORKED_DOWN: [u8; 32] = [
    0xE3, 0x94, 0x69, 0x8D, 0x0A, 0x8E, 0xE5, 0xD8, 0xF6, 0x8B, 0xF6, 0xA8, 0x6B, 0xDC, 0x6B, 0xD6,
    0xCD, 0x17, 0x21, 0x0D, 0x6E, 0x4C, 0xEB, 0x5C, 0xC2, 0xDD, 0x75, 0xD7, 0x0C, 0x9C, 0x45, 0x33,
];

const GREATEST_BLANK: [u8; 32] = [
    0x2D, 0xAE, 0xB1, 0xF3, 0x60, 0x95, 0xB4, 0x4B, 0x31, 0x84, 0x10, 0xB3, 0xF4, 0xE8, 0xB5, 0xD9,
    0x89, 0xDC, 0xC7, 0xBB, 0x02, 0x3D, 0x14, 0x26, 0xC4, 0x92, 0xDA, 0xB0, 0xA3, 0x05, 0x3E, 0x74,
];

fn session(alloc: Global, show: &str, text: &str) -> Result<Session, Fail>
    ensures { IfOk result Fits }
{
    let mut shelf = MemoryShelf::new(alloc, Vec::new(alloc));
    let text = format!(in alloc; "show = \"{show}\"{text}")?;
    Ok(Session::of_bytes(alloc, text.as_bytes(), &mut shelf)?)
}

// The cards of a paper of the design that is lifted in these cells alone.
fn cards(alloc: Global, design: &Design, lifted: &[(u32, u32)]) -> Result<Arc<CardSet>, Fail>
    requires { FitsDesign design.now }
    ensures { IfOk result (λ cards. (arc_value cards).design ≡ design_by design.now.casting design.now.size.picks) }
{
    let mut bits = BitPaper::new(alloc, design.size)?;
    for (column, pick) in lifted {
        if *column < design.size.columns && *pick < design.size.picks {
            bits.set(*column, *pick, true);
        }
    }
    let set = CardSet::cut(alloc, &bits, &design.casting)?;
    Ok(Arc::new(alloc, set)?)
}

fn push_rows(text: &mut String, cloth: &Cloth) -> Result<(), Fail> {
    for pick in 0..cloth.picks() {
        let row = cloth.row(pick);
        text.push(' ')?;
        for end in 0..row.len() {
            text.push(if row.get(end) { '#' } else { '.' })?;
        }
    }
    Ok(())
}

// Shift and version of each repeat, whether it has the digest, and its rows.
fn drawn(alloc: Global, repeats: &[Repeat], digest: [u8; 32]) -> Result<String, Fail> {
    let mut text = String::new(alloc);
    for repeat in repeats {
        let same = repeat.digest == digest;
        let head = format!(in alloc; "{} {} {same}", repeat.shift, repeat.version)?;
        text.push_str(&head)?;
        if let Some(cloth) = &repeat.rows {
            push_rows(&mut text, cloth)?;
        }
        text.push('/')?;
    }
    Ok(text)
}

// Two repeats of the same cards and one of others; then all but the first are cut, and others woven in their place.
fn weave_and_cut(loom: &mut Loom, one: &Arc<CardSet>, other: &Arc<CardSet>)
    requires room { 4 ≤ loom.old.spare }
    requires none { loom.old.repeats ≡ [] }
    requires one { (arc_value one.now).design ≡ design_by loom.old.machine.casting loom.old.picks }
    requires other { (arc_value other.now).design ≡ design_by loom.old.machine.casting loom.old.picks }
{
    loom.weave_repeat(7, one, 0);
    loom.weave_repeat(8, other, 0);
    loom.weave_repeat(9, other, 0);
    loom.cut(1);
    loom.weave_repeat(1, one, 1);
    loom.weave_repeat(2, one, 1);
    loom.weave_repeat(3, other, 2);
}

#[test]
fn repeats_are_what_their_cards_lift(rt: HostRuntime) -> Result<(), Fail> {
    const CASES: [(&str, u32, [u8; 32], &str); 4] = [
        (
            "digest",
            0,
            WORKED_UP,
            "0 7 true/1 1 true/1 2 true/2 3 false/",
        ),
        (
            "digest",
            1,
            WORKED_DOWN,
            "0 7 true/1 1 true/1 2 true/2 3 false/",
        ),
        (
            "rows",
            0,
            WORKED_UP,
            "0 7 true #... .###/1 1 true #... .###/1 2 true #... .###/2 3 false .... ..../",
        ),
        (
            "rows",
            1,
            WORKED_DOWN,
            "0 7 true .### #.../1 1 true .### #.../1 2 true .### #.../2 3 false #### ####/",
        ),
    ];
    let alloc = rt.alloc();
    for (show, number, digest, want) in CASES {
        let session = session(alloc, show, TWO_FACES)?;
        let one = cards(alloc, &session.design, &WORKED)?;
        let other = cards(alloc, &session.design, &[])?;
        assert_eq!(rt; session.looms, 2);
        let mut loom = Loom::new(alloc, &session, number, Seat::Later)?;
        assert_eq!(rt; (loom.spare(), loom.reads()), (4, false));
        weave_and_cut(&mut loom, &one, &other);
        assert_eq!(rt; loom.spare(), 0);
        let text = drawn(alloc, loom.into_repeats().as_slice(), digest)?;
        assert_eq!(rt; text.as_str(), want);
    }
    Ok(())
}

// Whether each moment that it was told of is the next one of loom 1: a reading is about to come, it came, and so on.
#[derive(Drop)]
struct Heard {
    moments: AtomicU32,
    wrong: AtomicBool,
}

impl Gate for Heard {
    fn at(&self, point: Point) {
        let place = self.moments.fetch_add(1, Ordering::SeqCst);
        let (loom, repeat) = (1, place / 2);
        let began = Point::Began { loom, repeat };
        let before = Point::BeforeBegin { loom, repeat };
        if point != if place % 2 == 0 { before } else { began } {
            self.wrong.store(true, Ordering::SeqCst);
        }
    }
}

// Tells the loom what is published, where there is a place for its end.
fn tell(desk: &mut DeskEnd, loom: &mut Loom) -> Result<(), Fail>
    requires reads { is_some loom.old.end ≡ true }
    ensures desk { OnOk result (desk.new ≡ desk.old) }
    ensures same { loom.new ≡ record loom.old { end = loom.new.end } }
    ensures told { OnOk result (Knows desk.old.list loom.new) }
{
    let before = desk.refused();
    loom.learn(desk.tell());
    let after = desk.refused();
    if before != 0 || after != 0 {
        return Err(Fail::from(OutOfMemory));
    }
    Ok(())
}

// Loom 1 beside the desk: it weaves no repeat, one of version 0, two of version 1, and meets the desk.
fn weave_beside<R: Abort + Wait>(
    rt: &R,
    alloc: Global,
    session: &Session,
    desk: &mut DeskEnd,
    next: Newest,
    gate: &Heard,
) -> Result<Loom, Fail>
    requires fits { Fits session.now }
    requires first { (first : Version) × (desk.old.list ≡ first ∷ []) × (first.cards.design ≡ design_by session.now.design.casting session.now.design.size.picks) }
    requires next { IsPublished (desk.old.list ++ version_of next ∷ []) }
{
    assert_eq!(rt; session.looms, 2);
    let mut loom = Loom::new(alloc, session, 1, desk.seat())?;
    assert_eq!(rt; (loom.spare(), loom.reads()), (4, true));
    tell(desk, &mut loom)?;
    loom.run(0, 0, gate);
    loom.run(0, 1, gate);
    desk.publish(rt, next)?;
    assert_eq!(rt; loom.repeats().len(), 1);
    loom.run(1, 2, gate);
    assert_eq!(rt; (loom.readings(), loom.missed()), (3, 0));
    assert!(rt; loom.meet(desk.tell(), 0));
    assert_eq!(rt; (loom.readings(), loom.missed()), (4, 0));
    Ok(loom)
}

#[test]
fn a_loom_weaves_the_newest_version_that_it_reads(rt: HostRuntime) -> Result<(), Fail> {
    let alloc = rt.alloc();
    let session = session(alloc, "rows", TWO_FACES)?;
    let gate = Heard {
        moments: AtomicU32::new(0),
        wrong: AtomicBool::new(false),
    };
    let worked = cards(alloc, &session.design, &WORKED)?;
    let blank = cards(alloc, &session.design, &[])?;
    let first = Newest {
        version: 0,
        cards: worked,
    };
    let next = Newest {
        version: 1,
        cards: blank,
    };
    let mut desk = desk_end(&rt, alloc, first, 1)?;
    let woven = weave_beside(&rt, alloc, &session, &mut desk, next, &gate);
    desk.close(&rt);
    let text = drawn(alloc, woven?.repeats(), WORKED_DOWN)?;
    assert_eq!(rt;
        text.as_str(),
        "0 0 true .### #.../1 1 false #### ####/1 1 false #### ####/"
    );
    assert_eq!(rt; gate.moments.load(Ordering::SeqCst), 6);
    assert!(rt; !gate.wrong.load(Ordering::SeqCst));
    Ok(())
}

#[test]
fn the_greatest_cloth_is_woven_twice(rt: HostRuntime) -> Result<(), Fail> {
    let alloc = rt.alloc();
    let session = session(alloc, "digest", GREATEST)?;
    let cards = cards(alloc, &session.design, &[])?;
    assert_eq!(rt; session.looms, 1);
    let mut loom = Loom::new(alloc, &session, 0, Seat::Later)?;
    assert_eq!(rt; loom.spare(), 2);
    loom.weave_repeat(0, &cards, 0);
    loom.weave_repeat(0, &cards, 0);
    let text = drawn(alloc, loom.repeats(), GREATEST_BLANK)?;
    assert_eq!(rt; text.as_str(), "0 0 true/0 0 true/");
    Ok(())
}
