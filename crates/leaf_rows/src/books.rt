//! Weaves by their drawings, texts that spell no weave, and the largest book.
ghost use Rattle.std.specs.Prelude.{◌≡◌, length, IfOk};
ghost use Rattle.mill_base.specs.declared.limits.TheConstants.{MAX_COLOURS};

use crate::expect::expect;
use mill_base::limits::MAX_COLOURS;
use mill_base::memory::OutOfMemory;
use std::alloc::Global;
use std::test::Fail;
use weave_book::book::Book;
use weave_book::fault::WeaveFault;
use weave_book::weaves::Weave;

const PLAIN: [&str; 8] = [
    ".#.#.#.#", "#.#.#.#.", ".#.#.#.#", "#.#.#.#.", ".#.#.#.#", "#.#.#.#.", ".#.#.#.#", "#.#.#.#.",
];

const TWILL_RIGHT: [&str; 8] = [
    "..##..##", ".##..##.", "##..##..", "#..##..#", "..##..##", ".##..##.", "##..##..", "#..##..#",
];

const TWILL_LEFT: [&str; 8] = [
    ".##..##.", "..##..##", "#..##..#", "##..##..", ".##..##.", "..##..##", "#..##..#", "##..##..",
];

const TWILL_THREE: [&str; 8] = [
    ".###.###", "###.###.", "##.###.#", "#.###.##", ".###.###", "###.###.", "##.###.#", "#.###.##",
];

const SATIN_FIVE: [&str; 8] = [
    ".#....#.", "...#....", "#....#..", "..#....#", "....#...", ".#....#.", "...#....", "#....#..",
];

const SATIN_FIVE_WARP: [&str; 8] = [
    "#.####.#", "###.####", ".####.##", "##.####.", "####.###", "#.####.#", "###.####", ".####.##",
];

const SATIN_EIGHT: [&str; 8] = [
    ".....#..", "..#.....", ".......#", "....#...", ".#......", "......#.", "...#....", "#.......",
];

const ROWS: [&str; 8] = [
    ".##.##.#", "#..#..#.", ".##.##.#", "#..#..#.", ".##.##.#", "#..#..#.", ".##.##.#", "#..#..#.",
];

const LAST: u32 = 4294967295;

const DRAWINGS: [(&str, [&str; 8]); 11] = [
    ("blank", ["........"; 8]),
    ("full", ["########"; 8]),
    (" plain ", PLAIN),
    ("twill 2 2 right", TWILL_RIGHT),
    ("twill 2 2 left", TWILL_LEFT),
    ("  twill 3  1 right ", TWILL_THREE),
    ("satin 5 2 weft", SATIN_FIVE),
    ("satin 5 2 warp", SATIN_FIVE_WARP),
    ("satin 8 3 weft", SATIN_EIGHT),
    ("rows 100 011", ROWS),
    ("rows 1", ["########"; 8]),
];

const FAULTS: [(&str, WeaveFault); 35] = [
    ("", WeaveFault::Unknown),
    ("  ", WeaveFault::Unknown),
    ("Plain", WeaveFault::Unknown),
    ("plain 1", WeaveFault::Unknown),
    ("blank blank", WeaveFault::Unknown),
    ("full 1", WeaveFault::Unknown),
    ("twill", WeaveFault::Unknown),
    ("twill 1 2", WeaveFault::Unknown),
    ("twill 1 2 up", WeaveFault::Unknown),
    ("twill 01 2 right", WeaveFault::Unknown),
    ("twill 1 2 right left", WeaveFault::Unknown),
    ("twill 4294967296 2 right", WeaveFault::Unknown),
    ("satin 5 2", WeaveFault::Unknown),
    ("satin 5 2 left", WeaveFault::Unknown),
    ("satin 5 2 weft weft", WeaveFault::Unknown),
    ("rows", WeaveFault::Unknown),
    ("rows 12", WeaveFault::Unknown),
    ("rows 10 100 1x", WeaveFault::Unknown),
    ("twill 40 40 right", WeaveFault::TooWide),
    ("twill 4294967295 1 left", WeaveFault::TooWide),
    ("twill 0 65 right", WeaveFault::TooWide),
    ("satin 65 2 weft", WeaveFault::TooWide),
    ("satin 66 2 warp", WeaveFault::TooWide),
    (
        "rows 00000000000000000000000000000000000000000000000000000000000000000",
        WeaveFault::TooWide,
    ),
    (
        "rows 0 0000000000000000000000000000000000000000000000000000000000000000 10000000000000000000000000000000000000000000000000000000000000000",
        WeaveFault::TooWide,
    ),
    ("twill 0 2 right", WeaveFault::TwillZero),
    ("twill 2 0 left", WeaveFault::TwillZero),
    ("twill 0 0 left", WeaveFault::TwillZero),
    ("satin 6 5 weft", WeaveFault::SatinStep { n: 6, s: 5 }),
    ("satin 4 2 weft", WeaveFault::SatinStep { n: 4, s: 2 }),
    ("satin 8 2 weft", WeaveFault::SatinStep { n: 8, s: 2 }),
    ("satin 8 7 weft", WeaveFault::SatinStep { n: 8, s: 7 }),
    (
        "satin 0 4294967295 warp",
        WeaveFault::SatinStep {
            n: 0,
            s: 4294967295,
        },
    ),
    ("rows 10 100", WeaveFault::Ragged),
    ("rows 100 100 10", WeaveFault::Ragged),
];

const FAR_CELLS: [(&str, u32, u32, bool); 11] = [
    ("plain", LAST, LAST, true),
    ("plain", LAST, LAST - 1, false),
    ("twill 2 2 right", LAST, LAST, true),
    ("twill 2 2 right", LAST, 0, true),
    ("twill 2 2 right", 0, LAST, false),
    ("twill 2 2 left", LAST, LAST, false),
    ("twill 2 2 left", LAST, LAST - 1, true),
    ("satin 5 2 weft", LAST, LAST, true),
    ("satin 5 2 weft", LAST, LAST - 1, false),
    ("rows 10 01", LAST, LAST, true),
    ("rows 10 01", LAST, LAST - 1, false),
];

/// Whether the weave has the marks of columns 0 to 7 that are drawn for a pick.
fn has_marks(weave: &Weave, pick: u32, row: &[u8]) -> bool {
    for column in 0u32..8 {
        if weave.mark(column, pick) != (row.get(column as usize) == Some(&b'#')) {
            return false;
        }
    }
    true
}

/// Whether the weave is the drawing of columns 0 to 7 and picks 0 to 7, the highest pick first.
fn is_drawn(weave: &Weave, drawing: [&str; 8]) -> bool {
    for pick in 0u32..8 {
        if !has_marks(weave, pick, drawing[7 - pick as usize].as_bytes()) {
            return false;
        }
    }
    true
}

#[test]
fn weaves_are_drawn_from_their_texts(rt: HostRuntime) -> Result<(), Fail> {
    for (text, drawing) in DRAWINGS {
        expect(&rt, is_drawn(&Weave::parse(text)?, drawing), text);
    }
    Ok(())
}

#[test]
fn a_text_is_refused_by_the_first_rule_that_it_breaks(rt: HostRuntime) {
    for (text, fault) in FAULTS {
        expect(&rt, Weave::parse(text).err() == Some(fault), text);
    }
}

#[test]
fn marks_reach_the_greatest_column_and_pick(rt: HostRuntime) -> Result<(), Fail> {
    for (text, column, pick, marked) in FAR_CELLS {
        expect(&rt, Weave::parse(text)?.mark(column, pick) == marked, text);
    }
    Ok(())
}

/// As many blank weaves as leave room for one more, and that one.
fn largest_book(alloc: Global, last: Weave) -> Result<Book, OutOfMemory>
    ensures { IfOk result (λ book. length book ≡ MAX_COLOURS) }
{
    let mut book = Book::new(alloc);
    for _ in 1..MAX_COLOURS {
        book.add(Weave::Blank)?;
    }
    book.add(last)?;
    Ok(book)
}

/// Whether the last two weaves of the largest book, and of its copy, are the blank one and the full one.
fn keeps_its_weaves(alloc: Global) -> Result<bool, OutOfMemory> {
    let book = largest_book(alloc, Weave::Full)?;
    let copy = book.copy()?;
    Ok(copy.equals(&book) && !copy.weave(254).mark(0, 0) && copy.weave(255).mark(0, 0))
}

#[test]
fn the_largest_book_is_filled_and_copied(rt: HostRuntime) -> Result<(), Fail> {
    expect(&rt, keeps_its_weaves(rt.alloc())?, "book");
    Ok(())
}
