//! Acts and motifs by example: texts with each fault, cells drawn by hand, and the greatest sizes.
ghost use Rattle.std.specs.Prelude.{◌≡◌, ◌<◌, true};
ghost use Rattle.strokes.specs.Cells.{IsNoLarger};
ghost use Rattle.strokes.specs.Places.{HasMotif, motif_of_act};

use crate::expect::expect;
use mill_base::limits::{MAX_COLUMNS, MAX_MOTIF_CELLS, MAX_PICKS};
use mill_base::memory::OutOfMemory;
use mill_base::size::Size;
use point_paper::paper::Span;
use std::alloc::Global;
use std::test::Fail;
use strokes::act::Act;
use strokes::fault::{ActFault, MotifFault};
use strokes::motif::Motif;
use strokes::motifs::Motifs;
use strokes::prepared::Prepared;

const SMALL: Size = Size {
    columns: 4,
    picks: 4,
};

fn rows_of(alloc: Global, rows: &[&str]) -> Result<Vec<String>, OutOfMemory> {
    let mut texts = Vec::new(alloc);
    for row in rows {
        texts.push(String::from_str(alloc, row)?)?;
    }
    Ok(texts)
}

/// Two motifs that are named alike, one with equal cells side by side, and one that meets itself in a half drop.
fn motifs_of(alloc: Global) -> Result<Motifs, MotifFault> {
    let mut motifs = Motifs::new(alloc);
    motifs.add("leaf", &rows_of(alloc, &["1 .", "1 1"])?, 2, SMALL)?;
    motifs.add("leaf", &rows_of(alloc, &["0"])?, 2, SMALL)?;
    motifs.add("bud", &rows_of(alloc, &["0 1 1 .", ". 1 0 0"])?, 2, SMALL)?;
    motifs.add(
        "ring",
        &rows_of(alloc, &["0 . 1", ". . .", "0 . 0"])?,
        2,
        SMALL,
    )?;
    Ok(motifs)
}

#[test]
fn acts_are_read_and_the_first_fault_is_told(rt: HostRuntime) -> Result<(), Fail> {
    const CASES: [(&str, Result<Act, ActFault>); 40] = [
        (
            "dot 1 3 2",
            Ok(Act::Dot {
                colour: 1,
                column: 3,
                pick: 2,
            }),
        ),
        (
            "  rect  0 3 0   1 2 ",
            Ok(Act::Rect {
                colour: 0,
                column0: 3,
                pick0: 0,
                column1: 1,
                pick1: 2,
            }),
        ),
        (
            "line 1 0 1 2 3",
            Ok(Act::Line {
                colour: 1,
                column0: 0,
                pick0: 1,
                column1: 2,
                pick1: 3,
            }),
        ),
        (
            "stamp leaf 1 2",
            Ok(Act::Stamp {
                motif: 0,
                column: 1,
                pick: 2,
            }),
        ),
        (
            "halfdrop bud 3 0",
            Ok(Act::HalfDrop {
                motif: 2,
                column: 3,
                pick: 0,
            }),
        ),
        (" commit ", Ok(Act::Commit)),
        ("", Err(ActFault::Word(0))),
        ("   ", Err(ActFault::Word(0))),
        ("dye 1", Err(ActFault::Word(0))),
        ("dots 1 0 0", Err(ActFault::Word(0))),
        ("Dot 1 0 0", Err(ActFault::Word(0))),
        ("dot", Err(ActFault::Word(1))),
        ("dot 1", Err(ActFault::Word(2))),
        ("dot 1 0", Err(ActFault::Word(3))),
        ("dot 1 0 0 0", Err(ActFault::Word(4))),
        ("rect 1 0 0", Err(ActFault::Word(4))),
        ("line 1 0 0 0", Err(ActFault::Word(5))),
        ("line 1 0 0 0 0 0 0", Err(ActFault::Word(6))),
        ("stamp leaf", Err(ActFault::Word(2))),
        ("halfdrop leaf 0 0 0", Err(ActFault::Word(4))),
        ("commit now", Err(ActFault::Word(1))),
        ("dot 01 0 0", Err(ActFault::Number(1))),
        ("dot 00 0 0", Err(ActFault::Number(1))),
        ("dot 1 x y", Err(ActFault::Number(2))),
        ("dot 1 0 4294967296", Err(ActFault::Number(3))),
        ("rect 1 0 0 -1 0", Err(ActFault::Number(4))),
        ("line 1 0 0 0 1.", Err(ActFault::Number(5))),
        ("stamp 7 0 q", Err(ActFault::Number(3))),
        ("dot 9 0 0", Err(ActFault::NoColour)),
        ("dot 2 9 9", Err(ActFault::NoColour)),
        ("rect 4294967295 0 0 0 0", Err(ActFault::NoColour)),
        ("line 2 0 0 0 4", Err(ActFault::NoColour)),
        ("stamp fern 9 9", Err(ActFault::NoMotif)),
        ("halfdrop lea 0 0", Err(ActFault::NoMotif)),
        ("dot 1 4 0", Err(ActFault::OutOfPaper)),
        ("dot 1 0 4", Err(ActFault::OutOfPaper)),
        ("rect 1 0 0 4 0", Err(ActFault::OutOfPaper)),
        ("line 1 0 4294967295 0 0", Err(ActFault::OutOfPaper)),
        ("stamp leaf 4 0", Err(ActFault::OutOfPaper)),
        ("halfdrop leaf 0 4", Err(ActFault::OutOfPaper)),
    ];
    let motifs = motifs_of(rt.alloc())?;
    for (text, want) in CASES {
        expect(&rt, Act::parse(text, 2, SMALL, &motifs) == want, text);
    }
    Ok(())
}

#[test]
fn motifs_are_added_unless_they_have_a_fault(rt: HostRuntime) -> Result<(), Fail> {
    const CASES: [(&[&str], Result<(), MotifFault>); 16] = [
        (&[" 0  1 ", ". 1"], Ok(())),
        (&["0 . 1 1", "1 1 1 1", "0 0 0 0", ". . . ."], Ok(())),
        (&["x"], Err(MotifFault::Token { row: 0, word: 0 })),
        (&["1 0", "0 01"], Err(MotifFault::Token { row: 1, word: 1 })),
        (&["1 .."], Err(MotifFault::Token { row: 0, word: 1 })),
        (&["1 0", "1 2"], Err(MotifFault::Colour { row: 1, word: 1 })),
        (&["4294967295"], Err(MotifFault::Colour { row: 0, word: 0 })),
        (&["4294967296"], Err(MotifFault::Token { row: 0, word: 0 })),
        (&["2 x"], Err(MotifFault::Colour { row: 0, word: 0 })),
        (&[""], Err(MotifFault::Ragged { row: 0 })),
        (&["0", "  "], Err(MotifFault::Ragged { row: 1 })),
        (&["0 1", "0", "x"], Err(MotifFault::Ragged { row: 1 })),
        (
            &["0 1", "0 1 x"],
            Err(MotifFault::Token { row: 1, word: 2 }),
        ),
        (&["0 1", "0 1 1"], Err(MotifFault::Ragged { row: 1 })),
        (&["0 0 0 0 0"], Err(MotifFault::TooLarge)),
        (&["0", "0", "0", "0", "0"], Err(MotifFault::TooLarge)),
    ];
    for (rows, want) in CASES {
        expect(&rt, added(rt.alloc(), rows)? == want, "motif");
    }
    Ok(())
}

/// What comes of a motif with these rows.
fn added(alloc: Global, rows: &[&str]) -> Result<Result<(), MotifFault>, OutOfMemory> {
    let rows = rows_of(alloc, rows)?;
    let mut motifs = Motifs::new(alloc);
    Ok(motifs.add("leaf", &rows, 2, SMALL))
}

/// Whether the motif that an act names is no larger than a paper.
fn is_small(act: &Act, motifs: &Motifs, size: Size) -> bool
    requires { HasMotif motifs.now act.now }
    ensures { result ≡ true → IsNoLarger (motif_of_act motifs.now act.now) size }
{
    match act {
        Act::Stamp { motif, .. } => is_no_larger(motifs.motif(*motif), size),
        Act::HalfDrop { motif, .. } => is_no_larger(motifs.motif(*motif), size),
        _ => true,
    }
}

fn is_no_larger(motif: &Motif, size: Size) -> bool
    ensures { result ≡ true → IsNoLarger motif.now size }
{
    motif.size().columns <= size.columns && motif.size().picks <= size.picks
}

/// The act of a text, unless its motif is too large for the paper, which no case has.
fn prepared(alloc: Global, text: &str, motifs: &Motifs, size: Size) -> Result<Prepared, Fail> {
    let act = Act::parse(text, 2, size, motifs)?;
    if !is_small(&act, motifs, size) {
        return Err(Fail::from(OutOfMemory));
    }
    Ok(Prepared::of(alloc, &act, motifs, size)?)
}

/// A small paper on which spans are painted, with its highest pick first and a dot for each cell that stays.
fn drawing(spans: &[Span]) -> [u8; 16] {
    let mut cells = [b'.'; 16];
    for span in spans {
        for k in 0..span.length {
            paint(
                &mut cells,
                span.column.wrapping_add(k),
                span.pick,
                span.colour,
            );
        }
    }
    cells
}

fn paint(cells: &mut [u8; 16], column: u32, pick: u32, colour: u8) {
    if column < 4 && pick < 4 {
        cells[((3 - pick) * 4 + column) as usize] = b'0'.wrapping_add(colour);
    }
}

/// Whether an act paints these cells of the small paper, by so many spans.
fn paints(
    alloc: Global,
    text: &str,
    motifs: &Motifs,
    want: &str,
    spans: usize,
) -> Result<bool, Fail> {
    let act = prepared(alloc, text, motifs, SMALL)?;
    Ok(drawing(act.spans()).as_slice() == want.as_bytes() && act.spans().len() == spans)
}

#[test]
fn acts_paint_the_cells_that_are_drawn(rt: HostRuntime) -> Result<(), Fail> {
    const CASES: [(&str, &str, usize); 25] = [
        ("commit", "................", 0),
        ("dot 1 3 0", "...............1", 1),
        ("rect 1 0 0 3 3", "1111111111111111", 4),
        ("rect 0 2 3 1 2", ".00..00.........", 2),
        ("rect 1 1 0 1 0", ".............1..", 1),
        ("line 1 0 0 3 1", "..........1111..", 2),
        ("line 1 3 1 0 0", "..........1111..", 2),
        ("line 1 0 1 3 0", "........11....11", 2),
        ("line 1 3 0 0 1", "........11....11", 2),
        ("line 1 0 0 2 1", ".........11.1...", 2),
        ("line 1 2 1 0 0", "..........1.11..", 2),
        ("line 1 0 0 1 3", ".1...1..1...1...", 4),
        ("line 1 1 3 0 0", ".1...1..1...1...", 4),
        ("line 1 0 3 1 0", "1...1....1...1..", 4),
        ("line 1 1 0 0 3", "1...1....1...1..", 4),
        ("line 1 0 0 3 3", "...1..1..1..1...", 4),
        ("line 1 2 2 2 2", "......1.........", 1),
        ("line 1 0 2 3 2", "....1111........", 1),
        ("line 1 1 3 1 1", ".1...1...1......", 3),
        ("stamp leaf 0 0", "........11..1...", 2),
        ("stamp leaf 3 3", "...1........1..1", 3),
        ("halfdrop leaf 3 3", "...1.11..1..1..1", 5),
        ("stamp bud 2 3", "1.01........00.1", 5),
        ("halfdrop bud 1 2", "0.10.011100.11.0", 9),
        ("halfdrop ring 0 0", "....1.0.....0.0.", 8),
    ];
    let motifs = motifs_of(rt.alloc())?;
    for (text, want, spans) in CASES {
        expect(&rt, paints(rt.alloc(), text, &motifs, want, spans)?, text);
    }
    Ok(())
}

const GREATEST: Size = Size {
    columns: MAX_COLUMNS,
    picks: MAX_PICKS,
};

/// How many spans an act has on the largest paper.
fn spans_of(alloc: Global, text: &str, motifs: &Motifs) -> Result<usize, Fail> {
    Ok(
        prepared(alloc, text, motifs, GREATEST)?
            .copy()?
            .spans()
            .len(),
    )
}

#[test]
fn the_largest_paper_is_painted(rt: HostRuntime) -> Result<(), Fail> {
    const CASES: [(&str, usize); 5] = [
        ("rect 1 0 0 4095 8191", 8192),
        ("line 1 0 0 4095 8191", 8192),
        ("line 1 4095 0 0 1", 2),
        ("stamp bud 4094 8191", 5),
        ("halfdrop bud 4095 8191", 8),
    ];
    let motifs = motifs_of(rt.alloc())?;
    for (text, spans) in CASES {
        expect(&rt, spans_of(rt.alloc(), text, &motifs)? == spans, text);
    }
    Ok(())
}

/// As many rows of 4096 cells as a motif may have.
fn most_rows(alloc: Global) -> Result<Vec<String>, OutOfMemory> {
    let mut row = String::new(alloc);
    for _ in 0..MAX_COLUMNS {
        row.push_str("1 ")?;
    }
    let mut rows = Vec::new(alloc);
    for _ in 0..MAX_MOTIF_CELLS / 4096 {
        rows.push(row.clone()?)?;
    }
    Ok(rows)
}

#[test]
fn a_motif_of_as_many_cells_as_there_may_be_is_stamped(rt: HostRuntime) -> Result<(), Fail> {
    let alloc = rt.alloc();
    let rows = most_rows(alloc)?;
    let mut motifs = Motifs::new(alloc);
    motifs.add("cloth", &rows, 2, GREATEST)?;
    expect(
        &rt,
        spans_of(alloc, "stamp cloth 4095 8191", &motifs)? == 512,
        "spans",
    );
    Ok(())
}
