//! Cloths drawn by hand, and the first floats that they keep. A `#` is a lifted cell, and rows are written from pick 0 on.
ghost use Rattle.std.specs.Prelude.{◌≡◌, ◌<◌, ℕ, length, IfOk};
ghost use Rattle.point_paper.specs.Papers.{cell_of};
ghost use Rattle.draft_model.specs.Designs.{Fits};

use casting_out::casting::Casting;
use draft_model::cloth::Cloth;
use draft_model::design::Design;
use draft_model::drawdown::{bound, drawdown};
use draft_model::first_float::{find_float, first_float};
use draft_model::float_run::{FloatKind, FloatRun};
use harness_ties::section::{Section, SectionKind};
use harness_ties::tie::Tie;
use mill_base::bit_row::BitRow;
use mill_base::limits::{MAX_CLOTH_CELLS, MAX_COLUMNS, MAX_PICKS};
use mill_base::size::Size;
use point_paper::paper::Paper;
use std::alloc::Global;
use std::process::Abort;
use std::test::Fail;
use weave_book::book::Book;
use weave_book::weaves::Weave;

/// A paper of one colour: its weave, the tie (one round over all columns), the limits of weft floats on the face and on the back and of
/// warp floats on the face and on the back, and the binders; then the rows of the cloth, and the first float that it keeps.
#[derive(Drop)]
struct Case {
    name: &'static str,
    columns: u32,
    picks: u32,
    weave: &'static str,
    kind: SectionKind,
    limits: [u32; 4],
    binders: [&'static str; 2],
    rows: &'static [&'static str],
    first: Option<FloatRun>,
}

fn weft(line: u32, start: u32, length: u32, endless: bool) -> Option<FloatRun> {
    Some(FloatRun {
        kind: FloatKind::Weft,
        line,
        start,
        length,
        endless,
    })
}

fn design_of(rt: &impl Abort, alloc: Global, case: &Case) -> Result<Design, Fail>
    ensures fits { IfOk result (λ d. Fits d) }
    ensures size { IfOk result (λ d. d.size ≡ record { columns = case.now.columns; picks = case.now.picks }) }
    ensures colours { IfOk result (λ d. length d.book ≡ 1) }
{
    let (columns, picks) = (case.columns, case.picks);
    let [weft_face, weft_back, warp_face, warp_back] = case.limits;
    assert!(rt; 1 <= columns && columns <= MAX_COLUMNS && 1 <= picks && picks <= MAX_PICKS);
    assert!(rt; 1 <= weft_face && weft_face <= 255 && 1 <= weft_back && weft_back <= 255);
    assert!(rt; 1 <= warp_face && warp_face <= 255 && 1 <= warp_back && warp_back <= 255);
    let round = Section {
        kind: case.kind,
        from: 0,
        to: columns - 1,
        times: 1,
    };
    let tie = Tie::build(alloc, &[round], columns)?;
    let mut book = Book::new(alloc);
    book.add(Weave::parse(case.weave)?)?;
    assert!(rt; 1 <= tie.ends() && tie.ends() as u64 * picks as u64 <= MAX_CLOTH_CELLS);
    Ok(Design {
        size: Size { columns, picks },
        book,
        tie,
        casting: Casting::build(alloc, MAX_COLUMNS, &[], columns)?,
        raise: Weave::parse(case.binders[0])?,
        sink: Weave::parse(case.binders[1])?,
        weft_face,
        weft_back,
        warp_face,
        warp_back,
        tile: 4,
    })
}

fn drawn(alloc: Global, row: &BitRow) -> Result<String, Fail> {
    let mut text = String::new(alloc);
    for k in 0..row.len() {
        text.push(if row.get(k) { '#' } else { '.' })?;
    }
    Ok(text)
}

fn expect_rows(
    rt: &impl Abort,
    alloc: Global,
    cloth: &Cloth,
    rows: &[&str],
    name: &str,
) -> Result<(), Fail> {
    assert_eq!(rt; cloth.picks() as usize, rows.len(), "{name}");
    for pick in 0..cloth.picks() {
        let row = drawn(alloc, cloth.row(pick))?;
        assert_eq!(rt; row.as_str(), rows[pick as usize], "{name}, pick {pick}");
    }
    Ok(())
}

/// A paper of colour 0 throughout.
fn blank_paper(alloc: Global, size: Size) -> Result<Paper, Fail>
    ensures columns { IfOk result (λ p. p.columns ≡ size.columns) }
    ensures picks { IfOk result (λ p. p.picks ≡ size.picks) }
    ensures colours { IfOk result (λ p. (column pick : ℕ) → column < p.columns → pick < p.picks → cell_of p column pick ≡ 0) }
{
    Ok(Paper::blank(alloc, size, 0)?)
}

fn expect_case(rt: &impl Abort, alloc: Global, case: &Case) -> Result<(), Fail> {
    let design = design_of(rt, alloc, case)?;
    let paper = blank_paper(alloc, design.size)?;
    let bits = bound(alloc, &design, &paper)?;
    let cloth = drawdown(alloc, &design.copy()?, &paper)?;
    expect_rows(rt, alloc, &cloth, case.rows, case.name)?;
    assert_eq!(rt; first_float(&design, &bits), case.first, "{}", case.name);
    let found = find_float(alloc, &design, &bits)?;
    assert_eq!(rt; found, case.first, "{}, by whole lines", case.name);
    Ok(())
}

/// A case without binders.
fn unbound(
    name: &'static str,
    columns: u32,
    picks: u32,
    weave: &'static str,
    kind: SectionKind,
    limits: [u32; 4],
    rows: &'static [&'static str],
    first: Option<FloatRun>,
) -> Case {
    Case {
        name,
        columns,
        picks,
        weave,
        kind,
        limits,
        binders: ["blank", "blank"],
        rows,
        first,
    }
}

const EDGE: &str = "rows 001100 110011";

const EDGE_ROWS: [&str; 2] = ["..##..", "##..##"];

const MENDED: [&str; 8] = [
    "#.......", "...#....", "......#.", ".#......", "....#...", ".......#", "..#.....", ".....#..",
];

const FULL: [&str; 8] = ["########"; 8];

const SATIN_ROWS: [&str; 5] = ["#....", "...#.", ".#...", "....#", "..#.."];

#[test]
fn floats_are_followed_round_the_edges_and_over_the_ends(rt: HostRuntime) -> Result<(), Fail> {
    let straight = SectionKind::Straight;
    let pointed = SectionKind::Pointed;
    let turning = "rows 10 01 01 10";
    let warp = Some(FloatRun {
        kind: FloatKind::Warp,
        line: 0,
        start: 3,
        length: 2,
        endless: false,
    });
    for case in [
        unbound(
            "one end",
            1,
            2,
            "plain",
            straight,
            [1; 4],
            &["#", "."],
            weft(0, 0, 1, true),
        ),
        unbound(
            "round the edge",
            6,
            2,
            EDGE,
            straight,
            [3; 4],
            &EDGE_ROWS,
            weft(0, 4, 4, false),
        ),
        Case {
            name: "at the limit no binder marks",
            columns: 6,
            picks: 2,
            weave: EDGE,
            kind: straight,
            limits: [4; 4],
            binders: ["full", "blank"],
            rows: &EDGE_ROWS,
            first: None,
        },
        unbound(
            "satin at its limit",
            5,
            5,
            "satin 5 2 weft",
            straight,
            [4; 4],
            &SATIN_ROWS,
            None,
        ),
        unbound(
            "satin",
            5,
            5,
            "satin 5 2 weft",
            straight,
            [3; 4],
            &SATIN_ROWS,
            weft(0, 1, 4, false),
        ),
        unbound(
            "through the tie",
            3,
            2,
            "rows 100 011",
            pointed,
            [2; 4],
            &["#...", ".###"],
            weft(0, 1, 3, false),
        ),
        unbound(
            "through the tie, allowed",
            3,
            2,
            "rows 100 011",
            pointed,
            [3; 4],
            &["#...", ".###"],
            None,
        ),
        unbound(
            "on the back",
            6,
            2,
            EDGE,
            straight,
            [4, 3, 1, 1],
            &EDGE_ROWS,
            weft(1, 4, 4, false),
        ),
        unbound(
            "on the face",
            6,
            2,
            EDGE,
            straight,
            [3, 4, 1, 1],
            &EDGE_ROWS,
            weft(0, 4, 4, false),
        ),
        unbound(
            "on neither",
            6,
            2,
            EDGE,
            straight,
            [4, 4, 1, 1],
            &EDGE_ROWS,
            None,
        ),
        unbound(
            "round the top edge",
            2,
            4,
            turning,
            straight,
            [1, 1, 1, 2],
            &["#.", ".#", ".#", "#."],
            warp,
        ),
        unbound(
            "reversed",
            3,
            2,
            "rows 100 011",
            SectionKind::Reverse,
            [2; 4],
            &["..#", "##."],
            None,
        ),
    ] {
        expect_case(&rt, rt.alloc(), &case)?;
    }
    Ok(())
}

/// Eight columns and picks of `blank`, each line of which is endless.
fn blank_case(
    binders: [&'static str; 2],
    rows: &'static [&'static str],
    first: Option<FloatRun>,
) -> Case {
    Case {
        name: binders[0],
        columns: 8,
        picks: 8,
        weave: "blank",
        kind: SectionKind::Straight,
        limits: [7; 4],
        binders,
        rows,
        first,
    }
}

#[test]
fn binders_break_long_floats_in_one_pass(rt: HostRuntime) -> Result<(), Fail> {
    let mended = blank_case(["satin 8 3 weft", "blank"], &MENDED, None);
    expect_case(&rt, rt.alloc(), &mended)?;
    let full = blank_case(["full", "plain"], &FULL, weft(0, 0, 8, true));
    expect_case(&rt, rt.alloc(), &full)
}

#[test]
fn the_greatest_paper_is_bound(rt: HostRuntime) -> Result<(), Fail> {
    let alloc = rt.alloc();
    let case = unbound(
        "the greatest",
        MAX_COLUMNS,
        MAX_PICKS,
        "plain",
        SectionKind::Straight,
        [1; 4],
        &[],
        None,
    );
    let design = design_of(&rt, alloc, &case)?;
    let paper = blank_paper(alloc, design.size)?;
    let bits = bound(alloc, &design, &paper)?;
    assert_eq!(rt; first_float(&design, &bits), case.first);
    assert_eq!(rt; find_float(alloc, &design, &bits)?, case.first);
    let cloth = drawdown(alloc, &design, &paper)?;
    assert!(rt; cloth.picks() == MAX_PICKS);
    assert_eq!(rt; cloth.row(0).count(), MAX_COLUMNS / 2);
    Ok(())
}

#[test]
fn floats_are_told_in_words(rt: HostRuntime) -> Result<(), Fail> {
    let ending = FloatRun {
        kind: FloatKind::Warp,
        line: 16_383,
        start: 8191,
        length: 256,
        endless: false,
    };
    let endless = FloatRun {
        kind: FloatKind::Weft,
        line: 0,
        start: 0,
        length: 1,
        endless: true,
    };
    let told = format!(in rt.alloc(); "{ending}, {endless}")?;
    assert_eq!(rt;
        told.as_str(),
        "warp 16383 start 8191 length 256, weft 0 start 0 length 1 endless"
    );
    Ok(())
}
