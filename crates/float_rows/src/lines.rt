//! Cloths drawn by hand, and the lines of all floats that they keep. The rows of a weave are written from pick 0 on.
ghost use Rattle.std.specs.Prelude.{◌≡◌, ◌<◌, ℕ, length, IfOk};
ghost use Rattle.point_paper.specs.Papers.{cell_of};
ghost use Rattle.draft_model.specs.Designs.{Fits};

use casting_out::casting::Casting;
use draft_model::design::Design;
use draft_model::drawdown::bound;
use float_list::list::list_floats;
use float_list::text::list_text;
use harness_ties::section::{Section, SectionKind};
use harness_ties::tie::Tie;
use mill_base::limits::{MAX_CLOTH_CELLS, MAX_COLUMNS, MAX_PICKS};
use mill_base::size::Size;
use point_paper::paper::Paper;
use std::alloc::Global;
use std::process::Abort;
use std::test::Fail;
use weave_book::book::Book;
use weave_book::weaves::Weave;

/// A paper of one colour: its weave, how often the tie goes over all columns and how, the limits of weft floats on the face and on the back
/// and of warp floats on the face and on the back; then the lines of its floats.
#[derive(Drop)]
struct Case {
    columns: u32,
    picks: u32,
    weave: &'static str,
    kind: SectionKind,
    times: u32,
    limits: [u32; 4],
    lines: &'static [&'static str],
}

fn design_of(rt: &impl Abort, alloc: Global, case: &Case) -> Result<Design, Fail>
    ensures fits { IfOk result (λ d. Fits d) }
    ensures size { IfOk result (λ d. d.size ≡ record { columns = case.now.columns; picks = case.now.picks }) }
    ensures colours { IfOk result (λ d. length d.book ≡ 1) }
{
    let (columns, picks) = (case.columns, case.picks);
    let [weft_face, weft_back, warp_face, warp_back] = case.limits;
    assert!(rt; 1 <= columns && columns <= MAX_COLUMNS && 1 <= picks && picks <= MAX_PICKS);
    assert!(rt; 1 <= weft_face && weft_face <= 255 && 1 <= weft_back && weft_back <= 255);
    assert!(rt; 1 <= warp_face && warp_face <= 255 && 1 <= warp_back && warp_back <= 255);
    let section = Section {
        kind: case.kind,
        from: 0,
        to: columns - 1,
        times: case.times,
    };
    let tie = Tie::build(alloc, &[section], columns)?;
    let mut book = Book::new(alloc);
    book.add(Weave::parse(case.weave)?)?;
    assert!(rt; 1 <= tie.ends() && tie.ends() as u64 * picks as u64 <= MAX_CLOTH_CELLS);
    Ok(Design {
        size: Size { columns, picks },
        book,
        tie,
        casting: Casting::build(alloc, MAX_COLUMNS, &[], columns)?,
        raise: Weave::parse("blank")?,
        sink: Weave::parse("blank")?,
        weft_face,
        weft_back,
        warp_face,
        warp_back,
        tile: 4,
    })
}

/// A paper of colour 0 throughout.
fn blank_paper(alloc: Global, size: Size) -> Result<Paper, Fail>
    ensures columns { IfOk result (λ p. p.columns ≡ size.columns) }
    ensures picks { IfOk result (λ p. p.picks ≡ size.picks) }
    ensures colours { IfOk result (λ p. (column pick : ℕ) → column < p.columns → pick < p.picks → cell_of p column pick ≡ 0) }
{
    Ok(Paper::blank(alloc, size, 0)?)
}

/// The lines of the floats of a case.
fn told(rt: &impl Abort, alloc: Global, case: &Case) -> Result<Vec<u8>, Fail> {
    let design = design_of(rt, alloc, case)?;
    let paper = blank_paper(alloc, design.size)?;
    let bits = bound(alloc, &design, &paper)?;
    let list = list_floats(alloc, &design, &bits)?;
    Ok(list_text(alloc, &design, &list)?)
}

fn expect_lines(rt: &impl Abort, alloc: Global, case: &Case) -> Result<(), Fail> {
    let text = told(rt, alloc, case)?;
    let mut lines = String::new(alloc);
    for line in case.lines {
        lines.push_str(line)?;
        lines.push('\n')?;
    }
    assert_eq!(rt;
        text.as_slice(),
        lines.as_bytes(),
        "{} {} {}",
        case.weave,
        case.columns,
        case.picks
    );
    Ok(())
}

/// A straight tie, once over all columns.
fn straight(
    columns: u32,
    picks: u32,
    weave: &'static str,
    limits: [u32; 4],
    lines: &'static [&'static str],
) -> Case {
    Case {
        columns,
        picks,
        weave,
        kind: SectionKind::Straight,
        times: 1,
        limits,
        lines,
    }
}

const EDGE: &str = "rows 001100 110011";

#[test]
fn each_float_over_its_limit_has_a_line(rt: HostRuntime) -> Result<(), Fail> {
    for case in [
        straight(5, 5, "satin 5 2 weft", [4; 4], &["floats 0 weft, 0 warp"]),
        straight(
            4,
            3,
            "blank",
            [5, 6, 7, 8],
            &[
                "float weft face pick 0 ends 0 to 3 endless length 4 limit 5 columns 0 to 3 row 2",
                "float weft face pick 1 ends 0 to 3 endless length 4 limit 5 columns 0 to 3 row 1",
                "float weft face pick 2 ends 0 to 3 endless length 4 limit 5 columns 0 to 3 row 0",
                "float warp back end 0 column 0 picks 0 to 2 endless length 3 limit 8 rows 0 to 2",
                "float warp back end 1 column 1 picks 0 to 2 endless length 3 limit 8 rows 0 to 2",
                "float warp back end 2 column 2 picks 0 to 2 endless length 3 limit 8 rows 0 to 2",
                "float warp back end 3 column 3 picks 0 to 2 endless length 3 limit 8 rows 0 to 2",
                "floats 3 weft, 4 warp",
            ],
        ),
        straight(
            1,
            1,
            "full",
            [5, 6, 7, 8],
            &[
                "float weft back pick 0 ends 0 to 0 endless length 1 limit 6 columns 0 to 0 row 0",
                "float warp face end 0 column 0 picks 0 to 0 endless length 1 limit 7 rows 0 to 0",
                "floats 1 weft, 1 warp",
            ],
        ),
        straight(
            6,
            2,
            EDGE,
            [3; 4],
            &[
                "float weft face pick 0 ends 4 to 1 round length 4 limit 3 columns 4 to 1 row 1",
                "float weft back pick 1 ends 4 to 1 round length 4 limit 3 columns 4 to 1 row 0",
                "floats 2 weft, 0 warp",
            ],
        ),
        straight(
            6,
            2,
            EDGE,
            [4, 3, 1, 1],
            &[
                "float weft back pick 1 ends 4 to 1 round length 4 limit 3 columns 4 to 1 row 0",
                "floats 1 weft, 0 warp",
            ],
        ),
        straight(
            2,
            4,
            "rows 10 01 01 10",
            [1, 1, 1, 2],
            &[
                "float warp face end 0 column 0 picks 3 to 0 round length 2 limit 1 rows 3 to 0",
                "float warp face end 1 column 1 picks 1 to 2 length 2 limit 1 rows 1 to 2",
                "floats 0 weft, 2 warp",
            ],
        ),
        straight(
            2,
            4,
            "rows 10 01 01 10",
            [1, 1, 2, 1],
            &[
                "float warp back end 0 column 0 picks 1 to 2 length 2 limit 1 rows 1 to 2",
                "float warp back end 1 column 1 picks 3 to 0 round length 2 limit 1 rows 3 to 0",
                "floats 0 weft, 2 warp",
            ],
        ),
        straight(
            4,
            2,
            "rows 1100 0011",
            [1, 2, 1, 1],
            &[
                "float weft face pick 0 ends 2 to 3 length 2 limit 1 columns 2 to 3 row 1",
                "float weft face pick 1 ends 0 to 1 length 2 limit 1 columns 0 to 1 row 0",
                "floats 2 weft, 0 warp",
            ],
        ),
    ] {
        expect_lines(&rt, rt.alloc(), &case)?;
    }
    Ok(())
}

#[test]
fn each_end_of_a_tie_is_told_with_its_column(rt: HostRuntime) -> Result<(), Fail> {
    for case in [
        Case {
            columns: 3,
            picks: 2,
            weave: "rows 100 011",
            kind: SectionKind::Straight,
            times: 4,
            limits: [2, 1, 1, 1],
            lines: &[
                "float weft back pick 1 ends 1 to 2 length 2 limit 1 columns 1 to 2 row 0",
                "float weft back pick 1 ends 4 to 5 length 2 limit 1 columns 1 to 2 row 0",
                "float weft back pick 1 ends 7 to 8 length 2 limit 1 columns 1 to 2 row 0",
                "float weft back pick 1 ends 10 to 11 length 2 limit 1 columns 1 to 2 row 0",
                "floats 4 weft, 0 warp",
            ],
        },
        Case {
            columns: 2,
            picks: 4,
            weave: "rows 10 10 01 01",
            kind: SectionKind::Straight,
            times: 2,
            limits: [1, 1, 1, 2],
            lines: &[
                "float warp face end 0 column 0 picks 0 to 1 length 2 limit 1 rows 2 to 3",
                "float warp face end 1 column 1 picks 2 to 3 length 2 limit 1 rows 0 to 1",
                "float warp face end 2 column 0 picks 0 to 1 length 2 limit 1 rows 2 to 3",
                "float warp face end 3 column 1 picks 2 to 3 length 2 limit 1 rows 0 to 1",
                "floats 0 weft, 4 warp",
            ],
        },
        Case {
            columns: 3,
            picks: 2,
            weave: "rows 110 001",
            kind: SectionKind::Reverse,
            times: 1,
            limits: [2, 1, 1, 1],
            lines: &[
                "float weft back pick 0 ends 1 to 2 length 2 limit 1 columns 1 to 0 row 1",
                "floats 1 weft, 0 warp",
            ],
        },
    ] {
        expect_lines(&rt, rt.alloc(), &case)?;
    }
    Ok(())
}

/// A paper of one row throughout, tied so many times, has these floats: as many lines, and this end.
fn expect_many(
    rt: &impl Abort,
    alloc: Global,
    case: &Case,
    lines: usize,
    end: &str,
) -> Result<(), Fail> {
    let text = told(rt, alloc, case)?;
    let count = text.iter().filter(|&&byte| byte == b'\n').count();
    assert_eq!(rt; count, lines);
    assert!(rt; text.ends_with(end.as_bytes()));
    Ok(())
}

#[test]
fn a_hundred_thousand_floats_are_listed_and_more_are_counted(rt: HostRuntime) -> Result<(), Fail> {
    let all = Case {
        columns: 8,
        picks: 2498,
        weave: "rows 11001100",
        kind: SectionKind::Straight,
        times: 10,
        limits: [1; 4],
        lines: &[],
    };
    expect_many(
        &rt,
        rt.alloc(),
        &all,
        100_001,
        "\nfloats 99920 weft, 80 warp\n",
    )?;
    let more = Case {
        columns: 11,
        picks: 2270,
        weave: "rows 11000111000",
        kind: SectionKind::Straight,
        times: 11,
        limits: [1; 4],
        lines: &[],
    };
    expect_many(
        &rt,
        rt.alloc(),
        &more,
        100_002,
        "\nmore 1\nfloats 99880 weft, 121 warp\n",
    )
}
