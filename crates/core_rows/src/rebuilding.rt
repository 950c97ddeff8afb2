//! Tiles rebuilt by jobs and all at once: against the plain functions, and against flags told by hand.
ghost use Rattle.std.specs.Prelude.{◌≡◌, ◌<◌, length, IfOk};
ghost use Rattle.draft_model.specs.Designs.{Fits, IsBitsOf, IsPaperOf};
ghost use Rattle.tile_grid.specs.Tiles.{tiles};
ghost use Rattle.tile_rebuild.specs.Tiles.{grid_of, parts_of};

use casting_out::casting::Casting;
use draft_model::design::Design;
use draft_model::drawdown::bound;
use harness_ties::section::{Section, SectionKind};
use harness_ties::tie::Tie;
use mill_base::bit_row::BitRow;
use mill_base::limits::{MAX_CLOTH_CELLS, MAX_COLUMNS, MAX_PICKS, MAX_TILE, MIN_TILE};
use mill_base::size::Size;
use mill_base::steps::Steps;
use point_paper::bit_paper::BitPaper;
use point_paper::paper::{Paper, Span};
use std::alloc::Global;
use std::marker::Brand;
use std::process::Abort;
use std::sync::ledger::{Blank, Ledger};
use std::test::Fail;
use tile_grid::grid::Grid;
use tile_rebuild::bind_job::{BindDone, BindJob};
use tile_rebuild::cells::put_cells;
use tile_rebuild::check_job::{CheckDone, CheckJob};
use tile_rebuild::part::part_of;
use tile_rebuild::room::BindRows;
use tile_rebuild::some_tiles::{LineRoom, check_some};
use tile_rebuild::whole::{WholeRoom, bind_whole, check_whole};
use weave_book::book::Book;
use weave_book::weaves::Weave;

/// A size and the side of a tile, the sections of the tie (straight over all columns where there are none), the limits of weft floats on the face and on the back and of warp
/// floats on the face and on the back, the binders, and what is painted on a paper of colour 0, which is plain.
#[derive(Drop)]
struct Case {
    size: Size,
    tile: u32,
    sections: &'static [Section],
    limits: [u32; 4],
    binders: [&'static str; 2],
    spans: &'static [Cells],
}

/// A design with a paper of it.
#[derive(Drop)]
struct Work {
    design: Design,
    paper: Paper,
    ghost fits: { Fits design },
    ghost of: { IsPaperOf design paper },
}

const PLAIN: u8 = 0;

const BLANK: u8 = 1;

const FULL: u8 = 2;

const TWILL: u8 = 3;

/// The first column and the pick of cells that lie side by side, how many they are, and their colour.
type Cells = (u32, u32, u32, u8);

fn book_of(alloc: Global) -> Result<Book, Fail>
    ensures { IfOk result (λ b. length b ≡ 4) }
{
    let mut book = Book::new(alloc);
    book.add(Weave::Plain)?;
    book.add(Weave::Blank)?;
    book.add(Weave::Full)?;
    book.add(Weave::parse("twill 3 1 right")?)?;
    Ok(book)
}

fn design_of(rt: &impl Abort, alloc: Global, case: &Case) -> Result<Design, Fail>
    ensures { IfOk result (λ d. Fits d) }
{
    let Size { columns, picks } = case.size;
    let [weft_face, weft_back, warp_face, warp_back] = case.limits;
    assert!(rt; 1 <= columns && columns <= MAX_COLUMNS && 1 <= picks && picks <= MAX_PICKS);
    assert!(rt; 1 <= weft_face && weft_face <= 255 && 1 <= weft_back && weft_back <= 255);
    assert!(rt; 1 <= warp_face && warp_face <= 255 && 1 <= warp_back && warp_back <= 255);
    assert!(rt; MIN_TILE <= case.tile && case.tile <= MAX_TILE);
    let tie = Tie::build(alloc, case.sections, columns)?;
    assert!(rt; 1 <= tie.ends() && tie.ends() as u64 * picks as u64 <= MAX_CLOTH_CELLS);
    Ok(Design {
        size: Size { columns, picks },
        book: book_of(alloc)?,
        tie,
        casting: Casting::build(alloc, MAX_COLUMNS, &[], columns)?,
        raise: Weave::parse(case.binders[0])?,
        sink: Weave::parse(case.binders[1])?,
        weft_face,
        weft_back,
        warp_face,
        warp_back,
        tile: case.tile,
    })
}

fn blank_paper(alloc: Global, design: &Design) -> Result<Paper, Fail>
    requires { Fits design.now }
    ensures { IfOk result (λ p. IsPaperOf design.now p) }
{
    Ok(Paper::blank(alloc, design.size, PLAIN)?)
}

fn paint(rt: &impl Abort, design: &Design, cells: Cells, paper: &mut Paper)
    requires { IsPaperOf design.now paper.old }
    ensures { IsPaperOf design.now paper.new }
{
    let (column, pick, length, colour) = cells;
    let size = paper.size();
    assert!(rt; pick < size.picks);
    assert!(rt; column <= size.columns && length <= size.columns - column);
    assert!(rt; (colour as u32) < design.book.colours());
    paper.paint_span(&Span {
        column,
        pick,
        length,
        colour,
    });
}

fn work_of(rt: &impl Abort, alloc: Global, case: &Case) -> Result<Work, Fail> {
    let design = design_of(rt, alloc, case)?;
    let mut paper = blank_paper(alloc, &design)?;
    for cells in case.spans {
        paint(rt, &design, *cells, &mut paper);
    }
    Ok(Work { design, paper })
}

fn tile_count(alloc: Global, design: &Design) -> Result<u32, Fail>
    requires { Fits design.now }
    ensures { IfOk result (λ n. n ≡ tiles (grid_of design.now)) }
{
    let grid = Grid::build(
        alloc,
        design.size,
        design.tile,
        &design.tie,
        design.weft_back,
        design.warp_back,
    )?;
    Ok(grid.tiles())
}

fn bind_with<L: Ledger>(
    alloc: Global,
    work: &Work,
    tile: u32,
    blank: Blank,
) -> Result<BindJob, Fail>
    requires tile { tile < tiles (grid_of work.now.design) }
    requires blank { (blank.name ≡ L.name) × (blank.parts ≡ L.parts) × (L.parts ≡ 1) }
    ensures { IfOk result (λ job. job.parts ≡ parts_of work.now.design) }
{
    let (book, all) = blank.open::<L>();
    let mut steps = Steps::new(book, all);
    Ok(BindJob::take(alloc, &work.design, &work.paper, tile, &mut steps)?)
}

fn bind_job(alloc: Global, work: &Work, tile: u32) -> Result<BindJob, Fail>
    requires { tile < tiles (grid_of work.now.design) }
    ensures { IfOk result (λ job. job.parts ≡ parts_of work.now.design) }
{
    bind_with::<Brand>(alloc, work, tile, Blank::new(1))
}

/// The paper that jobs bind, tile by tile.
fn bound_by_jobs(alloc: Global, work: &Work) -> Result<BitPaper, Fail> {
    let mut bits = BitPaper::new(alloc, work.design.size)?;
    let mut row = BitRow::new(alloc, work.design.size.columns)?;
    for tile in 0..tile_count(alloc, &work.design)? {
        bind_into(alloc, work, tile, &mut row, &mut bits)?;
    }
    Ok(bits)
}

fn bind_into(
    alloc: Global,
    work: &Work,
    tile: u32,
    row: &mut BitRow,
    bits: &mut BitPaper,
) -> Result<(), Fail>
    requires tile { tile < tiles (grid_of work.now.design) }
    requires row { length row.old ≡ work.now.design.size.columns }
    requires bits { IsBitsOf work.now.design bits.old }
    ensures row { length row.new ≡ work.now.design.size.columns }
    ensures bits { IsBitsOf work.now.design bits.new }
{
    let done = bind_job(alloc, work, tile)?.run(&work.design);
    put_cells(part_of(&work.design, tile), done.cells(), row, bits);
    Ok(())
}

fn whole_with<L: Ledger>(alloc: Global, work: &Work, blank: Blank) -> Result<BitPaper, Fail>
    requires { (blank.name ≡ L.name) × (blank.parts ≡ L.parts) × (L.parts ≡ 1) }
    ensures { IfOk result (λ bits. IsBitsOf work.now.design bits) }
{
    let mut bits = BitPaper::new(alloc, work.design.size)?;
    let mut rows = BindRows::new(alloc, &work.design)?;
    let mut room = WholeRoom::new(alloc, &work.design)?;
    let (book, all) = blank.open::<L>();
    let mut steps = Steps::new(book, all);
    bind_whole(
        &work.design,
        &work.paper,
        &mut rows,
        &mut room,
        &mut bits,
        &mut steps,
    );
    Ok(bits)
}

/// The paper that one pass binds.
fn bound_at_once(alloc: Global, work: &Work) -> Result<BitPaper, Fail>
    ensures { IfOk result (λ bits. IsBitsOf work.now.design bits) }
{
    whole_with::<Brand>(alloc, work, Blank::new(1))
}

fn expect_same(rt: &impl Abort, one: &BitPaper, other: &BitPaper) {
    let size = one.size();
    assert!(rt; other.size() == size);
    for pick in 0..size.picks {
        assert!(rt; one.row(pick).equals(other.row(pick)), "pick {pick}");
    }
}

/// Eleven columns and nine picks in tiles of side 4, of which the last are cut. The tie goes over all columns, and then over columns 5 and
/// 6 again.
const SIZE: Size = Size {
    columns: 11,
    picks: 9,
};

const SECTIONS: &[Section] = &[
    Section {
        kind: SectionKind::Straight,
        from: 0,
        to: 10,
        times: 1,
    },
    Section {
        kind: SectionKind::Straight,
        from: 5,
        to: 6,
        times: 1,
    },
];

const PAINTED: &[Cells] = &[
    (2, 1, 6, BLANK),
    (2, 2, 7, FULL),
    (0, 4, 11, TWILL),
    (7, 5, 4, FULL),
    (0, 6, 5, BLANK),
    (0, 8, 11, FULL),
];

/// The small paper with something painted on it.
fn small(binders: [&'static str; 2], spans: &'static [Cells]) -> Case {
    Case {
        size: SIZE,
        tile: 4,
        sections: SECTIONS,
        limits: [2, 3, 4, 5],
        binders,
        spans,
    }
}

fn expect_bound(rt: &impl Abort, alloc: Global, case: &Case) -> Result<(), Fail> {
    let work = work_of(rt, alloc, case)?;
    let bits = bound(alloc, &work.design, &work.paper)?;
    expect_same(rt, &bound_by_jobs(alloc, &work)?, &bits);
    expect_same(rt, &bound_at_once(alloc, &work)?, &bits);
    Ok(())
}

#[test]
fn jobs_and_one_pass_bind_the_cells_of_the_bound_paper(rt: HostRuntime) -> Result<(), Fail> {
    let binders = ["plain", "twill 2 2 right"];
    expect_bound(&rt, rt.alloc(), &small(binders, PAINTED))?;
    let one_tile = Case {
        size: Size {
            columns: 3,
            picks: 2,
        },
        tile: 4,
        sections: &[],
        limits: [1, 2, 2, 1],
        binders: ["full", "twill 1 2 right"],
        spans: &[(0, 1, 2, FULL)],
    };
    expect_bound(&rt, rt.alloc(), &one_tile)
}

fn check_job(alloc: Global, work: &Work, bits: &BitPaper, tile: u32) -> Result<CheckJob, Fail>
    requires bits { IsBitsOf work.now.design bits.now }
    requires tile { tile < tiles (grid_of work.now.design) }
    ensures { IfOk result (λ job. job.parts ≡ parts_of work.now.design) }
{
    Ok(CheckJob::take(alloc, &work.design, bits, tile)?)
}

/// The flag of a tile, by a job.
fn flag(alloc: Global, work: &Work, bits: &BitPaper, tile: u32) -> Result<bool, Fail>
    requires bits { IsBitsOf work.now.design bits.now }
    requires tile { tile < tiles (grid_of work.now.design) }
{
    Ok(
        check_job(alloc, work, bits, tile)?
            .run(&work.design)
            .is_long(),
    )
}

/// The flags of all tiles, by one pass.
fn flags(alloc: Global, work: &Work, bits: &BitPaper) -> Result<BitRow, Fail>
    requires { IsBitsOf work.now.design bits.now }
    ensures { IfOk result (λ flags. length flags ≡ tiles (grid_of work.now.design)) }
{
    let count = tile_count(alloc, &work.design)?;
    let mut flags = BitRow::new(alloc, count)?;
    flags.fill(true);
    let mut room = WholeRoom::new(alloc, &work.design)?;
    check_whole(&work.design, bits, &mut room, &mut flags);
    Ok(flags)
}

/// The flag of a tile, by the lines that cross it.
fn lone_flag(alloc: Global, work: &Work, bits: &BitPaper, tile: u32) -> Result<bool, Fail>
    requires bits { IsBitsOf work.now.design bits.now }
    requires tile { tile < tiles (grid_of work.now.design) }
{
    let count = tile_count(alloc, &work.design)?;
    let mut some = BitRow::new(alloc, count)?;
    some.set(tile, true);
    let mut flags = BitRow::new(alloc, count)?;
    flags.fill(true);
    let mut lines = LineRoom::new(alloc, &work.design, count)?;
    let mut room = WholeRoom::new(alloc, &work.design)?;
    check_some(&work.design, bits, &some, &mut lines, &mut room, &mut flags);
    Ok(flags.get(tile))
}

/// Jobs, the lines of each tile alone, and one pass set the flags of these tiles and of no others.
fn expect_flags(rt: &impl Abort, alloc: Global, work: &Work, want: &[u32]) -> Result<(), Fail> {
    let bits = bound_at_once(alloc, work)?;
    let flags = flags(alloc, work, &bits)?;
    for tile in 0..tile_count(alloc, &work.design)? {
        let told = (
            flag(alloc, work, &bits, tile)?,
            lone_flag(alloc, work, &bits, tile)?,
            flags.get(tile),
        );
        let long = want.contains(&tile);
        assert_eq!(rt; told, (long, long, long), "tile {tile}");
    }
    Ok(())
}

/// On a plain paper no float is longer than two cells. Then a float of three lifted cells, which are allowed; one of three unlifted cells in
/// pick 1; one in pick 5 round the edge, from the far end of column 6 to column 2; five lifted picks of column 9; and unlifted picks of
/// column 3 round the top edge, with floats of three in picks 1 and 3.
#[test]
fn a_tile_with_a_cell_of_a_long_float_has_a_flag(rt: HostRuntime) -> Result<(), Fail> {
    const CASES: [(&[Cells], &[u32]); 6] = [
        (&[], &[]),
        (&[(2, 1, 1, FULL)], &[]),
        (&[(3, 1, 1, BLANK)], &[0, 1]),
        (&[(1, 5, 1, BLANK)], &[3, 4]),
        (&[(9, 2, 1, FULL), (9, 4, 1, FULL)], &[2, 5]),
        (&[(3, 1, 1, BLANK), (3, 3, 1, BLANK)], &[0, 1, 3, 6]),
    ];
    let alloc = rt.alloc();
    for (spans, want) in CASES {
        let work = work_of(&rt, alloc, &small(["blank", "blank"], spans))?;
        expect_flags(&rt, alloc, &work, want)?;
    }
    Ok(())
}

fn agrees_with<L: Ledger>(done: &BindDone, paper: &Paper, blank: Blank) -> bool
    requires columns { paper.now.columns ≡ done.now.parts.size.columns }
    requires picks { paper.now.picks ≡ done.now.parts.size.picks }
    requires blank { (blank.name ≡ L.name) × (blank.parts ≡ L.parts) × (L.parts ≡ 1) }
{
    let (book, all) = blank.open::<L>();
    done.agrees(paper, &mut Steps::new(book, all))
}

fn agrees(done: &BindDone, paper: &Paper) -> bool
    requires columns { paper.now.columns ≡ done.now.parts.size.columns }
    requires picks { paper.now.picks ≡ done.now.parts.size.picks }
{
    agrees_with::<Brand>(done, paper, Blank::new(1))
}

/// Whether a tile that was bound agrees with the paper, and with the paper once one cell is painted.
fn bound_agrees(
    rt: &impl Abort,
    alloc: Global,
    work: &Work,
    tile: u32,
    cell: (u32, u32),
) -> Result<(bool, bool), Fail>
    requires { tile < tiles (grid_of work.now.design) }
{
    let done = bind_job(alloc, work, tile)?.run(&work.design);
    let mut paper = work.paper.copy()?;
    paint(rt, &work.design, (cell.0, cell.1, 1, TWILL), &mut paper);
    Ok((agrees(&done, &work.paper), agrees(&done, &paper)))
}

/// Whether a tile that was checked agrees with the bits, and with the bits once one of them is turned.
fn checked_agrees(
    rt: &impl Abort,
    alloc: Global,
    work: &Work,
    tile: u32,
    cell: (u32, u32),
) -> Result<(bool, bool), Fail>
    requires { tile < tiles (grid_of work.now.design) }
{
    let mut bits = bound_at_once(alloc, work)?;
    let done = check_job(alloc, work, &bits, tile)?.run(&work.design);
    let before = done.agrees(&bits);
    let (column, pick) = cell;
    let size = bits.size();
    assert!(rt; column < size.columns && pick < size.picks);
    bits.set(column, pick, !bits.get(column, pick));
    Ok((before, done.agrees(&bits)))
}

/// Results of a tile agree with what they were made from, and once a cell has changed they agree or not.
fn expect_agreement(
    rt: &impl Abort,
    alloc: Global,
    work: &Work,
    tile: u32,
    cell: (u32, u32),
    same: bool,
) -> Result<(), Fail> {
    let count = tile_count(alloc, &work.design)?;
    assert!(rt; tile < count);
    let bound = bound_agrees(rt, alloc, work, tile, cell)?;
    assert_eq!(rt; bound, (true, same), "tile {tile}");
    let checked = checked_agrees(rt, alloc, work, tile, cell)?;
    assert_eq!(rt; checked, (true, same), "tile {tile}");
    Ok(())
}

#[test]
fn a_result_agrees_where_no_line_of_its_tile_changed(rt: HostRuntime) -> Result<(), Fail> {
    const CASES: [(u32, (u32, u32), bool); 11] = [
        (4, (4, 0), false),
        (4, (7, 8), false),
        (4, (0, 4), false),
        (4, (10, 7), false),
        (4, (5, 6), false),
        (4, (3, 3), true),
        (4, (8, 8), true),
        (8, (8, 0), false),
        (8, (0, 8), false),
        (8, (7, 7), true),
        (0, (10, 4), true),
    ];
    let alloc = rt.alloc();
    let work = work_of(&rt, alloc, &small(["plain", "plain"], &[]))?;
    for (tile, cell, same) in CASES {
        expect_agreement(&rt, alloc, &work, tile, cell, same)?;
    }
    Ok(())
}

/// The small case with its picks, its tile, its tie, one of its limits or one of its binders changed.
fn changed(part: u32) -> Case {
    let mut case = small(["plain", "plain"], &[]);
    match part {
        0 => case.size.picks = 10,
        1 => case.tile = 8,
        2 => case.sections = &[],
        3 => case.limits[0] = 9,
        4 => case.limits[1] = 9,
        5 => case.limits[2] = 9,
        6 => case.limits[3] = 9,
        7 => case.binders[0] = "full",
        _ => case.binders[1] = "full",
    }
    case
}

fn with_more_columns(design: &Design) -> Result<Design, Fail> {
    let mut other = design.copy()?;
    other.size.columns = 12;
    Ok(other)
}

fn without_colours(alloc: Global, design: &Design) -> Result<Design, Fail> {
    let mut other = design.copy()?;
    other.book = Book::new(alloc);
    Ok(other)
}

fn on_other_hooks(alloc: Global, design: &Design) -> Result<Design, Fail> {
    let mut other = design.copy()?;
    other.casting = Casting::build(alloc, 64, &[0], SIZE.columns)?;
    Ok(other)
}

/// Whether the job that binds tile 0 is of a design, and whether its result is.
fn bind_is_of(alloc: Global, work: &Work, design: &Design) -> Result<bool, Fail>
    requires { 0 < tiles (grid_of work.now.design) }
{
    Ok(bind_job(alloc, work, 0)?.is_of(design))
}

fn bound_is_of(alloc: Global, work: &Work, design: &Design) -> Result<bool, Fail>
    requires { 0 < tiles (grid_of work.now.design) }
{
    let done = bind_job(alloc, work, 0)?.run(&work.design);
    Ok(done.is_of(design))
}

/// Whether the job that checks tile 0, and its result, are of a design.
fn checked_is_of(alloc: Global, work: &Work, design: &Design) -> Result<(bool, bool), Fail>
    requires { 0 < tiles (grid_of work.now.design) }
{
    let bits = bound_at_once(alloc, work)?;
    let job = check_job(alloc, work, &bits, 0)?;
    let before = job.is_of(design);
    Ok((before, job.run(&work.design).is_of(design)))
}

fn expect_of(
    rt: &impl Abort,
    alloc: Global,
    work: &Work,
    design: &Design,
    same: bool,
) -> Result<(), Fail>
    requires { 0 < tiles (grid_of work.now.design) }
{
    assert_eq!(rt; bind_is_of(alloc, work, design)?, same);
    assert_eq!(rt; bound_is_of(alloc, work, design)?, same);
    assert_eq!(rt; checked_is_of(alloc, work, design)?, (same, same));
    Ok(())
}

#[test]
fn any_part_of_a_design_but_its_casting_makes_another_one(rt: HostRuntime) -> Result<(), Fail> {
    let alloc = rt.alloc();
    let work = work_of(&rt, alloc, &small(["plain", "plain"], &[]))?;
    assert!(rt; 0 < tile_count(alloc, &work.design)?);
    let design = &work.design;
    expect_of(&rt, alloc, &work, design, true)?;
    let hooks = on_other_hooks(alloc, design)?;
    expect_of(&rt, alloc, &work, &hooks, true)?;
    let columns = with_more_columns(design)?;
    expect_of(&rt, alloc, &work, &columns, false)?;
    let colours = without_colours(alloc, design)?;
    expect_of(&rt, alloc, &work, &colours, false)?;
    for part in 0..9 {
        let other = design_of(&rt, alloc, &changed(part))?;
        expect_of(&rt, alloc, &work, &other, false)?;
    }
    Ok(())
}

/// How many tiles have a flag, and whether each of some tiles has one.
fn set_flags(alloc: Global, work: &Work, some: &[u32]) -> Result<(u32, bool), Fail> {
    let bits = bound_at_once(alloc, work)?;
    let flags = flags(alloc, work, &bits)?;
    let all = some
        .iter()
        .all(|tile| *tile < flags.len() && flags.get(*tile));
    Ok((flags.count(), all))
}

/// The greatest paper in the greatest tiles. A cell of the highest pick makes floats round both edges.
fn greatest() -> Case {
    Case {
        size: Size {
            columns: MAX_COLUMNS,
            picks: MAX_PICKS,
        },
        tile: MAX_TILE,
        sections: &[],
        limits: [2; 4],
        binders: ["blank", "blank"],
        spans: &[(4095, 8191, 1, BLANK)],
    }
}

#[test]
fn the_greatest_paper_takes_no_more_memory_than_there_is(rt: HostRuntime) -> Result<(), Fail> {
    let alloc = rt.alloc();
    let work = work_of(&rt, alloc, &greatest())?;
    assert_eq!(rt; set_flags(alloc, &work, &[63, 8128, 8191])?, (3, true));
    expect_agreement(&rt, alloc, &work, 8191, (0, 0), true)
}
