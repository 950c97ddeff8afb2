//! Which image row is which pick, and the largest papers.
ghost use Rattle.std.specs.Prelude.{◌≡◌, ◌<◌};
ghost use Rattle.point_paper.specs.Papers.{lines_of};

use crate::expect::expect;
use mill_base::limits::{MAX_COLUMNS, MAX_PICKS};
use mill_base::memory::OutOfMemory;
use mill_base::size::Size;
use mill_base::steps::Steps;
use point_paper::bit_paper::BitPaper;
use point_paper::paper::{LineKind, Paper, Span};
use std::alloc::Global;
use std::marker::Brand;
use std::sync::ledger::{Blank, Ledger};
use std::test::Fail;

/// A pick or a column, read with a counter that nobody asks for.
fn line(alloc: Global, paper: &Paper, kind: LineKind, index: u32) -> Result<Vec<u8>, OutOfMemory>
    requires { index < lines_of kind paper.now }
{
    line_with::<Brand>(alloc, paper, kind, index, Blank::new(1))
}

fn line_with<L: Ledger>(
    alloc: Global,
    paper: &Paper,
    kind: LineKind,
    index: u32,
    blank: Blank,
) -> Result<Vec<u8>, OutOfMemory>
    requires blank { (blank.name ≡ L.name) × (blank.parts ≡ L.parts) × (L.parts ≡ 1) }
    requires index { index < lines_of kind paper.now }
{
    let (book, all) = blank.open::<L>();
    let mut steps = Steps::new(book, all);
    let size = paper.size();
    let cells = match kind {
        LineKind::Pick => size.columns,
        LineKind::Column => size.picks,
    };
    let mut line = Vec::from_elem(alloc, 0, cells as usize)?;
    paper.line(kind, index, &mut line, &mut steps);
    Ok(line)
}

/// Pick 0 and column 2 of three columns and two picks, whose image has the rows 1 2 0 above 0 1 2.
fn read(alloc: Global) -> Result<(Vec<u8>, Vec<u8>), OutOfMemory> {
    let size = Size {
        columns: 3,
        picks: 2,
    };
    let paper = Paper::from_rows(alloc, size, &[1, 2, 0, 0, 1, 2])?;
    let pick = line(alloc, &paper, LineKind::Pick, 0)?;
    Ok((pick, line(alloc, &paper, LineKind::Column, 2)?))
}

#[test]
fn the_top_image_row_is_the_highest_pick(rt: HostRuntime) -> Result<(), Fail> {
    let (pick, column) = read(rt.alloc())?;
    expect(&rt, pick.as_slice() == [0, 1, 2].as_slice(), "pick 0");
    expect(&rt, column.as_slice() == [2, 0].as_slice(), "column 2");
    Ok(())
}

const GREATEST: Size = Size {
    columns: MAX_COLUMNS,
    picks: MAX_PICKS,
};

/// The right column of the largest paper, of which the highest pick alone is painted.
fn right_column(alloc: Global) -> Result<Vec<u8>, OutOfMemory> {
    let mut paper = Paper::blank(alloc, GREATEST, 1)?;
    paper.paint_span(&Span {
        column: 0,
        pick: 8191,
        length: 4096,
        colour: 3,
    });
    line(alloc, &paper.copy()?, LineKind::Column, 4095)
}

/// Whether the last cell of the largest paper of truth values is kept in a copy.
fn keeps_last_cell(alloc: Global) -> Result<bool, OutOfMemory> {
    let mut bits = BitPaper::new(alloc, GREATEST)?;
    bits.set(4095, 8191, true);
    Ok(bits.copy()?.get(4095, 8191))
}

#[test]
fn the_largest_papers_are_made_set_and_copied(rt: HostRuntime) -> Result<(), Fail> {
    let column = right_column(rt.alloc())?;
    expect(
        &rt,
        column.len() == 8192 && column.first() == Some(&1),
        "lowest cell",
    );
    expect(&rt, column.last() == Some(&3), "highest cell");
    expect(&rt, keeps_last_cell(rt.alloc())?, "truth values");
    Ok(())
}
