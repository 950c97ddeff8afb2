//! Worked lines, and `long_cells` against the floats of a line.
ghost use Rattle.std.specs.Prelude.{◌≡◌, ◌<◌, ◌^◌, length, IfOk};

use crate::expect::expect;
use cloth_floats::{Run, first_long, long_cells, runs};
use mill_base::bit_row::BitRow;
use mill_base::limits::MAX_ENDS;
use mill_base::memory::OutOfMemory;
use std::alloc::Global;
use std::test::Fail;

/// A line from a text of `0` and `1`.
fn line_of(alloc: Global, cells: &[u8]) -> Result<BitRow, OutOfMemory>
    requires { length cells.now < 2 ^ 32 }
    ensures { IfOk result (λ line. length line ≡ length cells.now) }
{
    let mut line = BitRow::new(alloc, cells.len() as u32)?;
    for (k, cell) in cells.iter().enumerate() {
        line.set(k as u32, *cell == b'1');
    }
    Ok(line)
}

/// A line with long floats and short ones, some of them over the ends of words.
fn mixed_line(alloc: Global, len: u32) -> Result<BitRow, OutOfMemory>
    ensures { IfOk result (λ line. length line ≡ len) }
{
    let mut line = BitRow::new(alloc, len)?;
    for k in 0..len {
        line.set(
            k,
            k % 7 < 3 && k % 400 > 100 || k % 97 < 17 || k % 1000 > 600 && k % 64 != 5,
        );
    }
    Ok(line)
}

/// Whether a line has these floats, and this one as its first over both limits.
fn has_floats(
    alloc: Global,
    cells: &[u8],
    wanted: &[Run],
    limit: u32,
    first: Option<Run>,
) -> Result<bool, OutOfMemory>
    requires some { 0 < length cells.now }
    requires most { length cells.now < 2 ^ 32 }
    requires limit { 0 < limit }
{
    let line = line_of(alloc, cells)?;
    Ok(runs(alloc, &line)?.as_slice() == wanted && first_long(&line, limit, limit) == first)
}

const fn run(start: u32, length: u32, lifted: bool, endless: bool) -> Run {
    Run {
        start,
        length,
        lifted,
        endless,
    }
}

#[test]
fn floats_of_worked_lines(rt: HostRuntime) -> Result<(), Fail> {
    let alloc = rt.alloc();
    let worked = [run(2, 2, true, false), run(4, 4, false, false)];
    expect(
        &rt,
        has_floats(alloc, b"001100", &worked, 3, Some(run(4, 4, false, false)))?,
        "limit 3",
    );
    expect(
        &rt,
        has_floats(alloc, b"001100", &worked, 4, None)?,
        "limit 4",
    );
    let lifted = run(0, 3, true, true);
    expect(
        &rt,
        has_floats(alloc, b"111", &[lifted], 255, Some(lifted))?,
        "all lifted",
    );
    let unlifted = run(0, 1, false, true);
    expect(
        &rt,
        has_floats(alloc, b"0", &[unlifted], 255, Some(unlifted))?,
        "one cell",
    );
    Ok(())
}

/// Whether the long cells of a line are these, whatever stood in the row before.
fn has_long_cells(
    alloc: Global,
    cells: &[u8],
    lifted: u32,
    unlifted: u32,
    wanted: &[u8],
) -> Result<bool, OutOfMemory>
    requires some { 0 < length cells.now }
    requires most { (length cells.now < 2 ^ 32) × (length wanted.now < 2 ^ 32) }
    requires limits { (0 < lifted) × (0 < unlifted) }
{
    let line = line_of(alloc, cells)?;
    let mut out = BitRow::new(alloc, line.len())?;
    out.fill(true);
    long_cells(&line, lifted, unlifted, &mut out);
    Ok(out.equals(&line_of(alloc, wanted)?))
}

#[test]
fn long_cells_of_worked_lines(rt: HostRuntime) -> Result<(), Fail> {
    let alloc = rt.alloc();
    expect(
        &rt,
        has_long_cells(alloc, b"001100", 2, 2, b"110011")?,
        "limit 2",
    );
    expect(
        &rt,
        has_long_cells(alloc, b"001100", 1, 4, b"001100")?,
        "limits 1 and 4",
    );
    expect(
        &rt,
        has_long_cells(alloc, b"111", 255, 1, b"111")?,
        "all lifted",
    );
    expect(
        &rt,
        has_long_cells(alloc, b"0", 255, 255, b"1")?,
        "one cell",
    );
    Ok(())
}

/// Marks the positions that a float covers, round the end of the line.
fn mark_float(marked: &mut BitRow, run: Run) {
    let len = u64::from(marked.len());
    for k in 0..u64::from(run.length) {
        let at = u64::from(run.start) + k;
        let at = if at < len { at } else { at - len };
        if at < u64::from(marked.len()) {
            marked.set(at as u32, true);
        }
    }
}

/// Whether `long_cells` says what the floats of the line say, whatever stood in the row before.
fn agrees(alloc: Global, len: u32, lifted: u32, unlifted: u32) -> Result<bool, OutOfMemory>
    requires some { 0 < len }
    requires lifted { 0 < lifted }
    requires unlifted { 0 < unlifted }
{
    let line = mixed_line(alloc, len)?;
    let mut wanted = BitRow::new(alloc, len)?;
    for run in runs(alloc, &line)?.iter() {
        let limit = if run.lifted { lifted } else { unlifted };
        if run.endless || run.length > limit {
            mark_float(&mut wanted, *run);
        }
    }
    let mut out = BitRow::new(alloc, len)?;
    out.fill(true);
    long_cells(&line, lifted, unlifted, &mut out);
    Ok(out.equals(&wanted))
}

/// Whether they agree under each pair of these limits.
fn agrees_at(alloc: Global, len: u32) -> Result<bool, OutOfMemory>
    requires { 0 < len }
{
    Ok(
        agrees(alloc, len, 1, 1)?
            && agrees(alloc, len, 15, 15)?
            && agrees(alloc, len, 255, 255)?
            && agrees(alloc, len, 1, 15)?
            && agrees(alloc, len, 255, 1)?,
    )
}

#[test]
fn long_cells_are_those_of_floats_over_their_limit(rt: HostRuntime) -> Result<(), Fail> {
    let alloc = rt.alloc();
    expect(&rt, agrees_at(alloc, 1)? && agrees_at(alloc, 2)?, "1 and 2");
    expect(
        &rt,
        agrees_at(alloc, 63)? && agrees_at(alloc, 64)?,
        "63 and 64",
    );
    expect(
        &rt,
        agrees_at(alloc, 65)? && agrees_at(alloc, 128)?,
        "65 and 128",
    );
    expect(
        &rt,
        agrees_at(alloc, 798)? && agrees_at(alloc, MAX_ENDS)?,
        "798 and the most",
    );
    Ok(())
}
