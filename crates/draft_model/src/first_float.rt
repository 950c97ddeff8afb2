//! The first float of a cloth that is over its limit.
ghost use Rattle.std.specs.Prelude.{◌≡◌, ◌<◌, ◌↔◌, ℕ, false, length, slice_index, slice_get, filter_map, is_some, IfOk, None};
ghost use Rattle.std.specs.List.{range_with_len};
ghost use Rattle.mill_base.specs.Grids.{transposed};
ghost use Rattle.mill_base.specs.Lines.{line_by};
ghost use Rattle.harness_ties.specs.Ties.{tied};
ghost use Rattle.cloth_floats.specs.Floats.{first_long_of};
ghost use Rattle.point_paper.specs.Papers.{bit_cell, bit_row};
ghost use Rattle.draft_model.specs.Designs.{Fits, IsBitsOf};
ghost use Rattle.draft_model.specs.Inner.{grid_cells};
ghost use Rattle.draft_model.specs.Floats.{first_float as first_float_of, weft_float, warp_float, float_of, keeps};

use crate::design::Design;
use crate::float_run::{FloatKind, FloatRun};
use crate::laws;
use cloth_floats::line::Line;
use cloth_floats::{Run, first_long, long_cells};
use harness_ties::tie::Tie;
use mill_base::bit_grid::BitGrid;
use mill_base::bit_row::BitRow;
use mill_base::memory::OutOfMemory;
use mill_base::size::Size;
use point_paper::bit_paper::BitPaper;
use std::alloc::Global;

/// The first float of a cloth that is over its limit: pick by pick, on each pick by its start, and after all picks end by end. `None`
/// exactly where no cell of the cloth is long. It takes no memory.
pub fn first_float(design: &Design, bits: &BitPaper) -> Option<FloatRun>
    requires fits { Fits design.now }
    requires bits { IsBitsOf design.now bits.now }
    ensures first { result ≡ first_float_of design.now bits.now }
    ensures none { is_some result ≡ keeps design.now bits.now }
{
    laws::a_cloth_keeps_a_float_where_one_is_told();
    if let Some(float) = first_weft(design, bits) {
        return Some(float);
    }
    first_warp(design, bits)
}

// The first weft float over its limit, by its pick.
fn first_weft(design: &Design, bits: &BitPaper) -> Option<FloatRun>
    requires fits { Fits design.now }
    requires bits { IsBitsOf design.now bits.now }
    ensures { result ≡ slice_get (filter_map (weft_float design.now bits.now) (range_with_len 0 (length bits.now.rows))) 0 }
{
    for pick in 0..bits.size().picks {
        let line = Pick {
            tie: &design.tie,
            row: bits.row(pick),
        };
        let run = first_long(&line, design.weft_back, design.weft_face);
        if let Some(float) = told(FloatKind::Weft, pick, run) {
            return Some(float);
        }
    }
    None
}

// The first warp float over its limit, by its end.
fn first_warp(design: &Design, bits: &BitPaper) -> Option<FloatRun>
    requires fits { Fits design.now }
    requires bits { IsBitsOf design.now bits.now }
    ensures { result ≡ slice_get (filter_map (warp_float design.now bits.now) (range_with_len 0 (length design.now.tie.ends))) 0 }
{
    for end in 0..design.tie.ends() {
        let line = End {
            bits,
            column: design.tie.column(end),
        };
        let run = first_long(&line, design.warp_face, design.warp_back);
        if let Some(float) = told(FloatKind::Warp, end, run) {
            return Some(float);
        }
    }
    None
}

/// `first_float` by whole lines: cells are followed one by one only where a line has a float over its limit.
pub fn find_float(
    alloc: Global,
    design: &Design,
    bits: &BitPaper,
) -> Result<Option<FloatRun>, OutOfMemory>
    requires fits { Fits design.now }
    requires bits { IsBitsOf design.now bits.now }
    ensures first { IfOk result (λ float. float ≡ first_float_of design.now bits.now) }
{
    if let Some(float) = find_weft(alloc, design, bits)? {
        return Ok(Some(float));
    }
    find_warp(alloc, design, bits)
}

// `first_weft` by whole picks.
fn find_weft(
    alloc: Global,
    design: &Design,
    bits: &BitPaper,
) -> Result<Option<FloatRun>, OutOfMemory>
    requires fits { Fits design.now }
    requires bits { IsBitsOf design.now bits.now }
    ensures { IfOk result (λ float. float ≡ slice_get (filter_map (weft_float design.now bits.now) (range_with_len 0 (length bits.now.rows))) 0) }
{
    let mut ends = BitRow::new(alloc, design.tie.ends())?;
    let mut long = BitRow::new(alloc, design.tie.ends())?;
    for pick in 0..bits.size().picks {
        design.tie.lay(bits.row(pick), &mut ends);
        if is_long_somewhere(&ends, design.weft_back, design.weft_face, &mut long) {
            let run = first_long(&ends, design.weft_back, design.weft_face);
            if let Some(float) = told(FloatKind::Weft, pick, run) {
                return Ok(Some(float));
            }
        }
    }
    Ok(None)
}

// `first_warp`, where some column is long somewhere.
fn find_warp(
    alloc: Global,
    design: &Design,
    bits: &BitPaper,
) -> Result<Option<FloatRun>, OutOfMemory>
    requires fits { Fits design.now }
    requires bits { IsBitsOf design.now bits.now }
    ensures { IfOk result (λ float. float ≡ slice_get (filter_map (warp_float design.now bits.now) (range_with_len 0 (length design.now.tie.ends))) 0) }
{
    let turned = columns_of(alloc, bits)?;
    let mut long = BitRow::new(alloc, turned.width())?;
    for column in 0..turned.height() {
        let line = turned.row(column);
        if is_long_somewhere(line, design.warp_face, design.warp_back, &mut long) {
            return Ok(first_warp(design, bits));
        }
    }
    Ok(None)
}

// The columns of a paper as rows.
fn columns_of(alloc: Global, bits: &BitPaper) -> Result<BitGrid, OutOfMemory>
    ensures { IfOk result (λ turned. turned ≡ transposed (grid_cells bits.now)) }
{
    let Size { columns, picks } = bits.size();
    let mut grid = BitGrid::new(alloc, columns, picks)?;
    let mut turned = BitGrid::new(alloc, picks, columns)?;
    for pick in 0..picks {
        grid.set_row(pick, bits.row(pick));
    }
    grid.transpose_into(&mut turned);
    Ok(turned)
}

// Whether some position of a line is long; `long` has room for its positions.
fn is_long_somewhere(line: &BitRow, lifted: u32, unlifted: u32, long: &mut BitRow) -> bool
    requires line { 0 < length line.now }
    requires long { length long.old ≡ length line.now }
    requires limits { (0 < lifted) × (0 < unlifted) }
    ensures len { length long.new ≡ length line.now }
    ensures none { result ≡ false → first_long_of line.now lifted unlifted ≡ None }
{
    cloth_floats::laws::no_float_is_over_its_limit_where_no_position_is_long();
    long_cells(line, lifted, unlifted, long);
    long.any()
}

// A float of a line as a float of the cloth.
fn told(kind: FloatKind, line: u32, run: Option<Run>) -> Option<FloatRun>
    ensures { result ≡ float_of kind line run }
{
    let run = run?;
    Some(FloatRun {
        kind,
        line,
        start: run.start,
        length: run.length,
        endless: run.endless,
    })
}

// A pick of the cloth: each end has the cell of its column.
#[derive(Drop)]
struct Pick<'a> {
    tie: &'a Tie,
    row: &'a BitRow,
    ghost wide: { length row.now ≡ tie.now.columns },
}

impl<'a> Line for Pick<'a> {
    ghost cells = { λ p. tied p.tie.now.ends p.row.now };

    fn len(&self) -> u32 {
        self.tie.ends()
    }

    fn cell(&self, k: u32) -> bool {
        self.row.get(self.tie.column(k))
    }
}

// An end of the cloth: the cells of its column.
#[derive(Drop)]
struct End<'a> {
    bits: &'a BitPaper,
    column: u32,
    ghost there: { column < bits.now.columns },
}

impl<'a> Line for End<'a> {
    ghost cells = { λ e. line_by (length e.bits.now.rows) (λ p. bit_cell e.bits.now e.column p) };

    fn len(&self) -> u32 {
        self.bits.size().picks
    }

    fn cell(&self, k: u32) -> bool {
        self.bits.get(self.column, k)
    }
}
