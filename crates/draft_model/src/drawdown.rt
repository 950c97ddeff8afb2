//! The plain functions from a paper to its bound paper and its cloth.
ghost use Rattle.std.specs.Prelude.{◌≡◌, ◌<◌, ℕ, length, slice_index, IfOk, All};
ghost use Rattle.mill_base.specs.Grids.{GridCells};
ghost use Rattle.mill_base.specs.Lines.{line_by};
ghost use Rattle.weave_book.specs.Books.{colour_mark};
ghost use Rattle.point_paper.specs.Papers.{cell_of, pick_of};
ghost use Rattle.draft_model.specs.Cloths.{raw as raw_of, raw_cell, rows_by};
ghost use Rattle.draft_model.specs.Designs.{Fits, IsBitsOf, IsPaperOf};
ghost use Rattle.draft_model.specs.Drawdowns.{bound as bound_of, drawdown as drawdown_of, cell_bound, column_long};
ghost use Rattle.draft_model.specs.Inner.{bits_of, IsGridOf};

use crate::cloth::Cloth;
use crate::design::Design;
use crate::long_columns::long_columns;
use binder_marks::bind_line;
use mill_base::bit_grid::BitGrid;
use mill_base::bit_row::BitRow;
use mill_base::memory::OutOfMemory;
use mill_base::steps::Steps;
use point_paper::bit_paper::BitPaper;
use point_paper::paper::{LineKind, Paper};
use std::alloc::Global;
use std::marker::Brand;
use std::sync::ledger::{Blank, Ledger};

/// Which cells of a paper are lifted, in its columns and picks, once the binder has been over it, in one pass over the raw cloth (`raw`
/// and `bound` cells are this project's own terms).
pub fn bound(alloc: Global, design: &Design, paper: &Paper) -> Result<BitPaper, OutOfMemory>
    requires fits { Fits design.now }
    requires paper { IsPaperOf design.now paper.now }
    ensures bits { IfOk result (λ bits. bits ≡ bound_of design.now paper.now) }
    ensures size { IfOk result (λ bits. IsBitsOf design.now bits) }
{
    let raw = raw_with::<Brand>(alloc, design, paper, Blank::new(1))?;
    let long = long_columns(alloc, design, &raw)?;
    bind_rows(alloc, design, &raw, &long)
}

/// The cloth of a paper, one repeat, as a weaver draws it down: each end has the bound cells of its column.
pub fn drawdown(alloc: Global, design: &Design, paper: &Paper) -> Result<Cloth, OutOfMemory>
    requires fits { Fits design.now }
    requires paper { IsPaperOf design.now paper.now }
    ensures { IfOk result (λ cloth. cloth ≡ drawdown_of design.now paper.now) }
{
    let bits = bound(alloc, design, paper)?;
    let mut cloth = Cloth::blank(alloc, design.tie.ends(), design.size.picks)?;
    let mut row = BitRow::new(alloc, design.tie.ends())?;
    for pick in 0..design.size.picks {
        design.tie.lay(bits.row(pick), &mut row);
        cloth.set_row(pick, &row);
    }
    Ok(cloth)
}

// The raw cells of a paper. Its readings tick a counter of their own, which goes with the call.
fn raw_with<L: Ledger>(
    alloc: Global,
    design: &Design,
    paper: &Paper,
    blank: Blank,
) -> Result<BitGrid, OutOfMemory>
    requires fits { Fits design.now }
    requires paper { IsPaperOf design.now paper.now }
    requires blank { (blank.name ≡ L.name) × (blank.parts ≡ L.parts) × (L.parts ≡ 1) }
    ensures { IfOk result (λ raw. bits_of raw ≡ raw_of design.now.book paper.now) }
{
    let (book, all) = blank.open::<L>();
    let mut steps = Steps::new(book, all);
    let mut raw = BitGrid::new(alloc, design.size.columns, design.size.picks)?;
    let mut colours = Vec::from_elem(alloc, 0u8, design.size.columns as usize)?;
    let mut row = BitRow::new(alloc, design.size.columns)?;
    for pick in 0..design.size.picks {
        read_pick(paper, pick, &mut colours, &mut steps);
        design.book.put_raw(&colours, pick, &mut row);
        raw.set_row(pick, &row);
    }
    Ok(raw)
}

// The colour numbers of a pick.
fn read_pick<L: Ledger>(paper: &Paper, pick: u32, colours: &mut Vec<u8>, steps: &mut Steps<L>)
    requires pick { pick < paper.now.picks }
    requires colours { length colours.old.items ≡ paper.now.columns }
    ensures { colours.new.items ≡ pick_of paper.now pick }
{
    paper.line(LineKind::Pick, pick, colours, steps);
}

// The bound cells of raw ones, where for each column of each pick it is known whether some end of it is long.
fn bind_rows(
    alloc: Global,
    design: &Design,
    raw: &BitGrid,
    long: &BitGrid,
) -> Result<BitPaper, OutOfMemory>
    requires fits { Fits design.now }
    requires raw { IsGridOf design.now raw.now }
    requires long { long.now ≡ record { width = design.now.size.columns; rows = rows_by design.now.size.columns design.now.size.picks (column_long design.now (bits_of raw.now)) } }
    ensures { IfOk result (λ bits. bits ≡ record { columns = design.now.size.columns; rows = rows_by design.now.size.columns design.now.size.picks (cell_bound design.now (bits_of raw.now)) }) }
{
    let mut bits = BitPaper::new(alloc, design.size)?;
    let mut raise = BitRow::new(alloc, design.size.columns)?;
    let mut sink = BitRow::new(alloc, design.size.columns)?;
    let mut row = BitRow::new(alloc, design.size.columns)?;
    for pick in 0..design.size.picks {
        bind_row(design, raw, long, pick, &mut raise, &mut sink, &mut row);
        bits.set_row(pick, &row);
    }
    Ok(bits)
}

// The bound row of a pick. The marks of the binders are put down only where some column is long; `raise` and `sink` have room for them.
fn bind_row(
    design: &Design,
    raw: &BitGrid,
    long: &BitGrid,
    pick: u32,
    raise: &mut BitRow,
    sink: &mut BitRow,
    row: &mut BitRow,
)
    requires raw { IsGridOf design.now raw.now }
    requires long { long.now ≡ record { width = design.now.size.columns; rows = rows_by design.now.size.columns design.now.size.picks (column_long design.now (bits_of raw.now)) } }
    requires pick { pick < design.now.size.picks }
    requires raise { length raise.old ≡ design.now.size.columns }
    requires sink { length sink.old ≡ design.now.size.columns }
    requires row { length row.old ≡ design.now.size.columns }
    ensures raise { length raise.new ≡ design.now.size.columns }
    ensures sink { length sink.new ≡ design.now.size.columns }
    ensures row { row.new ≡ line_by design.now.size.columns (λ column. cell_bound design.now (bits_of raw.now) column pick) }
{
    if !long.row(pick).any() {
        row.copy_from(raw.row(pick));
        return;
    }
    design.raise.put_row(pick, raise);
    design.sink.put_row(pick, sink);
    bind_line(raw.row(pick), long.row(pick), raise, sink, row);
}
