//! Motifs that are put round the repeat of a paper.
ghost use Rattle.std.specs.Prelude.{◌≡◌, ◌+◌, ◌%◌, ◌<◌, ◌≤◌, ◌==◌, ◌↔◌, ℕ, ◌^◌, ◌/◌, ◌-◌, List, Option, Contains, length, slice_index_or, None, OnOk, IfOk, IsTrue};
ghost use Rattle.mill_base.specs.declared.size.Size.{Size};
ghost use Rattle.strokes.specs.Cells.{IsNoLarger};
ghost use Rattle.strokes.specs.Paints.{half_on as half_on_of, stamped, steps_round};
ghost use Rattle.strokes.specs.Places.{IsCell};
ghost use Rattle.strokes.specs.inner.Spans.{AreAdded, AreAmong, AreLaidInside, laid, laid_round, run};

use crate::motif::Motif;
use crate::spans::push_span;
use mill_base::memory::OutOfMemory;
use mill_base::size::Size;
use point_paper::paper::Span;

/// Adds the spans of a motif with its lowest left cell at a cell: one for each stretch of equal colour, cut at the edge
/// of the repeat.
pub(crate) fn push_stamp(
    spans: &mut Vec<Span>,
    motif: &Motif,
    size: Size,
    column: u32,
    pick: u32,
) -> Result<(), OutOfMemory>
    requires small { IsNoLarger motif.now size }
    requires cell { IsCell size column pick }
    ensures { OnOk result (AreAdded size motif.now.cells (stamped motif.now size column pick) spans.old.items spans.new.items) }
{
    for row in 0..motif.size().picks {
        let at = round(size.picks, pick, row);
        push_row(spans, motif.pick(row), size.columns, column, at)?;
    }
    Ok(())
}

/// Adds the spans of cells that are laid on a pick from a column on, round the repeat of so many columns.
fn push_row(
    spans: &mut Vec<Span>,
    cells: &[Option<u8>],
    columns: u32,
    column: u32,
    pick: u32,
) -> Result<(), OutOfMemory>
    requires column { column < columns }
    requires few { length cells.now ≤ columns }
    ensures { (size : Size) (all : List (Option ℕ)) → size.columns ≡ columns → pick < size.picks → AreAmong all cells.now
        → OnOk result (AreAdded size all (laid_round cells.now columns column pick) spans.old.items spans.new.items) }
{
    let edge = cells.len().min((columns - column) as usize);
    push_runs(spans, &cells[..edge], column, pick)?;
    push_runs(spans, &cells[edge..], 0, pick)
}

/// Adds a span for each stretch of equal colour of cells that are laid on a pick from a column on.
fn push_runs(
    spans: &mut Vec<Span>,
    cells: &[Option<u8>],
    column: u32,
    pick: u32,
) -> Result<(), OutOfMemory>
    requires { column + length cells.now < 2 ^ 32 }
    ensures { (size : Size) (all : List (Option ℕ)) → AreLaidInside size all cells.now column pick
        → OnOk result (AreAdded size all (laid cells.now column pick) spans.old.items spans.new.items) }
{
    let mut start = 0;
    while start < cells.len() {
        let end = run_end(cells, start);
        let cell = cells[start];
        push_run(
            spans,
            cell,
            column + start as u32,
            pick,
            (end - start) as u32,
        )?;
        start = end;
    }
    Ok(())
}

/// Adds the span of so many equal cells, unless they are not painted.
fn push_run(
    spans: &mut Vec<Span>,
    cell: Option<u8>,
    column: u32,
    pick: u32,
    length: u32,
) -> Result<(), OutOfMemory>
    requires { 0 < length }
    ensures { (size : Size) (all : List (Option ℕ)) → pick < size.picks → column + length ≤ size.columns → Contains all cell
        → OnOk result (AreAdded size all (run cell column pick length) spans.old.items spans.new.items) }
{
    match cell {
        Some(colour) => {
            let span = Span {
                column,
                pick,
                length,
                colour,
            };
            push_span(spans, span)
        }
        None => Ok(()),
    }
}

/// The place behind the stretch of equal cells that begins at a place.
fn run_end(cells: &[Option<u8>], start: usize) -> usize
    requires { start < length cells.now }
    ensures ahead { start < result }
    ensures within { result ≤ length cells.now }
    ensures equal { (k : ℕ) → start ≤ k → k < result → slice_index_or cells.now k None ≡ slice_index_or cells.now start None }
{
    let mut end = start + 1;
    while end < cells.len() {
        if cells[end] != cells[start] {
            return end;
        }
        end += 1;
    }
    end
}

/// Half the way on, round a repeat.
pub(crate) fn half_on(n: u32, at: u32) -> u32
    requires { at < n }
    ensures { result ≡ half_on_of n at }
{
    round(n, at, n / 2)
}

// so many steps on, round a repeat
fn round(n: u32, at: u32, by: u32) -> u32
    requires at { at < n }
    requires by { by < n }
    ensures place { result ≡ (at + by) % n }
    ensures steps { (x : ℕ) → x < n → (x == result) ≡ (steps_round n at x == by) }
    ensures within { result < n }
{
    if by < n - at { at + by } else { by - (n - at) }
}
