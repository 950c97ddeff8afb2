//! The spans of an act: what they paint, and which tiles they touch and mark.
ghost use Rattle.std.specs.Prelude.{◌≡◌, ℕ, ◌<◌, ◌||◌, All, false, length, slice_index_or};
ghost use Rattle.mill_base.specs.declared.size.Size.{Size};
ghost use Rattle.point_paper.specs.Papers.{IsPaper};
ghost use Rattle.strokes.specs.Paints.{after, size_of};
ghost use Rattle.strokes.specs.Spans.{AreSpansOf, IsInside, after_spans};
ghost use Rattle.tile_grid.specs.Tiles.{tiles};
ghost use Rattle.tile_rebuild.specs.Tiles.{grid_of};
ghost use Rattle.studio_core.specs.Touches.{bind_tiles, check_tiles, near_any};
ghost use Rattle.studio_core.specs.inner.Touched.{grid_size, span_touches, spans_touch};

use crate::walking::mark_near;
use draft_model::design::Design;
use point_paper::paper::{Paper, Span};
use strokes::prepared::Prepared;
use tile_grid::grid::Grid;
use tile_marks::marks::Marks;

/// Paints a prepared act, and adds to two sets what it marks: the tiles near those that it touches for binding, and the tiles near these
/// for checking. The touched tiles and the tiles near them are gathered in two further sets, whatever these had before.
pub(crate) fn paint_act(
    design: &Design,
    grid: &Grid,
    act: &Prepared,
    paper: &mut Paper,
    touched: &mut Marks,
    near: &mut Marks,
    bind: &mut Marks,
    check: &mut Marks,
)
    requires grid { grid.now ≡ grid_of design.now }
    requires size { act.now.size ≡ design.now.size }
    requires columns { paper.old.columns ≡ design.now.size.columns }
    requires picks { paper.old.picks ≡ design.now.size.picks }
    requires touched { length touched.old ≡ tiles (grid_of design.now) }
    requires near { length near.old ≡ tiles (grid_of design.now) }
    requires bind { length bind.old ≡ tiles (grid_of design.now) }
    requires check { length check.old ≡ tiles (grid_of design.now) }
    ensures paper { paper.new ≡ after act.now.motif paper.old act.now.act }
    ensures bind { (u : ℕ) → u < tiles (grid_of design.now)
        → slice_index_or bind.new u false ≡ (slice_index_or bind.old u false || bind_tiles (grid_of design.now) act.now.motif act.now.size act.now.act u) }
    ensures check { (u : ℕ) → u < tiles (grid_of design.now)
        → slice_index_or check.new u false ≡ (slice_index_or check.old u false || check_tiles (grid_of design.now) act.now.motif act.now.size act.now.act u) }
    ensures lengths { (length touched.new ≡ tiles (grid_of design.now)) × (length near.new ≡ tiles (grid_of design.now))
        × (length bind.new ≡ tiles (grid_of design.now)) × (length check.new ≡ tiles (grid_of design.now)) }
    ensures spans { AreSpansOf act.now.motif act.now.size act.now.act act.now.spans }
    ensures whole { IsPaper paper.old }
{
    strokes::laws::the_spans_of_an_act_paint_it();
    paper.size();
    let spans = act.spans();
    paint_spans(paper, spans);
    mark_touched(grid, spans, touched, near, bind, check);
}

// Marks by spans what an act marks.
fn mark_touched(
    grid: &Grid,
    spans: &[Span],
    touched: &mut Marks,
    near: &mut Marks,
    bind: &mut Marks,
    check: &mut Marks,
)
    requires spans { All (IsInside (grid_size grid.now)) spans.now }
    requires touched { length touched.old ≡ tiles grid.now }
    requires near { length near.old ≡ tiles grid.now }
    requires bind { length bind.old ≡ tiles grid.now }
    requires check { length check.old ≡ tiles grid.now }
    ensures bind { (u : ℕ) → u < tiles grid.now
        → slice_index_or bind.new u false ≡ (slice_index_or bind.old u false || near_any grid.now (spans_touch grid.now spans.now) u) }
    ensures check { (u : ℕ) → u < tiles grid.now
        → slice_index_or check.new u false ≡ (slice_index_or check.old u false || near_any grid.now (near_any grid.now (spans_touch grid.now spans.now)) u) }
    ensures lengths { (length touched.new ≡ tiles grid.now) × (length near.new ≡ tiles grid.now) × (length bind.new ≡ tiles grid.now) × (length check.new ≡ tiles grid.now) }
{
    grid.tiles();
    touched.clear_all();
    mark_spans(grid, spans, touched);
    near.clear_all();
    mark_near(grid, touched, near);
    mark_near(grid, touched, bind);
    mark_near(grid, near, check);
}

// Paints spans one after another.
fn paint_spans(paper: &mut Paper, spans: &[Span])
    requires { All (IsInside (size_of paper.old)) spans.now }
    ensures { paper.new ≡ after_spans paper.old spans.now }
{
    for span in spans {
        paper.paint_span(span);
    }
}

// Adds the tiles that some spans touch.
fn mark_spans(grid: &Grid, spans: &[Span], set: &mut Marks)
    requires spans { All (IsInside (grid_size grid.now)) spans.now }
    requires set { length set.old ≡ tiles grid.now }
    ensures len { length set.new ≡ length set.old }
    ensures tiles { (u : ℕ) → u < tiles grid.now
        → slice_index_or set.new u false ≡ (slice_index_or set.old u false || spans_touch grid.now spans.now u) }
{
    for span in spans {
        mark_span(grid, span, set);
    }
}

// Adds the tiles that a span touches: those from the tile of its first cell to that of its last, which stand side by side.
fn mark_span(grid: &Grid, span: &Span, set: &mut Marks)
    requires span { IsInside (grid_size grid.now) span.now }
    requires set { length set.old ≡ tiles grid.now }
    ensures len { length set.new ≡ length set.old }
    ensures tiles { (u : ℕ) → u < tiles grid.now
        → slice_index_or set.new u false ≡ (slice_index_or set.old u false || span_touches grid.now span.now u) }
{
    grid.tiles();
    let first = grid.tile_of(span.column, span.pick);
    let last = grid.tile_of(span.column + (span.length - 1), span.pick);
    for tile in first..last + 1 {
        set.mark(tile);
    }
}
