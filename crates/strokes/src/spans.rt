//! Lists of spans.
ghost use Rattle.std.specs.Prelude.{◌≡◌, ◌+◌, ◌<◌, ◌==◌, ◌&&◌, [], ◌∷◌, ◌++◌, min, max, length, nat_le, nat_lt, OnOk, IfOk};
ghost use Rattle.strokes.specs.Paints.{distance, is_between};
ghost use Rattle.strokes.specs.Places.{IsCell};
ghost use Rattle.strokes.specs.inner.Spans.{PaintInColour};

use crate::corners::Corners;
use mill_base::memory::OutOfMemory;
use mill_base::size::Size;
use point_paper::paper::Span;
use std::alloc::Global;

pub(crate) fn push_span(spans: &mut Vec<Span>, span: Span) -> Result<(), OutOfMemory>
    ensures { OnOk result (spans.new.items ≡ spans.old.items ++ span ∷ []) }
{
    spans.push(span)?;
    Ok(())
}

/// One cell.
pub(crate) fn dot(
    alloc: Global,
    size: Size,
    colour: u8,
    column: u32,
    pick: u32,
) -> Result<Vec<Span>, OutOfMemory>
    requires { IsCell size column pick }
    ensures count { IfOk result (λ spans. length spans.items ≡ 1) }
    ensures paint { IfOk result (λ spans. PaintInColour size colour (λ c p. (c == column) && (p == pick)) spans.items) }
{
    let mut spans = Vec::with_capacity(alloc, 1)?;
    let span = Span {
        column,
        pick,
        length: 1,
        colour,
    };
    push_span(&mut spans, span)?;
    Ok(spans)
}

/// The cells between two corners, a span for each pick.
pub(crate) fn rectangle(
    alloc: Global,
    size: Size,
    colour: u8,
    corners: &Corners,
) -> Result<Vec<Span>, OutOfMemory>
    requires first { IsCell size corners.now.column0 corners.now.pick0 }
    requires second { IsCell size corners.now.column1 corners.now.pick1 }
    ensures count { IfOk result (λ spans. length spans.items ≡ distance corners.now.pick0 corners.now.pick1 + 1) }
    ensures paint { IfOk result (λ spans. PaintInColour size colour (λ c p. is_between corners.now.column0 corners.now.column1 c && is_between corners.now.pick0 corners.now.pick1 p) spans.items) }
{
    let left = corners.column0.min(corners.column1);
    let length = corners.column0.abs_diff(corners.column1) + 1;
    let low = corners.pick0.min(corners.pick1);
    let high = corners.pick0.max(corners.pick1);
    let mut spans = Vec::with_capacity(alloc, (high - low + 1) as usize)?;
    for pick in low..high + 1 {
        let span = Span {
            column: left,
            pick,
            length,
            colour,
        };
        push_span(&mut spans, span)?;
    }
    Ok(spans)
}
