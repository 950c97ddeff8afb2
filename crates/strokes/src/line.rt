//! Straight lines of cells from one corner to the other. Where their cells lie, counted from 0, is this project's own
//! rule.
ghost use Rattle.std.specs.Prelude.{◌≡◌, ◌+◌, ◌<◌, ◌≤◌, ◌||◌, ◌^◌, ℕ, min, max, IfOk, length, ◌≢◌};
ghost use Rattle.mill_base.specs.Below.{any_below};
ghost use Rattle.mill_base.specs.declared.size.Size.{Size};
ghost use Rattle.point_paper.specs.Papers.{covers};
ghost use Rattle.strokes.specs.Paints.{distance, is_line_cell, is_on_line, line_length, line_place, line_step, towards as towards_of};
ghost use Rattle.strokes.specs.Places.{IsCell};
ghost use Rattle.strokes.specs.Spans.{IsInside};
ghost use Rattle.strokes.specs.inner.Spans.{PaintInColour};

use crate::corners::Corners;
use crate::spans::push_span;
use mill_base::memory::OutOfMemory;
use mill_base::size::Size;
use point_paper::paper::Span;
use std::alloc::Global;

impl Corners {
    /// The cells of the line, a span for each stretch of them on one pick.
    pub(crate) fn line(
        &self,
        alloc: Global,
        size: Size,
        colour: u8,
    ) -> Result<Vec<Span>, OutOfMemory>
        requires first { IsCell size self.now.column0 self.now.pick0 }
        requires second { IsCell size self.now.column1 self.now.pick1 }
        ensures count { IfOk result (λ spans. length spans.items ≡ distance self.now.pick0 self.now.pick1 + 1) }
        ensures paint { IfOk result (λ spans. PaintInColour size colour (is_on_line self.now.column0 self.now.pick0 self.now.column1 self.now.pick1) spans.items) }
    {
        let picks = self.pick0.abs_diff(self.pick1) as usize + 1;
        let mut spans = Vec::with_capacity(alloc, picks)?;
        let last = self.last();
        let mut start = 0;
        while start <= last {
            let end = self.stretch_end(start);
            push_span(&mut spans, self.span(start, end, colour))?;
            start = end + 1;
        }
        Ok(spans)
    }

    /// The number of the last cell.
    fn last(&self) -> u32
        ensures { result ≡ line_length self.now.column0 self.now.pick0 self.now.column1 self.now.pick1 }
    {
        let columns = self.column0.abs_diff(self.column1);
        let picks = self.pick0.abs_diff(self.pick1);
        columns.max(picks)
    }

    /// The column of a cell.
    fn column(&self, place: u32) -> u32
        requires { place ≤ line_length self.now.column0 self.now.pick0 self.now.column1 self.now.pick1 }
        ensures place { result ≡ line_place (line_length self.now.column0 self.now.pick0 self.now.column1 self.now.pick1) self.now.column0 self.now.column1 place }
        ensures low { min self.now.column0 self.now.column1 ≤ result }
        ensures high { result ≤ max self.now.column0 self.now.column1 }
    {
        place_between(self.column0, self.column1, self.last(), place)
    }

    /// The pick of a cell.
    fn pick(&self, place: u32) -> u32
        requires { place ≤ line_length self.now.column0 self.now.pick0 self.now.column1 self.now.pick1 }
        ensures place { result ≡ line_place (line_length self.now.column0 self.now.pick0 self.now.column1 self.now.pick1) self.now.pick0 self.now.pick1 place }
        ensures low { min self.now.pick0 self.now.pick1 ≤ result }
        ensures high { result ≤ max self.now.pick0 self.now.pick1 }
    {
        place_between(self.pick0, self.pick1, self.last(), place)
    }

    /// The last cell of the stretch on one pick that begins at a cell.
    fn stretch_end(&self, start: u32) -> u32
        requires { start ≤ line_length self.now.column0 self.now.pick0 self.now.column1 self.now.pick1 }
        ensures ahead { start ≤ result }
        ensures within { result ≤ line_length self.now.column0 self.now.pick0 self.now.column1 self.now.pick1 }
        ensures level { (i : ℕ) → start ≤ i → i ≤ result
            → line_place (line_length self.now.column0 self.now.pick0 self.now.column1 self.now.pick1) self.now.pick0 self.now.pick1 i
            ≡ line_place (line_length self.now.column0 self.now.pick0 self.now.column1 self.now.pick1) self.now.pick0 self.now.pick1 start }
        ensures whole { result < line_length self.now.column0 self.now.pick0 self.now.column1 self.now.pick1
            → line_place (line_length self.now.column0 self.now.pick0 self.now.column1 self.now.pick1) self.now.pick0 self.now.pick1 (result + 1)
            ≢ line_place (line_length self.now.column0 self.now.pick0 self.now.column1 self.now.pick1) self.now.pick0 self.now.pick1 start }
    {
        let last = self.last();
        let pick = self.pick(start);
        let mut end = start;
        while end < last {
            if self.pick(end + 1) != pick {
                return end;
            }
            end += 1;
        }
        end
    }

    /// The span of a stretch on one pick, from its first cell to its last.
    fn span(&self, start: u32, end: u32, colour: u8) -> Span
        requires ahead { start ≤ end }
        requires within { end ≤ line_length self.now.column0 self.now.pick0 self.now.column1 self.now.pick1 }
        requires level { (i : ℕ) → start ≤ i → i ≤ end
            → line_place (line_length self.now.column0 self.now.pick0 self.now.column1 self.now.pick1) self.now.pick0 self.now.pick1 i
            ≡ line_place (line_length self.now.column0 self.now.pick0 self.now.column1 self.now.pick1) self.now.pick0 self.now.pick1 start }
        requires room { distance self.now.column0 self.now.column1 + 1 < 2 ^ 32 }
        ensures cells { (c p : ℕ) → (any_below (is_line_cell self.now.column0 self.now.pick0 self.now.column1 self.now.pick1 c p) start || covers result c p)
            ≡ any_below (is_line_cell self.now.column0 self.now.pick0 self.now.column1 self.now.pick1 c p) (end + 1) }
        ensures inside { (size : Size) → IsCell size self.now.column0 self.now.pick0 → IsCell size self.now.column1 self.now.pick1 → IsInside size result }
        ensures colour { result.colour ≡ colour }
    {
        let first = self.column(start);
        let last = self.column(end);
        Span {
            column: first.min(last),
            pick: self.pick(start),
            length: first.abs_diff(last) + 1,
            colour,
        }
    }
}

// where cell `place` of a line whose last cell is `last` lies between a and b
fn place_between(a: u32, b: u32, last: u32, place: u32) -> u32
    requires length { distance a b ≤ last }
    requires place { place ≤ last }
    ensures place { result ≡ line_place last a b place }
    ensures low { min a b ≤ result }
    ensures high { result ≤ max a b }
{
    towards(a, b, step(last, a.abs_diff(b), place))
}

// the line rule: how far cell `place` lies from the first, of a distance
#[tactic(auto, unfolding(crate::specs::Paints::line_step))]
fn step(last: u32, distance: u32, place: u32) -> u32
    requires length { distance ≤ last }
    requires place { place ≤ last }
    ensures step { result ≡ line_step last distance place }
    ensures within { result ≤ distance }
{
    if last == 0 {
        return 0;
    }
    let twice = 2 * last as u128;
    let step = (2 * place as u128 * distance as u128 + last as u128) / twice;
    step as u32
}

fn towards(a: u32, b: u32, by: u32) -> u32
    requires { by ≤ distance a b }
    ensures place { result ≡ towards_of a b by }
    ensures low { min a b ≤ result }
    ensures high { result ≤ max a b }
{
    if a <= b { a + by } else { a - by }
}
