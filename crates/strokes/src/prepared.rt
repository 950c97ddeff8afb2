//! Acts that are prepared to be painted.
ghost use Rattle.std.specs.Prelude.{◌≡◌, ◌↔◌, ℕ, IfOk, IsTrue};
ghost use Rattle.strokes.specs.Cells.{IsNoLarger};
ghost use Rattle.strokes.specs.Places.{IsCell, IsOnPaper, HasMotif, motif_of_act};
ghost use Rattle.strokes.specs.Spans.{AreSpansOf};

use crate::act::Act;
use crate::corners::Corners;
use crate::motif::Motif;
use crate::motifs::Motifs;
use crate::spans::{dot, rectangle};
use crate::stamp::{half_on, push_stamp};
use mill_base::memory::OutOfMemory;
use mill_base::size::Size;
use point_paper::paper::Span;
use std::alloc::Global;
use std::marker::Model;

/// An act with all that it takes to paint it: the size of the paper, a copy of the motif that the act names, and the
/// spans that paint it, one after another.
#[derive(Drop)]
pub struct Prepared {
    act: Act,
    size: Size,
    motif: Motif,
    spans: Vec<Span>,
}

impl Model for Prepared {
    ghost use Rattle.strokes.specs.Spans.{PreparedAct, AreSpansOf};

    ghost Value = { PreparedAct };

    ghost view = { λ p. record { act = p.act; size = p.size; motif = p.motif; spans = p.spans.items } };

    ghost invariant = { λ p. AreSpansOf p.motif p.size p.act p.spans.items };
}

impl Prepared {
    /// The act, prepared for a paper of a size. Its cells are on the paper, and the motif that it names is there and no
    /// larger than the paper. A commit has no span.
    pub fn of(
        alloc: Global,
        act: &Act,
        motifs: &Motifs,
        size: Size,
    ) -> Result<Prepared, OutOfMemory>
        requires cells { IsOnPaper size act.now }
        requires motif { HasMotif motifs.now act.now }
        requires small { IsNoLarger (motif_of_act motifs.now act.now) size }
        ensures act { IfOk result (λ p. p.act ≡ act.now) }
        ensures size { IfOk result (λ p. p.size ≡ size) }
        ensures motif { IfOk result (λ p. p.motif ≡ motif_of_act motifs.now act.now) }
        ensures paint { IfOk result (λ p. AreSpansOf p.motif p.size p.act p.spans) }
    {
        let motif = copied_motif(alloc, act, motifs)?;
        let spans = spans_of(alloc, act, &motif, size)?;
        Ok(Prepared {
            act: *act,
            size,
            motif,
            spans,
        })
    }

    /// Whether this is the act, prepared for a paper of the size: the act and the size are the kept ones, and the motif
    /// that the act names, if it names one, has the kept cells. Then the spans paint what the act paints.
    pub fn is_of(&self, act: &Act, motifs: &Motifs, size: Size) -> bool
        ensures { IsTrue result ↔ ((self.now.act ≡ act.now) × (self.now.size ≡ size) × (self.now.motif ≡ motif_of_act motifs.now act.now)) }
    {
        self.act == *act && self.size == size && keeps_motif(&self.motif, act, motifs)
    }

    /// The act.
    pub fn act(&self) -> &Act
        ensures { result.now ≡ self.now.act }
    {
        &self.act
    }

    /// The spans that paint the act, one after another: they cover exactly its cells, and lie inside the paper of the
    /// kept size.
    pub fn spans(&self) -> &[Span]
        ensures spans { result.now ≡ self.now.spans }
        ensures paint { AreSpansOf self.now.motif self.now.size self.now.act self.now.spans }
    {
        &self.spans
    }

    /// An equal value in memory of its own.
    pub fn copy(&self) -> Result<Prepared, OutOfMemory>
        ensures { IfOk result (λ p. p ≡ self.now) }
    {
        let motif = self.motif.copy()?;
        let spans = Vec::from_slice(*self.spans.allocator(), &self.spans)?;
        Ok(Prepared {
            act: self.act,
            size: self.size,
            motif,
            spans,
        })
    }
}

// the motif that the act names, and no cell where it names none
fn copied_motif(alloc: Global, act: &Act, motifs: &Motifs) -> Result<Motif, OutOfMemory>
    requires { HasMotif motifs.now act.now }
    ensures { IfOk result (λ m. m ≡ motif_of_act motifs.now act.now) }
{
    match act {
        Act::Stamp { motif, .. } => motifs.motif(*motif).copy(),
        Act::HalfDrop { motif, .. } => motifs.motif(*motif).copy(),
        _ => Ok(Motif::none(alloc)),
    }
}

fn spans_of(alloc: Global, act: &Act, motif: &Motif, size: Size) -> Result<Vec<Span>, OutOfMemory>
    requires cells { IsOnPaper size act.now }
    requires small { IsNoLarger motif.now size }
    ensures { IfOk result (λ spans. AreSpansOf motif.now size act.now spans.items) }
{
    match *act {
        Act::Dot {
            colour,
            column,
            pick,
        } => dot(alloc, size, colour, column, pick),
        Act::Rect {
            colour,
            column0,
            pick0,
            column1,
            pick1,
        } => {
            let corners = Corners {
                column0,
                pick0,
                column1,
                pick1,
            };
            rectangle(alloc, size, colour, &corners)
        }
        Act::Line {
            colour,
            column0,
            pick0,
            column1,
            pick1,
        } => {
            let corners = Corners {
                column0,
                pick0,
                column1,
                pick1,
            };
            corners.line(alloc, size, colour)
        }
        Act::Stamp { column, pick, .. } => stamp(alloc, motif, size, column, pick),
        Act::HalfDrop { column, pick, .. } => half_drop(alloc, motif, size, column, pick),
        Act::Commit => Ok(Vec::new(alloc)),
    }
}

fn stamp(
    alloc: Global,
    motif: &Motif,
    size: Size,
    column: u32,
    pick: u32,
) -> Result<Vec<Span>, OutOfMemory>
    requires small { IsNoLarger motif.now size }
    requires cell { IsCell size column pick }
    ensures { (number : ℕ) → IfOk result (λ spans. AreSpansOf motif.now size (Act.Stamp number column pick) spans.items) }
{
    let mut spans = Vec::new(alloc);
    push_stamp(&mut spans, motif, size, column, pick)?;
    Ok(spans)
}

// the second stamp lies over the first
fn half_drop(
    alloc: Global,
    motif: &Motif,
    size: Size,
    column: u32,
    pick: u32,
) -> Result<Vec<Span>, OutOfMemory>
    requires small { IsNoLarger motif.now size }
    requires cell { IsCell size column pick }
    ensures { (number : ℕ) → IfOk result (λ spans. AreSpansOf motif.now size (Act.HalfDrop number column pick) spans.items) }
{
    let mut spans = Vec::new(alloc);
    push_stamp(&mut spans, motif, size, column, pick)?;
    let across = half_on(size.columns, column);
    let up = half_on(size.picks, pick);
    push_stamp(&mut spans, motif, size, across, up)?;
    Ok(spans)
}

// whether these are the cells of the motif that the act names, and none where it names no motif
fn keeps_motif(motif: &Motif, act: &Act, motifs: &Motifs) -> bool
    ensures { IsTrue result ↔ (motif.now ≡ motif_of_act motifs.now act.now) }
{
    match act {
        Act::Stamp { motif: number, .. } => motifs.has_cells(*number, motif),
        Act::HalfDrop { motif: number, .. } => motifs.has_cells(*number, motif),
        _ => motif.is_none(),
    }
}
