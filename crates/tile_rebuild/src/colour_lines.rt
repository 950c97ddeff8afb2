//! The colours of the lines that cross a tile.
ghost use Rattle.std.specs.Prelude.{◌≡◌, ◌↔◌, ℕ, ◌+◌, ◌*◌, ◌^◌, ◌<◌, ◌≤◌, ◌++◌, true, length, take, drop, slice_index, IfOk, IsTrue};
ghost use Rattle.mill_base.specs.declared.limits.TheConstants.{MAX_PICKS};
ghost use Rattle.point_paper.specs.Papers.{line_cells, line_of, lines_of};
ghost use Rattle.tile_rebuild.specs.Lines.{item_of, AreColoursOf, HaveColourRoom};
ghost use Rattle.tile_rebuild.specs.Tiles.{IsInside};

use crate::part::Part;
use mill_base::limits::MAX_PICKS;
use mill_base::memory::OutOfMemory;
use mill_base::size::Size;
use mill_base::steps::Steps;
use point_paper::paper::{LineKind, Paper};
use std::alloc::Global;
use std::sync::ledger::Ledger;

const LONGEST: usize = MAX_PICKS as usize;

/// The colour numbers of the picks that cross a tile, over all columns, and of the columns that cross it, over all picks: line after line,
/// from the tile's first pick and its first column on.
#[derive(Drop)]
pub struct ColourLines {
    pub picks: Vec<u8>,
    pub columns: Vec<u8>,
}

impl ColourLines {
    /// Room for so many picks and so many columns of a paper.
    pub fn new(alloc: Global, size: Size, side: u32) -> Result<ColourLines, OutOfMemory>
        ensures picks { IfOk result (λ l. length l.picks.items ≡ side * size.columns) }
        ensures columns { IfOk result (λ l. length l.columns.items ≡ side * size.picks) }
    {
        let picks = Vec::from_elem(alloc, 0u8, side as usize * size.columns as usize)?;
        let columns = Vec::from_elem(alloc, 0u8, side as usize * size.picks as usize)?;
        Ok(ColourLines { picks, columns })
    }

    /// Copies the lines that cross a part of a paper. It takes no memory. The counter ticks once for each cell.
    pub fn copy<L: Ledger>(&mut self, part: Part, paper: &Paper, steps: &mut Steps<L>)
        requires part { IsInside paper.now.columns paper.now.picks part }
        requires room { HaveColourRoom paper.now.columns paper.now.picks part self.old.picks.items self.old.columns.items }
        ensures lines { AreColoursOf part paper.now self.new.picks.items self.new.columns.items }
        ensures picks { length self.new.picks.items ≡ length self.old.picks.items }
        ensures columns { length self.new.columns.items ≡ length self.old.columns.items }
        ensures steps { steps.new ≡ steps.old + (part.height * paper.now.columns + part.width * paper.now.picks) }
    {
        let Size { columns, picks } = paper.size();
        copy_lines(
            paper,
            LineKind::Pick,
            part.pick,
            part.height,
            columns,
            &mut self.picks,
            steps,
        );
        copy_lines(
            paper,
            LineKind::Column,
            part.column,
            part.width,
            picks,
            &mut self.columns,
            steps,
        );
    }

    /// Whether the lines are those that cross a part of a paper. It takes no memory. The counter ticks at most once for each cell.
    pub fn agree<L: Ledger>(&self, part: Part, paper: &Paper, steps: &mut Steps<L>) -> bool
        requires part { IsInside paper.now.columns paper.now.picks part }
        requires room { HaveColourRoom paper.now.columns paper.now.picks part self.now.picks.items self.now.columns.items }
        ensures lines { IsTrue result ↔ AreColoursOf part paper.now self.now.picks.items self.now.columns.items }
        ensures later { steps.old ≤ steps.new }
        ensures most { steps.new ≤ steps.old + (part.height * paper.now.columns + part.width * paper.now.picks) }
    {
        let Size { columns, picks } = paper.size();
        if !same_lines(
            paper,
            LineKind::Pick,
            part.pick,
            part.height,
            columns,
            &self.picks,
            steps,
        ) {
            return false;
        }
        same_lines(
            paper,
            LineKind::Column,
            part.column,
            part.width,
            picks,
            &self.columns,
            steps,
        )
    }
}

// Copies so many lines of a kind, from the line `from` on, one after another.
fn copy_lines<L: Ledger>(
    paper: &Paper,
    kind: LineKind,
    from: u32,
    count: u32,
    len: u32,
    out: &mut Vec<u8>,
    steps: &mut Steps<L>,
)
    requires lines { from + count ≤ lines_of kind paper.now }
    requires few { from + count < 2 ^ 32 }
    requires len { len ≡ line_cells kind paper.now }
    requires room { count * len ≤ length out.old.items }
    ensures cells { (k x : ℕ) → k < count → x < len → item_of len out.new.items k x ≡ slice_index (line_of kind paper.now (from + k)) x }
    ensures room { length out.new.items ≡ length out.old.items }
    ensures steps { steps.new ≡ steps.old + count * len }
{
    for k in 0..count {
        let at = k as usize * len as usize;
        copy_line(paper, kind, from + k, len, out, at, steps);
    }
}

fn copy_line<L: Ledger>(
    paper: &Paper,
    kind: LineKind,
    index: u32,
    len: u32,
    out: &mut Vec<u8>,
    at: usize,
    steps: &mut Steps<L>,
)
    requires index { index < lines_of kind paper.now }
    requires len { len ≡ line_cells kind paper.now }
    requires room { at + len ≤ length out.old.items }
    ensures line { out.new.items ≡ take at out.old.items ++ (line_of kind paper.now index ++ drop (at + len) out.old.items) }
    ensures steps { steps.new ≡ steps.old + len }
{
    paper.line(kind, index, &mut out[at..at + len as usize], steps);
}

// Whether so many lines of a kind, from the line `from` on, stand one after another.
fn same_lines<L: Ledger>(
    paper: &Paper,
    kind: LineKind,
    from: u32,
    count: u32,
    len: u32,
    kept: &[u8],
    steps: &mut Steps<L>,
) -> bool
    requires lines { from + count ≤ lines_of kind paper.now }
    requires few { from + count < 2 ^ 32 }
    requires len { len ≡ line_cells kind paper.now }
    requires most { len ≤ MAX_PICKS }
    requires room { count * len ≤ length kept.now }
    ensures same { result ≡ true → (k x : ℕ) → k < count → x < len → item_of len kept.now k x ≡ slice_index (line_of kind paper.now (from + k)) x }
    ensures differ { ((k x : ℕ) → k < count → x < len → item_of len kept.now k x ≡ slice_index (line_of kind paper.now (from + k)) x) → result ≡ true }
    ensures later { steps.old ≤ steps.new }
    ensures most { steps.new ≤ steps.old + count * len }
{
    for k in 0..count {
        let at = k as usize * len as usize;
        if !same_line(paper, kind, from + k, len, kept, at, steps) {
            return false;
        }
    }
    true
}

fn same_line<L: Ledger>(
    paper: &Paper,
    kind: LineKind,
    index: u32,
    len: u32,
    kept: &[u8],
    at: usize,
    steps: &mut Steps<L>,
) -> bool
    requires index { index < lines_of kind paper.now }
    requires len { len ≡ line_cells kind paper.now }
    requires most { len ≤ MAX_PICKS }
    requires room { at + len ≤ length kept.now }
    ensures same { IsTrue result ↔ (take len (drop at kept.now) ≡ line_of kind paper.now index) }
    ensures steps { steps.new ≡ steps.old + len }
{
    let mut line = [0u8; LONGEST];
    let cells = &mut line[..len as usize];
    paper.line(kind, index, cells, steps);
    same_cells(&kept[at..at + len as usize], cells)
}

fn same_cells(one: &[u8], other: &[u8]) -> bool
    ensures { IsTrue result ↔ (one.now ≡ other.now) }
{
    one == other
}
