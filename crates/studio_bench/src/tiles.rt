//! Grids of tiles, and the plain way of binding a whole paper.
ghost use Rattle.std.specs.Prelude.{◌≡◌, ◌≤◌, ◌<◌, ℕ, length, IfOk, IfSome};
ghost use Rattle.point_paper.specs.Papers.{cell_of};
ghost use Rattle.mill_base.specs.Limits.{IsWithin};
ghost use Rattle.mill_base.specs.declared.limits.TheConstants.{MAX_COLUMNS, MAX_FLOAT, MAX_TILE, MIN_TILE};
ghost use Rattle.draft_model.specs.Designs.{Fits, IsPaperOf};
ghost use Rattle.harness_ties.specs.Ties.{IsTie};
ghost use Rattle.tile_grid.specs.Tiles.{tiles as tiles_of};

use crate::tied::Form;
use casting_out::casting::Casting;
use draft_model::design::Design;
use draft_model::drawdown::bound;
use harness_ties::tie::Tie;
use mill_base::limits::{DEFAULT_TILE, MAX_COLUMNS, MAX_FLOAT, MIN_TILE};
use mill_base::memory::OutOfMemory;
use mill_base::size::Size;
use point_paper::paper::Paper;
use std::alloc::Global;
use tile_grid::grid::Grid;
use tile_marks::marks::Marks;
use weave_book::book::Book;
use weave_book::weaves::Weave;

/// Columns and picks of a paper in tiles of some side, and how far a change reaches.
#[derive(Clone, Copy)]
pub struct Tiles {
    side: u32,
    limit: u32,
    ghost sides: { IsWithin MIN_TILE side MAX_TILE },
    ghost limits: { IsWithin 1 limit MAX_FLOAT },
}

const SIZE: Size = Size {
    columns: MAX_COLUMNS,
    picks: MAX_COLUMNS,
};

/// The limit of floats of an ordinary cloth.
const ORDINARY: u32 = 15;

impl Tiles {
    /// The tiles and the limit of a name.
    pub fn named(name: &str) -> Option<Tiles> {
        match name {
            "32-15" => Some(Tiles {
                side: DEFAULT_TILE,
                limit: ORDINARY,
            }),
            "32-255" => Some(Tiles {
                side: DEFAULT_TILE,
                limit: MAX_FLOAT,
            }),
            "4-15" => Some(Tiles {
                side: MIN_TILE,
                limit: ORDINARY,
            }),
            "4-255" => Some(Tiles {
                side: MIN_TILE,
                limit: MAX_FLOAT,
            }),
            _ => None,
        }
    }

    /// Builds the grid of 4096 columns and picks under a straight tie so many times; `None` where memory is refused.
    pub fn build(self, alloc: Global, rounds: u32) -> Option<u32> {
        let tie = Form::Straight.tie(alloc)?;
        let mut told = 0u32;
        for _ in 0..rounds {
            let grid = Grid::build(alloc, SIZE, self.side, &tie, self.limit, self.limit).ok()?;
            told = told.wrapping_add(grid.tiles());
        }
        Some(told)
    }

    /// Marks the near tiles of so many tiles; `None` where memory is refused.
    pub fn mark(self, alloc: Global, rounds: u32) -> Option<u32> {
        let tie = Form::Straight.tie(alloc)?;
        let grid = Grid::build(alloc, SIZE, self.side, &tie, self.limit, self.limit).ok()?;
        mark_rounds(alloc, &grid, rounds).ok()
    }
}

fn mark_rounds(alloc: Global, grid: &Grid, rounds: u32) -> Result<u32, OutOfMemory> {
    let mut marks = Marks::new(alloc, grid.tiles())?;
    for round in 0..rounds {
        mark_near(&mut marks, grid, round);
    }
    Ok(marks.count())
}

fn mark_near(marks: &mut Marks, grid: &Grid, round: u32)
    requires { length marks.old ≡ tiles_of grid.now }
    ensures { length marks.new ≡ length marks.old }
{
    let tiles = grid.tiles();
    if tiles > 0 {
        marks.mark_near(grid, round % tiles);
    }
}

/// Binds a blank paper of that size so many times, from scratch; `None` where memory is refused.
pub fn bind(alloc: Global, rounds: u32) -> Option<u32> {
    let tie = Form::Straight.tie(alloc)?;
    // The tie tells with its ends how many there can be.
    let _ = tie.ends();
    let design = design(tie, one_weave(alloc).ok()?, whole_casting(alloc)?);
    bind_rounds(alloc, &design, rounds).ok()
}

fn bind_rounds(alloc: Global, design: &Design, rounds: u32) -> Result<u32, OutOfMemory>
    requires fits { Fits design.now }
    requires colours { length design.now.book ≡ 1 }
{
    let paper = blank_paper(alloc, design.size)?;
    let mut told = 0u32;
    for _ in 0..rounds {
        let bits = bound(alloc, design, &paper)?;
        told = told.wrapping_add(bits.size().picks);
    }
    Ok(told)
}

fn design(tie: Tie, book: Book, casting: Casting) -> Design
    requires columns { tie.columns ≡ MAX_COLUMNS }
    requires tie { IsTie tie }
    requires book { length book ≡ 1 }
    requires casting { length casting.columns ≡ MAX_COLUMNS }
    requires hooks { casting.hooks ≡ MAX_COLUMNS }
    ensures fits { Fits result }
    ensures size { result.size ≡ record { columns = MAX_COLUMNS; picks = MAX_COLUMNS } }
    ensures colours { length result.book ≡ 1 }
{
    Design {
        size: SIZE,
        book,
        tie,
        casting,
        raise: Weave::Blank,
        sink: Weave::Blank,
        weft_face: ORDINARY,
        weft_back: ORDINARY,
        warp_face: ORDINARY,
        warp_back: ORDINARY,
        tile: DEFAULT_TILE,
    }
}

// A hook for each column.
fn whole_casting(alloc: Global) -> Option<Casting>
    ensures columns { IfSome result (λ casting. length casting.columns ≡ MAX_COLUMNS) }
    ensures hooks { IfSome result (λ casting. casting.hooks ≡ MAX_COLUMNS) }
{
    Casting::build(alloc, MAX_COLUMNS, &[], MAX_COLUMNS).ok()
}

fn one_weave(alloc: Global) -> Result<Book, OutOfMemory>
    ensures { IfOk result (λ b. length b ≡ 1) }
{
    let mut book = Book::new(alloc);
    book.add(Weave::Plain)?;
    Ok(book)
}

fn blank_paper(alloc: Global, size: Size) -> Result<Paper, OutOfMemory>
    ensures columns { IfOk result (λ p. p.columns ≡ size.columns) }
    ensures picks { IfOk result (λ p. p.picks ≡ size.picks) }
    ensures colours { IfOk result (λ p. (column pick : ℕ) → column < p.columns → pick < p.picks → cell_of p column pick ≡ 0) }
{
    Ok(Paper::blank(alloc, size, 0)?)
}
