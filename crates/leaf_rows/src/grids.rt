//! Near tiles counted out by hand: round both edges, through ties that bring far columns together, on papers that tiles do not divide.

use crate::expect::expect;
use harness_ties::fault::TieFault;
use harness_ties::section::{Section, SectionKind};
use harness_ties::tie::Tie;
use mill_base::limits::{MAX_COLUMNS, MAX_FLOAT, MAX_PICKS, MAX_TILE, MIN_TILE};
use mill_base::memory::OutOfMemory;
use mill_base::size::Size;
use std::alloc::Global;
use std::test::Fail;
use tile_grid::grid::Grid;

/// A section: its kind, its first and last column, and how many rounds it has.
type Part = (SectionKind, u32, u32, u32);

/// The columns and picks of a paper, the side of a tile, the weft limit and the warp limit.
type Sizes = (u32, u32, u32, u32, u32);

const STRAIGHT: SectionKind = SectionKind::Straight;

const POINTED: SectionKind = SectionKind::Pointed;

fn sections_of(alloc: Global, parts: &[Part]) -> Result<Vec<Section>, OutOfMemory> {
    let mut sections = Vec::new(alloc);
    for (kind, from, to, times) in parts {
        sections.push(Section {
            kind: *kind,
            from: *from,
            to: *to,
            times: *times,
        })?;
    }
    Ok(sections)
}

/// The near tiles of a tile.
fn near_of(alloc: Global, parts: &[Part], sizes: Sizes, tile: u32) -> Result<Vec<u32>, TieFault> {
    let (columns, picks, side, weft, warp) = sizes;
    if columns < 1 || MAX_COLUMNS < columns || picks < 1 || MAX_PICKS < picks {
        return Ok(Vec::new(alloc));
    }
    if side < MIN_TILE
        || MAX_TILE < side
        || weft < 1
        || MAX_FLOAT < weft
        || warp < 1
        || MAX_FLOAT < warp
    {
        return Ok(Vec::new(alloc));
    }
    let tie = Tie::build(alloc, &sections_of(alloc, parts)?, columns)?;
    let grid = Grid::build(alloc, Size { columns, picks }, side, &tie, weft, warp)?;
    Ok(listed(alloc, &grid, tile)?)
}

fn listed(alloc: Global, grid: &Grid, tile: u32) -> Result<Vec<u32>, OutOfMemory> {
    let mut near = Vec::new(alloc);
    if tile < grid.tiles() {
        for k in 0..grid.near_count(tile) {
            near.push(grid.near_at(tile, k))?;
        }
    }
    Ok(near)
}

#[test]
fn near_tiles_stand_round_both_edges_and_through_the_tie(rt: HostRuntime) -> Result<(), Fail> {
    const ONCE: &[Part] = &[];
    const BACK: &[Part] = &[(POINTED, 0, 15, 1)];
    const FAR: &[Part] = &[(STRAIGHT, 0, 15, 1), (STRAIGHT, 8, 8, 1)];
    const CASES: [(&[Part], Sizes, u32, &[u32]); 11] = [
        (ONCE, (16, 16, 4, 1, 1), 5, &[1, 4, 5, 6, 9]),
        (ONCE, (16, 16, 4, 1, 1), 0, &[0, 1, 3, 4, 12]),
        (ONCE, (16, 16, 4, 5, 1), 5, &[1, 4, 5, 6, 7, 9]),
        (ONCE, (16, 16, 4, 1, 5), 5, &[1, 4, 5, 6, 9, 13]),
        (ONCE, (16, 16, 4, 255, 255), 5, &[1, 4, 5, 6, 7, 9, 13]),
        (ONCE, (18, 10, 4, 1, 1), 4, &[0, 3, 4, 9, 14]),
        (BACK, (16, 16, 4, 1, 1), 0, &[0, 1, 4, 12]),
        (FAR, (16, 16, 4, 1, 1), 0, &[0, 1, 2, 4, 12]),
        (FAR, (16, 16, 4, 1, 1), 2, &[0, 1, 2, 3, 6, 14]),
        (ONCE, (3, 2, 4, 255, 255), 0, &[0]),
        (ONCE, (200, 130, 64, 8, 2), 0, &[0, 1, 3, 4, 8]),
    ];
    for (parts, sizes, tile, want) in CASES {
        expect(
            &rt,
            near_of(rt.alloc(), parts, sizes, tile)?.as_slice() == want,
            "near tiles",
        );
    }
    Ok(())
}

#[test]
fn the_largest_paper_in_the_smallest_tiles(rt: HostRuntime) -> Result<(), Fail> {
    const STRAIGHT_TIE: &[Part] = &[(STRAIGHT, 0, 4095, 4)];
    let near = near_of(rt.alloc(), STRAIGHT_TIE, (4096, 8192, 4, 255, 255), 0)?;
    expect(&rt, near.len() == 257 && near.first() == Some(&0), "first");
    expect(&rt, near.last() == Some(&2_096_128), "last");
    Ok(())
}
