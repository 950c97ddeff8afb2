//! Sets of the sixteen tiles of a small paper, told by hand, and of as many tiles as a paper can have.
ghost use Rattle.std.specs.Prelude.{◌≡◌, ◌<◌, length};
ghost use Rattle.tile_grid.specs.Tiles.{tiles as tiles_of};

use crate::expect::expect;
use harness_ties::fault::TieFault;
use harness_ties::tie::Tie;
use mill_base::memory::OutOfMemory;
use mill_base::size::Size;
use std::alloc::Global;
use std::test::Fail;
use tile_grid::grid::Grid;
use tile_marks::marks::Marks;

const TILES: u32 = 16;

/// Sixteen columns and picks in tiles of side 4, under the straight tie, with both limits 1.
fn small_grid(alloc: Global) -> Result<Grid, TieFault> {
    let size = Size {
        columns: 16,
        picks: 16,
    };
    let tie = Tie::build(alloc, &[], size.columns)?;
    let grid = Grid::build(alloc, size, 4, &tie, 1, 1)?;
    Ok(grid)
}

/// The tiles of a set of sixteen, rising.
fn members(alloc: Global, marks: &Marks) -> Result<Vec<u32>, OutOfMemory>
    requires { length marks.now ≡ TILES }
{
    let mut members = Vec::new(alloc);
    for tile in 0..TILES {
        if marks.has(tile) {
            members.push(tile)?;
        }
    }
    Ok(members)
}

/// Marks the near tiles of each of some tiles.
fn mark_all(grid: &Grid, marks: &mut Marks, tiles: &[u32])
    requires grid { tiles_of grid.now ≡ TILES }
    requires marks { length marks.old ≡ TILES }
    ensures { length marks.new ≡ TILES }
{
    for tile in tiles {
        if *tile < TILES {
            marks.mark_near(grid, *tile);
        }
    }
}

/// The tiles near some tiles, rising.
fn near(alloc: Global, grid: &Grid, tiles: &[u32]) -> Result<Vec<u32>, OutOfMemory> {
    if grid.tiles() != TILES {
        return Ok(Vec::new(alloc));
    }
    let mut marks = Marks::new(alloc, TILES)?;
    mark_all(grid, &mut marks, tiles);
    members(alloc, &marks)
}

#[test]
fn a_painted_cell_marks_the_near_tiles_and_those_near_them(rt: HostRuntime) -> Result<(), Fail> {
    let alloc = rt.alloc();
    let grid = small_grid(alloc)?;
    let bound = near(alloc, &grid, &[5])?;
    expect(
        &rt,
        bound.as_slice() == [1, 4, 5, 6, 9].as_slice(),
        "to be bound",
    );
    let checked = near(alloc, &grid, &bound)?;
    let wanted = [0, 1, 2, 4, 5, 6, 7, 8, 9, 10, 13];
    expect(
        &rt,
        checked.as_slice() == wanted.as_slice(),
        "to be checked",
    );
    Ok(())
}

/// The first mark of a set of so many tiles of which the last is marked, from 0 on and from the end on.
fn last_found(alloc: Global, tiles: u32) -> Result<(Option<u32>, Option<u32>), OutOfMemory>
    requires { 0 < tiles }
{
    let mut marks = Marks::new(alloc, tiles)?;
    marks.mark(tiles - 1);
    Ok((marks.next(0), marks.next(tiles)))
}

#[test]
fn the_last_of_the_most_tiles_is_found(rt: HostRuntime) -> Result<(), Fail> {
    let found = last_found(rt.alloc(), 2_097_152)?;
    expect(
        &rt,
        found == (Some(2_097_151), Some(2_097_151)),
        "last tile",
    );
    Ok(())
}
