//! Grids of tiles.
ghost use Rattle.std.specs.Prelude.{◌≡◌, ◌<◌, length, IfOk};
ghost use Rattle.mill_base.specs.Below.{count_below};
ghost use Rattle.mill_base.specs.Limits.{IsWithin};
ghost use Rattle.mill_base.specs.Lines.{line_by};
ghost use Rattle.tile_grid.specs.Near.{IsNearAt, near, near_columns as columns_near, near_rows as rows_near};
ghost use Rattle.tile_grid.specs.Tiles.{IsTileGrid, across as across_of, down as down_of, tile_of as tile_of_cell, tiles as tiles_of};

use crate::crossing::nth_crossed;
use crate::kinds::{tile_columns, tile_rows};
use harness_ties::tie::Tie;
use mill_base::bit_grid::BitGrid;
use mill_base::bit_row::BitRow;
use mill_base::limits::{MAX_FLOAT, MAX_PICKS, MAX_TILE, MIN_TILE};
use mill_base::memory::OutOfMemory;
use mill_base::size::Size;
use std::alloc::Global;
use std::marker::Model;

/// The tiles of a paper, with the near tile columns of each tile column and the near tile rows of each tile row: a near
/// tile stands in one tile row with its tile, or in one tile column. Tiles are this project's own.
#[derive(Drop)]
pub struct Grid {
    size: Size,
    side: u32,
    columns_of_ends: Vec<u32>,
    weft_limit: u32,
    warp_limit: u32,
    near_columns: BitGrid,
    near_rows: BitGrid,
}

impl Model for Grid {
    ghost use Rattle.tile_grid.specs.Tiles.{GridValue, IsTileGrid, across, down};
    ghost use Rattle.tile_grid.specs.Near.{near_columns, near_rows};
    ghost use Rattle.tile_grid.specs.inner.Tables.{IsTable};

    ghost Value = { GridValue };

    ghost view = { λ g. record {
      columns = g.size.columns;
      picks = g.size.picks;
      side = g.side;
      tie = g.columns_of_ends.items;
      weft_limit = g.weft_limit;
      warp_limit = g.warp_limit;
    } };

    ghost use Rattle.tile_grid.specs.inner.Grids.{IsKept};

    ghost invariant = { λ g. IsKept (record {
      columns = g.size.columns;
      picks = g.size.picks;
      side = g.side;
      tie = g.columns_of_ends.items;
      weft_limit = g.weft_limit;
      warp_limit = g.warp_limit;
    }) g.near_columns g.near_rows };
}

impl Grid {
    /// The grid of the tiles of so many columns and picks of a paper, under a tie for its columns. The limits say how
    /// many ends along a pick, and how many picks along a column, a change can reach: the greater of the two weft
    /// limits, and of the two warp limits. The walk over ends and picks takes time by their number and by that of the
    /// tile columns and tile rows.
    pub fn build(
        alloc: Global,
        size: Size,
        tile: u32,
        tie: &Tie,
        weft_limit: u32,
        warp_limit: u32,
    ) -> Result<Grid, OutOfMemory>
        requires columns { size.columns ≡ tie.now.columns }
        requires picks { IsWithin 1 size.picks MAX_PICKS }
        requires tile { IsWithin MIN_TILE tile MAX_TILE }
        requires weft { IsWithin 1 weft_limit MAX_FLOAT }
        requires warp { IsWithin 1 warp_limit MAX_FLOAT }
        ensures { IfOk result (λ g. g ≡ record {
          columns = size.columns;
          picks = size.picks;
          side = tile;
          tie = tie.now.ends;
          weft_limit = weft_limit;
          warp_limit = warp_limit;
        }) }
    {
        let ends = tie.columns_of_ends();
        let near_columns = tile_columns(alloc, ends, size.columns, tile, weft_limit)?;
        let near_rows = tile_rows(alloc, size.picks, tile, warp_limit)?;
        let columns_of_ends = Vec::from_slice(alloc, ends)?;
        Ok(Grid {
            size,
            side: tile,
            columns_of_ends,
            weft_limit,
            warp_limit,
            near_columns,
            near_rows,
        })
    }

    /// How many tiles the paper has.
    pub fn tiles(&self) -> u32
        ensures count { result ≡ tiles_of self.now }
        ensures grid { IsTileGrid self.now }
    {
        self.near_columns.width() * self.near_rows.width()
    }

    /// How many tiles stand side by side.
    pub fn across(&self) -> u32
        ensures count { result ≡ across_of self.now }
        ensures grid { IsTileGrid self.now }
    {
        self.near_columns.width()
    }

    /// The tile that covers the cell in a column of a pick.
    pub fn tile_of(&self, column: u32, pick: u32) -> u32
        requires column { column < self.now.columns }
        requires pick { pick < self.now.picks }
        ensures tile { result ≡ tile_of_cell self.now column pick }
        ensures there { result < tiles_of self.now }
    {
        (pick / self.side) * self.near_columns.width() + column / self.side
    }

    /// Which tile columns are near a tile column.
    pub fn near_columns(&self, tile_column: u32) -> &BitRow
        requires { tile_column < across_of self.now }
        ensures row { result.now ≡ line_by (across_of self.now) (columns_near self.now tile_column) }
        ensures len { length result.now ≡ across_of self.now }
    {
        self.near_columns.row(tile_column)
    }

    /// Which tile rows are near a tile row.
    pub fn near_rows(&self, tile_row: u32) -> &BitRow
        requires { tile_row < down_of self.now }
        ensures row { result.now ≡ line_by (down_of self.now) (rows_near self.now tile_row) }
        ensures len { length result.now ≡ down_of self.now }
    {
        self.near_rows.row(tile_row)
    }

    /// How many tiles are near a tile.
    pub fn near_count(&self, tile: u32) -> u32
        requires { tile < tiles_of self.now }
        ensures { result ≡ count_below (near self.now tile) (tiles_of self.now) }
    {
        let across = self.across();
        let columns = self.near_columns(tile % across);
        let rows = self.near_rows(tile / across);
        columns.count() + rows.count() - 1
    }

    /// The k-th tile that is near a tile, counted from 0 in rising order.
    pub fn near_at(&self, tile: u32, k: u32) -> u32
        requires tile { tile < tiles_of self.now }
        requires k { k < count_below (near self.now tile) (tiles_of self.now) }
        ensures { IsNearAt self.now tile k result }
    {
        let across = self.across();
        let columns = self.near_columns(tile % across);
        let rows = self.near_rows(tile / across);
        nth_crossed(columns, rows, tile % across, tile / across, k)
    }
}
