//! The bound cells of a tile, from the colours of the lines that cross it, and whether a cell of it is long, from their bits. Nothing
//! here takes memory.
ghost use Rattle.std.specs.Prelude.{◌≡◌, ◌≢◌, ℕ, ◌+◌, ◌<◌, ◌≤◌, Bool, All, false, length, slice_index, slice_index_or};
ghost use Rattle.mill_base.specs.Below.{any_below};
ghost use Rattle.mill_base.specs.Grids.{grid_cell, grid_row};
ghost use Rattle.weave_book.specs.Books.{colour_mark};
ghost use Rattle.weave_book.specs.Weaves.{mark};
ghost use Rattle.binder_marks.specs.Bound.{bound_cell};
ghost use Rattle.draft_model.specs.Designs.{Fits};
ghost use Rattle.tile_grid.specs.Tiles.{tiles};
ghost use Rattle.tile_rebuild.specs.Lines.{HaveBitRoom, HaveColourRoom};
ghost use Rattle.tile_rebuild.specs.Rebuilds.{AreBound, AreRows, HaveWeaves, IsFlag, IsRoom, IsTileRoom};
ghost use Rattle.tile_rebuild.specs.Tiles.{IsInside, grid_of, part_at, parts_of};
ghost use Rattle.tile_rebuild.specs.inner.Cells.{AreBoundBy, AreColumnsLong, AreRowsLong, is_long_in, raw_along, raw_up};

use crate::bit_lines::BitLines;
use crate::colour_lines::ColourLines;
use crate::long_cells::{mark_column, mark_columns, mark_pick, turn};
use crate::part::{Part, part_of};
use crate::room::{BindRows, Room};
use binder_marks::bind_line;
use draft_model::design::Design;
use mill_base::bit_grid::BitGrid;
use mill_base::bit_row::BitRow;
use weave_book::book::Book;

/// Sets the cells of a tile to its bound cells in every paper of the design that has these lines.
pub fn bind_tile(
    design: &Design,
    tile: u32,
    lines: &ColourLines,
    rows: &mut BindRows,
    room: &mut Room,
    cells: &mut BitGrid,
)
    requires fits { Fits design.now }
    requires tile { tile < tiles (grid_of design.now) }
    requires lines { HaveColourRoom design.now.size.columns design.now.size.picks (part_at (grid_of design.now) tile) lines.now.picks.items lines.now.columns.items }
    requires weaves { HaveWeaves (parts_of design.now) (part_at (grid_of design.now) tile) lines.now.picks.items lines.now.columns.items }
    requires rows { AreRows (parts_of design.now) rows.old }
    requires room { IsRoom (parts_of design.now) room.old }
    requires cells { IsTileRoom (parts_of design.now) cells.old }
    ensures bound { AreBound design.now tile lines.now.picks.items lines.now.columns.items cells.new }
    ensures rows { AreRows (parts_of design.now) rows.new }
    ensures room { IsRoom (parts_of design.now) room.new }
    ensures cells { IsTileRoom (parts_of design.now) cells.new }
{
    design.tie.ends();
    draft_model::laws::two_lines_decide_a_cell();
    let part = part_of(design, tile);
    mark_colours(design, part, lines, rows, room);
    turn(design, part, room);
    bind_picks(design, part, lines, rows, room, cells);
}

/// Whether a cell of a tile is long in every bit paper of the design that has these lines.
pub fn check_tile(design: &Design, tile: u32, lines: &BitLines, room: &mut Room) -> bool
    requires fits { Fits design.now }
    requires tile { tile < tiles (grid_of design.now) }
    requires lines { HaveBitRoom design.now.size.columns design.now.size.picks (part_at (grid_of design.now) tile) lines.now.picks lines.now.columns }
    requires room { IsRoom (parts_of design.now) room.old }
    ensures flag { IsFlag design.now tile lines.now.picks lines.now.columns result }
    ensures room { IsRoom (parts_of design.now) room.new }
{
    design.tie.ends();
    draft_model::laws::two_lines_decide_a_cell();
    let part = part_of(design, tile);
    mark_columns(design, part, &lines.columns, room);
    any_long(design, part, &lines.picks, room)
}

// Whether a cell of the part is long, where it is known where its columns are.
fn any_long(design: &Design, part: Part, picks: &BitGrid, room: &mut Room) -> bool
    requires fits { Fits design.now }
    requires part { IsInside design.now.size.columns design.now.size.picks part }
    requires wide { part.width ≤ design.now.tile }
    requires high { part.height ≤ design.now.tile }
    requires columns { picks.now.width ≡ design.now.size.columns }
    requires picks { part.height ≤ length picks.now.rows }
    requires room { IsRoom (parts_of design.now) room.old }
    ensures any { (up : ℕ → ℕ → Bool) → AreColumnsLong design.now part up room.old.hits
        → result ≡ any_below (λ b. any_below (λ a. is_long_in design.now part (λ j x. grid_cell picks.now x j) up a b) part.width) part.height }
    ensures room { IsRoom (parts_of design.now) room.new }
{
    for b in 0..part.height {
        mark_pick(design, part, picks.row(b), b, room);
        if has_true(&room.long, part.column, part.width) {
            return true;
        }
    }
    false
}

// Whether some of so many positions is true.
fn has_true(row: &BitRow, from: u32, count: u32) -> bool
    requires { from + count ≤ length row.now }
    ensures { result ≡ any_below (λ a. slice_index_or row.now (from + a) false) count }
{
    match row.next_true(from) {
        Some(k) => k - from < count,
        None => false,
    }
}

// Sets where the part's columns are long, column by column, by the raw cells of lines of colours.
fn mark_colours(
    design: &Design,
    part: Part,
    lines: &ColourLines,
    rows: &mut BindRows,
    room: &mut Room,
)
    requires fits { Fits design.now }
    requires part { IsInside design.now.size.columns design.now.size.picks part }
    requires wide { part.width ≤ design.now.tile }
    requires high { part.height ≤ design.now.tile }
    requires lines { HaveColourRoom design.now.size.columns design.now.size.picks part lines.now.picks.items lines.now.columns.items }
    requires weaves { HaveWeaves (parts_of design.now) part lines.now.picks.items lines.now.columns.items }
    requires rows { AreRows (parts_of design.now) rows.old }
    requires room { IsRoom (parts_of design.now) room.old }
    ensures rows { AreRows (parts_of design.now) rows.new }
    ensures room { IsRoom (parts_of design.now) room.new }
    ensures turned { AreRowsLong design.now part part.width (raw_up design.now part lines.now.columns.items) room.new.turned }
{
    for a in 0..part.width {
        read_column(design, part, lines, a, &mut rows.up);
        mark_column(design, part, &rows.up, a, room);
    }
}

// Binds the part's picks, where it is known where its columns are long.
fn bind_picks(
    design: &Design,
    part: Part,
    lines: &ColourLines,
    rows: &mut BindRows,
    room: &mut Room,
    cells: &mut BitGrid,
)
    requires fits { Fits design.now }
    requires part { IsInside design.now.size.columns design.now.size.picks part }
    requires wide { part.width ≤ design.now.tile }
    requires high { part.height ≤ design.now.tile }
    requires lines { HaveColourRoom design.now.size.columns design.now.size.picks part lines.now.picks.items lines.now.columns.items }
    requires weaves { HaveWeaves (parts_of design.now) part lines.now.picks.items lines.now.columns.items }
    requires rows { AreRows (parts_of design.now) rows.old }
    requires room { IsRoom (parts_of design.now) room.old }
    requires hits { AreColumnsLong design.now part (raw_up design.now part lines.now.columns.items) room.old.hits }
    requires cells { IsTileRoom (parts_of design.now) cells.old }
    ensures bound { AreBoundBy design.now part part.height (raw_along design.now part lines.now.picks.items) (raw_up design.now part lines.now.columns.items) cells.new }
    ensures rows { AreRows (parts_of design.now) rows.new }
    ensures room { IsRoom (parts_of design.now) room.new }
    ensures cells { IsTileRoom (parts_of design.now) cells.new }
{
    for b in 0..part.height {
        read_pick(design, part, lines, b, &mut rows.raw);
        mark_pick(design, part, &rows.raw, b, room);
        bind_pick(design, part, b, &room.long, rows, cells);
    }
}

// Binds one of the part's picks, from its raw cells in `rows` and from which of its columns are long.
fn bind_pick(
    design: &Design,
    part: Part,
    b: u32,
    long: &BitRow,
    rows: &mut BindRows,
    cells: &mut BitGrid,
)
    requires part { IsInside design.now.size.columns design.now.size.picks part }
    requires wide { part.width ≤ design.now.tile }
    requires pick { (b < part.height) × (b < design.now.tile) }
    requires long { length long.now ≡ design.now.size.columns }
    requires rows { AreRows (parts_of design.now) rows.old }
    requires cells { IsTileRoom (parts_of design.now) cells.old }
    ensures rows { AreRows (parts_of design.now) rows.new }
    ensures cells { IsTileRoom (parts_of design.now) cells.new }
    ensures here { (a : ℕ) → a < part.width
        → grid_cell cells.new a b
        ≡ bound_cell (slice_index_or rows.old.raw (part.column + a) false) (slice_index_or long.now (part.column + a) false)
        (mark design.now.raise (part.column + a) (part.pick + b)) (mark design.now.sink (part.column + a) (part.pick + b)) }
    ensures others { (j : ℕ) → j ≢ b → grid_row cells.new j ≡ grid_row cells.old j }
{
    let pick = part.pick + b;
    design.raise.put_row(pick, &mut rows.raise);
    design.sink.put_row(pick, &mut rows.sink);
    bind_line(&rows.raw, long, &rows.raise, &rows.sink, &mut rows.bound);
    rows.span
        .copy_range(0, &rows.bound, part.column, part.width);
    cells.set_row(b, &rows.span);
}

// The raw cells of one of the part's picks.
fn read_pick(design: &Design, part: Part, lines: &ColourLines, b: u32, out: &mut BitRow)
    requires part { IsInside design.now.size.columns design.now.size.picks part }
    requires pick { b < part.height }
    requires lines { HaveColourRoom design.now.size.columns design.now.size.picks part lines.now.picks.items lines.now.columns.items }
    requires weaves { HaveWeaves (parts_of design.now) part lines.now.picks.items lines.now.columns.items }
    requires out { length out.old ≡ design.now.size.columns }
    ensures len { length out.new ≡ design.now.size.columns }
    ensures cells { (x : ℕ) → x < design.now.size.columns → slice_index_or out.new x false ≡ raw_along design.now part lines.now.picks.items b x }
{
    let columns = design.size.columns as usize;
    let at = b as usize * columns;
    put_pick(
        &design.book,
        &lines.picks[at..at + columns],
        part.pick + b,
        out,
    );
}

// The raw cells of one of the part's columns.
fn read_column(design: &Design, part: Part, lines: &ColourLines, a: u32, out: &mut BitRow)
    requires part { IsInside design.now.size.columns design.now.size.picks part }
    requires column { a < part.width }
    requires lines { HaveColourRoom design.now.size.columns design.now.size.picks part lines.now.picks.items lines.now.columns.items }
    requires weaves { HaveWeaves (parts_of design.now) part lines.now.picks.items lines.now.columns.items }
    requires out { length out.old ≡ design.now.size.picks }
    ensures len { length out.new ≡ design.now.size.picks }
    ensures cells { (y : ℕ) → y < design.now.size.picks → slice_index_or out.new y false ≡ raw_up design.now part lines.now.columns.items a y }
{
    let picks = design.size.picks as usize;
    let at = a as usize * picks;
    put_column(
        &design.book,
        &lines.columns[at..at + picks],
        part.column + a,
        out,
    );
}

// Puts the marks of a pick into a row, where each column has a colour: position c has the mark of that colour's weave at column c.
pub(crate) fn put_pick(book: &Book, colours: &[u8], pick: u32, out: &mut BitRow)
    requires cells { length colours.now ≡ length out.old }
    requires colours { All (λ colour. colour < length book.now) colours.now }
    ensures len { length out.new ≡ length out.old }
    ensures marks { (x : ℕ) → x < length out.old → slice_index_or out.new x false ≡ colour_mark book.now (slice_index colours.now x) x pick }
{
    book.put_raw(colours, pick, out);
}

// Puts the marks of a column into a row, where each pick has a colour: position p has the mark of that colour's weave at pick p.
fn put_column(book: &Book, colours: &[u8], column: u32, out: &mut BitRow)
    requires cells { length colours.now ≡ length out.old }
    requires colours { All (λ colour. colour < length book.now) colours.now }
    ensures len { length out.new ≡ length out.old }
    ensures marks { (y : ℕ) → y < length out.old → slice_index_or out.new y false ≡ colour_mark book.now (slice_index colours.now y) column y }
{
    for pick in 0..out.len() {
        let weave = book.weave(colours[pick as usize]);
        out.set(pick, weave.mark(column, pick));
    }
}
