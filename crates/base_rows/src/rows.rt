//! Rows written out by hand, and the greatest rows and grids.
ghost use Rattle.std.specs.Prelude.{◌≡◌, ◌<◌, length, IfOk};

use crate::expect::expect;
use mill_base::bit_grid::BitGrid;
use mill_base::bit_row::BitRow;
use mill_base::limits::{MAX_COLUMNS, MAX_PICKS};
use mill_base::memory::OutOfMemory;
use std::alloc::Global;
use std::test::Fail;

/// A row of at most 64 positions.
fn row_of(alloc: Global, len: u32, word: u64) -> Result<BitRow, OutOfMemory>
    requires { 0 < len }
    ensures { IfOk result (λ row. length row ≡ len) }
{
    let mut row = BitRow::new(alloc, len)?;
    row.put_word(0, word);
    Ok(row)
}

/// Whether the nine positions are packed into the two bytes, and read from them again.
fn is_packed(alloc: Global, word: u64, bytes: [u8; 2]) -> Result<bool, OutOfMemory> {
    let row = row_of(alloc, 9, word)?;
    let mut packed = [0xffu8; 2];
    row.pack(&mut packed);
    let mut read = BitRow::new(alloc, 9)?;
    read.unpack(&bytes);
    Ok(packed == bytes && read.equals(&row))
}

#[test]
fn the_first_of_eight_positions_stands_in_the_high_bit(rt: HostRuntime) -> Result<(), Fail> {
    // position k of the row is bit k of the word
    const ROWS: [(u64, [u8; 2]); 4] = [
        (0b01, [0x80, 0x00]),
        (0b10, [0x40, 0x00]),
        (0b1_1111, [0xf8, 0x00]),
        (0x180, [0x01, 0x80]),
    ];
    for (word, bytes) in ROWS {
        expect(&rt, is_packed(rt.alloc(), word, bytes)?, "packed");
    }
    Ok(())
}

/// A row of three positions, turned by one.
fn turned(alloc: Global, word: u64) -> Result<BitRow, OutOfMemory> {
    let row = row_of(alloc, 3, word)?;
    let mut out = BitRow::new(alloc, 3)?;
    row.rotate_into(1, &mut out);
    Ok(out)
}

#[test]
fn a_row_is_turned_round_its_end(rt: HostRuntime) -> Result<(), Fail> {
    let wanted = row_of(rt.alloc(), 3, 0b101)?;
    expect(
        &rt,
        turned(rt.alloc(), 0b011)?.equals(&wanted),
        "011 by one",
    );
    Ok(())
}

/// How many positions are true of a filled row, and of its copy.
fn filled(alloc: Global, len: u32) -> Result<(u32, u32), OutOfMemory> {
    let mut row = BitRow::new(alloc, len)?;
    row.fill(true);
    Ok((row.count(), row.copy()?.count()))
}

/// The first true position of the row that the last column becomes, of a grid of which the last column's row 7 alone is true.
fn last_column(alloc: Global, width: u32, height: u32) -> Result<Option<u32>, OutOfMemory>
    requires width { 0 < width }
    requires height { 7 < height }
{
    let mut grid = BitGrid::new(alloc, width, height)?;
    grid.set(width - 1, 7, true);
    let mut turned = BitGrid::new(alloc, height, width)?;
    grid.copy()?.transpose_into(&mut turned);
    Ok(turned.row(width - 1).next_true(0))
}

#[test]
fn the_greatest_rows_and_grids_find_memory(rt: HostRuntime) -> Result<(), Fail> {
    let alloc = rt.alloc();
    expect(
        &rt,
        filled(alloc, 1_048_577)? == (1_048_577, 1_048_577),
        "row",
    );
    expect(
        &rt,
        last_column(alloc, MAX_COLUMNS, MAX_PICKS)? == Some(7),
        "grid",
    );
    Ok(())
}
