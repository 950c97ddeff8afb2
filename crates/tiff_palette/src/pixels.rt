//! The pixels of a file.
ghost use Rattle.std.specs.Prelude.{◌≡◌, ◌≤◌, ◌<◌, ◌+◌, ◌*◌, ◌/◌, ◌++◌, ℕ, length, slice_index, OnOk, IfOk};
ghost use Rattle.tiff_palette.specs.Layouts.{row_bytes};
ghost use Rattle.tiff_palette.specs.Pixels.{nibble, row_place};
ghost use Rattle.tiff_palette.specs.inner.Drawings.{HasRows, row_at};

use crate::layout::Layout;
use crate::strips::Strips;
use mill_base::limits::MAX_COLUMNS;
use mill_base::memory::OutOfMemory;
use std::alloc::Global;

/// All rows, the top row first.
pub fn read_pixels(alloc: Global, strips: &Strips<'_>) -> Result<Vec<u8>, OutOfMemory>
    ensures { IfOk result (λ v. HasRows strips.now.layout strips.now.offsets.bytes.now strips.now.layout.height v.items) }
{
    let layout = strips.layout;
    let mut pixels = Vec::with_capacity(alloc, layout.width as usize * layout.height as usize)?;
    let mut room = [0u8; MAX_COLUMNS as usize];
    for y in 0..layout.height {
        let place = row_start(strips, y);
        push_row(&mut pixels, &layout, strips.offsets.bytes, place, &mut room)?;
    }
    Ok(pixels)
}

// Where row y lies.
#[tactic(auto, unfolding(crate::specs::Pixels::row_place), using(crate::proofs::Places::value_is))]
fn row_start(strips: &Strips<'_>, y: u32) -> usize
    requires { y < strips.now.layout.height }
    ensures place { result ≡ row_place strips.now.layout strips.now.offsets.bytes.now y }
    ensures there { result + row_bytes strips.now.layout ≤ length strips.now.offsets.bytes.now }
{
    let layout = strips.layout;
    let first = strips.offsets.get((y / layout.rows_per_strip) as usize) as usize;
    first + (y % layout.rows_per_strip) as usize * layout.row_bytes()
}

// Adds the row that begins at a place. Pixels of 4 bits are first unpacked in the room of one row.
fn push_row(
    pixels: &mut Vec<u8>,
    layout: &Layout,
    bytes: &[u8],
    place: usize,
    room: &mut [u8],
) -> Result<(), OutOfMemory>
    requires wide { layout.now.width ≤ MAX_COLUMNS }
    requires room { length room.old ≡ MAX_COLUMNS }
    requires there { place + row_bytes layout.now ≤ length bytes.now }
    ensures { OnOk result (pixels.new.items ≡ pixels.old.items ++ row_at layout.now bytes.now place) }
{
    let row = &bytes[place..place + layout.row_bytes()];
    if layout.bits == 8 {
        pixels.extend_from_slice(row)?;
        return Ok(());
    }
    let room = &mut room[..layout.width as usize];
    unpack(row, room);
    pixels.extend_from_slice(room)?;
    Ok(())
}

// Puts the pixels of a row of 4 bits one by one.
fn unpack(row: &[u8], out: &mut [u8])
    requires { (length out.old + 1) / 2 ≤ length row.now }
    ensures { (x : ℕ) → x < length out.old → slice_index out.new x ≡ nibble (slice_index row.now (x / 2)) x }
{
    let pairs = out.len() / 2;
    for k in 0..pairs {
        let byte = row[k];
        out[2 * k] = byte / 16;
        out[2 * k + 1] = byte % 16;
    }
    if out.len() % 2 == 1 {
        out[2 * pairs] = row[pairs] / 16;
    }
}
