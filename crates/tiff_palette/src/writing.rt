//! Writing an image as a file.
ghost use Rattle.std.specs.Prelude.{◌≡◌, ◌≤◌, ◌<◌, ◌+◌, ◌*◌, ◌++◌, ◌^◌, [], map, All, IfOk, OnOk};
ghost use Rattle.std.specs.List.{flat_map, range_with_len};
ghost use Rattle.byteorder.specs.Endian.{little_bytes};
ghost use Rattle.mill_base.specs.declared.limits.TheConstants.{MAX_CLOTH_CELLS};
ghost use Rattle.tiff_palette.specs.declared.image.PaletteImage.{PaletteImage};
ghost use Rattle.tiff_palette.specs.Images.{Image};
ghost use Rattle.tiff_palette.specs.Layouts.{strips_of, strip_bytes};
ghost use Rattle.tiff_palette.specs.Written.{IsWritable, counts_value as value_of_counts, entry_bytes, head_of, lists_of, pixels_place as place_of_pixels, tiff_of, written_layout as layout_of_image, written_offset};
ghost use Rattle.tiff_palette.specs.inner.Sizes.{IsCut};

use crate::entry::{LONG, RATIONAL, SHORT};
use crate::image::PaletteImage;
use crate::layout::Layout;
use crate::tags::{
    BITS_PER_SAMPLE, COLOR_MAP, COMPRESSION, IMAGE_LENGTH, IMAGE_WIDTH, PHOTOMETRIC_INTERPRETATION,
    RESOLUTION_UNIT, ROWS_PER_STRIP, STRIP_BYTE_COUNTS, STRIP_OFFSETS, X_RESOLUTION, Y_RESOLUTION,
};
use byteorder::{ByteOrder, LittleEndian};
use mill_base::limits::{MAX_COLOURS, MAX_COLUMNS, MAX_ENDS, MAX_PICKS};
use mill_base::memory::OutOfMemory;
use std::alloc::Global;

/// The bytes of a strip but for the last, at the most, unless one row has more.
pub const STRIP_SIZE: u32 = 8192;
/// Where the directory stands.
pub const DIRECTORY: u32 = 8;
/// Where the resolution along a row stands.
pub const X_RESOLUTION_VALUE: u32 = 158;
/// Where the resolution along a column stands.
pub const Y_RESOLUTION_VALUE: u32 = 166;
/// Where the colour map stands.
pub const COLOURS: u32 = 174;
/// Where the lists of strips stand, or the one strip.
pub const LISTS: u32 = 1710;

/// The file of an image, in one vector of its size. (TIFF 6.0; the layout is this project's own.)
#[tactic(auto, unfolding(crate::specs::Written::tiff_of), using(crate::proofs::Pushes::strips_few))]
pub fn write(alloc: Global, image: &PaletteImage) -> Result<Vec<u8>, OutOfMemory>
    requires { IsWritable image.now }
    ensures file { IfOk result (λ v. v.items ≡ tiff_of image.now) }
    ensures same { IfOk result (λ v. image.now.width ≤ MAX_COLUMNS → Image v.items image.now) }
    ensures alone { IfOk result (λ v. image.now.width ≤ MAX_COLUMNS → (other : PaletteImage) → Image v.items other → other ≡ image.now) }
{
    let layout = written_layout(image);
    let strips = layout.strips();
    let colours = image.colour_map.as_slice();
    let mut out = Vec::with_capacity(alloc, pixels_place(strips) + image.pixels.len())?;
    push_head(&mut out, &layout, strips)?;
    push_colours(&mut out, colours)?;
    push_lists(&mut out, &layout, strips)?;
    out.extend_from_slice(image.pixels.as_slice())?;
    Ok(out)
}

fn written_layout(image: &PaletteImage) -> Layout
    requires { IsWritable image.now }
    ensures layout { result ≡ layout_of_image image.now }
    ensures cut { IsCut result }
{
    Layout {
        width: image.width,
        height: image.height,
        bits: 8,
        rows_per_strip: (STRIP_SIZE / image.width).max(1),
    }
}

// Where the pixels begin.
fn pixels_place(strips: u32) -> usize
    requires { strips ≤ MAX_PICKS }
    ensures { result ≡ place_of_pixels strips }
{
    if strips == 1 {
        return LISTS as usize;
    }
    LISTS as usize + 8 * strips as usize
}

// What the entry of the strips' counts of bytes holds: the count of one strip, or where those of several stand.
fn counts_value(strips: u32, bytes: u32) -> u32
    requires { strips ≤ MAX_PICKS }
    ensures { result ≡ value_of_counts strips bytes }
{
    if strips == 1 {
        return bytes;
    }
    LISTS + 4 * strips
}

fn push_short(out: &mut Vec<u8>, number: u16) -> Result<(), OutOfMemory>
    ensures { OnOk result (out.new.items ≡ out.old.items ++ little_bytes 2 number) }
{
    let mut bytes = [0u8; 2];
    LittleEndian::write_u16(&mut bytes, number);
    out.extend_from_slice(&bytes)?;
    Ok(())
}

fn push_long(out: &mut Vec<u8>, number: u32) -> Result<(), OutOfMemory>
    ensures { OnOk result (out.new.items ≡ out.old.items ++ little_bytes 4 number) }
{
    let mut bytes = [0u8; 4];
    LittleEndian::write_u32(&mut bytes, number);
    out.extend_from_slice(&bytes)?;
    Ok(())
}

fn push_entry(
    out: &mut Vec<u8>,
    tag: u16,
    kind: u16,
    count: u32,
    value: u32,
) -> Result<(), OutOfMemory>
    ensures { OnOk result (out.new.items ≡ out.old.items ++ entry_bytes tag kind count value) }
{
    push_short(out, tag)?;
    push_short(out, kind)?;
    push_long(out, count)?;
    push_long(out, value)
}

#[tactic(auto, unfolding(crate::specs::Written::head_of))]
fn push_head(out: &mut Vec<u8>, layout: &Layout, strips: u32) -> Result<(), OutOfMemory>
    requires empty { out.old.items ≡ [] }
    requires strips { strips ≤ MAX_PICKS }
    requires cut { IsCut layout.now }
    ensures { OnOk result (out.new.items ≡ head_of layout.now strips) }
{
    let bytes = layout.width * layout.height;
    out.extend_from_slice(b"II")?;
    push_short(out, 42)?;
    push_long(out, DIRECTORY)?;
    push_short(out, 12)?;
    push_entry(out, IMAGE_WIDTH, LONG, 1, layout.width)?;
    push_entry(out, IMAGE_LENGTH, LONG, 1, layout.height)?;
    push_entry(out, BITS_PER_SAMPLE, SHORT, 1, 8)?;
    push_entry(out, COMPRESSION, SHORT, 1, 1)?;
    push_entry(out, PHOTOMETRIC_INTERPRETATION, SHORT, 1, 3)?;
    push_entry(out, STRIP_OFFSETS, LONG, strips, LISTS)?;
    push_entry(out, ROWS_PER_STRIP, LONG, 1, layout.rows_per_strip)?;
    push_entry(
        out,
        STRIP_BYTE_COUNTS,
        LONG,
        strips,
        counts_value(strips, bytes),
    )?;
    push_entry(out, X_RESOLUTION, RATIONAL, 1, X_RESOLUTION_VALUE)?;
    push_entry(out, Y_RESOLUTION, RATIONAL, 1, Y_RESOLUTION_VALUE)?;
    push_entry(out, RESOLUTION_UNIT, SHORT, 1, 2)?;
    push_entry(out, COLOR_MAP, SHORT, 3 * MAX_COLOURS, COLOURS)?;
    push_long(out, 0)?;
    push_long(out, 72)?;
    push_long(out, 1)?;
    push_long(out, 72)?;
    push_long(out, 1)
}

#[tactic(auto, using(crate::proofs::Pushes::taken_more))]
fn push_colours(out: &mut Vec<u8>, colours: &[u16]) -> Result<(), OutOfMemory>
    ensures numbers { OnOk result (out.new.items ≡ out.old.items ++ flat_map (little_bytes 2) colours.now) }
    ensures short { OnOk result (All (λ n. n < 2 ^ 16) colours.now) }
{
    for colour in colours {
        push_short(out, *colour)?;
    }
    Ok(())
}

#[tactic(auto, unfolding(crate::specs::Written::lists_of))]
fn push_lists(out: &mut Vec<u8>, layout: &Layout, strips: u32) -> Result<(), OutOfMemory>
    requires strips { strips ≡ strips_of layout.now }
    requires cut { IsCut layout.now }
    ensures { OnOk result (out.new.items ≡ out.old.items ++ lists_of layout.now) }
{
    if strips == 1 {
        return Ok(());
    }
    push_offsets(out, layout, strips)?;
    push_counts(out, layout, strips)
}

#[tactic(auto, using(crate::proofs::Pushes::mapped_more))]
fn push_offsets(out: &mut Vec<u8>, layout: &Layout, strips: u32) -> Result<(), OutOfMemory>
    requires strips { strips ≡ strips_of layout.now }
    requires cut { IsCut layout.now }
    ensures { OnOk result (out.new.items ≡ out.old.items ++ flat_map (little_bytes 4) (map (written_offset layout.now) (range_with_len 0 strips))) }
{
    for strip in 0..strips {
        push_long(out, strip_offset(layout, strips, strip))?;
    }
    Ok(())
}

#[tactic(auto, unfolding(crate::specs::Written::written_offset))]
fn strip_offset(layout: &Layout, strips: u32, strip: u32) -> u32
    requires strips { strips ≡ strips_of layout.now }
    requires there { strip < strips }
    requires cut { IsCut layout.now }
    ensures { result ≡ written_offset layout.now strip }
{
    let above = strip * layout.rows_per_strip;
    pixels_place(strips) as u32 + above * layout.width
}

#[tactic(auto, using(crate::proofs::Pushes::mapped_more))]
fn push_counts(out: &mut Vec<u8>, layout: &Layout, strips: u32) -> Result<(), OutOfMemory>
    requires cut { IsCut layout.now }
    ensures { OnOk result (out.new.items ≡ out.old.items ++ flat_map (little_bytes 4) (map (strip_bytes layout.now) (range_with_len 0 strips))) }
{
    for strip in 0..strips {
        push_long(out, layout.strip_bytes(strip) as u32)?;
    }
    Ok(())
}
