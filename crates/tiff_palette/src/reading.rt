//! Reading a file, rule by rule.
ghost use Rattle.std.specs.Prelude.{◌≡◌, ◌≢◌, ◌≤◌, ◌<◌, ◌-◌, ◌^◌, ◌==◌, ◌||◌, nat_lt, [], true, Some, IfOk, IfErr, MatchResult};
ghost use Rattle.tiff_palette.specs.Fields.{is_whole, value_or};
ghost use Rattle.tiff_palette.specs.Images.{Image};
ghost use Rattle.tiff_palette.specs.Rules.{all_of, all_faults, image_fault, kind_rules, size_rules, optional};
ghost use Rattle.tiff_palette.specs.Written.{IsWritable};
ghost use Rattle.tiff_palette.specs.inner.Outcomes.{Reads, TellsFirst};

use crate::colour_map::read_map;
use crate::directory::Directory;
use crate::fault::TiffFault;
use crate::fields::expect;
use crate::image::PaletteImage;
use crate::layout::Layout;
use crate::palette::Palette;
use crate::pixels::read_pixels;
use crate::strip_check::check_strips;
use crate::strips::Strips;
use crate::tags::{
    BITS_PER_SAMPLE, COMPRESSION, FILL_ORDER, IMAGE_LENGTH, IMAGE_WIDTH, ORIENTATION,
    PHOTOMETRIC_INTERPRETATION, ROWS_PER_STRIP, SAMPLES_PER_PIXEL, STRIP_BYTE_COUNTS,
    STRIP_OFFSETS,
};
use mill_base::limits::{MAX_COLUMNS, MAX_PICKS};
use mill_base::listed::Listed;
use std::alloc::Global;

/// The image that a file is, or the first rule that the file breaks. The memory that is taken is that of the image,
/// whatever the file says. (TIFF 6.0; which of its images are taken is this project's own.)
pub fn read(alloc: Global, bytes: &[u8]) -> Result<PaletteImage, TiffFault>
    ensures image { IfOk result (λ image. Image bytes.now image) }
    ensures writable { IfOk result (λ image. IsWritable image) }
    ensures fault { IfErr result (λ fault. fault ≢ TiffFault.OutOfMemory → image_fault bytes.now ≡ Some fault) }
{
    let palette = palette_in(bytes)?;
    let pixels = read_pixels(alloc, &palette.strips)?;
    let colour_map = read_map(alloc, &palette)?;
    let layout = palette.strips.layout;
    Ok(PaletteImage {
        width: layout.width,
        height: layout.height,
        pixels: Listed::of(pixels),
        colour_map: Listed::of(colour_map),
    })
}

// The parts of a file that keeps every rule.
#[tactic(auto, unfolding(crate::specs::Rules::all_faults, crate::specs::Rules::content_rules, crate::specs::Layouts::layout_of), using(crate::proofs::Firsts::told_here, crate::proofs::Firsts::told_later))]
fn palette_in<'a>(bytes: &'a [u8]) -> Result<Palette<'a>, TiffFault>
    ensures { MatchResult result (λ p. (all_faults bytes.now ≡ []) × (p.strips.offsets.bytes.now ≡ bytes.now)) (TellsFirst (all_faults bytes.now)) }
{
    let directory = Directory::open(bytes)?;
    let bits = bits_in(&directory)?;
    let (width, height) = size_in(&directory)?;
    let colour_map = directory.colour_map(bits)?;
    let rows_per_strip = rows_in(&directory)?;
    let layout = Layout {
        width,
        height,
        bits,
        rows_per_strip,
    };
    let strips = layout.strips();
    let offsets = directory.strip_list(STRIP_OFFSETS, strips)?;
    let counts = directory.strip_list(STRIP_BYTE_COUNTS, strips)?;
    check_strips(&layout, &offsets, &counts)?;
    Ok(Palette {
        strips: Strips { layout, offsets },
        colour_map,
    })
}

// The bits of a pixel, in a file of the right kind.
#[tactic(auto, unfolding(crate::specs::Rules::kind_rules, crate::specs::Rules::optional, crate::specs::Rules::required), using(crate::proofs::Firsts::told_here, crate::proofs::Firsts::told_later))]
fn bits_in(directory: &Directory<'_>) -> Result<u16, TiffFault>
    ensures reads { Reads (all_of kind_rules directory.now.bytes.now) (value_or BITS_PER_SAMPLE 0 directory.now.bytes.now) result }
    ensures depth { IfOk result (λ n. (n == 4 || n == 8) ≡ true) }
{
    let compression = directory.short_or(COMPRESSION, 1)?;
    expect(compression == 1, TiffFault::Compressed(compression))?;
    let photometric = directory.short(PHOTOMETRIC_INTERPRETATION)?;
    expect(photometric == 3, TiffFault::Photometric(photometric))?;
    let bits = directory.short(BITS_PER_SAMPLE)?;
    expect(is_depth(bits), TiffFault::Bits(bits))?;
    let samples = directory.short_or(SAMPLES_PER_PIXEL, 1)?;
    expect(samples == 1, TiffFault::Samples(samples))?;
    let fill_order = directory.short_or(FILL_ORDER, 1)?;
    expect(fill_order == 1, TiffFault::FillOrder(fill_order))?;
    let orientation = directory.short_or(ORIENTATION, 1)?;
    expect(orientation == 1, TiffFault::Orientation(orientation))?;
    Ok(bits)
}

fn is_depth(bits: u16) -> bool
    ensures { result ≡ (bits == 4 || bits == 8) }
{
    bits == 4 || bits == 8
}

// The width and the height of the image.
#[tactic(auto, unfolding(crate::specs::Rules::size_rules, crate::specs::Rules::required, crate::specs::Layouts::layout_of), using(crate::proofs::Firsts::told_here, crate::proofs::Firsts::told_later))]
fn size_in(directory: &Directory<'_>) -> Result<(u32, u32), TiffFault>
    ensures reads { Reads (all_of size_rules directory.now.bytes.now) (value_or IMAGE_WIDTH 0 directory.now.bytes.now, value_or IMAGE_LENGTH 0 directory.now.bytes.now) result }
    ensures some { IfOk result (λ size. (0 < size.0) × (0 < size.1)) }
    ensures small { IfOk result (λ size. (size.0 ≤ MAX_COLUMNS) × (size.1 ≤ MAX_PICKS)) }
{
    let width = directory.whole(IMAGE_WIDTH)?;
    expect(width > 0, TiffFault::BadField(IMAGE_WIDTH))?;
    let height = directory.whole(IMAGE_LENGTH)?;
    expect(height > 0, TiffFault::BadField(IMAGE_LENGTH))?;
    if width > MAX_COLUMNS || height > MAX_PICKS {
        return Err(TiffFault::TooLarge);
    }
    Ok((width, height))
}

// How many rows a strip has.
#[tactic(auto, unfolding(crate::specs::Rules::optional), using(crate::proofs::Firsts::told_here, crate::proofs::Firsts::told_later))]
fn rows_in(directory: &Directory<'_>) -> Result<u32, TiffFault>
    ensures reads { Reads (optional ROWS_PER_STRIP is_whole (2 ^ 32 - 1) (nat_lt 0) (λ n. TiffFault.BadField ROWS_PER_STRIP) directory.now.bytes.now)
        (value_or ROWS_PER_STRIP (2 ^ 32 - 1) directory.now.bytes.now) result }
    ensures some { IfOk result (λ n. 0 < n) }
{
    let rows = directory.whole_or(ROWS_PER_STRIP, u32::MAX)?;
    expect(rows > 0, TiffFault::BadField(ROWS_PER_STRIP))?;
    Ok(rows)
}
