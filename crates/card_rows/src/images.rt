//! Files that are read, refused and written.
ghost use Rattle.std.specs.Prelude.{◌<◌, ◌*◌, ◌^◌};

use mill_base::listed::Listed;
use std::alloc::{AllocError, Global};
use std::test::Fail;
use tiff_palette::{PaletteImage, TiffFault, read, write};

// The header and the directory of a 3 by 2 image of 4 bits, little-endian.
const LITTLE: [u8; 122] = [
    0x49, 0x49, 0x2A, 0x00, 0x08, 0x00, 0x00, 0x00, 0x09, 0x00, 0x00, 0x01, 0x03, 0x00, 0x01, 0x00,
    0x00, 0x00, 0x03, 0x00, 0x00, 0x00, 0x01, 0x01, 0x03, 0x00, 0x01, 0x00, 0x00, 0x00, 0x02, 0x00,
    0x00, 0x00, 0x02, 0x01, 0x03, 0x00, 0x01, 0x00, 0x00, 0x00, 0x04, 0x00, 0x00, 0x00, 0x03, 0x01,
    0x03, 0x00, 0x01, 0x00, 0x00, 0x00, 0x01, 0x00, 0x00, 0x00, 0x06, 0x01, 0x03, 0x00, 0x01, 0x00,
    0x00, 0x00, 0x03, 0x00, 0x00, 0x00, 0x11, 0x01, 0x04, 0x00, 0x01, 0x00, 0x00, 0x00, 0xDA, 0x00,
    0x00, 0x00, 0x16, 0x01, 0x03, 0x00, 0x01, 0x00, 0x00, 0x00, 0x02, 0x00, 0x00, 0x00, 0x17, 0x01,
    0x04, 0x00, 0x01, 0x00, 0x00, 0x00, 0x04, 0x00, 0x00, 0x00, 0x40, 0x01, 0x03, 0x00, 0x30, 0x00,
    0x00, 0x00, 0x7A, 0x00, 0x00, 0x00, 0x00, 0x00, 0x00, 0x00,
];

// The same, big-endian.
const BIG: [u8; 122] = [
    0x4D, 0x4D, 0x00, 0x2A, 0x00, 0x00, 0x00, 0x08, 0x00, 0x09, 0x01, 0x00, 0x00, 0x03, 0x00, 0x00,
    0x00, 0x01, 0x00, 0x03, 0x00, 0x00, 0x01, 0x01, 0x00, 0x03, 0x00, 0x00, 0x00, 0x01, 0x00, 0x02,
    0x00, 0x00, 0x01, 0x02, 0x00, 0x03, 0x00, 0x00, 0x00, 0x01, 0x00, 0x04, 0x00, 0x00, 0x01, 0x03,
    0x00, 0x03, 0x00, 0x00, 0x00, 0x01, 0x00, 0x01, 0x00, 0x00, 0x01, 0x06, 0x00, 0x03, 0x00, 0x00,
    0x00, 0x01, 0x00, 0x03, 0x00, 0x00, 0x01, 0x11, 0x00, 0x04, 0x00, 0x00, 0x00, 0x01, 0x00, 0x00,
    0x00, 0xDA, 0x01, 0x16, 0x00, 0x03, 0x00, 0x00, 0x00, 0x01, 0x00, 0x02, 0x00, 0x00, 0x01, 0x17,
    0x00, 0x04, 0x00, 0x00, 0x00, 0x01, 0x00, 0x00, 0x00, 0x04, 0x01, 0x40, 0x00, 0x03, 0x00, 0x00,
    0x00, 0x30, 0x00, 0x00, 0x00, 0x7A, 0x00, 0x00, 0x00, 0x00,
];

// The head of the file that is written for 2 by 2 pixels.
const WRITTEN: [u8; 174] = [
    0x49, 0x49, 0x2A, 0x00, 0x08, 0x00, 0x00, 0x00, 0x0C, 0x00, // header, twelve entries
    0x00, 0x01, 0x04, 0x00, 0x01, 0x00, 0x00, 0x00, 0x02, 0x00, 0x00, 0x00, // width
    0x01, 0x01, 0x04, 0x00, 0x01, 0x00, 0x00, 0x00, 0x02, 0x00, 0x00, 0x00, // length
    0x02, 0x01, 0x03, 0x00, 0x01, 0x00, 0x00, 0x00, 0x08, 0x00, 0x00, 0x00, // bits
    0x03, 0x01, 0x03, 0x00, 0x01, 0x00, 0x00, 0x00, 0x01, 0x00, 0x00, 0x00, // compression
    0x06, 0x01, 0x03, 0x00, 0x01, 0x00, 0x00, 0x00, 0x03, 0x00, 0x00, 0x00, // photometric
    0x11, 0x01, 0x04, 0x00, 0x01, 0x00, 0x00, 0x00, 0xAE, 0x06, 0x00, 0x00, // offset
    0x16, 0x01, 0x04, 0x00, 0x01, 0x00, 0x00, 0x00, 0x00, 0x10, 0x00, 0x00, // rows of a strip
    0x17, 0x01, 0x04, 0x00, 0x01, 0x00, 0x00, 0x00, 0x04, 0x00, 0x00, 0x00, // bytes of the strip
    0x1A, 0x01, 0x05, 0x00, 0x01, 0x00, 0x00, 0x00, 0x9E, 0x00, 0x00, 0x00, // resolutions
    0x1B, 0x01, 0x05, 0x00, 0x01, 0x00, 0x00, 0x00, 0xA6, 0x00, 0x00, 0x00, 0x28, 0x01, 0x03, 0x00,
    0x01, 0x00, 0x00, 0x00, 0x02, 0x00, 0x00, 0x00, // of an inch
    0x40, 0x01, 0x03, 0x00, 0x00, 0x03, 0x00, 0x00, 0xAE, 0x00, 0x00, 0x00, // colour map
    0x00, 0x00, 0x00, 0x00, 0x48, 0x00, 0x00, 0x00, 0x01, 0x00, 0x00, 0x00, 0x48, 0x00, 0x00, 0x00,
    0x01, 0x00, 0x00, 0x00,
];

const BYTE: u16 = 1;

const SHORT: u16 = 3;

const LONG: u16 = 4;

/// An entry by its tag, type, count, and what stands in its last four bytes: two SHORTs, the first in the lower half,
/// or a LONG.
type Row = (u16, u16, u32, u32);

// The entries of a 3 by 2 image of 4 bits whose map stands at 8 and whose strip stands at 104.
const ENTRIES: [Row; 9] = [
    (256, SHORT, 1, 3),
    (257, SHORT, 1, 2),
    (258, SHORT, 1, 4),
    (259, SHORT, 1, 1),
    (262, SHORT, 1, 3),
    (273, LONG, 1, 104),
    (278, SHORT, 1, 2),
    (279, LONG, 1, 4),
    (320, SHORT, 48, 8),
];

// An entry of a field that is not looked at.
const IDLE: Row = (1, SHORT, 1, 7);

// A file with an empty map and the rows 1 2 0 and 0 1 2.
fn vector(alloc: Global, head: &[u8]) -> Result<Vec<u8>, AllocError> {
    let mut bytes = Vec::from_slice(alloc, head)?;
    bytes.resize(218, 0)?;
    bytes.extend_from_slice(&[0x12, 0x0F, 0x01, 0x20])?;
    Ok(bytes)
}

fn push_short(out: &mut Vec<u8>, big: bool, number: u16) -> Result<(), AllocError> {
    if big {
        return out.extend_from_slice(&number.to_be_bytes());
    }
    out.extend_from_slice(&number.to_le_bytes())
}

fn push_long(out: &mut Vec<u8>, big: bool, number: u32) -> Result<(), AllocError> {
    if big {
        return out.extend_from_slice(&number.to_be_bytes());
    }
    out.extend_from_slice(&number.to_le_bytes())
}

fn push_row(out: &mut Vec<u8>, big: bool, row: Row) -> Result<(), AllocError> {
    let (tag, kind, count, value) = row;
    push_short(out, big, tag)?;
    push_short(out, big, kind)?;
    push_long(out, big, count)?;
    if kind == SHORT && count <= 2 {
        push_short(out, big, (value % 65_536) as u16)?;
        return push_short(out, big, (value / 65_536) as u16);
    }
    push_long(out, big, value)
}

// A file with three more entries in front of those of ENTRIES, so that they are the first of their tags, and without
// one field.
fn file(alloc: Global, big: bool, front: [Row; 3], without: u16) -> Result<Vec<u8>, AllocError> {
    let mut bytes = Vec::new(alloc);
    bytes.extend_from_slice(if big { b"MM" } else { b"II" })?;
    push_short(&mut bytes, big, 42)?;
    push_long(&mut bytes, big, 108)?;
    bytes.resize(104, 0)?;
    bytes.extend_from_slice(&[0x12, 0x0F, 0x01, 0x20])?;
    push_short(&mut bytes, big, 12)?;
    for row in front {
        push_row(&mut bytes, big, row)?;
    }
    for row in ENTRIES {
        let (tag, kind, count, value) = row;
        push_row(
            &mut bytes,
            big,
            (if tag == without { 1 } else { tag }, kind, count, value),
        )?;
    }
    Ok(bytes)
}

fn fault(alloc: Global, bytes: &[u8]) -> Option<TiffFault> {
    match read(alloc, bytes) {
        Ok(_) => None,
        Err(fault) => Some(fault),
    }
}

#[test]
fn both_orders_of_bytes_are_read(rt: HostRuntime) -> Result<(), Fail> {
    for head in [LITTLE, BIG] {
        let bytes = vector(rt.alloc(), &head)?;
        let image = read(rt.alloc(), &bytes)?;
        assert_eq!(rt; (image.width, image.height), (3, 2));
        assert_eq!(rt; image.pixels.as_slice(), [1, 2, 0, 0, 1, 2].as_slice());
        assert_eq!(rt; image.colour_map.len(), 768);
    }
    Ok(())
}

// One byte of the two vectors changed: the place in each, the byte, and the fault.
const HEADS: [(usize, usize, u8, TiffFault); 10] = [
    (0, 0, b'J', TiffFault::NotTiff),
    (1, 1, b'L', TiffFault::NotTiff),
    (2, 3, 43, TiffFault::NotTiff),
    (3, 2, 1, TiffFault::NotTiff),
    (4, 7, 7, TiffFault::NoDirectory),
    (4, 7, 0, TiffFault::NoDirectory),
    (4, 7, 221, TiffFault::Truncated),
    (7, 4, 255, TiffFault::Truncated),
    (8, 9, 0, TiffFault::NoDirectory),
    (8, 9, 18, TiffFault::Truncated),
];

#[test]
fn the_header_and_the_directory_are_tried_first(rt: HostRuntime) -> Result<(), Fail> {
    for (little, big, byte, want) in HEADS {
        for (head, place) in [(LITTLE, little), (BIG, big)] {
            let mut bytes = vector(rt.alloc(), &head)?;
            if place < bytes.len() {
                bytes[place] = byte;
            }
            assert_eq!(rt; fault(rt.alloc(), &bytes), Some(want), "{byte} at {place}");
        }
    }
    Ok(())
}

// An entry in front, and the fault: the steps from the compression to the strips.
const FIELDS: [(Row, TiffFault); 34] = [
    ((259, SHORT, 1, 32_773), TiffFault::Compressed(32_773)),
    ((259, LONG, 1, 32_773), TiffFault::BadField(259)),
    ((259, SHORT, 2, 32_773), TiffFault::BadField(259)),
    ((262, SHORT, 1, 2), TiffFault::Photometric(2)),
    ((262, BYTE, 1, 3), TiffFault::BadField(262)),
    ((258, SHORT, 1, 5), TiffFault::Bits(5)),
    ((258, SHORT, 3, 8), TiffFault::BadField(258)),
    ((277, SHORT, 1, 3), TiffFault::Samples(3)),
    ((277, LONG, 1, 1), TiffFault::BadField(277)),
    ((266, SHORT, 1, 2), TiffFault::FillOrder(2)),
    ((266, SHORT, 0, 1), TiffFault::BadField(266)),
    ((274, SHORT, 1, 4), TiffFault::Orientation(4)),
    ((274, BYTE, 1, 1), TiffFault::BadField(274)),
    ((256, LONG, 1, 0), TiffFault::BadField(256)),
    ((256, BYTE, 1, 3), TiffFault::BadField(256)),
    ((256, LONG, 1, 4097), TiffFault::TooLarge),
    ((257, SHORT, 1, 0), TiffFault::BadField(257)),
    ((257, LONG, 2, 2), TiffFault::BadField(257)),
    ((257, SHORT, 1, 8193), TiffFault::TooLarge),
    ((320, LONG, 48, 8), TiffFault::BadField(320)),
    ((320, SHORT, 47, 8), TiffFault::ColorMapCount(47)),
    ((320, SHORT, 48, 200), TiffFault::BadField(320)),
    ((320, SHORT, 48, 4_294_967_295), TiffFault::BadField(320)),
    ((278, SHORT, 1, 0), TiffFault::BadField(278)),
    ((278, BYTE, 1, 2), TiffFault::BadField(278)),
    (
        (278, LONG, 1, 1),
        TiffFault::StripCount {
            tag: 273,
            kept: 2,
            found: 1,
        },
    ),
    ((273, BYTE, 1, 104), TiffFault::BadField(273)),
    (
        (273, LONG, 4_294_967_295, 8),
        TiffFault::StripCount {
            tag: 273,
            kept: 1,
            found: 4_294_967_295,
        },
    ),
    ((273, LONG, 1, 251), TiffFault::ShortStrip(0)),
    ((273, LONG, 1, 4_294_967_295), TiffFault::ShortStrip(0)),
    ((279, BYTE, 1, 4), TiffFault::BadField(279)),
    (
        (279, SHORT, 2, 4),
        TiffFault::StripCount {
            tag: 279,
            kept: 1,
            found: 2,
        },
    ),
    ((279, LONG, 1, 3), TiffFault::ShortStrip(0)),
    ((279, SHORT, 1, 0), TiffFault::ShortStrip(0)),
];

#[test]
fn each_field_is_tried(rt: HostRuntime) -> Result<(), Fail> {
    for big in [false, true] {
        for (row, want) in FIELDS {
            let bytes = file(rt.alloc(), big, [row, IDLE, IDLE], 0)?;
            assert_eq!(rt; fault(rt.alloc(), &bytes), Some(want), "{row:?}");
        }
        for tag in [256, 257, 258, 262, 273, 279, 320] {
            let bytes = file(rt.alloc(), big, [IDLE; 3], tag)?;
            assert_eq!(rt; fault(rt.alloc(), &bytes), Some(TiffFault::Missing(tag)));
        }
    }
    Ok(())
}

// Two entries in front that each break a rule, in either order, and the fault that is told.
const PAIRS: [(Row, Row, TiffFault); 14] = [
    (
        (259, SHORT, 1, 5),
        (262, SHORT, 1, 2),
        TiffFault::Compressed(5),
    ),
    (
        (262, SHORT, 1, 2),
        (258, SHORT, 1, 5),
        TiffFault::Photometric(2),
    ),
    ((258, SHORT, 1, 5), (277, SHORT, 1, 3), TiffFault::Bits(5)),
    (
        (277, SHORT, 1, 3),
        (266, SHORT, 1, 2),
        TiffFault::Samples(3),
    ),
    (
        (266, SHORT, 1, 2),
        (274, SHORT, 1, 4),
        TiffFault::FillOrder(2),
    ),
    (
        (274, SHORT, 1, 4),
        (256, SHORT, 1, 0),
        TiffFault::Orientation(4),
    ),
    (
        (256, SHORT, 1, 0),
        (257, SHORT, 1, 8193),
        TiffFault::BadField(256),
    ),
    (
        (257, SHORT, 1, 0),
        (256, SHORT, 1, 4097),
        TiffFault::BadField(257),
    ),
    (
        (257, SHORT, 1, 8193),
        (320, LONG, 48, 8),
        TiffFault::TooLarge,
    ),
    (
        (320, SHORT, 47, 4_294_967_295),
        (278, SHORT, 1, 0),
        TiffFault::ColorMapCount(47),
    ),
    (
        (320, LONG, 47, 8),
        (278, SHORT, 1, 0),
        TiffFault::BadField(320),
    ),
    (
        (278, SHORT, 1, 0),
        (273, BYTE, 1, 104),
        TiffFault::BadField(278),
    ),
    (
        (273, LONG, 2, 8),
        (279, BYTE, 1, 4),
        TiffFault::StripCount {
            tag: 273,
            kept: 1,
            found: 2,
        },
    ),
    (
        (279, BYTE, 1, 4),
        (273, LONG, 1, 251),
        TiffFault::BadField(279),
    ),
];

#[test]
fn the_first_of_two_broken_rules_is_told(rt: HostRuntime) -> Result<(), Fail> {
    for big in [false, true] {
        for (one, other, want) in PAIRS {
            let forwards = file(rt.alloc(), big, [one, other, IDLE], 0)?;
            assert_eq!(rt; fault(rt.alloc(), &forwards), Some(want), "{one:?}");
            let backwards = file(rt.alloc(), big, [other, IDLE, one], 0)?;
            assert_eq!(rt; fault(rt.alloc(), &backwards), Some(want), "{one:?}");
        }
    }
    Ok(())
}

// Lists of strips that do not lie in the file, or that would need more memory than the file has.
const LISTS: [([Row; 3], TiffFault); 4] = [
    (
        [(278, SHORT, 1, 1), (273, LONG, 2, 250), IDLE],
        TiffFault::BadField(273),
    ),
    (
        [
            (257, SHORT, 1, 8192),
            (278, SHORT, 1, 1),
            (273, LONG, 8192, 8),
        ],
        TiffFault::BadField(273),
    ),
    (
        [(278, SHORT, 1, 1), (273, LONG, 2, 4_294_967_295), IDLE],
        TiffFault::BadField(273),
    ),
    (
        [(278, SHORT, 1, 1), (273, LONG, 2, 8), (279, LONG, 2, 247)],
        TiffFault::BadField(279),
    ),
];

#[test]
fn lists_outside_the_file_are_refused(rt: HostRuntime) -> Result<(), Fail> {
    for big in [false, true] {
        for (front, want) in LISTS {
            let bytes = file(rt.alloc(), big, front, 0)?;
            assert_eq!(rt; fault(rt.alloc(), &bytes), Some(want), "{front:?}");
        }
    }
    Ok(())
}

// Three entries in front and a field left out, and the pixels that are read.
const READ: [([Row; 3], u16, [u8; 6]); 6] = [
    ([IDLE; 3], 259, [1, 2, 0, 0, 1, 2]),
    ([IDLE; 3], 278, [1, 2, 0, 0, 1, 2]),
    (
        [(256, LONG, 1, 3), (278, LONG, 1, 4_294_967_295), IDLE],
        0,
        [1, 2, 0, 0, 1, 2],
    ),
    ([(273, SHORT, 1, 105), IDLE, IDLE], 0, [0, 15, 0, 2, 0, 0]),
    // two strips at 105 and 106, which share a byte
    (
        [
            (278, SHORT, 1, 1),
            (273, SHORT, 2, 6_946_921),
            (279, SHORT, 2, 131_074),
        ],
        0,
        [0, 15, 0, 0, 1, 2],
    ),
    // a strip that begins in the header
    (
        [(273, LONG, 1, 2), (279, LONG, 1, 9), IDLE],
        0,
        [2, 10, 0, 6, 12, 0],
    ),
];

#[test]
fn strips_may_overlap_and_stand_anywhere(rt: HostRuntime) -> Result<(), Fail> {
    for (front, without, want) in READ {
        let bytes = file(rt.alloc(), false, front, without)?;
        let image = read(rt.alloc(), &bytes)?;
        assert_eq!(rt; image.pixels.as_slice(), want.as_slice(), "{front:?}");
    }
    Ok(())
}

// An image of some size with changing pixels and colours.
fn image(alloc: Global, width: u32, height: u32) -> Result<PaletteImage, AllocError>
    requires { width * height < 2 ^ 32 }
{
    let mut pixels = Vec::with_capacity(alloc, (width * height) as usize)?;
    for k in 0..width * height {
        pixels.push((k / 3 % 256) as u8)?;
    }
    let mut colour_map = Vec::with_capacity(alloc, 768)?;
    for k in 0..768u16 {
        colour_map.push(k.wrapping_mul(40_503))?;
    }
    Ok(PaletteImage {
        width,
        height,
        pixels: Listed::of(pixels),
        colour_map: Listed::of(colour_map),
    })
}

// Whether an image is read as itself once it is written.
fn comes_back(alloc: Global, image: &PaletteImage) -> Result<bool, TiffFault> {
    if !image.is_writable() {
        return Ok(false);
    }
    let bytes = write(alloc, image)?;
    let back = read(alloc, &bytes)?;
    Ok(back.equals(image))
}

#[test]
fn what_is_written_is_read(rt: HostRuntime) -> Result<(), Fail> {
    for (width, height) in [
        (1, 1),
        (2, 4097),
        (3, 2731),
        (255, 60),
        (256, 33),
        (4096, 5),
        (4096, 8192),
    ] {
        let image = image(rt.alloc(), width, height)?;
        assert_eq!(rt;
            comes_back(rt.alloc(), &image),
            Ok(true),
            "{width} by {height}"
        );
    }
    let wide = image(rt.alloc(), 4097, 2)?;
    assert_eq!(rt; comes_back(rt.alloc(), &wide), Err(TiffFault::TooLarge));
    Ok(())
}

#[test]
fn the_largest_image_is_written(rt: HostRuntime) -> Result<(), Fail> {
    let largest = PaletteImage {
        width: 16_384,
        height: 4096,
        pixels: Listed::of(Vec::from_elem(rt.alloc(), 7u8, 67_108_864)?),
        colour_map: Listed::of(Vec::from_elem(rt.alloc(), 65_535u16, 768)?),
    };
    if !largest.is_writable() {
        panic!(rt; "64 Mi pixels can be written");
    }
    let bytes = write(rt.alloc(), &largest)?;
    // 4096 strips of one row each
    assert_eq!(rt; bytes.len(), 1710 + 8 * 4096 + 67_108_864);
    let tall = image(rt.alloc(), 1, 8193)?;
    assert!(rt; !tall.is_writable());
    Ok(())
}

#[test]
fn a_file_is_written_by_the_table(rt: HostRuntime) -> Result<(), Fail> {
    let small = image(rt.alloc(), 2, 2)?;
    if !small.is_writable() {
        panic!(rt; "four pixels can be written");
    }
    let bytes = write(rt.alloc(), &small)?;
    assert_eq!(rt; bytes.len(), 1714);
    assert!(rt; bytes.starts_with(&WRITTEN));
    assert!(rt; bytes.ends_with(&[0, 0, 0, 1]));
    Ok(())
}

const TEXTS: [(TiffFault, &str); 16] = [
    (TiffFault::Truncated, "truncated"),
    (TiffFault::NotTiff, "not tiff"),
    (TiffFault::NoDirectory, "no directory"),
    (TiffFault::Missing(256), "missing field 256"),
    (TiffFault::BadField(320), "bad field 320"),
    (TiffFault::Compressed(32_773), "compression 32773"),
    (TiffFault::Photometric(2), "photometric 2"),
    (TiffFault::Bits(1), "bits 1"),
    (TiffFault::Samples(3), "samples 3"),
    (TiffFault::FillOrder(2), "fill order 2"),
    (TiffFault::Orientation(8), "orientation 8"),
    (TiffFault::TooLarge, "too large"),
    (TiffFault::ColorMapCount(47), "colour map 47"),
    (
        TiffFault::StripCount {
            tag: 273,
            kept: 2,
            found: 1,
        },
        "field 273 has 1 strips, not 2",
    ),
    (TiffFault::ShortStrip(0), "short strip 0"),
    (TiffFault::OutOfMemory, "out of memory"),
];

#[test]
fn faults_are_told(rt: HostRuntime) -> Result<(), Fail> {
    for (fault, want) in TEXTS {
        let text = format!(in rt.alloc(); "{fault}")?;
        assert_eq!(rt; text.as_str(), want);
    }
    Ok(())
}
