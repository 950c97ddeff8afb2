//! Palette images and their files.
ghost use Rattle.std.specs.Prelude.{◌≡◌, ◌+◌, ◌≤◌, length, IfSome};
ghost use Rattle.tiff_palette.specs.Written.{IsWritable};

use crate::random;
use mill_base::limits::{MAX_COLOURS, MAX_COLUMNS, MAX_PICKS};
use mill_base::listed::Listed;
use mill_base::memory::OutOfMemory;
use std::alloc::Global;
use tiff_palette::{PaletteImage, read, write};

/// What the file of an image has for a pixel, and how large the image is.
#[derive(Clone, Copy)]
pub enum Pixels {
    /// Bytes: 4096 by 8192.
    Byte,
    /// Half bytes: 4096 by 8192.
    Nibble,
    /// Bytes: 8192 by 8192, which is written alone.
    Square,
}

impl Pixels {
    /// The pixels of a name.
    pub fn named(name: &str) -> Option<Pixels> {
        match name {
            "byte" => Some(Pixels::Byte),
            "nibble" => Some(Pixels::Nibble),
            "square" => Some(Pixels::Square),
            _ => None,
        }
    }

    // How many bytes a row of pixels takes in the file.
    fn row_bytes(self) -> u32 {
        match self {
            Pixels::Byte => MAX_COLUMNS,
            Pixels::Nibble => MAX_COLUMNS / 2,
            Pixels::Square => 2 * MAX_COLUMNS,
        }
    }
}

/// An image and its file.
#[derive(Drop)]
pub struct Stored {
    image: PaletteImage,
    file: Vec<u8>,
    ghost writable: { IsWritable image },
}

impl Stored {
    /// A random image and its file; `None` where memory is refused.
    pub fn new(alloc: Global, pixels: Pixels) -> Option<Stored> {
        let image = random_image(alloc, pixels.row_bytes()).ok()?;
        if !image.is_writable() {
            return None;
        }
        let mut file = write(alloc, &image).ok()?;
        if matches!(pixels, Pixels::Nibble) {
            set_value(&mut file, 256, MAX_COLUMNS);
            set_value(&mut file, 258, 4);
            set_count(&mut file, 320, 3 * 16);
        }
        Some(Stored { image, file })
    }

    /// Reads the file so many times.
    pub fn read(&self, alloc: Global, rounds: u32) -> Option<u32> {
        let mut told = 0u32;
        for _ in 0..rounds {
            let image = read(alloc, &self.file).ok()?;
            told = told.wrapping_add(image.width);
        }
        Some(told)
    }

    /// Writes the image so many times.
    pub fn write(&self, alloc: Global, rounds: u32) -> Option<u32> {
        let mut told = 0u32;
        for _ in 0..rounds {
            let file = write(alloc, &self.image).ok()?;
            told = told.wrapping_add(last(&file));
        }
        Some(told)
    }

    /// Copies the pixels of the image, in memory of their own.
    pub fn copy(&self, alloc: Global, rounds: u32) -> Option<u32> {
        let mut told = 0u32;
        for _ in 0..rounds {
            let pixels = Vec::from_slice(alloc, self.image.pixels.as_slice()).ok()?;
            told = told.wrapping_add(last(&pixels));
        }
        Some(told)
    }
}

fn last(pixels: &[u8]) -> u32 {
    pixels.last().copied().unwrap_or(0) as u32
}

fn random_image(alloc: Global, width: u32) -> Result<PaletteImage, OutOfMemory> {
    let cells = width.saturating_mul(MAX_PICKS);
    let pixels = random::bytes(alloc, cells, 255)?;
    let colour_map = Vec::from_elem(alloc, 7u16, 3 * MAX_COLOURS as usize)?;
    Ok(PaletteImage {
        width,
        height: MAX_PICKS,
        pixels: Listed::of(pixels),
        colour_map: Listed::of(colour_map),
    })
}

// Entries of the directory stand from byte 10 on, 12 bytes each: tag, type, count, value.
fn set_value(file: &mut [u8], tag: u16, value: u32) {
    if let Some(entry) = entry_of(file, tag) {
        put_number(file, entry + 8, value);
    }
}

fn set_count(file: &mut [u8], tag: u16, count: u32) {
    if let Some(entry) = entry_of(file, tag) {
        put_number(file, entry + 4, count);
    }
}

fn entry_of(file: &[u8], tag: u16) -> Option<usize>
    ensures { IfSome result (λ at. at + 12 ≤ length file.now) }
{
    for number in 0..14usize {
        let at = 10 + 12 * number;
        if at + 12 > file.len() {
            return None;
        }
        if u16::from_le_bytes([file[at], file[at + 1]]) == tag {
            return Some(at);
        }
    }
    None
}

fn put_number(file: &mut [u8], at: usize, number: u32)
    requires { at + 4 ≤ length file.old }
    ensures { length file.new ≡ length file.old }
{
    for (k, byte) in number.to_le_bytes().into_iter().enumerate() {
        file[at + k] = byte;
    }
}
