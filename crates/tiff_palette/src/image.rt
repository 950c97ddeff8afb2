//! Palette images.
ghost use Rattle.std.specs.Prelude.{◌≡◌, ◌↔◌, IsTrue};
ghost use Rattle.tiff_palette.specs.Written.{IsWritable};

use mill_base::limits::{MAX_CLOTH_CELLS, MAX_COLOURS, MAX_ENDS, MAX_PICKS};
use mill_base::listed::Listed;

/// An image whose pixels are numbers of colours: `width * height` of them, the top row first and in a row the left
/// pixel first, and a map of 768 numbers, the red of each of 256 colours, then the green, then the blue (TIFF 6.0,
/// section 5).
#[derive(Debug, Drop)]
pub struct PaletteImage {
    pub width: u32,
    pub height: u32,
    pub pixels: Listed<u8>,
    pub colour_map: Listed<u16>,
}

impl PaletteImage {
    /// Whether the image is one that `write` takes.
    pub fn is_writable(&self) -> bool
        ensures { IsTrue result ↔ IsWritable self.now }
    {
        let cells = self.width as u64 * self.height as u64;
        1 <= self.width
            && self.width <= MAX_ENDS
            && 1 <= self.height
            && self.height <= MAX_PICKS
            && cells <= MAX_CLOTH_CELLS
            && self.pixels.len() as u64 == cells
            && self.colour_map.len() == 3 * MAX_COLOURS as usize
    }

    /// Whether two images have the same size, pixels and colours.
    pub fn equals(&self, other: &PaletteImage) -> bool
        ensures { IsTrue result ↔ (self.now ≡ other.now) }
    {
        self.width == other.width
            && self.height == other.height
            && self.pixels.as_slice() == other.pixels.as_slice()
            && self.colour_map.as_slice() == other.colour_map.as_slice()
    }
}
