//! How an image is cut into strips of whole rows (TIFF 6.0, section 3).
ghost use Rattle.std.specs.Prelude.{◌≡◌, ◌≤◌, ◌<◌, ◌+◌, ◌*◌, ◌^◌};
ghost use Rattle.tiff_palette.specs.Layouts.{strips_of, row_bytes, strip_bytes};

use mill_base::limits::{MAX_ENDS, MAX_PICKS};

/// What a file says of its rows: pixels of a row, rows of the image, bits of a pixel, and rows of a strip but for the
/// last.
#[derive(Clone, Copy, Debug, PartialEq, Eq)]
pub struct Layout {
    pub width: u32,
    pub height: u32,
    pub bits: u16,
    pub rows_per_strip: u32,
}

impl Layout {
    /// How many strips there are.
    #[tactic(auto, unfolding(crate::specs::Layouts::strips_of))]
    pub fn strips(&self) -> u32
        requires tall { self.now.height ≤ MAX_PICKS }
        requires some { 0 < self.now.rows_per_strip }
        ensures { result ≡ strips_of self.now }
    {
        ((self.height as u64 + self.rows_per_strip as u64 - 1) / self.rows_per_strip as u64) as u32
    }

    /// The bytes of a row.
    pub fn row_bytes(&self) -> usize
        requires { self.now.width ≤ MAX_ENDS }
        ensures { result ≡ row_bytes self.now }
    {
        if self.bits == 8 {
            return self.width as usize;
        }
        (self.width as usize + 1) / 2
    }

    /// The bytes of the rows of a strip.
    #[tactic(auto, unfolding(crate::specs::Layouts::strip_bytes))]
    pub fn strip_bytes(&self, strip: u32) -> usize
        requires wide { self.now.width ≤ MAX_ENDS }
        requires tall { self.now.height ≤ MAX_PICKS }
        ensures bytes { result ≡ strip_bytes self.now strip }
        ensures few { result < 2 ^ 32 }
    {
        let above = strip as u64 * self.rows_per_strip as u64;
        let rows = (self.rows_per_strip as u64).min((self.height as u64).saturating_sub(above));
        rows as usize * self.row_bytes()
    }
}

/// How many colours a map has for pixels of so many bits.
pub fn colours_of(bits: u16) -> u32
    requires { bits ≤ 8 }
    ensures { result ≡ 2 ^ bits }
{
    1 << bits
}
