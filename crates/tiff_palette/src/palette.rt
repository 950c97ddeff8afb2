//! What is read of a file once every rule is kept.
ghost use Rattle.std.specs.Prelude.{◌≡◌, ◌≤◌, ◌*◌, ◌^◌, Some};
ghost use Rattle.tiff_palette.specs.declared.entry.TheConstants.{SHORT};
ghost use Rattle.tiff_palette.specs.declared.tags.TheConstants.{COLOR_MAP};
ghost use Rattle.tiff_palette.specs.Directories.{field_of};

use crate::strips::Strips;
use crate::values::Values;

/// The strips and the colour map of a file that keeps the rules.
#[derive(Clone, Copy)]
pub struct Palette<'a> {
    pub strips: Strips<'a>,
    pub colour_map: Values<'a>,
    ghost same: { colour_map.bytes.now ≡ strips.offsets.bytes.now },
    ghost told: { field_of strips.offsets.bytes.now COLOR_MAP ≡ Some colour_map.entry },
    ghost counted: { colour_map.entry.count ≡ 3 * 2 ^ strips.layout.bits },
    ghost short: { colour_map.entry.kind ≡ SHORT },
    ghost deep: { strips.layout.bits ≤ 8 },
}
