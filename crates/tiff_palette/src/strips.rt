//! The strips of a file, all of which lie in it.
ghost use Rattle.std.specs.Prelude.{◌≡◌, ◌≤◌, ◌<◌, [], Some};
ghost use Rattle.mill_base.specs.Limits.{IsWithin};
ghost use Rattle.mill_base.specs.declared.limits.TheConstants.{MAX_COLUMNS, MAX_PICKS};
ghost use Rattle.tiff_palette.specs.declared.tags.TheConstants.{STRIP_OFFSETS};
ghost use Rattle.tiff_palette.specs.Directories.{field_of};
ghost use Rattle.tiff_palette.specs.Layouts.{layout_of, strips_of};
ghost use Rattle.tiff_palette.specs.Rules.{short_strips};

use crate::layout::Layout;
use crate::values::Values;

/// The strips of a file that keeps the rules: each of its rows lies in the file.
#[derive(Clone, Copy)]
pub struct Strips<'a> {
    pub layout: Layout,
    pub offsets: Values<'a>,
    ghost laid: { layout ≡ layout_of offsets.bytes.now },
    ghost told: { field_of offsets.bytes.now STRIP_OFFSETS ≡ Some offsets.entry },
    ghost counted: { offsets.entry.count ≡ strips_of layout },
    ghost held: { short_strips offsets.bytes.now (strips_of layout) ≡ [] },
    ghost some: { 0 < layout.rows_per_strip },
    ghost wide: { IsWithin 1 layout.width MAX_COLUMNS },
    ghost tall: { IsWithin 1 layout.height MAX_PICKS },
}
