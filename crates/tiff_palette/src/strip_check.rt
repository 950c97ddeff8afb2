//! Whether the strips lie in the file.
ghost use Rattle.std.specs.Prelude.{◌≡◌, ◌≤◌, ◌<◌, Some};
ghost use Rattle.tiff_palette.specs.Directories.{field_of};
ghost use Rattle.tiff_palette.specs.Layouts.{layout_of, strips_of};
ghost use Rattle.tiff_palette.specs.Rules.{is_held as lies_in_file, short_strips};
ghost use Rattle.tiff_palette.specs.inner.Outcomes.{Keeps};

use crate::fault::TiffFault;
use crate::fields::expect;
use crate::layout::Layout;
use crate::tags::{STRIP_BYTE_COUNTS, STRIP_OFFSETS};
use crate::values::Values;
use mill_base::limits::{MAX_COLUMNS, MAX_PICKS};

/// Each strip has the bytes that its rows need, and they lie in the file.
#[tactic(auto, using(crate::proofs::Firsts::none_more, crate::proofs::Firsts::first_short, crate::proofs::Firsts::no_strips))]
pub fn check_strips(
    layout: &Layout,
    offsets: &Values<'_>,
    counts: &Values<'_>,
) -> Result<(), TiffFault>
    requires laid { layout.now ≡ layout_of offsets.now.bytes.now }
    requires same { counts.now.bytes.now ≡ offsets.now.bytes.now }
    requires offsets { field_of offsets.now.bytes.now STRIP_OFFSETS ≡ Some offsets.now.entry }
    requires counts { field_of offsets.now.bytes.now STRIP_BYTE_COUNTS ≡ Some counts.now.entry }
    requires offsets_counted { offsets.now.entry.count ≡ strips_of layout.now }
    requires counts_counted { counts.now.entry.count ≡ strips_of layout.now }
    requires some { 0 < layout.now.rows_per_strip }
    requires wide { layout.now.width ≤ MAX_COLUMNS }
    requires tall { layout.now.height ≤ MAX_PICKS }
    ensures { Keeps (short_strips offsets.now.bytes.now (strips_of layout.now)) result }
{
    for strip in 0..layout.strips() {
        let held = is_held(layout, offsets, counts, strip);
        expect(held, TiffFault::ShortStrip(strip))?;
    }
    Ok(())
}

#[tactic(auto, unfolding(crate::specs::Rules::is_held), using(crate::proofs::Places::value_is))]
fn is_held(layout: &Layout, offsets: &Values<'_>, counts: &Values<'_>, strip: u32) -> bool
    requires laid { layout.now ≡ layout_of offsets.now.bytes.now }
    requires same { counts.now.bytes.now ≡ offsets.now.bytes.now }
    requires offsets { field_of offsets.now.bytes.now STRIP_OFFSETS ≡ Some offsets.now.entry }
    requires counts { field_of offsets.now.bytes.now STRIP_BYTE_COUNTS ≡ Some counts.now.entry }
    requires offset { strip < offsets.now.entry.count }
    requires count { strip < counts.now.entry.count }
    requires wide { layout.now.width ≤ MAX_COLUMNS }
    requires tall { layout.now.height ≤ MAX_PICKS }
    ensures { result ≡ lies_in_file offsets.now.bytes.now strip }
{
    let need = layout.strip_bytes(strip);
    let count = counts.get(strip as usize) as usize;
    let offset = offsets.get(strip as usize) as usize;
    need <= count && offset + need <= offsets.bytes.len()
}
