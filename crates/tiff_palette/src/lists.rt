//! The fields of many values in a directory.
ghost use Rattle.std.specs.Prelude.{◌≡◌, ◌≤◌, ◌<◌, ◌+◌, ◌*◌, ◌^◌, nat_le, Some, [], length, IfOk, OnOk, MatchResult};
ghost use Rattle.tiff_palette.specs.Directories.{field_of};
ghost use Rattle.tiff_palette.specs.Fields.{is_short, values_end};
ghost use Rattle.tiff_palette.specs.Layouts.{layout_of};
ghost use Rattle.tiff_palette.specs.Rules.{many, map_count, one_per_strip, strip_count, unless};
ghost use Rattle.tiff_palette.specs.inner.Outcomes.{Keeps, TellsFirst};

use crate::directory::Directory;
use crate::entry::{Entry, SHORT, size_of};
use crate::fault::TiffFault;
use crate::fields::expect;
use crate::layout::colours_of;
use crate::tags::COLOR_MAP;
use crate::values::Values;

impl<'a> Directory<'a> {
    // The values of an entry, if they lie in the file.
    fn values(&self, tag: u16, entry: Entry) -> Result<Values<'a>, TiffFault>
        requires { entry.values < 2 ^ 33 }
        ensures rule { Keeps (unless (nat_le (values_end entry) (length self.now.bytes.now)) (TiffFault.BadField tag)) result }
        ensures values { IfOk result (λ v. (v.entry ≡ entry) × (v.bytes.now ≡ self.now.bytes.now)) }
    {
        if self.bytes.len() < entry.values + size_of(entry.kind) * entry.count as usize {
            return Err(TiffFault::BadField(tag));
        }
        Ok(Values {
            bytes: self.bytes,
            order: self.order,
            entry,
        })
    }

    /// The colour map: 3 * 2^bits values of type SHORT.
    #[tactic(auto, unfolding(crate::specs::Rules::many), using(crate::proofs::Firsts::told_here, crate::proofs::Firsts::told_later))]
    pub fn colour_map(&self, bits: u16) -> Result<Values<'a>, TiffFault>
        requires depth { bits ≤ 8 }
        requires told { bits ≡ (layout_of self.now.bytes.now).bits }
        ensures rule { Keeps (many COLOR_MAP is_short map_count (λ count found. TiffFault.ColorMapCount found) self.now.bytes.now) result }
        ensures values { IfOk result (λ v. (field_of self.now.bytes.now COLOR_MAP ≡ Some v.entry) × (v.bytes.now ≡ self.now.bytes.now)) }
        ensures count { IfOk result (λ v. v.entry.count ≡ 3 * 2 ^ bits) }
        ensures short { IfOk result (λ v. v.entry.kind ≡ SHORT) }
    {
        let Some(entry) = self.field(COLOR_MAP) else {
            return Err(TiffFault::Missing(COLOR_MAP));
        };
        expect(entry.is_short(), TiffFault::BadField(COLOR_MAP))?;
        expect(
            entry.count == 3 * colours_of(bits),
            TiffFault::ColorMapCount(entry.count),
        )?;
        self.values(COLOR_MAP, entry)
    }

    /// The values of a field that has one for each strip, of type SHORT or LONG.
    #[tactic(auto, unfolding(crate::specs::Rules::one_per_strip, crate::specs::Rules::many), using(crate::proofs::Firsts::told_here, crate::proofs::Firsts::told_later))]
    pub fn strip_list(&self, tag: u16, strips: u32) -> Result<Values<'a>, TiffFault>
        requires { strips ≡ strip_count self.now.bytes.now }
        ensures rule { Keeps (one_per_strip tag self.now.bytes.now) result }
        ensures values { IfOk result (λ v. (field_of self.now.bytes.now tag ≡ Some v.entry) × (v.bytes.now ≡ self.now.bytes.now)) }
        ensures count { IfOk result (λ v. v.entry.count ≡ strips) }
    {
        let Some(entry) = self.field(tag) else {
            return Err(TiffFault::Missing(tag));
        };
        expect(entry.is_whole(), TiffFault::BadField(tag))?;
        expect(
            entry.count == strips,
            TiffFault::StripCount {
                tag,
                kept: strips,
                found: entry.count,
            },
        )?;
        self.values(tag, entry)
    }
}
