//! The fields of a directory, and those of one value.
ghost use Rattle.std.specs.Prelude.{◌≡◌, ◌≤◌, ◌<◌, ◌+◌, ◌*◌, ◌^◌, ◌∷◌, ◌==◌, ◌&&◌, [], true, length, IfSome, OnOk};
ghost use Rattle.tiff_palette.specs.Directories.{entry_at, entry_place, field_of, size_of as bytes_of_kind, values_place as place_of_values};
ghost use Rattle.tiff_palette.specs.Fields.{is_short, is_whole, value_at, value_or};
ghost use Rattle.tiff_palette.specs.Rules.{one_value, unless};
ghost use Rattle.tiff_palette.specs.inner.Outcomes.{Reads, Keeps};

use crate::directory::Directory;
use crate::entry::{Entry, LONG, SHORT, size_of};
use crate::fault::TiffFault;
use crate::numbers::{long_at, short_at};

/// The rule is kept, or its fault is told.
pub fn expect(kept: bool, fault: TiffFault) -> Result<(), TiffFault>
    ensures rule { Keeps (unless kept fault) result }
    ensures kept { OnOk result (kept ≡ true) }
{
    if kept { Ok(()) } else { Err(fault) }
}

impl<'a> Directory<'a> {
    // Entry k.
    #[tactic(auto, unfolding(crate::specs::Directories::entry_at))]
    fn entry(&self, k: usize) -> Entry
        requires { k < self.now.entries }
        ensures entry { result ≡ entry_at self.now.bytes.now (entry_place self.now.bytes.now k) }
        ensures near { result.values < 2 ^ 33 }
        ensures short { bytes_of_kind result.kind * result.count ≤ 4 → result.values + 4 ≤ length self.now.bytes.now }
    {
        let place = self.place + 2 + 12 * k;
        let tag = short_at(self.order, self.bytes, place);
        let kind = short_at(self.order, self.bytes, place + 2);
        let count = long_at(self.order, self.bytes, place + 4);
        let values = self.values_place(kind, count, place);
        Entry {
            tag,
            kind,
            count,
            values,
        }
    }

    // Where the values of the entry at a place lie.
    fn values_place(&self, kind: u16, count: u32, place: usize) -> usize
        requires there { place + 12 ≤ length self.now.bytes.now }
        requires near { place + 8 < 2 ^ 33 }
        ensures place { result ≡ place_of_values self.now.bytes.now kind count place }
        ensures near { result < 2 ^ 33 }
        ensures short { bytes_of_kind kind * count ≤ 4 → result + 4 ≤ length self.now.bytes.now }
    {
        if size_of(kind) * count as usize <= 4 {
            return place + 8;
        }
        long_at(self.order, self.bytes, place + 8) as usize
    }

    /// The first entry of a tag.
    #[tactic(auto, unfolding(crate::specs::Directories::field_of), using(crate::proofs::Entries::none_more, crate::proofs::Entries::first_here))]
    pub fn field(&self, tag: u16) -> Option<Entry>
        ensures field { result ≡ field_of self.now.bytes.now tag }
        ensures near { IfSome result (λ e. e.values < 2 ^ 33) }
        ensures short { IfSome result (λ e. bytes_of_kind e.kind * e.count ≤ 4 → e.values + 4 ≤ length self.now.bytes.now) }
    {
        for k in 0..self.entries {
            let entry = self.entry(k);
            if entry.tag == tag {
                return Some(entry);
            }
        }
        None
    }

    /// A field that has to be there, with one value of type SHORT.
    #[tactic(auto, unfolding(crate::specs::Rules::one_value, crate::specs::Fields::value_or))]
    pub fn short(&self, tag: u16) -> Result<u16, TiffFault>
        ensures { Reads (one_value tag is_short (TiffFault.Missing tag ∷ []) self.now.bytes.now) (value_or tag 0 self.now.bytes.now) result }
    {
        let Some(entry) = self.field(tag) else {
            return Err(TiffFault::Missing(tag));
        };
        self.short_value(tag, &entry)
    }

    /// A field that may be absent, else with one value of type SHORT.
    #[tactic(auto, unfolding(crate::specs::Rules::one_value, crate::specs::Fields::value_or))]
    pub fn short_or(&self, tag: u16, default: u16) -> Result<u16, TiffFault>
        ensures { Reads (one_value tag is_short [] self.now.bytes.now) (value_or tag default self.now.bytes.now) result }
    {
        let Some(entry) = self.field(tag) else {
            return Ok(default);
        };
        self.short_value(tag, &entry)
    }

    /// A field that has to be there, with one value of type SHORT or LONG.
    #[tactic(auto, unfolding(crate::specs::Rules::one_value, crate::specs::Fields::value_or))]
    pub fn whole(&self, tag: u16) -> Result<u32, TiffFault>
        ensures { Reads (one_value tag is_whole (TiffFault.Missing tag ∷ []) self.now.bytes.now) (value_or tag 0 self.now.bytes.now) result }
    {
        let Some(entry) = self.field(tag) else {
            return Err(TiffFault::Missing(tag));
        };
        self.whole_value(tag, &entry)
    }

    /// A field that may be absent, else with one value of type SHORT or LONG.
    #[tactic(auto, unfolding(crate::specs::Rules::one_value, crate::specs::Fields::value_or))]
    pub fn whole_or(&self, tag: u16, default: u32) -> Result<u32, TiffFault>
        ensures { Reads (one_value tag is_whole [] self.now.bytes.now) (value_or tag default self.now.bytes.now) result }
    {
        let Some(entry) = self.field(tag) else {
            return Ok(default);
        };
        self.whole_value(tag, &entry)
    }

    // The one value of an entry of type SHORT.
    #[tactic(auto, unfolding(crate::specs::Fields::value_at))]
    fn short_value(&self, tag: u16, entry: &Entry) -> Result<u16, TiffFault>
        requires { bytes_of_kind entry.now.kind * entry.now.count ≤ 4 → entry.now.values + 4 ≤ length self.now.bytes.now }
        ensures { Reads (unless (is_short entry.now && entry.now.count == 1) (TiffFault.BadField tag)) (value_at self.now.bytes.now entry.now 0) result }
    {
        if !entry.is_short() || entry.count != 1 {
            return Err(TiffFault::BadField(tag));
        }
        Ok(short_at(self.order, self.bytes, entry.values))
    }

    // The one value of an entry of type SHORT or LONG.
    #[tactic(auto, unfolding(crate::specs::Fields::value_at))]
    fn whole_value(&self, tag: u16, entry: &Entry) -> Result<u32, TiffFault>
        requires { bytes_of_kind entry.now.kind * entry.now.count ≤ 4 → entry.now.values + 4 ≤ length self.now.bytes.now }
        ensures { Reads (unless (is_whole entry.now && entry.now.count == 1) (TiffFault.BadField tag)) (value_at self.now.bytes.now entry.now 0) result }
    {
        if entry.count != 1 {
            return Err(TiffFault::BadField(tag));
        }
        match entry.kind {
            SHORT => Ok(short_at(self.order, self.bytes, entry.values) as u32),
            LONG => Ok(long_at(self.order, self.bytes, entry.values)),
            _ => Err(TiffFault::BadField(tag)),
        }
    }
}
