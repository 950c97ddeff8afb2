//! Fields of many values.
ghost use Rattle.std.specs.Prelude.{◌≡◌, ◌≤◌, ◌<◌, ◌+◌, ◌*◌, length};
ghost use Rattle.tiff_palette.specs.Numbers.{order_of};
ghost use Rattle.tiff_palette.specs.Fields.{value_at, values_end};

use crate::entry::{Entry, SHORT};
use crate::numbers::{Order, long_at, short_at};

/// The values of a field of type SHORT or LONG, all of which lie in the file.
#[derive(Clone, Copy)]
pub struct Values<'a> {
    pub bytes: &'a [u8],
    pub order: Order,
    pub entry: Entry,
    ghost ordered: { order ≡ order_of bytes.now },
    ghost inside: { values_end entry ≤ length bytes.now },
}

impl<'a> Values<'a> {
    /// Value k.
    #[tactic(auto, unfolding(crate::specs::Fields::value_at))]
    pub fn get(&self, k: usize) -> u32
        requires { k < self.now.entry.count }
        ensures { result ≡ value_at self.now.bytes.now self.now.entry k }
    {
        let entry = self.entry;
        if entry.kind == SHORT {
            return short_at(self.order, self.bytes, entry.values + 2 * k) as u32;
        }
        long_at(self.order, self.bytes, entry.values + 4 * k)
    }

    /// Value k of a field of type SHORT.
    #[tactic(auto, unfolding(crate::specs::Fields::value_at))]
    pub fn get_short(&self, k: usize) -> u16
        requires there { k < self.now.entry.count }
        requires short { self.now.entry.kind ≡ SHORT }
        ensures { result ≡ value_at self.now.bytes.now self.now.entry k }
    {
        short_at(self.order, self.bytes, self.entry.values + 2 * k)
    }
}
