//! The header of a file and its first directory (TIFF 6.0, section 2).
ghost use Rattle.std.specs.Prelude.{◌≡◌, ◌≤◌, ◌<◌, ◌+◌, ◌*◌, ◌^◌, length, [], MatchResult};
ghost use Rattle.tiff_palette.specs.Numbers.{order_of};
ghost use Rattle.tiff_palette.specs.Directories.{directory_place, entry_count, entry_place};
ghost use Rattle.tiff_palette.specs.Rules.{all_of, head_rules, is_marked, unless};
ghost use Rattle.tiff_palette.specs.inner.Outcomes.{Reads, TellsFirst};

use crate::fault::TiffFault;
use crate::fields::expect;
use crate::numbers::{Order, long_at, short_at};

/// A file whose first directory lies in it, with all its entries.
#[derive(Clone, Copy)]
pub struct Directory<'a> {
    pub bytes: &'a [u8],
    pub order: Order,
    pub place: usize,
    pub entries: usize,
    ghost ordered: { order ≡ order_of bytes.now },
    ghost placed: { place ≡ directory_place bytes.now },
    ghost counted: { entries ≡ entry_count bytes.now },
    ghost near: { place < 2 ^ 32 },
    ghost few: { entries < 2 ^ 16 },
    ghost inside: { entry_place bytes.now entries ≤ length bytes.now },
}

impl<'a> Directory<'a> {
    /// The first directory of a file.
    #[tactic(auto, unfolding(crate::specs::Rules::head_rules), using(crate::proofs::Firsts::told_here, crate::proofs::Firsts::told_later))]
    pub fn open(bytes: &'a [u8]) -> Result<Directory<'a>, TiffFault>
        ensures { MatchResult result (λ d. (all_of head_rules bytes.now ≡ []) × (d.bytes.now ≡ bytes.now)) (TellsFirst (all_of head_rules bytes.now)) }
    {
        expect(bytes.len() >= 8, TiffFault::Truncated)?;
        let order = marked_order(bytes)?;
        expect(short_at(order, bytes, 2) == 42, TiffFault::NotTiff)?;
        let place = long_at(order, bytes, 4) as usize;
        expect(place >= 8, TiffFault::NoDirectory)?;
        expect(bytes.len() >= place + 2, TiffFault::Truncated)?;
        let entries = short_at(order, bytes, place) as usize;
        expect(entries > 0, TiffFault::NoDirectory)?;
        expect(
            bytes.len() >= place + 2 + 12 * entries,
            TiffFault::Truncated,
        )?;
        Ok(Directory {
            bytes,
            order,
            place,
            entries,
        })
    }
}

// The order of bytes that the first two bytes of a file tell.
#[tactic(auto, unfolding(crate::specs::Numbers::order_of))]
fn marked_order(bytes: &[u8]) -> Result<Order, TiffFault>
    requires { 2 ≤ length bytes.now }
    ensures { Reads (unless (is_marked bytes.now) TiffFault.NotTiff) (order_of bytes.now) result }
{
    match (bytes[0], bytes[1]) {
        (b'I', b'I') => Ok(Order::Little),
        (b'M', b'M') => Ok(Order::Big),
        _ => Err(TiffFault::NotTiff),
    }
}
