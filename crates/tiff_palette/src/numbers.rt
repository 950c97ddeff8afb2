//! Numbers in either order of bytes (TIFF 6.0, section 2).
ghost use Rattle.std.specs.Prelude.{◌≡◌, ◌≤◌, ◌+◌, length};
ghost use Rattle.tiff_palette.specs.Numbers.{number_at};

use byteorder::{BigEndian, ByteOrder, LittleEndian};

/// The order of the bytes of a number.
#[derive(Clone, Copy, Debug, PartialEq, Eq)]
pub enum Order {
    /// The lowest byte first.
    Little,
    /// The highest byte first.
    Big,
}

/// The number of 2 bytes at a place.
#[tactic(auto, unfolding(crate::specs::Numbers::number_at))]
pub fn short_at(order: Order, bytes: &[u8], place: usize) -> u16
    requires { place + 2 ≤ length bytes.now }
    ensures { result ≡ number_at order 2 place bytes.now }
{
    match order {
        Order::Little => LittleEndian::read_u16(&bytes[place..]),
        Order::Big => BigEndian::read_u16(&bytes[place..]),
    }
}

/// The number of 4 bytes at a place.
#[tactic(auto, unfolding(crate::specs::Numbers::number_at))]
pub fn long_at(order: Order, bytes: &[u8], place: usize) -> u32
    requires { place + 4 ≤ length bytes.now }
    ensures { result ≡ number_at order 4 place bytes.now }
{
    match order {
        Order::Little => LittleEndian::read_u32(&bytes[place..]),
        Order::Big => BigEndian::read_u32(&bytes[place..]),
    }
}
