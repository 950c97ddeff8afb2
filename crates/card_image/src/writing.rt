//! How the parts of a chain are written.
ghost use Rattle.std.specs.Prelude.{◌≡◌, ◌^◌, ◌<◌, ◌++◌, OnOk};
ghost use Rattle.mill_base.specs.Bits.{packed};
ghost use Rattle.card_image.specs.Places.{magic as magic_of, card_place};
ghost use Rattle.card_image.specs.Chains.{hole_count};
ghost use Rattle.card_image.specs.inner.Kept.{head_bytes, card_bytes};

use mill_base::bit_row::BitRow;
use mill_base::face::Face;
use mill_base::memory::OutOfMemory;

/// The first bytes of the chain of a cloth that lies face up: `JCC1`.
pub const MAGIC_UP: [u8; 4] = [0x4A, 0x43, 0x43, 0x31];

/// The first bytes of the chain of a cloth that lies face down: `JCC2`.
pub const MAGIC_DOWN: [u8; 4] = [0x4A, 0x43, 0x43, 0x32];

/// How many bytes a chain has.
pub fn whole_length(hooks: u32, picks: u32) -> usize
    ensures length { result ≡ card_place hooks picks }
    ensures fits { result < 2 ^ 62 }
{
    12 + picks as usize * (8 + (hooks as usize + 7) / 8)
}

fn magic(face: Face) -> [u8; 4]
    ensures { result ≡ magic_of face }
{
    match face {
        Face::Up => MAGIC_UP,
        Face::Down => MAGIC_DOWN,
    }
}

/// Writes what stands before the first card.
pub fn push_head(chain: &mut Vec<u8>, hooks: u32, picks: u32, face: Face) -> Result<(), OutOfMemory>
    ensures { OnOk result (chain.new.items ≡ chain.old.items ++ head_bytes hooks picks face) }
{
    chain.extend_from_slice(&magic(face))?;
    chain.extend_from_slice(&hooks.to_be_bytes())?;
    chain.extend_from_slice(&picks.to_be_bytes())?;
    Ok(())
}

fn count_holes(card: &BitRow) -> u32
    ensures { result ≡ hole_count card.now }
{
    card.count()
}

fn push_packed(chain: &mut Vec<u8>, card: &BitRow) -> Result<(), OutOfMemory>
    ensures { OnOk result (chain.new.items ≡ chain.old.items ++ packed card.now) }
{
    let from = chain.len();
    let size = (card.len() as usize + 7) / 8;
    chain.resize(from + size, 0)?;
    card.pack(&mut chain[from..]);
    Ok(())
}

/// Writes the card of a pick.
pub fn push_card(chain: &mut Vec<u8>, pick: u32, card: &BitRow) -> Result<(), OutOfMemory>
    ensures { OnOk result (chain.new.items ≡ chain.old.items ++ card_bytes pick card.now) }
{
    chain.extend_from_slice(&pick.to_be_bytes())?;
    chain.extend_from_slice(&count_holes(card).to_be_bytes())?;
    push_packed(chain, card)
}
