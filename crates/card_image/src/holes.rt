//! Bytes of holes, eight hooks to a byte: hook h stands in bit 7 - h mod 8 of byte h div 8.
ghost use Rattle.std.specs.Prelude.{◌≡◌, ◌+◌, ◌*◌, ◌/◌, ◌^◌, ◌<◌, ◌≤◌, ◌&&◌, ℕ, false, true, not, length, slice_index, All, IfSome};
ghost use Rattle.std.specs.Int.{bit_at};
ghost use Rattle.mill_base.specs.Below.{count_below};
ghost use Rattle.card_image.specs.Places.{hole_at, hole_bytes};
ghost use Rattle.card_image.specs.inner.Masks.{IsMask};

use crate::eight_bytes::word_from;

/// Whether there is a hole at a hook.
pub fn has_hole(holes: &[u8], hook: usize) -> bool
    requires { hook / 8 < length holes.now }
    ensures { result ≡ hole_at holes.now 0 hook }
{
    (holes[hook / 8] >> (7 - hook % 8)) & 1 == 1
}

fn clear_all(out: &mut [u8])
    ensures len { length out.new ≡ length out.old }
    ensures clear { (j : ℕ) → slice_index out.new j ≡ 0 }
{
    for at in 0..out.len() {
        out[at] = 0;
    }
}

/// Puts a hole at each of these hooks, and clears all other bits.
pub fn mark_hooks(hooks: u32, columns: &[u32], out: &mut [u8])
    requires room { length out.old ≡ hole_bytes hooks }
    requires there { All (λ h. h < hooks) columns.now }
    ensures { IsMask hooks columns.now out.new }
{
    clear_all(out);
    for hook in columns {
        let hook = *hook as usize;
        let byte = out[hook / 8];
        out[hook / 8] = byte | (1 << (7 - hook % 8));
    }
}

/// Takes away the holes that others have too.
pub fn clear_holes(holes: &mut [u8], others: &[u8])
    requires { length others.now ≡ length holes.old }
    ensures len { length holes.new ≡ length holes.old }
    ensures bits { (h : ℕ) → hole_at holes.new 0 h ≡ (hole_at holes.old 0 h && not (hole_at others.now 0 h)) }
{
    for at in 0..holes.len() {
        let byte = holes[at];
        holes[at] = byte & !others[at];
    }
}

fn lies_within(word: u64, mask: u64) -> bool
    ensures { result ≡ true → (i : ℕ) → i < 64 → bit_at word i ≡ 1 → bit_at mask i ≡ 1 }
{
    word & !mask == 0
}

/// How many holes there are, where all are holes of the mask; none where one is not. It goes by words of 64 bits.
pub fn count_within(holes: &[u8], mask: &[u8]) -> Option<u64>
    requires { length holes.now < 2 ^ 60 }
    ensures count { IfSome result (λ n. n ≡ count_below (hole_at holes.now 0) (8 * length holes.now)) }
    ensures within { IfSome result (λ n. (h : ℕ) → h < 8 * length holes.now → hole_at holes.now 0 h ≡ true
        → hole_at mask.now 0 h ≡ true) }
{
    let mut count = 0;
    for index in 0..(holes.len() + 7) / 8 {
        let word = word_from(holes, 8 * index);
        if !lies_within(word, word_from(mask, 8 * index)) {
            return None;
        }
        count += u64::from(word.count_ones());
    }
    Some(count)
}
