//! Bytes that are read eight at a time, as words of 64 bits.
ghost use Rattle.std.specs.Prelude.{◌≡◌, ◌+◌, ◌*◌, ◌^◌, ◌<◌, ℕ, slice_index};
ghost use Rattle.std.specs.Int.{bit_at};

/// The eight bytes from byte `at` on as a word, of which the first is the lowest. Bytes past the last are 0.
pub fn word_from(bytes: &[u8], at: usize) -> u64
    requires { at < 2 ^ 62 }
    ensures { (j i : ℕ) → j < 8 → i < 8 → bit_at result (8 * j + i) ≡ bit_at (slice_index bytes.now (at + j)) i }
{
    u64::from_le_bytes(eight_from(bytes, at))
}

fn eight_from(bytes: &[u8], at: usize) -> [u8; 8]
    requires { at < 2 ^ 62 }
    ensures { (j : ℕ) → j < 8 → slice_index result j ≡ slice_index bytes.now (at + j) }
{
    if bytes.len() < at + 8 {
        return rest_from(bytes, at);
    }
    let mut eight = [0u8; 8];
    eight.copy_from_slice(&bytes[at..at + 8]);
    eight
}

fn rest_from(bytes: &[u8], at: usize) -> [u8; 8]
    requires { at < 2 ^ 62 }
    ensures { (j : ℕ) → j < 8 → slice_index result j ≡ slice_index bytes.now (at + j) }
{
    let mut eight = [0u8; 8];
    for j in 0..8 {
        eight[j] = byte_or_zero(bytes, at + j);
    }
    eight
}

fn byte_or_zero(bytes: &[u8], at: usize) -> u8
    ensures { result ≡ slice_index bytes.now at }
{
    if at < bytes.len() { bytes[at] } else { 0 }
}
