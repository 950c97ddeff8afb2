//! A block from its bytes.
ghost use Rattle.std.specs.Prelude.{◌≡◌, ◌≤◌, ◌<◌, ◌^◌, ◌*◌, ◌++◌, ℕ, length, drop, slice_index, All, IfOk, MatchOption};
ghost use Rattle.block_journal.specs.Journals.{Fits, number, mark_bytes, marks_bytes};
ghost use Rattle.block_journal.specs.Opens.{IsBlock, NoBlock};

use crate::journal::BLOCK_MARKS;
use crate::mark::Mark;
use mill_base::memory::OutOfMemory;
use std::alloc::Global;

/// The block whose bytes, but for its first, these begin with, where one byte more stands behind it.
pub(crate) fn next_block(alloc: Global, bytes: &[u8]) -> Result<Option<Vec<Mark>>, OutOfMemory>
    ensures { IfOk result (λ found. MatchOption found (NoBlock bytes.now) (λ block. IsBlock bytes.now block.items)) }
{
    if bytes.len() < 4 {
        return Ok(None);
    }
    let count = number_at(bytes);
    if count == 0 {
        return Ok(None);
    }
    if count > BLOCK_MARKS {
        return Ok(None);
    }
    let rest = &bytes[4..];
    if rest.len() <= 12 * count as usize {
        return Ok(None);
    }
    Ok(Some(marks_of(alloc, rest, count as usize)?))
}

fn marks_of(alloc: Global, bytes: &[u8], count: usize) -> Result<Vec<Mark>, OutOfMemory>
    requires { 12 * count < length bytes.now }
    ensures count { IfOk result (λ marks. length marks.items ≡ count) }
    ensures fits { IfOk result (λ marks. All Fits marks.items) }
    ensures bytes { IfOk result (λ marks. marks_bytes marks.items ++ drop (12 * count) bytes.now ≡ bytes.now) }
{
    let mut marks = Vec::new(alloc);
    for index in 0..count {
        let mark = mark_at(&bytes[12 * index..]);
        marks.push(mark)?;
    }
    Ok(marks)
}

fn mark_at(bytes: &[u8]) -> Mark
    requires { 12 ≤ length bytes.now }
    ensures fits { Fits result }
    ensures bytes { mark_bytes result ++ drop 12 bytes.now ≡ bytes.now }
{
    let shift = number_at(bytes);
    let painter = number_at(&bytes[4..]);
    let number = number_at(&bytes[8..]);
    Mark {
        shift,
        painter,
        number,
    }
}

fn number_at(bytes: &[u8]) -> u32
    requires { 4 ≤ length bytes.now }
    ensures bytes { number result ++ drop 4 bytes.now ≡ bytes.now }
    ensures small { result < 2 ^ 32 }
{
    know_bytes(bytes);
    u32::from_be_bytes([bytes[0], bytes[1], bytes[2], bytes[3]])
}

// What is in bytes is below 256.
fn know_bytes(bytes: &[u8])
    ensures { (i : ℕ) → slice_index bytes.now i < 256 }
{
    let _ = bytes;
}
