//! Lines that are worked on by whole words, written out by hand.
ghost use Rattle.std.specs.Prelude.{◌≡◌, length, IfOk};

use crate::expect::expect;
use mill_base::bit_block::BitBlock;
use mill_base::bit_row::BitRow;
use mill_base::memory::OutOfMemory;
use std::alloc::Global;
use std::test::Fail;

/// A row of six positions, of which position k is bit k of the word.
fn row_of(alloc: Global, word: u64) -> Result<BitRow, OutOfMemory>
    ensures { IfOk result (λ row. length row ≡ 6) }
{
    let mut row = BitRow::new(alloc, 6)?;
    row.put_word(0, word);
    Ok(row)
}

/// The block of six positions.
fn block_of(alloc: Global, word: u64) -> Result<BitBlock, OutOfMemory>
    ensures { IfOk result (λ block. length block ≡ 6) }
{
    Ok(BitBlock::of(&row_of(alloc, word)?))
}

/// Whether the block has these six positions.
fn has_positions(alloc: Global, block: &BitBlock, word: u64) -> Result<bool, OutOfMemory> {
    if block.len() != 6 {
        return Ok(false);
    }
    let mut out = BitRow::new(alloc, 6)?;
    block.store(&mut out);
    Ok(out.equals(&row_of(alloc, word)?))
}

#[test]
fn a_block_is_compared_and_joined_with_itself_turned(rt: HostRuntime) -> Result<(), Fail> {
    let alloc = rt.alloc();
    // 001100, 101011, 000011 and 100011, the first position in the lowest bit
    let same = block_of(alloc, 0b00_1100)?.same_next();
    expect(
        &rt,
        has_positions(alloc, &same, 0b11_0101)?,
        "equal to the next",
    );
    let both = if 1 < same.len() {
        same.and_ahead(1)
    } else {
        same
    };
    expect(
        &rt,
        has_positions(alloc, &both, 0b11_0000)?,
        "true here and ahead",
    );
    let either = if 1 < both.len() {
        both.or_behind(1)
    } else {
        both
    };
    expect(
        &rt,
        has_positions(alloc, &either, 0b11_0001)?,
        "true here or behind",
    );
    Ok(())
}
