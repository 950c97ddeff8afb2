//! A line that is bound, worked out by hand.
ghost use Rattle.std.specs.Prelude.{◌≡◌, length, IfOk};

use crate::expect::expect;
use binder_marks::bind_line;
use mill_base::bit_row::BitRow;
use mill_base::memory::OutOfMemory;
use std::alloc::Global;
use std::test::Fail;

/// A row of sixteen cells, of which cell k is bit k of the word.
fn row_of(alloc: Global, word: u64) -> Result<BitRow, OutOfMemory>
    ensures { IfOk result (λ row. length row ≡ 16) }
{
    let mut row = BitRow::new(alloc, 16)?;
    row.put_word(0, word);
    Ok(row)
}

/// Cell k is lifted, long, marked by raise and marked by sink where bit 0, 1, 2 and 3 of k is set.
fn bound(alloc: Global) -> Result<BitRow, OutOfMemory> {
    let raw = row_of(alloc, 0xaaaa)?;
    let long = row_of(alloc, 0xcccc)?;
    let raise = row_of(alloc, 0xf0f0)?;
    let sink = row_of(alloc, 0xff00)?;
    let mut out = row_of(alloc, 0xffff)?;
    bind_line(&raw, &long, &raise, &sink, &mut out);
    Ok(out)
}

/// Cells 1, 5, 9 and 13 stay lifted, 6 and 14 are raised, 3 and 7 are not lowered, and 11 and 15 are.
#[test]
fn each_of_the_sixteen_cases_is_bound_by_the_rule(rt: HostRuntime) -> Result<(), Fail> {
    let wanted = row_of(rt.alloc(), 0x62ea)?;
    expect(&rt, bound(rt.alloc())?.equals(&wanted), "sixteen cases");
    Ok(())
}
