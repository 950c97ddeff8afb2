//! Castings written out by hand.
ghost use Rattle.std.specs.Prelude.{◌<◌, ◌^◌, length};

use crate::expect::expect;
use casting_out::casting::Casting;
use casting_out::fault::CastingFault;
use std::alloc::Global;
use std::test::Fail;

/// Whether the columns have these hooks, and the hooks these columns.
fn casts(alloc: Global, hooks: u32, cast_out: &[u32], want: &[u32]) -> Result<bool, Fail>
    requires { length want.now < 2 ^ 32 }
{
    let columns = want.len() as u32;
    let casting = Casting::build(alloc, hooks, cast_out, columns)?.copy()?;
    for (column, hook) in want.iter().enumerate() {
        if *hook >= casting.hooks() || casting.column(*hook) != Some(column as u32) {
            return Ok(false);
        }
    }
    Ok(casting.hooks() == hooks)
}

#[test]
fn columns_take_the_live_hooks(rt: HostRuntime) -> Result<(), Fail> {
    let alloc = rt.alloc();
    expect(
        &rt,
        casts(alloc, 8, &[3], &[0, 1, 2, 4, 5])?,
        "one cast out",
    );
    expect(
        &rt,
        casts(alloc, 8, &[7, 0, 4], &[1, 2, 3, 5, 6])?,
        "three cast out",
    );
    expect(&rt, casts(alloc, 3, &[1, 0, 2], &[])?, "all cast out");
    Ok(())
}

fn short(live: u32, columns: u32) -> CastingFault {
    CastingFault::HooksShort { live, columns }
}

fn fails(alloc: Global, hooks: u32, cast_out: &[u32], columns: u32, want: CastingFault) -> bool {
    Casting::build(alloc, hooks, cast_out, columns).err() == Some(want)
}

#[test]
fn the_first_fault_is_told(rt: HostRuntime) {
    let alloc = rt.alloc();
    expect(&rt, fails(alloc, 5, &[1], 5, short(4, 5)), "short");
    expect(&rt, fails(alloc, 0, &[], 1, short(0, 1)), "no hook");
    expect(
        &rt,
        fails(alloc, 5, &[9, 1, 1], 1, CastingFault::HookRange(9)),
        "range",
    );
    expect(
        &rt,
        fails(alloc, 5, &[1, 1, 9], 1, CastingFault::CastTwice(1)),
        "twice",
    );
    expect(
        &rt,
        fails(alloc, 5, &[1, 4, 4], 5, CastingFault::CastTwice(4)),
        "twice and short",
    );
}
