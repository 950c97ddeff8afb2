//! The looms' parts of a shift, shared among threads.
ghost use Rattle.std.specs.Prelude.{◌≡◌, ◌<◌, ◌≤◌, drop, length};
ghost use Rattle.std.specs.Thread.{IsSync};
ghost use Rattle.shift_run.specs.inner.Looms.{AllCanWeave, AllDid};

use crate::looms::{Part, count_of, part_of, weave_part};
use loom_threads::loom::Loom;
use mill_io::gate::Gate;
use std::thread::{Threads, available_parallelism, join_mut};

// So many bytes of weaving are worth a thread of their own: starting one takes as long as some thousand bytes take to be woven.
const BYTES_OF_A_THREAD: u64 = 131_072;

// Two looms that weave go on at the same time, however little they weave.
const LEAST: usize = 2;

// How many of the first so many looms weave.
fn count_busy(repeats: &[u32], looms: usize) -> usize {
    let mut busy = 0_usize;
    'looms: for loom in 0..looms {
        if count_of(repeats, loom) > 0 {
            busy = busy.saturating_add(1);
        }
    }
    busy
}

// How many repeats the first so many looms weave.
fn count_repeats(repeats: &[u32], looms: usize) -> u64 {
    let mut count = 0_u64;
    'looms: for loom in 0..looms {
        count = count.saturating_add(u64::from(count_of(repeats, loom)));
    }
    count
}

// How many processors there are, or as many as there are at the least.
fn processors<R: Threads>(rt: &R) -> usize {
    match available_parallelism(rt) {
        Ok(count) => count.get().max(LEAST),
        Err(_) => LEAST,
    }
}

/// In how many threads so many looms weave, where a repeat has so many bytes: as many as there is work for, but two where two looms
/// weave, and no more than there are processors or looms that weave.
pub fn threads_for<R: Threads>(rt: &R, bytes: u64, repeats: &[u32], looms: usize) -> usize {
    let busy = count_busy(repeats, looms);
    let work = count_repeats(repeats, looms).saturating_mul(bytes) / BYTES_OF_A_THREAD;
    let wanted = (work as usize).min(busy);
    if wanted <= LEAST {
        busy.min(LEAST)
    } else {
        wanted.min(processors(rt))
    }
}

// How many of the looms, from the first on, share `low` of so many threads: those that have that part of the repeats, but at least one that
// weaves.
fn place_of(repeats: &[u32], looms: usize, low: usize, threads: usize) -> usize
    ensures { result ≤ looms }
{
    let most = count_repeats(repeats, looms).saturating_mul(low as u64);
    let mut before = 0_u64;
    let mut place = 0_usize;
    'looms: for loom in 0..looms {
        let until = before.saturating_add(u64::from(count_of(repeats, loom)));
        if before == 0 || until.saturating_mul(threads as u64) <= most {
            place = loom + 1;
        }
        before = until;
    }
    place
}

// What is behind the first so many.
fn behind<T>(list: &[T], place: usize) -> &[T]
    ensures { result.now ≡ drop place list.now }
{
    let (_, rest) = list.split_at(place.min(list.len()));
    rest
}

/// The looms do their parts one after another.
pub fn weave_each<G: Gate>(
    shift: u32,
    repeats: &[u32],
    parts: &[Part],
    looms: &mut [Loom],
    gate: &G,
)
    requires { AllCanWeave repeats.now parts.now looms.old }
    ensures { AllDid shift repeats.now parts.now looms.old looms.new }
{
    'looms: for k in 0..looms.len() {
        weave_part(
            &mut looms[k],
            shift,
            count_of(repeats, k),
            part_of(parts, k),
            gate,
        );
    }
}

/// The looms do their parts, in so many threads at the most.
#[cycle(shares)]
pub fn weave_share<R: Threads + Sync, G: Gate>(
    rt: &R,
    shift: u32,
    threads: usize,
    repeats: &[u32],
    parts: &[Part],
    looms: &mut [Loom],
    gate: &G,
)
    requires { AllCanWeave repeats.now parts.now looms.old }
    ensures { AllDid shift repeats.now parts.now looms.old looms.new }
{
    let used = threads.min(count_busy(repeats, looms.len()));
    if used < LEAST {
        weave_each(shift, repeats, parts, looms, gate);
    } else {
        weave_halves(rt, shift, used, repeats, parts, looms, gate);
    }
}

// The looms are cut in two shares, each with half of the threads and as much of the work.
#[cycle(shares)]
fn weave_halves<R: Threads + Sync, G: Gate>(
    rt: &R,
    shift: u32,
    threads: usize,
    repeats: &[u32],
    parts: &[Part],
    looms: &mut [Loom],
    gate: &G,
)
    requires threads { 2 ≤ threads }
    requires looms { AllCanWeave repeats.now parts.now looms.old }
    ensures { AllDid shift repeats.now parts.now looms.old looms.new }
{
    let low = threads / 2;
    let high = threads - low;
    let place = place_of(repeats, looms.len(), low, threads);
    let (front, back) = looms.split_at_mut(place);
    weave_both(
        rt, shift, low, high, place, repeats, parts, front, back, gate,
    );
}

// Both shares at the same time. The second begins at this place.
#[cycle(shares)]
fn weave_both<R: Threads + Sync, G: Gate>(
    rt: &R,
    shift: u32,
    low: usize,
    high: usize,
    place: usize,
    repeats: &[u32],
    parts: &[Part],
    front: &mut [Loom],
    back: &mut [Loom],
    gate: &G,
)
    requires threads { (0 < low) × (0 < high) }
    requires front { AllCanWeave repeats.now parts.now front.old }
    requires back { AllCanWeave (drop place repeats.now) (drop place parts.now) back.old }
    ensures front { AllDid shift repeats.now parts.now front.old front.new }
    ensures back { AllDid shift (drop place repeats.now) (drop place parts.now) back.old back.new }
{
    let mut one = || -> ()
        requires { IsSync R.row × AllCanWeave repeats.now parts.now front.now }
        ensures { AllDid shift repeats.entry.now parts.entry.now front.entry.now front.exit.now }
    { weave_share(rt, shift, low, repeats, parts, front, gate) };
    let mut other = || -> ()
        requires { IsSync R.row × AllCanWeave (drop place repeats.now) (drop place parts.now) back.now }
        ensures { AllDid shift (drop place repeats.entry.now) (drop place parts.entry.now) back.entry.now back.exit.now }
    { weave_behind(rt, shift, high, place, repeats, parts, back, gate) };
    join_mut(rt, &mut one, &mut other);
}

// The looms from a place on.
#[cycle(shares)]
fn weave_behind<R: Threads + Sync, G: Gate>(
    rt: &R,
    shift: u32,
    threads: usize,
    place: usize,
    repeats: &[u32],
    parts: &[Part],
    looms: &mut [Loom],
    gate: &G,
)
    requires { AllCanWeave (drop place repeats.now) (drop place parts.now) looms.old }
    ensures { AllDid shift (drop place repeats.now) (drop place parts.now) looms.old looms.new }
{
    weave_share(
        rt,
        shift,
        threads,
        behind(repeats, place),
        behind(parts, place),
        looms,
        gate,
    );
}
