//! The looms' parts of a shift.
ghost use Rattle.std.specs.Prelude.{◌≡◌, ◌+◌, ◌-◌, ◌^◌, ◌<◌, ◌≤◌, ℕ, true, false, is_some, length, slice_index, slice_index_or, replicate, ◌++◌, []};
ghost use Rattle.std.specs.Vec.{vec_capacity};
ghost use Rattle.mill_base.specs.Causes.{Rose};
ghost use Rattle.card_image.specs.Sets.{design_by};
ghost use Rattle.loom_threads.specs.Looms.{Knows, LoomValue, repeat_from, missed_of, readings_of};
ghost use Rattle.shift_run.specs.inner.Looms.{AllCanFinish, AllCanWeave, AllDid, AllFinished, AllReadied, CanFinish, CanWeave, DidFinish, DidPart, DidTurns, Fills, IsReadied, Keeps, part_at};

use crate::shares::{threads_for, weave_each, weave_share};
use loom_threads::loom::Loom;
use mill_io::gate::Gate;
use shed_publish::desk_end::DeskEnd;
use std::thread::Threads;
use studio_core::tile_core::Core;

/// What is kept of a loom from before its part of a shift: whether it was handed the published list, and how many repeats it had.
#[derive(Clone, Copy)]
pub struct Part {
    pub told: bool,
    pub start: u32,
}

/// The part of a loom. Nothing is kept of a loom that there is none of.
pub(crate) fn part_of(parts: &[Part], loom: usize) -> Part
    ensures { result ≡ part_at parts.now loom }
{
    match parts.get(loom) {
        Some(part) => *part,
        None => Part {
            told: false,
            start: 0,
        },
    }
}

/// How many repeats a loom weaves in a shift.
pub(crate) fn count_of(repeats: &[u32], loom: usize) -> u32
    ensures { result ≡ slice_index repeats.now loom }
{
    match repeats.get(loom) {
        Some(count) => *count,
        None => 0,
    }
}

// Tells a proof that the counts of a loom are counts of 64 bits.
fn know_counts(loom: &Loom)
    ensures readings { readings_of loom.now < 2 ^ 64 }
    ensures missed { missed_of loom.now < 2 ^ 64 }
{
    let _ = loom.readings();
    let _ = loom.missed();
}

// Reads once, and answers whether that saw the published list.
fn sees(loom: &mut Loom, end: &mut DeskEnd) -> bool
    requires { is_some loom.old.end ≡ true }
    ensures same { loom.new ≡ record loom.old { end = loom.new.end } }
    ensures reads { is_some loom.new.end ≡ true }
    ensures readings { readings_of loom.old ≤ readings_of loom.new }
    ensures missed { missed_of loom.old ≤ missed_of loom.new }
    ensures knows { result ≡ true → Knows end.old.list loom.new }
    ensures unseen { result ≡ false → Rose (missed_of loom.old) (missed_of loom.new) }
    ensures end { end.new ≡ end.old }
{
    know_counts(loom);
    loom.meet(end.tell(), 0)
}

// Hands a loom the published list, and answers whether the loom knows it. A loom that got no place may have missed it: then a reading
// decides.
fn tell(loom: &mut Loom, end: &mut DeskEnd) -> bool
    requires { is_some loom.old.end ≡ true }
    ensures same { loom.new ≡ record loom.old { end = loom.new.end } }
    ensures reads { is_some loom.new.end ≡ true }
    ensures readings { readings_of loom.old ≤ readings_of loom.new }
    ensures missed { missed_of loom.old ≤ missed_of loom.new }
    ensures knows { result ≡ true → Knows end.old.list loom.new }
    ensures untold { result ≡ false → Rose (missed_of loom.old) (missed_of loom.new) }
    ensures list { end.new.list ≡ end.old.list }
{
    let refused = end.refused();
    loom.learn(end.tell());
    if refused < u64::MAX && end.refused() == refused {
        return true;
    }
    sees(loom, end)
}

// Makes a loom ready for a shift.
fn ready(loom: &mut Loom, end: &mut DeskEnd) -> Part
    requires { length loom.old.repeats < 2 ^ 32 }
    ensures ready { IsReadied end.old.list result loom.old loom.new }
    ensures list { end.new.list ≡ end.old.list }
{
    let start = loom.repeats().len() as u32;
    let told = loom.reads() && tell(loom, end);
    Part { told, start }
}

/// Makes the looms ready for a shift, and keeps the part of each.
pub fn ready_all(looms: &mut Vec<Loom>, end: &mut DeskEnd, parts: &mut Vec<Part>)
    requires few { (j : ℕ) (d : LoomValue) → j < length looms.old.items → length (slice_index_or looms.old.items j d).repeats < 2 ^ 32 }
    requires room { length looms.old.items ≤ vec_capacity parts.old }
    requires parts { parts.old.items ≡ [] }
    ensures ready { AllReadied end.old.list parts.new.items looms.old.items looms.new.items }
    ensures list { end.new.list ≡ end.old.list }
{
    'looms: for k in 0..looms.len() {
        let part = ready(&mut looms[k], end);
        parts.push_reserved(part);
    }
}

/// A loom's part of a shift: repeats of what it reads.
pub(crate) fn weave_part<G: Gate>(loom: &mut Loom, shift: u32, count: u32, part: Part, gate: &G)
    requires { CanWeave count part loom.old }
    ensures { DidPart shift count part loom.old loom.new }
{
    if part.told {
        loom.run(shift, count, gate);
    }
}

/// Each loom does its part, in as many threads as there is work for. `bytes` are those of a repeat. No loom waits.
pub fn weave_all<R: Threads + Sync, G: Gate>(
    rt: &R,
    shift: u32,
    bytes: u64,
    repeats: &[u32],
    parts: &[Part],
    looms: &mut Vec<Loom>,
    gate: &G,
)
    requires { AllCanWeave repeats.now parts.now looms.old.items }
    ensures { AllDid shift repeats.now parts.now looms.old.items looms.new.items }
{
    let threads = threads_for(rt, bytes, repeats, looms.len());
    weave_share(
        rt,
        shift,
        threads,
        repeats,
        parts,
        looms.as_mut_slice(),
        gate,
    );
}

/// The looms do their parts one after another.
pub fn weave_in_turn<G: Gate>(
    shift: u32,
    repeats: &[u32],
    parts: &[Part],
    looms: &mut Vec<Loom>,
    gate: &G,
)
    requires { AllCanWeave repeats.now parts.now looms.old.items }
    ensures { AllDid shift repeats.now parts.now looms.old.items looms.new.items }
{
    weave_each(shift, repeats, parts, looms.as_mut_slice(), gate);
}

// Keeps what a loom wove in the shift where what it read is the published list.
fn keep(loom: &mut Loom, end: &mut DeskEnd, known: u32, start: u32)
    requires { start ≤ length loom.old.repeats }
    ensures kept { Keeps known end.old.list start loom.old loom.new }
    ensures end { end.new ≡ end.old }
{
    if !loom.reads() {
        return;
    }
    know_counts(loom);
    if !loom.meet(end.tell(), known) {
        loom.cut(start);
    }
}

// Adds so many repeats of the newest version.
fn fill(loom: &mut Loom, core: &Core, shift: u32, count: usize)
    requires room { count ≤ loom.old.spare }
    requires cards { core.now.cards.design ≡ design_by loom.old.machine.casting loom.old.picks }
    ensures { Fills shift core.now.version count core.now.cards loom.old loom.new }
{
    let version = core.version();
    let cards = core.newest_cards();
    'rest: for _ in 0..count {
        loom.weave_repeat(version, cards, shift);
    }
}

// Ends a loom's part of a shift: what it wove is kept where it met the published list, and what it lacks is woven from the newest version.
fn finish(
    loom: &mut Loom,
    end: &mut DeskEnd,
    core: &Core,
    shift: u32,
    count: u32,
    known: u32,
    part: Part,
)
    requires { CanFinish count core.now.cards part loom.old }
    ensures finished { DidFinish shift count known core.now.version core.now.cards end.old.list part loom.old loom.new }
    ensures end { end.new ≡ end.old }
{
    keep(loom, end, known, part.start);
    let until = part.start as usize + count as usize;
    let lack = until - loom.repeats().len();
    fill(loom, core, shift, lack);
}

/// Ends the looms' parts of a shift. It takes no memory.
pub fn finish_all(
    looms: &mut Vec<Loom>,
    end: &mut DeskEnd,
    core: &Core,
    shift: u32,
    repeats: &[u32],
    known: u32,
    parts: &[Part],
)
    requires { AllCanFinish repeats.now core.now.cards parts.now looms.old.items }
    ensures finished { AllFinished shift known core.now.version core.now.cards end.old.list repeats.now parts.now looms.old.items looms.new.items }
    ensures end { end.new ≡ end.old }
{
    'looms: for k in 0..looms.len() {
        finish(
            &mut looms[k],
            end,
            core,
            shift,
            count_of(repeats, k),
            known,
            part_of(parts, k),
        );
    }
}
