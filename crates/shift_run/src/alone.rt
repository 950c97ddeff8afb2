//! A shift on one thread.
ghost use Rattle.std.specs.Prelude.{◌≡◌, ◌+◌, ◌<◌, ◌≤◌, ◌++◌, [], false, true, length, map};
ghost use Rattle.std.specs.Vec.{vec_capacity};
ghost use Rattle.version_journal.specs.Journals.{with_motifs};
ghost use Rattle.session_file.specs.Plans.{Fits, acts_of_plan};
ghost use Rattle.shift_model.specs.Logs.{named_act};
ghost use Rattle.shift_model.specs.Plans.{plan_of as the_plan_of};
ghost use Rattle.shift_run.specs.Runs.{AreNewest, GoesOnFrom, HaveRead, IsAtShift, IsCutShort, log_of};
ghost use Rattle.shift_run.specs.inner.Looms.{AllCanWeave, AllDid};
ghost use Rattle.shift_run.specs.inner.Shifts.{LeavesAlone};

use crate::desk::Desk;
use crate::foreman::direct_plain;
use crate::looms::{Part, ready_all, weave_in_turn};
use crate::plans::plan_of;
use crate::shift::{ShiftEnd, finish_shift, know_casting, know_laws, published};
use loom_threads::loom::Loom;
use mill_io::gate::Gate;
use session_file::session::Session;
use std::alloc::Global;
use std::sync::Wait;

// The looms' parts of a shift, one after another.
fn weave_shift<G: Gate>(
    session: &Session,
    shift: u32,
    parts: &[Part],
    looms: &mut Vec<Loom>,
    gate: &G,
)
    requires shift { shift < length session.now.shifts }
    requires looms { AllCanWeave (the_plan_of session.now shift).repeats parts.now looms.old.items }
    ensures { AllDid shift (the_plan_of session.now shift).repeats parts.now looms.old.items looms.new.items }
{
    let repeats = plan_of(session, shift).repeats.as_slice();
    weave_in_turn(shift, repeats, parts, looms, gate);
}

// A shift with memory for the looms' parts.
fn do_in_turn<R: Wait, G: Gate>(
    rt: &R,
    alloc: Global,
    session: &Session,
    shift: u32,
    mut parts: Vec<Part>,
    desk: &mut Desk,
    looms: &mut Vec<Loom>,
    gate: &G,
) -> bool
    requires fits { Fits session.now }
    requires shift { shift < length session.now.shifts }
    requires parts { parts.items ≡ [] }
    requires room { length looms.old.items ≤ vec_capacity parts }
    requires before { IsAtShift session.now shift desk.old looms.old.items }
    ensures { LeavesAlone session.now shift desk.old desk.new looms.old.items looms.new.items result }
{
    know_laws();
    know_casting(&session.design.casting);
    let _ = published(&desk.end);
    if !direct_plain(rt, alloc, session, shift, desk, gate) {
        return false;
    }
    let known = published(&desk.end);
    ready_all(looms, &mut desk.end, &mut parts);
    let parts = parts.as_slice();
    weave_shift(session, shift, parts, looms, gate);
    finish_shift(session, shift, desk, known, parts, looms);
    true
}

fn do_alone<R: Wait, G: Gate>(
    rt: &R,
    alloc: Global,
    session: &Session,
    shift: u32,
    desk: &mut Desk,
    looms: &mut Vec<Loom>,
    gate: &G,
) -> bool
    requires fits { Fits session.now }
    requires shift { shift < length session.now.shifts }
    requires before { IsAtShift session.now shift desk.old looms.old.items }
    ensures { LeavesAlone session.now shift desk.old desk.new looms.old.items looms.new.items result }
{
    let Ok(parts) = Vec::with_capacity(alloc, looms.len()) else {
        return false;
    };
    do_in_turn(rt, alloc, session, shift, parts, desk, looms, gate)
}

/// Runs a shift on this thread: all acts in plain order, and then each loom's repeats, all of the version that is newest by then. It starts
/// no thread. It may wait as a publication may.
pub fn run_shift_alone<R: Wait, G: Gate>(
    rt: &R,
    alloc: Global,
    desk: Desk,
    looms: Vec<Loom>,
    session: &Session,
    shift: u32,
    gate: &G,
) -> ShiftEnd
    requires fits { Fits session.now }
    requires shift { shift < length session.now.shifts }
    requires before { IsAtShift session.now shift desk looms.items }
    ensures after { result.out_of_memory ≡ false → IsAtShift session.now (shift + 1) result.desk result.looms.items }
    ensures read { result.out_of_memory ≡ false → HaveRead (the_plan_of session.now shift).repeats looms.items result.looms.items }
    ensures newest { result.out_of_memory ≡ false → AreNewest shift result.desk.core.entries result.looms.items }
    ensures plain { result.out_of_memory ≡ false → map (named_act session.now) result.desk.core.entries
        ≡ map (named_act session.now) desk.core.entries ++ with_motifs session.now.motifs (acts_of_plan (the_plan_of session.now shift)) }
    ensures short { result.out_of_memory ≡ true → IsCutShort session.now shift desk result.desk looms.items result.looms.items }
    ensures log { GoesOnFrom (log_of desk looms.items) (log_of result.desk result.looms.items) }
{
    let mut desk = desk;
    let mut looms = looms;
    let done = do_alone(rt, alloc, session, shift, &mut desk, &mut looms, gate);
    ShiftEnd {
        desk,
        looms,
        out_of_memory: !done,
    }
}
