//! A shift: painters, the foreman and looms go on at the same time.
ghost use Rattle.std.specs.Prelude.{◌≡◌, ◌+◌, ◌<◌, ◌≤◌, false, true, [], length};
ghost use Rattle.std.specs.Thread.{IsSync};
ghost use Rattle.std.specs.Vec.{vec_capacity};
ghost use Rattle.casting_out.specs.Castings.{IsCasting};
ghost use Rattle.crossbeam_channel.specs.Claims.{IsSeatAt};
ghost use Rattle.crossbeam_channel.specs.Ends.{receives_on};
ghost use Rattle.session_file.specs.Plans.{Fits};
ghost use Rattle.shed_publish.specs.Versions.{IsPublished};
ghost use Rattle.studio_core.specs.Cores.{IsCore};
ghost use Rattle.shift_run.specs.Desks.{IsReady};
ghost use Rattle.shift_model.specs.Plans.{plan_of as the_plan_of};
ghost use Rattle.shift_run.specs.Runs.{GoesOnFrom, HaveRead, IsAtShift, IsCutShort, log_of};
ghost use Rattle.shift_run.specs.inner.Foreman.{Directs, acts_of_shift};
ghost use Rattle.shift_run.specs.inner.Looms.{AllCanFinish, AllCanWeave, AllDid, AllFinished};
ghost use Rattle.shift_run.specs.inner.Shifts.{Leaves};
ghost use Rattle.shift_run.specs.inner.Laws.{CardsLift, OpeningFirst, VersionsCount, VersionsStay};

use crate::desk::Desk;
use crate::foreman::{direct, direct_plain};
use crate::looms::{Part, finish_all, ready_all, weave_all};
use crate::mail::{MailFrom, MailPass, Painter, open_mail, paint};
use crate::plans::plan_of;
use casting_out::casting::Casting;
use loom_threads::loom::Loom;
use mill_io::gate::Gate;
use session_file::session::Session;
use shed_publish::desk_end::DeskEnd;
use std::alloc::Global;
use std::sync::Wait;
use std::thread::{Threads, for_each_mut, join_mut};
use studio_core::tile_core::Core;

// So many threads painters share at the most: an act is soon prepared.
const THREADS_OF_PAINTERS: usize = 2;

// A painter's part. It gives up its end of the mail.
fn paint_part<R: Wait, G: Gate>(
    rt: &R,
    alloc: Global,
    session: &Session,
    shift: u32,
    end: &mut Option<Painter>,
    gate: &G,
)
    requires fits { Fits session.now }
    requires shift { shift < length session.now.shifts }
{
    let Some(end) = end.take() else {
        return;
    };
    let painter = end.painter;
    if (painter as usize) < plan_of(session, shift).painters.len() {
        paint(rt, alloc, session, shift, painter, end, gate);
    }
}

// Each painter does its part, in two threads where there are two painters with acts.
fn paint_all<R: Threads + Wait + Sync, G: Gate>(
    rt: &R,
    alloc: Global,
    session: &Session,
    shift: u32,
    painters: &mut Vec<Option<Painter>>,
    gate: &G,
)
    requires fits { Fits session.now }
    requires shift { shift < length session.now.shifts }
{
    let offer = |_: usize, end: &mut Option<Painter>|
        requires { Fits session.now × (shift < length session.now.shifts) }
    { paint_part(rt, alloc, session, shift, end, gate) };
    for_each_mut(rt, painters.as_mut_slice(), THREADS_OF_PAINTERS, &offer);
}

// The bytes of a repeat.
fn bytes_of(session: &Session) -> u64 {
    let row = session.design.tie.ends().div_ceil(8);
    u64::from(session.design.size.picks).saturating_mul(u64::from(row))
}

// The looms' parts of a shift.
fn weave_shift<R: Threads + Sync, G: Gate>(
    rt: &R,
    session: &Session,
    shift: u32,
    parts: &[Part],
    looms: &mut Vec<Loom>,
    gate: &G,
)
    requires shift { shift < length session.now.shifts }
    requires looms { AllCanWeave (the_plan_of session.now shift).repeats parts.now looms.old.items }
    ensures { AllDid shift (the_plan_of session.now shift).repeats parts.now looms.old.items looms.new.items }
{
    let repeats = plan_of(session, shift).repeats.as_slice();
    weave_all(rt, shift, bytes_of(session), repeats, parts, looms, gate);
}

// Whether a loom weaves in a shift.
fn has_repeats(session: &Session, shift: u32) -> bool
    requires { shift < length session.now.shifts }
{
    let repeats = plan_of(session, shift).repeats.as_slice();
    repeats.iter().any(|count| *count > 0)
}

// The foreman and the looms at the same time. Where no thread can be made a join runs its second closure first.
fn direct_beside_looms<R: Threads + Wait + Sync, G: Gate>(
    rt: &R,
    alloc: Global,
    session: &Session,
    shift: u32,
    from: &MailFrom,
    pass: &mut MailPass,
    desk: &mut Desk,
    parts: &[Part],
    looms: &mut Vec<Loom>,
    gate: &G,
) -> bool
    requires fits { Fits session.now }
    requires shift { shift < length session.now.shifts }
    requires mail { IsSeatAt (receives_on from.now) pass.old }
    requires design { desk.old.core.design ≡ session.now.design }
    requires ready { IsReady desk.old }
    requires room { acts_of_shift session.now shift ≤ desk.old.core.spare }
    requires looms { AllCanWeave (the_plan_of session.now shift).repeats parts.now looms.old.items }
    ensures foreman { Directs session.now shift desk.old desk.new result }
    ensures looms { AllDid shift (the_plan_of session.now shift).repeats parts.now looms.old.items looms.new.items }
{
    let mut weave = || -> ()
        requires { IsSync R.row × (shift < length session.now.shifts) × AllCanWeave (the_plan_of session.now shift).repeats parts.now looms.now.items }
        ensures { AllDid shift (the_plan_of session.entry.now shift).repeats parts.entry.now looms.entry.now.items looms.exit.now.items }
    { weave_shift(rt, session, shift, parts, looms, gate) };
    let mut work = || -> bool
        requires { Fits session.now × (shift < length session.now.shifts) × IsSeatAt (receives_on from.now) pass.now
            × (desk.now.core.design ≡ session.now.design) × IsReady desk.now × (acts_of_shift session.now shift ≤ desk.now.core.spare) }
        ensures { Directs session.entry.now shift desk.entry.now desk.exit.now result }
    { direct(rt, alloc, session, shift, from, pass, desk, gate) };
    let ((), all) = join_mut(rt, &mut weave, &mut work);
    all
}

// The foreman, and then what looms without repeats have to do.
fn direct_before_looms<R: Threads + Wait + Sync, G: Gate>(
    rt: &R,
    alloc: Global,
    session: &Session,
    shift: u32,
    from: &MailFrom,
    pass: &mut MailPass,
    desk: &mut Desk,
    parts: &[Part],
    looms: &mut Vec<Loom>,
    gate: &G,
) -> bool
    requires fits { Fits session.now }
    requires shift { shift < length session.now.shifts }
    requires mail { IsSeatAt (receives_on from.now) pass.old }
    requires design { desk.old.core.design ≡ session.now.design }
    requires ready { IsReady desk.old }
    requires room { acts_of_shift session.now shift ≤ desk.old.core.spare }
    requires looms { AllCanWeave (the_plan_of session.now shift).repeats parts.now looms.old.items }
    ensures foreman { Directs session.now shift desk.old desk.new result }
    ensures looms { AllDid shift (the_plan_of session.now shift).repeats parts.now looms.old.items looms.new.items }
{
    let all = direct(rt, alloc, session, shift, from, pass, desk, gate);
    weave_shift(rt, session, shift, parts, looms, gate);
    all
}

// The foreman, and the looms at the same time if any weaves.
fn direct_and_weave<R: Threads + Wait + Sync, G: Gate>(
    rt: &R,
    alloc: Global,
    session: &Session,
    shift: u32,
    from: &MailFrom,
    pass: &mut MailPass,
    desk: &mut Desk,
    parts: &[Part],
    looms: &mut Vec<Loom>,
    gate: &G,
) -> bool
    requires fits { Fits session.now }
    requires shift { shift < length session.now.shifts }
    requires mail { IsSeatAt (receives_on from.now) pass.old }
    requires design { desk.old.core.design ≡ session.now.design }
    requires ready { IsReady desk.old }
    requires room { acts_of_shift session.now shift ≤ desk.old.core.spare }
    requires looms { AllCanWeave (the_plan_of session.now shift).repeats parts.now looms.old.items }
    ensures foreman { Directs session.now shift desk.old desk.new result }
    ensures looms { AllDid shift (the_plan_of session.now shift).repeats parts.now looms.old.items looms.new.items }
{
    if has_repeats(session, shift) {
        direct_beside_looms(
            rt, alloc, session, shift, from, pass, desk, parts, looms, gate,
        )
    } else {
        direct_before_looms(
            rt, alloc, session, shift, from, pass, desk, parts, looms, gate,
        )
    }
}

// The painters, and at the same time the foreman and the looms. Where no thread can be made a join runs its second closure first, and the
// foreman waits for the painters: so the painters stand second.
fn work_in_threads<R: Threads + Wait + Sync, G: Gate>(
    rt: &R,
    alloc: Global,
    session: &Session,
    shift: u32,
    mail: (Vec<Option<Painter>>, MailFrom, MailPass),
    desk: &mut Desk,
    parts: &[Part],
    looms: &mut Vec<Loom>,
    gate: &G,
) -> bool
    requires fits { Fits session.now }
    requires shift { shift < length session.now.shifts }
    requires mail { IsSeatAt (receives_on mail.1) mail.2 }
    requires design { desk.old.core.design ≡ session.now.design }
    requires ready { IsReady desk.old }
    requires room { acts_of_shift session.now shift ≤ desk.old.core.spare }
    requires looms { AllCanWeave (the_plan_of session.now shift).repeats parts.now looms.old.items }
    ensures foreman { Directs session.now shift desk.old desk.new result }
    ensures looms { AllDid shift (the_plan_of session.now shift).repeats parts.now looms.old.items looms.new.items }
{
    let (mut painters, from, mut pass) = mail;
    let mut offer = || -> ()
        requires { IsSync R.row × Fits session.now × (shift < length session.now.shifts) }
    { paint_all(rt, alloc, session, shift, &mut painters, gate) };
    let mut rest = || -> bool
        requires { IsSync R.row × Fits session.now × (shift < length session.now.shifts) × IsSeatAt (receives_on from) pass
            × (desk.now.core.design ≡ session.now.design) × IsReady desk.now × (acts_of_shift session.now shift ≤ desk.now.core.spare)
            × AllCanWeave (the_plan_of session.now shift).repeats parts.now looms.now.items }
        ensures { Directs session.entry.now shift desk.entry.now desk.exit.now result
            × AllDid shift (the_plan_of session.entry.now shift).repeats parts.entry.now looms.entry.now.items looms.exit.now.items }
    {
        direct_and_weave(
            rt, alloc, session, shift, &from, &mut pass, desk, parts, looms, gate,
        )
    };
    let (all, ()) = join_mut(rt, &mut rest, &mut offer);
    all
}

// All acts in plain order, and then the looms' parts. Nothing is mailed.
fn work_in_turn<R: Threads + Wait + Sync, G: Gate>(
    rt: &R,
    alloc: Global,
    session: &Session,
    shift: u32,
    desk: &mut Desk,
    parts: &[Part],
    looms: &mut Vec<Loom>,
    gate: &G,
) -> bool
    requires fits { Fits session.now }
    requires shift { shift < length session.now.shifts }
    requires design { desk.old.core.design ≡ session.now.design }
    requires ready { IsReady desk.old }
    requires room { acts_of_shift session.now shift ≤ desk.old.core.spare }
    requires looms { AllCanWeave (the_plan_of session.now shift).repeats parts.now looms.old.items }
    ensures foreman { Directs session.now shift desk.old desk.new result }
    ensures looms { AllDid shift (the_plan_of session.now shift).repeats parts.now looms.old.items looms.new.items }
{
    let all = direct_plain(rt, alloc, session, shift, desk, gate);
    weave_shift(rt, session, shift, parts, looms, gate);
    all
}

// The painters, the foreman and the looms. Where nobody has acts, or one painter has and no loom weaves, nothing could go on beside it, and
// the mail is not used.
fn work_all<R: Threads + Wait + Sync, G: Gate>(
    rt: &R,
    alloc: Global,
    session: &Session,
    shift: u32,
    mail: (Vec<Option<Painter>>, MailFrom, MailPass),
    desk: &mut Desk,
    parts: &[Part],
    looms: &mut Vec<Loom>,
    gate: &G,
) -> bool
    requires fits { Fits session.now }
    requires shift { shift < length session.now.shifts }
    requires mail { IsSeatAt (receives_on mail.1) mail.2 }
    requires design { desk.old.core.design ≡ session.now.design }
    requires ready { IsReady desk.old }
    requires room { acts_of_shift session.now shift ≤ desk.old.core.spare }
    requires looms { AllCanWeave (the_plan_of session.now shift).repeats parts.now looms.old.items }
    ensures foreman { Directs session.now shift desk.old desk.new result }
    ensures looms { AllDid shift (the_plan_of session.now shift).repeats parts.now looms.old.items looms.new.items }
{
    if mail.0.len() + usize::from(has_repeats(session, shift)) < 2 || mail.0.is_empty() {
        work_in_turn(rt, alloc, session, shift, desk, parts, looms, gate)
    } else {
        work_in_threads(rt, alloc, session, shift, mail, desk, parts, looms, gate)
    }
}

/// Tells a proof that the columns hang on hooks in rising order.
pub(crate) fn know_casting(casting: &Casting)
    ensures { IsCasting casting.now }
{
    let _ = casting.hooks();
}

/// Tells a proof what holds of every core.
pub(crate) fn know_core(core: &Core)
    ensures { IsCore core.now }
{
    let _ = core.design();
}

/// How many versions are published.
pub(crate) fn published(end: &DeskEnd) -> u32
    ensures few { result ≤ length end.now.list }
    ensures published { IsPublished end.now.list }
{
    end.version().saturating_add(1)
}

/// Tells a proof the laws that a shift rests on.
pub(crate) fn know_laws()
    ensures stay { VersionsStay }
    ensures count { VersionsCount }
    ensures first { OpeningFirst }
    ensures lift { CardsLift }
{
    version_journal::laws::acts_go_on_from_where_others_ended();
    version_journal::laws::each_accepted_commit_makes_a_version();
    version_journal::laws::versions_keep_no_float();
    loom_threads::laws::cut_cards_lift_the_cloth();
}

/// Ends the looms' parts of a shift.
pub(crate) fn finish_shift(
    session: &Session,
    shift: u32,
    desk: &mut Desk,
    known: u32,
    parts: &[Part],
    looms: &mut Vec<Loom>,
)
    requires shift { shift < length session.now.shifts }
    requires can { IsCore desk.old.core → AllCanFinish (the_plan_of session.now shift).repeats desk.old.core.cards parts.now looms.old.items }
    ensures finished { AllFinished shift known desk.old.core.version desk.old.core.cards desk.old.end.list (the_plan_of session.now shift).repeats parts.now
        looms.old.items looms.new.items }
    ensures desk { desk.new ≡ desk.old }
{
    know_core(&desk.core);
    let repeats = plan_of(session, shift).repeats.as_slice();
    finish_all(
        looms,
        &mut desk.end,
        &desk.core,
        shift,
        repeats,
        known,
        parts,
    );
}

// A shift with memory for its mail and for the looms' parts.
fn do_roles<R: Threads + Wait + Sync, G: Gate>(
    rt: &R,
    alloc: Global,
    session: &Session,
    shift: u32,
    mail: (Vec<Option<Painter>>, MailFrom, MailPass),
    mut parts: Vec<Part>,
    desk: &mut Desk,
    looms: &mut Vec<Loom>,
    gate: &G,
) -> bool
    requires fits { Fits session.now }
    requires shift { shift < length session.now.shifts }
    requires mail { IsSeatAt (receives_on mail.1) mail.2 }
    requires parts { parts.items ≡ [] }
    requires room { length looms.old.items ≤ vec_capacity parts }
    requires before { IsAtShift session.now shift desk.old looms.old.items }
    ensures { Leaves session.now shift desk.old desk.new looms.old.items looms.new.items result }
{
    know_laws();
    know_casting(&session.design.casting);
    let known = published(&desk.end);
    ready_all(looms, &mut desk.end, &mut parts);
    let parts = parts.as_slice();
    let all = work_all(rt, alloc, session, shift, mail, desk, parts, looms, gate);
    finish_shift(session, shift, desk, known, parts, looms);
    all
}

// A shift, until memory is refused.
fn do_shift<R: Threads + Wait + Sync, G: Gate>(
    rt: &R,
    alloc: Global,
    session: &Session,
    shift: u32,
    desk: &mut Desk,
    looms: &mut Vec<Loom>,
    gate: &G,
) -> bool
    requires fits { Fits session.now }
    requires shift { shift < length session.now.shifts }
    requires before { IsAtShift session.now shift desk.old looms.old.items }
    ensures { Leaves session.now shift desk.old desk.new looms.old.items looms.new.items result }
{
    let Ok(mail) = open_mail(alloc, session, shift) else {
        return false;
    };
    let Ok(parts) = Vec::with_capacity(alloc, looms.len()) else {
        return false;
    };
    do_roles(rt, alloc, session, shift, mail, parts, desk, looms, gate)
}

/// What a shift leaves: the desk and the looms with what was done, and whether memory was refused.
pub struct ShiftEnd {
    pub desk: Desk,
    pub looms: Vec<Loom>,
    pub out_of_memory: bool,
}

/// Runs a shift. Its painters, the foreman and the looms go on at the same time where threads can be made, in as many as there is work for.
/// Whatever becomes of it, the log goes on from what it was.
pub fn run_shift<R: Threads + Wait + Sync, G: Gate>(
    rt: &R,
    alloc: Global,
    desk: Desk,
    looms: Vec<Loom>,
    session: &Session,
    shift: u32,
    gate: &G,
) -> ShiftEnd
    requires fits { Fits session.now }
    requires shift { shift < length session.now.shifts }
    requires before { IsAtShift session.now shift desk looms.items }
    ensures after { result.out_of_memory ≡ false → IsAtShift session.now (shift + 1) result.desk result.looms.items }
    ensures read { result.out_of_memory ≡ false → HaveRead (the_plan_of session.now shift).repeats looms.items result.looms.items }
    ensures short { result.out_of_memory ≡ true → IsCutShort session.now shift desk result.desk looms.items result.looms.items }
    ensures log { GoesOnFrom (log_of desk looms.items) (log_of result.desk result.looms.items) }
{
    let mut desk = desk;
    let mut looms = looms;
    let done = do_shift(rt, alloc, session, shift, &mut desk, &mut looms, gate);
    ShiftEnd {
        desk,
        looms,
        out_of_memory: !done,
    }
}
