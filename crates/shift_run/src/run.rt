//! The run of a session, shift by shift.
ghost use Rattle.std.specs.Prelude.{◌≡◌, ◌+◌, ◌<◌, [], false, length, map, None, IfErr, IfOk, OnOk};
ghost use Rattle.std.specs.Arc.{arc_value};
ghost use Rattle.draft_model.specs.Designs.{IsPaperOf};
ghost use Rattle.version_journal.specs.Journals.{float_kept};
ghost use Rattle.session_file.specs.Plans.{Fits};
ghost use Rattle.studio_core.specs.Refusals.{IsStartRefusal};
ghost use Rattle.loom_threads.specs.Looms.{IsLoomOf, LoomValue, repeats_of};
ghost use Rattle.shift_run.specs.Desks.{Stands, new_core};
ghost use Rattle.shift_model.specs.Logs.{Legal};
ghost use Rattle.shift_model.specs.Plans.{IsNewest, plain_versions};
ghost use Rattle.shift_run.specs.Runs.{AreCardsOfNewest, AreNew, IsAtShift, IsSeated};

use crate::desk::Desk;
use crate::shift::{ShiftEnd, know_core, run_shift};
use crate::unread;
use card_image::card_set::CardSet;
use draft_model::drawdown::bound;
use draft_model::first_float::find_float;
use loom_threads::loom::Loom;
use mill_base::listed::Listed;
use mill_base::memory::OutOfMemory;
use mill_io::gate::Gate;
use point_paper::paper::Paper;
use session_file::session::Session;
use std::alloc::Global;
use std::marker::Brand;
use std::sync::ledger::Blank;
use std::sync::{Arc, Wait};
use std::thread::Threads;
use studio_core::refusal::StartRefusal;
use version_journal::run_log::{Repeat, RunLog};

/// What a run leaves: its log, and the cards of the newest version.
#[derive(Drop)]
pub struct Ran {
    pub run_log: RunLog,
    pub newest: Arc<CardSet>,
}

impl Desk {
    /// A loom of the session, with a place of this desk where one is free. It has room for all its repeats.
    pub fn loom(
        &mut self,
        alloc: Global,
        session: &Session,
        number: u32,
    ) -> Result<Loom, OutOfMemory>
        requires fits { Fits session.now }
        requires number { number < session.now.looms }
        ensures kind { IfOk result (IsLoomOf session.now number) }
        ensures repeats { IfOk result (λ loom. loom.repeats ≡ []) }
        ensures spare { IfOk result (λ loom. loom.spare ≡ repeats_of session.now number) }
        ensures seat { IfOk result (λ loom. IsSeated self.old.end.refused self.new.end.refused loom.end) }
        ensures desk { self.new ≡ record self.old { end = record self.old.end { refused = self.new.end.refused } } }
    {
        let seat = self.end.seat();
        Loom::new(alloc, session, number, seat)
    }
}

/// Runs the session, shift by shift. In each shift painters, the foreman and looms go on at the same time, and whatever schedule comes, the
/// log is a legal one.
pub fn run_session<R: Threads + Wait + Sync, G: Gate>(
    rt: &R,
    alloc: Global,
    session: &Session,
    gate: &G,
) -> Result<Ran, StartRefusal>
    requires { Fits session.now }
    ensures legal { IfOk result (λ ran. Legal session.now ran.run_log) }
    ensures newest { IfOk result (λ ran. AreCardsOfNewest session.now ran.run_log.entries (arc_value ran.newest)) }
    ensures sound { OnOk result (float_kept session.now.design session.now.opening ≡ None) }
    ensures refusal { IfErr result (IsStartRefusal session.now.design session.now.opening) }
{
    let desk = Desk::start(rt, alloc, session)?;
    let ran = run_from(rt, alloc, session, desk, gate)?;
    Ok(ran)
}

// All shifts from the desk that was started.
fn run_from<R: Threads + Wait + Sync, G: Gate>(
    rt: &R,
    alloc: Global,
    session: &Session,
    desk: Desk,
    gate: &G,
) -> Result<Ran, OutOfMemory>
    requires fits { Fits session.now }
    requires core { desk.core ≡ new_core session.now 0 }
    requires stands { Stands session.now desk }
    ensures legal { IfOk result (λ ran. Legal session.now ran.run_log) }
    ensures newest { IfOk result (λ ran. AreCardsOfNewest session.now ran.run_log.entries (arc_value ran.newest)) }
{
    let mut desk = desk;
    let Ok(looms) = start_looms(alloc, session, &mut desk) else {
        desk.close(rt);
        return Err(OutOfMemory);
    };
    let ShiftEnd {
        desk,
        looms,
        out_of_memory,
    } = run_shifts(rt, alloc, session, desk, looms, gate);
    let ran = if out_of_memory {
        Err(OutOfMemory)
    } else {
        ran_of(alloc, session, &desk, looms)
    };
    desk.close(rt);
    ran
}

/// The looms of a session.
pub(crate) fn start_looms(
    alloc: Global,
    session: &Session,
    desk: &mut Desk,
) -> Result<Vec<Loom>, OutOfMemory>
    requires { Fits session.now }
    ensures looms { IfOk result (λ looms. AreNew session.now session.now.looms looms.items) }
    ensures core { desk.new.core ≡ desk.old.core }
    ensures list { desk.new.end.list ≡ desk.old.end.list }
{
    let mut looms = Vec::new(alloc);
    'looms: for number in 0..session.looms {
        looms.push(desk.loom(alloc, session, number)?)?;
    }
    Ok(looms)
}

// All shifts, or those that memory sufficed for.
fn run_shifts<R: Threads + Wait + Sync, G: Gate>(
    rt: &R,
    alloc: Global,
    session: &Session,
    desk: Desk,
    looms: Vec<Loom>,
    gate: &G,
) -> ShiftEnd
    requires fits { Fits session.now }
    requires start { IsAtShift session.now 0 desk looms.items }
    ensures { result.out_of_memory ≡ false → IsAtShift session.now (length session.now.shifts) result.desk result.looms.items }
{
    let mut end = ShiftEnd {
        desk,
        looms,
        out_of_memory: false,
    };
    'shifts: for shift in 0..session.shifts.len() as u32 {
        let ShiftEnd {
            desk,
            looms,
            out_of_memory: _,
        } = end;
        end = run_shift(rt, alloc, desk, looms, session, shift, gate);
        if end.out_of_memory {
            return end;
        }
    }
    end
}

// What is kept of a run.
fn ran_of(
    alloc: Global,
    session: &Session,
    desk: &Desk,
    looms: Vec<Loom>,
) -> Result<Ran, OutOfMemory>
    requires { IsAtShift session.now (length session.now.shifts) desk.now looms.items }
    ensures legal { IfOk result (λ ran. Legal session.now ran.run_log) }
    ensures newest { IfOk result (λ ran. AreCardsOfNewest session.now ran.run_log.entries (arc_value ran.newest)) }
{
    know_core(&desk.core);
    let newest = Arc::clone(desk.core.newest_cards())?;
    let entries = Listed::of(Vec::from_slice(alloc, desk.core.entries())?);
    let looms = repeats_of_all(alloc, looms)?;
    Ok(Ran {
        run_log: RunLog { entries, looms },
        newest,
    })
}

// What the looms wove.
fn repeats_of_all(alloc: Global, looms: Vec<Loom>) -> Result<Listed<Listed<Repeat>>, OutOfMemory>
    ensures { IfOk result (λ all. all ≡ map (λ loom. loom.repeats) looms.items) }
{
    let mut all = Listed::new(alloc);
    'looms: for loom in looms {
        all.push(loom.into_repeats())?;
    }
    Ok(all)
}

/// The newest version once all acts were done in plain order. No repeat is woven, no thread is started, and nothing waits.
pub fn last_paper(alloc: Global, session: &Session) -> Result<Paper, StartRefusal>
    requires { Fits session.now }
    ensures newest { IfOk result (IsNewest (plain_versions session.now)) }
    ensures paper { IfOk result (IsPaperOf session.now.design) }
    ensures sound { OnOk result (float_kept session.now.design session.now.opening ≡ None) }
    ensures refusal { IfErr result (IsStartRefusal session.now.design session.now.opening) }
{
    let mut last = unread::start(alloc, session)?;
    unread::do_shifts::<Brand>(alloc, session, &mut last, Blank::new(1))?;
    Ok(last.newest)
}

/// Refuses a session whose opening's bound paper keeps a float over its limit.
pub fn check_opening(alloc: Global, session: &Session) -> Result<(), StartRefusal>
    requires { Fits session.now }
    ensures sound { OnOk result (float_kept session.now.design session.now.opening ≡ None) }
    ensures refusal { IfErr result (IsStartRefusal session.now.design session.now.opening) }
{
    let bits = bound(alloc, &session.design, &session.opening)?;
    let float = find_float(alloc, &session.design, &bits)?;
    match float {
        None => Ok(()),
        Some(float) => Err(StartRefusal::OpeningFloat(float)),
    }
}
