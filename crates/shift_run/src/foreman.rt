//! The foreman's part of a shift.
ghost use Rattle.std.specs.Prelude.{◌≡◌, ◌≢◌, ◌+◌, ◌<◌, ◌≤◌, ◌∷◌, ℕ, [], length, replicate, true, slice_index, slice_set, IfOk, OnErr, OnOk};
ghost use Rattle.crossbeam_channel.specs.Claims.{IsSeatAt};
ghost use Rattle.crossbeam_channel.specs.Ends.{receives_on};
ghost use Rattle.session_file.specs.Plans.{Fits};
ghost use Rattle.shift_run.specs.Desks.{IsReady};
ghost use Rattle.shift_model.specs.Plans.{plan_of as the_plan_of, acts_of_painter};
ghost use Rattle.shift_run.specs.inner.Foreman.{BreaksOff, CanWork, Directs, GoesOn, IsPrepared, act_at as the_act_at, acts_of_shift};
ghost use Rattle.shift_run.specs.inner.Slots.{AddsSlots, left_slots, plan_slots, slots_past};

use crate::desk::Desk;
use crate::mail::{Mail, MailFrom, MailPass};
use crate::plans::{act_at, acts_of, is_prepared, plan_of, prepare};
use crossbeam_channel::protocol::Free;
use mill_base::memory::OutOfMemory;
use mill_base::steps::Steps;
use mill_io::gate::{Gate, Point};
use session_file::counts::count_acts;
use session_file::session::Session;
use std::alloc::Global;
use std::marker::Brand;
use std::sync::Wait;
use std::sync::ledger::{Blank, Ledger};
use strokes::act::Act;
use strokes::prepared::Prepared;
use studio_core::tile_core::Core;
use version_journal::entry::Reply;

/// The foreman's part of a shift: it does each act that is mailed when it is its painter's next one, and at the end whatever no mail
/// brought, in plain order. It did all acts, or memory was refused; then it does no further act.
pub fn direct<R: Wait, G: Gate>(
    rt: &R,
    alloc: Global,
    session: &Session,
    shift: u32,
    from: &MailFrom,
    pass: &mut MailPass,
    desk: &mut Desk,
    gate: &G,
) -> bool
    requires fits { Fits session.now }
    requires shift { shift < length session.now.shifts }
    requires mail { IsSeatAt (receives_on from.now) pass.old }
    requires design { desk.old.core.design ≡ session.now.design }
    requires ready { IsReady desk.old }
    requires room { acts_of_shift session.now shift ≤ desk.old.core.spare }
    ensures { Directs session.now shift desk.old desk.new result }
{
    let task = Task {
        session,
        shift,
        gate,
    };
    let Ok(mut done) = nothing_done(alloc, session, shift) else {
        return false;
    };
    let Ok(()) = take_mail(rt, &task, from, pass, desk, &mut done) else {
        return false;
    };
    let Ok(()) = do_missing(rt, alloc, &task, desk, &mut done) else {
        return false;
    };
    true
}

/// The same without mail: all acts are done in plain order.
pub fn direct_plain<R: Wait, G: Gate>(
    rt: &R,
    alloc: Global,
    session: &Session,
    shift: u32,
    desk: &mut Desk,
    gate: &G,
) -> bool
    requires fits { Fits session.now }
    requires shift { shift < length session.now.shifts }
    requires design { desk.old.core.design ≡ session.now.design }
    requires ready { IsReady desk.old }
    requires room { acts_of_shift session.now shift ≤ desk.old.core.spare }
    ensures directs { Directs session.now shift desk.old desk.new result }
    ensures plain { result ≡ true → AddsSlots (plan_slots shift (the_plan_of session.now shift)) desk.old.core.entries desk.new.core.entries }
{
    let task = Task {
        session,
        shift,
        gate,
    };
    let Ok(mut done) = nothing_done(alloc, session, shift) else {
        return false;
    };
    let Ok(()) = do_missing(rt, alloc, &task, desk, &mut done) else {
        return false;
    };
    true
}

// How many acts of each painter are done before the first.
fn nothing_done(alloc: Global, session: &Session, shift: u32) -> Result<Vec<u32>, OutOfMemory>
    requires { shift < length session.now.shifts }
    ensures { IfOk result (λ done. done.items ≡ replicate (length (the_plan_of session.now shift).painters) 0) }
{
    let painters = plan_of(session, shift).painters.len();
    let done = Vec::from_elem(alloc, 0u32, painters)?;
    Ok(done)
}

// What is to be done: a shift of a session, of which a gate is told.
#[derive(Drop)]
struct Task<'a, G> {
    session: &'a Session,
    shift: u32,
    gate: &'a G,
}

// Takes the mail until each painter has given up its end, and at most as many mails as the shift has acts. Does each that is its painter's
// next act.
fn take_mail<R: Wait, G: Gate>(
    rt: &R,
    task: &Task<'_, G>,
    from: &MailFrom,
    pass: &mut MailPass,
    desk: &mut Desk,
    done: &mut Vec<u32>,
) -> Result<(), OutOfMemory>
    requires mail { IsSeatAt (receives_on from.now) pass.old }
    requires works { CanWork task.now.session.now task.now.shift desk.old done.old.items }
    ensures works { OnOk result (GoesOn task.now.session.now task.now.shift desk.old done.old.items desk.new done.new.items) }
    ensures breaks { OnErr result (BreaksOff task.now.session.now task.now.shift desk.old done.old.items desk.new) }
{
    let most = count_all(task.session, task.shift);
    'mails: for _ in 0..most {
        let Ok(mail) = from.recv_as::<Free, R>(rt, pass) else {
            break 'mails;
        };
        let Ok(()) = do_mail(rt, task, &mail, desk, done) else {
            return Err(OutOfMemory);
        };
    }
    Ok(())
}

// How many acts a shift has.
fn count_all(session: &Session, shift: u32) -> u64
    requires { shift < length session.now.shifts }
{
    let at = shift as usize;
    count_acts(&session.shifts.as_slice()[at..at + 1])
}

// Does a mail's act, if it is its painter's next one.
fn do_mail<R: Wait, G: Gate>(
    rt: &R,
    task: &Task<'_, G>,
    mail: &Mail,
    desk: &mut Desk,
    done: &mut Vec<u32>,
) -> Result<(), OutOfMemory>
    requires { CanWork task.now.session.now task.now.shift desk.old done.old.items }
    ensures works { OnOk result (GoesOn task.now.session.now task.now.shift desk.old done.old.items desk.new done.new.items) }
    ensures breaks { OnErr result (BreaksOff task.now.session.now task.now.shift desk.old done.old.items desk.new) }
{
    if !is_next(task.session, task.shift, done, mail) {
        return Ok(());
    }
    do_next(rt, task, mail.painter, &mail.prepared, desk, done)
}

// Whether a mail is its painter's next act.
fn is_next(session: &Session, shift: u32, done: &[u32], mail: &Mail) -> bool
    requires fits { Fits session.now }
    requires shift { shift < length session.now.shifts }
    requires painters { length done.now ≡ length (the_plan_of session.now shift).painters }
    ensures painter { result ≡ true → mail.now.painter < length (the_plan_of session.now shift).painters }
    ensures left { result ≡ true → slice_index done.now mail.now.painter < length (acts_of_painter (the_plan_of session.now shift) mail.now.painter) }
    ensures prepared { result ≡ true
        → IsPrepared session.now (the_act_at session.now shift mail.now.painter (slice_index done.now mail.now.painter)) mail.now.prepared }
{
    let painter = mail.painter;
    if painter as usize >= done.len() {
        return false;
    }
    let place = done[painter as usize];
    let count = acts_of(plan_of(session, shift), painter).len();
    if place as usize >= count || mail.number != place + 1 {
        return false;
    }
    is_prepared(
        session,
        act_at(session, shift, painter, place),
        &mail.prepared,
    )
}

// Does every act that no mail brought, in plain order.
fn do_missing<R: Wait, G: Gate>(
    rt: &R,
    alloc: Global,
    task: &Task<'_, G>,
    desk: &mut Desk,
    done: &mut Vec<u32>,
) -> Result<(), OutOfMemory>
    requires { CanWork task.now.session.now task.now.shift desk.old done.old.items }
    ensures works { OnOk result (GoesOn task.now.session.now task.now.shift desk.old done.old.items desk.new done.new.items) }
    ensures whole { OnOk result ((painter : ℕ) → painter < length (the_plan_of task.now.session.now task.now.shift).painters
        → length (acts_of_painter (the_plan_of task.now.session.now task.now.shift) painter) ≤ slice_index done.new.items painter) }
    ensures slots { OnOk result (AddsSlots
        (left_slots task.now.shift (the_plan_of task.now.session.now task.now.shift) done.old.items (length (the_plan_of task.now.session.now task.now.shift).painters))
        desk.old.core.entries desk.new.core.entries) }
    ensures breaks { OnErr result (BreaksOff task.now.session.now task.now.shift desk.old done.old.items desk.new) }
{
    let painters = plan_of(task.session, task.shift).painters.len() as u32;
    'painters: for painter in 0..painters {
        let Ok(()) = do_rest(rt, alloc, task, painter, desk, done) else {
            return Err(OutOfMemory);
        };
    }
    Ok(())
}

// Does what is left of a painter's acts.
fn do_rest<R: Wait, G: Gate>(
    rt: &R,
    alloc: Global,
    task: &Task<'_, G>,
    painter: u32,
    desk: &mut Desk,
    done: &mut Vec<u32>,
) -> Result<(), OutOfMemory>
    requires painter { painter < length (the_plan_of task.now.session.now task.now.shift).painters }
    requires works { CanWork task.now.session.now task.now.shift desk.old done.old.items }
    ensures works { OnOk result (GoesOn task.now.session.now task.now.shift desk.old done.old.items desk.new done.new.items) }
    ensures whole { OnOk result (length (acts_of_painter (the_plan_of task.now.session.now task.now.shift) painter) ≤ slice_index done.new.items painter) }
    ensures others { OnOk result ((other : ℕ) → other ≢ painter → slice_index done.new.items other ≡ slice_index done.old.items other) }
    ensures slots { OnOk result (AddsSlots (slots_past task.now.shift painter (slice_index done.old.items painter)
        (length (acts_of_painter (the_plan_of task.now.session.now task.now.shift) painter))) desk.old.core.entries desk.new.core.entries) }
    ensures breaks { OnErr result (BreaksOff task.now.session.now task.now.shift desk.old done.old.items desk.new) }
{
    let session = task.session;
    let from = done[painter as usize];
    let count = acts_of(plan_of(session, task.shift), painter).len() as u32;
    'rest: for place in from..count {
        let act = act_at(session, task.shift, painter, place);
        let Ok(prepared) = prepare(alloc, session, act) else {
            return Err(OutOfMemory);
        };
        let Ok(()) = do_next(rt, task, painter, &prepared, desk, done) else {
            return Err(OutOfMemory);
        };
    }
    Ok(())
}

// Does a painter's next act, which was prepared. Nothing counts its steps.
fn do_next<R: Wait, G: Gate>(
    rt: &R,
    task: &Task<'_, G>,
    painter: u32,
    prepared: &Prepared,
    desk: &mut Desk,
    done: &mut Vec<u32>,
) -> Result<(), OutOfMemory>
    requires painter { painter < length (the_plan_of task.now.session.now task.now.shift).painters }
    requires left { slice_index done.old.items painter < length (acts_of_painter (the_plan_of task.now.session.now task.now.shift) painter) }
    requires prepared { IsPrepared task.now.session.now (the_act_at task.now.session.now task.now.shift painter (slice_index done.old.items painter)) prepared.now }
    requires works { CanWork task.now.session.now task.now.shift desk.old done.old.items }
    ensures works { OnOk result (GoesOn task.now.session.now task.now.shift desk.old done.old.items desk.new done.new.items) }
    ensures done { OnOk result (done.new.items ≡ slice_set done.old.items painter (slice_index done.old.items painter + 1)) }
    ensures slot { OnOk result (AddsSlots (record { shift = task.now.shift; painter = painter; number = slice_index done.old.items painter + 1 } ∷ [])
        desk.old.core.entries desk.new.core.entries) }
    ensures breaks { OnErr result (BreaksOff task.now.session.now task.now.shift desk.old done.old.items desk.new) }
{
    do_next_with::<R, G, Brand>(rt, task, painter, prepared, desk, done, Blank::new(1))
}

fn do_next_with<R: Wait, G: Gate, L: Ledger>(
    rt: &R,
    task: &Task<'_, G>,
    painter: u32,
    prepared: &Prepared,
    desk: &mut Desk,
    done: &mut Vec<u32>,
    blank: Blank,
) -> Result<(), OutOfMemory>
    requires painter { painter < length (the_plan_of task.now.session.now task.now.shift).painters }
    requires left { slice_index done.old.items painter < length (acts_of_painter (the_plan_of task.now.session.now task.now.shift) painter) }
    requires prepared { IsPrepared task.now.session.now (the_act_at task.now.session.now task.now.shift painter (slice_index done.old.items painter)) prepared.now }
    requires works { CanWork task.now.session.now task.now.shift desk.old done.old.items }
    requires blank { (blank.name ≡ L.name) × (blank.parts ≡ L.parts) × (L.parts ≡ 1) }
    ensures works { OnOk result (GoesOn task.now.session.now task.now.shift desk.old done.old.items desk.new done.new.items) }
    ensures done { OnOk result (done.new.items ≡ slice_set done.old.items painter (slice_index done.old.items painter + 1)) }
    ensures slot { OnOk result (AddsSlots (record { shift = task.now.shift; painter = painter; number = slice_index done.old.items painter + 1 } ∷ [])
        desk.old.core.entries desk.new.core.entries) }
    ensures breaks { OnErr result (BreaksOff task.now.session.now task.now.shift desk.old done.old.items desk.new) }
{
    let (book, all) = blank.open::<L>();
    let mut steps = Steps::new(book, all);
    let before = done[painter as usize];
    let number = before + 1;
    tell_commit(task.gate, prepared.act(), &desk.core);
    let Ok(reply) = desk.act(rt, task.shift, painter, number, prepared, &mut steps) else {
        return Err(OutOfMemory);
    };
    tell_reply(task.gate, &reply);
    done[painter as usize] = number;
    Ok(())
}

// Tells the gate that a commit is about to be done.
fn tell_commit<G: Gate>(gate: &G, act: &Act, core: &Core) {
    if let Act::Commit = act {
        gate.at(Point::BeforeCommit {
            act: done_acts(core),
        });
    }
}

// How many acts a core has done.
fn done_acts(core: &Core) -> u32
    ensures { result ≡ length core.now.entries }
{
    let _ = core.design();
    core.entries().len() as u32
}

// Tells the gate that a version is published.
fn tell_reply<G: Gate>(gate: &G, reply: &Reply) {
    if let Reply::Accepted(version) = reply {
        gate.at(Point::Published { version: *version });
    }
}
