//! The acts of a session in plain order, by a core that no loom reads. Nothing here starts a thread or waits.
ghost use Rattle.std.specs.Prelude.{◌≡◌, ◌+◌, ◌<◌, ◌≤◌, ◌++◌, [], ◌∷◌, length, sum_by, None, IfErr, IfOk, OnOk};
ghost use Rattle.draft_model.specs.Designs.{IsPaperOf};
ghost use Rattle.strokes.specs.Places.{IsThere};
ghost use Rattle.version_journal.specs.Journals.{History, committed, float_kept, is_commit as is_a_commit, step, with_motif};
ghost use Rattle.session_file.specs.Plans.{Fits};
ghost use Rattle.studio_core.specs.Cores.{entry_by};
ghost use Rattle.studio_core.specs.Refusals.{IsStartRefusal};
ghost use Rattle.shift_model.specs.Plans.{acts_of_painter, plan_of as the_plan_of};
ghost use Rattle.shift_run.specs.inner.Unread.{AreDone, CanDo, Does, IsAtUnread, newest_after};
ghost use Rattle.shift_run.specs.inner.Slots.{painter_slots, plan_slots};

use crate::plans::{act_at, acts_of, plan_of, prepare};
use crate::shift::know_core;
use mill_base::memory::OutOfMemory;
use mill_base::steps::Steps;
use point_paper::paper::Paper;
use session_file::counts::count_acts;
use session_file::session::Session;
use std::alloc::Global;
use std::sync::ledger::{Blank, Ledger};
use strokes::act::Act;
use studio_core::refusal::StartRefusal;
use studio_core::tile_core::Core;
use version_journal::entry::Reply;

/// A core, and the paper of its newest version.
#[derive(Drop)]
pub struct Unread {
    pub core: Core,
    pub newest: Paper,
}

// Whether the act is a commit.
fn is_commit(act: &Act) -> bool
    ensures { result ≡ is_a_commit act.now }
{
    matches!(act, Act::Commit)
}

// Keeps the paper of an accepted commit.
fn keep_newest(reply: &Reply, core: &Core, newest: &mut Paper) -> Result<(), OutOfMemory>
    ensures { OnOk result (newest.new ≡ newest_after reply.now core.now.paper newest.old) }
{
    match reply {
        Reply::Accepted(_) => {
            let paper = core.paper().copy()?;
            *newest = paper;
            Ok(())
        }
        _ => Ok(()),
    }
}

// Replies to a commit.
fn commit<L: Ledger>(
    shift: u32,
    painter: u32,
    number: u32,
    unread: &mut Unread,
    steps: &mut Steps<L>,
) -> Result<Reply, OutOfMemory>
    requires { 0 < unread.old.core.spare }
    ensures entries { IfOk result (λ reply. unread.new.core.entries ≡ unread.old.core.entries ++ entry_by shift painter number reply ∷ []) }
    ensures spare { OnOk result (unread.new.core.spare + 1 ≡ unread.old.core.spare) }
    ensures design { unread.new.core.design ≡ unread.old.core.design }
    ensures paper { OnOk result (IsPaperOf unread.old.core.design unread.old.newest → IsPaperOf unread.old.core.design unread.new.newest) }
    ensures at { OnOk result ((h : History) → IsAtUnread h unread.old → IsAtUnread (committed unread.old.core.design h) unread.new) }
{
    know_core(&unread.core);
    let reply = unread.core.commit(shift, painter, number, steps)?;
    keep_newest(&reply, &unread.core, &mut unread.newest)?;
    Ok(reply)
}

// Does an act of a painter, which is told by its place among the painter's acts of the shift, from 0 on.
fn do_act<L: Ledger>(
    alloc: Global,
    session: &Session,
    shift: u32,
    painter: u32,
    place: u32,
    unread: &mut Unread,
    steps: &mut Steps<L>,
) -> Result<(), OutOfMemory>
    requires fits { Fits session.now }
    requires shift { shift < length session.now.shifts }
    requires painter { painter < length (the_plan_of session.now shift).painters }
    requires place { place < length (acts_of_painter (the_plan_of session.now shift) painter) }
    requires can { CanDo session.now unread.old }
    requires room { 0 < unread.old.core.spare }
    ensures { OnOk result (Does session.now (record { shift = shift; painter = painter; number = place + 1 } ∷ []) unread.old unread.new) }
{
    version_journal::laws::acts_go_on_from_where_others_ended();
    let act = act_at(session, shift, painter, place);
    if is_commit(act) {
        commit(shift, painter, place + 1, unread, steps)?;
        return Ok(());
    }
    let prepared = prepare(alloc, session, act)?;
    unread.core.paint(shift, painter, place + 1, &prepared);
    Ok(())
}

// Does all acts of a painter in their order.
fn do_painter<L: Ledger>(
    alloc: Global,
    session: &Session,
    shift: u32,
    painter: u32,
    unread: &mut Unread,
    steps: &mut Steps<L>,
) -> Result<(), OutOfMemory>
    requires fits { Fits session.now }
    requires shift { shift < length session.now.shifts }
    requires painter { painter < length (the_plan_of session.now shift).painters }
    requires can { CanDo session.now unread.old }
    requires room { length (acts_of_painter (the_plan_of session.now shift) painter) ≤ unread.old.core.spare }
    ensures { OnOk result (Does session.now (painter_slots shift painter (length (acts_of_painter (the_plan_of session.now shift) painter))) unread.old unread.new) }
{
    let count = acts_of(plan_of(session, shift), painter).len() as u32;
    'places: for place in 0..count {
        do_act(alloc, session, shift, painter, place, unread, steps)?;
    }
    Ok(())
}

// Does all acts of a shift, painter by painter in rising number.
fn do_acts<L: Ledger>(
    alloc: Global,
    session: &Session,
    shift: u32,
    unread: &mut Unread,
    steps: &mut Steps<L>,
) -> Result<(), OutOfMemory>
    requires fits { Fits session.now }
    requires shift { shift < length session.now.shifts }
    requires can { CanDo session.now unread.old }
    requires room { sum_by length (the_plan_of session.now shift).painters ≤ unread.old.core.spare }
    ensures { OnOk result (Does session.now (plan_slots shift (the_plan_of session.now shift)) unread.old unread.new) }
{
    let painters = plan_of(session, shift).painters.len() as u32;
    'painters: for painter in 0..painters {
        do_painter(alloc, session, shift, painter, unread, steps)?;
    }
    Ok(())
}

/// Does the acts of all shifts, with a counter of steps that nobody reads.
pub(crate) fn do_shifts<L: Ledger>(
    alloc: Global,
    session: &Session,
    unread: &mut Unread,
    blank: Blank,
) -> Result<(), OutOfMemory>
    requires fits { Fits session.now }
    requires blank { (blank.name ≡ L.name) × (blank.parts ≡ L.parts) × (L.parts ≡ 1) }
    requires start { AreDone session.now 0 unread.old }
    ensures { OnOk result (AreDone session.now (length session.now.shifts) unread.new) }
{
    let (book, all) = blank.open::<L>();
    let mut steps = Steps::new(book, all);
    'shifts: for shift in 0..session.shifts.len() as u32 {
        do_acts(alloc, session, shift, unread, &mut steps)?;
    }
    Ok(())
}

/// A core before the first act, with the opening as the paper of its newest version.
pub(crate) fn start(alloc: Global, session: &Session) -> Result<Unread, StartRefusal>
    requires { Fits session.now }
    ensures done { IfOk result (AreDone session.now 0) }
    ensures sound { OnOk result (float_kept session.now.design session.now.opening ≡ None) }
    ensures refusal { IfErr result (IsStartRefusal session.now.design session.now.opening) }
{
    let acts = count_acts(session.shifts.as_slice()) as u32;
    let design = session.design.copy()?;
    let opening = session.opening.copy()?;
    let newest = session.opening.copy()?;
    let core = Core::start(alloc, design, opening, acts)?;
    Ok(Unread { core, newest })
}
