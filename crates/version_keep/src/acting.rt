//! One act of a session.
ghost use Rattle.std.specs.Prelude.{◌≡◌, ◌+◌, ◌-◌, ◌<◌, ◌≤◌, ◌++◌, ◌∷◌, [], All, IfOk, OnErr, OnOk, length, slice_index_or};
ghost use Rattle.strokes.specs.Places.{IsThere, motif_of_act};
ghost use Rattle.strokes.specs.declared.act.Act.TheVariants.{Commit};
ghost use Rattle.session_file.specs.Plans.{Fits};
ghost use Rattle.shift_model.specs.Plans.{plan_of as the_plan_of, acts_of_painter};
ghost use Rattle.studio_core.specs.Cores.{entry_by};
ghost use Rattle.studio_core.specs.Histories.{IsAt};
ghost use Rattle.version_journal.specs.Journals.{History, is_commit as is_a_commit};
ghost use Rattle.version_keep.specs.Blocks.{named};
ghost use Rattle.version_keep.specs.Doings.{GoesTo, IsMarkOf, IsPrepared, act_of as the_act_of};

use block_journal::mark::Mark;
use mill_base::memory::OutOfMemory;
use mill_base::steps::Steps;
use session_file::session::{Session, ShiftPlan};
use std::alloc::Global;
use std::marker::Brand;
use std::sync::ledger::{Blank, Ledger};
use strokes::act::Act;
use strokes::prepared::Prepared;
use studio_core::tile_core::Core;
use version_journal::entry::Reply;

/// The plan of a shift.
pub(crate) fn plan_of(session: &Session, shift: u32) -> &ShiftPlan
    requires { shift < length session.now.shifts }
    ensures { result.now ≡ the_plan_of session.now shift }
{
    &session.shifts.as_slice()[shift as usize]
}

/// The acts of a painter of a plan.
pub(crate) fn acts_of(plan: &ShiftPlan, painter: u32) -> &[Act]
    requires { painter < length plan.now.painters }
    ensures { result.now ≡ acts_of_painter plan.now painter }
{
    plan.painters.as_slice()[painter as usize].as_slice()
}

// The act that a mark names.
fn act_of<'a>(session: &'a Session, mark: &Mark) -> &'a Act
    requires fits { Fits session.now }
    requires mark { IsMarkOf session.now mark.now }
    ensures act { result.now ≡ slice_index_or (acts_of_painter (the_plan_of session.now mark.now.shift) mark.now.painter) (mark.now.number - 1) Commit }
    ensures there { IsThere (length session.now.design.book) session.now.design.size session.now.motifs result.now }
{
    &acts_of(plan_of(session, mark.shift), mark.painter)[mark.number as usize - 1]
}

// Prepares an act of a session for the session's paper.
fn prepare(alloc: Global, session: &Session, act: &Act) -> Result<Prepared, OutOfMemory>
    requires fits { Fits session.now }
    requires there { IsThere (length session.now.design.book) session.now.design.size session.now.motifs act.now }
    ensures { IfOk result (IsPrepared session.now act.now) }
{
    strokes::laws::the_motif_of_an_act_is_one_of_the_motifs();
    let prepared = Prepared::of(alloc, act, &session.motifs, session.design.size)?;
    know_colours(session, act, &prepared);
    Ok(prepared)
}

// Tells a proof that a prepared act of a session paints with colours of its book.
fn know_colours(session: &Session, act: &Act, prepared: &Prepared)
    requires fits { Fits session.now }
    requires there { IsThere (length session.now.design.book) session.now.design.size session.now.motifs act.now }
    requires act { prepared.now.act ≡ act.now }
    requires motif { prepared.now.motif ≡ motif_of_act session.now.motifs act.now }
    ensures { All (λ span. span.colour < length session.now.design.book) prepared.now.spans }
{
    version_journal::laws::acts_of_the_design_paint_colours_of_its_book();
    let _ = prepared.spans();
}

// Whether the act is a commit.
fn is_commit(act: &Act) -> bool
    ensures { result ≡ is_a_commit act.now }
{
    matches!(act, Act::Commit)
}

/// Does the act that a mark names. Nothing counts its steps.
pub(crate) fn do_act(
    alloc: Global,
    session: &Session,
    core: &mut Core,
    mark: &Mark,
) -> Result<Reply, OutOfMemory>
    requires fits { Fits session.now }
    requires mark { IsMarkOf session.now mark.now }
    requires spare { 0 < core.old.spare }
    requires design { core.old.design ≡ session.now.design }
    ensures entries { IfOk result (λ reply. core.new.entries ≡ core.old.entries ++ entry_by mark.now.shift mark.now.painter mark.now.number reply ∷ []) }
    ensures spare { OnOk result (core.new.spare + 1 ≡ core.old.spare) }
    ensures at { IfOk result (GoesTo core.old core.new (named session.now mark.now)) }
    ensures design { core.new.design ≡ core.old.design }
    ensures kept { OnErr result ((core.new.entries ≡ core.old.entries) × (core.new.spare ≡ core.old.spare)) }
    ensures stays { OnErr result ((h : History) → IsAt h core.old → IsAt h core.new) }
{
    let prepared = prepare(alloc, session, act_of(session, mark))?;
    do_prepared::<Brand>(session, core, mark, &prepared, Blank::new(1))
}

fn do_prepared<L: Ledger>(
    session: &Session,
    core: &mut Core,
    mark: &Mark,
    prepared: &Prepared,
    blank: Blank,
) -> Result<Reply, OutOfMemory>
    requires prepared { IsPrepared session.now (slice_index_or (acts_of_painter (the_plan_of session.now mark.now.shift) mark.now.painter) (mark.now.number - 1) Commit) prepared.now }
    requires spare { 0 < core.old.spare }
    requires design { core.old.design ≡ session.now.design }
    requires blank { (blank.name ≡ L.name) × (blank.parts ≡ L.parts) × (L.parts ≡ 1) }
    ensures entries { IfOk result (λ reply. core.new.entries ≡ core.old.entries ++ entry_by mark.now.shift mark.now.painter mark.now.number reply ∷ []) }
    ensures spare { OnOk result (core.new.spare + 1 ≡ core.old.spare) }
    ensures at { IfOk result (GoesTo core.old core.new (the_act_of prepared.now)) }
    ensures design { core.new.design ≡ core.old.design }
    ensures kept { OnErr result ((core.new.entries ≡ core.old.entries) × (core.new.spare ≡ core.old.spare)) }
    ensures stays { OnErr result ((h : History) → IsAt h core.old → IsAt h core.new) }
{
    let (book, all) = blank.open::<L>();
    let mut steps = Steps::new(book, all);
    if is_commit(prepared.act()) {
        return core.commit(mark.shift, mark.painter, mark.number, &mut steps);
    }
    core.paint(mark.shift, mark.painter, mark.number, prepared);
    Ok(Reply::Painted)
}
