//! What a session states of a shift, and its acts as they are prepared.
ghost use Rattle.std.specs.Prelude.{◌≡◌, ◌<◌, true, All, IfOk, length};
ghost use Rattle.strokes.specs.Places.{IsThere, motif_of_act};
ghost use Rattle.session_file.specs.Plans.{Fits};
ghost use Rattle.shift_model.specs.Plans.{plan_of as the_plan_of, acts_of_painter};
ghost use Rattle.shift_run.specs.inner.Foreman.{IsPrepared, act_at as the_act_at};

use mill_base::memory::OutOfMemory;
use session_file::session::{Session, ShiftPlan};
use std::alloc::Global;
use strokes::act::Act;
use strokes::prepared::Prepared;

/// The plan of a shift.
pub fn plan_of(session: &Session, shift: u32) -> &ShiftPlan
    requires { shift < length session.now.shifts }
    ensures { result.now ≡ the_plan_of session.now shift }
{
    &session.shifts.as_slice()[shift as usize]
}

/// The acts of a painter of a plan.
pub fn acts_of(plan: &ShiftPlan, painter: u32) -> &[Act]
    requires { painter < length plan.now.painters }
    ensures { result.now ≡ acts_of_painter plan.now painter }
{
    plan.painters.as_slice()[painter as usize].as_slice()
}

/// The act of a painter at a place among its acts of a shift, from 0 on.
pub fn act_at(session: &Session, shift: u32, painter: u32, place: u32) -> &Act
    requires fits { Fits session.now }
    requires shift { shift < length session.now.shifts }
    requires painter { painter < length (the_plan_of session.now shift).painters }
    requires place { place < length (acts_of_painter (the_plan_of session.now shift) painter) }
    ensures act { result.now ≡ the_act_at session.now shift painter place }
    ensures there { IsThere (length session.now.design.book) session.now.design.size session.now.motifs result.now }
{
    &acts_of(plan_of(session, shift), painter)[place as usize]
}

/// Prepares an act of a session for the session's paper.
pub fn prepare(alloc: Global, session: &Session, act: &Act) -> Result<Prepared, OutOfMemory>
    requires fits { Fits session.now }
    requires there { IsThere (length session.now.design.book) session.now.design.size session.now.motifs act.now }
    ensures { IfOk result (IsPrepared session.now act.now) }
{
    strokes::laws::the_motif_of_an_act_is_one_of_the_motifs();
    let prepared = Prepared::of(alloc, act, &session.motifs, session.design.size)?;
    know_colours(session, act, &prepared);
    Ok(prepared)
}

/// Whether this is an act of a session, prepared for the session's paper.
pub fn is_prepared(session: &Session, act: &Act, prepared: &Prepared) -> bool
    requires fits { Fits session.now }
    requires there { IsThere (length session.now.design.book) session.now.design.size session.now.motifs act.now }
    ensures { result ≡ true → IsPrepared session.now act.now prepared.now }
{
    if !prepared.is_of(act, &session.motifs, session.design.size) {
        return false;
    }
    know_colours(session, act, prepared);
    true
}

// Tells a proof that a prepared act of a session paints with colours of its book.
fn know_colours(session: &Session, act: &Act, prepared: &Prepared)
    requires fits { Fits session.now }
    requires there { IsThere (length session.now.design.book) session.now.design.size session.now.motifs act.now }
    requires act { prepared.now.act ≡ act.now }
    requires motif { prepared.now.motif ≡ motif_of_act session.now.motifs act.now }
    ensures { All (λ span. span.colour < length session.now.design.book) prepared.now.spans }
{
    version_journal::laws::acts_of_the_design_paint_colours_of_its_book();
    let _ = prepared.spans();
}
