//! The paper as acts leave it, and the papers of versions.
ghost use Rattle.std.specs.Prelude.{◌≡◌, ◌-◌, ◌≤◌, map, length, slice_get, slice_index_or, Some, IfOk, IfSome, IfNone, OnOk, All};
ghost use Rattle.strokes.specs.Paints.{after, size_of};
ghost use Rattle.strokes.specs.Places.{IsThere, motif_of_act};
ghost use Rattle.strokes.specs.Spans.{IsInside, after_spans};
ghost use Rattle.strokes.specs.declared.act.Act.{Act as AnAct};
ghost use Rattle.draft_model.specs.Designs.{IsPaperOf};
ghost use Rattle.version_journal.specs.Journals.{replies, versions};
ghost use Rattle.session_file.specs.Plans.{Fits};
ghost use Rattle.shift_model.specs.Logs.{named_act};
ghost use Rattle.shift_model.specs.Plans.{acts_of_painter, plan_of};
ghost use Rattle.audit_model.specs.States.{named_acts};
ghost use Rattle.audit_report.specs.Papers.{made_by, paper_by};

use mill_base::memory::OutOfMemory;
use point_paper::paper::{Paper, Span};
use session_file::session::Session;
use std::alloc::Global;
use strokes::act::Act;
use strokes::prepared::Prepared;
use version_journal::entry::{Entry, Reply};

/// The act of a number, counted from 1, of a painter in a shift; where there is none, a commit.
pub fn act_of(session: &Session, shift: u32, painter: u32, number: u32) -> Act
    requires fits { Fits session.now }
    ensures act { result ≡ slice_index_or (acts_of_painter (plan_of session.now shift) painter) (number - 1) AnAct.Commit }
    ensures there { IsThere (length session.now.design.book) session.now.design.size session.now.motifs result }
{
    let Some(plan) = session.shifts.as_slice().get(shift as usize) else {
        return Act::Commit;
    };
    let Some(acts) = plan.painters.as_slice().get(painter as usize) else {
        return Act::Commit;
    };
    match acts.as_slice().get(number.saturating_sub(1) as usize) {
        Some(act) => *act,
        None => Act::Commit,
    }
}

/// Paints an act of a session onto a paper of its design.
pub fn paint(
    alloc: Global,
    session: &Session,
    act: &Act,
    paper: &mut Paper,
) -> Result<(), OutOfMemory>
    requires fits { Fits session.now }
    requires there { IsThere (length session.now.design.book) session.now.design.size session.now.motifs act.now }
    requires paper { IsPaperOf session.now.design paper.old }
    ensures painted { OnOk result (paper.new ≡ after (motif_of_act session.now.motifs act.now) paper.old act.now) }
    ensures of_design { OnOk result (IsPaperOf session.now.design paper.new) }
{
    strokes::laws::the_motif_of_an_act_is_one_of_the_motifs();
    strokes::laws::the_spans_of_an_act_paint_it();
    version_journal::laws::versions_are_papers_of_the_design();
    version_journal::laws::acts_of_the_design_paint_colours_of_its_book();
    let prepared = Prepared::of(alloc, act, &session.motifs, session.design.size)?;
    let _ = paper.size();
    paint_spans(paper, prepared.spans());
    Ok(())
}

// Paints spans one after another.
fn paint_spans(paper: &mut Paper, spans: &[Span])
    requires { All (IsInside (size_of paper.old)) spans.now }
    ensures { paper.new ≡ after_spans paper.old spans.now }
{
    for span in spans {
        paper.paint_span(span);
    }
}

/// The paper of a version of a session's entries, whose replies are those of their acts; none where they made no such version.
pub fn paper_of_version(
    alloc: Global,
    session: &Session,
    entries: &[Entry],
    version: u32,
) -> Result<Option<Paper>, OutOfMemory>
    requires fits { Fits session.now }
    requires replied { map (λ entry. entry.reply) entries.now ≡ replies session.now.design session.now.opening (named_acts session.now entries.now) }
    ensures some { IfOk result (λ found. IfSome found (λ paper. slice_get (versions session.now.design session.now.opening (named_acts session.now entries.now)) version ≡ Some paper)) }
    ensures of_design { IfOk result (λ found. IfSome found (IsPaperOf session.now.design)) }
    ensures none { IfOk result (λ found. IfNone found (length (versions session.now.design session.now.opening (named_acts session.now entries.now)) ≤ version)) }
{
    let mut paper = session.opening.copy()?;
    if version == 0 {
        return Ok(Some(paper));
    }
    for entry in entries {
        let made = do_entry(alloc, session, entry, &mut paper)?;
        if made == version {
            return Ok(Some(paper));
        }
    }
    Ok(None)
}

/// Does the act of an entry: a paint changes the paper. The number of the version that it made, and 0 where it made none.
pub fn do_entry(
    alloc: Global,
    session: &Session,
    entry: &Entry,
    paper: &mut Paper,
) -> Result<u32, OutOfMemory>
    requires fits { Fits session.now }
    requires paper { IsPaperOf session.now.design paper.old }
    ensures paper { OnOk result (paper.new ≡ paper_by entry.now.reply (named_act session.now entry.now) paper.old) }
    ensures of_design { OnOk result (IsPaperOf session.now.design paper.new) }
    ensures made { IfOk result (λ version. version ≡ made_by entry.now.reply) }
{
    match entry.reply {
        Reply::Painted => {
            let act = act_of(session, entry.shift, entry.painter, entry.number);
            paint(alloc, session, &act, paper)?;
            Ok(0)
        }
        Reply::Accepted(version) => Ok(version),
        Reply::Refused(_) => Ok(0),
    }
}
