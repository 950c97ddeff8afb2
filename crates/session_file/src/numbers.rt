//! Numbers of the whole session, which have to be few enough.
ghost use Rattle.std.specs.Prelude.{◌≡◌, ◌+◌, ◌*◌, ◌/◌, ◌≤◌, codes, length, IfOk, OnOk};
ghost use Rattle.mill_base.specs.declared.limits.TheConstants.{MAX_ACTS, MAX_CARD_BYTES, MAX_CLOTH_CELLS, MAX_COMMITS, MAX_HOOKS, MAX_MOTIF_CELLS, MAX_PICKS, MAX_REPEATS, MAX_SHOWN_CELLS};
ghost use Rattle.session_rules.specs.Faults.{Keeps, Reads};
ghost use Rattle.session_rules.specs.Paths.{path_of};
ghost use Rattle.session_file.specs.Plans.{acts_in, commits_in, motif_cells, repeats_in, shown_cells as shown_cells_of};
ghost use Rattle.session_file.specs.Rules.{limit, numbers};
ghost use Rattle.session_file.specs.inner.Drafts.{FitsNumbers};

use crate::counts::{count_acts, count_cells, count_commits, count_repeats};
use crate::draft::SessionDraft;
use crate::session::ShiftPlan;
use mill_base::limits::{
    MAX_ACTS, MAX_CARD_BYTES, MAX_CLOTH_CELLS, MAX_COMMITS, MAX_MOTIF_CELLS, MAX_REPEATS,
    MAX_SHOWN_CELLS,
};
use session_rules::fault::SessionRefusal;
use session_rules::limit::at_most;
use session_rules::path::Path;
use std::alloc::Global;
use strokes::motifs::Motifs;

/// Whether the cells, acts, commits, repeats and bytes of cards of a session are few enough.
#[tactic(auto, unfolding(crate::specs::Rules::numbers), using(session_rules::proofs::lemmas::Told::told_here, session_rules::proofs::lemmas::Told::told_later))]
pub(crate) fn check_numbers(
    alloc: Global,
    path: &Path<'_>,
    draft: &SessionDraft,
) -> Result<(), SessionRefusal>
    requires picks { draft.now.design.size.picks ≤ MAX_PICKS }
    requires hooks { draft.now.design.casting.hooks ≤ MAX_HOOKS }
    ensures keeps { Keeps (numbers draft.now (path_of path.now)) result }
    ensures within { OnOk result (FitsNumbers draft.now) }
{
    let shifts = draft.shifts.as_slice();
    let picks = draft.design.size.picks;
    let cloth = check_cloth(alloc, path, draft.tie.ends(), picks)?;
    check_cells(alloc, path, &draft.motifs)?;
    check_acts(alloc, path, shifts)?;
    let commits = check_commits(alloc, path, shifts)?;
    let repeats = check_repeats(alloc, path, shifts)?;
    check_cards(alloc, path, commits, picks, draft.design.casting.hooks())?;
    check_shown(alloc, path, draft.head.show_rows, repeats, cloth)
}

#[tactic(auto, unfolding(session_rules::specs::Paths::path_of))]
fn check_cloth(alloc: Global, path: &Path<'_>, ends: u32, picks: u32) -> Result<u64, SessionRefusal>
    ensures reads { Reads (limit (path_of path.now) (codes "design.cloth") MAX_CLOTH_CELLS (ends * picks)) (ends * picks) result }
    ensures within { IfOk result (λ n. n ≤ MAX_CLOTH_CELLS) }
{
    let cells = cloth_cells(ends, picks);
    at_most(
        alloc,
        &Path::Key(path, "design.cloth"),
        MAX_CLOTH_CELLS,
        cells,
    )?;
    Ok(cells)
}

fn cloth_cells(ends: u32, picks: u32) -> u64
    ensures { result ≡ ends * picks }
{
    ends as u64 * picks as u64
}

#[tactic(auto, unfolding(session_rules::specs::Paths::path_of))]
fn check_cells(alloc: Global, path: &Path<'_>, motifs: &Motifs) -> Result<u64, SessionRefusal>
    ensures reads { Reads (limit (path_of path.now) (codes "motif.cells") MAX_MOTIF_CELLS (motif_cells motifs.now)) (motif_cells motifs.now) result }
    ensures within { IfOk result (λ n. n ≤ MAX_MOTIF_CELLS) }
{
    let count = count_cells(motifs);
    at_most(
        alloc,
        &Path::Key(path, "motif.cells"),
        MAX_MOTIF_CELLS,
        count,
    )?;
    Ok(count)
}

#[tactic(auto, unfolding(session_rules::specs::Paths::path_of))]
fn check_acts(alloc: Global, path: &Path<'_>, shifts: &[ShiftPlan]) -> Result<u64, SessionRefusal>
    ensures reads { Reads (limit (path_of path.now) (codes "shift.acts") MAX_ACTS (acts_in shifts.now)) (acts_in shifts.now) result }
    ensures within { IfOk result (λ n. n ≤ MAX_ACTS) }
{
    let count = count_acts(shifts);
    at_most(
        alloc,
        &Path::Key(path, "shift.acts"),
        MAX_ACTS as u64,
        count,
    )?;
    Ok(count)
}

#[tactic(auto, unfolding(session_rules::specs::Paths::path_of))]
fn check_commits(
    alloc: Global,
    path: &Path<'_>,
    shifts: &[ShiftPlan],
) -> Result<u64, SessionRefusal>
    ensures reads { Reads (limit (path_of path.now) (codes "shift.commits") MAX_COMMITS (commits_in shifts.now)) (commits_in shifts.now) result }
    ensures within { IfOk result (λ n. n ≤ MAX_COMMITS) }
{
    let count = count_commits(shifts);
    at_most(
        alloc,
        &Path::Key(path, "shift.commits"),
        MAX_COMMITS as u64,
        count,
    )?;
    Ok(count)
}

#[tactic(auto, unfolding(session_rules::specs::Paths::path_of))]
fn check_repeats(
    alloc: Global,
    path: &Path<'_>,
    shifts: &[ShiftPlan],
) -> Result<u64, SessionRefusal>
    ensures reads { Reads (limit (path_of path.now) (codes "shift.repeats") MAX_REPEATS (repeats_in shifts.now)) (repeats_in shifts.now) result }
    ensures within { IfOk result (λ n. n ≤ MAX_REPEATS) }
{
    let count = count_repeats(shifts);
    at_most(
        alloc,
        &Path::Key(path, "shift.repeats"),
        MAX_REPEATS as u64,
        count,
    )?;
    Ok(count)
}

// The bytes of holes of the cards of the opening paper's version and of each commit's.
#[tactic(auto, unfolding(session_rules::specs::Paths::path_of))]
fn check_cards(
    alloc: Global,
    path: &Path<'_>,
    commits: u64,
    picks: u32,
    hooks: u32,
) -> Result<u64, SessionRefusal>
    requires commits { commits ≤ MAX_COMMITS }
    requires picks { picks ≤ MAX_PICKS }
    requires hooks { hooks ≤ MAX_HOOKS }
    ensures reads { Reads (limit (path_of path.now) (codes "design.cards") MAX_CARD_BYTES ((commits + 1) * (picks * ((hooks + 7) / 8)))) ((commits + 1) * (picks * ((hooks + 7) / 8))) result }
    ensures within { IfOk result (λ n. n ≤ MAX_CARD_BYTES) }
{
    let bytes = card_bytes(commits, picks, hooks);
    at_most(
        alloc,
        &Path::Key(path, "design.cards"),
        MAX_CARD_BYTES,
        bytes,
    )?;
    Ok(bytes)
}

fn card_bytes(commits: u64, picks: u32, hooks: u32) -> u64
    requires commits { commits ≤ MAX_COMMITS }
    requires picks { picks ≤ MAX_PICKS }
    requires hooks { hooks ≤ MAX_HOOKS }
    ensures { result ≡ (commits + 1) * (picks * ((hooks + 7) / 8)) }
{
    let bytes = picks as u64 * ((hooks + 7) / 8) as u64;
    (commits + 1) * bytes
}

// The cells of all rows that a report shows.
#[tactic(auto, unfolding(session_rules::specs::Paths::path_of))]
fn check_shown(
    alloc: Global,
    path: &Path<'_>,
    show_rows: bool,
    repeats: u64,
    cells: u64,
) -> Result<(), SessionRefusal>
    requires repeats { repeats ≤ MAX_REPEATS }
    requires cells { cells ≤ MAX_CLOTH_CELLS }
    ensures keeps { Keeps (limit (path_of path.now) (codes "design.shown") MAX_SHOWN_CELLS (shown_cells_of show_rows repeats cells)) result }
    ensures within { OnOk result (shown_cells_of show_rows repeats cells ≤ MAX_SHOWN_CELLS) }
{
    let shown = shown_cells(show_rows, repeats, cells);
    at_most(
        alloc,
        &Path::Key(path, "design.shown"),
        MAX_SHOWN_CELLS,
        shown,
    )
}

fn shown_cells(show_rows: bool, repeats: u64, cells: u64) -> u64
    requires repeats { repeats ≤ MAX_REPEATS }
    requires cells { cells ≤ MAX_CLOTH_CELLS }
    ensures { result ≡ shown_cells_of show_rows repeats cells }
{
    if show_rows { repeats * cells } else { 0 }
}
