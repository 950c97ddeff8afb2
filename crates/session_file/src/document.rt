//! The whole document of a session file.
ghost use Rattle.std.specs.Prelude.{◌≡◌, IfOk};
ghost use Rattle.toml.specs.View.{table_view};
ghost use Rattle.session_rules.specs.Faults.{Reads};
ghost use Rattle.session_rules.specs.Paths.{path_of};
ghost use Rattle.session_file.specs.Rules.{session_rules, value_rules};
ghost use Rattle.session_file.specs.Values.{draft_of};
ghost use Rattle.session_file.specs.inner.Drafts.{FitsNumbers, FitsValues};

use crate::colour_table::COLOURS;
use crate::design_table::{DesignKeys, opening_key};
use crate::draft::SessionDraft;
use crate::head::{check_keys, read_head};
use crate::motif_table::MotifsForm;
use crate::numbers::check_numbers;
use crate::shift_table::read_shifts;
use crate::tie_table::read_tie;
use session_rules::fault::SessionRefusal;
use session_rules::path::Path;
use session_rules::tables::{TableOf, optional, required};
use std::alloc::Global;
use strokes::motifs::Motifs;
use toml::Table;

/// What a document says, or the first rule that it breaks.
#[tactic(auto, unfolding(crate::specs::Rules::session_rules), using(session_rules::proofs::lemmas::Told::told_here, session_rules::proofs::lemmas::Told::told_later))]
pub(crate) fn read_draft(
    alloc: Global,
    path: &Path<'_>,
    table: &Table,
) -> Result<SessionDraft, SessionRefusal>
    ensures reads { Reads (session_rules (path_of path.now) (table_view table.now)) (draft_of (table_view table.now)) result }
    ensures values { IfOk result FitsValues }
    ensures numbers { IfOk result FitsNumbers }
{
    let draft = read_values(alloc, path, table)?;
    check_numbers(alloc, path, &draft)?;
    check_keys(alloc, path, table, draft.head.format)?;
    Ok(draft)
}

#[tactic(auto, unfolding(crate::specs::Rules::value_rules, crate::specs::Rules::motifs, crate::specs::Values::draft_of, crate::specs::Values::head_of, crate::specs::Values::colours_in, crate::specs::Values::design_in, crate::specs::Values::motifs_in, crate::specs::Values::opening_of), using(session_rules::proofs::lemmas::Told::told_here, session_rules::proofs::lemmas::Told::told_later))]
fn read_values(
    alloc: Global,
    path: &Path<'_>,
    table: &Table,
) -> Result<SessionDraft, SessionRefusal>
    ensures reads { Reads (value_rules (path_of path.now) (table_view table.now)) (draft_of (table_view table.now)) result }
    ensures within { IfOk result FitsValues }
{
    let head = read_head(alloc, path, table)?;
    let keys = DesignKeys {
        format: head.format,
    };
    let design = required(alloc, path, table, "design", &TableOf { keys })?;
    let size = design.size;
    let colours = required(alloc, path, table, "colour", &COLOURS)?;
    let count = colours.len() as u32;
    let tie = read_tie(alloc, path, table, size.columns)?;
    let form = MotifsForm {
        colours: count,
        size,
    };
    let motifs = optional(alloc, path, table, "motif", &form, Motifs::new(alloc))?;
    let opening = required(alloc, path, table, "design", &opening_key(count))?;
    let shifts = read_shifts(alloc, path, table, head.looms, count, size, &motifs)?;
    Ok(SessionDraft {
        head,
        design,
        colours,
        tie,
        motifs,
        opening,
        shifts,
    })
}
