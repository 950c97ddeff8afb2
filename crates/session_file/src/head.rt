//! The single values of the top table.
ghost use Rattle.std.specs.Prelude.{◌≡◌, ◌≤◌, codes, length, replicate, IfOk};
ghost use Rattle.mill_base.specs.declared.face.Face.TheVariants.{Up};
ghost use Rattle.mill_base.specs.declared.limits.TheConstants.{MAX_LOOMS};
ghost use Rattle.toml.specs.View.{table_view};
ghost use Rattle.session_rules.specs.Faults.{Keeps, Reads};
ghost use Rattle.session_rules.specs.Paths.{path_of};
ghost use Rattle.session_rules.specs.Tables.{no_other, optional as optional_key};
ghost use Rattle.session_file.specs.Rules.{faces, head_rules, known_rules, top_keys};
ghost use Rattle.session_file.specs.Values.{faces_in, head_of};
ghost use Rattle.session_file.specs.inner.Drafts.{FitsHead};
ghost use Rattle.mill_base.specs.Limits.{IsWithin};

use crate::colour_table::KNOWN_COLOURS;
use crate::design_table::DesignKeys;
use crate::draft::Head;
use crate::motif_table::KNOWN_MOTIFS;
use crate::shift_table::KNOWN_SHIFTS;
use crate::tie_table::KNOWN_SECTIONS;
use crate::words::{FaceWords, ShowWords};
use mill_base::face::Face;
use mill_base::limits::MAX_LOOMS;
use mill_base::listed::Listed;
use mill_base::memory::OutOfMemory;
use session_rules::fault::SessionRefusal;
use session_rules::form::{Whole, WordOf};
use session_rules::lists::ListOf;
use session_rules::path::Path;
use session_rules::tables::{KnownOf, no_other_keys, optional, required};
use std::alloc::Global;
use toml::Table;

const SHOW: WordOf<ShowWords> = WordOf { words: ShowWords };

const FACE: WordOf<FaceWords> = WordOf { words: FaceWords };

/// The single values of the top table.
#[tactic(auto, unfolding(crate::specs::Rules::head_rules, crate::specs::Values::head_of, crate::specs::Values::format_in, crate::specs::Values::looms_in), using(session_rules::proofs::lemmas::Told::told_here, session_rules::proofs::lemmas::Told::told_later))]
pub(crate) fn read_head(
    alloc: Global,
    path: &Path<'_>,
    table: &Table,
) -> Result<Head, SessionRefusal>
    ensures reads { Reads (head_rules (path_of path.now) (table_view table.now)) (head_of (table_view table.now)) result }
    ensures within { IfOk result FitsHead }
{
    let format = required(alloc, path, table, "format", &Whole(1, 2))?;
    let looms = optional(alloc, path, table, "looms", &Whole(1, MAX_LOOMS), 1)?;
    let show_rows = optional(alloc, path, table, "show", &SHOW, false)?;
    let faces = read_faces(alloc, path, table, looms)?;
    Ok(Head {
        format,
        looms,
        show_rows,
        faces,
    })
}

// A word for each loom; without them each loom is face up.
#[tactic(auto, unfolding(crate::specs::Rules::faces, crate::specs::Values::faces_in))]
fn read_faces(
    alloc: Global,
    path: &Path<'_>,
    table: &Table,
    looms: u32,
) -> Result<Listed<Face>, SessionRefusal>
    ensures reads { Reads (optional_key (codes "faces") (faces looms) (path_of path.now) (table_view table.now)) (faces_in looms (table_view table.now)) result }
    ensures count { IfOk result (λ words. length words ≡ looms) }
{
    let up = all_up(alloc, looms)?;
    let faces = ListOf {
        least: looms,
        greatest: looms,
        item: FACE,
    };
    optional(alloc, path, table, "faces", &faces, up)
}

pub(crate) fn all_up(alloc: Global, looms: u32) -> Result<Listed<Face>, OutOfMemory>
    ensures { IfOk result (λ faces. faces ≡ replicate looms Up) }
{
    let faces = Vec::from_elem(alloc, Face::Up, looms as usize)?;
    Ok(Listed::of(faces))
}

/// Whether no table has keys but its own: the top table, then `design`, then table by table of the lists.
#[tactic(auto, unfolding(crate::specs::Rules::known_rules), using(session_rules::proofs::lemmas::Told::told_here, session_rules::proofs::lemmas::Told::told_later))]
pub(crate) fn check_keys(
    alloc: Global,
    path: &Path<'_>,
    table: &Table,
    format: u32,
) -> Result<(), SessionRefusal>
    requires { IsWithin 1 format 2 }
    ensures { Keeps (known_rules format (path_of path.now) (table_view table.now)) result }
{
    check_top_keys(alloc, path, table)?;
    let keys = DesignKeys { format };
    required(alloc, path, table, "design", &KnownOf { keys })?;
    required(alloc, path, table, "colour", &KNOWN_COLOURS)?;
    optional(
        alloc,
        path,
        table,
        "tie",
        &KNOWN_SECTIONS,
        Listed::new(alloc),
    )?;
    optional(
        alloc,
        path,
        table,
        "motif",
        &KNOWN_MOTIFS,
        Listed::new(alloc),
    )?;
    required(alloc, path, table, "shift", &KNOWN_SHIFTS)?;
    Ok(())
}

#[tactic(auto, unfolding(crate::specs::Rules::top_keys))]
fn check_top_keys(alloc: Global, path: &Path<'_>, table: &Table) -> Result<(), SessionRefusal>
    ensures { Keeps (no_other top_keys (path_of path.now) (table_view table.now)) result }
{
    let keys = [
        "format", "looms", "show", "faces", "design", "colour", "tie", "motif", "shift",
    ];
    no_other_keys(alloc, path, table, &keys)
}
