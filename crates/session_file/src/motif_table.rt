//! The list `motif`.
ghost use Rattle.std.specs.Prelude.{◌≡◌, ◌<◌, ◌≤◌, [], ◌∷◌, ◌++◌, length, map, codes, IfOk, OnOk};
ghost use Rattle.std.specs.String.{string_bytes};
ghost use Rattle.mill_base.specs.declared.limits.TheConstants.{MAX_COLOURS, MAX_MOTIFS};
ghost use Rattle.strokes.specs.Motifs.{motif_fault, motif_of};
ghost use Rattle.toml.specs.View.{table_view, view};
ghost use Rattle.session_rules.specs.Checks.{each};
ghost use Rattle.session_rules.specs.Faults.{Keeps, Reads};
ghost use Rattle.session_rules.specs.Paths.{keyed, path_of};
ghost use Rattle.session_rules.specs.Tables.{table as table_of};
ghost use Rattle.session_rules.specs.Values.{each_value, members_give, values};
ghost use Rattle.session_rules.specs.declared.fault.SessionFaultKind.TheVariants.{Motif as BadMotif};
ghost use Rattle.session_file.specs.Rules.{motif_keys, motif_rules, motifs as motifs_check};
ghost use Rattle.session_file.specs.Trade.{built};
ghost use Rattle.session_file.specs.Values.{motifs_of, named_motif_of};
ghost use Rattle.session_file.specs.inner.Drafts.{FitMotifs};

use crate::trade_forms::NewName;
use mill_base::limits::{MAX_MOTIFS, MAX_PICKS};
use mill_base::size::Size;
use session_rules::fault::{SessionFaultKind, SessionRefusal};
use session_rules::form::Form;
use session_rules::lists::{ListOf, count_items, items_in};
use session_rules::path::Path;
use session_rules::tables::{KnownKeys, KnownOf, no_other_keys, required};
use session_rules::text_list::Texts;
use std::alloc::Global;
use strokes::fault::MotifFault;
use strokes::laws::rows_without_a_fault_make_a_motif;
use strokes::motifs::Motifs;
use toml::{Table, Value};

/// The keys of a table of `motif`.
#[derive(Clone, Copy)]
pub(crate) struct MotifKeys;

pub(crate) const KNOWN_MOTIFS: ListOf<KnownOf<MotifKeys>> = ListOf {
    least: 0,
    greatest: MAX_MOTIFS,
    item: KnownOf { keys: MotifKeys },
};

const ROWS: Texts = Texts {
    least: 1,
    greatest: MAX_PICKS,
};

impl KnownKeys for MotifKeys {
    ghost known = { λ s. motif_keys };

    #[tactic(auto, unfolding(crate::specs::Rules::motif_keys))]
    fn read_known(
        &self,
        alloc: Global,
        path: &Path<'_>,
        table: &Table,
    ) -> Result<(), SessionRefusal> {
        no_other_keys(alloc, path, table, &["name", "rows"])
    }
}

/// The motifs of a list, for a book of so many colours and a paper of the size.
#[derive(Clone, Copy)]
pub(crate) struct MotifsForm {
    pub colours: u32,
    pub size: Size,
    ghost few: { colours ≤ MAX_COLOURS },
}

impl Form for MotifsForm {
    type Out = Motifs;

    ghost faults = { λ s earlier. motifs_check s.colours s.size };

    ghost gives = { λ s earlier. values (members_give named_motif_of) };

    ghost fits = { λ s motifs. (length motifs ≤ MAX_MOTIFS) × FitMotifs s.colours s.size motifs };

    ghost blank = { λ s. [] };

    #[tactic(auto, unfolding(crate::specs::Rules::motifs, session_rules::specs::Checks::list_by, session_rules::specs::Values::values_by), using(session_rules::proofs::lemmas::Told::told_here, session_rules::proofs::lemmas::Told::told_later))]
    fn read(
        &self,
        alloc: Global,
        path: &Path<'_>,
        _earlier: &[Value],
        value: &Value,
    ) -> Result<Motifs, SessionRefusal> {
        let Some(items) = items_in(value) else {
            return Err(path.refusal(alloc, SessionFaultKind::Kind));
        };
        count_items(alloc, path, items, 0, MAX_MOTIFS)?;
        read_motifs(alloc, path, items, self.colours, self.size)
    }
}

fn read_motifs(
    alloc: Global,
    path: &Path<'_>,
    items: &[Value],
    colours: u32,
    size: Size,
) -> Result<Motifs, SessionRefusal>
    requires colours { colours ≤ MAX_COLOURS }
    requires few { length items.now ≤ MAX_MOTIFS }
    ensures reads { Reads (each (λ earlier. table_of (motif_rules colours size (motifs_of earlier))) (path_of path.now) [] (map view items.now)) (each_value (λ earlier. members_give named_motif_of) [] (map view items.now)) result }
    ensures count { IfOk result (λ motifs. length motifs ≡ length items.now) }
    ensures within { IfOk result (λ motifs. FitMotifs colours size motifs) }
{
    let mut motifs = Motifs::new(alloc);
    for item in items {
        let place = motifs.len() as usize;
        add_motif(
            alloc,
            &Path::Item(&*path, place),
            &mut motifs,
            item,
            colours,
            size,
        )?;
    }
    Ok(motifs)
}

// Adds the motif of an item behind those that there are.
#[tactic(auto, unfolding(session_rules::specs::Tables::table, session_rules::specs::Values::members_give))]
fn add_motif(
    alloc: Global,
    path: &Path<'_>,
    motifs: &mut Motifs,
    item: &Value,
    colours: u32,
    size: Size,
) -> Result<(), SessionRefusal>
    requires colours { colours ≤ MAX_COLOURS }
    requires few { length motifs.old < MAX_MOTIFS }
    ensures keeps { Keeps (table_of (motif_rules colours size motifs.old) (path_of path.now) (view item.now)) result }
    ensures added { OnOk result (motifs.new ≡ motifs.old ++ members_give named_motif_of (view item.now) ∷ []) }
    ensures within { OnOk result (FitMotifs colours size motifs.old → FitMotifs colours size motifs.new) }
{
    let Some(table) = item.as_table() else {
        return Err(path.refusal(alloc, SessionFaultKind::Kind));
    };
    add_table(alloc, path, motifs, table, colours, size)
}

#[tactic(auto, unfolding(crate::specs::Rules::motif_rules, crate::specs::Rules::stamped, crate::specs::Values::named_motif_of), using(session_rules::proofs::lemmas::Told::told_here, session_rules::proofs::lemmas::Told::told_later))]
fn add_table(
    alloc: Global,
    path: &Path<'_>,
    motifs: &mut Motifs,
    table: &Table,
    colours: u32,
    size: Size,
) -> Result<(), SessionRefusal>
    requires colours { colours ≤ MAX_COLOURS }
    requires few { length motifs.old < MAX_MOTIFS }
    ensures keeps { Keeps (motif_rules colours size motifs.old (path_of path.now) (table_view table.now)) result }
    ensures added { OnOk result (motifs.new ≡ motifs.old ++ named_motif_of (table_view table.now) ∷ []) }
    ensures within { OnOk result (FitMotifs colours size motifs.old → FitMotifs colours size motifs.new) }
{
    let name = required(alloc, path, table, "name", &NewName { motifs: &*motifs })?;
    let rows = required(alloc, path, table, "rows", &ROWS)?;
    add_rows(
        alloc,
        path,
        motifs,
        name.as_str(),
        rows.as_slice(),
        colours,
        size,
    )
}

#[tactic(auto, unfolding(session_rules::specs::Paths::path_of))]
fn add_rows(
    alloc: Global,
    path: &Path<'_>,
    motifs: &mut Motifs,
    name: &str,
    rows: &[String],
    colours: u32,
    size: Size,
) -> Result<(), SessionRefusal>
    requires colours { colours ≤ MAX_COLOURS }
    requires few { length motifs.old < MAX_MOTIFS }
    ensures keeps { Keeps (built BadMotif (keyed (path_of path.now) (codes "rows")) (motif_fault (map string_bytes rows.now) colours size)) result }
    ensures added { OnOk result (motifs.new ≡ motifs.old ++ record { name = name.now; motif = motif_of (map string_bytes rows.now) } ∷ []) }
    ensures within { OnOk result (FitMotifs colours size motifs.old → FitMotifs colours size motifs.new) }
{
    rows_without_a_fault_make_a_motif();
    match motifs.add(name, rows, colours, size) {
        Ok(()) => Ok(()),
        Err(MotifFault::OutOfMemory) => Err(SessionRefusal::OutOfMemory),
        Err(fault) => Err(Path::Key(path, "rows").refusal(alloc, SessionFaultKind::Motif(fault))),
    }
}
