//! The list `tie`.
ghost use Rattle.std.specs.Prelude.{◌≡◌, ◌≤◌, codes, IfOk};
ghost use Rattle.mill_base.specs.declared.limits.TheConstants.{MAX_COLUMNS};
ghost use Rattle.harness_ties.specs.Faults.{tie_fault};
ghost use Rattle.harness_ties.specs.Ties.{tie_of, IsTie};
ghost use Rattle.toml.specs.View.{table_view};
ghost use Rattle.session_rules.specs.declared.fault.SessionFaultKind.TheVariants.{Tie as BadTie};
ghost use Rattle.session_rules.specs.Faults.{Reads};
ghost use Rattle.session_rules.specs.Paths.{keyed, path_of};
ghost use Rattle.session_file.specs.Rules.{section_keys, section_rules, tie_rules};
ghost use Rattle.session_file.specs.Trade.{built};
ghost use Rattle.session_file.specs.Values.{section_of, tie_in};

use crate::words::KindWords;
use harness_ties::fault::TieFault;
use harness_ties::laws::sections_without_a_fault_make_a_tie;
use harness_ties::section::Section;
use harness_ties::tie::Tie;
use mill_base::limits::{MAX_COLUMNS, MAX_ENDS, MAX_SECTIONS};
use mill_base::listed::Listed;
use session_rules::fault::{SessionFaultKind, SessionRefusal};
use session_rules::form::{Whole, WordOf};
use session_rules::lists::ListOf;
use session_rules::path::Path;
use session_rules::tables::{Keys, KnownKeys, KnownOf, TableOf, no_other_keys, optional, required};
use std::alloc::Global;
use toml::{Table, Value};

/// The keys of a table of `tie`.
#[derive(Clone, Copy)]
pub(crate) struct SectionKeys;

const SECTIONS: ListOf<TableOf<SectionKeys>> = ListOf {
    least: 0,
    greatest: MAX_SECTIONS,
    item: TableOf { keys: SectionKeys },
};

pub(crate) const KNOWN_SECTIONS: ListOf<KnownOf<SectionKeys>> = ListOf {
    least: 0,
    greatest: MAX_SECTIONS,
    item: KnownOf { keys: SectionKeys },
};

const KIND: WordOf<KindWords> = WordOf { words: KindWords };

impl Keys for SectionKeys {
    type Out = Section;

    ghost rules = { λ s earlier. section_rules };

    ghost members = { λ s earlier. section_of };

    #[tactic(auto, unfolding(crate::specs::Rules::section_rules, crate::specs::Values::section_of), using(session_rules::proofs::lemmas::Told::told_here, session_rules::proofs::lemmas::Told::told_later))]
    fn read_keys(
        &self,
        alloc: Global,
        path: &Path<'_>,
        _earlier: &[Value],
        table: &Table,
    ) -> Result<Section, SessionRefusal> {
        let kind = required(alloc, path, table, "kind", &KIND)?;
        let from = required(alloc, path, table, "from", &Whole(0, MAX_COLUMNS - 1))?;
        let to = required(alloc, path, table, "to", &Whole(0, MAX_COLUMNS - 1))?;
        let times = optional(alloc, path, table, "times", &Whole(1, MAX_ENDS), 1)?;
        Ok(Section {
            kind,
            from,
            to,
            times,
        })
    }
}

impl KnownKeys for SectionKeys {
    ghost known = { λ s. section_keys };

    #[tactic(auto, unfolding(crate::specs::Rules::section_keys))]
    fn read_known(
        &self,
        alloc: Global,
        path: &Path<'_>,
        table: &Table,
    ) -> Result<(), SessionRefusal> {
        no_other_keys(alloc, path, table, &["kind", "from", "to", "times"])
    }
}

/// The tie of so many columns that the list `tie` gives.
#[tactic(auto, unfolding(crate::specs::Rules::tie_rules, crate::specs::Rules::tied, crate::specs::Values::tie_in, crate::specs::Values::sections_in), using(session_rules::proofs::lemmas::Told::told_here, session_rules::proofs::lemmas::Told::told_later))]
pub(crate) fn read_tie(
    alloc: Global,
    path: &Path<'_>,
    table: &Table,
    columns: u32,
) -> Result<Tie, SessionRefusal>
    requires some { 1 ≤ columns }
    requires limit { columns ≤ MAX_COLUMNS }
    ensures reads { Reads (tie_rules columns (path_of path.now) (table_view table.now)) (tie_in columns (table_view table.now)) result }
    ensures whole { IfOk result (λ tie. (tie.columns ≡ columns) × IsTie tie) }
{
    let sections = optional(alloc, path, table, "tie", &SECTIONS, Listed::new(alloc))?;
    make_tie(alloc, path, sections.as_slice(), columns)
}

#[tactic(auto, unfolding(session_rules::specs::Paths::path_of))]
fn make_tie(
    alloc: Global,
    path: &Path<'_>,
    sections: &[Section],
    columns: u32,
) -> Result<Tie, SessionRefusal>
    requires some { 1 ≤ columns }
    requires limit { columns ≤ MAX_COLUMNS }
    ensures reads { Reads (built BadTie (keyed (path_of path.now) (codes "tie")) (tie_fault sections.now columns)) (record { columns = columns; ends = tie_of sections.now columns }) result }
    ensures whole { IfOk result (λ tie. (tie.columns ≡ columns) × IsTie tie) }
{
    sections_without_a_fault_make_a_tie();
    match Tie::build(alloc, sections, columns) {
        Ok(tie) => Ok(tie),
        Err(TieFault::OutOfMemory) => Err(SessionRefusal::OutOfMemory),
        Err(fault) => Err(Path::Key(path, "tie").refusal(alloc, SessionFaultKind::Tie(fault))),
    }
}
