//! The list `shift`.
ghost use Rattle.std.specs.Prelude.{◌≡◌, ◌≤◌, length, codes, All, IfOk};
ghost use Rattle.mill_base.specs.Limits.{IsWithin};
ghost use Rattle.mill_base.specs.declared.limits.TheConstants.{MAX_COLOURS, MAX_LOOMS, MAX_SHIFTS};
ghost use Rattle.toml.specs.View.{table_view};
ghost use Rattle.session_rules.specs.Faults.{Reads};
ghost use Rattle.session_rules.specs.Paths.{path_of};
ghost use Rattle.session_rules.specs.Tables.{required as required_key};
ghost use Rattle.session_file.specs.Rules.{shift_keys, shift_rules, shifts};
ghost use Rattle.session_file.specs.Values.{plan_of, shifts_in};
ghost use Rattle.session_file.specs.inner.Drafts.{FitsShift};

use crate::act_form::ActForm;
use crate::session::ShiftPlan;
use mill_base::limits::{MAX_PAINTERS, MAX_REPEATS, MAX_SHIFTS};
use mill_base::listed::Listed;
use mill_base::size::Size;
use session_rules::fault::SessionRefusal;
use session_rules::form::Whole;
use session_rules::lists::{AnyList, Array, ListOf};
use session_rules::path::Path;
use session_rules::tables::{Keys, KnownKeys, KnownOf, TableOf, no_other_keys, optional, required};
use std::alloc::Global;
use strokes::motifs::Motifs;
use toml::{Table, Value};

/// The keys of a table of `shift`, of a session with so many looms and colours, papers of a size, and motifs.
#[derive(Clone, Copy)]
pub(crate) struct ShiftKeys<'a> {
    pub looms: u32,
    pub colours: u32,
    pub size: Size,
    pub motifs: &'a Motifs,
    ghost few: { colours ≤ MAX_COLOURS },
}

const PAINTERS: ListOf<Array> = ListOf {
    least: 0,
    greatest: MAX_PAINTERS,
    item: Array,
};

impl<'a> Keys for ShiftKeys<'a> {
    type Out = ShiftPlan;

    ghost rules = { λ s earlier. shift_rules s.looms s.colours s.size s.motifs.now };

    ghost members = { λ s earlier. plan_of s.colours s.size s.motifs.now };

    ghost holds = { λ s. FitsShift s.looms s.colours s.size s.motifs.now };

    #[tactic(auto, unfolding(crate::specs::Rules::shift_rules, crate::specs::Values::plan_of), using(session_rules::proofs::lemmas::Told::told_here, session_rules::proofs::lemmas::Told::told_later))]
    fn read_keys(
        &self,
        alloc: Global,
        path: &Path<'_>,
        _earlier: &[Value],
        table: &Table,
    ) -> Result<ShiftPlan, SessionRefusal> {
        let repeats = ListOf {
            least: self.looms,
            greatest: self.looms,
            item: Whole(0, MAX_REPEATS),
        };
        let act = ActForm {
            colours: self.colours,
            size: self.size,
            motifs: self.motifs,
        };
        let acts = ListOf {
            least: 0,
            greatest: MAX_PAINTERS,
            item: AnyList { item: act },
        };
        let repeats = required(alloc, path, table, "repeats", &repeats)?;
        optional(alloc, path, table, "acts", &PAINTERS, Listed::new(alloc))?;
        let painters = optional(alloc, path, table, "acts", &acts, Listed::new(alloc))?;
        Ok(ShiftPlan { repeats, painters })
    }
}

/// The keys that a table of `shift` may have.
#[derive(Clone, Copy)]
pub(crate) struct KnownShiftKeys;

pub(crate) const KNOWN_SHIFTS: ListOf<KnownOf<KnownShiftKeys>> = ListOf {
    least: 1,
    greatest: MAX_SHIFTS,
    item: KnownOf {
        keys: KnownShiftKeys,
    },
};

impl KnownKeys for KnownShiftKeys {
    ghost known = { λ s. shift_keys };

    #[tactic(auto, unfolding(crate::specs::Rules::shift_keys))]
    fn read_known(
        &self,
        alloc: Global,
        path: &Path<'_>,
        table: &Table,
    ) -> Result<(), SessionRefusal> {
        no_other_keys(alloc, path, table, &["repeats", "acts"])
    }
}

/// The plans of the list `shift`.
#[tactic(auto, unfolding(crate::specs::Rules::shifts, crate::specs::Values::shifts_in))]
pub(crate) fn read_shifts(
    alloc: Global,
    path: &Path<'_>,
    table: &Table,
    looms: u32,
    colours: u32,
    size: Size,
    motifs: &Motifs,
) -> Result<Listed<ShiftPlan>, SessionRefusal>
    requires { colours ≤ MAX_COLOURS }
    ensures reads { Reads (required_key (codes "shift") (shifts looms colours size motifs.now) (path_of path.now) (table_view table.now)) (shifts_in colours size motifs.now (table_view table.now)) result }
    ensures count { IfOk result (λ plans. IsWithin 1 (length plans) MAX_SHIFTS) }
    ensures within { IfOk result (λ plans. All (FitsShift looms colours size motifs.now) plans) }
{
    let keys = ShiftKeys {
        looms,
        colours,
        size,
        motifs,
    };
    let shifts = ListOf {
        least: 1,
        greatest: MAX_SHIFTS,
        item: TableOf { keys },
    };
    required(alloc, path, table, "shift", &shifts)
}
