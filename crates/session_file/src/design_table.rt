//! The table `design`.
ghost use Rattle.std.specs.Prelude.{◌≡◌, ◌≤◌, ◌==◌, codes, length, IfOk, if◌then◌else◌};
ghost use Rattle.casting_out.specs.Castings.{casting_of};
ghost use Rattle.casting_out.specs.Faults.{casting_fault};
ghost use Rattle.toml.specs.View.{table_view};
ghost use Rattle.session_rules.specs.declared.fault.SessionFaultKind.TheVariants.{Casting as BadCasting};
ghost use Rattle.session_rules.specs.Faults.{Reads};
ghost use Rattle.session_rules.specs.Paths.{keyed, path_of};
ghost use Rattle.session_file.specs.Rules.{design_keys, design_rules, hook_rules, limit_rules};
ghost use Rattle.session_file.specs.Trade.{built};
ghost use Rattle.session_file.specs.Values.{casting_in, design_of, float_limits_in, size_in};
ghost use Rattle.session_file.specs.inner.Drafts.{FitsDesign, FitsHooks, FitsLimits};
ghost use Rattle.mill_base.specs.Limits.{IsWithin};

use crate::draft::{DesignPart, FloatLimits};
use crate::trade_forms::{OpeningForm, WeaveForm};
use casting_out::casting::Casting;
use casting_out::fault::CastingFault;
use mill_base::limits::{
    DEFAULT_TILE, MAX_COLUMNS, MAX_FLOAT, MAX_HOOKS, MAX_PICKS, MAX_TILE, MIN_TILE,
};
use mill_base::listed::Listed;
use mill_base::size::Size;
use session_rules::fault::{SessionFaultKind, SessionRefusal};
use session_rules::form::Whole;
use session_rules::lists::ListOf;
use session_rules::path::Path;
use session_rules::tables::{At, Keys, KnownKeys, TableOf, no_other_keys, optional, required};
use std::alloc::Global;
use toml::{Table, Value};
use weave_book::weaves::Weave;

/// The keys of the table `design`, of a file of a format.
#[derive(Clone, Copy)]
pub(crate) struct DesignKeys {
    pub format: u32,
    ghost formats: { IsWithin 1 format 2 },
}

const CAST_OUT: ListOf<Whole> = ListOf {
    least: 0,
    greatest: MAX_HOOKS,
    item: Whole(0, MAX_HOOKS - 1),
};

const FLOAT: Whole = Whole(1, MAX_FLOAT);

impl Keys for DesignKeys {
    type Out = DesignPart;

    ghost rules = { λ s earlier. design_rules s.format };

    ghost members = { λ s earlier. design_of s.format };

    ghost holds = { λ s. FitsDesign };

    #[tactic(auto, unfolding(crate::specs::Rules::design_rules, crate::specs::Values::design_of), using(session_rules::proofs::lemmas::Told::told_here, session_rules::proofs::lemmas::Told::told_later))]
    fn read_keys(
        &self,
        alloc: Global,
        path: &Path<'_>,
        _earlier: &[Value],
        table: &Table,
    ) -> Result<DesignPart, SessionRefusal> {
        let (size, casting) = read_hooks(alloc, path, table)?;
        let limits = read_limits(alloc, path, table, self.format)?;
        let raise = optional(alloc, path, table, "raise", &WeaveForm, Weave::Blank)?;
        let sink = optional(alloc, path, table, "sink", &WeaveForm, Weave::Blank)?;
        let tile = Whole(MIN_TILE, MAX_TILE);
        let tile = optional(alloc, path, table, "tile", &tile, DEFAULT_TILE)?;
        Ok(DesignPart {
            size,
            casting,
            limits,
            raise,
            sink,
            tile,
        })
    }
}

// The size of the paper, and the hook of each column.
#[tactic(auto, unfolding(crate::specs::Rules::hook_rules, crate::specs::Rules::cast, crate::specs::Values::size_in, crate::specs::Values::casting_in, crate::specs::Values::columns_in, crate::specs::Values::picks_in, crate::specs::Values::hooks_in, crate::specs::Values::cast_out_in), using(session_rules::proofs::lemmas::Told::told_here, session_rules::proofs::lemmas::Told::told_later))]
fn read_hooks(
    alloc: Global,
    path: &Path<'_>,
    table: &Table,
) -> Result<(Size, Casting), SessionRefusal>
    ensures reads { Reads (hook_rules (path_of path.now) (table_view table.now)) (size_in (table_view table.now), casting_in (table_view table.now)) result }
    ensures within { IfOk result (λ parts. FitsHooks parts.0 parts.1) }
{
    let columns = required(alloc, path, table, "columns", &Whole(1, MAX_COLUMNS))?;
    let picks = required(alloc, path, table, "picks", &Whole(1, MAX_PICKS))?;
    let hooks = optional(alloc, path, table, "hooks", &Whole(1, MAX_HOOKS), columns)?;
    let none = Listed::new(alloc);
    let cast_out = optional(alloc, path, table, "cast_out", &CAST_OUT, none)?;
    let casting = make_casting(alloc, path, hooks, cast_out.as_slice(), columns)?;
    Ok((Size { columns, picks }, casting))
}

// The casting of the hooks that are not cast out.
#[tactic(auto, unfolding(session_rules::specs::Paths::path_of))]
fn make_casting(
    alloc: Global,
    path: &Path<'_>,
    hooks: u32,
    cast_out: &[u32],
    columns: u32,
) -> Result<Casting, SessionRefusal>
    ensures reads { Reads (built BadCasting (keyed (path_of path.now) (codes "cast_out")) (casting_fault hooks cast_out.now columns)) (casting_of hooks cast_out.now columns) result }
    ensures columns { IfOk result (λ casting. length casting.columns ≡ columns) }
    ensures hooks { IfOk result (λ casting. casting.hooks ≡ hooks) }
{
    match Casting::build(alloc, hooks, cast_out, columns) {
        Ok(casting) => Ok(casting),
        Err(CastingFault::OutOfMemory) => Err(SessionRefusal::OutOfMemory),
        Err(fault) => {
            Err(Path::Key(path, "cast_out").refusal(alloc, SessionFaultKind::Casting(fault)))
        }
    }
}

fn read_limits(
    alloc: Global,
    path: &Path<'_>,
    table: &Table,
    format: u32,
) -> Result<FloatLimits, SessionRefusal>
    requires { IsWithin 1 format 2 }
    ensures reads { Reads (limit_rules format (path_of path.now) (table_view table.now)) (float_limits_in format (table_view table.now)) result }
    ensures within { IfOk result FitsLimits }
{
    if format == 1 {
        return read_two_limits(alloc, path, table);
    }
    read_four_limits(alloc, path, table)
}

// In format 1 both sides of the cloth have one limit.
#[tactic(auto, unfolding(crate::specs::Rules::limit_rules, crate::specs::Values::float_limits_in), using(session_rules::proofs::lemmas::Told::told_here, session_rules::proofs::lemmas::Told::told_later))]
fn read_two_limits(
    alloc: Global,
    path: &Path<'_>,
    table: &Table,
) -> Result<FloatLimits, SessionRefusal>
    ensures reads { Reads (limit_rules 1 (path_of path.now) (table_view table.now)) (float_limits_in 1 (table_view table.now)) result }
    ensures within { IfOk result FitsLimits }
{
    let weft = required(alloc, path, table, "weft_limit", &FLOAT)?;
    let warp = required(alloc, path, table, "warp_limit", &FLOAT)?;
    Ok(FloatLimits {
        weft_face: weft,
        weft_back: weft,
        warp_face: warp,
        warp_back: warp,
    })
}

#[tactic(auto, unfolding(crate::specs::Rules::limit_rules, crate::specs::Values::float_limits_in), using(session_rules::proofs::lemmas::Told::told_here, session_rules::proofs::lemmas::Told::told_later))]
fn read_four_limits(
    alloc: Global,
    path: &Path<'_>,
    table: &Table,
) -> Result<FloatLimits, SessionRefusal>
    ensures reads { Reads (limit_rules 2 (path_of path.now) (table_view table.now)) (float_limits_in 2 (table_view table.now)) result }
    ensures within { IfOk result FitsLimits }
{
    let weft_face = required(alloc, path, table, "weft_face", &FLOAT)?;
    let weft_back = required(alloc, path, table, "weft_back", &FLOAT)?;
    let warp_face = required(alloc, path, table, "warp_face", &FLOAT)?;
    let warp_back = required(alloc, path, table, "warp_back", &FLOAT)?;
    Ok(FloatLimits {
        weft_face,
        weft_back,
        warp_face,
        warp_back,
    })
}

impl KnownKeys for DesignKeys {
    ghost known = { λ s. design_keys s.format };

    #[tactic(auto, unfolding(crate::specs::Rules::design_keys, crate::specs::Rules::limit_keys))]
    fn read_known(
        &self,
        alloc: Global,
        path: &Path<'_>,
        table: &Table,
    ) -> Result<(), SessionRefusal> {
        if self.format == 1 {
            let keys = [
                "columns",
                "picks",
                "hooks",
                "cast_out",
                "raise",
                "sink",
                "tile",
                "opening",
                "weft_limit",
                "warp_limit",
            ];
            return no_other_keys(alloc, path, table, &keys);
        }
        let keys = [
            "columns",
            "picks",
            "hooks",
            "cast_out",
            "raise",
            "sink",
            "tile",
            "opening",
            "weft_face",
            "weft_back",
            "warp_face",
            "warp_back",
        ];
        no_other_keys(alloc, path, table, &keys)
    }
}

/// The key of the opening paper, of a book of so many colours, which the table `design` has beside the others.
pub(crate) fn opening_key(colours: u32) -> TableOf<At<'static, OpeningForm>>
    ensures colours { result.keys.form.colours ≡ colours }
    ensures key { result.keys.key.now ≡ codes "opening" }
{
    let form = OpeningForm { colours };
    let key = "opening";
    TableOf {
        keys: At { key, form },
    }
}
