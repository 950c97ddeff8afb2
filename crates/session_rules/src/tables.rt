//! Tables, and the values at their keys.
ghost use Rattle.std.specs.Prelude.{◌≡◌, ⊤, [], IfOk, ℕ, List, bytes_eq, map, option_map};
ghost use Rattle.std.specs.List.{list_any};
ghost use Rattle.toml.specs.Data.{Data, Members, get_member, no_members};
ghost use Rattle.toml.specs.View.{table_view, view};
ghost use Rattle.session_rules.specs.declared.fault.SessionFault.{SessionFault};
ghost use Rattle.session_rules.specs.Tables.{no_other, optional as optional_key, required as required_key, table as table_of};
ghost use Rattle.session_rules.specs.Faults.{Keeps, Reads};
ghost use Rattle.session_rules.specs.Paths.{path_of};
ghost use Rattle.session_rules.specs.Values.{members_give, value_at};

use crate::fault::{SessionFaultKind, SessionRefusal};
use crate::form::Form;
use crate::path::Path;
use std::alloc::Global;
use toml::{Table, Value};

/// The keys of a form of table: the rules for them, and what members that keep the rules give.
pub trait Keys {
    type Out;

    // the faults of its members behind the earlier values of its list, at its path and in their order
    ghost rules: { Self → List Data → List ℕ → Members → List SessionFault };

    // what its members give where they have no fault
    ghost members: { Self → List Data → Members → Self.Out };

    // what holds of what it gives
    ghost holds: { Self → Self.Out → Type 0 } = { λ s x. ⊤ };

    /// What the table gives, or its first fault.
    fn read_keys(
        &self,
        alloc: Global,
        path: &Path<'_>,
        earlier: &[Value],
        table: &Table,
    ) -> Result<Self::Out, SessionRefusal>
        ensures reads { Reads (rules self.now (map view earlier.now) (path_of path.now) (table_view table.now)) (members self.now (map view earlier.now) (table_view table.now)) result }
        ensures within { IfOk result (holds self.now) };
}

/// The keys that a form of table may have.
pub trait KnownKeys {
    ghost known: { Self → List (List ℕ) };

    /// Whether the table has no other keys; else the least of them by its bytes is told.
    fn read_known(
        &self,
        alloc: Global,
        path: &Path<'_>,
        table: &Table,
    ) -> Result<(), SessionRefusal>
        ensures { Keeps (no_other (known self.now) (path_of path.now) (table_view table.now)) result };
}

/// A table of some keys.
#[derive(Clone, Copy)]
pub struct TableOf<K> {
    pub keys: K,
}

impl<K: Keys> Form for TableOf<K> {
    type Out = K::Out;

    ghost faults = { λ s earlier. table_of (K.rules s.keys earlier) };

    ghost gives = { λ s earlier. members_give (K.members s.keys earlier) };

    ghost fits = { λ s. K.holds s.keys };

    ghost blank = { λ s. K.members s.keys [] no_members };

    #[tactic(auto, unfolding(crate::specs::Tables::table, crate::specs::Values::members_give))]
    fn read(
        &self,
        alloc: Global,
        path: &Path<'_>,
        earlier: &[Value],
        value: &Value,
    ) -> Result<K::Out, SessionRefusal> {
        let Some(table) = value.as_table() else {
            return Err(path.refusal(alloc, SessionFaultKind::Kind));
        };
        self.keys.read_keys(alloc, path, earlier, table)
    }
}

/// The value at a key.
pub fn value_under<'a>(table: &'a Table, key: &str) -> Option<&'a Value>
    ensures { option_map (λ value. view value.now) result ≡ get_member key.now (table_view table.now) }
{
    table.get(key)
}

/// The value at a key that has to be there.
#[tactic(auto, unfolding(crate::specs::Tables::required, crate::specs::Values::value_at, crate::specs::Paths::path_of))]
pub fn required<F: Form>(
    alloc: Global,
    path: &Path<'_>,
    table: &Table,
    key: &str,
    form: &F,
) -> Result<F::Out, SessionRefusal>
    ensures reads { Reads (required_key key.now (F.faults form.now []) (path_of path.now) (table_view table.now)) (value_at key.now (F.gives form.now []) (F.blank form.now) (table_view table.now)) result }
    ensures within { IfOk result (F.fits form.now) }
{
    let path = Path::Key(path, key);
    let Some(value) = value_under(table, key) else {
        return Err(path.refusal(alloc, SessionFaultKind::Missing));
    };
    form.read(alloc, &path, &[], value)
}

/// The value at a key that may be absent; the default stands for it there.
#[tactic(auto, unfolding(crate::specs::Tables::optional, crate::specs::Values::value_at, crate::specs::Paths::path_of))]
pub fn optional<F: Form>(
    alloc: Global,
    path: &Path<'_>,
    table: &Table,
    key: &str,
    form: &F,
    default: F::Out,
) -> Result<F::Out, SessionRefusal>
where
    F::Out: Drop,
    ensures reads { Reads (optional_key key.now (F.faults form.now []) (path_of path.now) (table_view table.now)) (value_at key.now (F.gives form.now []) default (table_view table.now)) result }
    ensures within { IfOk result (λ value. F.fits form.now default → F.fits form.now value) }
{
    let path = Path::Key(path, key);
    let Some(value) = value_under(table, key) else {
        return Ok(default);
    };
    form.read(alloc, &path, &[], value)
}

fn is_among(keys: &[&str], key: &str) -> bool
    ensures { result ≡ list_any (λ k. bytes_eq k key.now) (map (λ known. known.now) keys.now) }
{
    keys.contains(&key)
}

/// Whether the table has these keys alone; else the least other key by its bytes is told. It is one pass over the table.
pub fn no_other_keys<'a>(
    alloc: Global,
    path: &'a Path<'a>,
    table: &'a Table,
    keys: &[&str],
) -> Result<(), SessionRefusal>
    ensures { Keeps (no_other (map (λ key. key.now) keys.now) (path_of path.now) (table_view table.now)) result }
{
    for key in table.keys() {
        let key = key.as_str();
        if !is_among(keys, key) {
            return Err(Path::Key(path, key).refusal(alloc, SessionFaultKind::UnknownKey));
        }
    }
    Ok(())
}

/// A table that has no keys but those of its form.
#[derive(Clone, Copy)]
pub struct KnownOf<K> {
    pub keys: K,
}

impl<K: KnownKeys> Form for KnownOf<K> {
    type Out = ();

    ghost faults = { λ s earlier. table_of (no_other (K.known s.keys)) };

    ghost gives = { λ s earlier d. tt };

    ghost blank = { λ s. tt };

    #[tactic(auto, unfolding(crate::specs::Tables::table))]
    fn read(
        &self,
        alloc: Global,
        path: &Path<'_>,
        _earlier: &[Value],
        value: &Value,
    ) -> Result<(), SessionRefusal> {
        let Some(table) = value.as_table() else {
            return Err(path.refusal(alloc, SessionFaultKind::Kind));
        };
        self.keys.read_known(alloc, path, table)
    }
}

/// One key of a table that may have others.
#[derive(Clone, Copy)]
pub struct At<'a, F> {
    pub key: &'a str,
    pub form: F,
}

impl<'a, F: Form> Keys for At<'a, F> {
    type Out = F::Out;

    ghost rules = { λ s earlier. required_key s.key.now (F.faults s.form []) };

    ghost members = { λ s earlier. value_at s.key.now (F.gives s.form []) (F.blank s.form) };

    ghost holds = { λ s. F.fits s.form };

    fn read_keys(
        &self,
        alloc: Global,
        path: &Path<'_>,
        _earlier: &[Value],
        table: &Table,
    ) -> Result<F::Out, SessionRefusal> {
        required(alloc, path, table, self.key, &self.form)
    }
}
