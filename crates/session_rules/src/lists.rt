//! Lists of values of one form.
ghost use Rattle.std.specs.Prelude.{◌≡◌, All, IfOk, [], length, map, option_map};
ghost use Rattle.toml.specs.View.{view};
ghost use Rattle.mill_base.specs.Limits.{IsWithin};
ghost use Rattle.session_rules.specs.Checks.{any_list_by, array, counted, each, list_by};
ghost use Rattle.session_rules.specs.Faults.{Keeps, Reads};
ghost use Rattle.session_rules.specs.Paths.{path_of};
ghost use Rattle.session_rules.specs.Values.{each_value, list_in, values, values_by};

use crate::fault::{SessionFaultKind, SessionRefusal};
use crate::form::Form;
use crate::path::Path;
use mill_base::listed::Listed;
use std::alloc::Global;
use toml::Value;

/// The items of an array.
pub fn items_in(value: &Value) -> Option<&[Value]>
    ensures { option_map (λ items. map view items.now) result ≡ list_in (view value.now) }
{
    let Some(array) = value.as_array() else {
        return None;
    };
    Some(array.as_slice())
}

/// Whether a list has as many items as it may have.
pub fn count_items(
    alloc: Global,
    path: &Path<'_>,
    items: &[Value],
    least: u32,
    greatest: u32,
) -> Result<(), SessionRefusal>
    ensures reads { Keeps (counted least greatest (path_of path.now) (length items.now)) result }
    ensures within { IfOk result (λ _. IsWithin least (length items.now) greatest) }
{
    let found = items.len();
    if found < least as usize || found > greatest as usize {
        let kind = SessionFaultKind::Count {
            found: found as u64,
            least: least as u64,
            greatest: greatest as u64,
        };
        return Err(path.refusal(alloc, kind));
    }
    Ok(())
}

/// A list of so many items of one form.
#[derive(Clone, Copy)]
pub struct ListOf<F> {
    pub least: u32,
    pub greatest: u32,
    pub item: F,
}

impl<F: Form> Form for ListOf<F>
where
    F::Out: Drop,
{
    type Out = Listed<F::Out>;

    ghost faults = { λ s earlier. list_by s.least s.greatest (F.faults s.item) };

    ghost gives = { λ s earlier. values_by (F.gives s.item) };

    ghost fits = { λ s xs. IsWithin s.least (length xs) s.greatest × All (F.fits s.item) xs };

    ghost blank = { λ s. [] };

    #[tactic(auto, unfolding(crate::specs::Checks::list_by, crate::specs::Values::values_by), using(crate::proofs::lemmas::Told::told_here, crate::proofs::lemmas::Told::told_later))]
    fn read(
        &self,
        alloc: Global,
        path: &Path<'_>,
        _earlier: &[Value],
        value: &Value,
    ) -> Result<Listed<F::Out>, SessionRefusal> {
        let Some(items) = items_in(value) else {
            return Err(path.refusal(alloc, SessionFaultKind::Kind));
        };
        count_items(alloc, path, items, self.least, self.greatest)?;
        read_items(alloc, path, items, &self.item)
    }
}

/// A list of any length.
#[derive(Clone, Copy)]
pub struct AnyList<F> {
    pub item: F,
}

impl<F: Form> Form for AnyList<F>
where
    F::Out: Drop,
{
    type Out = Listed<F::Out>;

    ghost faults = { λ s earlier. any_list_by (F.faults s.item) };

    ghost gives = { λ s earlier. values_by (F.gives s.item) };

    ghost fits = { λ s xs. All (F.fits s.item) xs };

    ghost blank = { λ s. [] };

    #[tactic(auto, unfolding(crate::specs::Checks::any_list_by, crate::specs::Values::values_by))]
    fn read(
        &self,
        alloc: Global,
        path: &Path<'_>,
        _earlier: &[Value],
        value: &Value,
    ) -> Result<Listed<F::Out>, SessionRefusal> {
        let Some(items) = items_in(value) else {
            return Err(path.refusal(alloc, SessionFaultKind::Kind));
        };
        read_items(alloc, path, items, &self.item)
    }
}

/// A list, whatever its items are.
#[derive(Clone, Copy)]
pub struct Array;

impl Form for Array {
    type Out = ();

    ghost faults = { λ s earlier. array };

    ghost gives = { λ s earlier d. tt };

    ghost blank = { λ s. tt };

    #[tactic(auto, unfolding(crate::specs::Checks::array))]
    fn read(
        &self,
        alloc: Global,
        path: &Path<'_>,
        _earlier: &[Value],
        value: &Value,
    ) -> Result<(), SessionRefusal> {
        if items_in(value).is_none() {
            return Err(path.refusal(alloc, SessionFaultKind::Kind));
        }
        Ok(())
    }
}

// The one loop over the items of a list.
fn read_items<F: Form>(
    alloc: Global,
    path: &Path<'_>,
    items: &[Value],
    form: &F,
) -> Result<Listed<F::Out>, SessionRefusal>
where
    F::Out: Drop,
    ensures reads { Reads (each (F.faults form.now) (path_of path.now) [] (map view items.now)) (each_value (F.gives form.now) [] (map view items.now)) result }
    ensures count { IfOk result (λ xs. length xs ≡ length items.now) }
    ensures within { IfOk result (λ xs. All (F.fits form.now) xs) }
{
    let mut values = Listed::new(alloc);
    for item in items {
        let place = values.len();
        let earlier = &items[..place];
        let value = form.read(alloc, &Path::Item(&*path, place), earlier, item)?;
        values.push(value)?;
    }
    Ok(values)
}
