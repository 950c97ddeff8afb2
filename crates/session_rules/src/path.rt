//! Where a value stands in a document.
ghost use Rattle.std.specs.Prelude.{◌≡◌, [], ◌∷◌, ◌++◌, decimal, OnOk};
ghost use Rattle.std.specs.String.{string_bytes};
ghost use Rattle.session_rules.specs.Paths.{indexed, keyed, path_of};
ghost use Rattle.session_rules.specs.Faults.{TellsFirst, fault};

use crate::fault::{SessionFault, SessionFaultKind, SessionRefusal};
use mill_base::memory::OutOfMemory;
use mill_base::name_text::NameText;
use std::alloc::Global;

/// The top table, the value at a key of a table, or an item of a list, counted from 0. A path lies on the stack; its text is made only
/// where a fault is told.
#[derive(Clone, Copy)]
pub enum Path<'a> {
    Top,
    Key(&'a Path<'a>, &'a str),
    Item(&'a Path<'a>, usize),
}

impl<'a> Path<'a> {
    /// The refusal that tells a fault of this kind here.
    pub fn refusal(&self, alloc: Global, kind: SessionFaultKind) -> SessionRefusal
        ensures { TellsFirst (fault (path_of self.now) kind) result }
    {
        let mut text = String::new(alloc);
        match push_path(&mut text, self) {
            Ok(()) => SessionRefusal::Fault(SessionFault {
                path: NameText::from_string(text),
                kind,
            }),
            Err(_) => SessionRefusal::OutOfMemory,
        }
    }
}

#[tactic(auto, unfolding(crate::specs::Paths::path_of))]
fn push_path(out: &mut String, path: &Path) -> Result<(), OutOfMemory>
    requires { string_bytes out.old ≡ [] }
    ensures { OnOk result (string_bytes out.new ≡ path_of path.now) }
{
    match path {
        Path::Top => Ok(()),
        Path::Key(table, key) => {
            push_path(out, table)?;
            push_key(out, key)
        }
        Path::Item(list, place) => {
            push_path(out, list)?;
            push_place(out, *place as u64)
        }
    }
}

fn push_key(out: &mut String, key: &str) -> Result<(), OutOfMemory>
    ensures { OnOk result (string_bytes out.new ≡ keyed (string_bytes out.old) key.now) }
{
    if !out.is_empty() {
        out.push_str(".")?;
    }
    out.push_str(key)?;
    Ok(())
}

#[tactic(auto, unfolding(crate::specs::Paths::indexed))]
fn push_place(out: &mut String, place: u64) -> Result<(), OutOfMemory>
    ensures { OnOk result (string_bytes out.new ≡ indexed (string_bytes out.old) place) }
{
    let digits = place.to_string(*out.allocator())?;
    out.push_str("[")?;
    out.push_str(digits.as_str())?;
    out.push_str("]")?;
    Ok(())
}
