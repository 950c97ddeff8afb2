//! Lists of texts.
ghost use Rattle.std.specs.Prelude.{◌≡◌, [], ◌∷◌, ◌++◌, map, length, IfOk, OnOk};
ghost use Rattle.std.specs.String.{string_bytes};
ghost use Rattle.toml.specs.View.{view};
ghost use Rattle.mill_base.specs.Limits.{IsWithin};
ghost use Rattle.session_rules.specs.Checks.{each, list, text};
ghost use Rattle.session_rules.specs.Faults.{Keeps, Reads};
ghost use Rattle.session_rules.specs.Paths.{path_of};
ghost use Rattle.session_rules.specs.Values.{each_value, text_in, values};

use crate::fault::{SessionFaultKind, SessionRefusal};
use crate::form::Form;
use crate::lists::{count_items, items_in};
use crate::path::Path;
use mill_base::memory::OutOfMemory;
use std::alloc::Global;
use std::marker::Model;
use toml::Value;

/// Owned texts, which contracts see as the list of their bytes.
#[derive(Drop)]
pub struct TextList {
    texts: Vec<String>,
}

impl Model for TextList {
    ghost use Rattle.std.specs.Prelude.{List, ℕ, map};
    ghost use Rattle.std.specs.String.{string_bytes};

    ghost Value = { List (List ℕ) };

    ghost view = { λ l. map string_bytes l.texts.items };
}

impl TextList {
    /// No text, with room for so many.
    fn with_room(alloc: Global, count: usize) -> Result<TextList, OutOfMemory>
        ensures { IfOk result (λ l. l ≡ []) }
    {
        let texts = Vec::with_capacity(alloc, count)?;
        Ok(TextList { texts })
    }

    /// Adds a copy of a text at the end.
    fn push(&mut self, text: &str) -> Result<(), OutOfMemory>
        ensures { OnOk result (self.new ≡ self.old ++ text.now ∷ []) }
    {
        let text = String::from_str(*self.texts.allocator(), text)?;
        self.texts.push(text)?;
        Ok(())
    }

    /// How many texts there are.
    pub fn len(&self) -> usize
        ensures { result ≡ length self.now }
    {
        self.texts.len()
    }

    /// The texts.
    pub fn as_slice(&self) -> &[String]
        ensures { map string_bytes result.now ≡ self.now }
    {
        &self.texts
    }
}

/// A list of so many texts.
#[derive(Clone, Copy)]
pub struct Texts {
    pub least: u32,
    pub greatest: u32,
}

impl Form for Texts {
    type Out = TextList;

    ghost faults = { λ s earlier. list s.least s.greatest text };

    ghost gives = { λ s earlier. values text_in };

    ghost fits = { λ s xs. IsWithin s.least (length xs) s.greatest };

    ghost blank = { λ s. [] };

    #[tactic(auto, unfolding(crate::specs::Checks::list_by, crate::specs::Values::values_by), using(crate::proofs::lemmas::Told::told_here, crate::proofs::lemmas::Told::told_later))]
    fn read(
        &self,
        alloc: Global,
        path: &Path<'_>,
        _earlier: &[Value],
        value: &Value,
    ) -> Result<TextList, SessionRefusal> {
        let Some(items) = items_in(value) else {
            return Err(path.refusal(alloc, SessionFaultKind::Kind));
        };
        count_items(alloc, path, items, self.least, self.greatest)?;
        read_texts(alloc, path, items)
    }
}

fn read_texts(alloc: Global, path: &Path<'_>, items: &[Value]) -> Result<TextList, SessionRefusal>
    ensures reads { Reads (each (λ earlier. text) (path_of path.now) [] (map view items.now)) (each_value (λ earlier. text_in) [] (map view items.now)) result }
    ensures count { IfOk result (λ texts. length texts ≡ length items.now) }
{
    let mut texts = TextList::with_room(alloc, items.len())?;
    for item in items {
        let place = texts.len();
        push_text(&mut texts, alloc, &Path::Item(&*path, place), item)?;
    }
    Ok(texts)
}

#[tactic(auto, unfolding(crate::specs::Checks::text, crate::specs::Values::text_in))]
fn push_text(
    texts: &mut TextList,
    alloc: Global,
    path: &Path<'_>,
    value: &Value,
) -> Result<(), SessionRefusal>
    ensures keeps { Keeps (text (path_of path.now) (view value.now)) result }
    ensures added { OnOk result (texts.new ≡ texts.old ++ text_in (view value.now) ∷ []) }
{
    let Some(text) = value.as_str() else {
        return Err(path.refusal(alloc, SessionFaultKind::Kind));
    };
    texts.push(text)?;
    Ok(())
}
