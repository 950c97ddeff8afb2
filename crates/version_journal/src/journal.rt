//! The journal of a run.
ghost use Rattle.std.specs.Prelude.{◌≡◌, ◌-◌, ◌<◌, [], ◌∷◌, ◌++◌, IfOk};

use crate::entry::Entry;
use mill_base::memory::OutOfMemory;
use std::alloc::Global;
use std::marker::Model;

/// The acts that were done, in order, and room for more. Contracts see the entries and how many more there is room for.
#[derive(Drop)]
pub struct Journal {
    entries: Vec<Entry>,
    spare: u32,
}

impl Model for Journal {
    ghost use Rattle.std.specs.Prelude.{◌+◌, ◌≤◌, length};
    ghost use Rattle.std.specs.Vec.{vec_capacity};
    ghost use Rattle.version_journal.specs.Entries.{Kept};

    ghost Value = { Kept };

    ghost view = { λ j. record { entries = j.entries.items; spare = j.spare } };

    ghost invariant = { λ j. length j.entries.items + j.spare ≤ vec_capacity j.entries };
}

impl Journal {
    /// A journal without entries, with room for as many as there will be acts.
    pub fn new(alloc: Global, acts: u32) -> Result<Journal, OutOfMemory>
        ensures { IfOk result (λ journal. journal ≡ record { entries = []; spare = acts }) }
    {
        let entries = Vec::with_capacity(alloc, acts as usize)?;
        Ok(Journal {
            entries,
            spare: acts,
        })
    }

    /// How many more entries there is room for.
    pub fn spare(&self) -> u32
        ensures { result ≡ self.now.spare }
    {
        self.spare
    }

    /// Adds an entry at the end. It takes no memory, since there is room.
    pub fn push(&mut self, entry: Entry)
        requires { 0 < self.old.spare }
        ensures { self.new ≡ record { entries = self.old.entries ++ entry ∷ []; spare = self.old.spare - 1 } }
    {
        self.spare -= 1;
        self.entries.push_reserved(entry);
    }

    /// The entries, the first act's first.
    pub fn entries(&self) -> &[Entry]
        ensures { result.now ≡ self.now.entries }
    {
        &self.entries
    }
}
