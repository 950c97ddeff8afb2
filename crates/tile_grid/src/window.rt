//! A window of places of a line, by the kinds of its places.
ghost use Rattle.std.specs.Prelude.{◌≡◌, ◌+◌, ◌-◌, ◌^◌, ◌<◌, ℕ, length, nat_lt, replicate, slice_index, slice_index_or, slice_set, false, IfOk};

use mill_base::bit_row::BitRow;
use mill_base::memory::OutOfMemory;
use std::alloc::Global;
use std::marker::Model;

/// How many places of each kind the window has, and the set of the kinds of which it has some. Contracts see the
/// counts, kind by kind.
#[derive(Drop)]
pub struct Window {
    counts: Vec<u32>,
    seen: BitRow,
}

impl Model for Window {
    ghost use Rattle.std.specs.Prelude.{◌≡◌, ◌<◌, ◌^◌, ℕ, List, length, nat_lt, slice_index, slice_index_or, false};

    ghost Value = { List ℕ };

    ghost view = { λ w. w.counts.items };

    ghost invariant = { λ w. (length w.seen ≡ length w.counts.items)
        × ((kind : ℕ) → kind < length w.counts.items → slice_index_or w.seen kind false ≡ nat_lt 0 (slice_index w.counts.items kind)) };
}

impl Window {
    /// A window without places, for so many kinds.
    pub fn new(alloc: Global, kinds: u32) -> Result<Window, OutOfMemory>
        ensures { IfOk result (λ w. w ≡ replicate kinds 0) }
    {
        let counts = Vec::from_elem(alloc, 0u32, kinds as usize)?;
        let seen = BitRow::new(alloc, kinds)?;
        Ok(Window { counts, seen })
    }

    /// The kinds of which the window has places.
    pub fn kinds(&self) -> &BitRow
        ensures len { length result.now ≡ length self.now }
        ensures kinds { (kind : ℕ) → kind < length self.now → slice_index_or result.now kind false ≡ nat_lt 0 (slice_index self.now kind) }
    {
        &self.seen
    }

    /// A place of the kind comes in.
    pub fn enter(&mut self, kind: u32)
        requires kind { kind < length self.old }
        requires room { slice_index self.old kind + 1 < 2 ^ 32 }
        ensures { self.new ≡ slice_set self.old kind (slice_index self.old kind + 1) }
    {
        self.counts[kind as usize] += 1;
        self.seen.set(kind, true);
    }

    /// A place of the kind leaves.
    pub fn leave(&mut self, kind: u32)
        requires kind { kind < length self.old }
        requires some { 0 < slice_index self.old kind }
        ensures { self.new ≡ slice_set self.old kind (slice_index self.old kind - 1) }
    {
        let left = self.counts[kind as usize] - 1;
        self.counts[kind as usize] = left;
        self.seen.set(kind, left > 0);
    }
}
