//! What a chain has to agree with.
ghost use Rattle.std.specs.Prelude.{◌≡◌, ◌^◌, ◌<◌, IfOk};
ghost use Rattle.card_image.specs.Places.{card_place};
ghost use Rattle.card_image.specs.Sets.{design_by};
ghost use Rattle.card_image.specs.inner.Masks.{IsMask};

use crate::holes::mark_hooks;
use crate::writing::whole_length;
use casting_out::casting::Casting;
use mill_base::memory::OutOfMemory;
use std::alloc::Global;

/// What the cards of a chain are for, and bytes that have a hole at the hook of each column.
#[derive(Drop)]
pub struct Plan {
    pub hooks: u32,
    pub picks: u32,
    pub columns: Vec<u32>,
    pub mask: Vec<u8>,
    ghost few: { hooks < 2 ^ 32 },
    ghost marked: { IsMask hooks columns.items mask.items },
}

impl Plan {
    /// The plan of the cards of so many picks.
    pub fn new(alloc: Global, casting: &Casting, picks: u32) -> Result<Plan, OutOfMemory>
        ensures { IfOk result (λ p. record { hooks = p.hooks; picks = p.picks; columns = p.columns.items }
            ≡ design_by casting.now picks) }
    {
        let hooks = casting.hooks();
        let columns = Vec::from_slice(alloc, casting.hooks_of_columns())?;
        let mut mask = Vec::from_elem(alloc, 0u8, (hooks as usize + 7) / 8)?;
        mark_hooks(hooks, &columns, &mut mask);
        Ok(Plan {
            hooks,
            picks,
            columns,
            mask,
        })
    }

    /// How many bytes the chain has.
    pub fn length(&self) -> usize
        ensures length { result ≡ card_place self.now.hooks self.now.picks }
        ensures fits { result < 2 ^ 62 }
    {
        whole_length(self.hooks, self.picks)
    }
}
