//! Machines of looms.
ghost use Rattle.std.specs.Prelude.{◌≡◌, ◌+◌, ◌/◌, ◌<◌, ◌≤◌, List, Bool, All, length, IfOk};
ghost use Rattle.mill_base.specs.Bits.{packed};
ghost use Rattle.draft_model.specs.Cards.{lift};
ghost use Rattle.loom_machine.specs.Machines.{holes_in};

use crate::reading::read_columns;
use casting_out::casting::Casting;
use harness_ties::tie::Tie;
use mill_base::bit_row::BitRow;
use mill_base::memory::OutOfMemory;
use std::alloc::Global;
use std::marker::Model;

/// Lifts the ends of a loom by cards: a hole lifts its hook, a hook the column that hangs on it, and a column all of
/// its ends. It keeps the rows of hooks and columns in which it works.
#[derive(Drop)]
pub struct Machine {
    tie: Tie,
    casting: Casting,
    hooks: BitRow,
    columns: BitRow,
}

impl Model for Machine {
    ghost use Rattle.std.specs.Prelude.{◌≡◌, length};
    ghost use Rattle.loom_machine.specs.Machines.{MachineValue, IsMachine};

    ghost Value = { MachineValue };

    ghost view = { λ m. record { tie = m.tie; casting = m.casting } };

    ghost invariant = { λ m. IsMachine (record { tie = m.tie; casting = m.casting })
        × (length m.hooks ≡ m.casting.hooks)
        × (length m.columns ≡ length m.casting.columns) };
}

impl Machine {
    /// A machine for a tie and a casting that were built for the same columns.
    pub fn new(alloc: Global, tie: &Tie, casting: &Casting) -> Result<Machine, OutOfMemory>
        requires { length casting.now.columns ≡ tie.now.columns }
        ensures { IfOk result (λ m. m ≡ record { tie = tie.now; casting = casting.now }) }
    {
        // The tie tells with its ends that each has a column.
        let _ = tie.ends();
        let hooks = BitRow::new(alloc, casting.hooks())?;
        let columns = BitRow::new(alloc, casting.columns())?;
        Ok(Machine {
            tie: tie.copy()?,
            casting: casting.copy()?,
            hooks,
            columns,
        })
    }

    /// Lifts by a packed card: each end is true exactly where the card has a hole at the hook of the end's column. It
    /// takes no memory.
    pub fn pick(&mut self, card: &[u8], out: &mut BitRow)
        requires card { length card.now ≡ (self.old.casting.hooks + 7) / 8 }
        requires out { length out.old ≡ length self.old.tie.ends }
        ensures same { self.new ≡ self.old }
        ensures len { length out.new ≡ length self.old.tie.ends }
        ensures row { out.new ≡ lift self.old.tie.ends self.old.casting (holes_in self.old.casting.hooks card.now) }
        ensures packed { (holes : List Bool) → length holes ≡ self.old.casting.hooks → card.now ≡ packed holes
            → out.new ≡ lift self.old.tie.ends self.old.casting holes }
    {
        carry(
            &self.tie,
            &self.casting,
            &mut self.hooks,
            &mut self.columns,
            card,
            out,
        );
    }
}

// Carries the holes of a card over hooks and columns to the ends.
fn carry(
    tie: &Tie,
    casting: &Casting,
    hooks: &mut BitRow,
    columns: &mut BitRow,
    card: &[u8],
    out: &mut BitRow,
)
    requires card { length card.now ≡ (casting.now.hooks + 7) / 8 }
    requires hooks { length hooks.old ≡ casting.now.hooks }
    requires columns { length columns.old ≡ length casting.now.columns }
    requires fit { length casting.now.columns ≡ tie.now.columns }
    requires tied { All (λ c. c < length casting.now.columns) tie.now.ends }
    requires out { length out.old ≡ length tie.now.ends }
    ensures hooks { length hooks.new ≡ casting.now.hooks }
    ensures columns { length columns.new ≡ length casting.now.columns }
    ensures len { length out.new ≡ length tie.now.ends }
    ensures row { out.new ≡ lift tie.now.ends casting.now (holes_in casting.now.hooks card.now) }
    ensures packed { (holes : List Bool) → length holes ≡ casting.now.hooks → card.now ≡ packed holes
        → out.new ≡ lift tie.now.ends casting.now holes }
{
    read_columns(casting, card, hooks, columns);
    tie.lay(columns, out);
}
