//! Cards that are read into rows of hooks and columns, by words of 64.
ghost use Rattle.std.specs.Prelude.{◌≡◌, ◌+◌, ◌-◌, ◌*◌, ◌/◌, ◌%◌, ◌^◌, ◌<◌, ◌==◌, ℕ, List, Bool, false, length, slice_index, slice_index_or};
ghost use Rattle.std.specs.Int.{bit_at};
ghost use Rattle.mill_base.specs.Bits.{packed};
ghost use Rattle.casting_out.specs.Cards.{at_hooks};
ghost use Rattle.loom_machine.specs.Machines.{holes_in};

use card_image::eight_bytes::word_from;
use casting_out::casting::Casting;
use mill_base::bit_row::BitRow;
use mill_base::word::reversed_bytes;

// The holes of the 64 hooks from hook 64 times `index` on, the first in bit 0.
fn holes_of(card: &[u8], index: usize) -> u64
    requires { index < 2 ^ 32 }
    ensures { (i : ℕ) → i < 64 → bit_at result i ≡ bit_at (slice_index card.now (8 * index + i / 8)) (7 - i % 8) }
{
    reversed_bytes(word_from(card, 8 * index))
}

// Reads the holes of a packed card into a row of the hooks.
fn read_card(card: &[u8], hooks: &mut BitRow)
    requires { length card.now ≡ (length hooks.old + 7) / 8 }
    ensures len { length hooks.new ≡ length hooks.old }
    ensures bits { (k : ℕ) → k < length hooks.old → slice_index_or hooks.new k false ≡ (bit_at (slice_index card.now (k / 8)) (7 - k % 8) == 1) }
    ensures inverse { (row : List Bool) → length row ≡ length hooks.old → card.now ≡ packed row → hooks.new ≡ row }
{
    for index in 0..(hooks.len() as usize + 63) / 64 {
        hooks.put_word(index as u32, holes_of(card, index));
    }
}

/// Reads the holes of a packed card into a row of the columns: each has that of its hook. Where each hook has a column the
/// card is read as it is, since each column then hangs on the hook of its own number.
pub fn read_columns(casting: &Casting, card: &[u8], hooks: &mut BitRow, columns: &mut BitRow)
    requires card { length card.now ≡ (casting.now.hooks + 7) / 8 }
    requires hooks { length hooks.old ≡ casting.now.hooks }
    requires columns { length columns.old ≡ length casting.now.columns }
    ensures hooks { length hooks.new ≡ casting.now.hooks }
    ensures columns { length columns.new ≡ length casting.now.columns }
    ensures row { columns.new ≡ at_hooks casting.now.columns (holes_in casting.now.hooks card.now) }
    ensures packed { (holes : List Bool) → length holes ≡ casting.now.hooks → card.now ≡ packed holes
        → columns.new ≡ at_hooks casting.now.columns holes }
{
    card_image::laws::columns_of_a_full_machine_have_their_own_hooks();
    if casting.columns() == casting.hooks() {
        read_card(card, columns);
        return;
    }
    read_card(card, hooks);
    casting.to_columns(hooks, columns);
}
