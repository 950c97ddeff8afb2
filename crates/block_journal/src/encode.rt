//! The bytes of a block.
ghost use Rattle.std.specs.Prelude.{◌≡◌, ◌≤◌, ◌<◌, ◌^◌, ◌+◌, ◌*◌, ◌++◌, [], ◌∷◌, length, vec_capacity};
ghost use Rattle.block_journal.specs.Journals.{body_of, number, mark_bytes};

use crate::mark::Mark;

/// Makes the bytes of the block but for its first, with a 0 behind, in place of what was there. It takes no memory.
pub(crate) fn encode(out: &mut Vec<u8>, block: &[Mark])
    requires few { length block.now < 2 ^ 32 }
    requires room { 5 + 12 * length block.now ≤ vec_capacity out.old }
    ensures bytes { out.new.items ≡ body_of block.now ++ 0 ∷ [] }
    ensures room { vec_capacity out.old ≤ vec_capacity out.new }
{
    out.clear();
    put_number(out, block.len() as u32);
    for mark in block {
        put_mark(out, *mark);
    }
    out.push_reserved(0);
}

#[tactic(auto, using(crate::proofs::Blocks::three))]
fn put_mark(out: &mut Vec<u8>, mark: Mark)
    requires { length out.old.items + 12 ≤ vec_capacity out.old }
    ensures bytes { out.new.items ≡ out.old.items ++ mark_bytes mark }
    ensures length { length out.new.items ≡ length out.old.items + 12 }
    ensures room { vec_capacity out.old ≤ vec_capacity out.new }
{
    put_number(out, mark.shift);
    put_number(out, mark.painter);
    put_number(out, mark.number);
}

#[tactic(auto, unfolding(crate::specs::Journals::number))]
fn put_number(out: &mut Vec<u8>, value: u32)
    requires { length out.old.items + 4 ≤ vec_capacity out.old }
    ensures bytes { out.new.items ≡ out.old.items ++ number value }
    ensures length { length out.new.items ≡ length out.old.items + 4 }
    ensures room { vec_capacity out.old ≤ vec_capacity out.new }
{
    let Ok(()) = out.extend_from_slice(&value.to_be_bytes()) else {
        unreachable!();
    };
}
