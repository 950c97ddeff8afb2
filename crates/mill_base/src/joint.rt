//! Words that are joined bit by bit.
ghost use Rattle.std.specs.Prelude.{◌≡◌, ℕ, ◌<◌, ◌≤◌, ◌==◌, ◌&&◌, ◌||◌, Bool, length};
ghost use Rattle.std.specs.Int.{bit_at};
ghost use Rattle.mill_base.specs.inner.Blocks.{AreJoined};
ghost use Rattle.mill_base.specs.Lines.{same};

/// A truth value made of two, for all bits of a word at once.
pub trait Joint {
    ghost cell: { Bool → Bool → Bool };

    fn word(one: u64, other: u64) -> u64
        ensures { (i : ℕ) → i < 64 → (bit_at result i == 1) ≡ cell (bit_at one i == 1) (bit_at other i == 1) };
}

/// True where both are.
pub struct Both;

impl Joint for Both {
    ghost cell = { λ a b. a && b };

    fn word(one: u64, other: u64) -> u64 {
        one & other
    }
}

/// True where one of the two is.
pub struct Either;

impl Joint for Either {
    ghost cell = { λ a b. a || b };

    fn word(one: u64, other: u64) -> u64 {
        one | other
    }
}

/// True where the two are the same.
pub struct Alike;

impl Joint for Alike {
    ghost cell = { same };

    fn word(one: u64, other: u64) -> u64 {
        !one ^ other
    }
}

/// Joins the first `count` words of a line with those of another, which stand in the same places, and leaves the joined ones there.
pub fn join<J: Joint>(words: &mut [u64], others: &[u64], count: usize)
    requires words { count ≤ length words.old }
    requires others { count ≤ length others.now }
    ensures len { length words.new ≡ length words.old }
    ensures joined { AreJoined J.cell words.old others.now count words.new }
{
    let others = &others[..count];
    for index in 0..count.min(words.len()) {
        words[index] = J::word(words[index], others[index]);
    }
}
