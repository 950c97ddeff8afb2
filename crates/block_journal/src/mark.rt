//! What a journal's blocks are made of, and which blocks may follow which.
ghost use Rattle.std.specs.Prelude.{◌≡◌, ◌++◌, ℕ, List, true, IfOk};
ghost use Rattle.block_journal.specs.declared.mark.Mark.{Mark as MarkOf};
ghost use Rattle.block_journal.specs.Journals.{Rule as RuleOf};

use mill_base::memory::OutOfMemory;

/// Names an act: its shift and its painter, both counted from 0, and its number among the painter's acts of that shift, from 1.
#[derive(Clone, Copy, Debug, PartialEq, Eq)]
pub struct Mark {
    pub shift: u32,
    pub painter: u32,
    pub number: u32,
}

/// Which blocks may follow which. A rule takes a journal's blocks one after another, and so can keep what it knows of those that came.
pub trait Rule {
    // whether a block may follow the marks before it
    ghost allows: { Self → RuleOf };

    // the marks of the blocks that were taken
    ghost taken: { Self → List MarkOf };

    // how many marks there can be
    ghost most: { Self → ℕ };

    /// Whether the block may follow those that were taken. Where it may, it is taken.
    fn take(&mut self, block: &[Mark]) -> Result<bool, OutOfMemory>
        ensures answer { IfOk result (λ good. good ≡ allows self.old (taken self.old) block.now) }
        ensures taken { IfOk result (λ good. good ≡ true → taken self.new ≡ taken self.old ++ block.now) }
        ensures allows { allows self.new ≡ allows self.old }
        ensures most { most self.new ≡ most self.old };

    /// How many marks there can be.
    fn most(&self) -> u32
        ensures { result ≡ most self.now };
}
