//! Laws of what the bytes of a file stand for. They compute nothing: each is the contract of a function without result.
ghost use Rattle.std.specs.Prelude.{◌≡◌, ℕ, List, Option, length};
ghost use Rattle.journal_disk.specs.Disks.{Log};
ghost use Rattle.block_journal.specs.declared.mark.Mark.{Mark};
ghost use Rattle.block_journal.specs.Journals.{JournalView, Rule, Stands};
ghost use Rattle.block_journal.specs.Keeps.{IsKept, IsReady};
ghost use Rattle.block_journal.specs.Opens.{BrokenAt, NotJournalAt};

/// Bytes stand for one list of marks, or are no journal from one byte on, or are broken at one block. So an answer that says one of
/// these where it is so says it exactly where it is so.
pub fn bytes_are_read_one_way()
    ensures marks { (rule : Rule) (digest bytes : List ℕ) (a b : List Mark) → Stands rule digest bytes a → Stands rule digest bytes b → a ≡ b }
    ensures not_journal { (digest bytes : List ℕ) (a b : ℕ) → length digest ≡ 32 → NotJournalAt digest bytes a → NotJournalAt digest bytes b → a ≡ b }
    ensures broken { (rule : Rule) (digest bytes : List ℕ) (a b : ℕ) → BrokenAt rule digest bytes a → BrokenAt rule digest bytes b → a ≡ b }
    ensures stands_or_not { (rule : Rule) (digest bytes : List ℕ) (marks : List Mark) (at : ℕ) → length digest ≡ 32
        → Stands rule digest bytes marks → NotJournalAt digest bytes at → ⊥ }
    ensures stands_or_broken { (rule : Rule) (digest bytes : List ℕ) (marks : List Mark) (block : ℕ)
        → Stands rule digest bytes marks → BrokenAt rule digest bytes block → ⊥ }
    ensures broken_or_not { (rule : Rule) (digest bytes : List ℕ) (block at : ℕ) → length digest ≡ 32
        → BrokenAt rule digest bytes block → NotJournalAt digest bytes at → ⊥ }
{}

/// A disk that stands for an open journal is ready for the journal's next block.
pub fn a_kept_journal_is_ready()
    ensures { (rule : Rule) (told : Option Log) (journal : JournalView) → IsKept rule told journal → IsReady told journal.place }
{}
