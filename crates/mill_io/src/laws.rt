//! What a caller learns from answers, over the definitions alone: each function's contract is the law, and its body does nothing.
ghost use Rattle.std.specs.Prelude.{◌≡◌, ◌≢◌, ◌≤◌, ◌<◌, ◌-◌, ◌^◌, ℕ, List, length, Some, None, Result, MatchResult, IsErr, IsErrAnd, Vec};
ghost use Rattle.std.specs.declared.alloc.Global.{Global};
ghost use Rattle.mill_base.specs.Causes.{HasCause, Rose, faults_after};
ghost use Rattle.mill_io.specs.Files.{File, content_of};
ghost use Rattle.mill_io.specs.Reads.{OnFailed, Reads, reads_after};
ghost use Rattle.mill_io.specs.declared.faults.Failed.{Failed};
ghost use Rattle.mill_io.specs.declared.shelf.ShelfRefusal.{ShelfRefusal};

/// Of a shelf that tells its files a content within the limit is read whole, a longer one never, and at a name that isn't there no
/// content is read: then the read failed, or memory was refused.
pub fn a_read_answers_what_stands_under_the_name()
    ensures within { (held : List File) (name content : List ℕ) (limit : ℕ) (r : Result (Vec ℕ Global) ShelfRefusal) → content_of held name ≡ Some content
        → length content ≤ limit → Reads (Some held) name limit r → MatchResult r (λ bytes. bytes.items ≡ content) (λ refusal. refusal ≢ ShelfRefusal.TooLong) }
    ensures longer { (held : List File) (name content : List ℕ) (limit : ℕ) (r : Result (Vec ℕ Global) ShelfRefusal) → content_of held name ≡ Some content
        → limit < length content → Reads (Some held) name limit r → IsErr r }
    ensures missing { (held : List File) (name : List ℕ) (limit : ℕ) (r : Result (Vec ℕ Global) ShelfRefusal) → content_of held name ≡ None
        → Reads (Some held) name limit r → IsErrAnd r (λ refusal. refusal ≢ ShelfRefusal.TooLong) }
{}

/// A count of 64 bits that is exact after each answer never falls, and it rose where the call failed.
pub fn an_exact_count_is_a_cause()
    ensures writes { (before now : ℕ) (r : Result (Unit {0}) Failed) → before ≤ 2 ^ 64 - 1 → now ≡ faults_after before r → HasCause before now r }
    ensures reads { (before now : ℕ) (r : Result (Vec ℕ Global) ShelfRefusal) → before ≤ 2 ^ 64 - 1 → now ≡ reads_after before r
        → (before ≤ now) × OnFailed r (Rose before now) }
{}
