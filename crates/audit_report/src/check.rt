//! Checks a report.
ghost use Rattle.std.specs.Prelude.{◌≡◌, ◌<◌, ◌^◌, true, false, [], length, IfOk};
ghost use Rattle.session_file.specs.Plans.{Fits};
ghost use Rattle.audit_report.specs.Checkers.{coming_of};
ghost use Rattle.audit_report.specs.Verdicts.{IsVerdict};

use crate::checker::Checker;
use crate::lines::first_piece;
use mill_base::memory::OutOfMemory;
use session_file::session::Session;
use std::alloc::Global;
use version_journal::run_log::RunLog;

/// The answer to a report.
#[derive(Drop)]
pub enum Verdict {
    /// It is that of this legal log.
    Yes(RunLog),
    /// It is that of none. The number is that of the first line, from 0 on, that no legal log's report has behind those before it; where
    /// all lines are within such a report, the number of lines.
    No(u32),
}

/// Whether the bytes are the report of a legal log of a session, of which one, and else which line is the first that breaks it. The plain
/// drawdown stands for the looms; besides the log itself, a digest for each version and face is kept.
pub fn check_report(alloc: Global, session: &Session, bytes: &[u8]) -> Result<Verdict, OutOfMemory>
    requires fits { Fits session.now }
    requires few { length bytes.now < 2 ^ 32 }
    ensures { IfOk result (IsVerdict session.now bytes.now) }
{
    let mut checker = Checker::start(alloc, session)?;
    let mut at = 0;
    let mut count = 0;
    while at < bytes.len() {
        let (_, left) = bytes.split_at(at);
        let (size, is_line) = first_piece(left);
        let passes = checker.read(alloc, session, &left[..size])?;
        if !passes {
            return Ok(Verdict::No(count));
        }
        if !is_line {
            return Ok(Verdict::No(count + 1));
        }
        at += size;
        count += 1;
    }
    if !is_over(&checker) {
        return Ok(Verdict::No(count));
    }
    let log = checker.into_log(alloc, session)?;
    Ok(Verdict::Yes(log))
}

fn is_over(checker: &Checker) -> bool
    ensures yes { result ≡ true → (checker.now.ended ≡ true) × (coming_of checker.now ≡ []) }
    ensures no { result ≡ false → (checker.now.ended ≡ true) × (coming_of checker.now ≡ []) → ⊥ }
{
    if checker.next < checker.coming.len() {
        return false;
    }
    checker.ended
}
