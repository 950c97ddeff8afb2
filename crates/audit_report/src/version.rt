//! The paper of a version that a log shows.
ghost use Rattle.std.specs.Prelude.{◌≡◌, ◌≤◌, length, slice_get, Some, IfOk, IfSome, IfNone};
ghost use Rattle.draft_model.specs.Designs.{IsPaperOf};
ghost use Rattle.version_journal.specs.Journals.{versions};
ghost use Rattle.session_file.specs.Plans.{Fits};
ghost use Rattle.shift_model.specs.Logs.{Legal};
ghost use Rattle.audit_model.specs.States.{named_acts};

use crate::papers::paper_of_version;
use mill_base::memory::OutOfMemory;
use point_paper::paper::Paper;
use session_file::session::Session;
use std::alloc::Global;
use version_journal::run_log::RunLog;

/// The paper of a version of a legal log; none exactly where the log's acts made no such version. It does the acts once more, in the order
/// of the log.
pub fn version_of(
    alloc: Global,
    session: &Session,
    log: &RunLog,
    version: u32,
) -> Result<Option<Paper>, OutOfMemory>
    requires fits { Fits session.now }
    requires legal { Legal session.now log.now }
    ensures some { IfOk result (λ found. IfSome found (λ paper. slice_get (versions session.now.design session.now.opening (named_acts session.now log.now.entries)) version ≡ Some paper)) }
    ensures of_design { IfOk result (λ found. IfSome found (IsPaperOf session.now.design)) }
    ensures none { IfOk result (λ found. IfNone found (length (versions session.now.design session.now.opening (named_acts session.now log.now.entries)) ≤ version)) }
{
    paper_of_version(alloc, session, log.entries.as_slice(), version)
}
