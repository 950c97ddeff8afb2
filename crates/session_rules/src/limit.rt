//! Numbers of a whole session.
ghost use Rattle.session_rules.specs.Checks.{at_most as at_most_of};
ghost use Rattle.session_rules.specs.Faults.{Keeps};
ghost use Rattle.session_rules.specs.Paths.{path_of};
ghost use Rattle.std.specs.Prelude.{◌≤◌, OnOk};

use crate::fault::{SessionFaultKind, SessionRefusal};
use crate::path::Path;
use std::alloc::Global;

/// Whether a number that was found is at most the number that is kept.
#[tactic(auto, unfolding(crate::specs::Checks::at_most))]
pub fn at_most(alloc: Global, path: &Path<'_>, kept: u64, found: u64) -> Result<(), SessionRefusal>
    ensures reads { Keeps (at_most_of (path_of path.now) kept found) result }
    ensures within { OnOk result (found ≤ kept) }
{
    if found > kept {
        return Err(path.refusal(alloc, SessionFaultKind::Limit { kept, found }));
    }
    Ok(())
}
