//! The one line that a check prints, and the one of a trial.
ghost use Rattle.std.specs.Prelude.{◌≡◌, length, sum_by, IfOk};
ghost use Rattle.report_text.specs.Reports.{
  last_version as last_version_of,
  is_refused as is_refused_reply,
  refused_commits as refused_commits_of,
  check_line as check_line_of,
  trial_line as trial_line_of,
};
ghost use Rattle.version_journal.specs.Entries.{is_accepted as is_accepted_reply};

use crate::growing::{push_design, push_digest, push_number, push_text};
use mill_base::listed::Listed;
use mill_base::memory::OutOfMemory;
use session_file::counts::count_acts;
use session_file::session::Session;
use std::alloc::Global;
use version_journal::entry::{Entry, Reply};
use version_journal::run_log::{Repeat, RunLog};

/// The line of a session that breaks no rule (a format of this project's own): how large its design is, and how much there is to do.
pub fn check_line(alloc: Global, session: &Session) -> Result<Vec<u8>, OutOfMemory>
    ensures { IfOk result (λ bytes. bytes.items ≡ check_line_of session.now) }
{
    let mut out = Vec::new(alloc);
    push_text(&mut out, b"ok ")?;
    push_design(&mut out, &session.design)?;
    push_number(&mut out, b" looms ", session.looms)?;
    push_number(&mut out, b" shifts ", session.shifts.len())?;
    push_number(&mut out, b" acts ", count_acts(session.shifts.as_slice()))?;
    push_text(&mut out, b"\n")?;
    Ok(out)
}

/// The line of a trial (a format of this project's own): its number, how many commits were accepted and how many refused, how many repeats
/// all looms wove, and a digest.
pub fn trial_line(
    alloc: Global,
    number: u32,
    log: &RunLog,
    digest: &[u8; 32],
) -> Result<Vec<u8>, OutOfMemory>
    ensures { IfOk result (λ bytes. bytes.items ≡ trial_line_of number log.now digest.now) }
{
    let entries = log.entries.as_slice();
    let mut out = Vec::new(alloc);
    push_number(&mut out, b"trial ", number)?;
    push_number(&mut out, b" versions ", last_version(entries))?;
    push_number(&mut out, b" refused ", refused_commits(entries))?;
    push_number(&mut out, b" repeats ", count_repeats(log.looms.as_slice()))?;
    push_digest(&mut out, digest)?;
    Ok(out)
}

/// The number of the last version: how many commits were accepted.
pub(crate) fn last_version(entries: &[Entry]) -> usize
    ensures { result ≡ last_version_of entries.now }
{
    entries
        .iter()
        .filter(|entry| is_accepted(&entry.reply))
        .count()
}

fn is_accepted(reply: &Reply) -> bool
    ensures { result ≡ is_accepted_reply reply.now }
{
    matches!(reply, Reply::Accepted(_))
}

fn refused_commits(entries: &[Entry]) -> usize
    ensures { result ≡ refused_commits_of entries.now }
{
    entries
        .iter()
        .filter(|entry| is_refused(&entry.reply))
        .count()
}

fn is_refused(reply: &Reply) -> bool
    ensures { result ≡ is_refused_reply reply.now }
{
    matches!(reply, Reply::Refused(_))
}

// The repeats of all looms, of which 128 bits count any number that there can be.
fn count_repeats(looms: &[Listed<Repeat>]) -> u128
    ensures { result ≡ sum_by length looms.now }
{
    let mut total: u128 = 0;
    for repeats in looms {
        total += repeats.len() as u128;
    }
    total
}
