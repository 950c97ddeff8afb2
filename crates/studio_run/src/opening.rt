//! The session that a command is about, and its opening.
ghost use Rattle.std.specs.Prelude.{◌≡◌, ◌≤◌, None, IfErr, IfOk, OnOk};
ghost use Rattle.mill_base.specs.Causes.{Rose};
ghost use Rattle.session_file.specs.Plans.{Fits};
ghost use Rattle.session_file.specs.declared.session.Session.{Session as SessionValue};
ghost use Rattle.version_journal.specs.Journals.{float_kept};
ghost use Rattle.studio_core.specs.Refusals.{IsStartRefusal};
ghost use Rattle.mill_io.specs.Programs.{texts};
ghost use Rattle.studio_run.specs.Answers.{Fails};
ghost use Rattle.studio_run.specs.Outputs.{IsAbout};
ghost use Rattle.studio_run.specs.inner.Ends.{Refuses, name_after, reads_after};

use crate::command::{Command, word};
use mill_io::shelf::Shelf;
use report_text::cause::Cause;
use session_file::session::Session;
use shift_run::run::check_opening;
use std::alloc::Global;
use studio_core::refusal::StartRefusal;

/// The session that a command is about: that of its file, or the trial of its number.
#[tactic(auto, using(crate::proofs::Ends::unread_fails, crate::proofs::Ends::about_file, crate::proofs::Ends::reads_unless_trial, crate::proofs::Ends::unread_reads, crate::proofs::Ends::unread_name))]
pub(crate) fn session_of<H: Shelf>(
    alloc: Global,
    command: Command,
    words: &[String],
    shelf: &mut H,
) -> Result<Session, Cause>
    ensures files { H.files shelf.new ≡ H.files shelf.old }
    ensures writes { H.write_faults shelf.new ≡ H.write_faults shelf.old }
    ensures reads { H.read_faults shelf.new ≡ reads_after (H.read_faults shelf.old) result }
    ensures failed { H.failed_name shelf.new ≡ name_after (H.failed_name shelf.old) result }
    ensures later { H.read_faults shelf.old ≤ H.read_faults shelf.new }
    ensures about { IfOk result (IsAbout command (texts words.now) (H.files shelf.old)) }
    ensures fits { IfOk result Fits }
    ensures fails { IfErr result (Fails command (texts words.now) (H.files shelf.old) (Rose (H.read_faults shelf.old) (H.read_faults shelf.new)) (H.failed_name shelf.new)) }
{
    if let Command::Trial(number) = command {
        let session = Session::trial(alloc, number)?;
        return Ok(session);
    }
    match Session::read(alloc, shelf, word(words, 1)) {
        Ok(session) => Ok(session),
        Err(refusal) => Err(Cause::from(refusal)),
    }
}

/// Sees that the opening of a session keeps no float over its limit.
pub(crate) fn open(alloc: Global, session: &Session) -> Result<(), Cause>
    requires fits { Fits session.now }
    ensures sound { OnOk result (float_kept session.now.design session.now.opening ≡ None) }
    ensures fails { IfErr result (Refuses session.now) }
{
    match check_opening(alloc, session) {
        Ok(()) => Ok(()),
        Err(refusal) => Err(start_cause(refusal)),
    }
}

/// The cause that a run is refused for.
pub(crate) fn start_cause(refusal: StartRefusal) -> Cause
    ensures { (session : SessionValue) → IsStartRefusal session.design session.opening refusal → Refuses session result }
{
    match refusal {
        StartRefusal::OpeningFloat(float) => Cause::OpeningFloat(float),
        StartRefusal::OutOfMemory => Cause::OutOfMemory,
    }
}
