//! The commands that run a session with its looms: `weave` and `trial`.
ghost use Rattle.std.specs.Prelude.{◌≡◌, ◌≤◌, true, None, Some, IfOk};
ghost use Rattle.std.specs.Arc.{arc_value};
ghost use Rattle.version_journal.specs.Journals.{float_kept};
ghost use Rattle.shift_model.specs.Logs.{Legal};
ghost use Rattle.shift_run.specs.Runs.{AreCardsOfNewest};
ghost use Rattle.session_file.specs.Plans.{Fits};
ghost use Rattle.mill_io.specs.Programs.{texts};
ghost use Rattle.studio_run.specs.Answers.{IsEndOf, name_at, outside, reads_at, shelf_state, sink_state};
ghost use Rattle.studio_run.specs.Commands.{runs_looms};
ghost use Rattle.studio_run.specs.inner.Ends.{FixesOrder, IsRun, Made};

use crate::answer::Outcome;
use crate::command::Command;
use crate::opening::{session_of, start_cause};
use loom_threads::digest::cards_digest;
use mill_base::memory::OutOfMemory;
use mill_io::gate::Gate;
use mill_io::pieces::put_pieces;
use mill_io::shelf::Shelf;
use mill_io::sink::Sink;
use report_text::cause::Cause;
use report_text::report::report;
use report_text::summary::trial_line;
use session_file::session::Session;
use shift_run::laws::one_painter_fixes_the_order;
use shift_run::run::{Ran, run_session};
use std::alloc::Global;
use std::sync::Wait;
use std::thread::Threads;

/// Does a command that runs looms.
#[tactic(auto, using(crate::proofs::Ends::run_end, crate::proofs::Ends::failed_end, crate::proofs::Ends::run_reads, crate::proofs::Ends::run_name))]
pub(crate) fn run_end<R: Threads + Wait + Sync, H: Shelf, K: Sink, G: Gate>(
    rt: &R,
    alloc: Global,
    command: Command,
    words: &[String],
    shelf: &mut H,
    out: &mut K,
    gate: &G,
) -> Outcome
    requires runs { runs_looms command ≡ true }
    ensures caused { IsEndOf command (texts words.now)
        (outside (shelf_state (H.files shelf.old) (H.read_faults shelf.old) (H.write_faults shelf.old) (H.failed_name shelf.old))
        (shelf_state (H.files shelf.new) (H.read_faults shelf.new) (H.write_faults shelf.new) (H.failed_name shelf.new))
        (sink_state (K.taken out.old) (K.faults out.old))
        (sink_state (K.taken out.new) (K.faults out.new))) result.run_log result.cause }
    ensures reads { H.read_faults shelf.new ≡ reads_at (H.read_faults shelf.old) result.cause }
    ensures failed { H.failed_name shelf.new ≡ name_at (H.failed_name shelf.old) result.cause }
    ensures later { (H.read_faults shelf.old ≤ H.read_faults shelf.new) × (H.write_faults shelf.old ≤ H.write_faults shelf.new)
        × (K.faults out.old ≤ K.faults out.new) }
{
    match session_of(alloc, command, words, shelf) {
        Ok(session) => run_and_put(rt, alloc, command, &session, out, gate),
        Err(cause) => ended(cause),
    }
}

// An end before anything was put out.
fn ended(cause: Cause) -> Outcome
    ensures { result ≡ record { cause = cause; run_log = None } }
{
    Outcome {
        cause,
        run_log: None,
    }
}

// Runs the session and puts out what is told of the run, which is made in memory before its first byte goes out.
fn run_and_put<R: Threads + Wait + Sync, K: Sink, G: Gate>(
    rt: &R,
    alloc: Global,
    command: Command,
    session: &Session,
    out: &mut K,
    gate: &G,
) -> Outcome
    requires runs { runs_looms command ≡ true }
    requires fits { Fits session.now }
    requires order { FixesOrder command session.now }
    ensures later { K.faults out.old ≤ K.faults out.new }
    ensures run { IsRun command session.now (sink_state (K.taken out.old) (K.faults out.old)) (sink_state (K.taken out.new) (K.faults out.new))
        result.run_log result.cause }
{
    let ran = match run_session(rt, alloc, session, gate) {
        Ok(ran) => ran,
        Err(refusal) => return ended(start_cause(refusal)),
    };
    let Ok(text) = text_of_run(alloc, command, session, &ran) else {
        return ended(Cause::OutOfMemory);
    };
    let cause = match put_pieces(out, &text) {
        Ok(()) => Cause::Done,
        Err(_) => Cause::WriteFault,
    };
    Outcome {
        cause,
        run_log: Some(ran.run_log),
    }
}

// What is told of a run: its report, or the line of a trial.
fn text_of_run(
    alloc: Global,
    command: Command,
    session: &Session,
    ran: &Ran,
) -> Result<Vec<u8>, OutOfMemory>
    requires runs { runs_looms command ≡ true }
    requires fits { Fits session.now }
    requires sound { float_kept session.now.design session.now.opening ≡ None }
    requires order { FixesOrder command session.now }
    requires legal { Legal session.now ran.now.run_log }
    requires newest { AreCardsOfNewest session.now ran.now.run_log.entries (arc_value ran.now.newest) }
    ensures { IfOk result (λ bytes. Made command session.now (Some ran.now.run_log) bytes.items) }
{
    match command {
        Command::Weave => report(alloc, session, &ran.run_log),
        Command::Trial(number) => {
            one_painter_fixes_the_order();
            let digest = cards_digest(alloc, &session.design, &ran.newest)?;
            trial_line(alloc, number, &ran.run_log, &digest)
        }
        _ => unreachable!(),
    }
}
