//! The top call: from the words of the command line to the answer.
ghost use Rattle.std.specs.Prelude.{◌≡◌, ◌≤◌, ◌↔◌, ◌⊎◌, List, None, Some, true, is_some};
ghost use Rattle.mill_base.specs.Causes.{Rose};
ghost use Rattle.mill_io.specs.Files.{File};
ghost use Rattle.mill_io.specs.Takes.{TookAll, TookPart};
ghost use Rattle.report_text.specs.Causes.{line, status_of};
ghost use Rattle.mill_io.specs.Programs.{texts};
ghost use Rattle.studio_run.specs.Answers.{IsCausedBy, IsGood, has_run, name_at, outside, reads_at, shelf_state, sink_state};
ghost use Rattle.studio_run.specs.Commands.{command_of, is_plain};

use crate::command::Command;
use crate::laws::words_and_files_decide;
use crate::plain_end::plain_end;
use crate::run_end::run_end;
use mill_io::gate::Gate;
use mill_io::shelf::Shelf;
use mill_io::sink::Sink;
use report_text::cause::Cause;
use report_text::fault_line::fault_line;
use std::alloc::Global;
use std::sync::Wait;
use std::thread::Threads;
use version_journal::run_log::RunLog;

/// The answer of the studio: the exit status, its cause, and the log of the run at the statuses 0 and 6 of the commands that run looms.
#[derive(Drop)]
pub struct Answer {
    pub status: u8,
    pub cause: Cause,
    pub run_log: Option<RunLog>,
}

/// The end of a command: its cause, with the log where a session was run.
#[derive(Drop)]
pub(crate) struct Outcome {
    pub cause: Cause,
    pub run_log: Option<RunLog>,
}

/// Does what the words say.
///
/// The words are the arguments of the command line without the program's name. The order of work is: words; the session's reading and its rules;
/// its image's; the opening's floats; for `lift` the chain's reading and its rules; the work; the output. What is found first hides all that
/// comes later. The whole output is made in memory before its first byte goes out. For a status other than 0 `err` gets one line.
#[tactic(auto, using(crate::proofs::Ends::log_kept))]
pub fn studio<R: Threads + Wait + Sync, H: Shelf, K: Sink, E: Sink, G: Gate>(
    rt: &R,
    alloc: Global,
    words: &[String],
    shelf: &mut H,
    out: &mut K,
    err: &mut E,
    gate: &G,
) -> Answer
    // The status is that of the cause, and there is a log exactly where a session was run.
    ensures status { result.status ≡ status_of result.cause }
    ensures run_log { is_some result.run_log ≡ has_run (command_of (texts words.now)) result.cause }

    // When each cause comes, what it says of the files and of this call, and what was put out or written.
    ensures caused { IsCausedBy (command_of (texts words.now)) (texts words.now)
        (outside (shelf_state (H.files shelf.old) (H.read_faults shelf.old) (H.write_faults shelf.old) (H.failed_name shelf.old))
        (shelf_state (H.files shelf.new) (H.read_faults shelf.new) (H.write_faults shelf.new) (H.failed_name shelf.new))
        (sink_state (K.taken out.old) (K.faults out.old))
        (sink_state (K.taken out.new) (K.faults out.new))) result.run_log result.cause }
    ensures usage { (result.cause ≡ Cause.Usage) ↔ (command_of (texts words.now) ≡ None) }

    // One read failed where a cause says so, and else none; no count ever falls.
    ensures reads { H.read_faults shelf.new ≡ reads_at (H.read_faults shelf.old) result.cause }
    ensures failed { H.failed_name shelf.new ≡ name_at (H.failed_name shelf.old) result.cause }
    ensures later { (H.read_faults shelf.old ≤ H.read_faults shelf.new) × (H.write_faults shelf.old ≤ H.write_faults shelf.new)
        × (K.faults out.old ≤ K.faults out.new) × (E.faults err.old ≤ E.faults err.new) }

    // Standard error gets nothing where all was done, and else the line of the cause and no fault, or a prefix of it where its count rose.
    ensures silent { result.cause ≡ Cause.Done → (E.taken err.new ≡ E.taken err.old) × (E.faults err.new ≡ E.faults err.old) }
    ensures line { (TookAll (E.taken err.old) (E.taken err.new) (line result.cause) × (E.faults err.new ≡ E.faults err.old))
        ⊎ (Rose (E.faults err.old) (E.faults err.new) × TookPart (E.taken err.old) (E.taken err.new) (line result.cause)) }

    // Where the outside did not fail, words and files decide: all is done exactly where they are good, unless memory is wanting.
    ensures complete { (held : List File) → H.files shelf.old ≡ Some held → ¬ Rose (H.read_faults shelf.old) (H.read_faults shelf.new)
        → ¬ Rose (H.write_faults shelf.old) (H.write_faults shelf.new) → ¬ Rose (K.faults out.old) (K.faults out.new)
        → (result.cause ≡ Cause.OutOfMemory) ⊎ ((result.cause ≡ Cause.Done) ↔ IsGood (texts words.now) held) }
{
    words_and_files_decide();
    let Outcome { cause, run_log } = end_of_words(rt, alloc, words, shelf, out, gate);
    fault_line(&cause, err);
    Answer {
        status: cause.status(),
        cause,
        run_log,
    }
}

/// Does what the words say, for all commands but `weave` and `trial`, which run looms. It starts no thread and waits for nobody.
///
/// The order of work, the output and the line on `err` are those of [`studio`].
pub fn plain_command<H: Shelf, K: Sink, E: Sink>(
    alloc: Global,
    words: &[String],
    shelf: &mut H,
    out: &mut K,
    err: &mut E,
) -> Answer
    requires plain { is_plain (command_of (texts words.now)) ≡ true }
    ensures status { result.status ≡ status_of result.cause }
    ensures run_log { result.run_log ≡ None }
    ensures caused { IsCausedBy (command_of (texts words.now)) (texts words.now)
        (outside (shelf_state (H.files shelf.old) (H.read_faults shelf.old) (H.write_faults shelf.old) (H.failed_name shelf.old))
        (shelf_state (H.files shelf.new) (H.read_faults shelf.new) (H.write_faults shelf.new) (H.failed_name shelf.new))
        (sink_state (K.taken out.old) (K.faults out.old))
        (sink_state (K.taken out.new) (K.faults out.new))) None result.cause }
    ensures usage { (result.cause ≡ Cause.Usage) ↔ (command_of (texts words.now) ≡ None) }
    ensures reads { H.read_faults shelf.new ≡ reads_at (H.read_faults shelf.old) result.cause }
    ensures failed { H.failed_name shelf.new ≡ name_at (H.failed_name shelf.old) result.cause }
    ensures later { (H.read_faults shelf.old ≤ H.read_faults shelf.new) × (H.write_faults shelf.old ≤ H.write_faults shelf.new)
        × (K.faults out.old ≤ K.faults out.new) × (E.faults err.old ≤ E.faults err.new) }
    ensures silent { result.cause ≡ Cause.Done → (E.taken err.new ≡ E.taken err.old) × (E.faults err.new ≡ E.faults err.old) }
    ensures line { (TookAll (E.taken err.old) (E.taken err.new) (line result.cause) × (E.faults err.new ≡ E.faults err.old))
        ⊎ (Rose (E.faults err.old) (E.faults err.new) × TookPart (E.taken err.old) (E.taken err.new) (line result.cause)) }
    ensures complete { (held : List File) → H.files shelf.old ≡ Some held → ¬ Rose (H.read_faults shelf.old) (H.read_faults shelf.new)
        → ¬ Rose (H.write_faults shelf.old) (H.write_faults shelf.new) → ¬ Rose (K.faults out.old) (K.faults out.new)
        → (result.cause ≡ Cause.OutOfMemory) ⊎ ((result.cause ≡ Cause.Done) ↔ IsGood (texts words.now) held) }
{
    words_and_files_decide();
    let cause = end_of_plain_words(alloc, words, shelf, out);
    fault_line(&cause, err);
    Answer {
        status: cause.status(),
        cause,
        run_log: None,
    }
}

fn end_of_words<R: Threads + Wait + Sync, H: Shelf, K: Sink, G: Gate>(
    rt: &R,
    alloc: Global,
    words: &[String],
    shelf: &mut H,
    out: &mut K,
    gate: &G,
) -> Outcome
    ensures caused { IsCausedBy (command_of (texts words.now)) (texts words.now)
        (outside (shelf_state (H.files shelf.old) (H.read_faults shelf.old) (H.write_faults shelf.old) (H.failed_name shelf.old))
        (shelf_state (H.files shelf.new) (H.read_faults shelf.new) (H.write_faults shelf.new) (H.failed_name shelf.new))
        (sink_state (K.taken out.old) (K.faults out.old))
        (sink_state (K.taken out.new) (K.faults out.new))) result.run_log result.cause }
    ensures reads { H.read_faults shelf.new ≡ reads_at (H.read_faults shelf.old) result.cause }
    ensures failed { H.failed_name shelf.new ≡ name_at (H.failed_name shelf.old) result.cause }
    ensures later { (H.read_faults shelf.old ≤ H.read_faults shelf.new) × (H.write_faults shelf.old ≤ H.write_faults shelf.new)
        × (K.faults out.old ≤ K.faults out.new) }
{
    match Command::parse(words) {
        None => Outcome {
            cause: Cause::Usage,
            run_log: None,
        },
        Some(command) if command.runs_looms() => run_end(
            rt, alloc, command, words, shelf, out, gate,
        ),
        Some(command) => Outcome {
            cause: plain_end(alloc, command, words, shelf, out),
            run_log: None,
        },
    }
}

fn end_of_plain_words<H: Shelf, K: Sink>(
    alloc: Global,
    words: &[String],
    shelf: &mut H,
    out: &mut K,
) -> Cause
    requires plain { is_plain (command_of (texts words.now)) ≡ true }
    ensures caused { IsCausedBy (command_of (texts words.now)) (texts words.now)
        (outside (shelf_state (H.files shelf.old) (H.read_faults shelf.old) (H.write_faults shelf.old) (H.failed_name shelf.old))
        (shelf_state (H.files shelf.new) (H.read_faults shelf.new) (H.write_faults shelf.new) (H.failed_name shelf.new))
        (sink_state (K.taken out.old) (K.faults out.old))
        (sink_state (K.taken out.new) (K.faults out.new))) None result }
    ensures reads { H.read_faults shelf.new ≡ reads_at (H.read_faults shelf.old) result }
    ensures failed { H.failed_name shelf.new ≡ name_at (H.failed_name shelf.old) result }
    ensures later { (H.read_faults shelf.old ≤ H.read_faults shelf.new) × (H.write_faults shelf.old ≤ H.write_faults shelf.new)
        × (K.faults out.old ≤ K.faults out.new) }
{
    match Command::parse(words) {
        None => Cause::Usage,
        Some(command) => plain_end(alloc, command, words, shelf, out),
    }
}
