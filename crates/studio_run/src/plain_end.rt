//! The commands that run no looms: what they make in memory, and where it goes.
ghost use Rattle.std.specs.Prelude.{◌≡◌, ◌≤◌, None, false, IfOk, IfErr, OnOk};
ghost use Rattle.mill_base.specs.Causes.{Rose};
ghost use Rattle.draft_model.specs.Designs.{IsPaperOf};
ghost use Rattle.session_file.specs.Plans.{Fits};
ghost use Rattle.version_journal.specs.Journals.{float_kept};
ghost use Rattle.shift_model.specs.Plans.{IsNewest, plain_versions};
ghost use Rattle.mill_io.specs.Programs.{texts};
ghost use Rattle.studio_run.specs.Answers.{Fails, IsEndOf, IsMade, name_at, outside, reads_at, shelf_state, sink_state};
ghost use Rattle.studio_run.specs.Commands.{file_name, runs_looms};
ghost use Rattle.studio_run.specs.Outputs.{IsAbout};
ghost use Rattle.studio_run.specs.inner.Ends.{IsDelivery, Made, Refuses, name_after, reads_after};

use crate::command::{Command, word};
use crate::lifting::lift;
use crate::opening::{open, session_of, start_cause};
use cloth_files::{chain_file, drawdown_file, paper_file};
use mill_base::face::Face;
use mill_io::pieces::put_pieces;
use mill_io::shelf::Shelf;
use mill_io::sink::Sink;
use point_paper::paper::Paper;
use report_text::cause::Cause;
use report_text::summary::check_line;
use session_file::session::Session;
use shift_run::run::last_paper;
use std::alloc::Global;

/// Does a command that runs no looms.
#[tactic(auto, using(crate::proofs::Ends::delivered_end, crate::proofs::Ends::failed_end, crate::proofs::Ends::delivered_reads, crate::proofs::Ends::delivered_name))]
pub(crate) fn plain_end<H: Shelf, K: Sink>(
    alloc: Global,
    command: Command,
    words: &[String],
    shelf: &mut H,
    out: &mut K,
) -> Cause
    requires plain { runs_looms command ≡ false }
    ensures caused { IsEndOf command (texts words.now)
        (outside (shelf_state (H.files shelf.old) (H.read_faults shelf.old) (H.write_faults shelf.old) (H.failed_name shelf.old))
        (shelf_state (H.files shelf.new) (H.read_faults shelf.new) (H.write_faults shelf.new) (H.failed_name shelf.new))
        (sink_state (K.taken out.old) (K.faults out.old))
        (sink_state (K.taken out.new) (K.faults out.new))) None result }
    ensures reads { H.read_faults shelf.new ≡ reads_at (H.read_faults shelf.old) result }
    ensures failed { H.failed_name shelf.new ≡ name_at (H.failed_name shelf.old) result }
    ensures later { (H.read_faults shelf.old ≤ H.read_faults shelf.new) × (H.write_faults shelf.old ≤ H.write_faults shelf.new)
        × (K.faults out.old ≤ K.faults out.new) }
{
    match make(alloc, command, words, shelf) {
        Ok(bytes) => deliver(command, words, &bytes, shelf, out),
        Err(cause) => cause,
    }
}

// The output of a command, made in memory.
fn make<H: Shelf>(
    alloc: Global,
    command: Command,
    words: &[String],
    shelf: &mut H,
) -> Result<Vec<u8>, Cause>
    requires plain { runs_looms command ≡ false }
    ensures files { H.files shelf.new ≡ H.files shelf.old }
    ensures writes { H.write_faults shelf.new ≡ H.write_faults shelf.old }
    ensures reads { H.read_faults shelf.new ≡ reads_after (H.read_faults shelf.old) result }
    ensures failed { H.failed_name shelf.new ≡ name_after (H.failed_name shelf.old) result }
    ensures later { H.read_faults shelf.old ≤ H.read_faults shelf.new }
    ensures made { IfOk result (λ bytes. IsMade command (texts words.now) (H.files shelf.old) None bytes.items) }
    ensures fails { IfErr result (Fails command (texts words.now) (H.files shelf.old) (Rose (H.read_faults shelf.old) (H.read_faults shelf.new)) (H.failed_name shelf.new)) }
{
    let session = session_of(alloc, command, words, shelf)?;
    make_about(alloc, command, &session, words, shelf)
}

// The output of a command about a session.
#[tactic(auto, using(crate::proofs::Ends::made_output, crate::proofs::Ends::refused_fails, crate::proofs::Ends::lifted_output, crate::proofs::Ends::lifting_fails, crate::proofs::Ends::refused_reads, crate::proofs::Ends::refused_name))]
fn make_about<H: Shelf>(
    alloc: Global,
    command: Command,
    session: &Session,
    words: &[String],
    shelf: &mut H,
) -> Result<Vec<u8>, Cause>
    requires plain { runs_looms command ≡ false }
    requires fits { Fits session.now }
    requires about { IsAbout command (texts words.now) (H.files shelf.old) session.now }
    ensures files { H.files shelf.new ≡ H.files shelf.old }
    ensures writes { H.write_faults shelf.new ≡ H.write_faults shelf.old }
    ensures reads { H.read_faults shelf.new ≡ reads_after (H.read_faults shelf.old) result }
    ensures failed { H.failed_name shelf.new ≡ name_after (H.failed_name shelf.old) result }
    ensures later { H.read_faults shelf.old ≤ H.read_faults shelf.new }
    ensures made { IfOk result (λ bytes. IsMade command (texts words.now) (H.files shelf.old) None bytes.items) }
    ensures fails { IfErr result (Fails command (texts words.now) (H.files shelf.old) (Rose (H.read_faults shelf.old) (H.read_faults shelf.new)) (H.failed_name shelf.new)) }
{
    match command {
        Command::Check => check(alloc, session),
        Command::Draw => draw(alloc, session),
        Command::Paper => paper(alloc, session),
        Command::Cards(face) => cards(alloc, session, face),
        Command::Lift => lift(alloc, session, word(words, 2), shelf),
        Command::Weave | Command::Trial(_) => unreachable!(),
    }
}

fn check(alloc: Global, session: &Session) -> Result<Vec<u8>, Cause>
    requires fits { Fits session.now }
    ensures made { IfOk result (λ bytes. Made Command.Check session.now None bytes.items) }
    ensures fails { IfErr result (Refuses session.now) }
{
    open(alloc, session)?;
    Ok(check_line(alloc, session)?)
}

fn draw(alloc: Global, session: &Session) -> Result<Vec<u8>, Cause>
    requires fits { Fits session.now }
    ensures made { IfOk result (λ bytes. Made Command.Draw session.now None bytes.items) }
    ensures fails { IfErr result (Refuses session.now) }
{
    let paper = last(alloc, session)?;
    Ok(drawdown_file(alloc, &session.design, &paper)?)
}

fn paper(alloc: Global, session: &Session) -> Result<Vec<u8>, Cause>
    requires fits { Fits session.now }
    ensures made { IfOk result (λ bytes. Made Command.Paper session.now None bytes.items) }
    ensures fails { IfErr result (Refuses session.now) }
{
    let paper = last(alloc, session)?;
    Ok(paper_file(alloc, &paper, session.colour_map.as_slice())?)
}

fn cards(alloc: Global, session: &Session, face: Face) -> Result<Vec<u8>, Cause>
    requires fits { Fits session.now }
    ensures made { IfOk result (λ bytes. Made (Command.Cards face) session.now None bytes.items) }
    ensures fails { IfErr result (Refuses session.now) }
{
    let paper = last(alloc, session)?;
    Ok(chain_file(alloc, &session.design, &paper, face)?)
}

// The newest version of a session, whose opening keeps no float.
fn last(alloc: Global, session: &Session) -> Result<Paper, Cause>
    requires fits { Fits session.now }
    ensures newest { IfOk result (IsNewest (plain_versions session.now)) }
    ensures paper { IfOk result (IsPaperOf session.now.design) }
    ensures sound { OnOk result (float_kept session.now.design session.now.opening ≡ None) }
    ensures fails { IfErr result (Refuses session.now) }
{
    match last_paper(alloc, session) {
        Ok(paper) => Ok(paper),
        Err(refusal) => Err(start_cause(refusal)),
    }
}

// Puts the output of a command out, or writes it under its name.
fn deliver<H: Shelf, K: Sink>(
    command: Command,
    words: &[String],
    bytes: &[u8],
    shelf: &mut H,
    out: &mut K,
) -> Cause
    ensures reads { (H.read_faults shelf.new ≡ H.read_faults shelf.old) × (H.failed_name shelf.new ≡ H.failed_name shelf.old) }
    ensures later { (H.write_faults shelf.old ≤ H.write_faults shelf.new) × (K.faults out.old ≤ K.faults out.new) }
    ensures end { IsDelivery (file_name command (texts words.now))
        (outside (shelf_state (H.files shelf.old) (H.read_faults shelf.old) (H.write_faults shelf.old) (H.failed_name shelf.old))
        (shelf_state (H.files shelf.new) (H.read_faults shelf.new) (H.write_faults shelf.new) (H.failed_name shelf.new))
        (sink_state (K.taken out.old) (K.faults out.old))
        (sink_state (K.taken out.new) (K.faults out.new))) bytes.now result }
{
    let went = match command.file_name(words) {
        None => put_pieces(out, bytes),
        Some(name) => shelf.write(name, bytes),
    };
    match went {
        Ok(()) => Cause::Done,
        Err(_) => Cause::WriteFault,
    }
}
