//! The report of a run.
ghost use Rattle.std.specs.Prelude.{◌≡◌, ◌++◌, slice_index_or, IfOk, OnOk};
ghost use Rattle.draft_model.specs.Texts.{float_text};
ghost use Rattle.report_text.specs.Reports.{
  reply_text,
  act_line,
  act_in_shift,
  act_lines,
  face_word,
  loom_text,
  loom_line,
  repeat_in_shift,
  loom_lines,
  lines_of_looms,
  shift_lines,
  lines_of_shifts,
  report as report_of,
};

use crate::cloth_text::push_rows;
use crate::growing::{push_design, push_digest, push_number, push_text};
use crate::summary::last_version;
use draft_model::float_run::{FloatKind, FloatRun};
use mill_base::face::Face;
use mill_base::listed::Listed;
use mill_base::memory::OutOfMemory;
use session_file::session::Session;
use std::alloc::Global;
use version_journal::entry::{Entry, Reply};
use version_journal::run_log::{Repeat, RunLog};

/// The report of a session's log (a format of this project's own): the design, the acts and the repeats of each shift, and the number of
/// the last version, as lines of text.
pub fn report(alloc: Global, session: &Session, log: &RunLog) -> Result<Vec<u8>, OutOfMemory>
    ensures { IfOk result (λ bytes. bytes.items ≡ report_of session.now log.now) }
{
    let mut out = Vec::new(alloc);
    push_text(&mut out, b"studio 1\n")?;
    push_text(&mut out, b"design ")?;
    push_design(&mut out, &session.design)?;
    push_text(&mut out, b"\n")?;
    push_shifts(&mut out, session, log)?;
    push_number(
        &mut out,
        b"end versions ",
        last_version(log.entries.as_slice()),
    )?;
    push_text(&mut out, b"\n")?;
    Ok(out)
}

fn push_shifts(out: &mut Vec<u8>, session: &Session, log: &RunLog) -> Result<(), OutOfMemory>
    ensures { OnOk result (out.new.items ≡ out.old.items ++ lines_of_shifts session.now log.now) }
{
    for shift in 0..session.shifts.len() {
        push_shift(out, session, log, shift)?;
    }
    Ok(())
}

fn push_shift(
    out: &mut Vec<u8>,
    session: &Session,
    log: &RunLog,
    shift: usize,
) -> Result<(), OutOfMemory>
    ensures { OnOk result (out.new.items ≡ out.old.items ++ shift_lines session.now log.now shift) }
{
    push_number(out, b"shift ", shift)?;
    push_text(out, b"\n")?;
    push_acts(out, shift, log.entries.as_slice())?;
    push_looms(out, shift, session.faces.as_slice(), log.looms.as_slice())
}

fn push_acts(out: &mut Vec<u8>, shift: usize, entries: &[Entry]) -> Result<(), OutOfMemory>
    ensures { OnOk result (out.new.items ≡ out.old.items ++ act_lines shift entries.now) }
{
    for (act, entry) in entries.iter().enumerate() {
        push_act(out, shift, act, entry)?;
    }
    Ok(())
}

fn push_act(out: &mut Vec<u8>, shift: usize, act: usize, entry: &Entry) -> Result<(), OutOfMemory>
    ensures { OnOk result (out.new.items ≡ out.old.items ++ act_in_shift shift act entry.now) }
{
    if entry.shift as usize != shift {
        return Ok(());
    }
    push_number(out, b"act ", act)?;
    push_number(out, b" painter ", entry.painter)?;
    push_number(out, b" number ", entry.number)?;
    push_text(out, b" ")?;
    push_reply(out, &entry.reply)?;
    push_text(out, b"\n")
}

fn push_reply(out: &mut Vec<u8>, reply: &Reply) -> Result<(), OutOfMemory>
    ensures { OnOk result (out.new.items ≡ out.old.items ++ reply_text reply.now) }
{
    match reply {
        Reply::Painted => push_text(out, b"paint"),
        Reply::Accepted(version) => push_number(out, b"accepted ", *version),
        Reply::Refused(run) => push_refused(out, run),
    }
}

fn push_refused(out: &mut Vec<u8>, run: &FloatRun) -> Result<(), OutOfMemory>
    ensures { OnOk result (out.new.items ≡ out.old.items ++ reply_text (Reply.Refused run.now)) }
{
    push_text(out, b"refused ")?;
    push_float(out, run)
}

fn push_float(out: &mut Vec<u8>, run: &FloatRun) -> Result<(), OutOfMemory>
    ensures { OnOk result (out.new.items ≡ out.old.items ++ float_text run.now) }
{
    push_number(out, word_of_kind(run.kind), run.line)?;
    push_number(out, b" start ", run.start)?;
    push_number(out, b" length ", run.length)?;
    if run.endless {
        return push_text(out, b" endless");
    }
    Ok(())
}

fn word_of_kind(kind: FloatKind) -> &'static [u8]
    ensures { result.now ≡ Rattle.draft_model.specs.Texts.kind_word kind }
{
    match kind {
        FloatKind::Weft => b"weft ",
        FloatKind::Warp => b"warp ",
    }
}

fn push_looms(
    out: &mut Vec<u8>,
    shift: usize,
    faces: &[Face],
    looms: &[Listed<Repeat>],
) -> Result<(), OutOfMemory>
    ensures { OnOk result (out.new.items ≡ out.old.items ++ lines_of_looms shift faces.now looms.now) }
{
    for (loom, repeats) in looms.iter().enumerate() {
        push_repeats(out, shift, face_at(faces, loom), loom, repeats.as_slice())?;
    }
    Ok(())
}

fn face_at(faces: &[Face], loom: usize) -> Face
    ensures { result ≡ slice_index_or faces.now loom Face.Up }
{
    faces.get(loom).copied().unwrap_or(Face::Up)
}

fn push_repeats(
    out: &mut Vec<u8>,
    shift: usize,
    face: Face,
    loom: usize,
    repeats: &[Repeat],
) -> Result<(), OutOfMemory>
    ensures { OnOk result (out.new.items ≡ out.old.items ++ loom_lines shift face loom repeats.now) }
{
    for (number, woven) in repeats.iter().enumerate() {
        push_repeat(out, shift, face, loom, number, woven)?;
    }
    Ok(())
}

fn push_repeat(
    out: &mut Vec<u8>,
    shift: usize,
    face: Face,
    loom: usize,
    number: usize,
    woven: &Repeat,
) -> Result<(), OutOfMemory>
    ensures { OnOk result (out.new.items ≡ out.old.items ++ repeat_in_shift shift face loom number woven.now) }
{
    if woven.shift as usize != shift {
        return Ok(());
    }
    push_loom_line(out, face, loom, number, woven)?;
    push_rows(out, &woven.rows)
}

fn push_loom_line(
    out: &mut Vec<u8>,
    face: Face,
    loom: usize,
    number: usize,
    woven: &Repeat,
) -> Result<(), OutOfMemory>
    ensures { OnOk result (out.new.items ≡ out.old.items ++ loom_line face loom number woven.now) }
{
    push_loom(out, face, loom, number)?;
    push_number(out, b" version ", woven.version)?;
    push_digest(out, &woven.digest)
}

fn push_loom(out: &mut Vec<u8>, face: Face, loom: usize, number: usize) -> Result<(), OutOfMemory>
    ensures { OnOk result (out.new.items ≡ out.old.items ++ loom_text face loom number) }
{
    push_number(out, b"loom ", loom)?;
    push_number(out, word_of_face(face), number)
}

fn word_of_face(face: Face) -> &'static [u8]
    ensures { result.now ≡ face_word face }
{
    match face {
        Face::Up => b" repeat ",
        Face::Down => b" down repeat ",
    }
}
