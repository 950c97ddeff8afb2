//! Lines of a report, one at a time.
ghost use Rattle.std.specs.Prelude.{◌≡◌, ◌++◌, slice_index_or, IfOk, OnOk, codes};
ghost use Rattle.draft_model.specs.Texts.{float_text};
ghost use Rattle.report_text.specs.Reports.{act_line as act_line_of, design_text, digest_text, face_word, loom_text, reply_text, row_line, row_text};
ghost use Rattle.audit_model.specs.Lines.{design_line as design_line_of, lines_of_rows, shift_head as shift_head_of};
ghost use Rattle.audit_report.specs.Texts.{act_head as act_head_of, loom_line_by};

use draft_model::cloth::Cloth;
use draft_model::design::Design;
use draft_model::float_run::{FloatKind, FloatRun};
use itoa::{Buffer, Integer};
use mill_base::bit_row::BitRow;
use mill_base::face::Face;
use mill_base::listed::Listed;
use mill_base::memory::OutOfMemory;
use mill_base::spread::spread;
use session_file::session::Session;
use std::alloc::Global;
use version_journal::entry::{Entry, Reply};

const LIFTED: u8 = b'#';

const UNLIFTED: u8 = b'.';

fn push_text(out: &mut Vec<u8>, text: &[u8]) -> Result<(), OutOfMemory>
    ensures { OnOk result (out.new.items ≡ out.old.items ++ text.now) }
{
    out.extend_from_slice(text)?;
    Ok(())
}

// A word and a number behind it.
fn push_number<I: Integer>(out: &mut Vec<u8>, word: &[u8], number: I) -> Result<(), OutOfMemory>
    ensures { OnOk result (out.new.items ≡ out.old.items ++ (word.now ++ I.text number)) }
{
    push_text(out, word)?;
    let mut buffer = Buffer::new();
    push_text(out, buffer.format(number).as_bytes())
}

fn push_digest(out: &mut Vec<u8>, digest: &[u8; 32]) -> Result<(), OutOfMemory>
    ensures { OnOk result (out.new.items ≡ out.old.items ++ digest_text digest.now) }
{
    let mut digits = [0u8; 64];
    let Ok(()) = hex::encode_to_slice(digest.as_slice(), &mut digits) else {
        unreachable!();
    };
    push_text(out, b" sha256 ")?;
    push_text(out, &digits)?;
    push_text(out, b"\n")
}

fn push_design(out: &mut Vec<u8>, design: &Design) -> Result<(), OutOfMemory>
    ensures { OnOk result (out.new.items ≡ out.old.items ++ design_text design.now) }
{
    push_number(out, b"columns ", design.size.columns)?;
    push_number(out, b" picks ", design.size.picks)?;
    push_number(out, b" ends ", design.tie.ends())?;
    push_number(out, b" hooks ", design.casting.hooks())
}

/// The line of the design.
pub fn design_line(alloc: Global, session: &Session) -> Result<Listed<u8>, OutOfMemory>
    ensures { IfOk result (λ line. line ≡ design_line_of session.now) }
{
    let mut line = Vec::new(alloc);
    push_text(&mut line, b"design ")?;
    push_design(&mut line, &session.design)?;
    push_text(&mut line, b"\n")?;
    Ok(Listed::of(line))
}

/// A line of a text alone.
pub fn text_line(alloc: Global, text: &[u8]) -> Result<Listed<u8>, OutOfMemory>
    ensures { IfOk result (λ line. line ≡ text.now) }
{
    let mut line = Vec::new(alloc);
    push_text(&mut line, text)?;
    Ok(Listed::of(line))
}

/// The line that a shift begins with.
pub fn shift_head(alloc: Global, shift: u32) -> Result<Listed<u8>, OutOfMemory>
    ensures { IfOk result (λ line. line ≡ shift_head_of shift) }
{
    let mut line = Vec::new(alloc);
    push_number(&mut line, b"shift ", shift)?;
    push_text(&mut line, b"\n")?;
    Ok(Listed::of(line))
}

/// The last line, by the number of the last version.
pub fn end_line(alloc: Global, version: u32) -> Result<Listed<u8>, OutOfMemory>
    ensures { IfOk result (λ line. line ≡ Rattle.report_text.specs.Reports.numbered (codes "end versions ") version ++ codes "\n") }
{
    let mut line = Vec::new(alloc);
    push_number(&mut line, b"end versions ", version)?;
    push_text(&mut line, b"\n")?;
    Ok(Listed::of(line))
}

/// The line of an act up to its reply.
pub fn act_head(
    alloc: Global,
    act: usize,
    painter: u32,
    number: u32,
) -> Result<Vec<u8>, OutOfMemory>
    ensures { IfOk result (λ head. head.items ≡ act_head_of act painter number) }
{
    let mut head = Vec::new(alloc);
    push_number(&mut head, b"act ", act)?;
    push_number(&mut head, b" painter ", painter)?;
    push_number(&mut head, b" number ", number)?;
    push_text(&mut head, b" ")?;
    Ok(head)
}

/// The line of an act.
pub fn act_line(alloc: Global, act: usize, entry: &Entry) -> Result<Vec<u8>, OutOfMemory>
    ensures { IfOk result (λ line. line.items ≡ act_line_of act entry.now) }
{
    let mut line = act_head(alloc, act, entry.painter, entry.number)?;
    push_reply(&mut line, &entry.reply)?;
    push_text(&mut line, b"\n")?;
    Ok(line)
}

fn push_reply(out: &mut Vec<u8>, reply: &Reply) -> Result<(), OutOfMemory>
    ensures { OnOk result (out.new.items ≡ out.old.items ++ reply_text reply.now) }
{
    match reply {
        Reply::Painted => push_text(out, b"paint"),
        Reply::Accepted(version) => push_number(out, b"accepted ", *version),
        Reply::Refused(run) => push_refused(out, run),
    }
}

fn push_refused(out: &mut Vec<u8>, run: &FloatRun) -> Result<(), OutOfMemory>
    ensures { OnOk result (out.new.items ≡ out.old.items ++ reply_text (Reply.Refused run.now)) }
{
    push_text(out, b"refused ")?;
    push_float(out, run)
}

fn push_float(out: &mut Vec<u8>, run: &FloatRun) -> Result<(), OutOfMemory>
    ensures { OnOk result (out.new.items ≡ out.old.items ++ float_text run.now) }
{
    push_number(out, word_of_kind(run.kind), run.line)?;
    push_number(out, b" start ", run.start)?;
    push_number(out, b" length ", run.length)?;
    if run.endless {
        return push_text(out, b" endless");
    }
    Ok(())
}

fn word_of_kind(kind: FloatKind) -> &'static [u8]
    ensures { result.now ≡ Rattle.draft_model.specs.Texts.kind_word kind }
{
    match kind {
        FloatKind::Weft => b"weft ",
        FloatKind::Warp => b"warp ",
    }
}

/// The line of a repeat.
pub fn loom_line(
    alloc: Global,
    face: Face,
    loom: u32,
    number: u128,
    version: u32,
    digest: &[u8; 32],
) -> Result<Vec<u8>, OutOfMemory>
    ensures { IfOk result (λ line. line.items ≡ loom_line_by face loom number version digest.now) }
{
    let mut line = Vec::new(alloc);
    push_loom(&mut line, face, loom, number)?;
    push_number(&mut line, b" version ", version)?;
    push_digest(&mut line, digest)?;
    Ok(line)
}

fn push_loom(out: &mut Vec<u8>, face: Face, loom: u32, number: u128) -> Result<(), OutOfMemory>
    ensures { OnOk result (out.new.items ≡ out.old.items ++ loom_text face loom number) }
{
    push_number(out, b"loom ", loom)?;
    push_number(out, word_of_face(face), number)
}

fn word_of_face(face: Face) -> &'static [u8]
    ensures { result.now ≡ face_word face }
{
    match face {
        Face::Up => b" repeat ",
        Face::Down => b" down repeat ",
    }
}

/// The lines of the rows of a cloth, from pick 0 on.
pub fn row_lines(alloc: Global, cloth: &Cloth) -> Result<Vec<Listed<u8>>, OutOfMemory>
    ensures { IfOk result (λ lines. lines.items ≡ lines_of_rows 0 cloth.now.rows) }
{
    let mut lines = Vec::new(alloc);
    for pick in 0..cloth.picks() {
        let line = row_of_cloth(alloc, pick, cloth.row(pick))?;
        lines.push(line)?;
    }
    Ok(lines)
}

fn row_of_cloth(alloc: Global, pick: u32, row: &BitRow) -> Result<Listed<u8>, OutOfMemory>
    ensures { IfOk result (λ line. line ≡ row_line pick row.now) }
{
    let mut line = Vec::new(alloc);
    push_number(&mut line, b"row ", pick)?;
    push_text(&mut line, b" ")?;
    push_ends(&mut line, row)?;
    push_text(&mut line, b"\n")?;
    Ok(Listed::of(line))
}

fn push_ends(out: &mut Vec<u8>, row: &BitRow) -> Result<(), OutOfMemory>
    ensures { OnOk result (out.new.items ≡ out.old.items ++ row_text row.now) }
{
    let from = out.len();
    out.resize(from + row.len() as usize, UNLIFTED)?;
    spread(row, LIFTED, UNLIFTED, &mut out[from..]);
    Ok(())
}
