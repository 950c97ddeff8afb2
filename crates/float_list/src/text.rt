//! The lines that tell the floats of a cloth.
ghost use Rattle.std.specs.Prelude.{◌≡◌, ◌<◌, ◌≤◌, ◌+◌, ◌-◌, ◌++◌, ℕ, flat_map, length, All, IfOk, OnOk};
ghost use Rattle.cloth_floats.specs.Cells.{limit_of};
ghost use Rattle.draft_model.specs.Designs.{Fits};
ghost use Rattle.float_list.specs.Lists.{IsFloatOf};
ghost use Rattle.float_list.specs.Texts.{between, edge_text, float_line, kind_text, last_of, length_text, list_text, more_line, numbered, row_of, warp_text, weft_text};

use crate::list::FloatList;
use crate::long_float::{Limits, LongFloat};
use cloth_floats::Run;
use draft_model::design::Design;
use draft_model::float_run::FloatKind;
use itoa::{Buffer, Integer};
use mill_base::memory::OutOfMemory;
use std::alloc::Global;

/// The lines of a design's floats (a format of this project's own): one for each that is listed, how many more there are, and how many
/// there are of each kind.
pub fn list_text(alloc: Global, design: &Design, list: &FloatList) -> Result<Vec<u8>, OutOfMemory>
    requires fits { Fits design.now }
    requires floats { All (IsFloatOf design.now) list.now.listed }
    ensures { IfOk result (λ bytes. bytes.items ≡ list_text design.now list.now) }
{
    let mut out = Vec::new(alloc);
    push_floats(&mut out, design, list.listed.as_slice())?;
    let all = u64::from(list.weft) + u64::from(list.warp);
    push_more(&mut out, all.saturating_sub(list.listed.len() as u64))?;
    push_number(&mut out, b"floats ", list.weft)?;
    push_number(&mut out, b" weft, ", list.warp)?;
    push_text(&mut out, b" warp\n")?;
    Ok(out)
}

fn push_floats(out: &mut Vec<u8>, design: &Design, floats: &[LongFloat]) -> Result<(), OutOfMemory>
    requires fits { Fits design.now }
    requires floats { All (IsFloatOf design.now) floats.now }
    ensures { OnOk result (out.new.items ≡ out.old.items ++ flat_map (float_line design.now) floats.now) }
{
    for float in floats {
        push_float(out, design, *float)?;
    }
    Ok(())
}

fn push_more(out: &mut Vec<u8>, more: u64) -> Result<(), OutOfMemory>
    ensures { OnOk result (out.new.items ≡ out.old.items ++ more_line more) }
{
    if more == 0 {
        return Ok(());
    }
    push_number(out, b"more ", more)?;
    push_text(out, b"\n")
}

/// Adds the line of a float.
fn push_float(out: &mut Vec<u8>, design: &Design, float: LongFloat) -> Result<(), OutOfMemory>
    requires fits { Fits design.now }
    requires float { IsFloatOf design.now float }
    ensures { OnOk result (out.new.items ≡ out.old.items ++ float_line design.now float) }
{
    push_text(out, words_of(float.kind, float.run.lifted))?;
    match float.kind {
        FloatKind::Weft => push_weft(out, design, float)?,
        FloatKind::Warp => push_warp(out, design, float)?,
    }
    push_text(out, b"\n")
}

fn words_of(kind: FloatKind, lifted: bool) -> &'static [u8]
    ensures { result.now ≡ kind_text kind lifted }
{
    match (kind, lifted) {
        (FloatKind::Weft, true) => b"float weft back",
        (FloatKind::Weft, false) => b"float weft face",
        (FloatKind::Warp, true) => b"float warp face",
        (FloatKind::Warp, false) => b"float warp back",
    }
}

fn push_weft(out: &mut Vec<u8>, design: &Design, float: LongFloat) -> Result<(), OutOfMemory>
    requires fits { Fits design.now }
    requires line { float.line < design.now.size.picks }
    requires start { float.run.start < length design.now.tie.ends }
    requires some { 0 < float.run.length }
    requires within { float.run.length ≤ length design.now.tie.ends }
    ensures { OnOk result (out.new.items ≡ out.old.items ++ weft_text design.now float) }
{
    let ends = design.tie.ends();
    let last = last_of(ends, float.run);
    push_number(out, b" pick ", float.line)?;
    push_between(out, b" ends ", float.run.start, last)?;
    push_edge(out, ends, float.run)?;
    push_length(out, design, float)?;
    let first_column = design.tie.column(float.run.start);
    push_between(out, b" columns ", first_column, design.tie.column(last))?;
    push_number(out, b" row ", design.size.picks - 1 - float.line)
}

fn push_warp(out: &mut Vec<u8>, design: &Design, float: LongFloat) -> Result<(), OutOfMemory>
    requires fits { Fits design.now }
    requires line { float.line < length design.now.tie.ends }
    requires start { float.run.start < design.now.size.picks }
    requires some { 0 < float.run.length }
    requires within { float.run.length ≤ design.now.size.picks }
    ensures { OnOk result (out.new.items ≡ out.old.items ++ warp_text design.now float) }
{
    let picks = design.size.picks;
    let last = last_of(picks, float.run);
    push_number(out, b" end ", float.line)?;
    push_number(out, b" column ", design.tie.column(float.line))?;
    push_between(out, b" picks ", float.run.start, last)?;
    push_edge(out, picks, float.run)?;
    push_length(out, design, float)?;
    push_between(
        out,
        b" rows ",
        picks - 1 - last,
        picks - 1 - float.run.start,
    )
}

// Where a float has its last cell, on a line of so many cells.
fn last_of(cells: u32, run: Run) -> u32
    requires start { run.start < cells }
    requires some { 0 < run.length }
    ensures last { result ≡ last_of cells run }
    ensures within { result < cells }
{
    let last = u64::from(run.start) + u64::from(run.length) - 1;
    (last % u64::from(cells)) as u32
}

fn push_edge(out: &mut Vec<u8>, cells: u32, run: Run) -> Result<(), OutOfMemory>
    ensures { OnOk result (out.new.items ≡ out.old.items ++ edge_text cells run) }
{
    if run.endless {
        return push_text(out, b" endless");
    }
    if u64::from(run.start) + u64::from(run.length) > u64::from(cells) {
        return push_text(out, b" round");
    }
    Ok(())
}

fn push_length(out: &mut Vec<u8>, design: &Design, float: LongFloat) -> Result<(), OutOfMemory>
    ensures { OnOk result (out.new.items ≡ out.old.items ++ length_text design.now float) }
{
    push_number(out, b" length ", float.run.length)?;
    let limits = Limits::of(float.kind, design);
    let limit = if float.run.lifted {
        limits.lifted
    } else {
        limits.unlifted
    };
    push_number(out, b" limit ", limit)
}

fn push_between(out: &mut Vec<u8>, word: &[u8], first: u32, last: u32) -> Result<(), OutOfMemory>
    ensures { OnOk result (out.new.items ≡ out.old.items ++ between word.now first last) }
{
    push_number(out, word, first)?;
    push_number(out, b" to ", last)
}

fn push_number<I: Integer>(out: &mut Vec<u8>, word: &[u8], number: I) -> Result<(), OutOfMemory>
    ensures { OnOk result (out.new.items ≡ out.old.items ++ (word.now ++ I.text number)) }
{
    push_text(out, word)?;
    let mut buffer = Buffer::new();
    push_text(out, buffer.format(number).as_bytes())
}

fn push_text(out: &mut Vec<u8>, text: &[u8]) -> Result<(), OutOfMemory>
    ensures { OnOk result (out.new.items ≡ out.old.items ++ text.now) }
{
    out.extend_from_slice(text)?;
    Ok(())
}
