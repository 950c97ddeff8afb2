//! Texts that grow at their end.
ghost use Rattle.std.specs.Prelude.{◌≡◌, ◌++◌, OnOk};
ghost use Rattle.draft_model.specs.Texts.{float_text};
ghost use Rattle.report_text.specs.Reports.{design_text, digest_text};

use draft_model::design::Design;
use itoa::{Buffer, Integer};
use mill_base::memory::OutOfMemory;

/// Adds a text.
pub fn push_text(out: &mut Vec<u8>, text: &[u8]) -> Result<(), OutOfMemory>
    ensures { OnOk result (out.new.items ≡ out.old.items ++ text.now) }
{
    out.extend_from_slice(text)?;
    Ok(())
}

/// Adds a word and a number behind it.
pub fn push_number<I: Integer>(out: &mut Vec<u8>, word: &[u8], number: I) -> Result<(), OutOfMemory>
    ensures { OnOk result (out.new.items ≡ out.old.items ++ (word.now ++ I.text number)) }
{
    push_text(out, word)?;
    let mut buffer = Buffer::new();
    push_text(out, buffer.format(number).as_bytes())
}

/// Adds ` sha256 `, a digest with each byte as two digits, and a line feed.
pub fn push_digest(out: &mut Vec<u8>, digest: &[u8; 32]) -> Result<(), OutOfMemory>
    ensures { OnOk result (out.new.items ≡ out.old.items ++ digest_text digest.now) }
{
    let mut digits = [0u8; 64];
    let Ok(()) = hex::encode_to_slice(digest.as_slice(), &mut digits) else {
        unreachable!();
    };
    push_text(out, b" sha256 ")?;
    push_text(out, &digits)?;
    push_text(out, b"\n")
}

/// Adds the numbers of a design.
pub fn push_design(out: &mut Vec<u8>, design: &Design) -> Result<(), OutOfMemory>
    ensures { OnOk result (out.new.items ≡ out.old.items ++ design_text design.now) }
{
    push_number(out, b"columns ", design.size.columns)?;
    push_number(out, b" picks ", design.size.picks)?;
    push_number(out, b" ends ", design.tie.ends())?;
    push_number(out, b" hooks ", design.casting.hooks())
}
