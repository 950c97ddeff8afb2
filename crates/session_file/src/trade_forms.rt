//! Forms of single values that speak of the trade: a weave, a name, the opening paper, a shade of a colour.
ghost use Rattle.std.specs.Prelude.{◌≡◌, ◌≤◌, []};
ghost use Rattle.std.specs.List.{list_all};
ghost use Rattle.weave_book.specs.declared.weaves.Weave.TheVariants.{Blank};
ghost use Rattle.session_rules.specs.Checks.{whole};
ghost use Rattle.session_rules.specs.Values.{number, text_in};
ghost use Rattle.session_file.specs.Trade.{is_name as is_name_of, is_name_byte as is_byte_of, new_name, opening, opening_in, weave, weave_in};
ghost use Rattle.session_file.specs.declared.draft.Opening.TheVariants.{Plain};
ghost use Rattle.session_file.specs.inner.Drafts.{IsOpening};

use crate::draft::Opening;
use mill_base::name_text::NameText;
use session_rules::fault::{SessionFaultKind, SessionRefusal};
use session_rules::form::{Form, Whole};
use session_rules::path::Path;
use std::alloc::Global;
use strokes::motifs::Motifs;
use toml::Value;
use weave_book::weaves::Weave;

/// A text that spells a weave.
#[derive(Clone, Copy)]
pub(crate) struct WeaveForm;

impl Form for WeaveForm {
    type Out = Weave;

    ghost faults = { λ s earlier. weave };

    ghost gives = { λ s earlier. weave_in };

    ghost blank = { λ s. Blank };

    #[tactic(auto, unfolding(crate::specs::Trade::weave, crate::specs::Trade::weave_in))]
    fn read(
        &self,
        alloc: Global,
        path: &Path<'_>,
        _earlier: &[Value],
        value: &Value,
    ) -> Result<Weave, SessionRefusal> {
        let Some(text) = value.as_str() else {
            return Err(path.refusal(alloc, SessionFaultKind::Kind));
        };
        match Weave::parse(text) {
            Ok(weave) => Ok(weave),
            Err(fault) => Err(path.refusal(alloc, SessionFaultKind::Weave(fault))),
        }
    }
}

/// A whole number of 16 bits.
#[derive(Clone, Copy)]
pub(crate) struct Shade;

impl Form for Shade {
    type Out = u16;

    ghost faults = { λ s earlier. whole 0 65535 };

    ghost gives = { λ s earlier. number };

    ghost blank = { λ s. 0 };

    fn read(
        &self,
        alloc: Global,
        path: &Path<'_>,
        earlier: &[Value],
        value: &Value,
    ) -> Result<u16, SessionRefusal> {
        let number = Whole(0, u16::MAX as u32).read(alloc, path, earlier, value)?;
        Ok(number as u16)
    }
}

/// A name that none of these motifs has.
#[derive(Clone, Copy)]
pub(crate) struct NewName<'a> {
    pub motifs: &'a Motifs,
}

impl<'a> Form for NewName<'a> {
    type Out = NameText;

    ghost faults = { λ s earlier. new_name s.motifs.now };

    ghost gives = { λ s earlier. text_in };

    ghost blank = { λ s. [] };

    #[tactic(auto, unfolding(crate::specs::Trade::new_name, session_rules::specs::Values::text_in))]
    fn read(
        &self,
        alloc: Global,
        path: &Path<'_>,
        _earlier: &[Value],
        value: &Value,
    ) -> Result<NameText, SessionRefusal> {
        let Some(text) = value.as_str() else {
            return Err(path.refusal(alloc, SessionFaultKind::Kind));
        };
        if !is_name(text) || self.motifs.find(text).is_some() {
            return Err(path.refusal(alloc, SessionFaultKind::Name));
        }
        let name = NameText::of(alloc, text)?;
        Ok(name)
    }
}

#[tactic(auto, unfolding(crate::specs::Trade::is_name))]
fn is_name(text: &str) -> bool
    ensures { result ≡ is_name_of text.now }
{
    if text.is_empty() || text.len() > 32 {
        return false;
    }
    are_name_bytes(text.as_bytes())
}

fn are_name_bytes(bytes: &[u8]) -> bool
    ensures { result ≡ list_all is_byte_of bytes.now }
{
    bytes.iter().all(|byte| is_name_byte(*byte))
}

fn is_name_byte(byte: u8) -> bool
    ensures { result ≡ is_byte_of byte }
{
    byte.is_ascii_lowercase() || byte.is_ascii_digit() || byte == b'_'
}

/// A colour of a book of so many, or a text that is not empty.
#[derive(Clone, Copy)]
pub(crate) struct OpeningForm {
    pub colours: u32,
}

impl Form for OpeningForm {
    type Out = Opening;

    ghost faults = { λ s earlier. opening s.colours };

    ghost gives = { λ s earlier. opening_in };

    ghost fits = { λ s. IsOpening s.colours };

    ghost blank = { λ s. Plain 0 };

    #[tactic(auto, unfolding(crate::specs::Trade::opening, crate::specs::Trade::opening_in))]
    fn read(
        &self,
        alloc: Global,
        path: &Path<'_>,
        _earlier: &[Value],
        value: &Value,
    ) -> Result<Opening, SessionRefusal> {
        if let Some(text) = value.as_str() {
            if text.is_empty() {
                return Err(path.refusal(alloc, SessionFaultKind::Name));
            }
            let name = NameText::of(alloc, text)?;
            return Ok(Opening::Image(name));
        }
        let colour = Whole(0, self.colours.saturating_sub(1));
        let number = colour.read(alloc, path, &[], value)?;
        Ok(Opening::Plain(number))
    }
}
