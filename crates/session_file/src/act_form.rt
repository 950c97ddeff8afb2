//! The text of an act.
ghost use Rattle.mill_base.specs.declared.limits.TheConstants.{MAX_COLOURS};
ghost use Rattle.std.specs.Prelude.{◌≤◌};
ghost use Rattle.strokes.specs.Places.{IsThere};
ghost use Rattle.strokes.specs.declared.act.Act.TheVariants.{Commit};
ghost use Rattle.session_file.specs.Trade.{act, act_in};

use mill_base::size::Size;
use session_rules::fault::{SessionFaultKind, SessionRefusal};
use session_rules::form::Form;
use session_rules::path::Path;
use std::alloc::Global;
use strokes::act::Act;
use strokes::motifs::Motifs;
use toml::Value;

/// A text that spells an act of these motifs, for a book of so many colours and a paper of the size.
#[derive(Clone, Copy)]
pub(crate) struct ActForm<'a> {
    pub colours: u32,
    pub size: Size,
    pub motifs: &'a Motifs,
    ghost few: { colours ≤ MAX_COLOURS },
}

impl<'a> Form for ActForm<'a> {
    type Out = Act;

    ghost faults = { λ s earlier. act s.colours s.size s.motifs.now };

    ghost gives = { λ s earlier. act_in s.colours s.size s.motifs.now };

    ghost fits = { λ s. IsThere s.colours s.size s.motifs.now };

    ghost blank = { λ s. Commit };

    #[tactic(auto, unfolding(crate::specs::Trade::act, crate::specs::Trade::act_in))]
    fn read(
        &self,
        alloc: Global,
        path: &Path<'_>,
        _earlier: &[Value],
        value: &Value,
    ) -> Result<Act, SessionRefusal> {
        let Some(text) = value.as_str() else {
            return Err(path.refusal(alloc, SessionFaultKind::Kind));
        };
        match Act::parse(text, self.colours, self.size, self.motifs) {
            Ok(act) => Ok(act),
            Err(fault) => Err(path.refusal(alloc, SessionFaultKind::Act(fault))),
        }
    }
}
