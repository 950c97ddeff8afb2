//! Forms of single values: a number, a word.
ghost use Rattle.std.specs.Prelude.{◌≡◌, ◌≤◌, ⊤, true, false, map, IfOk, MatchOption, ℕ, List, []};
ghost use Rattle.toml.specs.Data.{Data};
ghost use Rattle.toml.specs.View.{view};
ghost use Rattle.mill_base.specs.Limits.{IsWithin};
ghost use Rattle.session_rules.specs.declared.fault.SessionFault.{SessionFault};
ghost use Rattle.session_rules.specs.Checks.{is_among, whole, word};
ghost use Rattle.session_rules.specs.Faults.{Reads};
ghost use Rattle.session_rules.specs.Paths.{path_of};
ghost use Rattle.session_rules.specs.Values.{meaning_in, number};

use crate::fault::{SessionFaultKind, SessionRefusal};
use crate::path::Path;
use std::alloc::Global;
use toml::Value;

/// A form of value: a rule for it, and what a value that keeps the rule gives.
pub trait Form {
    type Out;

    // the faults of a value that stands behind the earlier ones of its list, at its path and in their order
    ghost faults: { Self → List Data → List ℕ → Data → List SessionFault };

    // what the value gives where it has no fault
    ghost gives: { Self → List Data → Data → Self.Out };

    // what holds of the value that it gives
    ghost fits: { Self → Self.Out → Type 0 } = { λ s x. ⊤ };

    // what stands for a value that is absent and must not be: no session is read then
    ghost blank: { Self → Self.Out };

    /// The value, or its first fault.
    fn read(
        &self,
        alloc: Global,
        path: &Path<'_>,
        earlier: &[Value],
        value: &Value,
    ) -> Result<Self::Out, SessionRefusal>
        ensures reads { Reads (faults self.now (map view earlier.now) (path_of path.now) (view value.now)) (gives self.now (map view earlier.now) (view value.now)) result }
        ensures within { IfOk result (fits self.now) };
}

/// A whole number from the first to the second.
#[derive(Clone, Copy)]
pub struct Whole(pub u32, pub u32);

impl Form for Whole {
    type Out = u32;

    ghost faults = { λ s earlier. whole s.0 s.1 };

    ghost gives = { λ s earlier. number };

    ghost fits = { λ s n. IsWithin s.0 n s.1 };

    ghost blank = { λ s. 0 };

    #[tactic(auto, unfolding(crate::specs::Checks::whole, crate::specs::Values::number))]
    fn read(
        &self,
        alloc: Global,
        path: &Path<'_>,
        _earlier: &[Value],
        value: &Value,
    ) -> Result<u32, SessionRefusal> {
        let Some(number) = value.as_integer() else {
            return Err(path.refusal(alloc, SessionFaultKind::Kind));
        };
        let least = self.0 as i64;
        let greatest = self.1 as i64;
        if number < least || greatest < number {
            let kind = SessionFaultKind::Range {
                value: number,
                least,
                greatest,
            };
            return Err(path.refusal(alloc, kind));
        }
        Ok(number as u32)
    }
}

/// Some words, and what each of them means.
pub trait Words {
    type Out;

    ghost words: { List (List ℕ) };

    // what one of the words means
    ghost means: { List ℕ → Self.Out };

    /// What a text means, where it is one of the words.
    fn meaning(&self, text: &str) -> Option<Self::Out>
        ensures { MatchOption result (is_among words text.now ≡ false) (λ x. (is_among words text.now ≡ true) × (x ≡ means text.now)) };
}

/// One of some words.
#[derive(Clone, Copy)]
pub struct WordOf<W> {
    pub words: W,
}

impl<W: Words> Form for WordOf<W> {
    type Out = W::Out;

    ghost faults = { λ s earlier. word W.words };

    ghost gives = { λ s earlier. meaning_in W.means };

    ghost blank = { λ s. W.means [] };

    #[tactic(auto, unfolding(crate::specs::Checks::word, crate::specs::Values::meaning_in))]
    fn read(
        &self,
        alloc: Global,
        path: &Path<'_>,
        _earlier: &[Value],
        value: &Value,
    ) -> Result<W::Out, SessionRefusal> {
        let Some(text) = value.as_str() else {
            return Err(path.refusal(alloc, SessionFaultKind::Kind));
        };
        match self.words.meaning(text) {
            Some(meaning) => Ok(meaning),
            None => Err(path.refusal(alloc, SessionFaultKind::Choice)),
        }
    }
}
