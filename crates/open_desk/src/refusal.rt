//! Why an act is not done, and why a desk is not closed.
ghost use Rattle.std.specs.Prelude.{◌≡◌, Some};
ghost use Rattle.mill_base.specs.Phrases.{phrase_text};
ghost use Rattle.open_desk.specs.Texts.{act_text};

use mill_base::memory::OutOfMemory;
use mill_base::phrase::{Phrase, whole};
use std::error::Error;
use std::fmt;

/// What is answered in place of a receipt. History and pass are then as they were.
#[derive(Clone, Copy, Debug, PartialEq, Eq)]
pub enum ActRefusal {
    /// The pass has as many receipts as a caller may do acts.
    Full { kept: u32 },
    /// The pass has so many receipts, and the desk has another number of the caller's entries.
    Differs { mine: u32, found: u32 },
    /// Memory was refused, which says nothing of the act.
    OutOfMemory,
}

impl ActRefusal {
    /// The text of the refusal, which takes no memory.
    pub fn phrase(&self) -> Phrase
        ensures { phrase_text result ≡ act_text self.now }
    {
        match self {
            ActRefusal::Full { kept } => Phrase::One("pass full with ", whole(*kept), ""),
            ActRefusal::Differs { mine, found } => {
                Phrase::Two("receipts ", whole(*mine), " entries ", whole(*found), "")
            }
            ActRefusal::OutOfMemory => Phrase::Plain("out of memory"),
        }
    }
}

impl fmt::Display for ActRefusal {
    ghost output = { λ refusal. Some (act_text refusal) };

    fn fmt<W: fmt::Write>(&self, f: &mut fmt::Formatter<W>) -> fmt::Result {
        let phrase = self.phrase();
        write!(f, "{phrase}")
    }
}

impl Error for ActRefusal {}

impl From<OutOfMemory> for ActRefusal {
    ghost use Rattle.open_desk.specs.declared.refusal.ActRefusal.TheVariants.{OutOfMemory};

    ghost from_gives = { λ _ refusal. refusal ≡ OutOfMemory };

    fn from(_error: OutOfMemory) -> ActRefusal {
        ActRefusal::OutOfMemory
    }
}
