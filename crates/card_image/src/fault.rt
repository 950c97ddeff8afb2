//! Why bytes are no chain of a design.
ghost use Rattle.std.specs.Prelude.{◌≡◌, Some};
ghost use Rattle.mill_base.specs.Phrases.{phrase_text};
ghost use Rattle.card_image.specs.Texts.{chain_text};

use mill_base::phrase::{Number, Phrase, whole};
use std::error::Error;
use std::fmt;

/// Why bytes are no chain of a design. Cards are counted from 0 by their picks, hooks and bytes from 0.
#[derive(Clone, Copy, Debug, PartialEq, Eq)]
pub enum ChainFault {
    /// The bytes begin with neither magic.
    BadMagic,
    /// The hooks (field 0) or the picks (field 1) are not the design's.
    BadHeader { field: u8, kept: u32, found: u32 },
    /// The card's number is not its place.
    CardNumber { kept: u32, found: u32 },
    /// A bit behind the last hook is set in this card.
    PadBit(u32),
    /// The least hook on which no column hangs and at which the card has a hole.
    IdleHole { card: u32, hook: u32 },
    /// The number of holes that is written is not the number of holes.
    HoleCount { kept: u32, found: u32 },
    /// A byte stands past the whole length.
    Excess { kept: u64 },
    /// The bytes end before the whole length.
    Truncated { kept: u64, found: u64 },
}

impl ChainFault {
    /// The text of the fault, which takes no memory.
    pub fn phrase(&self) -> Phrase
        ensures { phrase_text result ≡ chain_text self.now }
    {
        match self {
            ChainFault::BadMagic => Phrase::Plain("bad magic"),
            ChainFault::BadHeader { field, kept, found } => {
                let name = if *field == 0 { "hooks " } else { "picks " };
                Phrase::Two(name, whole(*found), ", not ", whole(*kept), "")
            }
            ChainFault::CardNumber { kept, found } => {
                Phrase::Two("card ", whole(*found), ", not ", whole(*kept), "")
            }
            ChainFault::PadBit(card) => Phrase::One("pad bit in card ", whole(*card), ""),
            ChainFault::IdleHole { card, hook } => Phrase::Two(
                "card ",
                whole(*card),
                " has a hole at hook ",
                whole(*hook),
                "",
            ),
            ChainFault::HoleCount { kept, found } => {
                Phrase::Two("", whole(*found), " holes, not ", whole(*kept), "")
            }
            ChainFault::Excess { kept } => { Phrase::One("longer than ", Number::Whole(*kept), "") }
            ChainFault::Truncated { kept, found } => Phrase::Two(
                "ends at ",
                Number::Whole(*found),
                " of ",
                Number::Whole(*kept),
                "",
            ),
        }
    }
}

impl fmt::Display for ChainFault {
    ghost output = { λ fault. Some (chain_text fault) };

    fn fmt<W: fmt::Write>(&self, f: &mut fmt::Formatter<W>) -> fmt::Result {
        let phrase = self.phrase();
        write!(f, "{phrase}")
    }
}

impl Error for ChainFault {}
