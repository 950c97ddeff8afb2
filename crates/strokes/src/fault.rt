//! What is wrong with texts that spell no act and no motif.
ghost use Rattle.std.specs.Prelude.{◌≡◌, Some};
ghost use Rattle.mill_base.specs.Phrases.{phrase_text};
ghost use Rattle.strokes.specs.Texts.{act_text, motif_text};
ghost use Rattle.strokes.specs.declared.fault.MotifFault.TheVariants.{OutOfMemory};

use mill_base::memory::OutOfMemory;
use mill_base::phrase::{Phrase, whole};
use std::error::Error;
use std::fmt;

/// The first rule that the text of an act breaks, in the order of the variants. Words are counted from 0.
#[derive(Clone, Copy, Debug, PartialEq, Eq)]
pub enum ActFault {
    /// The first word, of place 0, is that of no act, or this is the place of the first word that is missing or
    /// superfluous.
    Word(u32),
    /// The word at this place should be a number.
    Number(u32),
    /// The colour is not in the book.
    NoColour,
    /// No motif has the name.
    NoMotif,
    /// A column or a pick is not on the paper.
    OutOfPaper,
}

/// The first rule that the rows of a motif break. Rows are counted from the lowest pick, words from the left, both from
/// 0; a place above 4,294,967,295 is told as that number.
#[derive(Clone, Copy, Debug, PartialEq, Eq)]
pub enum MotifFault {
    /// A word is neither a number nor `.`.
    Token { row: u32, word: u32 },
    /// A colour is not in the book.
    Colour { row: u32, word: u32 },
    /// A row has no word, or another count of words than row 0.
    Ragged { row: u32 },
    /// The motif has more columns or more picks than the paper.
    TooLarge,
    /// Memory was refused, which says nothing of the rows.
    OutOfMemory,
}

impl ActFault {
    /// The text of the fault, which takes no memory.
    pub fn phrase(&self) -> Phrase
        ensures { phrase_text result ≡ act_text self.now }
    {
        match self {
            ActFault::Word(place) => Phrase::One("act word ", whole(*place), ""),
            ActFault::Number(place) => Phrase::One("act number ", whole(*place), ""),
            ActFault::NoColour => Phrase::Plain("act colour"),
            ActFault::NoMotif => Phrase::Plain("act motif"),
            ActFault::OutOfPaper => Phrase::Plain("act out of paper"),
        }
    }
}

impl MotifFault {
    /// The text of the fault, which takes no memory.
    pub fn phrase(&self) -> Phrase
        ensures { phrase_text result ≡ motif_text self.now }
    {
        match self {
            MotifFault::Token { row, word } => {
                Phrase::Two("motif row ", whole(*row), " word ", whole(*word), "")
            }
            MotifFault::Colour { row, word } => {
                Phrase::Two("motif row ", whole(*row), " word ", whole(*word), " colour")
            }
            MotifFault::Ragged { row } => Phrase::One("motif row ", whole(*row), " ragged"),
            MotifFault::TooLarge => Phrase::Plain("motif too large"),
            MotifFault::OutOfMemory => Phrase::Plain("out of memory"),
        }
    }
}

impl fmt::Display for ActFault {
    ghost output = { λ fault. Some (act_text fault) };

    fn fmt<W: fmt::Write>(&self, f: &mut fmt::Formatter<W>) -> fmt::Result {
        let phrase = self.phrase();
        write!(f, "{phrase}")
    }
}

impl fmt::Display for MotifFault {
    ghost output = { λ fault. Some (motif_text fault) };

    fn fmt<W: fmt::Write>(&self, f: &mut fmt::Formatter<W>) -> fmt::Result {
        let phrase = self.phrase();
        write!(f, "{phrase}")
    }
}

impl Error for ActFault {}

impl Error for MotifFault {}

impl From<OutOfMemory> for MotifFault {
    ghost from_gives = { λ _ e. e ≡ OutOfMemory };

    fn from(_error: OutOfMemory) -> MotifFault {
        MotifFault::OutOfMemory
    }
}
