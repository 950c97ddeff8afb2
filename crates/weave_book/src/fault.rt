//! What is wrong with a text that spells no weave.
ghost use Rattle.std.specs.Prelude.{◌≡◌, Some};
ghost use Rattle.mill_base.specs.Phrases.{phrase_text};
ghost use Rattle.weave_book.specs.Texts.{weave_text};

use mill_base::phrase::{Phrase, whole};
use std::error::Error;
use std::fmt;

/// The first rule that the text of a weave breaks, in the order of the variants.
#[derive(Clone, Copy, Debug, PartialEq, Eq)]
pub enum WeaveFault {
    /// The text has none of the forms of a weave.
    Unknown,
    /// The repeat of a twill or a satin, the length of a row or the number of rows is over
    /// [`MAX_WEAVE`](mill_base::limits::MAX_WEAVE).
    TooWide,
    /// A twill without marked or without unmarked cells.
    TwillZero,
    /// No satin over `n` columns has the step `s`: gcd(n, s) = 1 and 1 < s < n - 1 do not both hold.
    SatinStep { n: u32, s: u32 },
    /// Rows of different lengths.
    Ragged,
}

impl WeaveFault {
    /// The text of the fault, which takes no memory.
    pub fn phrase(&self) -> Phrase
        ensures { phrase_text result ≡ weave_text self.now }
    {
        match self {
            WeaveFault::Unknown => Phrase::Plain("weave unknown"),
            WeaveFault::TooWide => Phrase::Plain("weave too wide"),
            WeaveFault::TwillZero => Phrase::Plain("twill zero"),
            WeaveFault::SatinStep { n, s } => {
                Phrase::Two("no satin ", whole(*n), " ", whole(*s), "")
            }
            WeaveFault::Ragged => Phrase::Plain("weave ragged"),
        }
    }
}

impl fmt::Display for WeaveFault {
    ghost output = { λ fault. Some (weave_text fault) };

    fn fmt<W: fmt::Write>(&self, f: &mut fmt::Formatter<W>) -> fmt::Result {
        let phrase = self.phrase();
        write!(f, "{phrase}")
    }
}

impl Error for WeaveFault {}
