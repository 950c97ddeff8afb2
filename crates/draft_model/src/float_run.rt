//! A float of a cloth.
ghost use Rattle.std.specs.Prelude.{◌≡◌, Some};
ghost use Rattle.mill_base.specs.Phrases.{phrase_text};
ghost use Rattle.draft_model.specs.Texts.{float_text, kind_word, end_word};

use mill_base::phrase::{Phrase, whole};
use std::fmt;

/// Along what a float runs.
#[derive(Clone, Copy, Debug, PartialEq, Eq)]
pub enum FloatKind {
    /// Along a pick, over ends.
    Weft,
    /// Along an end, over picks.
    Warp,
}

/// A maximal run of equal cells along one line of a cloth, followed round the edge of the repeat.
///
/// `line` is the pick of a weft float and the end of a warp float; `start` is the place of its first cell on the line, and `length` its
/// number of cells. A line of equal cells is one endless float, with start 0 and the whole length.
#[derive(Clone, Copy, Debug, PartialEq, Eq)]
pub struct FloatRun {
    pub kind: FloatKind,
    pub line: u32,
    pub start: u32,
    pub length: u32,
    pub endless: bool,
}

impl FloatRun {
    /// The float in words, as a refused commit is told: `weft 2 start 9 length 16`, and `endless` behind it where it is. It takes no
    /// memory.
    pub fn phrase(&self) -> Phrase
        ensures { phrase_text result ≡ float_text self.now }
    {
        let end = if self.endless { " endless" } else { "" };
        Phrase::Three(
            word_of(self.kind),
            whole(self.line),
            " start ",
            whole(self.start),
            " length ",
            whole(self.length),
            end,
        )
    }
}

fn word_of(kind: FloatKind) -> &'static str
    ensures { result.now ≡ kind_word kind }
{
    match kind {
        FloatKind::Weft => "weft ",
        FloatKind::Warp => "warp ",
    }
}

impl fmt::Display for FloatRun {
    ghost output = { λ run. Some (float_text run) };

    fn fmt<W: fmt::Write>(&self, f: &mut fmt::Formatter<W>) -> fmt::Result {
        let phrase = self.phrase();
        write!(f, "{phrase}")
    }
}
