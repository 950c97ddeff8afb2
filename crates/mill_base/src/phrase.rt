//! Texts of constant words and numbers, which take no memory.
ghost use Rattle.std.specs.Prelude.{◌≡◌, Some};
ghost use Rattle.mill_base.specs.Phrases.{number_text, phrase_text};

use std::fmt;

/// A number of a phrase, told in decimal digits without leading zeros, behind a minus sign where it is below 0.
#[derive(Clone, Copy, Debug, PartialEq, Eq)]
pub enum Number {
    Whole(u64),
    Signed(i64),
}

/// Constant words with up to three numbers between them: the text of a fault. It is told as its words and numbers one after
/// another, with nothing added, so each space stands in the words.
#[derive(Clone, Copy, Debug, PartialEq, Eq)]
pub enum Phrase {
    Plain(&'static str),
    One(&'static str, Number, &'static str),
    Two(&'static str, Number, &'static str, Number, &'static str),
    Three(&'static str, Number, &'static str, Number, &'static str, Number, &'static str),
}

/// A number of 32 bits as a number of a phrase.
pub fn whole(number: u32) -> Number
    ensures { result ≡ Number.Whole number }
{
    Number::Whole(number as u64)
}

impl fmt::Display for Number {
    ghost output = { λ n. Some (number_text n) };

    fn fmt<W: fmt::Write>(&self, f: &mut fmt::Formatter<W>) -> fmt::Result {
        match self {
            Number::Whole(number) => write!(f, "{number}"),
            Number::Signed(number) => write!(f, "{number}"),
        }
    }
}

impl fmt::Display for Phrase {
    ghost output = { λ p. Some (phrase_text p) };

    fn fmt<W: fmt::Write>(&self, f: &mut fmt::Formatter<W>) -> fmt::Result {
        match self {
            Phrase::Plain(a) => write!(f, "{a}"),
            Phrase::One(a, m, b) => write!(f, "{a}{m}{b}"),
            Phrase::Two(a, m, b, n, c) => write!(f, "{a}{m}{b}{n}{c}"),
            Phrase::Three(a, m, b, n, c, o, d) => write!(f, "{a}{m}{b}{n}{c}{o}{d}"),
        }
    }
}
