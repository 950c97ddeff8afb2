//! The words of a cause in parts, which take no memory.
ghost use Rattle.std.specs.Prelude.{◌≡◌, ◌++◌};
ghost use Rattle.mill_base.specs.Phrases.{phrase_text};
ghost use Rattle.mill_io.specs.Names.{shown_name};
ghost use Rattle.report_text.specs.Causes.{as_is};
ghost use Rattle.report_text.specs.inner.Tellings.{words_of};

use mill_base::phrase::Phrase;

/// A text, a name, another text and a phrase, which are told one after another.
#[derive(Clone, Copy, Debug)]
pub struct Telling<'a> {
    pub before: &'static str,
    pub name: &'a str,
    pub between: &'static str,
    pub phrase: Phrase,
}

impl<'a> Telling<'a> {
    /// A text and a phrase behind it.
    pub fn worded(before: &'static str, phrase: Phrase) -> Telling<'a>
        ensures words { words_of as_is result ≡ before.now ++ phrase_text phrase }
        ensures told { words_of shown_name result ≡ before.now ++ phrase_text phrase }
    {
        Telling {
            before,
            name: "",
            between: "",
            phrase,
        }
    }

    /// A text and a name behind it.
    pub fn named(before: &'static str, name: &'a str) -> Telling<'a>
        ensures words { words_of as_is result ≡ before.now ++ name.now }
        ensures told { words_of shown_name result ≡ before.now ++ shown_name name.now }
    {
        Telling {
            before,
            name,
            between: "",
            phrase: Phrase::Plain(""),
        }
    }
}
