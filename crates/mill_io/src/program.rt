//! Which of the programs the words of the command line call.
ghost use Rattle.std.specs.Prelude.{◌≡◌};
ghost use Rattle.mill_io.specs.Programs.{asks_help, asks_version, program_of as program_of_texts, program_of_first as program_of_first_text, program_of_word as program_of_word_text, texts};

/// What is called. Its own words stand behind the first one.
#[derive(Clone, Copy, Debug, PartialEq, Eq)]
pub enum Program {
    /// The studio, for all words that call nothing else.
    Studio,
    /// `help`, `--help`, `-h`: the page with a line for each command.
    Help,
    /// A command's name with `--help` behind it: the page of the command that the first word names.
    CommandHelp,
    /// `version`, `--version`: the version of the program and the identity of the kit that proved it.
    Version,
    /// `audit SESSION REPORT`: whether a report is one of the session.
    Audit,
    /// `recall SESSION REPORT V OUT`, with `cards`, `cards down` or `paper` behind it: a version that a report shows.
    Recall,
    /// `keep SESSION JOURNAL`: the versions of the session are kept in a journal.
    Keep,
}

/// What the words call. The words are the arguments of the command line without the program's name. It takes no memory.
pub fn program_of(words: &[String]) -> Program
    ensures { result ≡ program_of_texts (texts words.now) }
{
    match words {
        [] => Program::Studio,
        [word] => program_of_word(word.as_str()),
        [_, second] if second.as_str() == "--help" => Program::CommandHelp,
        [first, ..] => program_of_first(first.as_str()),
    }
}

fn program_of_word(word: &str) -> Program
    ensures { result ≡ program_of_word_text word.now }
{
    if is_help(word) {
        return Program::Help;
    }
    if is_version(word) {
        return Program::Version;
    }
    program_of_first(word)
}

fn is_help(word: &str) -> bool
    ensures { result ≡ asks_help word.now }
{
    word == "help" || word == "--help" || word == "-h"
}

fn is_version(word: &str) -> bool
    ensures { result ≡ asks_version word.now }
{
    word == "version" || word == "--version"
}

fn program_of_first(word: &str) -> Program
    ensures { result ≡ program_of_first_text word.now }
{
    match word {
        "audit" => Program::Audit,
        "recall" => Program::Recall,
        "keep" => Program::Keep,
        _ => Program::Studio,
    }
}
