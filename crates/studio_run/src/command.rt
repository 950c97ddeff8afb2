//! The words of the command line.
ghost use Rattle.std.specs.Prelude.{◌≡◌, option_copied};
ghost use Rattle.mill_io.specs.Programs.{texts};
ghost use Rattle.studio_run.specs.Commands.{cards_of_texts, command_of, command_of_four, command_of_three, command_of_two, file_name as file_name_of, is_other as is_other_text, lift_of, runs_looms as does_run_looms, word_at};

use mill_base::face::Face;
use mill_base::words::number;

/// What the words ask for. The names of the files that a command reads and writes stand among the words.
#[derive(Clone, Copy, Debug, PartialEq, Eq)]
pub enum Command {
    /// `weave SESSION`: the session is run, and its report is put out.
    Weave,
    /// `check SESSION`: the session is read, and one line on its size is put out.
    Check,
    /// `draw SESSION OUT`: the image of the drawdown of the last version is written.
    Draw,
    /// `paper SESSION OUT`: the image of the paper of the last version is written.
    Paper,
    /// `cards SESSION OUT`, with a fourth word `down` for a cloth that lies face down: the card chain of the last version is written.
    Cards(Face),
    /// `lift SESSION CHAIN OUT`: the image of the cloth that a card chain lifts is written.
    Lift,
    /// `trial N`: the trial session of that number is run, and one line on it is put out.
    Trial(u32),
}

impl Command {
    /// What the words ask for, where they are exactly those of a command, none of them is empty, and the file that is written has another
    /// name than those that the words have read. The words are this project's own.
    pub fn parse(words: &[String]) -> Option<Command>
        ensures { result ≡ command_of (texts words.now) }
    {
        match words {
            [verb, name] if !name.is_empty() => command_of_two_words(verb.as_str(), name.as_str()),
            [verb, name, second]
                if !name.is_empty()
                    && !second.is_empty()
                    && is_other(second.as_str(), name.as_str()) => {
                command_of_three_words(verb.as_str())
            }
            [verb, name, second, last]
                if !name.is_empty() && !second.is_empty() && !last.is_empty() => {
                command_of_four_words(verb.as_str(), name.as_str(), second.as_str(), last.as_str())
            }
            _ => None,
        }
    }

    /// Whether the command runs a session with its looms.
    pub fn runs_looms(self) -> bool
        ensures { result ≡ does_run_looms self }
    {
        match self {
            Command::Weave | Command::Trial(_) => true,
            _ => false,
        }
    }

    /// The name of the file that the command writes, where it writes one.
    pub fn file_name(self, words: &[String]) -> Option<&str>
        ensures { option_copied result ≡ file_name_of self (texts words.now) }
    {
        match self {
            Command::Weave | Command::Check | Command::Trial(_) => None,
            Command::Draw | Command::Paper | Command::Cards(_) => Some(word(words, 2)),
            Command::Lift => Some(word(words, 3)),
        }
    }
}

/// The word of that place, counted from 0; where there is none it is the empty one.
pub fn word(words: &[String], place: usize) -> &str
    ensures { result.now ≡ word_at place (texts words.now) }
{
    match words.get(place) {
        Some(word) => word.as_str(),
        None => "",
    }
}

fn command_of_two_words(verb: &str, name: &str) -> Option<Command>
    ensures { result ≡ command_of_two verb.now name.now }
{
    match verb {
        "weave" => Some(Command::Weave),
        "check" => Some(Command::Check),
        "trial" => Some(Command::Trial(number(name.as_bytes())?)),
        _ => None,
    }
}

fn command_of_three_words(verb: &str) -> Option<Command>
    ensures { result ≡ command_of_three verb.now }
{
    match verb {
        "draw" => Some(Command::Draw),
        "paper" => Some(Command::Paper),
        "cards" => Some(Command::Cards(Face::Up)),
        _ => None,
    }
}

fn command_of_four_words(verb: &str, session: &str, second: &str, last: &str) -> Option<Command>
    ensures { result ≡ command_of_four verb.now session.now second.now last.now }
{
    match verb {
        "lift" => lift_of_words(session, second, last),
        "cards" => cards_of_words(session, second, last),
        _ => None,
    }
}

fn lift_of_words(session: &str, chain: &str, out: &str) -> Option<Command>
    ensures { result ≡ lift_of session.now chain.now out.now }
{
    if is_other(out, session) && is_other(out, chain) {
        return Some(Command::Lift);
    }
    None
}

fn cards_of_words(session: &str, out: &str, last: &str) -> Option<Command>
    ensures { result ≡ cards_of_texts session.now out.now last.now }
{
    if last == "down" && is_other(out, session) {
        return Some(Command::Cards(Face::Down));
    }
    None
}

// The file that is written is not the one that is read.
fn is_other(written: &str, read: &str) -> bool
    ensures { result ≡ is_other_text written.now read.now }
{
    written != read
}
