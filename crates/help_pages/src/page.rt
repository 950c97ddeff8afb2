//! The pages of help, and the version.
ghost use Rattle.std.specs.Prelude.{◌≡◌, ◌≤◌, ◌⊎◌};
ghost use Rattle.mill_base.specs.Causes.{Rose, faults_after};
ghost use Rattle.mill_io.specs.Programs.{texts};
ghost use Rattle.mill_io.specs.Takes.{Took, TookAll, TookPart};
ghost use Rattle.report_text.specs.Causes.{line, status_of};
ghost use Rattle.help_pages.specs.Pages.{page_of as page_of_texts, page_of_command, page_of_first, page_text};

use mill_io::pieces::put_pieces;
use mill_io::program::Program;
use mill_io::sink::Sink;
use report_text::cause::Cause;
use report_text::fault_line::fault_line;

const VERSION: &str = "\
studio 1.0
proved with rattle-kit-13f logic dac8208d650f15bf
";

const COMMANDS: &str = "\
studio: the point-paper studio of a Jacquard mill

  studio weave SESSION            runs the session and puts out its report
  studio check SESSION            says that the session breaks no rule, and how large it is
  studio draw SESSION OUT         writes the cloth of the last version as an image
  studio paper SESSION OUT        writes the paper of the last version as an image
  studio cards SESSION OUT        writes the card chain of the last version
  studio cards SESSION OUT down   writes it for a cloth that lies face down
  studio lift SESSION CHAIN OUT   writes the cloth that the cards of a chain lift as an image
  studio trial N                  runs the trial session of that number and puts out one line
  studio help                     puts out this page
  studio COMMAND --help           puts out the page of a command
  studio version                  puts out the version of the program and of what proved it

OUT has to be another name than SESSION and CHAIN. What cannot be done is told in one line on standard error,
and by the exit status: 1 no command, 2 the session breaks a rule, 3 its opening keeps a float over its limit,
4 out of memory, 5 a file cannot be read, 6 output cannot be written, 7 a file is too long, 8 no chain of the design.
";

const WEAVE: &str = "\
studio weave SESSION

Runs the session: does its acts, refuses each commit whose cloth would keep a float over its limit, weaves the
repeats of its looms, and puts out the report of all that.

  studio weave examples/plain.toml
";

const CHECK: &str = "\
studio check SESSION

Reads the session and its image and binds its opening. Puts out one line: how large it is, where it breaks no rule
and its opening keeps no float over its limit. Nothing is woven.

  studio check examples/plain.toml
";

const DRAW: &str = "\
studio draw SESSION OUT

Does the acts of the session in their plain order and writes the cloth of the last version into the file OUT, as a
palette image (TIFF) with a pixel for each crossing of the threads.

  studio draw examples/damask.toml cloth.tif
";

const PAPER: &str = "\
studio paper SESSION OUT

Does the acts of the session in their plain order and writes the paper of the last version into the file OUT, as a
palette image (TIFF) in the colours of the book. OUT may be the image that the session opens with.

  studio paper examples/damask.toml paper.tif
";

const CARDS: &str = "\
studio cards SESSION OUT
studio cards SESSION OUT down

Does the acts of the session in their plain order and writes the card chain of the last version into the file OUT,
for a cloth that is woven face up, or with the word down behind it for one that is woven face down.

  studio cards examples/damask.toml damask.cards
  studio cards examples/damask.toml damask.cards down
";

const LIFT: &str = "\
studio lift SESSION CHAIN OUT

Reads the card chain CHAIN for the design of the session and writes the cloth that its cards lift into the file OUT,
as a palette image (TIFF). OUT has to be another name than SESSION and CHAIN.

  studio lift examples/damask.toml damask.cards cloth.tif
";

const TRIAL: &str = "\
studio trial N

Runs the trial session of that number, which needs no file, and puts out one line on it. N is from 0 to 4294967295.

  studio trial 1
";

/// A page that the program puts out.
#[derive(Clone, Copy, Debug, PartialEq, Eq)]
pub enum Page {
    /// A line for each command.
    Commands,
    /// The version of the program, and the kit that proved it.
    Version,
    Weave,
    Check,
    Draw,
    Paper,
    Cards,
    Lift,
    Trial,
}

/// The page that the words ask for, where they ask for one that is there.
pub fn page_of(program: Program, words: &[String]) -> Option<Page>
    ensures { result ≡ page_of_texts program (texts words.now) }
{
    match program {
        Program::Help => Some(Page::Commands),
        Program::Version => Some(Page::Version),
        Program::CommandHelp => page_of_first_word(words),
        _ => None,
    }
}

fn page_of_first_word(words: &[String]) -> Option<Page>
    ensures { result ≡ page_of_first (texts words.now) }
{
    match words {
        [] => None,
        [name, ..] => page_of_name(name.as_str()),
    }
}

fn page_of_name(name: &str) -> Option<Page>
    ensures { result ≡ page_of_command name.now }
{
    match name {
        "weave" => Some(Page::Weave),
        "check" => Some(Page::Check),
        "draw" => Some(Page::Draw),
        "paper" => Some(Page::Paper),
        "cards" => Some(Page::Cards),
        "lift" => Some(Page::Lift),
        "trial" => Some(Page::Trial),
        _ => None,
    }
}

impl Page {
    /// What the page says.
    pub fn text(self) -> &'static str
        ensures { result.now ≡ page_text self }
    {
        match self {
            Page::Commands => COMMANDS,
            Page::Version => VERSION,
            Page::Weave => WEAVE,
            Page::Check => CHECK,
            Page::Draw => DRAW,
            Page::Paper => PAPER,
            Page::Cards => CARDS,
            Page::Lift => LIFT,
            Page::Trial => TRIAL,
        }
    }
}

/// Puts a page out. The answer is that all was done, or that the page could not be written whole, which `err` then gets a line on.
pub fn put_page<K: Sink, E: Sink>(page: Page, out: &mut K, err: &mut E) -> Cause
    ensures put { (result ≡ Cause.Done) × TookAll (K.taken out.old) (K.taken out.new) (page_text page) × (K.faults out.new ≡ K.faults out.old)
        ⊎ (result ≡ Cause.WriteFault) × TookPart (K.taken out.old) (K.taken out.new) (page_text page) × Rose (K.faults out.old) (K.faults out.new) }
    ensures later { (K.faults out.old ≤ K.faults out.new) × (E.faults err.old ≤ E.faults err.new) }
    ensures silent { result ≡ Cause.Done → (E.taken err.new ≡ E.taken err.old) × (E.faults err.new ≡ E.faults err.old) }
    ensures line { (TookAll (E.taken err.old) (E.taken err.new) (line result) × (E.faults err.new ≡ E.faults err.old))
        ⊎ (Rose (E.faults err.old) (E.faults err.new) × TookPart (E.taken err.old) (E.taken err.new) (line result)) }
{
    let cause = match put_pieces(out, page.text().as_bytes()) {
        Ok(()) => Cause::Done,
        Err(_) => Cause::WriteFault,
    };
    fault_line(&cause, err);
    cause
}
