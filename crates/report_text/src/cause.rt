//! Why the studio ends.
ghost use Rattle.std.specs.Prelude.{◌≡◌, codes, ◌++◌, Some};
ghost use Rattle.session_rules.specs.Texts.{lead_text};
ghost use Rattle.mill_io.specs.Names.{shown_name};
ghost use Rattle.report_text.specs.Causes.{as_is, cause_of, cause_text, session_text, status_of, words_of_cause};
ghost use Rattle.report_text.specs.inner.Tellings.{words_of};

use crate::telling::Telling;
use card_image::fault::ChainFault;
use draft_model::float_run::FloatRun;
use mill_base::memory::OutOfMemory;
use mill_base::name_text::NameText;
use mill_io::faults::Failed;
use session_rules::fault::{SessionFault, SessionFaultKind, SessionRefusal};
use std::error::Error;
use std::fmt;

const USAGE: &str =
    "usage: weave SESSION, check SESSION, draw SESSION OUT, paper SESSION OUT, cards SESSION OUT, cards SESSION OUT down, lift SESSION CHAIN OUT, trial N";

/// Why the studio ends.
#[derive(Debug, Drop)]
pub enum Cause {
    /// All was done.
    Done,
    /// The words of the command line are no command.
    Usage,
    /// The session file, or its image, breaks a rule.
    Session(SessionFault),
    /// The cloth of the opening paper has a float over its limit, of which this is the first.
    OpeningFloat(FloatRun),
    /// Memory was refused, which says nothing of the files.
    OutOfMemory,
    /// The file of this name could not be read.
    ReadFault(NameText),
    /// What the command prints or writes could not be written whole.
    WriteFault,
    /// The file of this name has more than [`MAX_FILE_BYTES`](mill_base::limits::MAX_FILE_BYTES) bytes.
    TooLong(NameText),
    /// The chain of cards is none of the design.
    Chain(ChainFault),
}

impl Cause {
    /// The exit status of the program (this project's own): 0 where all was done, and another number for each cause.
    pub fn status(&self) -> u8
        ensures { result ≡ status_of self.now }
    {
        match self {
            Cause::Done => 0,
            Cause::Usage => 1,
            Cause::Session(_) => 2,
            Cause::OpeningFloat(_) => 3,
            Cause::OutOfMemory => 4,
            Cause::ReadFault(_) => 5,
            Cause::WriteFault => 6,
            Cause::TooLong(_) => 7,
            Cause::Chain(_) => 8,
        }
    }

    // Its words in parts.
    #[tactic(auto, using(mill_io::proofs::lemmas::Shown::shown_nil))]
    pub(crate) fn telling(&self) -> Telling<'_>
        ensures words { words_of as_is result ≡ cause_text self.now }
        ensures told { words_of shown_name result ≡ words_of_cause shown_name self.now }
    {
        match self {
            Cause::Done => Telling::named("", ""),
            Cause::Usage => Telling::named(USAGE, ""),
            Cause::Session(fault) => telling_of_fault(fault),
            Cause::OpeningFloat(run) => Telling::worded("opening ", run.phrase()),
            Cause::OutOfMemory => Telling::worded("", OutOfMemory.phrase()),
            Cause::ReadFault(name) => Telling::named("cannot read ", name.as_str()),
            Cause::WriteFault => Telling::worded("", Failed.phrase()),
            Cause::TooLong(name) => Telling::named("too long: ", name.as_str()),
            Cause::Chain(fault) => Telling::worded("chain: ", fault.phrase()),
        }
    }
}

fn telling_of_fault(fault: &SessionFault) -> Telling<'_>
    ensures words { words_of as_is result ≡ session_text as_is fault.now }
    ensures told { words_of shown_name result ≡ session_text shown_name fault.now }
{
    match fault.kind {
        SessionFaultKind::NotToml => Telling::worded("session: ", fault.kind.phrase()),
        _ => Telling {
            before: "session ",
            name: fault.path.as_str(),
            between: behind_path(&fault.kind),
            phrase: fault.kind.phrase(),
        },
    }
}

fn behind_path(kind: &SessionFaultKind) -> &'static str
    ensures { result.now ≡ codes ": " ++ lead_text kind.now }
{
    match kind {
        SessionFaultKind::Image(_) => ": image ",
        _ => ": ",
    }
}

impl fmt::Display for Cause {
    ghost output = { λ cause. Some (cause_text cause) };

    fn fmt<W: fmt::Write>(&self, f: &mut fmt::Formatter<W>) -> fmt::Result {
        let telling = self.telling();
        let before = telling.before;
        let name = telling.name;
        let between = telling.between;
        let phrase = telling.phrase;
        write!(f, "{before}{name}{between}{phrase}")
    }
}

impl Error for Cause {}

impl From<SessionRefusal> for Cause {
    ghost use Rattle.std.specs.Prelude.{◌≡◌};
    ghost use Rattle.report_text.specs.Causes.{cause_of};

    ghost from_gives = { λ refusal cause. cause ≡ cause_of refusal };

    fn from(refusal: SessionRefusal) -> Cause {
        match refusal {
            SessionRefusal::Fault(fault) => Cause::Session(fault),
            SessionRefusal::ReadFault(name) => Cause::ReadFault(name),
            SessionRefusal::TooLong(name) => Cause::TooLong(name),
            SessionRefusal::OutOfMemory => Cause::OutOfMemory,
        }
    }
}

impl From<OutOfMemory> for Cause {
    ghost use Rattle.report_text.specs.declared.cause.Cause.TheVariants.{OutOfMemory};

    ghost from_gives = { λ _ cause. cause ≡ OutOfMemory };

    fn from(_error: OutOfMemory) -> Cause {
        Cause::OutOfMemory
    }
}

impl From<Failed> for Cause {
    ghost use Rattle.report_text.specs.declared.cause.Cause.TheVariants.{WriteFault};

    ghost from_gives = { λ _ cause. cause ≡ WriteFault };

    fn from(_error: Failed) -> Cause {
        Cause::WriteFault
    }
}

impl From<ChainFault> for Cause {
    ghost use Rattle.report_text.specs.declared.cause.Cause.TheVariants.{Chain};

    ghost from_gives = { λ fault cause. cause ≡ Chain fault };

    fn from(fault: ChainFault) -> Cause {
        Cause::Chain(fault)
    }
}
