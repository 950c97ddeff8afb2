//! What is wrong with a session file.
ghost use Rattle.std.specs.Prelude.{◌≡◌, Some};
ghost use Rattle.mill_base.specs.Phrases.{phrase_text};
ghost use Rattle.session_rules.specs.Texts.{fault_text, kind_text, lead_text, refusal_text, rest_text};
ghost use Rattle.session_rules.specs.declared.fault.SessionRefusal.TheVariants.{OutOfMemory};

use casting_out::fault::CastingFault;
use harness_ties::fault::TieFault;
use mill_base::memory::OutOfMemory;
use mill_base::name_text::NameText;
use mill_base::phrase::{Number, Phrase, whole};
use std::alloc::AllocError;
use std::error::Error;
use std::fmt;
use strokes::fault::{ActFault, MotifFault};
use tiff_palette::TiffFault;
use weave_book::fault::WeaveFault;

/// The first rule that a session file breaks, and the path of the value that breaks it.
#[derive(Debug, Drop)]
pub struct SessionFault {
    /// The keys from the top table on with dots between them, and places of lists in square brackets, counted from 0.
    pub path: NameText,
    pub kind: SessionFaultKind,
}

/// How a session file breaks a rule.
#[derive(Clone, Copy, Debug, PartialEq, Eq)]
pub enum SessionFaultKind {
    /// The bytes are no TOML document.
    NotToml,
    /// A key that has to be there is absent.
    Missing,
    /// A value of another TOML type.
    Kind,
    /// A text that is none of the words that may stand there.
    Choice,
    /// A whole number that is less than the least or more than the greatest.
    Range {
        value: i64,
        least: i64,
        greatest: i64,
    },
    /// A list with fewer or with more items.
    Count {
        found: u64,
        least: u64,
        greatest: u64,
    },
    /// A name that is not spelled as names are, or that is taken.
    Name,
    /// The whole session has `found` of a thing, and `kept` are the most.
    Limit {
        kept: u64,
        found: u64,
    },
    /// A key that the table does not have.
    UnknownKey,
    Weave(WeaveFault),
    Casting(CastingFault),
    Tie(TieFault),
    Motif(MotifFault),
    Act(ActFault),
    Image(TiffFault),
    /// The size of an image that is not the design's.
    ImageSize {
        columns: u32,
        picks: u32,
    },
    /// The pixel at this place of the paper is no colour of the book.
    ImageColour {
        column: u32,
        pick: u32,
        found: u8,
    },
}

impl SessionFaultKind {
    /// What the text of the fault begins with, before its phrase.
    pub fn lead(&self) -> &'static str
        ensures { result.now ≡ lead_text self.now }
    {
        match self {
            SessionFaultKind::Image(_) => "image ",
            _ => "",
        }
    }

    /// The text of the fault behind its lead, which takes no memory. The words are this project's own.
    pub fn phrase(&self) -> Phrase
        ensures { phrase_text result ≡ rest_text self.now }
    {
        match self {
            SessionFaultKind::NotToml => Phrase::Plain("not toml"),
            SessionFaultKind::Missing => Phrase::Plain("missing"),
            SessionFaultKind::Kind => Phrase::Plain("wrong kind"),
            SessionFaultKind::Choice => Phrase::Plain("unknown word"),
            SessionFaultKind::Range {
                value,
                least,
                greatest,
            } => Phrase::Three(
                "",
                Number::Signed(*value),
                " not in ",
                Number::Signed(*least),
                " to ",
                Number::Signed(*greatest),
                "",
            ),
            SessionFaultKind::Count {
                found,
                least,
                greatest,
            } => Phrase::Three(
                "",
                Number::Whole(*found),
                " items, not ",
                Number::Whole(*least),
                " to ",
                Number::Whole(*greatest),
                "",
            ),
            SessionFaultKind::Name => Phrase::Plain("bad name"),
            SessionFaultKind::Limit { kept, found } => {
                Phrase::Two(
                    "",
                    Number::Whole(*found),
                    " over ",
                    Number::Whole(*kept),
                    "",
                )
            }
            SessionFaultKind::UnknownKey => Phrase::Plain("unknown key"),
            SessionFaultKind::Weave(fault) => fault.phrase(),
            SessionFaultKind::Casting(fault) => fault.phrase(),
            SessionFaultKind::Tie(fault) => fault.phrase(),
            SessionFaultKind::Motif(fault) => fault.phrase(),
            SessionFaultKind::Act(fault) => fault.phrase(),
            SessionFaultKind::Image(fault) => fault.phrase(),
            SessionFaultKind::ImageSize { columns, picks } => {
                Phrase::Two("image is ", whole(*columns), " by ", whole(*picks), "")
            }
            SessionFaultKind::ImageColour {
                column,
                pick,
                found,
            } => Phrase::Three(
                "image colour ",
                Number::Whole(*found as u64),
                " at ",
                whole(*column),
                " ",
                whole(*pick),
                "",
            ),
        }
    }
}

impl fmt::Display for SessionFaultKind {
    ghost output = { λ kind. Some (kind_text kind) };

    fn fmt<W: fmt::Write>(&self, f: &mut fmt::Formatter<W>) -> fmt::Result {
        let lead = self.lead();
        let phrase = self.phrase();
        write!(f, "{lead}{phrase}")
    }
}

impl fmt::Display for SessionFault {
    ghost output = { λ fault. Some (fault_text fault) };

    fn fmt<W: fmt::Write>(&self, f: &mut fmt::Formatter<W>) -> fmt::Result {
        let path = self.path.as_str();
        let kind = self.kind;
        write!(f, "{path}: {kind}")
    }
}

impl Error for SessionFault {}

/// Why a session was not read.
#[derive(Debug, Drop)]
pub enum SessionRefusal {
    /// A file breaks a rule.
    Fault(SessionFault),
    /// The file of this name could not be read.
    ReadFault(NameText),
    /// The file of this name has more than [`MAX_FILE_BYTES`](mill_base::limits::MAX_FILE_BYTES) bytes.
    TooLong(NameText),
    /// Memory was refused, which says nothing of the files.
    OutOfMemory,
}

impl fmt::Display for SessionRefusal {
    ghost output = { λ refusal. Some (refusal_text refusal) };

    fn fmt<W: fmt::Write>(&self, f: &mut fmt::Formatter<W>) -> fmt::Result {
        match self {
            SessionRefusal::Fault(fault) => write!(f, "{fault}"),
            SessionRefusal::ReadFault(name) => {
                let name = name.as_str();
                write!(f, "cannot read {name}")
            }
            SessionRefusal::TooLong(name) => {
                let name = name.as_str();
                write!(f, "too long: {name}")
            }
            SessionRefusal::OutOfMemory => {
                let phrase = OutOfMemory.phrase();
                write!(f, "{phrase}")
            }
        }
    }
}

impl Error for SessionRefusal {}

impl From<OutOfMemory> for SessionRefusal {
    ghost use Rattle.session_rules.specs.declared.fault.SessionRefusal.TheVariants.{OutOfMemory};

    ghost from_gives = { λ _ refusal. refusal ≡ OutOfMemory };

    fn from(_error: OutOfMemory) -> SessionRefusal {
        SessionRefusal::OutOfMemory
    }
}

impl From<AllocError> for SessionRefusal {
    ghost use Rattle.session_rules.specs.declared.fault.SessionRefusal.TheVariants.{OutOfMemory};

    ghost from_gives = { λ _ refusal. refusal ≡ OutOfMemory };

    fn from(_error: AllocError) -> SessionRefusal {
        SessionRefusal::OutOfMemory
    }
}
