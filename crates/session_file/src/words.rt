//! The words of a session file.
ghost use Rattle.std.specs.Prelude.{codes, bytes_eq};

use harness_ties::section::SectionKind;
use mill_base::face::Face;
use session_rules::form::Words;

/// `digest` or `rows`: whether a report has the rows beside their digest.
#[derive(Clone, Copy)]
pub(crate) struct ShowWords;

impl Words for ShowWords {
    ghost use Rattle.session_file.specs.Trade.{show_words, shows_rows};

    type Out = bool;

    ghost words = { show_words };

    ghost means = { shows_rows };

    fn meaning(&self, text: &str) -> Option<bool> {
        match text {
            "digest" => Some(false),
            "rows" => Some(true),
            _ => None,
        }
    }
}

/// `up` or `down`: the side of the cloth that a loom has upwards.
#[derive(Clone, Copy)]
pub(crate) struct FaceWords;

impl Words for FaceWords {
    ghost use Rattle.session_file.specs.Trade.{face_of, face_words};

    type Out = Face;

    ghost words = { face_words };

    ghost means = { face_of };

    fn meaning(&self, text: &str) -> Option<Face> {
        match text {
            "up" => Some(Face::Up),
            "down" => Some(Face::Down),
            _ => None,
        }
    }
}

/// `straight`, `reverse` or `pointed`: the order in which a section goes through its columns.
#[derive(Clone, Copy)]
pub(crate) struct KindWords;

impl Words for KindWords {
    ghost use Rattle.session_file.specs.Trade.{kind_of, kind_words};

    type Out = SectionKind;

    ghost words = { kind_words };

    ghost means = { kind_of };

    fn meaning(&self, text: &str) -> Option<SectionKind> {
        match text {
            "straight" => Some(SectionKind::Straight),
            "reverse" => Some(SectionKind::Reverse),
            "pointed" => Some(SectionKind::Pointed),
            _ => None,
        }
    }
}
