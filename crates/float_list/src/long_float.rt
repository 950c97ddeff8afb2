//! A float over its limit.
ghost use Rattle.std.specs.Prelude.{◌≡◌};
ghost use Rattle.float_list.specs.Floats.{limits_of};

use cloth_floats::Run;
use draft_model::design::Design;
use draft_model::float_run::FloatKind;

/// A float of a cloth that is over its limit.
#[derive(Clone, Copy, Debug, PartialEq, Eq)]
pub struct LongFloat {
    /// Along what it runs.
    pub kind: FloatKind,
    /// Its pick where it runs along the weft, its end where it runs along the warp.
    pub line: u32,
    /// Where it starts on its line, how many cells it has, and whether they are lifted.
    pub run: Run,
}

/// How many cells a float along picks, or along ends, may have.
#[derive(Clone, Copy, Debug, PartialEq, Eq)]
pub struct Limits {
    /// Along what it runs.
    pub kind: FloatKind,
    /// The limit of lifted cells.
    pub lifted: u32,
    /// The limit of unlifted cells.
    pub unlifted: u32,
}

impl Limits {
    /// The limits of a design along picks or along ends.
    pub fn of(kind: FloatKind, design: &Design) -> Limits
        ensures { result ≡ limits_of kind design.now }
    {
        match kind {
            FloatKind::Weft => Limits {
                kind,
                lifted: design.weft_back,
                unlifted: design.weft_face,
            },
            FloatKind::Warp => Limits {
                kind,
                lifted: design.warp_face,
                unlifted: design.warp_back,
            },
        }
    }
}
