//! Why a core is not started.
ghost use Rattle.std.specs.Prelude.{◌≡◌, Some};
ghost use Rattle.studio_core.specs.Texts.{refusal_text};

use draft_model::float_run::FloatRun;
use mill_base::memory::OutOfMemory;
use std::error::Error;
use std::fmt;

/// What is answered in place of a core.
#[derive(Clone, Copy, Debug, PartialEq, Eq)]
pub enum StartRefusal {
    /// The bound paper of the opening keeps a float over its limit; this is the first.
    OpeningFloat(FloatRun),
    /// Memory was refused, which says nothing of the opening.
    OutOfMemory,
}

impl fmt::Display for StartRefusal {
    ghost output = { λ refusal. Some (refusal_text refusal) };

    fn fmt<W: fmt::Write>(&self, f: &mut fmt::Formatter<W>) -> fmt::Result {
        match self {
            StartRefusal::OpeningFloat(float) => write!(f, "opening {float}"),
            StartRefusal::OutOfMemory => {
                let phrase = OutOfMemory.phrase();
                write!(f, "{phrase}")
            }
        }
    }
}

impl Error for StartRefusal {}

impl From<OutOfMemory> for StartRefusal {
    ghost use Rattle.studio_core.specs.declared.refusal.StartRefusal.TheVariants.{OutOfMemory};

    ghost from_gives = { λ _ refusal. refusal ≡ OutOfMemory };

    fn from(_error: OutOfMemory) -> StartRefusal {
        StartRefusal::OutOfMemory
    }
}
