//! How much a session states for a loom.
ghost use Rattle.std.specs.Prelude.{◌≡◌, ◌<◌};
ghost use Rattle.session_file.specs.Plans.{Fits};
ghost use Rattle.loom_threads.specs.Looms.{repeats_of};

use session_file::session::Session;

/// The repeats of a loom in all shifts.
pub fn count_repeats(session: &Session, number: u32) -> u32
    requires fits { Fits session.now }
    requires number { number < session.now.looms }
    ensures { result ≡ repeats_of session.now number }
{
    let mut sum = 0;
    for plan in session.shifts.as_slice() {
        sum += plan.repeats.as_slice()[number as usize];
    }
    sum
}
