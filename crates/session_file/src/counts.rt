//! How much there is in a session. A sum over 64 bits is told as the greatest number.
ghost use Rattle.std.specs.Prelude.{◌≡◌, ℕ, ◌≤◌, length, sum_by, map};
ghost use Rattle.session_file.specs.Counts.{told};
ghost use Rattle.session_file.specs.Plans.{acts_in, commit, commits_in, motif_cells, repeats_in};

use crate::session::ShiftPlan;
use mill_base::listed::Listed;
use strokes::act::Act;
use strokes::motifs::Motifs;

/// A count of something in values of a type.
trait Measure<T> {
    ghost count: { T → ℕ };

    fn of(&self, value: &T) -> u64
        ensures { result ≡ told (count value.now) };
}

// The sum over the items of a list.
fn total<T, M: Measure<T>>(measure: &M, items: &[T]) -> u64
    ensures { result ≡ told (sum_by M.count items.now) }
{
    let mut sum: u64 = 0;
    for item in items {
        sum = sum.saturating_add(measure.of(item));
    }
    sum
}

struct Acts;

impl Measure<Listed<Act>> for Acts {
    ghost count = { λ acts. length acts };

    fn of(&self, value: &Listed<Act>) -> u64 {
        value.len() as u64
    }
}

impl Measure<ShiftPlan> for Acts {
    ghost count = { λ plan. sum_by length plan.painters };

    fn of(&self, value: &ShiftPlan) -> u64 {
        total(self, value.painters.as_slice())
    }
}

struct Commits;

impl Measure<Act> for Commits {
    ghost count = { commit };

    fn of(&self, value: &Act) -> u64 {
        match value {
            Act::Commit => 1,
            _ => 0,
        }
    }
}

impl Measure<Listed<Act>> for Commits {
    ghost count = { sum_by commit };

    fn of(&self, value: &Listed<Act>) -> u64 {
        total(self, value.as_slice())
    }
}

impl Measure<ShiftPlan> for Commits {
    ghost count = { λ plan. sum_by (sum_by commit) plan.painters };

    fn of(&self, value: &ShiftPlan) -> u64 {
        total(self, value.painters.as_slice())
    }
}

struct Repeats;

impl Measure<u32> for Repeats {
    ghost count = { λ n. n };

    fn of(&self, value: &u32) -> u64 {
        *value as u64
    }
}

impl Measure<ShiftPlan> for Repeats {
    ghost count = { λ plan. sum_by (λ n. n) plan.repeats };

    fn of(&self, value: &ShiftPlan) -> u64 {
        total(self, value.repeats.as_slice())
    }
}

/// All acts of all painters in all shifts.
pub fn count_acts(shifts: &[ShiftPlan]) -> u64
    ensures { result ≡ told (acts_in shifts.now) }
{
    total(&Acts, shifts)
}

/// Those acts that are commits.
pub fn count_commits(shifts: &[ShiftPlan]) -> u64
    ensures { result ≡ told (commits_in shifts.now) }
{
    total(&Commits, shifts)
}

/// The repeats of all looms in all shifts.
pub fn count_repeats(shifts: &[ShiftPlan]) -> u64
    ensures { result ≡ told (repeats_in shifts.now) }
{
    total(&Repeats, shifts)
}

/// The cells of all motifs, with those that are not painted.
pub fn count_cells(motifs: &Motifs) -> u64
    ensures { result ≡ told (motif_cells motifs.now) }
{
    let mut sum: u64 = 0;
    for number in 0..motifs.len() {
        let size = motifs.motif(number).size();
        sum = sum.saturating_add(size.picks as u64 * size.columns as u64);
    }
    sum
}
