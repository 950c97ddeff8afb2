//! Which act of a session is a next one.
ghost use Rattle.std.specs.Prelude.{◌≡◌, ◌-◌, ◌+◌, ◌*◌, ◌^◌, ◌<◌, ◌++◌, ◌∷◌, [], List, true, IfOk, length, slice_index, slice_set};
ghost use Rattle.block_journal.specs.declared.mark.Mark.{Mark as MarkOf};
ghost use Rattle.session_file.specs.Plans.{Fits};
ghost use Rattle.version_keep.specs.Blocks.{is_next as is_the_next, lacks_acts as the_lacks_acts, is_next_of_painter, marks_of};
ghost use Rattle.version_keep.specs.Doings.{AreCounts, AreStarts, IsMarkOf};

use crate::acting::{acts_of, plan_of};
use block_journal::mark::Mark;
use mill_base::memory::OutOfMemory;
use session_file::counts::count_acts;
use session_file::session::Session;
use std::alloc::Global;
use studio_core::tile_core::Core;

// how many painters a shift has at most, as a place in a table of counts
const PAINTERS: usize = 64;

/// For each shift, and for the end, how many acts there are in the shifts below.
pub fn starts_of(alloc: Global, session: &Session) -> Result<Vec<u32>, OutOfMemory>
    requires { Fits session.now }
    ensures { IfOk result (λ starts. AreStarts session.now starts.items) }
{
    let shifts = session.shifts.as_slice();
    let mut starts = Vec::with_capacity(alloc, shifts.len() + 1)?;
    for shift in 0..shifts.len() + 1 {
        starts.push(count_acts(&shifts[..shift]) as u32)?;
    }
    Ok(starts)
}

/// No act is marked.
pub fn no_counts(alloc: Global, session: &Session) -> Result<Vec<u32>, OutOfMemory>
    requires { Fits session.now }
    ensures { IfOk result (λ counts. AreCounts session.now [] counts.items) }
{
    let counts = Vec::from_elem(alloc, 0u32, PAINTERS * session.shifts.len())?;
    Ok(counts)
}

/// Whether the mark is of the next act of a painter, in the first shift that still lacks acts, after so many marks.
pub fn is_next(session: &Session, starts: &[u32], counts: &[u32], core: &Core, mark: &Mark) -> bool
    requires fits { Fits session.now }
    requires starts { AreStarts session.now starts.now }
    requires counts { AreCounts session.now (marks_of core.now.entries) counts.now }
    ensures next { result ≡ is_the_next session.now (marks_of core.now.entries) mark.now }
    ensures mark { result ≡ true → IsMarkOf session.now mark.now }
{
    if mark.shift as usize >= session.shifts.len() {
        return false;
    }
    let count = core.entries().len();
    if !lacks_acts(session, starts, mark.shift, count) {
        return false;
    }
    is_next_act(session, counts, core, mark)
}

// Whether a shift is the first that lacks acts, after so many marks.
fn lacks_acts(session: &Session, starts: &[u32], shift: u32, count: usize) -> bool
    requires starts { AreStarts session.now starts.now }
    requires shift { shift < length session.now.shifts }
    ensures { result ≡ the_lacks_acts session.now shift count }
{
    let at = shift as usize;
    count < starts[at + 1] as usize && !(count < starts[at] as usize)
}

// Whether the mark's number is the one behind its painter's acts so far.
fn is_next_act(session: &Session, counts: &[u32], core: &Core, mark: &Mark) -> bool
    requires fits { Fits session.now }
    requires shift { mark.now.shift < length session.now.shifts }
    requires counts { AreCounts session.now (marks_of core.now.entries) counts.now }
    ensures next { result ≡ is_next_of_painter session.now (marks_of core.now.entries) mark.now }
    ensures mark { result ≡ true → IsMarkOf session.now mark.now }
{
    let plan = plan_of(session, mark.shift);
    if mark.painter as usize >= plan.painters.len() {
        return false;
    }
    let acts = acts_of(plan, mark.painter).len();
    let count = counts[PAINTERS * mark.shift as usize + mark.painter as usize];
    (count as usize) < acts && mark.number == count + 1
}

/// Counts the act of a mark.
pub(crate) fn count_mark(session: &Session, counts: &mut Vec<u32>, mark: &Mark)
    requires fits { Fits session.now }
    requires mark { IsMarkOf session.now mark.now }
    requires long { length counts.old.items ≡ 64 * length session.now.shifts }
    requires small { slice_index counts.old.items (64 * mark.now.shift + mark.now.painter) < 2 ^ 32 - 1 }
    ensures { (marks : List MarkOf) → AreCounts session.now marks counts.old.items → AreCounts session.now (marks ++ mark.now ∷ []) counts.new.items }
{
    know_painter(session, mark);
    let at = PAINTERS * mark.shift as usize + mark.painter as usize;
    let count = count_at(counts, at);
    set_count(counts, at, count + 1);
}

// Tells a proof that there are not too many painters.
fn know_painter(session: &Session, mark: &Mark)
    requires fits { Fits session.now }
    requires mark { IsMarkOf session.now mark.now }
    ensures { mark.now.painter < 64 }
{}

fn count_at(counts: &Vec<u32>, at: usize) -> u32
    requires { at < length counts.now.items }
    ensures { result ≡ slice_index counts.now.items at }
{
    counts[at]
}

fn set_count(counts: &mut Vec<u32>, at: usize, count: u32)
    requires { at < length counts.old.items }
    ensures { counts.new.items ≡ slice_set counts.old.items at count }
{
    counts[at] = count;
}
