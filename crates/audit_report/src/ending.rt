//! The ends of shifts and of the report.
ghost use Rattle.std.specs.Prelude.{◌≡◌, ◌<◌, ◌+◌, ◌++◌, true, false, [], length, map, slice_index_or, IfOk, OnOk};
ghost use Rattle.std.specs.List.{range_with_len};
ghost use Rattle.session_file.specs.Plans.{Fits};
ghost use Rattle.audit_model.specs.Audits.{Begins};
ghost use Rattle.audit_model.specs.Lines.{end_line as end_line_of, shift_head as shift_head_of};
ghost use Rattle.audit_model.specs.States.{AllDone, CanBegin, Part, entries_of, go, log_of};
ghost use Rattle.audit_model.specs.States.Move.{Begin};
ghost use Rattle.audit_report.specs.Checkers.{Keeps, coming_of, state_of};
ghost use Rattle.audit_report.specs.Moves.{Goes};

use crate::checker::{Checker, no_repeats, plan_of};
use crate::lines::begins;
use crate::texts::{end_line, shift_head};
use mill_base::listed::Listed;
use mill_base::memory::OutOfMemory;
use session_file::session::Session;
use std::alloc::Global;
use std::mem;
use version_journal::run_log::{Repeat, RunLog};

impl Checker {
    /// Reads the line that the next shift begins with, once all of this one is done.
    pub fn read_head(
        &mut self,
        alloc: Global,
        session: &Session,
        piece: &[u8],
    ) -> Result<bool, OutOfMemory>
        requires fits { Fits session.now }
        requires part { Part session.now (state_of self.old) }
        requires keeps { Keeps session.now self.old }
        requires can { CanBegin session.now (state_of self.old) }
        ensures yes { IfOk result (λ b. b ≡ true → Goes session.now self.old piece.now self.new) }
        ensures no { IfOk result (λ b. b ≡ false → Begins piece.now (shift_head_of (self.old.shift + 1)) → ⊥) }
    {
        let line = shift_head(alloc, self.shift + 1)?;
        if !begins(line.as_slice(), piece) {
            return Ok(false);
        }
        self.begin_shift(alloc, session, piece)?;
        Ok(true)
    }

    // Begins the next shift.
    fn begin_shift(
        &mut self,
        alloc: Global,
        session: &Session,
        piece: &[u8],
    ) -> Result<(), OutOfMemory>
        requires fits { Fits session.now }
        requires part { Part session.now (state_of self.old) }
        requires keeps { Keeps session.now self.old }
        requires can { CanBegin session.now (state_of self.old) }
        requires first { Begins piece.now (shift_head_of (self.old.shift + 1)) }
        ensures { OnOk result (Goes session.now self.old piece.now self.new) }
    {
        let newest = self.newest(session);
        self.before.extend_from_slice(&self.recent)?;
        join_repeats(alloc, &mut self.woven_before, &mut self.woven)?;
        self.shift += 1;
        self.recent = Vec::new(alloc);
        self.woven = no_repeats(alloc, session.looms)?;
        self.done = Vec::from_elem(alloc, 0u32, plan_of(session, self.shift).painters.len())?;
        self.least = Vec::from_elem(alloc, newest, session.looms as usize)?;
        self.next = self.behind();
        Ok(())
    }

    /// The number of the newest version.
    pub fn newest(&self, session: &Session) -> u32
        requires fits { Fits session.now }
        requires part { Part session.now (state_of self.now) }
        requires keeps { Keeps session.now self.now }
        ensures { result + 1 ≡ length self.now.digests.items }
    {
        let count = self.digests.len();
        count as u32 - 1
    }

    /// Reads the last line, once all is done.
    pub fn read_end(
        &mut self,
        alloc: Global,
        session: &Session,
        piece: &[u8],
    ) -> Result<bool, OutOfMemory>
        requires fits { Fits session.now }
        requires part { Part session.now (state_of self.old) }
        requires keeps { Keeps session.now self.old }
        requires going { self.old.ended ≡ false }
        requires done { AllDone session.now (state_of self.old) }
        requires last { self.old.shift + 1 ≡ length session.now.shifts }
        ensures yes { IfOk result (λ b. b ≡ true → Goes session.now self.old piece.now self.new) }
        ensures no { IfOk result (λ b. b ≡ false → Begins piece.now (end_line_of (entries_of (state_of self.old))) → ⊥) }
    {
        let line = end_line(alloc, self.newest(session))?;
        if !begins(line.as_slice(), piece) {
            return Ok(false);
        }
        self.ended = true;
        self.next = self.behind();
        Ok(true)
    }

    /// The log of all that was read.
    pub fn into_log(self, alloc: Global, session: &Session) -> Result<RunLog, OutOfMemory>
        requires part { Part session.now (state_of self) }
        requires keeps { Keeps session.now self }
        ensures { IfOk result (λ log. log ≡ log_of session.now (state_of self)) }
    {
        let Checker {
            mut before,
            mut woven_before,
            recent,
            mut woven,
            ..
        } = self;
        before.extend_from_slice(&recent)?;
        join_repeats(alloc, &mut woven_before, &mut woven)?;
        Ok(RunLog {
            entries: Listed::of(before),
            looms: Listed::of(woven_before),
        })
    }
}

// Joins the repeats of each loom.
fn join_repeats(
    alloc: Global,
    before: &mut Vec<Listed<Repeat>>,
    woven: &mut Vec<Listed<Repeat>>,
) -> Result<(), OutOfMemory>
    requires { length before.old.items ≡ length woven.old.items }
    ensures { OnOk result (before.new.items ≡ map (λ loom. slice_index_or before.old.items loom [] ++ slice_index_or woven.old.items loom []) (range_with_len 0 (length before.old.items))) }
{
    for loom in 0..before.len() {
        let old = mem::replace(&mut before[loom], Listed::new(alloc));
        let new = mem::replace(&mut woven[loom], Listed::new(alloc));
        before[loom] = joined(old, new)?;
    }
    Ok(())
}

fn joined(old: Listed<Repeat>, new: Listed<Repeat>) -> Result<Listed<Repeat>, OutOfMemory>
    ensures { IfOk result (λ all. all ≡ old ++ new) }
{
    let mut all = old.into_vec();
    let mut more = new.into_vec();
    all.append(&mut more)?;
    Ok(Listed::of(all))
}
