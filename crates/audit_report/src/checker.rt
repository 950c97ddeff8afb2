//! A checker, which reads a report line by line.
ghost use Rattle.std.specs.Prelude.{◌≡◌, ◌<◌, ◌++◌, ℕ, List, true, false, [], drop, length, replicate, IfOk, IfSome, IfNone};
ghost use Rattle.session_file.specs.Plans.{Fits};
ghost use Rattle.shift_model.specs.Plans.{plan_of as the_plan_of};
ghost use Rattle.audit_model.specs.Pieces.{IsLine, IsPiece};
ghost use Rattle.audit_model.specs.Reads.{MayCome, Reaches};
ghost use Rattle.audit_model.specs.States.{ActsDone, CanFollow, Part, WovenBelow, face_of as the_face_of};
ghost use Rattle.audit_report.specs.Checkers.{Holds, Keeps, coming_of, state_of};
ghost use Rattle.audit_report.specs.Moves.{Goes, IsTurn};

use crate::digests::Digests;
use crate::lines::begins;
use crate::texts::{design_line, shift_head, text_line};
use mill_base::face::Face;
use mill_base::listed::Listed;
use mill_base::memory::OutOfMemory;
use point_paper::paper::Paper;
use session_file::session::{Session, ShiftPlan};
use std::alloc::Global;
use version_journal::entry::Entry;
use version_journal::run_log::Repeat;

/// Where a report has come to. `before` and `woven_before` are the entries and each loom's repeats of earlier shifts, `recent` and `woven`
/// those of this one. Beside them are kept how many acts of each painter are done, the oldest version that each loom may weave next, the
/// paper as it is now, the digests of each version, and the lines that must come next, from the place `next` on.
#[derive(Drop)]
pub struct Checker {
    pub shift: u32,
    pub before: Vec<Entry>,
    pub woven_before: Vec<Listed<Repeat>>,
    pub recent: Vec<Entry>,
    pub woven: Vec<Listed<Repeat>>,
    pub ended: bool,
    pub done: Vec<u32>,
    pub least: Vec<u32>,
    pub paper: Paper,
    pub digests: Vec<Digests>,
    pub coming: Vec<Listed<u8>>,
    pub next: usize,
}

/// The plan of a shift.
pub fn plan_of(session: &Session, shift: u32) -> &ShiftPlan
    requires { shift < length session.now.shifts }
    ensures { result.now ≡ the_plan_of session.now shift }
{
    &session.shifts.as_slice()[shift as usize]
}

/// The side of the cloth that a loom has upwards.
pub fn face_of(session: &Session, loom: u32) -> Face
    ensures { result ≡ the_face_of session.now loom }
{
    session
        .faces
        .as_slice()
        .get(loom as usize)
        .copied()
        .unwrap_or(Face::Up)
}

/// A list without a repeat for each loom.
pub fn no_repeats(alloc: Global, looms: u32) -> Result<Vec<Listed<Repeat>>, OutOfMemory>
    ensures { IfOk result (λ lists. lists.items ≡ replicate looms []) }
{
    let mut lists = Vec::new(alloc);
    for loom in 0..looms {
        let _ = loom;
        lists.push(Listed::new(alloc))?;
    }
    Ok(lists)
}

impl Checker {
    /// Before the first line.
    pub fn start(alloc: Global, session: &Session) -> Result<Checker, OutOfMemory>
        requires fits { Fits session.now }
        ensures { IfOk result (λ checker. Holds session.now checker []) }
    {
        let mut coming = Vec::new(alloc);
        coming.push(text_line(alloc, b"studio 1\n")?)?;
        coming.push(design_line(alloc, session)?)?;
        coming.push(shift_head(alloc, 0)?)?;
        let paper = session.opening.copy()?;
        let mut digests = Vec::new(alloc);
        let first = Digests::of(alloc, &session.design, &paper)?;
        digests.push(first)?;
        Ok(Checker {
            shift: 0,
            before: Vec::new(alloc),
            woven_before: no_repeats(alloc, session.looms)?,
            recent: Vec::new(alloc),
            woven: no_repeats(alloc, session.looms)?,
            ended: false,
            done: Vec::from_elem(alloc, 0u32, plan_of(session, 0).painters.len())?,
            least: Vec::from_elem(alloc, 0u32, session.looms as usize)?,
            paper,
            digests,
            coming,
            next: 0,
        })
    }

    /// Reads one more line, or a rest; false where no legal log's report has it there.
    pub fn read(
        &mut self,
        alloc: Global,
        session: &Session,
        piece: &[u8],
    ) -> Result<bool, OutOfMemory>
        requires fits { Fits session.now }
        requires part { Part session.now (state_of self.old) }
        requires keeps { Keeps session.now self.old }
        requires piece { IsPiece piece.now }
        ensures yes { IfOk result (λ b. b ≡ true → MayCome session.now (state_of self.old) (coming_of self.old) piece.now) }
        ensures no { IfOk result (λ b. b ≡ false → MayCome session.now (state_of self.old) (coming_of self.old) piece.now → ⊥) }
        ensures next { IfOk result (λ b. b ≡ true → IsLine piece.now → (bytes : List ℕ) → Reaches session.now bytes (state_of self.old) (coming_of self.old)
            → Holds session.now self.new (bytes ++ piece.now)) }
    {
        if self.next >= self.coming.len() {
            let goes = self.go_on(alloc, session, piece)?;
            return Ok(goes);
        }
        if !begins(self.coming[self.next].as_slice(), piece) {
            return Ok(false);
        }
        self.next += 1;
        Ok(true)
    }

    /// The place behind all lines that must come next.
    pub fn behind(&self) -> usize
        ensures { drop result self.now.coming.items ≡ [] }
    {
        self.coming.len()
    }

    // Goes on by a move whose first line begins with the piece.
    fn go_on(&mut self, alloc: Global, session: &Session, piece: &[u8]) -> Result<bool, OutOfMemory>
        requires fits { Fits session.now }
        requires part { Part session.now (state_of self.old) }
        requires keeps { Keeps session.now self.old }
        ensures yes { IfOk result (λ b. b ≡ true → Goes session.now self.old piece.now self.new) }
        ensures no { IfOk result (λ b. b ≡ false → CanFollow session.now (state_of self.old) piece.now → ⊥) }
    {
        if self.ended {
            return Ok(false);
        }
        if self.has_acts_left(session) {
            return self.read_act(alloc, session, piece);
        }
        if let Some(loom) = self.next_loom(session) {
            let goes = self.read_repeat(alloc, session, loom, piece)?;
            return Ok(goes);
        }
        if self.shift as usize + 1 < session.shifts.len() {
            return self.read_head(alloc, session, piece);
        }
        self.read_end(alloc, session, piece)
    }

    // Whether some painter has an act of this shift left.
    fn has_acts_left(&self, session: &Session) -> bool
        requires fits { Fits session.now }
        requires part { Part session.now (state_of self.now) }
        requires keeps { Keeps session.now self.now }
        ensures yes { result ≡ true → ActsDone session.now (state_of self.now) → ⊥ }
        ensures no { result ≡ false → ActsDone session.now (state_of self.now) }
    {
        let painters = plan_of(session, self.shift).painters.as_slice();
        for painter in 0..painters.len() {
            if self.done[painter] as usize != painters[painter].len() {
                return true;
            }
        }
        false
    }

    // The first loom that has repeats of this shift left.
    fn next_loom(&self, session: &Session) -> Option<u32>
        requires fits { Fits session.now }
        requires part { Part session.now (state_of self.now) }
        ensures some { IfSome result (λ loom. self.now.ended ≡ false → ActsDone session.now (state_of self.now) → IsTurn session.now self.now loom) }
        ensures none { IfNone result (WovenBelow session.now (state_of self.now) session.now.looms) }
    {
        let repeats = plan_of(session, self.shift).repeats.as_slice();
        for loom in 0..session.looms {
            if self.woven[loom as usize].len() != repeats[loom as usize] as usize {
                return Some(loom);
            }
        }
        None
    }
}
