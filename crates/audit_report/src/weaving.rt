//! The repeats that may come next.
ghost use Rattle.std.specs.Prelude.{◌≡◌, ◌<◌, ◌≤◌, ◌+◌, ℕ, true, false, length, slice_get, slice_index, slice_set, Some, None, if◌then◌else◌, IfOk, IfSome, IfNone, OnOk};
ghost use Rattle.version_journal.specs.declared.run_log.Repeat.{Repeat as ARepeat};
ghost use Rattle.session_file.specs.Plans.{Fits};
ghost use Rattle.audit_model.specs.Audits.{Begins};
ghost use Rattle.audit_model.specs.Lines.{shown_lines};
ghost use Rattle.audit_model.specs.States.{CanWeave, Part, face_of as the_face_of, go, repeats_of, versions_of};
ghost use Rattle.audit_model.specs.States.Move.{Weave};
ghost use Rattle.report_text.specs.Reports.{loom_line as loom_line_of};
ghost use Rattle.point_paper.specs.Papers.{PaperCells};
ghost use Rattle.loom_threads.specs.Woven.{lifted as lifted_of};
ghost use Rattle.audit_report.specs.Checkers.{Keeps, coming_of, digest_at, state_of};
ghost use Rattle.audit_report.specs.Moves.{Goes, IsTurn};
ghost use Rattle.audit_report.specs.Texts.{loom_line_by};

use crate::checker::{Checker, face_of};
use crate::digests::{Digests, lifted};
use crate::lines::begins;
use crate::papers::paper_of_version;
use crate::texts::{loom_line, row_lines};
use draft_model::cloth::Cloth;
use mill_base::face::Face;
use mill_base::listed::Listed;
use mill_base::memory::OutOfMemory;
use session_file::session::Session;
use std::alloc::Global;
use version_journal::run_log::Repeat;

/// The first version from `low` on whose line begins with the piece; there are digests of each version.
pub fn next_version(
    alloc: Global,
    face: Face,
    loom: u32,
    number: u128,
    low: u32,
    newest: u32,
    digests: &[Digests],
    piece: &[u8],
) -> Result<Option<u32>, OutOfMemory>
    requires few { length digests.now ≤ 65537 }
    requires newest { newest + 1 ≡ length digests.now }
    ensures some { IfOk result (λ found. IfSome found (λ version. (low ≤ version) × (version < length digests.now)
        × Begins piece.now (loom_line_by face loom number version (digest_at digests.now version face)))) }
    ensures none { IfOk result (λ found. IfNone found ((version : ℕ) → low ≤ version → version < length digests.now
        → Begins piece.now (loom_line_by face loom number version (digest_at digests.now version face)) → ⊥)) }
{
    for version in low..newest + 1 {
        let digest = digest_of_version(digests, version, face);
        let line = loom_line(alloc, face, loom, number, version, &digest)?;
        if begins(&line, piece) {
            return Ok(Some(version));
        }
    }
    Ok(None)
}

// The digest for a face of the version of a number.
fn digest_of_version(digests: &[Digests], version: u32, face: Face) -> [u8; 32]
    requires { version < length digests.now }
    ensures { result ≡ digest_at digests.now version face }
{
    let Some(both) = digests.get(version as usize) else {
        unreachable!();
    };
    *both.face(face)
}

impl Checker {
    // How many repeats of a loom were read.
    fn count_repeats(&self, loom: u32) -> u128
        requires before { loom < length self.now.woven_before.items }
        requires woven { loom < length self.now.woven.items }
        ensures { result ≡ length (repeats_of (state_of self.now) loom) }
    {
        let before = self.woven_before[loom as usize].len();
        let woven = self.woven[loom as usize].len();
        before as u128 + woven as u128
    }

    // The oldest version that a loom may weave next.
    fn least_of(&self, loom: u32) -> u32
        requires { loom < length self.now.least.items }
        ensures { result ≡ slice_index self.now.least.items loom }
    {
        self.least[loom as usize]
    }

    /// Reads the line of a repeat of a loom, whose turn it is.
    pub fn read_repeat(
        &mut self,
        alloc: Global,
        session: &Session,
        loom: u32,
        piece: &[u8],
    ) -> Result<bool, OutOfMemory>
        requires fits { Fits session.now }
        requires part { Part session.now (state_of self.old) }
        requires keeps { Keeps session.now self.old }
        requires turn { IsTurn session.now self.old loom }
        ensures yes { IfOk result (λ b. b ≡ true → Goes session.now self.old piece.now self.new) }
        ensures no { IfOk result (λ b. b ≡ false → (woven : ARepeat) → CanWeave session.now (state_of self.old) loom woven
            → Begins piece.now (loom_line_of (the_face_of session.now loom) loom (length (repeats_of (state_of self.old) loom)) woven) → ⊥) }
    {
        let face = face_of(session, loom);
        let number = self.count_repeats(loom);
        let low = self.least_of(loom);
        let newest = self.newest(session);
        let found = next_version(alloc, face, loom, number, low, newest, &self.digests, piece)?;
        let Some(version) = found else {
            return Ok(false);
        };
        let woven = self.repeat_of(alloc, session, loom, version)?;
        self.weave(alloc, session, loom, woven, piece)?;
        Ok(true)
    }

    // The repeat of a version that a loom weaves now.
    fn repeat_of(
        &self,
        alloc: Global,
        session: &Session,
        loom: u32,
        version: u32,
    ) -> Result<Repeat, OutOfMemory>
        requires fits { Fits session.now }
        requires part { Part session.now (state_of self.now) }
        requires keeps { Keeps session.now self.now }
        requires turn { IsTurn session.now self.now loom }
        requires low { slice_index self.now.least.items loom ≤ version }
        requires high { version < length self.now.digests.items }
        ensures can { IfOk result (CanWeave session.now (state_of self.now) loom) }
        ensures version { IfOk result (λ woven. woven.version ≡ version) }
        ensures digest { IfOk result (λ woven. woven.digest ≡ digest_at self.now.digests.items version (the_face_of session.now loom)) }
    {
        let face = face_of(session, loom);
        Ok(Repeat {
            shift: self.shift,
            version,
            digest: digest_of_version(&self.digests, version, face),
            rows: self.shown_rows(alloc, session, face, version)?,
        })
    }

    // The rows that a repeat of a version shows.
    fn shown_rows(
        &self,
        alloc: Global,
        session: &Session,
        face: Face,
        version: u32,
    ) -> Result<Option<Cloth>, OutOfMemory>
        requires fits { Fits session.now }
        requires part { Part session.now (state_of self.now) }
        requires there { version < length (versions_of session.now (state_of self.now)) }
        ensures { IfOk result (λ rows. (paper : PaperCells) → slice_get (versions_of session.now (state_of self.now)) version ≡ Some paper
            → rows ≡ (if session.now.show_rows then Some (lifted_of session.now.design face paper) else None)) }
    {
        if !session.show_rows {
            return Ok(None);
        }
        let mut entries = Vec::from_slice(alloc, &self.before)?;
        entries.extend_from_slice(&self.recent)?;
        let Some(paper) = paper_of_version(alloc, session, &entries, version)? else {
            unreachable!();
        };
        let cloth = lifted(alloc, &session.design, face, &paper)?;
        Ok(Some(cloth))
    }

    // Adds a repeat to a loom's.
    fn weave(
        &mut self,
        alloc: Global,
        session: &Session,
        loom: u32,
        woven: Repeat,
        piece: &[u8],
    ) -> Result<(), OutOfMemory>
        requires fits { Fits session.now }
        requires part { Part session.now (state_of self.old) }
        requires keeps { Keeps session.now self.old }
        requires can { CanWeave session.now (state_of self.old) loom woven }
        requires first { Begins piece.now (loom_line_of (the_face_of session.now loom) loom (length (repeats_of (state_of self.old) loom)) woven) }
        ensures { OnOk result (Goes session.now self.old piece.now self.new) }
    {
        self.put_repeat(alloc, session, loom, woven)?;
        Ok(())
    }

    // Puts it there.
    fn put_repeat(
        &mut self,
        alloc: Global,
        session: &Session,
        loom: u32,
        woven: Repeat,
    ) -> Result<(), OutOfMemory>
        requires fits { Fits session.now }
        requires part { Part session.now (state_of self.old) }
        requires keeps { Keeps session.now self.old }
        requires can { CanWeave session.now (state_of self.old) loom woven }
        ensures state { OnOk result (state_of self.new ≡ go session.now (state_of self.old) (Weave loom woven)) }
        ensures coming { OnOk result (coming_of self.new ≡ shown_lines woven.rows) }
        ensures least { OnOk result (self.new.least.items ≡ slice_set self.old.least.items loom woven.version) }
        ensures done { OnOk result (self.new.done.items ≡ self.old.done.items) }
        ensures paper { OnOk result (self.new.paper ≡ self.old.paper) }
        ensures digests { OnOk result (self.new.digests.items ≡ self.old.digests.items) }
    {
        self.coming = lines_of_rows(alloc, &woven.rows)?;
        self.next = 0;
        self.least[loom as usize] = woven.version;
        self.woven[loom as usize].push(woven)?;
        Ok(())
    }
}

// The lines behind that of a repeat.
fn lines_of_rows(alloc: Global, rows: &Option<Cloth>) -> Result<Vec<Listed<u8>>, OutOfMemory>
    ensures { IfOk result (λ lines. lines.items ≡ shown_lines rows.now) }
{
    match rows {
        Some(cloth) => row_lines(alloc, cloth),
        None => Ok(Vec::new(alloc)),
    }
}
