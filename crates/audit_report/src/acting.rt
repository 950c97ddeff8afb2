//! The acts that may come next.
ghost use Rattle.std.specs.Prelude.{◌≡◌, ◌<◌, ◌+◌, ◌++◌, ℕ, true, false, [], ◌∷◌, length, IfOk, IfSome, IfNone, OnOk};
ghost use Rattle.draft_model.specs.Designs.{Fits as FitsDesign, IsPaperOf};
ghost use Rattle.version_journal.specs.declared.entry.Entry.{Entry as AnEntry};
ghost use Rattle.session_file.specs.Plans.{Fits};
ghost use Rattle.audit_model.specs.Audits.{Begins};
ghost use Rattle.audit_model.specs.States.{CanDo, Part, commit_reply, entries_of, go, history_of, painters_of, reply_for};
ghost use Rattle.audit_model.specs.States.Move.{Do};
ghost use Rattle.report_text.specs.Reports.{act_line as act_line_of};
ghost use Rattle.audit_report.specs.Checkers.{AddsDigests, Keeps, coming_of, state_of};
ghost use Rattle.audit_report.specs.Moves.{Goes};

use crate::checker::{Checker, plan_of};
use crate::digests::Digests;
use crate::lines::{begins, may_begin};
use crate::papers::{act_of, do_entry};
use crate::texts::{act_head, act_line};
use draft_model::design::Design;
use draft_model::drawdown::bound;
use draft_model::first_float::first_float;
use mill_base::memory::OutOfMemory;
use point_paper::paper::Paper;
use session_file::session::Session;
use std::alloc::Global;
use strokes::act::Act;
use version_journal::entry::{Entry, Reply};

impl Checker {
    // How many acts are done.
    fn count_acts(&self) -> usize
        ensures { result ≡ length (entries_of (state_of self.now)) }
    {
        self.before.len() + self.recent.len()
    }

    // The reply that an act gets now.
    fn reply_to(&self, alloc: Global, session: &Session, act: &Act) -> Result<Reply, OutOfMemory>
        requires fits { Fits session.now }
        requires part { Part session.now (state_of self.now) }
        requires keeps { Keeps session.now self.now }
        ensures { IfOk result (λ reply. reply ≡ reply_for act.now (commit_reply session.now.design (history_of session.now (state_of self.now)))) }
    {
        match act {
            Act::Commit => self.reply_to_commit(alloc, session),
            _ => Ok(Reply::Painted),
        }
    }

    fn reply_to_commit(&self, alloc: Global, session: &Session) -> Result<Reply, OutOfMemory>
        requires fits { Fits session.now }
        requires part { Part session.now (state_of self.now) }
        requires keeps { Keeps session.now self.now }
        ensures { IfOk result (λ reply. reply ≡ commit_reply session.now.design (history_of session.now (state_of self.now))) }
    {
        let bits = bound(alloc, &session.design, &self.paper)?;
        match first_float(&session.design, &bits) {
            Some(float) => Ok(Reply::Refused(float)),
            None => Ok(Reply::Accepted(self.digests.len() as u32)),
        }
    }

    // The next act of a painter, where its line begins with the piece. The reply is found only where the line may be this one.
    fn act_of_painter(
        &self,
        alloc: Global,
        session: &Session,
        painter: u32,
        piece: &[u8],
    ) -> Result<Option<Entry>, OutOfMemory>
        requires fits { Fits session.now }
        requires part { Part session.now (state_of self.now) }
        requires keeps { Keeps session.now self.now }
        requires going { self.now.ended ≡ false }
        requires painter { painter < painters_of session.now (state_of self.now) }
        ensures some { IfOk result (λ found. IfSome found (λ entry. CanDo session.now (state_of self.now) entry
            × Begins piece.now (act_line_of (length (entries_of (state_of self.now))) entry))) }
        ensures none { IfOk result (λ found. IfNone found ((entry : AnEntry) → entry.painter ≡ painter → CanDo session.now (state_of self.now) entry
            → Begins piece.now (act_line_of (length (entries_of (state_of self.now))) entry) → ⊥)) }
    {
        let done = self.done[painter as usize];
        let acts = plan_of(session, self.shift).painters.as_slice()[painter as usize].len();
        if done as usize >= acts {
            return Ok(None);
        }
        let count = self.count_acts();
        let head = act_head(alloc, count, painter, done + 1)?;
        if !may_begin(&head, piece) {
            return Ok(None);
        }
        let act = act_of(session, self.shift, painter, done + 1);
        let entry = Entry {
            shift: self.shift,
            painter,
            number: done + 1,
            reply: self.reply_to(alloc, session, &act)?,
        };
        let line = act_line(alloc, count, &entry)?;
        if !begins(&line, piece) {
            return Ok(None);
        }
        Ok(Some(entry))
    }

    // The act that may come next and whose line begins with the piece, painter by painter.
    fn next_act(
        &self,
        alloc: Global,
        session: &Session,
        piece: &[u8],
    ) -> Result<Option<Entry>, OutOfMemory>
        requires fits { Fits session.now }
        requires part { Part session.now (state_of self.now) }
        requires keeps { Keeps session.now self.now }
        requires going { self.now.ended ≡ false }
        ensures some { IfOk result (λ found. IfSome found (λ entry. CanDo session.now (state_of self.now) entry
            × Begins piece.now (act_line_of (length (entries_of (state_of self.now))) entry))) }
        ensures none { IfOk result (λ found. IfNone found ((entry : AnEntry) → CanDo session.now (state_of self.now) entry
            → Begins piece.now (act_line_of (length (entries_of (state_of self.now))) entry) → ⊥)) }
    {
        let painters = plan_of(session, self.shift).painters.len() as u32;
        for painter in 0..painters {
            let found = self.act_of_painter(alloc, session, painter, piece)?;
            if found.is_some() {
                return Ok(found);
            }
        }
        Ok(None)
    }

    /// Reads the line of an act.
    pub fn read_act(
        &mut self,
        alloc: Global,
        session: &Session,
        piece: &[u8],
    ) -> Result<bool, OutOfMemory>
        requires fits { Fits session.now }
        requires part { Part session.now (state_of self.old) }
        requires keeps { Keeps session.now self.old }
        requires going { self.old.ended ≡ false }
        ensures yes { IfOk result (λ b. b ≡ true → Goes session.now self.old piece.now self.new) }
        ensures no { IfOk result (λ b. b ≡ false → (entry : AnEntry) → CanDo session.now (state_of self.old) entry
            → Begins piece.now (act_line_of (length (entries_of (state_of self.old))) entry) → ⊥) }
    {
        let found = self.next_act(alloc, session, piece)?;
        let Some(entry) = found else {
            return Ok(false);
        };
        self.do_act(alloc, session, entry, piece)?;
        Ok(true)
    }

    // Does an act, whose line begins with the piece.
    fn do_act(
        &mut self,
        alloc: Global,
        session: &Session,
        entry: Entry,
        piece: &[u8],
    ) -> Result<(), OutOfMemory>
        requires fits { Fits session.now }
        requires part { Part session.now (state_of self.old) }
        requires keeps { Keeps session.now self.old }
        requires can { CanDo session.now (state_of self.old) entry }
        requires first { Begins piece.now (act_line_of (length (entries_of (state_of self.old))) entry) }
        ensures { OnOk result (Goes session.now self.old piece.now self.new) }
    {
        do_entry(alloc, session, &entry, &mut self.paper)?;
        add_digests(
            alloc,
            &session.design,
            &entry.reply,
            &self.paper,
            &mut self.digests,
        )?;
        self.recent.push(entry)?;
        self.done[entry.painter as usize] = entry.number;
        self.next = self.behind();
        Ok(())
    }
}

// Adds the digests of the paper where a commit made it a version.
fn add_digests(
    alloc: Global,
    design: &Design,
    reply: &Reply,
    paper: &Paper,
    digests: &mut Vec<Digests>,
) -> Result<(), OutOfMemory>
    requires fits { FitsDesign design.now }
    requires paper { IsPaperOf design.now paper.now }
    ensures { OnOk result (AddsDigests design.now paper.now reply.now digests.old.items digests.new.items) }
{
    if !matches!(reply, Reply::Accepted(_)) {
        return Ok(());
    }
    let more = Digests::of(alloc, design, paper)?;
    digests.push(more)?;
    Ok(())
}
