//! The desk: a core whose versions are published.
ghost use Rattle.std.specs.Prelude.{◌≡◌, ◌↔◌, ℕ, ◌+◌, ◌<◌, ◌≤◌, ◌++◌, ◌||◌, ◌∷◌, [], false, true, length, replicate, slice_index_or, All, None, Some, IfErr, IfOk, IsOk, IsTrue, OnErr, OnOk};
ghost use Rattle.mill_base.specs.declared.limits.TheConstants.{MAX_ACTS};
ghost use Rattle.draft_model.specs.Drawdowns.{bound};
ghost use Rattle.draft_model.specs.declared.float_run.FloatRun.{FloatRun};
ghost use Rattle.version_journal.specs.Entries.{is_accepted};
ghost use Rattle.version_journal.specs.declared.entry.Reply.TheVariants.{Accepted};
ghost use Rattle.version_journal.specs.Journals.{begun, float_kept, is_commit as is_a_commit, reply_to_commit};
ghost use Rattle.session_file.specs.Plans.{Fits, acts_in};
ghost use Rattle.shed_publish.specs.Versions.{IsPublished};
ghost use Rattle.tile_grid.specs.Tiles.{tiles};
ghost use Rattle.tile_marks.specs.Marks.{NoneFrom};
ghost use Rattle.tile_rebuild.specs.Tiles.{grid_of};
ghost use Rattle.studio_core.specs.Commits.{settle_steps};
ghost use Rattle.studio_core.specs.Cores.{IsCore, entry_by};
ghost use Rattle.studio_core.specs.Histories.{IsAt};
ghost use Rattle.studio_core.specs.Refusals.{IsStartRefusal};
ghost use Rattle.studio_core.specs.Touches.{bind_tiles, check_tiles};
ghost use Rattle.std.specs.Borrow.{sem};
ghost use Rattle.shift_run.specs.Lent.{LendsEnd};
ghost use Rattle.shift_run.specs.DeskActs.{AreMarked, Commits, GoesTo, IsLeft, MakesNewest, act_of, list_after, paper_of, reply_of};
ghost use Rattle.shift_run.specs.Desks.{IsDesk, IsReady, IsUnpublished, Stands, new_core, new_list};

use mill_base::memory::OutOfMemory;
use mill_base::steps::Steps;
use session_file::counts::count_acts;
use session_file::session::Session;
use shed_publish::desk_end::{DeskEnd, desk_end};
use shed_publish::newest::Newest;
use shed_publish::told::Told;
use std::alloc::Global;
use std::sync::ledger::Ledger;
use std::sync::{Arc, Wait};
use strokes::act::Act;
use strokes::prepared::Prepared;
use studio_core::refusal::StartRefusal;
use studio_core::tile_core::Core;
use version_journal::entry::Reply;

/// A core and the end that publishes its versions. It is not `Drop`: `close` ends it.
pub struct Desk {
    pub core: Core,
    pub end: DeskEnd,
}

impl Desk {
    /// A desk of the session, with its opening as version 0, which is published, and room for the session's acts. The opening is refused
    /// where its bound paper keeps a float over its limit, with the first one. It waits by its type, since it publishes; no loom reads
    /// yet, so it returns at once.
    pub fn start<R: Wait>(rt: &R, alloc: Global, session: &Session) -> Result<Desk, StartRefusal>
        requires { Fits session.now }
        ensures core { IfOk result (λ desk. desk.core ≡ new_core session.now 0) }
        ensures end { IfOk result (λ desk. desk.end ≡ record { list = new_list session.now; refused = 0 }) }
        ensures stands { IfOk result (Stands session.now) }
        ensures ready { IfOk result IsReady }
        ensures sound { OnOk result (float_kept session.now.design session.now.opening ≡ None) }
        ensures refusal { IfErr result (IsStartRefusal session.now.design session.now.opening) }
    {
        Desk::start_with(rt, alloc, session, 0)
    }

    /// The same with room for so many further acts.
    pub fn start_with<R: Wait>(
        rt: &R,
        alloc: Global,
        session: &Session,
        spare: u32,
    ) -> Result<Desk, StartRefusal>
        requires fits { Fits session.now }
        requires few { acts_in session.now.shifts + spare ≤ MAX_ACTS }
        ensures core { IfOk result (λ desk. desk.core ≡ new_core session.now spare) }
        ensures end { IfOk result (λ desk. desk.end ≡ record { list = new_list session.now; refused = 0 }) }
        ensures stands { IfOk result (Stands session.now) }
        ensures ready { IfOk result IsReady }
        ensures sound { OnOk result (float_kept session.now.design session.now.opening ≡ None) }
        ensures refusal { IfErr result (IsStartRefusal session.now.design session.now.opening) }
    {
        let core = start_core(alloc, session, spare)?;
        let end = first_end(rt, alloc, &core, session.looms)?;
        Ok(Desk { core, end })
    }

    /// Does an act of a painter, and publishes its version where it was accepted. A paint takes no memory, and neither does a commit that
    /// is refused. It may wait for a loom that is in the middle of a reading.
    pub fn act<R: Wait, L: Ledger>(
        &mut self,
        rt: &R,
        shift: u32,
        painter: u32,
        number: u32,
        act: &Prepared,
        steps: &mut Steps<L>,
    ) -> Result<Reply, OutOfMemory>
        requires spare { 0 < self.old.core.spare }
        requires size { act.now.size ≡ self.old.core.design.size }
        requires colours { All (λ span. span.colour < length self.old.core.design.book) act.now.spans }
        requires ready { IsReady self.old }
        ensures reply { IfOk result (λ reply. reply ≡ reply_of self.old.core act.now) }
        ensures paper { self.new.core.paper ≡ paper_of self.old.core act.now }
        ensures entries { IfOk result (λ reply. self.new.core.entries ≡ self.old.core.entries ++ entry_by shift painter number reply ∷ []) }
        ensures spare { OnOk result (self.new.core.spare + 1 ≡ self.old.core.spare) }
        ensures newest { IfOk result (λ reply. MakesNewest reply self.old.core self.new.core) }
        ensures list { IfOk result (λ reply. self.new.end ≡ record self.old.end { list = list_after reply self.new.core self.old.end.list }) }
        ensures at { IfOk result (GoesTo self.old.core self.new.core (act_of act.now)) }
        ensures ready { OnOk result (IsReady self.new) }
        ensures left { OnErr result (IsLeft (entry_by shift painter number (Accepted (self.old.core.version + 1))) self.old self.new) }
        ensures desk { IsDesk self.new }
        ensures sure { is_a_commit act.now.act ≡ false → IsOk result }
        ensures refused { (float : FloatRun) → float_kept self.old.core.design self.old.core.paper ≡ Some float → IsOk result }
        ensures marks { AreMarked act.now self.old.core self.new.core }
        ensures kept { (self.new.core.design ≡ self.old.core.design) × (self.new.core.installed ≡ self.old.core.installed) }
        ensures later { steps.old ≤ steps.new }
        ensures most { steps.new ≤ steps.old + settle_steps self.old.core }
    {
        if is_commit(act.act()) {
            return self.commit(rt, shift, painter, number, steps);
        }
        self.core.paint(shift, painter, number, act);
        Ok(Reply::Painted)
    }

    // Settles and replies to a commit, and publishes an accepted version.
    fn commit<R: Wait, L: Ledger>(
        &mut self,
        rt: &R,
        shift: u32,
        painter: u32,
        number: u32,
        steps: &mut Steps<L>,
    ) -> Result<Reply, OutOfMemory>
        requires spare { 0 < self.old.core.spare }
        requires ready { IsReady self.old }
        ensures reply { IfOk result (λ reply. reply ≡ reply_to_commit (self.old.core.version + 1) (float_kept self.old.core.design self.old.core.paper)) }
        ensures paper { self.new.core.paper ≡ self.old.core.paper }
        ensures entries { IfOk result (λ reply. self.new.core.entries ≡ self.old.core.entries ++ entry_by shift painter number reply ∷ []) }
        ensures spare { OnOk result (self.new.core.spare + 1 ≡ self.old.core.spare) }
        ensures newest { IfOk result (λ reply. MakesNewest reply self.old.core self.new.core) }
        ensures list { IfOk result (λ reply. self.new.end ≡ record self.old.end { list = list_after reply self.new.core self.old.end.list }) }
        ensures at { IfOk result (Commits self.old.core self.new.core) }
        ensures ready { OnOk result (IsReady self.new) }
        ensures left { OnErr result (IsLeft (entry_by shift painter number (Accepted (self.old.core.version + 1))) self.old self.new) }
        ensures desk { IsDesk self.new }
        ensures refused { (float : FloatRun) → float_kept self.old.core.design self.old.core.paper ≡ Some float → IsOk result }
        ensures settled { NoneFrom self.new.core.bind 0 × NoneFrom self.new.core.check 0 × (self.new.core.bits ≡ bound self.old.core.design self.old.core.paper) }
        ensures kept { (self.new.core.design ≡ self.old.core.design) × (self.new.core.installed ≡ self.old.core.installed) }
        ensures later { steps.old ≤ steps.new }
        ensures most { steps.new ≤ steps.old + settle_steps self.old.core }
    {
        let reply = self.core.commit(shift, painter, number, steps)?;
        know_core(&self.core);
        publish_reply(rt, &reply, &self.core, &mut self.end)?;
        Ok(reply)
    }

    /// The core.
    pub fn core(&self) -> &Core
        ensures { result.now ≡ self.now.core }
    {
        &self.core
    }

    /// Whether the newest version of the core is not published, which comes of memory that was refused in `act`.
    pub fn unpublished(&self) -> bool
        ensures { IsTrue result ↔ IsUnpublished self.now }
    {
        self.end.version() < self.core.version()
    }

    /// What a loom's end learns: the list that is published now.
    pub fn told(&mut self) -> Told<'_>
        ensures* lends { sem 𝓛 (LendsEnd self.entry result.desk) }
        ensures list { result.desk.now ≡ self.old.end }
    {
        self.end.tell()
    }

    /// Ends the desk, and lets the core go. It may wait for a loom that is in the middle of a reading.
    pub fn close<R: Wait>(self, rt: &R) {
        let Desk { core: _core, end } = self;
        end.close(rt);
    }
}

// The core of a session before the first act, with room for its acts and so many more.
fn start_core(alloc: Global, session: &Session, spare: u32) -> Result<Core, StartRefusal>
    requires fits { Fits session.now }
    requires few { acts_in session.now.shifts + spare ≤ MAX_ACTS }
    ensures core { IfOk result (λ core. core ≡ new_core session.now spare) }
    ensures at { IfOk result (IsAt (begun session.now.opening)) }
    ensures sound { OnOk result (float_kept session.now.design session.now.opening ≡ None) }
    ensures refusal { IfErr result (IsStartRefusal session.now.design session.now.opening) }
{
    let acts = count_acts(session.shifts.as_slice()) as u32 + spare;
    let design = session.design.copy()?;
    let opening = session.opening.copy()?;
    Core::start(alloc, design, opening, acts)
}

// The end of a desk whose core has version 0 alone.
fn first_end<R: Wait>(
    rt: &R,
    alloc: Global,
    core: &Core,
    looms: u32,
) -> Result<DeskEnd, OutOfMemory>
    requires { 1 ≤ looms }
    ensures { IfOk result (λ end. end ≡ record { list = record { version = 0; cards = core.now.cards } ∷ []; refused = 0 }) }
{
    let cards = Arc::clone(core.newest_cards())?;
    desk_end(rt, alloc, Newest { version: 0, cards }, looms)
}

// Publishes the version of an accepted commit. Where the commit was refused there is nothing to publish.
fn publish_reply<R: Wait>(
    rt: &R,
    reply: &Reply,
    core: &Core,
    end: &mut DeskEnd,
) -> Result<(), OutOfMemory>
    requires { IsPublished (list_after reply.now core.now end.old.list) }
    ensures ok { OnOk result (end.new ≡ record end.old { list = list_after reply.now core.now end.old.list }) }
    ensures err { OnErr result (end.new ≡ end.old) }
    ensures accepted { OnErr result (is_accepted reply.now ≡ true) }
{
    match reply {
        Reply::Accepted(_) => publish_newest(rt, core, end),
        _ => Ok(()),
    }
}

// Publishes the newest version of a core.
fn publish_newest<R: Wait>(rt: &R, core: &Core, end: &mut DeskEnd) -> Result<(), OutOfMemory>
    requires { IsPublished (end.old.list ++ record { version = core.now.version; cards = core.now.cards } ∷ []) }
    ensures ok { OnOk result (end.new ≡ record end.old { list = end.old.list ++ record { version = core.now.version; cards = core.now.cards } ∷ [] }) }
    ensures err { OnErr result (end.new ≡ end.old) }
{
    let cards = Arc::clone(core.newest_cards())?;
    let version = core.version();
    end.publish(rt, Newest { version, cards })
}

// Whether the act is a commit.
fn is_commit(act: &Act) -> bool
    ensures { result ≡ is_a_commit act.now }
{
    matches!(act, Act::Commit)
}

// Tells a proof what holds of every core.
fn know_core(core: &Core)
    ensures { IsCore core.now }
{
    let _ = core.design();
}

/// Tells a proof that a desk with all its versions published can do acts.
pub(crate) fn know_ready(session: &Session, desk: &Desk)
    requires fits { Fits session.now }
    requires stands { Stands session.now desk.now }
    ensures { IsReady desk.now }
{
    version_journal::laws::acts_of_the_design_paint_colours_of_its_book();
    version_journal::laws::versions_are_papers_of_the_design();
}
