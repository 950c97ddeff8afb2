//! The core.
ghost use Rattle.std.specs.Prelude.{◌≡◌, ◌≢◌, ◌↔◌, ℕ, ◌+◌, ◌*◌, ◌<◌, ◌≤◌, ◌||◌, Bool, false, true, List, [], ◌∷◌, ◌++◌, length, replicate, slice_index_or, None, Some, All, IfErr, IfOk, IsOk, OnErr, OnOk};
ghost use Rattle.std.specs.Arc.{arc_value};
ghost use Rattle.strokes.specs.Paints.{after};
ghost use Rattle.draft_model.specs.Designs.{Fits, IsPaperOf};
ghost use Rattle.draft_model.specs.Drawdowns.{bound};
ghost use Rattle.draft_model.specs.declared.float_run.FloatRun.{FloatRun};
ghost use Rattle.version_journal.specs.declared.entry.Reply.TheVariants.{Painted};
ghost use Rattle.version_journal.specs.Journals.{History, begun, committed, float_kept, is_commit, painted, reply_to_commit};
ghost use Rattle.tile_grid.specs.Tiles.{tiles};
ghost use Rattle.tile_marks.specs.Marks.{NoneFrom};
ghost use Rattle.tile_rebuild.specs.Dones.{done_parts};
ghost use Rattle.tile_rebuild.specs.Lines.{AreColoursOf};
ghost use Rattle.tile_rebuild.specs.Tiles.{grid_of, part_at, parts_of};
ghost use Rattle.studio_core.specs.Commits.{IsAnswered, settle_steps};
ghost use Rattle.card_image.specs.Sets.{cards_of};
ghost use Rattle.studio_core.specs.Cores.{IsCore, entry_by};
ghost use Rattle.studio_core.specs.Gives.{IsBindInstalled, IsCheckInstalled, IsCheckPresent, IsInstalled, IsPresent, is_marked, most_steps};
ghost use Rattle.studio_core.specs.Histories.{IsAt};
ghost use Rattle.studio_core.specs.Refusals.{IsStartRefusal};
ghost use Rattle.studio_core.specs.Takes.{IsTaken};
ghost use Rattle.studio_core.specs.Touches.{bind_tiles, check_tiles};

use crate::answering::{cut_cards, kept_float};
use crate::given::Given;
use crate::giving::install_cells;
use crate::opening::{open, tile_grid};
use crate::refusal::StartRefusal;
use crate::rooms::Rooms;
use crate::settling::settle_all;
use crate::touching::paint_act;
use crate::walking::is_near_clear;
use card_image::card_set::CardSet;
use draft_model::design::Design;
use mill_base::bit_row::BitRow;
use mill_base::memory::OutOfMemory;
use mill_base::steps::Steps;
use point_paper::bit_paper::BitPaper;
use point_paper::paper::Paper;
use std::alloc::Global;
use std::marker::Model;
use std::sync::Arc;
use std::sync::ledger::Ledger;
use strokes::prepared::Prepared;
use tile_grid::grid::Grid;
use tile_marks::marks::Marks;
use tile_rebuild::bind_job::{BindDone, BindJob};
use tile_rebuild::check_job::{CheckDone, CheckJob};
use tile_rebuild::job::{Done, Job};
use version_journal::entry::{Entry, Reply};
use version_journal::journal::Journal;

/// A paper that is painted and committed, with its bound cells and the cards of its newest version. Only what a paint can reach is bound
/// and checked anew, tile by tile; the replies and the versions are those of the acts in order, as if all was found anew each time.
#[derive(Drop)]
pub struct Core {
    design: Design,
    paper: Paper,
    journal: Journal,
    version: u32,
    cards: Arc<CardSet>,
    bits: BitPaper,
    bind: Marks,
    check: Marks,
    flags: BitRow,
    installed: u64,
    grid: Grid,
    rooms: Rooms,
}

impl Model for Core {
    ghost use Rattle.std.specs.Arc.{arc_value};
    ghost use Rattle.studio_core.specs.Cores.{CoreValue};
    ghost use Rattle.studio_core.specs.inner.Kept.{IsKept};

    ghost Value = { CoreValue };

    ghost view = { λ c. record {
      design = c.design;
      paper = c.paper;
      entries = c.journal.entries;
      spare = c.journal.spare;
      version = c.version;
      cards = arc_value c.cards;
      bits = c.bits;
      bind = c.bind;
      check = c.check;
      flags = c.flags;
      installed = c.installed;
    } };

    ghost invariant = { λ c. IsKept (record {
      design = c.design;
      paper = c.paper;
      entries = c.journal.entries;
      spare = c.journal.spare;
      version = c.version;
      cards = arc_value c.cards;
      bits = c.bits;
      bind = c.bind;
      check = c.check;
      flags = c.flags;
      installed = c.installed;
    }) c.grid c.rooms };
}

impl Core {
    /// A core with an opening paper as its version 0, and room for so many acts. The opening is refused where its bound paper keeps a
    /// float over its limit, with the first one.
    pub fn start(
        alloc: Global,
        design: Design,
        opening: Paper,
        acts: u32,
    ) -> Result<Core, StartRefusal>
        requires fits { Fits design }
        requires paper { IsPaperOf design opening }
        ensures core { IfOk result (λ core. core ≡ record {
          design = design;
          paper = opening;
          entries = [];
          spare = acts;
          version = 0;
          cards = cards_of design opening;
          bits = bound design opening;
          bind = replicate (tiles (grid_of design)) false;
          check = replicate (tiles (grid_of design)) false;
          flags = replicate (tiles (grid_of design)) false;
          installed = 0;
        }) }
        ensures at { IfOk result (IsAt (begun opening)) }
        ensures sound { OnOk result (float_kept design opening ≡ None) }
        ensures refusal { IfErr result (IsStartRefusal design opening) }
    {
        let grid = tile_grid(alloc, &design)?;
        let tiles = grid.tiles();
        let journal = Journal::new(alloc, acts)?;
        let bind = Marks::new(alloc, tiles)?;
        let check = Marks::new(alloc, tiles)?;
        let mut rooms = Rooms::new(alloc, &design, tiles)?;
        let opened = open(alloc, &design, &opening, tiles, &mut rooms)?;
        Ok(Core {
            design,
            paper: opening,
            journal,
            version: 0,
            cards: opened.cards,
            bits: opened.bits,
            bind,
            check,
            flags: opened.flags,
            installed: 0,
            grid,
            rooms,
        })
    }

    /// Paints an act that is no commit, by its spans, and adds its entry. The tiles near those that it touches are marked for binding,
    /// and the tiles near these for checking. It takes no memory.
    pub fn paint(&mut self, shift: u32, painter: u32, number: u32, act: &Prepared)
        requires spare { 0 < self.old.spare }
        requires paints { is_commit act.now.act ≡ false }
        requires size { act.now.size ≡ self.old.design.size }
        requires colours { All (λ span. span.colour < length self.old.design.book) act.now.spans }
        ensures paper { self.new.paper ≡ after act.now.motif self.old.paper act.now.act }
        ensures entries { self.new.entries ≡ self.old.entries ++ entry_by shift painter number Painted ∷ [] }
        ensures spare { self.new.spare + 1 ≡ self.old.spare }
        ensures bind { (u : ℕ) → u < tiles (grid_of self.old.design)
            → slice_index_or self.new.bind u false
            ≡ (slice_index_or self.old.bind u false || bind_tiles (grid_of self.old.design) act.now.motif act.now.size act.now.act u) }
        ensures check { (u : ℕ) → u < tiles (grid_of self.old.design)
            → slice_index_or self.new.check u false
            ≡ (slice_index_or self.old.check u false || check_tiles (grid_of self.old.design) act.now.motif act.now.size act.now.act u) }
        ensures rest { self.new
            ≡ record self.old { paper = self.new.paper; entries = self.new.entries; spare = self.new.spare; bind = self.new.bind; check = self.new.check } }
        ensures at { (h : History) → IsAt h self.old → IsAt (painted h (record { act = act.now.act; motif = act.now.motif })) self.new }
    {
        tile_rebuild::laws::near_tiles_decide_a_tile();
        tile_grid::laws::nearness_goes_both_ways();
        paint_act(
            &self.design,
            &self.grid,
            act,
            &mut self.paper,
            &mut self.rooms.touched,
            &mut self.rooms.near,
            &mut self.bind,
            &mut self.check,
        );
        self.journal.push(Entry {
            shift,
            painter,
            number,
            reply: Reply::Painted,
        });
    }

    /// The job of the first tile from `from` on that is marked for binding, round the list of the tiles, else of the first that is marked
    /// for checking. There is none exactly where no mark stands. The core stays as it is. The counter ticks at most once for each cell of
    /// the lines of a tile to bind, and never for one to check.
    pub fn take<L: Ledger>(
        &self,
        from: u32,
        steps: &mut Steps<L>,
    ) -> Result<Option<Job>, OutOfMemory>
        ensures taken { IfOk result (IsTaken self.now from) }
        ensures later { steps.old ≤ steps.new }
        ensures most { steps.new ≤ steps.old + self.now.design.tile * (self.now.design.size.columns + self.now.design.size.picks) }
        ensures free { NoneFrom self.now.bind 0 → steps.new ≡ steps.old }
    {
        let alloc = *self.rooms.colours.picks.allocator();
        if let Some(tile) = self.bind.next(from) {
            let job = BindJob::take(alloc, &self.design, &self.paper, tile, steps)?;
            return Ok(Some(Job::Bind(job)));
        }
        let Some(tile) = self.check.next(from) else {
            return Ok(None);
        };
        let job = CheckJob::take(alloc, &self.design, &self.bits, tile)?;
        Ok(Some(Job::Check(job)))
    }

    /// Installs a result, which may come late, twice, or of an older paper: its tile's cells or flag are set, and the tile's mark is
    /// cleared, where the tile has a mark of that kind and the result is of the present paper. Else the core stays as it is. It takes no
    /// memory. The counter ticks at most once for each cell of the lines of bound cells, and never for a check.
    pub fn give<L: Ledger>(&mut self, done: &Done, steps: &mut Steps<L>) -> Given
        requires of { done_parts done.now ≡ parts_of self.old.design }
        ensures unmarked { result ≡ Given.Unmarked ↔ is_marked self.old done.now ≡ false }
        ensures stale { result ≡ Given.Stale ↔ ((is_marked self.old done.now ≡ true) × (IsPresent self.old done.now → ⊥)) }
        ensures installed { result ≡ Given.Installed → (is_marked self.old done.now ≡ true) × IsPresent self.old done.now × IsInstalled self.old done.now self.new }
        ensures otherwise { result ≢ Given.Installed → self.new ≡ self.old }
        ensures later { steps.old ≤ steps.new }
        ensures most { steps.new ≤ steps.old + most_steps self.old done.now }
        ensures at { (h : History) → IsAt h self.old → IsAt h self.new }
    {
        match done {
            Done::Bind(done) => self.give_bind(done, steps),
            Done::Check(done) => self.give_check(done),
        }
    }

    /// Binds and checks all marked tiles in place. It takes no memory.
    pub fn settle<L: Ledger>(&mut self, steps: &mut Steps<L>)
        ensures bind { NoneFrom self.new.bind 0 }
        ensures check { NoneFrom self.new.check 0 }
        ensures bind_tiles { length self.new.bind ≡ length self.old.bind }
        ensures check_tiles { length self.new.check ≡ length self.old.check }
        ensures bits { self.new.bits ≡ bound self.old.design self.old.paper }
        ensures rest { self.new
            ≡ record self.old { bits = self.new.bits; bind = self.new.bind; check = self.new.check; flags = self.new.flags } }
        ensures later { steps.old ≤ steps.new }
        ensures most { steps.new ≤ steps.old + settle_steps self.old }
        ensures at { (h : History) → IsAt h self.old → IsAt h self.new }
    {
        settle_all(
            &self.design,
            &self.paper,
            &mut self.bits,
            &mut self.bind,
            &mut self.check,
            &mut self.flags,
            &mut self.rooms,
            steps,
        );
    }

    /// Settles, and then replies to a commit of the present paper. It is refused where the bound paper keeps a float over its limit, with
    /// the first one; then no memory is taken, and version and cards stay. Else the cards are cut, and the paper is the next version.
    pub fn commit<L: Ledger>(
        &mut self,
        shift: u32,
        painter: u32,
        number: u32,
        steps: &mut Steps<L>,
    ) -> Result<Reply, OutOfMemory>
        requires { 0 < self.old.spare }
        ensures reply { IfOk result (λ reply. reply ≡ reply_to_commit (self.old.version + 1) (float_kept self.old.design self.old.paper)) }
        ensures refused { (float : FloatRun) → float_kept self.old.design self.old.paper ≡ Some float → IsOk result }
        ensures answered { IfOk result (λ reply. IsAnswered reply self.old self.new) }
        ensures entries { IfOk result (λ reply. self.new.entries ≡ self.old.entries ++ entry_by shift painter number reply ∷ []) }
        ensures spare { IfOk result (λ reply. self.new.spare + 1 ≡ self.old.spare) }
        ensures err { OnErr result (self.new
            ≡ record self.old { bits = self.new.bits; bind = self.new.bind; check = self.new.check; flags = self.new.flags }) }
        ensures bind { NoneFrom self.new.bind 0 }
        ensures check { NoneFrom self.new.check 0 }
        ensures bind_tiles { length self.new.bind ≡ length self.old.bind }
        ensures check_tiles { length self.new.check ≡ length self.old.check }
        ensures bits { self.new.bits ≡ bound self.old.design self.old.paper }
        ensures rest { self.new ≡ record self.old {
          entries = self.new.entries;
          spare = self.new.spare;
          version = self.new.version;
          cards = self.new.cards;
          bits = self.new.bits;
          bind = self.new.bind;
          check = self.new.check;
          flags = self.new.flags;
        } }
        ensures later { steps.old ≤ steps.new }
        ensures most { steps.new ≤ steps.old + settle_steps self.old }
        ensures at { IfOk result (λ reply. (h : History) → IsAt h self.old
            → IsAt (committed self.old.design h) self.new × ((committed self.old.design h).replies ≡ h.replies ++ reply ∷ [])) }
        ensures stays { OnErr result ((h : History) → IsAt h self.old → IsAt h self.new) }
    {
        self.settle(steps);
        self.answer(shift, painter, number)
    }

    /// The number of the newest version. Version 0 is the opening.
    pub fn version(&self) -> u32
        ensures { result ≡ self.now.version }
    {
        self.version
    }

    /// The cards of the newest version.
    pub fn newest_cards(&self) -> &Arc<CardSet>
        ensures { arc_value result.now ≡ self.now.cards }
    {
        &self.cards
    }

    /// The acts that were done, the first act's entry first.
    pub fn entries(&self) -> &[Entry]
        ensures { result.now ≡ self.now.entries }
    {
        self.journal.entries()
    }

    /// How many more acts there is room for.
    pub fn spare(&self) -> u32
        ensures { result ≡ self.now.spare }
    {
        self.journal.spare()
    }

    /// The design, and what holds of every core.
    pub fn design(&self) -> &Design
        ensures design { result.now ≡ self.now.design }
        ensures core { IsCore self.now }
    {
        &self.design
    }

    /// The paper as it is now.
    pub fn paper(&self) -> &Paper
        ensures { result.now ≡ self.now.paper }
    {
        &self.paper
    }

    /// How many results were installed, up to the greatest number of 64 bits.
    pub fn installed(&self) -> u64
        ensures { result ≡ self.now.installed }
    {
        self.installed
    }

    // Installs bound cells, where their tile has a bind mark and they were made of the present lines.
    fn give_bind<L: Ledger>(&mut self, done: &BindDone, steps: &mut Steps<L>) -> Given
        requires of { done.now.parts ≡ parts_of self.old.design }
        ensures unmarked { result ≡ Given.Unmarked ↔ slice_index_or self.old.bind done.now.tile false ≡ false }
        ensures stale { result ≡ Given.Stale ↔ ((slice_index_or self.old.bind done.now.tile false ≡ true)
            × (AreColoursOf (part_at (grid_of self.old.design) done.now.tile) self.old.paper done.now.picks done.now.columns → ⊥)) }
        ensures present { result ≡ Given.Installed → (slice_index_or self.old.bind done.now.tile false ≡ true)
            × AreColoursOf (part_at (grid_of self.old.design) done.now.tile) self.old.paper done.now.picks done.now.columns }
        ensures installed { result ≡ Given.Installed → IsBindInstalled self.old done.now self.new }
        ensures otherwise { result ≢ Given.Installed → self.new ≡ self.old }
        ensures later { steps.old ≤ steps.new }
        ensures most { steps.new ≤ steps.old + self.old.design.tile * (self.old.design.size.columns + self.old.design.size.picks) }
    {
        let tile = done.tile();
        if !self.bind.has(tile) {
            return Given::Unmarked;
        }
        if !done.agrees(&self.paper, steps) {
            return Given::Stale;
        }
        install_cells(
            &self.design,
            done,
            &mut self.rooms.row,
            &mut self.bits,
            &mut self.bind,
        );
        self.installed = self.installed.saturating_add(1);
        Given::Installed
    }

    // Installs a flag, where its tile has a check mark, no near tile has a bind mark, and it was made of the present lines.
    fn give_check(&mut self, done: &CheckDone) -> Given
        requires of { done.now.parts ≡ parts_of self.old.design }
        ensures unmarked { result ≡ Given.Unmarked ↔ slice_index_or self.old.check done.now.tile false ≡ false }
        ensures stale { result ≡ Given.Stale ↔ ((slice_index_or self.old.check done.now.tile false ≡ true) × (IsCheckPresent self.old done.now → ⊥)) }
        ensures present { result ≡ Given.Installed → (slice_index_or self.old.check done.now.tile false ≡ true) × IsCheckPresent self.old done.now }
        ensures installed { result ≡ Given.Installed → IsCheckInstalled self.old done.now self.new }
        ensures otherwise { result ≢ Given.Installed → self.new ≡ self.old }
    {
        let tile = done.tile();
        if !self.check.has(tile) {
            return Given::Unmarked;
        }
        if !is_near_clear(&self.grid, tile, &self.bind, &mut self.rooms.near) {
            return Given::Stale;
        }
        if !done.agrees(&self.bits) {
            return Given::Stale;
        }
        tile_rebuild::laws::near_tiles_decide_a_tile();
        tile_grid::laws::nearness_goes_both_ways();
        self.flags.set(tile, done.is_long());
        self.check.clear(tile);
        self.installed = self.installed.saturating_add(1);
        Given::Installed
    }

    // Replies to a commit, where no mark stands.
    fn answer(&mut self, shift: u32, painter: u32, number: u32) -> Result<Reply, OutOfMemory>
        requires spare { 0 < self.old.spare }
        requires bind { NoneFrom self.old.bind 0 }
        requires check { NoneFrom self.old.check 0 }
        ensures reply { IfOk result (λ reply. reply ≡ reply_to_commit (self.old.version + 1) (float_kept self.old.design self.old.paper)) }
        ensures refused { (float : FloatRun) → float_kept self.old.design self.old.paper ≡ Some float → IsOk result }
        ensures answered { IfOk result (λ reply. IsAnswered reply self.old self.new) }
        ensures entries { IfOk result (λ reply. self.new.entries ≡ self.old.entries ++ entry_by shift painter number reply ∷ []) }
        ensures spare { IfOk result (λ reply. self.new.spare + 1 ≡ self.old.spare) }
        ensures err { OnErr result (self.new ≡ self.old) }
        ensures rest { self.new
            ≡ record self.old { entries = self.new.entries; spare = self.new.spare; version = self.new.version; cards = self.new.cards } }
    {
        if let Some(float) = kept_float(&self.design, &self.bits, &self.flags) {
            let reply = Reply::Refused(float);
            self.journal.push(Entry {
                shift,
                painter,
                number,
                reply,
            });
            return Ok(reply);
        }
        let alloc = *self.rooms.colours.picks.allocator();
        self.cards = cut_cards(alloc, &self.design, &self.bits)?;
        self.version += 1;
        let reply = Reply::Accepted(self.version);
        self.journal.push(Entry {
            shift,
            painter,
            number,
            reply,
        });
        Ok(reply)
    }
}
