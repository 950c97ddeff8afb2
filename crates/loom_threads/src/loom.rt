//! Looms.
ghost use Rattle.std.specs.Prelude.{◌≡◌, ◌+◌, ◌-◌, ◌^◌, ◌<◌, ◌≤◌, List, [], ◌∷◌, ◌++◌, true, false, length, take, drop, None, is_some, IfOk, IfSome, OnSome, IfNone, if◌then◌else◌, ◌⊎◌};
ghost use Rattle.std.specs.Arc.{arc_value};
ghost use Rattle.mill_base.specs.Causes.{Rose, risen};
ghost use Rattle.card_image.specs.Sets.{design_by};
ghost use Rattle.shed_publish.specs.Ends.{EndsWith, Knows as EndKnows, OneMore, SawOther};
ghost use Rattle.shed_publish.specs.Versions.{IsPrefix, IsPublished, version_of};
ghost use Rattle.shed_publish.specs.declared.newest.Version.{Version as Entry};
ghost use Rattle.session_file.specs.Plans.{Fits};
ghost use Rattle.loom_threads.specs.Looms.{EndWithNewest, IsLoomOf, IsTold, Knows, KnowsOr, Wove, end_by, list_of, missed_of, readings_of, repeat_from, repeats_of, seen_by};

use crate::counts::count_repeats;
use crate::weaver::Weaver;
use card_image::card_set::CardSet;
use mill_base::listed::Listed;
use mill_base::memory::OutOfMemory;
use mill_io::gate::{Gate, Point};
use session_file::session::Session;
use shed_publish::desk_end::Seat;
use shed_publish::loom_end::LoomEnd;
use shed_publish::newest::Newest;
use shed_publish::told::Told;
use std::alloc::Global;
use std::marker::Model;
use std::sync::Arc;
use version_journal::run_log::Repeat;

/// A loom of a session. It reads the newest version from its end of the published list, without waiting, and weaves its cards. It has
/// memory for all repeats that the session states for it, so that weaving takes none.
#[derive(Drop)]
pub struct Loom {
    number: u32,
    end: Option<LoomEnd>,
    weaver: Weaver,
}

impl Model for Loom {
    ghost use Rattle.loom_threads.specs.Looms.{LoomValue};

    ghost Value = { LoomValue };

    ghost view = { λ l. record {
      number = l.number;
      machine = l.weaver.machine;
      picks = l.weaver.picks;
      face = l.weaver.face;
      shown = l.weaver.shown;
      end = l.end;
      repeats = l.weaver.repeats;
      spare = l.weaver.spare;
    } };
}

impl Loom {
    /// The loom of this number, with the end that it reads by, if it was given a seat.
    pub fn new(
        alloc: Global,
        session: &Session,
        number: u32,
        seat: Seat,
    ) -> Result<Loom, OutOfMemory>
        requires fits { Fits session.now }
        requires number { number < session.now.looms }
        ensures kind { IfOk result (IsLoomOf session.now number) }
        ensures end { IfOk result (λ loom. loom.end ≡ end_by seat) }
        ensures repeats { IfOk result (λ loom. loom.repeats ≡ []) }
        ensures spare { IfOk result (λ loom. loom.spare ≡ repeats_of session.now number) }
    {
        let face = session.faces.as_slice()[number as usize];
        let count = count_repeats(session, number);
        let weaver = Weaver::new(alloc, &session.design, face, session.show_rows, count)?;
        Ok(Loom {
            number,
            end: end_of(seat),
            weaver,
        })
    }

    /// Adds a repeat of these cards, from pick 0 on. Where they are equal to those of the repeat before, no row is lifted. It takes no
    /// memory and has no refusal.
    pub fn weave_repeat(&mut self, version: u32, cards: &Arc<CardSet>, shift: u32)
        requires spare { 0 < self.old.spare }
        requires cards { (arc_value cards.now).design ≡ design_by self.old.machine.casting self.old.picks }
        ensures { self.new ≡ record self.old {
          repeats = self.old.repeats ++ repeat_from self.old shift version (arc_value cards.now) ∷ [];
          spare = self.old.spare - 1;
        } }
    {
        self.weaver.weave(shift, version, cards);
    }

    /// Keeps the first repeats, so many; the room of the others is spare again. It takes no memory.
    pub fn cut(&mut self, count: u32)
        requires { count ≤ length self.old.repeats }
        ensures { self.new ≡ record self.old {
          repeats = take count self.old.repeats;
          spare = self.old.spare + (length self.old.repeats - count);
        } }
    {
        self.weaver.cut(count);
    }

    /// The repeats that it wove, the first one first.
    pub fn repeats(&self) -> &[Repeat]
        ensures { result.now ≡ self.now.repeats }
    {
        self.weaver.repeats()
    }

    /// Gives its repeats away.
    pub fn into_repeats(self) -> Listed<Repeat>
        ensures { result ≡ self.repeats }
    {
        let Loom { weaver, .. } = self;
        weaver.into_repeats()
    }

    /// How many more repeats there is room for.
    pub fn spare(&self) -> u32
        ensures { result ≡ self.now.spare }
    {
        self.weaver.spare()
    }

    /// Whether it has an end to read by.
    pub fn reads(&self) -> bool
        ensures { result ≡ is_some self.now.end }
    {
        self.end.is_some()
    }

    /// How many readings of its end gave a version; 0 where it has none.
    pub fn readings(&self) -> u64
        ensures { result ≡ readings_of self.now }
    {
        match &self.end {
            Some(end) => end.readings(),
            None => 0,
        }
    }

    /// How many readings of its end gave none; 0 where it has no end.
    pub fn missed(&self) -> u64
        ensures { result ≡ missed_of self.now }
    {
        match &self.end {
            Some(end) => end.missed(),
            None => 0,
        }
    }

    /// Hands the told list to its end, which takes a place of the desk anew. A loom without an end stays as it is.
    pub fn learn(&mut self, told: Told<'_>)
        ensures same { self.new ≡ record self.old { end = self.new.end } }
        ensures reads { is_some self.new.end ≡ is_some self.old.end }
        ensures list { list_of self.new ≡ [] }
        ensures counts { (readings_of self.new ≡ readings_of self.old) × (missed_of self.new ≡ missed_of self.old) }
        ensures told { is_some self.old.end ≡ true → KnowsOr told.entry.desk.now.list self.new told.entry.desk.now.refused told.exit.0.now.refused }
        ensures desk { told.exit.0.now ≡ record told.entry.desk.now { refused = told.exit.0.now.refused } }
        ensures one_refused { OneMore told.entry.desk.now.refused told.exit.0.now.refused }
        ensures without { self.old.end ≡ None → told.exit.0.now ≡ told.entry.desk.now }
    {
        if let Some(end) = &mut self.end {
            end.learn(told);
        }
    }

    /// Reads once, lets the cards go, and answers whether its end sees the told list, as `LoomEnd::meet` does. The entries before the
    /// place `known` are known to the caller as a list that was told before. It takes no memory and waits for nobody.
    pub fn meet(&mut self, told: Told<'_>, known: u32) -> bool
        requires { is_some self.old.end ≡ true }
        ensures same { self.new ≡ record self.old { end = self.new.end } }
        ensures reads { is_some self.new.end ≡ true }
        ensures later { IsPrefix (list_of self.old) (list_of self.new) }
        ensures knows { (list : List Entry) → Knows list self.old → Knows list self.new }
        ensures told { result ≡ true → (list : List Entry) → Knows list self.old → IsPrefix list (list_of self.new) }
        ensures length { result ≡ true → length (list_of self.new) ≡ length told.entry.desk.now.list }
        ensures met { result ≡ true → drop known (list_of self.new) ≡ drop known told.entry.desk.now.list }
        ensures published { result ≡ true → IsPublished (list_of self.new) }
        ensures read { result ≡ true → Rose (readings_of self.old) (readings_of self.new) × (missed_of self.new ≡ missed_of self.old) }
        ensures other { result ≡ false → SawOther known told.entry.desk.now.list (seen_by self.old) (seen_by self.new) }
        ensures missed { result ≡ false → Rose (missed_of self.old) (missed_of self.new) × (readings_of self.new ≡ readings_of self.old) }
        ensures seen { IsPublished (list_of self.new) ⊎ (list_of self.new ≡ list_of self.old) }
        ensures one_reading { result ≡ true → readings_of self.new ≡ risen (readings_of self.old) }
        ensures one_missed { result ≡ false → missed_of self.new ≡ risen (missed_of self.old) }
        ensures no_fewer { (readings_of self.old ≤ readings_of self.new) × (missed_of self.old ≤ missed_of self.new) }
        ensures desk { told.exit.0.now ≡ told.entry.desk.now }
    {
        match &mut self.end {
            Some(end) => end.meet(told, known),
            None => unreachable!(),
        }
    }

    /// Reads the newest version and weaves it, so many times; it ends earlier only where its end's missed readings rose. Whoever holds
    /// the gate is told of each reading before and after it; the repeats of the loom are counted over the session. It takes no memory
    /// and waits for nobody.
    pub fn run<G: Gate>(&mut self, shift: u32, count: u32, gate: &G)
        requires told { IsTold self.old }
        requires spare { count ≤ self.old.spare }
        ensures wove { Wove shift self.old self.new }
        ensures told { IsTold self.new }
        ensures few { length self.new.repeats ≤ length self.old.repeats + count }
        ensures room { self.new.spare + length self.new.repeats ≡ self.old.spare + length self.old.repeats }
        ensures missed { length self.new.repeats < length self.old.repeats + count → Rose (missed_of self.old) (missed_of self.new) }
        ensures one_missed { length self.new.repeats < length self.old.repeats + count → missed_of self.new ≡ risen (missed_of self.old) }
        ensures none_missed { length self.new.repeats ≡ length self.old.repeats + count → missed_of self.new ≡ missed_of self.old }
        ensures newest { length self.new.repeats ≡ length self.old.repeats + count → 0 < count → EndWithNewest self.new }
    {
        'repeats: for _ in 0..count {
            if !self.turn(shift, gate) {
                break 'repeats;
            }
        }
    }

    // One reading and its repeat.
    fn turn<G: Gate>(&mut self, shift: u32, gate: &G) -> bool
        requires told { IsTold self.old }
        requires spare { 0 < self.old.spare }
        ensures wove { Wove shift self.old self.new }
        ensures told { IsTold self.new }
        ensures count { length self.new.repeats ≡ length self.old.repeats + (if result then 1 else 0) }
        ensures missed { missed_of self.new ≡ (if result then missed_of self.old else risen (missed_of self.old)) }
        ensures newest { result ≡ true → EndWithNewest self.new }
    {
        let loom = self.number;
        let repeat = self.weaver.woven();
        gate.at(Point::BeforeBegin { loom, repeat });
        let Some(newest) = self.begin() else {
            return false;
        };
        gate.at(Point::Began { loom, repeat });
        self.weave_repeat(newest.version, &newest.cards, shift);
        true
    }

    // Reads the newest version.
    fn begin(&mut self) -> Option<Newest>
        requires { is_some self.old.end ≡ true }
        ensures same { self.new ≡ record self.old { end = self.new.end } }
        ensures later { IsPrefix (list_of self.old) (list_of self.new) }
        ensures knows { (list : List Entry) → Knows list self.old → Knows list self.new }
        ensures some { IfSome result (λ newest. EndsWith (list_of self.new) (version_of newest) × IsPublished (list_of self.new)) }
        ensures told { OnSome result ((list : List Entry) → Knows list self.old → IsPrefix list (list_of self.new)) }
        ensures read { OnSome result ((readings_of self.new ≡ risen (readings_of self.old)) × (missed_of self.new ≡ missed_of self.old)) }
        ensures none { IfNone result ((missed_of self.new ≡ risen (missed_of self.old)) × (readings_of self.new ≡ readings_of self.old)) }
        ensures no_fewer { (readings_of self.old ≤ readings_of self.new) × (missed_of self.old ≤ missed_of self.new) }
    {
        match &mut self.end {
            Some(end) => end.begin(),
            None => unreachable!(),
        }
    }
}

fn end_of(seat: Seat) -> Option<LoomEnd>
    ensures { result ≡ end_by seat }
{
    match seat {
        Seat::Reads(end) => Some(end),
        Seat::Later => None,
    }
}
