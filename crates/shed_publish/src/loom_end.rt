//! The ends that read.
ghost use Rattle.std.specs.Prelude.{◌≡◌, ◌≤◌, List, true, false, drop, [], length, IfSome, OnSome, IfNone};
ghost use Rattle.mill_base.specs.Causes.{Rose, risen};
ghost use Rattle.shed_publish.specs.Ends.{EndsWith, Knows, LearntOr, OneMore, SawOrStayed, SawOther};
ghost use Rattle.shed_publish.specs.Versions.{version_of, IsPrefix, IsPublished, BeginsWithAll};
ghost use Rattle.shed_publish.specs.inner.Places.{seen_at};
ghost use Rattle.shed_publish.specs.declared.newest.Version.{Version as Entry};

use crate::board::Notes;
use crate::newest::Newest;
use crate::reading::{Reads, read_newest, read_same};
use crate::told::Told;
use std::marker::Model;

/// The end of one loom. Contracts see the list that it saw last, the lists that it learnt since, and two counts: how
/// many readings gave it a version, and how many gave none. At 18446744073709551615 a count stays.
#[derive(Drop)]
pub struct LoomEnd {
    reader: Option<Reads>,
    readings: u64,
    missed: u64,
}

impl Model for LoomEnd {
    ghost use Rattle.shed_publish.specs.Ends.{EndValue};

    ghost Value = { EndValue };

    ghost use Rattle.shed_publish.specs.inner.Inside.{end_of};

    ghost view = { end_of };
}

impl LoomEnd {
    /// A new end at a place.
    pub(crate) fn at(reader: Reads) -> LoomEnd
        ensures { result ≡ seen_at reader.place }
    {
        LoomEnd {
            reader: Some(reader),
            readings: 0,
            missed: 0,
        }
    }

    /// Takes a place of the desk anew, and learns the list that it told: what this end sees next begins with it. What
    /// it saw before is forgotten. Where no place is free, the end has none, and sees nothing until it learns again.
    pub fn learn(&mut self, told: Told<'_>)
        ensures list { self.new.list ≡ [] }
        ensures learnt { LearntOr told.entry.desk.now.list self.new.learnt told.entry.desk.now.refused
            told.exit.0.now.refused }
        ensures counts { (self.new.readings ≡ self.old.readings) × (self.new.missed ≡ self.old.missed) }
        ensures desk { told.exit.0.now ≡ record told.entry.desk.now { refused = told.exit.0.now.refused } }
        ensures one_refused { OneMore told.entry.desk.now.refused told.exit.0.now.refused }
    {
        let Told { desk } = told;
        self.reader = None;
        let Some(writer) = &mut desk.writer else {
            unreachable!();
        };
        match writer.factory().reader() {
            Ok(mut reader) => {
                reader.learn::<Notes>(writer.tell::<Notes>());
                self.reader = Some(reader);
            }
            Err(_) => desk.refused = desk.refused.saturating_add(1),
        }
    }

    /// Reads the newest version. It takes no memory and waits for nobody. None comes where there was no reading, or the
    /// cards took no owner more.
    pub fn begin(&mut self) -> Option<Newest>
        ensures later { IsPrefix self.old.list self.new.list }
        ensures knows { (list : List Entry) → Knows list self.old → Knows list self.new }
        ensures some { IfSome result (λ n. EndsWith self.new.list (version_of n) × (self.new.learnt ≡ [])
            × IsPublished self.new.list × IsPrefix self.old.list self.new.list × BeginsWithAll self.new.list self.old.learnt) }
        ensures read { OnSome result (Rose self.old.readings self.new.readings × (self.new.missed ≡ self.old.missed)) }
        ensures none { IfNone result (Rose self.old.missed self.new.missed × (self.new.readings ≡ self.old.readings)) }
        ensures seen { SawOrStayed self.old self.new }
        ensures one_reading { OnSome result (self.new.readings ≡ risen self.old.readings) }
        ensures one_missed { IfNone result (self.new.missed ≡ risen self.old.missed) }
        ensures no_fewer { (self.old.readings ≤ self.new.readings) × (self.old.missed ≤ self.new.missed) }
    {
        let Some(reader) = self.reader.take() else {
            self.count(false);
            return None;
        };
        let (reader, newest) = read_newest(reader);
        self.reader = Some(reader);
        self.count(newest.is_some());
        newest
    }

    /// Reads once, lets the cards go, and answers whether the list that it sees is the told one: of the same length,
    /// and with the same entries from the place `known` on. The entries before it are known to the caller as a list
    /// that was told before. Where it reads nothing, it answers false and its lists stay. It takes no memory and waits
    /// for nobody.
    pub fn meet(&mut self, told: Told<'_>, known: u32) -> bool
        ensures later { IsPrefix self.old.list self.new.list }
        ensures knows { (list : List Entry) → Knows list self.old → Knows list self.new }
        ensures told { result ≡ true → (list : List Entry) → Knows list self.old → IsPrefix list self.new.list }
        ensures length { result ≡ true → length self.new.list ≡ length told.entry.desk.now.list }
        ensures same { result ≡ true → drop known self.new.list ≡ drop known told.entry.desk.now.list }
        ensures published { result ≡ true → IsPublished self.new.list }
        ensures read { result ≡ true → Rose self.old.readings self.new.readings × (self.new.missed ≡ self.old.missed) }
        ensures other { result ≡ false → SawOther known told.entry.desk.now.list self.old self.new }
        ensures missed { result ≡ false → Rose self.old.missed self.new.missed × (self.new.readings ≡ self.old.readings) }
        ensures seen { SawOrStayed self.old self.new }
        ensures one_reading { result ≡ true → self.new.readings ≡ risen self.old.readings }
        ensures one_missed { result ≡ false → self.new.missed ≡ risen self.old.missed }
        ensures no_fewer { (self.old.readings ≤ self.new.readings) × (self.old.missed ≤ self.new.missed) }
        ensures desk { told.exit.0.now ≡ told.entry.desk.now }
    {
        let Told { desk } = told;
        let Some(reader) = self.reader.take() else {
            self.count(false);
            return false;
        };
        let (reader, same) = read_same(reader, desk.shown(), known);
        self.reader = Some(reader);
        self.count(same);
        same
    }

    // Counts a reading: whether it gave a version.
    fn count(&mut self, given: bool)
        ensures lists { (self.new.list ≡ self.old.list) × (self.new.learnt ≡ self.old.learnt) }
        ensures readings { given ≡ true → (self.new.readings ≡ risen self.old.readings) × (self.new.missed ≡ self.old.missed) }
        ensures missed { given ≡ false → (self.new.missed ≡ risen self.old.missed) × (self.new.readings ≡ self.old.readings) }
        ensures no_fewer { (self.old.readings ≤ self.new.readings) × (self.old.missed ≤ self.new.missed) }
    {
        if given {
            self.readings = self.readings().saturating_add(1);
        } else {
            self.missed = self.missed().saturating_add(1);
        }
    }

    /// How many readings gave a version.
    pub fn readings(&self) -> u64
        ensures { result ≡ self.now.readings }
    {
        self.readings
    }

    /// How many readings gave none.
    pub fn missed(&self) -> u64
        ensures { result ≡ self.now.missed }
    {
        self.missed
    }
}
