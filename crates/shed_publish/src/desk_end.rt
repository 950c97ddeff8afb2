//! The end that publishes.
ghost use Rattle.std.specs.Prelude.{◌≡◌, ◌+◌, ◌<◌, ◌≤◌, [], ◌∷◌, ◌++◌, length, IfOk, OnErr, OnOk};
ghost use Rattle.shed_publish.specs.Ends.{OneMore};
ghost use Rattle.shed_publish.specs.Seats.{SeatOf};
ghost use Rattle.shed_publish.specs.Versions.{version_of, IsPublished};
ghost use Rattle.shed_publish.specs.inner.Rule.{entries_of};

use crate::board::{Board, Looks};
use crate::loom_end::LoomEnd;
use crate::newest::Newest;
use crate::publishing::{Writes, last_version, one_entry, publish_entry};
use crate::told::Told;
use mill_base::memory::OutOfMemory;
use std::alloc::Global;
use std::marker::Model;
use std::sync::{Arc, Wait};

/// The one end that publishes. Contracts see the published list, and how often there was no place for a reader. It is
/// not `Drop`: end it by `close`.
pub struct DeskEnd {
    pub(crate) writer: Option<Writes>,
    pub(crate) refused: u64,
}

impl Model for DeskEnd {
    ghost use Rattle.shed_publish.specs.Ends.{DeskValue};

    ghost Value = { DeskValue };

    ghost use Rattle.shed_publish.specs.inner.Inside.{desk_of, IsDesk};

    ghost view = { desk_of };

    ghost invariant = { IsDesk };
}

/// What a loom gets of the desk.
#[derive(Drop)]
pub enum Seat {
    /// An end that reads.
    Reads(LoomEnd),
    /// No place was free.
    Later,
}

/// An end whose list is the first entry, with places for so many looms. It waits by its type, since it publishes; no
/// loom reads yet, so it returns at once.
pub fn desk_end<R: Wait>(
    rt: &R,
    alloc: Global,
    first: Newest,
    looms: u32,
) -> Result<DeskEnd, OutOfMemory>
    requires version { first.version ≡ 0 }
    requires looms { 1 ≤ looms }
    ensures { IfOk result (λ d. d ≡ record { list = version_of first ∷ []; refused = 0 }) }
{
    let version = first.version;
    let cards = Arc::try_clone(&first.cards)?;
    let spare = one_entry(alloc, Newest { version, cards })?;
    let shown = one_entry(alloc, first)?;
    let writer = Writes::new(alloc, shown, spare, looms as usize)?;
    // With nothing pending this shows the same list again: by it alone the writer comes to know that the list begins
    // with the entry.
    let (writer, published) = writer.publish_as::<Looks, R>(rt);
    if published.is_err() {
        writer.take(rt);
        return Err(OutOfMemory);
    }
    Ok(DeskEnd {
        writer: Some(writer),
        refused: 0,
    })
}

impl DeskEnd {
    /// A place for a loom, where one is free.
    pub fn seat(&mut self) -> Seat
        ensures desk { self.new ≡ record self.old { refused = self.new.refused } }
        ensures seat { SeatOf self.old.refused self.new.refused result }
        ensures one_refused { OneMore self.old.refused self.new.refused }
    {
        let reader = match &self.writer {
            Some(writer) => writer.factory().reader(),
            None => unreachable!(),
        };
        match reader {
            Ok(reader) => Seat::Reads(LoomEnd::at(reader)),
            Err(_) => {
                self.refused = self.refused.saturating_add(1);
                Seat::Later
            }
        }
    }

    /// What the looms read now.
    pub(crate) fn shown(&self) -> &Board
        ensures list { entries_of result.now ≡ self.now.list }
        ensures published { IsPublished self.now.list }
        ensures some { 0 < length self.now.list }
    {
        match &self.writer {
            Some(writer) => writer.published(),
            None => unreachable!(),
        }
    }

    /// How often there was no place for a reader. At 18446744073709551615 the count stays.
    pub fn refused(&self) -> u64
        ensures { result ≡ self.now.refused }
    {
        self.refused
    }

    /// The version that was published last.
    pub fn version(&self) -> u32
        ensures last { result + 1 ≡ length self.now.list }
        ensures published { IsPublished self.now.list }
    {
        last_version(self.shown())
    }

    /// Shows the looms one version more. It may wait for a loom that is in the middle of a reading.
    pub fn publish<R: Wait>(&mut self, rt: &R, next: Newest) -> Result<(), OutOfMemory>
        requires { IsPublished (self.old.list ++ version_of next ∷ []) }
        ensures ok { OnOk result (self.new ≡ record self.old { list = self.old.list ++ version_of next ∷ [] }) }
        ensures err { OnErr result (self.new ≡ self.old) }
    {
        let Some(writer) = self.writer.take() else {
            unreachable!();
        };
        let (writer, result) = publish_entry(rt, writer, next);
        match self.writer.replace(writer) {
            None => {
                result?;
                Ok(())
            }
            Some(writer) => {
                writer.take(rt);
                unreachable!()
            }
        }
    }

    /// What a loom's end learns: the list that is published now.
    pub fn tell(&mut self) -> Told<'_>
        ensures same { result.desk.ghost_name ≡ self.entry.ghost_name }
        ensures list { result.desk.now ≡ self.old }
    {
        Told { desk: self }
    }

    /// Ends this end. It may wait for a loom that is in the middle of a reading.
    pub fn close<R: Wait>(self, rt: &R) {
        let DeskEnd { writer, refused: _ } = self;
        match writer {
            Some(writer) => {
                writer.take(rt);
            }
            None => {}
        }
    }
}
