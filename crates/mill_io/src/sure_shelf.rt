//! A shelf in memory that takes no memory for its files once it is made.
ghost use Rattle.std.specs.Prelude.{◌≡◌, ◌≤◌, [], Some, None, Err, length, is_ok, IfOk, OnOk, OnErr, bytes_eq, option_copied, position, All};
ghost use Rattle.mill_base.specs.Causes.{HasCause, Rose, faults_after};
ghost use Rattle.mill_io.specs.Files.{Stands, Wrote, content_of};
ghost use Rattle.mill_io.specs.Memory.{Gives};
ghost use Rattle.mill_io.specs.Reads.{OnFailed, Reads, name_after, reads_after};
ghost use Rattle.mill_io.specs.Sure.{files_in, has_room};
ghost use Rattle.mill_io.specs.declared.sure_shelf.TheConstants.{NAME_ROOM};

use crate::faults::Failed;
use crate::room::{Room, overwrite};
use crate::shelf::{Shelf, ShelfRefusal};
use mill_base::memory::OutOfMemory;
use std::alloc::Global;
use std::marker::Model;

/// The most bytes of a file's name.
pub const NAME_ROOM: usize = 255;

/// Files in room that was made with the shelf. A write fails exactly where there is no room for it, and a read exactly where no file
/// has the name.
#[derive(Drop)]
pub struct SureShelf {
    // The first `used` of them hold files.
    places: Vec<Place>,
    used: usize,
    room: u64,
    read_faults: u64,
    write_faults: u64,
    failed_name: Vec<u8>,
}

impl Model for SureShelf {
    ghost use Rattle.std.specs.Prelude.{◌≡◌, ◌≤◌, length, take, All};
    ghost use Rattle.std.specs.Vec.{vec_capacity};
    ghost use Rattle.mill_io.specs.Sure.{SureFiles, files_in};
    ghost use Rattle.mill_io.specs.declared.sure_shelf.TheConstants.{NAME_ROOM};

    ghost Value = { SureFiles };

    ghost view = { λ s. record { files = files_in (take s.used s.places.items); read_faults = s.read_faults; write_faults = s.write_faults; failed_name = s.failed_name.items; places = length s.places.items; room = s.room } };

    ghost invariant = { λ s. (s.used ≤ length s.places.items) × All (λ place. place.room ≡ s.room) s.places.items × (NAME_ROOM ≤ vec_capacity s.failed_name) };
}

impl SureShelf {
    /// A shelf without a file, with room for so many files of `room` bytes each, with names of at most 255 bytes.
    pub fn new(alloc: Global, files: u32, room: u64) -> Result<SureShelf, OutOfMemory>
        ensures { IfOk result (λ shelf. shelf ≡ record { files = []; read_faults = 0; write_faults = 0; failed_name = []; places = files; room = room }) }
    {
        let places = empty_places(alloc, files as usize, room as usize)?;
        let failed_name = Vec::with_capacity(alloc, NAME_ROOM)?;
        Ok(SureShelf {
            places,
            used: 0,
            room,
            read_faults: 0,
            write_faults: 0,
            failed_name,
        })
    }

    /// Puts the content under the name, in place of what stood there, and refuses exactly where there is no room for it.
    pub fn add(&mut self, name: &str, content: &[u8]) -> Result<(), OutOfMemory>
        ensures ok { OnOk result (Stands self.old.files self.new.files name.now content.now) }
        ensures err { OnErr result (self.new.files ≡ self.old.files) }
        ensures fits { is_ok result ≡ has_room self.old name.now content.now }
        ensures others { self.new ≡ record self.old { files = self.new.files } }
    {
        self.store(name.as_bytes(), content)
    }

    /// The content under the name.
    pub fn content(&self, name: &str) -> Option<&[u8]>
        ensures { option_copied result ≡ content_of self.now.files name.now }
    {
        content_under(&self.places[..self.used], name.as_bytes())
    }

    fn store(&mut self, name: &[u8], content: &[u8]) -> Result<(), OutOfMemory>
        ensures ok { OnOk result (Stands self.old.files self.new.files name.now content.now) }
        ensures err { OnErr result (self.new.files ≡ self.old.files) }
        ensures fits { is_ok result ≡ has_room self.old name.now content.now }
        ensures others { self.new ≡ record self.old { files = self.new.files } }
    {
        if self.room < content.len() as u64 {
            return Err(OutOfMemory);
        }
        if let Some(at) = place_of(&self.places[..self.used], name) {
            self.places[at].set_content(content);
            return Ok(());
        }
        if self.used == self.places.len() || NAME_ROOM < name.len() {
            return Err(OutOfMemory);
        }
        self.places[self.used].fill(name, content);
        self.used += 1;
        Ok(())
    }
}

impl Shelf for SureShelf {
    ghost files = { λ s. Some s.files };

    ghost read_faults = { λ s. s.read_faults };

    ghost write_faults = { λ s. s.write_faults };

    ghost failed_name = { λ s. s.failed_name };

    fn read(&mut self, alloc: Global, name: &str, limit: u64) -> Result<Vec<u8>, ShelfRefusal>
        ensures files { self.new.files ≡ self.old.files }
        ensures writes { self.new.write_faults ≡ self.old.write_faults }
        ensures reads { self.new.read_faults ≡ reads_after self.old.read_faults result }
        ensures later { self.old.read_faults ≤ self.new.read_faults }
        ensures cause { OnFailed result (Rose self.old.read_faults self.new.read_faults) }
        ensures name { self.new.failed_name ≡ name_after self.old.failed_name name.now result }
        ensures content { Reads (Some self.old.files) name.now limit result }

        // Which names it does not find, and what stays.
        ensures given { Gives (content_of self.old.files name.now) limit result }
        ensures failed { length name.now ≤ NAME_ROOM → content_of self.old.files name.now ≡ None → result ≡ Err ShelfRefusal.Failed }
        ensures room { (self.new.places ≡ self.old.places) × (self.new.room ≡ self.old.room) }
    {
        let Some(content) = content_under(&self.places[..self.used], name.as_bytes()) else {
            overwrite(&mut self.failed_name, name.as_bytes())?;
            self.read_faults = self.read_faults.saturating_add(1);
            return Err(ShelfRefusal::Failed);
        };
        if limit < content.len() as u64 {
            return Err(ShelfRefusal::TooLong);
        }
        Ok(Vec::from_slice(alloc, content)?)
    }

    fn write(&mut self, name: &str, bytes: &[u8]) -> Result<(), Failed>
        ensures reads { self.new.read_faults ≡ self.old.read_faults }
        ensures name { self.new.failed_name ≡ self.old.failed_name }
        ensures writes { self.new.write_faults ≡ faults_after self.old.write_faults result }
        ensures cause { HasCause self.old.write_faults self.new.write_faults result }
        ensures content { Wrote (Some self.old.files) (Some self.new.files) name.now bytes.now result }

        // Which bytes it takes, and what stays.
        ensures fits { is_ok result ≡ has_room self.old name.now bytes.now }
        ensures err { OnErr result (self.new.files ≡ self.old.files) }
        ensures room { (self.new.places ≡ self.old.places) × (self.new.room ≡ self.old.room) }
    {
        if self.store(name.as_bytes(), bytes).is_err() {
            self.write_faults = self.write_faults.saturating_add(1);
            return Err(Failed);
        }
        Ok(())
    }
}

// Room for one file.
#[derive(Drop)]
struct Place {
    name: Room,
    content: Room,
}

impl Model for Place {
    ghost use Rattle.std.specs.Prelude.{◌≡◌};
    ghost use Rattle.mill_io.specs.Sure.{Placed};
    ghost use Rattle.mill_io.specs.declared.sure_shelf.TheConstants.{NAME_ROOM};

    ghost Value = { Placed };

    ghost view = { λ p. record { file = record { name = p.name.bytes; content = p.content.bytes }; room = p.content.room } };

    ghost invariant = { λ p. p.name.room ≡ NAME_ROOM };
}

impl Place {
    fn new(alloc: Global, room: usize) -> Result<Place, OutOfMemory>
        ensures { IfOk result (λ place. place ≡ record { file = record { name = []; content = [] }; room = room }) }
    {
        let name = Room::new(alloc, NAME_ROOM)?;
        let content = Room::new(alloc, room)?;
        Ok(Place { name, content })
    }

    fn name(&self) -> &[u8]
        ensures { result.now ≡ self.now.file.name }
    {
        self.name.bytes()
    }

    fn content(&self) -> &[u8]
        ensures { result.now ≡ self.now.file.content }
    {
        self.content.bytes()
    }

    fn fill(&mut self, name: &[u8], content: &[u8])
        requires name { length name.now ≤ NAME_ROOM }
        requires content { length content.now ≤ self.old.room }
        ensures { self.new ≡ record { file = record { name = name.now; content = content.now }; room = self.old.room } }
    {
        self.name.replace(name);
        self.content.replace(content);
    }

    fn set_content(&mut self, content: &[u8])
        requires { length content.now ≤ self.old.room }
        ensures { self.new ≡ record { file = record { name = self.old.file.name; content = content.now }; room = self.old.room } }
    {
        self.content.replace(content);
    }
}

fn empty_places(alloc: Global, count: usize, room: usize) -> Result<Vec<Place>, OutOfMemory>
    ensures count { IfOk result (λ places. length places.items ≡ count) }
    ensures room { IfOk result (λ places. All (λ place. place.room ≡ room) places.items) }
{
    let mut places = Vec::with_capacity(alloc, count)?;
    for _ in 0..count {
        places.push(Place::new(alloc, room)?)?;
    }
    Ok(places)
}

fn content_under<'a>(files: &'a [Place], name: &[u8]) -> Option<&'a [u8]>
    ensures { option_copied result ≡ content_of (files_in files.now) name.now }
{
    let at = place_of(files, name)?;
    Some(files[at].content())
}

fn place_of(files: &[Place], name: &[u8]) -> Option<usize>
    ensures { result ≡ position (λ place. bytes_eq place.file.name name.now) files.now }
{
    files.iter().position(|file| file.name() == name)
}
