//! A disk with one file.
ghost use Rattle.std.specs.Prelude.{◌≡◌, ◌≤◌, ◌<◌, ◌^◌, ℕ, Option, Some, IfSome, length};
ghost use Rattle.mill_base.specs.Causes.{HasCause, faults_after};
ghost use Rattle.mill_base.specs.Phrases.{phrase_text};
ghost use Rattle.journal_disk.specs.Disks.{Log, seen};
ghost use Rattle.journal_disk.specs.Texts.{failed_text};
ghost use Rattle.journal_disk.specs.Told.{Wrote, Reads, IsLength, after_sync};

use mill_base::memory::OutOfMemory;
use mill_base::phrase::Phrase;
use std::alloc::AllocError;
use std::error::Error;
use std::fmt;

/// A call of a disk failed. The disk's count of faults tells how often that came.
#[derive(Clone, Copy, Debug, PartialEq, Eq)]
pub struct Failed;

impl Failed {
    /// The text of the fault (this project's own).
    pub fn phrase(&self) -> Phrase
        ensures { phrase_text result ≡ failed_text self.now }
    {
        Phrase::Plain("cannot keep")
    }
}

impl fmt::Display for Failed {
    ghost output = { λ fault. Some (failed_text fault) };

    fn fmt<W: fmt::Write>(&self, f: &mut fmt::Formatter<W>) -> fmt::Result {
        let phrase = self.phrase();
        write!(f, "{phrase}")
    }
}

impl Error for Failed {}

// A disk in memory that finds none counts that as a fault.
impl From<AllocError> for Failed {
    fn from(_error: AllocError) -> Failed {
        Failed
    }
}

impl From<OutOfMemory> for Failed {
    fn from(_error: OutOfMemory) -> Failed {
        Failed
    }
}

/// The bytes of one file. A disk counts the calls that failed; at its greatest value the count stays. What is told of a disk that does
/// not tell its log is the counts alone.
pub trait Disk {
    // what stood on the disk at first and the calls since, where it tells: a disk in memory does, a real one doesn't
    ghost told: { Self → Option Log };

    ghost faults: { Self → ℕ };

    /// Puts the bytes from `at` on at the front of `out`, and answers how many there were: fewer than asked only at the end. Where it
    /// fails, `out` may hold any bytes.
    fn read(&mut self, at: u64, out: &mut [u8]) -> Result<u32, Failed>
        requires { length out.old < 2 ^ 32 }
        ensures bytes { Reads (told self.old) at out.old out.new result }
        ensures told { told self.new ≡ told self.old }
        ensures faults { faults self.new ≡ faults_after (faults self.old) result }
        ensures cause { HasCause (faults self.old) (faults self.new) result };

    /// Puts the bytes from `at` on over what is there, and past the end. Where it fails, it has put the first of them, or none.
    fn write_at(&mut self, at: u64, bytes: &[u8]) -> Result<(), Failed>
        requires { IfSome (told self.old) (λ log. at ≤ length (seen log)) }
        ensures told { Wrote (told self.old) (told self.new) at bytes.now result }
        ensures faults { faults self.new ≡ faults_after (faults self.old) result }
        ensures cause { HasCause (faults self.old) (faults self.new) result };

    /// How many bytes there are.
    fn len(&mut self) -> Result<u64, Failed>
        ensures length { IsLength (told self.old) result }
        ensures told { told self.new ≡ told self.old }
        ensures faults { faults self.new ≡ faults_after (faults self.old) result }
        ensures cause { HasCause (faults self.old) (faults self.new) result };

    /// Brings to the disk what a read gives. Where it fails, nothing is brought there.
    fn sync(&mut self) -> Result<(), Failed>
        ensures told { told self.new ≡ after_sync (told self.old) result }
        ensures faults { faults self.new ≡ faults_after (faults self.old) result }
        ensures cause { HasCause (faults self.old) (faults self.new) result };
}
