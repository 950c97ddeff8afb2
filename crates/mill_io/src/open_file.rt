//! What is done with a file or a stream once it is open, and what its answers say.
ghost use Rattle.std.specs.Prelude.{◌≡◌, ◌≢◌, ◌≤◌, ◌<◌, Ok, Err, length, take, IfOk, IfErr, IfSome, IsErr, OnOk};
ghost use Rattle.std.specs.Io.KnownBytes.{Appends};
ghost use Rattle.std.specs.IoError.{error_kind};
ghost use Rattle.mill_io.specs.Reads.{IsRefusalOf};
ghost use Rattle.mill_io.specs.declared.shelf.ShelfRefusal.TheVariants.{TooLong};

use crate::shelf::ShelfRefusal;
use std::alloc::Global;
use std::io;
use std::io::{ErrorKind, Read, Write};

/// Puts all of the bytes behind what an open file or a stream has taken.
pub fn fill<F: Write>(file: &mut F, bytes: &[u8]) -> io::Result<()>
    ensures { OnOk result (Appends (F.contents file.old) (F.contents file.new) bytes.now) }
{
    file.write_all(bytes)
}

/// The first bytes that an open file or a stream still gives: so many, or all where it has fewer.
pub fn read_first<F: Read + Drop>(file: F, alloc: Global, most: u64) -> io::Result<Vec<u8>>
    ensures { IfOk result (λ bytes. IfSome (F.remaining file) (λ left. bytes.items ≡ take most left)) }
{
    let mut bytes = Vec::new(alloc);
    file.take(most).read_to_end(&mut bytes)?;
    Ok(bytes)
}

/// The answer of a read of one byte more than the limit: that byte tells a file that is too long, of whatever length. An error of the
/// system is a read that failed, unless it is want of memory.
pub fn answer_of(read: io::Result<Vec<u8>>, limit: u64) -> Result<Vec<u8>, ShelfRefusal>
    ensures within { IfOk read (λ bytes. length bytes.items ≤ limit → result ≡ Ok bytes) }
    ensures longer { IfOk read (λ bytes. limit < length bytes.items → result ≡ Err TooLong) }
    ensures error { IfErr read (λ error. IfErr result (IsRefusalOf (error_kind error))) }
    ensures err { IfErr read (λ _. IsErr result) }
{
    match read {
        Ok(bytes) if limit < bytes.len() as u64 => Err(ShelfRefusal::TooLong),
        Ok(bytes) => Ok(bytes),
        Err(error) => Err(refusal_of(&error)),
    }
}

fn refusal_of(error: &io::Error) -> ShelfRefusal
    ensures { IsRefusalOf (error_kind error.now) result }
{
    if error.kind() == ErrorKind::OutOfMemory {
        return ShelfRefusal::OutOfMemory;
    }
    ShelfRefusal::Failed
}
