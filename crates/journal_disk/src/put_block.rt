//! How a block gets on a disk, so that a crash at any moment leaves all of it or none.
ghost use Rattle.std.specs.Prelude.{◌≡◌, ◌≤◌, ◌<◌, ◌^◌, ◌+◌, IfSome, OnOk, length};
ghost use Rattle.mill_base.specs.Causes.{HasCause};
ghost use Rattle.journal_disk.specs.Disks.{AtRest, LeavesOnly, seen};
ghost use Rattle.journal_disk.specs.Told.{BothTold};
ghost use Rattle.journal_disk.specs.Gates.{ShutAt, ShutOrOpened, Opened};

use crate::disk::{Disk, Failed};

/// Puts 1 at the place and the body behind it: first the body alone, and the 1 only when that is on the disk. What stands up to the
/// place stays. The two calls of `sync` in between and at the end are what makes a crash harmless.
pub fn put_block<D: Disk>(disk: &mut D, place: u64, body: &[u8]) -> Result<(), Failed>
    requires small { place < 2 ^ 63 }
    requires rest { IfSome (D.told disk.old) (λ log. AtRest log × ShutAt (seen log) place) }
    // At each moment of the call a crash leaves a byte other than 1 at the place, or 1 and the body.
    ensures crash { BothTold (D.told disk.old) (D.told disk.new) (λ old new. LeavesOnly old new (ShutOrOpened (seen old) place body.now)) }
    // After it succeeded nothing is pending, and 1 and the body stand there.
    ensures put { OnOk result (BothTold (D.told disk.old) (D.told disk.new) (λ old new. AtRest new × Opened (seen old) place body.now (seen new))) }
    ensures cause { HasCause (D.faults disk.old) (D.faults disk.new) result }
{
    disk.write_at(place + 1, body)?;
    disk.sync()?;
    disk.write_at(place, &[1])?;
    disk.sync()
}
