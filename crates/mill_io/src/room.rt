//! Bytes in room that was made before.
ghost use Rattle.std.specs.Prelude.{◌≡◌, ◌≤◌, ◌+◌, ◌-◌, [], ◌++◌, length, IsOk, IfOk, OnOk, OnErr};
ghost use Rattle.std.specs.Vec.{vec_capacity};

use mill_base::memory::OutOfMemory;
use std::alloc::Global;
use std::marker::Model;

// Puts the bytes in place of those that the vector has. It takes memory only where they are more than it has room for.
pub(crate) fn overwrite(kept: &mut Vec<u8>, bytes: &[u8]) -> Result<(), OutOfMemory>
    ensures ok { OnOk result (kept.new.items ≡ bytes.now) }
    ensures err { OnErr result (kept.new.items ≡ kept.old.items) }
    ensures room { length bytes.now ≤ vec_capacity kept.old → IsOk result }
    ensures capacity { vec_capacity kept.old ≤ vec_capacity kept.new }
{
    let missing = bytes.len().saturating_sub(kept.len());
    kept.reserve(missing)?;
    kept.clear();
    kept.extend_from_slice(bytes)?;
    Ok(())
}

// At most so many bytes, which take no memory.
#[derive(Drop)]
pub(crate) struct Room {
    bytes: Vec<u8>,
    size: usize,
}

impl Model for Room {
    ghost use Rattle.std.specs.Prelude.{◌≤◌, length};
    ghost use Rattle.std.specs.Vec.{vec_capacity};
    ghost use Rattle.mill_io.specs.Sure.{Kept};

    ghost Value = { Kept };

    ghost view = { λ r. record { bytes = r.bytes.items; room = r.size } };

    ghost invariant = { λ r. (length r.bytes.items ≤ r.size) × (r.size ≤ vec_capacity r.bytes) };
}

impl Room {
    pub(crate) fn new(alloc: Global, size: usize) -> Result<Room, OutOfMemory>
        ensures { IfOk result (λ r. r ≡ record { bytes = []; room = size }) }
    {
        let bytes = Vec::with_capacity(alloc, size)?;
        Ok(Room { bytes, size })
    }

    pub(crate) fn bytes(&self) -> &[u8]
        ensures { result.now ≡ self.now.bytes }
    {
        &self.bytes
    }

    // How many bytes more there is room for.
    pub(crate) fn left(&self) -> usize
        ensures { length self.now.bytes + result ≡ self.now.room }
    {
        self.size - self.bytes.len()
    }

    pub(crate) fn append(&mut self, bytes: &[u8])
        requires { length self.old.bytes + length bytes.now ≤ self.old.room }
        ensures { self.new ≡ record { bytes = self.old.bytes ++ bytes.now; room = self.old.room } }
    {
        self.bytes.extend_from_slice(bytes).unwrap();
    }

    // Puts the bytes in place of those that stand there.
    pub(crate) fn replace(&mut self, bytes: &[u8])
        requires { length bytes.now ≤ self.old.room }
        ensures { self.new ≡ record { bytes = bytes.now; room = self.old.room } }
    {
        self.bytes.clear();
        self.bytes.extend_from_slice(bytes).unwrap();
    }
}
