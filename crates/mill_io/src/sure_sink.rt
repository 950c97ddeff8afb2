//! A sink in memory that takes no memory once it is made.
ghost use Rattle.std.specs.Prelude.{◌≡◌, ◌+◌, [], Some, length, is_ok, nat_le, IfOk, OnErr};
ghost use Rattle.mill_base.specs.Causes.{HasCause, faults_after};
ghost use Rattle.mill_io.specs.Takes.{Took};

use crate::faults::Failed;
use crate::room::Room;
use crate::sink::Sink;
use mill_base::memory::OutOfMemory;
use std::alloc::Global;
use std::marker::Model;

/// Keeps all that it takes, in room that was made with it. A call fails exactly where its piece is more than there is room for, and
/// then it takes nothing.
#[derive(Drop)]
pub struct SureSink {
    kept: Room,
    faults: u64,
}

impl Model for SureSink {
    ghost use Rattle.mill_io.specs.Sure.{SureBytes};

    ghost Value = { SureBytes };

    ghost view = { λ s. record { bytes = s.kept.bytes; faults = s.faults; room = s.kept.room } };
}

impl SureSink {
    /// A sink that took nothing, with room for so many bytes.
    pub fn new(alloc: Global, room: u64) -> Result<SureSink, OutOfMemory>
        ensures { IfOk result (λ sink. sink ≡ record { bytes = []; faults = 0; room = room }) }
    {
        let kept = Room::new(alloc, room as usize)?;
        Ok(SureSink { kept, faults: 0 })
    }

    /// All that it took, in the order in which it came.
    pub fn taken(&self) -> &[u8]
        ensures { result.now ≡ self.now.bytes }
    {
        self.kept.bytes()
    }
}

impl Sink for SureSink {
    ghost taken = { λ s. Some s.bytes };

    ghost faults = { λ s. s.faults };

    fn put(&mut self, piece: &[u8]) -> Result<(), Failed>
        ensures faults { self.new.faults ≡ faults_after self.old.faults result }
        ensures cause { HasCause self.old.faults self.new.faults result }
        ensures taken { Took (Some self.old.bytes) (Some self.new.bytes) piece.now result }

        // Which pieces it takes.
        ensures fits { is_ok result ≡ nat_le (length self.old.bytes + length piece.now) self.old.room }
        ensures err { OnErr result (self.new.bytes ≡ self.old.bytes) }
        ensures room { self.new.room ≡ self.old.room }
    {
        if self.kept.left() < piece.len() {
            self.faults = self.faults.saturating_add(1);
            return Err(Failed);
        }
        self.kept.append(piece);
        Ok(())
    }
}
