//! Room for a line, so that it can be put as one piece.
ghost use Rattle.std.specs.Prelude.{◌≡◌, [], Some};
ghost use Rattle.mill_base.specs.Causes.{HasCause, faults_after};
ghost use Rattle.mill_io.specs.Takes.{Took};

use crate::faults::Failed;
use crate::sink::Sink;
use arrayvec::ArrayVec;
use std::marker::Model;

// A line with the longest path that the system takes has room. It takes no memory.
const ROOM: usize = 8_192;

// Takes pieces as long as all of them have room.
#[derive(Drop)]
pub(crate) struct LineRoom {
    bytes: ArrayVec<u8, ROOM>,
    faults: u64,
}

impl Model for LineRoom {
    ghost use Rattle.mill_io.specs.Streams.{LineSoFar};

    ghost Value = { LineSoFar };

    ghost view = { λ l. record { bytes = l.bytes.items; faults = l.faults } };
}

impl LineRoom {
    pub(crate) fn new() -> LineRoom
        ensures { result ≡ record { bytes = []; faults = 0 } }
    {
        LineRoom {
            bytes: ArrayVec::new(),
            faults: 0,
        }
    }

    pub(crate) fn bytes(&self) -> &[u8]
        ensures { result.now ≡ self.now.bytes }
    {
        self.bytes.as_slice()
    }
}

impl Sink for LineRoom {
    ghost taken = { λ l. Some l.bytes };

    ghost faults = { λ l. l.faults };

    fn put(&mut self, piece: &[u8]) -> Result<(), Failed>
        ensures faults { self.new.faults ≡ faults_after self.old.faults result }
        ensures cause { HasCause self.old.faults self.new.faults result }
        ensures taken { Took (Some self.old.bytes) (Some self.new.bytes) piece.now result }
    {
        if self.bytes.try_extend_from_slice(piece).is_err() {
            self.faults = self.faults.saturating_add(1);
            return Err(Failed);
        }
        Ok(())
    }
}
