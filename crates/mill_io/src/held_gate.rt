//! A gate that holds callers at a point of a run until another point was passed.
ghost use Rattle.std.specs.Prelude.{◌≡◌, ◌<◌, length, IfOk};

use crate::gate::{Gate, Point};
use mill_base::memory::OutOfMemory;
use std::alloc::Global;
use std::marker::Model;
use std::sync::atomic::AtomicU64;
use std::sync::atomic::Ordering::SeqCst;

/// Who comes to `held` stays there until someone came to `until`, or for so many turns. A turn is one look.
#[derive(Clone, Copy, Debug, PartialEq, Eq)]
pub struct Hold {
    pub held: Point,
    pub until: Point,
    pub turns: u64,
}

/// How a hold ended so far.
#[derive(Clone, Copy, Debug, PartialEq, Eq)]
pub enum HoldEnd {
    /// The turns of someone who was held ran out.
    ByTurns,
    /// Whoever was held could go on by the point.
    ByPoint,
    /// Nobody who came to the held point has left it.
    NotMet,
}

/// A hold with what became of it: whether its point was passed, whether someone left it by the point, and whether someone's turns ran out.
/// All three are marks that threads share, 0 or 1.
#[derive(Drop)]
pub struct Watch {
    hold: Hold,
    passed: AtomicU64,
    by_point: AtomicU64,
    by_turns: AtomicU64,
}

/// Holds callers at points of a run, so that a test can bring about an order of what threads do. A point is passed once someone came there,
/// held or not. Contracts see the list of the holds; what becomes of them is up to the threads, and no contract speaks of it. It takes no
/// memory once it is made, and waits by looking again and again, for as many turns as a hold has.
#[derive(Drop)]
pub struct HeldGate {
    watches: Vec<Watch>,
}

impl Model for HeldGate {
    ghost use Rattle.std.specs.Prelude.{List, map};
    ghost use Rattle.mill_io.specs.declared.held_gate.Hold.{Hold};

    ghost Value = { List Hold };

    ghost view = { λ g. map (λ watch. watch.hold) g.watches.items };
}

impl HeldGate {
    /// A gate with these holds, of which no point was passed.
    pub fn new(alloc: Global, holds: Vec<Hold>) -> Result<HeldGate, OutOfMemory>
        ensures { IfOk result (λ gate. gate ≡ holds.items) }
    {
        let mut watches = Vec::with_capacity(alloc, holds.len())?;
        for hold in holds.iter() {
            watches.push(Watch {
                hold: *hold,
                passed: AtomicU64::new(0),
                by_point: AtomicU64::new(0),
                by_turns: AtomicU64::new(0),
            })?;
        }
        Ok(HeldGate { watches })
    }

    /// How a hold ended, by its number in the list of holds.
    pub fn ending(&self, hold: u32) -> HoldEnd
        requires { hold < length self.now }
    {
        let watch = &self.watches[hold as usize];
        if watch.by_turns.load(SeqCst) != 0 {
            return HoldEnd::ByTurns;
        }
        if watch.by_point.load(SeqCst) != 0 {
            return HoldEnd::ByPoint;
        }
        HoldEnd::NotMet
    }
}

impl Gate for HeldGate {
    fn at(&self, point: Point) {
        for watch in &self.watches {
            if watch.hold.until == point {
                watch.passed.store(1, SeqCst);
            }
        }
        for watch in &self.watches {
            if watch.hold.held == point {
                stay(watch);
            }
        }
    }
}

// Stays until the hold's point was passed, or its turns are over.
fn stay(watch: &Watch) {
    for _ in 0..watch.hold.turns {
        if watch.passed.load(SeqCst) != 0 {
            watch.by_point.store(1, SeqCst);
            return;
        }
    }
    let ended = if watch.passed.load(SeqCst) != 0 {
        &watch.by_point
    } else {
        &watch.by_turns
    };
    ended.store(1, SeqCst);
}
