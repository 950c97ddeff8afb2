//! Callers are let go by the point, or once their turns are over.
use mill_io::gate::{Gate, Point};
use mill_io::held_gate::{HeldGate, Hold, HoldEnd};
use std::test::Fail;
use std::thread::join;

const COMMIT: Point = Point::BeforeCommit { act: 1 };

const SHOWN: Point = Point::Published { version: 1 };

#[test]
fn a_hold_ends_by_its_point_or_by_its_turns(rt: HostRuntime) -> Result<(), Fail> {
    let other = Point::BeforeCommit { act: 2 };
    for (turns, points, end) in [
        (9, [other, SHOWN, other], HoldEnd::NotMet),
        (9, [SHOWN, COMMIT, other], HoldEnd::ByPoint),
        (9, [COMMIT, SHOWN, COMMIT], HoldEnd::ByTurns),
        (0, [COMMIT, SHOWN, other], HoldEnd::ByTurns),
        (0, [SHOWN, COMMIT, other], HoldEnd::ByPoint),
    ] {
        let hold = Hold {
            held: COMMIT,
            until: SHOWN,
            turns,
        };
        let gate = HeldGate::new(rt.alloc(), Vec::from_array(rt.alloc(), [hold])?)?;
        for point in points {
            gate.at(point);
        }
        assert_eq!(rt; gate.ending(0), end, "{turns} turns");
    }
    Ok(())
}

// Who is held at a point has passed it for others.
#[test]
fn a_point_is_passed_by_who_is_held_there(rt: HostRuntime) -> Result<(), Fail> {
    let first = Hold {
        held: COMMIT,
        until: SHOWN,
        turns: 9,
    };
    let second = Hold {
        held: SHOWN,
        until: COMMIT,
        turns: 9,
    };
    let gate = HeldGate::new(rt.alloc(), Vec::from_array(rt.alloc(), [first, second])?)?;
    gate.at(SHOWN);
    gate.at(COMMIT);
    assert_eq!(rt;
        (gate.ending(0), gate.ending(1)),
        (HoldEnd::ByPoint, HoldEnd::ByTurns)
    );
    Ok(())
}

#[test]
fn a_thread_is_held_until_another_comes_to_the_point(rt: HostRuntime) -> Result<(), Fail> {
    let hold = Hold {
        held: COMMIT,
        until: SHOWN,
        turns: 100_000_000,
    };
    let gate = HeldGate::new(rt.alloc(), Vec::from_array(rt.alloc(), [hold])?)?;
    let shared = &gate;
    join(&rt, move || shared.at(COMMIT), move || shared.at(SHOWN));
    assert_eq!(rt; gate.ending(0), HoldEnd::ByPoint);
    Ok(())
}
