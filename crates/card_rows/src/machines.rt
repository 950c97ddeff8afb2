//! Rows that are lifted from cards written out by hand. A `#` is a lifted end.
ghost use Rattle.std.specs.Prelude.{◌≡◌, ◌+◌, ◌/◌, length};

use casting_out::casting::Casting;
use harness_ties::section::{Section, SectionKind};
use harness_ties::tie::Tie;
use loom_machine::machine::Machine;
use mill_base::bit_row::BitRow;
use mill_base::limits::{MAX_COLUMNS, MAX_ENDS, MAX_HOOKS};
use std::alloc::Global;
use std::process::Abort;
use std::test::Fail;

fn drawn(alloc: Global, row: &BitRow) -> Result<String, Fail> {
    let mut text = String::new(alloc);
    for k in 0..row.len() {
        text.push(if row.get(k) { '#' } else { '.' })?;
    }
    Ok(text)
}

/// What a machine lifts by two cards one after the other, into a row that was full before.
fn expect_lifted(
    rt: &impl Abort,
    alloc: Global,
    tie: &Tie,
    casting: &Casting,
    cards: [u8; 2],
    want: [&str; 2],
) -> Result<(), Fail>
    requires columns { length casting.now.columns ≡ tie.now.columns }
    requires hooks { (casting.now.hooks + 7) / 8 ≡ 1 }
{
    let mut machine = Machine::new(alloc, tie, casting)?;
    let mut out = BitRow::new(alloc, tie.ends())?;
    out.fill(true);
    machine.pick(&[cards[0]], &mut out);
    assert_eq!(rt; drawn(alloc, &out)?.as_str(), want[0]);
    machine.pick(&[cards[1]], &mut out);
    assert_eq!(rt; drawn(alloc, &out)?.as_str(), want[1]);
    Ok(())
}

#[test]
fn a_hole_lifts_the_ends_of_its_column(rt: HostRuntime) -> Result<(), Fail> {
    const STRAIGHT: SectionKind = SectionKind::Straight;
    const REVERSE: SectionKind = SectionKind::Reverse;
    const POINTED: SectionKind = SectionKind::Pointed;
    const CASES: [(SectionKind, [u8; 2], [&str; 2]); 4] = [
        (STRAIGHT, [0xEC, 0x00], ["#####", "....."]),
        (STRAIGHT, [0x80, 0x08], ["#....", "...#."]),
        (REVERSE, [0xC0, 0x04], ["...##", "#...."]),
        (POINTED, [0xA0, 0x4C], ["#.#...#.", ".#.###.#"]),
    ];
    let alloc = rt.alloc();
    let casting = Casting::build(alloc, 8, &[3], 5)?;
    for (kind, cards, want) in CASES {
        let round = Section {
            kind,
            from: 0,
            to: 4,
            times: 1,
        };
        let tie = Tie::build(alloc, &[round], 5)?;
        expect_lifted(&rt, alloc, &tie, &casting, cards, want)?;
    }
    Ok(())
}

#[test]
fn the_greatest_machine_lifts_all_its_ends(rt: HostRuntime) -> Result<(), Fail> {
    let alloc = rt.alloc();
    let rounds = Section {
        kind: SectionKind::Straight,
        from: 0,
        to: MAX_COLUMNS - 1,
        times: 4,
    };
    let tie = Tie::build(alloc, &[rounds], MAX_COLUMNS)?;
    let casting = Casting::build(alloc, MAX_HOOKS, &[0], MAX_COLUMNS)?;
    let mut machine = Machine::new(alloc, &tie, &casting)?;
    let mut out = BitRow::new(alloc, tie.ends())?;
    let full = [0xFFu8; 2048];
    machine.pick(&full, &mut out);
    assert_eq!(rt; out.count(), MAX_ENDS);
    let empty = [0u8; 2048];
    machine.pick(&empty, &mut out);
    assert_eq!(rt; out.count(), 0);
    Ok(())
}
