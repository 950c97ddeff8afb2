//! Ties written out by hand, and the greatest one.

use crate::expect::expect;
use harness_ties::fault::TieFault;
use harness_ties::section::{Section, SectionKind};
use harness_ties::tie::Tie;
use mill_base::limits::{MAX_COLUMNS, MAX_ENDS};
use mill_base::memory::OutOfMemory;
use std::alloc::Global;
use std::test::Fail;

/// A section: its kind, its first and last column, and how many rounds it has.
type Part = (SectionKind, u32, u32, u32);

const STRAIGHT: SectionKind = SectionKind::Straight;

const REVERSE: SectionKind = SectionKind::Reverse;

const POINTED: SectionKind = SectionKind::Pointed;

fn sections_of(alloc: Global, parts: &[Part]) -> Result<Vec<Section>, OutOfMemory> {
    let mut sections = Vec::new(alloc);
    for (kind, from, to, times) in parts {
        sections.push(Section {
            kind: *kind,
            from: *from,
            to: *to,
            times: *times,
        })?;
    }
    Ok(sections)
}

/// The tie of some sections. No case has more columns than there may be.
fn tie_of(alloc: Global, parts: &[Part], columns: u32) -> Result<Tie, TieFault> {
    if columns < 1 || MAX_COLUMNS < columns {
        return Err(TieFault::OutOfMemory);
    }
    let sections = sections_of(alloc, parts)?;
    Tie::build(alloc, &sections, columns)
}

#[test]
fn the_sections_are_joined_in_order(rt: HostRuntime) -> Result<(), Fail> {
    const CASES: [(&[Part], &[u32]); 6] = [
        (&[], &[0, 1, 2]),
        (&[(STRAIGHT, 0, 2, 1)], &[0, 1, 2]),
        (&[(REVERSE, 0, 2, 1)], &[2, 1, 0]),
        (
            &[(STRAIGHT, 0, 1, 2), (REVERSE, 1, 2, 1)],
            &[0, 1, 0, 1, 2, 1],
        ),
        (&[(POINTED, 0, 2, 2)], &[0, 1, 2, 1, 0, 1, 2, 1]),
        (
            &[(POINTED, 1, 1, 3), (STRAIGHT, 0, 2, 1)],
            &[1, 1, 1, 0, 1, 2],
        ),
    ];
    for (parts, want) in CASES {
        expect(
            &rt,
            tie_of(rt.alloc(), parts, 3)?.copy()?.columns_of_ends() == want,
            "tie",
        );
    }
    Ok(())
}

#[test]
fn the_first_fault_is_told(rt: HostRuntime) -> Result<(), Fail> {
    const EVER: u32 = u32::MAX;
    const CASES: [(&[Part], u32, TieFault, &str); 7] = [
        (
            &[(STRAIGHT, 0, 1, 2), (STRAIGHT, 1, 0, 1)],
            2,
            TieFault::SectionRange(1),
            "section 1 out of range",
        ),
        (
            &[(STRAIGHT, 0, 1, 2)],
            1,
            TieFault::SectionRange(0),
            "section 0 out of range",
        ),
        (
            &[(STRAIGHT, 0, 1, 2), (POINTED, 0, 1, 0), (STRAIGHT, 1, 0, 1)],
            2,
            TieFault::SectionRange(1),
            "section 1 out of range",
        ),
        (
            &[(STRAIGHT, 0, 0, 16_385)],
            1,
            TieFault::TooManyEnds(0),
            "section 0 has too many ends",
        ),
        (
            &[
                (STRAIGHT, 0, 0, 16_384),
                (STRAIGHT, 1, 1, 1),
                (STRAIGHT, 1, 0, 1),
            ],
            2,
            TieFault::TooManyEnds(1),
            "section 1 has too many ends",
        ),
        (
            &[(POINTED, 0, 4095, EVER), (STRAIGHT, 1, 0, 1)],
            4096,
            TieFault::TooManyEnds(0),
            "section 0 has too many ends",
        ),
        (
            &[(STRAIGHT, 0, 1, 2)],
            5,
            TieFault::Untied(2),
            "column 2 untied",
        ),
    ];
    for (parts, columns, want, text) in CASES {
        expect(
            &rt,
            tie_of(rt.alloc(), parts, columns).err() == Some(want),
            text,
        );
        expect(&rt, want.to_string(rt.alloc())?.as_str() == text, text);
    }
    Ok(())
}

/// A section for each column, of four ends.
fn single_columns(alloc: Global) -> Result<Vec<Part>, OutOfMemory> {
    let mut parts = Vec::new(alloc);
    for column in 0..MAX_COLUMNS {
        parts.push((STRAIGHT, column, column, 4))?;
    }
    Ok(parts)
}

#[test]
fn a_section_for_each_column_fills_all_ends(rt: HostRuntime) -> Result<(), Fail> {
    let parts = single_columns(rt.alloc())?;
    expect(
        &rt,
        tie_of(rt.alloc(), &parts, MAX_COLUMNS)?.ends() == MAX_ENDS,
        "all ends",
    );
    Ok(())
}
