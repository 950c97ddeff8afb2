//! Painters and looms that go on at the same time. What a painter commits may come before or after a loom begins a
//! repeat of that shift, and the acts of two painters may come in either order: each report that may come is listed. A
//! `#` is a lifted end. The digests are SHA-256 of the packed rows, worked out apart from this program.

use crate::calls::woven;
use crate::files::{Changes, session};
use mill_io::gate::{OpenGate, Point};
use mill_io::held_gate::{HeldGate, Hold, HoldEnd};
use std::alloc::{AllocError, Global};
use std::process::Abort;
use std::test::Fail;

/// Changed lines of the smallest session, and each report that may come of it.
type Case = (Changes, &'static [&'static str]);

const PAINTED: [Case; 4] = [
    // A commit without an act before it makes a version too.
    (
        &[("repeats = [1]", "repeats = [1]\nacts = [[\"commit\"]]")],
        &[
            "studio 1
design columns 2 picks 2 ends 2 hooks 2
shift 0
act 0 painter 0 number 1 accepted 1
loom 0 repeat 0 version 0 sha256 607b306244cab5c6e8670d7525e1af04304b5d2c3a8a1ad791cb01de20e22117
row 0 #.
row 1 .#
end versions 1
",
            "studio 1
design columns 2 picks 2 ends 2 hooks 2
shift 0
act 0 painter 0 number 1 accepted 1
loom 0 repeat 0 version 1 sha256 607b306244cab5c6e8670d7525e1af04304b5d2c3a8a1ad791cb01de20e22117
row 0 #.
row 1 .#
end versions 1
",
        ],
    ),
    // A paper that was refused is mended, and then accepted.
    (
        &[
            (
                "weave = \"plain\"",
                "weave = \"plain\"\n[[colour]]\nweave = \"blank\"",
            ),
            (
                "repeats = [1]",
                "repeats = [1]\nacts = [[\"dot 1 0 0\", \"commit\", \"dot 0 0 0\", \"commit\"]]",
            ),
        ],
        &[
            "studio 1
design columns 2 picks 2 ends 2 hooks 2
shift 0
act 0 painter 0 number 1 paint
act 1 painter 0 number 2 refused weft 0 start 0 length 2 endless
act 2 painter 0 number 3 paint
act 3 painter 0 number 4 accepted 1
loom 0 repeat 0 version 0 sha256 607b306244cab5c6e8670d7525e1af04304b5d2c3a8a1ad791cb01de20e22117
row 0 #.
row 1 .#
end versions 1
",
            "studio 1
design columns 2 picks 2 ends 2 hooks 2
shift 0
act 0 painter 0 number 1 paint
act 1 painter 0 number 2 refused weft 0 start 0 length 2 endless
act 2 painter 0 number 3 paint
act 3 painter 0 number 4 accepted 1
loom 0 repeat 0 version 1 sha256 607b306244cab5c6e8670d7525e1af04304b5d2c3a8a1ad791cb01de20e22117
row 0 #.
row 1 .#
end versions 1
",
        ],
    ),
    // No repeat shows the paper that was refused, and what is begun in a later shift shows the newest version.
    (
        &[
            ("columns = 2", "columns = 4"),
            ("picks = 2", "picks = 4"),
            ("weft_limit = 1", "weft_limit = 2"),
            ("warp_limit = 1", "warp_limit = 3"),
            (
                "weave = \"plain\"",
                "weave = \"plain\"\n[[colour]]\nweave = \"blank\"\n[[colour]]\nweave = \"twill 2 2 right\"",
            ),
            (
                "repeats = [1]",
                "repeats = [1]\nacts = [[\"rect 1 0 0 3 0\", \"commit\", \"rect 2 0 0 3 0\", \"commit\"]]\n[[shift]]\nrepeats = [2]",
            ),
        ],
        &[
            "studio 1
design columns 4 picks 4 ends 4 hooks 4
shift 0
act 0 painter 0 number 1 paint
act 1 painter 0 number 2 refused weft 0 start 0 length 4 endless
act 2 painter 0 number 3 paint
act 3 painter 0 number 4 accepted 1
loom 0 repeat 0 version 0 sha256 9a1d2b284ce4418bcb7e9d3efecc951780318309bcf1358a43ea09ffd0e80f98
row 0 #.#.
row 1 .#.#
row 2 #.#.
row 3 .#.#
shift 1
loom 0 repeat 1 version 1 sha256 941850739faeace631abaf54f7eb5074cbba39626d9ae342ae68a511288c286c
row 0 #..#
row 1 .#.#
row 2 #.#.
row 3 .#.#
loom 0 repeat 2 version 1 sha256 941850739faeace631abaf54f7eb5074cbba39626d9ae342ae68a511288c286c
row 0 #..#
row 1 .#.#
row 2 #.#.
row 3 .#.#
end versions 1
",
            "studio 1
design columns 4 picks 4 ends 4 hooks 4
shift 0
act 0 painter 0 number 1 paint
act 1 painter 0 number 2 refused weft 0 start 0 length 4 endless
act 2 painter 0 number 3 paint
act 3 painter 0 number 4 accepted 1
loom 0 repeat 0 version 1 sha256 941850739faeace631abaf54f7eb5074cbba39626d9ae342ae68a511288c286c
row 0 #..#
row 1 .#.#
row 2 #.#.
row 3 .#.#
shift 1
loom 0 repeat 1 version 1 sha256 941850739faeace631abaf54f7eb5074cbba39626d9ae342ae68a511288c286c
row 0 #..#
row 1 .#.#
row 2 #.#.
row 3 .#.#
loom 0 repeat 2 version 1 sha256 941850739faeace631abaf54f7eb5074cbba39626d9ae342ae68a511288c286c
row 0 #..#
row 1 .#.#
row 2 #.#.
row 3 .#.#
end versions 1
",
        ],
    ),
    // Two painters paint one cell, and the later one covers the earlier.
    (
        &[
            ("show = \"rows\"", "show = \"digest\""),
            ("columns = 2", "columns = 4"),
            ("picks = 2", "picks = 4"),
            ("weft_limit = 1", "weft_limit = 3"),
            ("warp_limit = 1", "warp_limit = 3"),
            (
                "weave = \"plain\"",
                "weave = \"plain\"\n[[colour]]\nweave = \"blank\"\n[[colour]]\nweave = \"full\"",
            ),
            (
                "repeats = [1]",
                "repeats = [0]\nacts = [[\"dot 1 0 0\"], [\"dot 2 0 0\"]]\n[[shift]]\nrepeats = [0]\nacts = [[\"commit\"]]\n[[shift]]\nrepeats = [1]",
            ),
        ],
        &[
            "studio 1
design columns 4 picks 4 ends 4 hooks 4
shift 0
act 0 painter 0 number 1 paint
act 1 painter 1 number 1 paint
shift 1
act 2 painter 0 number 1 accepted 1
shift 2
loom 0 repeat 0 version 1 sha256 9a1d2b284ce4418bcb7e9d3efecc951780318309bcf1358a43ea09ffd0e80f98
end versions 1
",
            "studio 1
design columns 4 picks 4 ends 4 hooks 4
shift 0
act 0 painter 1 number 1 paint
act 1 painter 0 number 1 paint
shift 1
act 2 painter 0 number 1 accepted 1
shift 2
loom 0 repeat 0 version 1 sha256 77134a12578ce24244757f2e4d4426dd7a55264e044d4d3b91684c3e783f25f0
end versions 1
",
        ],
    ),
];

#[test]
fn painters_make_versions_and_looms_weave_them(rt: HostRuntime) -> Result<(), Fail> {
    for (changes, reports) in PAINTED {
        let text = session(&rt, rt.alloc(), changes)?;
        let report = woven(&rt, rt.alloc(), text.as_str(), &OpenGate)?;
        assert!(rt;
            reports.iter().any(|wanted| *wanted == report.as_str()),
            "{report}"
        );
    }
    Ok(())
}

/// As many turns as a hold lasts at the most.
const TURNS: u64 = 100_000_000;

const OVERLAPPING: Changes = &[
    ("columns = 2", "columns = 4"),
    ("picks = 2", "picks = 4"),
    ("weft_limit = 1", "weft_limit = 2"),
    ("warp_limit = 1", "warp_limit = 3"),
    (
        "weave = \"plain\"",
        "weave = \"plain\"\n[[colour]]\nweave = \"blank\"\n[[colour]]\nweave = \"twill 2 2 right\"",
    ),
    (
        "repeats = [1]",
        "repeats = [2]\nacts = [[\"rect 2 0 0 3 0\", \"commit\"]]",
    ),
];

const OVERLAPPED: &str = "studio 1
design columns 4 picks 4 ends 4 hooks 4
shift 0
act 0 painter 0 number 1 paint
act 1 painter 0 number 2 accepted 1
loom 0 repeat 0 version 0 sha256 9a1d2b284ce4418bcb7e9d3efecc951780318309bcf1358a43ea09ffd0e80f98
row 0 #.#.
row 1 .#.#
row 2 #.#.
row 3 .#.#
loom 0 repeat 1 version 1 sha256 941850739faeace631abaf54f7eb5074cbba39626d9ae342ae68a511288c286c
row 0 #..#
row 1 .#.#
row 2 #.#.
row 3 .#.#
end versions 1
";

// The commit waits for the loom, and the loom's next repeat for the commit. One thread cannot do both.
#[test]
fn a_loom_begins_repeats_before_and_after_a_commit_of_its_shift(
    rt: HostRuntime,
) -> Result<(), Fail> {
    let commit = Hold {
        held: Point::BeforeCommit { act: 1 },
        until: Point::Began { loom: 0, repeat: 0 },
        turns: TURNS,
    };
    let repeat = Hold {
        held: Point::BeforeBegin { loom: 0, repeat: 1 },
        until: Point::Published { version: 1 },
        turns: TURNS,
    };
    let gate = HeldGate::new(rt.alloc(), Vec::from_array(rt.alloc(), [commit, repeat])?)?;
    let text = session(&rt, rt.alloc(), OVERLAPPING)?;
    let report = woven(&rt, rt.alloc(), text.as_str(), &gate)?;
    assert_eq!(rt; report.as_str(), OVERLAPPED);
    assert_eq!(rt;
        (gate.ending(0), gate.ending(1)),
        (HoldEnd::ByPoint, HoldEnd::ByPoint)
    );
    Ok(())
}

/// Acts of which the first painter's wait for those of the second, the first painter's number, and the report.
const MAILED: [(&str, u32, &str); 2] = [
    (
        "repeats = [0]\nacts = [[\"commit\"], [\"commit\"]]",
        0,
        "studio 1
design columns 2 picks 2 ends 2 hooks 2
shift 0
act 0 painter 1 number 1 accepted 1
act 1 painter 0 number 1 accepted 2
end versions 2
",
    ),
    // Beside painters without acts.
    (
        "repeats = [0]\nacts = [[], [\"commit\"], [\"commit\"], [], []]",
        1,
        "studio 1
design columns 2 picks 2 ends 2 hooks 2
shift 0
act 0 painter 2 number 1 accepted 1
act 1 painter 1 number 1 accepted 2
end versions 2
",
    ),
];

// The first painter mails nothing until the second one's commit is at hand, which so comes by mail.
#[test]
fn a_painters_act_comes_by_mail_while_another_is_at_work(rt: HostRuntime) -> Result<(), Fail> {
    for (acts, painter, wanted) in MAILED {
        let mail = Hold {
            held: Point::BeforeMail {
                shift: 0,
                painter,
                number: 1,
            },
            until: Point::BeforeCommit { act: 0 },
            turns: TURNS,
        };
        let gate = HeldGate::new(rt.alloc(), Vec::from_array(rt.alloc(), [mail])?)?;
        let changes = [
            ("show = \"rows\"", "show = \"digest\""),
            ("repeats = [1]", acts),
        ];
        let text = session(&rt, rt.alloc(), &changes)?;
        let report = woven(&rt, rt.alloc(), text.as_str(), &gate)?;
        assert_eq!(rt; report.as_str(), wanted);
        assert_eq!(rt; gate.ending(0), HoldEnd::ByPoint);
    }
    Ok(())
}

const TWO_LOOMS: Changes = &[
    ("show = \"rows\"", "show = \"digest\""),
    ("format = 1", "format = 1\nlooms = 4"),
    (
        "repeats = [1]",
        "repeats = [0, 0, 0, 0]\nacts = [[\"commit\"]]\n[[shift]]\nrepeats = [2, 2, 0, 0]",
    ),
];

const TWO_LOOMS_WOVE: &str = "studio 1
design columns 2 picks 2 ends 2 hooks 2
shift 0
act 0 painter 0 number 1 accepted 1
shift 1
loom 0 repeat 0 version 1 sha256 607b306244cab5c6e8670d7525e1af04304b5d2c3a8a1ad791cb01de20e22117
loom 0 repeat 1 version 1 sha256 607b306244cab5c6e8670d7525e1af04304b5d2c3a8a1ad791cb01de20e22117
loom 1 repeat 0 version 1 sha256 607b306244cab5c6e8670d7525e1af04304b5d2c3a8a1ad791cb01de20e22117
loom 1 repeat 1 version 1 sha256 607b306244cab5c6e8670d7525e1af04304b5d2c3a8a1ad791cb01de20e22117
end versions 1
";

// In a shift that is not the first, each of two looms waits for a repeat of the other. One thread cannot do both.
#[test]
fn two_looms_weave_at_the_same_time(rt: HostRuntime) -> Result<(), Fail> {
    let first = Hold {
        held: Point::BeforeBegin { loom: 0, repeat: 0 },
        until: Point::Began { loom: 1, repeat: 0 },
        turns: TURNS,
    };
    let second = Hold {
        held: Point::BeforeBegin { loom: 1, repeat: 1 },
        until: Point::Began { loom: 0, repeat: 1 },
        turns: TURNS,
    };
    let gate = HeldGate::new(rt.alloc(), Vec::from_array(rt.alloc(), [first, second])?)?;
    let text = session(&rt, rt.alloc(), TWO_LOOMS)?;
    let report = woven(&rt, rt.alloc(), text.as_str(), &gate)?;
    assert_eq!(rt; report.as_str(), TWO_LOOMS_WOVE);
    assert_eq!(rt;
        (gate.ending(0), gate.ending(1)),
        (HoldEnd::ByPoint, HoldEnd::ByPoint)
    );
    Ok(())
}

/// Changed lines of the smallest session, of which one report comes, whatever is woven or painted first.
const IDLE: [(Changes, &str); 3] = [
    // Painters without an act.
    (
        &[
            ("show = \"rows\"", "show = \"digest\""),
            (
                "repeats = [1]",
                "repeats = [0]\nacts = [[], [\"commit\", \"commit\"], []]",
            ),
        ],
        "studio 1
design columns 2 picks 2 ends 2 hooks 2
shift 0
act 0 painter 1 number 1 accepted 1
act 1 painter 1 number 2 accepted 2
end versions 2
",
    ),
    // A shift without painters, behind one that made a version.
    (
        &[
            ("show = \"rows\"", "show = \"digest\""),
            (
                "repeats = [1]",
                "repeats = [0]\nacts = [[\"commit\"]]\n[[shift]]\nrepeats = [1]\nacts = []",
            ),
        ],
        "studio 1
design columns 2 picks 2 ends 2 hooks 2
shift 0
act 0 painter 0 number 1 accepted 1
shift 1
loom 0 repeat 0 version 1 sha256 607b306244cab5c6e8670d7525e1af04304b5d2c3a8a1ad791cb01de20e22117
end versions 1
",
    ),
    // Looms that weave nothing, in the first shift or at all.
    (
        &[
            ("show = \"rows\"", "show = \"digest\""),
            ("format = 1", "format = 1\nlooms = 3"),
            (
                "repeats = [1]",
                "repeats = [0, 0, 0]\nacts = [[\"commit\"]]\n[[shift]]\nrepeats = [0, 2, 0]",
            ),
        ],
        "studio 1
design columns 2 picks 2 ends 2 hooks 2
shift 0
act 0 painter 0 number 1 accepted 1
shift 1
loom 1 repeat 0 version 1 sha256 607b306244cab5c6e8670d7525e1af04304b5d2c3a8a1ad791cb01de20e22117
loom 1 repeat 1 version 1 sha256 607b306244cab5c6e8670d7525e1af04304b5d2c3a8a1ad791cb01de20e22117
end versions 1
",
    ),
];

#[test]
fn painters_without_acts_and_looms_without_repeats_leave_no_line(
    rt: HostRuntime,
) -> Result<(), Fail> {
    for (changes, wanted) in IDLE {
        let text = session(&rt, rt.alloc(), changes)?;
        let report = woven(&rt, rt.alloc(), text.as_str(), &OpenGate)?;
        assert_eq!(rt; report.as_str(), wanted);
    }
    Ok(())
}

/// The smallest session without rows, with so many looms, which weave once, and painters, who have so many commits.
fn crowd(
    rt: &impl Abort,
    alloc: Global,
    looms: u32,
    painters: u32,
    commits: u32,
) -> Result<String, Fail> {
    let mut shift = String::from_str(alloc, "repeats = [")?;
    push_times(&mut shift, "1,", looms)?;
    shift.push_str("]\nacts = [")?;
    for _ in 0..painters {
        shift.push_str("[")?;
        push_times(&mut shift, "\"commit\",", commits)?;
        shift.push_str("],")?;
    }
    shift.push_str("]")?;
    let head = format!(in alloc; "format = 1\nlooms = {looms}")?;
    let changes = [
        ("format = 1", head.as_str()),
        ("show = \"rows\"", "show = \"digest\""),
        ("repeats = [1]", shift.as_str()),
    ];
    session(rt, alloc, &changes)
}

fn push_times(text: &mut String, piece: &str, times: u32) -> Result<(), AllocError> {
    for _ in 0..times {
        text.push_str(piece)?;
    }
    Ok(())
}

/// How many lines begin and end so.
fn count_lines(report: &str, head: &str, tail: &str) -> usize {
    report
        .lines()
        .filter(|line| line.starts_with(head) && line.ends_with(tail))
        .count()
}

// As many painters and looms as there may be. The paper stays as it was, so that all versions have one cloth.
#[test]
fn sixty_four_painters_and_looms_do_all_that_they_are_asked_to(
    rt: HostRuntime,
) -> Result<(), Fail> {
    let alloc = rt.alloc();
    let text = crowd(&rt, alloc, 64, 64, 1)?;
    let report = woven(&rt, alloc, text.as_str(), &OpenGate)?;
    let report = report.as_str();
    assert_eq!(rt; report.lines().count(), 132);
    for k in 0..64_u32 {
        let act = format!(in alloc; "act {k} painter ")?;
        let reply = format!(in alloc; " number 1 accepted {}", k + 1)?;
        assert_eq!(rt;
            count_lines(report, act.as_str(), reply.as_str()),
            1,
            "{report}"
        );
        let painter = format!(in alloc; " painter {k} number 1 ")?;
        assert_eq!(rt;
            report
                .lines()
                .filter(|line| line.contains(painter.as_str()))
                .count(),
            1,
            "{report}"
        );
        let loom = format!(in alloc; "loom {k} repeat 0 version ")?;
        assert_eq!(rt; count_lines(report, loom.as_str(), PLAIN), 1, "{report}");
    }
    assert!(rt; report.ends_with("\nend versions 64\n"));
    Ok(())
}

/// How the line of a repeat of the plain cloth of two columns and two picks ends.
const PLAIN: &str = " sha256 607b306244cab5c6e8670d7525e1af04304b5d2c3a8a1ad791cb01de20e22117";

// The first commit waits until all other acts were offered, so that most of them find no room in the mail.
#[test]
fn acts_that_find_no_room_in_the_mail_are_done_all_the_same(rt: HostRuntime) -> Result<(), Fail> {
    let alloc = rt.alloc();
    let commit = Hold {
        held: Point::BeforeCommit { act: 0 },
        until: Point::BeforeMail {
            shift: 0,
            painter: 0,
            number: 100,
        },
        turns: TURNS,
    };
    let gate = HeldGate::new(alloc, Vec::from_array(alloc, [commit])?)?;
    let text = crowd(&rt, alloc, 1, 1, 100)?;
    let report = woven(&rt, alloc, text.as_str(), &gate)?;
    let report = report.as_str();
    assert_eq!(rt; report.lines().count(), 105);
    for k in 0..100_u32 {
        let line = format!(in alloc; "act {k} painter 0 number {} accepted {}", k + 1, k + 1)?;
        assert_eq!(rt;
            report.lines().nth(k as usize + 3),
            Some(line.as_str()),
            "{report}"
        );
    }
    assert_eq!(rt;
        count_lines(report, "loom 0 repeat 0 version ", PLAIN),
        1,
        "{report}"
    );
    assert!(rt; report.ends_with("\nend versions 100\n"));
    assert_eq!(rt; gate.ending(0), HoldEnd::ByPoint);
    Ok(())
}
