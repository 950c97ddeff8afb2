//! Faults of what is outside: each call of a shelf and of a sink failed once, files that are too long, and room that
//! is wanting.

use crate::calls::{
    Failures, NEVER, Wanted, expect, expect_despite, expect_file, failing_shelf, sound_shelf,
    words_of,
};
use crate::files::{Changes, LEAF_SESSION, leaf, session};
use mill_base::limits::MAX_FILE_BYTES;
use mill_io::faults::Fail as Failing;
use mill_io::gate::OpenGate;
use mill_io::memory_shelf::MemoryShelf;
use mill_io::sure_shelf::SureShelf;
use mill_io::sure_sink::SureSink;
use std::alloc::Global;
use std::process::Abort;
use std::test::Fail;
use studio_run::answer::studio;

/// Puts a session that opens with an image there, a chain of its cards as X, and something old as Y.
fn furnish(rt: &impl Abort, alloc: Global, shelf: &mut MemoryShelf) -> Result<(), Fail> {
    shelf.add("S1", session(rt, alloc, LEAF_SESSION)?.as_bytes())?;
    shelf.add("leaf", &leaf(alloc)?)?;
    // The rows `#.#` and `.#.`.
    shelf.add(
        "X",
        b"JCC1\0\0\0\x03\0\0\0\x02\0\0\0\0\0\0\0\x02\xA0\0\0\0\x01\0\0\0\x01\x40",
    )?;
    shelf.add("Y", b"old")?;
    Ok(())
}

/// A command, the number of a read of the shelf, counted from 0, and the line on standard error where it fails.
type Read = (&'static [&'static str], u64, &'static str);

const READS: [Read; 15] = [
    (&["weave", "S1"], 0, "studio: cannot read S1\n"),
    (&["weave", "S1"], 1, "studio: cannot read leaf\n"),
    (&["check", "S1"], 0, "studio: cannot read S1\n"),
    (&["check", "S1"], 1, "studio: cannot read leaf\n"),
    (&["draw", "S1", "Y"], 0, "studio: cannot read S1\n"),
    (&["draw", "S1", "Y"], 1, "studio: cannot read leaf\n"),
    (&["paper", "S1", "Y"], 0, "studio: cannot read S1\n"),
    (&["paper", "S1", "Y"], 1, "studio: cannot read leaf\n"),
    (&["cards", "S1", "Y"], 0, "studio: cannot read S1\n"),
    (&["cards", "S1", "Y"], 1, "studio: cannot read leaf\n"),
    (&["cards", "S1", "Y", "down"], 0, "studio: cannot read S1\n"),
    (
        &["cards", "S1", "Y", "down"],
        1,
        "studio: cannot read leaf\n",
    ),
    (&["lift", "S1", "X", "Y"], 0, "studio: cannot read S1\n"),
    (&["lift", "S1", "X", "Y"], 1, "studio: cannot read leaf\n"),
    (&["lift", "S1", "X", "Y"], 2, "studio: cannot read X\n"),
];

#[test]
fn each_read_that_fails_names_its_file_and_nothing_is_written(rt: HostRuntime) -> Result<(), Fail> {
    let alloc = rt.alloc();
    for (words, call, line) in READS {
        let mut shelf = failing_shelf(alloc, Failing { call, bytes: 0 })?;
        furnish(&rt, alloc, &mut shelf)?;
        expect(&rt, alloc, &mut shelf, words, (5, "", line))?;
        expect_file(&rt, &shelf, "Y", Some(b"old"));
    }
    Ok(())
}

/// A command, and the number of its write among the calls of the shelf, counted from 0. It is the last call.
type Write = (&'static [&'static str], u64);

const WRITES: [Write; 5] = [
    (&["draw", "S1", "Y"], 2),
    (&["paper", "S1", "Y"], 2),
    (&["cards", "S1", "Y"], 2),
    (&["cards", "S1", "Y", "down"], 2),
    (&["lift", "S1", "X", "Y"], 3),
];

#[test]
fn a_write_that_fails_leaves_a_beginning_of_the_file(rt: HostRuntime) -> Result<(), Fail> {
    let alloc = rt.alloc();
    for (words, last) in WRITES {
        let mut whole = failing_shelf(
            alloc,
            Failing {
                call: last + 1,
                bytes: 0,
            },
        )?;
        furnish(&rt, alloc, &mut whole)?;
        expect(&rt, alloc, &mut whole, words, (0, "", ""))?;
        let file = whole.content("Y").unwrap_or_default();
        for bytes in [0, 1, 29, 30, 1716] {
            let mut shelf = failing_shelf(alloc, Failing { call: last, bytes })?;
            furnish(&rt, alloc, &mut shelf)?;
            expect(
                &rt,
                alloc,
                &mut shelf,
                words,
                (6, "", "studio: cannot write\n"),
            )?;
            let end = file.len().min(bytes as usize);
            expect_file(&rt, &shelf, "Y", Some(&file[..end]));
        }
    }
    Ok(())
}

/// A command that prints, the call of standard output that fails, the bytes that it still takes, and what comes of it.
type Put = (&'static [&'static str], u64, u64, Wanted<'static>);

const PUTS: [Put; 9] = [
    (&["weave", "S1"], 0, 0, (6, "", "studio: cannot write\n")),
    (
        &["weave", "S1"],
        0,
        10,
        (6, "studio 1\nd", "studio: cannot write\n"),
    ),
    (
        &["weave", "S1"],
        1,
        0,
        (
            0,
            "studio 1
design columns 3 picks 2 ends 3 hooks 3
shift 0
loom 0 repeat 0 version 0 sha256 cb5674baddecb899464313d93dc30816402dda365e863446dc8f0c08a7ceb2d7
row 0 #.#
row 1 .#.
end versions 0
",
            "",
        ),
    ),
    (&["check", "S1"], 0, 3, (6, "ok ", "studio: cannot write\n")),
    (
        &["check", "S1"],
        1,
        0,
        (
            0,
            "ok columns 3 picks 2 ends 3 hooks 3 looms 1 shifts 1 acts 0\n",
            "",
        ),
    ),
    (
        &["trial", "1"],
        0,
        17,
        (6, "trial 1 versions ", "studio: cannot write\n"),
    ),
    (&["draw", "S1", "Y"], 0, 0, (0, "", "")),
    (&["cards", "S1", "Y"], 0, 0, (0, "", "")),
    (&["lift", "S1", "X", "Y"], 0, 0, (0, "", "")),
];

#[test]
fn standard_output_that_fails_has_a_beginning_of_what_is_printed(
    rt: HostRuntime,
) -> Result<(), Fail> {
    let alloc = rt.alloc();
    let mut shelf = sound_shelf(alloc);
    furnish(&rt, alloc, &mut shelf)?;
    for (words, call, bytes, wanted) in PUTS {
        let failures = Failures {
            out: Failing { call, bytes },
            err: NEVER,
        };
        expect_despite(&rt, alloc, &mut shelf, failures, words, wanted)?;
    }
    Ok(())
}

const LONG_REPORT: Changes = &[
    ("show = \"rows\"", "show = \"digest\""),
    ("repeats = [1]", "repeats = [2000]"),
];

fn long_report(alloc: Global) -> Result<String, Fail> {
    let mut text = String::from_str(
        alloc,
        "studio 1\ndesign columns 2 picks 2 ends 2 hooks 2\nshift 0\n",
    )?;
    for repeat in 0..2000_u32 {
        let line = format!(in alloc;
            "loom 0 repeat {repeat} version 0 sha256 607b306244cab5c6e8670d7525e1af04304b5d2c3a8a1ad791cb01de20e22117\n"
        )?;
        text.push_str(&line)?;
    }
    text.push_str("end versions 0\n")?;
    Ok(text)
}

#[test]
fn each_piece_of_a_long_report_that_fails_ends_it(rt: HostRuntime) -> Result<(), Fail> {
    let alloc = rt.alloc();
    let report = long_report(alloc)?;
    assert_eq!(rt; report.len(), 200_962);
    let mut shelf = sound_shelf(alloc);
    shelf.add("S1", session(&rt, alloc, LONG_REPORT)?.as_bytes())?;
    for (call, end, status, line) in [
        (0, 5, 6, "studio: cannot write\n"),
        (1, 65_541, 6, "studio: cannot write\n"),
        (2, 131_077, 6, "studio: cannot write\n"),
        (3, 196_613, 6, "studio: cannot write\n"),
        (4, 200_962, 0, ""),
    ] {
        let failures = Failures {
            out: Failing { call, bytes: 5 },
            err: NEVER,
        };
        let printed = str::from_utf8(&report.as_bytes()[..end])?;
        let wanted = (status, printed, line);
        expect_despite(&rt, alloc, &mut shelf, failures, &["weave", "S1"], wanted)?;
    }
    Ok(())
}

#[test]
fn standard_error_that_fails_changes_no_status(rt: HostRuntime) -> Result<(), Fail> {
    let alloc = rt.alloc();
    let mut shelf = sound_shelf(alloc);
    for (bytes, told) in [(0, ""), (3, "stu"), (8, "studio: ")] {
        let failures = Failures {
            out: NEVER,
            err: Failing { call: 0, bytes },
        };
        expect_despite(
            &rt,
            alloc,
            &mut shelf,
            failures,
            &["weave", "S1"],
            (5, "", told),
        )?;
        expect_despite(&rt, alloc, &mut shelf, failures, &["draw"], (1, "", told))?;
    }
    Ok(())
}

#[test]
fn a_file_of_one_byte_too_many_is_too_long(rt: HostRuntime) -> Result<(), Fail> {
    let alloc = rt.alloc();
    let mut shelf = sound_shelf(alloc);
    furnish(&rt, alloc, &mut shelf)?;
    let changes = [("opening = 0", "opening = \"long\"")];
    shelf.add("pictured", session(&rt, alloc, &changes)?.as_bytes())?;
    shelf.add(
        "long",
        &Vec::from_elem(alloc, b'#', MAX_FILE_BYTES as usize + 1)?,
    )?;
    let cases: [&[&str]; 9] = [
        &["weave", "long"],
        &["check", "long"],
        &["draw", "long", "Y"],
        &["paper", "pictured", "Y"],
        &["cards", "pictured", "Y"],
        &["cards", "pictured", "Y", "down"],
        &["weave", "pictured"],
        &["lift", "pictured", "X", "Y"],
        &["lift", "S1", "long", "Y"],
    ];
    for words in cases {
        expect(
            &rt,
            alloc,
            &mut shelf,
            words,
            (7, "", "studio: too long: long\n"),
        )?;
    }
    expect_file(&rt, &shelf, "Y", Some(b"old"));
    Ok(())
}

#[test]
fn a_file_of_the_greatest_length_is_read(rt: HostRuntime) -> Result<(), Fail> {
    let alloc = rt.alloc();
    let mut shelf = sound_shelf(alloc);
    furnish(&rt, alloc, &mut shelf)?;
    let changes = [("opening = 0", "opening = \"long\"")];
    shelf.add("pictured", session(&rt, alloc, &changes)?.as_bytes())?;
    shelf.add(
        "long",
        &Vec::from_elem(alloc, b'#', MAX_FILE_BYTES as usize)?,
    )?;
    let image = "studio: session design.opening: image not tiff\n";
    expect(
        &rt,
        alloc,
        &mut shelf,
        &["check", "pictured"],
        (2, "", image),
    )?;
    let chain = "studio: chain: bad magic\n";
    expect(
        &rt,
        alloc,
        &mut shelf,
        &["lift", "S1", "long", "Y"],
        (8, "", chain),
    )
}

const PLAIN_REPORT: &str = "studio 1
design columns 2 picks 2 ends 2 hooks 2
shift 0
loom 0 repeat 0 version 0 sha256 607b306244cab5c6e8670d7525e1af04304b5d2c3a8a1ad791cb01de20e22117
row 0 #.
row 1 .#
end versions 0
";

#[test]
fn what_has_room_enough_never_fails(rt: HostRuntime) -> Result<(), Fail> {
    let alloc = rt.alloc();
    let mut shelf = SureShelf::new(alloc, 2, 2000)?;
    shelf.add("S1", session(&rt, alloc, &[])?.as_bytes())?;
    let cases: [(&[&str], &str); 2] = [
        (&["weave", "S1"], PLAIN_REPORT),
        (&["draw", "S1", "Y"], ""),
    ];
    for (texts, printed) in cases {
        let words = words_of(alloc, texts)?;
        let mut out = SureSink::new(alloc, 1000)?;
        let mut err = SureSink::new(alloc, 0)?;
        let answer = studio(
            &rt, alloc, &words, &mut shelf, &mut out, &mut err, &OpenGate,
        );
        let found = (answer.status, str::from_utf8(out.taken())?);
        assert_eq!(rt; found, (0, printed), "{texts:?}");
    }
    assert_eq!(rt; shelf.content("Y").unwrap_or_default().len(), 1714);
    Ok(())
}

#[test]
fn what_has_too_little_room_is_not_written(rt: HostRuntime) -> Result<(), Fail> {
    let alloc = rt.alloc();
    for (files, room) in [(1, 2000), (2, 1713)] {
        let mut shelf = SureShelf::new(alloc, files, room)?;
        shelf.add("S1", session(&rt, alloc, &[])?.as_bytes())?;
        let wanted = (6, "", "studio: cannot write\n");
        expect(&rt, alloc, &mut shelf, &["draw", "S1", "Y"], wanted)?;
        assert!(rt; shelf.content("Y").is_none(), "{files} {room}");
    }
    Ok(())
}
