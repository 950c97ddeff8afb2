//! The words of each command, and what each says of the same faulty files.

use crate::calls::{
    NEVER, Wanted, expect, expect_changed, expect_file, failing_sink, sound_shelf, words_of,
};
use crate::files::{LEAF_SESSION, session};
use mill_io::memory_shelf::MemoryShelf;
use std::alloc::{AllocError, Global};
use std::process::Abort;
use std::sync::Wait;
use std::test::Fail;
use std::thread::Threads;
use studio_run::answer::plain_command;
use studio_run::command::Command;

const USAGE: &str =
    "studio: usage: weave SESSION, check SESSION, draw SESSION OUT, paper SESSION OUT, cards SESSION OUT, cards SESSION OUT down, lift SESSION CHAIN OUT, trial N\n";

const NO_COMMANDS: [&[&str]; 24] = [
    &[],
    &[""],
    &["weave"],
    &["weave", ""],
    &["Weave", "S1"],
    &["weave", "S1", "Y"],
    &["check", "S1", "Y"],
    &["draw", "S1"],
    &["draw", "S1", ""],
    &["draw", "", "Y"],
    &["paper", "S1", "Y", "down"],
    &["cards", "S1"],
    &["cards", "S1", "Y", "up"],
    &["cards", "S1", "Y", ""],
    &["cards", "S1", "Y", "down", "down"],
    &["lift", "S1", "X"],
    &["lift", "S1", "", "Y"],
    &["lift", "S1", "X", "Y", "Y"],
    &["trial", "01"],
    &["trial", "4294967296"],
    &["trial", "-1"],
    &["trial", "1", "1"],
    &["--help"],
    &["-", "S1"],
];

/// Runs the words through the call that runs no looms, and compares what comes of it.
fn expect_plain(
    rt: &impl Abort,
    alloc: Global,
    shelf: &mut MemoryShelf,
    texts: &[&str],
    wanted: Wanted<'_>,
) -> Result<(), Fail> {
    let words = words_of(alloc, texts)?;
    let mut out = failing_sink(alloc, NEVER)?;
    let mut err = failing_sink(alloc, NEVER)?;
    let answer = match Command::parse(&words) {
        None => plain_command(alloc, &words, shelf, &mut out, &mut err),
        Some(command) if command.runs_looms() => return Ok(()),
        Some(_) => plain_command(alloc, &words, shelf, &mut out, &mut err),
    };
    let told = str::from_utf8(err.taken())?;
    let printed = str::from_utf8(out.taken())?;
    assert_eq!(rt; (answer.status, printed, told), wanted, "{texts:?}");
    Ok(())
}

fn expect_both<R: Abort + Threads + Wait + Sync>(
    rt: &R,
    alloc: Global,
    shelf: &mut MemoryShelf,
    texts: &[&str],
    wanted: Wanted<'_>,
) -> Result<(), Fail> {
    expect(rt, alloc, shelf, texts, wanted)?;
    expect_plain(rt, alloc, shelf, texts, wanted)
}

#[test]
fn words_that_are_no_command_get_the_line_of_usage(rt: HostRuntime) -> Result<(), Fail> {
    let mut shelf = sound_shelf(rt.alloc());
    for words in NO_COMMANDS {
        expect_both(&rt, rt.alloc(), &mut shelf, words, (1, "", USAGE))?;
    }
    Ok(())
}

/// Each command that is about a session: the words before the session's name and behind it.
const COMMANDS: [(&str, &[&str]); 7] = [
    ("weave", &[]),
    ("check", &[]),
    ("draw", &["Y"]),
    ("paper", &["Y"]),
    ("cards", &["Y"]),
    ("cards", &["Y", "down"]),
    ("lift", &["X", "Y"]),
];

/// Names of sessions, and what each command says of them.
const FAULTS: [(&str, Wanted<'static>); 6] = [
    ("nothing", (5, "", "studio: cannot read nothing\n")),
    (
        "broken",
        (2, "", "studio: session format: 3 not in 1 to 2\n"),
    ),
    ("pictured", (5, "", "studio: cannot read leaf\n")),
    (
        "texted",
        (2, "", "studio: session design.opening: image not tiff\n"),
    ),
    (
        "floating",
        (3, "", "studio: opening weft 0 start 0 length 1 endless\n"),
    ),
    ("blocked", (5, "", "studio: cannot read blocks\n")),
];

fn faulty_shelf(rt: &impl Abort, alloc: Global) -> Result<MemoryShelf, Fail> {
    let sessions: [(&str, &[(&str, &str)]); 4] = [
        (
            "broken",
            &[
                ("format = 1", "format = 3"),
                ("opening = 0", "opening = \"leaf\""),
            ],
        ),
        ("pictured", LEAF_SESSION),
        ("texted", &[("opening = 0", "opening = \"words\"")]),
        ("floating", &[("columns = 2", "columns = 1")]),
    ];
    let mut shelf = sound_shelf(alloc);
    for (name, changes) in sessions {
        shelf.add(name, session(rt, alloc, changes)?.as_bytes())?;
    }
    // The image is missed before the float of the opening's colour could be seen.
    let blocked = [
        ("columns = 2", "columns = 1"),
        ("opening = 0", "opening = \"blocks\""),
    ];
    shelf.add("blocked", session(rt, alloc, &blocked)?.as_bytes())?;
    shelf.add("words", b"no image at all")?;
    shelf.add("X", b"no chain either")?;
    shelf.add("Y", b"old")?;
    Ok(shelf)
}

fn words_about<'a>(
    alloc: Global,
    verb: &'a str,
    name: &'a str,
    rest: &[&'a str],
) -> Result<Vec<&'a str>, AllocError> {
    let mut words = Vec::from_array(alloc, [verb, name])?;
    words.extend_from_slice(rest)?;
    Ok(words)
}

#[test]
fn each_command_tells_the_first_fault_and_writes_nothing(rt: HostRuntime) -> Result<(), Fail> {
    let alloc = rt.alloc();
    let mut shelf = faulty_shelf(&rt, alloc)?;
    for (verb, rest) in COMMANDS {
        for (name, wanted) in FAULTS {
            let words = words_about(alloc, verb, name, rest)?;
            expect_both(&rt, alloc, &mut shelf, &words, wanted)?;
        }
    }
    expect_file(&rt, &shelf, "Y", Some(b"old"));
    Ok(())
}

#[test]
fn only_a_lift_looks_at_the_chain(rt: HostRuntime) -> Result<(), Fail> {
    let alloc = rt.alloc();
    let mut shelf = faulty_shelf(&rt, alloc)?;
    shelf.add("S1", session(&rt, alloc, &[])?.as_bytes())?;
    let cases: [(&[&str], Wanted<'_>); 2] = [
        (
            &["lift", "S1", "X", "Y"],
            (8, "", "studio: chain: bad magic\n"),
        ),
        (
            &["lift", "S1", "Z", "Y"],
            (5, "", "studio: cannot read Z\n"),
        ),
    ];
    for (words, wanted) in cases {
        expect_both(&rt, alloc, &mut shelf, words, wanted)?;
    }
    expect_file(&rt, &shelf, "Y", Some(b"old"));
    expect_both(&rt, alloc, &mut shelf, &["cards", "S1", "X"], (0, "", ""))?;
    expect_both(
        &rt,
        alloc,
        &mut shelf,
        &["lift", "S1", "X", "Y"],
        (0, "", ""),
    )
}

#[test]
fn a_check_prints_the_size_of_the_session(rt: HostRuntime) -> Result<(), Fail> {
    let small = "ok columns 2 picks 2 ends 2 hooks 2 looms 1 shifts 1 acts 0\n";
    expect_changed(&rt, rt.alloc(), &[], &["check", "S1"], (0, small, ""))?;
    let changes = [
        ("format = 1", "format = 1\nlooms = 3"),
        ("columns = 2", "columns = 5\nhooks = 8"),
        ("picks = 2", "picks = 4"),
        ("weft_limit = 1", "weft_limit = 2"),
        (
            "[[shift]]",
            "[[tie]]\nkind = \"straight\"\nfrom = 0\nto = 4\ntimes = 2\n[[shift]]",
        ),
        (
            "repeats = [1]",
            "repeats = [1, 0, 0]\nacts = [[\"dot 0 0 0\"], [\"dot 0 0 0\", \"commit\"]]\n[[shift]]\nrepeats = [0, 0, 0]",
        ),
    ];
    let line = "ok columns 5 picks 4 ends 10 hooks 8 looms 3 shifts 2 acts 3\n";
    expect_changed(&rt, rt.alloc(), &changes, &["check", "S1"], (0, line, ""))
}
