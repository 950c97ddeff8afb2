//! Sessions that are refused: for a float of their opening, or for a broken rule of the file.

use crate::calls::{expect, expect_changed, sound_shelf};
use crate::files::{Changes, session};
use std::test::Fail;

/// Changed lines of the smallest session, and the line on standard error.
type Case = (Changes, &'static str);

const FLOATS: [Case; 7] = [
    (
        &[("columns = 2", "columns = 1")],
        "studio: opening weft 0 start 0 length 1 endless\n",
    ),
    // The float begins at end 4 and runs over the edge to end 1.
    (
        &[
            ("columns = 2", "columns = 6"),
            ("weft_limit = 1", "weft_limit = 3"),
            ("warp_limit = 1", "warp_limit = 3"),
            ("weave = \"plain\"", "weave = \"rows 001100 110011\""),
        ],
        "studio: opening weft 0 start 4 length 4\n",
    ),
    (
        &[
            ("columns = 2", "columns = 5"),
            ("picks = 2", "picks = 5"),
            ("weft_limit = 1", "weft_limit = 3"),
            ("warp_limit = 1", "warp_limit = 3"),
            ("weave = \"plain\"", "weave = \"satin 5 2 weft\""),
        ],
        "studio: opening weft 0 start 1 length 4\n",
    ),
    // The binder lifts every cell, and there is no second pass.
    (
        &[
            ("columns = 2", "columns = 8"),
            ("picks = 2", "picks = 8"),
            ("weft_limit = 1", "weft_limit = 7"),
            ("warp_limit = 1", "warp_limit = 7"),
            (
                "opening = 0",
                "opening = 0\nraise = \"full\"\nsink = \"plain\"",
            ),
            ("weave = \"plain\"", "weave = \"blank\""),
        ],
        "studio: opening weft 0 start 0 length 8 endless\n",
    ),
    // The ends have the columns 0, 1, 2, 1, so that a float of three ends has two columns.
    (
        &[
            ("columns = 2", "columns = 3"),
            ("weft_limit = 1", "weft_limit = 2"),
            ("warp_limit = 1", "warp_limit = 2"),
            ("weave = \"plain\"", "weave = \"rows 100 011\""),
            (
                "[[shift]]",
                "[[tie]]\nkind = \"pointed\"\nfrom = 0\nto = 2\n[[shift]]",
            ),
        ],
        "studio: opening weft 0 start 1 length 3\n",
    ),
    // The lifted run of pick 1 floats on the back.
    (
        &[
            ("format = 1", "format = 2"),
            ("columns = 2", "columns = 6"),
            ("weft_limit = 1", "weft_face = 4\nweft_back = 3"),
            ("warp_limit = 1", "warp_face = 1\nwarp_back = 1"),
            ("weave = \"plain\"", "weave = \"rows 001100 110011\""),
        ],
        "studio: opening weft 1 start 4 length 4\n",
    ),
    // The unlifted run of pick 0 floats on the face.
    (
        &[
            ("format = 1", "format = 2"),
            ("columns = 2", "columns = 6"),
            ("weft_limit = 1", "weft_face = 3\nweft_back = 4"),
            ("warp_limit = 1", "warp_face = 1\nwarp_back = 1"),
            ("weave = \"plain\"", "weave = \"rows 001100 110011\""),
        ],
        "studio: opening weft 0 start 4 length 4\n",
    ),
];

const BROKEN: [Case; 8] = [
    (
        &[("columns = 2", "columns = 4097")],
        "studio: session design.columns: 4097 not in 1 to 4096\n",
    ),
    (
        &[("format = 1", "format = 1\nloom = 1")],
        "studio: session loom: unknown key\n",
    ),
    (
        &[("format = 1", "format = 3")],
        "studio: session format: 3 not in 1 to 2\n",
    ),
    (
        &[("format = 1", "format = 2")],
        "studio: session design.weft_face: missing\n",
    ),
    (
        &[("weave = \"plain\"", "weave = \"satin 6 5 weft\"")],
        "studio: session colour[0].weave: no satin 6 5\n",
    ),
    (
        &[
            ("format = 1", "format = 1\nlooms = 2\nfaces = [\"up\"]"),
            ("repeats = [1]", "repeats = [1, 1]"),
        ],
        "studio: session faces: 1 items, not 2 to 2\n",
    ),
    (
        &[("format = 1", "format = 1\nfaces = [\"left\"]")],
        "studio: session faces[0]: unknown word\n",
    ),
    (
        &[(
            "repeats = [1]",
            "repeats = [1]\nacts = [[\"dot 0 0 0\", \"dot 0 2 0\"]]",
        )],
        "studio: session shift[0].acts[0][1]: act out of paper\n",
    ),
];

#[test]
fn the_first_float_over_its_limit_is_told(rt: HostRuntime) -> Result<(), Fail> {
    for (changes, line) in FLOATS {
        expect_changed(&rt, rt.alloc(), changes, &["weave", "S1"], (3, "", line))?;
    }
    Ok(())
}

#[test]
fn the_first_broken_rule_of_the_file_is_told(rt: HostRuntime) -> Result<(), Fail> {
    for (changes, line) in BROKEN {
        expect_changed(&rt, rt.alloc(), changes, &["weave", "S1"], (2, "", line))?;
    }
    Ok(())
}

#[test]
fn a_file_without_a_session_is_refused(rt: HostRuntime) -> Result<(), Fail> {
    let files: [(&[u8], &str); 3] = [
        (b"", "studio: session format: missing\n"),
        (b"format = ", "studio: session: not toml\n"),
        (b"\xFF", "studio: session: not toml\n"),
    ];
    let mut shelf = sound_shelf(rt.alloc());
    for (file, line) in files {
        shelf.add("S1", file)?;
        expect(&rt, rt.alloc(), &mut shelf, &["weave", "S1"], (2, "", line))?;
    }
    Ok(())
}

#[test]
fn more_commits_than_a_session_may_have_are_refused(rt: HostRuntime) -> Result<(), Fail> {
    let alloc = rt.alloc();
    let mut text = session(&rt, alloc, &[("repeats = [1]", "repeats = [1]\nacts = [[")])?;
    for _ in 0..257 {
        text.push_str("\"commit\",")?;
    }
    text.push_str("]]\n")?;
    let mut shelf = sound_shelf(alloc);
    shelf.add("S1", text.as_bytes())?;
    let line = "studio: session shift.commits: 257 over 256\n";
    expect(&rt, alloc, &mut shelf, &["weave", "S1"], (2, "", line))
}
