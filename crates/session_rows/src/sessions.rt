//! Every rule of a session file broken once, and the files that a session is read from.

use mill_io::faults::Fail as FailedCall;
use mill_io::memory_shelf::MemoryShelf;
use session_file::session::Session;
use std::alloc::{AllocError, Global};
use std::process::Abort;
use std::test::Fail;

// A whole design of format 1.
const DESIGN: &str =
    "[design]\ncolumns = 2\npicks = 2\nweft_limit = 1\nwarp_limit = 1\nopening = 0\n";

// The keys of a size, and of the limits of format 1.
const SIZE: &str = "columns = 2\npicks = 2\n";

const LIMITS: &str = "weft_limit = 1\nwarp_limit = 1\n";

// A colour, and a shift behind one.
const COLOUR: &str = "[[colour]]\nweave = \"plain\"\n";

const REST: &str = "[[colour]]\nweave = \"plain\"\n[[shift]]\nrepeats = [1]\n";

// What follows a design of which the last line is open.
const FOLLOWS: &str = "\n[[colour]]\nweave = \"plain\"\n[[shift]]\nrepeats = [1]\n";

// A whole design of format 1 with the largest paper.
const LARGE: &str =
    "[design]\ncolumns = 4096\npicks = 8192\nweft_limit = 1\nwarp_limit = 1\nopening = 0\n";

// The same as values of the top table.
const COLOURS: &str = "colour = [{ weave = \"plain\" }]\n";

const SHIFTS: &str = "shift = [{ repeats = [1] }]\n";

// What is told of the text of a session file, and `fits` where it breaks no rule.
fn told(
    alloc: Global,
    shelf: &mut MemoryShelf,
    head: &str,
    pieces: &[&str],
    tail: &str,
) -> Result<String, AllocError> {
    let mut text = String::from_str(alloc, head)?;
    for piece in pieces {
        text.push_str(piece)?;
    }
    text.push_str(tail)?;
    match Session::of_bytes(alloc, text.as_bytes(), shelf) {
        Ok(_) => String::from_str(alloc, "fits"),
        Err(refusal) => format!(in alloc; "{refusal}"),
    }
}

/// The pieces of a file, and what is told of it.
type Case<'a> = (&'a [&'a str], &'a str);

// Whether of each case, between a head and a tail, that is told which is wanted.
fn check_cases(
    rt: &impl Abort,
    shelf: &mut MemoryShelf,
    alloc: Global,
    head: &str,
    cases: &[Case<'_>],
    tail: &str,
) -> Result<(), Fail> {
    for (pieces, want) in cases {
        let found = told(alloc, shelf, head, pieces, tail)?;
        assert_eq!(rt; found.as_str(), *want);
    }
    Ok(())
}

// A session with a thing so many times.
fn repeated(
    alloc: Global,
    head: &str,
    thing: &str,
    count: u32,
    tail: &str,
) -> Result<String, AllocError> {
    let mut text = String::from_str(alloc, head)?;
    for _ in 0..count {
        text.push_str(thing)?;
    }
    text.push_str(tail)?;
    Ok(text)
}

#[test]
fn the_single_values_of_the_top_table(rt: HostRuntime) -> Result<(), Fail> {
    const CASES: [Case<'static>; 20] = [
        (&["format"], ": not toml"),
        (&[], "format: missing"),
        (&["format = \"1\""], "format: wrong kind"),
        (&["format = 0"], "format: 0 not in 1 to 2"),
        (&["format = 3"], "format: 3 not in 1 to 2"),
        (
            &["format = 9223372036854775807"],
            "format: 9223372036854775807 not in 1 to 2",
        ),
        (
            &["format = -9223372036854775808"],
            "format: -9223372036854775808 not in 1 to 2",
        ),
        (&["format = 1\nlooms = 0"], "looms: 0 not in 1 to 64"),
        (&["format = 1\nlooms = 65"], "looms: 65 not in 1 to 64"),
        (&["format = 1\nlooms = 1.0"], "looms: wrong kind"),
        (&["format = 1\nlooms = 64\nshow = 1"], "show: wrong kind"),
        (
            &["format = 1\nshow = \"row\"\nfaces = 1"],
            "show: unknown word",
        ),
        (&["format = 1\nfaces = \"up\""], "faces: wrong kind"),
        (
            &["format = 1\nlooms = 2\nfaces = [7]"],
            "faces: 1 items, not 2 to 2",
        ),
        (
            &["format = 1\nlooms = 2\nfaces = [\"down\", 7]"],
            "faces[1]: wrong kind",
        ),
        (
            &["format = 1\nlooms = 2\nfaces = [\"left\", 7]"],
            "faces[0]: unknown word",
        ),
        (&["format = 2\nshow = \"rows\""], "design: missing"),
        (&["format = 2\ndesign = 1"], "design: wrong kind"),
        (
            &["format = 2\nloom = 1\ndesign = {}"],
            "design.columns: missing",
        ),
        (
            &[
                "format = 1\nshow = \"rows\"\n",
                COLOURS,
                "shift = [{ repeats = [1] }, { repeats = [2] }]\n",
                LARGE,
            ],
            "design.shown: 100663296 over 67108864",
        ),
    ];
    let mut shelf = MemoryShelf::new(rt.alloc(), Vec::new(rt.alloc()));
    check_cases(&rt, &mut shelf, rt.alloc(), "", &CASES, "")
}

#[test]
fn the_table_design(rt: HostRuntime) -> Result<(), Fail> {
    const CASES: [Case<'static>; 34] = [
        (&["columns = 0"], "design.columns: 0 not in 1 to 4096"),
        (&["columns = 4097"], "design.columns: 4097 not in 1 to 4096"),
        (&["columns = [2]\npicks = 0"], "design.columns: wrong kind"),
        (&["columns = 2"], "design.picks: missing"),
        (
            &["columns = 2\npicks = 8193"],
            "design.picks: 8193 not in 1 to 8192",
        ),
        (
            &[SIZE, "hooks = 16385"],
            "design.hooks: 16385 not in 1 to 16384",
        ),
        (
            &[SIZE, "hooks = 16384\ncast_out = 3"],
            "design.cast_out: wrong kind",
        ),
        (
            &[SIZE, "cast_out = [5, true]"],
            "design.cast_out[1]: wrong kind",
        ),
        (
            &[SIZE, "cast_out = [16383, 16384]"],
            "design.cast_out[1]: 16384 not in 0 to 16383",
        ),
        (
            &[SIZE, "cast_out = [2]"],
            "design.cast_out: hook 2 out of range",
        ),
        (
            &[SIZE, "hooks = 4\ncast_out = [1, 1]"],
            "design.cast_out: hook 1 cast twice",
        ),
        (
            &[SIZE, "hooks = 4\ncast_out = [0, 1, 2]"],
            "design.cast_out: 1 hooks for 2 columns",
        ),
        (&[SIZE, "weft_face = 1"], "design.weft_limit: missing"),
        (
            &[SIZE, "weft_limit = 256"],
            "design.weft_limit: 256 not in 1 to 255",
        ),
        (
            &[SIZE, "weft_limit = 255\nraise = 1"],
            "design.warp_limit: missing",
        ),
        (
            &[SIZE, "weft_limit = 1\nwarp_limit = 0"],
            "design.warp_limit: 0 not in 1 to 255",
        ),
        (&[SIZE, LIMITS, "raise = 1"], "design.raise: wrong kind"),
        (
            &[SIZE, LIMITS, "raise = \"weft\"\nsink = 1"],
            "design.raise: weave unknown",
        ),
        (
            &[SIZE, LIMITS, "sink = \"satin 6 5 weft\""],
            "design.sink: no satin 6 5",
        ),
        (
            &[SIZE, LIMITS, "sink = \"twill 65 1 left\""],
            "design.sink: weave too wide",
        ),
        (
            &[SIZE, LIMITS, "sink = \"twill 0 1 left\""],
            "design.sink: twill zero",
        ),
        (
            &[SIZE, LIMITS, "sink = \"rows 1 01\""],
            "design.sink: weave ragged",
        ),
        (&[SIZE, LIMITS, "tile = 3"], "design.tile: 3 not in 4 to 64"),
        (
            &[SIZE, LIMITS, "tile = 65"],
            "design.tile: 65 not in 4 to 64",
        ),
        (&[SIZE, LIMITS], "colour: missing"),
        (&[SIZE, LIMITS, COLOUR], "design.opening: missing"),
        (
            &[SIZE, LIMITS, "opening = 1\n", COLOUR],
            "design.opening: 1 not in 0 to 0",
        ),
        (
            &[SIZE, LIMITS, "opening = \"\"\n", COLOUR],
            "design.opening: bad name",
        ),
        (
            &[SIZE, LIMITS, "opening = true\n", COLOUR],
            "design.opening: wrong kind",
        ),
        (
            &[
                SIZE,
                LIMITS,
                "opening = 0\nweft_face = 1\n",
                COLOUR,
                "[[shift]]\nrepeats = [1]",
            ],
            "design.weft_face: unknown key",
        ),
        (
            &[
                "columns = 4096\npicks = 8192\nopening = 0\n",
                LIMITS,
                COLOUR,
                "[[tie]]\nkind = \"straight\"\nfrom = 0\nto = 4095\ntimes = 4\n[[shift]]\nrepeats = [1]",
            ],
            "design.cloth: 134217728 over 67108864",
        ),
        (
            &[
                SIZE,
                LIMITS,
                "opening = 0\n",
                COLOUR,
                "[[shift]]\nrepeats = [65536]\n[[shift]]\nrepeats = [1]",
            ],
            "shift.repeats: 65537 over 65536",
        ),
        (
            &[
                SIZE,
                LIMITS,
                "opening = 0\n\"a.b\\n\" = 1\n",
                COLOUR,
                "[[shift]]\nrepeats = [65536]",
            ],
            "design.a.b\n: unknown key",
        ),
        (
            &[
                SIZE,
                LIMITS,
                "opening = 0\n",
                COLOUR,
                "[[shift]]\nrepeats = [65536]",
            ],
            "fits",
        ),
    ];
    let mut shelf = MemoryShelf::new(rt.alloc(), Vec::new(rt.alloc()));
    check_cases(
        &rt,
        &mut shelf,
        rt.alloc(),
        "format = 1\n[design]\n",
        &CASES,
        "",
    )
}

#[test]
fn the_four_limits_of_format_2(rt: HostRuntime) -> Result<(), Fail> {
    const CASES: [Case<'static>; 7] = [
        (&["weft_limit = 1"], "design.weft_face: missing"),
        (&["weft_face = 1"], "design.weft_back: missing"),
        (
            &["weft_face = 1\nweft_back = 256"],
            "design.weft_back: 256 not in 1 to 255",
        ),
        (
            &["weft_face = 1\nweft_back = 1\nwarp_back = 0"],
            "design.warp_face: missing",
        ),
        (
            &["weft_face = 1\nweft_back = 1\nwarp_face = 1\nwarp_back = 0"],
            "design.warp_back: 0 not in 1 to 255",
        ),
        (
            &["weft_face = 1\nweft_back = 2\nwarp_face = 3\nwarp_back = 4\nwarp_limit = 5"],
            "design.warp_limit: unknown key",
        ),
        (
            &["weft_face = 1\nweft_back = 2\nwarp_face = 3\nwarp_back = 4"],
            "fits",
        ),
    ];
    let mut shelf = MemoryShelf::new(rt.alloc(), Vec::new(rt.alloc()));
    check_cases(
        &rt,
        &mut shelf,
        rt.alloc(),
        "format = 2\n[design]\ncolumns = 2\npicks = 2\nopening = 0\n",
        &CASES,
        FOLLOWS,
    )
}

#[test]
fn the_lists_of_tables(rt: HostRuntime) -> Result<(), Fail> {
    const CASES: [Case<'static>; 44] = [
        (&["colour = []\n", SHIFTS], "colour: 0 items, not 1 to 256"),
        (&["colour = [1]\n", SHIFTS], "colour[0]: wrong kind"),
        (&["colour = [{}, 1]\n", SHIFTS], "colour[0].weave: missing"),
        (
            &[
                "colour = [{ weave = \"plain\" }, { weave = \"rows 1 11\", rgb = 1 }]\n",
                SHIFTS,
            ],
            "colour[1].weave: weave ragged",
        ),
        (
            &[
                "colour = [{ weave = \"plain\", rgb = [70000, 0] }]\n",
                SHIFTS,
            ],
            "colour[0].rgb: 2 items, not 3 to 3",
        ),
        (
            &[
                "colour = [{ weave = \"plain\", rgb = [0, 65535, 65536] }]\n",
                SHIFTS,
            ],
            "colour[0].rgb[2]: 65536 not in 0 to 65535",
        ),
        (&["tie = 1\n", COLOURS, SHIFTS], "tie: wrong kind"),
        (&["tie = [{}]\n", COLOURS, SHIFTS], "tie[0].kind: missing"),
        (
            &["tie = [{ kind = \"zigzag\" }]\n", COLOURS, SHIFTS],
            "tie[0].kind: unknown word",
        ),
        (
            &[
                "tie = [{ kind = \"straight\", from = 4096 }]\n",
                COLOURS,
                SHIFTS,
            ],
            "tie[0].from: 4096 not in 0 to 4095",
        ),
        (
            &[
                "tie = [{ kind = \"straight\", from = 0 }]\n",
                COLOURS,
                SHIFTS,
            ],
            "tie[0].to: missing",
        ),
        (
            &[
                "tie = [{ kind = \"straight\", from = 0, to = 1, times = 0 }]\n",
                COLOURS,
                SHIFTS,
            ],
            "tie[0].times: 0 not in 1 to 16384",
        ),
        (
            &[
                "tie = [{ kind = \"pointed\", from = 0, to = 0 }, { kind = \"reverse\" }]\n",
                COLOURS,
                SHIFTS,
            ],
            "tie[1].from: missing",
        ),
        (
            &[
                "tie = [{ kind = \"pointed\", from = 0, to = 0 }]\n",
                COLOURS,
                SHIFTS,
            ],
            "tie: column 1 untied",
        ),
        (
            &[
                "tie = [{ kind = \"reverse\", from = 0, to = 2 }]\n",
                COLOURS,
                SHIFTS,
            ],
            "tie: section 0 out of range",
        ),
        (
            &[
                "tie = [{ kind = \"reverse\", from = 0, to = 1, times = 16384 }]\n",
                COLOURS,
                SHIFTS,
            ],
            "tie: section 0 has too many ends",
        ),
        (
            &["motif = [{}]\n", COLOURS, SHIFTS],
            "motif[0].name: missing",
        ),
        (
            &["motif = [{ name = \"A\" }]\n", COLOURS, SHIFTS],
            "motif[0].name: bad name",
        ),
        (
            &["motif = [{ name = \"\" }]\n", COLOURS, SHIFTS],
            "motif[0].name: bad name",
        ),
        (
            &[
                "motif = [{ name = \"a23456789_123456789_123456789_123\" }]\n",
                COLOURS,
                SHIFTS,
            ],
            "motif[0].name: bad name",
        ),
        (
            &[
                "motif = [{ name = \"a23456789_123456789_123456789_12\" }]\n",
                COLOURS,
                SHIFTS,
            ],
            "motif[0].rows: missing",
        ),
        (
            &[
                "motif = [{ name = \"a\", rows = [\"0\"] }, { name = \"a\" }]\n",
                COLOURS,
                SHIFTS,
            ],
            "motif[1].name: bad name",
        ),
        (
            &["motif = [{ name = \"a\", rows = [] }]\n", COLOURS, SHIFTS],
            "motif[0].rows: 0 items, not 1 to 8192",
        ),
        (
            &[
                "motif = [{ name = \"a\", rows = [\"x\", 1] }]\n",
                COLOURS,
                SHIFTS,
            ],
            "motif[0].rows[1]: wrong kind",
        ),
        (
            &[
                "motif = [{ name = \"a\", rows = [\"0 x\"] }, 1]\n",
                COLOURS,
                SHIFTS,
            ],
            "motif[0].rows: motif row 0 word 1",
        ),
        (
            &[
                "motif = [{ name = \"a\", rows = [\"1\"] }]\n",
                COLOURS,
                SHIFTS,
            ],
            "motif[0].rows: motif row 0 word 0 colour",
        ),
        (
            &[
                "motif = [{ name = \"a\", rows = [\"0\", \". 0\"] }]\n",
                COLOURS,
                SHIFTS,
            ],
            "motif[0].rows: motif row 1 ragged",
        ),
        (
            &[
                "motif = [{ name = \"a\", rows = [\"0 . 0\"] }]\n",
                COLOURS,
                SHIFTS,
            ],
            "motif[0].rows: motif too large",
        ),
        (&["shift = []\n", COLOURS], "shift: 0 items, not 1 to 256"),
        (&["shift = [{}]\n", COLOURS], "shift[0].repeats: missing"),
        (
            &["shift = [{ repeats = [65537, 1] }]\n", COLOURS],
            "shift[0].repeats: 2 items, not 1 to 1",
        ),
        (
            &["shift = [{ repeats = [65537] }]\n", COLOURS],
            "shift[0].repeats[0]: 65537 not in 0 to 65536",
        ),
        (
            &["shift = [{ repeats = [1], acts = 1 }]\n", COLOURS],
            "shift[0].acts: wrong kind",
        ),
        (
            &[
                "shift = [{ repeats = [1], acts = [[\"dye\"], 1] }]\n",
                COLOURS,
            ],
            "shift[0].acts[1]: wrong kind",
        ),
        (
            &[
                "shift = [{ repeats = [1], acts = [[\"commit\", 1]] }]\n",
                COLOURS,
            ],
            "shift[0].acts[0][1]: wrong kind",
        ),
        (
            &[
                "shift = [{ repeats = [1], acts = [[], [\"dye\", 1]] }]\n",
                COLOURS,
            ],
            "shift[0].acts[1][0]: act word 0",
        ),
        (
            &[
                "shift = [{ repeats = [1], acts = [[\"dot 01 0 0\"]] }]\n",
                COLOURS,
            ],
            "shift[0].acts[0][0]: act number 1",
        ),
        (
            &[
                "shift = [{ repeats = [1], acts = [[\"dot 1 0 2\"]] }]\n",
                COLOURS,
            ],
            "shift[0].acts[0][0]: act colour",
        ),
        (
            &[
                "shift = [{ repeats = [1], acts = [[\"stamp a 0 0\"]] }]\n",
                COLOURS,
            ],
            "shift[0].acts[0][0]: act motif",
        ),
        (
            &[
                "shift = [{ repeats = [1], acts = [[\"dot 0 0 2\"]] }]\n",
                COLOURS,
            ],
            "shift[0].acts[0][0]: act out of paper",
        ),
        (
            &["zoom = 1\nloom = 1\n", COLOURS, SHIFTS],
            "loom: unknown key",
        ),
        (
            &[
                "colour = [{ weave = \"plain\", b = 1, a = 1 }]\nloom = 1\n",
                SHIFTS,
            ],
            "loom: unknown key",
        ),
        (
            &[
                "colour = [{ weave = \"plain\" }, { weave = \"plain\", b = 1, a = 1 }]\n",
                SHIFTS,
            ],
            "colour[1].a: unknown key",
        ),
        (
            &[
                "shift = [{ repeats = [1], act = [] }]\nmotif = [{ name = \"a\", rows = [\"0\"], row = 1 }]\n",
                COLOURS,
            ],
            "motif[0].row: unknown key",
        ),
    ];
    let mut shelf = MemoryShelf::new(rt.alloc(), Vec::new(rt.alloc()));
    check_cases(&rt, &mut shelf, rt.alloc(), "format = 1\n", &CASES, DESIGN)
}

// The entries of a palette image of 3 by 2 pixels of 4 bits, of which the top row is 1 2 0 and the other 0 1 2.
const IMAGE_HEAD: [u8; 122] = [
    0x49, 0x49, 0x2A, 0, 8, 0, 0, 0, 9, 0, 0, 1, 3, 0, 1, 0, 0, 0, 3, 0, 0, 0, 1, 1, 3, 0, 1, 0, 0,
    0, 2, 0, 0, 0, 2, 1, 3, 0, 1, 0, 0, 0, 4, 0, 0, 0, 3, 1, 3, 0, 1, 0, 0, 0, 1, 0, 0, 0, 6, 1, 3,
    0, 1, 0, 0, 0, 3, 0, 0, 0, 0x11, 1, 4, 0, 1, 0, 0, 0, 0xDA, 0, 0, 0, 0x16, 1, 3, 0, 1, 0, 0, 0,
    2, 0, 0, 0, 0x17, 1, 4, 0, 1, 0, 0, 0, 4, 0, 0, 0, 0x40, 1, 3, 0, 0x30, 0, 0, 0, 0x7A, 0, 0, 0,
    0, 0, 0, 0,
];

fn image(alloc: Global) -> Result<Vec<u8>, AllocError> {
    let mut bytes = Vec::from_slice(alloc, &IMAGE_HEAD)?;
    bytes.extend_from_slice(&[0; 96])?;
    bytes.extend_from_slice(&[0x12, 0x0F, 0x01, 0x20])?;
    Ok(bytes)
}

#[test]
fn the_image_of_an_opening_paper(rt: HostRuntime) -> Result<(), Fail> {
    const CASES: [Case<'static>; 7] = [
        (
            &["columns = 2\nopening = \"none\"\n", REST],
            "cannot read none",
        ),
        (
            &["columns = 3\nopening = \"text\"\n", REST],
            "design.opening: image truncated",
        ),
        (
            &["columns = 2\nopening = \"leaf\"\n", REST],
            "design.opening: image is 3 by 2",
        ),
        (
            &["columns = 3\nopening = \"leaf\"\n", REST],
            "design.opening: image colour 1 at 1 0",
        ),
        (
            &[
                "columns = 3\nopening = \"leaf\"\n",
                REST,
                "[[colour]]\nweave = \"full\"\n",
            ],
            "design.opening: image colour 2 at 2 0",
        ),
        (
            &[
                "columns = 3\nopening = \"leaf\"\n",
                REST,
                "[[colour]]\nweave = \"full\"\n[[colour]]\nweave = \"full\"\n",
            ],
            "fits",
        ),
        (
            &[
                "columns = 3\nopening = \"none\"\n",
                REST,
                "[[colour]]\nlook = 1\n",
            ],
            "colour[1].weave: missing",
        ),
    ];
    let mut shelf = MemoryShelf::new(rt.alloc(), Vec::new(rt.alloc()));
    shelf.add("leaf", image(rt.alloc())?.as_slice())?;
    shelf.add("text", b"II")?;
    check_cases(
        &rt,
        &mut shelf,
        rt.alloc(),
        "format = 1\n[design]\npicks = 2\nweft_limit = 3\nwarp_limit = 2\n",
        &CASES,
        "",
    )
}

#[test]
fn the_files_of_a_session(rt: HostRuntime) -> Result<(), Fail> {
    let mut fails = Vec::new(rt.alloc());
    fails.push(FailedCall { call: 1, bytes: 0 })?;
    let mut shelf = MemoryShelf::new(rt.alloc(), fails);
    let head = "format = 1\n[design]\ncolumns = 3\npicks = 2\nweft_limit = 3\nwarp_limit = 2\n";
    let session = repeated(rt.alloc(), head, "opening = \"leaf\"\n", 1, REST)?;
    shelf.add("session", session.as_bytes())?;
    shelf.add("leaf", image(rt.alloc())?.as_slice())?;
    let mut found = String::new(rt.alloc());
    for name in &["session", "session", "other"] {
        match Session::read(rt.alloc(), &mut shelf, name) {
            Ok(_) => found.push_str("fits")?,
            Err(refusal) => found.push_str(format!(in rt.alloc(); "{refusal}; ")?.as_str())?,
        }
    }
    assert_eq!(rt;
        found.as_str(),
        "cannot read leaf; design.opening: image colour 1 at 1 0; cannot read other; "
    );
    Ok(())
}

// Whether of a session with an act so many times, and with this table `design`, that is told which is wanted.
fn check_acts(
    rt: &impl Abort,
    alloc: Global,
    act: &str,
    count: u32,
    design: &str,
    want: &str,
) -> Result<(), Fail> {
    let mut shelf = MemoryShelf::new(alloc, Vec::new(alloc));
    let head = "format = 1\nshift = [{ repeats = [1], acts = [[";
    let text = repeated(alloc, head, act, count, "]] }]\n")?;
    let found = told(alloc, &mut shelf, text.as_str(), &[COLOURS], design)?;
    assert_eq!(rt; found.as_str(), want);
    Ok(())
}

#[test]
fn the_numbers_of_a_whole_session(rt: HostRuntime) -> Result<(), Fail> {
    const COMMIT: &str = "\"commit\",";
    const DOT: &str = "\"dot 0 0 0\",";
    const CARDS: &str =
        "[design]\nhooks = 16384\ncolumns = 4096\npicks = 8192\nweft_limit = 1\nwarp_limit = 1\nopening = 0\n";
    check_acts(&rt, rt.alloc(), COMMIT, 256, DESIGN, "fits")?;
    check_acts(
        &rt,
        rt.alloc(),
        COMMIT,
        257,
        DESIGN,
        "shift.commits: 257 over 256",
    )?;
    check_acts(&rt, rt.alloc(), DOT, 65536, DESIGN, "fits")?;
    check_acts(
        &rt,
        rt.alloc(),
        DOT,
        65537,
        DESIGN,
        "shift.acts: 65537 over 65536",
    )?;
    let cards = "design.cards: 1090519040 over 1073741824";
    check_acts(&rt, rt.alloc(), COMMIT, 64, CARDS, cards)
}
