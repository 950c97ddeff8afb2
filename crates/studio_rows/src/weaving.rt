//! Sessions that are woven, and their reports. A `#` is a lifted end. The digests are SHA-256 of the packed rows,
//! worked out apart from this program.

use crate::calls::{NEVER, expect, expect_changed, failing_sink, sound_shelf, words_of};
use crate::files::Changes;
use crate::sessions::{ORDINARY, ordinary_image};
use mill_io::gate::OpenGate;
use std::test::Fail;
use studio_run::answer::studio;

/// Changed lines of the smallest session, and its report.
type Case = (Changes, &'static str);

const WOVEN: [Case; 6] = [
    (
        &[],
        "studio 1
design columns 2 picks 2 ends 2 hooks 2
shift 0
loom 0 repeat 0 version 0 sha256 607b306244cab5c6e8670d7525e1af04304b5d2c3a8a1ad791cb01de20e22117
row 0 #.
row 1 .#
end versions 0
",
    ),
    // A float of the length of its limit is none over it, so that no binder marks the cloth.
    (
        &[
            ("columns = 2", "columns = 6\nraise = \"full\""),
            ("weft_limit = 1", "weft_limit = 4"),
            ("warp_limit = 1", "warp_limit = 4"),
            ("weave = \"plain\"", "weave = \"rows 001100 110011\""),
        ],
        "studio 1
design columns 6 picks 2 ends 6 hooks 6
shift 0
loom 0 repeat 0 version 0 sha256 f6ff1eee212e0ff6b5f3adcadd54e5127cc93f963e2272f5e8719980965683af
row 0 ..##..
row 1 ##..##
end versions 0
",
    ),
    (
        &[
            ("columns = 2", "columns = 5"),
            ("picks = 2", "picks = 5"),
            ("weft_limit = 1", "weft_limit = 4"),
            ("warp_limit = 1", "warp_limit = 4"),
            ("weave = \"plain\"", "weave = \"satin 5 2 weft\""),
        ],
        "studio 1
design columns 5 picks 5 ends 5 hooks 5
shift 0
loom 0 repeat 0 version 0 sha256 6b89aebcc87b06e1acdd0b780a1ad21e999401af8ce3d3d2f395c6c7d2aa2461
row 0 #....
row 1 ...#.
row 2 .#...
row 3 ....#
row 4 ..#..
end versions 0
",
    ),
    // The binder breaks lines that are unlifted throughout.
    (
        &[
            ("columns = 2", "columns = 8"),
            ("picks = 2", "picks = 8"),
            ("weft_limit = 1", "weft_limit = 7"),
            ("warp_limit = 1", "warp_limit = 7"),
            ("opening = 0", "opening = 0\nraise = \"satin 8 3 weft\""),
            ("weave = \"plain\"", "weave = \"blank\""),
        ],
        "studio 1
design columns 8 picks 8 ends 8 hooks 8
shift 0
loom 0 repeat 0 version 0 sha256 c38824e92b48e2ff8cb74c8c6d541c11b1d6c30ca81a4cbabdaa62678b18895a
row 0 #.......
row 1 ...#....
row 2 ......#.
row 3 .#......
row 4 ....#...
row 5 .......#
row 6 ..#.....
row 7 .....#..
end versions 0
",
    ),
    // The ends have the columns 0, 1, 2, 1.
    (
        &[
            ("columns = 2", "columns = 3"),
            ("weft_limit = 1", "weft_limit = 3"),
            ("warp_limit = 1", "warp_limit = 3"),
            ("weave = \"plain\"", "weave = \"rows 100 011\""),
            (
                "[[shift]]",
                "[[tie]]\nkind = \"pointed\"\nfrom = 0\nto = 2\n[[shift]]",
            ),
        ],
        "studio 1
design columns 3 picks 2 ends 4 hooks 3
shift 0
loom 0 repeat 0 version 0 sha256 1d469117e72c5c2d3444ec7a0379fc404ca0fadadb107a6b200abc81ee0edf20
row 0 #...
row 1 .###
end versions 0
",
    ),
    // The floats of four ends are unlifted on pick 0 and lifted on pick 1; those of the ends are of one cell.
    (
        &[
            ("format = 1", "format = 2"),
            ("columns = 2", "columns = 6"),
            ("weft_limit = 1", "weft_face = 4\nweft_back = 4"),
            ("warp_limit = 1", "warp_face = 1\nwarp_back = 1"),
            ("weave = \"plain\"", "weave = \"rows 001100 110011\""),
        ],
        "studio 1
design columns 6 picks 2 ends 6 hooks 6
shift 0
loom 0 repeat 0 version 0 sha256 f6ff1eee212e0ff6b5f3adcadd54e5127cc93f963e2272f5e8719980965683af
row 0 ..##..
row 1 ##..##
end versions 0
",
    ),
];

const TWO_LOOMS: Case = (
    &[
        (
            "format = 1",
            "format = 1\nlooms = 2\nfaces = [\"up\", \"down\"]",
        ),
        ("repeats = [1]", "repeats = [1, 1]"),
    ],
    "studio 1
design columns 2 picks 2 ends 2 hooks 2
shift 0
loom 0 repeat 0 version 0 sha256 607b306244cab5c6e8670d7525e1af04304b5d2c3a8a1ad791cb01de20e22117
row 0 #.
row 1 .#
loom 1 down repeat 0 version 0 sha256 34921bfa061b5734acf41338ddc8ccbb6bdb91a85e8609cc342de669bf550d03
row 0 .#
row 1 #.
end versions 0
",
);

#[test]
fn cloths_whose_floats_are_within_their_limits_are_woven(rt: HostRuntime) -> Result<(), Fail> {
    for (changes, report) in WOVEN {
        expect_changed(&rt, rt.alloc(), changes, &["weave", "S1"], (0, report, ""))?;
    }
    Ok(())
}

#[test]
fn a_loom_that_weaves_face_down_lifts_the_other_ends(rt: HostRuntime) -> Result<(), Fail> {
    let (changes, report) = TWO_LOOMS;
    expect_changed(&rt, rt.alloc(), changes, &["weave", "S1"], (0, report, ""))
}

const ORDINARY_HEAD: &str = "studio 1
design columns 400 picks 600 ends 798 hooks 408
shift 0
";

// The last version has the third commit's cloth, whichever order the acts of shift 0 were done in.
const ORDINARY_END: &str = "
shift 2
loom 0 repeat 3 version 3 sha256 3de2799d85e99afaad8119f780865aee509460090cef233715d4d86b7a1eacea
loom 1 repeat 3 version 3 sha256 3de2799d85e99afaad8119f780865aee509460090cef233715d4d86b7a1eacea
loom 2 repeat 3 version 3 sha256 3de2799d85e99afaad8119f780865aee509460090cef233715d4d86b7a1eacea
loom 3 repeat 3 version 3 sha256 3de2799d85e99afaad8119f780865aee509460090cef233715d4d86b7a1eacea
end versions 3
";

#[test]
fn four_looms_weave_what_two_painters_made_of_an_image(rt: HostRuntime) -> Result<(), Fail> {
    let alloc = rt.alloc();
    let mut shelf = sound_shelf(alloc);
    shelf.add("session", ORDINARY.as_bytes())?;
    shelf.add("blocks", ordinary_image(alloc)?.as_slice())?;
    let mut out = failing_sink(alloc, NEVER)?;
    let mut err = failing_sink(alloc, NEVER)?;
    let words = words_of(alloc, &["weave", "session"])?;
    let answer = studio(
        &rt, alloc, &words, &mut shelf, &mut out, &mut err, &OpenGate,
    );
    assert_eq!(rt; answer.status, 0);
    let report = out.taken();
    assert_eq!(rt; report.iter().filter(|byte| **byte == b'\n').count(), 28);
    assert!(rt; report.starts_with(ORDINARY_HEAD.as_bytes()));
    assert!(rt; report.ends_with(ORDINARY_END.as_bytes()));
    Ok(())
}

// The number of versions, the refused commits and the last cloth, worked out from the rules of the trial apart from
// this program.
const TRIAL: &str =
    "trial 1 versions 3 refused 17 repeats 24 sha256 08d4326b64dde15a9b2ecfbedd5bfa3b0932b6595ad0c1bffe3d4fa884c7a037\n";

#[test]
fn a_trial_comes_out_alike_each_time(rt: HostRuntime) -> Result<(), Fail> {
    let mut shelf = sound_shelf(rt.alloc());
    expect(&rt, rt.alloc(), &mut shelf, &["trial", "1"], (0, TRIAL, ""))?;
    expect(&rt, rt.alloc(), &mut shelf, &["trial", "1"], (0, TRIAL, ""))
}
