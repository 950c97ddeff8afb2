//! Reports that are those of legal logs, and the first line that breaks others.

use audit_report::check::{Verdict, check_report};
use mill_base::memory::OutOfMemory;
use mill_io::memory_shelf::MemoryShelf;
use session_file::session::Session;
use std::alloc::Global;
use std::process::Abort;
use std::test::Fail;

/// Two ends and two picks of plain weave, one loom with one repeat, and its rows.
pub const SMALLEST: &str =
    "format = 1\nshow = \"rows\"\n[design]\ncolumns = 2\npicks = 2\nweft_limit = 1\nwarp_limit = 1\nopening = 0\n[[colour]]\nweave = \"plain\"\n[[shift]]\nrepeats = [1]\n";

/// Its only report.
pub const SMALLEST_REPORT: &str =
    "studio 1\ndesign columns 2 picks 2 ends 2 hooks 2\nshift 0\nloom 0 repeat 0 version 0 sha256 607b306244cab5c6e8670d7525e1af04304b5d2c3a8a1ad791cb01de20e22117\nrow 0 #.\nrow 1 .#\nend versions 0\n";

/// Two painters who paint one cell, in whatever order.
pub const PAINTERS: &str =
    "format = 1\n[design]\ncolumns = 4\npicks = 4\nweft_limit = 3\nwarp_limit = 3\nopening = 0\n[[colour]]\nweave = \"plain\"\n[[colour]]\nweave = \"blank\"\n[[colour]]\nweave = \"full\"\n[[shift]]\nrepeats = [0]\nacts = [[\"dot 1 0 0\"], [\"dot 2 0 0\"]]\n[[shift]]\nrepeats = [0]\nacts = [[\"commit\"]]\n[[shift]]\nrepeats = [1]\n";

/// Painter 0 first.
pub const FIRST: &str =
    "studio 1\ndesign columns 4 picks 4 ends 4 hooks 4\nshift 0\nact 0 painter 0 number 1 paint\nact 1 painter 1 number 1 paint\nshift 1\nact 2 painter 0 number 1 accepted 1\nshift 2\nloom 0 repeat 0 version 1 sha256 9a1d2b284ce4418bcb7e9d3efecc951780318309bcf1358a43ea09ffd0e80f98\nend versions 1\n";

/// Painter 1 first.
pub const SECOND: &str =
    "studio 1\ndesign columns 4 picks 4 ends 4 hooks 4\nshift 0\nact 0 painter 1 number 1 paint\nact 1 painter 0 number 1 paint\nshift 1\nact 2 painter 0 number 1 accepted 1\nshift 2\nloom 0 repeat 0 version 1 sha256 77134a12578ce24244757f2e4d4426dd7a55264e044d4d3b91684c3e783f25f0\nend versions 1\n";

/// The first line that breaks bytes, and none where they are a report.
pub fn broken(alloc: Global, session: &str, report: &[u8]) -> Result<Option<u32>, OutOfMemory> {
    let mut shelf = MemoryShelf::new(alloc, Vec::new(alloc));
    let Ok(session) = Session::of_bytes(alloc, session.as_bytes(), &mut shelf) else {
        return Err(OutOfMemory);
    };
    if report.len() > 1_000_000 {
        return Err(OutOfMemory);
    }
    match check_report(alloc, &session, report)? {
        Verdict::Yes(_) => Ok(None),
        Verdict::No(line) => Ok(Some(line)),
    }
}

// A report with a text put in the place of another.
fn check_cases(
    rt: &impl Abort,
    alloc: Global,
    session: &str,
    cases: &[(&str, &str, &str, Option<u32>)],
) -> Result<(), Fail> {
    for (before, changed, behind, want) in cases {
        let text = format!(in alloc; "{before}{changed}{behind}")?;
        let found = broken(alloc, session, text.as_bytes())?;
        assert_eq!(rt; found, *want, "{changed}");
    }
    Ok(())
}

const HEAD: &str = "studio 1\ndesign columns 2 picks 2 ends 2 hooks 2\nshift 0\n";

const LOOM: &str =
    "loom 0 repeat 0 version 0 sha256 607b306244cab5c6e8670d7525e1af04304b5d2c3a8a1ad791cb01de20e22117\n";

const ROWS: &str = "row 0 #.\nrow 1 .#\n";

const END: &str = "end versions 0\n";

#[test]
fn the_first_line_that_breaks_the_smallest_report(rt: HostRuntime) -> Result<(), Fail> {
    let later =
        "loom 0 repeat 0 version 1 sha256 607b306244cab5c6e8670d7525e1af04304b5d2c3a8a1ad791cb01de20e22117\n";
    let loom = format!(in rt.alloc(); "{LOOM}{ROWS}{END}")?;
    let rows = format!(in rt.alloc(); "{ROWS}{END}")?;
    let front = format!(in rt.alloc(); "{HEAD}{LOOM}")?;
    check_cases(
        &rt,
        rt.alloc(),
        SMALLEST,
        &[
            (HEAD, loom.as_str(), "", None),
            (front.as_str(), "row 0 ##\nrow 1 .#\n", END, Some(4)),
            (HEAD, later, rows.as_str(), Some(3)),
            (front.as_str(), ROWS, "", Some(6)),
            (HEAD, loom.as_str(), "end versions 0\n", Some(7)),
            (HEAD, loom.as_str(), "\n", Some(7)),
            ("", "", "", Some(0)),
            ("", "\n", "", Some(0)),
            ("\u{feff}", HEAD, loom.as_str(), Some(0)),
            ("", "studio 1\r\n", "", Some(0)),
            (front.as_str(), ROWS, "end versions 0", Some(7)),
            (front.as_str(), ROWS, "end versions 1\n", Some(6)),
        ],
    )
}

#[test]
fn both_orders_of_two_painters_are_believed(rt: HostRuntime) -> Result<(), Fail> {
    for report in &[FIRST, SECOND] {
        let found = broken(rt.alloc(), PAINTERS, report.as_bytes())?;
        assert_eq!(rt; found, None, "{report}");
    }
    let other = broken(rt.alloc(), SMALLEST, FIRST.as_bytes())?;
    assert_eq!(rt; other, Some(1));
    Ok(())
}
