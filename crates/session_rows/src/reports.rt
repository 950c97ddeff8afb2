//! The lines that are printed, byte for byte.
ghost use Rattle.std.specs.Prelude.{◌≡◌, ◌<◌, length, IfOk};

use card_image::fault::ChainFault;
use casting_out::casting::Casting;
use draft_model::cloth::Cloth;
use draft_model::design::Design;
use draft_model::float_run::{FloatKind, FloatRun};
use harness_ties::section::{Section, SectionKind};
use harness_ties::tie::Tie;
use mill_base::bit_row::BitRow;
use mill_base::face::Face;
use mill_base::limits::{MAX_ACTS, MAX_LOOMS, MAX_PAINTERS, MAX_SHIFTS};
use mill_base::listed::Listed;
use mill_base::memory::OutOfMemory;
use mill_base::name_text::NameText;
use mill_base::size::Size;
use mill_io::faults::Fail;
use mill_io::memory_sink::MemorySink;
use point_paper::paper::Paper;
use report_text::cause::Cause;
use report_text::fault_line::fault_line;
use report_text::report::report;
use report_text::summary::{check_line, trial_line};
use session_file::session::{Session, ShiftPlan};
use session_rules::fault::{SessionFault, SessionFaultKind};
use std::alloc::Global;
use std::process::Abort;
use std::test;
use strokes::act::Act;
use strokes::motifs::Motifs;
use tiff_palette::TiffFault;
use version_journal::entry::{Entry, Reply};
use version_journal::run_log::{Repeat, RunLog};
use weave_book::book::Book;
use weave_book::weaves::Weave;

const ENDLESS: FloatRun = FloatRun {
    kind: FloatKind::Weft,
    line: 0,
    start: 0,
    length: 1,
    endless: true,
};

const USAGE: &str =
    "usage: weave SESSION, check SESSION, draw SESSION OUT, paper SESSION OUT, cards SESSION OUT, cards SESSION OUT down, lift SESSION CHAIN OUT, trial N";

// A cause has this status and these words, and its line has them behind `studio: `.
fn tell(
    rt: &impl Abort,
    alloc: Global,
    cause: &Cause,
    status: u8,
    words: &str,
) -> Result<(), test::Fail> {
    assert_eq!(rt; cause.status(), status, "{words}");
    let told = format!(in alloc; "{cause}")?;
    assert_eq!(rt; told.as_str(), words);
    let line = format!(in alloc; "studio: {words}\n")?;
    let mut err = MemorySink::new(alloc, Vec::new(alloc));
    fault_line(cause, &mut err);
    assert_eq!(rt; err.taken(), line.as_bytes(), "{words}");
    Ok(())
}

#[test]
fn each_cause_has_its_status_its_words_and_its_line(rt: HostRuntime) -> Result<(), test::Fail> {
    let alloc = rt.alloc();
    tell(&rt, alloc, &Cause::Usage, 1, USAGE)?;
    tell(
        &rt,
        alloc,
        &Cause::OpeningFloat(ENDLESS),
        3,
        "opening weft 0 start 0 length 1 endless",
    )?;
    tell(&rt, alloc, &Cause::OutOfMemory, 4, "out of memory")?;
    let unread = Cause::ReadFault(NameText::of(alloc, "S1")?);
    tell(&rt, alloc, &unread, 5, "cannot read S1")?;
    tell(&rt, alloc, &Cause::WriteFault, 6, "cannot write")?;
    let long = Cause::TooLong(NameText::of(alloc, "b/c.toml")?);
    tell(&rt, alloc, &long, 7, "too long: b/c.toml")?;
    let chain = Cause::Chain(ChainFault::CardNumber { kept: 1, found: 2 });
    tell(&rt, alloc, &chain, 8, "chain: card 2, not 1")
}

fn tell_fault(
    rt: &impl Abort,
    alloc: Global,
    path: &str,
    kind: SessionFaultKind,
    words: &str,
) -> Result<(), test::Fail> {
    let path = NameText::of(alloc, path)?;
    tell(
        rt,
        alloc,
        &Cause::Session(SessionFault { path, kind }),
        2,
        words,
    )
}

#[test]
fn a_fault_of_a_session_is_told_with_its_path(rt: HostRuntime) -> Result<(), test::Fail> {
    let range = SessionFaultKind::Range {
        value: 4097,
        least: 1,
        greatest: 4096,
    };
    for (path, kind, words) in [
        ("", SessionFaultKind::NotToml, "session: not toml"),
        (
            "design.columns",
            range,
            "session design.columns: 4097 not in 1 to 4096",
        ),
        (
            "design.opening",
            SessionFaultKind::Image(TiffFault::NotTiff),
            "session design.opening: image not tiff",
        ),
        ("", SessionFaultKind::UnknownKey, "session : unknown key"),
    ] {
        tell_fault(&rt, rt.alloc(), path, kind, words)?;
    }
    Ok(())
}

#[test]
fn nothing_is_told_where_all_was_done(rt: HostRuntime) {
    let mut err = MemorySink::new(rt.alloc(), Vec::new(rt.alloc()));
    fault_line(&Cause::Done, &mut err);
    assert!(rt; err.taken().is_empty());
    assert_eq!(rt; Cause::Done.status(), 0);
}

#[test]
fn a_sink_that_fails_has_the_bytes_that_it_took(rt: HostRuntime) -> Result<(), test::Fail> {
    let alloc = rt.alloc();
    let line = b"studio: cannot read a.toml\n";
    let cause = Cause::ReadFault(NameText::of(alloc, "a.toml")?);
    for bytes in 0..=27 {
        let fails = Vec::from_array(alloc, [Fail { call: 0, bytes }])?;
        let mut err = MemorySink::new(alloc, fails);
        fault_line(&cause, &mut err);
        assert_eq!(rt; err.taken(), &line[..bytes as usize], "{bytes}");
    }
    Ok(())
}

// A session of 2 columns and 2 picks.
fn session_of(
    alloc: Global,
    times: u32,
    hooks: u32,
    faces: Listed<Face>,
    shifts: Listed<ShiftPlan>,
) -> Result<Session, test::Fail> {
    let size = Size {
        columns: 2,
        picks: 2,
    };
    let round = Section {
        kind: SectionKind::Straight,
        from: 0,
        to: 1,
        times,
    };
    let tie = Tie::build(alloc, &[round], 2)?;
    let casting = Casting::build(alloc, hooks, &[], 2)?;
    let opening = Paper::blank(alloc, size, 0)?;
    let design = Design {
        size,
        book: Book::new(alloc),
        tie,
        casting,
        raise: Weave::Blank,
        sink: Weave::Blank,
        weft_face: 1,
        weft_back: 1,
        warp_face: 1,
        warp_back: 1,
        tile: 32,
    };
    Ok(Session {
        design,
        opening,
        colour_map: Listed::new(alloc),
        motifs: Motifs::new(alloc),
        looms: faces.len().min(MAX_LOOMS as usize) as u32,
        show_rows: true,
        faces,
        shifts,
    })
}

fn idle_shifts(alloc: Global, count: u32) -> Result<Listed<ShiftPlan>, OutOfMemory> {
    let mut shifts = Listed::new(alloc);
    for _ in 0..count {
        shifts.push(ShiftPlan {
            repeats: Listed::new(alloc),
            painters: Listed::new(alloc),
        })?;
    }
    Ok(shifts)
}

fn one_lifted(alloc: Global, ends: u32, end: u32) -> Result<BitRow, OutOfMemory>
    requires { end < ends }
    ensures { IfOk result (λ r. length r ≡ ends) }
{
    let mut row = BitRow::new(alloc, ends)?;
    row.set(end, true);
    Ok(row)
}

// End 0 is lifted at pick 0, and end 1 at pick 1.
fn diagonal(alloc: Global, ends: u32) -> Result<Cloth, OutOfMemory>
    requires { 1 < ends }
{
    let mut cloth = Cloth::blank(alloc, ends, 2)?;
    let first = one_lifted(alloc, ends, 0)?;
    cloth.set_row(0, &first);
    let second = one_lifted(alloc, ends, 1)?;
    cloth.set_row(1, &second);
    Ok(cloth)
}

fn entry(shift: u32, painter: u32, number: u32, reply: Reply) -> Entry {
    Entry {
        shift,
        painter,
        number,
        reply,
    }
}

fn woven(shift: u32, version: u32, byte: u8, rows: Option<Cloth>) -> Repeat {
    Repeat {
        shift,
        version,
        digest: [byte; 32],
        rows,
    }
}

// Two shifts: a commit that is refused in the first, one that is accepted in the second, and two looms, the second of face down.
fn log_of_two_shifts(alloc: Global) -> Result<RunLog, OutOfMemory> {
    let entries = Vec::from_array(
        alloc,
        [
            entry(0, 1, 1, Reply::Painted),
            entry(0, 0, 1, Reply::Refused(ENDLESS)),
            entry(0, 1, 2, Reply::Painted),
            entry(1, 0, 1, Reply::Accepted(1)),
        ],
    )?;
    let shown = woven(0, 0, 0x0f, Some(diagonal(alloc, 4)?));
    let first = Vec::from_array(alloc, [shown, woven(1, 1, 0xa9, None)])?;
    let shown = woven(1, 0, 0x10, Some(diagonal(alloc, 4)?));
    let second = Vec::from_array(alloc, [shown])?;
    let looms = Vec::from_array(alloc, [Listed::of(first), Listed::of(second)])?;
    Ok(RunLog {
        entries: Listed::of(entries),
        looms: Listed::of(looms),
    })
}

#[test]
fn a_trial_is_told_in_one_line(rt: HostRuntime) -> Result<(), test::Fail> {
    let log = log_of_two_shifts(rt.alloc())?;
    let line = trial_line(rt.alloc(), u32::MAX, &log, &[0xc5; 32])?;
    assert_eq!(rt;
        line.as_slice(),
        b"trial 4294967295 versions 1 refused 1 repeats 3 sha256 c5c5c5c5c5c5c5c5c5c5c5c5c5c5c5c5c5c5c5c5c5c5c5c5c5c5c5c5c5c5c5c5\n".as_slice()
    );
    Ok(())
}

fn shows(
    rt: &impl Abort,
    alloc: Global,
    session: &Session,
    log: &RunLog,
    text: &str,
) -> Result<(), test::Fail> {
    let bytes = report(alloc, session, log)?;
    assert_eq!(rt; bytes.as_slice(), text.as_bytes());
    Ok(())
}

fn checks(rt: &impl Abort, alloc: Global, session: &Session, text: &str) -> Result<(), test::Fail> {
    let line = check_line(alloc, session)?;
    assert_eq!(rt; line.as_slice(), text.as_bytes());
    Ok(())
}

fn smallest_session(alloc: Global) -> Result<Session, test::Fail> {
    let faces = Vec::from_array(alloc, [Face::Up])?;
    let shifts = idle_shifts(alloc, 1)?;
    session_of(alloc, 1, 2, Listed::of(faces), shifts)
}

// Its one repeat: the digest is SHA-256 of the bytes 80 40.
fn log_of_one_repeat(alloc: Global) -> Result<RunLog, OutOfMemory> {
    let rows = diagonal(alloc, 2)?;
    let shown = Repeat {
        shift: 0,
        version: 0,
        digest: [
            0x60, 0x7b, 0x30, 0x62, 0x44, 0xca, 0xb5, 0xc6, 0xe8, 0x67, 0x0d, 0x75, 0x25, 0xe1,
            0xaf, 0x04, 0x30, 0x4b, 0x5d, 0x2c, 0x3a, 0x8a, 0x1a, 0xd7, 0x91, 0xcb, 0x01, 0xde,
            0x20, 0xe2, 0x21, 0x17,
        ],
        rows: Some(rows),
    };
    let repeats = Vec::from_array(alloc, [shown])?;
    let looms = Vec::from_array(alloc, [Listed::of(repeats)])?;
    Ok(RunLog {
        entries: Listed::new(alloc),
        looms: Listed::of(looms),
    })
}

#[test]
fn the_smallest_session_has_a_report_of_seven_lines(rt: HostRuntime) -> Result<(), test::Fail> {
    let alloc = rt.alloc();
    let session = smallest_session(alloc)?;
    let log = log_of_one_repeat(alloc)?;
    shows(
        &rt,
        alloc,
        &session,
        &log,
        concat!(
            "studio 1\n",
            "design columns 2 picks 2 ends 2 hooks 2\n",
            "shift 0\n",
            "loom 0 repeat 0 version 0 sha256 607b306244cab5c6e8670d7525e1af04304b5d2c3a8a1ad791cb01de20e22117\n",
            "row 0 #.\n",
            "row 1 .#\n",
            "end versions 0\n"
        ),
    )
}

fn session_of_two_looms(alloc: Global) -> Result<Session, test::Fail> {
    let faces = Vec::from_array(alloc, [Face::Up, Face::Down])?;
    let shifts = idle_shifts(alloc, 2)?;
    session_of(alloc, 2, 3, Listed::of(faces), shifts)
}

#[test]
fn acts_and_repeats_stand_in_their_shift(rt: HostRuntime) -> Result<(), test::Fail> {
    let alloc = rt.alloc();
    let session = session_of_two_looms(alloc)?;
    let log = log_of_two_shifts(alloc)?;
    shows(
        &rt,
        alloc,
        &session,
        &log,
        concat!(
            "studio 1\n",
            "design columns 2 picks 2 ends 4 hooks 3\n",
            "shift 0\n",
            "act 0 painter 1 number 1 paint\n",
            "act 1 painter 0 number 1 refused weft 0 start 0 length 1 endless\n",
            "act 2 painter 1 number 2 paint\n",
            "loom 0 repeat 0 version 0 sha256 0f0f0f0f0f0f0f0f0f0f0f0f0f0f0f0f0f0f0f0f0f0f0f0f0f0f0f0f0f0f0f0f\n",
            "row 0 #...\n",
            "row 1 .#..\n",
            "shift 1\n",
            "act 3 painter 0 number 1 accepted 1\n",
            "loom 0 repeat 1 version 1 sha256 a9a9a9a9a9a9a9a9a9a9a9a9a9a9a9a9a9a9a9a9a9a9a9a9a9a9a9a9a9a9a9a9\n",
            "loom 1 down repeat 0 version 0 sha256 1010101010101010101010101010101010101010101010101010101010101010\n",
            "row 0 #...\n",
            "row 1 .#..\n",
            "end versions 1\n"
        ),
    )
}

// Two painters with one act and two.
fn busy_shift(alloc: Global) -> Result<ShiftPlan, OutOfMemory> {
    let one = Vec::from_array(alloc, [Act::Commit])?;
    let two = Vec::from_array(alloc, [Act::Commit, Act::Commit])?;
    let painters = Vec::from_array(alloc, [Listed::of(one), Listed::of(two)])?;
    Ok(ShiftPlan {
        repeats: Listed::new(alloc),
        painters: Listed::of(painters),
    })
}

fn session_of_three_acts(alloc: Global) -> Result<Session, test::Fail> {
    let faces = Vec::from_array(alloc, [Face::Up, Face::Down, Face::Up])?;
    let shifts = Vec::from_array(alloc, [busy_shift(alloc)?])?;
    session_of(alloc, 3, 9, Listed::of(faces), Listed::of(shifts))
}

#[test]
fn a_check_counts_what_there_is(rt: HostRuntime) -> Result<(), test::Fail> {
    let smallest = smallest_session(rt.alloc())?;
    checks(
        &rt,
        rt.alloc(),
        &smallest,
        "ok columns 2 picks 2 ends 2 hooks 2 looms 1 shifts 1 acts 0\n",
    )
}

#[test]
fn a_check_counts_the_acts_of_all_painters(rt: HostRuntime) -> Result<(), test::Fail> {
    let session = session_of_three_acts(rt.alloc())?;
    checks(
        &rt,
        rt.alloc(),
        &session,
        "ok columns 2 picks 2 ends 6 hooks 9 looms 3 shifts 1 acts 3\n",
    )
}

fn log_of_all_acts(alloc: Global) -> Result<RunLog, OutOfMemory> {
    let mut entries = Listed::new(alloc);
    for act in 0..MAX_ACTS {
        let shift = act / (MAX_ACTS / MAX_SHIFTS);
        entries.push(entry(shift, act % MAX_PAINTERS, 1, Reply::Painted))?;
    }
    Ok(RunLog {
        entries,
        looms: Listed::new(alloc),
    })
}

fn longest_session(alloc: Global) -> Result<Session, test::Fail> {
    let shifts = idle_shifts(alloc, MAX_SHIFTS)?;
    session_of(alloc, 1, 2, Listed::new(alloc), shifts)
}

#[test]
fn the_longest_session_has_a_report(rt: HostRuntime) -> Result<(), test::Fail> {
    let session = longest_session(rt.alloc())?;
    let log = log_of_all_acts(rt.alloc())?;
    let bytes = report(rt.alloc(), &session, &log)?;
    let last = b"act 65535 painter 63 number 1 paint\nend versions 0\n";
    assert!(rt; bytes.ends_with(last));
    Ok(())
}
