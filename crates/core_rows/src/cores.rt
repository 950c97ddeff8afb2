//! Cores that are painted and committed: which jobs they have and what becomes of results that come late, twice or in another order, by
//! hand; and each reply to a commit and the cards of its version against the plain functions.
ghost use Rattle.std.specs.Prelude.{◌≡◌, ◌<◌, true, false, length, All, IfOk, IsTrue};
ghost use Rattle.draft_model.specs.Designs.{Fits, IsBitsOf, IsPaperOf};
ghost use Rattle.draft_model.specs.declared.design.Design.{Design};
ghost use Rattle.version_journal.specs.Journals.{is_commit};

use card_image::card_set::CardSet;
use casting_out::casting::Casting;
use draft_model::design::Design;
use draft_model::drawdown::bound;
use draft_model::first_float::first_float;
use draft_model::float_run::{FloatKind, FloatRun};
use harness_ties::section::{Section, SectionKind};
use harness_ties::tie::Tie;
use mill_base::limits::{MAX_CLOTH_CELLS, MAX_COLUMNS, MAX_PICKS, MAX_TILE, MIN_TILE};
use mill_base::size::Size;
use mill_base::steps::Steps;
use point_paper::bit_paper::BitPaper;
use point_paper::paper::{Paper, Span};
use std::alloc::Global;
use std::marker::Brand;
use std::process::Abort;
use std::sync::ledger::{Blank, Ledger};
use std::test::Fail;
use strokes::act::Act;
use strokes::motifs::Motifs;
use strokes::prepared::Prepared;
use studio_core::given::Given;
use studio_core::refusal::StartRefusal;
use studio_core::tile_core::Core;
use tile_rebuild::job::{Done, Job};
use version_journal::entry::Reply;
use weave_book::book::Book;
use weave_book::weaves::Weave;

/// A paper of colour 0, the side of a tile, the sections of the tie (straight over all columns where there are none), the limits of weft
/// floats on the face and on the back and of warp floats on the face and on the back, and the binders.
#[derive(Drop)]
struct Case {
    size: Size,
    opening: u8,
    tile: u32,
    sections: &'static [Section],
    limits: [u32; 4],
    binders: [&'static str; 2],
}

/// A design with an opening of it.
#[derive(Drop)]
struct Work {
    design: Design,
    opening: Paper,
    ghost fits: { Fits design },
    ghost of: { IsPaperOf design opening },
}

/// What is called of a core. A job that is taken is run at once, and its result is kept, to be given by its number among all results. Of the
/// second kind of commit it is only asked that it is replied to as by the plain functions.
#[derive(Clone, Copy, Debug)]
enum Call {
    Paint(&'static str),
    Take(u32),
    Give(usize),
    Settle,
    Commit,
    CommitAsPlain,
}

/// What the core answers. Where a commit is replied to in any other way than by the plain functions, or the cards of a version are not
/// those that these cut, the answer is `Wrong`.
#[derive(Clone, Copy, Debug, PartialEq, Eq)]
enum Answer {
    Painted,
    Bind(u32),
    Check(u32),
    Idle,
    Given(Given),
    Settled,
    Reply(Reply),
    AsPlain,
    Wrong,
}

/// The colours: plain, blank, a twill, and full.
fn book_of(alloc: Global) -> Result<Book, Fail>
    ensures { IfOk result (λ b. length b ≡ 4) }
{
    let mut book = Book::new(alloc);
    book.add(Weave::Plain)?;
    book.add(Weave::Blank)?;
    book.add(Weave::parse("twill 2 2 right")?)?;
    book.add(Weave::Full)?;
    Ok(book)
}

fn design_of(rt: &impl Abort, alloc: Global, case: &Case) -> Result<Design, Fail>
    ensures fits { IfOk result (λ d. Fits d) }
    ensures book { IfOk result (λ d. length d.book ≡ 4) }
{
    let Size { columns, picks } = case.size;
    let [weft_face, weft_back, warp_face, warp_back] = case.limits;
    assert!(rt; 1 <= columns && columns <= MAX_COLUMNS && 1 <= picks && picks <= MAX_PICKS);
    assert!(rt; 1 <= weft_face && weft_face <= 255 && 1 <= weft_back && weft_back <= 255);
    assert!(rt; 1 <= warp_face && warp_face <= 255 && 1 <= warp_back && warp_back <= 255);
    assert!(rt; MIN_TILE <= case.tile && case.tile <= MAX_TILE);
    let tie = Tie::build(alloc, case.sections, columns)?;
    assert!(rt; 1 <= tie.ends() && tie.ends() as u64 * picks as u64 <= MAX_CLOTH_CELLS);
    Ok(Design {
        size: Size { columns, picks },
        book: book_of(alloc)?,
        tie,
        casting: Casting::build(alloc, MAX_COLUMNS, &[], columns)?,
        raise: Weave::parse(case.binders[0])?,
        sink: Weave::parse(case.binders[1])?,
        weft_face,
        weft_back,
        warp_face,
        warp_back,
        tile: case.tile,
    })
}

fn blank_paper(alloc: Global, design: &Design, colour: u8) -> Result<Paper, Fail>
    requires { colour < length design.now.book }
    ensures { IfOk result (λ p. IsPaperOf design.now p) }
{
    Ok(Paper::blank(alloc, design.size, colour)?)
}

fn work_of(rt: &impl Abort, alloc: Global, case: &Case) -> Result<Work, Fail> {
    let design = design_of(rt, alloc, case)?;
    assert!(rt; case.opening < 4);
    let opening = blank_paper(alloc, &design, case.opening)?;
    Ok(Work { design, opening })
}

fn are_colours(spans: &[Span], colours: u32) -> bool
    ensures { result ≡ true → All (λ span. span.colour < colours) spans.now }
{
    for span in spans {
        if colours <= span.colour as u32 {
            return false;
        }
    }
    true
}

fn is_paint(act: &Act) -> bool
    ensures { result ≡ true → is_commit act.now ≡ false }
{
    match act {
        Act::Commit => false,
        _ => true,
    }
}

/// The act that a text spells, where no motif is known.
fn prepared(alloc: Global, text: &str, size: Size) -> Result<Prepared, Fail>
    ensures { IfOk result (λ p. p.size ≡ size) }
{
    strokes::laws::the_motif_of_an_act_is_one_of_the_motifs();
    let motifs = Motifs::new(alloc);
    let act = Act::parse(text, 4, size, &motifs)?;
    Ok(Prepared::of(alloc, &act, &motifs, size)?)
}

fn paint(alloc: Global, text: &str, core: &mut Core) -> Result<Answer, Fail> {
    let act = prepared(alloc, text, core.design().size)?;
    let colours = core.design().book.colours();
    let ready = core.spare() > 0 && is_paint(act.act()) && are_colours(act.spans(), colours);
    if !ready {
        return Ok(Answer::Wrong);
    }
    core.paint(0, 0, 1, &act);
    Ok(Answer::Painted)
}

fn take<L: Ledger>(
    core: &Core,
    from: u32,
    results: &mut Vec<Done>,
    steps: &mut Steps<L>,
) -> Result<Answer, Fail> {
    let Some(job) = core.take(from, steps)? else {
        return Ok(Answer::Idle);
    };
    let design = core.design();
    if !job.is_of(design) {
        return Ok(Answer::Wrong);
    }
    let answer = told(&job);
    results.push(job.run(design))?;
    Ok(answer)
}

fn told(job: &Job) -> Answer {
    let tile = job.tile();
    match job {
        Job::Bind(_) => Answer::Bind(tile),
        Job::Check(_) => Answer::Check(tile),
    }
}

fn give<L: Ledger>(core: &mut Core, done: Option<&Done>, steps: &mut Steps<L>) -> Answer {
    let Some(done) = done else {
        return Answer::Wrong;
    };
    if !done.is_of(core.design()) {
        return Answer::Wrong;
    }
    Answer::Given(core.give(done, steps))
}

fn commit<L: Ledger>(alloc: Global, core: &mut Core, steps: &mut Steps<L>) -> Result<Answer, Fail> {
    if core.spare() == 0 {
        return Ok(Answer::Wrong);
    }
    let before = core.version();
    let reply = core.commit(0, 0, 1, steps)?;
    if !is_right(alloc, core, before, reply)? {
        return Ok(Answer::Wrong);
    }
    Ok(Answer::Reply(reply))
}

fn as_plain(answer: Answer) -> Answer {
    match answer {
        Answer::Reply(_) => Answer::AsPlain,
        other => other,
    }
}

/// The bound paper of the core's paper, by the plain function.
fn plain_bits(alloc: Global, core: &Core) -> Result<BitPaper, Fail>
    ensures { IfOk result (IsBitsOf core.now.design) }
{
    Ok(bound(alloc, core.design(), core.paper())?)
}

/// The reply to a commit after so many versions, by the plain functions.
fn plain_reply(core: &Core, bits: &BitPaper, version: u32) -> Reply
    requires { IsBitsOf core.now.design bits.now }
{
    match first_float(core.design(), bits) {
        Some(float) => Reply::Refused(float),
        None => Reply::Accepted(version.saturating_add(1)),
    }
}

/// Whether the core's cards are those of the bits.
fn has_cards(alloc: Global, core: &Core, bits: &BitPaper) -> Result<bool, Fail>
    requires { IsBitsOf core.now.design bits.now }
{
    let cards = CardSet::cut(alloc, bits, &core.design().casting)?;
    Ok(cards.equals(core.newest_cards()))
}

/// Whether a reply, and the version and the cards after it, are those of the plain functions.
fn is_right(alloc: Global, core: &Core, before: u32, reply: Reply) -> Result<bool, Fail> {
    let bits = plain_bits(alloc, core)?;
    if reply != plain_reply(core, &bits, before) {
        return Ok(false);
    }
    let Reply::Accepted(version) = reply else {
        return Ok(core.version() == before);
    };
    let same = has_cards(alloc, core, &bits)?;
    Ok(same && core.version() == version)
}

fn called<L: Ledger>(
    alloc: Global,
    call: Call,
    core: &mut Core,
    results: &mut Vec<Done>,
    steps: &mut Steps<L>,
) -> Result<Answer, Fail> {
    match call {
        Call::Paint(text) => paint(alloc, text, core),
        Call::Take(from) => take(core, from, results, steps),
        Call::Give(number) => Ok(give(core, results.get(number), steps)),
        Call::Settle => {
            core.settle(steps);
            Ok(Answer::Settled)
        }
        Call::Commit => commit(alloc, core, steps),
        Call::CommitAsPlain => Ok(as_plain(commit(alloc, core, steps)?)),
    }
}

fn started(alloc: Global, work: Work) -> Result<Core, Fail> {
    let Work { design, opening } = work;
    Ok(Core::start(alloc, design, opening, 16)?)
}

fn call_all<L: Ledger>(
    alloc: Global,
    calls: &[Call],
    core: &mut Core,
    steps: &mut Steps<L>,
) -> Result<Vec<Answer>, Fail> {
    let mut results = Vec::new(alloc);
    let mut answers = Vec::new(alloc);
    for call in calls {
        let answer = called(alloc, *call, core, &mut results, steps)?;
        answers.push(answer)?;
    }
    Ok(answers)
}

fn call_with<L: Ledger>(
    alloc: Global,
    calls: &[Call],
    core: &mut Core,
    blank: Blank,
) -> Result<Vec<Answer>, Fail>
    requires { (blank.name ≡ L.name) × (blank.parts ≡ L.parts) × (L.parts ≡ 1) }
{
    let (book, all) = blank.open::<L>();
    let mut steps = Steps::new(book, all);
    call_all(alloc, calls, core, &mut steps)
}

fn answers(alloc: Global, work: Work, calls: &[Call]) -> Result<Vec<Answer>, Fail> {
    let mut core = started(alloc, work)?;
    call_with::<Brand>(alloc, calls, &mut core, Blank::new(1))
}

fn expect(
    rt: &impl Abort,
    alloc: Global,
    case: &Case,
    script: &[(Call, Answer)],
) -> Result<(), Fail> {
    let mut calls = Vec::new(alloc);
    for (call, _) in script {
        calls.push(*call)?;
    }
    let work = work_of(rt, alloc, case)?;
    let told = answers(alloc, work, &calls)?;
    assert_eq!(rt; told.len(), script.len());
    for ((call, want), found) in script.iter().zip(&told) {
        assert_eq!(rt; found, want, "{call:?}");
    }
    Ok(())
}

const INSTALLED: Answer = Answer::Given(Given::Installed);

const STALE: Answer = Answer::Given(Given::Stale);

const UNMARKED: Answer = Answer::Given(Given::Unmarked);

const fn refused(line: u32, start: u32, length: u32, endless: bool) -> Answer {
    Answer::Reply(Reply::Refused(FloatRun {
        kind: FloatKind::Weft,
        line,
        start,
        length,
        endless,
    }))
}

const fn accepted(version: u32) -> Answer {
    Answer::Reply(Reply::Accepted(version))
}

/// Sixteen columns and picks in tiles of side 4 under the straight tie, all limits 1.
#[test]
fn a_dot_marks_the_tiles_near_it_and_those_near_them(rt: HostRuntime) -> Result<(), Fail> {
    let case = Case {
        size: Size {
            columns: 16,
            picks: 16,
        },
        opening: 0,
        tile: 4,
        sections: &[],
        limits: [1, 1, 1, 1],
        binders: ["blank", "blank"],
    };
    let script = [
        (Call::Take(0), Answer::Idle),
        (Call::Paint("dot 1 5 5"), Answer::Painted),
        (Call::Take(0), Answer::Bind(1)),
        (Call::Take(2), Answer::Bind(4)),
        (Call::Take(5), Answer::Bind(5)),
        (Call::Take(6), Answer::Bind(6)),
        (Call::Take(7), Answer::Bind(9)),
        (Call::Take(10), Answer::Bind(1)),
        (Call::Give(0), INSTALLED),
        (Call::Give(5), UNMARKED),
        (Call::Give(4), INSTALLED),
        (Call::Give(2), INSTALLED),
        (Call::Give(1), INSTALLED),
        (Call::Give(3), INSTALLED),
        (Call::Take(0), Answer::Check(0)),
        (Call::Take(1), Answer::Check(1)),
        (Call::Take(2), Answer::Check(2)),
        (Call::Take(3), Answer::Check(4)),
        (Call::Take(5), Answer::Check(5)),
        (Call::Take(6), Answer::Check(6)),
        (Call::Take(7), Answer::Check(7)),
        (Call::Take(8), Answer::Check(8)),
        (Call::Take(9), Answer::Check(9)),
        (Call::Take(10), Answer::Check(10)),
        (Call::Take(11), Answer::Check(13)),
        (Call::Take(14), Answer::Check(0)),
        (Call::Commit, refused(5, 4, 3, false)),
        (Call::Take(0), Answer::Idle),
    ];
    expect(&rt, rt.alloc(), &case, &script)
}

/// Four columns and picks in one tile, floats of two cells along a pick and of three along an end.
const ONE_TILE: Case = Case {
    size: Size {
        columns: 4,
        picks: 4,
    },
    opening: 0,
    tile: 4,
    sections: &[],
    limits: [2, 2, 3, 3],
    binders: ["blank", "blank"],
};

#[test]
fn a_result_of_an_older_paper_is_stale(rt: HostRuntime) -> Result<(), Fail> {
    let script = [
        (Call::Paint("dot 1 0 0"), Answer::Painted),
        (Call::Take(0), Answer::Bind(0)),
        (Call::Paint("dot 2 1 0"), Answer::Painted),
        (Call::Give(0), STALE),
        (Call::Take(0), Answer::Bind(0)),
        (Call::Give(1), INSTALLED),
        (Call::Give(1), UNMARKED),
        (Call::Take(0), Answer::Check(0)),
        (Call::Give(2), INSTALLED),
        (Call::Take(0), Answer::Idle),
        (Call::Commit, refused(0, 3, 3, false)),
    ];
    expect(&rt, rt.alloc(), &ONE_TILE, &script)
}

#[test]
fn a_commit_is_refused_and_the_next_one_accepted(rt: HostRuntime) -> Result<(), Fail> {
    let script = [
        (Call::Paint("rect 1 0 0 3 0"), Answer::Painted),
        (Call::Commit, refused(0, 0, 4, true)),
        (Call::Paint("rect 2 0 0 3 0"), Answer::Painted),
        (Call::Commit, accepted(1)),
        (Call::Settle, Answer::Settled),
        (Call::Commit, accepted(2)),
    ];
    expect(&rt, rt.alloc(), &ONE_TILE, &script)
}

#[test]
fn an_opening_that_keeps_a_float_is_refused(rt: HostRuntime) -> Result<(), Fail> {
    let alloc = rt.alloc();
    let case = Case {
        opening: 1,
        ..ONE_TILE
    };
    let Work { design, opening } = work_of(&rt, alloc, &case)?;
    let want = Some(StartRefusal::OpeningFloat(FloatRun {
        kind: FloatKind::Weft,
        line: 0,
        start: 0,
        length: 4,
        endless: true,
    }));
    assert_eq!(rt; Core::start(alloc, design, opening, 0).err(), want);
    Ok(())
}

/// Eleven columns and nine picks, which tiles of side 4 do not divide. The tie goes over all columns, and then over columns 5 and 6 again,
/// so that each tile is near all of its tile row and of its tile column.
#[test]
fn late_doubled_and_turned_results_leave_the_replies_of_the_plain_functions(
    rt: HostRuntime,
) -> Result<(), Fail> {
    let case = Case {
        size: Size {
            columns: 11,
            picks: 9,
        },
        opening: 0,
        tile: 4,
        sections: &[
            Section {
                kind: SectionKind::Straight,
                from: 0,
                to: 10,
                times: 1,
            },
            Section {
                kind: SectionKind::Straight,
                from: 5,
                to: 6,
                times: 1,
            },
        ],
        limits: [2, 3, 4, 5],
        binders: ["plain", "twill 2 2 right"],
    };
    let script = [
        (Call::Paint("rect 1 1 1 2 2"), Answer::Painted),
        (Call::Take(0), Answer::Bind(0)),
        (Call::Take(1), Answer::Bind(1)),
        (Call::Take(7), Answer::Bind(0)),
        (Call::Paint("dot 3 10 8"), Answer::Painted),
        (Call::Give(1), INSTALLED),
        (Call::Give(0), INSTALLED),
        (Call::Give(2), UNMARKED),
        (Call::Take(0), Answer::Bind(2)),
        (Call::Paint("dot 1 8 0"), Answer::Painted),
        (Call::Give(3), STALE),
        (Call::Take(4), Answer::Bind(5)),
        (Call::Give(4), INSTALLED),
        (Call::CommitAsPlain, Answer::AsPlain),
        (Call::Take(0), Answer::Idle),
        (Call::Give(4), UNMARKED),
        (Call::Paint("dot 1 5 4"), Answer::Painted),
        (Call::Take(0), Answer::Bind(1)),
        (Call::Take(2), Answer::Bind(3)),
        (Call::Take(4), Answer::Bind(4)),
        (Call::Take(5), Answer::Bind(5)),
        (Call::Take(6), Answer::Bind(7)),
        (Call::Give(9), INSTALLED),
        (Call::Give(5), INSTALLED),
        (Call::Give(7), INSTALLED),
        (Call::Give(6), INSTALLED),
        (Call::Give(8), INSTALLED),
        (Call::Take(0), Answer::Check(0)),
        (Call::Take(8), Answer::Check(8)),
        (Call::Give(10), INSTALLED),
        (Call::Paint("dot 2 0 0"), Answer::Painted),
        (Call::Give(11), STALE),
        (Call::CommitAsPlain, Answer::AsPlain),
        (Call::Paint("line 3 0 0 10 8"), Answer::Painted),
        (Call::CommitAsPlain, Answer::AsPlain),
        (Call::Paint("rect 0 0 0 10 8"), Answer::Painted),
        (Call::CommitAsPlain, Answer::AsPlain),
    ];
    expect(&rt, rt.alloc(), &case, &script)
}

/// A paper so large that a few marked tiles are bound and checked one by one, and all of them in one pass.
#[test]
fn few_tiles_and_all_are_settled_alike(rt: HostRuntime) -> Result<(), Fail> {
    let case = Case {
        size: Size {
            columns: 256,
            picks: 256,
        },
        opening: 0,
        tile: 4,
        sections: &[],
        limits: [1, 1, 1, 1],
        binders: ["blank", "blank"],
    };
    let script = [
        (Call::Paint("dot 1 5 5"), Answer::Painted),
        (Call::Commit, refused(5, 4, 3, false)),
        (Call::Paint("dot 0 5 5"), Answer::Painted),
        (Call::Commit, accepted(1)),
        (Call::Paint("rect 2 0 0 255 255"), Answer::Painted),
        (Call::Commit, refused(0, 1, 2, false)),
        (Call::Paint("rect 0 0 0 255 255"), Answer::Painted),
        (Call::Commit, accepted(2)),
    ];
    expect(&rt, rt.alloc(), &case, &script)
}

#[test]
fn the_greatest_paper_is_painted_and_committed(rt: HostRuntime) -> Result<(), Fail> {
    let case = Case {
        size: Size {
            columns: MAX_COLUMNS,
            picks: MAX_PICKS,
        },
        opening: 0,
        tile: 4,
        sections: &[],
        limits: [255, 255, 255, 255],
        binders: ["blank", "blank"],
    };
    let script = [
        (Call::Paint("dot 1 4095 8191"), Answer::Painted),
        (Call::Take(0), Answer::Bind(1023)),
        (Call::Give(0), INSTALLED),
        (Call::Commit, accepted(1)),
    ];
    expect(&rt, rt.alloc(), &case, &script)
}

fn let_go(core: Core) {}
