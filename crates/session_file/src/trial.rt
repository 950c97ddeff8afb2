//! The trial session of a number.
ghost use Rattle.std.specs.Prelude.{◌≡◌, ◌<◌, ◌∷◌, [], length, take, drop, replicate, false, IfOk};
ghost use Rattle.casting_out.specs.Castings.{casting_of};
ghost use Rattle.harness_ties.specs.Sections.{once};
ghost use Rattle.harness_ties.specs.Ties.{IsTie, tie_of};
ghost use Rattle.harness_ties.specs.declared.section.SectionKind.TheVariants.{Pointed};
ghost use Rattle.mill_base.specs.declared.face.Face.TheVariants.{Up};
ghost use Rattle.session_file.specs.Plans.{Fits};
ghost use Rattle.session_file.specs.Trials.{act_from, acts_of, answer, cast_out, colour as colour_of, colours, design, drawn, drawn_rect, draws_of, next, plan, trial, trial_draft};

use crate::assembly::make_session;
use crate::colour_table::grey;
use crate::draft::{Colour, DesignPart, FloatLimits, Head, Opening, SessionDraft};
use crate::head::all_up;
use crate::reading::plain_paper;
use crate::session::{Session, ShiftPlan};
use casting_out::casting::Casting;
use casting_out::fault::CastingFault;
use casting_out::laws::hooks_that_are_cast_out_leave_the_others;
use harness_ties::fault::TieFault;
use harness_ties::laws::{one_round_over_all_columns, sections_without_a_fault_make_a_tie};
use harness_ties::section::{Section, SectionKind};
use harness_ties::tie::Tie;
use mill_base::limits::DEFAULT_TILE;
use mill_base::listed::Listed;
use mill_base::memory::OutOfMemory;
use mill_base::size::Size;
use std::alloc::Global;
use strokes::act::Act;
use strokes::motifs::Motifs;
use weave_book::weaves::{Direction, SatinFace, Weave};

const SIZE: Size = Size {
    columns: 384,
    picks: 512,
};

const HOOKS: u32 = 400;

// The hooks that are cast out are the first one, and one after each so many.
const CAST_OUT: u32 = 16;

const FIRST_CAST: u32 = 7;

const CAST_EACH: u32 = 25;

const FLOAT: u32 = 15;

const COLOURS: u32 = 6;

const LOOMS: u32 = 4;

// The repeats of each loom in each shift.
const REPEATS: u32 = 3;

// The acts of both shifts, of which each so many is a commit.
const ACTS: u32 = 400;

const SHIFT_ACTS: usize = 200;

const COMMIT_EACH: u32 = 20;

// The columns and the picks over which the two corners of a rectangle may be apart.
const REACH: u32 = 64;

const SATIN: Weave = Weave::Satin {
    n: 8,
    s: 3,
    face: SatinFace::Weft,
};

impl Session {
    /// The trial session of a number: two shifts of 200 acts, of which each twentieth is a commit and all others are rectangles that
    /// are drawn from the number, for four looms. It is this project's own.
    pub fn trial(alloc: Global, n: u32) -> Result<Session, OutOfMemory>
        ensures trial { IfOk result (λ session. session ≡ trial n) }
        ensures fits { IfOk result Fits }
    {
        let draft = make_draft(alloc, n)?;
        let opening = plain_paper(alloc, SIZE, COLOURS, 0)?;
        let session = make_session(alloc, draft, opening)?;
        Ok(session)
    }
}

#[tactic(auto, unfolding(crate::specs::Trials::trial_draft))]
fn make_draft(alloc: Global, n: u32) -> Result<SessionDraft, OutOfMemory>
    ensures draft { IfOk result (λ draft. draft ≡ trial_draft n) }
    ensures cast { IfOk result (λ draft. length draft.design.casting.columns ≡ 384) }
    ensures tie { IfOk result (λ draft. IsTie draft.tie) }
{
    Ok(SessionDraft {
        head: make_head(alloc)?,
        design: make_design(alloc)?,
        colours: make_colours(alloc)?,
        tie: make_tie(alloc)?,
        motifs: Motifs::new(alloc),
        opening: Opening::Plain(0),
        shifts: make_shifts(alloc, n)?,
    })
}

fn make_head(alloc: Global) -> Result<Head, OutOfMemory>
    ensures { IfOk result (λ head. head ≡ record { format = 2; looms = 4; show_rows = false; faces = replicate 4 Up }) }
{
    Ok(Head {
        format: 2,
        looms: LOOMS,
        show_rows: false,
        faces: all_up(alloc, LOOMS)?,
    })
}

fn make_design(alloc: Global) -> Result<DesignPart, OutOfMemory>
    ensures part { IfOk result (λ part. part ≡ design) }
    ensures cast { IfOk result (λ part. length part.casting.columns ≡ 384) }
{
    Ok(DesignPart {
        size: SIZE,
        casting: make_casting(alloc)?,
        limits: FloatLimits {
            weft_face: FLOAT,
            weft_back: FLOAT,
            warp_face: FLOAT,
            warp_back: FLOAT,
        },
        raise: SATIN,
        sink: SATIN,
        tile: DEFAULT_TILE,
    })
}

fn make_casting(alloc: Global) -> Result<Casting, OutOfMemory>
    ensures casting { IfOk result (λ casting. casting ≡ casting_of 400 cast_out 384) }
    ensures columns { IfOk result (λ casting. length casting.columns ≡ 384) }
{
    hooks_that_are_cast_out_leave_the_others();
    let hooks = hooks_cast_out(alloc)?;
    match Casting::build(alloc, HOOKS, &hooks, SIZE.columns) {
        Ok(casting) => Ok(casting),
        Err(CastingFault::OutOfMemory) => Err(OutOfMemory),
        Err(_) => unreachable!(),
    }
}

#[tactic(auto, using(mill_base::proofs::lemmas::Lines::line_by_more))]
fn hooks_cast_out(alloc: Global) -> Result<Vec<u32>, OutOfMemory>
    ensures { IfOk result (λ hooks. hooks.items ≡ cast_out) }
{
    let mut hooks = Vec::with_capacity(alloc, CAST_OUT as usize)?;
    for k in 0..CAST_OUT {
        hooks.push(FIRST_CAST + CAST_EACH * k)?;
    }
    Ok(hooks)
}

fn make_colours(alloc: Global) -> Result<Listed<Colour>, OutOfMemory>
    ensures { IfOk result (λ book. book ≡ colours) }
{
    let warp = Weave::Satin {
        n: 8,
        s: 3,
        face: SatinFace::Warp,
    };
    let twill = Weave::Twill {
        up: 2,
        down: 2,
        direction: Direction::Right,
    };
    let mut colours = Listed::new(alloc);
    colours.push(make_colour(alloc, 0, Weave::Plain)?)?;
    colours.push(make_colour(alloc, 1, SATIN)?)?;
    colours.push(make_colour(alloc, 2, warp)?)?;
    colours.push(make_colour(alloc, 3, twill)?)?;
    colours.push(make_colour(alloc, 4, Weave::Blank)?)?;
    colours.push(make_colour(alloc, 5, Weave::Full)?)?;
    Ok(colours)
}

fn make_colour(alloc: Global, place: usize, weave: Weave) -> Result<Colour, OutOfMemory>
    ensures { IfOk result (λ colour. colour ≡ colour_of place weave) }
{
    let rgb = grey(alloc, place)?;
    Ok(Colour { weave, rgb })
}

fn make_tie(alloc: Global) -> Result<Tie, OutOfMemory>
    ensures tie { IfOk result (λ tie. tie ≡ record { columns = 384; ends = tie_of (once Pointed 384 ∷ []) 384 }) }
    ensures whole { IfOk result IsTie }
{
    one_round_over_all_columns();
    sections_without_a_fault_make_a_tie();
    let section = Section {
        kind: SectionKind::Pointed,
        from: 0,
        to: SIZE.columns - 1,
        times: 1,
    };
    match Tie::build(alloc, &[section], SIZE.columns) {
        Ok(tie) => Ok(tie),
        Err(TieFault::OutOfMemory) => Err(OutOfMemory),
        Err(_) => unreachable!(),
    }
}

fn make_shifts(alloc: Global, n: u32) -> Result<Listed<ShiftPlan>, OutOfMemory>
    ensures { IfOk result (λ shifts. shifts ≡ plan (take 200 (acts_of n)) ∷ plan (drop 200 (acts_of n)) ∷ []) }
{
    let mut acts = make_acts(alloc, n)?;
    let later = acts.split_off(SHIFT_ACTS)?;
    let mut shifts = Listed::new(alloc);
    shifts.push(make_plan(alloc, acts)?)?;
    shifts.push(make_plan(alloc, later)?)?;
    Ok(shifts)
}

fn make_plan(alloc: Global, acts: Vec<Act>) -> Result<ShiftPlan, OutOfMemory>
    ensures { IfOk result (λ shift. shift ≡ plan acts.items) }
{
    let mut painters = Listed::new(alloc);
    painters.push(Listed::of(acts))?;
    let repeats = Vec::from_elem(alloc, REPEATS, LOOMS as usize)?;
    Ok(ShiftPlan {
        repeats: Listed::of(repeats),
        painters,
    })
}

fn make_acts(alloc: Global, n: u32) -> Result<Vec<Act>, OutOfMemory>
    ensures { IfOk result (λ acts. acts.items ≡ acts_of n) }
{
    let mut x = n as u64;
    let mut acts = Vec::with_capacity(alloc, ACTS as usize)?;
    for k in 0..ACTS {
        acts.push(make_act(&mut x, k + 1))?;
    }
    Ok(acts)
}

#[tactic(auto, unfolding(crate::specs::Trials::drawn))]
fn make_act(x: &mut u64, number: u32) -> Act
    ensures act { result ≡ act_from x.old number }
    ensures next { x.new ≡ drawn x.old (draws_of number) }
{
    if number % COMMIT_EACH == 0 {
        return Act::Commit;
    }
    draw_rect(x)
}

#[tactic(auto, unfolding(crate::specs::Trials::drawn_rect, crate::specs::Trials::draw, crate::specs::Trials::drawn))]
fn draw_rect(x: &mut u64) -> Act
    ensures act { result ≡ drawn_rect x.old }
    ensures next { x.new ≡ drawn x.old 5 }
{
    let colour = draw(x, COLOURS) as u8;
    let column = draw(x, SIZE.columns);
    let pick = draw(x, SIZE.picks);
    let right = column + draw(x, REACH);
    let above = pick + draw(x, REACH);
    Act::Rect {
        colour,
        column0: column,
        pick0: pick,
        column1: right.min(SIZE.columns - 1),
        pick1: above.min(SIZE.picks - 1),
    }
}

// A number below a bound. The two factors are those of Knuth's generator MMIX.
fn draw(x: &mut u64, below: u32) -> u32
    requires { 0 < below }
    ensures next { x.new ≡ next x.old }
    ensures answer { result ≡ answer x.new below }
    ensures below { result < below }
{
    *x = x
        .wrapping_mul(6364136223846793005)
        .wrapping_add(1442695040888963407);
    (*x / (1 << 33) % below as u64) as u32
}
