//! How acts are spelled. The spelling is this project's own.
ghost use Rattle.std.specs.Prelude.{◌≡◌, ◌<◌, ◌≤◌, [], ◌∷◌, length, slice_get, Some, None, MatchResult, IfOk, IfErr, OnOk, ℕ, List};
ghost use Rattle.mill_base.specs.Words.{number_of};
ghost use Rattle.mill_base.specs.declared.limits.TheConstants.{MAX_COLOURS};
ghost use Rattle.strokes.specs.Acts.{act_faults, parts_of, act_of_words, count_faults, kind_of, parsed_act};
ghost use Rattle.strokes.specs.inner.Read.{corners_in, place_in};
ghost use Rattle.strokes.specs.Places.{IsCell, IsThere};
ghost use Rattle.strokes.specs.declared.motifs.NamedMotif.{NamedMotif};
ghost use Rattle.mill_base.specs.declared.size.Size.{Size};

use crate::act::{Act, ActKind};
use crate::fault::ActFault;
use crate::motifs::Motifs;
use mill_base::size::Size;
use mill_base::words::{Words, number};

impl Act {
    /// The act that a text spells, in words between spaces, for a book of so many colours and a paper of a size: `dot
    /// colour c p`, `rect colour c0 p0 c1 p1`, `line colour c0 p0 c1 p1`, `stamp name c p`, `halfdrop name c p` or
    /// `commit`, with columns c and picks p. A motif is named, and of several with one name the least number counts. A
    /// text that spells no act is answered by the first rule that it breaks. It takes no memory.
    pub fn parse(text: &str, colours: u32, size: Size, motifs: &Motifs) -> Result<Act, ActFault>
        requires { colours ≤ MAX_COLOURS }
        ensures act { result ≡ parsed_act text.now colours size motifs.now }
        ensures there { IfOk result (λ act. IsThere colours size motifs.now act) }
    {
        let mut words = Words::of(text);
        let Some(first) = words.next() else {
            return Err(ActFault::Word(0));
        };
        match kind(first) {
            Some(kind) => act(kind, &mut words, colours, size, motifs),
            None => Err(ActFault::Word(0)),
        }
    }
}

// the kind of act whose first word this is
#[tactic(auto, unfolding(crate::specs::Acts::kind_of))]
fn kind(word: &[u8]) -> Option<ActKind>
    ensures { result ≡ kind_of word.now }
{
    if word == b"dot".as_slice() {
        return Some(ActKind::Dot);
    }
    if word == b"rect".as_slice() {
        return Some(ActKind::Rect);
    }
    if word == b"line".as_slice() {
        return Some(ActKind::Line);
    }
    if word == b"stamp".as_slice() {
        return Some(ActKind::Stamp);
    }
    if word == b"halfdrop".as_slice() {
        return Some(ActKind::HalfDrop);
    }
    if word == b"commit".as_slice() {
        return Some(ActKind::Commit);
    }
    None
}

// the act of a kind, of the words behind the first
fn act(
    kind: ActKind,
    words: &mut Words,
    colours: u32,
    size: Size,
    motifs: &Motifs,
) -> Result<Act, ActFault>
    requires { colours ≤ MAX_COLOURS }
    ensures act { result ≡ act_of_words colours size motifs.now kind words.old }
    ensures there { IfOk result (λ act. IsThere colours size motifs.now act) }
{
    match kind {
        ActKind::Dot => dot(words, colours, size),
        ActKind::Rect => rect(words, colours, size),
        ActKind::Line => line(words, colours, size),
        ActKind::Stamp => stamp(words, size, motifs),
        ActKind::HalfDrop => half_drop(words, size, motifs),
        ActKind::Commit => commit(words),
    }
}

#[tactic(auto, unfolding(crate::specs::Acts::act_of_words))]
fn dot(words: &mut Words, colours: u32, size: Size) -> Result<Act, ActFault>
    requires { colours ≤ MAX_COLOURS }
    ensures act { (motifs : List NamedMotif) → result ≡ act_of_words colours size motifs ActKind.Dot words.old }
    ensures there { (motifs : List NamedMotif) → IfOk result (λ act. IsThere colours size motifs act) }
{
    let (colour, column, pick) = three(words)?;
    let colour = number_at(1, colour)?;
    let column = number_at(2, column)?;
    let pick = number_at(3, pick)?;
    let colour = colour_below(colour, colours)?;
    stays_below(column, size.columns)?;
    stays_below(pick, size.picks)?;
    Ok(Act::Dot {
        colour,
        column,
        pick,
    })
}

// what a rectangle and a line are spelled with
#[derive(Clone, Copy)]
struct ColouredCorners {
    colour: u8,
    column0: u32,
    pick0: u32,
    column1: u32,
    pick1: u32,
}

#[tactic(auto, unfolding(crate::specs::Acts::act_of_words))]
fn rect(words: &mut Words, colours: u32, size: Size) -> Result<Act, ActFault>
    requires { colours ≤ MAX_COLOURS }
    ensures act { (motifs : List NamedMotif) → result ≡ act_of_words colours size motifs ActKind.Rect words.old }
    ensures there { (motifs : List NamedMotif) → IfOk result (λ act. IsThere colours size motifs act) }
{
    let corners = read_corners(words, colours, size)?;
    Ok(Act::Rect {
        colour: corners.colour,
        column0: corners.column0,
        pick0: corners.pick0,
        column1: corners.column1,
        pick1: corners.pick1,
    })
}

#[tactic(auto, unfolding(crate::specs::Acts::act_of_words))]
fn line(words: &mut Words, colours: u32, size: Size) -> Result<Act, ActFault>
    requires { colours ≤ MAX_COLOURS }
    ensures act { (motifs : List NamedMotif) → result ≡ act_of_words colours size motifs ActKind.Line words.old }
    ensures there { (motifs : List NamedMotif) → IfOk result (λ act. IsThere colours size motifs act) }
{
    let corners = read_corners(words, colours, size)?;
    Ok(Act::Line {
        colour: corners.colour,
        column0: corners.column0,
        pick0: corners.pick0,
        column1: corners.column1,
        pick1: corners.pick1,
    })
}

fn read_corners(words: &mut Words, colours: u32, size: Size) -> Result<ColouredCorners, ActFault>
    requires { colours ≤ MAX_COLOURS }
    ensures sound { (motifs : List NamedMotif) → OnOk result (slice_get (act_faults colours size motifs (parts_of ActKind.Rect) words.old) 0 ≡ None) }
    ensures corners { IfOk result (λ c. c ≡ corners_in words.old) }
    ensures there { IfOk result (λ c. (c.colour < colours) × IsCell size c.column0 c.pick0 × IsCell size c.column1 c.pick1) }
    ensures fault { (motifs : List NamedMotif) → IfErr result (λ f. slice_get (act_faults colours size motifs (parts_of ActKind.Rect) words.old) 0 ≡ Some f) }
{
    let (colour, column0, pick0, column1, pick1) = five(words)?;
    let colour = number_at(1, colour)?;
    let column0 = number_at(2, column0)?;
    let pick0 = number_at(3, pick0)?;
    let column1 = number_at(4, column1)?;
    let pick1 = number_at(5, pick1)?;
    let colour = colour_below(colour, colours)?;
    stays_below(column0, size.columns)?;
    stays_below(pick0, size.picks)?;
    stays_below(column1, size.columns)?;
    stays_below(pick1, size.picks)?;
    Ok(ColouredCorners {
        colour,
        column0,
        pick0,
        column1,
        pick1,
    })
}

// what a stamp and a half drop are spelled with
#[derive(Clone, Copy)]
struct Place {
    motif: u32,
    column: u32,
    pick: u32,
}

#[tactic(auto, unfolding(crate::specs::Acts::act_of_words))]
fn stamp(words: &mut Words, size: Size, motifs: &Motifs) -> Result<Act, ActFault>
    ensures act { (colours : ℕ) → result ≡ act_of_words colours size motifs.now ActKind.Stamp words.old }
    ensures there { (colours : ℕ) → IfOk result (λ act. IsThere colours size motifs.now act) }
{
    let place = read_place(words, size, motifs)?;
    Ok(Act::Stamp {
        motif: place.motif,
        column: place.column,
        pick: place.pick,
    })
}

#[tactic(auto, unfolding(crate::specs::Acts::act_of_words))]
fn half_drop(words: &mut Words, size: Size, motifs: &Motifs) -> Result<Act, ActFault>
    ensures act { (colours : ℕ) → result ≡ act_of_words colours size motifs.now ActKind.HalfDrop words.old }
    ensures there { (colours : ℕ) → IfOk result (λ act. IsThere colours size motifs.now act) }
{
    let place = read_place(words, size, motifs)?;
    Ok(Act::HalfDrop {
        motif: place.motif,
        column: place.column,
        pick: place.pick,
    })
}

fn read_place(words: &mut Words, size: Size, motifs: &Motifs) -> Result<Place, ActFault>
    ensures sound { (colours : ℕ) → OnOk result (slice_get (act_faults colours size motifs.now (parts_of ActKind.Stamp) words.old) 0 ≡ None) }
    ensures place { IfOk result (λ p. p ≡ place_in motifs.now words.old) }
    ensures there { IfOk result (λ p. (p.motif < length motifs.now) × IsCell size p.column p.pick) }
    ensures fault { (colours : ℕ) → IfErr result (λ f. slice_get (act_faults colours size motifs.now (parts_of ActKind.Stamp) words.old) 0 ≡ Some f) }
{
    let (name, column, pick) = three(words)?;
    let column = number_at(2, column)?;
    let pick = number_at(3, pick)?;
    let Some(motif) = motifs.find_bytes(name) else {
        return Err(ActFault::NoMotif);
    };
    stays_below(column, size.columns)?;
    stays_below(pick, size.picks)?;
    Ok(Place {
        motif,
        column,
        pick,
    })
}

#[tactic(auto, unfolding(crate::specs::Acts::act_of_words))]
fn commit(words: &mut Words) -> Result<Act, ActFault>
    ensures act { (colours : ℕ) (size : Size) (motifs : List NamedMotif) → result ≡ act_of_words colours size motifs ActKind.Commit words.old }
    ensures there { (colours : ℕ) (size : Size) (motifs : List NamedMotif) → IfOk result (λ act. IsThere colours size motifs act) }
{
    match words.next() {
        None => Ok(Act::Commit),
        Some(_) => Err(ActFault::Word(1)),
    }
}

// the words, where there are three, and else the place of the first that is missing or superfluous
fn three<'a>(words: &mut Words<'a>) -> Result<(&'a [u8], &'a [u8], &'a [u8]), ActFault>
    ensures { MatchResult result (λ three. words.old ≡ three.0.now ∷ three.1.now ∷ three.2.now ∷ []) (λ f. count_faults 3 (length words.old) ≡ f ∷ []) }
{
    let Some(first) = words.next() else {
        return Err(ActFault::Word(1));
    };
    let Some(second) = words.next() else {
        return Err(ActFault::Word(2));
    };
    let Some(third) = words.next() else {
        return Err(ActFault::Word(3));
    };
    match words.next() {
        None => Ok((first, second, third)),
        Some(_) => Err(ActFault::Word(4)),
    }
}

// the same, where there are five
fn five<'a>(
    words: &mut Words<'a>,
) -> Result<(&'a [u8], &'a [u8], &'a [u8], &'a [u8], &'a [u8]), ActFault>
    ensures { MatchResult result (λ five. words.old ≡ five.0.now ∷ five.1.now ∷ five.2.now ∷ five.3.now ∷ five.4.now ∷ []) (λ f. count_faults 5 (length words.old) ≡ f ∷ []) }
{
    let Some(first) = words.next() else {
        return Err(ActFault::Word(1));
    };
    let Some(second) = words.next() else {
        return Err(ActFault::Word(2));
    };
    let Some(third) = words.next() else {
        return Err(ActFault::Word(3));
    };
    let Some(fourth) = words.next() else {
        return Err(ActFault::Word(4));
    };
    let Some(fifth) = words.next() else {
        return Err(ActFault::Word(5));
    };
    match words.next() {
        None => Ok((first, second, third, fourth, fifth)),
        Some(_) => Err(ActFault::Word(6)),
    }
}

fn number_at(place: u32, word: &[u8]) -> Result<u32, ActFault>
    ensures { MatchResult result (λ n. number_of word.now ≡ Some n) (λ f. (number_of word.now ≡ None) × (f ≡ ActFault.Number place)) }
{
    match number(word) {
        Some(number) => Ok(number),
        None => Err(ActFault::Number(place)),
    }
}

fn colour_below(colour: u32, colours: u32) -> Result<u8, ActFault>
    requires { colours ≤ MAX_COLOURS }
    ensures { MatchResult result (λ c. (colour < colours) × (c ≡ colour)) (λ f. (colours ≤ colour) × (f ≡ ActFault.NoColour)) }
{
    if colour >= colours {
        return Err(ActFault::NoColour);
    }
    Ok(colour as u8)
}

fn stays_below(place: u32, bound: u32) -> Result<(), ActFault>
    ensures { MatchResult result (λ _. place < bound) (λ f. (bound ≤ place) × (f ≡ ActFault.OutOfPaper)) }
{
    if place >= bound {
        return Err(ActFault::OutOfPaper);
    }
    Ok(())
}
