//! Repeats that are woven from cards.
ghost use Rattle.std.specs.Prelude.{◌≡◌, ◌+◌, ◌-◌, ◌<◌, ◌≤◌, ◌++◌, [], ◌∷◌, Bool, length, take, is_some, true, if◌then◌else◌, All, IfOk, IfSome};
ghost use Rattle.std.specs.Arc.{arc_value};
ghost use Rattle.std.specs.Option.{ForSome, option_map, option_to_list};
ghost use Rattle.std.specs.Vec.{vec_capacity};
ghost use Rattle.mill_base.specs.declared.face.Face.{Face as FaceValue};
ghost use Rattle.draft_model.specs.Designs.{Fits};
ghost use Rattle.card_image.specs.Sets.{design_by};
ghost use Rattle.loom_machine.specs.Machines.{MachineValue};
ghost use Rattle.loom_threads.specs.Cuts.{machine_of};
ghost use Rattle.loom_threads.specs.Lifts.{cloth_from};
ghost use Rattle.loom_threads.specs.Woven.{repeat_of};
ghost use Rattle.loom_threads.specs.inner.Weavers.{HasSize, IsOfCloth, KeepsLast};

use crate::lifter::Lifter;
use card_image::card_set::CardSet;
use draft_model::cloth::Cloth;
use draft_model::design::Design;
use mill_base::face::Face;
use mill_base::listed::Listed;
use mill_base::memory::OutOfMemory;
use std::alloc::Global;
use std::marker::Model;
use std::sync::Arc;
use version_journal::run_log::Repeat;

/// Weaves repeats from cards, one after another. It keeps memory for all that are to come, so that weaving takes none, and the cards of
/// the last repeat, so that equal cards are not lifted again.
#[derive(Drop)]
pub struct Weaver {
    lifter: Lifter,
    picks: u32,
    shown: bool,
    repeats: Vec<Repeat>,
    spare: u32,
    ready: Vec<Cloth>,
    kept: Option<Arc<CardSet>>,
}

impl Model for Weaver {
    ghost use Rattle.loom_threads.specs.inner.Weavers.{WeaverValue};

    ghost Value = { WeaverValue };

    ghost use Rattle.loom_threads.specs.inner.WeaverFields.{IsWeaver, weaver_of};

    ghost view = { weaver_of };

    ghost invariant = { IsWeaver };
}

impl Weaver {
    /// A weaver of cloths on a face of a design, with room for so many repeats.
    pub fn new(
        alloc: Global,
        design: &Design,
        face: Face,
        shown: bool,
        count: u32,
    ) -> Result<Weaver, OutOfMemory>
        requires { Fits design.now }
        ensures { IfOk result (λ weaver. weaver
            ≡ record { machine = machine_of design.now; picks = design.now.size.picks; face = face; shown = shown; repeats = []; spare = count }) }
    {
        let picks = design.size.picks;
        let lifter = Lifter::new(alloc, &design.tie, &design.casting, face)?;
        let repeats = Vec::with_capacity(alloc, count as usize)?;
        let ready = blank_cloths(alloc, design.tie.ends(), picks, ready_count(shown, count))?;
        Ok(Weaver {
            lifter,
            picks,
            shown,
            repeats,
            spare: count,
            ready,
            kept: None,
        })
    }

    /// The repeats that were woven.
    pub fn repeats(&self) -> &[Repeat]
        ensures { result.now ≡ self.now.repeats }
    {
        &self.repeats
    }

    /// How many repeats were woven.
    pub fn woven(&self) -> u32
        ensures { result ≡ length self.now.repeats }
    {
        self.repeats.len() as u32
    }

    /// Gives the repeats away.
    pub fn into_repeats(self) -> Listed<Repeat>
        ensures { result ≡ self.repeats }
    {
        let Weaver { repeats, .. } = self;
        Listed::of(repeats)
    }

    /// How many more repeats there is room for.
    pub fn spare(&self) -> u32
        ensures { result ≡ self.now.spare }
    {
        self.spare
    }

    /// Adds a repeat of these cards. Where they are equal to those of the last repeat, its cloth is copied. It takes no memory.
    pub fn weave(&mut self, shift: u32, version: u32, cards: &Arc<CardSet>)
        requires spare { 0 < self.old.spare }
        requires cards { (arc_value cards.now).design ≡ design_by self.old.machine.casting self.old.picks }
        ensures { self.new ≡ record self.old {
          repeats = self.old.repeats ++ repeat_of shift version self.old.shown (cloth_from self.old.machine self.old.face (arc_value cards.now)) ∷ [];
          spare = self.old.spare - 1;
        } }
    {
        let room = self.ready.pop();
        let set: &CardSet = cards;
        let last = last_of_equal(&self.kept, &self.repeats, set);
        let repeat = weave_cloth(&mut self.lifter, last, set, room, shift, version);
        self.repeats.push_reserved(repeat);
        self.spare -= 1;
        self.kept = another_owner(cards);
    }

    /// Keeps the first repeats, so many; the room of the others is spare again.
    pub fn cut(&mut self, count: u32)
        requires { count ≤ length self.old.repeats }
        ensures { self.new ≡ record self.old {
          repeats = take count self.old.repeats;
          spare = self.old.spare + (length self.old.repeats - count);
        } }
    {
        while (count as usize) < self.repeats().len() {
            self.cut_last();
        }
    }

    // Lets the last repeat go, and lays its cloth ready.
    fn cut_last(&mut self)
        requires { 0 < length self.old.repeats }
        ensures { self.new ≡ record self.old { repeats = take (length self.old.repeats - 1) self.old.repeats; spare = self.old.spare + 1 } }
    {
        self.kept = None;
        self.spare += 1;
        if let Some(repeat) = self.repeats.pop() {
            lay_ready(repeat, &mut self.ready);
        }
    }
}

// How many cloths are to lie ready.
fn ready_count(shown: bool, count: u32) -> u32
    ensures { result ≡ (if shown then count else 0) }
{
    if shown { count } else { 0 }
}

// So many cloths of one size.
fn blank_cloths(alloc: Global, ends: u32, picks: u32, count: u32) -> Result<Vec<Cloth>, OutOfMemory>
    ensures count { IfOk result (λ cloths. length cloths.items ≡ count) }
    ensures room { IfOk result (λ cloths. count ≤ vec_capacity cloths) }
    ensures sizes { IfOk result (λ cloths. All (HasSize ends picks) cloths.items) }
{
    let mut cloths = Vec::with_capacity(alloc, count as usize)?;
    'cloths: for _ in 0..count {
        let cloth = Cloth::blank(alloc, ends, picks)?;
        cloths.push_reserved(cloth);
    }
    Ok(cloths)
}

// The last repeat, where it was woven from equal cards.
fn last_of_equal<'a>(
    kept: &Option<Arc<CardSet>>,
    repeats: &'a [Repeat],
    cards: &CardSet,
) -> Option<&'a Repeat>
    ensures { ForSome result (λ last. (machine : MachineValue) (face : FaceValue) (shown : Bool)
        → KeepsLast machine face shown (option_map (λ cards. arc_value cards) kept.now) repeats.now
        → IsOfCloth shown (cloth_from machine face cards.now) last.now) }
{
    match kept {
        Some(kept) if kept.equals(cards) => repeats.last(),
        _ => None,
    }
}

// A repeat of these cards, with rows where there is room for them. Its cloth is that of the other repeat, if there is one.
fn weave_cloth(
    lifter: &mut Lifter,
    other: Option<&Repeat>,
    cards: &CardSet,
    room: Option<Cloth>,
    shift: u32,
    version: u32,
) -> Repeat
    requires hooks { cards.now.design.hooks ≡ lifter.old.machine.casting.hooks }
    requires room { ForSome room (HasSize (length lifter.old.machine.tie.ends) cards.now.design.picks) }
    requires other { ForSome other (λ other. IsOfCloth (is_some room) (cloth_from lifter.old.machine lifter.old.face cards.now) other.now) }
    ensures lifter { lifter.new ≡ lifter.old }
    ensures repeat { result ≡ repeat_of shift version (is_some room) (cloth_from lifter.old.machine lifter.old.face cards.now) }
{
    if let Some(other) = other {
        return Repeat {
            shift,
            version,
            digest: other.digest,
            rows: copied(&other.rows, room),
        };
    }
    match room {
        None => Repeat {
            shift,
            version,
            digest: lifter.digest(cards),
            rows: None,
        },
        Some(mut cloth) => Repeat {
            shift,
            version,
            digest: lifter.lift(cards, &mut cloth),
            rows: Some(cloth),
        },
    }
}

// The rows, copied into the room for them.
fn copied(rows: &Option<Cloth>, room: Option<Cloth>) -> Option<Cloth>
    requires there { is_some rows.now ≡ is_some room }
    requires size { IfSome room (λ room. ForSome rows.now (HasSize room.ends (length room.rows))) }
    ensures { result ≡ rows.now }
{
    let mut cloth = room?;
    if let Some(rows) = rows {
        copy_rows(rows, &mut cloth);
    }
    Some(cloth)
}

fn copy_rows(from: &Cloth, to: &mut Cloth)
    requires { HasSize to.old.ends (length to.old.rows) from.now }
    ensures { to.new ≡ from.now }
{
    for pick in 0..from.picks() {
        to.set_row(pick, from.row(pick));
    }
}

fn another_owner(cards: &Arc<CardSet>) -> Option<Arc<CardSet>>
    ensures { ForSome result (λ owner. arc_value owner ≡ arc_value cards.now) }
{
    match Arc::try_clone(cards) {
        Ok(owner) => Some(owner),
        Err(_) => None,
    }
}

// Lays the cloth of a repeat ready, if it has one.
fn lay_ready(repeat: Repeat, ready: &mut Vec<Cloth>)
    requires { is_some repeat.rows ≡ true → length ready.old.items < vec_capacity ready.old }
    ensures ready { ready.new.items ≡ ready.old.items ++ option_to_list repeat.rows }
    ensures room { vec_capacity ready.new ≡ vec_capacity ready.old }
{
    let Repeat { rows, .. } = repeat;
    if let Some(cloth) = rows {
        ready.push_reserved(cloth);
    }
}
